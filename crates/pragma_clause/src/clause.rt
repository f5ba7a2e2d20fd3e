//! Clauses (OpenMP 5.2, 4.4.3, 4.4.4, 5.4, 5.5.8, 11.5.3, 15.6).

ghost use Rattle.std.specs.Prelude.{◌≡◌, option_map};
ghost use Rattle.semantics.specs.Directives.DirectiveGrammar.{words};
ghost use Rattle.ktree.specs.DirectiveView.{operator_of};
ghost use Rattle.pragma_clause.specs.ClauseReader.{operator, identifier, inscan, reduction, conditional, last, naming, named, default', plain, is_plain, inside, enclosed, loops, ordered_clause, behind_word, clause};
ghost use Rattle.pragma_clause.specs.Outcome.{Gives};
ghost use Rattle.pragma_clause.specs.Views.{with_rest, names_of, written_clause};

use crate::name::{Setting, name, names};
use crate::number::{loops, schedule};
use crate::tokens::{is_word, punctuator, run, word};
use crate::unread::Unread;
use crate::word::Punctuator;
use ktree::{Clause, ReductionOperator, Written};

/// The reduction operator that a word is (OpenMP 5.2, 5.5.1).
fn operator(word: &[u8]) -> Option<ReductionOperator>
    ensures { option_map operator_of result ≡ operator word.now }
{
    if is_word(word, b"+") {
        return Some(ReductionOperator::Sum);
    }
    if is_word(word, b"*") {
        return Some(ReductionOperator::Product);
    }
    if is_word(word, b"&") {
        return Some(ReductionOperator::And);
    }
    if is_word(word, b"|") {
        return Some(ReductionOperator::Or);
    }
    if is_word(word, b"^") {
        return Some(ReductionOperator::Xor);
    }
    if is_word(word, b"&&") {
        return Some(ReductionOperator::LogicalAnd);
    }
    if is_word(word, b"||") {
        return Some(ReductionOperator::LogicalOr);
    }
    if is_word(word, b"max") {
        return Some(ReductionOperator::Max);
    }
    if is_word(word, b"min") {
        return Some(ReductionOperator::Min);
    }
    None
}

/// A reduction operator and its colon, and what stands behind.
fn identifier(text: &[u8]) -> Option<(ReductionOperator, &[u8])>
    ensures { option_map (with_rest operator_of) result ≡ identifier (words text.now) }
{
    let (word, rest) = run(text)?;
    let operator = operator(word)?;
    Some((operator, punctuator(Punctuator::Colon, rest)?))
}

/// The operator and the one name behind `inscan`, and what stands behind them.
fn inscan<'l>(setting: Setting, text: &'l [u8]) -> Result<(Clause<Written>, &'l [u8]), Unread>
    ensures { Gives (with_rest written_clause) result (inscan (words text.now)) }
{
    let Some(text) = punctuator(Punctuator::Comma, text) else {
        return Err(Unread::Malformed);
    };
    let Some((operator, text)) = identifier(text) else {
        return Err(Unread::Malformed);
    };
    let (name, rest) = name(setting, text)?;
    Ok((Clause::Inscan(operator, name), rest))
}

/// What stands between the parentheses of a reduction clause, and what stands behind that.
fn reduction<'l>(setting: Setting, text: &'l [u8]) -> Result<(Clause<Written>, &'l [u8]), Unread>
    ensures { Gives (with_rest written_clause) result (reduction setting.length (words text.now)) }
{
    if let Some(text) = word(b"inscan", text) {
        return inscan(setting, text);
    }
    let Some((operator, text)) = identifier(text) else {
        return Err(Unread::Malformed);
    };
    let (names, rest) = names(setting, text)?;
    Ok((Clause::Reduction(operator, names), rest))
}

/// What stands behind `conditional` and its colon, if they come next.
fn conditional(text: &[u8]) -> Option<&[u8]>
    ensures { option_map (λ rest. words rest.now) result ≡ conditional (words text.now) }
{
    punctuator(Punctuator::Colon, word(b"conditional", text)?)
}

/// What stands between the parentheses of a lastprivate clause, and what stands behind that.
fn last<'l>(setting: Setting, text: &'l [u8]) -> Result<(Clause<Written>, &'l [u8]), Unread>
    ensures { Gives (with_rest written_clause) result (last setting.length (words text.now)) }
{
    if let Some(text) = conditional(text) {
        let (names, rest) = names(setting, text)?;
        return Ok((Clause::LastConditional(names), rest));
    }
    let (names, rest) = names(setting, text)?;
    Ok((Clause::Lastprivate(names), rest))
}

/// The clause of a word in whose parentheses names alone stand.
fn clause_of_names(word: &[u8], names: Vec<Written>) -> Option<Clause<Written>>
    ensures { option_map written_clause result ≡ naming word.now (names_of names) }
{
    if is_word(word, b"shared") {
        return Some(Clause::Shared(names));
    }
    if is_word(word, b"private") {
        return Some(Clause::Private(names));
    }
    if is_word(word, b"firstprivate") {
        return Some(Clause::Firstprivate(names));
    }
    None
}

/// Names and the clause of a word that they stand in, and what stands behind them.
fn names_clause<'l>(
    setting: Setting,
    word: &[u8],
    text: &'l [u8],
) -> Result<(Clause<Written>, &'l [u8]), Unread>
    ensures { Gives (with_rest written_clause) result
        (named setting.length word.now (words text.now)) }
{
    let (names, rest) = names(setting, text)?;
    match clause_of_names(word, names) {
        Some(clause) => Ok((clause, rest)),
        None => Err(Unread::Malformed),
    }
}

/// What stands between the parentheses of a default clause.
fn default(word: &[u8]) -> Option<Clause<Written>>
    ensures { option_map written_clause result ≡ default' word.now }
{
    if is_word(word, b"shared") {
        return Some(Clause::DefaultShared);
    }
    if is_word(word, b"none") {
        return Some(Clause::DefaultNone);
    }
    None
}

/// What stands between the parentheses of a clause without names, and what stands behind that.
fn plain<'l>(exact: bool, word: &[u8], text: &'l [u8]) -> Option<(Clause<Written>, &'l [u8])>
    ensures { option_map (with_rest written_clause) result ≡ plain exact word.now (words text.now) }
{
    if is_word(word, b"default") {
        let (word, rest) = run(text)?;
        return Some((default(word)?, rest));
    }
    if is_word(word, b"schedule") {
        let Some((schedule, rest)) = schedule(exact, text) else {
            return None;
        };
        return Some((Clause::Schedule(schedule), rest));
    }
    if is_word(word, b"collapse") {
        let Some((loops, rest)) = loops(exact, text) else {
            return None;
        };
        return Some((Clause::Collapse(loops), rest));
    }
    None
}

/// Whether a clause without names goes by this word.
fn is_plain(word: &[u8]) -> bool
    ensures { result ≡ is_plain word.now }
{
    if is_word(word, b"default") {
        return true;
    }
    if is_word(word, b"schedule") {
        return true;
    }
    is_word(word, b"collapse")
}

/// What stands between the parentheses behind a word, and what stands behind that.
fn inside<'l>(
    setting: Setting,
    word: &[u8],
    text: &'l [u8],
) -> Result<(Clause<Written>, &'l [u8]), Unread>
    ensures { Gives (with_rest written_clause) result
        (inside setting.exact setting.length word.now (words text.now)) }
{
    if is_plain(word) {
        return match plain(setting.exact, word, text) {
            Some(read) => Ok(read),
            None => Err(Unread::Malformed),
        };
    }
    if is_word(word, b"reduction") {
        return reduction(setting, text);
    }
    if is_word(word, b"lastprivate") {
        return last(setting, text);
    }
    names_clause(setting, word, text)
}

/// The parentheses behind a word with what stands between them, and what stands behind them.
fn enclosed_clause<'l>(
    setting: Setting,
    word: &[u8],
    text: &'l [u8],
) -> Result<(Clause<Written>, &'l [u8]), Unread>
    ensures { Gives (with_rest written_clause) result
        (enclosed setting.exact setting.length word.now (words text.now)) }
{
    let Some(inner) = punctuator(Punctuator::OpenParen, text) else {
        return Err(Unread::Malformed);
    };
    match inside(setting, word, inner) {
        Ok((clause, rest)) => match punctuator(Punctuator::CloseParen, rest) {
            Some(rest) => Ok((clause, rest)),
            None => Err(Unread::Malformed),
        },
        Err(unread) => Err(unread),
    }
}

/// The number of loops of an ordered clause and the parenthesis behind it, and what stands behind that.
fn ordered_loops(exact: bool, text: &[u8]) -> Option<(Clause<Written>, &[u8])>
    ensures { option_map (with_rest written_clause) result ≡ loops exact (words text.now) }
{
    let Some((loops, rest)) = loops(exact, text) else {
        return None;
    };
    let rest = punctuator(Punctuator::CloseParen, rest)?;
    Some((Clause::OrderedLoops(loops), rest))
}

/// What stands behind `ordered`, as a clause.
fn ordered_clause(exact: bool, text: &[u8]) -> Option<(Clause<Written>, &[u8])>
    ensures { option_map (with_rest written_clause) result ≡ ordered_clause exact (words text.now) }
{
    match punctuator(Punctuator::OpenParen, text) {
        None => Some((Clause::Ordered, text)),
        Some(inner) => ordered_loops(exact, inner),
    }
}

/// What stands behind the word of a clause, and what stands behind the clause.
fn behind_word<'l>(
    setting: Setting,
    word: &[u8],
    text: &'l [u8],
) -> Result<(Clause<Written>, &'l [u8]), Unread>
    ensures { Gives (with_rest written_clause) result
        (behind_word setting.exact setting.length word.now (words text.now)) }
{
    if is_word(word, b"nowait") {
        return Ok((Clause::Nowait, text));
    }
    if is_word(word, b"ordered") {
        return match ordered_clause(setting.exact, text) {
            Some(read) => Ok(read),
            None => Err(Unread::Malformed),
        };
    }
    enclosed_clause(setting, word, text)
}

/// The clause that comes next, and what stands behind it.
pub fn clause<'l>(setting: Setting, text: &'l [u8]) -> Result<(Clause<Written>, &'l [u8]), Unread>
    ensures { Gives (with_rest written_clause) result
        (clause setting.exact setting.length (words text.now)) }
{
    let Some((word, rest)) = run(text) else {
        return Err(Unread::Malformed);
    };
    behind_word(setting, word, rest)
}
