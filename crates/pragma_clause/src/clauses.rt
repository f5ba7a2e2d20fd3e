//! The clauses of a directive (OpenMP 5.2, 3.1).

ghost use Rattle.std.specs.Prelude.{◌≡◌, [], map, count_by};
ghost use Rattle.std.specs.List.{list_all};
ghost use Rattle.semantics.specs.Directives.DirectiveGrammar.{words, at_most_one, each_once};
ghost use Rattle.pragma_clause.specs.ClauseReader.{behind_comma, further, clauses, directive_clauses};
ghost use Rattle.pragma_clause.specs.ClauseKinds.{may_have, is_single, is_unfit, is_counted};
ghost use Rattle.pragma_clause.specs.Outcome.{Gives};
ghost use Rattle.pragma_clause.specs.Views.{written_clause, clauses_of};

use crate::clause::clause;
use crate::name::Setting;
use crate::tokens::{is_end, punctuator};
use crate::unread::Unread;
use crate::word::Punctuator;
use ktree::{Clause, Written};

/// A directive that has clauses.
#[derive(Clone, Copy)]
pub enum On {
    ParallelFor,
    Parallel,
    For,
}

/// A kind of clauses of which at most one stands on a directive.
#[derive(Clone, Copy)]
pub enum Single {
    Default,
    Schedule,
    Collapse,
    Ordered,
    Nowait,
}

/// Whether a clause may stand on this directive.
fn may_have(on: On, clause: &Clause<Written>) -> bool
    ensures { result ≡ may_have on (written_clause clause.now) }
{
    match clause {
        Clause::DefaultShared | Clause::DefaultNone | Clause::Shared(_) => !matches!(on, On::For),
        Clause::Private(_) | Clause::Firstprivate(_) => true,
        Clause::Nowait => matches!(on, On::For),
        _ => !matches!(on, On::Parallel),
    }
}

/// Whether a clause is of this kind.
fn is_single(single: Single, clause: &Clause<Written>) -> bool
    ensures { result ≡ is_single single (written_clause clause.now) }
{
    match single {
        Single::Default => matches!(clause, Clause::DefaultShared | Clause::DefaultNone),
        Single::Schedule => matches!(clause, Clause::Schedule(_)),
        Single::Collapse => matches!(clause, Clause::Collapse(_)),
        Single::Ordered => matches!(clause, Clause::Ordered | Clause::OrderedLoops(_)),
        Single::Nowait => matches!(clause, Clause::Nowait),
    }
}

/// How many clauses may not stand on this directive.
fn count_unfit(on: On, clauses: &[Clause<Written>]) -> usize
    ensures { result ≡ count_by (is_unfit on) clauses.now }
{
    clauses
        .iter()
        .filter(|clause| !may_have(on, clause))
        .count()
}

/// How many clauses are of this kind.
fn count_single(single: Single, clauses: &[Clause<Written>]) -> usize
    ensures { result ≡ count_by (is_counted single) clauses.now }
{
    clauses
        .iter()
        .filter(|clause| is_single(single, clause))
        .count()
}

/// Whether all clauses may stand on this directive.
#[tactic(auto, using(crate::proofs::Counts::all_fit))]
fn are_fit(on: On, clauses: &[Clause<Written>]) -> bool
    ensures { result ≡ list_all (may_have on) (map written_clause clauses.now) }
{
    count_unfit(on, clauses) == 0
}

/// Whether at most one clause is of this kind.
#[tactic(auto, using(crate::proofs::Counts::single))]
fn at_most_one(single: Single, clauses: &[Clause<Written>]) -> bool
    ensures { result ≡ at_most_one (is_single single) (map written_clause clauses.now) }
{
    count_single(single, clauses) <= 1
}

/// Whether no two clauses are of a kind that stands at most once.
fn each_once(clauses: &[Clause<Written>]) -> bool
    ensures { result ≡ each_once (map written_clause clauses.now) }
{
    at_most_one(Single::Default, clauses)
        && at_most_one(Single::Schedule, clauses)
        && at_most_one(Single::Collapse, clauses)
        && at_most_one(Single::Ordered, clauses)
        && at_most_one(Single::Nowait, clauses)
}

/// What stands behind a comma, if one comes next, and else the text itself.
fn behind_comma(text: &[u8]) -> &[u8]
    ensures { words result.now ≡ behind_comma (words text.now) }
{
    match punctuator(Punctuator::Comma, text) {
        None => text,
        Some(rest) => rest,
    }
}

/// Clauses up to the end, each behind a comma or none.
fn further(setting: Setting, text: &[u8]) -> Result<Vec<Clause<Written>>, Unread>
    ensures { Gives clauses_of result
        (further setting.exact setting.length setting.length [] (words text.now)) }
{
    let mut clauses = Vec::new(setting.alloc);
    let mut rest = text;
    for _turn in 0..setting.length {
        if is_end(rest) {
            return Ok(clauses);
        }
        let (next, behind) = clause(setting, behind_comma(rest))?;
        clauses.push(next)?;
        rest = behind;
    }
    Err(Unread::Malformed)
}

/// Clauses up to the end, of which the first has no comma in front.
fn clauses(setting: Setting, text: &[u8]) -> Result<Vec<Clause<Written>>, Unread>
    ensures { Gives clauses_of result (clauses setting.exact setting.length (words text.now)) }
{
    match punctuator(Punctuator::Comma, text) {
        None => further(setting, text),
        Some(_) => Err(Unread::Malformed),
    }
}

/// The clauses of a directive, which may all stand on it.
pub fn directive_clauses(
    setting: Setting,
    on: On,
    text: &[u8],
) -> Result<Vec<Clause<Written>>, Unread>
    ensures { Gives clauses_of result
        (directive_clauses setting.exact setting.length (may_have on) (words text.now)) }
{
    let clauses = clauses(setting, text)?;
    if are_fit(on, clauses.as_slice()) && each_once(clauses.as_slice()) {
        Ok(clauses)
    } else {
        Err(Unread::Malformed)
    }
}
