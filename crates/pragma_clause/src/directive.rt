//! Directives (OpenMP 5.2, 5.6, 10.1, 11.5.1, 15.9, 15.10, 17).

ghost use Rattle.std.specs.Prelude.{◌≡◌, option_map};
ghost use Rattle.semantics.specs.Directives.DirectiveGrammar.{words};
ghost use Rattle.ktree.specs.DirectiveView.{name_of};
ghost use Rattle.pragma_clause.specs.DirectiveReader.{closes, enclosed_name, scan_kind, scan, sink, source, dependence, doacross, ordered, worksharing, parallel_for, parallel, behind_first, directive};
ghost use Rattle.pragma_clause.specs.Outcome.{Gives};
ghost use Rattle.pragma_clause.specs.Views.{written_directive};

use crate::clauses::{On, directive_clauses};
use crate::element::vector;
use crate::name::{Setting, name};
use crate::tokens::{is_end, is_word, punctuator, run, word};
use crate::unread::Unread;
use crate::word::Punctuator;
use ktree::{Directive, Written};

/// What stands behind `)`, where that comes next and no word stands behind it.
fn closes(text: &[u8]) -> Option<&[u8]>
    ensures { option_map (λ rest. words rest.now) result ≡ closes (words text.now) }
{
    let rest = punctuator(Punctuator::CloseParen, text)?;
    if is_end(rest) { Some(rest) } else { None }
}

/// The one name of a scan directive.
fn enclosed_name(setting: Setting, text: &[u8]) -> Result<Written, Unread>
    ensures { Gives name_of result (enclosed_name (words text.now)) }
{
    let Some(inner) = punctuator(Punctuator::OpenParen, text) else {
        return Err(Unread::Malformed);
    };
    let (name, rest) = name(setting, inner)?;
    match closes(rest) {
        Some(_) => Ok(name),
        None => Err(Unread::Malformed),
    }
}

/// A scan directive of the kind that a word is.
fn scan_kind(word: &[u8], name: Written) -> Option<Directive<Written>>
    ensures { option_map written_directive result ≡ scan_kind word.now (name_of name) }
{
    if is_word(word, b"inclusive") {
        return Some(Directive::ScanInclusive(name));
    }
    if is_word(word, b"exclusive") {
        return Some(Directive::ScanExclusive(name));
    }
    None
}

/// The directive of what stands behind `scan`.
fn scan(setting: Setting, text: &[u8]) -> Result<Directive<Written>, Unread>
    ensures { Gives written_directive result (scan (words text.now)) }
{
    let Some((word, rest)) = run(text) else {
        return Err(Unread::Malformed);
    };
    let name = enclosed_name(setting, rest)?;
    match scan_kind(word, name) {
        Some(directive) => Ok(directive),
        None => Err(Unread::Malformed),
    }
}

/// The directive of what stands behind `sink` and its colon.
fn sink(setting: Setting, text: &[u8]) -> Result<Directive<Written>, Unread>
    ensures { Gives written_directive result (sink setting.length (words text.now)) }
{
    let (elements, rest) = vector(setting, text)?;
    match closes(rest) {
        Some(_) => Ok(Directive::DoacrossSink(elements)),
        None => Err(Unread::Malformed),
    }
}

/// The directive of what stands behind `source` and its colon.
fn source(text: &[u8]) -> Option<Directive<Written>>
    ensures { option_map written_directive result ≡ source (words text.now) }
{
    match closes(text) {
        Some(_) => Some(Directive::DoacrossSource),
        None => None,
    }
}

/// The directive of a doacross clause, by its word and what stands behind the colon.
fn dependence(setting: Setting, word: &[u8], text: &[u8]) -> Result<Directive<Written>, Unread>
    ensures { Gives written_directive result
        (dependence setting.length word.now (words text.now)) }
{
    if is_word(word, b"source") {
        return match source(text) {
            Some(directive) => Ok(directive),
            None => Err(Unread::Malformed),
        };
    }
    if is_word(word, b"sink") {
        return sink(setting, text);
    }
    Err(Unread::Malformed)
}

/// The directive of what stands behind `doacross`.
fn doacross(setting: Setting, text: &[u8]) -> Result<Directive<Written>, Unread>
    ensures { Gives written_directive result (doacross setting.length (words text.now)) }
{
    let Some(inner) = punctuator(Punctuator::OpenParen, text) else {
        return Err(Unread::Malformed);
    };
    let Some((word, rest)) = run(inner) else {
        return Err(Unread::Malformed);
    };
    let Some(behind) = punctuator(Punctuator::Colon, rest) else {
        return Err(Unread::Malformed);
    };
    dependence(setting, word, behind)
}

/// The directive of what stands behind `ordered`.
fn ordered_directive(setting: Setting, text: &[u8]) -> Result<Directive<Written>, Unread>
    ensures { Gives written_directive result (ordered setting.length (words text.now)) }
{
    if is_end(text) {
        return Ok(Directive::Ordered);
    }
    let Some(behind) = word(b"doacross", text) else {
        return Err(Unread::Malformed);
    };
    doacross(setting, behind)
}

/// The directive of what stands behind `for`.
fn worksharing_directive(setting: Setting, text: &[u8]) -> Result<Directive<Written>, Unread>
    ensures { Gives written_directive result
        (worksharing setting.exact setting.length (words text.now)) }
{
    let clauses = directive_clauses(setting, On::For, text)?;
    Ok(Directive::For(clauses))
}

/// The directive of what stands behind `parallel for`.
fn parallel_for(setting: Setting, text: &[u8]) -> Result<Directive<Written>, Unread>
    ensures { Gives written_directive result
        (parallel_for setting.exact setting.length (words text.now)) }
{
    let clauses = directive_clauses(setting, On::ParallelFor, text)?;
    Ok(Directive::ParallelFor(clauses))
}

/// The directive of what stands behind `parallel`.
fn parallel(setting: Setting, text: &[u8]) -> Result<Directive<Written>, Unread>
    ensures { Gives written_directive result
        (parallel setting.exact setting.length (words text.now)) }
{
    if let Some(behind) = word(b"for", text) {
        return parallel_for(setting, behind);
    }
    let clauses = directive_clauses(setting, On::Parallel, text)?;
    Ok(Directive::Parallel(clauses))
}

/// The directive of what stands behind its first word.
fn behind_first(setting: Setting, word: &[u8], text: &[u8]) -> Result<Directive<Written>, Unread>
    ensures { Gives written_directive result
        (behind_first setting.exact setting.length word.now (words text.now)) }
{
    if is_word(word, b"parallel") {
        return parallel(setting, text);
    }
    if is_word(word, b"for") {
        return worksharing_directive(setting, text);
    }
    if is_word(word, b"scan") {
        return scan(setting, text);
    }
    if is_word(word, b"ordered") {
        return ordered_directive(setting, text);
    }
    Err(Unread::Malformed)
}

/// The directive that stands behind `omp`.
pub fn directive(setting: Setting, text: &[u8]) -> Result<Directive<Written>, Unread>
    ensures { Gives written_directive result
        (directive setting.exact setting.length (words text.now)) }
{
    let Some((word, rest)) = run(text) else {
        return Err(Unread::Malformed);
    };
    behind_first(setting, word, rest)
}
