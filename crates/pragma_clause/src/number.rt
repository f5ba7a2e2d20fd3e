//! Numbers and schedules (OpenMP 5.2, 11.5.3).

ghost use Rattle.std.specs.Prelude.{◌≡◌, ◌≤◌, ◌^◌, Option, option_map, IfSome};
ghost use Rattle.semantics.specs.Directives.DirectiveGrammar.{words};
ghost use Rattle.ktree.specs.DirectiveView.{schedule_of};
ghost use Rattle.pragma_clause.specs.ClauseReader.{number_in, number, size, plain_kind, sized_kind, kind, schedule};
ghost use Rattle.pragma_clause.specs.Views.{with_rest};

use crate::tokens::{is_word, punctuator, run};
use crate::word::Punctuator;
use ktree::limits::{ASSOCIATED_LOOPS, CHUNK_ITERATIONS};
use ktree::{AssociatedLoops, ChunkSize, Schedule};
use text::{is_decimal, value};

/// The number that a word is: a bare literal from 1 to a limit. Where it is not read exactly, any literal from 1 on is read
/// as 1.
pub fn number_in(exact: bool, most: u64, word: &[u8]) -> Option<u64>
    requires least { 1 ≤ most }
    requires most { most ≤ 2 ^ 24 }
    ensures value { result ≡ number_in exact most word.now }
    ensures least { IfSome result (λ n. 1 ≤ n) }
    ensures most { IfSome result (λ n. n ≤ most) }
{
    if !is_decimal(word) {
        return None;
    }
    match value(word) {
        Some(0) => None,
        Some(number) if exact && number <= most => Some(number),
        _ => { if exact { None } else { Some(1) } }
    }
}

/// The number of loops that comes next, 1 to 4, and what stands behind it.
pub fn loops(exact: bool, text: &[u8]) -> Option<(AssociatedLoops, &[u8])>
    ensures { option_map (with_rest (λ n. n)) result ≡ number exact 4 (words text.now) }
{
    let (word, rest) = run(text)?;
    let number = number_in(exact, ASSOCIATED_LOOPS as u64, word)?;
    Some((AssociatedLoops::new(number)?, rest))
}

/// The size of chunks that comes next, 1 to 2^24, and what stands behind it.
fn chunk(exact: bool, text: &[u8]) -> Option<(ChunkSize, &[u8])>
    ensures { option_map (with_rest (λ n. n)) result ≡ number exact (2 ^ 24) (words text.now) }
{
    let (word, rest) = run(text)?;
    let number = number_in(exact, CHUNK_ITERATIONS, word)?;
    Some((ChunkSize::new(number)?, rest))
}

/// A comma and the size of chunks, or neither, and what stands behind.
fn size(exact: bool, text: &[u8]) -> Option<(Option<ChunkSize>, &[u8])>
    ensures { option_map (with_rest (λ k. k)) result ≡ size exact (words text.now) }
{
    let Some(behind) = punctuator(Punctuator::Comma, text) else {
        return Some((None, text));
    };
    let Some((size, rest)) = chunk(exact, behind) else {
        return None;
    };
    Some((Some(size), rest))
}

/// Chunks of one iteration.
fn one() -> Option<ChunkSize>
    ensures { result ≡ Some 1 }
{
    ChunkSize::new(1)
}

/// A kind of schedule without a size.
fn plain_kind(word: &[u8]) -> Option<Schedule>
    ensures { option_map schedule_of result ≡ plain_kind word.now }
{
    if is_word(word, b"static") {
        return Some(Schedule::Static);
    }
    if is_word(word, b"dynamic") {
        return Some(Schedule::Dynamic(one()?));
    }
    if is_word(word, b"guided") {
        return Some(Schedule::Guided(one()?));
    }
    if is_word(word, b"auto") {
        return Some(Schedule::Auto);
    }
    if is_word(word, b"runtime") {
        return Some(Schedule::Runtime);
    }
    None
}

/// A kind of schedule with a size.
fn sized_kind(word: &[u8], size: ChunkSize) -> Option<Schedule>
    ensures { option_map schedule_of result ≡ sized_kind word.now size }
{
    if is_word(word, b"static") {
        return Some(Schedule::StaticChunks(size));
    }
    if is_word(word, b"dynamic") {
        return Some(Schedule::Dynamic(size));
    }
    if is_word(word, b"guided") {
        return Some(Schedule::Guided(size));
    }
    None
}

/// A kind of schedule, with a size or without.
fn kind(word: &[u8], size: Option<ChunkSize>) -> Option<Schedule>
    ensures { option_map schedule_of result ≡ kind word.now size }
{
    match size {
        None => plain_kind(word),
        Some(size) => sized_kind(word, size),
    }
}

/// What stands between the parentheses of a schedule clause, and what stands behind that.
pub fn schedule(exact: bool, text: &[u8]) -> Option<(Schedule, &[u8])>
    ensures { option_map (with_rest schedule_of) result ≡ schedule exact (words text.now) }
{
    let (word, rest) = run(text)?;
    let Some((size, rest)) = size(exact, rest) else {
        return None;
    };
    Some((kind(word, size)?, rest))
}
