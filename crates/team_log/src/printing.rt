//! What chunks print, put in the order of their iterations (OpenMP 5.2, 15.10).

ghost use Rattle.std.specs.Prelude.{◌≡◌, true, ◌+◌, ◌<◌, ◌^◌, ◌++◌, [], map, flat_map, replicate, IfOk, IfErr, OnOk};
ghost use Rattle.seqrun_io.specs.Told.{AddsBeginning, Refuses};
ghost use Rattle.team_log.specs.Logged.{joined};
ghost use Rattle.team_log.specs.Printed.{AreSilent, entered, text_in_order};

use crate::log::ChunkLog;
use ktree::Refusal;
use seqrun_io::{Sink, put_all};
use std::alloc::{AllocError, Global};

// Whether all these chunks print nothing.
fn are_silent(logs: &[ChunkLog]) -> bool
    ensures { result ≡ true → AreSilent (joined logs.now).chunks }
{
    let Some((log, rest)) = logs.split_first() else {
        return true;
    };
    if !log.is_silent() {
        return false;
    }
    are_silent(rest)
}

// What each of these chunks prints stands at its number.
fn enter_all<'l>(logs: &'l [ChunkLog], texts: &mut [&'l [u8]])
    ensures { map (λ t. t.now) texts.new
        ≡ entered (joined logs.now).chunks (map (λ t. t.now) texts.old) }
{
    let Some((log, rest)) = logs.split_first() else {
        return;
    };
    log.enter_texts(texts);
    enter_all(rest, texts);
}

// So many times this text.
fn copies_of<'l>(alloc: Global, text: &'l [u8], count: u64) -> Result<Vec<&'l [u8]>, AllocError>
    ensures { IfOk result (λ texts. map (λ t. t.now) texts.items ≡ replicate count text.now) }
{
    Vec::from_elem(alloc, text, count as usize)
}

// What so many chunks print, each by its number.
fn texts_of<'l>(
    alloc: Global,
    logs: &'l [ChunkLog],
    count: u64,
) -> Result<Vec<&'l [u8]>, AllocError>
    ensures { IfOk result (λ texts. map (λ t. t.now) texts.items
        ≡ entered (joined logs.now).chunks (replicate count [])) }
{
    let mut texts = copies_of(alloc, &[], count)?;
    enter_all(logs, texts.as_mut_slice());
    Ok(texts)
}

// Puts these texts one behind another.
fn put_each<S: Sink>(sink: &mut S, texts: &[&[u8]]) -> Result<(), Refusal>
    requires { S.failed sink.old + 1 < 2 ^ 64 }
    ensures all { OnOk result (S.told sink.new
        ≡ S.told sink.old ++ flat_map (λ t. t) (map (λ t. t.now) texts.now)) }
    ensures beginning { AddsBeginning (S.told sink.old) (S.told sink.new)
        (flat_map (λ t. t) (map (λ t. t.now) texts.now)) }
    ensures sound { OnOk result (S.failed sink.new ≡ S.failed sink.old) }
    ensures refusal { IfErr result (Refuses (S.failed sink.old) (S.failed sink.new)) }
{
    for text in texts {
        put_all(sink, text)?;
    }
    Ok(())
}

/// Puts what so many chunks print, the first one's first. Where they print nothing, no memory is asked for.
///
/// # Errors
///
/// `OutOfMemory`, and nothing is put then; `OutputFailed` where a `put` failed.
pub fn put_texts<S: Sink>(
    alloc: Global,
    logs: &[ChunkLog],
    count: u64,
    sink: &mut S,
) -> Result<(), Refusal>
    requires { S.failed sink.old + 1 < 2 ^ 64 }
    ensures all { OnOk result (S.told sink.new
        ≡ S.told sink.old ++ text_in_order count (joined logs.now).chunks) }
    ensures beginning { AddsBeginning (S.told sink.old) (S.told sink.new)
        (text_in_order count (joined logs.now).chunks) }
    ensures sound { OnOk result (S.failed sink.new ≡ S.failed sink.old) }
    ensures refusal { IfErr result (Refuses (S.failed sink.old) (S.failed sink.new)) }
{
    if are_silent(logs) {
        return Ok(());
    }
    let texts = texts_of(alloc, logs, count)?;
    put_each(sink, texts.as_slice())
}
