//! The regions of a kernel.

ghost use Rattle.std.specs.Prelude.{◌≡◌, ◌+◌, ◌<◌, ◌^◌, ◌++◌, map, OnOk, OnErr, IfOk, IfErr};
ghost use Rattle.semantics.specs.Theorems.{Begins};
ghost use Rattle.pragma_region.specs.Listed.{loop_said, part_said};
ghost use Rattle.listing.specs.Regions.{printed, AddsListing, AddsPart};

use crate::calls::add_loop;
use crate::lines::add_line;
use deptest::Checked;
use ktree::Refusal;
use pragma_region::{RegionLoop, RegionPart};
use std::alloc::AllocError;

/// How many regions are listed, and how many loops of the last of them.
#[derive(Clone, Copy)]
struct Listed {
    regions: usize,
    loops: usize,
}

// Adds the begin of the next region: its fork (`__kmpc_fork_call`; OpenMP 5.2, 10.1).
fn add_fork(text: &mut Vec<u8>, before: Listed) -> Result<Listed, AllocError>
    requires { before.regions + 1 < 2 ^ 64 }
    ensures added { IfOk result (AddsPart None before text.old.items text.new.items) }
    ensures front { Begins text.old.items text.new.items }
{
    let regions = before.regions + 1;
    add_line(text, regions, 0, b"__kmpc_fork_call", b"")?;
    Ok(Listed { regions, loops: 0 })
}

// Adds the next loop of the last region.
fn add_next_loop(
    text: &mut Vec<u8>,
    before: Listed,
    region_loop: &RegionLoop,
) -> Result<Listed, AllocError>
    requires { before.loops + 1 < 2 ^ 64 }
    ensures added { IfOk result (AddsPart (Some (loop_said region_loop.now)) before text.old.items
        text.new.items) }
    ensures front { Begins text.old.items text.new.items }
{
    let loops = before.loops + 1;
    add_loop(text, before.regions, loops, region_loop)?;
    Ok(Listed {
        regions: before.regions,
        loops,
    })
}

// Adds the lines of a part.
fn add_part(text: &mut Vec<u8>, before: Listed, part: &RegionPart) -> Result<Listed, AllocError>
    requires regions { before.regions + 1 < 2 ^ 64 }
    requires loops { before.loops + 1 < 2 ^ 64 }
    ensures added { IfOk result (AddsPart (part_said part.now) before text.old.items
        text.new.items) }
    ensures front { Begins text.old.items text.new.items }
{
    match &part.said {
        None => add_fork(text, before),
        Some(region_loop) => add_next_loop(text, before, region_loop),
    }
}

// Adds the lines of all parts.
fn add_parts(text: &mut Vec<u8>, parts: &[RegionPart]) -> Result<(), AllocError>
    ensures added { OnOk result (text.new.items
        ≡ text.old.items ++ printed 0 0 (map part_said parts.now)) }
    ensures front { Begins text.old.items text.new.items }
{
    let mut listed = Listed {
        regions: 0,
        loops: 0,
    };
    for part in parts {
        listed = add_part(text, listed, part)?;
    }
    Ok(())
}

/// Adds the listing of a kernel's parallel regions, in the order of the text: a line for each call of LLVM's OpenMP runtime,
/// behind the numbers of its region and loop. Each `parallel for` is a region of its own with one loop, each `parallel` one with the
/// loops of its block.
///
/// # Errors
///
/// `OutOfMemory`; the lines are then as they were.
pub fn add_listing(kernel: &Checked, lines: &mut Vec<u8>) -> Result<(), Refusal>
    ensures added { OnOk result (AddsListing kernel.now lines.old.items lines.new.items) }
    ensures kept { OnErr result (lines.new.items ≡ lines.old.items) }
    ensures err { IfErr result (λ refusal. refusal ≡ Refusal.OutOfMemory) }
{
    let length = lines.len();
    // What holds of an accepted text: each of its directive lines stands where it may.
    let _accepted = kernel.declarations();
    if add_parts(lines, kernel.regions()).is_err() {
        lines.truncate(length);
        return Err(Refusal::OutOfMemory);
    }
    Ok(())
}
