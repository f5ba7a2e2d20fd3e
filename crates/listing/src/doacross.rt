//! The calls that stand for a doacross nest (OpenMP 5.2, 4.4.4 and 15.9.6).

ghost use Rattle.std.specs.Prelude.{◌≡◌, ◌++◌, ◌∷◌, [], codes, map, OnOk};
ghost use Rattle.std.specs.Global.{Vec as Vector};
ghost use Rattle.std.specs.Fmt.{signed_decimal};
ghost use Rattle.semantics.specs.Theorems.{Begins};
ghost use Rattle.semantics.specs.Directives.Listing.{with_commas, doacross_begin, doacross_calls, doacross_end, numbered};
ghost use Rattle.pragma_region.specs.Listed.{sink_kept};
ghost use Rattle.listing.specs.Regions.{wait_line};

use crate::lines::{add_front, add_line, add_parts};
use itoa::Buffer;
use pragma_region::RegionLoop;
use std::alloc::AllocError;

/// Adds the begin of a nest (`__kmpc_doacross_init`), where the loop is one.
///
/// # Errors
///
/// Where memory runs out; so for all of these.
pub(crate) fn add_nest_begin(
    text: &mut Vec<u8>,
    region: usize,
    number: usize,
    region_loop: &RegionLoop,
) -> Result<(), AllocError>
    ensures added { OnOk result (text.new.items
        ≡ text.old.items ++ numbered region number (doacross_begin region_loop.now.doacross)) }
    ensures front { Begins text.old.items text.new.items }
{
    match &region_loop.doacross {
        None => Ok(()),
        Some(loops) => {
            let mut digits = Buffer::new();
            let size = digits.format(loops.get()).as_bytes();
            add_line(text, region, number, b"__kmpc_doacross_init ", size)
        }
    }
}

// Adds an offset.
fn add_offset(text: &mut Vec<u8>, offset: i128) -> Result<(), AllocError>
    ensures added { OnOk result (text.new.items ≡ text.old.items ++ signed_decimal offset) }
    ensures front { Begins text.old.items text.new.items }
{
    let mut digits = Buffer::new();
    add_parts(text, &[digits.format(offset).as_bytes()])
}

// Adds offsets with commas between them.
fn add_offsets(text: &mut Vec<u8>, offsets: &[i128]) -> Result<(), AllocError>
    ensures added { OnOk result (text.new.items ≡ text.old.items ++ with_commas offsets.now) }
    ensures front { Begins text.old.items text.new.items }
{
    let Some((first, rest)) = offsets.split_first() else {
        return Ok(());
    };
    add_offset(text, *first)?;
    if rest.is_empty() {
        return Ok(());
    }
    add_parts(text, &[b","])?;
    add_offsets(text, rest)
}

// Adds the wait for a sink with these offsets (`__kmpc_doacross_wait`).
fn add_wait(
    text: &mut Vec<u8>,
    region: usize,
    number: usize,
    offsets: &[i128],
) -> Result<(), AllocError>
    ensures added { OnOk result (text.new.items
        ≡ text.old.items ++ numbered region number (wait_line offsets.now ∷ [])) }
    ensures front { Begins text.old.items text.new.items }
{
    add_front(text, region, number, b"__kmpc_doacross_wait ")?;
    add_offsets(text, offsets)?;
    add_parts(text, &[b"\n"])
}

// Adds those for some sinks.
fn add_waits(
    text: &mut Vec<u8>,
    region: usize,
    number: usize,
    sinks: &[Vec<i128>],
) -> Result<(), AllocError>
    ensures added { OnOk result (text.new.items
        ≡ text.old.items ++ numbered region number (map wait_line (map sink_kept sinks.now))) }
    ensures front { Begins text.old.items text.new.items }
{
    for sink in sinks {
        add_wait(text, region, number, sink.as_slice())?;
    }
    Ok(())
}

/// Adds what an iteration of a nest calls: a wait for each of its sinks, and the post (`__kmpc_doacross_post`).
pub(crate) fn add_nest_calls(
    text: &mut Vec<u8>,
    region: usize,
    number: usize,
    region_loop: &RegionLoop,
) -> Result<(), AllocError>
    ensures added { OnOk result (text.new.items
        ≡ text.old.items ++ numbered region number
        (doacross_calls region_loop.now.doacross (map sink_kept region_loop.now.sinks.items))) }
    ensures front { Begins text.old.items text.new.items }
{
    match &region_loop.doacross {
        None => Ok(()),
        Some(_) => {
            add_waits(text, region, number, region_loop.sinks.as_slice())?;
            add_line(text, region, number, b"__kmpc_doacross_post", b"")
        }
    }
}

/// Adds the end of a nest (`__kmpc_doacross_fini`).
pub(crate) fn add_nest_end(
    text: &mut Vec<u8>,
    region: usize,
    number: usize,
    region_loop: &RegionLoop,
) -> Result<(), AllocError>
    ensures added { OnOk result (text.new.items
        ≡ text.old.items ++ numbered region number (doacross_end region_loop.now.doacross)) }
    ensures front { Begins text.old.items text.new.items }
{
    match &region_loop.doacross {
        None => Ok(()),
        Some(_) => add_line(text, region, number, b"__kmpc_doacross_fini", b""),
    }
}
