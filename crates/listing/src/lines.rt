//! The lines of a listing.

ghost use Rattle.std.specs.Prelude.{◌≡◌, ◌++◌, ◌∷◌, [], flat_map, OnOk};
ghost use Rattle.semantics.specs.Theorems.{Begins};
ghost use Rattle.semantics.specs.Directives.Listing.{numbered};
ghost use Rattle.listing.specs.Regions.{fronted};

use itoa::Buffer;
use std::alloc::AllocError;

/// Adds these one behind another.
///
/// # Errors
///
/// Where memory runs out, with part of them added; so for all that add to a text.
pub(crate) fn add_parts(text: &mut Vec<u8>, parts: &[&[u8]]) -> Result<(), AllocError>
    ensures added { OnOk result (text.new.items
        ≡ text.old.items ++ flat_map (λ part. part.now) parts.now) }
    ensures front { Begins text.old.items text.new.items }
{
    for part in parts {
        text.extend_from_slice(part)?;
    }
    Ok(())
}

/// Adds the front of a line: the numbers of the region and, within it, of the loop, 0 before its loops, and words.
pub(crate) fn add_front(
    text: &mut Vec<u8>,
    region: usize,
    number: usize,
    words: &[u8],
) -> Result<(), AllocError>
    ensures added { OnOk result (text.new.items
        ≡ text.old.items ++ fronted region number words.now) }
    ensures front { Begins text.old.items text.new.items }
{
    let (mut first, mut second) = (Buffer::new(), Buffer::new());
    add_parts(
        text,
        &[
            first.format(region).as_bytes(),
            b".",
            second.format(number).as_bytes(),
            b" ",
            words,
        ],
    )
}

/// Adds a line: its numbers, words, and a size right behind them, which may be empty.
pub(crate) fn add_line(
    text: &mut Vec<u8>,
    region: usize,
    number: usize,
    words: &[u8],
    size: &[u8],
) -> Result<(), AllocError>
    ensures added { OnOk result (text.new.items
        ≡ text.old.items ++ numbered region number ((words.now ++ size.now) ∷ [])) }
    ensures front { Begins text.old.items text.new.items }
{
    add_front(text, region, number, words)?;
    add_parts(text, &[size, b"\n"])
}
