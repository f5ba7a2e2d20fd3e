//! Where file-scope variables lie in one flat list of cells.

ghost use Rattle.std.specs.Prelude.{IfOk, ◌≡◌, ◌%◌, ◌^◌, map};
ghost use Rattle.semantics.specs.Meaning.Places.{size};
ghost use Rattle.ktree.specs.View.{declaration_of};
ghost use Rattle.lower_code.specs.Layout.{IsLaid, shapes_of, shapes_in};

use crate::laid::Laid;
use ktree::Declaration;
use std::alloc::{AllocError, Global};

/// The number of an array's elements, modulo 2^64.
fn elements(lengths: &[u64]) -> u64
    ensures { result ≡ size lengths.now % 2 ^ 64 }
{
    let mut count = 1u64;
    for length in lengths {
        count = count.wrapping_mul(*length);
    }
    count
}

/// The layout of the variables with these declarations, one behind another.
///
/// # Errors
///
/// Where memory runs out.
pub fn layout_of(alloc: Global, declarations: &[Declaration]) -> Result<Vec<Laid>, AllocError>
    ensures laid { IfOk result (λ layout. IsLaid layout.items) }
    ensures shapes { IfOk result (λ layout.
        shapes_of layout.items ≡ shapes_in (map declaration_of declarations.now)) }
{
    let mut layout = Vec::new(alloc);
    let mut first = 0u64;
    for declaration in declarations {
        let count = elements(&declaration.lengths);
        let lengths = Vec::from_slice(alloc, declaration.lengths.as_slice())?;
        layout.push(Laid { first, lengths })?;
        first = first.wrapping_add(count);
    }
    Ok(layout)
}
