//! The elements that an access touches at the iterations of a nest.

ghost use Rattle.std.specs.Prelude.{◌≡◌, ◌<◌, ◌≤◌, ◌^◌, ◌↔◌, ℕ, List, pos, length, IfOk, IfSome, MatchOption};
ghost use Rattle.affine.specs.Affine.{value};
ghost use Rattle.nest_space.specs.Space.{vectors};
ghost use Rattle.nest_space.specs.Nests.{given, AreModest};
ghost use Rattle.deptest_witness.specs.Touching.{AreIndexes, TouchesAt};
ghost use Rattle.deptest_witness.specs.Elements.{access_of, region_of, IsKnown, IsAtNumber, Names, AreElements};

use crate::first_turns::{first_turns, hold};
use affine::Form;
use ktree::limits::ASSOCIATED_LOOPS;
use nest_loop::Canonical;
use nest_space::{Space, Value, value_at};
use std::alloc::{AllocError, Global};

/// An access in the body of a nest: its subscripts as forms in the variables of the loops round it, and the body's own loops
/// round it, the outermost first.
#[derive(Clone, Copy)]
pub struct Touch<'a> {
    pub subscripts: &'a [Form],
    pub inner: &'a [Canonical],
}

/// A nest inside the values of the variables round it.
#[derive(Clone, Copy)]
pub(crate) struct Region<'a> {
    pub outer: &'a [Value],
    pub loops: &'a [Canonical],
    pub space: &'a Space,
}

/// The form's value at these values, where it is a number of `uint64_t`.
fn index_at(form: &Form, values: &[Value]) -> Option<u64>
    requires { AreModest values.now }
    ensures { MatchOption result
        ((i : ℕ) → value form.now (given values.now) ≡ pos i → i < 2 ^ 64 → ⊥)
        (λ i. value form.now (given values.now) ≡ pos i) }
{
    u64::try_from(value_at(form, values)).ok()
}

/// The subscripts' values, where each is a number of `uint64_t`.
///
/// # Errors
///
/// Where memory runs out.
fn indexes(
    alloc: Global,
    subscripts: &[Form],
    values: &[Value],
) -> Result<Option<Vec<u64>>, AllocError>
    requires { AreModest values.now }
    ensures { IfOk result (λ found. MatchOption found
        ((is : List ℕ) → AreIndexes subscripts.now (given values.now) is → ⊥)
        (λ is. AreIndexes subscripts.now (given values.now) is.items)) }
{
    let mut indexes = Vec::new(alloc);
    for form in subscripts {
        let Some(index) = index_at(form, values) else {
            return Ok(None);
        };
        indexes.push(index)?;
    }
    Ok(Some(indexes))
}

/// The values of the variables at the iteration of this number.
///
/// # Errors
///
/// Where memory runs out.
fn values_at(alloc: Global, region: &Region<'_>, number: u64) -> Result<Vec<Value>, AllocError>
    requires known { IsKnown (region_of region.now) }
    requires number { number < length (vectors region.now.space.now) }
    ensures value { IfOk result (λ values. IsAtNumber (region_of region.now) number values.items) }
    ensures modest { IfOk result (λ values. AreModest values.items) }
{
    let mut places = [0; ASSOCIATED_LOOPS];
    let vector = &mut places[..region.loops.len()];
    region.space.vector(number, vector);
    let mut values = Vec::from_slice(alloc, region.outer)?;
    hold(region.loops, vector, &mut values)?;
    Ok(values)
}

/// The indexes of the element that the access touches at the iteration of this number, where it touches one.
///
/// # Errors
///
/// Where memory runs out.
fn element(
    alloc: Global,
    region: &Region<'_>,
    touch: &Touch<'_>,
    number: u64,
) -> Result<Option<Vec<u64>>, AllocError>
    requires known { IsKnown (region_of region.now) }
    requires number { number < length (vectors region.now.space.now) }
    ensures { IfOk result (λ found. (is : List ℕ)
        → TouchesAt (region_of region.now) (access_of touch.now) number is ↔ Names found is) }
{
    let values = values_at(alloc, region, number)?;
    match first_turns(touch.inner, values)? {
        None => Ok(None),
        Some(there) => indexes(alloc, touch.subscripts, &there),
    }
}

/// What the access touches at each of so many iterations.
///
/// # Errors
///
/// Where memory runs out.
pub(crate) fn elements(
    alloc: Global,
    region: &Region<'_>,
    touch: &Touch<'_>,
    count: u64,
) -> Result<Vec<Option<Vec<u64>>>, AllocError>
    requires known { IsKnown (region_of region.now) }
    requires count { count ≤ length (vectors region.now.space.now) }
    ensures length { IfOk result (λ found. length found.items ≡ count) }
    ensures elements { IfOk result (λ found. AreElements (region_of region.now)
        (access_of touch.now) found.items) }
{
    let mut elements = Vec::new(alloc);
    for number in 0..count {
        elements.push(element(alloc, region, touch, number)?)?;
    }
    Ok(elements)
}
