//! The first two iterations of a nest at which two accesses touch one element.

ghost use Rattle.std.specs.Prelude.{◌≡◌, ◌<◌, ◌≤◌, ℕ, List, length, IfOk, IfNone, IfSome, MatchOption};
ghost use Rattle.nest_space.specs.Space.{IsSpace};
ghost use Rattle.deptest_witness.specs.Touching.{NestAt, IsEntered, TouchesAt};
ghost use Rattle.deptest_witness.specs.Pairs.{Share, Meet, IsTaken, IsLeastAt, IsFirst, NeverMeet};
ghost use Rattle.deptest_witness.specs.Elements.{access_of, region_of, IsKnown, Names, NamesAt};

use crate::elements::{Region, Touch, elements};
use crate::first_turns::first_turns;
use ktree::limits::SEARCHED_ITERATIONS;
use nest_loop::Canonical;
use nest_space::Space;
use std::alloc::{AllocError, Global};

/// Two iterations of a nest, by their numbers from 0 in sequential order, and the indexes of the element that both touch.
#[derive(Drop)]
pub struct Meeting {
    pub earlier: u64,
    pub later: u64,
    pub indexes: Vec<u64>,
}

/// The indexes of the element that both are.
///
/// # Errors
///
/// Where memory runs out.
fn common(
    first: &Option<Vec<u64>>,
    second: &Option<Vec<u64>>,
) -> Result<Option<Vec<u64>>, AllocError>
    ensures { IfOk result (λ found. MatchOption found
        ((is : List ℕ) → Names first.now is → Names second.now is → ⊥)
        (λ is. Names first.now is.items × Names second.now is.items)) }
{
    let Some(first) = first else {
        return Ok(None);
    };
    let Some(second) = second else {
        return Ok(None);
    };
    if first.as_slice() == second.as_slice() {
        Ok(Some(first.clone()?))
    } else {
        Ok(None)
    }
}

/// The element that the first touches at one iteration and the second at the other.
///
/// # Errors
///
/// Where memory runs out.
fn shared_element(
    firsts: &[Option<Vec<u64>>],
    seconds: &[Option<Vec<u64>>],
    one: u64,
    other: u64,
) -> Result<Option<Vec<u64>>, AllocError>
    requires one { one < length firsts.now }
    requires other { other < length seconds.now }
    ensures { IfOk result (λ found. MatchOption found
        ((is : List ℕ) → Share (NamesAt firsts.now) (NamesAt seconds.now) one other is → ⊥)
        (λ is. Share (NamesAt firsts.now) (NamesAt seconds.now) one other is.items)) }
{
    common(&firsts[one as usize], &seconds[other as usize])
}

/// The element that both touch at these iterations, in one of the two ways.
///
/// # Errors
///
/// Where memory runs out.
fn conflicting_element(
    firsts: &[Option<Vec<u64>>],
    seconds: &[Option<Vec<u64>>],
    earlier: u64,
    later: u64,
) -> Result<Option<Vec<u64>>, AllocError>
    requires same { length firsts.now ≡ length seconds.now }
    requires earlier { earlier < length firsts.now }
    requires later { later < length firsts.now }
    ensures { IfOk result (λ found. MatchOption found
        ((is : List ℕ) → Meet (NamesAt firsts.now) (NamesAt seconds.now) earlier later is → ⊥)
        (λ is. IsTaken (NamesAt firsts.now) (NamesAt seconds.now) earlier later is.items)) }
{
    match shared_element(firsts, seconds, earlier, later)? {
        Some(indexes) => Ok(Some(indexes)),
        None => shared_element(seconds, firsts, earlier, later),
    }
}

/// The least iteration that meets this later one.
///
/// # Errors
///
/// Where memory runs out.
fn met_at(
    firsts: &[Option<Vec<u64>>],
    seconds: &[Option<Vec<u64>>],
    later: u64,
) -> Result<Option<Meeting>, AllocError>
    requires same { length firsts.now ≡ length seconds.now }
    requires later { later < length firsts.now }
    ensures { IfOk result (λ found. MatchOption found
        ((u : ℕ) (is : List ℕ) → u < later
        → Meet (NamesAt firsts.now) (NamesAt seconds.now) u later is → ⊥)
        (λ m. IsLeastAt (NamesAt firsts.now) (NamesAt seconds.now) later m.earlier m.later
        m.indexes.items)) }
{
    for earlier in 0..later {
        if let Some(indexes) = conflicting_element(firsts, seconds, earlier, later)? {
            return Ok(Some(Meeting {
                earlier,
                later,
                indexes,
            }));
        }
    }
    Ok(None)
}

/// The first two iterations that meet.
///
/// # Errors
///
/// Where memory runs out.
fn first_met(
    firsts: &[Option<Vec<u64>>],
    seconds: &[Option<Vec<u64>>],
    count: u64,
) -> Result<Option<Meeting>, AllocError>
    requires firsts { length firsts.now ≡ count }
    requires seconds { length seconds.now ≡ count }
    requires few { count ≤ 64 }
    ensures never { IfOk result (λ found. IfNone found
        ((u v : ℕ) (is : List ℕ) → u < v → v < count
        → Meet (NamesAt firsts.now) (NamesAt seconds.now) u v is → ⊥)) }
    ensures below { IfOk result (λ found. IfSome found (λ m. m.later < count)) }
    ensures first { IfOk result (λ found. IfSome found
        (λ m. IsFirst (NamesAt firsts.now) (NamesAt seconds.now) m.earlier m.later
        m.indexes.items)) }
{
    for later in 0..count {
        if let Some(meeting) = met_at(firsts, seconds, later)? {
            return Ok(Some(meeting));
        }
    }
    Ok(None)
}

/// The first two iterations of a nest, inside the values round it, that meet.
///
/// # Errors
///
/// Where memory runs out.
fn meeting_in(
    alloc: Global,
    region: &Region<'_>,
    x: &Touch<'_>,
    y: &Touch<'_>,
) -> Result<Option<Meeting>, AllocError>
    requires { IsKnown (region_of region.now) }
    ensures { IfOk result (λ found. MatchOption found
        (NeverMeet (TouchesAt (region_of region.now) (access_of x.now))
        (TouchesAt (region_of region.now) (access_of y.now)))
        (λ m. IsFirst (TouchesAt (region_of region.now) (access_of x.now))
        (TouchesAt (region_of region.now) (access_of y.now)) m.earlier m.later
        m.indexes.items)) }
{
    let count = region.space.count().min(SEARCHED_ITERATIONS);
    let firsts = elements(alloc, region, x, count)?;
    let seconds = elements(alloc, region, y, count)?;
    first_met(&firsts, &seconds, count)
}

/// The first two iterations of the nest at which the two accesses touch one element, at the first turns of the serial loops
/// round it and of the accesses' own loops: of the iterations below 64 the least that meets an earlier one, and the least
/// that meets it; there `x` at the earlier and `y` at the later, or else `y` at the earlier and `x` at the later. An access
/// touches nothing where one of its own loops has no turn or would wrap, and where a subscript's value is no `uint64_t`.
/// None where no two meet, where a serial loop has no turn at the first turns of those round it, where a loop round the
/// accesses would wrap, and for a nest of more than four loops or 2^24 iterations (OpenMP 5.2, 4.4.1 and 4.4.2).
///
/// # Errors
///
/// Where memory runs out.
pub fn first_meeting(
    alloc: Global,
    serial: &[Canonical],
    nest: &[Canonical],
    x: &Touch<'_>,
    y: &Touch<'_>,
) -> Result<Option<Meeting>, AllocError>
    ensures none { IfOk result (λ found. IfNone found
        ((at : NestAt) → IsEntered serial.now nest.now at → IsSpace at.turns
        → NeverMeet (TouchesAt at (access_of x.now)) (TouchesAt at (access_of y.now)))) }
    ensures some { IfOk result (λ found. IfSome found
        (λ m. (at : NestAt) × IsEntered serial.now nest.now at
        × IsFirst (TouchesAt at (access_of x.now)) (TouchesAt at (access_of y.now)) m.earlier
        m.later m.indexes.items)) }
{
    let Some(outer) = first_turns(serial, Vec::new(alloc))? else {
        return Ok(None);
    };
    let Some(space) = Space::at(alloc, nest, &outer) else {
        return Ok(None);
    };
    let region = Region {
        outer: &outer,
        loops: nest,
        space: &space,
    };
    meeting_in(alloc, &region, x, y)
}
