//! Which loops are run in place.

ghost use Rattle.std.specs.Prelude.{◌≡◌, ◌+◌, ◌*◌, ◌<◌, ℕ, IfSome};
ghost use Rattle.team_in_place.specs.Counting.{AreTurnsOf, IsPlannedFor, IsRise};

use lane_body::{Counted, Course, Laned};
use lane_part::{Turns, hold_numbers, register_value};
use team_parts::{Turned, Window, window_of};

/// Fewer turns are sooner run in chunks, by threads that there are.
pub(crate) const MANY: u64 = 1 << 16;

/// The turns of a counted loop: the variable's number in the first one, what it grows by, how many they are, and its number behind the last one.
#[derive(Clone, Copy)]
pub(crate) struct Rise {
    pub(crate) first: u64,
    pub(crate) by: u64,
    pub(crate) count: u64,
    pub(crate) next: u64,
}

// How often a number can be added to one before it comes to another.
fn turns_before(first: u64, end: u64, by: u64) -> u64
    ensures { (k : ℕ) → k < result → first + k * by < end }
{
    if first >= end {
        return 0;
    }
    if by == 0 {
        return 0;
    }
    (end - first - 1) / by + 1
}

/// The turns of a loop whose variable rises from a number by another one to an end.
pub(crate) fn rise_between(first: u64, end: u64, by: u64) -> Option<Rise>
    ensures { IfSome result (IsRise first end by) }
{
    let count = turns_before(first, end, by);
    let next = first.wrapping_add(count.wrapping_mul(by));
    if next < end {
        return None;
    }
    Some(Rise {
        first,
        by,
        count,
        next,
    })
}

/// The turns of a counted loop whose variable rises to its end, from where it stands in registers.
pub(crate) fn rise_of(counted: &Counted, registers: &[u64]) -> Option<Rise>
    ensures { IfSome result (AreTurnsOf counted.now registers.now) }
{
    if !matches!(counted.course, Course::Up) {
        return None;
    }
    let first = register_value(registers, counted.variable.at);
    let end = register_value(registers, counted.end.at);
    let by = register_value(registers, counted.by.at);
    rise_between(first, end, by)
}

/// A loop that may be run in place: what a turn is, its turns, and the cells that each of these has to itself.
#[derive(Clone, Copy)]
pub(crate) struct Plan<'c> {
    pub(crate) turned: Turned<'c>,
    pub(crate) rise: Rise,
    pub(crate) window: Window,
}

// The body of a counted loop that may be run in lanes as it is.
fn laned_body(counted: &Counted) -> Option<Laned<'_>>
    ensures { IfSome result (λ l. (l.ops.now ≡ counted.now.ops.items)
        × (l.variable ≡ counted.now.variable) × (l.limit ≡ counted.now.limit)
        × (0 < counted.now.limit)) }
{
    if counted.limit == 0 {
        return None;
    }
    Some(Laned {
        ops: counted.ops.as_slice(),
        variable: counted.variable,
        limit: counted.limit,
    })
}

/// How a counted loop is run in place from where it stands in registers, over so many cells, where it has many turns of which each has cells to itself.
pub(crate) fn plan_of<'c>(counted: &'c Counted, registers: &[u64], cells: u64) -> Option<Plan<'c>>
    ensures { IfSome result (IsPlannedFor counted.now registers.now cells) }
{
    let laned = laned_body(counted)?;
    if laned.limit > registers.len() as u64 {
        return None;
    }
    let rise = rise_of(counted, registers)?;
    if rise.count < MANY {
        return None;
    }
    let turns = Turns {
        variable: laned.variable.at,
        first: rise.first,
        by: rise.by,
        count: rise.count,
        registers,
    };
    hold_numbers(registers);
    let window = window_of(laned, turns, cells)?;
    Some(Plan {
        turned: Turned::Straight(laned),
        rise,
        window,
    })
}
