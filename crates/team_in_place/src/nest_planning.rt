//! How loops with a counted loop in their turns are run in place.

ghost use Rattle.std.specs.Prelude.{◌≡◌, ◌<◌, ◌≤◌, length, true, IfOk, IfSome};
ghost use Rattle.team_in_place.specs.Begun.{AreInnerTurns, AreOuterTurns, BeginsWith, IsBegun, IsLeft, IsUnwritten};
ghost use Rattle.lane_body.specs.Steady.{is_steady_rise};
ghost use Rattle.law_unrolled.specs.Unrolled.{flat};
ghost use Rattle.team_in_place.specs.Nesting.{IsNestPlannedFor};
ghost use Rattle.team_parts.specs.Turned.{limit_of, nested_in, ops_of, variable_of};

use crate::nesting::Nesting;
use crate::planning::{MANY, Rise, rise_between};
use lane_body::{Counted, Course, all_have_room, is_steady_rise, is_written};
use lane_part::{Turns, hold_numbers, part_of, places, register_value};
use lower_op::Op;
use std::alloc::{AllocError, Global};
use team_parts::{Nest, Turned, Window, nest_window_of};

/// More turns of an inner loop are not run in place.
const MOST_INNER: u64 = 1 << 14;

/// Nor are more turns of the outer loop.
const MOST: u64 = 1 << 24;

/// An inner loop of fewer turns has rows of few numbers.
const SHORT: u64 = 64;

/// So has an outer one of fewer turns, each of whose workers has some of them.
const ABREAST: u64 = 1 << 10;

/// A loop that may be run in place: its turns, each with the numbers of its inner loop, and the cells that each of them has to itself.
#[derive(Clone, Copy)]
pub(crate) struct NestPlan<'c> {
    pub(crate) nest: Nest<'c>,
    pub(crate) rise: Rise,
    pub(crate) window: Window,
    pub(crate) abreast: bool,
}

impl<'c> NestPlan<'c> {
    /// What a turn is, and how turns are run.
    pub(crate) fn turn(self) -> Turned<'c>
        ensures variable { variable_of result ≡ self.entry.nest.variable.at }
        ensures ops { ops_of result ≡ flat (nested_in self.entry.nest) }
        ensures limit { limit_of result ≡ self.entry.nest.limit }
    {
        if self.abreast {
            Turned::Abreast(self.nest)
        } else {
            Turned::Around(self.nest)
        }
    }
}

// Whether no instruction of a turn writes a register.
fn is_unwritten(nesting: &Nesting<'_>, r: u32) -> bool
    ensures { result ≡ true → IsUnwritten nesting.now r }
{
    if nesting.counted.variable.at == r {
        return false;
    }
    if is_written(nesting.front, r) {
        return false;
    }
    if is_written(&nesting.counted.ops, r) {
        return false;
    }
    !is_written(nesting.back, r)
}

// Whether a turn leaves a register alone.
fn is_left(nesting: &Nesting<'_>, r: u32) -> bool
    ensures { result ≡ true → IsLeft nesting.now r }
{
    if nesting.variable.at == r {
        return false;
    }
    is_unwritten(nesting, r)
}

// The number that the inner loop begins with, where it is the same in each turn.
fn inner_first(nesting: &Nesting<'_>, registers: &[u64]) -> Option<u64>
    requires { nesting.now.counted.now.variable.at < length registers.now }
    ensures { IfSome result (BeginsWith nesting.now registers.now) }
{
    let (last, _) = nesting.front.split_last()?;
    let variable = nesting.counted.variable.at;
    match *last {
        Op::Constant(to, n) if to.at == variable => Some(n),
        Op::Move(to, a) if to.at == variable && is_left(nesting, a.at) => {
            Some(register_value(registers, a.at))
        }
        _ => None,
    }
}

// The turns of the inner loop, where they are the same in each turn.
fn inner_rise(nesting: &Nesting<'_>, registers: &[u64]) -> Option<Rise>
    requires there { nesting.now.counted.now.variable.at < length registers.now }
    requires steady { is_steady_rise nesting.now.counted.now.variable.at
        nesting.now.counted.now.end.at nesting.now.counted.now.by.at
        nesting.now.counted.now.ops.items ≡ true }
    ensures { IfSome result (AreInnerTurns nesting.now registers.now) }
{
    let counted = nesting.counted;
    if !is_left(nesting, counted.end.at) {
        return None;
    }
    if !is_left(nesting, counted.by.at) {
        return None;
    }
    let first = inner_first(nesting, registers)?;
    let end = register_value(registers, counted.end.at);
    let by = register_value(registers, counted.by.at);
    let rise = rise_between(first, end, by)?;
    if rise.count == 0 || rise.count > MOST_INNER {
        return None;
    }
    Some(rise)
}

// The loop's own turns, where none of them changes its end or its step.
fn outer_rise(nesting: &Nesting<'_>, registers: &[u64]) -> Option<Rise>
    ensures { IfSome result (AreOuterTurns nesting.now registers.now) }
{
    let variable = nesting.variable.at;
    if variable as usize >= registers.len() {
        return None;
    }
    if !is_unwritten(nesting, variable) {
        return None;
    }
    if !is_left(nesting, nesting.end.at) {
        return None;
    }
    if !is_left(nesting, nesting.by.at) {
        return None;
    }
    let first = register_value(registers, variable);
    let end = register_value(registers, nesting.end.at);
    let by = register_value(registers, nesting.by.at);
    let rise = rise_between(first, end, by)?;
    if rise.count == 0 || rise.count > MOST {
        return None;
    }
    Some(rise)
}

// The number below which an inner loop's variable is, of so many registers, where its instructions leave its variable, its end and its step alone.
fn limit_of(counted: &Counted, count: u64) -> Option<u64>
    ensures there { IfSome result (λ limit. counted.now.variable.at < limit) }
    ensures wide { IfSome result (λ limit. limit ≤ count) }
    ensures steady { IfSome result (λ _. is_steady_rise counted.now.variable.at
        counted.now.end.at counted.now.by.at counted.now.ops.items ≡ true) }
{
    let limit = count.min(64);
    let (variable, end, by) = (counted.variable.at, counted.end.at, counted.by.at);
    if variable as u64 >= limit {
        return None;
    }
    if !all_have_room(64, &counted.ops) {
        return None;
    }
    if !is_steady_rise(&counted.ops, variable, end, by) {
        return None;
    }
    Some(limit)
}

// A loop's turns, and what each of them is.
#[derive(Clone, Copy)]
struct Begun<'c> {
    nest: Nest<'c>,
    rise: Rise,
}

// The turns of a loop from where it stands in registers, where there are many of these inside.
fn begun_of<'c>(nesting: &Nesting<'c>, registers: &[u64]) -> Option<Begun<'c>>
    ensures { IfSome result (λ b. IsBegun nesting.now registers.now b.nest b.rise) }
{
    if !matches!(nesting.counted.course, Course::Up) {
        return None;
    }
    let limit = limit_of(nesting.counted, registers.len() as u64)?;
    let turns = inner_rise(nesting, registers)?;
    let rise = outer_rise(nesting, registers)?;
    if rise.count * turns.count < MANY {
        return None;
    }
    Some(Begun {
        nest: Nest {
            variable: nesting.variable,
            front: nesting.front,
            inner: nesting.counted.variable,
            ops: nesting.counted.ops.as_slice(),
            limit,
            first: turns.first,
            by: turns.by,
            count: turns.count,
            next: turns.next,
            back: nesting.back,
        },
        rise,
    })
}

// Whether no instruction goes by more than a cell from turn to turn.
fn go_along(ops: &[Op], turns: Turns<'_>) -> bool {
    for op in ops {
        if places(&part_of(op).form, turns).step > 1 {
            return false;
        }
    }
    true
}

// Whether turns are sooner run abreast than each with its inner turns in lanes: these may not be run so, or are few, or go by more than a cell.
fn are_abreast(counted: &Counted, nest: &Nest<'_>, turns: Turns<'_>) -> bool {
    let inner = Turns {
        variable: nest.inner.at,
        first: nest.first,
        by: nest.by,
        count: nest.count,
        registers: turns.registers,
    };
    let in_lanes = counted.limit != 0 || counted.recurrence.is_some();
    if in_lanes && nest.count >= SHORT && go_along(nest.ops, inner) {
        return false;
    }
    turns.count >= ABREAST
        && go_along(nest.front, turns)
        && go_along(nest.ops, turns)
        && go_along(nest.back, turns)
}

/// How a loop with a counted loop in its turns is run in place from where it stands in registers, over so many cells, where its turns have many of these
/// inside, and each has cells to itself.
///
/// # Errors
///
/// Where memory is refused.
pub(crate) fn nest_plan_of<'c>(
    alloc: Global,
    nesting: Nesting<'c>,
    registers: &[u64],
    cells: u64,
) -> Result<Option<NestPlan<'c>>, AllocError>
    ensures { IfOk result (λ o. IfSome o (IsNestPlannedFor nesting.entry registers.now cells)) }
{
    let Some(Begun { nest, rise }) = begun_of(&nesting, registers) else {
        return Ok(None);
    };
    let turns = Turns {
        variable: nest.variable.at,
        first: rise.first,
        by: rise.by,
        count: rise.count,
        registers,
    };
    let abreast = are_abreast(nesting.counted, &nest, turns);
    if !abreast && nesting.counted.limit == 0 {
        return Ok(None);
    }
    hold_numbers(registers);
    let Some(window) = nest_window_of(alloc, &nest, turns, cells)? else {
        return Ok(None);
    };
    Ok(Some(NestPlan {
        nest,
        rise,
        window,
        abreast,
    }))
}
