//! The cells that each turn has to itself that has a loop in it.

ghost use Rattle.std.specs.Prelude.{◌≡◌, ◌+◌, ◌*◌, ◌<◌, ◌≤◌, ◌^◌, true, ℕ, List, length, slice_set, Contains, IfOk, IfSome};
ghost use Rattle.lane_part.specs.Places.{stride};
ghost use Rattle.lane_rows.specs.Lanes.{stepped};
ghost use Rattle.law_parts.specs.Parts.{KeepApart};
ghost use Rattle.law_unrolled.specs.Unrolled.{flat};
ghost use Rattle.lower_machine.specs.Machine.{machine};
ghost use Rattle.lower_op.specs.declared.op.Op.{Op};
ghost use Rattle.team_parts.specs.Around.{AreInner, FitsInside, NestFits};
ghost use Rattle.team_parts.specs.Turned.{nested_in};
ghost use Rattle.team_parts.specs.Window.{IsBelow, Keeps, LiesBeside, bound_of};

use crate::turned::Nest;
use crate::unrolling::reads_its_own;
use crate::window::{Window, all_fit, is_below, keeps, loads, written_from};
use lane_part::{Stride, Turns, hold_numbers, part_of, places, sources, work_saves};
use lower_op::Op;
use std::alloc::{AllocError, Global};

// Whether strides that go by a step from turn to turn are the turns' own, where they begin at the places of so many inner turns.
fn all_keep(window: Window, s: Stride, count: u64, step: u64) -> bool
    requires one { window.low + window.width < 2 ^ 64 }
    requires some { 0 < count }
    requires few { count ≤ 16384 }
    ensures { result ≡ true → (k : ℕ) → k < count
        → Keeps window (stride (stepped s.start s.step k) step) }
{
    if s.start >= 1 << 62 || s.step >= 1 << 38 {
        return false;
    }
    let last = s.start + (count - 1) * s.step;
    keeps(
        window,
        Stride {
            start: s.start,
            step,
        },
    ) && keeps(window, Stride { start: last, step })
}

// Whether they are seen to be in front of those of so many turns, or behind them.
fn all_lie_beside(window: Window, turns: u64, s: Stride, count: u64, step: u64) -> bool
    requires turns { turns ≤ 2 ^ 24 }
    requires window { window.low + window.width * turns < 2 ^ 62 }
    requires some { 0 < count }
    requires few { count ≤ 16384 }
    ensures { result ≡ true → (k : ℕ) → k < count
        → LiesBeside window turns (stride (stepped s.start s.step k) step) }
{
    if s.start >= 1 << 62 || s.step >= 1 << 38 || step >= 1 << 38 {
        return false;
    }
    let last = s.start + (count - 1) * s.step;
    if last >= 1 << 62 {
        return false;
    }
    last + turns * step < window.low + step || s.start >= window.low + window.width * turns
}

// Whether the cell that an inner instruction writes is the turns' own in each inner turn, and the one that it reads is too, or no turn's.
fn inner_fits(op: &Op, window: Window, turns: Turns<'_>, inner: Turns<'_>) -> bool
    requires count { turns.count ≤ 2 ^ 24 }
    requires window { window.low + window.width * turns.count < 2 ^ 62 }
    requires one { window.low + window.width < 2 ^ 64 }
    requires inner { AreInner turns inner }
    ensures { result ≡ true → FitsInside window turns.entry inner.entry op.now }
{
    let part = part_of(op);
    let begun = places(&part.form, inner);
    let further = places(&part.form, turns);
    if work_saves(&part.work) && !all_keep(window, begun, inner.count, further.step) {
        return false;
    }
    if !loads(&part.work) {
        return true;
    }
    let read = sources(&part.work, begun);
    all_keep(window, read, inner.count, further.step)
        || all_lie_beside(window, turns.count, read, inner.count, further.step)
}

// Whether those of all inner instructions are.
fn all_inner_fit(ops: &[Op], window: Window, turns: Turns<'_>, inner: Turns<'_>) -> bool
    requires count { turns.count ≤ 2 ^ 24 }
    requires window { window.low + window.width * turns.count < 2 ^ 62 }
    requires one { window.low + window.width < 2 ^ 64 }
    requires inner { AreInner turns inner }
    ensures { result ≡ true → (op : Op) → Contains ops.now op
        → FitsInside window turns.entry inner.entry op }
{
    match ops.split_first() {
        None => true,
        Some((op, rest)) => inner_fits(op, window, turns, inner)
            && all_inner_fit(rest, window, turns, inner),
    }
}

// Whether those of all instructions of a turn are.
fn nest_fits(nest: &Nest<'_>, window: Window, turns: Turns<'_>, inner: Turns<'_>) -> bool
    requires count { turns.count ≤ 2 ^ 24 }
    requires window { window.low + window.width * turns.count < 2 ^ 62 }
    requires one { window.low + window.width < 2 ^ 64 }
    requires inner { AreInner turns inner }
    ensures { result ≡ true → NestFits nest.now window turns.entry inner.entry }
{
    if !all_fit(nest.front, window, turns) {
        return false;
    }
    if !all_fit(nest.back, window, turns) {
        return false;
    }
    all_inner_fit(nest.ops, window, turns, inner)
}

// The lowest place from which instructions read cells beside those that they write, and not as far away as the next turn's.
fn read_from(ops: &[Op], window: Window, turns: Turns<'_>, inner: Turns<'_>) -> u64 {
    let mut low = window.low;
    for op in ops {
        let part = part_of(op);
        let start = sources(&part.work, places(&part.form, inner)).start;
        let goes_along = places(&part.form, turns).step == window.width;
        if loads(&part.work)
            && goes_along
            && start < low
            && window.low.saturating_sub(start) < window.width
        {
            low = start;
        }
    }
    low
}

// The lower of two windows, where there are two.
fn lower_of(one: Option<Window>, other: Option<Window>) -> Option<Window> {
    let Some(window) = one else {
        return other;
    };
    match other {
        Some(more) if more.low < window.low => other,
        _ => Some(window),
    }
}

// The lowest place that instructions of the first turn write, and how far they go from turn to turn; none where they write none. Whether the turns keep
// to these places is another question.
fn written_in(nest: &Nest<'_>, turns: Turns<'_>, inner: Turns<'_>) -> Option<Window> {
    let around = lower_of(
        written_from(nest.front, turns),
        written_from(nest.back, turns),
    );
    let Some(along) = written_from(nest.ops, turns) else {
        return around;
    };
    let low = written_from(nest.ops, inner)?.low;
    let width = along.width;
    lower_of(Some(Window { low, width }), around)
}

// The cells that each turn has to itself, below a number of cells, by the inner turns of the first one.
fn window_along(nest: &Nest<'_>, turns: Turns<'_>, inner: Turns<'_>, cells: u64) -> Option<Window>
    requires inner { AreInner turns inner }
    ensures fits { IfSome result (λ w. NestFits nest.now w turns.entry inner.entry) }
    ensures below { IfSome result (λ w. IsBelow w turns.entry.count cells) }
{
    let written = written_in(nest, turns, inner)?;
    let low = read_from(nest.ops, written, turns, inner);
    let width = written.width;
    let window = Window { low, width };
    if !is_below(window, turns.count, cells) {
        return None;
    }
    if !nest_fits(nest, window, turns, inner) {
        return None;
    }
    Some(window)
}

// The registers of turns, in which the variable holds its first number.
fn first_registers(alloc: Global, turns: Turns<'_>) -> Result<Vec<u64>, AllocError>
    requires { turns.variable < length turns.registers.now }
    ensures { IfOk result (λ rs. rs.items
        ≡ slice_set turns.entry.registers.now turns.entry.variable turns.entry.first) }
{
    let mut registers = Vec::from_slice(alloc, turns.registers)?;
    registers[turns.variable as usize] = turns.first;
    Ok(registers)
}

/// The cells that each of so many turns with a loop in them has to itself, below a number of cells: it writes none but these, and reads none of another
/// turn's. None where that is not seen.
///
/// # Errors
///
/// Where memory is refused.
pub fn nest_window_of(
    alloc: Global,
    nest: &Nest<'_>,
    turns: Turns<'_>,
    cells: u64,
) -> Result<Option<Window>, AllocError>
    requires along { turns.variable ≡ nest.now.variable.at }
    requires there { nest.now.variable.at < length turns.registers.now }
    ensures apart { IfOk result (λ o. IfSome o (λ w. (cells : List ℕ)
        → KeepApart nest.now.variable.at (stepped turns.entry.first turns.entry.by)
        (flat (nested_in nest.now)) turns.entry.count
        (machine turns.entry.registers.now cells) (bound_of w))) }
    ensures some { IfOk result (λ o. IfSome o (λ w. 0 < w.width)) }
    ensures within { IfOk result (λ o. IfSome o (λ w.
        w.low + w.width * turns.entry.count ≤ cells)) }
    ensures room { IfOk result (λ o. IfSome o (λ w.
        w.low + w.width * turns.entry.count < 2 ^ 62)) }
    ensures few { IfOk result (λ o. IfSome o (λ _. turns.entry.count ≤ 2 ^ 24)) }
{
    if nest.count == 0 || nest.variable.at == nest.inner.at {
        return Ok(None);
    }
    if !reads_its_own(alloc, nest)? {
        return Ok(None);
    }
    let registers = first_registers(alloc, turns)?;
    let inner = Turns {
        variable: nest.inner.at,
        first: nest.first,
        by: nest.by,
        count: nest.count,
        registers: registers.as_slice(),
    };
    hold_numbers(turns.registers);
    Ok(window_along(nest, turns, inner, cells))
}
