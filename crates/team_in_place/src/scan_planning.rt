//! Which prefix sums are run in place.

ghost use Rattle.std.specs.Prelude.{◌≡◌, ◌≤◌, ◌^◌, true, false, take, IfSome};
ghost use Rattle.std.specs.List.{list_any};
ghost use Rattle.ktree.specs.declared.expression.BinaryOp.TheVariants as B;
ghost use Rattle.law_lanes.specs.Reading.{saves};
ghost use Rattle.lane_body.specs.Steady.{is_steady_rise};
ghost use Rattle.team_in_place.specs.Scanning.{IsPlannedBy, IsScanPlannedFor};

use crate::planning::{MANY, Rise, rise_of};
use crate::running::are_quiet;
use ktree::BinaryOp;
use lane_body::{Body, Counted, Scanned, recurring_by};
use lane_part::{Turns, hold_numbers};
use team_parts::{Window, window_of};

/// A loop whose turns make prefix sums and that may be run in place: its body, its turns, and the cells that each of these has to itself.
#[derive(Clone, Copy)]
pub(crate) struct ScanPlan<'c> {
    pub(crate) scanned: Scanned<'c>,
    pub(crate) rise: Rise,
    pub(crate) window: Window,
}

// Whether a body makes sums, and nothing that makes the operand writes a cell.
fn may_be_added(scanned: Scanned<'_>) -> bool
    ensures sums { result ≡ true → scanned.entry.operator ≡ B.Plus }
    ensures quiet { result ≡ true
        → list_any saves (take scanned.entry.front scanned.entry.laned.ops.now) ≡ false }
{
    if !matches!(scanned.operator, BinaryOp::Plus) {
        return false;
    }
    let (front, _) = scanned.laned.ops.split_at(scanned.front);
    are_quiet(front)
}

// The body of a counted loop that folds, where others of its instructions read what it makes.
fn scanned_body(counted: &Counted) -> Option<Scanned<'_>>
    ensures { IfSome result (λ s. (s.ops.now ≡ counted.now.ops.items)
        × (s.laned.variable ≡ counted.now.variable)
        × (is_steady_rise counted.now.variable.at counted.now.end.at counted.now.by.at
        counted.now.ops.items ≡ true)) }
{
    let Some(recurrence) = &counted.recurrence else {
        return None;
    };
    match recurring_by(&counted.ops, counted.variable, recurrence) {
        Body::Scans(scanned) => Some(scanned),
        _ => None,
    }
}

/// How turns of a body that makes prefix sums are run in place, over so many cells, where each of them has cells to itself.
pub(crate) fn scan_plan_by<'c>(
    scanned: Scanned<'c>,
    rise: Rise,
    registers: &[u64],
    cells: u64,
) -> Option<ScanPlan<'c>>
    requires { 2 ^ 16 ≤ rise.count }
    ensures { IfSome result (IsPlannedBy scanned.entry rise registers.now cells) }
{
    if scanned.laned.limit > registers.len() as u64 {
        return None;
    }
    if !may_be_added(scanned) {
        return None;
    }
    let turns = Turns {
        variable: scanned.laned.variable.at,
        first: rise.first,
        by: rise.by,
        count: rise.count,
        registers,
    };
    let window = window_of(scanned.laned, turns, cells)?;
    Some(ScanPlan {
        scanned,
        rise,
        window,
    })
}

/// How a counted loop that makes prefix sums is run in place from where it stands in registers, over so many cells, where it has many turns of which each
/// has cells to itself.
pub(crate) fn scan_plan_of<'c>(
    counted: &'c Counted,
    registers: &[u64],
    cells: u64,
) -> Option<ScanPlan<'c>>
    ensures { IfSome result (IsScanPlannedFor counted.now registers.now cells) }
{
    let scanned = scanned_body(counted)?;
    let rise = rise_of(counted, registers)?;
    if rise.count < MANY {
        return None;
    }
    hold_numbers(registers);
    scan_plan_by(scanned, rise, registers, cells)
}
