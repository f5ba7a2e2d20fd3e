//! Which loops of scans may be run in two passes (OpenMP 5.2, 5.6).

ghost use Rattle.std.specs.Prelude.{◌≡◌, true, Some, map, take, drop, if◌then◌else◌, IfSome};
ghost use Rattle.ktree.specs.View.{stmt_of, items_of};
ghost use Rattle.flow_reduction.specs.Reduced.{reduced};
ghost use Rattle.flow_scan.specs.Views.{scan_part, phases_at};
ghost use Rattle.outline.specs.Handed.{CarriesOne, IsInputOf};

use crate::lines::has_line;
use crate::targets::assigns_outside;
use flow::LoopRoles;
use flow_scan::ScanLoop;
use ktree::{Item, Stmt};

// The first loop of a scan behind the directive line of this number.
pub(crate) fn scan_at(scans: &[ScanLoop], line: u32) -> Option<&ScanLoop>
    ensures { IfSome result (λ scan. phases_at (map scan_part scans.now) line
        ≡ Some (scan.now.inclusive, scan.now.front)) }
{
    for scan in scans {
        if scan.line.line == line {
            return Some(scan);
        }
    }
    None
}

// Whether a loop carries one variable, and assigns it.
pub(crate) fn carries_one(kept: &LoopRoles, stmt: &Stmt) -> bool
    ensures { result ≡ true → CarriesOne (reduced kept.now.carried.items) (stmt_of stmt.now) }
{
    match kept.carried.as_slice() {
        [sole] => assigns_outside(stmt, sole.variable),
        _ => false,
    }
}

// The items of an input phase, of those in front of a `scan` line or those behind it.
fn input_part<'s>(items: &'s [Item], scan: &ScanLoop) -> Option<&'s [Item]>
    ensures { IfSome result (λ part. part.now ≡ (if scan.now.inclusive
        then take scan.now.front items.now else drop scan.now.front items.now)) }
{
    if items.len() < scan.front {
        return None;
    }
    let (front, back) = items.split_at(scan.front);
    if scan.inclusive {
        Some(front)
    } else {
        Some(back)
    }
}

// Those of a loop's body, where it is a block without directive lines that has so many items in front.
pub(crate) fn input_among<'s>(body: &'s Stmt, scan: &ScanLoop) -> Option<&'s [Item]>
    ensures { IfSome result (λ part. IsInputOf scan.now.inclusive scan.now.front (stmt_of body.now)
        (items_of part.now)) }
{
    if has_line(body) {
        return None;
    }
    match body {
        Stmt::Block(items) => input_part(items, scan),
        _ => None,
    }
}
