//! The loop of a scan, as it is listed.

ghost use Rattle.std.specs.Prelude.{◌≡◌, ◌≤◌, length, OnOk};
ghost use Rattle.ktree.specs.View.{stmt_of, items_of};
ghost use Rattle.flow_scan.specs.Parts.{count, body_parts};
ghost use Rattle.flow_scan.specs.Scans.{parts_at};
ghost use Rattle.flow_scan.specs.Views.{AddsScans};

use crate::cutting::body_parts;
use ktree::{Item, Place, Stmt};
use pragma::Directives;
use std::alloc::AllocError;

/// The loop of a scan (OpenMP 5.2, 5.6).
#[derive(Clone, Copy, Debug, PartialEq, Eq)]
pub struct ScanLoop {
    /// Where the `#` of its directive stands.
    pub line: Place,
    /// Whether its scan is inclusive: its input phase stands in front of the `scan` line then, and behind it else.
    pub inclusive: bool,
    /// How many declarations and statements of its body stand in front of the `scan` line.
    pub front: usize,
}

/// How many declarations and statements some items are.
fn count(items: &[Item]) -> usize
    ensures counted { result ≡ count (items_of items.now) }
    ensures few { result ≤ length items.now }
{
    let mut number = 0;
    for item in items {
        match item {
            Item::Directive(_) => {}
            _ => number += 1,
        }
    }
    number
}

/// Adds the loop of a scan behind the directive line at a place, where its body has a `scan` line.
pub(crate) fn add_loop(
    directives: &Directives,
    line: Place,
    statement: &Stmt,
    loops: &mut Vec<ScanLoop>,
) -> Result<(), AllocError>
    ensures { OnOk result (AddsScans (parts_at line.line
        (body_parts directives.now (stmt_of statement.now))) loops.old.items loops.new.items) }
{
    if let Some(parts) = body_parts(directives, statement) {
        loops.push(ScanLoop {
            line,
            inclusive: parts.said.inclusive,
            front: count(parts.front),
        })?;
    }
    Ok(())
}
