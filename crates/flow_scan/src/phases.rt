//! The two phases of a scan's loop.

ghost use Rattle.std.specs.Prelude.{◌≡◌, ◌&&◌, not, Some, [], ◌∷◌, map, is_none, IfOk};
ghost use Rattle.std.specs.List.{list_all};
ghost use Rattle.semantics.specs.Meaning.Agrees.{is_among};
ghost use Rattle.law_roles.specs.Updates.{all_reduce};
ghost use Rattle.law_scans.specs.Phases.{written_among, spares, input_of, scan_of, keeps_phases};
ghost use Rattle.ktree.specs.View.{stmt_of, items_of, kernel_of};
ghost use Rattle.pragma_named.specs.Views.{resolved_clause};
ghost use Rattle.flow_reduction.specs.Reduced.{reduction_of};
ghost use Rattle.flow_scan.specs.Lines.{is_called};
ghost use Rattle.nest_lines.specs.Inner.{have_line};
ghost use Rattle.nest_lines.specs.declared.inner.InnerLine.TheVariants.{Scan};
ghost use Rattle.flow_scan.specs.Parts.{has_statement};
ghost use Rattle.flow_scan.specs.Scans.{has_phases, scans_loop};
ghost use Rattle.flow_scan.specs.Views.{line_said, parts_cut};

use crate::clauses::{ScanLine, associates_one_at, sole_scan, suit_scan};
use crate::cutting::{Parts, body_parts, has_statement};
use crate::fault::{ScanFault, earliest, reduction_fault, scan_fault};
use crate::naming::is_called;
use crate::reading::first_read;
use crate::writing::{first_write, written_among};
use flow_reduction::{Reduction, first_misuse_among};
use ktree::{Clause, Item, Kernel, Place, Stmt, VarId};
use nest_lines::{InnerLine, line_among};
use pragma::Directives;
use pragma_named::Named;
use std::alloc::{AllocError, Global};

/// The input phase of a body.
fn input_of<'k>(parts: &Parts<'_, 'k>) -> &'k [Item]
    ensures { items_of result.now ≡ input_of parts.now.said.inclusive
        (items_of parts.now.front.now) (items_of parts.now.back.now) }
{
    if parts.said.inclusive {
        parts.front
    } else {
        parts.back
    }
}

/// Its scan phase.
fn scan_of<'k>(parts: &Parts<'_, 'k>) -> &'k [Item]
    ensures { items_of result.now ≡ scan_of parts.now.said.inclusive
        (items_of parts.now.front.now) (items_of parts.now.back.now) }
{
    if parts.said.inclusive {
        parts.back
    } else {
        parts.front
    }
}

/// The `scan` line, where no statement stands on one of its sides.
fn side_fault(parts: &Parts) -> Option<ScanFault>
    ensures { is_none result ≡ (has_statement (items_of parts.now.front.now)
        && has_statement (items_of parts.now.back.now)) }
{
    if has_statement(parts.front) && has_statement(parts.back) {
        None
    } else {
        Some(ScanFault::Scan(parts.said.place))
    }
}

/// The name in a `scan` line, where it is not that of the variable of the scan.
fn name_fault(kernel: &Kernel, variable: VarId, said: &ScanLine) -> Option<ScanFault>
    ensures { is_none result
        ≡ is_called (kernel_of kernel.now) variable.0 (line_said said.now).name }
{
    if is_called(kernel, variable, said.name.name.as_str()) {
        None
    } else {
        Some(ScanFault::Scan(said.name.place))
    }
}

/// A further `scan` line on one of the sides.
fn line_fault(directives: &Directives, items: &[Item]) -> Option<ScanFault>
    ensures { is_none result ≡ not (have_line directives.now Scan (items_of items.now)) }
{
    scan_fault(line_among(directives, InnerLine::Scan, items))
}

/// Where the input phase uses the variable of the scan in another way than in updates.
fn update_fault(scan: Reduction, input: &[Item]) -> Option<ScanFault>
    ensures { is_none result ≡ all_reduce (reduction_of scan ∷ []) (items_of input.now) }
{
    let scans = [scan];
    reduction_fault(first_misuse_among(input, &scans))
}

/// Where the scan phase writes it.
fn write_fault(variable: VarId, phase: &[Item]) -> Option<ScanFault>
    ensures { is_none result ≡ not (is_among (written_among (items_of phase.now)) variable.0) }
{
    scan_fault(first_write(variable, phase))
}

/// Where one side reads what the other one writes, but for the variable of the scan.
fn shared_fault(
    alloc: Global,
    variable: VarId,
    writer: &[Item],
    reader: &[Item],
) -> Result<Option<ScanFault>, AllocError>
    ensures { IfOk result (λ found. is_none found
        ≡ spares variable.0 (items_of writer.now) (items_of reader.now)) }
{
    let set = written_among(alloc, writer)?;
    Ok(scan_fault(first_read(&set, variable, reader)))
}

/// What is wrong with the uses in both phases.
fn use_fault(alloc: Global, scan: Reduction, parts: &Parts) -> Result<Option<ScanFault>, AllocError>
    ensures { IfOk result (λ found. is_none found
        ≡ keeps_phases (reduction_of scan).0 (reduction_of scan).1 parts.now.said.inclusive
        (items_of parts.now.front.now) (items_of parts.now.back.now)) }
{
    let variable = scan.variable;
    let updates = update_fault(scan, input_of(parts));
    let scalar = earliest(updates, write_fault(variable, scan_of(parts)));
    let behind = shared_fault(alloc, variable, parts.front, parts.back)?;
    let before = shared_fault(alloc, variable, parts.back, parts.front)?;
    Ok(earliest(earliest(scalar, behind), before))
}

/// What is wrong with the phases of a body.
fn phases_fault(
    alloc: Global,
    kernel: &Kernel,
    directives: &Directives,
    scan: Reduction,
    parts: &Parts,
) -> Result<Option<ScanFault>, AllocError>
    ensures { IfOk result (λ found. is_none found ≡ has_phases directives.now
        (kernel_of kernel.now) (Some (reduction_of scan)) (Some (parts_cut parts.now))) }
{
    let sides = side_fault(parts);
    let first = earliest(sides, name_fault(kernel, scan.variable, &parts.said));
    let second = earliest(first, line_fault(directives, parts.front));
    let third = earliest(second, line_fault(directives, parts.back));
    let used = use_fault(alloc, scan, parts)?;
    Ok(earliest(third, used))
}

/// What is wrong with the loop of a scan behind the directive line at a place, by the clauses that count for it.
pub(crate) fn loop_fault(
    alloc: Global,
    kernel: &Kernel,
    directives: &Directives,
    clauses: &[Clause<Named>],
    line: Place,
    statement: &Stmt,
) -> Result<Option<ScanFault>, AllocError>
    ensures { IfOk result (λ found. is_none found ≡ scans_loop directives.now
        (kernel_of kernel.now) line.line (map resolved_clause clauses.now)
        (stmt_of statement.now)) }
{
    if !associates_one_at(directives, line) || !suit_scan(clauses) {
        return Ok(Some(ScanFault::Scan(line)));
    }
    let Some(scan) = sole_scan(clauses) else {
        return Ok(Some(ScanFault::Scan(line)));
    };
    let Some(parts) = body_parts(directives, statement) else {
        return Ok(Some(ScanFault::Scan(line)));
    };
    phases_fault(alloc, kernel, directives, scan, &parts)
}
