//! A parallel loop, as it is listed.

ghost use Rattle.std.specs.Prelude.{[], OnOk};
ghost use Rattle.ktree.specs.View.{items_of};
ghost use Rattle.pragma.specs.Parallel.{LineHas};
ghost use Rattle.pragma_named.specs.Known.{kept};
ghost use Rattle.flow.specs.Roles.{data_known, KeepsRolesThere};
ghost use Rattle.flow.specs.Parallel.{Adds, IsOfLine};

use crate::bodies::first_statement;
use crate::environment::{ParallelLoop, declared_variables};
use crate::role_lists::loop_roles;
use ktree::{Item, Place};
use pragma::Directives;
use pragma_named::LineClauses;
use std::alloc::{AllocError, Global};

/// Puts the parallel loop of the directive line at a place, before these items, behind others; nothing where there is
/// none.
///
/// # Errors
///
/// Where memory runs out.
pub(crate) fn add_loop(
    alloc: Global,
    directives: &Directives,
    lines: &LineClauses,
    files: usize,
    place: Place,
    rest: &[Item],
    loops: &mut Vec<ParallelLoop>,
) -> Result<(), AllocError>
    ensures { OnOk result (LineHas directives.now
        (KeepsRolesThere (data_known (kept lines.now) files place.line)) [] place.line
        (items_of rest.now)
        → Adds (IsOfLine directives.now (data_known (kept lines.now) files) place.line
        (items_of rest.now)) loops.old.items loops.new.items) }
{
    let Ok(directive) = directives.at(place) else {
        return Ok(());
    };
    let Some(statement) = first_statement(rest) else {
        return Ok(());
    };
    let private = declared_variables(alloc, statement)?;
    let roles = loop_roles(alloc, place.line, lines)?;
    loops.push(ParallelLoop {
        line: place,
        directive,
        private,
        roles,
    })?;
    Ok(())
}
