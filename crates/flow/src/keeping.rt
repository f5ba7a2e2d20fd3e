//! Whether a nest behind a directive line keeps the roles of the line.

ghost use Rattle.std.specs.Prelude.{◌≡◌, ℕ, Some, IfSome};
ghost use Rattle.ktree.specs.View.{stmt_of};
ghost use Rattle.pragma_named.specs.Known.{kept};
ghost use Rattle.flow.specs.Private.{nest_body_of};
ghost use Rattle.flow.specs.Roles.{data_known, KeepsItsRoles};
ghost use Rattle.flow.specs.Told.{Finds, TellsOfRoles};

use crate::fault::{DataFault, earlier};
use crate::firsts::{last_fault, read_fault};
use crate::reductions::{carried_fault, misuse_fault, second_fault};
use crate::sharing::body_fault;
use ktree::Stmt;
use pragma_named::LineClauses;
use std::alloc::Global;

/// What is wrong with a nest behind a directive line that has this body, by the order of the text.
pub(crate) fn nest_fault(
    alloc: Global,
    statement: &Stmt,
    body: &Stmt,
    line: u32,
    lines: &LineClauses,
    files: usize,
) -> Option<DataFault>
    ensures judged { (n : ℕ) → Some (stmt_of body.now) ≡ nest_body_of n (stmt_of statement.now)
        → Finds result (KeepsItsRoles (data_known (kept lines.now) files line) n
        (stmt_of statement.now)) }
    ensures cause { IfSome result (λ f. TellsOfRoles f (data_known (kept lines.now) files line)
        (stmt_of statement.now) (stmt_of body.now)) }
{
    let carried = earlier(
        carried_fault(alloc, line, lines, files),
        misuse_fault(alloc, statement, line, lines, files),
    );
    let reduced = earlier(second_fault(alloc, line, lines, files), carried);
    let last = earlier(last_fault(alloc, body, line, lines, files), reduced);
    let read = earlier(read_fault(alloc, statement, line, lines, files), last);
    earlier(body_fault(body, line, lines, files), read)
}
