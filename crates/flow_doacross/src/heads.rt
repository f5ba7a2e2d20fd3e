//! The loops of a doacross nest.

ghost use Rattle.std.specs.Prelude.{◌≡◌, Some, IfOk};
ghost use Rattle.semantics.specs.Loops.Nest.{nest_of};
ghost use Rattle.ktree.specs.View.{stmt_of};
ghost use Rattle.nest.specs.Heads.{head_of};
ghost use Rattle.flow_doacross.specs.Nests.{is_rising, goes_by_one, counts_up, all_count_up};

use affine::VarBox;
use affine_expr::Fault;
use ktree::{Head, Stmt};
use nest::as_loop;
use nest_loop::{Canonical, Direction, canonical_of};
use std::alloc::{AllocError, Global};

/// Whether a variable rises.
fn is_rising(direction: Direction) -> bool
    ensures { result ≡ is_rising direction }
{
    match direction {
        Direction::Rising => true,
        Direction::Falling => false,
    }
}

/// Whether a canonical loop goes by 1.
fn goes_by_one(canonical: &Canonical) -> bool
    ensures { result ≡ goes_by_one (Some canonical.now) }
{
    is_rising(canonical.stride.direction) && canonical.stride.by == 1
}

/// Whether the loop of a head rises by 1 between two numbers (OpenMP 5.2, 4.4.1).
fn counts_up(alloc: Global, head: &Head) -> Result<bool, AllocError>
    ensures { IfOk result (λ counts. counts ≡ counts_up (head_of head.now)) }
{
    match canonical_of(alloc, head, &VarBox::new(alloc)) {
        Ok(canonical) => Ok(goes_by_one(&canonical)),
        Err(Fault::OutOfMemory) => Err(AllocError),
        Err(_) => Ok(false),
    }
}

/// Whether so many loops, one directly in the other, do.
pub(crate) fn all_count_up(alloc: Global, depth: u64, statement: &Stmt) -> Result<bool, AllocError>
    ensures { IfOk result (λ count. count ≡ all_count_up (nest_of depth (stmt_of statement.now))) }
{
    if depth == 0 {
        return Ok(true);
    }
    let Some(level) = as_loop(statement) else {
        return Ok(false);
    };
    if !counts_up(alloc, level.head)? {
        return Ok(false);
    }
    all_count_up(alloc, depth - 1, level.body)
}
