//! A doacross nest, as it is listed.

ghost use Rattle.std.specs.Prelude.{◌≡◌, [], Some, map, IfOk, OnOk};
ghost use Rattle.ktree.specs.View.{stmt_of};
ghost use Rattle.flow.specs.Private.{nest_body_of};
ghost use Rattle.flow_doacross.specs.Listed.{distances_in, parts_by};
ghost use Rattle.flow_doacross.specs.Views.{distance_kept, AddsNests};

use crate::cutting::cut_front;
use crate::distances::distances_among;
use flow::nest_body;
use ktree::{Place, Stmt};
use pragma::Directives;
use std::alloc::{AllocError, Global};

/// A doacross nest (OpenMP 5.2, 4.4.4 and 15.9.6).
#[derive(Drop)]
pub struct DoacrossLoop {
    /// Where the `#` of its directive stands.
    pub line: Place,
    /// How far each of its sinks lies before the iteration that names it, by one number for each loop, the outermost first: the sink
    /// `i-1, j` has the distance (1, 0). A sink that lies 2^63 iterations or more before or behind along a loop is left out, since there is
    /// none in a space.
    pub distances: Vec<Vec<i64>>,
}

/// The distances of the sinks that stand first in a block, if this is one.
#[tactic(auto, using(ktree::proofs::Trees::block_items))]
fn distances_of(
    alloc: Global,
    directives: &Directives,
    body: &Stmt,
) -> Result<Vec<Vec<i64>>, AllocError>
    ensures { IfOk result (λ distances. map distance_kept distances.items
        ≡ distances_in directives.now (Some (stmt_of body.now))) }
{
    match body {
        Stmt::Block(items) => {
            let cut = cut_front(directives, items);
            distances_among(alloc, directives, cut.sinks)
        }
        _ => Ok(Vec::new(alloc)),
    }
}

/// Those of the body of so many loops, one directly in the other.
fn distances_in(
    alloc: Global,
    directives: &Directives,
    depth: u64,
    statement: &Stmt,
) -> Result<Vec<Vec<i64>>, AllocError>
    ensures { IfOk result (λ distances. map distance_kept distances.items
        ≡ distances_in directives.now (nest_body_of depth (stmt_of statement.now))) }
{
    match nest_body(statement, depth) {
        None => Ok(Vec::new(alloc)),
        Some(body) => distances_of(alloc, directives, body),
    }
}

/// Adds the nest of so many loops that stands behind the directive line at a place.
pub(crate) fn add_nest(
    alloc: Global,
    directives: &Directives,
    line: Place,
    depth: u64,
    statement: &Stmt,
    nests: &mut Vec<DoacrossLoop>,
) -> Result<(), AllocError>
    ensures { OnOk result (AddsNests (parts_by directives.now line.line (Some depth)
        (stmt_of statement.now) []) nests.old.items nests.new.items) }
{
    let distances = distances_in(alloc, directives, depth, statement)?;
    nests.push(DoacrossLoop { line, distances })?;
    Ok(())
}
