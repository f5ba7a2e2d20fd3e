//! How a chunk begins that has no copies of reduction variables.

ghost use Rattle.std.specs.Prelude.{◌≡◌, ◌<◌, ◌^◌};
ghost use Rattle.ktree.specs.DirectiveView.{operator_of};
ghost use Rattle.law_roles.specs.Sharing as law;
ghost use Rattle.lower_machine.specs.Machine.{machine};
ghost use Rattle.overlay_pages.specs.Seen.{cells_of};
ghost use Rattle.overlay.specs.Spots.{IsWord, begins_at, begun_by};

use crate::spots::{read, write};
use ktree::ReductionOperator;
use lower::LoweredReduction;
use overlay_pages::Chunk;
use reduce::identity_by;

/// What a reduction variable holds where a chunk begins: its operator's identity, or of && and || what it held before the loop
/// (OpenMP 5.2, 5.5.1 to 5.5.3).
pub fn begins_with(operator: ReductionOperator, held: u64) -> u64
    ensures { result ≡ law.begins_with (operator_of operator) held }
{
    match operator {
        ReductionOperator::LogicalAnd | ReductionOperator::LogicalOr => held,
        _ => identity_by(operator),
    }
}

/// What a chunk's reduction variables begin with.
#[derive(Clone, Copy, Debug, PartialEq, Eq)]
pub enum Start {
    /// What a chunk of a reduction may begin with that has no copies.
    Reduction,
    /// A number: what the variable of a scan holds in front of the chunk (OpenMP 5.2, 5.6).
    Scan(u64),
}

// A number has 64 bits.
fn is_word(_value: u64)
    ensures { _value < 2 ^ 64 }
{}

/// So has one that a chunk begins with.
pub fn confirm_word(start: Start)
    ensures { IsWord start }
{
    if let Start::Scan(value) = start {
        is_word(value);
    }
}

/// What a reduction variable begins with that held this before the loop.
pub fn first_value(start: Start, operator: ReductionOperator, held: u64) -> u64
    ensures { result ≡ begins_at start (operator_of operator) held }
{
    match start {
        Start::Reduction => begins_with(operator, held),
        Start::Scan(value) => value,
    }
}

/// Each reduction variable takes what a chunk begins with.
pub fn begin(
    reductions: &[LoweredReduction],
    start: Start,
    registers: &mut [u64],
    cells: &mut Chunk<'_>,
)
    ensures begun { machine registers.new (cells_of cells.new)
        ≡ begun_by start reductions.now (machine registers.old (cells_of cells.old)) }
    ensures store { cells.new.store ≡ cells.old.store }
{
    let Some((reduction, rest)) = reductions.split_first() else {
        return;
    };
    let held = read(reduction.spot, registers, cells);
    let value = first_value(start, reduction.operator, held);
    write(reduction.spot, value, registers, cells);
    begin(rest, start, registers, cells);
}
