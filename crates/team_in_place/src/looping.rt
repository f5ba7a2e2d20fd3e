//! Loops that may be run in place, as they stand in compiled code.

ghost use Rattle.std.specs.Prelude.{◌≡◌, IfSome};
ghost use Rattle.lower_machine.specs.Machine.{Running, running};
ghost use Rattle.lower_op.specs.Steps.{steps};
ghost use Rattle.lower_block.specs.Block.{runs};
ghost use Rattle.team_in_place.specs.Nesting.{loops};

use crate::nesting::{Nesting, nesting_in};
use lane_body::Counted;
use lower_block::Block;
use lower_machine::Register;
use lower_op::Op;

/// A counted loop, or one with a counted loop in its turns.
#[derive(Clone, Copy)]
pub(crate) enum Looped<'c> {
    Counts(&'c Counted),
    Nests(Nesting<'c>),
}

/// Such a loop, and the instructions in front of it.
#[derive(Clone, Copy)]
pub(crate) struct Looping<'c> {
    pub(crate) front: &'c [Op],
    pub(crate) looped: Looped<'c>,
}

// The loop that a block is.
fn looped_in(block: &Block) -> Option<Looped<'_>>
    ensures { IfSome result (λ x. (r : Running) → runs block.now r ≡ loops x r) }
{
    match block {
        Block::Counts(counted) => Some(Looped::Counts(counted)),
        _ => Some(Looped::Nests(nesting_in(block)?)),
    }
}

// The loop that a block is, behind instructions.
fn looping_behind<'c>(front: &'c Block, turns: &'c Block) -> Option<Looping<'c>>
    ensures { IfSome result (λ x. (r : Running) → runs turns.now (runs front.now r)
        ≡ loops x.looped (running (steps x.front.now r.machine) r.text)) }
{
    let looped = looped_in(turns)?;
    match front {
        Block::Straight(ops) => Some(Looping { front: ops, looped }),
        _ => None,
    }
}

/// The loop that a block is, behind instructions.
pub(crate) fn looping_of(block: &Block) -> Option<Looping<'_>>
    ensures { IfSome result (λ x. (r : Running) → runs block.now r
        ≡ loops x.looped (running (steps x.front.now r.machine) r.text)) }
{
    match block {
        Block::Then(front, turns) => looping_behind(front, turns),
        _ => None,
    }
}

impl<'c> Looped<'c> {
    /// Its variable.
    pub(crate) fn variable(self) -> Register {
        match self {
            Looped::Counts(counted) => counted.variable,
            Looped::Nests(nesting) => nesting.variable,
        }
    }
}
