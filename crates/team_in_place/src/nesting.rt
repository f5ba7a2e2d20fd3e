//! Loops whose turns have a counted loop in them, as they stand in compiled code.

ghost use Rattle.std.specs.Prelude.{◌≡◌, true, IfSome};
ghost use Rattle.lower_machine.specs.Machine.{Machine, Running, running};
ghost use Rattle.lower_op.specs.Steps.{step, steps};
ghost use Rattle.lower_block.specs.Block.{holds, runs};
ghost use Rattle.lane_body.specs.Counted.{goes_on, moved};
ghost use Rattle.lane_body.specs.declared.counted.Course.TheVariants.{Up};
ghost use Rattle.team_in_place.specs.Counting.{counted};
ghost use Rattle.team_in_place.specs.Nesting.{nested_loop, turned_by};

use ktree::CompareOp;
use lane_body::Counted;
use lower_block::{Block, Comparison};
use lower_machine::Register;
use lower_op::Op;

/// A loop that goes on as long as its variable is below what another register holds, in each of whose turns there are instructions, a counted loop and
/// instructions, and then the variable goes on by what a third register holds (C11 6.8.5).
#[derive(Clone, Copy)]
pub(crate) struct Nesting<'c> {
    pub(crate) variable: Register,
    pub(crate) end: Register,
    pub(crate) front: &'c [Op],
    pub(crate) counted: &'c Counted,
    pub(crate) back: &'c [Op],
    pub(crate) by: Register,
}

// Two blocks, one behind the other.
#[derive(Clone, Copy)]
struct Pair<'c> {
    first: &'c Block,
    next: &'c Block,
}

// Instructions, and the register by which a variable goes on behind them.
#[derive(Clone, Copy)]
struct Step<'c> {
    back: &'c [Op],
    by: Register,
}

// Whether the first register of a comparison rises to the second one as long as it holds.
fn rises(comparison: &Comparison) -> bool
    ensures { result ≡ true → (m : Machine) → holds comparison.now m
        ≡ goes_on Up comparison.now.left comparison.now.right m }
{
    matches!(comparison.op, CompareOp::Less)
}

// The two blocks that a block is.
fn pair_in(block: &Block) -> Option<Pair<'_>>
    ensures { IfSome result (λ p. (r : Running)
        → runs block.now r ≡ runs p.next.now (runs p.first.now r)) }
{
    match block {
        Block::Then(first, next) => Some(Pair { first, next }),
        _ => None,
    }
}

// The instructions that a block is.
fn straight_in(block: &Block) -> Option<&[Op]>
    ensures { IfSome result (λ ops. (r : Running)
        → runs block.now r ≡ running (steps ops.now r.machine) r.text) }
{
    match block {
        Block::Straight(ops) => Some(ops),
        _ => None,
    }
}

// The counted loop that a block is.
fn counted_in(block: &Block) -> Option<&Counted>
    ensures { IfSome result (λ c. (r : Running) → runs block.now r ≡ counted c.now r) }
{
    match block {
        Block::Counts(turns) => Some(turns),
        _ => None,
    }
}

// The register by which an instruction has a variable go on.
fn step_by(variable: Register, op: Op) -> Option<Register>
    ensures { IfSome result (λ by. (m : Machine) → step op m ≡ moved Up variable by m) }
{
    match op {
        Op::Plus(to, a, by) => {
            if to.at == variable.at && a.at == variable.at {
                Some(by)
            } else {
                None
            }
        }
        _ => None,
    }
}

// How the last of some instructions has a variable go on behind the others.
fn step_in(variable: Register, ops: &[Op]) -> Option<Step<'_>>
    ensures { IfSome result (λ s. (m : Machine)
        → steps ops.now m ≡ moved Up variable s.by (steps s.back.now m)) }
{
    let (last, back) = ops.split_last()?;
    let by = step_by(variable, *last)?;
    Some(Step { back, by })
}

// The loop of such a variable to an end whose turns are a block.
fn nesting_of(variable: Register, end: Register, body: &Block) -> Option<Nesting<'_>>
    ensures { IfSome result (λ x. (x.variable ≡ variable) × (x.end ≡ end)
        × ((r : Running) → runs body.now r ≡ turned_by x r)) }
{
    let turn = pair_in(body)?;
    let front = straight_in(turn.first)?;
    let rest = pair_in(turn.next)?;
    let counted = counted_in(rest.first)?;
    let ops = straight_in(rest.next)?;
    let step = step_in(variable, ops)?;
    Some(Nesting {
        variable,
        end,
        front,
        counted,
        back: step.back,
        by: step.by,
    })
}

/// The loop with a counted loop in its turns that a block is.
pub(crate) fn nesting_in(block: &Block) -> Option<Nesting<'_>>
    ensures { IfSome result (λ x. (r : Running) → runs block.now r ≡ nested_loop x r) }
{
    match block {
        Block::Loop(comparison, body) => {
            if rises(comparison) {
                nesting_of(comparison.left, comparison.right, body)
            } else {
                None
            }
        }
        _ => None,
    }
}
