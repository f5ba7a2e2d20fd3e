//! What declarations, assignments and a loop's steps write.

ghost use Rattle.std.specs.Prelude.{◌≡◌, Some, IsSome, OnOk};
ghost use Rattle.semantics.specs.Meaning.State.{Outside};
ghost use Rattle.semantics.specs.Meaning.Value.{values};
ghost use Rattle.semantics.specs.Meaning.Runs.{assigned, declared, incremented};
ghost use Rattle.ktree.specs.View.{exprs_of, binary_of, start_of, increment_of};
ghost use Rattle.seqrun_value.specs.Standing.{standing};
ghost use Rattle.seqrun.specs.Ran.{Ended, lengths_of, updated_by};

use ktree::{BinaryOp, Expr, Increment, Source, VarId};
use seqrun_value::{Frame, Slot, binary_value, place, source_value, value};
use std::alloc::AllocError;
use store::Store;

/// Assigns to an object that is there: the local of that number, and else the file-scope object (C11 6.5.16).
#[inline(always)]
pub(crate) fn assign(
    frame: &mut Frame,
    store: &mut Store,
    variable: VarId,
    subscripts: &[Expr],
    n: u64,
) -> Result<(), AllocError>
    requires { IsSome (assigned (standing frame.old store.old) variable.0
        (values (standing frame.old store.old) (exprs_of subscripts.now)) (Some n)) }
    ensures done { OnOk result (Ended
        (assigned (standing frame.old store.old) variable.0
        (values (standing frame.old store.old) (exprs_of subscripts.now)) (Some n))
        (standing frame.old store.old) (standing frame.new store.new)) }
    ensures shape { lengths_of store.new ≡ lengths_of store.old }
{
    match frame.slot(variable) {
        Slot::Outside => {
            let array = store.array(variable.0 as usize);
            let at = place(subscripts, &array, frame, store);
            store.set(variable, at, n);
            Ok(())
        }
        Slot::Empty => frame.set(variable, Slot::Holds(n)),
        Slot::Holds(_old) => frame.set(variable, Slot::Holds(n)),
    }
}

/// Assigns to an object what an operator makes of its own value and another (C11 6.5.16.2).
#[inline(always)]
pub(crate) fn update(
    frame: &mut Frame,
    store: &mut Store,
    variable: VarId,
    subscripts: &[Expr],
    op: BinaryOp,
    n: u64,
) -> Result<(), AllocError>
    requires { IsSome (updated_by (standing frame.old store.old) variable.0
        (exprs_of subscripts.now) (binary_of op) (Some n)) }
    ensures done { OnOk result (Ended
        (updated_by (standing frame.old store.old) variable.0 (exprs_of subscripts.now)
        (binary_of op) (Some n)) (standing frame.old store.old)
        (standing frame.new store.new)) }
    ensures shape { lengths_of store.new ≡ lengths_of store.old }
{
    match frame.slot(variable) {
        Slot::Outside => {
            update_element(frame, store, variable, subscripts, op, n);
            Ok(())
        }
        Slot::Empty => unreachable!(),
        Slot::Holds(old) => {
            let new = binary_value(op, old, n);
            frame.set(variable, Slot::Holds(new))
        }
    }
}

/// The same where no local has that number: the subscripts are looked at once (C11 6.5.16.2, 3).
fn update_element(
    frame: &Frame,
    store: &mut Store,
    variable: VarId,
    subscripts: &[Expr],
    op: BinaryOp,
    n: u64,
)
    requires outside { (standing frame.now store.old).locals variable.0 ≡ Outside }
    requires runs { IsSome (updated_by (standing frame.now store.old) variable.0
        (exprs_of subscripts.now) (binary_of op) (Some n)) }
    ensures done { Ended
        (updated_by (standing frame.now store.old) variable.0 (exprs_of subscripts.now)
        (binary_of op) (Some n)) (standing frame.now store.old) (standing frame.now store.new) }
    ensures shape { lengths_of store.new ≡ lengths_of store.old }
{
    let array = store.array(variable.0 as usize);
    let at = place(subscripts, &array, frame, store);
    let cells = array.values();
    let old = cells[at as usize];
    let new = binary_value(op, old, n);
    store.set(variable, at, new);
}

/// Declares a local, with its first value where it has one (C11 6.7.9, 10 and 11).
pub(crate) fn declare(
    frame: &mut Frame,
    store: &Store,
    variable: VarId,
    start: &Option<Source>,
) -> Result<(), AllocError>
    requires { IsSome (declared (standing frame.old store.now) variable.0 (start_of start.now)) }
    ensures { OnOk result (Ended
        (declared (standing frame.old store.now) variable.0 (start_of start.now))
        (standing frame.old store.now) (standing frame.new store.now)) }
{
    match start {
        None => frame.set(variable, Slot::Empty),
        Some(source) => {
            let first = source_value(source, frame, store);
            frame.set(variable, Slot::Holds(first))
        }
    }
}

/// What a loop does behind each turn, which it can do where these locals and file-scope variables stand
/// (C11 6.5.2.4, 6.5.3.1, 6.5.16).
///
/// # Errors
///
/// Where memory runs out.
pub fn increment(frame: &mut Frame, store: &mut Store, step: &Increment) -> Result<(), AllocError>
    requires { IsSome (incremented (standing frame.old store.old) (increment_of step.now)) }
    ensures done { OnOk result (Ended
        (incremented (standing frame.old store.old) (increment_of step.now))
        (standing frame.old store.old) (standing frame.new store.new)) }
    ensures shape { lengths_of store.new ≡ lengths_of store.old }
{
    match step {
        Increment::Up(variable) => update(frame, store, *variable, &[], BinaryOp::Plus, 1),
        Increment::Down(variable) => update(frame, store, *variable, &[], BinaryOp::Minus, 1),
        Increment::Set(variable, source) => {
            let n = source_value(source, frame, store);
            assign(frame, store, *variable, &[], n)
        }
        Increment::Change(variable, op, expr) => {
            let n = value(expr, frame, store);
            update(frame, store, *variable, &[], *op, n)
        }
    }
}
