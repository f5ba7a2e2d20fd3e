//! Expressions over a frame with one local and a store with one array.

ghost use Rattle.std.specs.Prelude.{◌≡◌, [], ◌∷◌, length, IfOk, IsSome};
ghost use Rattle.semantics.specs.Tree;
ghost use Rattle.semantics.specs.Meaning.Value as meaning;
ghost use Rattle.ktree.specs.View.{expr_of, cond_of, source_of, binary_of, compare_of};
ghost use Rattle.seqrun_value.specs.Standing.{standing};
ghost use Rattle.seqrun_value.specs.declared.frame.Slot.TheVariants as slots;

use crate::stores::one_array;
use ktree::{BinaryOp, CompareOp, Cond, Expr, NamePlaces, Place, Source, Suffix, VarId};
use seqrun_value::*;
use std::alloc::{AllocError, Global};
use std::test::Fail;

const HERE: Place = Place { line: 1, column: 1 };

/// A literal.
fn number(n: u64) -> Expr
    ensures { expr_of result ≡ Tree.Literal n Tree.Ull }
{
    Expr::Literal(n, Suffix::Ull)
}

/// A binary operator between two expressions.
fn binary(alloc: Global, op: BinaryOp, a: Expr, b: Expr) -> Result<Expr, AllocError>
    ensures { IfOk result (λ e. expr_of e ≡ Tree.Binary (binary_of op) (expr_of a) (expr_of b)) }
{
    Ok(Expr::Binary(op, Box::new(alloc, a)?, Box::new(alloc, b)?))
}

/// A comparison.
fn compare(alloc: Global, op: CompareOp, a: Expr, b: Expr) -> Result<Cond, AllocError>
    ensures { IfOk result (λ c. cond_of c ≡ Tree.Compare (compare_of op) (expr_of a) (expr_of b)) }
{
    Ok(Cond::Compare(op, Box::new(alloc, a)?, Box::new(alloc, b)?, HERE))
}

/// The local, which is the variable 1.
fn local(alloc: Global) -> Expr
    ensures { expr_of result ≡ Tree.Object 1 Tree.no_exprs }
{
    let mention = NamePlaces {
        name: HERE,
        subscripts: Vec::new(alloc),
    };
    Expr::Object(VarId(1), Vec::new(alloc), mention)
}

/// An element of the array, which is the variable 0.
fn element(alloc: Global, at: Expr) -> Result<Expr, AllocError>
    ensures { IfOk result (λ e. expr_of e
        ≡ Tree.Object 0 (Tree.more_exprs (expr_of at) Tree.no_exprs)) }
{
    let mention = NamePlaces {
        name: HERE,
        subscripts: Vec::new(alloc),
    };
    let mut subscripts = Vec::new(alloc);
    subscripts.push(at)?;
    Ok(Expr::Object(VarId(0), subscripts, mention))
}

/// The frame in which the variable 1 is a local that holds 3.
fn frame(alloc: Global) -> Result<Frame, AllocError>
    ensures { IfOk result (λ f. f ≡ slots.Outside ∷ slots.Holds 3 ∷ []) }
{
    let mut slots = Vec::new(alloc);
    slots.push(Slot::Outside)?;
    slots.push(Slot::Holds(3))?;
    Ok(Frame::new(slots))
}

/// Whether this is the value of an expression in that frame, over an array of five elements, 7 each.
fn is_value(alloc: Global, expr: &Expr, wanted: u64) -> Result<bool, AllocError>
    requires { IsSome (meaning.value
        (standing (slots.Outside ∷ slots.Holds 3 ∷ [])
        (record { lengths = 5 ∷ []; values = 7 ∷ 7 ∷ 7 ∷ 7 ∷ 7 ∷ [] } ∷ []))
        (expr_of expr.now)) }
{
    let frame = frame(alloc)?;
    let store = one_array(alloc, &[7, 7, 7, 7, 7])?;
    Ok(value(expr, &frame, &store) == wanted)
}

/// `A[local + 1] - 8`
fn difference(alloc: Global) -> Result<Expr, AllocError>
    ensures { IfOk result (λ e. expr_of e
        ≡ Tree.Binary Tree.Minus (Tree.Object 0
        (Tree.more_exprs (Tree.Binary Tree.Plus (Tree.Object 1 Tree.no_exprs)
        (Tree.Literal 1 Tree.Ull)) Tree.no_exprs)) (Tree.Literal 8 Tree.Ull)) }
{
    let next = binary(alloc, BinaryOp::Plus, local(alloc), number(1))?;
    let at_next = element(alloc, next)?;
    binary(alloc, BinaryOp::Minus, at_next, number(8))
}

#[test]
fn numbers_wrap(rt: HostRuntime) -> Result<(), Fail> {
    let difference = difference(rt.alloc())?;
    assert!(rt; matches!(is_value(rt.alloc(), &difference, u64::MAX), Ok(true)));
    Ok(())
}

/// Whether a condition holds there.
fn is_met(alloc: Global, cond: &Cond) -> Result<bool, AllocError>
    requires { IsSome (meaning.holds
        (standing (slots.Outside ∷ slots.Holds 3 ∷ [])
        (record { lengths = 5 ∷ []; values = 7 ∷ 7 ∷ 7 ∷ 7 ∷ 7 ∷ [] } ∷ []))
        (cond_of cond.now)) }
{
    let frame = frame(alloc)?;
    let store = one_array(alloc, &[7, 7, 7, 7, 7])?;
    Ok(holds(cond, &frame, &store))
}

#[test]
fn comparisons_hold(rt: HostRuntime) -> Result<(), Fail> {
    let alloc = rt.alloc();
    let less = compare(alloc, CompareOp::Less, local(alloc), number(4))?;
    assert!(rt; matches!(is_met(alloc, &less), Ok(true)));
    Ok(())
}

/// Whether a source is worth one there.
fn is_one(alloc: Global, source: &Source) -> Result<bool, AllocError>
    requires { IsSome (meaning.source_value
        (standing (slots.Outside ∷ slots.Holds 3 ∷ [])
        (record { lengths = 5 ∷ []; values = 7 ∷ 7 ∷ 7 ∷ 7 ∷ 7 ∷ [] } ∷ []))
        (source_of source.now)) }
{
    let frame = frame(alloc)?;
    let store = one_array(alloc, &[7, 7, 7, 7, 7])?;
    Ok(source_value(source, &frame, &store) == 1)
}

#[test]
fn conditions_are_one_or_zero(rt: HostRuntime) -> Result<(), Fail> {
    let alloc = rt.alloc();
    let equal = compare(alloc, CompareOp::Equal, local(alloc), number(3))?;
    let truth = Source::Truth(equal);
    assert!(rt; matches!(is_one(alloc, &truth), Ok(true)));
    Ok(())
}

/// Whether the local holds 5, the variable 4 is a local without a value, and none of 0, 3 and 64 is one.
fn is_as_put(frame: &Frame) -> bool {
    frame.slot(VarId(0)) == Slot::Outside
        && frame.slot(VarId(1)) == Slot::Holds(5)
        && frame.slot(VarId(3)) == Slot::Outside
        && frame.slot(VarId(4)) == Slot::Empty
        && frame.slot(VarId(64)) == Slot::Outside
}

/// Whether a frame in which they are put so is as it was put.
fn stays_as_put(alloc: Global) -> Result<bool, AllocError> {
    let mut frame = frame(alloc)?;
    frame.set(VarId(4), Slot::Empty)?;
    frame.set(VarId(1), Slot::Holds(5))?;
    Ok(is_as_put(&frame))
}

#[test]
fn locals_stand_where_they_are_put(rt: HostRuntime) {
    assert!(rt; matches!(stays_as_put(rt.alloc()), Ok(true)));
}
