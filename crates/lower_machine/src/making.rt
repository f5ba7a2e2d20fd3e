//! Terms, tests and code from their parts.

ghost use Rattle.std.specs.Prelude.{IfErr, IfOk, Err, Ok, ◌≡◌, ◌&&◌, ◌||◌, not, slice_index, if◌then◌else◌};
ghost use Rattle.ktree.specs.View.{unary_of, binary_of, compare_of};
ghost use Rattle.semantics.specs.Meaning.Value.{change, compare};
ghost use Rattle.semantics.specs.Meaning.Runs.{greatest_trip_count};
ghost use Rattle.lower_machine.specs.Machine.{Machine, Running, worth, truth, after, spins, operate_or_zero};

use crate::term::{Code, Term, Test, Word};
use ktree::{BinaryOp, CompareOp, UnaryOp};
use std::alloc::{AllocError, Global};

/// What is owned already, and what a further step made. The first is of any type, so that letting go of it is a call, and is not
/// written out.
///
/// # Errors
///
/// That of the step.
pub fn beside<A: Drop, B: Drop, E: Drop>(before: A, next: Result<B, E>) -> Result<(A, B), E>
    ensures before { IfOk result (λ r. r.0 ≡ before) }
    ensures next { IfOk result (λ r. next ≡ Ok r.1) }
    ensures refusal { IfErr result (λ e. next ≡ Err e) }
{
    let next = next?;
    Ok((before, next))
}

/// A value in a box, and another one that is owned meanwhile.
fn boxed_beside<A: Drop, B: Drop>(
    alloc: Global,
    value: A,
    other: B,
) -> Result<(Box<A>, B), AllocError>
    ensures { IfOk result (λ p. (p.0.value ≡ value) × (p.1 ≡ other)) }
{
    let value = Box::new(alloc, value)?;
    Ok((value, other))
}

/// Two values in boxes.
///
/// # Errors
///
/// Where memory runs out.
pub fn box_both<A: Drop, B: Drop>(alloc: Global, a: A, b: B) -> Result<(Box<A>, Box<B>), AllocError>
    ensures { IfOk result (λ p. (p.0.value ≡ a) × (p.1.value ≡ b)) }
{
    let (a, b) = boxed_beside(alloc, a, b)?;
    let (b, a) = boxed_beside(alloc, b, a)?;
    Ok((a, b))
}

/// A number.
pub fn number(n: u64) -> Term
    ensures { (m : Machine) → worth result m ≡ n }
{
    Term::Number(Word { number: n })
}

/// The cell at a place.
///
/// # Errors
///
/// Where memory runs out.
pub fn element(alloc: Global, at: Term) -> Result<Term, AllocError>
    ensures { IfOk result (λ t. (m : Machine) → worth t m ≡ slice_index m.cells (worth at m)) }
{
    let at = Box::new(alloc, at)?;
    Ok(Term::Element(at))
}

/// An operator on one term.
///
/// # Errors
///
/// Where memory runs out.
pub fn unary(alloc: Global, op: UnaryOp, a: Term) -> Result<Term, AllocError>
    ensures { IfOk result
        (λ t. (m : Machine) → worth t m ≡ change (unary_of op) (worth a m)) }
{
    let a = Box::new(alloc, a)?;
    Ok(Term::Unary(op, a))
}

/// An operator on two terms.
///
/// # Errors
///
/// Where memory runs out.
pub fn binary(alloc: Global, op: BinaryOp, a: Term, b: Term) -> Result<Term, AllocError>
    ensures { IfOk result (λ t. (m : Machine)
        → worth t m ≡ operate_or_zero (binary_of op) (worth a m) (worth b m)) }
{
    let (a, b) = box_both(alloc, a, b)?;
    Ok(Term::Binary(op, a, b))
}

/// One of two terms.
///
/// # Errors
///
/// Where memory runs out.
pub fn conditional(alloc: Global, c: Test, a: Term, b: Term) -> Result<Term, AllocError>
    ensures { IfOk result (λ t. (m : Machine)
        → worth t m ≡ (if truth c m then worth a m else worth b m)) }
{
    let (c, branches) = beside(c, box_both(alloc, a, b))?;
    let (c, (a, b)) = boxed_beside(alloc, c, branches)?;
    Ok(Term::Conditional(c, a, b))
}

/// A comparison.
///
/// # Errors
///
/// Where memory runs out.
pub fn comparison(alloc: Global, op: CompareOp, a: Term, b: Term) -> Result<Test, AllocError>
    ensures { IfOk result (λ t. (m : Machine)
        → truth t m ≡ compare (compare_of op) (worth a m) (worth b m)) }
{
    let (a, b) = box_both(alloc, a, b)?;
    Ok(Test::Compare(op, a, b))
}

/// What does not hold.
///
/// # Errors
///
/// Where memory runs out.
pub fn negation(alloc: Global, c: Test) -> Result<Test, AllocError>
    ensures { IfOk result (λ t. (m : Machine) → truth t m ≡ not (truth c m)) }
{
    let c = Box::new(alloc, c)?;
    Ok(Test::Not(c))
}

/// Two tests that both hold.
///
/// # Errors
///
/// Where memory runs out.
pub fn both(alloc: Global, c: Test, d: Test) -> Result<Test, AllocError>
    ensures { IfOk result (λ t. (m : Machine) → truth t m ≡ (truth c m && truth d m)) }
{
    let (c, d) = box_both(alloc, c, d)?;
    Ok(Test::LogicalAnd(c, d))
}

/// Two tests of which one holds.
///
/// # Errors
///
/// Where memory runs out.
pub fn either(alloc: Global, c: Test, d: Test) -> Result<Test, AllocError>
    ensures { IfOk result (λ t. (m : Machine) → truth t m ≡ (truth c m || truth d m)) }
{
    let (c, d) = box_both(alloc, c, d)?;
    Ok(Test::LogicalOr(c, d))
}

/// The one, and then the other.
///
/// # Errors
///
/// Where memory runs out.
pub fn then(alloc: Global, a: Code, b: Code) -> Result<Code, AllocError>
    ensures { IfOk result (λ t. (r : Running) → after t r ≡ after b (after a r)) }
{
    let (a, b) = box_both(alloc, a, b)?;
    Ok(Code::Then(a, b))
}

/// One of two, by a test.
///
/// # Errors
///
/// Where memory runs out.
pub fn branch(alloc: Global, c: Test, a: Code, b: Code) -> Result<Code, AllocError>
    ensures { IfOk result (λ t. (r : Running)
        → after t r ≡ (if truth c r.machine then after a r else after b r)) }
{
    let (a, b) = box_both(alloc, a, b)?;
    Ok(Code::If(c, a, b))
}

/// As long as the test holds, the one and then the other.
///
/// # Errors
///
/// Where memory runs out.
pub fn repeat(alloc: Global, c: Test, a: Code, b: Code) -> Result<Code, AllocError>
    ensures { IfOk result (λ t. (r : Running)
        → after t r ≡ spins greatest_trip_count (truth c) (λ k. after b (after a k)) r) }
{
    let (a, b) = box_both(alloc, a, b)?;
    Ok(Code::Loop(c, a, b))
}
