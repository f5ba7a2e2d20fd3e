//! The values of expressions and the truth of conditions.

ghost use Rattle.std.specs.Prelude.{◌≡◌, Some, IsSome, IfSome};
ghost use Rattle.semantics.specs.Meaning.Value.{value, values, holds, source_value};
ghost use Rattle.ktree.specs.View.{expr_of, exprs_of, cond_of, source_of};
ghost use Rattle.seqrun_value.specs.Standing.{standing, place_in, cell_in, cell_among};

use crate::frame::{Frame, Slot};
use crate::operators::{binary_value, comparison_holds, unary_value};
use ktree::{Cond, Expr, Source, VarId};
use store::{Array, Store};

/// The value of an expression that has one where these locals and file-scope variables stand (C11 6.5).
#[cycle(value)]
pub fn value(expr: &Expr, frame: &Frame, store: &Store) -> u64
    requires { IsSome (value (standing frame.now store.now) (expr_of expr.now)) }
    ensures { value (standing frame.now store.now) (expr_of expr.now) ≡ Some result }
{
    match expr {
        Expr::Literal(n, _suffix) => *n,
        Expr::Constant(_name, n) => *n as u64,
        Expr::Object(x, subscripts, _mention) => match frame.slot(*x) {
            Slot::Holds(v) => v,
            Slot::Empty => unreachable!(),
            Slot::Outside => object(subscripts, *x, frame, store),
        },
        Expr::Unary(op, a) => unary_value(*op, operand(a, frame, store)),
        Expr::Binary(op, a, b) => {
            let left = index_value(a, frame, store);
            let right = operand(b, frame, store);
            binary_value(*op, left, right)
        }
        Expr::Conditional(c, a, b) => {
            if truth(c, frame, store) {
                value(a, frame, store)
            } else {
                value(b, frame, store)
            }
        }
    }
}

/// The value of an operand: of a literal or a local where this is called, of an element by one call, and else by a walk.
#[inline(always)]
#[cycle(value)]
fn operand(expr: &Expr, frame: &Frame, store: &Store) -> u64
    requires { IsSome (value (standing frame.now store.now) (expr_of expr.now)) }
    ensures { value (standing frame.now store.now) (expr_of expr.now) ≡ Some result }
{
    if let Expr::Object(x, subscripts, _mention) = expr {
        match frame.slot(*x) {
            Slot::Holds(held) => held,
            Slot::Empty => unreachable!(),
            Slot::Outside => object(subscripts, *x, frame, store),
        }
    } else if let Expr::Literal(number, _suffix) = expr {
        *number
    } else {
        value(expr, frame, store)
    }
}

/// The value of a subscript: what an operator makes of two operands where this is called, and else as an operand's.
#[inline(always)]
#[cycle(value)]
fn index_value(expr: &Expr, frame: &Frame, store: &Store) -> u64
    requires { IsSome (value (standing frame.now store.now) (expr_of expr.now)) }
    ensures { value (standing frame.now store.now) (expr_of expr.now) ≡ Some result }
{
    if let Expr::Binary(op, a, b) = expr {
        let first = operand(a, frame, store);
        let second = operand(b, frame, store);
        binary_value(*op, first, second)
    } else {
        operand(expr, frame, store)
    }
}

/// Whether a condition holds that has a truth value; the second part of `&&` and `||` is looked at only where the first
/// leaves it open (C11 6.5.13, 6.5.14).
#[inline(always)]
pub fn holds(cond: &Cond, frame: &Frame, store: &Store) -> bool
    requires { IsSome (holds (standing frame.now store.now) (cond_of cond.now)) }
    ensures { holds (standing frame.now store.now) (cond_of cond.now) ≡ Some result }
{
    match cond {
        // A loop's test, as a rule.
        Cond::Compare(op, a, b, _place) => {
            let first = operand(a, frame, store);
            let second = operand(b, frame, store);
            comparison_holds(*op, first, second)
        }
        _ => truth(cond, frame, store),
    }
}

/// The same by a walk.
#[cycle(value)]
fn truth(cond: &Cond, frame: &Frame, store: &Store) -> bool
    requires { IsSome (holds (standing frame.now store.now) (cond_of cond.now)) }
    ensures { holds (standing frame.now store.now) (cond_of cond.now) ≡ Some result }
{
    match cond {
        Cond::NotZero(e) => operand(e, frame, store) != 0,
        Cond::Compare(op, a, b, _place) => {
            let left = operand(a, frame, store);
            let right = operand(b, frame, store);
            comparison_holds(*op, left, right)
        }
        Cond::Not(c) => !truth(c, frame, store),
        Cond::LogicalAnd(c, d) => {
            if truth(c, frame, store) {
                truth(d, frame, store)
            } else {
                false
            }
        }
        Cond::LogicalOr(c, d) => {
            if truth(c, frame, store) {
                true
            } else {
                truth(d, frame, store)
            }
        }
    }
}

/// What an assignment takes from its right side, which has a value: a condition gives 1 or 0 (C11 6.5.8, 6).
#[inline(always)]
pub fn source_value(source: &Source, frame: &Frame, store: &Store) -> u64
    requires { IsSome (source_value (standing frame.now store.now) (source_of source.now)) }
    ensures { source_value (standing frame.now store.now) (source_of source.now) ≡ Some result }
{
    match source {
        Source::Number(e) => value(e, frame, store),
        Source::Truth(c) => u64::from(truth(c, frame, store)),
    }
}

/// The value of a literal or a local, without a call; none of anything else.
#[inline(always)]
fn leaf(expr: &Expr, frame: &Frame, store: &Store) -> Option<u64>
    requires { IsSome (value (standing frame.now store.now) (expr_of expr.now)) }
    ensures { IfSome result
        (λ v. value (standing frame.now store.now) (expr_of expr.now) ≡ Some v) }
{
    if let Expr::Object(x, _subscripts, _mention) = expr {
        if let Slot::Holds(held) = frame.slot(*x) {
            Some(held)
        } else {
            None
        }
    } else if let Expr::Literal(number, _suffix) = expr {
        Some(*number)
    } else {
        None
    }
}

/// The value of a subscript such as `i` or `i - 1`, without a call; none of anything else.
#[inline(always)]
fn near(expr: &Expr, frame: &Frame, store: &Store) -> Option<u64>
    requires { IsSome (value (standing frame.now store.now) (expr_of expr.now)) }
    ensures { IfSome result
        (λ v. value (standing frame.now store.now) (expr_of expr.now) ≡ Some v) }
{
    if let Expr::Binary(op, a, b) = expr {
        let one = leaf(a, frame, store)?;
        let other = leaf(b, frame, store)?;
        Some(binary_value(*op, one, other))
    } else {
        leaf(expr, frame, store)
    }
}

/// Where an element lies of one or two such subscripts, without a call; none of any other.
#[inline(always)]
fn near_place(subscripts: &[Expr], array: &Array<'_>, frame: &Frame, store: &Store) -> Option<u64>
    requires { IsSome (cell_in array.now
        (values (standing frame.now store.now) (exprs_of subscripts.now))) }
    ensures { IfSome result (λ at. place_in array.now
        (values (standing frame.now store.now) (exprs_of subscripts.now)) ≡ Some at) }
{
    if subscripts.len() == 1 {
        near(&subscripts[0], frame, store)
    } else if subscripts.len() == 2 {
        let lengths = array.lengths();
        let _cells = array.values();
        let row = near(&subscripts[0], frame, store)?;
        let column = near(&subscripts[1], frame, store)?;
        Some(row * lengths[1] + column)
    } else {
        None
    }
}

/// What a file-scope object holds that is there.
#[cycle(value)]
fn object(subscripts: &[Expr], variable: VarId, frame: &Frame, store: &Store) -> u64
    requires { IsSome (cell_among store.now variable.0
        (values (standing frame.now store.now) (exprs_of subscripts.now))) }
    ensures { cell_among store.now variable.0
        (values (standing frame.now store.now) (exprs_of subscripts.now)) ≡ Some result }
{
    let array = store.array(variable.0 as usize);
    if let Some(at) = near_place(subscripts, &array, frame, store) {
        let cells = array.values();
        cells[at as usize]
    } else {
        object_by_walk(subscripts, variable, frame, store)
    }
}

/// The same where its subscripts take a walk.
#[cycle(value)]
#[inline(never)]
fn object_by_walk(subscripts: &[Expr], variable: VarId, frame: &Frame, store: &Store) -> u64
    requires { IsSome (cell_among store.now variable.0
        (values (standing frame.now store.now) (exprs_of subscripts.now))) }
    ensures { cell_among store.now variable.0
        (values (standing frame.now store.now) (exprs_of subscripts.now)) ≡ Some result }
{
    let array = store.array(variable.0 as usize);
    element(subscripts, &array, frame, store)
}

/// Where an element lies among its array's values, row by row, if it is there (C11 6.5.2.1, 3).
#[inline(always)]
#[cycle(value)]
pub fn place(subscripts: &[Expr], array: &Array<'_>, frame: &Frame, store: &Store) -> u64
    requires { IsSome (cell_in array.now
        (values (standing frame.now store.now) (exprs_of subscripts.now))) }
    ensures { place_in array.now (values (standing frame.now store.now) (exprs_of subscripts.now))
        ≡ Some result }
{
    if let Some(at) = near_place(subscripts, array, frame, store) {
        at
    } else {
        place_by_walk(subscripts, array, frame, store)
    }
}

/// The same by a walk.
#[cycle(value)]
fn place_by_walk(subscripts: &[Expr], array: &Array<'_>, frame: &Frame, store: &Store) -> u64
    requires { IsSome (cell_in array.now
        (values (standing frame.now store.now) (exprs_of subscripts.now))) }
    ensures { place_in array.now (values (standing frame.now store.now) (exprs_of subscripts.now))
        ≡ Some result }
{
    let lengths = array.lengths();
    // The number of its values, which fits, bounds each step of the way.
    let _cells = array.values();
    let mut at: u64 = 0;
    for (d, subscript) in subscripts.iter().enumerate() {
        at = at * lengths[d] + index_value(subscript, frame, store);
    }
    at
}

/// What an element holds that is there.
#[cycle(value)]
pub fn element(subscripts: &[Expr], array: &Array<'_>, frame: &Frame, store: &Store) -> u64
    requires { IsSome (cell_in array.now
        (values (standing frame.now store.now) (exprs_of subscripts.now))) }
    ensures { cell_in array.now (values (standing frame.now store.now) (exprs_of subscripts.now))
        ≡ Some result }
{
    let at = place(subscripts, array, frame, store);
    let cells = array.values();
    cells[at as usize]
}
