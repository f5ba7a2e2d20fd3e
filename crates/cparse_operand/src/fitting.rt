//! Operands that fit an operator (C11 6.5.5 to 6.5.7, 6.6).

ghost use Rattle.std.specs.Prelude.{◌≡◌, IfSome};
ghost use Rattle.semantics.specs.Tree.{Binary};
ghost use Rattle.semantics.specs.Source.Typing.{typed, fit, may_divide};
ghost use Rattle.ktree.specs.View.{binary_of};
ghost use Rattle.cparse_grammar.specs.Operators.{number_in};
ghost use Rattle.cparse_cursor.specs.declared.stop.Flaw.TheVariants.{NumberOutOfRange};
ghost use Rattle.cparse_operand.specs.OperandViews.{operand_of};
ghost use Rattle.cparse_operand.specs.Operations.{may_be_constant, operation_sort, operation, IsMisfit};

use crate::operand::Operand;
use crate::typing::{constant, may_shift, not_zero};
use cparse_cursor::stop::{Fault, Flaw};
use cparse_cursor::written::{Sort, Written};
use ktree::{BinaryOp, Expr, Place, Source, Suffix};

/// Whether an operand may divide: a constant expression or a literal with `ull`, and not 0 (C11 6.5.5).
fn may_divide(divisor: &Operand) -> bool
    ensures { result ≡ may_divide (number_in (operand_of divisor.now)) }
{
    match &divisor.source {
        Source::Number(Expr::Literal(n, Suffix::Ull)) => *n != 0,
        Source::Number(_) => not_zero(divisor.constant),
        Source::Truth(_) => false,
    }
}

/// Whether operands fit their operator.
pub fn fit(operator: BinaryOp, left: &Operand, right: &Operand) -> bool
    ensures { result ≡ fit (binary_of operator) (number_in (operand_of left.now))
        (number_in (operand_of right.now)) }
{
    let typed = left.typed || right.typed;
    match operator {
        BinaryOp::Plus | BinaryOp::Minus | BinaryOp::Times => {
            typed || constant(operator, left.constant, right.constant).is_some()
        }
        BinaryOp::Divide | BinaryOp::Remainder => typed && may_divide(right),
        BinaryOp::BitAnd | BinaryOp::BitOr | BinaryOp::BitXor => typed,
        BinaryOp::ShiftLeft | BinaryOp::ShiftRight => left.typed && may_shift(right.constant),
    }
}

/// Whether an operation is typed: a shift by its left operand alone (C11 6.3.1.8, 6.5.7).
pub fn is_typed(operator: BinaryOp, left: &Operand, right: &Operand) -> bool
    ensures { result ≡ typed
        (Binary (binary_of operator) (number_in (operand_of left.now))
        (number_in (operand_of right.now))) }
{
    match operator {
        BinaryOp::ShiftLeft | BinaryOp::ShiftRight => left.typed,
        _ => left.typed || right.typed,
    }
}

/// Whether an operator may stand in a constant expression (C11 6.6).
fn may_be_constant(operator: BinaryOp) -> bool
    ensures { result ≡ may_be_constant (binary_of operator) }
{
    matches!(operator, BinaryOp::Plus | BinaryOp::Minus | BinaryOp::Times)
}

/// Whether an operator is a shift.
fn is_shift(operator: BinaryOp) -> bool {
    matches!(operator, BinaryOp::ShiftLeft | BinaryOp::ShiftRight)
}

/// What an operation counts as. One at fault counts as typed (C11 6.3.1.8).
fn operation_sort(operator: BinaryOp, left: Sort, right: Sort) -> Sort
    ensures { result ≡ operation_sort (binary_of operator) left right }
{
    match (left, right) {
        (Sort::Constant(a), Sort::Constant(b)) if may_be_constant(operator) => {
            Sort::Constant(constant(operator, a, b))
        }
        _ => Sort::Typed,
    }
}

/// An operation as it was written.
pub fn written_operation(operator: BinaryOp, place: Place, left: Written, right: Written) -> Written
    ensures { result ≡ operation (binary_of operator) place left right }
{
    let place = if !left.is_constant() {
        left.place
    } else if may_be_constant(operator) && !right.is_constant() {
        right.place
    } else {
        place
    };
    Written {
        sort: operation_sort(operator, left.sort, right.sort),
        has_ull: left.has_ull || right.has_ull,
        place,
    }
}

/// What is wrong with a divisor or with the count of a shift.
fn constant_fault(operator: BinaryOp, right: &Operand) -> Option<Fault>
    ensures { IfSome result (λ fault. fault
        ≡ record { place = right.now.written.place; flaw = NumberOutOfRange }) }
{
    let holds = match right.written.sort {
        Sort::Constant(None) => true,
        Sort::Constant(value) if is_shift(operator) => may_shift(value),
        Sort::Constant(value) => not_zero(value),
        _ => !is_shift(operator) && may_divide(right),
    };
    if holds {
        None
    } else {
        Some(right.written.out_of_range())
    }
}

/// What is wrong with an operator at a place between operands as they were written.
pub fn misfit(operator: BinaryOp, place: Place, left: &Operand, right: &Operand) -> Option<Fault>
    ensures { IfSome result (IsMisfit place right.now.written.place) }
{
    let (a, b) = (left.written, right.written);
    let numbers = a.is_number() && b.is_number();
    let typed = a.is_typed() || (b.is_typed() && !is_shift(operator));
    match (a.sort, b.sort) {
        (Sort::Constant(m), Sort::Constant(n)) if may_be_constant(operator) => {
            if m.is_none() || n.is_none() || constant(operator, m, n).is_some() {
                None
            } else {
                Some(Fault {
                    place,
                    flaw: Flaw::NumberOutOfRange,
                })
            }
        }
        _ if !numbers || !typed => Some(Fault {
            place,
            flaw: Flaw::Operands,
        }),
        _ => match operator {
            BinaryOp::Divide | BinaryOp::Remainder | BinaryOp::ShiftLeft | BinaryOp::ShiftRight =>
                constant_fault(operator, right),
            _ => None,
        },
    }
}
