//! What an operator makes of its operands (C11 6.5.5 to 6.5.14).

ghost use Rattle.std.specs.Prelude.{◌≡◌, true, if◌then◌else◌, Some};
ghost use Rattle.semantics.specs.Tree.{Truth};
ghost use Rattle.semantics.specs.Source.Typing.{plain_cond};
ghost use Rattle.ktree.specs.View.{cond_of, binary_of, compare_of};
ghost use Rattle.cparse_grammar.specs.Operators.{Arithmetic, Comparing, AndAlso, OrElse, joined, joins};
ghost use Rattle.cparse_operand.specs.Infixes.{infix_in};
ghost use Rattle.cparse_cursor.specs.Outcome.{Gives};
ghost use Rattle.cparse_operand.specs.OperandViews.{operand_of, union_of};

use crate::boxing::{both, box_both};
use crate::fitting::{fit, is_typed, misfit, written_operation};
use crate::leaf::stand_in;
use crate::operand::Operand;
use crate::operator::Infix;
use crate::typing::constant;
use crate::wanted::{boxed_cond, numbers};
use cparse_cursor::stop::{Fault, Flaw, Stop, unless};
use cparse_cursor::written::{Sort, Written};
use ktree::{BinaryOp, CompareOp, Cond, Expr, Place, Source};
use std::alloc::Global;

/// What an operator makes of its operands, whether it may have them, and what is wrong with them as they were written.
#[derive(Drop)]
pub struct Union {
    pub operand: Operand,
    pub fits: bool,
    pub misfit: Option<Fault>,
}

/// A condition as an operand.
pub fn truth(cond: Cond, plain: bool, written: Written) -> Operand
    requires { plain ≡ plain_cond (cond_of cond) }
    ensures { operand_of result ≡ Truth (cond_of cond) }
{
    let source = Source::Truth(cond);
    Operand {
        source,
        typed: true,
        constant: None,
        plain,
        written,
    }
}

/// A condition made of any operands.
fn fitting_truth(cond: Cond, plain: bool, written: Written) -> Union
    requires { plain ≡ plain_cond (cond_of cond) }
    ensures { union_of result ≡ (Truth (cond_of cond), true) }
{
    Union {
        operand: truth(cond, plain, written),
        fits: true,
        misfit: None,
    }
}

/// A condition as it was written: its value is at fault at its left operand, or else at its operator.
fn condition(place: Place, left: Written, right: Written) -> Written {
    Written {
        sort: Sort::Condition,
        has_ull: left.has_ull || right.has_ull,
        place: if left.is_constant() {
            place
        } else {
            left.place
        },
    }
}

fn arithmetic(
    alloc: Global,
    operator: BinaryOp,
    place: Place,
    left: Operand,
    right: Operand,
) -> Result<Union, Stop>
    ensures { Gives union_of result
        (Some (
          joined (Arithmetic (binary_of operator)) (operand_of left) (operand_of right),
          joins
              (Arithmetic (binary_of operator)) (operand_of left) (operand_of right),
        )) }
{
    let misfit = misfit(operator, place, &left, &right);
    let fits = fit(operator, &left, &right);
    let typed = is_typed(operator, &left, &right);
    let constant = constant(operator, left.constant, right.constant);
    let plain = left.plain && right.plain;
    let written = written_operation(operator, place, left.written, right.written);
    match numbers(left.source, right.source) {
        None => Ok(Union {
            operand: stand_in(written),
            fits: false,
            misfit,
        }),
        Some((a, b)) => {
            let (a, b) = box_both(alloc, a, b)?;
            let source = Source::Number(Expr::Binary(operator, a, b));
            let operand = Operand {
                source,
                typed,
                constant,
                plain,
                written,
            };
            Ok(Union {
                operand,
                fits,
                misfit,
            })
        }
    }
}

fn comparison(
    alloc: Global,
    operator: CompareOp,
    place: Place,
    begin: Place,
    left: Operand,
    right: Operand,
) -> Result<Union, Stop>
    ensures { Gives union_of result
        (Some (
          joined (Comparing (compare_of operator)) (operand_of left) (operand_of right),
          joins
              (Comparing (compare_of operator)) (operand_of left) (operand_of right),
        )) }
{
    let typed = left.typed || right.typed;
    let plain = left.plain && right.plain;
    let (a, b) = (left.written, right.written);
    let holds = a.is_number() && b.is_number() && (a.is_typed() || b.is_typed());
    let misfit = unless(holds, Flaw::Operands, place);
    let written = condition(place, a, b);
    match numbers(left.source, right.source) {
        None => Ok(Union {
            operand: stand_in(written),
            fits: false,
            misfit,
        }),
        Some((a, b)) => {
            let (a, b) = box_both(alloc, a, b)?;
            let cond = Cond::Compare(operator, a, b, begin);
            Ok(Union {
                operand: truth(cond, plain, written),
                fits: typed,
                misfit,
            })
        }
    }
}

/// `&&` or else `||` of any operands (C11 6.5.13, 6.5.14).
fn logical(
    alloc: Global,
    is_and: bool,
    place: Place,
    left: Operand,
    right: Operand,
) -> Result<Union, Stop>
    ensures { Gives union_of result
        (Some (
          joined (if is_and then AndAlso else OrElse) (operand_of left) (operand_of right),
          true,
        )) }
{
    let plain = left.plain && right.plain;
    let written = condition(place, left.written, right.written);
    let c = boxed_cond(alloc, left.source);
    let d = boxed_cond(alloc, right.source);
    let (c, d) = both(c, d)?;
    if is_and {
        Ok(fitting_truth(Cond::LogicalAnd(c, d), plain, written))
    } else {
        Ok(fitting_truth(Cond::LogicalOr(c, d), plain, written))
    }
}

/// What an operator at a place makes of its operands, of which the right one begins somewhere.
pub fn join_operands(
    alloc: Global,
    operator: Infix,
    place: Place,
    begin: Place,
    left: Operand,
    right: Operand,
) -> Result<Union, Stop>
    ensures { Gives union_of result
        (Some (
          joined (infix_in operator) (operand_of left) (operand_of right),
          joins
              (infix_in operator) (operand_of left) (operand_of right),
        )) }
{
    match operator {
        Infix::Arithmetic(op) => arithmetic(alloc, op, place, left, right),
        Infix::Comparing(op) => comparison(alloc, op, place, begin, left, right),
        Infix::AndAlso => logical(alloc, true, place, left, right),
        Infix::OrElse => logical(alloc, false, place, left, right),
    }
}
