//! The forms of expressions.

ghost use Rattle.std.specs.Prelude.{◌≡◌, pos, negsuc, ◌⊎◌, ◌&&◌, true, false, Some, None, IfOk, IfErr};
ghost use Rattle.semantics.specs.Tree.{Times};
ghost use Rattle.ktree.specs.View.{expr_of, exprs_of, binary_of};
ghost use Rattle.affine.specs.Arithmetic.{constant_form, multiple_form};
ghost use Rattle.affine_expr.specs.Forms.{kept, is_number, product, variable_form_in, operated, form_of};
ghost use Rattle.affine_expr.specs.Shapes.{shape_by, variable_shape, shape_of};
ghost use Rattle.affine_expr.specs.Faults.{told, Refused, Stops};

use crate::faults::Fault;
use crate::kept::{difference, multiple, number, sum};
use crate::shape::shape_of;
use affine::{Form, VarBox};
use ktree::{BinaryOp, Expr, Place, UnaryOp, VarId};
use std::alloc::Global;

/// The form of an expression, and whether no variable stands in it.
#[derive(Drop)]
struct Linear {
    form: Form,
    number: bool,
}

/// The form of a product.
fn product(left: &Linear, right: &Linear, place: Place) -> Result<Form, Fault>
    ensures ok { IfOk result (λ form. product left.now.number right.now.number left.now.form
        right.now.form ≡ Some form) }
    ensures err { IfErr result
        (Stops place (shape_by Times left.now.number right.now.number)
        (product left.now.number right.now.number left.now.form right.now.form)) }
{
    if left.number {
        multiple(&right.form, left.form.constant_term(), place)
    } else if right.number {
        multiple(&left.form, right.form.constant_term(), place)
    } else {
        Err(Fault::NotAffine(place))
    }
}

/// The form of what two expressions make.
fn operate(operator: BinaryOp, left: &Linear, right: &Linear, place: Place) -> Result<Form, Fault>
    ensures ok { IfOk result (λ form. operated (binary_of operator) left.now.number right.now.number
        left.now.form right.now.form ≡ Some form) }
    ensures err { IfErr result
        (Stops place (shape_by (binary_of operator) left.now.number right.now.number)
        (operated (binary_of operator) left.now.number right.now.number left.now.form
        right.now.form)) }
{
    match operator {
        BinaryOp::Plus => sum(&left.form, &right.form, place),
        BinaryOp::Minus => difference(&left.form, &right.form, place),
        BinaryOp::Times => product(left, right, place),
        _ => Err(Fault::NotAffine(place)),
    }
}

/// The form of a name with these subscripts: a variable of the box without any.
fn variable_form(
    alloc: Global,
    variable: VarId,
    subscripts: &[Expr],
    bounds: &VarBox,
    place: Place,
) -> Result<Form, Fault>
    ensures ok { IfOk result (λ form. variable_form_in bounds.now variable.0
        (exprs_of subscripts.now) ≡ Some form) }
    ensures err { IfErr result
        (Stops place (variable_shape bounds.now variable.0 (exprs_of subscripts.now))
        (variable_form_in bounds.now variable.0 (exprs_of subscripts.now))) }
{
    match subscripts {
        [] => {
            if bounds.has(variable) {
                Ok(Form::variable(alloc, variable))
            } else {
                Err(Fault::NotAffine(place))
            }
        }
        [_, ..] => Err(Fault::NotAffine(place)),
    }
}

/// The parts of a form on the heap, so that a chain of operators takes little of the stack.
#[inline(never)]
fn constant(alloc: Global, value: u64, place: Place) -> Result<Box<Linear>, Fault>
    ensures form { IfOk result (λ l. kept (constant_form (pos value)) ≡ Some l.value.form) }
    ensures number { IfOk result (λ l. l.value.number ≡ true) }
    ensures err { IfErr result (Refused place (kept (constant_form (pos value)))) }
{
    let form = number(alloc, i128::from(value), place)?;
    Ok(Box::new(alloc, Linear { form, number: true })?)
}

/// A name with these subscripts.
#[inline(never)]
fn object(
    alloc: Global,
    variable: VarId,
    subscripts: &[Expr],
    bounds: &VarBox,
    place: Place,
) -> Result<Box<Linear>, Fault>
    ensures form { IfOk result (λ l. variable_form_in bounds.now variable.0
        (exprs_of subscripts.now) ≡ Some l.value.form) }
    ensures number { IfOk result (λ l. l.value.number ≡ false) }
    ensures err { IfErr result
        (Stops place (variable_shape bounds.now variable.0 (exprs_of subscripts.now))
        (variable_form_in bounds.now variable.0 (exprs_of subscripts.now))) }
{
    let form = variable_form(alloc, variable, subscripts, bounds, place)?;
    Ok(Box::new(
        alloc,
        Linear {
            form,
            number: false,
        },
    )?)
}

/// What unary minus makes of an expression.
#[inline(never)]
fn negate(alloc: Global, operand: &Linear, place: Place) -> Result<Box<Linear>, Fault>
    ensures form { IfOk result (λ l. kept (multiple_form operand.now.form (negsuc 0))
        ≡ Some l.value.form) }
    ensures number { IfOk result (λ l. l.value.number ≡ operand.now.number) }
    ensures err { IfErr result (Refused place (kept (multiple_form operand.now.form (negsuc 0)))) }
{
    let form = multiple(&operand.form, -1, place)?;
    Ok(Box::new(
        alloc,
        Linear {
            form,
            number: operand.number,
        },
    )?)
}

/// What two expressions make.
#[inline(never)]
fn join(
    alloc: Global,
    operator: BinaryOp,
    left: &Linear,
    right: &Linear,
    place: Place,
) -> Result<Box<Linear>, Fault>
    ensures form { IfOk result (λ l. operated (binary_of operator) left.now.number right.now.number
        left.now.form right.now.form ≡ Some l.value.form) }
    ensures number { IfOk result (λ l. l.value.number ≡ (left.now.number && right.now.number)) }
    ensures err { IfErr result
        (Stops place (shape_by (binary_of operator) left.now.number right.now.number)
        (operated (binary_of operator) left.now.number right.now.number left.now.form
        right.now.form)) }
{
    let form = operate(operator, left, right, place)?;
    let number = left.number && right.number;
    Ok(Box::new(alloc, Linear { form, number })?)
}

/// The parts of an expression's form.
fn parts_of(alloc: Global, expr: &Expr, bounds: &VarBox, place: Place) -> Result<Box<Linear>, Fault>
    ensures form { IfOk result (λ l. form_of bounds.now (expr_of expr.now) ≡ Some l.value.form) }
    ensures number { IfOk result (λ l. l.value.number ≡ is_number (expr_of expr.now)) }
    ensures err { IfErr result
        (Stops place (shape_of bounds.now (expr_of expr.now))
        (form_of bounds.now (expr_of expr.now))) }
{
    match expr {
        Expr::Literal(value, _) => constant(alloc, *value, place),
        Expr::Constant(_, value) => constant(alloc, u64::from(*value), place),
        Expr::Object(variable, subscripts, _) => {
            object(alloc, *variable, subscripts.as_slice(), bounds, place)
        }
        Expr::Unary(UnaryOp::Negate, operand) => {
            let operand = parts_of(alloc, operand, bounds, place)?;
            negate(alloc, &operand, place)
        }
        Expr::Unary(UnaryOp::Complement, _) => Err(Fault::NotAffine(place)),
        Expr::Binary(operator, left, right) => {
            let left = parts_of(alloc, left, bounds, place)?;
            let right = parts_of(alloc, right, bounds, place)?;
            join(alloc, *operator, &left, &right, place)
        }
        Expr::Conditional(_, _, _) => Err(Fault::NotAffine(place)),
    }
}

/// The affine form of an expression inside the loops of a box: of literals, enumeration constants and variables of these
/// loops by + - * and unary minus, where one factor of each product mentions no variable (OpenMP 5.2, 4.4.1).
///
/// # Errors
///
/// `NotAffine` at the place, where some part of the expression is not so; else `Limit`, where a form on the way has a number
/// above 2^32 in absolute value or more than 32 variables; `OutOfMemory`.
pub fn form_of(alloc: Global, expr: &Expr, bounds: &VarBox, place: Place) -> Result<Form, Fault>
    ensures ok { IfOk result (λ form. form_of bounds.now (expr_of expr.now) ≡ Some form) }
    ensures err { IfErr result
        (λ fault. (fault ≡ Fault.OutOfMemory) ⊎ (form_of bounds.now (expr_of expr.now) ≡ None)) }
    ensures fault { IfErr result
        (λ fault. (fault ≡ Fault.OutOfMemory)
        ⊎ (fault ≡ told place (shape_of bounds.now (expr_of expr.now)))) }
{
    let Some(_number) = shape_of(expr, bounds) else {
        return Err(Fault::NotAffine(place));
    };
    let parts = parts_of(alloc, expr, bounds, place)?;
    Ok(Box::into_inner(parts).form)
}
