//! Expressions inside loops.

ghost use Rattle.std.specs.Prelude.{◌≡◌, map, length, [], ◌∷◌, IfOk};
ghost use Rattle.ktree.specs.View.{expr_of, exprs_of, cond_of, source_of, start_of, part_of};
ghost use Rattle.nest.specs.Nests.{IsAffine, ExprHas, CondHas, SourceHas, StartHas, PartsHave};
ghost use Rattle.nest.specs.Leaves.{ExprMeets, CondMeets, SourceMeets, StartMeets, PartsMeet};
ghost use Rattle.nest.specs.Judged.{inside_of, out_of, Decides, Tells};

use crate::objects::object;
use affine::VarBox;
use affine_expr::Fault;
use ktree::{Cond, Declaration, Expr, Place, PrintPart, Source, Target};
use std::alloc::Global;

/// Where the first subscript of an expression leaves its array, if each is affine.
#[cycle(expression)]
pub fn expr(
    alloc: Global,
    variables: &[Declaration],
    bounds: &VarBox,
    expression: &Expr,
) -> Result<Option<Place>, Fault>
    ensures affine { Decides result (ExprHas IsAffine bounds.now (expr_of expression.now)) }
    ensures leaves { IfOk result
        (Tells (ExprHas (inside_of variables.now) bounds.now (expr_of expression.now))
        (ExprMeets (out_of variables.now) bounds.now (expr_of expression.now))) }
{
    match expression {
        Expr::Literal(_, _) => Ok(None),
        Expr::Constant(_, _) => Ok(None),
        Expr::Object(variable, subscripts, mention) => object(
            alloc,
            variables,
            bounds,
            *variable,
            subscripts.as_slice(),
            mention,
        ),
        Expr::Unary(_, operand) => expr(alloc, variables, bounds, operand),
        Expr::Binary(_, left, right) => {
            let first = expr(alloc, variables, bounds, left)?;
            let second = expr(alloc, variables, bounds, right)?;
            Ok(first.or(second))
        }
        Expr::Conditional(test, left, right) => {
            let first = cond(alloc, variables, bounds, test)?;
            let second = expr(alloc, variables, bounds, left)?;
            let third = expr(alloc, variables, bounds, right)?;
            Ok(first.or(second.or(third)))
        }
    }
}

/// That of a condition.
#[cycle(expression)]
pub fn cond(
    alloc: Global,
    variables: &[Declaration],
    bounds: &VarBox,
    condition: &Cond,
) -> Result<Option<Place>, Fault>
    ensures affine { Decides result (CondHas IsAffine bounds.now (cond_of condition.now)) }
    ensures leaves { IfOk result
        (Tells (CondHas (inside_of variables.now) bounds.now (cond_of condition.now))
        (CondMeets (out_of variables.now) bounds.now (cond_of condition.now))) }
{
    match condition {
        Cond::NotZero(expression) => expr(alloc, variables, bounds, expression),
        Cond::Compare(_, left, right, _) => {
            let first = expr(alloc, variables, bounds, left)?;
            let second = expr(alloc, variables, bounds, right)?;
            Ok(first.or(second))
        }
        Cond::Not(inner) => cond(alloc, variables, bounds, inner),
        Cond::LogicalAnd(left, right) => {
            let first = cond(alloc, variables, bounds, left)?;
            let second = cond(alloc, variables, bounds, right)?;
            Ok(first.or(second))
        }
        Cond::LogicalOr(left, right) => {
            let first = cond(alloc, variables, bounds, left)?;
            let second = cond(alloc, variables, bounds, right)?;
            Ok(first.or(second))
        }
    }
}

/// That of what is assigned.
pub fn target(
    alloc: Global,
    variables: &[Declaration],
    bounds: &VarBox,
    assigned: &Target,
) -> Result<Option<Place>, Fault>
    ensures affine { Decides result
        (IsAffine bounds.now assigned.now.variable.0 (exprs_of assigned.now.subscripts.items)) }
    ensures leaves { IfOk result
        (Tells (inside_of variables.now bounds.now assigned.now.variable.0
        (exprs_of assigned.now.subscripts.items))
        (out_of variables.now bounds.now assigned.now.variable.0
        (exprs_of assigned.now.subscripts.items))) }
{
    object(
        alloc,
        variables,
        bounds,
        assigned.variable,
        assigned.subscripts.as_slice(),
        &assigned.mention,
    )
}

/// That of a right side.
pub fn source(
    alloc: Global,
    variables: &[Declaration],
    bounds: &VarBox,
    value: &Source,
) -> Result<Option<Place>, Fault>
    ensures affine { Decides result (SourceHas IsAffine bounds.now (source_of value.now)) }
    ensures leaves { IfOk result
        (Tells (SourceHas (inside_of variables.now) bounds.now (source_of value.now))
        (SourceMeets (out_of variables.now) bounds.now (source_of value.now))) }
{
    match value {
        Source::Number(expression) => expr(alloc, variables, bounds, expression),
        Source::Truth(condition) => cond(alloc, variables, bounds, condition),
    }
}

/// That of an initialiser.
pub fn start(
    alloc: Global,
    variables: &[Declaration],
    bounds: &VarBox,
    value: &Option<Source>,
) -> Result<Option<Place>, Fault>
    ensures affine { Decides result (StartHas IsAffine bounds.now (start_of value.now)) }
    ensures leaves { IfOk result
        (Tells (StartHas (inside_of variables.now) bounds.now (start_of value.now))
        (StartMeets (out_of variables.now) bounds.now (start_of value.now))) }
{
    match value {
        None => Ok(None),
        Some(value) => source(alloc, variables, bounds, value),
    }
}

/// That of one argument of printf, or text before it.
fn one_part(
    alloc: Global,
    variables: &[Declaration],
    bounds: &VarBox,
    part: &PrintPart,
) -> Result<Option<Place>, Fault>
    ensures affine { Decides result (PartsHave IsAffine bounds.now (part_of part.now ∷ [])) }
    ensures leaves { IfOk result
        (Tells (PartsHave (inside_of variables.now) bounds.now (part_of part.now ∷ []))
        (PartsMeet (out_of variables.now) bounds.now (part_of part.now ∷ []))) }
{
    match part {
        PrintPart::Characters(_) => Ok(None),
        PrintPart::Decimal(expression) => expr(alloc, variables, bounds, expression),
    }
}

/// That of printf's arguments.
pub fn parts(
    alloc: Global,
    variables: &[Declaration],
    bounds: &VarBox,
    parts: &[PrintPart],
) -> Result<Option<Place>, Fault>
    ensures affine { Decides result (PartsHave IsAffine bounds.now (map part_of parts.now)) }
    ensures leaves { IfOk result
        (Tells (PartsHave (inside_of variables.now) bounds.now (map part_of parts.now))
        (PartsMeet (out_of variables.now) bounds.now (map part_of parts.now))) }
{
    let mut leaves = None;
    for part in parts {
        let own = one_part(alloc, variables, bounds, part)?;
        leaves = leaves.or(own);
    }
    Ok(leaves)
}
