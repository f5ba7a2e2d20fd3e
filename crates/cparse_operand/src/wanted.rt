//! Operands where a number or a condition is wanted.

ghost use Rattle.std.specs.Prelude.{◌≡◌, ◌&&◌, false, Some, IfOk, IfErr, MatchOption};
ghost use Rattle.semantics.specs.Tree.{Number};
ghost use Rattle.ktree.specs.View.{source_of, expr_of, cond_of};
ghost use Rattle.cparse_grammar.specs.Operators.{number_in, is_number, cond_in};
ghost use Rattle.cparse_cursor.specs.Outcome.{Gives};
ghost use Rattle.cparse_cursor.specs.declared.stop.Stop.TheVariants.{Memory};
ghost use Rattle.cparse_operand.specs.OperandViews.{operand_of};

use crate::numeric::Numeric;
use crate::operand::Operand;
use cparse_cursor::stop::Stop;
use ktree::{Cond, Expr, Source, Suffix};
use std::alloc::Global;

/// An arithmetic expression where one is wanted.
pub fn number_in(operand: Operand) -> Numeric
    ensures tree { expr_of result.expr ≡ number_in (operand_of operand) }
    ensures number { result.is_number ≡ is_number (operand_of operand) }
{
    let Operand {
        source,
        typed,
        plain,
        written,
        ..
    } = operand;
    match source {
        Source::Number(expr) => Numeric {
            expr,
            is_number: true,
            typed,
            plain,
            written,
        },
        Source::Truth(_) => {
            let expr = Expr::Literal(0, Suffix::Ull);
            Numeric {
                expr,
                is_number: false,
                typed: true,
                plain: false,
                written,
            }
        }
    }
}

/// A condition where one is wanted.
pub fn cond_in(alloc: Global, source: Source) -> Result<Cond, Stop>
    ensures { Gives cond_of result (Some (cond_in (source_of source))) }
{
    match source {
        Source::Number(e) => Ok(Cond::NotZero(Box::new(alloc, e)?)),
        Source::Truth(c) => Ok(c),
    }
}

/// The same in a box.
pub(crate) fn boxed_cond(alloc: Global, source: Source) -> Result<Box<Cond>, Stop>
    ensures cond { IfOk result (λ c. cond_of c.value ≡ cond_in (source_of source)) }
    ensures err { IfErr result (λ stop. stop ≡ Memory) }
{
    let cond = cond_in(alloc, source)?;
    Ok(Box::new(alloc, cond)?)
}

/// Two arithmetic expressions, if both operands are.
pub(crate) fn numbers(left: Source, right: Source) -> Option<(Expr, Expr)>
    ensures { MatchOption result
        ((is_number (source_of left) && is_number (source_of right)) ≡ false)
        (λ both. (source_of left ≡ Number (expr_of both.0))
        × (source_of right ≡ Number (expr_of both.1))) }
{
    match (left, right) {
        (Source::Number(a), Source::Number(b)) => Some((a, b)),
        _ => None,
    }
}
