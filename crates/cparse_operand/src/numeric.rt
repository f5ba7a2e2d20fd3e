//! Arithmetic expressions where they are wanted.

ghost use Rattle.std.specs.Prelude.{◌≡◌};
ghost use Rattle.cparse_operand.specs.Operands.{expr_typed, expr_plain};

use cparse_cursor::written::Written;
use ktree::Expr;

/// An arithmetic expression with what is known of it, and whether one was read.
#[derive(Drop)]
pub struct Numeric {
    pub expr: Expr,
    pub is_number: bool,
    pub typed: bool,
    pub plain: bool,
    pub written: Written,
    ghost type_known: { typed ≡ expr_typed expr },
    ghost literals_known: { plain ≡ expr_plain expr },
}
