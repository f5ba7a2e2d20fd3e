//! Constants of the type `int` (C11 6.4.4.1, 6.6).

ghost use Rattle.std.specs.Prelude.{◌≡◌};
ghost use Rattle.semantics.specs.Source.Typing.{in_int, int_operate};
ghost use Rattle.ktree.specs.View.{binary_of};

use crate::expression::BinaryOp;

/// A value that is in the range of `int`.
pub fn int_constant(value: u64) -> Option<u32>
    ensures { result ≡ in_int value }
{
    if value < 1 << 31 {
        Some(value as u32)
    } else {
        None
    }
}

/// What `+`, `-` and `*` give in that range, none below 0; no other operator stands in a constant expression.
pub fn fold_constants(operator: BinaryOp, left: u32, right: u32) -> Option<u32>
    ensures { result ≡ int_operate (binary_of operator) left right }
{
    match operator {
        BinaryOp::Plus => int_constant(u64::from(left) + u64::from(right)),
        BinaryOp::Minus => left.checked_sub(right),
        BinaryOp::Times => int_constant(u64::from(left) * u64::from(right)),
        _ => None,
    }
}
