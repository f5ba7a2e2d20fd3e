//! Constant expressions, and operands that fit (C11 6.3.1.8, 6.5, 6.6).

ghost use Rattle.std.specs.Prelude.{◌≡◌, ◌<◌, ◌^◌};
ghost use Rattle.semantics.specs.Meaning.Value.{both};
ghost use Rattle.semantics.specs.Source.Typing.{int_operate, in_range, flat, not_zero, may_shift};
ghost use Rattle.ktree.specs.View.{suffix_of, binary_of};

use ktree::{BinaryOp, Suffix, fold_constants};

/// Whether a literal is in its type's range (C11 6.4.4.1).
pub fn in_range(suffix: Suffix, n: u64) -> bool
    ensures { result ≡ in_range (suffix_of suffix) n }
{
    match suffix {
        Suffix::Bare => n < 1 << 31,
        Suffix::Ull => true,
    }
}

/// The value of a constant expression by those of its operands.
pub fn constant(operator: BinaryOp, a: Option<u32>, b: Option<u32>) -> Option<u32>
    ensures { result ≡ flat (both (int_operate (binary_of operator)) a b) }
{
    fold_constants(operator, a?, b?)
}

/// Whether a value is there and not 0.
pub fn not_zero(value: Option<u32>) -> bool
    ensures { result ≡ not_zero value }
{
    matches!(value, Some(n) if n != 0)
}

/// Whether a value is there and below 64 (C11 6.5.7).
pub fn may_shift(count: Option<u32>) -> bool
    ensures { result ≡ may_shift count }
{
    matches!(count, Some(n) if n < 64)
}
