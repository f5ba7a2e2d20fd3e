//! The nine operators.

ghost use Rattle.std.specs.Prelude.{◌≡◌};
ghost use Rattle.semantics.specs.Loops.Operator as meant;
ghost use Rattle.ktree.specs.DirectiveView.{operator_of};
ghost use Rattle.semantics.specs.Loops.OperatorLaw.{operators_are_lawful};

use ktree::ReductionOperator;

/// A reduction operator and its identity (OpenMP 5.2, 5.5.1 and 5.5.3), on 64 bits.
pub trait ReduceOp {
    ghost operator: { meant.ReduceOp };

    /// What a copy begins with.
    fn identity() -> u64
        ensures { result ≡ meant.identity operator };

    /// A value combined with another.
    fn apply(a: u64, b: u64) -> u64
        ensures { result ≡ meant.apply operator a b };

    // associative and commutative, and the identity changes no value that an update can give
    ghost laws: { meant.IsLawful operator };
}

/// `+`, modulo 2^64.
#[derive(Clone, Copy)]
pub struct Sum;

impl ReduceOp for Sum {
    ghost operator = { meant.Sum };

    ghost laws = { operators_are_lawful meant.Sum };

    fn identity() -> u64 {
        0
    }

    fn apply(a: u64, b: u64) -> u64 {
        a.wrapping_add(b)
    }
}

/// `*`, modulo 2^64.
#[derive(Clone, Copy)]
pub struct Product;

impl ReduceOp for Product {
    ghost operator = { meant.Product };

    ghost laws = { operators_are_lawful meant.Product };

    fn identity() -> u64 {
        1
    }

    fn apply(a: u64, b: u64) -> u64 {
        a.wrapping_mul(b)
    }
}

/// `&`.
#[derive(Clone, Copy)]
pub struct BitAnd;

impl ReduceOp for BitAnd {
    ghost operator = { meant.And };

    ghost laws = { operators_are_lawful meant.And };

    fn identity() -> u64 {
        !0
    }

    fn apply(a: u64, b: u64) -> u64 {
        a & b
    }
}

/// `|`.
#[derive(Clone, Copy)]
pub struct BitOr;

impl ReduceOp for BitOr {
    ghost operator = { meant.Or };

    ghost laws = { operators_are_lawful meant.Or };

    fn identity() -> u64 {
        0
    }

    fn apply(a: u64, b: u64) -> u64 {
        a | b
    }
}

/// `^`.
#[derive(Clone, Copy)]
pub struct BitXor;

impl ReduceOp for BitXor {
    ghost operator = { meant.Xor };

    ghost laws = { operators_are_lawful meant.Xor };

    fn identity() -> u64 {
        0
    }

    fn apply(a: u64, b: u64) -> u64 {
        a ^ b
    }
}

/// `&&`, which gives 1 or 0.
#[derive(Clone, Copy)]
pub struct LogicalAnd;

impl ReduceOp for LogicalAnd {
    ghost operator = { meant.AndAlso };

    ghost laws = { operators_are_lawful meant.AndAlso };

    fn identity() -> u64 {
        1
    }

    fn apply(a: u64, b: u64) -> u64 {
        u64::from(a != 0 && b != 0)
    }
}

/// `||`, which gives 1 or 0.
#[derive(Clone, Copy)]
pub struct LogicalOr;

impl ReduceOp for LogicalOr {
    ghost operator = { meant.OrElse };

    ghost laws = { operators_are_lawful meant.OrElse };

    fn identity() -> u64 {
        0
    }

    fn apply(a: u64, b: u64) -> u64 {
        u64::from(a != 0 || b != 0)
    }
}

/// `max`.
#[derive(Clone, Copy)]
pub struct Max;

impl ReduceOp for Max {
    ghost operator = { meant.Max };

    ghost laws = { operators_are_lawful meant.Max };

    fn identity() -> u64 {
        0
    }

    fn apply(a: u64, b: u64) -> u64 {
        a.max(b)
    }
}

/// `min`.
#[derive(Clone, Copy)]
pub struct Min;

impl ReduceOp for Min {
    ghost operator = { meant.Min };

    ghost laws = { operators_are_lawful meant.Min };

    fn identity() -> u64 {
        u64::MAX
    }

    fn apply(a: u64, b: u64) -> u64 {
        a.min(b)
    }
}

/// What a copy of this operator's begins with.
pub fn identity_by(op: ReductionOperator) -> u64
    ensures { result ≡ meant.identity (operator_of op) }
{
    match op {
        ReductionOperator::Sum => Sum::identity(),
        ReductionOperator::Product => Product::identity(),
        ReductionOperator::And => BitAnd::identity(),
        ReductionOperator::Or => BitOr::identity(),
        ReductionOperator::Xor => BitXor::identity(),
        ReductionOperator::LogicalAnd => LogicalAnd::identity(),
        ReductionOperator::LogicalOr => LogicalOr::identity(),
        ReductionOperator::Max => Max::identity(),
        ReductionOperator::Min => Min::identity(),
    }
}

/// A value combined with another by this operator.
pub fn apply_by(op: ReductionOperator, a: u64, b: u64) -> u64
    ensures { result ≡ meant.apply (operator_of op) a b }
{
    match op {
        ReductionOperator::Sum => Sum::apply(a, b),
        ReductionOperator::Product => Product::apply(a, b),
        ReductionOperator::And => BitAnd::apply(a, b),
        ReductionOperator::Or => BitOr::apply(a, b),
        ReductionOperator::Xor => BitXor::apply(a, b),
        ReductionOperator::LogicalAnd => LogicalAnd::apply(a, b),
        ReductionOperator::LogicalOr => LogicalOr::apply(a, b),
        ReductionOperator::Max => Max::apply(a, b),
        ReductionOperator::Min => Min::apply(a, b),
    }
}
