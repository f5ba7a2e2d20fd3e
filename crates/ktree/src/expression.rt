//! Expressions and conditions.

use crate::place::{Place, VarId};

/// Whether a literal has the type `int` or, with `ull`, `unsigned long long` (C11 6.4.4.1).
#[derive(Clone, Copy, Debug, PartialEq, Eq)]
pub enum Suffix {
    Bare,
    Ull,
}

/// A unary operator (C11 6.5.3.3).
#[derive(Clone, Copy, Debug, PartialEq, Eq)]
pub enum UnaryOp {
    Negate,
    Complement,
}

/// A binary operator (C11 6.5.5 to 6.5.7 and 6.5.10 to 6.5.12).
#[derive(Clone, Copy, Debug, PartialEq, Eq)]
pub enum BinaryOp {
    Plus,
    Minus,
    Times,
    Divide,
    Remainder,
    BitAnd,
    BitOr,
    BitXor,
    ShiftLeft,
    ShiftRight,
}

/// A relational or equality operator (C11 6.5.8, 6.5.9).
#[derive(Clone, Copy, Debug, PartialEq, Eq)]
pub enum CompareOp {
    Less,
    LessEqual,
    Greater,
    GreaterEqual,
    Equal,
    NotEqual,
}

/// Where an object is named: its name, and the first token of each subscript, from the left.
#[derive(Drop)]
pub struct NamePlaces {
    pub name: Place,
    pub subscripts: Vec<Place>,
}

/// An arithmetic expression (C11 6.5).
#[cycle(expression)]
#[derive(Drop)]
pub enum Expr {
    Literal(u64, Suffix),
    /// An enumeration constant: its name and its value (C11 6.7.2.2).
    Constant(String, u32),
    /// A scalar, or an element of an array with its subscripts (C11 6.5.1, 6.5.2.1).
    Object(VarId, Vec<Expr>, NamePlaces),
    Unary(UnaryOp, Box<Expr>),
    Binary(BinaryOp, Box<Expr>, Box<Expr>),
    /// `c ? a : b` (C11 6.5.15).
    Conditional(Box<Cond>, Box<Expr>, Box<Expr>),
}

/// A condition: it gives 1 or 0 (C11 6.5.3.3, 6.5.8, 6.5.9, 6.5.13, 6.5.14).
#[cycle(expression)]
#[derive(Drop)]
pub enum Cond {
    /// An arithmetic expression where a condition is wanted.
    NotZero(Box<Expr>),
    /// With the place of the first token of the right operand, which is where a loop's bound begins.
    Compare(CompareOp, Box<Expr>, Box<Expr>, Place),
    Not(Box<Cond>),
    LogicalAnd(Box<Cond>, Box<Cond>),
    LogicalOr(Box<Cond>, Box<Cond>),
}
