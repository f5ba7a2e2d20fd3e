//! What expressions, conditions and statements are lowered to.

ghost use Rattle.std.specs.Prelude.{◌<◌, ◌^◌};

use ktree::{BinaryOp, CompareOp, UnaryOp};

/// A number of 64 bits.
#[derive(Clone, Copy)]
pub struct Word {
    pub number: u64,
    pub ghost fits: { number < 2 ^ 64 },
}

/// The number of a register.
#[derive(Clone, Copy)]
pub struct Register {
    pub at: u32,
}

/// An expression over registers and cells (C11 6.5). It is worth a number on every machine: what the standard leaves
/// open is 0.
#[cycle(term)]
#[derive(Drop)]
pub enum Term {
    Number(Word),
    Local(Register),
    /// The cell at a place.
    Element(Box<Term>),
    Unary(UnaryOp, Box<Term>),
    Binary(BinaryOp, Box<Term>, Box<Term>),
    Conditional(Box<Test>, Box<Term>, Box<Term>),
}

/// A condition over registers and cells (C11 6.5.8, 6.5.9, 6.5.13, 6.5.14).
#[cycle(term)]
#[derive(Drop)]
pub enum Test {
    Compare(CompareOp, Box<Term>, Box<Term>),
    Not(Box<Test>),
    LogicalAnd(Box<Test>, Box<Test>),
    LogicalOr(Box<Test>, Box<Test>),
}

/// What printf writes: characters, or a number in plain decimal (C11 7.21.6.1, 7.8.1).
#[derive(Drop)]
pub enum Piece {
    Characters(Vec<u8>),
    Decimal(Term),
}

/// A statement over registers and cells (C11 6.8).
#[cycle(code)]
#[derive(Drop)]
pub enum Code {
    Nothing,
    /// A register takes what a term is worth.
    Set(Register, Term),
    /// The cell at a place takes what a term is worth.
    Save(Term, Term),
    /// The one, and then the other.
    Then(Box<Code>, Box<Code>),
    If(Test, Box<Code>, Box<Code>),
    /// As long as the test holds, the body and then the step.
    Loop(Test, Box<Code>, Box<Code>),
    Print(Vec<Piece>),
}
