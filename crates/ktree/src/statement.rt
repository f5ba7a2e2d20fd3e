//! Statements, declarations and the kernel.

use crate::expression::{BinaryOp, Cond, Expr, NamePlaces};
use crate::place::{Place, VarId};

/// The right side of an assignment, or an initialiser: a condition there gives 1 or 0 (C11 6.5.16, 6.7.9).
#[derive(Drop)]
pub enum Source {
    Number(Expr),
    Truth(Cond),
}

/// What a loop does behind each turn (C11 6.5.2.4, 6.5.3.1, 6.5.16).
#[derive(Drop)]
pub enum Increment {
    Up(VarId),
    Down(VarId),
    Set(VarId, Source),
    Change(VarId, BinaryOp, Expr),
}

/// What printf writes: characters, or a number in plain decimal (C11 7.21.6.1, 7.8.1).
#[derive(Drop)]
pub enum PrintPart {
    Characters(Vec<u8>),
    Decimal(Expr),
}

/// The object that is assigned (C11 6.5.16).
#[derive(Drop)]
pub struct Target {
    pub variable: VarId,
    pub subscripts: Vec<Expr>,
    pub mention: NamePlaces,
}

/// A loop's head (C11 6.8.5.3).
#[derive(Drop)]
pub struct Head {
    pub variable: VarId,
    pub name: String,
    pub start: Source,
    pub test: Cond,
    pub step: Increment,
    /// Where the word `for` stands.
    pub place: Place,
    /// Where the first token of the start stands.
    pub start_place: Place,
}

/// A statement (C11 6.8).
#[cycle(statement)]
#[derive(Drop)]
pub enum Stmt {
    Assign(Target, Source),
    /// `op=` (C11 6.5.16.2).
    Update(Target, BinaryOp, Expr),
    If(Cond, Box<Stmt>, Option<Box<Stmt>>),
    For(Head, Box<Stmt>),
    Block(Vec<Item>),
    /// printf, with the place of that word.
    Print(Vec<PrintPart>, Place),
}

/// A block's item (C11 6.8.2).
#[cycle(statement)]
#[derive(Drop)]
pub enum Item {
    /// A directive line, by the place of its `#`.
    Directive(Place),
    Local(Local),
    Statement(Box<Stmt>),
}

/// A local's declaration (C11 6.7).
#[derive(Drop)]
pub struct Local {
    pub variable: VarId,
    pub name: String,
    pub start: Option<Source>,
    pub place: Place,
}

/// An enumeration constant (C11 6.7.2.2).
#[derive(Drop)]
pub struct Enumerator {
    pub name: String,
    pub value: u32,
}

/// A file-scope variable: the lengths of its dimensions, none for a scalar (C11 6.7.6.2).
#[derive(Drop)]
pub struct Declaration {
    pub name: String,
    pub lengths: Vec<u64>,
    pub place: Place,
}

/// A text's tree; directive lines stand in it by their places alone.
#[derive(Drop)]
pub struct Kernel {
    pub constants: Vec<Enumerator>,
    pub variables: Vec<Declaration>,
    pub body: Vec<Item>,
}
