//! What may be refused, and why.

ghost use Rattle.std.specs.Prelude.{◌≡◌};
ghost use Rattle.ktree.specs.Numbers.{number_of};
ghost use Rattle.ktree.specs.Places.{place_of};
ghost use Rattle.ktree.specs.Words.{cause_words, words_of};

use crate::place::Place;
use std::alloc::{AllocError, AllocFailed};

/// Two accesses of one array, by their places, that are not shown to be independent.
#[derive(Drop)]
pub struct NotShown {
    pub array: String,
    pub first: Place,
    pub second: Place,
}

/// Two accesses of one array, two iterations in which they touch one element, and its indexes.
#[derive(Drop)]
pub struct Conflict {
    pub accesses: NotShown,
    pub earlier: u64,
    pub later: u64,
    pub indexes: Vec<u64>,
}

/// What is wrong with a line of an input, in the order in which it is looked for.
#[derive(Clone, Copy, Debug, PartialEq, Eq)]
pub enum Cause {
    Form,
    Name,
    Twice,
    Count,
    Number,
}

impl Cause {
    /// What is said of it.
    pub fn wording(self) -> &'static [u8]
        ensures { result.now ≡ cause_words self }
    {
        match self {
            Cause::Form => b"form",
            Cause::Name => b"name",
            Cause::Twice => b"twice",
            Cause::Count => b"count",
            Cause::Number => b"number",
        }
    }
}

/// The first faulty line of an input, from 1, and its first cause.
#[derive(Clone, Copy, Debug, PartialEq, Eq)]
pub struct InputFault {
    pub line: u64,
    pub cause: Cause,
}

/// Why a text, an input or a run is refused, in the order of the refusals' numbers, 1 to 24.
#[derive(Drop)]
pub enum Refusal {
    Syntax(Place),
    NumberOutOfRange(Place),
    UnknownName(Place),
    NameTwice(Place),
    /// The number of subscripts or arguments, a condition in arithmetic, an enumeration constant assigned, operands
    /// without a type of 64 bits, or a literal with `ull` in an argument of printf.
    Operands(Place),
    LoopNotCanonical(Place),
    LoopMayWrap(Place),
    NotAffine(Place),
    SubscriptOutOfRange(Place),
    MayBeUnassigned(Place),
    /// A directive or clause that is unknown, malformed or misplaced.
    Directive(Place),
    /// A nest that is not perfect, not rectangular or not deep enough.
    NestNotPerfect(Place),
    /// A variable in two clauses, or in none under `default(none)`.
    ClauseForVariable(Place),
    SharedScalarWritten(Place),
    PrivateVariable(Place),
    Reduction(Place),
    Scan(Place),
    Ordered(Place),
    Conflict(Conflict),
    NotShown(NotShown),
    Limit(Place),
    Input(InputFault),
    /// A growth was refused, or a thread did not start.
    OutOfMemory,
    OutputFailed,
}

impl Refusal {
    /// The refusal's number, 1 to 24: `Knn` in its message.
    pub fn number(&self) -> u8
        ensures { result ≡ number_of self.now }
    {
        match self {
            Refusal::Syntax(_) => 1,
            Refusal::NumberOutOfRange(_) => 2,
            Refusal::UnknownName(_) => 3,
            Refusal::NameTwice(_) => 4,
            Refusal::Operands(_) => 5,
            Refusal::LoopNotCanonical(_) => 6,
            Refusal::LoopMayWrap(_) => 7,
            Refusal::NotAffine(_) => 8,
            Refusal::SubscriptOutOfRange(_) => 9,
            Refusal::MayBeUnassigned(_) => 10,
            Refusal::Directive(_) => 11,
            Refusal::NestNotPerfect(_) => 12,
            Refusal::ClauseForVariable(_) => 13,
            Refusal::SharedScalarWritten(_) => 14,
            Refusal::PrivateVariable(_) => 15,
            Refusal::Reduction(_) => 16,
            Refusal::Scan(_) => 17,
            Refusal::Ordered(_) => 18,
            Refusal::Conflict(_) => 19,
            Refusal::NotShown(_) => 20,
            Refusal::Limit(_) => 21,
            Refusal::Input(_) => 22,
            Refusal::OutOfMemory => 23,
            Refusal::OutputFailed => 24,
        }
    }

    /// Where the text is at fault; of two accesses, where the first stands.
    pub fn place(&self) -> Option<Place>
        ensures { result ≡ place_of self.now }
    {
        match self {
            Refusal::Syntax(place) => Some(*place),
            Refusal::NumberOutOfRange(place) => Some(*place),
            Refusal::UnknownName(place) => Some(*place),
            Refusal::NameTwice(place) => Some(*place),
            Refusal::Operands(place) => Some(*place),
            Refusal::LoopNotCanonical(place) => Some(*place),
            Refusal::LoopMayWrap(place) => Some(*place),
            Refusal::NotAffine(place) => Some(*place),
            Refusal::SubscriptOutOfRange(place) => Some(*place),
            Refusal::MayBeUnassigned(place) => Some(*place),
            Refusal::Directive(place) => Some(*place),
            Refusal::NestNotPerfect(place) => Some(*place),
            Refusal::ClauseForVariable(place) => Some(*place),
            Refusal::SharedScalarWritten(place) => Some(*place),
            Refusal::PrivateVariable(place) => Some(*place),
            Refusal::Reduction(place) => Some(*place),
            Refusal::Scan(place) => Some(*place),
            Refusal::Ordered(place) => Some(*place),
            Refusal::Conflict(conflict) => Some(conflict.accesses.first),
            Refusal::NotShown(accesses) => Some(accesses.first),
            Refusal::Limit(place) => Some(*place),
            Refusal::Input(_) | Refusal::OutOfMemory | Refusal::OutputFailed => None,
        }
    }

    /// What is said of it: what is wrong, in the words of its message.
    pub fn wording(&self) -> &'static [u8]
        ensures { result.now ≡ words_of self.now }
    {
        match self {
            Refusal::Syntax(_) => b"syntax",
            Refusal::NumberOutOfRange(_) => b"number out of range",
            Refusal::UnknownName(_) => b"unknown name",
            Refusal::NameTwice(_) => b"name twice",
            Refusal::Operands(_) => b"operands",
            Refusal::LoopNotCanonical(_) => b"loop not canonical",
            Refusal::LoopMayWrap(_) => b"loop may wrap",
            Refusal::NotAffine(_) => b"not affine",
            Refusal::SubscriptOutOfRange(_) => b"subscript out of range",
            Refusal::MayBeUnassigned(_) => b"may be unassigned",
            Refusal::Directive(_) => b"directive",
            Refusal::NestNotPerfect(_) => b"nest not perfect",
            Refusal::ClauseForVariable(_) => b"clause for variable",
            Refusal::SharedScalarWritten(_) => b"shared scalar written",
            Refusal::PrivateVariable(_) => b"private variable",
            Refusal::Reduction(_) => b"reduction",
            Refusal::Scan(_) => b"scan",
            Refusal::Ordered(_) => b"ordered",
            Refusal::Conflict(_) => b"conflict",
            Refusal::NotShown(_) => b"not shown",
            Refusal::Limit(_) => b"limit",
            Refusal::Input(_) => b"line ",
            Refusal::OutOfMemory => b"out of memory",
            Refusal::OutputFailed => b"output failed",
        }
    }
}

impl From<AllocError> for Refusal {
    ghost use Rattle.ktree.specs.declared.refusal.Refusal.TheVariants.{OutOfMemory};

    ghost from_gives = { λ _ refusal. refusal ≡ OutOfMemory };

    fn from(_error: AllocError) -> Refusal {
        Refusal::OutOfMemory
    }
}

impl<T: Drop> From<AllocFailed<T>> for Refusal {
    ghost use Rattle.ktree.specs.declared.refusal.Refusal.TheVariants.{OutOfMemory};

    ghost from_gives = { λ _ refusal. refusal ≡ OutOfMemory };

    fn from(_error: AllocFailed<T>) -> Refusal {
        Refusal::OutOfMemory
    }
}
