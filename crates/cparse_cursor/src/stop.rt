//! Why reading stops, and faults after which it goes on.

ghost use Rattle.std.specs.Prelude.{◌≡◌, ◌&&◌, is_none};
ghost use Rattle.cparse_cursor.specs.declared.stop.Stop.TheVariants.{Memory};

use ktree::Place;
use std::alloc::{AllocError, AllocFailed};

/// Why reading stops at once.
#[derive(Clone, Copy, Drop)]
pub enum Stop {
    /// A growth was refused.
    Memory,
    /// The grammar has nothing so.
    Syntax(Place),
    /// Too much would be open.
    Limit(Place),
}

impl From<AllocError> for Stop {
    ghost from_gives = { λ _ stop. stop ≡ Memory };

    fn from(_error: AllocError) -> Stop {
        Stop::Memory
    }
}

impl<T: Drop> From<AllocFailed<T>> for Stop {
    ghost from_gives = { λ _ stop. stop ≡ Memory };

    fn from(_error: AllocFailed<T>) -> Stop {
        Stop::Memory
    }
}

/// A fault of names and sorts, in the order in which they are told at one place: an unknown name has no value for that, and
/// else it is the order of the refusals' numbers.
#[derive(Clone, Copy, PartialEq, Eq, Drop)]
pub enum Flaw {
    UnknownName,
    NumberOutOfRange,
    NameTwice,
    Operands,
    Limit,
}

/// A fault of names and sorts, after which reading goes on: a fault of syntax further on is told first.
#[derive(Clone, Copy, Drop)]
pub struct Fault {
    pub place: Place,
    pub flaw: Flaw,
}

impl Fault {
    /// Whether a fault is told before another one: that of the earlier place, and at one place that of the first flaw.
    fn comes_before(self, other: Fault) -> bool {
        let here = (self.place.line, self.place.column, self.flaw as u8);
        let there = (other.place.line, other.place.column, other.flaw as u8);
        here < there
    }
}

/// Of two faults, the one that is told.
pub fn earlier(a: Option<Fault>, b: Option<Fault>) -> Option<Fault>
    ensures { is_none result ≡ (is_none a && is_none b) }
{
    match (a, b) {
        (None, _) => b,
        (_, None) => a,
        (Some(first), Some(second)) => { if second.comes_before(first) { b } else { a } }
    }
}

/// A fault, unless all is right.
pub fn unless(right: bool, flaw: Flaw, place: Place) -> Option<Fault>
    ensures { is_none result ≡ right }
{
    if right {
        None
    } else {
        Some(Fault { place, flaw })
    }
}

/// What is told of a fault inside of operands and of one in how they were written, where an operator may have them or not.
/// Operands that do not fit because of a fault inside alone have none of their own.
pub fn operand_fault(
    inside: Option<Fault>,
    right: bool,
    own: Option<Fault>,
    place: Place,
) -> Option<Fault>
    ensures { is_none result ≡ (is_none inside && right) }
{
    match (inside, own) {
        (None, None) => unless(right, Flaw::Operands, place),
        (None, Some(fault)) => unless(right, fault.flaw, fault.place),
        (Some(_), _) => earlier(inside, own),
    }
}

/// The same of the sort of an operand, which is as wanted, or counts so.
pub fn told_sort(inside: Option<Fault>, right: bool, counts: bool, place: Place) -> Option<Fault>
    ensures { is_none result ≡ (is_none inside && right) }
{
    operand_fault(inside, right, unless(counts, Flaw::Operands, place), place)
}
