//! Operands as they were written, by which faults are told.

ghost use Rattle.std.specs.Prelude.{◌≡◌, false};
ghost use Rattle.cparse_cursor.specs.declared.stop.Flaw.TheVariants.{NumberOutOfRange};
ghost use Rattle.cparse_cursor.specs.declared.written.Sort.TheVariants.{Typed};
ghost use Rattle.cparse_cursor.specs.Sorts.{is_typed, is_constant, is_number};

use crate::stop::{Fault, Flaw};
use ktree::Place;

/// What an operand counts as for the operator above it. An operation at fault counts as what it was to be, so that a fault
/// draws no other one.
#[derive(Clone, Copy, Drop)]
pub enum Sort {
    /// Arithmetic of the type `uint64_t` (C11 6.3.1.8).
    Typed,
    /// A constant expression (C11 6.6), with its value unless it has none because of a fault inside.
    Constant(Option<u32>),
    /// Other arithmetic.
    Untyped,
    Condition,
}

/// An operand as it was written.
#[derive(Clone, Copy, Drop)]
pub struct Written {
    pub sort: Sort,
    /// Whether it has a literal with `ull` outside of subscripts.
    pub has_ull: bool,
    /// Where its value is at fault: the first token that a constant expression may not have, or else its top operator.
    pub place: Place,
}

impl Written {
    /// A variable, or a name that is unknown.
    pub fn variable(place: Place) -> Written
        ensures { result ≡ record { sort = Typed; has_ull = false; place = place } }
    {
        Written {
            sort: Sort::Typed,
            has_ull: false,
            place,
        }
    }

    /// Whether it is arithmetic of the type `uint64_t`.
    pub fn is_typed(self) -> bool
        ensures { result ≡ is_typed self.sort }
    {
        matches!(self.sort, Sort::Typed)
    }

    /// Whether it is a constant expression.
    pub fn is_constant(self) -> bool
        ensures { result ≡ is_constant self.sort }
    {
        matches!(self.sort, Sort::Constant(_))
    }

    /// Whether it is a number, and no condition.
    pub fn is_number(self) -> bool
        ensures { result ≡ is_number self.sort }
    {
        !matches!(self.sort, Sort::Condition)
    }

    /// The fault of a value that is missing or out of its range.
    pub fn out_of_range(self) -> Fault
        ensures { result ≡ record { place = self.place; flaw = NumberOutOfRange } }
    {
        Fault {
            place: self.place,
            flaw: Flaw::NumberOutOfRange,
        }
    }
}
