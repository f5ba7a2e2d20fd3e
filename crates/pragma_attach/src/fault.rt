//! What is wrong with the directives of a kernel.

ghost use Rattle.std.specs.Prelude.{◌≡◌};

use ktree::{Place, Refusal};

/// What may be wrong, in the order of the refusals' numbers.
#[derive(Clone, Copy)]
pub(crate) enum Flaw {
    UnknownName,
    Directive,
    ClauseForVariable,
    Limit,
}

/// What is wrong, and where.
#[derive(Clone, Copy)]
pub(crate) struct Fault {
    pub place: Place,
    pub flaw: Flaw,
}

impl Fault {
    /// Whether a fault is told before another one: that of the earlier place, and at one place that of the lower number.
    fn comes_before(self, other: Fault) -> bool {
        let here = (self.place.line, self.place.column, self.flaw as u8);
        let there = (other.place.line, other.place.column, other.flaw as u8);
        here < there
    }
}

impl From<Fault> for Refusal {
    ghost use Rattle.pragma_attach.specs.Faults.{refusal_of};

    ghost from_gives = { λ fault refusal. refusal ≡ refusal_of fault };

    fn from(fault: Fault) -> Refusal {
        match fault.flaw {
            Flaw::UnknownName => Refusal::UnknownName(fault.place),
            Flaw::Directive => Refusal::Directive(fault.place),
            Flaw::ClauseForVariable => Refusal::ClauseForVariable(fault.place),
            Flaw::Limit => Refusal::Limit(fault.place),
        }
    }
}

/// Of a fault and another one, if there is one, that which is told.
pub(crate) fn first(fault: Fault, other: Option<Fault>) -> Fault {
    match other {
        Some(other) if other.comes_before(fault) => other,
        _ => fault,
    }
}
