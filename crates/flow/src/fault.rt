//! What keeps the data of a parallel loop from being private.

ghost use Rattle.std.specs.Prelude.{◌≡◌, ◌⊎◌, ◌&&◌, Some, is_none, IfSome};
ghost use Rattle.flow.specs.Told.{data_refusal_of};

use ktree::{Place, Refusal};
use std::alloc::AllocError;

/// Why the iterations of a parallel loop do not keep to data of their own (OpenMP 5.2, 5.1.1, 5.4.5 and 5.5.8).
#[derive(Clone, Copy, Debug, PartialEq, Eq)]
pub enum DataFault {
    /// A shared scalar is written: the place of its name.
    Written(Place),
    /// A `firstprivate` scalar is written, whose copies no clause brings back: the place of its name.
    Copied(Place),
    /// A private or lastprivate scalar may be read before the iteration assigns it: the place of its name.
    Unassigned(Place),
    /// A `lastprivate` scalar is not assigned on every path through the body: the place of its name in the clause.
    LastUnassigned(Place),
    /// A reduction variable is named outside an update by its own operator: the place of its name; or it has a second role: the
    /// place of its name in the clause.
    Reduced(Place),
    /// A directive line that is no `parallel for`, or has no nest of its depth behind it: the place of its `#`.
    Directive(Place),
    /// A growth was refused.
    OutOfMemory,
}

impl From<DataFault> for Refusal {
    ghost use Rattle.flow.specs.Told.{data_refusal_of};

    ghost from_gives = { λ fault refusal. refusal ≡ data_refusal_of fault };

    fn from(fault: DataFault) -> Refusal {
        match fault {
            DataFault::Written(place) => Refusal::SharedScalarWritten(place),
            DataFault::Copied(place) => Refusal::PrivateVariable(place),
            DataFault::Unassigned(place) => Refusal::PrivateVariable(place),
            DataFault::LastUnassigned(place) => Refusal::PrivateVariable(place),
            DataFault::Reduced(place) => Refusal::Reduction(place),
            DataFault::Directive(place) => Refusal::Directive(place),
            DataFault::OutOfMemory => Refusal::OutOfMemory,
        }
    }
}

impl DataFault {
    /// The place that it tells; none of want of memory.
    fn place(self) -> Option<Place> {
        match self {
            DataFault::Written(place) => Some(place),
            DataFault::Copied(place) => Some(place),
            DataFault::Unassigned(place) => Some(place),
            DataFault::LastUnassigned(place) => Some(place),
            DataFault::Reduced(place) => Some(place),
            DataFault::Directive(place) => Some(place),
            DataFault::OutOfMemory => None,
        }
    }

    /// Whether it is told before what stands at a place, by the order of the text; want of memory is told before all else.
    pub fn stands_before(self, place: Place) -> bool {
        match self.place() {
            None => true,
            Some(own) => {
                own.line < place.line || (own.line == place.line && own.column < place.column)
            }
        }
    }
}

impl From<AllocError> for DataFault {
    ghost use Rattle.flow.specs.declared.fault.DataFault.TheVariants.{OutOfMemory};

    ghost from_gives = { λ _ fault. fault ≡ OutOfMemory };

    fn from(_error: AllocError) -> DataFault {
        DataFault::OutOfMemory
    }
}

/// The first of two faults, by the order of the text.
pub(crate) fn earlier(one: Option<DataFault>, other: Option<DataFault>) -> Option<DataFault>
    ensures none { is_none result ≡ (is_none one && is_none other) }
    ensures one { IfSome result (λ f. (one ≡ Some f) ⊎ (other ≡ Some f)) }
{
    match (one, other) {
        (None, other) => other,
        (one, None) => one,
        (Some(one), Some(other)) => match one.place() {
            Some(place) if other.stands_before(place) => Some(other),
            _ => Some(one),
        },
    }
}
