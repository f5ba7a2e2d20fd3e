//! What keeps a statement from being let through.

ghost use Rattle.std.specs.Prelude.{◌≡◌};
ghost use Rattle.flow_definite.specs.Judged.{refusal_of};

use ktree::{Place, Refusal};
use std::alloc::AllocError;

/// Why a statement is refused by what it reads (C11 6.7.9, 10).
#[derive(Clone, Copy, Debug, PartialEq, Eq)]
pub enum ReadFault {
    /// A variable may be read before it is assigned: the place of its name.
    Unassigned(Place),
    /// A growth was refused.
    OutOfMemory,
}

impl From<ReadFault> for Refusal {
    ghost use Rattle.flow_definite.specs.Judged.{refusal_of};

    ghost from_gives = { λ fault refusal. refusal ≡ refusal_of fault };

    fn from(fault: ReadFault) -> Refusal {
        match fault {
            ReadFault::Unassigned(place) => Refusal::MayBeUnassigned(place),
            ReadFault::OutOfMemory => Refusal::OutOfMemory,
        }
    }
}

impl From<AllocError> for ReadFault {
    ghost use Rattle.flow_definite.specs.declared.fault.ReadFault.TheVariants.{OutOfMemory};

    ghost from_gives = { λ _ fault. fault ≡ OutOfMemory };

    fn from(_error: AllocError) -> ReadFault {
        ReadFault::OutOfMemory
    }
}
