//! What is wrong with a loop or a subscript.

ghost use Rattle.std.specs.Prelude.{◌≡◌, ◌⊎◌, ◌↔◌, IfErr};

use ktree::{Place, Refusal};
use std::alloc::{AllocError, AllocFailed};

/// Why a loop or a subscript is refused, by the place of what is at fault (OpenMP 5.2, 4.4.1).
#[derive(Clone, Copy, Debug, PartialEq, Eq)]
pub enum Fault {
    /// A loop that is not canonical, by its `for` (C11 6.8.5.3).
    NotCanonical(Place),
    /// A loop whose variable may wrap, by its `for` (C11 6.2.5, 9).
    MayWrap(Place),
    /// A bound or a subscript that is not linear in the variables of the loops round it.
    NotAffine(Place),
    /// Loops that do not stand one directly in the other.
    NotPerfect(Place),
    /// More loops, variables or larger numbers than the limits have.
    Limit(Place),
    /// A growth was refused.
    OutOfMemory,
}

impl From<Fault> for Refusal {
    ghost use Rattle.affine_expr.specs.Faults.{refusal_of};

    ghost from_gives = { λ fault refusal. refusal ≡ refusal_of fault };

    fn from(fault: Fault) -> Refusal {
        match fault {
            Fault::NotCanonical(place) => Refusal::LoopNotCanonical(place),
            Fault::MayWrap(place) => Refusal::LoopMayWrap(place),
            Fault::NotAffine(place) => Refusal::NotAffine(place),
            Fault::NotPerfect(place) => Refusal::NestNotPerfect(place),
            Fault::Limit(place) => Refusal::Limit(place),
            Fault::OutOfMemory => Refusal::OutOfMemory,
        }
    }
}

impl From<AllocError> for Fault {
    ghost use Rattle.affine_expr.specs.declared.faults.Fault.TheVariants.{OutOfMemory};

    ghost from_gives = { λ _ fault. fault ≡ OutOfMemory };

    fn from(_error: AllocError) -> Fault {
        Fault::OutOfMemory
    }
}

impl<T: Drop> From<AllocFailed<T>> for Fault {
    ghost use Rattle.affine_expr.specs.declared.faults.Fault.TheVariants.{OutOfMemory};

    ghost from_gives = { λ _ fault. fault ≡ OutOfMemory };

    fn from(_error: AllocFailed<T>) -> Fault {
        Fault::OutOfMemory
    }
}

/// The fault that a form's refusal is: the limit at this place, or want of memory.
pub fn fault_of_refusal(refusal: Refusal, place: Place) -> Fault
    ensures limit { refusal ≡ Refusal.Limit place → result ≡ Fault.Limit place }
    ensures memory { refusal ≡ Refusal.OutOfMemory → result ≡ Fault.OutOfMemory }
{
    if matches!(refusal, Refusal::OutOfMemory) {
        Fault::OutOfMemory
    } else {
        Fault::Limit(place)
    }
}
