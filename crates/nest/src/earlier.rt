//! Which of two faults is told.

ghost use Rattle.std.specs.Prelude.{◌≡◌, ◌⊎◌, ◌↔◌, true, IsNone, IsOk, MatchResult, ⊤};
ghost use Rattle.affine_expr.specs.declared.faults.Fault.TheVariants.{OutOfMemory};
ghost use Rattle.std.specs.declared.result.Result.TheVariants.{Err};

use affine_expr::Fault;
use ktree::{Place, Refusal};

/// Where a fault stands; want of memory stands nowhere.
fn place_of(fault: Fault) -> Option<Place>
    ensures { IsNone result ↔ (fault ≡ OutOfMemory) }
{
    match fault {
        Fault::NotCanonical(place)
        | Fault::MayWrap(place)
        | Fault::NotAffine(place)
        | Fault::NotPerfect(place)
        | Fault::Limit(place) => Some(place),
        Fault::OutOfMemory => None,
    }
}

/// Whether the second of two faults is told: it stands earlier in the text, or has the lower number at the same place.
fn is_second(first: Fault, second: Fault) -> bool
    ensures { first ≡ OutOfMemory → result ≡ true → second ≡ OutOfMemory }
{
    let Some(second_place) = place_of(second) else {
        return true;
    };
    let Some(first_place) = place_of(first) else {
        return false;
    };
    if second_place.line != first_place.line {
        return second_place.line < first_place.line;
    }
    if second_place.column != first_place.column {
        return second_place.column < first_place.column;
    }
    Refusal::from(second).number() < Refusal::from(first).number()
}

/// The fault that stands first in the text, or the one with the lower number at the same place; the first, if there is no
/// other.
pub fn first_fault(first: Fault, second: Result<(), Fault>) -> Fault
    ensures { first ≡ OutOfMemory → result ≡ OutOfMemory }
{
    match second {
        Ok(()) => first,
        Err(second) => {
            if is_second(first, second) {
                second
            } else {
                first
            }
        }
    }
}

/// Whether both are well; of two faults the one that stands first in the text is told, and of two at one place the one with
/// the lower number.
pub fn both(first: Result<(), Fault>, second: Result<(), Fault>) -> Result<(), Fault>
    ensures { MatchResult result (λ _. IsOk first × IsOk second)
        (λ fault. (first ≡ Err fault) ⊎ (second ≡ Err fault)) }
{
    match (first, second) {
        (Ok(()), Ok(())) => Ok(()),
        (Err(one), Ok(())) => Err(one),
        (Ok(()), Err(other)) => Err(other),
        (Err(one), Err(other)) => {
            if is_second(one, other) {
                Err(other)
            } else {
                Err(one)
            }
        }
    }
}
