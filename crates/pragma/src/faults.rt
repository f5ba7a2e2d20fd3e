//! What is wrong with the directive lines of a kernel.

ghost use Rattle.std.specs.Prelude.{◌≡◌};

use ktree::{Place, Refusal};

/// Why a directive line is refused, by the place of its `#`.
#[derive(Clone, Copy, Debug, PartialEq, Eq)]
pub enum Fault {
    /// A line that is no `parallel for` of the known clauses, or does not stand directly before a `for`, or stands in a
    /// parallel loop.
    Directive(Place),
    /// A chunk above 2^24 iterations, or more than 4 loops joined.
    Size(Place),
}

impl From<Fault> for Refusal {
    ghost use Rattle.pragma.specs.Faults.{refusal_of};

    ghost from_gives = { λ fault refusal. refusal ≡ refusal_of fault };

    fn from(fault: Fault) -> Refusal {
        match fault {
            Fault::Directive(place) => Refusal::Directive(place),
            Fault::Size(place) => Refusal::Limit(place),
        }
    }
}
