//! Why the names of directives are not resolved.

ghost use Rattle.std.specs.Prelude.{◌≡◌};
ghost use Rattle.pragma_attach.specs.declared.stop.Stop.TheVariants.{Memory};
ghost use Rattle.pragma_attach.specs.Told.{tells_of};

use ktree::Place;
use std::alloc::{AllocError, AllocFailed};

/// Why names are not resolved.
#[derive(Clone, Copy, Drop)]
pub(crate) enum Stop {
    /// A growth was refused.
    Memory,
    /// The name at this place is that of no visible variable.
    UnknownName(Place),
    /// The name at this place is that of a variable that the directive names before.
    NamedTwice(Place),
}

impl Stop {
    /// Of a reason to stop at a name and a name of the same line that stands twice, the first in the text.
    pub(crate) fn or_twice(self, twice: Option<Place>) -> Stop
        ensures { tells_of result ≡ tells_of self }
    {
        match (self, twice) {
            (Stop::UnknownName(place), Some(second)) if second.column < place.column => {
                Stop::NamedTwice(second)
            }
            _ => self,
        }
    }
}

impl From<AllocError> for Stop {
    ghost from_gives = { λ _ stop. stop ≡ Memory };

    fn from(_error: AllocError) -> Stop {
        Stop::Memory
    }
}

impl<T: Drop> From<AllocFailed<T>> for Stop {
    ghost from_gives = { λ _ stop. stop ≡ Memory };

    fn from(_error: AllocFailed<T>) -> Stop {
        Stop::Memory
    }
}
