//! Why nothing is read.

ghost use Rattle.std.specs.Prelude.{◌≡◌};
ghost use Rattle.pragma_clause.specs.declared.unread.Unread.TheVariants.{OutOfMemory};

use std::alloc::{AllocError, AllocFailed};

/// Why nothing is read.
#[derive(Clone, Copy, Drop)]
pub enum Unread {
    /// The grammar has nothing so.
    Malformed,
    /// A growth was refused.
    OutOfMemory,
}

impl From<AllocError> for Unread {
    ghost from_gives = { λ _ unread. unread ≡ OutOfMemory };

    fn from(_error: AllocError) -> Unread {
        Unread::OutOfMemory
    }
}

impl<T: Drop> From<AllocFailed<T>> for Unread {
    ghost from_gives = { λ _ unread. unread ≡ OutOfMemory };

    fn from(_error: AllocFailed<T>) -> Unread {
        Unread::OutOfMemory
    }
}
