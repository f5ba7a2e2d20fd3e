//! Why the words of a command line are no order.

ghost use Rattle.std.specs.Prelude.{◌≡◌};
ghost use Rattle.clap.specs.Words.{kind_of};
ghost use Rattle.clap.specs.declared.error.kind.ErrorKind.TheVariants as kind;
ghost use Rattle.ompk_command.specs.declared.usage.Usage.TheVariants.{OutOfMemory};
ghost use Rattle.ompk_command.specs.Usages.{IsTold};

use clap::Error;
use clap::error::ErrorKind;
use std::alloc::{AllocError, AllocFailed};

/// Why the words of a command line are no order.
#[derive(Drop)]
pub enum Usage {
    /// They are none, or ask for help: what is said of that.
    Told(Error),
    /// Memory was refused.
    OutOfMemory,
}

impl From<AllocError> for Usage {
    ghost from_gives = { λ _ usage. usage ≡ OutOfMemory };

    fn from(_error: AllocError) -> Self {
        Usage::OutOfMemory
    }
}

impl<T: Drop> From<AllocFailed<T>> for Usage {
    ghost from_gives = { λ _ usage. usage ≡ OutOfMemory };

    fn from(_error: AllocFailed<T>) -> Self {
        Usage::OutOfMemory
    }
}

impl From<Error> for Usage {
    ghost from_gives = { λ error usage.
        (kind_of error ≡ kind.OutOfMemory → usage ≡ OutOfMemory) × IsTold usage };

    fn from(error: Error) -> Self {
        match error.kind() {
            ErrorKind::OutOfMemory => Usage::OutOfMemory,
            _ => Usage::Told(error),
        }
    }
}
