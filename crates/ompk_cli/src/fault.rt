//! Why the program does not do what it is asked for.

use clap::Error;
use ktree::Refusal;
use ompk_command::Usage;
use std::alloc::{AllocError, AllocFailed};

/// Why the program does not do what it is asked for.
#[derive(Drop)]
pub enum Fault<'a> {
    /// The kernel, its input or its run is refused.
    Refused(Refusal),
    /// The file of this name is not read.
    Unread(&'a str),
    /// The words of the command line are no order, or ask for help.
    Usage(Error),
    /// The command line is no text.
    NoText,
}

impl From<Refusal> for Fault<'_> {
    fn from(refusal: Refusal) -> Self {
        Fault::Refused(refusal)
    }
}

impl From<AllocError> for Fault<'_> {
    fn from(_error: AllocError) -> Self {
        Fault::Refused(Refusal::OutOfMemory)
    }
}

impl<T: Drop> From<AllocFailed<T>> for Fault<'_> {
    fn from(_error: AllocFailed<T>) -> Self {
        Fault::Refused(Refusal::OutOfMemory)
    }
}

impl From<Usage> for Fault<'_> {
    fn from(usage: Usage) -> Self {
        match usage {
            Usage::OutOfMemory => Fault::Refused(Refusal::OutOfMemory),
            Usage::Told(error) => Fault::Usage(error),
        }
    }
}
