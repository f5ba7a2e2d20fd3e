//! What ends a run early.

ghost use Rattle.std.specs.Prelude.{◌≡◌};
ghost use Rattle.seqrun.specs.Stops.{refusal_of};
ghost use Rattle.seqrun.specs.declared.stop.Stop.TheVariants.{Memory};

use ktree::Refusal;
use std::alloc::AllocError;

/// Why a run ends early. A walk hands on these two bytes at each statement; a refusal has a hundred, which are cleared
/// and copied wherever one may come.
#[derive(Clone, Copy, Debug, PartialEq, Eq)]
pub enum Stop {
    Memory,
    Output,
}

impl From<AllocError> for Stop {
    ghost from_gives = { λ _ stop. stop ≡ Memory };

    #[inline(always)]
    fn from(_error: AllocError) -> Stop {
        Stop::Memory
    }
}

/// What a run that ended is refused by.
pub(crate) fn refusal(stop: Stop) -> Refusal
    ensures { result ≡ refusal_of stop }
{
    match stop {
        Stop::Memory => Refusal::OutOfMemory,
        Stop::Output => Refusal::OutputFailed,
    }
}
