//! What reading stands in.

ghost use Rattle.std.specs.Prelude.{◌≡◌, suc, MatchOption, MatchResult};
ghost use Rattle.cparse_cursor.specs.declared.stop.Stop.TheVariants.{Limit};

use crate::parsed::Parsed;
use crate::scope::Scope;
use crate::stop::Stop;
use ktree::Place;
use std::alloc::Global;

/// The visible names, and the place that is told where the tokens end.
#[derive(Clone, Copy)]
pub struct Context<'a, 't> {
    pub alloc: Global,
    pub scope: &'a Scope<'t>,
    pub end: Place,
}

/// What was read, or why reading stops.
pub type Outcome<'s, 't, T> = Result<Parsed<'s, 't, T>, Stop>;

/// How much may be opened inside of what is opened here.
pub fn enter_level(room: u32, place: Place) -> Result<u32, Stop>
    ensures { MatchResult result (λ inner. room ≡ suc inner)
        (λ stop. (room ≡ 0) × (stop ≡ Limit place)) }
{
    if room == 0 {
        Err(Stop::Limit(place))
    } else {
        Ok(room - 1)
    }
}

/// The next tighter precedence, if there is one.
pub fn tighter(precedence: u32) -> Option<u32>
    ensures { MatchOption result (precedence ≡ 0) (λ tighter. precedence ≡ suc tighter) }
{
    precedence.checked_sub(1)
}

/// What stays the same over a text.
#[derive(Clone, Copy)]
pub struct Setting {
    pub alloc: Global,
    pub end: Place,
}
