//! How many variables and statements there are.

ghost use Rattle.std.specs.Prelude.{◌≡◌, ◌<◌, IfOk};
ghost use Rattle.cparse_grammar.specs.StatementReader.{Tally, spend, declared};
ghost use Rattle.cparse_phrase.specs.Tallies.{tally_of};
ghost use Rattle.cparse_cursor.specs.Outcome.{Gives};

use cparse_cursor::stop::Stop;
use ktree::{Place, VarId};

/// The number of the next variable, and how many statements may still follow.
#[derive(Clone, Copy)]
pub struct Tally {
    pub next: u32,
    pub left: u32,
}

/// One statement more, which begins at a place.
pub fn spend(tally: Tally, place: Place) -> Result<Tally, Stop>
    ensures spend { Gives tally_of result (spend (tally_of tally)) }
    ensures next { IfOk result (λ t. t.next ≡ tally.next) }
{
    let Tally { next, left } = tally;
    match left.checked_sub(1) {
        Some(left) => Ok(Tally { next, left }),
        None => Err(Stop::Limit(place)),
    }
}

/// One variable more, for which a number has to be left.
pub fn declare(tally: Tally) -> Tally
    requires { tally.next < 4294967295 }
    ensures { tally_of result ≡ declared (tally_of tally) }
{
    let Tally { next, left } = tally;
    Tally {
        next: next + 1,
        left,
    }
}
