//! What is wrong with an ordered region, or with a parallel loop that prints.

ghost use Rattle.std.specs.Prelude.{◌≡◌, Option, Some, None};
ghost use Rattle.ktree.specs.Numbers.{number_of};

use ktree::{Place, Refusal};

/// A place where the order of iterations is not kept.
#[derive(Clone, Copy, Debug, PartialEq, Eq)]
pub enum Disorder {
    /// An `ordered` line before no `printf` and no block of these, in a loop inside the parallel one, behind another region of the loop, or
    /// in no loop with the clause: the place of its `#` (OpenMP 5.2, 15.10).
    Region(Place),
    /// A parallel loop prints outside of its ordered region: the place of the word `printf`.
    Printed(Place),
}

impl From<Disorder> for Refusal {
    ghost use Rattle.ktree.specs.Numbers.{number_of};

    ghost from_gives = { λ _ refusal. number_of refusal ≡ 18 };

    fn from(disorder: Disorder) -> Refusal {
        match disorder {
            Disorder::Region(place) | Disorder::Printed(place) => Refusal::Ordered(place),
        }
    }
}
