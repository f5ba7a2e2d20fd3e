//! What is wrong with a doacross nest.

ghost use Rattle.std.specs.Prelude.{◌≡◌, Some};
ghost use Rattle.ktree.specs.Numbers.{number_of};
ghost use Rattle.ktree.specs.Places.{place_of};
ghost use Rattle.flow_doacross.specs.Views.{place_told};

use ktree::{Place, Refusal};

/// What is wrong with a doacross nest, and where.
#[derive(Clone, Copy, Debug, PartialEq, Eq)]
pub enum DoacrossFault {
    /// A sink that is none of the first items of a nest's body, or a source that is not its last one: the place of its `#` (OpenMP 5.2,
    /// 15.10.2).
    Line(Place),
    /// A loop with `ordered(n)` that is no nest of n loops, has a clause that does not go with it, a loop that does not rise by 1 between two
    /// numbers, no sink, or no source: the place of the `#` of its directive (OpenMP 5.2, 4.4.4).
    Nest(Place),
    /// A `printf` in a nest's body: its place. The nest's iterations print in no order.
    Printed(Place),
    /// A sink with fewer or more elements than the nest has loops, or of an iteration that is no earlier one: the place of its `#` (OpenMP
    /// 5.2, 15.9.6).
    Sink(Place),
    /// An element of a sink by another name than that of the variable of its loop: the place of the name (OpenMP 5.2, 15.9.6).
    Name(Place),
}

impl From<DoacrossFault> for Refusal {
    ghost use Rattle.std.specs.Prelude.{Some};
    ghost use Rattle.ktree.specs.Numbers.{number_of};
    ghost use Rattle.ktree.specs.Places.{place_of};
    ghost use Rattle.flow_doacross.specs.Views.{place_told};

    ghost from_gives = { λ fault refusal. (number_of refusal ≡ 18)
        × (place_of refusal ≡ Some (place_told fault)) };

    fn from(fault: DoacrossFault) -> Refusal {
        Refusal::Ordered(fault.place())
    }
}

impl DoacrossFault {
    /// Where it is.
    pub fn place(self) -> Place
        ensures { result ≡ place_told self }
    {
        match self {
            DoacrossFault::Line(place)
            | DoacrossFault::Nest(place)
            | DoacrossFault::Printed(place)
            | DoacrossFault::Sink(place)
            | DoacrossFault::Name(place) => place,
        }
    }
}
