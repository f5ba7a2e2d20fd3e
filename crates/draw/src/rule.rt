//! The rule of the ticket word, and what each step on it tells.
use atomic_table::{Join, Play, Split, TableRule};
use std::collections::LinkedList;

/// How many tickets there are, and how many seats.
#[derive(Clone, Copy)]
pub struct Size {
    pub count: u64,
    pub seats: u64,
}

/// What a seat at the table knows. No value of it is made.
pub struct View {
    pub size: Size,
    /// Its parts of the right to know all seats.
    pub parts: u64,
    pub tickets: LinkedList<u64>,
    /// How often it met the end.
    pub ends: u64,
}

/// Each ticket is drawn once, and the ticket word counts the tickets drawn and the ends met.
pub struct Dealing;

impl TableRule<(), View, Size> for Dealing {
    ghost use Rattle.draw.specs.Rule.{Dealt, idle};

    ghost holds = { Dealt };

    ghost first = { λ size. record (idle size) { parts = size.seats } };
}

/// A draw.
pub(crate) struct Draw;

impl Play<(), View> for Draw {
    ghost use Rattle.draw.specs.Rule.{TellsDraw};

    ghost then = { TellsDraw };
}

/// A new seat with no part, which takes in the others at the end.
pub(crate) struct Enter;

impl Play<(), View> for Enter {
    ghost use Rattle.draw.specs.Rule.{TellsEntry};

    ghost then = { TellsEntry };
}

/// One part for the new seat, and the rest for the old one.
pub(crate) struct Deal;

impl Split<View> for Deal {
    ghost use Rattle.draw.specs.Rule.{with_part_less, with_one_part};

    ghost left = { with_part_less };

    ghost right = { with_one_part };
}

/// One seat takes in all that another knows.
pub(crate) struct Gather;

impl Join<View> for Gather {
    ghost use Rattle.draw.specs.Rule.{joined, nobody};

    ghost both = { joined };

    ghost spent = { nobody };
}
