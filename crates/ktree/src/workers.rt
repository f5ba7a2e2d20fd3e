//! The size of a team, and the numbers of chunks.

ghost use Rattle.std.specs.Prelude.{◌≡◌, ◌≤◌};
ghost use Rattle.std.specs.Option.{SomeIff};

use crate::limits::WORKERS;
use std::marker::Model;

/// The number of a team's workers, 1 to 64.
#[derive(Clone, Copy, Debug, PartialEq, Eq)]
pub struct Workers {
    count: u64,
}

impl Model for Workers {
    ghost use Rattle.std.specs.Prelude.{ℕ, ◌≤◌};

    ghost Value = { ℕ };

    ghost view = { λ w. w.count };

    ghost invariant = { λ w. (1 ≤ w.count) × (w.count ≤ 64) };

    ghost inverse = { λ n. record { count = n } };
}

impl Workers {
    /// So many workers, where they are 1 to 64.
    pub fn new(count: u64) -> Option<Workers>
        ensures { SomeIff result ((1 ≤ count) × (count ≤ 64)) count }
    {
        if 1 <= count && count <= WORKERS {
            Some(Workers { count })
        } else {
            None
        }
    }

    /// How many they are.
    pub fn get(self) -> u64
        ensures value { result ≡ self }
        ensures least { 1 ≤ result }
        ensures most { result ≤ 64 }
    {
        self.count
    }
}

/// A chunk's number among those of its loop, in the order of their iterations, from 0.
#[derive(Clone, Copy, Debug, PartialEq, Eq)]
pub struct ChunkNo(pub u64);
