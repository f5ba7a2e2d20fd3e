//! Accesses of arrays, and the loops round them.

ghost use Rattle.std.specs.Prelude.{◌≡◌, ◌+◌, ◌<◌, ◌^◌, length};
ghost use Rattle.pairtest.specs.DirectionVectors.{place_of, turns_of};

use ktree::{Place, VarId};

/// A subscript in the counters of the loops round it, each of which counts its turns from 0: a constant, and a coefficient
/// for each loop from the outermost on, first the serial loops, then those of the nest, then the body's own. A coefficient
/// that is not written is 0.
#[derive(Drop)]
pub struct Subscript {
    pub constant: i64,
    pub coefficients: Vec<i64>,
}

/// What an access does with the element.
#[derive(Clone, Copy, Debug, PartialEq, Eq)]
pub enum Mode {
    Reads,
    Writes,
}

/// An access of an element of an array in the body of a nest: where it stands, its subscripts, and for each loop of the
/// body round it, from the outermost on, how many turns it takes at most. An access is not counted where a subscript has no
/// form in the counters within the limits: it has no subscripts then, and nothing is tested of it.
#[derive(Drop)]
pub struct Access {
    pub array: VarId,
    pub mode: Mode,
    pub place: Place,
    pub is_counted: bool,
    pub subscripts: Vec<Subscript>,
    pub inner: Vec<u64>,
}

/// A nest of associated loops (OpenMP 5.2, 4.4.1): how many turns each takes at most, from the outermost on, and before
/// them the serial loops round the nest.
#[derive(Drop)]
pub struct Nest {
    pub serial: Vec<u64>,
    pub loops: Vec<u64>,
}

impl Nest {
    /// The place of one of the nest's loops among all loops round an access.
    pub(crate) fn place(&self, at: usize) -> usize
        requires { at < length self.now.loops.items }
        ensures value { result ≡ place_of self.now at }
        ensures within { result + 1 < 2 ^ 64 }
    {
        self.serial.len() + at
    }

    /// How many turns one of the nest's loops takes at most.
    pub(crate) fn trip_count(&self, at: usize) -> u64
        requires { at < length self.now.loops.items }
        ensures { result ≡ turns_of self.now at }
    {
        self.loops[at]
    }
}

/// A coefficient or the constant of an equation is above 2^62 in absolute value.
#[derive(Clone, Copy, Debug, PartialEq, Eq)]
pub struct PastLimit;
