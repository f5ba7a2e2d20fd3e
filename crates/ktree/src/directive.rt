//! Directives and their clauses.

ghost use Rattle.std.specs.Prelude.{◌≡◌, ◌≤◌, ◌^◌};
ghost use Rattle.std.specs.Option.{SomeIff};

use crate::limits::{ASSOCIATED_LOOPS, CHUNK_ITERATIONS};
use crate::place::Place;
use std::marker::Model;

/// The size of a chunk, 1 to 2^24 iterations.
#[derive(Clone, Copy, Debug, PartialEq, Eq)]
pub struct ChunkSize {
    iterations: u64,
}

impl Model for ChunkSize {
    ghost use Rattle.std.specs.Prelude.{ℕ, ◌≤◌, ◌^◌};

    ghost Value = { ℕ };

    ghost view = { λ s. s.iterations };

    ghost invariant = { λ s. (1 ≤ s.iterations) × (s.iterations ≤ 2 ^ 24) };

    ghost inverse = { λ n. record { iterations = n } };
}

impl ChunkSize {
    /// A size, where it is 1 to 2^24.
    pub fn new(iterations: u64) -> Option<ChunkSize>
        ensures { SomeIff result ((1 ≤ iterations) × (iterations ≤ 2 ^ 24)) iterations }
    {
        if 1 <= iterations && iterations <= CHUNK_ITERATIONS {
            Some(ChunkSize { iterations })
        } else {
            None
        }
    }

    /// How many iterations.
    pub fn get(self) -> u64
        ensures value { result ≡ self }
        ensures least { 1 ≤ result }
        ensures most { result ≤ 2 ^ 24 }
    {
        self.iterations
    }
}

/// How many nested loops a directive associates, 1 to 4 (OpenMP 5.2, 4.4.3 and 4.4.4).
#[derive(Clone, Copy, Debug, PartialEq, Eq)]
pub struct AssociatedLoops {
    loops: u64,
}

impl Model for AssociatedLoops {
    ghost use Rattle.std.specs.Prelude.{ℕ, ◌≤◌};

    ghost Value = { ℕ };

    ghost view = { λ s. s.loops };

    ghost invariant = { λ s. (1 ≤ s.loops) × (s.loops ≤ 4) };

    ghost inverse = { λ n. record { loops = n } };
}

impl AssociatedLoops {
    /// So many loops, where they are 1 to 4.
    pub fn new(loops: u64) -> Option<AssociatedLoops>
        ensures { SomeIff result ((1 ≤ loops) × (loops ≤ 4)) loops }
    {
        if 1 <= loops && loops <= ASSOCIATED_LOOPS as u64 {
            Some(AssociatedLoops { loops })
        } else {
            None
        }
    }

    /// How many loops.
    pub fn get(self) -> u64
        ensures value { result ≡ self }
        ensures least { 1 ≤ result }
        ensures most { result ≤ 4 }
    {
        self.loops
    }
}

/// A reduction operator (OpenMP 5.2, 5.5.1).
#[derive(Clone, Copy, Debug, PartialEq, Eq)]
pub enum ReductionOperator {
    Sum,
    Product,
    And,
    Or,
    Xor,
    LogicalAnd,
    LogicalOr,
    Max,
    Min,
}

/// What a `schedule` clause says (OpenMP 5.2, 11.5.3); a size that is left out after `dynamic` or `guided` is 1.
#[derive(Clone, Copy, Debug, PartialEq, Eq)]
pub enum Schedule {
    Static,
    StaticChunks(ChunkSize),
    Dynamic(ChunkSize),
    Guided(ChunkSize),
    Auto,
    Runtime,
}

/// A name as it stands in a directive.
#[derive(Drop)]
pub struct Written {
    pub name: String,
    pub place: Place,
}

/// A clause over names, written or resolved (OpenMP 5.2, 4.4.3, 4.4.4, 5.4, 5.5.8, 11.5.3, 15.6).
#[derive(Drop)]
pub enum Clause<N> {
    DefaultShared,
    DefaultNone,
    Shared(Vec<N>),
    Private(Vec<N>),
    Firstprivate(Vec<N>),
    Lastprivate(Vec<N>),
    /// `lastprivate(conditional: ..)`.
    LastConditional(Vec<N>),
    Reduction(ReductionOperator, Vec<N>),
    /// `reduction(inscan, ..)`.
    Inscan(ReductionOperator, N),
    Schedule(Schedule),
    Collapse(AssociatedLoops),
    Ordered,
    /// `ordered(n)`: a doacross nest of so many loops.
    OrderedLoops(AssociatedLoops),
    Nowait,
}

/// How far a sink lies from the iteration that names it, along one loop.
#[derive(Clone, Copy, Debug, PartialEq, Eq)]
pub enum Offset {
    Forward(u64),
    Back(u64),
}

/// An element of a sink's vector (OpenMP 5.2, 15.9.6).
#[derive(Drop)]
pub struct SinkElement<N> {
    pub variable: N,
    pub offset: Offset,
}

/// A directive over names, written or resolved.
#[derive(Drop)]
pub enum Directive<N> {
    ParallelFor(Vec<Clause<N>>),
    Parallel(Vec<Clause<N>>),
    For(Vec<Clause<N>>),
    ScanInclusive(N),
    ScanExclusive(N),
    Ordered,
    DoacrossSource,
    DoacrossSink(Vec<SinkElement<N>>),
}
