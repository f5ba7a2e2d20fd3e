//! Where chunks of a loop begin that have no copies of its reduction variables, and what these hold behind them. Each law is the contract of
//! a function that does nothing.
#![tactic(auto)]

ghost use Rattle.law_starts.specs.Begun.{ChunksMayBegin, ChunksKeepNumbers, WalksKeepNumbers};

/// Reduction variables that took, one after another, what a chunk may begin with stand as a chunk's may (OpenMP 5.2, 5.5.2).
pub fn chunks_may_begin()
    ensures { ChunksMayBegin }
{}

/// A walk over iterations of a nest leaves a number in each variable that held one, and that the nest does not declare.
pub fn walks_keep_numbers()
    ensures { WalksKeepNumbers }
{}

/// So chunks of a nest's iterations leave a number in each reduction variable, wherever it held one before the nest, which declares none.
pub fn chunks_keep_numbers()
    ensures { ChunksKeepNumbers }
{}
