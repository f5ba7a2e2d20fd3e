//! The chunks of a loop, in order.

ghost use Rattle.std.specs.Prelude.{◌≡◌, ◌<◌, ◌≤◌, ◌^◌, ◌↔◌, [], length, map, flat_map, max, slice_get, IfOk, IfErr, IsTrue};
ghost use Rattle.semantics.specs.Loops.Chunk.{cut, chunk_iterations, Guided as GuidedKind};
ghost use Rattle.semantics.specs.Meaning.Places.{below};
ghost use Rattle.ktree.specs.declared.refusal.Refusal.TheVariants.{OutOfMemory};
ghost use Rattle.schedule.specs.Chunk.{chunk_of};
ghost use Rattle.schedule.specs.Sched.{kind_of, IsGuided};

use crate::chunk::{Chunk, block_at, block_count, share_at, share_count};
use crate::sched::Sched;
use ktree::{Refusal, Workers};
use std::alloc::{AllocError, Global};
use std::marker::Model;

/// The chunks of a loop by their numbers. Contracts see the list of them.
#[derive(Drop)]
pub struct Chunks {
    cut: Cut,
}

/// How a chunk is found.
#[derive(Drop)]
enum Cut {
    Shares { iterations: u64, workers: u64 },
    Blocks { iterations: u64, size: u64 },
    Listed(Vec<Chunk>),
}

impl Model for Chunks {
    ghost use Rattle.std.specs.Prelude.{List};
    ghost use Rattle.semantics.specs.Loops.Chunk as meant;

    ghost Value = { List meant.Chunk };

    ghost use Rattle.schedule.specs.Cut.{chunks_of, IsBounded};

    ghost view = { λ c. chunks_of c.cut };

    ghost invariant = { λ c. IsBounded c.cut };
}

impl Chunks {
    /// How many there are.
    pub fn len(&self) -> u64
        ensures { result ≡ length self.now }
    {
        match &self.cut {
            Cut::Shares {
                iterations,
                workers,
            } => share_count(*iterations, *workers),
            Cut::Blocks { iterations, size } => block_count(*iterations, *size),
            Cut::Listed(chunks) => chunks.len() as u64,
        }
    }

    /// Whether the loop has no iteration.
    pub fn is_empty(&self) -> bool
        ensures { IsTrue result ↔ (self.now ≡ []) }
    {
        self.len() == 0
    }

    /// The chunk of this number, as it is drawn.
    pub fn at(&self, ticket: u64) -> Chunk
        requires { ticket < length self.now }
        ensures { slice_get self.now ticket ≡ Some (chunk_of result) }
    {
        match &self.cut {
            Cut::Shares {
                iterations,
                workers,
            } => share_at(*iterations, *workers, ticket),
            Cut::Blocks { iterations, size } => block_at(*iterations, *size, ticket),
            Cut::Listed(chunks) => chunks[ticket as usize],
        }
    }
}

/// The chunks of a loop of `n` iterations under this schedule, for so many workers.
///
/// # Errors
///
/// Refuses where memory runs out, and takes none but for guided chunks.
pub fn chunk_list(alloc: Global, sched: Sched, n: u64, workers: Workers) -> Result<Chunks, Refusal>
    requires { n ≤ 2 ^ 24 }
    ensures chunks { IfOk result (λ chunks. chunks ≡ cut (kind_of sched) n workers) }
    ensures joined { IfOk result (λ chunks. flat_map chunk_iterations chunks ≡ below n) }
    ensures refusal { IfErr result (λ refusal. (refusal ≡ OutOfMemory) × IsGuided sched) }
{
    let workers = workers.get();
    let cut = match sched {
        Sched::PlainStatic => Cut::Shares {
            iterations: n,
            workers,
        },
        Sched::Static(size) | Sched::Dynamic(size) => Cut::Blocks {
            iterations: n,
            size: size.get(),
        },
        Sched::Guided(size) => Cut::Listed(guided_chunks(alloc, n, workers, size.get())?),
    };
    Ok(Chunks { cut })
}

/// The chunks of guided, each cut off what the ones before it leave.
fn guided_chunks(
    alloc: Global,
    iterations: u64,
    workers: u64,
    size: u64,
) -> Result<Vec<Chunk>, AllocError>
    requires most { iterations ≤ 2 ^ 24 }
    requires workers { 0 < workers }
    requires size { 0 < size }
    ensures { IfOk result (λ chunks. map chunk_of chunks.items
        ≡ cut (GuidedKind size) iterations workers) }
{
    let mut chunks = Vec::new(alloc);
    let mut first = 0;
    while first < iterations {
        let left = iterations - first;
        let count = left.min(size.max(left.div_ceil(workers)));
        chunks.push(Chunk { first, count })?;
        first += count;
    }
    Ok(chunks)
}
