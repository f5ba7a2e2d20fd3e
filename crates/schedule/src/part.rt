//! The chunks of one worker, for the kinds that fix who runs a chunk.

ghost use Rattle.std.specs.Prelude.{◌≡◌, ◌<◌, ◌≤◌, ◌^◌, length, slice_get, IfSome};
ghost use Rattle.std.specs.Option.{option_map};
ghost use Rattle.schedule.specs.Part.{static_kind, chunks_of_loop, own_numbers, own_chunk};
ghost use Rattle.schedule.specs.Chunk.{chunk_of};
ghost use Rattle.semantics.specs.Loops.Chunk.{cut, PlainStatic, Static};
ghost use Rattle.semantics.specs.Teams.Machine.{own_chunks};

use crate::chunk::{Chunk, block_at, block_count, share_at, share_count};
use ktree::Workers;
use std::marker::Model;

/// The chunks that a schedule of kind static gives to one worker. Contracts see the loop's kind,
/// iterations and workers, and which worker it is.
#[must_use]
#[derive(Clone, Copy, Debug, PartialEq, Eq)]
pub struct StaticPart {
    iterations: u64,
    workers: u64,
    worker: u64,
    size: Option<u64>,
}

impl Model for StaticPart {
    ghost use Rattle.std.specs.Prelude.{◌<◌, ◌≤◌, ◌^◌, IfSome};
    ghost use Rattle.schedule.specs.Part.{Part, static_kind, size_of};

    ghost Value = { Part };

    ghost view = { λ p. record {
      kind = static_kind p.size;
      iterations = p.iterations;
      workers = p.workers;
      worker = p.worker;
    } };

    ghost invariant = { λ p. (p.iterations ≤ 2 ^ 24) × (p.worker < p.workers)
        × IfSome p.size (λ k. 0 < k) };

    ghost inverse = { λ p. record {
      iterations = p.iterations;
      workers = p.workers;
      worker = p.worker;
      size = size_of p.kind;
    } };
}

/// The part of this worker, of so many, in a loop of `n` iterations: under `static, k` for
/// `Some(k)`, else under plain `static`.
pub fn static_init(n: u64, workers: Workers, worker: u64, size: Option<u64>) -> StaticPart
    requires iterations { n ≤ 2 ^ 24 }
    requires worker { worker < workers }
    requires size { IfSome size (λ k. (1 ≤ k) × (k ≤ 2 ^ 24)) }
    ensures { result ≡ record
        { kind = static_kind size; iterations = n; workers = workers; worker = worker } }
{
    StaticPart {
        iterations: n,
        workers: workers.get(),
        worker,
        size,
    }
}

impl StaticPart {
    /// The number of this worker's chunk `j`, counted from 0, among the chunks of all workers;
    /// `None` past its last one.
    pub fn number(&self, j: u64) -> Option<u64>
        ensures number { result ≡ slice_get (own_numbers self.now) j }
        ensures within { IfSome result (λ number. number < length (chunks_of_loop self.now)) }
    {
        match self.size {
            None => share_number(self.iterations, self.workers, self.worker, j),
            Some(size) => block_number(self.iterations, size, self.workers, self.worker, j),
        }
    }

    /// This worker's chunk `j`, counted from 0; `None` past its last one.
    pub fn chunk(&self, j: u64) -> Option<Chunk>
        ensures { option_map chunk_of result ≡ own_chunk self.now j }
    {
        let number = self.number(j)?;
        Some(match self.size {
            None => share_at(self.iterations, self.workers, number),
            Some(size) => block_at(self.iterations, size, number),
        })
    }
}

/// The number of a worker's chunk `j` under plain static, where no worker has two.
fn share_number(iterations: u64, workers: u64, worker: u64, j: u64) -> Option<u64>
    requires { worker < workers }
    ensures number { let count = length (cut PlainStatic iterations workers) in
        result ≡ slice_get (own_chunks PlainStatic count workers worker) j }
    ensures within { IfSome result
        (λ number. number < length (cut PlainStatic iterations workers)) }
{
    (j == 0 && worker < share_count(iterations, workers)).then_some(worker)
}

/// The number of a worker's chunk `j` under static of a size, where chunks are dealt in turn.
fn block_number(iterations: u64, size: u64, workers: u64, worker: u64, j: u64) -> Option<u64>
    requires size { 0 < size }
    requires worker { worker < workers }
    ensures number { let count = length (cut (Static size) iterations workers) in
        result ≡ slice_get (own_chunks (Static size) count workers worker) j }
    ensures within { IfSome result
        (λ number. number < length (cut (Static size) iterations workers)) }
{
    let count = block_count(iterations, size);
    let number = workers.checked_mul(j)?.checked_add(worker)?;
    (number < count).then_some(number)
}
