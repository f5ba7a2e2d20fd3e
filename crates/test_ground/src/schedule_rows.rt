//! Worked rows of schedules.

ghost use Rattle.std.specs.Prelude.{◌≤◌, ◌<◌, ◌^◌, IfSome};

use ktree::{ChunkSize, Workers};
use schedule::*;
use std::alloc::Global;

/// The schedule of a kind, with chunks of this size where it has one.
fn sched(kind: Kind, size: u64) -> Option<Sched> {
    let size = ChunkSize::new(size)?;
    Some(match kind {
        Kind::PlainStatic => Sched::PlainStatic,
        Kind::Static => Sched::Static(size),
        Kind::Dynamic => Sched::Dynamic(size),
        Kind::Guided => Sched::Guided(size),
    })
}

#[derive(Clone, Copy)]
enum Kind {
    PlainStatic,
    Static,
    Dynamic,
    Guided,
}

/// Whether these chunks have so many iterations each, in order.
fn counts(chunks: &Chunks, wanted: &[u64]) -> bool {
    if chunks.len() != wanted.len() as u64 {
        return false;
    }
    for ticket in 0..chunks.len() {
        if wanted.get(ticket as usize) != Some(&chunks.at(ticket).count) {
            return false;
        }
    }
    true
}

/// Whether a loop of so many iterations is cut into chunks of these counts.
fn is_cut(alloc: Global, kind: Kind, size: u64, count: u64, team: u64, wanted: &[u64]) -> bool
    requires { count ≤ 2 ^ 24 }
{
    let (Some(sched), Some(team)) = (sched(kind, size), Workers::new(team)) else {
        return false;
    };
    match chunk_list(alloc, sched, count, team) {
        Ok(chunks) => counts(&chunks, wanted) && chunks.is_empty() == wanted.is_empty(),
        Err(_) => false,
    }
}

/// A kind of schedule, the size of its chunks, how many iterations a loop has, how many workers there are, and the counts of the chunks.
type Row<'a> = (Kind, u64, u8, u64, &'a [u64]);

/// The number of the first row, from 0, whose loop is cut into other chunks.
fn first_other(alloc: Global, rows: &[Row<'_>]) -> Option<usize> {
    for (number, (kind, size, count, team, wanted)) in rows.iter().enumerate() {
        if !is_cut(alloc, *kind, *size, u64::from(*count), *team, wanted) {
            return Some(number);
        }
    }
    None
}

#[test]
fn cuts_by_the_schedule(rt: HostRuntime) {
    const ROWS: &[Row<'static>] = &[
        (Kind::PlainStatic, 1, 10, 3, &[4, 3, 3]),
        (Kind::Guided, 1, 10, 3, &[4, 2, 2, 1, 1]),
        (Kind::Guided, 2, 10, 3, &[4, 2, 2, 2]),
        (Kind::Guided, 3, 10, 3, &[4, 3, 3]),
        (Kind::Dynamic, 3, 8, 3, &[3, 3, 2]),
        (Kind::Static, 4, 10, 2, &[4, 4, 2]),
        (Kind::Guided, 3, 0, 3, &[]),
    ];
    assert_eq!(rt; first_other(rt.alloc(), ROWS), None);
}

/// Whether a worker's chunks of a loop are these, each with its first iteration and how many there are, and no others.
fn are_chunks(part: &StaticPart, wanted: &[Chunk]) -> bool {
    for (turn, chunk) in wanted.iter().enumerate() {
        if part.chunk(turn as u64) != Some(*chunk) {
            return false;
        }
    }
    part.chunk(wanted.len() as u64).is_none() && part.chunk(u64::MAX).is_none()
}

/// One of two workers, the size of the chunks of a loop of ten iterations, and the worker's chunks.
type Dealt = (u64, u64, &'static [Chunk]);

/// Whether a worker's chunks are those of a row.
fn are_dealt(row: Dealt) -> bool {
    let (worker, size, wanted) = row;
    if worker >= 2 || size == 0 || size > 16777216 {
        return false;
    }
    match Workers::new(2) {
        Some(two) => are_chunks(&static_init(10, two, worker, Some(size)), wanted),
        None => false,
    }
}

/// The number of the first row, from 0, whose worker has other chunks.
fn first_other_worker(rows: &[Dealt]) -> Option<usize> {
    for (number, row) in rows.iter().enumerate() {
        if !are_dealt(*row) {
            return Some(number);
        }
    }
    None
}

/// The number of the second chunk of the second of two workers, in a loop of ten iterations with chunks of three.
fn second_number() -> Option<u64> {
    let two = Workers::new(2)?;
    static_init(10, two, 1, Some(3)).number(1)
}

#[test]
fn deals_chunks_in_turn(rt: HostRuntime) {
    const ROWS: &[Dealt] = &[
        (
            0,
            3,
            &[Chunk { first: 0, count: 3 }, Chunk { first: 6, count: 3 }],
        ),
        (
            1,
            3,
            &[Chunk { first: 3, count: 3 }, Chunk { first: 9, count: 1 }],
        ),
        (
            0,
            4,
            &[Chunk { first: 0, count: 4 }, Chunk { first: 8, count: 2 }],
        ),
        (1, 4, &[Chunk { first: 4, count: 4 }]),
    ];
    assert!(rt; first_other_worker(ROWS).is_none());
    assert!(rt; second_number() == Some(3));
}

/// Whether one of 64 workers has its own iteration alone in a loop of so many, if it has one, where chunks have this size, if any.
fn has_own(worker: u64, iterations: u64, size: Option<u64>) -> bool
    requires worker { worker < 64 }
    requires iterations { iterations ≤ 2 ^ 24 }
    requires size { IfSome size (λ k. (1 ≤ k) × (k ≤ 2 ^ 24)) }
{
    let Some(team) = Workers::new(64) else {
        return false;
    };
    let part = static_init(iterations, team, worker, size);
    if worker < iterations {
        are_chunks(
            &part,
            &[Chunk {
                first: worker,
                count: 1,
            }],
        )
    } else {
        are_chunks(&part, &[])
    }
}

#[test]
fn leaves_workers_without_a_chunk(rt: HostRuntime) {
    for worker in 0..64 {
        let is_own = has_own(worker, 8, None) && has_own(worker, 3, Some(1));
        assert!(rt; is_own, "worker {worker}");
    }
}
