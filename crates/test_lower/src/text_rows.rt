//! Chunks that print, and the text that is kept of each.

use crate::lowering::{chunk, lower_nest, work};
use crate::stores::two_arrays_and_a_scalar;
use lower::LoweredLoop;
use overlay::{Piece, Worker};
use std::alloc::Global;
use store::Store;

/// Prints each number, and the cell that it has written before.
const NUMBERS: &str =
    "for (uint64_t i = 0; i < 6; i++) { A[i] = i * i; printf(\"%\" PRIu64 \" \", i); printf(\"%\" PRIu64 \"\\n\", A[i]); }";

/// Prints of some iterations alone.
const SOME: &str = "for (uint64_t i = 0; i < 6; i++) if (i > 3) printf(\"%\" PRIu64 \".\", i);";

/// Whether a chunk keeps this text.
fn keeps(piece: Option<Piece>, text: &[u8]) -> bool {
    match piece {
        Some(piece) => piece.text.bytes() == text,
        None => false,
    }
}

/// Whether a worker's chunk keeps this text, and its next chunk that one.
fn keeps_both(
    alloc: Global,
    lowered: &LoweredLoop,
    store: &Store,
    first: &[u8],
    next: &[u8],
) -> bool {
    match Worker::new(alloc, store) {
        Ok(mut worker) => {
            let registers = [0u64; 8];
            let one = chunk(alloc, lowered, &registers, &mut worker, work(0, 2));
            let two = chunk(alloc, lowered, &registers, &mut worker, work(2, 3));
            keeps(one, first) && keeps(two, next)
        }
        Err(_refusal) => false,
    }
}

/// Whether the first two iterations of these lines print the one text, and the three behind them the other.
fn is_kept(alloc: Global, lines: &str, first: &[u8], next: &[u8]) -> bool {
    let Some(lowered) = lower_nest(alloc, lines, false, 1) else {
        return false;
    };
    match two_arrays_and_a_scalar(alloc) {
        Ok(store) => keeps_both(alloc, &lowered, &store, first, next),
        Err(_error) => false,
    }
}

#[test]
fn chunks_keep_their_text(rt: HostRuntime) {
    let heap = rt.alloc();
    assert!(rt; is_kept(heap, NUMBERS, b"0 0\n1 1\n", b"2 4\n3 9\n4 16\n"));
    assert!(rt; is_kept(heap, SOME, b"", b"4."));
}
