//! How threads wait.

use std::sync::Wait;
use std::sync::atomic::{AtomicU64, Ordering};
use std::{hint, thread};

/// A word that threads watch.
#[derive(Drop)]
pub(crate) struct Bell {
    word: AtomicU64,
    sleepers: AtomicU64,
}

/// So often a thread looks again at once, and then so often after the others had their turn.
const SPINS: u64 = 1000;

const YIELDS: u64 = 40;

/// The word from which on nobody watches it. Its low half differs from that of the words before it.
const LAST: u64 = (1 << 62) + 1;

/// One turn of a loop that waits for what will come soon.
pub(crate) fn pause(turns: &mut u64) {
    if *turns < SPINS {
        hint::spin_loop();
    } else {
        thread::yield_now();
    }
    *turns = turns.saturating_add(1);
}

impl Bell {
    pub(crate) fn new() -> Bell {
        Bell {
            word: AtomicU64::new(0),
            sleepers: AtomicU64::new(0),
        }
    }

    fn change(&self, by: u64) {
        self.word.fetch_add(by, Ordering::SeqCst);
        if self.sleepers.load(Ordering::SeqCst) != 0 {
            self.word.wake_all();
        }
    }

    /// Changes the word, and wakes who sleeps.
    pub(crate) fn ring(&self) {
        self.change(1);
    }

    /// Rings for the last time.
    pub(crate) fn ring_out(&self) {
        self.change(LAST);
    }

    /// Sleeps while the word is the one that was seen.
    fn sleep<R: Wait>(&self, rt: &R, seen: u64) {
        self.sleepers.fetch_add(1, Ordering::SeqCst);
        self.word.park(rt, (seen % (1 << 32)) as u32);
        self.sleepers.fetch_sub(1, Ordering::SeqCst);
    }

    /// Waits until the word is not the one that was seen, and gives it; none once it rang for the last time.
    pub(crate) fn next<R: Wait>(&self, rt: &R, seen: u64) -> Option<u64> {
        let mut turns = 0;
        for _ in rt.forever() {
            let word = self.word.load(Ordering::SeqCst);
            if word >= LAST {
                return None;
            }
            if word != seen {
                return Some(word);
            }
            if turns < SPINS + YIELDS {
                pause(&mut turns);
            } else {
                self.sleep(rt, seen);
            }
        }
        unreachable!()
    }
}
