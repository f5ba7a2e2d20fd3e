//! The number of the iteration that a sink names.

ghost use Rattle.std.specs.Prelude.{◌≡◌, ◌<◌, ◌≤◌, ◌^◌, ◌-ℤ◌, ℕ, pos, Some, length, MatchOption};
ghost use Rattle.semantics.specs.Loops.Order.{as_number};
ghost use Rattle.nest_space.specs.Numbers.{EachTurns};
ghost use Rattle.nest_space.specs.Sinks.{IsSinkAt, HasNoSink};
ghost use Rattle.nest_space.specs.Space.{product, vectors};

use crate::turns::LoopTurns;

/// A number less a distance, where that is one of `uint64_t`.
fn moved_back(value: u64, far: i64) -> Option<u64>
    ensures { MatchOption result
        ((w : ℕ) → as_number (pos value -ℤ far) ≡ Some w → w < 2 ^ 64 → ⊥)
        (λ w. as_number (pos value -ℤ far) ≡ Some w) }
{
    let size = far.unsigned_abs();
    if far < 0 {
        value.checked_add(size)
    } else {
        value.checked_sub(size)
    }
}

/// The number of the vector that lies so far before these values.
pub(crate) fn number_at(loops: &[LoopTurns], values: &[u64], distance: &[i64]) -> Option<u64>
    requires turns { EachTurns loops.now }
    requires few { product loops.now ≤ 2 ^ 24 }
    requires values { length values.now ≡ length loops.now }
    requires distance { length distance.now ≡ length loops.now }
    ensures { MatchOption result (HasNoSink (vectors loops.now) values.now distance.now)
        (λ j. IsSinkAt (vectors loops.now) values.now distance.now j) }
{
    let mut number = 0;
    for i in 0..loops.len() {
        let turns = &loops[i];
        let Some(there) = moved_back(values[i], distance[i]) else {
            return None;
        };
        let Some(turn) = turns.turn(there) else {
            return None;
        };
        number = number * turns.count() + turn;
    }
    Some(number)
}
