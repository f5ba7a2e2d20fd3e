//! How one loop of a nest runs.

ghost use Rattle.std.specs.Prelude.{◌≡◌, ◌+◌, ◌*◌, ◌-◌, ◌%◌, ◌<◌, ◌≤◌, ◌^◌, ◌↔◌, slice_get, Some, None, IsTrue, MatchOption};
ghost use Rattle.nest_loop.specs.declared.stride.Direction.TheVariants.{Rising};
ghost use Rattle.std.specs.Option.{SomeIff};
ghost use Rattle.std.specs.Prelude.{ℕ};
ghost use Rattle.nest_space.specs.Rows.{growth};
ghost use Rattle.nest_space.specs.Space.{moved, values_of, IsTurns, LastFits};

use crate::rows::Row;
use nest_loop::{Direction, Stride};
use std::marker::Model;

/// How a loop runs at given values of the variables round it: its first value, its step, and how often it turns. All its
/// values are below 2^64 (OpenMP 5.2, 4.4.1).
#[derive(Clone, Copy)]
pub struct LoopTurns {
    first: u64,
    stride: Stride,
    count: u64,
}

impl Model for LoopTurns {
    ghost use Rattle.nest_space.specs.Space.{Turns, IsTurns};

    ghost Value = { Turns };

    ghost view = { λ t. record { first = t.first; stride = t.stride; count = t.count } };

    ghost invariant = { λ t. IsTurns
        (record { first = t.first; stride = t.stride; count = t.count }) };

    ghost inverse = { λ t. record { first = t.first; stride = t.stride; count = t.count } };
}

/// What fills the places of a short list that no loop has taken.
impl Default for LoopTurns {
    fn default() -> LoopTurns {
        LoopTurns {
            first: 0,
            stride: Stride {
                direction: Direction::Rising,
                by: 1,
            },
            count: 0,
        }
    }
}

/// The number so far from the first.
fn move_by(direction: Direction, first: u64, by: u64) -> u64
    requires { LastFits direction first by }
    ensures { result ≡ moved direction first by }
{
    match direction {
        Direction::Rising => first + by,
        Direction::Falling => first - by,
    }
}

/// How far a value lies from the first, in the direction of the loop.
fn distance(direction: Direction, first: u64, value: u64) -> Option<u64>
    ensures { MatchOption result
        ((n : ℕ) → LastFits direction first n → value ≡ moved direction first n → ⊥)
        (λ n. LastFits direction first n × (value ≡ moved direction first n)) }
{
    match direction {
        Direction::Rising => value.checked_sub(first),
        Direction::Falling => first.checked_sub(value),
    }
}

/// How many steps, fewer than the count, make this distance.
fn steps(by: u64, count: u64, distance: u64) -> Option<u64>
    requires { 1 ≤ by }
    ensures { MatchOption result ((k : ℕ) → k < count → distance ≡ by * k → ⊥)
        (λ k. (k < count) × (distance ≡ by * k)) }
{
    if by == 1 {
        return if distance < count {
            Some(distance)
        } else {
            None
        };
    }
    let turn = distance / by;
    if distance % by != 0 {
        return None;
    }
    if turn < count { Some(turn) } else { None }
}

/// What is added to a loop's variable from turn to turn, modulo 2^64.
fn growth(stride: Stride) -> u64
    requires { 1 ≤ stride.by }
    ensures { result ≡ growth stride.direction stride.by }
{
    let by = u64::from(stride.by);
    match stride.direction {
        Direction::Rising => by,
        Direction::Falling => 0u64.wrapping_sub(by),
    }
}

impl LoopTurns {
    /// The loop that begins at this value and turns so often, where all its values are below 2^64 and it has a step.
    pub fn new(first: u64, stride: Stride, count: u64) -> Option<LoopTurns>
        ensures { SomeIff result
            (IsTurns (record { first = first; stride = stride; count = count }))
            (record { first = first; stride = stride; count = count }) }
    {
        let by = u64::from(stride.by);
        if by == 0 {
            return None;
        }
        let steps = by.checked_mul(count.saturating_sub(1))?;
        let fits = match stride.direction {
            Direction::Rising => first.checked_add(steps).is_some(),
            Direction::Falling => steps <= first,
        };
        if fits {
            Some(LoopTurns {
                first,
                stride,
                count,
            })
        } else {
            None
        }
    }

    /// How often it turns.
    pub fn count(self) -> u64
        ensures { result ≡ self.count }
    {
        self.count
    }

    /// Where its variable begins.
    pub(crate) fn first(self) -> u64
        ensures { result ≡ self.first }
    {
        self.first
    }

    /// The value that its variable has one turn after this one; None at its last.
    pub(crate) fn next(self, value: u64) -> Option<u64>
        ensures { (k : ℕ) → slice_get (values_of self) k ≡ Some value
            → MatchOption result (k + 1 ≡ self.count)
            (λ x. slice_get (values_of self) (k + 1) ≡ Some x) }
    {
        let by = u64::from(self.stride.by);
        let far = by * self.count.saturating_sub(1);
        if value == move_by(self.stride.direction, self.first, far) {
            return None;
        }
        match self.stride.direction {
            Direction::Rising => value.checked_add(by),
            Direction::Falling => value.checked_sub(by),
        }
    }

    /// The value of its variable at this turn, counted from 0.
    pub fn value(self, turn: u64) -> u64
        requires { turn < self.count }
        ensures { slice_get (values_of self) turn ≡ Some result }
    {
        move_by(
            self.stride.direction,
            self.first,
            u64::from(self.stride.by) * turn,
        )
    }

    /// The turn at which its variable has this value; None for a value that it has at no turn.
    pub fn turn(self, value: u64) -> Option<u64>
        ensures { MatchOption result ((k : ℕ) → slice_get (values_of self) k ≡ Some value → ⊥)
            (λ k. slice_get (values_of self) k ≡ Some value) }
    {
        match distance(self.stride.direction, self.first, value) {
            None => None,
            Some(distance) => steps(u64::from(self.stride.by), self.count, distance),
        }
    }

    /// Its values from this turn on, counted from 0.
    pub(crate) fn row(self, turn: u64) -> Row
        requires { turn < self.count }
        ensures count { turn + result.count ≡ self.count }
        ensures values { (k : ℕ) → k < result.count → slice_get (values_of self) (turn + k)
            ≡ Some ((result.first + k * result.by) % 2 ^ 64) }
    {
        Row {
            first: self.value(turn),
            by: growth(self.stride),
            count: self.count - turn,
        }
    }
}
