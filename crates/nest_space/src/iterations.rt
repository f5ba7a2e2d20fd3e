//! The iterations of a nest.

ghost use Rattle.std.specs.Prelude.{◌≡◌, ◌*◌, ◌+◌, ◌/◌, ◌<◌, ◌≤◌, ◌↔◌, ◌∷◌, [], ℕ, length, All, ◌%◌, ◌^◌, slice_get, Some, None, IsTrue, MatchOption, ⊤};
ghost use Rattle.std.specs.Option.{SomeIff};
ghost use Rattle.nest_space.specs.Space.{Turns, product, vectors, IsSpace};
ghost use Rattle.nest_space.specs.Rows.{turns_inside, IsRow};
ghost use Rattle.nest_space.specs.Sinks.{IsSinkAt, HasNoSink};

use crate::rows::Row;
use crate::sinks::number_at;
use crate::turns::LoopTurns;
use ktree::limits::{ASSOCIATED_LOOPS, ITERATIONS};
use smallvec::SmallVec;
use std::alloc::Global;
use std::marker::Model;

/// The iterations of a rectangular nest of one to four loops, at given values of the variables round it: at most 2^24
/// vectors of its variables' values, in the order in which C runs them (OpenMP 5.2, 4.4.2 and 4.4.3).
#[derive(Drop)]
pub struct Space {
    loops: SmallVec<LoopTurns, 4>,
    count: u64,
}

impl Model for Space {
    ghost use Rattle.std.specs.Prelude.{◌≡◌, List};
    ghost use Rattle.nest_space.specs.Space.{Turns, IsSpace, product};

    ghost Value = { List Turns };

    ghost view = { λ s. s.loops.items };

    ghost invariant = { λ s. IsSpace s.loops.items × (s.count ≡ product s.loops.items) };
}

/// How many vectors there are, if at most 2^24.
fn product(loops: &[LoopTurns]) -> Option<u64>
    ensures { SomeIff result (product loops.now ≤ 2 ^ 24) (product loops.now) }
{
    match loops.split_first() {
        None => Some(1),
        Some((first, rest)) => product_within(first.count(), product(rest)),
    }
}

/// So many times a product, if there is one and both make at most 2^24 (OpenMP 5.2, 4.4.2): how many iterations a loop and those inside it have.
pub fn product_within(count: u64, rest: Option<u64>) -> Option<u64>
    ensures { (n : ℕ) → SomeIff rest (n ≤ 2 ^ 24) n
        → SomeIff result (count * n ≤ 2 ^ 24) (count * n) }
{
    if count == 0 {
        return Some(0);
    }
    let all = match rest {
        None => return None,
        Some(rest) => count.checked_mul(rest),
    };
    match all {
        Some(all) if all <= ITERATIONS => Some(all),
        _ => None,
    }
}

/// How often a count is in a number, and what is left of it.
#[derive(Clone, Copy)]
struct Parted {
    times: u64,
    left: u64,
}

/// A number parted by a count. Of the outermost loop of a nest no number is above the count, and nothing is divided.
fn parted_by(number: u64, count: u64) -> Parted
    requires { 0 < count }
    ensures times { result.times ≡ number / count }
    ensures left { result.left ≡ number % count }
{
    if number < count {
        return Parted {
            times: 0,
            left: number,
        };
    }
    Parted {
        times: number / count,
        left: number % count,
    }
}

/// Puts down the vector of a number among those of these loops, the innermost loop's value first.
fn place(loops: &[LoopTurns], number: u64, values: &mut [u64])
    requires number { number < product loops.now }
    requires values { length values.old ≡ length loops.now }
    ensures { slice_get (vectors loops.now) number ≡ Some values.new }
{
    let mut outer = number;
    for i in (0..loops.len()).rev() {
        let turns = &loops[i];
        let Parted { times, left } = parted_by(outer, turns.count());
        values[i] = turns.value(left);
        outer = times;
    }
}

/// From one vector of these loops to the next: a loop goes on once all those inside it are through, and these begin anew.
fn step(loops: &[LoopTurns], values: &mut [u64])
    requires values { length values.old ≡ length loops.now }
    ensures { (n : ℕ) → n + 1 < length (vectors loops.now)
        → slice_get (vectors loops.now) n ≡ Some values.old
        → slice_get (vectors loops.now) (n + 1) ≡ Some values.new }
{
    for i in (0..loops.len()).rev() {
        let turns = &loops[i];
        if let Some(next) = turns.next(values[i]) {
            values[i] = next;
            return;
        }
        values[i] = turns.first();
    }
}

/// The row of these loops' vectors that begins at a number.
fn row_at(loops: &[LoopTurns], number: u64) -> Row
    requires { number < product loops.now }
    ensures row { IsRow (vectors loops.now) number result.first result.by result.count }
    ensures count { number % turns_inside loops.now + result.count ≡ turns_inside loops.now }
    ensures some { 0 < result.count }
{
    match loops.split_last() {
        None => Row {
            first: 0,
            by: 0,
            count: 1,
        },
        Some((inner, _outer)) => inner.row(number % inner.count()),
    }
}

impl Space {
    /// The space of these loops, the outermost first; None for more than four loops or 2^24 vectors.
    pub fn new(alloc: Global, loops: &[LoopTurns]) -> Option<Space>
        ensures { SomeIff result (IsSpace loops.now) loops.now }
    {
        if loops.len() > ASSOCIATED_LOOPS {
            return None;
        }
        let Some(count) = product(loops) else {
            return None;
        };
        match SmallVec::from_slice(alloc, loops) {
            Ok(loops) => Some(Space { loops, count }),
            Err(_error) => None,
        }
    }

    /// How many vectors there are.
    pub fn count(&self) -> u64
        ensures { result ≡ length (vectors self.now) }
    {
        self.count
    }

    /// How many loops it has.
    pub fn depth(&self) -> usize
        ensures { result ≡ length self.now }
    {
        self.loops.len()
    }

    /// A space has at most 2^24 vectors.
    pub fn confirm_few(&self)
        ensures { length (vectors self.now) ≤ 2 ^ 24 }
    {
        let _count = self.count;
    }

    /// The vector of a number, the outermost loop's value first.
    pub fn vector(&self, number: u64, values: &mut [u64])
        requires number { number < length (vectors self.now) }
        requires values { length values.old ≡ length self.now }
        ensures { slice_get (vectors self.now) number ≡ Some values.new }
    {
        place(self.loops.as_slice(), number, values);
    }

    /// From the vector of a number to that of the next one, if there is one.
    pub fn advance(&self, values: &mut [u64])
        requires { length values.old ≡ length self.now }
        ensures { (n : ℕ) → n + 1 < length (vectors self.now)
            → slice_get (vectors self.now) n ≡ Some values.old
            → slice_get (vectors self.now) (n + 1) ≡ Some values.new }
    {
        step(self.loops.as_slice(), values);
    }

    /// The vectors from that of a number on to the innermost loop's last turn: its variable goes on from one to the next, and those of the other
    /// loops stay.
    pub fn row(&self, number: u64) -> Row
        requires { number < length (vectors self.now) }
        ensures row { IsRow (vectors self.now) number result.first result.by result.count }
        ensures count { number % turns_inside self.now + result.count ≡ turns_inside self.now }
        ensures some { 0 < result.count }
    {
        row_at(self.loops.as_slice(), number)
    }

    /// The number of the vector that lies so far before these values, the outermost loop's distance first; None where that
    /// is no vector of this space, and where the distance has more or fewer numbers than there are loops (OpenMP 5.2, 15.9.6).
    pub fn number_before(&self, values: &[u64], distance: &[i64]) -> Option<u64>
        requires { length values.now ≡ length self.now }
        ensures { MatchOption result (HasNoSink (vectors self.now) values.now distance.now)
            (λ j. IsSinkAt (vectors self.now) values.now distance.now j) }
    {
        if distance.len() != values.len() {
            return None;
        }
        if self.count == 0 {
            return None;
        }
        number_at(self.loops.as_slice(), values, distance)
    }
}
