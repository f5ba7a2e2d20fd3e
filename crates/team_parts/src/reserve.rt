//! Memory that all cells have room in.

ghost use Rattle.std.specs.Prelude.{◌≡◌, ◌⊎◌, ◌≤◌, ◌+◌, ◌++◌, [], length, replicate, slice_index, slice_set, IsTrue, ◌↔◌, OnOk};
ghost use Rattle.std.specs.Vec.{vec_capacity};
ghost use Rattle.team_parts.specs.Parted.{cells_held, parted};

use std::alloc::{AllocError, Global};
use std::marker::Model;

/// Memory that has room for so many numbers, and holds none or all of them.
#[derive(Drop)]
pub struct Reserve {
    numbers: Vec<u64>,
    room: u64,
}

impl Model for Reserve {
    ghost use Rattle.std.specs.Prelude.{◌≡◌, ◌⊎◌, ◌≤◌, [], length};
    ghost use Rattle.std.specs.Vec.{vec_capacity};
    ghost use Rattle.team_parts.specs.Parted.{Kept};

    ghost Value = { Kept };

    ghost view = { λ w. record { items = w.numbers.items; room = w.room } };

    ghost invariant = { λ w. (w.room ≤ vec_capacity w.numbers)
        × ((w.numbers.items ≡ []) ⊎ (length w.numbers.items ≡ w.room)) };
}

// These numbers behind others, for which there is room.
fn add(all: &mut Vec<u64>, numbers: &[u64])
    requires { length all.old.items + length numbers.now ≤ vec_capacity all.old }
    ensures items { all.new.items ≡ all.old.items ++ numbers.now }
    ensures capacity { vec_capacity all.new ≡ vec_capacity all.old }
{
    'add: for at in 0..numbers.len() {
        all.push_reserved(numbers[at]);
    }
}

// So many zeros behind others, for which there is room.
fn add_zeros(all: &mut Vec<u64>, count: u64)
    requires { length all.old.items + count ≤ vec_capacity all.old }
    ensures items { all.new.items ≡ all.old.items ++ replicate count 0 }
    ensures capacity { vec_capacity all.new ≡ vec_capacity all.old }
{
    'add: for _zero in 0..count {
        all.push_reserved(0);
    }
}

// All cells, in memory that has room for them.
fn put_all(all: &mut Vec<u64>, before: &[u64], left: u64, own: &[u64], right: u64, behind: &[u64])
    requires room { length (parted before.now left own.now right behind.now)
        ≤ vec_capacity all.old }
    requires none { all.old.items ≡ [] }
    ensures items { all.new.items ≡ parted before.now left own.now right behind.now }
    ensures capacity { vec_capacity all.new ≡ vec_capacity all.old }
{
    add(all, before);
    add_zeros(all, left);
    add(all, own);
    add_zeros(all, right);
    add(all, behind);
}

impl Reserve {
    /// Memory that has room for none.
    pub(crate) fn new(alloc: Global) -> Reserve
        ensures { (result.items ≡ []) × (result.room ≡ 0) }
    {
        Reserve {
            numbers: Vec::new(alloc),
            room: 0,
        }
    }

    /// It holds none, and has room for so many.
    ///
    /// # Errors
    ///
    /// Where memory is refused.
    pub fn make_room(&mut self, count: usize) -> Result<(), AllocError>
        ensures { OnOk result ((self.new.items ≡ []) × (self.new.room ≡ count)) }
    {
        self.room = 0;
        self.numbers.clear();
        self.numbers.reserve(count)?;
        self.room = count as u64;
        Ok(())
    }

    /// For how many it has room.
    pub(crate) fn room(&self) -> u64
        ensures { result ≡ self.now.room }
    {
        self.room
    }

    /// Whether it holds none.
    pub(crate) fn is_empty(&self) -> bool
        ensures { IsTrue result ↔ (self.now.items ≡ []) }
    {
        self.numbers.is_empty()
    }

    /// What it holds.
    pub(crate) fn numbers(&self) -> &[u64]
        ensures items { result.now ≡ self.now.items }
        ensures all { (result.now ≡ []) ⊎ (length result.now ≡ self.now.room) }
    {
        &self.numbers
    }

    /// Writes at a place, and nothing outside.
    pub(crate) fn write(&mut self, place: u64, value: u64)
        ensures items { self.new.items ≡ slice_set self.old.items place value }
        ensures room { self.new.room ≡ self.old.room }
    {
        if (place as usize) < self.numbers.len() {
            self.numbers[place as usize] = value;
        }
    }

    /// Has all cells stand in it, where they stand in parts.
    pub(crate) fn join(
        &mut self,
        before: &[u64],
        left: u64,
        own: &[u64],
        right: u64,
        behind: &[u64],
    )
        requires room { length (parted before.now left own.now right behind.now) ≡ self.old.room }
        ensures items { self.new.items
            ≡ cells_held self.old.items (parted before.now left own.now right behind.now) }
        ensures room { self.new.room ≡ self.old.room }
    {
        if self.numbers.is_empty() {
            put_all(&mut self.numbers, before, left, own, right, behind);
        }
    }
}
