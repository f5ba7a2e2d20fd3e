//! The changes of a finished chunk.

ghost use Rattle.std.specs.Prelude.{◌≡◌, ◌<◌, ◌≤◌, ◌^◌, ◌+◌, ◌/◌, ◌%◌, ◌++◌, ◌∷◌, [], length, OnOk, IfErr, IfOk, IfSome};
ghost use Rattle.store.specs.Flat.{values_of, filled};
ghost use Rattle.overlay_pages.specs.Over.{written_over, writes_of};
ghost use Rattle.overlay_pages.specs.Runs.{row};

use smallvec::SmallVec;
use std::alloc::{AllocError, Global};
use std::marker::Model;
use store::Store;

/// A change: a place among the cells of a store, and its new value.
#[derive(Clone, Copy, Debug, Default, PartialEq, Eq)]
pub struct Change {
    pub place: u64,
    pub value: u64,
}

/// Numbers one after another. Few of them take no memory beside the value.
type Numbers = SmallVec<u64, 4>;

/// The changes of a chunk, without the store that the chunk ran over: runs of cells side by side, of each its head, and the new
/// values, run by run. A head is 64 times the place of the first cell, and one less than the number of the cells above that.
#[derive(Drop)]
pub struct Changes {
    heads: Numbers,
    values: Numbers,
}

impl Model for Changes {
    ghost use Rattle.std.specs.Prelude.{◌≡◌, List, length};
    ghost use Rattle.overlay_pages.specs.declared.changes.Change.{Change};
    ghost use Rattle.overlay_pages.specs.Runs.{cells_in, changes_in};

    ghost Value = { List Change };

    ghost view = { λ c. changes_in c.heads.items c.values.items };

    ghost invariant = { λ c. length c.values.items ≡ cells_in c.heads.items };
}

// The head of a run of so many cells from a place on.
fn head_of(place: u64, count: u64) -> Option<u64>
    requires some { 1 ≤ count }
    requires few { count ≤ 64 }
    ensures { IfSome result (λ head. (head / 64 ≡ place) × (head % 64 + 1 ≡ count)) }
{
    let first = place.checked_mul(64)?;
    first.checked_add(count - 1)
}

// Puts the values of a run into the cells from a place on.
fn apply_run(store: &mut Store, place: u64, values: &[u64])
    requires { place + length values.now < 2 ^ 64 }
    ensures { store.new
        ≡ filled (written_over (writes_of (row place values.now)) (values_of store.old)) store.old }
{
    if values.len() > 1 && place + values.len() as u64 <= store.cells().len() as u64 {
        return store.put_row(place, values);
    }
    for (k, value) in values.iter().enumerate() {
        store.put(place + k as u64, *value);
    }
}

impl Changes {
    /// No changes.
    pub fn none(alloc: Global) -> Changes
        ensures { result ≡ [] }
    {
        Changes {
            heads: Numbers::new(alloc),
            values: Numbers::new(alloc),
        }
    }

    // No changes, with room for so many values.
    pub(crate) fn with_room(alloc: Global, count: usize) -> Result<Changes, AllocError>
        ensures { IfOk result (λ changes. changes ≡ []) }
    {
        let values = Numbers::with_capacity(alloc, count)?;
        Ok(Changes {
            heads: Numbers::new(alloc),
            values,
        })
    }

    /// How many there are.
    pub fn len(&self) -> u64
        ensures { result ≡ length self.now }
    {
        self.values.len() as u64
    }

    // Adds a change.
    pub(crate) fn push(&mut self, change: Change) -> Result<(), AllocError>
        ensures { OnOk result (self.new ≡ self.old ++ change ∷ []) }
    {
        let Some(head) = head_of(change.place, 1) else {
            return Err(AllocError);
        };
        self.heads.reserve(1)?;
        self.values.reserve(1)?;
        self.values.push_reserved(change.value);
        self.heads.push_reserved(head);
        Ok(())
    }

    // Adds the changes of cells side by side, of 64 at most, from a place on.
    pub(crate) fn push_row(&mut self, place: u64, values: &[u64]) -> Result<(), AllocError>
        requires some { 1 ≤ length values.now }
        requires few { length values.now ≤ 64 }
        ensures { OnOk result (self.new ≡ self.old ++ row place values.now) }
    {
        let Some(head) = head_of(place, values.len() as u64) else {
            return Err(AllocError);
        };
        self.heads.reserve(1)?;
        self.values.extend_from_slice(values)?;
        self.heads.push_reserved(head);
        Ok(())
    }

    /// Adds later changes.
    ///
    /// # Errors
    ///
    /// Where memory runs out. The changes are then as before.
    pub fn append(&mut self, mut later: Changes) -> Result<(), AllocError>
        ensures added { OnOk result (self.new ≡ self.old ++ later) }
        ensures kept { IfErr result (λ refusal. self.new ≡ self.old) }
    {
        if self.values.is_empty() {
            *self = later;
            return Ok(());
        }
        self.heads.reserve(later.heads.len())?;
        self.values.append(&mut later.values)?;
        match self.heads.append(&mut later.heads) {
            Ok(()) => Ok(()),
            Err(AllocError) => unreachable!(),
        }
    }

    /// Overwrites the cells of a store by these writes, and changes nothing else.
    pub fn apply(&self, store: &mut Store)
        ensures { store.new
            ≡ filled (written_over (writes_of self.now) (values_of store.old)) store.old }
    {
        let mut values = self.values.as_slice();
        for head in self.heads.as_slice() {
            let (run, rest) = values.split_at((head % 64 + 1) as usize);
            apply_run(store, head / 64, run);
            values = rest;
        }
    }
}
