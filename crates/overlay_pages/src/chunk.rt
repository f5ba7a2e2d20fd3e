//! A chunk that runs over a store.

ghost use Rattle.std.specs.Prelude.{◌≡◌, ℕ, ◌<◌, ◌^◌, length, replicate, slice_index, IfOk, None};
ghost use Rattle.store.specs.Flat.{values_of};
ghost use Rattle.lower_machine.specs.Machine.{Fits, machine};
ghost use Rattle.overlay_pages.specs.Over.{writes_of, writes_in, changing, written_over, ChangeCells, AreOnce};
ghost use Rattle.overlay_pages.specs.Seen.{cells_of, lent_of};

use crate::changes::Changes;
use crate::own::Own;
use lower_op::Cells;
use std::alloc::{AllocError, Global};
use std::marker::Model;
use store::{Filler, Store};

// Registers and cells hold numbers of 64 bits, as their types say.
fn fit(registers: &[u64], cells: &[u64])
    ensures words { Fits (machine registers.now cells.now) }
    ensures room { length cells.now < 2 ^ 64 }
{
    let _counts = (registers.len(), cells.len());
}

/// The cells of a lent store, and over them what a worker wrote in its chunk.
#[derive(Drop)]
pub struct Chunk<'s> {
    store: &'s Store,
    own: Own,
}

impl<'s> Model for Chunk<'s> {
    ghost use Rattle.overlay_pages.specs.Seen.{Seen, IsOver};

    ghost Value = { Seen };

    ghost view = { λ c. record { store = c.store.now; written = c.own } };

    ghost invariant = { λ c. IsOver (record { store = c.store.now; written = c.own }) };
}

impl<'s> Chunk<'s> {
    /// A worker's chunks over a store of as many cells as the one that its own was made for.
    pub fn over(store: &'s Store, own: Own) -> Chunk<'s>
        requires { length own ≡ length (values_of store.now) }
        ensures store { result.store ≡ store.now }
        ensures written { result.written ≡ own }
    {
        Chunk { store, own }
    }

    /// Registers and the cells that the chunk sees hold numbers of 64 bits, as their types say.
    pub fn are_words(&self, registers: &[u64])
        ensures words { Fits (machine registers.now (cells_of self.now)) }
        ensures room { length (cells_of self.now) < 2 ^ 64 }
    {
        self.own.are_words();
        fit(registers, self.store.cells());
    }

    /// What the store holds at a place, and 0 outside.
    pub fn store_value(&self, place: u64) -> u64
        ensures { result ≡ slice_index (values_of self.now.store) place }
    {
        self.store.cell(place)
    }

    /// Has the value that the chunk wrote at a place, if it did, stand where it is read and written soonest. Nothing else changes.
    pub fn bring_near(&mut self, place: u64)
        ensures { self.new ≡ self.old }
    {
        self.own.bring_near(place);
    }

    /// Ends a chunk: what it changed, which is each place where it wrote another number than the store holds. Nothing is written then, and the next chunk may run. This takes time for the pages with written cells alone.
    ///
    /// # Errors
    ///
    /// Where memory runs out. Nothing is written then either.
    pub fn finish(&mut self, alloc: Global) -> Result<Changes, AllocError>
        ensures changes { IfOk result (λ changes. (place : ℕ)
            → writes_of changes place
            ≡ changing (writes_in self.old.written) (values_of self.old.store) place) }
        ensures leave { IfOk result (λ changes.
            written_over (writes_of changes) (values_of self.old.store) ≡ cells_of self.old) }
        ensures only { IfOk result (ChangeCells (values_of self.old.store)) }
        ensures once { IfOk result AreOnce }
        ensures store { self.new.store ≡ self.old.store }
        ensures none { self.new.written ≡ replicate (length (values_of self.old.store)) None }
    {
        self.own.finish(alloc, self.store)
    }

    /// Forgets what was written. This takes time for the pages with written cells alone.
    pub fn clear(&mut self)
        ensures store { self.new.store ≡ self.old.store }
        ensures none { self.new.written ≡ replicate (length (values_of self.old.store)) None }
    {
        self.own.clear();
    }

    /// Ends the loan of the store, and gives back what the worker keeps.
    pub fn release(self) -> Own
        ensures value { result ≡ self.entry.written }
        ensures room { length result ≡ length (values_of self.entry.store) }
    {
        let Chunk { store: _, own } = self;
        own
    }
}

impl<'s> Cells for Chunk<'s> {
    ghost cells = { λ c. cells_of c };

    ghost shape = { λ c. lent_of c.store };

    #[inline]
    fn read(&self, place: u64) -> u64 {
        match self.own.read(place) {
            Some(n) => n,
            None => self.store.cell(place),
        }
    }

    #[inline]
    fn write(&mut self, place: u64, n: u64) {
        self.own.write(place, n);
    }

    // They stand so in the store where the chunk wrote none of them, and in its pages where it wrote each.
    fn stretch(&self, first: u64, count: u64) -> Option<&[u64]> {
        if first >= 1 << 62 || count >= 1 << 62 {
            return None;
        }
        if first + count > self.store.cells().len() as u64 {
            return None;
        }
        if self.own.are_bare(first, count) {
            return self.store.stretch(first, count);
        }
        self.own.row(first, count)
    }

    fn write_beside(&mut self, first: u64, numbers: &[u64]) {
        self.own.write_beside(first, numbers);
    }

    // They stand in pages, of which each knows what was written.
    fn fill<F: Filler>(&mut self, _first: u64, _count: u64, _filler: &F) -> bool {
        false
    }
}
