//! What a worker writes.

ghost use Rattle.std.specs.Prelude.{◌≡◌, ◌≢◌, ℕ, ◌↔◌, ◌+◌, ◌<◌, ◌^◌, true, IsTrue, List, Option, length, replicate, slice_set, IfOk, IfSome, None, Some};
ghost use Rattle.store.specs.Flat.{values_of};
ghost use Rattle.overlay_pages.specs.Over.{or_else, writes_of, writes_in, set_beside, changing, AreOnce, IsRow};
ghost use Rattle.overlay_pages.specs.Table.{table_of, slots, IsRoomy};

use crate::changes::Changes;
use crate::gathering::gather;
use crate::pages::{Pages, are_bare, clear, empty_pages, slot_at, write_at, written_words};
use crate::rows::{row_at, write_row};
use std::alloc::{AllocError, Global};
use std::marker::Model;
use store::Store;

/// What a worker wrote in its chunk so far: for each place among the cells of a store its value, if it is written. A worker keeps it from chunk to chunk.
///
/// It has memory for pages of 64 cells that were written once, and room for all of them from the start: so writing takes no memory that can be wanting.
/// The value of one place may stand beside the pages, where it is found without them.
#[derive(Drop)]
pub struct Own {
    pages: Pages,
    near: u64,
    value: u64,
}

/// No place: it is behind that of each cell.
const NOWHERE: u64 = u64::MAX;

impl Model for Own {
    ghost use Rattle.std.specs.Prelude.{ℕ, List, Option, Some, slice_set};
    ghost use Rattle.overlay_pages.specs.Table.{table_of, slots, IsRoomy};

    ghost Value = { List (Option ℕ) };

    ghost view = { λ o. slice_set (slots (table_of o.pages)) o.near (Some o.value) };

    ghost invariant = { λ o. IsRoomy o.pages };
}

// Ends a chunk: what it changed of a store, and tables in which nothing is written.
fn take(alloc: Global, store: &Store, pages: &mut Pages) -> Result<Changes, AllocError>
    requires { IsRoomy pages.old }
    ensures changes { IfOk result (λ changes. (place : ℕ)
        → writes_of changes place
        ≡ changing (writes_in (slots (table_of pages.old))) (values_of store.now) place) }
    ensures once { IfOk result AreOnce }
    ensures roomy { IsRoomy pages.new }
    ensures none { slots (table_of pages.new) ≡ replicate pages.old.size None }
{
    let gathered = gather(alloc, store, pages);
    clear(pages);
    gathered
}

// The value of a place, where this is one of so many cells.
#[inline]
fn near_value(near: u64, value: u64, size: u64) -> Option<u64>
    ensures { (slots : List (Option ℕ)) → length slots ≡ size
        → result ≡ writes_in (slice_set slots near (Some value)) near }
{
    if near < size { Some(value) } else { None }
}

// Whether a place is none of so many side by side.
fn lies_apart(place: u64, first: u64, count: u64) -> bool
    requires { first + count < 2 ^ 64 }
    ensures { IsTrue result ↔ ((k : ℕ) → k < count → first + k ≢ place) }
{
    place < first || place >= first + count
}

// A number has 64 bits, as its type says.
fn is_word(_value: u64)
    ensures { _value < 2 ^ 64 }
{}

impl Own {
    /// Nothing is written yet, over the cells of this store.
    ///
    /// # Errors
    ///
    /// Where memory runs out.
    pub fn new(alloc: Global, store: &Store) -> Result<Own, AllocError>
        ensures { IfOk result (λ own. own ≡ replicate (length (values_of store.now)) None) }
    {
        let pages = empty_pages(alloc, store.cells().len() as u64)?;
        Ok(Own {
            pages,
            near: NOWHERE,
            value: 0,
        })
    }

    /// Of how many cells it is.
    pub fn cells(&self) -> u64
        ensures { result ≡ length self.now }
    {
        self.pages.size
    }

    // What is written at a place, if anything.
    #[inline]
    pub(crate) fn read(&self, place: u64) -> Option<u64>
        ensures { result ≡ writes_in self.now place }
    {
        if place == self.near {
            near_value(self.near, self.value, self.pages.size)
        } else {
            slot_at(&self.pages, place)
        }
    }

    // Whether nothing is written at so many places side by side; it may be denied where something is near them.
    pub(crate) fn are_bare(&self, first: u64, count: u64) -> bool
        requires { first + count < 2 ^ 64 }
        ensures { result ≡ true → (k : ℕ) → k < count → writes_in self.now (first + k) ≡ None }
    {
        if !lies_apart(self.near, first, count) {
            return false;
        }
        are_bare(&self.pages, first, count)
    }

    // What is written at so many places side by side, where each is written and the values stand so in memory, and nothing is near them.
    pub(crate) fn row(&self, first: u64, count: u64) -> Option<&[u64]>
        requires { first + count < 2 ^ 64 }
        ensures { IfSome result (λ row. IsRow (writes_in self.now) first count row.now) }
    {
        if !lies_apart(self.near, first, count) {
            return None;
        }
        row_at(&self.pages, first, count)
    }

    // Writes at a place, and nothing outside.
    #[inline]
    pub(crate) fn write(&mut self, place: u64, n: u64)
        ensures { self.new ≡ slice_set self.old place (Some n) }
    {
        if place == self.near {
            self.value = n;
        } else {
            write_at(&mut self.pages, place, n);
        }
    }

    // Writes numbers side by side, from a place on, and nothing outside.
    pub(crate) fn write_beside(&mut self, first: u64, numbers: &[u64])
        requires { first + length numbers.now < 2 ^ 64 }
        ensures { self.new ≡ set_beside self.old first numbers.now }
    {
        let count = numbers.len() as u64;
        if lies_apart(self.near, first, count) && first + count <= self.pages.size {
            return write_row(&mut self.pages, first, numbers);
        }
        for (k, n) in numbers.iter().enumerate() {
            self.write(first + k as u64, *n);
        }
    }

    // Has the value that is written at a place, if one is, stand beside the pages, and no other.
    pub(crate) fn bring_near(&mut self, place: u64)
        ensures { self.new ≡ self.old }
    {
        write_at(&mut self.pages, self.near, self.value);
        match slot_at(&self.pages, place) {
            Some(value) => {
                self.near = place;
                self.value = value;
            }
            None => self.near = NOWHERE,
        }
    }

    // What is written is a number of 64 bits at each place.
    pub(crate) fn are_words(&self)
        ensures { (place : ℕ) → or_else (writes_in self.now place) 0 < 2 ^ 64 }
    {
        is_word(self.value);
        written_words(&self.pages);
    }

    // Ends a chunk: what it changed of a store, and nothing is written then.
    pub(crate) fn finish(&mut self, alloc: Global, store: &Store) -> Result<Changes, AllocError>
        ensures changes { IfOk result (λ changes. (place : ℕ)
            → writes_of changes place ≡ changing (writes_in self.old) (values_of store.now) place) }
        ensures once { IfOk result AreOnce }
        ensures none { self.new ≡ replicate (length self.old) None }
    {
        write_at(&mut self.pages, self.near, self.value);
        self.near = NOWHERE;
        take(alloc, store, &mut self.pages)
    }

    // Forgets what was written.
    pub(crate) fn clear(&mut self)
        ensures { self.new ≡ replicate (length self.old) None }
    {
        self.near = NOWHERE;
        clear(&mut self.pages);
    }
}
