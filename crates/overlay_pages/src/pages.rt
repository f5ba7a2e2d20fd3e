//! The tables of a worker.

ghost use Rattle.std.specs.Prelude.{ℕ, ◌^◌, suc, true, None, ◌≡◌, ◌+◌, ◌-◌, ◌*◌, ◌/◌, ◌<◌, ◌≤◌, ◌++◌, [], length, replicate, slice_index, slice_set, IfOk};
ghost use Rattle.std.specs.Vec.{vec_capacity};
ghost use Rattle.overlay_pages.specs.Over.{or_else};
ghost use Rattle.overlay_pages.specs.Table.{table_of, number_at, slot, slots, IsSound, IsRoomy, entering, setting};

use crate::rows::{on_page, ones};
use crate::sparse::{Sparse, fill};
use std::alloc::{AllocError, Global};

/// Which cells are written, and with what, by pages of 64 cells.
#[derive(Drop)]
pub struct Pages {
    pub size: u64,
    pub masks: Sparse,
    pub numbers: Sparse,
    pub entered: Vec<u64>,
    pub values: Vec<u64>,
}

// What is written at a place, if anything.
#[inline]
pub fn slot_at(pages: &Pages, place: u64) -> Option<u64>
    requires { IsSound (table_of pages.now) }
    ensures { result ≡ slot (table_of pages.now) place }
{
    let page = place / 64;
    if (pages.masks.get(page) >> (place % 64)) & 1 == 1 {
        let at = 64 * pages.numbers.get(page) + place % 64;
        Some(pages.values[at as usize])
    } else {
        None
    }
}

// Which cells of a page are written, and none where there is no such page.
#[inline]
pub fn mask_of(pages: &Pages, page: u64) -> u64
    ensures { result ≡ slice_index pages.now.masks page }
{
    pages.masks.get(page)
}

/// Whether none of so many cells side by side is written.
pub fn are_bare(pages: &Pages, first: u64, count: u64) -> bool
    requires { first + count < 2 ^ 64 }
    ensures bare { result ≡ true
        → (k : ℕ) → k < count → slot (table_of pages.now) (first + k) ≡ None }
    ensures told { ((page : ℕ) → first / 64 ≤ page → 64 * page < first + count
        → slice_index pages.now.masks page ≡ 0) → result ≡ true }
{
    let mut done = 0;
    while done < count {
        let place = first + done;
        let part = on_page(place, count - done);
        let run = ones(place % 64, part);
        if mask_of(pages, place / 64) & run != 0 {
            return false;
        }
        done += part;
    }
    true
}

// Masks and numbers for so many pages, none entered.
fn tables(alloc: Global, pages: u64) -> Result<(Sparse, Sparse), AllocError>
    ensures { IfOk result (λ r. (r.0 ≡ replicate pages 0) × (r.1 ≡ replicate pages 0)) }
{
    let masks = Sparse::new(alloc, pages)?;
    let numbers = Sparse::new(alloc, pages)?;
    Ok((masks, numbers))
}

// The list of the pages that were entered, and their values: room for all, and the values that no cell has.
fn rows(alloc: Global, pages: u64, count: u64) -> Result<(Vec<u64>, Vec<u64>), AllocError>
    requires { count ≡ 64 * suc pages }
    ensures entered { IfOk result (λ r. (r.0.items ≡ []) × (pages ≤ vec_capacity r.0)) }
    ensures values { IfOk result (λ r. (length r.1.items ≡ 64) × (count ≤ vec_capacity r.1)) }
{
    let entered = Vec::with_capacity(alloc, pages as usize)?;
    let mut values = Vec::with_capacity(alloc, count as usize)?;
    fill(&mut values, 64);
    Ok((entered, values))
}

/// Tables of so many cells, none written.
///
/// # Errors
///
/// Where memory runs out.
pub fn empty_pages(alloc: Global, size: u64) -> Result<Pages, AllocError>
    ensures right { IfOk result (λ p. IsRoomy p) }
    ensures none { IfOk result (λ p. slots (table_of p) ≡ replicate size None) }
{
    let pages = size / 64 + 1;
    let Some(count) = (pages + 1).checked_mul(64) else {
        return Err(AllocError);
    };
    let (masks, numbers) = tables(alloc, pages)?;
    let (entered, values) = rows(alloc, pages, count)?;
    Ok(Pages {
        size,
        masks,
        numbers,
        entered,
        values,
    })
}

// A page is entered.
#[inline(never)]
fn enter(pages: &mut Pages, page: u64)
    requires roomy { IsRoomy pages.old }
    requires there { page < length pages.old.numbers }
    requires new { slice_index pages.old.numbers page ≡ 0 }
    ensures roomy { IsRoomy pages.new }
    ensures entered { table_of pages.new ≡ entering (table_of pages.old) page }
{
    pages.entered.push_reserved(page);
    let number = pages.entered.len() as u64;
    pages.numbers.set(page, number);
    fill(&mut pages.values, 64 * (number + 1));
}

// A cell of a page that was entered is written.
#[inline]
fn set(pages: &mut Pages, place: u64, n: u64)
    requires roomy { IsRoomy pages.old }
    requires there { place < pages.old.size }
    requires entered { 0 < number_at (table_of pages.old) place }
    ensures roomy { IsRoomy pages.new }
    ensures set { table_of pages.new ≡ setting (table_of pages.old) place n }
{
    let page = place / 64;
    let number = pages.numbers.get(page);
    let at = 64 * number + place % 64;
    pages.values[at as usize] = n;
    let mask = pages.masks.get(page);
    pages.masks.set(page, mask | (1 << (place % 64)));
}

// Enters the page of a place where it was not entered.
#[inline]
pub fn reach(pages: &mut Pages, place: u64)
    requires roomy { IsRoomy pages.old }
    requires there { place < pages.old.size }
    ensures roomy { IsRoomy pages.new }
    ensures entered { 0 < number_at (table_of pages.new) place }
    ensures kept { slots (table_of pages.new) ≡ slots (table_of pages.old) }
    ensures size { pages.new.size ≡ pages.old.size }
{
    let page = place / 64;
    if pages.numbers.get(page) == 0 {
        enter(pages, page);
    }
}

// Values are numbers of 64 bits, as their type says.
fn are_words(values: &[u64])
    ensures { (k : ℕ) → slice_index values.now k < 2 ^ 64 }
{
    let _count = values.len();
}

/// What is written is a number of 64 bits at each place.
pub fn written_words(pages: &Pages)
    ensures { (place : ℕ) → or_else (slot (table_of pages.now) place) 0 < 2 ^ 64 }
{
    are_words(pages.values.as_slice());
}

/// Writes at a place, and nothing outside.
#[inline]
pub fn write_at(pages: &mut Pages, place: u64, n: u64)
    requires { IsRoomy pages.old }
    ensures roomy { IsRoomy pages.new }
    ensures written { slots (table_of pages.new)
        ≡ slice_set (slots (table_of pages.old)) place (Some n) }
{
    if place < pages.size {
        reach(pages, place);
        set(pages, place, n);
    }
}

/// Forgets what was written; this takes time for the pages with written cells alone.
pub fn clear(pages: &mut Pages)
    requires { IsRoomy pages.old }
    ensures roomy { IsRoomy pages.new }
    ensures none { slots (table_of pages.new) ≡ replicate pages.old.size None }
{
    for k in 0..pages.entered.len() {
        let page = pages.entered[k];
        pages.numbers.set(page, 0);
        pages.masks.set(page, 0);
    }
    pages.entered.clear();
}
