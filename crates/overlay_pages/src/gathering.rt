//! The writes that tables hold and that change cells, gathered.

ghost use Rattle.std.specs.Prelude.{ℕ, List, suc, ◌≡◌, ◌≢◌, ◌==◌, ◌↔◌, ◌*◌, ◌+◌, ◌-◌, ◌<◌, ◌≤◌, ◌^◌, ◌++◌, ◌∷◌, [], cond, take, drop, length, slice_index, IsTrue, MatchOption, IfOk, IfSome, OnOk};
ghost use Rattle.store.specs.Flat.{values_of};
ghost use Rattle.overlay_pages.specs.Runs.{AllDiffer};
ghost use Rattle.overlay_pages.specs.Table.{table_of, IsSound, IsWhole, Gathers};

use crate::changes::{Change, Changes};
use crate::pages::{Pages, mask_of};
use crate::rows::{ones, part};
use std::alloc::{AllocError, Global};
use store::Store;

// Adds a write where the cell holds another number.
fn add(store: &Store, change: Change, changes: &mut Changes) -> Result<(), AllocError>
    ensures { OnOk result (changes.new
        ≡ cond (change.value == slice_index (values_of store.now) change.place)
        changes.old (changes.old ++ change ∷ [])) }
{
    if change.value == store.cell(change.place) {
        return Ok(());
    }
    changes.push(change)
}

// Whether values and as many numbers differ at each place.
fn differ(values: &[u64], held: &[u64]) -> bool
    requires { length values.now ≡ length held.now }
    ensures { IsTrue result ↔ ((k : ℕ) → k < length values.now
        → slice_index values.now k ≢ slice_index held.now k) }
{
    let mut all = true;
    for k in 0..values.len() {
        all &= values[k] != held[k];
    }
    all
}

// Whether there are cells from a place on for all of these values, and each value is another one than its cell holds.
fn all_differ(store: &Store, place: u64, values: &[u64]) -> bool
    requires { place + length values.now < 2 ^ 64 }
    ensures { IsTrue result ↔ ((place + length values.now ≤ length (values_of store.now))
        × AllDiffer (values_of store.now) place values.now) }
{
    let cells = store.cells();
    let count = values.len() as u64;
    if place + count > cells.len() as u64 {
        return false;
    }
    differ(values, part(cells, place, count))
}

// Adds the writes of a page by the bits of its mask.
fn gather_bits(
    store: &Store,
    pages: &Pages,
    k: usize,
    changes: &mut Changes,
) -> Result<(), AllocError>
    requires sound { IsSound (table_of pages.now) }
    requires there { k < length pages.now.entered.items }
    requires so_far { Gathers (values_of store.now) (table_of pages.now) (64 * suc k) changes.old }
    ensures { OnOk result (Gathers (values_of store.now) (table_of pages.now) (64 * suc (suc k))
        changes.new) }
{
    let page = pages.entered[k];
    let start = 64 * (k as u64 + 1);
    let mut rest = pages.masks.get(page);
    for _turn in 0..64u64 {
        if rest == 0 {
            return Ok(());
        }
        let bit = u64::from(rest.trailing_zeros());
        let value = pages.values[(start + bit) as usize];
        let place = 64 * page + bit;
        add(store, Change { place, value }, changes)?;
        rest &= !(1 << bit);
    }
    Ok(())
}

// The values of a page of which each cell is written, and takes another number than it holds.
fn whole_page<'p>(store: &Store, pages: &'p Pages, k: usize) -> Option<&'p [u64]>
    requires sound { IsSound (table_of pages.now) }
    requires there { k < length pages.now.entered.items }
    ensures { MatchOption result
        ((values : List ℕ) → IsWhole (values_of store.now) (table_of pages.now) k values → ⊥)
        (λ values. IsWhole (values_of store.now) (table_of pages.now) k values.now) }
{
    let page = pages.entered[k];
    if pages.masks.get(page) != u64::MAX {
        return None;
    }
    let start = 64 * (k + 1);
    let values = &pages.values[start..start + 64];
    if all_differ(store, 64 * page, values) {
        Some(values)
    } else {
        None
    }
}

// The values of a page whose written cells stand side by side, where each takes another number than it holds, and the first of these cells on that page.
fn row_of_page<'p>(store: &Store, pages: &'p Pages, k: usize) -> Option<(u64, &'p [u64])>
    requires sound { IsSound (table_of pages.now) }
    requires there { k < length pages.now.entered.items }
    ensures some { IfSome result (λ r. 1 ≤ length r.1.now) }
    ensures few { IfSome result (λ r. r.0 + length r.1.now ≤ 64) }
    ensures mask { IfSome result (λ r. slice_index pages.now.masks
        (slice_index pages.now.entered.items k) ≡ 2 ^ (r.0 + length r.1.now) - 2 ^ r.0) }
    ensures values { IfSome result (λ r. r.1.now
        ≡ take (length r.1.now) (drop (64 * suc k + r.0) pages.now.values.items)) }
    ensures differ { IfSome result (λ r. AllDiffer (values_of store.now)
        (64 * slice_index pages.now.entered.items k + r.0) r.1.now) }
{
    let page = pages.entered[k];
    let mask = mask_of(pages, page);
    let first = u64::from(mask.trailing_zeros());
    let count = u64::from(mask.count_ones());
    if count == 0 || first + count > 64 || ones(first, count) != mask {
        return None;
    }
    let values = part(&pages.values, 64 * (k as u64 + 1) + first, count);
    if all_differ(store, 64 * page + first, values) {
        Some((first, values))
    } else {
        None
    }
}

// Adds the changes of a page of which not each cell is written.
fn gather_part(
    store: &Store,
    pages: &Pages,
    k: usize,
    changes: &mut Changes,
) -> Result<(), AllocError>
    requires sound { IsSound (table_of pages.now) }
    requires there { k < length pages.now.entered.items }
    requires so_far { Gathers (values_of store.now) (table_of pages.now) (64 * suc k) changes.old }
    ensures { OnOk result (Gathers (values_of store.now) (table_of pages.now) (64 * suc (suc k))
        changes.new) }
{
    match row_of_page(store, pages, k) {
        Some((first, values)) => changes.push_row(64 * pages.entered[k] + first, values),
        None => gather_bits(store, pages, k, changes),
    }
}

// Adds the changes of a page that was entered.
fn gather_page(
    store: &Store,
    pages: &Pages,
    k: usize,
    changes: &mut Changes,
) -> Result<(), AllocError>
    requires sound { IsSound (table_of pages.now) }
    requires there { k < length pages.now.entered.items }
    requires so_far { Gathers (values_of store.now) (table_of pages.now) (64 * suc k) changes.old }
    ensures { OnOk result (Gathers (values_of store.now) (table_of pages.now) (64 * suc (suc k))
        changes.new) }
{
    match whole_page(store, pages, k) {
        Some(values) => changes.push_row(64 * pages.entered[k], values),
        None => gather_part(store, pages, k, changes),
    }
}

// How many writes there are; memory is taken for so many, and no promise rests on it.
fn count(pages: &Pages) -> usize {
    let mut count = 0usize;
    for page in &pages.entered {
        let mask = pages.masks.get(*page);
        count = count.saturating_add(mask.count_ones() as usize);
    }
    count
}

/// The writes that tables hold and that change the cells of this store, each place once.
///
/// # Errors
///
/// Where memory runs out.
pub fn gather(alloc: Global, store: &Store, pages: &Pages) -> Result<Changes, AllocError>
    requires { IsSound (table_of pages.now) }
    ensures { IfOk result (λ changes. Gathers (values_of store.now) (table_of pages.now)
        (64 * suc (length pages.now.entered.items)) changes) }
{
    let mut changes = Changes::with_room(alloc, count(pages))?;
    for k in 0..pages.entered.len() {
        gather_page(store, pages, k, &mut changes)?;
    }
    Ok(changes)
}
