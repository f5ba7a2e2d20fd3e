//! Cells side by side in the tables of a worker.

ghost use Rattle.std.specs.Prelude.{ℕ, ◌^◌, ◌≡◌, ◌↔◌, ◌+◌, ◌-◌, ◌%◌, ◌<◌, ◌≤◌, min, length, take, drop, IsTrue, MatchOption};
ghost use Rattle.std.specs.Vec.{vec_capacity};
ghost use Rattle.store.specs.Kept.{overlaid};
ghost use Rattle.overlay_pages.specs.Over.{set_beside, IsRow};
ghost use Rattle.overlay_pages.specs.Table.{table_of, number_at, bit, spot, slot, slots, IsSound, IsRoomy, StandFrom, setting_row};

use crate::pages::{Pages, mask_of, reach};

/// So many ones from a bit on.
pub(crate) fn ones(from: u64, count: u64) -> u64
    requires some { 1 ≤ count }
    requires few { from + count ≤ 64 }
    ensures { result ≡ 2 ^ (from + count) - 2 ^ from }
{
    (u64::MAX >> (64 - count)) << from
}

/// How many of so many cells side by side lie on the page of the first.
pub(crate) fn on_page(first: u64, count: u64) -> u64
    ensures { result ≡ min (64 - first % 64) count }
{
    let room = 64 - first % 64;
    if room < count { room } else { count }
}

// Whether each of so many cells of one page is written, from a place on.
fn are_written(pages: &Pages, first: u64, count: u64) -> bool
    requires some { 1 ≤ count }
    requires few { first % 64 + count ≤ 64 }
    ensures { IsTrue result
        ↔ ((k : ℕ) → k < count → bit (table_of pages.now) (first + k) ≡ 1) }
{
    let needed = ones(first % 64, count);
    mask_of(pages, first / 64) & needed == needed
}

// Where the value of a place stands.
fn spot_of(pages: &Pages, place: u64) -> u64
    requires { IsSound (table_of pages.now) }
    ensures { result ≡ spot (table_of pages.now) place }
{
    64 * pages.numbers.get(place / 64) + place % 64
}

// Whether each of so many cells side by side is written, and their values stand side by side from a spot on.
fn stand_from(pages: &Pages, first: u64, count: u64, start: u64) -> bool
    requires sound { IsSound (table_of pages.now) }
    requires places { first + count < 2 ^ 64 }
    ensures { IsTrue result ↔ StandFrom (table_of pages.now) first count start }
{
    let mut done = 0;
    while done < count {
        let place = first + done;
        let part = on_page(place, count - done);
        if spot_of(pages, place) != start + done {
            return false;
        }
        if !are_written(pages, place, part) {
            return false;
        }
        done += part;
    }
    true
}

/// So many values from one on.
pub fn part(values: &[u64], start: u64, count: u64) -> &[u64]
    requires { start + count ≤ length values.now }
    ensures { result.now ≡ take count (drop start values.now) }
{
    let (_, behind) = values.split_at(start as usize);
    let (row, _) = behind.split_at(count as usize);
    row
}

/// What is written at so many places side by side, where each of them is written and the values stand so in memory.
pub fn row_at(pages: &Pages, first: u64, count: u64) -> Option<&[u64]>
    requires sound { IsSound (table_of pages.now) }
    requires places { first + count < 2 ^ 64 }
    ensures { MatchOption result
        (StandFrom (table_of pages.now) first count (spot (table_of pages.now) first) → ⊥)
        (λ row. IsRow (slot (table_of pages.now)) first count row.now) }
{
    let start = spot_of(pages, first);
    if !stand_from(pages, first, count, start) {
        return None;
    }
    Some(part(&pages.values, start, count))
}

// Writes these numbers over values from one on.
fn overwrite(values: &mut Vec<u64>, first: u64, numbers: &[u64])
    requires { first + length numbers.now ≤ length values.old.items }
    ensures items { values.new.items ≡ overlaid values.old.items first numbers.now }
    ensures capacity { vec_capacity values.new ≡ vec_capacity values.old }
{
    let part = &mut values[first as usize..first as usize + numbers.len()];
    part.copy_from_slice(numbers);
}

// Cells side by side of a page that was entered are written.
fn set_row(pages: &mut Pages, first: u64, numbers: &[u64])
    requires roomy { IsRoomy pages.old }
    requires some { 1 ≤ length numbers.now }
    requires few { first % 64 + length numbers.now ≤ 64 }
    requires there { first + length numbers.now ≤ pages.old.size }
    requires entered { 0 < number_at (table_of pages.old) first }
    ensures roomy { IsRoomy pages.new }
    ensures set { table_of pages.new ≡ setting_row (table_of pages.old) first numbers.now }
{
    let page = first / 64;
    let number = pages.numbers.get(page);
    let start = 64 * number + first % 64;
    overwrite(&mut pages.values, start, numbers);
    let mask = pages.masks.get(page);
    let bits = ones(first % 64, numbers.len() as u64);
    pages.masks.set(page, mask | bits);
}

// Writes cells side by side of one page.
fn write_part(pages: &mut Pages, first: u64, numbers: &[u64])
    requires roomy { IsRoomy pages.old }
    requires some { 1 ≤ length numbers.now }
    requires few { first % 64 + length numbers.now ≤ 64 }
    requires there { first + length numbers.now ≤ pages.old.size }
    ensures roomy { IsRoomy pages.new }
    ensures written { slots (table_of pages.new)
        ≡ set_beside (slots (table_of pages.old)) first numbers.now }
    ensures size { pages.new.size ≡ pages.old.size }
{
    reach(pages, first);
    set_row(pages, first, numbers);
}

/// Writes numbers side by side, from a place on.
pub fn write_row(pages: &mut Pages, first: u64, numbers: &[u64])
    requires roomy { IsRoomy pages.old }
    requires there { first + length numbers.now ≤ pages.old.size }
    ensures roomy { IsRoomy pages.new }
    ensures written { slots (table_of pages.new)
        ≡ set_beside (slots (table_of pages.old)) first numbers.now }
{
    let mut place = first;
    let mut rest = numbers;
    while !rest.is_empty() {
        let (front, behind) = rest.split_at(on_page(place, rest.len() as u64) as usize);
        write_part(pages, place, front);
        place += front.len() as u64;
        rest = behind;
    }
}
