//! Cells of which a part is lent to a thread.

ghost use Rattle.std.specs.Prelude.{◌≡◌, ◌↔◌, ◌+◌, ◌<◌, ◌≤◌, ◌^◌, ◌++◌, ◌∷◌, [], true, length, take, drop, slice_index, IsTrue, IfSome, List, ℕ};
ghost use Rattle.store.specs.Kept.{overlaid};
ghost use Rattle.lower_op.specs.Stretches.{IsStretch};
ghost use Rattle.team_parts.specs.Parted.{parted};
ghost use Rattle.team_parts.specs.Lent.{lent_cells, stands};

use crate::reserve::Reserve;
use crate::surroundings::Surroundings;
use lower_op::Cells;
use store::{Filler, fill_cells};

/// Cells as one of several threads has them: those in front of the places of all threads and those behind these are lent, at the places of other
/// threads stands 0, and its own ones are lent to be written. As soon as another cell is written, all stand in memory that was
/// taken for that.
#[derive(Drop)]
pub struct Parted<'c, 'o> {
    pub surroundings: Surroundings<'c>,
    pub own: &'o mut [u64],
    pub reserve: &'o mut Reserve,
}

// What stands at a place, and 0 outside.
#[inline]
fn entry(cells: &[u64], place: u64) -> u64
    ensures { result ≡ slice_index cells.now place }
{
    match cells.get(place as usize) {
        Some(value) => *value,
        None => 0,
    }
}

// So many of some cells, from one on.
fn part(cells: &[u64], first: u64, count: u64) -> &[u64]
    requires { first + count ≤ length cells.now }
    ensures { result.now ≡ take count (drop first cells.now) }
{
    let (_, behind) = cells.split_at(first as usize);
    let (row, _) = behind.split_at(count as usize);
    row
}

// Writes these values over cells from one on.
fn overwrite(cells: &mut [u64], first: u64, values: &[u64])
    requires { first + length values.now ≤ length cells.old }
    ensures { cells.new ≡ overlaid cells.old first values.now }
{
    let part = &mut cells[first as usize..first as usize + values.len()];
    part.copy_from_slice(values);
}

// What stands at a place of cells in parts, and 0 outside.
#[inline]
fn value_at(surroundings: &Surroundings<'_>, own: &[u64], place: u64) -> u64
    requires { length own.now ≡ surroundings.now.count }
    ensures { result ≡ slice_index (parted surroundings.now.before.now surroundings.now.left own.now
        surroundings.now.right surroundings.now.behind.now) place }
{
    let before = surroundings.before;
    if place < before.len() as u64 {
        return entry(before, place);
    }
    let place = place - before.len() as u64;
    if place < surroundings.left {
        return 0;
    }
    let place = place - surroundings.left;
    if place < surroundings.count {
        return entry(own, place);
    }
    let place = place - surroundings.count;
    if place < surroundings.right {
        return 0;
    }
    entry(surroundings.behind, place - surroundings.right)
}

// Whether so many places from one on are all among those of so many cells, which begin at another.
fn fit(length: u64, start: u64, first: u64, count: u64) -> bool
    ensures { IsTrue result ↔ ((start ≤ first) × (first + count ≤ start + length)) }
{
    if first < start {
        return false;
    }
    let inside = first - start;
    inside <= length && count <= length - inside
}

/// So many cells from a place on, where they are all in front of the places of all threads, or behind these: whatever a thread's own cells are, they are those
/// of all cells (C11 6.5.6, 8).
pub fn lent_row<'c>(surroundings: &Surroundings<'c>, first: u64, count: u64) -> Option<&'c [u64]>
    ensures { IfSome result (λ row. (own : List ℕ) → length own ≡ surroundings.now.count
        → IsStretch first count (parted surroundings.now.before.now surroundings.now.left own
        surroundings.now.right surroundings.now.behind.now) row.now) }
{
    let before = surroundings.before;
    let behind = surroundings.behind;
    if fit(before.len() as u64, 0, first, count) {
        return Some(part(before, first, count));
    }
    let start = before.len() as u64 + surroundings.left;
    let end = start + surroundings.count + surroundings.right;
    if fit(behind.len() as u64, end, first, count) {
        return Some(part(behind, first - end, count));
    }
    None
}

// So many cells of cells in parts, where they are in one of those that stand in memory.
fn row_in<'r>(
    surroundings: &Surroundings<'r>,
    own: &'r [u64],
    first: u64,
    count: u64,
) -> Option<&'r [u64]>
    requires { length own.now ≡ surroundings.now.count }
    ensures { IfSome result (λ row. IsStretch first count (parted surroundings.now.before.now
        surroundings.now.left own.now surroundings.now.right surroundings.now.behind.now) row.now) }
{
    let start = surroundings.before.len() as u64 + surroundings.left;
    if fit(surroundings.count, start, first, count) {
        return Some(part(own, first - start, count));
    }
    let row = lent_row(surroundings, first, count)?;
    Some(row)
}

// Whether as many cells are a thread's own as have their places, and there is room for all.
#[inline]
fn stands(surroundings: &Surroundings<'_>, own: &[u64], reserve: &Reserve) -> bool
    ensures { result ≡ stands surroundings.now own.now reserve.now }
{
    own.len() as u64 == surroundings.count && reserve.room() == surroundings.all
}

/// Has a thread's own cells hold what they are as all are, also where these stand in memory.
pub fn settle(cells: &mut Parted<'_, '_>)
    requires { stands cells.old.surroundings cells.old.own.now cells.old.reserve.now ≡ true }
    ensures cells { cells.new.own.now ≡ take (length cells.old.own.now)
        (drop (length cells.old.surroundings.before.now + cells.old.surroundings.left)
        (lent_cells cells.old.surroundings cells.old.own.now cells.old.reserve.now)) }
    ensures own { cells.new.own.ghost_name ≡ cells.old.own.ghost_name }
    ensures reserve { cells.new.reserve.ghost_name ≡ cells.old.reserve.ghost_name }
{
    let surroundings = cells.surroundings;
    let own = &mut *cells.own;
    let reserve = &mut *cells.reserve;
    if reserve.is_empty() {
        return;
    }
    let first = surroundings.before.len() as u64 + surroundings.left;
    own.copy_from_slice(part(reserve.numbers(), first, surroundings.count));
}

impl<'c, 'o> Cells for Parted<'c, 'o> {
    ghost cells = { λ p. lent_cells p.surroundings p.own.now p.reserve.now };

    ghost shape = { λ p. (p.own.ghost_name ∷ p.reserve.ghost_name ∷ length p.own.now
        ∷ p.reserve.now.room ∷ (length p.surroundings.before.now + p.surroundings.left) ∷ p.surroundings.count
        ∷ p.surroundings.all ∷ []) ∷ [] };

    #[inline]
    fn read(&self, place: u64) -> u64 {
        if !stands(&self.surroundings, self.own, self.reserve) {
            return 0;
        }
        if self.reserve.is_empty() {
            value_at(&self.surroundings, self.own, place)
        } else {
            entry(self.reserve.numbers(), place)
        }
    }

    #[inline]
    fn write(&mut self, place: u64, n: u64) {
        let surroundings = self.surroundings;
        let own = &mut *self.own;
        let reserve = &mut *self.reserve;
        if !stands(&surroundings, own, reserve) {
            return;
        }
        let first = surroundings.before.len() as u64 + surroundings.left;
        if reserve.is_empty() && fit(surroundings.count, first, place, 1) {
            own[(place - first) as usize] = n;
            return;
        }
        reserve.join(
            surroundings.before,
            surroundings.left,
            own,
            surroundings.right,
            surroundings.behind,
        );
        reserve.write(place, n);
    }

    // They stand so where all are in one of the parts that stand in memory.
    fn stretch(&self, first: u64, count: u64) -> Option<&[u64]> {
        if !stands(&self.surroundings, self.own, self.reserve) {
            return None;
        }
        if !self.reserve.is_empty() {
            return None;
        }
        row_in(&self.surroundings, self.own, first, count)
    }

    fn write_beside(&mut self, first: u64, numbers: &[u64]) {
        let surroundings = self.surroundings;
        let own = &mut *self.own;
        let reserve = &mut *self.reserve;
        let start = surroundings.before.len() as u64 + surroundings.left;
        if stands(&surroundings, own, reserve)
            && reserve.is_empty()
            && fit(surroundings.count, start, first, numbers.len() as u64)
        {
            overwrite(own, first - start, numbers);
            return;
        }
        for (k, n) in numbers.iter().enumerate() {
            Cells::write(self, first + k as u64, *n);
        }
    }

    // They stand so where all are its own.
    fn fill<F: Filler>(&mut self, first: u64, count: u64, filler: &F) -> bool {
        let surroundings = self.surroundings;
        let own = &mut *self.own;
        let reserve = &mut *self.reserve;
        let start = surroundings.before.len() as u64 + surroundings.left;
        if stands(&surroundings, own, reserve)
            && reserve.is_empty()
            && fit(surroundings.count, start, first, count)
        {
            fill_cells(own, first - start, count, filler);
            return true;
        }
        false
    }
}
