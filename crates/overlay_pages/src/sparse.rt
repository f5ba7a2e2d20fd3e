//! Numbers of which few are written.

ghost use Rattle.std.specs.Prelude.{ℕ, ◌≡◌, ◌+◌, ◌-◌, ◌*◌, ◌<◌, ◌≤◌, ◌++◌, List, [], length, replicate, slice_index, slice_set, IfOk};
ghost use Rattle.std.specs.Vec.{vec_capacity};

use std::alloc::{AllocError, Global};
use std::marker::Model;

/// Up to 8192 numbers side by side, up to the last one that was written. It has room for all.
#[derive(Drop)]
pub struct Row {
    numbers: Vec<u64>,
}

impl Model for Row {
    ghost use Rattle.std.specs.Prelude.{ℕ, List, ◌≤◌};
    ghost use Rattle.std.specs.Vec.{vec_capacity};

    ghost Value = { List ℕ };

    ghost view = { λ r. r.numbers.items };

    ghost invariant = { λ r. 8192 ≤ vec_capacity r.numbers };
}

// Zeros behind these numbers until there are so many, for which there is room.
#[inline(never)]
pub(crate) fn fill(numbers: &mut Vec<u64>, count: u64)
    requires { count ≤ vec_capacity numbers.old }
    ensures items { numbers.new.items
        ≡ numbers.old.items ++ replicate (count - length numbers.old.items) 0 }
    ensures capacity { vec_capacity numbers.new ≡ vec_capacity numbers.old }
{
    for _zero in 0..count.saturating_sub(numbers.len() as u64) {
        numbers.push_reserved(0);
    }
}

impl Row {
    // No number is written.
    fn new(alloc: Global) -> Result<Row, AllocError>
        ensures { IfOk result (λ row. row ≡ []) }
    {
        let numbers = Vec::with_capacity(alloc, 8192)?;
        Ok(Row { numbers })
    }

    // The number at a place, 0 where none was written.
    #[inline]
    fn get(&self, at: u64) -> u64
        ensures { result ≡ slice_index self.now at }
    {
        match self.numbers.get(at as usize) {
            Some(number) => *number,
            None => 0,
        }
    }

    // Writes a number at a place.
    #[inline]
    fn set(&mut self, at: u64, n: u64)
        requires { at < 8192 }
        ensures { self.new
            ≡ slice_set (self.old ++ replicate (at + 1 - length self.old) 0) at n }
    {
        if at >= self.numbers.len() as u64 {
            fill(&mut self.numbers, at + 1);
        }
        self.numbers[at as usize] = n;
    }
}

/// So many numbers, 0 where none was written. Memory is touched for the rows alone that have one that was.
#[derive(Drop)]
pub struct Sparse {
    count: u64,
    rows: Vec<Row>,
}

impl Model for Sparse {
    ghost use Rattle.std.specs.Prelude.{ℕ, List, ◌≤◌, ◌*◌, length};
    ghost use Rattle.overlay_pages.specs.NumberRows.{numbers_in};

    ghost Value = { List ℕ };

    ghost view = { λ s. numbers_in s.rows.items s.count };

    ghost invariant = { λ s. s.count ≤ 8192 * length s.rows.items };
}

// Rows in which nothing is written.
fn rows(alloc: Global, count: u64) -> Result<Vec<Row>, AllocError>
    ensures { IfOk result (λ rows. rows.items ≡ replicate count []) }
{
    let mut rows = Vec::with_capacity(alloc, count as usize)?;
    for _row in 0..count {
        rows.push_reserved(Row::new(alloc)?);
    }
    Ok(rows)
}

impl Sparse {
    /// So many zeros.
    ///
    /// # Errors
    ///
    /// Where memory runs out.
    pub fn new(alloc: Global, count: u64) -> Result<Sparse, AllocError>
        ensures { IfOk result (λ numbers. numbers ≡ replicate count 0) }
    {
        let rows = rows(alloc, count / 8192 + 1)?;
        Ok(Sparse { count, rows })
    }

    /// The number at a place, 0 outside.
    #[inline]
    pub fn get(&self, at: u64) -> u64
        ensures { result ≡ slice_index self.now at }
    {
        if at < self.count {
            self.rows[(at / 8192) as usize].get(at % 8192)
        } else {
            0
        }
    }

    /// Writes a number at a place, and nothing outside.
    #[inline]
    pub fn set(&mut self, at: u64, n: u64)
        ensures { self.new ≡ slice_set self.old at n }
    {
        if at < self.count {
            self.rows[(at / 8192) as usize].set(at % 8192, n);
        }
    }
}
