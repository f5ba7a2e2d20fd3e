//! Cells that are filled where they stand.

ghost use Rattle.std.specs.Prelude.{◌≡◌, ◌+◌, ◌<◌, ◌≤◌, ℕ, length, slice_index};
ghost use Rattle.store.specs.Kept.{overlaid};
ghost use Rattle.store.specs.Filling.{row_of};

/// What makes numbers in the cells that take them, so that nothing is copied.
pub trait Filler {
    /// The number of each place, the first at 0.
    ghost number: { Self → ℕ → ℕ };

    /// How many there are.
    ghost count: { Self → ℕ };

    /// Makes so many numbers as a row has, which they fill.
    fn fill(&self, row: &mut [u64])
        requires { length row.old ≤ count self.now }
        ensures long { length row.new ≡ length row.old }
        ensures each { (k : ℕ) → k < length row.old → slice_index row.new k ≡ number self.now k };
}

/// Fills so many of some cells, from one on.
#[inline]
pub fn fill_cells<F: Filler>(cells: &mut [u64], first: u64, count: u64, filler: &F)
    requires inside { first + count ≤ length cells.old }
    requires enough { count ≤ F.count filler.now }
    ensures { cells.new ≡ overlaid cells.old first (row_of (F.number filler.now) count) }
{
    let part = &mut cells[first as usize..(first + count) as usize];
    filler.fill(part);
}
