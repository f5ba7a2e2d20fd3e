//! Which iterations a pass of a loop takes, and how its chunks begin.

ghost use Rattle.std.specs.Prelude.{◌≡◌, length, slice_index};
ghost use Rattle.nest_space.specs.Space.{vectors};
ghost use Rattle.team_worker.specs.Starts.{taken_in, IsOrderOf, start_at};

use nest_space::Space;
use overlay::{Order, Start};

/// A loop's only pass, the second one of a scan, or that over a wave of a doacross nest (OpenMP 5.2, 5.5, 5.6 and 15.9.6).
#[derive(Drop)]
pub enum Pass {
    /// Each chunk begins as a reduction's.
    Plain,
    /// The chunk of a number begins with the scan variable at the number here.
    Second(Vec<u64>),
    /// The iterations of these numbers alone are taken, in this order, and each chunk of them begins as a reduction's.
    Wave(Vec<u64>),
}

// The number at an index, and 0 where there is none.
fn number_at(numbers: &[u64], index: u64) -> u64
    ensures { result ≡ slice_index numbers.now index }
{
    numbers.get(index as usize).copied().unwrap_or(0)
}

impl Pass {
    /// What the chunk of a number begins with.
    pub(crate) fn start(&self, chunk: u64) -> Start
        ensures { result ≡ start_at self.now chunk }
    {
        match self {
            Pass::Plain | Pass::Wave(_) => Start::Reduction,
            Pass::Second(starts) => Start::Scan(number_at(starts.as_slice(), chunk)),
        }
    }

    /// The order in which it takes the iterations.
    pub(crate) fn order(&self) -> Order<'_>
        ensures { IsOrderOf self.now result }
    {
        match self {
            Pass::Plain | Pass::Second(_) => Order::Sequential,
            Pass::Wave(numbers) => Order::Listed(numbers.as_slice()),
        }
    }

    /// How many iterations it takes of a loop with this space.
    pub(crate) fn count(&self, space: &Space) -> u64
        ensures { result ≡ length (taken_in self.now (vectors space.now)) }
    {
        match self {
            Pass::Plain | Pass::Second(_) => space.count(),
            Pass::Wave(numbers) => numbers.len() as u64,
        }
    }
}
