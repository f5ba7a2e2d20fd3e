//! In which order the iterations of a loop are taken.

ghost use Rattle.std.specs.Prelude.{◌≡◌, ◌+◌, ◌≤◌, length, take, drop};

use crate::worker::Work;

/// In which order the iterations of a loop are taken: which one stands at a position.
#[derive(Clone, Copy)]
pub enum Order<'n> {
    /// As C runs them: the iteration whose number is the position (OpenMP 5.2, 4.4.2).
    Sequential,
    /// The iteration of the number that is listed there.
    Listed(&'n [u64]),
}

/// The numbers at the positions of a chunk.
pub fn part<'n>(numbers: &'n [u64], work: Work) -> &'n [u64]
    requires { work.first + work.count ≤ length numbers.now }
    ensures { result.now ≡ take work.count (drop work.first numbers.now) }
{
    let (_before, rest) = numbers.split_at(work.first as usize);
    let (part, _behind) = rest.split_at(work.count as usize);
    part
}
