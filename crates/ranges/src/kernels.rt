//! Whole kernels.

ghost use Rattle.std.specs.Prelude.{◌≡◌, OnOk, IfErr};
ghost use Rattle.ktree.specs.View.{kernel_of};
ghost use Rattle.nest.specs.Nests.{IsInRange};
ghost use Rattle.nest.specs.Judged.{IsTableOf};
ghost use Rattle.ranges.specs.Refused.{RefusesRanges};

use ktree::{Kernel, Refusal};
use nest::LoopTable;

/// Sees to it that no subscript of a kernel leaves its array wherever the variables of the loops round it have values of
/// theirs, guards ignored, by the table of the kernel's loops (C11 6.5.6, 8).
///
/// # Errors
///
/// `SubscriptOutOfRange` at the first subscript that leaves its dimension.
pub fn check(kernel: &Kernel, table: &LoopTable) -> Result<(), Refusal>
    requires { IsTableOf (kernel_of kernel.now) table.now }
    ensures ok { OnOk result (IsInRange (kernel_of kernel.now)) }
    ensures err { IfErr result (RefusesRanges (kernel_of kernel.now) table.now.leaves) }
{
    match table.leaves {
        None => Ok(()),
        Some(place) => Err(Refusal::SubscriptOutOfRange(place)),
    }
}
