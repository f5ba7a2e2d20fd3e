//! Kernels whose parallel loops are independent, or ordered by their sinks.

ghost use Rattle.std.specs.Prelude.{OnOk, IfErr};
ghost use Rattle.ktree.specs.View.{kernel_of};
ghost use Rattle.nest.specs.Judged.{IsTableOf};
ghost use Rattle.deptest.specs.Accepted.{HasNests, AreOrderedBy};
ghost use Rattle.deptest.specs.Refused.{RefusesLoops};

use deptest_verdict::judge;
use flow_doacross::DoacrossLoop;
use ktree::{Kernel, Refusal};
use nest::LoopTable;
use pragma::Directives;
use std::alloc::Global;

/// Tests the parallel loops of a kernel, of which these are the doacross nests: of every two accesses of one array in the body of each, one
/// of them a write, it has to be shown that no two different iterations touch one element by them, or, in a doacross nest, that its sinks
/// put one of two such iterations before the other (OpenMP 5.2, 1.4.1, 11.5 and 15.9.6). The table has the facts of the kernel's loops.
///
/// # Errors
///
/// Of the first parallel loop and there the first pair of which this is not shown, in the order of the text: `Conflict` with the
/// first two of its first 64 iterations that touch one element, or `NotShown` where there are none, and where the loop has sinks; `Limit`
/// where a number of its equations is above 2^62 in absolute value; `OutOfMemory`.
pub fn check(
    alloc: Global,
    kernel: &Kernel,
    directives: &Directives,
    table: &LoopTable,
    nests: &[DoacrossLoop],
) -> Result<(), Refusal>
    requires passed { HasNests directives.now (kernel_of kernel.now) nests.now }
    requires table { IsTableOf (kernel_of kernel.now) table.now }
    ensures ok { OnOk result (AreOrderedBy directives.now (kernel_of kernel.now) nests.now) }
    ensures err { IfErr result (RefusesLoops directives.now (kernel_of kernel.now)) }
{
    match judge(alloc, kernel, directives, table, nests) {
        Ok(()) => Ok(()),
        Err(refusal) => Err(refusal),
    }
}
