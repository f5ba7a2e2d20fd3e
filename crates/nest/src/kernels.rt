//! Whole kernels.

ghost use Rattle.std.specs.Prelude.{◌≡◌, [], OnOk, IfOk};
ghost use Rattle.ktree.specs.View.{kernel_of};
ghost use Rattle.nest.specs.Nests.{IsNested, IsInRange};
ghost use Rattle.nest.specs.Leaves.{LeavesSomewhere};
ghost use Rattle.nest_loop.specs.Facts.{FactsAmong};
ghost use Rattle.nest.specs.Facts.{HasFacts, Pushes};
ghost use Rattle.nest.specs.Perfect.{AreRightNests};
ghost use Rattle.nest.specs.Judged.{Decides, Tells, IsTableOf};

use crate::directed::{self, Found};
use crate::earlier::first_fault;
use crate::statements::block;
use affine::VarBox;
use affine_expr::Fault;
use ktree::{Kernel, Place};
use nest_loop::LoopFacts;
use pragma::Directives;
use std::alloc::Global;

/// What was found of a kernel's loops and subscripts (OpenMP 5.2, 4.4.1 and 4.4.2; C11 6.5.6, 8).
#[derive(Drop)]
pub struct LoopTable {
    /// The facts of each loop, in the order of the text.
    pub loops: Vec<LoopFacts>,
    /// Where the first subscript stands that leaves its dimension, if one does.
    pub leaves: Option<Place>,
}

/// Puts the facts of a kernel's loops behind others, and says where the first subscript leaves its array.
fn find(alloc: Global, kernel: &Kernel, loops: &mut Vec<LoopFacts>) -> Result<Option<Place>, Fault>
    ensures affine { Decides result (IsNested (kernel_of kernel.now)) }
    ensures leaves { IfOk result
        (Tells (IsInRange (kernel_of kernel.now)) (LeavesSomewhere (kernel_of kernel.now))) }
    ensures facts { OnOk result
        (Pushes (FactsAmong [] (kernel_of kernel.now).body) loops.old.items loops.new.items) }
{
    let mut bounds = VarBox::new(alloc);
    block(
        alloc,
        kernel.variables.as_slice(),
        &mut bounds,
        loops,
        kernel.body.as_slice(),
    )
}

/// Whether the nests behind a kernel's directive lines are right, by the facts of its loops.
fn judge(
    alloc: Global,
    kernel: &Kernel,
    directives: &Directives,
    found: Found<'_>,
) -> Result<(), Fault>
    ensures { HasFacts (kernel_of kernel.now) found.entry.loops.now
        → Decides result (AreRightNests directives.now (kernel_of kernel.now)) }
{
    let mut bounds = VarBox::new(alloc);
    directed::block(
        alloc,
        directives,
        &mut bounds,
        found,
        kernel.body.as_slice(),
    )?;
    Ok(())
}

/// Finds the facts of each loop of a kernel, and sees to it that each is canonical, never wraps, and is one of eight at most
/// inside each other, that each subscript is affine in the variables of the loops round it, and that behind each directive line
/// as many loops as it associates make a perfect and rectangular nest of at most 2^24 iterations, or 2^20 where it makes a doacross nest of
/// them (OpenMP 5.2, 4.4.1 to 4.4.4).
/// The directive lines are those that [`pragma::first_fault`] lets through.
///
/// # Errors
///
/// The first fault in the text, and of two at one place the one with the lower number: beside those of loops and subscripts
/// `NotPerfect` at the first `for` of a nest that is not perfect or not deep enough, and at the `for` of a loop whose start or
/// bound mentions the variable of another; `Limit` at the first `for` of one with more iterations. `OutOfMemory`.
pub fn nests(alloc: Global, kernel: &Kernel, directives: &Directives) -> Result<LoopTable, Fault>
    ensures decides { Decides result
        (IsNested (kernel_of kernel.now) × AreRightNests directives.now (kernel_of kernel.now)) }
    ensures found { IfOk result (IsTableOf (kernel_of kernel.now)) }
{
    let mut loops = Vec::new(alloc);
    let leaves = match find(alloc, kernel, &mut loops) {
        Ok(leaves) => leaves,
        Err(fault) => {
            let found = Found {
                loops: loops.as_slice(),
                missing: fault,
            };
            return Err(first_fault(fault, judge(alloc, kernel, directives, found)));
        }
    };
    // No loop is missing here.
    let found = Found {
        loops: loops.as_slice(),
        missing: Fault::OutOfMemory,
    };
    judge(alloc, kernel, directives, found)?;
    Ok(LoopTable { loops, leaves })
}
