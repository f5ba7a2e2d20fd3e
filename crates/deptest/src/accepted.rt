//! Accepted kernels.

ghost use Rattle.std.specs.Prelude.{◌≡◌, map, IfOk, IfErr};
ghost use Rattle.ktree.specs.View.{declaration_of, kernel_of};
ghost use Rattle.nest.specs.Judged.{IsTableOf};
ghost use Rattle.deptest.specs.Accepted.{tree_of, HasPassed, HasLoops, KeepsLoops, AreRegions, IsKept, IsAccepted};
ghost use Rattle.deptest.specs.Refused.{RefusesLoops};

use crate::ordered::check;
use crate::source::SourceText;
use flow::ParallelLoop;
use flow_doacross::DoacrossLoop;
use flow_scan::ScanLoop;
use ktree::{Declaration, Item, Kernel, Refusal};
use nest::LoopTable;
use pragma::Directives;
use pragma_region::RegionPart;
use std::alloc::Global;
use std::marker::Model;

/// The parallel loops of a kernel, those of its scans with their phases, its doacross nests with their sinks, and the parts of the regions
/// that they stand in, all in the order of the text.
#[derive(Drop)]
pub struct Parallel {
    pub loops: Vec<ParallelLoop>,
    pub scans: Vec<ScanLoop>,
    pub doacross: Vec<DoacrossLoop>,
    pub regions: Vec<RegionPart>,
}

/// An accepted kernel: what every pass before a run found out of it, that its parallel loops are independent or ordered by their sinks,
/// and these loops.
#[derive(Drop)]
pub struct Checked {
    source: SourceText,
    kernel: Kernel,
    parallel: Parallel,
}

impl Model for Checked {
    ghost use Rattle.std.specs.Coded.{codes};
    ghost use Rattle.ktree.specs.contracts.statement.Item as item;
    ghost use Rattle.deptest.specs.Accepted.{Program, IsKept};

    ghost Value = { Program };

    ghost coded = { Prim.hlevel (codes, item.the_row.coded) };

    ghost view = { λ c. record { text = c.source.bytes; kernel = c.kernel } };

    ghost invariant = { λ c. IsKept (record { text = c.source.bytes; kernel = c.kernel })
        c.parallel.loops.items
        c.parallel.scans.items
        c.parallel.doacross.items
        c.parallel.regions.items };
}

impl Checked {
    /// The file-scope variables.
    pub fn declarations(&self) -> &[Declaration]
        ensures variables { map declaration_of result.now ≡ (tree_of self.now).variables }
        ensures sound { IsAccepted self.now }
    {
        self.kernel.variables.as_slice()
    }

    /// The items of the kernel's body.
    pub fn body(&self) -> &[Item]
        ensures { result.now ≡ self.now.kernel.body.items }
    {
        self.kernel.body.as_slice()
    }

    /// Its parallel loops, in the order of the text, each with what its directive line says.
    pub fn loops(&self) -> &[ParallelLoop]
        ensures { KeepsLoops self.now result.now }
    {
        self.parallel.loops.as_slice()
    }

    /// All that is kept of its parallel loops.
    pub fn parallel(&self) -> &Parallel
        ensures { IsKept self.now result.now.loops.items result.now.scans.items
            result.now.doacross.items result.now.regions.items }
    {
        &self.parallel
    }

    /// The parts of its parallel regions, in the order of the text.
    pub fn regions(&self) -> &[RegionPart]
        ensures { AreRegions self.now.text (kernel_of self.now.kernel) result.now }
    {
        self.parallel.regions.as_slice()
    }
}

/// Accepts the kernel of a text that has passed all else, with these parallel loops and their regions, where the loops are independent, or
/// ordered by their sinks (OpenMP 5.2, 11.5 and 15.9.6); the directive lines are the text's, and the table is that of the kernel's loops.
///
/// # Errors
///
/// As [`check`]'s.
pub fn accept(
    alloc: Global,
    directives: &Directives,
    table: &LoopTable,
    text: &[u8],
    kernel: Kernel,
    parallel: Parallel,
) -> Result<Checked, Refusal>
    requires lines { directives.now ≡ text.now }
    requires passed { HasLoops text.now (kernel_of kernel) parallel.loops.items
        parallel.scans.items parallel.doacross.items }
    requires table { IsTableOf (kernel_of kernel) table.now }
    requires regions { AreRegions text.now (kernel_of kernel) parallel.regions.items }
    ensures is { IfOk result (λ checked. checked ≡ record { text = text.now; kernel = kernel }) }
    ensures err { IfErr result (RefusesLoops text.now (kernel_of kernel)) }
{
    let nests = parallel.doacross.as_slice();
    check(alloc, &kernel, directives, table, nests)?;
    Ok(Checked {
        source: SourceText::of(text),
        kernel,
        parallel,
    })
}
