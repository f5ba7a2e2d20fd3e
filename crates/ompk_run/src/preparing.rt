//! A kernel's body made ready to run.

ghost use Rattle.std.specs.Prelude.{◌≡◌, IfOk, IfErr};
ghost use Rattle.ktree.specs.declared.refusal.Refusal.TheVariants.{OutOfMemory};
ghost use Rattle.seqrun_io.specs.Lines.{HasLengths};
ghost use Rattle.deptest.specs.Accepted.{tree_of};
ghost use Rattle.ompk_run.specs.Ready.{IsPrepared};

use deptest::Checked;
use ktree::Refusal;
use lower_code::{layout_of, mark_among};
use lower_run::zero_registers;
use outline::{Loops, OutlineItem, Target, outline};
use std::alloc::Global;
use store::Store;

// A body's outline, and registers for its locals.
#[derive(Drop)]
pub(crate) struct Prepared<'k> {
    pub(crate) outline: Vec<OutlineItem<'k>>,
    pub(crate) registers: Vec<u64>,
}

// The outline of an accepted kernel's body over the variables of a store, and registers.
pub(crate) fn prepare<'k>(
    alloc: Global,
    checked: &'k Checked,
    store: &Store,
) -> Result<Prepared<'k>, Refusal>
    requires { HasLengths (tree_of checked.now).variables store.now }
    ensures prepared { IfOk result (λ p. IsPrepared checked.now p.outline.items
        p.registers.items store.now) }
    ensures refusal { IfErr result (λ refusal. refusal ≡ OutOfMemory) }
{
    let body = checked.body();
    let declarations = checked.declarations();
    let mark = mark_among(body);
    let layout = layout_of(alloc, declarations)?;
    let registers = zero_registers(alloc, mark, store)?;
    let target = Target {
        layout: layout.as_slice(),
        registers: mark,
    };
    let parallel = checked.parallel();
    let loops = Loops {
        parallel: parallel.loops.as_slice(),
        scans: parallel.scans.as_slice(),
        nests: parallel.doacross.as_slice(),
    };
    let outline = outline(alloc, body, loops, target)?;
    Ok(Prepared { outline, registers })
}
