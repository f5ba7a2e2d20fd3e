//! The locals of a running program.

ghost use Rattle.std.specs.Prelude.{◌≡◌, ◌<◌, List, length, slice_set, Some, OnOk, OnErr};
ghost use Rattle.seqrun_value.specs.Standing.{locals_of, slot_of, standing};
ghost use Rattle.semantics.specs.Meaning.State.{with_local};
ghost use Rattle.store.specs.Kept.{Kept};

use ktree::VarId;
use std::alloc::AllocError;
use std::marker::Model;

/// What stands for a variable among the locals (C11 6.2.4, 6: a local's value is indeterminate at its declaration).
#[derive(Clone, Copy, Debug, PartialEq, Eq)]
pub enum Slot {
    /// No local of that number.
    Outside,
    /// A local that holds nothing yet.
    Empty,
    Holds(u64),
}

/// The locals by the numbers of variables; a number past the end has none.
#[derive(Drop)]
pub struct Frame {
    slots: Vec<Slot>,
}

impl Model for Frame {
    ghost use Rattle.std.specs.Prelude.{List};
    ghost use Rattle.seqrun_value.specs.declared.frame.Slot.{Slot};

    ghost Value = { List Slot };

    ghost view = { λ f. f.slots.items };
}

impl Frame {
    /// A frame of these locals, the first for the variable with the number 0.
    pub fn new(slots: Vec<Slot>) -> Frame
        ensures { result ≡ slots.items }
    {
        Frame { slots }
    }

    /// What stands for a variable.
    pub fn slot(&self, variable: VarId) -> Slot
        ensures { locals_of self.now variable.0 ≡ slot_of (Some result) }
    {
        match self.slots.get(variable.0 as usize) {
            Some(slot) => *slot,
            None => Slot::Outside,
        }
    }

    /// Gives a variable's local a new content, with room made for it.
    ///
    /// # Errors
    ///
    /// Where memory runs out; all variables then stand as they did.
    pub fn set(&mut self, variable: VarId, slot: Slot) -> Result<(), AllocError>
        ensures ok { OnOk result ((ks : List Kept)
            → standing self.new ks ≡ with_local (standing self.old ks) variable.0
            (slot_of (Some slot))) }
        ensures err { OnErr result
            ((ks : List Kept) → standing self.new ks ≡ standing self.old ks) }
    {
        let index = variable.0 as usize;
        if index < self.slots.len() {
            set_slot(&mut self.slots, index, slot);
            Ok(())
        } else {
            set_behind(&mut self.slots, index, slot)
        }
    }
}

// Gives a slot that is there a new content.
fn set_slot(slots: &mut Vec<Slot>, index: usize, slot: Slot)
    requires { index < length slots.old.items }
    ensures { slots.new.items ≡ slice_set slots.old.items index slot }
{
    slots[index] = slot;
}

// Gives a slot a new content, with room made for it. A walk comes here once for each local.
#[cold]
#[inline(never)]
fn set_behind(slots: &mut Vec<Slot>, index: usize, slot: Slot) -> Result<(), AllocError>
    ensures ok { OnOk result ((ks : List Kept) → standing slots.new.items ks
        ≡ with_local (standing slots.old.items ks) index (slot_of (Some slot))) }
    ensures err { OnErr result ((ks : List Kept) → standing slots.new.items ks
        ≡ standing slots.old.items ks) }
{
    while slots.len() <= index {
        slots.push(Slot::Outside)?;
    }
    set_slot(slots, index, slot);
    Ok(())
}
