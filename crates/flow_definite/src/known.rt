//! What may be read at a place in a text.

ghost use Rattle.std.specs.Prelude.{◌≡◌, ◌≤◌, ◌&&◌, [], true, false, OnOk, IfOk, IfErr, replicate, vec_len};
ghost use Rattle.semantics.specs.Meaning.Definite.{known_with};
ghost use Rattle.flow_definite.specs.Judged.{known_of, Unread, TellsOfName};

use crate::fault::ReadFault;
use ktree::{Place, VarId};
use std::alloc::{AllocError, Global};
use std::marker::Model;

/// A name that may be read unassigned, by its place alone: walks over deep expressions hand it up at each step.
#[derive(Clone, Copy, Drop)]
pub(crate) struct Unassigned {
    place: Place,
}

impl From<Unassigned> for ReadFault {
    ghost from_gives = { λ _ fault. TellsOfName fault };

    fn from(name: Unassigned) -> ReadFault {
        ReadFault::Unassigned(name.place)
    }
}

/// The variables that may be read, by their numbers: the first ones one by one, and all others.
#[derive(Drop)]
pub struct DefinitelyAssigned {
    slots: Vec<bool>,
    others: bool,
}

impl Model for DefinitelyAssigned {
    ghost use Rattle.std.specs.Prelude.{List, Bool};

    ghost Value = { List Bool × Bool };

    ghost view = { λ k. (k.slots.items, k.others) };
}

/// Adds slots up to a count, which say what is known of those behind the last.
///
/// # Errors
///
/// Where memory runs out.
fn reach(slots: &mut Vec<bool>, others: bool, count: usize) -> Result<(), AllocError>
    ensures known { OnOk result (known_of (slots.new.items, others)
        ≡ known_of (slots.old.items, others)) }
    ensures reached { OnOk result (count ≤ vec_len slots.new) }
{
    while slots.len() < count {
        slots.push(others)?;
    }
    Ok(())
}

/// Sets what is known of one variable.
///
/// # Errors
///
/// Where memory runs out.
fn put(slots: &mut Vec<bool>, others: bool, variable: VarId, known: bool) -> Result<(), AllocError>
    ensures { OnOk result (known_of (slots.new.items, others)
        ≡ known_with (known_of (slots.old.items, others)) variable.0 known) }
{
    let index = variable.0 as usize;
    reach(slots, others, index + 1)?;
    slots[index] = known;
    Ok(())
}

impl DefinitelyAssigned {
    /// The first variables of a text, and no others.
    ///
    /// # Errors
    ///
    /// Where memory runs out.
    pub(crate) fn first(alloc: Global, count: usize) -> Result<DefinitelyAssigned, AllocError>
        ensures { IfOk result (λ known. known ≡ (replicate count true, false)) }
    {
        let slots = vec![in alloc; true; count]?;
        Ok(DefinitelyAssigned {
            slots,
            others: false,
        })
    }

    /// All variables.
    pub fn all(alloc: Global) -> DefinitelyAssigned
        ensures { result ≡ ([], true) }
    {
        DefinitelyAssigned {
            slots: Vec::new(alloc),
            others: true,
        }
    }

    /// The same once more.
    ///
    /// # Errors
    ///
    /// Where memory runs out.
    pub(crate) fn copy(&self) -> Result<DefinitelyAssigned, AllocError>
        ensures { IfOk result (λ known. known ≡ self.now) }
    {
        let slots = self.slots.clone()?;
        Ok(DefinitelyAssigned {
            slots,
            others: self.others,
        })
    }

    /// Whether the variable of a number may be read.
    pub fn knows(&self, index: usize) -> bool
        ensures { result ≡ known_of self.now index }
    {
        match self.slots.get(index) {
            Some(known) => *known,
            None => self.others,
        }
    }

    /// Looks whether a variable may be read that is named at a place.
    ///
    /// # Errors
    ///
    /// Where it may not.
    pub(crate) fn read(&self, variable: VarId, place: Place) -> Result<(), Unassigned>
        ensures known { OnOk result (known_of self.now variable.0 ≡ true) }
        ensures refused { IfErr result (Unread (known_of self.now variable.0)) }
    {
        if self.knows(variable.0 as usize) {
            Ok(())
        } else {
            Err(Unassigned { place })
        }
    }

    /// From here on a variable may be read.
    ///
    /// # Errors
    ///
    /// Where memory runs out.
    pub(crate) fn learn(&mut self, variable: VarId) -> Result<(), AllocError>
        ensures { OnOk result (known_of self.new ≡ known_with (known_of self.old) variable.0 true) }
    {
        put(&mut self.slots, self.others, variable, true)
    }

    /// From here on a variable may not be read.
    ///
    /// # Errors
    ///
    /// Where memory runs out.
    pub(crate) fn forget(&mut self, variable: VarId) -> Result<(), AllocError>
        ensures { OnOk result (known_of self.new
            ≡ known_with (known_of self.old) variable.0 false) }
    {
        put(&mut self.slots, self.others, variable, false)
    }

    /// Leaves what may be read here and there.
    ///
    /// # Errors
    ///
    /// Where memory runs out.
    pub(crate) fn meet(&mut self, other: &DefinitelyAssigned) -> Result<(), AllocError>
        ensures { OnOk result (known_of self.new
            ≡ (λ y. known_of self.old y && known_of other.now y)) }
    {
        reach(&mut self.slots, self.others, other.slots.len())?;
        let slots = &mut self.slots;
        let count = slots.len();
        for i in 0..count {
            slots[i] &= other.knows(i);
        }
        self.others &= other.others;
        Ok(())
    }
}
