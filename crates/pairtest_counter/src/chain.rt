//! Loops inside each other.

ghost use Rattle.std.specs.Prelude.{◌≡◌, ◌⊎◌, ◌<◌, ◌≤◌, [], ◌∷◌, drop, length, true, false, IfOk, IfErr, OnOk, OnErr};
ghost use Rattle.ktree.specs.declared.refusal.Refusal.TheVariants as refusals;
ghost use Rattle.affine.specs.Affine.{Affine};
ghost use Rattle.affine.specs.Box.{side, EndsFit};
ghost use Rattle.affine_expr.specs.declared.faults.Fault.TheVariants.{OutOfMemory, Limit};
ghost use Rattle.nest_loop.specs.Loops.{inside};
ghost use Rattle.pairtest_counter.specs.Counters.{InCounters, AreForms, Given};
ghost use Rattle.pairtest_counter.specs.Levels.{IsLevel, IsLoopWith, IsInnerWith, with_inner, EntersWith, AreLevels};

use crate::convert::{forms_of, in_counters};
use crate::copied::copy_of;
use crate::level::{EnclosingLoop, Forms, Inner};
use affine::{Form, Interval, VarBox};
use affine_expr::{Fault, fault_of_refusal};
use ktree::{Head, Place, Refusal, VarId};
use nest_loop::{Canonical, LoopFacts};
use std::alloc::Global;
use std::marker::Model;

/// Loops inside each other. Contracts see the numbers that their variables may have and the loops, the innermost first.
#[derive(Drop)]
pub struct EnclosingLoops {
    bounds: VarBox,
    levels: Vec<EnclosingLoop>,
}

impl Model for EnclosingLoops {
    ghost use Rattle.pairtest_counter.specs.Levels.{Nesting, AreLevels};

    ghost Value = { Nesting };

    ghost view = { λ c. record { box = c.bounds; levels = c.levels.items } };

    ghost invariant = { λ c. AreLevels c.bounds c.levels.items };
}

/// The forms of a loop inside others, none where a number of these passes the limits.
fn forms_within(
    alloc: Global,
    canonical: &Canonical,
    outer: &[EnclosingLoop],
    place: Place,
) -> Result<Option<Forms>, Fault>
    requires { length outer.now ≤ 8 }
    ensures ok { IfOk result (Given (AreForms outer.now canonical.now)) }
    ensures err { IfErr result (λ fault. fault ≡ OutOfMemory) }
{
    let counter = VarId(outer.len() as u32);
    match forms_of(alloc, outer, canonical, counter, place) {
        Ok(forms) => Ok(Some(forms)),
        Err(refusal) => match fault_of_refusal(refusal, place) {
            Fault::Limit(_) => Ok(None),
            fault => Err(fault),
        },
    }
}

/// A loop with these facts inside others.
fn level_of(
    alloc: Global,
    facts: &LoopFacts,
    outer: &[EnclosingLoop],
    place: Place,
) -> Result<EnclosingLoop, Fault>
    requires { length outer.now ≤ 8 }
    ensures canonical { IfOk result (λ level. level.canonical ≡ facts.now.canonical) }
    ensures most { IfOk result (λ level. level.most ≡ facts.now.trip_count) }
    ensures forms { IfOk result (λ level. Given (AreForms outer.now facts.now.canonical)
        level.forms) }
    ensures err { IfErr result (λ fault. fault ≡ OutOfMemory) }
{
    let forms = forms_within(alloc, &facts.canonical, outer, place)?;
    Ok(EnclosingLoop {
        canonical: copy_of(&facts.canonical)?,
        most: facts.trip_count,
        forms,
    })
}

/// Gives the variable of a loop its numbers, which a box can take. Where memory runs out, the box stays as it is.
fn bind_variable(
    bounds: &mut VarBox,
    variable: VarId,
    numbers: Interval,
    place: Place,
) -> Result<(), Fault>
    requires { EndsFit numbers.least numbers.greatest }
    ensures ok { OnOk result (bounds.new ≡ inside bounds.old variable.0 numbers) }
    ensures err { OnErr result (bounds.new ≡ bounds.old) }
    ensures fault { IfErr result (λ fault. fault ≡ OutOfMemory) }
{
    let least = i128::from(numbers.least);
    let greatest = i128::from(numbers.greatest);
    match bounds.bind(variable, least, greatest, place) {
        Ok(()) => Ok(()),
        Err(refusal) => Err(fault_of_refusal(refusal, place)),
    }
}

/// Puts a loop and the numbers of its variable before those of others, which stay as they are where memory runs out.
fn put_inside(
    bounds: &mut VarBox,
    levels: &mut Vec<EnclosingLoop>,
    inner: Inner,
    place: Place,
) -> Result<(), Fault>
    requires { EndsFit inner.numbers.least inner.numbers.greatest }
    ensures numbers { OnOk result (bounds.new
        ≡ inside bounds.old inner.level.canonical.variable.0 inner.numbers) }
    ensures levels { OnOk result (levels.new.items ≡ inner.level ∷ levels.old.items) }
    ensures same_numbers { OnErr result (bounds.new ≡ bounds.old) }
    ensures same_levels { OnErr result (levels.new.items ≡ levels.old.items) }
    ensures fault { IfErr result (λ fault. fault ≡ OutOfMemory) }
{
    let variable = inner.level.canonical.variable;
    bind_variable(bounds, variable, inner.numbers, place)?;
    if levels.insert(0, inner.level).is_err() {
        bounds.unbind();
        return Err(Fault::OutOfMemory);
    }
    Ok(())
}

impl EnclosingLoops {
    /// No loop at all.
    pub fn new(alloc: Global) -> EnclosingLoops
        ensures numbers { result.box ≡ [] }
        ensures levels { result.levels ≡ [] }
    {
        EnclosingLoops {
            bounds: VarBox::new(alloc),
            levels: Vec::new(alloc),
        }
    }

    /// The numbers that the variables of the loops may have.
    pub fn bounds(&self) -> &VarBox
        ensures { result.now ≡ self.now.box }
    {
        &self.bounds
    }

    /// The loops, the innermost first.
    pub fn levels(&self) -> &[EnclosingLoop]
        ensures all { result.now ≡ self.now.levels }
        ensures sound { AreLevels self.now.box self.now.levels }
    {
        self.levels.as_slice()
    }

    /// The loop with these facts inside those of the chain.
    fn inner(&self, alloc: Global, head: &Head, facts: &LoopFacts) -> Result<Inner, Fault>
        requires { IsLoopWith self.now.box head.now facts.now }
        ensures ok { IfOk result (IsInnerWith self.now head.now facts.now) }
        ensures numbers { IfOk result (λ inner. inner.numbers ≡ facts.now.numbers) }
        ensures fault { IfErr result (λ fault. fault ≡ OutOfMemory) }
    {
        let outer = self.levels.as_slice();
        let level = level_of(alloc, facts, outer, head.place)?;
        Ok(Inner {
            level,
            numbers: facts.numbers,
        })
    }

    /// Puts a loop inside those of the chain, which stay as they are where memory runs out.
    fn put(&mut self, inner: Inner, place: Place) -> Result<(), Fault>
        requires level { IsLevel self.old.box self.old.levels
            (side inner.level.canonical.variable.0 inner.numbers.least inner.numbers.greatest)
            inner.level }
        requires fits { EndsFit inner.numbers.least inner.numbers.greatest }
        ensures ok { OnOk result (self.new ≡ with_inner self.old inner) }
        ensures err { OnErr result (self.new ≡ self.old) }
        ensures fault { IfErr result (λ fault. fault ≡ OutOfMemory) }
    {
        put_inside(&mut self.bounds, &mut self.levels, inner, place)
    }

    /// Goes into the loop of a head, which has these facts inside those of the chain (OpenMP 5.2, 4.4.1 and 4.4.2).
    ///
    /// # Errors
    ///
    /// `OutOfMemory`. The loops are then those from before.
    pub fn enter(&mut self, alloc: Global, head: &Head, facts: &LoopFacts) -> Result<(), Fault>
        requires { IsLoopWith self.old.box head.now facts.now }
        ensures ok { OnOk result (EntersWith self.old self.new head.now facts.now) }
        ensures err { OnErr result (self.new ≡ self.old) }
        ensures fault { IfErr result (λ fault. fault ≡ OutOfMemory) }
    {
        let inner = self.inner(alloc, head, facts)?;
        self.put(inner, head.place)
    }

    /// Leaves the innermost loop.
    pub fn leave(&mut self)
        requires { 0 < length self.old.levels }
        ensures numbers { self.new.box ≡ drop 1 self.old.box }
        ensures levels { self.new.levels ≡ drop 1 self.old.levels }
    {
        self.bounds.unbind();
        self.levels.remove(0);
    }

    /// A form in the variables of the loops as one in their counters.
    ///
    /// # Errors
    ///
    /// `Limit` at the place, where a number of a form on the way is above 2^62 in absolute value; `OutOfMemory`.
    pub fn in_counters(&self, alloc: Global, form: &Form, place: Place) -> Result<Form, Fault>
        ensures ok { IfOk result (λ found. InCounters self.now.levels form.now found) }
        ensures err { IfErr result
            (λ fault. (fault ≡ OutOfMemory)
            ⊎ ((fault ≡ Limit place) × ((g : Affine) → InCounters self.now.levels form.now g
            → ⊥))) }
    {
        match in_counters(alloc, self.levels.as_slice(), form, place) {
            Ok(found) => Ok(found),
            Err(refusal) => Err(fault_of_refusal(refusal, place)),
        }
    }
}
