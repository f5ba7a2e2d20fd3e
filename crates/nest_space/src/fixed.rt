//! Nests between numbers, whose space is the same wherever they are reached.

ghost use Rattle.std.specs.Prelude.{◌↔◌, ℤ, List, [], IsTrue};
ghost use Rattle.semantics.specs.Tree.{Variable};
ghost use Rattle.nest_loop.specs.Sides.{HasNumbers};
ghost use Rattle.nest_space.specs.Fixed.{HaveNumbers, AreFixed};
ghost use Rattle.nest_space.specs.Nests.{given, AreModest, AreRunsOf};
ghost use Rattle.nest_space.specs.Rises.{EachRises, HeadsRise};
ghost use Rattle.nest_space.specs.Space.{Turns, IsSpace};

use crate::bounds::Value;
use crate::iterations::Space;
use nest_loop::{Canonical, Direction};
use std::alloc::Global;

/// Whether each of these loops rises.
fn rise(loops: &[Canonical]) -> bool
    ensures { IsTrue result ↔ HeadsRise loops.now }
{
    match loops.split_first() {
        None => true,
        Some((first, rest)) => first.stride.direction == Direction::Rising && rise(rest),
    }
}

/// Whether both bounds of a loop are numbers.
fn has_numbers(head: &Canonical) -> bool
    ensures { IsTrue result ↔ HasNumbers head.now }
{
    head.start.terms().is_empty() && head.limit.terms().is_empty()
}

/// Whether each of these loops runs between numbers.
fn have_numbers(loops: &[Canonical]) -> bool
    ensures { IsTrue result ↔ HaveNumbers loops.now }
{
    match loops.split_first() {
        None => true,
        Some((first, rest)) => has_numbers(first) && have_numbers(rest),
    }
}

/// Whether these loops have a space at these values.
fn have_space(alloc: Global, loops: &[Canonical], values: &[Value]) -> bool
    requires { AreModest values.now }
    ensures { IsTrue result
        ↔ (((ts : List Turns) → AreRunsOf loops.now (given values.now) ts → IsSpace ts → ⊥) → ⊥) }
{
    match Space::at(alloc, loops, values) {
        Some(_space) => true,
        None => false,
    }
}

/// Whether each of these loops rises between two numbers, as those of a doacross nest do, and they have a space: it is the same wherever they
/// are reached (OpenMP 5.2, 4.4.2 and 15.9.6).
pub fn are_fixed(alloc: Global, loops: &[Canonical]) -> bool
    ensures { IsTrue result ↔ AreFixed loops.now }
{
    rise(loops) && have_numbers(loops) && have_space(alloc, loops, &[])
}

/// The space of these loops at these values, where they have one.
fn space_at(alloc: Global, loops: &[Canonical], values: &[Value]) -> Space
    requires modest { AreModest values.now }
    requires there { ((ts : List Turns)
        → AreRunsOf loops.now (given values.now) ts → IsSpace ts → ⊥) → ⊥ }
    ensures { AreRunsOf loops.now (given values.now) result }
{
    match Space::at(alloc, loops, values) {
        Some(space) => space,
        None => unreachable!(),
    }
}

impl Space {
    /// The space that loops which rise between numbers have wherever they are reached.
    pub fn anywhere(alloc: Global, loops: &[Canonical]) -> Space
        requires { AreFixed loops.now }
        ensures runs { (values : Variable → ℤ) → AreRunsOf loops.now values result }
        ensures rise { EachRises result }
    {
        space_at(alloc, loops, &[])
    }
}
