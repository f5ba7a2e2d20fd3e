//! Laws of the definitions: the range check is exact inside loops with constant bounds.

ghost use Rattle.nest.specs.Turns.{RangesAreExact, RefusalsHaveTurns, ConstantLoopsMakeBoxes};

/// Where all loops round a subscript have constant bounds, it stays inside its dimension wherever in the box of these loops
/// exactly where it does so at each of their turns, guards ignored (C11 6.5.6, 8).
pub fn ranges_are_exact()
    ensures { RangesAreExact }
{}

/// Where it does not, there is a turn of these loops at which it leaves its dimension (C11 6.5.6, 8).
pub fn refusals_have_turns()
    ensures { RefusalsHaveTurns }
{}

/// The box that [`crate::nests`] has inside loops with constant bounds is the one that these laws are about.
pub fn constant_loops_make_boxes()
    ensures { ConstantLoopsMakeBoxes }
{}
