//! Laws of ranges.

ghost use Rattle.ranges.specs.Laws.{LeavingIsNotInRange};

/// A kernel in which a subscript leaves its array is not one in which none does.
pub fn leaving_is_not_in_range()
    ensures { LeavingIsNotInRange }
{}
