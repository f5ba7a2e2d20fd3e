//! A law of the definitions, which makes what `parse` answers the only answer.

ghost use Rattle.cparse.specs.Parsed.{TreesAreUnique};

/// A text has one tree.
pub fn trees_are_unique()
    ensures { TreesAreUnique }
{}
