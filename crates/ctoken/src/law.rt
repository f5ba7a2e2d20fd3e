//! A law of the definitions, which makes what `tokens` answers the only answer.

ghost use Rattle.semantics.specs.Laws.{CutsAreUnique};

/// A text has one cut into tokens.
pub fn cuts_are_unique()
    ensures { CutsAreUnique }
{}
