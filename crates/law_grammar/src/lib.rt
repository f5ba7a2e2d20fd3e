//! Whatever the grammar has is read so, and whatever is read with nothing wrong in it the grammar has: the laws that say so, each
//! the contract of a function that does nothing.
#![tactic(auto)]

ghost use Rattle.law_grammar.specs.Laws.{KernelsAreRead, ReadKernelsStand};

/// The tokens of a kernel are read as that kernel, with nothing wrong in it.
pub fn kernels_are_read()
    ensures { KernelsAreRead }
{}

/// Tokens that are read as a kernel, with nothing wrong in it, are the tokens of that kernel.
pub fn read_kernels_stand()
    ensures { ReadKernelsStand }
{}
