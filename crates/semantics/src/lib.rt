//! What a C11 kernel under OpenMP 5.2 loop directives means: the definitions that every contract of the project cites stand
//! in `specs/`. The functions here run nothing: the contract of each is a law, or worked rows, of those definitions.
#![tactic(auto)]

pub mod laws;
pub mod worked;
