//! Reductions and last values: what chunks of a loop's iterations leave in copies of such variables, put together, is what the loop leaves in
//! sequence. Each law is the contract of a function that does nothing.
#![tactic(auto)]

ghost use Rattle.law_roles.specs.Following.{NestsAreWalks};
ghost use Rattle.law_roles.specs.Reducing.{OperandsTell, OperandsRun, ReductionsShift};
ghost use Rattle.law_roles.specs.Rows.{UpdateRows};
ghost use Rattle.law_roles.specs.Sharing.{RoleChunksJoin, RoleChunksJoinInPlace};

/// Where a statement uses its reduction variables in updates alone, what it does to each is told by the operands of these: it combines them
/// with what the variable holds (OpenMP 5.2, 5.5).
pub fn operands_tell()
    ensures { OperandsTell }
{}

/// Without && and || the operands have values wherever the statement has a run (C11 6.5.13 and 6.5.14).
pub fn operands_run()
    ensures { OperandsRun }
{}

/// Such a statement combines the same partial with each reduction variable from all states that agree but for these (OpenMP 5.2, 5.5.2).
pub fn reductions_shift()
    ensures { ReductionsShift }
{}

/// A nest whose loops' bounds and steps nothing in it assigns leaves what a walk over its iterations leaves (C11 6.8.5.3).
pub fn nests_are_walks()
    ensures { NestsAreWalks }
{}

/// Chunks of a nest's iterations of which no two conflict, each with its own copies of private, lastprivate and reduction variables, have a run
/// each, and leave put together what the nest leaves: partials may be combined in any order. The nest prints what the chunks print, one after
/// another in their order (OpenMP 5.2, 5.4.3, 5.4.5, 5.5.5, 11.5.3 and 15.10.2).
pub fn role_chunks_join()
    ensures { RoleChunksJoin }
{}

/// So do chunks that begin without copies: a reduction variable then holds its identity at first, or of && and || what it held before the
/// loop, and its partial is what it holds in the end, if that is another number (OpenMP 5.2, 5.5.2).
pub fn role_chunks_join_in_place()
    ensures { RoleChunksJoinInPlace }
{}

/// Worked rows: what counts as an update, and what is left of it.
pub fn update_rows()
    ensures { UpdateRows }
{}
