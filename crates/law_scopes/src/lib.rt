//! Names that are no longer visible: what a parallel loop leaves in its own variables is of no matter to what comes behind it. Each law is
//! the contract of a function that does nothing.
#![tactic(auto)]

ghost use Rattle.law_scopes.specs.Apart.{SharedEffectsLeaveTheObjects, StatesAtTurnsAreTurns};

/// An effect on the objects at file scope alone leaves these as the whole effect does, and the locals as they were (C11 6.2.1 and 6.2.4).
pub fn shared_effects_leave_the_objects()
    ensures { SharedEffectsLeaveTheObjects }
{}

/// A state in which the variables of loops inside each other hold the values of one of their turns is at that turn (OpenMP 5.2, 4.4.2).
pub fn states_at_turns_are_turns()
    ensures { StatesAtTurnsAreTurns }
{}
