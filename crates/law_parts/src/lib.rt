//! The turns of a loop of straight instructions in parts: each part by itself, from the machine before all turns, over cells of its own and those
//! that no turn writes, leaves in its own cells what the turns leave one after another. Each law is the contract of a function that does nothing.
#![tactic(auto)]

ghost use Rattle.law_parts.specs.Parts.{TurnsApartAreLanes, TurnsKeepOthers, TurnsRunInParts};

/// Where each turn writes cells of its own places alone, turns leave all other cells (C11 6.8.5, 5.1.2.3).
pub fn turns_keep_others()
    ensures { TurnsKeepOthers }
{}

/// Where each turn writes cells of its own places alone, and reads of the places of other turns none, some of them, from the machine before all
/// turns and over whatever stands at the places of others, leave in their own places, and the last of them in all registers, what all turns leave
/// there one after another (C11 6.8.5, 5.1.2.3).
pub fn turns_run_in_parts()
    ensures { TurnsRunInParts }
{}

/// Where each turn writes cells of its own places alone, and reads of the places of other turns none, any of them, one behind another, may be run in
/// lanes: instruction by instruction, each for all turns (C11 6.8.5, 5.1.2.3).
pub fn turns_apart_are_lanes()
    ensures { TurnsApartAreLanes }
{}
