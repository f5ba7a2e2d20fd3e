//! The turns of a prefix sum in parts, each by itself: over cells of its own and those that no turn writes, with the register as the turns before the
//! part leave it. Each law is the contract of a function that does nothing.
#![tactic(auto)]

ghost use Rattle.law_prefix_parts.specs.PrefixParts.{OperandsInParts, PrefixesRunInParts};

/// Where each turn writes cells of its own places alone, and reads of the places of other turns none, some turns of a prefix sum, from the registers before
/// all turns but for the one that it carries, and over whatever stands at the places of others, leave in their own places and in the registers what
/// the turns leave there one after another (C11 6.8.5, 5.1.2.3).
pub fn prefixes_run_in_parts()
    ensures { PrefixesRunInParts }
{}

/// What the register holds behind some turns is made of what it holds before them and of their operands, as lanes leave these from the registers before
/// all turns, where nothing in front of the operand writes a cell (C11 6.8.5, 5.1.2.3).
pub fn operands_in_parts()
    ensures { OperandsInParts }
{}
