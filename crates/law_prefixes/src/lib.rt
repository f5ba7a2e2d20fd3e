//! The turns of a loop of straight instructions of which one makes a register of itself and of an operand, and others read it, as prefix sums do: the
//! operands in lanes, what becomes of the register, turn after turn, and then the others in lanes. The law is the contract of a function that does
//! nothing.
#![tactic(auto)]

ghost use Rattle.law_prefixes.specs.Prefixes.{PrefixesInStep};

/// Where the instructions in front make an operand of what no turn changes or the same turn wrote before, and those behind read besides what the register
/// holds as the turn begins (an exclusive scan) or with the operand (an inclusive one), the front in lanes, then what is made of the number
/// before and the operands so far, and then the others in lanes leave what the turns leave one after another (C11 6.8.5, 5.1.2.3; OpenMP 5.2, 5.6).
pub fn prefixes_in_step()
    ensures { PrefixesInStep }
{}
