//! The turns of a prefix sum in parts, each by a thread of its own, over cells of its own and those that no turn writes: first what each part adds to the
//! register, and then the turns, those of each part from what the turns before it leave there.
#![tactic(auto)]

mod adding;
mod prefixes;
mod scanning;
mod straight;

pub use adding::add_part;
pub use prefixes::Prefixes;
pub use scanning::scan_part;
