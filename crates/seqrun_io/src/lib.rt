//! What a run reads and writes: its input, its sinks, and the dump of its variables.
#![tactic(auto)]

mod account;
mod lines;
mod reading;
mod sink;

pub use lines::dump;
pub use reading::input;
pub use sink::{Memory, Sink, SinkFault, Writer, put_all};
