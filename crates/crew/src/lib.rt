//! A crew of threads that stand by for a whole run: jobs are lent to them one after another, and who comes in time takes part.
#![tactic(auto)]

mod crew;
mod serving;
mod waiting;

pub use crew::{Crew, Job, Part, lend};
pub use serving::{dismiss, serve_all};
