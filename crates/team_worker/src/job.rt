//! What the workers of a loop share.

use crate::pass::Pass;
use lower::LoweredLoop;
use nest_space::Space;
use schedule::Chunks;
use store::Store;

/// A loop where it is reached: its registers and its store there, its iterations, the chunks that these are cut into, and
/// how they begin.
#[derive(Clone, Copy)]
pub struct Job<'l, 'r, 'p, 's, 'c, 'b> {
    pub lowered: &'l LoweredLoop,
    pub registers: &'r [u64],
    pub space: &'p Space,
    pub store: &'s Store,
    pub chunks: &'c Chunks,
    pub pass: &'b Pass,
}
