//! Where variables lie.

/// Where a file-scope variable lies among the cells: its first cell, in 64 bits, and the lengths of its dimensions.
#[derive(Drop)]
pub struct Laid {
    pub first: u64,
    pub lengths: Vec<u64>,
}
