//! Rows of a space.

/// Iterations of a nest, one behind another, of which only the innermost loop's variable differs: it is `first` in the first of them, and
/// `by` is added from one to the next, modulo 2^64.
#[derive(Clone, Copy, Debug, PartialEq, Eq)]
pub struct Row {
    pub first: u64,
    pub by: u64,
    pub count: u64,
}
