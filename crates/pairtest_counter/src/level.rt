//! A loop inside others.

use affine::{Form, Interval};
use nest_loop::Canonical;

/// A loop's variable, and how far its end lies behind its start (below 0 where it makes no turn), as forms in the counters of
/// this loop and those round it: the variable of the outermost loop's counter is 0, and so on.
#[derive(Drop)]
pub struct Forms {
    pub place: Form,
    pub reach: Form,
}

/// A loop inside others: how often it turns at most, wherever the variables round it have values of theirs, and its forms in
/// the counters; none, where a number of these is above 2^62 in absolute value.
#[derive(Drop)]
pub struct EnclosingLoop {
    pub canonical: Canonical,
    pub most: u64,
    pub forms: Option<Forms>,
}

/// A loop inside others, and the numbers that its variable may have.
#[derive(Drop)]
pub(crate) struct Inner {
    pub level: EnclosingLoop,
    pub numbers: Interval,
}
