//! What is told of one access.

use affine::Form;
use nest_loop::Canonical;

/// The forms of the subscripts of one access in the variables of the loops round it, and the body's own loops round it, the
/// outermost first.
#[derive(Drop)]
pub struct Touched {
    pub subscripts: Vec<Form>,
    pub inner: Vec<Canonical>,
}
