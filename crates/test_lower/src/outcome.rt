//! What ends a test.

use std::process::Abort;

/// Ends a test where there is a row of which something else is found, and gives its number.
pub(crate) fn no_other(rt: &impl Abort, other: Option<usize>) {
    assert_eq!(rt; other, None);
}
