//! What ends a test.

use std::process::Abort;

/// Ends a test where there is a row of which something else is told, and names it.
pub(crate) fn no_other(rt: &impl Abort, other: Option<&str>) {
    assert_eq!(rt; other, None);
}
