//! Rows of lines and of what is to be told of the text with them.

ghost use Rattle.std.specs.Prelude.{◌≤◌, ◌^◌, length};

use crate::texts::text;
use cparse::parse;
use ktree::Kernel;
use pragma::Directives;
use pragma_attach::attach;
use pragma_named::LineClauses;
use pragma_region::count_clauses;
use std::alloc::Global;
use std::process::Abort;

/// What is to be told of a kernel with its directive lines.
pub(crate) trait Expected: Copy {
    /// Whether it is told.
    fn is_told(self, alloc: Global, kernel: &Kernel, directives: &Directives) -> bool
        requires few { length kernel.now.variables.items ≤ 2 ^ 20 };
}

/// Whether it is told of a kernel with the directive lines of its text.
pub(crate) fn is_told_under<E: Expected>(
    alloc: Global,
    kernel: &Kernel,
    text: &str,
    expected: E,
) -> bool
    requires few { length kernel.now.variables.items ≤ 2 ^ 20 }
{
    match Directives::read(alloc, text.as_bytes()) {
        Ok(directives) => expected.is_told(alloc, kernel, &directives),
        Err(_refusal) => false,
    }
}

/// Whether it is told of a text; it is not of one that is refused.
fn is_told_in<E: Expected>(alloc: Global, text: &str, expected: E) -> bool {
    match parse(alloc, text.as_bytes()) {
        Ok(kernel) => is_told_under(alloc, &kernel, text, expected),
        Err(_refusal) => false,
    }
}

/// The same of the text with these lines.
fn is_told_of<E: Expected>(alloc: Global, lines: &str, expected: E) -> bool {
    match text(alloc, lines) {
        Ok(text) => is_told_in(alloc, text.as_str(), expected),
        Err(_error) => false,
    }
}

/// The first of some rows of lines of which something else is told.
fn first_other<'r, E: Expected>(alloc: Global, rows: &[(&'r str, E)]) -> Option<&'r str> {
    for (lines, expected) in rows {
        if !is_told_of(alloc, lines, *expected) {
            return Some(*lines);
        }
    }
    None
}

/// Ends a test where there is such a row, and names it.
pub(crate) fn all_told<E: Expected>(rt: &impl Abort, alloc: Global, rows: &[(&str, E)]) {
    assert_eq!(rt; first_other(alloc, rows), None);
}

/// The clauses that count for the directive lines of a kernel, where none is refused.
pub(crate) fn clauses_of(
    alloc: Global,
    kernel: &Kernel,
    directives: &Directives,
) -> Option<LineClauses>
    requires few { length kernel.now.variables.items ≤ 2 ^ 20 }
{
    let mut lines = attach(alloc, kernel, directives).ok()?;
    match count_clauses(alloc, directives, kernel, &mut lines) {
        Ok(()) => Some(lines),
        Err(_error) => None,
    }
}
