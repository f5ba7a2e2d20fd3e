//! Texts with two faults: the first pass that meets one refuses the text, at the first place in it, and of two faults at one place by the
//! lower number. Texts that are large and right are not refused for want of memory.

mod data;
mod dependence;
mod directives;
mod grammar;
mod loops;
mod names;
mod sizes;
mod subscripts;

use crate::calls::says;
use ktree::Refusal;
use ompk::check;
use std::alloc::{AllocError, Global};

/// A text, or the lines of a kernel, and what is told of it. Each begins with a line end, so that its own lines are counted from 2.
#[derive(Clone, Copy)]
struct Row {
    text: &'static str,
    number: u8,
    line: u32,
    column: u32,
}

/// The number, line and column of a refusal.
fn number_and_place(refusal: &Refusal) -> (u8, u32, u32) {
    match refusal.place() {
        Some(place) => (refusal.number(), place.line, place.column),
        None => (refusal.number(), 0, 0),
    }
}

/// What is told of a text.
pub(crate) fn told_of(alloc: Global, text: &[u8]) -> (u8, u32, u32) {
    match check(alloc, text) {
        Ok(_checked) => (0, 0, 0),
        Err(refusal) => number_and_place(&refusal),
    }
}

/// The text with these lines, behind the declarations in line 1.
fn kernel(alloc: Global, lines: &str) -> Result<String, AllocError> {
    format!(in alloc;
        "uint64_t s; uint64_t A[8]; uint64_t B[8]; void kernel(void) {{ {lines}\n}}\n"
    )
}

/// What is told of the text with these lines.
fn told_inside(alloc: Global, lines: &str) -> (u8, u32, u32) {
    match kernel(alloc, lines) {
        Ok(text) => told_of(alloc, text.as_bytes()),
        Err(_error) => (0, 0, 0),
    }
}

/// The first of some texts of which something else is told.
fn first_other_text(alloc: Global, rows: &[Row]) -> Option<&'static str> {
    for row in rows {
        if told_of(alloc, row.text.as_bytes()) != (row.number, row.line, row.column) {
            return Some(row.text);
        }
    }
    None
}

/// The first of some kernels' lines of which something else is told.
fn first_other_body(alloc: Global, rows: &[Row]) -> Option<&'static str> {
    for row in rows {
        if told_inside(alloc, row.text) != (row.number, row.line, row.column) {
            return Some(row.text);
        }
    }
    None
}

/// Whether a text is refused with this line.
fn is_told(alloc: Global, text: &[u8], line: &str) -> bool {
    match check(alloc, text) {
        Ok(_checked) => false,
        Err(refusal) => says(alloc, &refusal, line.as_bytes()),
    }
}

/// Whether the text with these lines is.
fn is_told_inside(alloc: Global, lines: &str, line: &str) -> bool {
    match kernel(alloc, lines) {
        Ok(text) => is_told(alloc, text.as_bytes(), line),
        Err(_error) => false,
    }
}

/// The first of some kernels' lines that are refused with another line.
fn first_other_line(alloc: Global, rows: &[(&'static str, &'static str)]) -> Option<&'static str> {
    for (lines, line) in rows {
        if !is_told_inside(alloc, *lines, *line) {
            return Some(*lines);
        }
    }
    None
}
