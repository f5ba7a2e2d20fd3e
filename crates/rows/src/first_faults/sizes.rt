//! Texts that are long, and bodies that are wide.

use super::told_of;
use std::alloc::{AllocError, Global};

/// What is told of a text with line ends behind it, so that it has so many bytes.
fn told_of_long(alloc: Global, text: &[u8], length: usize) -> Result<(u8, u32, u32), AllocError> {
    let mut bytes = Vec::from_slice(alloc, text)?;
    for _ in text.len()..length {
        bytes.push(b'\n')?;
    }
    Ok(told_of(alloc, bytes.as_slice()))
}

#[test]
fn long_texts_are_told_of(rt: HostRuntime) {
    let heap = rt.alloc();
    let right = b"uint64_t s;\nvoid kernel(void) {\ns = 1;\n}\n";
    let wrong = b"uint64_t s;\nvoid kernel(void) {\ns = ;\n}\n";
    assert!(rt; told_of_long(heap, right, 1048576) == Ok((0, 0, 0)));
    assert!(rt; told_of_long(heap, right, 1048577) == Ok((21, 1048540, 1)));
    assert!(rt; told_of_long(heap, wrong, 1048577) == Ok((1, 3, 5)));
}

/// What is told of a parallel loop of so many statements, each with two accesses.
fn told_of_wide(alloc: Global, count: u64) -> Result<(u8, u32, u32), AllocError> {
    let mut text = Vec::from_slice(
        alloc,
        b"uint64_t A[8]; uint64_t B[8]; void kernel(void) {\n#pragma omp parallel for\nfor (uint64_t i = 0; i < 8; i++) {\n",
    )?;
    for _ in 0..count {
        text.extend_from_slice(b"A[i] = B[i];\n")?;
    }
    text.extend_from_slice(b"}\n}\n")?;
    Ok(told_of(alloc, text.as_slice()))
}

#[test]
fn bodies_of_many_accesses_are_accepted(rt: HostRuntime) {
    assert!(rt; told_of_wide(rt.alloc(), 600) == Ok((0, 0, 0)));
}
