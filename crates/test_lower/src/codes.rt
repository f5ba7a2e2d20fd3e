//! Kernels of texts, and their code, its short loops written out, as blocks.

use cparse::parse;
use ktree::Kernel;
use lower_block::{Compiled, compile};
use lower_code::{items, layout_of, mark_among};
use lower_unroll::unroll;
use std::alloc::Global;

/// What stands before the lines of a kernel over the arrays `A` of 8 and `B` of 2 times 3 elements and the scalar `s`.
pub(crate) const SMALL: &str = "uint64_t A[8]; uint64_t B[2][3]; uint64_t s; void kernel(void) {";

/// The same with a local `x`.
pub(crate) const SMALL_WITH_LOCAL: &str =
    "uint64_t A[8]; uint64_t B[2][3]; uint64_t s; void kernel(void) { uint64_t x;";

/// The kernel with these lines behind what stands before them.
pub(crate) fn kernel_of(alloc: Global, before: &str, lines: &str) -> Option<Kernel> {
    match format!(in alloc;
        "#include <inttypes.h>\n#include <stdint.h>\n#include <stdio.h>\n{before}\n{lines}\n}}\n"
    ) {
        Ok(text) => parse(alloc, text.as_bytes()).ok(),
        Err(_error) => None,
    }
}

/// The code of a kernel.
fn code_of(alloc: Global, kernel: &Kernel) -> Option<Compiled> {
    let layout = layout_of(alloc, &kernel.variables).ok()?;
    let code = items(alloc, &kernel.body, &layout).ok()?;
    let registers = mark_among(&kernel.body);
    let code = unroll(alloc, code, registers).ok()?;
    compile(alloc, &code, registers).ok()
}

/// The code of the kernel with these lines.
pub(crate) fn code(alloc: Global, before: &str, lines: &str) -> Option<Compiled> {
    let kernel = kernel_of(alloc, before, lines)?;
    code_of(alloc, &kernel)
}
