//! Directives that are attached to their kernel, and what is told of those that are not.

ghost use Rattle.std.specs.Prelude.{◌≤◌, ◌^◌, length};

use crate::outcome::no_other;
use cparse::parse;
use ktree::{Kernel, Place, Refusal};
use pragma::Directives;
use pragma_attach::attach;
use std::alloc::Global;

/// The number of a refusal, and where the text is at fault.
fn number_with_place(refusal: &Refusal) -> Option<(u8, Place)> {
    match refusal.place() {
        Some(place) => Some((refusal.number(), place)),
        None => None,
    }
}

/// What is told of a kernel with these directive lines; none where they are attached.
fn told_of(alloc: Global, kernel: &Kernel, directives: &Directives) -> Option<(u8, Place)>
    requires few { length kernel.now.variables.items ≤ 2 ^ 20 }
{
    match attach(alloc, kernel, directives) {
        Ok(_) => None,
        Err(refusal) => number_with_place(&refusal),
    }
}

/// What is told of the directives of a kernel in a text.
fn told_among(alloc: Global, kernel: &Kernel, text: &[u8]) -> Option<(u8, Place)>
    requires few { length kernel.now.variables.items ≤ 2 ^ 20 }
{
    match Directives::read(alloc, text) {
        Ok(directives) => told_of(alloc, kernel, &directives),
        Err(refusal) => number_with_place(&refusal),
    }
}

/// What is told of the directives of a text that is a kernel, and else what the parser tells.
fn told_in(alloc: Global, text: &[u8]) -> Option<(u8, Place)> {
    match parse(alloc, text) {
        Ok(kernel) => told_among(alloc, &kernel, text),
        Err(refusal) => number_with_place(&refusal),
    }
}

/// Whether this is told of a text, by number, line and column; a number of 0 where its directives are attached.
fn is_told(alloc: Global, text: &str, number: u8, line: u32, column: u32) -> bool {
    match told_in(alloc, text.as_bytes()) {
        None => number == 0,
        Some((other, place)) => { other == number && place.line == line && place.column == column }
    }
}

/// The first text of a table of which something else is told.
fn other_told<'t>(alloc: Global, rows: &[(&'t str, u8, u32, u32)]) -> Option<&'t str> {
    for (text, number, line, column) in rows {
        if !is_told(alloc, *text, *number, *line, *column) {
            return Some(*text);
        }
    }
    None
}

#[test]
fn constructs_stand_before_their_statements(rt: HostRuntime) {
    const ROWS: &[(&str, u8, u32, u32)] = &[
        (
            "uint64_t v; void kernel(void) {\n#pragma omp parallel for\nfor (uint64_t i = 0; i < 8; i++) { } }\n",
            0,
            0,
            0,
        ),
        (
            "uint64_t v; void kernel(void) {\n#pragma omp parallel\n{\n#pragma omp for\nfor (uint64_t i = 0; i < 8; i++) { } } }\n",
            0,
            0,
            0,
        ),
        (
            "uint64_t v; void kernel(void) {\n#pragma omp parallel\n{ } }\n",
            11,
            2,
            1,
        ),
        (
            "uint64_t v; void kernel(void) {\n#pragma omp parallel\n{\n  #pragma omp parallel for\nfor (uint64_t i = 0; i < 8; i++) { } } }\n",
            11,
            2,
            1,
        ),
        (
            "uint64_t v; void kernel(void) {\n#pragma omp parallel\n{\n  #pragma omp for x\nfor (uint64_t i = 0; i < 8; i++) { } } }\n",
            11,
            4,
            3,
        ),
        (
            "uint64_t v; void kernel(void) {\n#pragma omp for\nfor (uint64_t i = 0; i < 8; i++) { } }\n",
            11,
            2,
            1,
        ),
        (
            "uint64_t v; void kernel(void) { { v = 1;\n#pragma omp parallel for\n} }\n",
            11,
            2,
            1,
        ),
        (
            "uint64_t v; void kernel(void) {\n#pragma omp parallel for\nfor (uint64_t i = 0; i < 8; i++) {\n#pragma omp parallel for\nfor (uint64_t j = 0; j < 8; j++) { } } }\n",
            11,
            4,
            1,
        ),
        (
            "uint64_t v; void kernel(void) {\n#pragma omp parallel for schedule(static) schedule(static)\nfor (uint64_t i = 0; i < 8; i++) { } }\n",
            11,
            2,
            1,
        ),
        (
            "uint64_t v; void kernel(void) {\n#pragma omp parallel for // all\nfor (uint64_t i = 0; i < 8; i++) { } }\n",
            11,
            2,
            1,
        ),
        (
            "uint64_t v; void kernel(void) { v = 1;\n#pragma omp parallel for\n}\n",
            11,
            2,
            1,
        ),
        (
            "uint64_t v; void kernel(void) {\n#pragma omp ordered\nv = 1; }\n",
            0,
            0,
            0,
        ),
        (
            "uint64_t v; void kernel(void) {\n#pragma omp scan inclusive(v)\nv = 1; }\n",
            0,
            0,
            0,
        ),
        (
            "uint64_t v; void kernel(void) {\n#pragma omp ordered doacross(source:)\nv = 1; }\n",
            0,
            0,
            0,
        ),
    ];
    no_other(&rt, other_told(rt.alloc(), ROWS));
}

#[test]
fn names_in_clauses_are_visible_variables(rt: HostRuntime) {
    const ROWS: &[(&str, u8, u32, u32)] = &[
        (
            "uint64_t v; void kernel(void) {\n#pragma omp parallel for shared(v)\nfor (uint64_t i = 0; i < 8; i++) { } }\n",
            0,
            0,
            0,
        ),
        (
            "uint64_t v; void kernel(void) {\n#pragma omp parallel for shared(w)\nfor (uint64_t i = 0; i < 8; i++) { } }\n",
            3,
            2,
            33,
        ),
        (
            "uint64_t v; void kernel(void) {\n#pragma omp parallel for private(v, w)\nfor (uint64_t i = 0; i < 8; i++) { } }\n",
            3,
            2,
            37,
        ),
        (
            "uint64_t v; void kernel(void) {\n#pragma omp parallel for firstprivate(w)\nfor (uint64_t i = 0; i < 8; i++) { } }\n",
            3,
            2,
            39,
        ),
        (
            "uint64_t v; void kernel(void) {\n#pragma omp parallel for lastprivate(conditional: w)\nfor (uint64_t i = 0; i < 8; i++) { } }\n",
            3,
            2,
            51,
        ),
        (
            "uint64_t v; void kernel(void) {\n#pragma omp parallel for reduction(+: v) reduction(inscan, max: w)\nfor (uint64_t i = 0; i < 8; i++) { } }\n",
            3,
            2,
            65,
        ),
        (
            "enum { N = 8 }; uint64_t v; void kernel(void) {\n#pragma omp parallel for shared(N)\nfor (uint64_t i = 0; i < N; i++) { } }\n",
            3,
            2,
            33,
        ),
        (
            "uint64_t v; void kernel(void) {\n#pragma omp parallel for private(i)\nfor (uint64_t i = 0; i < 8; i++) { } }\n",
            3,
            2,
            34,
        ),
        (
            "uint64_t v; void kernel(void) { { uint64_t t = 1; v = t; }\n#pragma omp parallel for firstprivate(t)\nfor (uint64_t i = 0; i < 8; i++) { } }\n",
            3,
            2,
            39,
        ),
        (
            "uint64_t v; void kernel(void) { uint64_t t = 1;\n#pragma omp parallel for firstprivate(t)\nfor (uint64_t i = 0; i < 8; i++) { v = t; } }\n",
            0,
            0,
            0,
        ),
        (
            "uint64_t v; void kernel(void) { for (uint64_t j = 0; j < 8; j++) {\n#pragma omp parallel for firstprivate(j)\nfor (uint64_t i = 0; i < 8; i++) { } } }\n",
            0,
            0,
            0,
        ),
    ];
    no_other(&rt, other_told(rt.alloc(), ROWS));
}

#[test]
fn the_first_fault_is_told(rt: HostRuntime) {
    const ROWS: &[(&str, u8, u32, u32)] = &[
        (
            "uint64_t v; void kernel(void) {\n#pragma omp parallel for shared(v) private(v)\nfor (uint64_t i = 0; i < 8; i++) { } }\n",
            13,
            2,
            44,
        ),
        (
            "uint64_t v; void kernel(void) {\n#pragma omp parallel for shared(w)\nv = 1;\n#pragma omp simd\n}\n",
            11,
            2,
            1,
        ),
        (
            "uint64_t v; void kernel(void) {\n#pragma omp parallel for shared(w)\nfor (uint64_t i = 0; i < 8; i++) { }\n#pragma omp simd\n}\n",
            3,
            2,
            33,
        ),
        (
            "uint64_t v; void kernel(void) {\n#pragma omp parallel for collapse(5) shared(w)\nfor (uint64_t i = 0; i < 8; i++) { } }\n",
            21,
            2,
            1,
        ),
        (
            "uint64_t v; void kernel(void) {\n#pragma omp parallel for collapse(5)\nv = 1; }\n",
            11,
            2,
            1,
        ),
        (
            "uint64_t v; void kernel(void) {\n#pragma omp for collapse(5)\nfor (uint64_t i = 0; i < 8; i++) { } }\n",
            11,
            2,
            1,
        ),
        (
            "uint64_t v; void kernel(void) {\n#pragma omp parallel\n{\n#pragma omp for collapse(5)\nfor (uint64_t i = 0; i < 8; i++) { } } }\n",
            21,
            4,
            1,
        ),
        (
            "uint64_t v; void kernel(void) {\n#pragma omp parallel\n{\n#pragma omp parallel for collapse(5)\nfor (uint64_t i = 0; i < 8; i++) { } } }\n",
            11,
            2,
            1,
        ),
        (
            "uint64_t v; void kernel(void) {\n#pragma omp parallel for\nfor (uint64_t i = 0; i < 8; i++) {\n#pragma omp parallel for schedule(static, 16777217)\nfor (uint64_t j = 0; j < 8; j++) { } } }\n",
            11,
            4,
            1,
        ),
        (
            "uint64_t A[8]; uint64_t B[8]; void kernel(void) {\n#pragma omp parallel for default(none) shared(A)\nfor (uint64_t i = 0; i < 8; i++) { A[i] = B[i]; }\n#pragma omp simd\n}\n",
            13,
            3,
            43,
        ),
        (
            "uint64_t A[8]; uint64_t B[8]; void kernel(void) {\n#pragma omp parallel for default(none) shared(A)\nfor (uint64_t i = 0; i < 8; i++) { A[i] = B[i]; }\n#pragma omp parallel for shared(w)\nfor (uint64_t i = 0; i < 8; i++) { } }\n",
            13,
            3,
            43,
        ),
        (
            "uint64_t A[8]; uint64_t B[8]; void kernel(void) {\n#pragma omp parallel for shared(w)\nfor (uint64_t i = 0; i < 8; i++) { }\n#pragma omp parallel for default(none) shared(A)\nfor (uint64_t i = 0; i < 8; i++) { A[i] = B[i]; } }\n",
            3,
            2,
            33,
        ),
        (
            "uint64_t A[8]; uint64_t B[8]; void kernel(void) {\n#pragma omp parallel for default(none) shared(A)\n{ A[0] = B[0]; } }\n",
            11,
            2,
            1,
        ),
        (
            "uint64_t A[8]; uint64_t B[8]; void kernel(void) {\n#pragma omp parallel default(none) shared(A)\n{\n#pragma omp for\nfor (uint64_t i = 0; i < 8; i++) { A[i] = B[i]; }\n#pragma omp for private(w)\nfor (uint64_t i = 0; i < 8; i++) { A[i] = 1; } } }\n",
            13,
            5,
            43,
        ),
        (
            "uint64_t A[8]; uint64_t B[8]; void kernel(void) { uint64_t x = 1; A[0] = x;\n#pragma omp parallel default(none) shared(A, x)\n{\n#pragma omp for private(x) firstprivate(x)\nfor (uint64_t i = 0; i < 8; i++) { A[i] = B[i]; } } }\n",
            13,
            4,
            41,
        ),
        (
            "uint64_t v; void kernel(void) {\n#pragma omp parallel for shared(v, v, w)\nfor (uint64_t i = 0; i < 8; i++) { } }\n",
            13,
            2,
            36,
        ),
        (
            "uint64_t v; void kernel(void) {\n#pragma omp parallel for shared(w, v, v)\nfor (uint64_t i = 0; i < 8; i++) { } }\n",
            3,
            2,
            33,
        ),
    ];
    no_other(&rt, other_told(rt.alloc(), ROWS));
}

#[test]
fn default_none_wants_each_variable_from_outside_in_a_clause(rt: HostRuntime) {
    const ROWS: &[(&str, u8, u32, u32)] = &[
        (
            "uint64_t A[8]; uint64_t B[8]; void kernel(void) {\n#pragma omp parallel for default(none) shared(A)\nfor (uint64_t i = 0; i < 8; i++) { A[i] = B[i]; } }\n",
            13,
            3,
            43,
        ),
        (
            "uint64_t A[8]; uint64_t B[8]; void kernel(void) {\n#pragma omp parallel for default(none) shared(A, B)\nfor (uint64_t i = 0; i < 8; i++) { A[i] = B[i]; } }\n",
            0,
            0,
            0,
        ),
        (
            "uint64_t A[8]; uint64_t B[8]; void kernel(void) {\n#pragma omp parallel for default(shared) shared(A)\nfor (uint64_t i = 0; i < 8; i++) { A[i] = B[i]; } }\n",
            0,
            0,
            0,
        ),
        (
            "uint64_t A[8]; void kernel(void) {\n#pragma omp parallel for default(none)\nfor (uint64_t i = 0; i < 8; i++) { uint64_t t = i; for (uint64_t j = 0; j < t; j++) { t = t + j; } } }\n",
            0,
            0,
            0,
        ),
        (
            "uint64_t A[8]; void kernel(void) { for (uint64_t t = 0; t < 8; t++) {\n#pragma omp parallel for default(none) shared(A)\nfor (uint64_t i = 0; i < 8; i++) { A[i] = t; } } }\n",
            13,
            3,
            43,
        ),
        (
            "uint64_t A[8]; void kernel(void) { for (uint64_t t = 0; t < 8; t++) {\n#pragma omp parallel for default(none) shared(A) firstprivate(t)\nfor (uint64_t i = 0; i < 8; i++) { A[i] = t; } } }\n",
            0,
            0,
            0,
        ),
        (
            "uint64_t A[8]; void kernel(void) { for (uint64_t t = 0; t < 8; t++) {\n#pragma omp parallel for default(none) shared(A)\nfor (uint64_t i = 0; i < t; i++) { A[i] = 1; } } }\n",
            13,
            3,
            26,
        ),
        (
            "uint64_t A[8]; uint64_t s; void kernel(void) {\n#pragma omp parallel for default(none) shared(A)\nfor (uint64_t i = 0; i < 8; i++) { A[i + s] = 1; } }\n",
            13,
            3,
            42,
        ),
        (
            "uint64_t A[8]; uint64_t s; void kernel(void) {\n#pragma omp parallel for default(none) shared(A)\nfor (uint64_t i = 0; i < 8; i++) { if (A[i] > 1) s += A[i]; } }\n",
            13,
            3,
            50,
        ),
        (
            "uint64_t A[8]; uint64_t s; void kernel(void) {\n#pragma omp parallel for default(none) shared(A)\nfor (uint64_t i = 0; i < 8; i++) { uint64_t t = s; A[i] = t; } }\n",
            13,
            3,
            49,
        ),
        (
            "uint64_t A[8]; uint64_t s; void kernel(void) {\n#pragma omp parallel for default(none) shared(A)\nfor (uint64_t i = 0; i < 8; i++) { if (i < 3 && s > 1) A[i] = 1; else A[i] = 2; } }\n",
            13,
            3,
            49,
        ),
        (
            "uint64_t A[8]; uint64_t s; void kernel(void) {\n#pragma omp parallel for default(none) shared(A)\nfor (uint64_t i = 0; i < 8; i++) { if (i < 3) A[i] = 1; else A[i] = s; } }\n",
            13,
            3,
            69,
        ),
        (
            "uint64_t A[8]; uint64_t s; void kernel(void) {\n#pragma omp parallel for default(none) shared(A) reduction(+: s)\nfor (uint64_t i = 0; i < 8; i++) { s += A[i]; } }\n",
            0,
            0,
            0,
        ),
        (
            "uint64_t A[8]; uint64_t s; void kernel(void) {\n#pragma omp parallel for default(none) shared(A)\nfor (uint64_t i = 0; i < 8; i++) { A[i] = 1;\n#pragma omp scan inclusive(s)\nA[i] = 2; } }\n",
            0,
            0,
            0,
        ),
        (
            "uint64_t A[8]; uint64_t s; void kernel(void) {\n#pragma omp parallel for default(none) shared(A)\nfor (uint64_t i = 0; i < 8; i++) {\n#pragma omp ordered doacross(sink: s-1)\nA[i] = 2; } }\n",
            0,
            0,
            0,
        ),
        (
            "uint64_t A[8]; uint64_t s; void kernel(void) {\n#pragma omp parallel for default(none) shared(A)\nfor (uint64_t i = 0; i < 8; i += s) { A[i] = 1; } }\n",
            13,
            3,
            34,
        ),
        (
            "uint64_t A[8]; uint64_t s; void kernel(void) {\n#pragma omp parallel for default(none) shared(A)\nfor (uint64_t i = 0; i < 8; i++) { printf(\"%\" PRIu64 \" %\" PRIu64 \"\\n\", A[i], s); } }\n",
            13,
            3,
            78,
        ),
        (
            "enum { N = 8 }; uint64_t A[N]; void kernel(void) {\n#pragma omp parallel for default(none) shared(A)\nfor (uint64_t i = 0; i < N; i++) { A[i] = 1ull + N; } }\n",
            0,
            0,
            0,
        ),
    ];
    no_other(&rt, other_told(rt.alloc(), ROWS));
}

#[test]
fn default_none_of_a_parallel_counts_for_its_loops(rt: HostRuntime) {
    const ROWS: &[(&str, u8, u32, u32)] = &[
        (
            "uint64_t A[8]; uint64_t B[8]; void kernel(void) {\n#pragma omp parallel default(none) shared(A)\n{\n#pragma omp for\nfor (uint64_t i = 0; i < 8; i++) { A[i] = 1; }\n#pragma omp for\nfor (uint64_t j = 0; j < 8; j++) { B[j] = 1; } } }\n",
            13,
            7,
            36,
        ),
        (
            "uint64_t A[8]; uint64_t B[8]; void kernel(void) {\n#pragma omp parallel default(none) shared(A, B)\n{\n#pragma omp for\nfor (uint64_t i = 0; i < 8; i++) { A[i] = 1; }\n#pragma omp for\nfor (uint64_t j = 0; j < 8; j++) { B[j] = 1; } } }\n",
            0,
            0,
            0,
        ),
        (
            "uint64_t A[8]; uint64_t s; void kernel(void) {\n#pragma omp parallel default(none) shared(A)\n{\n#pragma omp for reduction(+: s)\nfor (uint64_t i = 0; i < 8; i++) { A[i] = 1; } } }\n",
            13,
            4,
            30,
        ),
        (
            "uint64_t A[8]; uint64_t s; void kernel(void) {\n#pragma omp parallel default(none) shared(A, s)\n{\n#pragma omp for reduction(+: s)\nfor (uint64_t i = 0; i < 8; i++) { A[i] = 1; } } }\n",
            0,
            0,
            0,
        ),
    ];
    no_other(&rt, other_told(rt.alloc(), ROWS));
}

#[test]
fn a_for_names_what_its_parallel_shares(rt: HostRuntime) {
    const ROWS: &[(&str, u8, u32, u32)] = &[
        (
            "uint64_t A[8]; void kernel(void) { uint64_t x = 1; A[0] = x;\n#pragma omp parallel private(x)\n{\n#pragma omp for private(x)\nfor (uint64_t i = 0; i < 8; i++) { x = i; A[i] = x; } } }\n",
            13,
            4,
            25,
        ),
        (
            "uint64_t A[8]; void kernel(void) { uint64_t x = 1;\n#pragma omp parallel firstprivate(x)\n{\n#pragma omp for lastprivate(x)\nfor (uint64_t i = 0; i < 8; i++) { x = i; A[i] = x; } } }\n",
            13,
            4,
            29,
        ),
        (
            "uint64_t A[8]; void kernel(void) { uint64_t x = 1; A[0] = x;\n#pragma omp parallel shared(x)\n{\n#pragma omp for private(x)\nfor (uint64_t i = 0; i < 8; i++) { x = i; A[i] = x; } } }\n",
            0,
            0,
            0,
        ),
        (
            "uint64_t A[8]; void kernel(void) { uint64_t x = 1; uint64_t y = 1; A[0] = x + y;\n#pragma omp parallel private(x)\n{\n#pragma omp for private(y)\nfor (uint64_t i = 0; i < 8; i++) { y = i; A[i] = y; }\n#pragma omp for firstprivate(y) reduction(max: x)\nfor (uint64_t i = 0; i < 8; i++) { A[i] = y; } } }\n",
            13,
            6,
            48,
        ),
        (
            "uint64_t A[8]; void kernel(void) { uint64_t x = 1; A[0] = x;\n#pragma omp parallel private(x)\n{\n#pragma omp for\nfor (uint64_t i = 0; i < 8; i++) { x = i; A[i] = x; }\n#pragma omp for lastprivate(conditional: x)\nfor (uint64_t i = 0; i < 8; i++) { x = i; } } }\n",
            13,
            6,
            42,
        ),
        (
            "uint64_t A[8]; void kernel(void) { uint64_t x = 1; A[0] = x;\n#pragma omp parallel private(x)\n{\n#pragma omp for\nfor (uint64_t i = 0; i < 8; i++) { x = i; A[i] = x; } }\n#pragma omp parallel\n{\n#pragma omp for private(x)\nfor (uint64_t i = 0; i < 8; i++) { x = i; A[i] = x; } } }\n",
            0,
            0,
            0,
        ),
        (
            "uint64_t A[8]; uint64_t s; void kernel(void) { uint64_t x = 1; A[0] = x;\n#pragma omp parallel default(none) private(x) shared(A)\n{\n#pragma omp for reduction(+: s) private(x)\nfor (uint64_t i = 0; i < 8; i++) { s += i; } } }\n",
            13,
            4,
            30,
        ),
        (
            "uint64_t A[8]; uint64_t s; void kernel(void) { uint64_t x = 1; A[0] = x;\n#pragma omp parallel default(none) private(x) shared(A)\n{\n#pragma omp for private(x) reduction(+: s)\nfor (uint64_t i = 0; i < 8; i++) { s += i; } } }\n",
            13,
            4,
            25,
        ),
        (
            "uint64_t A[8]; void kernel(void) { uint64_t x = 1; uint64_t y = 1; A[0] = x + y;\n#pragma omp parallel private(x)\n{\n#pragma omp for private(x, y, y)\nfor (uint64_t i = 0; i < 8; i++) { y = i; A[i] = y; } } }\n",
            13,
            4,
            25,
        ),
        (
            "uint64_t A[8]; void kernel(void) { uint64_t x = 1; uint64_t y = 1; A[0] = x + y;\n#pragma omp parallel private(x)\n{\n#pragma omp for private(x, w)\nfor (uint64_t i = 0; i < 8; i++) { y = i; A[i] = y; } } }\n",
            13,
            4,
            25,
        ),
        (
            "uint64_t A[8]; void kernel(void) { uint64_t x = 1; uint64_t y = 1; A[0] = x + y;\n#pragma omp parallel private(x)\n{\n#pragma omp for private(w, x)\nfor (uint64_t i = 0; i < 8; i++) { y = i; A[i] = y; } } }\n",
            3,
            4,
            25,
        ),
        (
            "uint64_t A[8]; void kernel(void) { uint64_t x = 1; uint64_t y = 1; A[0] = x + y;\n#pragma omp parallel private(x)\n{\n#pragma omp for private(y, x, y)\nfor (uint64_t i = 0; i < 8; i++) { y = i; A[i] = y; } } }\n",
            13,
            4,
            28,
        ),
    ];
    no_other(&rt, other_told(rt.alloc(), ROWS));
}
