//! Kernels of the whole language: what they write, by teams and by one thread, and how they are refused.

ghost use Rattle.std.specs.Prelude.{◌≡◌, ◌<◌, length};

use crate::first_faults::told_of;
use crate::outcome::no_other;
use ktree::Workers;
use ompk::{Checked, Sched, check, run, seq};
use seqrun_io::Memory;
use std::alloc::{AllocError, Global};
use std::sync::Wait;
use std::thread::Threads;
use team::OpenGate;

/// What comes of a kernel without input.
#[derive(Clone, Copy)]
enum Outcome {
    /// The number of its refusal.
    Refused(u8),
    /// By the one thread, one worker and three, the same bytes.
    Written,
    /// Other bytes than are wanted, or not the same ones.
    Other,
}

use Outcome::{Other, Refused, Written};

/// Whether a team of so many workers writes these bytes from an input, where a schedule stands for `runtime`.
fn is_written_from<R: Threads + Wait + Sync>(
    rt: &R,
    alloc: Global,
    checked: &Checked,
    input: &[u8],
    count: u64,
    runtime: &Sched,
    output: &[u8],
) -> bool {
    let Some(workers) = Workers::new(count) else {
        return false;
    };
    let mut sink = Memory::new(alloc);
    run(
        rt, alloc, checked, input, workers, *runtime, &OpenGate, &mut sink,
    )
    .is_ok()
        && sink.bytes() == output
}

/// Whether it does without input.
pub(crate) fn is_written_by<R: Threads + Wait + Sync>(
    rt: &R,
    alloc: Global,
    checked: &Checked,
    count: u64,
    runtime: &Sched,
    output: &[u8],
) -> bool {
    is_written_from(rt, alloc, checked, b"", count, runtime, output)
}

/// Whether one thread writes these bytes from an input.
pub(crate) fn is_written_by_thread(
    alloc: Global,
    checked: &Checked,
    input: &[u8],
    output: &[u8],
) -> bool {
    let mut sink = Memory::new(alloc);
    seq(alloc, checked, input, &mut sink).is_ok() && sink.bytes() == output
}

/// Whether 1, 3 and 64 workers write these bytes from an input, and one thread too.
pub(crate) fn is_written_by_each<R: Threads + Wait + Sync>(
    rt: &R,
    alloc: Global,
    checked: &Checked,
    input: &[u8],
    output: &[u8],
) -> bool {
    let plain = Sched::PlainStatic;
    for count in [1, 3, 64] {
        if !is_written_from(rt, alloc, checked, input, count, &plain, output) {
            return false;
        }
    }
    is_written_by_thread(alloc, checked, input, output)
}

/// What comes of a kernel that was checked, where these bytes are wanted, or any.
fn outcome_of_checked<R: Threads + Wait + Sync>(
    rt: &R,
    alloc: Global,
    checked: &Checked,
    wanted: Option<&[u8]>,
) -> Outcome {
    let mut sink = Memory::new(alloc);
    if let Err(refusal) = seq(alloc, checked, b"", &mut sink) {
        return Refused(refusal.number());
    }
    let output = sink.bytes();
    let is_wanted = match wanted {
        Some(wanted) => output == wanted,
        None => true,
    };
    let plain = Sched::PlainStatic;
    if is_wanted
        && is_written_by(rt, alloc, checked, 1, &plain, output)
        && is_written_by(rt, alloc, checked, 3, &plain, output)
    {
        Written
    } else {
        Other
    }
}

/// What comes of the kernel of a text, where these bytes are wanted, or any.
fn outcome_of<R: Threads + Wait + Sync>(
    rt: &R,
    alloc: Global,
    text: &[u8],
    wanted: Option<&[u8]>,
) -> Outcome {
    match check(alloc, text) {
        Ok(checked) => outcome_of_checked(rt, alloc, &checked, wanted),
        Err(refusal) => Refused(refusal.number()),
    }
}

/// The text of a kernel of this body, over a scalar and an array.
fn kernel(alloc: Global, body: &str) -> Result<String, AllocError> {
    format!(in alloc; "uint64_t s;\nuint64_t d[3];\nvoid kernel(void) {{\n{body}\n}}\n")
}

/// Whether that kernel writes this, behind it the variables' lines.
fn writes<R: Threads + Wait + Sync>(rt: &R, alloc: Global, body: &str, output: &str) -> bool {
    match kernel(alloc, body) {
        Ok(text) => {
            let wanted = Some(output.as_bytes());
            matches!(outcome_of(rt, alloc, text.as_bytes(), wanted), Written)
        }
        Err(_error) => false,
    }
}

/// The first body of some rows that does not write what stands beside it.
fn first_other<R: Threads + Wait + Sync>(
    rt: &R,
    alloc: Global,
    rows: &[(&'static str, &'static str)],
) -> Option<&'static str> {
    for (body, output) in rows {
        if !writes(rt, alloc, *body, *output) {
            return Some(*body);
        }
    }
    None
}

#[test]
fn expressions_have_the_values_of_c(rt: HostRuntime) {
    const ROWS: &[(&str, &str)] = &[
        ("s = 1 + 2;", "s = 3\nd = 0 0 0\n"),
        ("s = 1ull << 3;", "s = 8\nd = 0 0 0\n"),
        ("s = 0ull < 2;", "s = 1\nd = 0 0 0\n"),
        ("s = ~0ull;", "s = 18446744073709551615\nd = 0 0 0\n"),
        ("s = 10ull - 3 - 2;", "s = 5\nd = 0 0 0\n"),
        ("s = 1ull << 2 < 3;", "s = 0\nd = 0 0 0\n"),
        ("s = -s + 7ull / 2 % 2;", "s = 1\nd = 0 0 0\n"),
        ("s = 6ull & 3 ^ 5 | 8;", "s = 15\nd = 0 0 0\n"),
        ("d[1] = s ? 4 : s > 1 ? 5 : 6;", "s = 0\nd = 0 6 0\n"),
        ("s = !s && (s || 2ull);", "s = 1\nd = 0 0 0\n"),
    ];
    no_other(&rt, first_other(&rt, rt.alloc(), ROWS));
}

#[test]
fn statements_run_as_those_of_c(rt: HostRuntime) {
    const ROWS: &[(&str, &str)] = &[
        (
            "uint64_t x; if (s > 3) x = 1; else x = 2; s = x;",
            "s = 2\nd = 0 0 0\n",
        ),
        (
            "if (s == 0) if (s) s = 1; else s = 2;",
            "s = 2\nd = 0 0 0\n",
        ),
        (
            "{ uint64_t x = 3; s += x; } { uint64_t x = 4; s *= x; d[2ull] ^= s; }",
            "s = 12\nd = 0 0 12\n",
        ),
        (
            "s = 5; for (uint64_t i = 0; i < 3; i++) { d[i] = i * 2ull; } d[0] = s;",
            "s = 5\nd = 5 2 4\n",
        ),
        (
            "if (s < 1) {\n#pragma omp parallel for schedule(dynamic, 2)\nfor (uint64_t i = 0; i < 3; i++) { d[i] = d[i] + 7ull; }\ns = 9; }",
            "s = 9\nd = 7 7 7\n",
        ),
        (
            "\n#pragma omp parallel for collapse(2)\nfor (uint64_t i = 1; i < 3; i++) for (uint64_t j = 0; j < 1; j++) { d[i] = i; }",
            "s = 0\nd = 0 1 2\n",
        ),
        (
            "\n#pragma omp parallel for schedule(dynamic, 1)\nfor (uint64_t i = 0; i < 0; i++) { d[i] = i; }",
            "s = 0\nd = 0 0 0\n",
        ),
    ];
    no_other(&rt, first_other(&rt, rt.alloc(), ROWS));
}

#[test]
fn loops_run_as_those_of_c(rt: HostRuntime) {
    const ROWS: &[(&str, &str)] = &[
        (
            "for (uint64_t i = 10; i > 2; i -= 3) { s = s * 100 + i; }",
            "s = 100704\nd = 0 0 0\n",
        ),
        (
            "for (uint64_t i = 7; i != 3; i--) { s = s * 10 + i; }",
            "s = 7654\nd = 0 0 0\n",
        ),
        (
            "for (uint64_t i = 0; i <= 4; i = 2 + i) { s = s * 10 + i; }",
            "s = 24\nd = 0 0 0\n",
        ),
        (
            "for (uint64_t i = 0; i < 3; i++) { for (uint64_t j = i; j < 3; j++) { d[j] += i + 1; } }",
            "s = 0\nd = 1 3 6\n",
        ),
        (
            "for (uint64_t i = 1; i < 3; ++i) { for (uint64_t j = 0; j < i - 1; j++) { d[i - j] = 5 + j; } }",
            "s = 0\nd = 0 0 5\n",
        ),
        (
            "for (uint64_t i = 0; i < 0; i++) { d[i + 7] = 1; }",
            "s = 0\nd = 0 0 0\n",
        ),
        (
            "uint64_t x = 3; for (uint64_t t = 0; t < 3; t++) { for (uint64_t i = 0; i < 3; i++) { d[i] = d[i] + t; } x *= 2; } s = x;",
            "s = 24\nd = 3 3 3\n",
        ),
    ];
    no_other(&rt, first_other(&rt, rt.alloc(), ROWS));
}

#[test]
fn parallel_regions_run_as_those_of_c(rt: HostRuntime) {
    const ROWS: &[(&str, &str)] = &[
        (
            "\n#pragma omp parallel\n{\n#pragma omp for schedule(guided, 2)\nfor (uint64_t i = 0; i < 3; i++) { d[i] = i; }\n#pragma omp for nowait\nfor (uint64_t i = 0; i < 3; i++) { d[i] = d[i] * 10 + i; }\n}",
            "s = 0\nd = 0 11 22\n",
        ),
        (
            "uint64_t x;\nfor (uint64_t t = 0; t < 3; t++) {\n#pragma omp parallel default(none) shared(d, t, x)\n{\n#pragma omp for private(x) schedule(dynamic)\nfor (uint64_t i = 0; i < 3; i++) { x = t + i; d[i] += x; }\n} }\ns = d[2];",
            "s = 9\nd = 3 6 9\n",
        ),
    ];
    no_other(&rt, first_other(&rt, rt.alloc(), ROWS));
}

#[test]
fn private_scalars_of_regions_run_as_those_of_c(rt: HostRuntime) {
    const ROWS: &[(&str, &str)] = &[
        (
            "uint64_t x;\n#pragma omp parallel private(x)\n{\n#pragma omp for\nfor (uint64_t i = 0; i < 3; i++) { x = i + 1; d[i] = x; }\n#pragma omp for schedule(dynamic)\nfor (uint64_t i = 0; i < 3; i++) { x = d[i] * 2; d[i] = x + 1; }\n}",
            "s = 0\nd = 3 5 7\n",
        ),
        (
            "uint64_t f = 4;\n#pragma omp parallel firstprivate(f)\n{\n#pragma omp for\nfor (uint64_t i = 0; i < 3; i++) { d[i] = f; }\n#pragma omp for\nfor (uint64_t i = 0; i < 3; i++) { d[i] += f; }\n}\ns = f;",
            "s = 4\nd = 8 8 8\n",
        ),
        (
            "uint64_t x;\nfor (uint64_t t = 0; t < 3; t++) {\n#pragma omp parallel private(x) firstprivate(t)\n{\n#pragma omp for schedule(dynamic)\nfor (uint64_t i = 0; i < 3; i++) { x = t + i; d[i] += x; }\n#pragma omp for nowait\nfor (uint64_t i = 0; i < 3; i++) { x = d[i]; d[i] = x * 2; }\n} }",
            "s = 0\nd = 8 22 36\n",
        ),
        (
            "uint64_t x; uint64_t y;\n#pragma omp parallel default(none) shared(d, y) private(x)\n{\n#pragma omp for private(y)\nfor (uint64_t i = 0; i < 3; i++) { y = i; x = y; d[i] = x; }\n#pragma omp for schedule(guided)\nfor (uint64_t i = 0; i < 3; i++) { x = d[i]; d[i] = x + 1; }\n}",
            "s = 0\nd = 1 2 3\n",
        ),
    ];
    no_other(&rt, first_other(&rt, rt.alloc(), ROWS));
}

#[test]
fn private_scalars_run_as_those_of_c(rt: HostRuntime) {
    const ROWS: &[(&str, &str)] = &[
        (
            "uint64_t x;\n#pragma omp parallel for private(x)\nfor (uint64_t i = 0; i < 3; i++) { x = i * 2ull; d[i] = x + 1ull; }",
            "s = 0\nd = 1 3 5\n",
        ),
        (
            "uint64_t x = 7; s = x;\n#pragma omp parallel for schedule(dynamic, 1) private(x)\nfor (uint64_t i = 0; i < 3; i++) { if (i < 1) x = 4; else x = i; d[i] = x; }\nx = 9; s = s * 10 + x;",
            "s = 79\nd = 4 1 2\n",
        ),
        (
            "uint64_t f = 4;\n#pragma omp parallel for firstprivate(f)\nfor (uint64_t i = 0; i < 3; i++) { d[i] = f; }\ns = f;",
            "s = 4\nd = 4 4 4\n",
        ),
        (
            "uint64_t x;\nfor (uint64_t t = 0; t < 3; t++) {\n#pragma omp parallel for private(x), firstprivate(t)\nfor (uint64_t i = 0; i < 3; i++) { x = t + i; d[i] += x; } }",
            "s = 0\nd = 3 6 9\n",
        ),
        (
            "uint64_t x; uint64_t y;\n#pragma omp parallel for default(none) shared(d) private(x, y) schedule(guided)\nfor (uint64_t i = 0; i < 3; i++) { x = i; for (uint64_t j = 0; j < 2; j++) { y = x + j; x = y; } d[i] = x; }",
            "s = 0\nd = 1 2 3\n",
        ),
        (
            "uint64_t x;\n#pragma omp parallel for private(x)\nfor (uint64_t i = 0; i < 0; i++) { x = i; d[i] = x; }",
            "s = 0\nd = 0 0 0\n",
        ),
    ];
    no_other(&rt, first_other(&rt, rt.alloc(), ROWS));
}

/// The number of the refusal of the kernel of a body, or 0; 23 too where there is no memory for its text.
fn number_of(alloc: Global, body: &str) -> u8 {
    match kernel(alloc, body) {
        Ok(text) => told_of(alloc, text.as_bytes()).0,
        Err(_error) => 23,
    }
}

/// The first body of some rows that is not refused by the number beside it.
fn first_other_number(alloc: Global, rows: &[(&'static str, u8)]) -> Option<&'static str> {
    for (body, number) in rows {
        if number_of(alloc, *body) != *number {
            return Some(*body);
        }
    }
    None
}

/// So many loops, one in the other, round an assignment.
fn nest_of(alloc: Global, depth: u32) -> Result<String, AllocError> {
    let mut body = String::new(alloc);
    for at in 0..depth {
        write!(body, "for (uint64_t x{at} = 0; x{at} < 1; x{at}++) {{ ")?;
    }
    body.push_str("s = 1;")?;
    for _at in 0..depth {
        body.push_str(" }")?;
    }
    Ok(body)
}

/// The number of the refusal of the kernel of so many loops, or 0.
fn number_of_nest(alloc: Global, depth: u32) -> u8 {
    match nest_of(alloc, depth) {
        Ok(body) => number_of(alloc, body.as_str()),
        Err(_error) => 23,
    }
}

/// The first depth up to eight that is refused.
fn first_refused_depth(alloc: Global) -> Option<u32> {
    for depth in 1..9 {
        if number_of_nest(alloc, depth) != 0 {
            return Some(depth);
        }
    }
    None
}

#[test]
fn loops_are_refused(rt: HostRuntime) {
    const ROWS: &[(&str, u8)] = &[
        ("for (uint64_t i = 0; i; i++) { s = i; }", 6),
        ("for (uint64_t i = 0; i < 3; i += 0) { s = i; }", 6),
        ("for (uint64_t i = 0; i > 3; i++) { s = i; }", 6),
        ("for (uint64_t i = 9; i != 3; i -= 2) { s = i; }", 6),
        ("for (uint64_t i = 0; i < 3; i++) { i = 2; }", 6),
        ("for (uint64_t i = i; i < 3; i++) { s = i; }", 6),
        ("for (uint64_t i = 9; i >= 0; i--) { s = i; }", 7),
        ("for (uint64_t i = 6; i > 0; i -= 2) { s = i; }", 7),
        ("for (uint64_t i = 10; i > 1; i -= 3) { s = i; }", 7),
        ("for (uint64_t i = 3; i != 7; i--) { s = i; }", 7),
        (
            "for (uint64_t i = 0; i < 8; i++) { for (uint64_t j = 0; j < i - 1; j++) { s = j; } }",
            7,
        ),
        ("for (uint64_t i = 0; i < s; i++) { s = i; }", 8),
        ("for (uint64_t i = 0; i < 2; i++) { d[i * i] = 1; }", 8),
        ("for (uint64_t i = 0; i < 4; i++) { d[i] = i; }", 9),
        ("for (uint64_t i = 0; i < 3; i++) { s = d[i + 1]; }", 9),
        (
            "for (uint64_t i = 0; i < 3; i++) { if (i < 2) d[i + 1] = 1; }",
            9,
        ),
        ("for (uint64_t i = 0; i < 4294967297; i++) { s = i; }", 2),
        (
            "for (uint64_t i = 0; i < 4294967297ull; i++) { s = i; }",
            21,
        ),
    ];
    let heap = rt.alloc();
    no_other(&rt, first_other_number(heap, ROWS));
    assert!(rt; first_refused_depth(heap).is_none());
    assert!(rt; number_of_nest(heap, 9) == 21);
}

#[test]
fn text_is_printed_before_the_variables(rt: HostRuntime) {
    const ROWS: &[(&str, &str)] = &[
        (
            "printf(\"%\" PRIu64 \", 100%%\\n\", s + 7);",
            "7, 100%\ns = 0\nd = 0 0 0\n",
        ),
        (
            "printf(\"\\\"a\\\\\\n\"); s = 4; printf(\"%\" PRIu64 \" %\" PRIu64, s, s * 2);",
            "\"a\\\n4 8s = 4\nd = 0 0 0\n",
        ),
    ];
    no_other(&rt, first_other(&rt, rt.alloc(), ROWS));
}

#[test]
fn clauses_of_regions_count_for_their_loops(rt: HostRuntime) {
    const ROWS: &[(&str, u8)] = &[
        (
            "uint64_t x;\n#pragma omp parallel private(x)\n{\n#pragma omp for\nfor (uint64_t i = 0; i < 3; i++) { x = i; d[i] = x; }\n}\ns = x;",
            10,
        ),
        (
            "uint64_t x = 1;\n#pragma omp parallel private(x)\n{\n#pragma omp for\nfor (uint64_t i = 0; i < 3; i++) { x = i; d[i] = x; }\n#pragma omp for\nfor (uint64_t i = 0; i < 3; i++) { d[i] = x; }\n}",
            10,
        ),
        (
            "uint64_t x;\n#pragma omp parallel private(x)\n{\n#pragma omp for private(x)\nfor (uint64_t i = 0; i < 3; i++) { x = i; d[i] = x; }\n}",
            13,
        ),
        (
            "uint64_t x;\n#pragma omp parallel shared(x)\n{\n#pragma omp for\nfor (uint64_t i = 0; i < 3; i++) { x = i; d[i] = x; }\n}",
            14,
        ),
        (
            "uint64_t x = 1;\n#pragma omp parallel private(x)\n{\n#pragma omp for\nfor (uint64_t i = 0; i < 3; i++) { d[i] = x; x = i; }\n}",
            15,
        ),
        (
            "uint64_t f = 4;\n#pragma omp parallel firstprivate(f)\n{\n#pragma omp for\nfor (uint64_t i = 0; i < 3; i++) { d[i] = f; }\n#pragma omp for\nfor (uint64_t i = 0; i < 3; i++) { f = i; d[i] += f; }\n}",
            15,
        ),
        (
            "\n#pragma omp parallel private(s)\n{\n#pragma omp for\nfor (uint64_t i = 0; i < 3; i++) { s = i; d[i] = s; }\n}",
            15,
        ),
        (
            "\n#pragma omp parallel private(d)\n{\n#pragma omp for\nfor (uint64_t i = 0; i < 3; i++) { d[i] = i; }\n}",
            15,
        ),
    ];
    no_other(&rt, first_other_number(rt.alloc(), ROWS));
}

#[test]
fn conditional_clauses_and_ordered_regions_are_refused(rt: HostRuntime) {
    const ROWS: &[(&str, u8)] = &[
        (
            "uint64_t x = 1;\n#pragma omp parallel for lastprivate(conditional: x)\nfor (uint64_t i = 0; i < 3; i++) { x = i; d[i] = x; }",
            15,
        ),
        (
            "\n#pragma omp parallel for ordered\nfor (uint64_t i = 0; i < 3; i++) {\n#pragma omp ordered\nd[i] = i; }",
            18,
        ),
        (
            "\n#pragma omp parallel for\nfor (uint64_t i = 0; i < 3; i++) {\n#pragma omp ordered\nprintf(\"1\"); }",
            18,
        ),
    ];
    no_other(&rt, first_other_number(rt.alloc(), ROWS));
}

#[test]
fn scans_that_are_misused_are_refused(rt: HostRuntime) {
    const ROWS: &[(&str, u8)] = &[
        (
            "\n#pragma omp parallel for reduction(inscan, +: s)\nfor (uint64_t i = 0; i < 3; i++) { d[i] = s;\n#pragma omp scan exclusive(s)\ns += d[i]; }",
            17,
        ),
        (
            "\n#pragma omp parallel for reduction(inscan, +: s) schedule(static)\nfor (uint64_t i = 0; i < 3; i++) { s += i;\n#pragma omp scan inclusive(s)\nd[i] = s; }",
            17,
        ),
        (
            "\n#pragma omp parallel for reduction(inscan, +: s) ordered\nfor (uint64_t i = 0; i < 3; i++) { s += i;\n#pragma omp scan inclusive(s)\nd[i] = s; }",
            17,
        ),
        (
            "\n#pragma omp parallel for reduction(inscan, +: s)\nfor (uint64_t i = 0; i < 3; i++) { s += i; d[i] = s; }",
            17,
        ),
        (
            "\n#pragma omp parallel for reduction(inscan, +: s)\nfor (uint64_t i = 0; i < 3; i++) { s += i;\n#pragma omp scan inclusive(s)\nd[i] = s;\n#pragma omp scan inclusive(s)\nd[i] = s; }",
            17,
        ),
        (
            "uint64_t t = 0;\n#pragma omp parallel for reduction(inscan, +: s) reduction(+: t)\nfor (uint64_t i = 0; i < 3; i++) { s += i; t += i;\n#pragma omp scan inclusive(s)\nd[i] = s; }",
            17,
        ),
        (
            "\n#pragma omp parallel for reduction(inscan, +: s)\nfor (uint64_t i = 0; i < 3; i++) {\n#pragma omp scan inclusive(s)\nd[i] = s; }",
            17,
        ),
        (
            "\n#pragma omp parallel for reduction(inscan, +: s)\nfor (uint64_t i = 0; i < 3; i++) { s += i;\n#pragma omp scan inclusive(d)\nd[i] = s; }",
            17,
        ),
        (
            "\n#pragma omp parallel for reduction(inscan, +: s)\nfor (uint64_t i = 0; i < 3; i++) { s += i;\n#pragma omp scan inclusive(s)\ns = s + 1; }",
            17,
        ),
        (
            "\n#pragma omp parallel for reduction(inscan, +: s)\nfor (uint64_t i = 0; i < 3; i++) { uint64_t x = i; s += x;\n#pragma omp scan inclusive(s)\nd[i] = x; }",
            17,
        ),
        (
            "\n#pragma omp parallel for reduction(inscan, +: s)\nfor (uint64_t i = 0; i < 3; i++) { s *= 2;\n#pragma omp scan inclusive(s)\nd[i] = s; }",
            16,
        ),
        (
            "\n#pragma omp parallel for reduction(inscan, +: s)\nfor (uint64_t i = 0; i < 3; i++) { if (i < 2) s += 1;\n#pragma omp scan inclusive(s)\nd[s] = i; }",
            8,
        ),
        ("\n#pragma omp scan inclusive(s)\ns = 1;", 17),
        (
            "\n#pragma omp parallel for\nfor (uint64_t i = 0; i < 3; i++) {\n#pragma omp scan exclusive(s)\nd[i] = 1; }",
            17,
        ),
    ];
    no_other(&rt, first_other_number(rt.alloc(), ROWS));
}

#[test]
fn bodies_are_refused(rt: HostRuntime) {
    const ROWS: &[(&str, u8)] = &[
        ("s = 2147483647 + 1;", 2),
        ("s = s / 0ull;", 2),
        ("s = t;", 3),
        ("uint64_t s;", 4),
        ("s = 1 << 3;", 5),
        ("s = 1 < 2;", 5),
        ("s = (0ull < 2) + 1ull;", 5),
        ("s = ~0;", 5),
        ("printf(\"%\" PRIu64 \"\\n\", s + 7ull);", 5),
        ("d[s] = 1;", 8),
        ("d[3] = 1;", 9),
        ("s = d[3ull];", 9),
        ("uint64_t x; if (s > 3) x = 1; s = x;", 10),
        ("uint64_t x = x;", 10),
        (
            "\n#pragma omp simd\nfor (uint64_t i = 0; i < 3; i++) { d[i] = i; }",
            11,
        ),
        (
            "\n#pragma omp parallel for schedule(dynamic, 2)\ns = 1;",
            11,
        ),
        (
            "\n#pragma omp parallel\n{\n#pragma omp for\nfor (uint64_t i = 0; i < 3; i++) { s = i; }\n}",
            14,
        ),
        (
            "\n#pragma omp parallel\n{\n#pragma omp for\nfor (uint64_t i = 0; i < 2; i++) { d[i] = d[i + 1]; }\n}",
            19,
        ),
        (
            "\n#pragma omp parallel for\nfor (uint64_t i = 0; i < 3; i++) {\n#pragma omp parallel for\nfor (uint64_t j = 0; j < 3; j++) { d[j] = i; } }",
            11,
        ),
        (
            "\n#pragma omp parallel for collapse(2)\nfor (uint64_t i = 0; i < 3; i++) { d[i] = i; }",
            12,
        ),
        (
            "uint64_t x;\n#pragma omp parallel for default(none) shared(d)\nfor (uint64_t i = 0; i < 3; i++) { x = i; d[i] = x; }",
            13,
        ),
        (
            "uint64_t x;\n#pragma omp parallel for private(x)\nfor (uint64_t i = 0; i < 3; i++) { x = i; d[i] = x; }\ns = x;",
            10,
        ),
        (
            "uint64_t x;\n#pragma omp parallel for shared(x)\nfor (uint64_t i = 0; i < 3; i++) { x = i; d[i] = x; }",
            14,
        ),
        (
            "\n#pragma omp parallel for private(s)\nfor (uint64_t i = 0; i < 3; i++) { s = i; d[i] = s; }",
            15,
        ),
        (
            "\n#pragma omp parallel for private(d)\nfor (uint64_t i = 0; i < 3; i++) { d[i] = i; }",
            15,
        ),
        (
            "\n#pragma omp parallel for firstprivate(d)\nfor (uint64_t i = 0; i < 3; i++) { uint64_t y = d[i]; }",
            15,
        ),
        (
            "uint64_t x = 1;\n#pragma omp parallel for firstprivate(x)\nfor (uint64_t i = 0; i < 3; i++) { x = i; d[i] = x; }",
            15,
        ),
        (
            "uint64_t x = 1;\n#pragma omp parallel for private(x)\nfor (uint64_t i = 0; i < 3; i++) { d[i] = x; x = i; }",
            15,
        ),
        (
            "\n#pragma omp parallel for\nfor (uint64_t i = 0; i < 16777217; i++) { d[0] = 1; }",
            21,
        ),
        (
            "\n#pragma omp parallel for schedule(dynamic, 2)\nfor (uint64_t i = 1; i < 4; i++) { d[i] = i; }",
            9,
        ),
    ];
    no_other(&rt, first_other_number(rt.alloc(), ROWS));
}

const PRINTING: &[u8] = b"// what printf writes, and which arm counts
#include <inttypes.h>
#include <stdio.h>
enum { LAST = 2, ALL = LAST + 1 };
uint64_t s; /* a scalar */
uint64_t d[ALL][2];
void kernel(void)
{
    d[LAST][1] = s ? d[0][0] : 7;
    if (s < 5 && !(d[LAST][1] == 3)) { s += d[2][1ull] * LAST; } else s = ~s;
    printf(\"s is %\" PRIu64 \", 100%%\\n\", s > 13 ? s : s + 1);
}
";

const CHOOSING: &[u8] = b"#include <stdint.h>
uint64_t a;
uint64_t b[4];
void kernel(void)
{
    uint64_t x;
    /* assigned in both branches */
    if (a == 0) x = 3; else x = b[3];
    { uint64_t y = x > 2 ? x - 1 : x; b[0] = y; b[1] ^= y << 3; }
    if (b[1] != 16) printf(\"no\\n\"); else printf(\"%\" PRIu64 \"\\n\", x);
    a = x; // the end
}
";

const TEAMED: &[u8] = b"#include <stdint.h>
uint64_t A[8];
uint64_t n;
void kernel(void)
{
    n = n ? n : 2; // a guard
    if (n > 1) {
#pragma omp parallel for schedule(dynamic, 3)
        for (uint64_t i = 0; i < 8; i++) { A[i] = A[i] + i; }
    } else A[0] = 9;
    for (uint64_t i = 0; i < 4; i++) { A[i] = A[i] * 3ull; }
    printf(\"%\" PRIu64 \"\\n\", A[7]); /* 7 */
}
";

const WORDS: &[u8] = b"#include <stdio.h>
#include <inttypes.h>
uint64_t first_word; uint64_t w2[1][2][3];
void kernel(void) {
    printf(\"\\\"%%\\\"\\n\"); /* \"quoted\" */
    w2[0][1][2] = first_word || 1ull;
    if (!w2[0][0][0]) { first_word -= 1; } else { first_word = w2[0][1][2] / 3; }
    printf(\"%\" PRIu64, w2[0][1][2] ? first_word : 0 + w2[0][0][1]);
}
";

/// Whether a text is refused, or run to the same bytes by the teams and by the one thread.
fn is_answered<R: Threads + Wait + Sync>(rt: &R, alloc: Global, text: &[u8]) -> bool {
    match outcome_of(rt, alloc, text, None) {
        Refused(number) => (1..=21).contains(&number),
        Written => true,
        Other => false,
    }
}

/// The length of the first beginning of a text that is not answered.
fn first_other_beginning<R: Threads + Wait + Sync>(
    rt: &R,
    alloc: Global,
    text: &[u8],
) -> Option<usize> {
    for length in 0..text.len() {
        if !is_answered(rt, alloc, &text[..length]) {
            return Some(length);
        }
    }
    None
}

/// The first other byte at a place of a text with which it is not answered.
fn first_other_byte<R: Threads + Wait + Sync>(
    rt: &R,
    alloc: Global,
    text: &mut [u8],
    place: usize,
) -> Option<u8>
    requires { place < length text.old }
    ensures { length text.new ≡ length text.old }
{
    let old = text[place];
    for byte in [0x00, 0x22, 0x23, 0x2f, 0xff] {
        text[place] = byte;
        if !is_answered(rt, alloc, text) {
            return Some(byte);
        }
    }
    text[place] = old;
    None
}

/// The first place of a text, and the byte there, with which it is not answered.
fn first_other_change<R: Threads + Wait + Sync>(
    rt: &R,
    alloc: Global,
    text: &mut [u8],
) -> Option<(usize, u8)> {
    for place in 0..text.len() {
        if let Some(byte) = first_other_byte(rt, alloc, text, place) {
            return Some((place, byte));
        }
    }
    None
}

/// Whether a text of some length is written and each beginning of it is answered, and each text with another byte at one place.
fn is_answered_throughout<R: Threads + Wait + Sync>(
    rt: &R,
    alloc: Global,
    text: &[u8],
) -> Result<bool, AllocError> {
    let mut changed = Vec::from_slice(alloc, text)?;
    Ok(
        200 <= text.len()
            && matches!(outcome_of(rt, alloc, text, None), Written)
            && first_other_beginning(rt, alloc, text).is_none()
            && first_other_change(rt, alloc, &mut changed).is_none(),
    )
}

#[test]
fn beginnings_and_changes_of_texts_are_answered(rt: HostRuntime) {
    let heap = rt.alloc();
    assert!(rt; is_answered_throughout(&rt, heap, PRINTING) == Ok(true));
    assert!(rt; is_answered_throughout(&rt, heap, CHOOSING) == Ok(true));
    assert!(rt; is_answered_throughout(&rt, heap, TEAMED) == Ok(true));
    assert!(rt; is_answered_throughout(&rt, heap, WORDS) == Ok(true));
}

/// A loop that is run at each of 500 turns of another: its chunks dealt to workers, and drawn by them.
const DEALT_IN_TURNS: &str =
    "uint64_t A[8];\nvoid kernel(void) {\nfor (uint64_t t = 0; t < 500; t++) {\n#pragma omp parallel for\nfor (uint64_t i = 0; i < 8; i++) A[i] = A[i] * 3 + i + t;\n}\n}\n";

const DRAWN_IN_TURNS: &str =
    "uint64_t A[8];\nvoid kernel(void) {\nfor (uint64_t t = 0; t < 500; t++) {\n#pragma omp parallel for schedule(dynamic)\nfor (uint64_t i = 0; i < 8; i++) A[i] = A[i] * 3 + i + t;\n}\n}\n";

/// What it leaves, as another program counts it.
const AFTER_TURNS: &str =
    "A = 17565125374494799434 15801887976065295570 14038650577635791706 12275413179206287842 10512175780776783978 8748938382347280114 6985700983917776250 5222463585488272386\n";

/// Whether a team of so many workers leaves that of a text.
fn turns_by<R: Threads + Wait + Sync>(rt: &R, alloc: Global, text: &str, count: u64) -> bool {
    match check(alloc, text.as_bytes()) {
        Ok(checked) => {
            let plain = Sched::PlainStatic;
            is_written_by(rt, alloc, &checked, count, &plain, AFTER_TURNS.as_bytes())
        },
        Err(_refusal) => false,
    }
}

/// The first of three numbers of workers that leave something else of it.
fn first_other_team<R: Threads + Wait + Sync>(rt: &R, alloc: Global, text: &str) -> Option<u64> {
    for count in [2, 4, 64] {
        if !turns_by(rt, alloc, text, count) {
            return Some(count);
        }
    }
    None
}

#[test]
fn a_team_runs_many_loops_one_after_another(rt: HostRuntime) {
    assert!(rt; first_other_team(&rt, rt.alloc(), DEALT_IN_TURNS).is_none());
    assert!(rt; first_other_team(&rt, rt.alloc(), DRAWN_IN_TURNS).is_none());
}
