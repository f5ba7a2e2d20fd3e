//! Lines that are read and lines that are refused, and where they stand in kernels.

use crate::outcome::no_other;
use cparse::parse;
use ktree::{AssociatedLoops, ChunkSize, Kernel, Place, Refusal, Schedule};
use pragma::{Directives, Fault, ParallelFor, first_fault};
use std::alloc::Global;
use std::process::Abort;

/// A place at the front of the line of this number.
fn at(line: u32) -> Place {
    Place { line, column: 1 }
}

/// What the line of a number says in a text, or the number of its refusal; none for want of memory.
fn line_outcome(alloc: Global, text: &[u8], line: u32) -> Option<Result<ParallelFor, u8>> {
    match Directives::read(alloc, text) {
        Ok(directives) => Some(outcome_at(&directives, line)),
        Err(_) => None,
    }
}

/// What the line of a number says, or the number of its refusal.
fn outcome_at(directives: &Directives, line: u32) -> Result<ParallelFor, u8> {
    match directives.at(at(line)) {
        Ok(read) => Ok(read),
        Err(refusal) => Err(refusal.number()),
    }
}

/// The size and the loops that a line gives, 0 where none stand.
fn numbers(read: ParallelFor) -> (u64, u64) {
    let size = match &read.schedule {
        Some(Schedule::StaticChunks(size)) => size.get(),
        Some(Schedule::Dynamic(size)) => size.get(),
        Some(Schedule::Guided(size)) => size.get(),
        _ => 0,
    };
    let loops = match read.collapse {
        Some(collapse) => collapse.get(),
        None => 0,
    };
    (size, loops)
}

/// The size and the loops that the first line gives, 0 where none stand, or the number of its refusal.
fn first_numbers(directives: &Directives) -> Result<(u64, u64), u8> {
    match directives.at(at(1)) {
        Ok(read) => Ok(numbers(read)),
        Err(refusal) => Err(refusal.number()),
    }
}

/// Those of a line; none for want of memory.
fn loop_outcome(alloc: Global, line: &[u8]) -> Option<Result<(u64, u64), u8>> {
    match Directives::read(alloc, line) {
        Ok(directives) => Some(first_numbers(&directives)),
        Err(_) => None,
    }
}

/// The first line of a table that has another outcome.
fn other_outcome<'l>(alloc: Global, rows: &[(&'l str, Result<(u64, u64), u8>)]) -> Option<&'l str> {
    for (line, outcome) in rows {
        if loop_outcome(alloc, line.as_bytes()) != Some(*outcome) {
            return Some(*line);
        }
    }
    None
}

#[test]
fn clauses_stand_in_any_order(rt: HostRuntime) {
    const ROWS: &[(&str, Result<(u64, u64), u8>)] = &[
        ("#pragma omp parallel for", Ok((0, 0))),
        ("#pragma omp parallel for schedule(dynamic)", Ok((1, 0))),
        ("#pragma omp parallel for collapse(4)", Ok((0, 4))),
        (
            "#pragma omp parallel for schedule(dynamic, 8) collapse(2)",
            Ok((8, 2)),
        ),
        (
            " # pragma omp\tparallel for collapse ( 3 ),schedule(dynamic ,16777216)",
            Ok((16777216, 3)),
        ),
        ("#pragma omp for collapse(2)", Ok((0, 2))),
        (
            "#pragma omp for schedule(dynamic, 3) nowait private(x)",
            Ok((3, 0)),
        ),
        (
            "#pragma omp parallel for lastprivate(x) reduction(+: s, t) collapse(2) reduction(min: u)",
            Ok((0, 2)),
        ),
        ("#pragma omp for reduction(inscan, +: s)", Ok((0, 0))),
        ("#pragma omp for lastprivate(conditional: s)", Err(11)),
        (
            "#pragma omp parallel for ordered schedule(dynamic, 2)",
            Ok((2, 0)),
        ),
        ("#pragma omp parallel for ordered(1)", Ok((0, 1))),
        (
            "#pragma omp for ordered(3) schedule(dynamic, 2)",
            Ok((2, 3)),
        ),
        (
            "#pragma omp parallel for collapse(2) ordered(3)",
            Ok((0, 3)),
        ),
        (
            "#pragma omp parallel for collapse(4) ordered(3)",
            Ok((0, 4)),
        ),
        (
            "#pragma omp parallel for ordered(2) collapse(2)",
            Ok((0, 2)),
        ),
    ];
    no_other(&rt, other_outcome(rt.alloc(), ROWS));
}

#[test]
fn each_clause_stands_once(rt: HostRuntime) {
    const ROWS: &[(&str, Result<(u64, u64), u8>)] = &[
        ("#pragma omp parallel for collapse(2) collapse(2)", Err(11)),
        ("#pragma omp parallel for ordered(2) ordered(2)", Err(11)),
        ("#pragma omp parallel for ordered ordered(2)", Err(11)),
        (
            "#pragma omp parallel for schedule(dynamic) collapse(2) schedule(dynamic)",
            Err(11),
        ),
        ("#pragma omp parallel for, collapse(2)", Err(11)),
        ("#pragma omp parallel for collapse(2),", Err(11)),
        (
            "#pragma omp parallel for schedule(dynamic),, collapse(2)",
            Err(11),
        ),
        ("#pragma omp parallel for nowait", Err(11)),
        ("#pragma omp for nowait, nowait", Err(11)),
        ("#pragma omp for default(shared)", Err(11)),
        ("#pragma omp parallel", Err(11)),
    ];
    no_other(&rt, other_outcome(rt.alloc(), ROWS));
}

#[test]
fn numbers_of_clauses_have_limits(rt: HostRuntime) {
    const ROWS: &[(&str, Result<(u64, u64), u8>)] = &[
        ("#pragma omp parallel for collapse(5)", Err(21)),
        ("#pragma omp parallel for collapse(0)", Err(11)),
        (
            "#pragma omp parallel for schedule(dynamic, 16777217), collapse(2)",
            Err(21),
        ),
        (
            "#pragma omp parallel for collapse(18446744073709551617) schedule(dynamic, 2)",
            Err(21),
        ),
        (
            "#pragma omp parallel for collapse(5) schedule(dynamic, 0)",
            Err(11),
        ),
        (
            "#pragma omp parallel for collapse(5) schedule(dynamic",
            Err(11),
        ),
        ("#pragma omp parallel for collapse(02)", Err(11)),
    ];
    no_other(&rt, other_outcome(rt.alloc(), ROWS));
}

#[test]
fn sizes_are_literals_of_c(rt: HostRuntime) {
    const ROWS: &[(&str, Result<(u64, u64), u8>)] = &[
        ("#pragma omp parallel for schedule(dynamic, 0)", Err(11)),
        ("#pragma omp parallel for schedule(dynamic, 03)", Err(11)),
        ("#pragma omp parallel for schedule(dynamic, 3ull)", Err(11)),
        ("#pragma omp parallel for schedule(dynamic, 3) x", Err(11)),
        ("#pragma omp", Err(11)),
        ("x", Err(11)),
    ];
    no_other(&rt, other_outcome(rt.alloc(), ROWS));
}

/// The first line of a table that says something else in a text.
fn other_line(alloc: Global, text: &[u8], rows: &[(u32, Result<ParallelFor, u8>)]) -> Option<u32> {
    for (line, outcome) in rows {
        if line_outcome(alloc, text, *line) != Some(*outcome) {
            return Some(*line);
        }
    }
    None
}

/// The size of a chunk.
fn size(rt: &impl Abort, iterations: u64) -> ChunkSize {
    ChunkSize::new(iterations).expect(rt, "a size of a chunk")
}

/// What a line with this schedule says.
fn with_schedule(schedule: Schedule) -> Result<ParallelFor, u8> {
    Ok(ParallelFor {
        schedule: Some(schedule),
        collapse: None,
    })
}

#[test]
fn each_kind_of_schedule_is_read(rt: HostRuntime) {
    let text = b"#pragma omp parallel for schedule(static)
#pragma omp parallel for schedule(static, 3)
#pragma omp parallel for schedule(guided)
#pragma omp parallel for schedule(auto)
#pragma omp parallel for schedule(runtime)
#pragma omp parallel for schedule(auto) schedule(runtime)";
    let rows = [
        (1, with_schedule(Schedule::Static)),
        (2, with_schedule(Schedule::StaticChunks(size(&rt, 3)))),
        (3, with_schedule(Schedule::Guided(size(&rt, 1)))),
        (4, with_schedule(Schedule::Auto)),
        (5, with_schedule(Schedule::Runtime)),
        (6, Err(11)),
    ];
    assert_eq!(rt; other_line(rt.alloc(), text, &rows), None);
}

#[test]
fn lines_have_numbers(rt: HostRuntime) {
    let alloc = rt.alloc();
    let text =
        b"#pragma omp parallel for collapse(2)\n\n # pragma omp parallel for schedule ( dynamic , 16777216 )\n#pragma omp parallel for schedule(dynamic, 16777217)";
    let joined = ParallelFor {
        schedule: None,
        collapse: AssociatedLoops::new(2),
    };
    let sized = ParallelFor {
        schedule: Some(Schedule::Dynamic(size(&rt, 16777216))),
        collapse: None,
    };
    let rows = [
        (1, Ok(joined)),
        (2, Err(11)),
        (3, Ok(sized)),
        (4, Err(21)),
        (5, Err(11)),
    ];
    assert_eq!(rt; other_line(alloc, text, &rows), None);
}

/// The first fault of a kernel whose directive lines stand in this text; none for want of memory.
fn fault_among(alloc: Global, kernel: &Kernel, text: &[u8]) -> Option<Option<Fault>> {
    match Directives::read(alloc, text) {
        Ok(directives) => Some(first_fault(kernel, &directives)),
        Err(_) => None,
    }
}

/// The first fault of the directive lines of a kernel; none if the text is no kernel.
fn fault_of(alloc: Global, text: &[u8]) -> Option<Option<Fault>> {
    match parse(alloc, text) {
        Ok(kernel) => fault_among(alloc, &kernel, text),
        Err(_) => None,
    }
}

/// The first text of a table that is no kernel or has another first fault.
fn other_fault<'t>(alloc: Global, rows: &[(&'t str, Option<Fault>)]) -> Option<&'t str> {
    for (text, fault) in rows {
        if fault_of(alloc, text.as_bytes()) != Some(*fault) {
            return Some(*text);
        }
    }
    None
}

#[test]
fn a_directive_stands_before_its_loop(rt: HostRuntime) {
    const FIRST: Option<Fault> = Some(Fault::Directive(Place { line: 2, column: 1 }));
    const ROWS: &[(&str, Option<Fault>)] = &[
        (
            "uint64_t v; void kernel(void) {\n#pragma omp parallel for\nfor (uint64_t i = 0; i < 8; i++) { } }\n",
            None,
        ),
        (
            "uint64_t v; void kernel(void) {\n#pragma omp parallel for\nv = 1; }\n",
            FIRST,
        ),
        (
            "uint64_t v; void kernel(void) {\n#pragma omp parallel for\n{ } }\n",
            FIRST,
        ),
        (
            "uint64_t v; void kernel(void) {\n#pragma omp parallel for\n}\n",
            FIRST,
        ),
        (
            "uint64_t v; void kernel(void) {\n#pragma omp simd\nfor (uint64_t i = 0; i < 8; i++) { } }\n",
            FIRST,
        ),
    ];
    no_other(&rt, other_fault(rt.alloc(), ROWS));
}

#[test]
fn a_directive_stands_in_no_parallel_loop(rt: HostRuntime) {
    let rows = [
        (
            "uint64_t v; void kernel(void) {\nfor (uint64_t i = 0; i < 8; i++) {\n#pragma omp parallel for collapse(2)\nfor (uint64_t j = 0; j < 8; j++) { } } }\n",
            None,
        ),
        (
            "uint64_t v; void kernel(void) {\n#pragma omp parallel for\nfor (uint64_t i = 0; i < 8; i++) {\n#pragma omp parallel for collapse(2)\nfor (uint64_t j = 0; j < 8; j++) { } } }\n",
            Some(Fault::Directive(at(4))),
        ),
    ];
    no_other(&rt, other_fault(rt.alloc(), &rows));
}

/// The number of the refusal that tells the first fault of the directive lines of a kernel; none without a fault, or if the text is
/// no kernel.
fn number_of(alloc: Global, text: &str) -> Option<u8> {
    match fault_of(alloc, text.as_bytes()) {
        Some(Some(fault)) => Some(Refusal::from(fault).number()),
        _ => None,
    }
}

#[test]
fn the_lowest_number_is_told(rt: HostRuntime) {
    let alloc = rt.alloc();
    let before_a_loop =
        "uint64_t v; void kernel(void) {\n#pragma omp parallel for collapse(5)\nfor (uint64_t i = 0; i < 8; i++) { } }\n";
    let rows = [(before_a_loop, Some(Fault::Size(at(2))))];
    no_other(&rt, other_fault(alloc, &rows));
    assert!(rt; number_of(alloc, before_a_loop) == Some(21));
    let before_none =
        "uint64_t v; void kernel(void) {\n#pragma omp parallel for collapse(5)\nv = 1; }\n";
    assert!(rt; number_of(alloc, before_none) == Some(11));
}
