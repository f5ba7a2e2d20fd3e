//! Directive lines of each production, and lines of which each breaks one rule.

use crate::outcome::no_other;
use ktree::{Clause, Directive, Offset, Place, Schedule, SinkElement, Written};
use pragma_clause::read;
use std::alloc::Global;

const HERE: Place = Place { line: 3, column: 1 };

/// A directive's name, and how many clauses or elements it has.
fn form(directive: &Directive<Written>) -> (&'static str, usize) {
    match directive {
        Directive::ParallelFor(clauses) => ("parallel for", clauses.len()),
        Directive::Parallel(clauses) => ("parallel", clauses.len()),
        Directive::For(clauses) => ("for", clauses.len()),
        Directive::ScanInclusive(_) => ("inclusive", 0),
        Directive::ScanExclusive(_) => ("exclusive", 0),
        Directive::Ordered => ("ordered", 0),
        Directive::DoacrossSource => ("source", 0),
        Directive::DoacrossSink(elements) => ("sink", elements.len()),
    }
}

/// The name of a line's directive and how many clauses it has, or the number of its refusal.
fn outcome(alloc: Global, line: &[u8]) -> Result<(&'static str, usize), u8> {
    match read(alloc, line, HERE) {
        Ok(directive) => Ok(form(&directive)),
        Err(refusal) => Err(refusal.number()),
    }
}

/// The first line of a table that has another outcome.
fn other_outcome<'l>(
    alloc: Global,
    rows: &[(&'l str, Result<(&'static str, usize), u8>)],
) -> Option<&'l str> {
    for (line, expected) in rows {
        if outcome(alloc, line.as_bytes()) != *expected {
            return Some(*line);
        }
    }
    None
}

#[test]
fn directives_are_told_apart(rt: HostRuntime) {
    const ROWS: &[(&str, Result<(&str, usize), u8>)] = &[
        ("#pragma omp parallel for", Ok(("parallel for", 0))),
        (
            "#pragma omp parallel default(none) shared(a)",
            Ok(("parallel", 2)),
        ),
        (
            "#pragma omp for nowait, private(a) collapse(2)",
            Ok(("for", 3)),
        ),
        ("#pragma omp scan inclusive(s)", Ok(("inclusive", 0))),
        ("#pragma omp scan exclusive ( s )", Ok(("exclusive", 0))),
        ("#pragma omp ordered", Ok(("ordered", 0))),
        ("#pragma omp ordered doacross(source:)", Ok(("source", 0))),
        (
            "\t# pragma omp ordered doacross ( sink : i-1 , j )",
            Ok(("sink", 2)),
        ),
    ];
    no_other(&rt, other_outcome(rt.alloc(), ROWS));
}

#[test]
fn other_lines_are_no_directives(rt: HostRuntime) {
    const ROWS: &[(&str, Result<(&str, usize), u8>)] = &[
        ("#pragma omp", Err(11)),
        ("#pragma omp sections", Err(11)),
        ("#pragma omp parallel, private(a)", Err(11)),
        ("#pragma omp for private(a),", Err(11)),
        ("#pragma omp for private(a),, private(b)", Err(11)),
        ("#pragma omp for private()", Err(11)),
        ("#pragma omp for private(a b)", Err(11)),
        ("#pragma omp for private(while)", Err(11)),
        ("#pragma omp for private(_a)", Err(11)),
        ("#pragma omp for reduction(-: a)", Err(11)),
        ("#pragma omp for reduction(inscan, +: a, b)", Err(11)),
        ("#pragma omp for schedule(auto, 4)", Err(11)),
        ("#pragma omp for ordered()", Err(11)),
        ("#pragma omp scan inclusive(a, b)", Err(11)),
        ("#pragma omp ordered doacross(source)", Err(11)),
        ("#pragma omp ordered doacross(sink: i - 1)", Err(11)),
        ("#pragma omp ordered doacross(sink: i-2147483648)", Err(11)),
    ];
    no_other(&rt, other_outcome(rt.alloc(), ROWS));
}

#[test]
fn clauses_stand_where_they_may(rt: HostRuntime) {
    const ROWS: &[(&str, Result<(&str, usize), u8>)] = &[
        ("#pragma omp parallel for nowait", Err(11)),
        ("#pragma omp parallel lastprivate(a)", Err(11)),
        ("#pragma omp parallel collapse(2)", Err(11)),
        ("#pragma omp for default(none)", Err(11)),
        ("#pragma omp for shared(a)", Err(11)),
        ("#pragma omp for nowait nowait", Err(11)),
        ("#pragma omp for ordered ordered(2)", Err(11)),
        ("#pragma omp for schedule(auto) schedule(runtime)", Err(11)),
        (
            "#pragma omp parallel default(shared) default(none)",
            Err(11),
        ),
        ("#pragma omp for collapse(2) collapse(2)", Err(11)),
        ("#pragma omp for private(a) private(b)", Ok(("for", 2))),
    ];
    no_other(&rt, other_outcome(rt.alloc(), ROWS));
}

#[test]
fn numbers_have_limits(rt: HostRuntime) {
    const ROWS: &[(&str, Result<(&str, usize), u8>)] = &[
        ("#pragma omp for schedule(guided, 16777216)", Ok(("for", 1))),
        ("#pragma omp for schedule(guided, 16777217)", Err(21)),
        ("#pragma omp for ordered(4)", Ok(("for", 1))),
        ("#pragma omp for ordered(5)", Err(21)),
        ("#pragma omp for collapse(18446744073709551617)", Err(21)),
        ("#pragma omp for collapse(0)", Err(11)),
        ("#pragma omp for collapse(02)", Err(11)),
        ("#pragma omp for collapse(2ull)", Err(11)),
        ("#pragma omp for collapse(5) schedule(static, 0)", Err(11)),
        ("#pragma omp for collapse(5) collapse(5)", Err(11)),
    ];
    no_other(&rt, other_outcome(rt.alloc(), ROWS));
}

/// What a schedule clause is called here, with its size or 0.
fn schedule_form(schedule: &Schedule) -> (&'static str, u64, usize) {
    match schedule {
        Schedule::Static => ("static", 0, 0),
        Schedule::StaticChunks(size) => ("static", size.get(), 0),
        Schedule::Dynamic(size) => ("dynamic", size.get(), 0),
        Schedule::Guided(size) => ("guided", size.get(), 0),
        Schedule::Auto => ("auto", 0, 0),
        Schedule::Runtime => ("runtime", 0, 0),
    }
}

/// What a clause is called here, with its number or 0, and how many names it has.
fn clause_form(clause: &Clause<Written>) -> (&'static str, u64, usize) {
    match clause {
        Clause::DefaultShared => ("default shared", 0, 0),
        Clause::DefaultNone => ("default none", 0, 0),
        Clause::Shared(names) => ("shared", 0, names.len()),
        Clause::Private(names) => ("private", 0, names.len()),
        Clause::Firstprivate(names) => ("firstprivate", 0, names.len()),
        Clause::Lastprivate(names) => ("lastprivate", 0, names.len()),
        Clause::LastConditional(names) => ("conditional", 0, names.len()),
        Clause::Reduction(operator, names) => ("reduction", *operator as u64, names.len()),
        Clause::Inscan(operator, _) => ("inscan", *operator as u64, 1),
        Clause::Schedule(schedule) => schedule_form(schedule),
        Clause::Collapse(loops) => ("collapse", loops.get(), 0),
        Clause::Ordered => ("ordered", 0, 0),
        Clause::OrderedLoops(loops) => ("ordered", loops.get(), 0),
        Clause::Nowait => ("nowait", 0, 0),
    }
}

/// What the first clause of a `for` or a `parallel` is called here; none where there is none.
fn first_clause(directive: &Directive<Written>) -> Option<(&'static str, u64, usize)> {
    match directive {
        Directive::For(clauses) => clauses.first().map(clause_form),
        Directive::Parallel(clauses) => clauses.first().map(clause_form),
        _ => None,
    }
}

/// The same of a line's directive.
fn first_clause_of(alloc: Global, line: &[u8]) -> Option<(&'static str, u64, usize)> {
    match read(alloc, line, HERE) {
        Ok(directive) => first_clause(&directive),
        Err(_refusal) => None,
    }
}

/// The first line of a table whose first clause is another.
fn other_clause<'l>(
    alloc: Global,
    rows: &[(&'l str, (&'static str, u64, usize))],
) -> Option<&'l str> {
    for (line, expected) in rows {
        if first_clause_of(alloc, line.as_bytes()) != Some(*expected) {
            return Some(*line);
        }
    }
    None
}

#[test]
fn clauses_are_told_apart(rt: HostRuntime) {
    const ROWS: &[(&str, (&str, u64, usize))] = &[
        (
            "#pragma omp parallel default(shared)",
            ("default shared", 0, 0),
        ),
        ("#pragma omp parallel default(none)", ("default none", 0, 0)),
        ("#pragma omp parallel shared(a)", ("shared", 0, 1)),
        ("#pragma omp for private(a, b)", ("private", 0, 2)),
        (
            "#pragma omp for firstprivate(a,b,c)",
            ("firstprivate", 0, 3),
        ),
        (
            "#pragma omp for lastprivate(conditional, a)",
            ("lastprivate", 0, 2),
        ),
        (
            "#pragma omp for lastprivate(conditional: a)",
            ("conditional", 0, 1),
        ),
        ("#pragma omp for reduction(+: a, b)", ("reduction", 0, 2)),
        ("#pragma omp for reduction(min: a)", ("reduction", 8, 1)),
        ("#pragma omp for reduction(inscan, &&: a)", ("inscan", 5, 1)),
        ("#pragma omp for schedule(static)", ("static", 0, 0)),
        ("#pragma omp for schedule(static, 3)", ("static", 3, 0)),
        ("#pragma omp for schedule(dynamic)", ("dynamic", 1, 0)),
        ("#pragma omp for schedule(guided, 9)", ("guided", 9, 0)),
        ("#pragma omp for schedule(auto)", ("auto", 0, 0)),
        ("#pragma omp for schedule(runtime)", ("runtime", 0, 0)),
        ("#pragma omp for collapse(4)", ("collapse", 4, 0)),
        ("#pragma omp for ordered", ("ordered", 0, 0)),
        ("#pragma omp for ordered(3)", ("ordered", 3, 0)),
        ("#pragma omp for nowait", ("nowait", 0, 0)),
    ];
    no_other(&rt, other_clause(rt.alloc(), ROWS));
}

/// Whether a name has these bytes and stands at this column of the third line.
fn stands(name: &Written, bytes: &str, column: u32) -> bool {
    name.name.as_str() == bytes && name.place == Place { line: 3, column }
}

/// Whether an element is of this name at this column, with this offset.
fn is_element(element: &SinkElement<Written>, bytes: &str, column: u32, offset: Offset) -> bool {
    stands(&element.variable, bytes, column) && element.offset == offset
}

/// Whether these are `i-1` and `jj+2`, whose names stand at these columns.
fn are_elements(elements: &[SinkElement<Written>], first: u32, second: u32) -> bool {
    match elements {
        [a, b] => {
            is_element(a, "i", first, Offset::Back(1))
                && is_element(b, "jj", second, Offset::Forward(2))
        }
        _ => false,
    }
}

/// Whether a directive is a sink of them.
fn is_sink_of_them(directive: &Directive<Written>, first: u32, second: u32) -> bool {
    match directive {
        Directive::DoacrossSink(elements) => are_elements(elements, first, second),
        _ => false,
    }
}

/// Whether a line is a sink of `i-1` and `jj+2`, whose names stand at these columns.
fn is_sink(alloc: Global, line: &[u8], place: Place, first: u32, second: u32) -> bool {
    match read(alloc, line, place) {
        Ok(directive) => is_sink_of_them(&directive, first, second),
        Err(_refusal) => false,
    }
}

#[test]
fn names_have_places(rt: HostRuntime) {
    let plain = b"#pragma omp ordered doacross(sink: i-1, jj+2ull)";
    assert!(rt; is_sink(rt.alloc(), plain, HERE, 36, 41));
    let indented = b"\t #pragma omp ordered doacross(sink: i-1, jj+2ull)";
    let third = Place { line: 3, column: 3 };
    assert!(rt; is_sink(rt.alloc(), indented, third, 38, 43));
}
