//! The first two iterations of a nest at which two accesses touch one element.

use affine::Form;
use deptest_witness::*;
use ktree::{Place, Refusal, VarId};
use nest_loop::{Bound, Canonical, Direction, Stride};
use std::alloc::Global;
use std::process::Abort;

const HERE: Place = Place { line: 2, column: 3 };

const N: VarId = VarId(2);

const I: VarId = VarId(4);

const J: VarId = VarId(7);

/// The coefficients of `i`, `j` and `n`, and the constant of a form.
type Numbers = (i64, i64, i64, i128);

/// `for (variable = start; variable < limit; variable += by)`, or with `>` and `-=`.
#[derive(Clone, Copy)]
struct Round {
    variable: VarId,
    direction: Direction,
    by: u32,
    start: i128,
    limit: Numbers,
}

/// What two accesses of a nest are asked for: the loops round the nest, those of the nest, and those of the body round the first
/// access, which are round the second one too or not.
#[derive(Clone, Copy)]
struct Question<'a> {
    serial: &'a [Round],
    nest: &'a [Round],
    inner: &'a [Round],
    x: Numbers,
    y: Numbers,
    both_inside: bool,
}

/// The earlier iteration, the later one, and the first index of the element.
type Met = Option<(u64, u64, Option<u64>)>;

/// `by * variable`.
fn multiple(alloc: Global, by: i64, variable: VarId) -> Result<Form, Refusal> {
    Form::variable(alloc, variable).scale(by, HERE)
}

/// A form and `by * variable`.
fn and_multiple(alloc: Global, form: &Form, by: i64, variable: VarId) -> Result<Form, Refusal> {
    let multiple = multiple(alloc, by, variable)?;
    form.add(&multiple, HERE)
}

/// The form of these numbers.
fn form(alloc: Global, numbers: Numbers) -> Result<Form, Refusal> {
    let (i, j, n, constant) = numbers;
    let mut form = Form::constant(alloc, constant, HERE)?;
    for (by, variable) in [(i, I), (j, J), (n, N)] {
        form = and_multiple(alloc, &form, by, variable)?;
    }
    Ok(form)
}

/// A loop.
fn canonical(alloc: Global, round: Round) -> Result<Canonical, Refusal> {
    let start = Form::constant(alloc, round.start, HERE)?;
    let limit = form(alloc, round.limit)?;
    Ok(Canonical {
        variable: round.variable,
        stride: Stride {
            direction: round.direction,
            by: round.by,
        },
        bound: Bound::Strict,
        start,
        limit,
    })
}

/// Loops, the outermost first.
fn loops_of(alloc: Global, rounds: &[Round]) -> Result<Vec<Canonical>, Refusal> {
    let mut loops = Vec::new(alloc);
    for round in rounds {
        loops.push(canonical(alloc, *round)?)?;
    }
    Ok(loops)
}

/// What a meeting is, where there is one.
fn met_at(found: &Option<Meeting>) -> Met {
    match found {
        Some(meeting) => Some((
            meeting.earlier,
            meeting.later,
            meeting.indexes.first().copied(),
        )),
        None => None,
    }
}

/// What two accesses give in these loops; None where they are refused.
fn met_by_accesses(
    alloc: Global,
    serial: &[Canonical],
    nest: &[Canonical],
    x: &Touch<'_>,
    y: &Touch<'_>,
) -> Option<Met> {
    match first_meeting(alloc, serial, nest, x, y) {
        Ok(found) => Some(met_at(&found)),
        Err(_) => None,
    }
}

/// The same, with the second access of the question.
fn met_by_first(
    alloc: Global,
    serial: &[Canonical],
    nest: &[Canonical],
    x: &Touch<'_>,
    question: Question<'_>,
) -> Option<Met> {
    let subscripts = [form(alloc, question.y).ok()?];
    let y = Touch {
        subscripts: &subscripts,
        inner: if question.both_inside { x.inner } else { &[] },
    };
    met_by_accesses(alloc, serial, nest, x, &y)
}

/// The same, with the accesses of the question.
fn met_inside(
    alloc: Global,
    serial: &[Canonical],
    nest: &[Canonical],
    inner: &[Canonical],
    question: Question<'_>,
) -> Option<Met> {
    let subscripts = [form(alloc, question.x).ok()?];
    let x = Touch {
        subscripts: &subscripts,
        inner,
    };
    met_by_first(alloc, serial, nest, &x, question)
}

/// The same, with the loops of the body.
fn met_in_nest(
    alloc: Global,
    serial: &[Canonical],
    nest: &[Canonical],
    question: Question<'_>,
) -> Option<Met> {
    let inner = loops_of(alloc, question.inner).ok()?;
    met_inside(alloc, serial, nest, inner.as_slice(), question)
}

/// The same, with the loops of the nest.
fn met_in(alloc: Global, serial: &[Canonical], question: Question<'_>) -> Option<Met> {
    let nest = loops_of(alloc, question.nest).ok()?;
    met_in_nest(alloc, serial, nest.as_slice(), question)
}

/// What the accesses of a question give; None where they are refused.
fn meeting_of(alloc: Global, question: Question<'_>) -> Option<Met> {
    let serial = loops_of(alloc, question.serial).ok()?;
    met_in(alloc, serial.as_slice(), question)
}

/// Whether they give this.
fn gives(alloc: Global, question: Question<'_>, wanted: Met) -> bool {
    meeting_of(alloc, question) == Some(wanted)
}

/// `for (variable = start; variable < limit; variable++)`.
fn rising_loop(variable: VarId, start: i128, limit: i128) -> Round {
    Round {
        variable,
        direction: Direction::Rising,
        by: 1,
        start,
        limit: (0, 0, 0, limit),
    }
}

/// Whether `A[a * i + b]` and `A[c * i + d]` give this in a loop.
fn gives_in(alloc: Global, round: Round, x: (i64, i128), y: (i64, i128), wanted: Met) -> bool {
    let question = Question {
        serial: &[],
        nest: &[round],
        inner: &[],
        x: (x.0, 0, 0, x.1),
        y: (y.0, 0, 0, y.1),
        both_inside: true,
    };
    gives(alloc, question, wanted)
}

/// The start and the limit of `i`, `a` and `b`, `c` and `d`, and what `A[a * i + b]` and `A[c * i + d]` give there.
type Row = (i128, i128, (i64, i128), (i64, i128), Met);

/// The number of the first row, from 0, whose accesses give something else.
fn first_other(alloc: Global, rows: &[Row]) -> Option<usize> {
    for (number, row) in rows.iter().enumerate() {
        let (start, limit, x, y, wanted) = *row;
        if !gives_in(alloc, rising_loop(I, start, limit), x, y, wanted) {
            return Some(number);
        }
    }
    None
}

/// Ends a test where there is a row whose accesses give something else, and gives its number.
fn no_other(rt: &impl Abort, other: Option<usize>) {
    assert_eq!(rt; other, None);
}

#[test]
fn meetings_in_one_loop(rt: HostRuntime) {
    const ROWS: &[Row] = &[
        // Shifted.
        (1, 8, (1, 0), (1, -1), Some((0, 1, Some(1)))),
        (0, 4, (3, 0), (3, 6), Some((0, 2, Some(6)))),
        (0, 4, (1, -1), (0, 0), Some((0, 1, Some(0)))),
        // Mirrored.
        (0, 16, (1, 0), (-1, 15), Some((7, 8, Some(7)))),
        (0, 8, (1, 0), (-1, 15), None),
        (0, 2, (1, 0), (-1, 1), Some((0, 1, Some(0)))),
        // Far apart.
        (0, 200, (1, 0), (1, 63), Some((0, 63, Some(63)))),
        (0, 200, (1, 0), (1, 64), None),
        (0, 200, (1, 0), (1, 100), None),
    ];
    no_other(&rt, first_other(rt.alloc(), ROWS));
}

/// `A[i]` and `A[i + 3]` where `i` is 10, 7 and 4.
#[test]
fn falling_loop(rt: HostRuntime) {
    let round = Round {
        variable: I,
        direction: Direction::Falling,
        by: 3,
        start: 10,
        limit: (0, 0, 0, 2),
    };
    let wanted = Some((0, 1, Some(10)));
    assert!(rt; gives_in(rt.alloc(), round, (1, 0), (1, 3), wanted));
}

/// `A[4 * i + j]` with itself, where `i` is below 3 and `j` below 5.
#[test]
fn two_loops(rt: HostRuntime) {
    let question = Question {
        serial: &[],
        nest: &[rising_loop(I, 0, 3), rising_loop(J, 0, 5)],
        inner: &[],
        x: (4, 1, 0, 0),
        y: (4, 1, 0, 0),
        both_inside: true,
    };
    assert!(rt; gives(rt.alloc(), question, Some((4, 5, Some(4)))));
}

/// Whether `A[j]` for `j` below `i` gives this with itself, where `i` is below 4, or with `A[0]` outside of the inner loop. At the
/// first iteration the inner loop has no turn.
fn gives_with_inner(alloc: Global, itself: bool, wanted: Met) -> bool {
    let below_i = Round {
        limit: (1, 0, 0, 0),
        ..rising_loop(J, 0, 0)
    };
    let question = Question {
        serial: &[],
        nest: &[rising_loop(I, 0, 4)],
        inner: &[below_i],
        x: (0, 1, 0, 0),
        y: if itself { (0, 1, 0, 0) } else { (0, 0, 0, 0) },
        both_inside: itself,
    };
    gives(alloc, question, wanted)
}

#[test]
fn inner_loops(rt: HostRuntime) {
    let heap = rt.alloc();
    assert!(rt; gives_with_inner(heap, true, Some((1, 2, Some(0)))));
    assert!(rt; gives_with_inner(heap, false, Some((0, 1, Some(0)))));
}

/// Whether `A[i + n]` and `A[i + n + 1]` give this, where `i` is below 4, in a loop over `n`.
fn gives_in_serial(alloc: Global, start: i128, limit: i128, wanted: Met) -> bool {
    let question = Question {
        serial: &[rising_loop(N, start, limit)],
        nest: &[rising_loop(I, 0, 4)],
        inner: &[],
        x: (1, 0, 1, 0),
        y: (1, 0, 1, 1),
        both_inside: true,
    };
    gives(alloc, question, wanted)
}

#[test]
fn serial_loops(rt: HostRuntime) {
    assert!(rt; gives_in_serial(rt.alloc(), 2, 5, Some((0, 1, Some(3)))));
    assert!(rt; gives_in_serial(rt.alloc(), 3, 3, None));
}
