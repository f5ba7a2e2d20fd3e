//! What is said of two accesses in a nest.

use ktree::{Place, VarId};
use pairtest::*;
use std::alloc::{AllocError, Global};
use std::process::Abort;

/// A subscript: its constant and its coefficients.
type Form<'a> = (i64, &'a [i64]);

/// Two accesses with one subscript each: how often the loops round them turn, those of the body too, and the subscripts.
#[derive(Clone, Copy)]
struct Pair<'a> {
    serial: &'a [u64],
    loops: &'a [u64],
    inner: &'a [u64],
    x: Form<'a>,
    y: Form<'a>,
}

/// A nest of these loops.
fn nest(alloc: Global, serial: &[u64], loops: &[u64]) -> Result<Nest, AllocError> {
    let serial = Vec::from_slice(alloc, serial)?;
    let loops = Vec::from_slice(alloc, loops)?;
    Ok(Nest { serial, loops })
}

/// One subscript.
fn subscripts(alloc: Global, form: Form<'_>) -> Result<Vec<Subscript>, AllocError> {
    let (constant, coefficients) = form;
    let coefficients = Vec::from_slice(alloc, coefficients)?;
    Ok(vec![in alloc;
        Subscript {
            constant,
            coefficients
        },
    ]?)
}

/// An access with one subscript.
fn access(alloc: Global, form: Form<'_>, inner: &[u64]) -> Result<Access, AllocError> {
    let subscripts = subscripts(alloc, form)?;
    let inner = Vec::from_slice(alloc, inner)?;
    Ok(Access {
        array: VarId(0),
        mode: Mode::Writes,
        place: Place { line: 3, column: 5 },
        is_counted: true,
        subscripts,
        inner,
    })
}

/// What is said of an access and the second one of a pair in a nest; None past the limit.
fn said_of_first(
    alloc: Global,
    nest: &Nest,
    x: &Access,
    pair: Pair<'_>,
) -> Result<Option<bool>, AllocError> {
    let y = access(alloc, pair.y, pair.inner)?;
    Ok(independent(x, &y, nest).ok())
}

/// What is said of the two accesses of a pair there.
fn said_in(alloc: Global, nest: &Nest, pair: Pair<'_>) -> Result<Option<bool>, AllocError> {
    let x = access(alloc, pair.x, pair.inner)?;
    said_of_first(alloc, nest, &x, pair)
}

/// What is said of them in their own nest.
fn said_of_pair(alloc: Global, pair: Pair<'_>) -> Result<Option<bool>, AllocError> {
    let nest = nest(alloc, pair.serial, pair.loops)?;
    said_in(alloc, &nest, pair)
}

/// Whether this is said of them.
fn is_said(alloc: Global, pair: Pair<'_>, wanted: Option<bool>) -> bool {
    match said_of_pair(alloc, pair) {
        Ok(said) => said == wanted,
        Err(_error) => false,
    }
}

/// How often a loop turns, the factors and the constants of two subscripts in it, and what is said of them; None past the limit.
type Row = (u64, (i64, i64), (i64, i64), Option<bool>);

/// Whether that is said of `x.0 * i + x.1` and `y.0 * i + y.1` in a loop of so many turns.
fn holds(alloc: Global, row: Row) -> bool {
    let (turns, x, y, wanted) = row;
    let pair = Pair {
        serial: &[],
        loops: &[turns],
        inner: &[],
        x: (x.1, &[x.0]),
        y: (y.1, &[y.0]),
    };
    is_said(alloc, pair, wanted)
}

/// The number of the first row, from 0, of which something else is said.
fn first_other(alloc: Global, rows: &[Row]) -> Option<usize> {
    for (number, row) in rows.iter().enumerate() {
        if !holds(alloc, *row) {
            return Some(number);
        }
    }
    None
}

/// Ends a test where there is a row of which something else is said, and gives its number.
fn no_other(rt: &impl Abort, other: Option<usize>) {
    assert_eq!(rt; other, None);
}

#[test]
fn pairs_in_one_loop(rt: HostRuntime) {
    const ROWS: &[Row] = &[
        // One loop.
        (8, (2, 0), (2, 1), Some(true)),
        (7, (1, 1), (1, 0), Some(false)),
        (4, (3, 0), (3, 6), Some(false)),
        (2, (3, 0), (3, 6), Some(true)),
        (16, (1, 0), (-1, 15), Some(false)),
        (8, (1, 0), (-1, 15), Some(false)),
        (200, (1, 100), (1, 0), Some(false)),
        // Few turns.
        (2, (0, 0), (0, 0), Some(false)),
        (1, (0, 0), (0, 0), Some(true)),
        (0, (0, 0), (0, 0), Some(true)),
        // Limits.
        (9, (GREATEST, 0), (GREATEST, 0), Some(true)),
        (9, (GREATEST, 0), (-1, 0), None),
        (9, (0, GREATEST), (0, -1), None),
        (u64::MAX, (1, 0), (1, -GREATEST), None),
    ];
    no_other(&rt, first_other(rt.alloc(), ROWS));
}

const GREATEST: i64 = 1 << 62;

/// Whether this is said of a form with itself, where these loops are round it.
fn is_said_of_itself(
    alloc: Global,
    serial: &[u64],
    loops: &[u64],
    inner: &[u64],
    coefficients: &[i64],
    wanted: bool,
) -> bool {
    let form = (0, coefficients);
    let pair = Pair {
        serial,
        loops,
        inner,
        x: form,
        y: form,
    };
    is_said(alloc, pair, Some(wanted))
}

/// `4 * i + j` in two loops.
#[test]
fn two_loops(rt: HostRuntime) {
    let alloc = rt.alloc();
    assert!(rt; is_said_of_itself(alloc, &[], &[3, 4], &[], &[4, 1], true));
    assert!(rt; is_said_of_itself(alloc, &[], &[3, 5], &[], &[4, 1], false));
}

/// `8 * i + j`, where a loop of the body counts j.
#[test]
fn loops_of_the_body(rt: HostRuntime) {
    let alloc = rt.alloc();
    assert!(rt; is_said_of_itself(alloc, &[], &[6], &[8], &[8, 1], true));
    assert!(rt; is_said_of_itself(alloc, &[], &[6], &[9], &[8, 1], false));
}

/// `s + i` and `s`, where a serial loop counts s.
#[test]
fn serial_loops(rt: HostRuntime) {
    let alloc = rt.alloc();
    assert!(rt; is_said_of_itself(alloc, &[5], &[6], &[], &[1, 1], true));
    assert!(rt; is_said_of_itself(alloc, &[5], &[6], &[], &[1, 0], false));
}

#[test]
fn laws(_rt: HostRuntime) {
    refuted_equations_have_no_solution();
    refuted_pairs_do_not_meet();
    one_loop_is_exact();
}
