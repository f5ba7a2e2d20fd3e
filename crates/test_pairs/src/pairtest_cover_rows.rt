use ktree::{Place, VarId};
use pairtest::{Access, Mode, Nest, Subscript};
use pairtest_cover::{
    are_ordered, counters_are_ordered, covered_pairs_lie_apart, sinks_lead_there,
};
use std::alloc::{AllocError, Global};
use std::process::Abort;

/// A subscript: its constant and its coefficients, of one serial loop first.
type Form = (i64, &'static [i64]);

/// Two accesses by their subscripts, in a nest of so many loops of 100 turns inside one serial loop, with one loop in the
/// body, and the distances of the nest's sinks.
#[derive(Clone, Copy)]
struct Pair {
    loops: usize,
    x: &'static [Form],
    y: &'static [Form],
    sinks: &'static [&'static [i64]],
}

/// A nest of so many loops.
fn nest_of(alloc: Global, loops: usize) -> Result<Nest, AllocError> {
    let serial = Vec::from_elem(alloc, 100u64, 1)?;
    let loops = Vec::from_elem(alloc, 100u64, loops)?;
    Ok(Nest { serial, loops })
}

/// One subscript.
fn subscript(alloc: Global, form: Form) -> Result<Subscript, AllocError> {
    let coefficients = Vec::from_slice(alloc, form.1)?;
    Ok(Subscript {
        constant: form.0,
        coefficients,
    })
}

/// An access with these subscripts.
fn access(alloc: Global, forms: &[Form]) -> Result<Access, AllocError> {
    let mut subscripts = Vec::new(alloc);
    for form in forms {
        subscripts.push(subscript(alloc, *form)?)?;
    }
    let inner = Vec::from_elem(alloc, 100u64, 1)?;
    Ok(Access {
        array: VarId(0),
        mode: Mode::Writes,
        place: Place { line: 3, column: 5 },
        is_counted: true,
        subscripts,
        inner,
    })
}

/// The sinks with these distances.
fn sinks_of(alloc: Global, distances: &[&[i64]]) -> Result<Vec<Vec<i64>>, AllocError> {
    let mut sinks = Vec::new(alloc);
    for distance in distances {
        sinks.push(Vec::from_slice(alloc, distance)?)?;
    }
    Ok(sinks)
}

/// What is said of two accesses in the nest of a pair; None past the limit.
fn said_of(alloc: Global, x: &Access, y: &Access, pair: Pair) -> Result<Option<bool>, AllocError> {
    let nest = nest_of(alloc, pair.loops)?;
    let sinks = sinks_of(alloc, pair.sinks)?;
    Ok(are_ordered(x, y, &nest, &sinks).ok())
}

/// What is said of a pair.
fn said_of_pair(alloc: Global, pair: Pair) -> Result<Option<bool>, AllocError> {
    let x = access(alloc, pair.x)?;
    let y = access(alloc, pair.y)?;
    said_of(alloc, &x, &y, pair)
}

/// The number of the first pair of which something else is said.
fn first_other(alloc: Global, rows: &[(Pair, Option<bool>)]) -> Option<usize> {
    for (number, (pair, wanted)) in rows.iter().enumerate() {
        match said_of_pair(alloc, *pair) {
            Ok(said) => {
                if said != *wanted {
                    return Some(number);
                }
            }
            Err(_error) => return Some(number),
        }
    }
    None
}

#[test]
fn pairs_are_ordered(rt: HostRuntime) {
    const ROWS: &[(Pair, Option<bool>)] = &[
        // `A[i]` and `A[i-1]`, `A[i-2]`, `A[i+1]`, with the sink `i-1`.
        (
            Pair {
                loops: 1,
                x: &[(0, &[0, 1])],
                y: &[(-1, &[0, 1])],
                sinks: &[&[1]],
            },
            Some(true),
        ),
        (
            Pair {
                loops: 1,
                x: &[(0, &[0, 1])],
                y: &[(-2, &[0, 1])],
                sinks: &[&[1]],
            },
            Some(true),
        ),
        (
            Pair {
                loops: 1,
                x: &[(0, &[0, 1])],
                y: &[(1, &[0, 1])],
                sinks: &[&[1]],
            },
            Some(true),
        ),
        // `A[i]` and `A[i-1]` with the sink `i-2`, and with none.
        (
            Pair {
                loops: 1,
                x: &[(0, &[0, 1])],
                y: &[(-1, &[0, 1])],
                sinks: &[&[2]],
            },
            Some(false),
        ),
        (
            Pair {
                loops: 1,
                x: &[(0, &[0, 1])],
                y: &[(-1, &[0, 1])],
                sinks: &[],
            },
            Some(false),
        ),
        // `A[2*i]` and `A[2*i+1]`, with no sink.
        (
            Pair {
                loops: 1,
                x: &[(0, &[0, 2])],
                y: &[(1, &[0, 2])],
                sinks: &[],
            },
            Some(true),
        ),
        // `A[2*i]` and `A[2*i-4]` with the sink `i-2`.
        (
            Pair {
                loops: 1,
                x: &[(0, &[0, 2])],
                y: &[(-4, &[0, 2])],
                sinks: &[&[2]],
            },
            Some(true),
        ),
        // `A[i][j]` and `A[i-1][j-1]` with the sinks `i-1, j` and `i, j-1`, and with `i-1, j-1`.
        (
            Pair {
                loops: 2,
                x: &[(0, &[0, 1]), (0, &[0, 0, 1])],
                y: &[(-1, &[0, 1]), (-1, &[0, 0, 1])],
                sinks: &[&[1, 0], &[0, 1]],
            },
            Some(false),
        ),
        (
            Pair {
                loops: 2,
                x: &[(0, &[0, 1]), (0, &[0, 0, 1])],
                y: &[(-1, &[0, 1]), (-1, &[0, 0, 1])],
                sinks: &[&[0, 1], &[1, 1]],
            },
            Some(true),
        ),
        // `A[i][j]` and `A[i-2][j+2]` with the sink `i-1, j+1`.
        (
            Pair {
                loops: 2,
                x: &[(0, &[0, 1]), (0, &[0, 0, 1])],
                y: &[(-2, &[0, 1]), (2, &[0, 0, 1])],
                sinks: &[&[1, -1]],
            },
            Some(true),
        ),
        // `A[i]` and `A[i-1]` in two loops with the sink `i-1, j`: no dimension has j.
        (
            Pair {
                loops: 2,
                x: &[(0, &[0, 1])],
                y: &[(-1, &[0, 1])],
                sinks: &[&[1, 0]],
            },
            Some(false),
        ),
        // `A[i][j]` and `A[i+j-1][j]` with the sink `i-1, j`: different coefficients.
        (
            Pair {
                loops: 2,
                x: &[(0, &[0, 1]), (0, &[0, 0, 1])],
                y: &[(-1, &[0, 1, 1]), (0, &[0, 0, 1])],
                sinks: &[&[1, 0]],
            },
            Some(false),
        ),
        // `A[i+j][j]` and `A[i+j-1][j]` with the sink `i-1, j`: two counters in one dimension.
        (
            Pair {
                loops: 2,
                x: &[(0, &[0, 1, 1]), (0, &[0, 0, 1])],
                y: &[(-1, &[0, 1, 1]), (0, &[0, 0, 1])],
                sinks: &[&[1, 0]],
            },
            Some(false),
        ),
        // `A[i][i]` and `A[i-1][i-2]`, `A[i-1][i-1]` with the sink `i-1`.
        (
            Pair {
                loops: 1,
                x: &[(0, &[0, 1]), (0, &[0, 1])],
                y: &[(-1, &[0, 1]), (-2, &[0, 1])],
                sinks: &[&[1]],
            },
            Some(false),
        ),
        (
            Pair {
                loops: 1,
                x: &[(0, &[0, 1]), (0, &[0, 1])],
                y: &[(-1, &[0, 1]), (-1, &[0, 1])],
                sinks: &[&[1]],
            },
            Some(true),
        ),
        // `A[s][i]` and `A[s][i-1]`, where a serial loop counts s; `A[s][i]` and `A[0][i-1]`.
        (
            Pair {
                loops: 1,
                x: &[(0, &[1]), (0, &[0, 1])],
                y: &[(0, &[1]), (-1, &[0, 1])],
                sinks: &[&[1]],
            },
            Some(true),
        ),
        (
            Pair {
                loops: 1,
                x: &[(0, &[1]), (0, &[0, 1])],
                y: &[(0, &[]), (-1, &[0, 1])],
                sinks: &[&[1]],
            },
            Some(false),
        ),
        // `A[i][k]` and `A[i-1][k]`, where a loop of the body counts k.
        (
            Pair {
                loops: 1,
                x: &[(0, &[0, 1]), (0, &[0, 0, 1])],
                y: &[(-1, &[0, 1]), (0, &[0, 0, 1])],
                sinks: &[&[1]],
            },
            Some(false),
        ),
        // A sink of a nest of more loops.
        (
            Pair {
                loops: 1,
                x: &[(0, &[0, 1])],
                y: &[(-1, &[0, 1])],
                sinks: &[&[1, 0]],
            },
            Some(false),
        ),
        // Past the limit of the equations.
        (
            Pair {
                loops: 1,
                x: &[(1 << 62, &[0, 1])],
                y: &[(-1, &[0, 1])],
                sinks: &[&[1]],
            },
            None,
        ),
    ];
    let other = first_other(rt.alloc(), ROWS);
    assert_eq!(rt; other, None);
}

#[test]
fn laws(_rt: HostRuntime) {
    covered_pairs_lie_apart();
    sinks_lead_there();
    counters_are_ordered();
}
