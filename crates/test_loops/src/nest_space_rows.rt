//! How often loops turn, and the iterations of nests.

ghost use Rattle.std.specs.Prelude.{◌≡◌, length, IfSome};

use affine::Form;
use ktree::{Place, Refusal, VarId};
use nest_loop::{Bound, Canonical, Direction, Stride};
use nest_space::*;
use std::alloc::Global;
use std::process::Abort;

const HERE: Place = Place { line: 2, column: 3 };

const N: VarId = VarId(2);

const I: VarId = VarId(4);

const J: VarId = VarId(7);

/// A direction, a step, a bound, a start and a limit.
type Run = (Direction, u32, Bound, i128, i128);

/// `for (v = start; v op limit; v += by)`, or with `-=` where it falls.
fn head(alloc: Global, variable: VarId, run: Run) -> Result<Canonical, Refusal> {
    let (direction, by, bound, start, limit) = run;
    let start = Form::constant(alloc, start, HERE)?;
    let limit = Form::constant(alloc, limit, HERE)?;
    Ok(Canonical {
        variable,
        stride: Stride { direction, by },
        bound,
        start,
        limit,
    })
}

/// What is said of loops and of nests.
#[derive(Clone, Copy)]
enum Fact {
    /// How often a loop turns; None where it does not stay.
    Turns(Run, Option<u64>),
    /// The values of a loop's variable.
    Values(Run, &'static [u64]),
    /// The value of the variable of `for (i = n; i < 2 * n + 1; i += 3)` at a turn, where n has a value or none.
    AtTurn(Option<u64>, u64, Option<u64>),
    /// The vector of a number of `for (i = 5; i > 1; i -= 2) for (j = 0; j <= 4; j += 2)`, collapsed.
    Vector(u64, Option<[u64; 2]>),
    /// The number of the vector that lies so far before some values there.
    Before([u64; 2], &'static [i64], Option<u64>),
    /// How many vectors two loops have.
    Vectors(Run, Run, Option<u64>),
    /// How many iterations two loops have, where those that are reached stay.
    Reached(Run, Run, Option<u64>),
    /// Whether two loops rise between numbers and have a space.
    Fixed(Run, Run, bool),
}

/// How a loop runs where no variable has a value; None where it does not stay.
fn turns(alloc: Global, run: Run) -> Option<LoopTurns> {
    match head(alloc, I, run) {
        Ok(head) => turns_at(&head, &[]),
        Err(_refusal) => None,
    }
}

/// The value at a turn, where there is one.
fn at(turns: LoopTurns, turn: u64) -> Option<u64> {
    if turn < turns.count() {
        Some(turns.value(turn))
    } else {
        None
    }
}

/// Whether these are the values at some turns, one for each.
fn are_values(turns: LoopTurns, values: &[u64]) -> bool {
    for (turn, value) in values.iter().enumerate() {
        if at(turns, turn as u64) != Some(*value) {
            return false;
        }
    }
    turns.count() == values.len() as u64
}

/// `2 * n + 1`, of the form of n.
fn twice_and_one(alloc: Global, n: &Form) -> Result<Form, Refusal> {
    let twice = n.scale(2, HERE)?;
    let one = Form::constant(alloc, 1, HERE)?;
    twice.add(&one, HERE)
}

/// `for (i = n; i < 2 * n + 1; i += 3)`.
fn by_variable(alloc: Global) -> Result<Canonical, Refusal> {
    let start = Form::variable(alloc, N);
    let limit = twice_and_one(alloc, &start)?;
    Ok(Canonical {
        variable: I,
        stride: Stride {
            direction: Direction::Rising,
            by: 3,
        },
        bound: Bound::Strict,
        start,
        limit,
    })
}

/// How it runs where n has a value, or none.
fn turns_by_variable(alloc: Global, n: Option<u64>) -> Option<LoopTurns> {
    let Ok(head) = by_variable(alloc) else {
        return None;
    };
    match n {
        Some(value) => turns_at(&head, &[Value { variable: N, value }]),
        None => turns_at(&head, &[]),
    }
}

/// The heads of two loops.
fn two_heads(alloc: Global, outer: Run, inner: Run) -> Result<[Canonical; 2], Refusal> {
    let outer = head(alloc, I, outer)?;
    let inner = head(alloc, J, inner)?;
    Ok([outer, inner])
}

/// `for (i = 5; i > 1; i -= 2) for (j = 0; j <= 4; j += 2)`, collapsed.
fn collapsed_space(alloc: Global) -> Option<Space>
    ensures { IfSome result (λ ts. length ts ≡ 2) }
{
    let outer = (Direction::Falling, 2, Bound::Strict, 5, 1);
    let inner = (Direction::Rising, 2, Bound::Inclusive, 0, 4);
    match two_heads(alloc, outer, inner) {
        Ok(loops) => Space::at(alloc, &loops, &[]),
        Err(_refusal) => None,
    }
}

/// The vector of a number, where there is one.
fn vector_in(space: &Space, number: u64) -> Option<[u64; 2]>
    requires { length space.now ≡ 2 }
{
    let mut values = [0; 2];
    if number < space.count() {
        space.vector(number, &mut values);
        Some(values)
    } else {
        None
    }
}

/// That of the collapsed loops.
fn vector(alloc: Global, number: u64) -> Option<[u64; 2]> {
    match collapsed_space(alloc) {
        Some(space) => vector_in(&space, number),
        None => None,
    }
}

/// The number of the vector of the collapsed loops that lies so far before some values, where there is one.
fn number_before(alloc: Global, values: &[u64; 2], distance: &[i64]) -> Option<u64> {
    match collapsed_space(alloc) {
        Some(space) => space.number_before(values, distance),
        None => None,
    }
}

/// How many vectors two loops have.
fn vectors(alloc: Global, loops: &[Canonical; 2]) -> Option<u64> {
    Space::at(alloc, loops, &[]).map(|space| space.count())
}

/// How many iterations they have, where those that are reached stay.
fn reached(alloc: Global, loops: &[Canonical; 2]) -> Option<u64> {
    Space::reached_at(alloc, loops, &[]).map(|space| space.count())
}

/// Whether a fact of two loops holds.
fn holds_of_two(alloc: Global, outer: Run, inner: Run, fact: Fact) -> bool {
    let Ok(loops) = two_heads(alloc, outer, inner) else {
        return false;
    };
    match fact {
        Fact::Vectors(_, _, count) => vectors(alloc, &loops) == count,
        Fact::Reached(_, _, count) => reached(alloc, &loops) == count,
        Fact::Fixed(_, _, expected) => are_fixed(alloc, &loops) == expected,
        _ => false,
    }
}

/// Whether a fact of a loop holds.
fn holds_of_one(alloc: Global, run: Run, fact: Fact) -> bool {
    match (turns(alloc, run), fact) {
        (Some(turns), Fact::Values(_, values)) => are_values(turns, values),
        (Some(turns), Fact::Turns(_, count)) => Some(turns.count()) == count,
        (None, Fact::Turns(_, count)) => count.is_none(),
        _ => false,
    }
}

/// Whether the variable of the loop between variables has a value at a turn, or none.
fn has_value(alloc: Global, n: Option<u64>, turn: u64, value: Option<u64>) -> bool {
    match turns_by_variable(alloc, n) {
        Some(turns) => at(turns, turn) == value,
        None => value.is_none(),
    }
}

/// Whether a fact holds.
fn holds(alloc: Global, fact: Fact) -> bool {
    match fact {
        Fact::Turns(run, _) | Fact::Values(run, _) => holds_of_one(alloc, run, fact),
        Fact::AtTurn(n, turn, value) => has_value(alloc, n, turn, value),
        Fact::Vector(number, expected) => vector(alloc, number) == expected,
        Fact::Before(values, distance, number) => {
            number_before(alloc, &values, distance) == number
        }
        Fact::Vectors(outer, inner, _)
        | Fact::Reached(outer, inner, _)
        | Fact::Fixed(outer, inner, _) => holds_of_two(alloc, outer, inner, fact),
    }
}

/// The number of the first of some facts, from 0, that does not hold.
fn first_other(alloc: Global, rows: &[Fact]) -> Option<usize> {
    for (number, fact) in rows.iter().enumerate() {
        if !holds(alloc, *fact) {
            return Some(number);
        }
    }
    None
}

/// Ends a test where there is such a fact, and gives its number.
fn all_hold(rt: &impl Abort, alloc: Global, rows: &[Fact]) {
    assert_eq!(rt; first_other(alloc, rows), None);
}

#[test]
fn falling_loops(rt: HostRuntime) {
    const ROWS: &[Fact] = &[
        Fact::Values((Direction::Falling, 3, Bound::Strict, 10, 2), &[10, 7, 4]),
        Fact::Values((Direction::Falling, 1, Bound::Unequal, 7, 3), &[7, 6, 5, 4]),
        Fact::Values((Direction::Falling, 2, Bound::Inclusive, 6, 2), &[6, 4, 2]),
    ];
    all_hold(&rt, rt.alloc(), ROWS);
}

/// A loop whose variable would wrap, or whose bounds are too large, has no turns.
#[test]
fn counts_of_turns(rt: HostRuntime) {
    const ROWS: &[Fact] = &[
        // Empty loops.
        Fact::Turns((Direction::Rising, 1, Bound::Strict, 3, 3), Some(0)),
        Fact::Turns((Direction::Rising, 1, Bound::Inclusive, 5, 4), Some(0)),
        Fact::Turns((Direction::Rising, 1, Bound::Unequal, 5, 5), Some(0)),
        Fact::Turns((Direction::Rising, 1, Bound::Strict, 0, 0), Some(0)),
        Fact::Turns((Direction::Falling, 1, Bound::Strict, 2, 5), Some(0)),
        // Loops that do not stay.
        Fact::Turns((Direction::Falling, 1, Bound::Inclusive, 9, 0), None),
        Fact::Turns((Direction::Falling, 3, Bound::Strict, 5, 1), None),
        Fact::Turns((Direction::Rising, 1, Bound::Unequal, 5, 4), None),
        Fact::Turns((Direction::Rising, 1, Bound::Strict, -1, 4), None),
        Fact::Turns(
            (Direction::Rising, 1, Bound::Strict, 0, 4_294_967_296),
            Some(4_294_967_296),
        ),
        Fact::Turns(
            (Direction::Rising, 1, Bound::Strict, 0, 4_294_967_297),
            None,
        ),
    ];
    all_hold(&rt, rt.alloc(), ROWS);
}

#[test]
fn bounds_with_variables(rt: HostRuntime) {
    const ROWS: &[Fact] = &[
        Fact::AtTurn(Some(4), 1, Some(7)),
        Fact::AtTurn(Some(4), 2, None),
        Fact::AtTurn(Some(6), 2, Some(12)),
        Fact::AtTurn(None, 0, Some(0)),
        Fact::AtTurn(None, 1, None),
    ];
    all_hold(&rt, rt.alloc(), ROWS);
    assert!(rt; turns_by_variable(rt.alloc(), Some(1 << 34)).is_none());
}

/// How many vectors there are.
fn collapsed_count(alloc: Global) -> Option<u64> {
    collapsed_space(alloc).map(|space| space.count())
}

#[test]
fn vectors_of_two_loops(rt: HostRuntime) {
    const ROWS: &[Fact] = &[
        Fact::Vector(0, Some([5, 0])),
        Fact::Vector(1, Some([5, 2])),
        Fact::Vector(3, Some([3, 0])),
        Fact::Vector(5, Some([3, 4])),
        Fact::Vector(6, None),
        Fact::Before([5, 2], &[0, 0], Some(1)),
        Fact::Before([3, 4], &[0, 0], Some(5)),
        Fact::Before([4, 0], &[0, 0], None),
        Fact::Before([5, 1], &[0, 0], None),
        // Behind and before.
        Fact::Before([3, 0], &[-2, -2], Some(1)),
        Fact::Before([5, 4], &[2, 2], Some(4)),
        Fact::Before([7, 0], &[2, -4], Some(2)),
        // Outside of the space, and below 0.
        Fact::Before([3, 0], &[2, 0], None),
        Fact::Before([3, 2], &[0, 4], None),
        // No distance of this nest.
        Fact::Before([5, 2], &[0], None),
        Fact::Before([5, 2], &[0, 0, 0], None),
    ];
    assert!(rt; collapsed_count(rt.alloc()) == Some(6));
    all_hold(&rt, rt.alloc(), ROWS);
}

/// Puts a copy of a loop behind others.
fn add_copy(loops: &mut Vec<Canonical>, head: &Canonical) -> Result<(), Refusal> {
    loops.push(head.clone()?)?;
    Ok(())
}

/// Five such loops.
fn five_copies(alloc: Global, head: &Canonical) -> Result<Vec<Canonical>, Refusal> {
    let mut loops = Vec::new(alloc);
    for _turn in 0..5 {
        add_copy(&mut loops, head)?;
    }
    Ok(loops)
}

/// Whether some loops have no space, which all of them but the last have.
fn last_is_too_many(alloc: Global, loops: &[Canonical]) -> bool {
    let [others @ .., _] = loops else {
        return false;
    };
    Space::at(alloc, others, &[]).is_some() && Space::at(alloc, loops, &[]).is_none()
}

/// Whether it is so of five copies of a loop.
fn fifth_is_too_many(alloc: Global, head: &Canonical) -> bool {
    match five_copies(alloc, head) {
        Ok(loops) => last_is_too_many(alloc, loops.as_slice()),
        Err(_refusal) => false,
    }
}

/// Whether it is so of five loops that turn once.
fn five(alloc: Global) -> bool {
    match head(alloc, I, (Direction::Rising, 1, Bound::Strict, 0, 1)) {
        Ok(head) => fifth_is_too_many(alloc, &head),
        Err(_refusal) => false,
    }
}

#[test]
fn limits(rt: HostRuntime) {
    const NEVER: Run = (Direction::Rising, 1, Bound::Strict, 0, 0);
    const LIMIT: Run = (Direction::Rising, 1, Bound::Strict, 0, 4096);
    const ROWS: &[Fact] = &[
        Fact::Vectors(LIMIT, LIMIT, Some(16_777_216)),
        Fact::Vectors(LIMIT, (Direction::Rising, 1, Bound::Strict, 0, 4097), None),
        Fact::Vectors(
            (Direction::Rising, 1, Bound::Strict, 0, 1 << 32),
            NEVER,
            Some(0),
        ),
    ];
    all_hold(&rt, rt.alloc(), ROWS);
    assert!(rt; five(rt.alloc()));
}

#[test]
fn loops_that_are_never_reached(rt: HostRuntime) {
    const THREE: Run = (Direction::Rising, 1, Bound::Strict, 0, 3);
    const NEVER: Run = (Direction::Rising, 1, Bound::Strict, 3, 3);
    const WRAPS: Run = (Direction::Falling, 1, Bound::Inclusive, 5, 0);
    const LONG: Run = (Direction::Rising, 1, Bound::Strict, 0, 1 << 32);
    const ROWS: &[Fact] = &[
        Fact::Reached(THREE, THREE, Some(9)),
        Fact::Reached(NEVER, WRAPS, Some(0)),
        Fact::Reached(THREE, WRAPS, None),
        Fact::Reached(WRAPS, NEVER, None),
        Fact::Reached(NEVER, LONG, Some(0)),
        Fact::Reached(LONG, NEVER, Some(0)),
        Fact::Reached(THREE, LONG, None),
    ];
    all_hold(&rt, rt.alloc(), ROWS);
}

/// Whether a loop between variables is so.
fn is_fixed_by_variable(alloc: Global) -> bool {
    match by_variable(alloc) {
        Ok(head) => are_fixed(alloc, &[head]),
        Err(_refusal) => true,
    }
}

#[test]
fn loops_between_numbers(rt: HostRuntime) {
    const UP: Run = (Direction::Rising, 1, Bound::Strict, 0, 4);
    const DOWN: Run = (Direction::Falling, 1, Bound::Strict, 4, 0);
    const ROWS: &[Fact] = &[
        Fact::Fixed(UP, UP, true),
        Fact::Fixed(UP, (Direction::Rising, 2, Bound::Inclusive, 1, 9), true),
        Fact::Fixed(UP, (Direction::Rising, 1, Bound::Strict, 5, 4), true),
        Fact::Fixed(UP, DOWN, false),
        Fact::Fixed(DOWN, UP, false),
        // Too many iterations, and a bound that is too large.
        Fact::Fixed(UP, (Direction::Rising, 1, Bound::Strict, 0, 1 << 23), false),
        Fact::Fixed(
            UP,
            (Direction::Rising, 1, Bound::Strict, 0, (1 << 32) + 1),
            false,
        ),
    ];
    all_hold(&rt, rt.alloc(), ROWS);
    assert!(rt; !is_fixed_by_variable(rt.alloc()));
    assert!(rt; are_fixed(rt.alloc(), &[]));
}

/// A loop that falls by four.
fn by_four(first: u64, count: u64) -> Option<LoopTurns> {
    let down = Stride {
        direction: Direction::Falling,
        by: 4,
    };
    LoopTurns::new(first, down, count)
}

/// The turn at which its variable has this value.
fn turn_of(turns: Option<LoopTurns>, value: u64) -> Option<u64> {
    match turns {
        Some(turns) => turns.turn(value),
        None => None,
    }
}

/// How many vectors two such loops have.
fn square(alloc: Global, turns: Option<LoopTurns>) -> Option<u64> {
    match turns {
        Some(turns) => Space::new(alloc, &[turns, turns]).map(|space| space.count()),
        None => None,
    }
}

#[test]
fn turns_by_hand(rt: HostRuntime) {
    assert!(rt; by_four(7, 3).is_none());
    assert!(rt; turn_of(by_four(8, 3), 0) == Some(2));
    assert!(rt; turn_of(by_four(8, 3), 6).is_none());
    assert!(rt; turn_of(by_four(8, 2), 0).is_none());
    assert!(rt; square(rt.alloc(), by_four(8, 3)) == Some(9));
}
