use affine::*;
use ktree::{Place, Refusal, VarId};
use std::alloc::Global;

const HERE: Place = Place { line: 2, column: 3 };

const I: VarId = VarId(4);

const J: VarId = VarId(7);

const K: VarId = VarId(9);

/// The number of the first row of two numbers and their divisor that has another.
fn first_other_divisor(rows: &[(u64, u64, u64)]) -> Option<usize> {
    for (number, (left, right, divisor)) in rows.iter().enumerate() {
        if gcd(*left, *right) != *divisor {
            return Some(number);
        }
    }
    None
}

#[test]
fn gcds(rt: HostRuntime) {
    const ROWS: &[(u64, u64, u64)] = &[
        (0, 0, 0),
        (12, 18, 6),
        (18, 12, 6),
        (0, 5, 5),
        (5, 0, 5),
        (7, 13, 1),
        (u64::MAX, 3, 3),
    ];
    assert_eq!(rt; first_other_divisor(ROWS), None);
}

/// Multiples of variables.
type Terms = &'static [(i64, VarId)];

/// A form and a multiple of a variable.
fn and_multiple(alloc: Global, form: &Form, factor: i64, variable: VarId) -> Result<Form, Refusal> {
    let multiple = Form::variable(alloc, variable).scale(factor, HERE)?;
    form.add(&multiple, HERE)
}

/// The sum of some multiples and a constant.
fn sum(alloc: Global, terms: Terms, constant: i128) -> Result<Form, Refusal> {
    let mut form = Form::constant(alloc, constant, HERE)?;
    for (factor, variable) in terms {
        form = and_multiple(alloc, &form, *factor, *variable)?;
    }
    Ok(form)
}

/// Variables with the values that each has, the first as the outermost.
type Sides<'a> = &'a [(VarId, i128, i128)];

/// The box of these variables.
fn box_of(alloc: Global, sides: Sides<'_>) -> Result<VarBox, Refusal> {
    let mut bounds = VarBox::new(alloc);
    for (variable, least, greatest) in sides {
        bounds.bind(*variable, *least, *greatest, HERE)?;
    }
    Ok(bounds)
}

/// A sum, the values of its variables, and its range over their box.
#[derive(Clone, Copy)]
struct Ranged {
    terms: Terms,
    constant: i128,
    sides: Sides<'static>,
    range: Option<(i128, i128)>,
}

/// Whether a form has the range of a row over the box of its variables.
fn is_in_range(alloc: Global, form: &Form, row: Ranged) -> bool {
    match box_of(alloc, row.sides) {
        Ok(bounds) => form.range(&bounds) == row.range,
        Err(_refusal) => false,
    }
}

/// Whether the sum of a row has its range.
fn has_range(alloc: Global, row: Ranged) -> bool {
    match sum(alloc, row.terms, row.constant) {
        Ok(form) => is_in_range(alloc, &form, row),
        Err(_refusal) => false,
    }
}

/// The number of the first row, from 0, that has another range.
fn first_other_range(alloc: Global, rows: &[Ranged]) -> Option<usize> {
    for (number, row) in rows.iter().enumerate() {
        if !has_range(alloc, *row) {
            return Some(number);
        }
    }
    None
}

/// Whether there is a box with these values of `i`.
fn has_box(alloc: Global, least: i128, greatest: i128) -> bool {
    box_of(alloc, &[(I, least, greatest)]).is_ok()
}

#[test]
fn ranges(rt: HostRuntime) {
    const ROWS: &[Ranged] = &[
        Ranged {
            terms: &[(1, I), (1, J)],
            constant: -1,
            sides: &[(I, 0, 7), (J, 2, 3)],
            range: Some((1, 9)),
        },
        // 5 - 3 * i where the inner i has some values, whatever another i round it has.
        Ranged {
            terms: &[(-3, I)],
            constant: 5,
            sides: &[(I, 9, 8), (I, 0, 4)],
            range: Some((-7, 5)),
        },
        Ranged {
            terms: &[(-3, I)],
            constant: 5,
            sides: &[(I, 9, 8), (I, 2, 2)],
            range: Some((-1, -1)),
        },
        Ranged {
            terms: &[(-3, I)],
            constant: 5,
            sides: &[(I, 9, 8), (I, 1, 0)],
            range: None,
        },
    ];
    assert!(rt; first_other_range(rt.alloc(), ROWS).is_none());
    assert!(rt; has_box(rt.alloc(), 1, 0));
}

/// 3 * j + 4 at j = 2 * k + 1.
fn substituted(alloc: Global) -> Result<Form, Refusal> {
    let form = sum(alloc, &[(3, J)], 4)?;
    let value = sum(alloc, &[(2, K)], 1)?;
    form.substitute(J, &value, HERE)
}

/// 5 * i + 1 without 2 * i - 3.
fn difference(alloc: Global) -> Result<Form, Refusal> {
    let form = sum(alloc, &[(5, I)], 1)?;
    let less = sum(alloc, &[(2, I)], -3)?;
    form.subtract(&less, HERE)
}

/// A form's constant, and its coefficients of `i`, `j` and `k`.
fn numbers_of(form: Result<Form, Refusal>) -> Option<(i64, i64, i64, i64)> {
    match form {
        Ok(form) => Some((
            form.constant_term(),
            form.coefficient(I),
            form.coefficient(J),
            form.coefficient(K),
        )),
        Err(_) => None,
    }
}

/// Whether a refusal is the limit here.
fn is_limit(refusal: &Refusal) -> bool {
    matches!(refusal, Refusal::Limit(HERE))
}

/// How many terms a form has, or whether its refusal is the limit here.
type Length = Result<usize, bool>;

/// That of a form that there may be.
fn length_of(form: Result<Form, Refusal>) -> Length {
    match form {
        Ok(form) => Ok(form.terms().len()),
        Err(refusal) => Err(is_limit(&refusal)),
    }
}

#[test]
fn substitutions(rt: HostRuntime) {
    assert!(rt; numbers_of(substituted(rt.alloc())) == Some((7, 0, 0, 6)));
    assert!(rt; length_of(substituted(rt.alloc())) == Ok(1));
}

#[test]
fn differences(rt: HostRuntime) {
    assert!(rt; numbers_of(difference(rt.alloc())) == Some((4, 3, 0, 0)));
}

const GREATEST: i128 = 1 << 62;

/// The number of the first row, from 0, of whose sum something else is told.
fn first_other_length(alloc: Global, rows: &[(Terms, i128, Length)]) -> Option<usize> {
    for (number, (terms, constant, told)) in rows.iter().enumerate() {
        if length_of(sum(alloc, *terms, *constant)) != *told {
            return Some(number);
        }
    }
    None
}

/// Whether a sum that there may be is within a limit.
fn is_within(alloc: Global, terms: Terms, limit: u64) -> Option<bool> {
    match sum(alloc, terms, 0) {
        Ok(form) => Some(form.is_within(limit)),
        Err(_) => None,
    }
}

#[test]
fn limits(rt: HostRuntime) {
    const ROWS: &[(Terms, i128, Length)] = &[
        (&[], GREATEST, Ok(0)),
        (&[], -GREATEST, Ok(0)),
        (&[], GREATEST + 1, Err(true)),
        (&[], -GREATEST - 1, Err(true)),
        (&[(1 << 61, I), (1 << 61, I)], 0, Ok(1)),
        (&[(1 << 62, I), (1, I)], 0, Err(true)),
    ];
    assert!(rt; first_other_length(rt.alloc(), ROWS).is_none());
    assert!(rt; is_within(rt.alloc(), &[(1 << 62, I), (-1, I)], 1 << 61) == Some(false));
}

/// The sum of so many variables.
fn variables(alloc: Global, count: u32) -> Result<Form, Refusal> {
    let mut form = Form::constant(alloc, 0, HERE)?;
    for at in 0..count {
        form = and_multiple(alloc, &form, 1, VarId(at))?;
    }
    Ok(form)
}

#[test]
fn numbers_of_variables(rt: HostRuntime) {
    assert!(rt; length_of(variables(rt.alloc(), 64)) == Ok(64));
    assert!(rt; length_of(variables(rt.alloc(), 65)) == Err(true));
}

/// Whether a box has one variable, `i` with the values 1 and 2, and says nothing of `j`.
fn has_first(bounds: &VarBox) -> bool {
    bounds.interval(I) == ONE_TO_TWO
        && bounds.interval(J) == NOTHING
        && !bounds.is_empty()
        && bounds.len() == 1
        && bounds.has(I)
}

/// A box with the values of `j` taken back.
fn without_last(alloc: Global) -> Result<VarBox, Refusal> {
    let mut bounds = box_of(alloc, &[(I, 1, 2)])?;
    bounds.bind(J, 5, 6, HERE)?;
    bounds.unbind();
    Ok(bounds)
}

/// A copy of a box, with values for `i` once more, of which there are none.
fn with_no_values(bounds: &VarBox) -> Result<VarBox, Refusal> {
    let mut copy = bounds.clone()?;
    copy.bind(I, 4, 3, HERE)?;
    Ok(copy)
}

/// Whether that copy is empty, and how many variables it has.
fn emptied_shape(bounds: &VarBox) -> Option<(bool, usize)> {
    match with_no_values(bounds) {
        Ok(copy) => Some((copy.is_empty(), copy.len())),
        Err(_) => None,
    }
}

/// Whether these values of `k` are refused by the limit, and are taken.
fn bind_outcome(alloc: Global, least: i128, greatest: i128) -> (bool, bool) {
    match box_of(alloc, &[(I, 1, 2), (K, least, greatest)]) {
        Ok(_) => (false, true),
        Err(refusal) => (is_limit(&refusal), false),
    }
}

const ONE_TO_TWO: Interval = Interval {
    least: 1,
    greatest: 2,
};

const NOTHING: Interval = Interval {
    least: 0,
    greatest: 0,
};

/// Whether the box with the values of `j` taken back has those of `i` alone, and is empty once `i` has none.
fn has_first_alone(alloc: Global) -> bool {
    match without_last(alloc) {
        Ok(bounds) => {
            has_first(&bounds) && !bounds.has(J) && emptied_shape(&bounds) == Some((true, 2))
        }
        Err(_) => false,
    }
}

#[test]
fn sides(rt: HostRuntime) {
    let alloc = rt.alloc();
    assert!(rt; has_first_alone(alloc));
    assert!(rt; bind_outcome(alloc, 0, (1 << 33) + 1) == (true, false));
    assert!(rt; bind_outcome(alloc, -(1 << 33), 1 << 33) == (false, true));
}
