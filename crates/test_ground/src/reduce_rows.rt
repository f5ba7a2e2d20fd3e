//! Worked rows of reductions.

use ktree::ReductionOperator;
use reduce::*;

#[test]
fn leaves_untouched_partials_out(rt: HostRuntime) {
    assert!(rt; combine::<LogicalAnd>(5, Partial::Untouched) == 5);
    assert!(rt; combine::<LogicalAnd>(5, Partial::Updated(1)) == 1);
    assert!(rt; combine_by(ReductionOperator::LogicalAnd, 5, Partial::Untouched) == 5);
    assert!(rt; combine_by(ReductionOperator::Min, 9, Partial::Untouched) == 9);
}

#[test]
fn wraps_sums(rt: HostRuntime) {
    let sum = combine::<Sum>(
        combine::<Sum>(0, Partial::Updated(u64::MAX)),
        Partial::Updated(2),
    );
    assert!(rt; sum == 1);
}

/// The number of the first of some operators whose copies begin otherwise, or do not keep the first value put in.
fn first_other(rows: &[(ReductionOperator, u64)]) -> Option<usize> {
    for (number, (op, identity)) in rows.iter().enumerate() {
        let begun = identity_by(*op);
        if begun != *identity || apply_by(*op, begun, 1) != 1 {
            return Some(number);
        }
    }
    None
}

#[test]
fn begins_each_copy_at_the_identity(rt: HostRuntime) {
    const ROWS: &[(ReductionOperator, u64)] = &[
        (ReductionOperator::Sum, 0),
        (ReductionOperator::Product, 1),
        (ReductionOperator::And, 18446744073709551615),
        (ReductionOperator::Or, 0),
        (ReductionOperator::Xor, 0),
        (ReductionOperator::LogicalAnd, 1),
        (ReductionOperator::LogicalOr, 0),
        (ReductionOperator::Max, 0),
        (ReductionOperator::Min, 18446744073709551615),
    ];
    assert_eq!(rt; first_other(ROWS), None);
}
