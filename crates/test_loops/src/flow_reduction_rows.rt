//! Where reduction variables are misused.

use crate::texts::{S, last_statement};
use crate::told::{Expected, all_told};
use flow_reduction::{Reduction, first_misuse};
use ktree::{Kernel, Place, ReductionOperator};
use pragma::Directives;
use std::alloc::Global;

/// Where the last statement of a kernel first misuses `s`, if it is reduced by this operator.
#[derive(Clone, Copy)]
struct Misuse(ReductionOperator, Option<Place>);

impl Expected for Misuse {
    fn is_told(self, _alloc: Global, kernel: &Kernel, _directives: &Directives) -> bool {
        let Misuse(operator, place) = self;
        let variable = S;
        match last_statement(kernel) {
            Some(last) => first_misuse(last, &[Reduction { variable, operator }]) == place,
            None => false,
        }
    }
}

#[test]
fn reduction_variables_are_updated_alone(rt: HostRuntime) {
    const ROWS: &[(&str, Misuse)] = &[
        // Updates by its operator.
        ("s += A[1];", Misuse(ReductionOperator::Sum, None)),
        ("s = s + (A[1] + 1);", Misuse(ReductionOperator::Sum, None)),
        (
            "s = s && A[1] < 2;",
            Misuse(ReductionOperator::LogicalAnd, None),
        ),
        (
            "s = s || A[1] < 2;",
            Misuse(ReductionOperator::LogicalOr, None),
        ),
        (
            "if (A[1] < s) s = A[1];",
            Misuse(ReductionOperator::Min, None),
        ),
        (
            "if (A[1] > s) { s = A[1]; }",
            Misuse(ReductionOperator::Max, None),
        ),
        (
            "{ A[0] = x; s ^= x; }",
            Misuse(ReductionOperator::Xor, None),
        ),
        // Updates by another one.
        (
            "s *= A[1];",
            Misuse(ReductionOperator::Sum, Some(Place { line: 2, column: 1 })),
        ),
        (
            "s = s || A[1] < 2;",
            Misuse(
                ReductionOperator::LogicalAnd,
                Some(Place { line: 2, column: 1 }),
            ),
        ),
        (
            "if (A[1] > s) s = A[1];",
            Misuse(
                ReductionOperator::Min,
                Some(Place {
                    line: 2,
                    column: 12,
                }),
            ),
        ),
        // No updates: the operation is another one, or its first operand is.
        (
            "s = s + A[1] + 1;",
            Misuse(ReductionOperator::Sum, Some(Place { line: 2, column: 1 })),
        ),
        (
            "s = A[1] + s;",
            Misuse(ReductionOperator::Sum, Some(Place { line: 2, column: 1 })),
        ),
        (
            "s += s;",
            Misuse(ReductionOperator::Sum, Some(Place { line: 2, column: 1 })),
        ),
        // A choice of another number, and one with an `else`.
        (
            "if (A[1] < s) s = A[2];",
            Misuse(
                ReductionOperator::Min,
                Some(Place {
                    line: 2,
                    column: 12,
                }),
            ),
        ),
        (
            "if (A[1] < s) s = A[1]; else A[0] = 1;",
            Misuse(
                ReductionOperator::Min,
                Some(Place {
                    line: 2,
                    column: 12,
                }),
            ),
        ),
        // It is read.
        (
            "A[s] = 1;",
            Misuse(
                ReductionOperator::Product,
                Some(Place { line: 2, column: 3 }),
            ),
        ),
        (
            "{ s |= A[1]; A[0] = s; }",
            Misuse(
                ReductionOperator::Or,
                Some(Place {
                    line: 2,
                    column: 21,
                }),
            ),
        ),
        (
            "for (uint64_t i = 0; i < s; i++) A[i] = 1;",
            Misuse(
                ReductionOperator::And,
                Some(Place {
                    line: 2,
                    column: 26,
                }),
            ),
        ),
    ];
    all_told(&rt, rt.alloc(), ROWS);
}
