//! Whether each name that is read may be.

ghost use Rattle.std.specs.Prelude.{◌≡◌, true, OnOk, IfErr, map};
ghost use Rattle.semantics.specs.Meaning.Definite.{may_read, may_read_all, may_test, may_take, may_step, may_print};
ghost use Rattle.ktree.specs.View.{expr_of, exprs_of, cond_of, source_of, increment_of, part_of};
ghost use Rattle.flow_definite.specs.Judged.{known_of, may_part, Unread};

use crate::known::{DefinitelyAssigned, Unassigned};
use ktree::{Cond, Expr, Increment, Place, PrintPart, Source};

/// Looks at each name in an expression, whatever guards it.
///
/// # Errors
///
/// At the first that may not be read; so for all below.
#[cycle(reading)]
pub(crate) fn read(expr: &Expr, known: &DefinitelyAssigned) -> Result<(), Unassigned>
    ensures known { OnOk result (may_read (known_of known.now) (expr_of expr.now) ≡ true) }
    ensures refused { IfErr result (Unread (may_read (known_of known.now) (expr_of expr.now))) }
{
    match expr {
        Expr::Literal(_n, _suffix) => Ok(()),
        Expr::Constant(_name, _n) => Ok(()),
        Expr::Object(x, subscripts, mention) => {
            known.read(*x, mention.name)?;
            read_all(subscripts, known)
        }
        Expr::Unary(_op, a) => read(a, known),
        Expr::Binary(_op, a, b) => {
            read(a, known)?;
            read(b, known)
        }
        Expr::Conditional(c, a, b) => {
            read_test(c, known)?;
            read(a, known)?;
            read(b, known)
        }
    }
}

/// Looks at the names in subscripts, from the left.
#[cycle(reading)]
pub(crate) fn read_all(subscripts: &[Expr], known: &DefinitelyAssigned) -> Result<(), Unassigned>
    ensures known { OnOk result (may_read_all (known_of known.now) (exprs_of subscripts.now)
        ≡ true) }
    ensures refused { IfErr result
        (Unread (may_read_all (known_of known.now) (exprs_of subscripts.now))) }
{
    for subscript in subscripts {
        read(subscript, known)?;
    }
    Ok(())
}

/// Looks at the names in a condition.
#[cycle(reading)]
pub(crate) fn read_test(cond: &Cond, known: &DefinitelyAssigned) -> Result<(), Unassigned>
    ensures known { OnOk result (may_test (known_of known.now) (cond_of cond.now) ≡ true) }
    ensures refused { IfErr result (Unread (may_test (known_of known.now) (cond_of cond.now))) }
{
    match cond {
        Cond::NotZero(e) => read(e, known),
        Cond::Compare(_op, a, b, _place) => {
            read(a, known)?;
            read(b, known)
        }
        Cond::Not(c) => read_test(c, known),
        Cond::LogicalAnd(c, d) => {
            read_test(c, known)?;
            read_test(d, known)
        }
        Cond::LogicalOr(c, d) => {
            read_test(c, known)?;
            read_test(d, known)
        }
    }
}

/// Looks at the names in a right side or an initialiser.
pub(crate) fn read_source(source: &Source, known: &DefinitelyAssigned) -> Result<(), Unassigned>
    ensures known { OnOk result (may_take (known_of known.now) (source_of source.now) ≡ true) }
    ensures refused { IfErr result (Unread (may_take (known_of known.now) (source_of source.now))) }
{
    match source {
        Source::Number(e) => read(e, known),
        Source::Truth(c) => read_test(c, known),
    }
}

/// Looks at the names in a loop's step; its own variable is told at the loop's place.
pub(crate) fn read_step(
    step: &Increment,
    place: Place,
    known: &DefinitelyAssigned,
) -> Result<(), Unassigned>
    ensures known { OnOk result (may_step (known_of known.now) (increment_of step.now) ≡ true) }
    ensures refused { IfErr result
        (Unread (may_step (known_of known.now) (increment_of step.now))) }
{
    match step {
        Increment::Up(x) => known.read(*x, place),
        Increment::Down(x) => known.read(*x, place),
        Increment::Set(_x, source) => read_source(source, known),
        Increment::Change(x, _op, expr) => {
            known.read(*x, place)?;
            read(expr, known)
        }
    }
}

/// Looks at the names in one part of what printf writes.
fn read_part(part: &PrintPart, known: &DefinitelyAssigned) -> Result<(), Unassigned>
    ensures known { OnOk result (may_part (known_of known.now) (part_of part.now) ≡ true) }
    ensures refused { IfErr result (Unread (may_part (known_of known.now) (part_of part.now))) }
{
    match part {
        PrintPart::Characters(_bytes) => Ok(()),
        PrintPart::Decimal(expr) => read(expr, known),
    }
}

/// Looks at the names in printf's arguments, in their order.
pub(crate) fn read_parts(parts: &[PrintPart], known: &DefinitelyAssigned) -> Result<(), Unassigned>
    ensures known { OnOk result (may_print (known_of known.now) (map part_of parts.now) ≡ true) }
    ensures refused { IfErr result
        (Unread (may_print (known_of known.now) (map part_of parts.now))) }
{
    for part in parts {
        read_part(part, known)?;
    }
    Ok(())
}
