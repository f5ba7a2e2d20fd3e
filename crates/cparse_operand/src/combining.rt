//! What follows from parts that were read.

ghost use Rattle.std.specs.Prelude.{◌≡◌, ◌&&◌, true, Some, is_none};
ghost use Rattle.semantics.specs.Tree.{Number, Truth, Not, Conditional, no_exprs};
ghost use Rattle.ktree.specs.View.{unary_of, expr_of};
ghost use Rattle.cparse_grammar.specs.Reading.{got};
ghost use Rattle.cparse_grammar.specs.Operators.{cond_in};
ghost use Rattle.cparse_grammar.specs.ExpressionReader.{unary_of as unary_reading, join, choice};
ghost use Rattle.cparse_grammar.specs.ExpressionSteps.{with_subscript};
ghost use Rattle.cparse_operand.specs.Infixes.{infix_in};
ghost use Rattle.cparse_cursor.specs.Lexemes.{tokens_of};
ghost use Rattle.cparse_cursor.specs.Outcome.{Gives, got_of, subscripts_of};
ghost use Rattle.cparse_operand.specs.OperandViews.{operand_of};

use crate::boxing::{add_part, both, box_both};
use crate::joining::{Union, join_operands, truth};
use crate::numeric::Numeric;
use crate::operand::Operand;
use crate::operator::Infix;
use crate::wanted::{boxed_cond, number_in};
use cparse_cursor::context::Outcome;
use cparse_cursor::lexeme::Lexeme;
use cparse_cursor::parsed::{Parsed, Subscripts};
use cparse_cursor::stop::{Stop, earlier, operand_fault, told_sort};
use cparse_cursor::written::{Sort, Written};
use ktree::{Cond, Expr, Place, Source, UnaryOp};
use std::alloc::Global;

/// A left operand, an operator, and a right operand that begins somewhere.
pub fn join<'s, 't>(
    alloc: Global,
    operator: Infix,
    place: Place,
    begin: Place,
    left: Parsed<'s, 't, Operand>,
    right: Parsed<'s, 't, Operand>,
) -> Outcome<'s, 't, Operand>
    ensures { Gives (got_of operand_of) result
        (Some (join (got_of operand_of left.entry) (infix_in operator)
        (got_of operand_of right.entry))) }
{
    let Parsed {
        tree: a,
        fault: left_fault,
        rest: _,
    } = left;
    let Parsed {
        tree: b,
        fault: right_fault,
        rest,
    } = right;
    let Union {
        operand,
        fits,
        misfit,
    } = join_operands(alloc, operator, place, begin, a, b)?;
    let fault = operand_fault(earlier(left_fault, right_fault), fits, misfit, place);
    Ok(Parsed {
        tree: operand,
        fault,
        rest,
    })
}

/// `-` or `~` in front of a typed operand (C11 6.5.3.3).
pub fn apply_unary<'s, 't>(
    alloc: Global,
    operator: UnaryOp,
    place: Place,
    operand: Parsed<'s, 't, Operand>,
) -> Outcome<'s, 't, Operand>
    ensures { Gives (got_of operand_of) result
        (unary_reading (unary_of operator) (got_of operand_of operand.entry)) }
{
    let Parsed { tree, fault, rest } = operand;
    let Numeric {
        expr,
        is_number,
        typed,
        plain,
        written,
    } = number_in(tree);
    let source = Source::Number(Expr::Unary(operator, Box::new(alloc, expr)?));
    let fault = told_sort(fault, is_number && typed, written.is_typed(), place);
    let tree = Operand {
        source,
        typed,
        constant: None,
        plain,
        written: Written {
            sort: Sort::Typed,
            has_ull: written.has_ull,
            place,
        },
    };
    Ok(Parsed { tree, fault, rest })
}

/// `!` in front of a condition (C11 6.5.3.3).
pub fn opposite<'s, 't>(
    alloc: Global,
    place: Place,
    operand: Parsed<'s, 't, Operand>,
) -> Outcome<'s, 't, Operand>
    ensures { Gives (got_of operand_of) result
        (got (Truth (Not (cond_in (operand_of operand.entry.tree)))) (is_none operand.entry.fault)
        (tokens_of operand.entry.rest.now)) }
{
    let Parsed { tree, fault, rest } = operand;
    let plain = tree.plain;
    let written = Written {
        sort: Sort::Condition,
        has_ull: tree.written.has_ull,
        place,
    };
    let c = boxed_cond(alloc, tree.source)?;
    Ok(Parsed {
        tree: truth(Cond::Not(c), plain, written),
        fault,
        rest,
    })
}

/// `c ? a : b` of two arithmetic arms (C11 6.5.15).
pub fn choice<'s, 't>(
    alloc: Global,
    place: Place,
    condition: Parsed<'s, 't, Operand>,
    first: Parsed<'s, 't, Operand>,
    second: Parsed<'s, 't, Operand>,
) -> Outcome<'s, 't, Operand>
    ensures { Gives (got_of operand_of) result
        (choice (got_of operand_of condition.entry) (got_of operand_of first.entry)
        (got_of operand_of second.entry)) }
{
    let Parsed {
        tree: c,
        fault: condition_fault,
        rest: _,
    } = condition;
    let Parsed {
        tree: a,
        fault: first_fault,
        rest: _,
    } = first;
    let Parsed {
        tree: b,
        fault: second_fault,
        rest,
    } = second;
    let (a, b) = (number_in(a), number_in(b));
    let numbers = a.written.is_number() && b.written.is_number();
    let arms = earlier(first_fault, second_fault);
    let arms = told_sort(arms, a.is_number && b.is_number, numbers, place);
    let fault = earlier(condition_fault, arms);
    let tree = conditional(alloc, c, a, b, place)?;
    Ok(Parsed { tree, fault, rest })
}

/// `c ? a : b` as it was written.
fn written_choice(condition: Written, a: Written, b: Written, place: Place) -> Written {
    let typed = a.is_typed() || b.is_typed();
    Written {
        sort: if typed { Sort::Typed } else { Sort::Untyped },
        has_ull: condition.has_ull || a.has_ull || b.has_ull,
        place,
    }
}

/// `c ? a : b` of a condition and two arithmetic expressions.
fn conditional(
    alloc: Global,
    condition: Operand,
    a: Numeric,
    b: Numeric,
    place: Place,
) -> Result<Operand, Stop>
    ensures { Gives operand_of result
        (Some (Number (Conditional (cond_in (operand_of condition)) (expr_of a.expr)
        (expr_of b.expr)))) }
{
    let typed = a.typed || b.typed;
    let plain = condition.plain && a.plain && b.plain;
    let written = written_choice(condition.written, a.written, b.written, place);
    let c = boxed_cond(alloc, condition.source);
    let arms = box_both(alloc, a.expr, b.expr);
    let (c, (a, b)) = both(c, arms)?;
    let source = Source::Number(Expr::Conditional(c, a, b));
    Ok(Operand {
        source,
        typed,
        constant: None,
        plain,
        written,
    })
}

/// No subscripts in front of these tokens.
pub fn no_subscripts<'s, 't>(alloc: Global, rest: &'s [Lexeme<'t>]) -> Parsed<'s, 't, Subscripts>
    ensures { Some (got_of subscripts_of result) ≡ got no_exprs true (tokens_of rest.now) }
{
    let tree = Subscripts {
        exprs: Vec::new(alloc),
        places: Vec::new(alloc),
    };
    Parsed {
        tree,
        fault: None,
        rest,
    }
}

/// Subscripts of an array whose name stands at a place, and one more that begins somewhere, with the tokens behind it.
#[tactic(auto, using(crate::proofs::TreeLemmas::and_one_of))]
pub fn with_subscript<'s, 't>(
    row: Parsed<'s, 't, Subscripts>,
    subscript: Parsed<'s, 't, Operand>,
    place: Place,
    begin: Place,
    behind: &'s [Lexeme<'t>],
) -> Outcome<'s, 't, Subscripts>
    ensures { Gives (got_of subscripts_of) result
        (Some (with_subscript (got_of subscripts_of row.entry) (got_of operand_of subscript.entry)
        (tokens_of behind.now))) }
{
    let Parsed {
        tree: subscripts,
        fault: row_fault,
        rest: _,
    } = row;
    let Subscripts {
        mut exprs,
        mut places,
    } = subscripts;
    let Parsed {
        tree,
        fault,
        rest: _,
    } = subscript;
    let number = number_in(tree);
    let fault = told_sort(fault, number.is_number, number.written.is_number(), place);
    add_part(&mut exprs, number.expr)?;
    add_part(&mut places, begin)?;
    let tree = Subscripts { exprs, places };
    Ok(Parsed {
        tree,
        fault: earlier(row_fault, fault),
        rest: behind,
    })
}
