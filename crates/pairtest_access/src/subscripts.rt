//! The subscripts of an access, and the loops round it.

ghost use Rattle.std.specs.Prelude.{◌≡◌, ◌⊎◌, List, map, reverse, length, Some, IfOk, IfErr};
ghost use Rattle.ktree.specs.View.{expr_of, exprs_of};
ghost use Rattle.affine.specs.Affine.{coefficient_at};
ghost use Rattle.affine_expr.specs.Forms.{form_of};
ghost use Rattle.affine_expr.specs.declared.faults.Fault.TheVariants.{OutOfMemory};
ghost use Rattle.pairtest_access.specs.Refused.{Because, AreNotAffine, SubscriptFails, SubscriptsFail};
ghost use Rattle.pairtest_access.specs.Found.{AreEach, IsSubscript, coefficients, inner_loops};

use affine::{Form, Term};
use affine_expr::{Fault, form_of, subscript_place};
use ktree::{Expr, NamePlaces, Place};
use nest_loop::Canonical;
use pairtest::Subscript;
use pairtest_counter::{EnclosingLoop, EnclosingLoops, copy_of};
use std::alloc::Global;

/// The coefficient of the counter of the loop with so many loops round it.
fn coefficient(terms: &[Term], level: usize) -> i64
    ensures { result ≡ coefficient_at terms.now level }
{
    let Some((term, terms)) = terms.split_first() else {
        return 0;
    };
    if term.variable.0 as usize == level {
        term.coefficient
    } else {
        coefficient(terms, level)
    }
}

/// The coefficients of the counters of so many loops, the outermost first.
fn coefficients(alloc: Global, form: &Form, levels: usize) -> Result<Vec<i64>, Fault>
    ensures ok { IfOk result (λ found. found.items ≡ coefficients levels form.now) }
    ensures err { IfErr result (λ fault. fault ≡ OutOfMemory) }
{
    let mut found = Vec::new(alloc);
    for level in 0..levels {
        found.push(coefficient(form.terms(), level))?;
    }
    Ok(found)
}

/// A subscript in the counters of the loops of a chain.
fn subscript(
    alloc: Global,
    chain: &EnclosingLoops,
    expression: &Expr,
    place: Place,
) -> Result<Subscript, Fault>
    ensures ok { IfOk result (IsSubscript chain.now (expr_of expression.now)) }
    ensures err { IfErr result
        (λ fault. Because (SubscriptFails chain.now (expr_of expression.now) fault) fault) }
{
    let form = form_of(alloc, expression, chain.bounds(), place)?;
    let counted = chain.in_counters(alloc, &form, place)?;
    Ok(Subscript {
        constant: counted.constant_term(),
        coefficients: coefficients(alloc, &counted, chain.levels().len())?,
    })
}

/// The subscripts of an access in the counters of the loops of a chain.
pub(crate) fn subscripts(
    alloc: Global,
    chain: &EnclosingLoops,
    expressions: &[Expr],
    mention: &NamePlaces,
) -> Result<Vec<Subscript>, Fault>
    ensures ok { IfOk result (λ found. AreEach (IsSubscript chain.now) (exprs_of expressions.now)
        found.items) }
    ensures err { IfErr result
        (λ fault. Because (SubscriptsFail chain.now (exprs_of expressions.now) fault) fault) }
{
    let mut found = Vec::new(alloc);
    for (i, expression) in expressions.iter().enumerate() {
        let place = subscript_place(mention, i);
        found.push(subscript(alloc, chain, expression, place)?)?;
    }
    Ok(found)
}

/// The forms of the subscripts of an access in the variables of the loops of a chain.
pub(crate) fn variable_forms(
    alloc: Global,
    chain: &EnclosingLoops,
    expressions: &[Expr],
    mention: &NamePlaces,
) -> Result<Vec<Form>, Fault>
    ensures ok { IfOk result (λ found. AreEach (λ e f. form_of chain.now.box e ≡ Some f)
        (exprs_of expressions.now) found.items) }
    ensures err { IfErr result
        (Because (AreNotAffine chain.now.box (exprs_of expressions.now))) }
{
    let mut found = Vec::new(alloc);
    for (i, expression) in expressions.iter().enumerate() {
        let place = subscript_place(mention, i);
        found.push(form_of(alloc, expression, chain.bounds(), place)?)?;
    }
    Ok(found)
}

/// The loops of a chain inside the first so many, the innermost first.
fn inner_loops(chain: &EnclosingLoops, outer: usize) -> &[EnclosingLoop]
    ensures { reverse result.now ≡ inner_loops outer chain.now.levels }
{
    let levels = chain.levels();
    &levels[..levels.len().saturating_sub(outer)]
}

/// How often loops turn at most, the last loop first.
fn counts(alloc: Global, levels: &[EnclosingLoop]) -> Result<Vec<u64>, Fault>
    ensures ok { IfOk result (λ found. found.items ≡ map (λ v. v.most) (reverse levels.now)) }
    ensures err { IfErr result (λ fault. fault ≡ OutOfMemory) }
{
    let Some((level, outer)) = levels.split_first() else {
        return Ok(Vec::new(alloc));
    };
    let mut found = counts(alloc, outer)?;
    found.push(level.most)?;
    Ok(found)
}

/// The canonical loops, the last loop first.
fn canonicals(alloc: Global, levels: &[EnclosingLoop]) -> Result<Vec<Canonical>, Fault>
    ensures ok { IfOk result (λ found. found.items ≡ map (λ v. v.canonical) (reverse levels.now)) }
    ensures err { IfErr result (λ fault. fault ≡ OutOfMemory) }
{
    let Some((level, outer)) = levels.split_first() else {
        return Ok(Vec::new(alloc));
    };
    let mut found = canonicals(alloc, outer)?;
    found.push(copy_of(&level.canonical)?)?;
    Ok(found)
}

/// How often the loops of a chain inside the first so many turn at most, the outermost first.
pub fn inner_counts(alloc: Global, chain: &EnclosingLoops, outer: usize) -> Result<Vec<u64>, Fault>
    ensures ok { IfOk result (λ found. found.items
        ≡ map (λ v. v.most) (inner_loops outer chain.now.levels)) }
    ensures err { IfErr result (λ fault. fault ≡ OutOfMemory) }
{
    counts(alloc, inner_loops(chain, outer))
}

/// The canonical loops of a chain inside the first so many, the outermost first.
pub fn inner_canonicals(
    alloc: Global,
    chain: &EnclosingLoops,
    outer: usize,
) -> Result<Vec<Canonical>, Fault>
    ensures ok { IfOk result (λ found. found.items
        ≡ map (λ v. v.canonical) (inner_loops outer chain.now.levels)) }
    ensures err { IfErr result (λ fault. fault ≡ OutOfMemory) }
{
    canonicals(alloc, inner_loops(chain, outer))
}
