//! Loops that a walk enters.

ghost use Rattle.std.specs.Prelude.{◌≡◌, ◌⊎◌, Some, IfOk, IfErr, OnOk, OnErr};
ghost use Rattle.ktree.specs.View.{source_of, cond_of, increment_of, stmt_of};
ghost use Rattle.affine.specs.Box.{EndsFit};
ghost use Rattle.affine.specs.declared.interval.Interval as intervals;
ghost use Rattle.affine_expr.specs.declared.faults.Fault.TheVariants.{OutOfMemory};
ghost use Rattle.nest_loop.specs.declared.head.Canonical as canonicals;
ghost use Rattle.nest_loop.specs.Canonical.{canonical};
ghost use Rattle.nest_loop.specs.Loops.{IsLoop, inside};
ghost use Rattle.nest_loop.specs.Facts.{AreFactsOf};

use crate::assigned::assigns;
use crate::head::{Canonical, canonical_of};
use crate::most::greatest_trip_count;
use crate::walked::side;
use crate::wrapping::wraps;
use affine::{Interval, VarBox};
use affine_expr::{Fault, fault_of_refusal};
use ktree::limits::NESTED_LOOPS;
use ktree::{Head, Stmt};
use std::alloc::Global;

/// A loop with the numbers that its variable may have.
#[derive(Drop)]
pub struct Loop {
    pub canonical: Canonical,
    pub numbers: Interval,
}

/// What is told first of a head whose loop is not canonical or has a bound without a form.
fn first_fault(head: &Head, body: &Stmt, bounds: &VarBox, fault: Fault) -> Fault
    ensures { fault ≡ OutOfMemory → result ≡ OutOfMemory }
{
    match fault {
        Fault::OutOfMemory => fault,
        Fault::NotCanonical(_) => fault,
        _ => {
            if assigns(head.variable, body) {
                Fault::NotCanonical(head.place)
            } else if bounds.len() >= NESTED_LOOPS {
                Fault::Limit(head.place)
            } else {
                fault
            }
        }
    }
}

/// The numbers that the variable of a canonical loop may have, where neither its body nor its bounds nor the loops round it keep it from
/// being one of a nest.
fn numbers_of(
    form: &Canonical,
    head: &Head,
    body: &Stmt,
    bounds: &VarBox,
) -> Result<Interval, Fault>
    requires { canonical bounds.now head.now.variable.0 (source_of head.now.start)
        (cond_of head.now.test) (increment_of head.now.step) ≡ Some form.now }
    ensures ok { IfOk result (λ numbers. IsLoop bounds.now head.now.variable.0
        (source_of head.now.start) (cond_of head.now.test) (increment_of head.now.step)
        (stmt_of body.now) form.now numbers) }
    ensures fits { IfOk result (λ numbers. EndsFit numbers.least numbers.greatest) }
    ensures fault { IfErr result
        (λ fault. (fault ≡ OutOfMemory)
        ⊎ ((l : canonicals.Canonical) (i : intervals.Interval)
        → IsLoop bounds.now head.now.variable.0 (source_of head.now.start)
        (cond_of head.now.test) (increment_of head.now.step) (stmt_of body.now) l i → ⊥)) }
{
    if assigns(head.variable, body) {
        return Err(Fault::NotCanonical(head.place));
    }
    if wraps(form, bounds, head.place)? {
        return Err(Fault::MayWrap(head.place));
    }
    if bounds.len() >= NESTED_LOOPS {
        return Err(Fault::Limit(head.place));
    }
    Ok(side(form, bounds))
}

/// The loop of a head inside those of a box (OpenMP 5.2, 4.4.1 and 4.4.2).
///
/// # Errors
///
/// At the `for`: `NotCanonical`, also where the body assigns the loop's variable; where both bounds have forms, `MayWrap`;
/// `Limit` inside 8 loops. Else the fault of a bound. Or `OutOfMemory`.
pub fn loop_of(alloc: Global, head: &Head, body: &Stmt, bounds: &VarBox) -> Result<Loop, Fault>
    ensures ok { IfOk result (λ made. IsLoop bounds.now head.now.variable.0
        (source_of head.now.start) (cond_of head.now.test) (increment_of head.now.step)
        (stmt_of body.now) made.canonical made.numbers) }
    ensures fits { IfOk result (λ made. EndsFit made.numbers.least made.numbers.greatest) }
    ensures fault { IfErr result
        (λ fault. (fault ≡ OutOfMemory)
        ⊎ ((l : canonicals.Canonical) (i : intervals.Interval)
        → IsLoop bounds.now head.now.variable.0 (source_of head.now.start)
        (cond_of head.now.test) (increment_of head.now.step) (stmt_of body.now) l i → ⊥)) }
{
    let canonical = canonical_of(alloc, head, bounds).map_err(|fault| first_fault(
        head, body, bounds, fault,
    ))?;
    let numbers = numbers_of(&canonical, head, body, bounds)?;
    Ok(Loop { canonical, numbers })
}

/// What is found of a loop: its canonical form, the numbers that its variable may have, and how often it turns at most
/// (OpenMP 5.2, 4.4.1 and 4.4.2).
#[derive(Drop)]
pub struct LoopFacts {
    pub canonical: Canonical,
    pub numbers: Interval,
    pub trip_count: u64,
}

/// The facts of the loop of a head inside those of a box.
fn facts_of(alloc: Global, head: &Head, body: &Stmt, bounds: &VarBox) -> Result<LoopFacts, Fault>
    ensures ok { IfOk result (AreFactsOf bounds.now head.now (stmt_of body.now)) }
    ensures fault { IfErr result
        (λ fault. (fault ≡ OutOfMemory)
        ⊎ ((l : canonicals.Canonical) (i : intervals.Interval)
        → IsLoop bounds.now head.now.variable.0 (source_of head.now.start)
        (cond_of head.now.test) (increment_of head.now.step) (stmt_of body.now) l i → ⊥)) }
{
    let made = loop_of(alloc, head, body, bounds)?;
    let trip_count = greatest_trip_count(alloc, &made.canonical, bounds, head.place)?;
    Ok(LoopFacts {
        canonical: made.canonical,
        numbers: made.numbers,
        trip_count,
    })
}

/// Goes into a loop whose variable has these numbers: the box has them too.
///
/// # Errors
///
/// `Limit` at the `for`, where the numbers are not within 2^33; `OutOfMemory`. The box is then as it was.
pub fn go_into(head: &Head, numbers: Interval, bounds: &mut VarBox) -> Result<(), Fault>
    ensures ok { OnOk result (bounds.new ≡ inside bounds.old head.now.variable.0 numbers) }
    ensures same { OnErr result (bounds.new ≡ bounds.old) }
    ensures err { IfErr result
        (λ fault. (fault ≡ OutOfMemory) ⊎ (EndsFit numbers.least numbers.greatest → ⊥)) }
{
    let least = i128::from(numbers.least);
    let greatest = i128::from(numbers.greatest);
    match bounds.bind(head.variable, least, greatest, head.place) {
        Ok(()) => Ok(()),
        Err(refusal) => Err(fault_of_refusal(refusal, head.place)),
    }
}

/// The facts of the loop of a head inside those of a box, which then has the numbers of its variable too (OpenMP 5.2, 4.4.1
/// and 4.4.2).
///
/// # Errors
///
/// Those of [`loop_of`]. The box is then as it was.
pub fn enter(
    alloc: Global,
    head: &Head,
    body: &Stmt,
    bounds: &mut VarBox,
) -> Result<LoopFacts, Fault>
    ensures ok { IfOk result (AreFactsOf bounds.old head.now (stmt_of body.now)) }
    ensures inside { IfOk result
        (λ facts. bounds.new ≡ inside bounds.old head.now.variable.0 facts.numbers) }
    ensures err { OnErr result (bounds.new ≡ bounds.old) }
    ensures fault { IfErr result
        (λ fault. (fault ≡ OutOfMemory)
        ⊎ ((l : canonicals.Canonical) (i : intervals.Interval)
        → IsLoop bounds.old head.now.variable.0 (source_of head.now.start)
        (cond_of head.now.test) (increment_of head.now.step) (stmt_of body.now) l i → ⊥)) }
{
    let facts = facts_of(alloc, head, body, bounds)?;
    go_into(head, facts.numbers, bounds)?;
    Ok(facts)
}
