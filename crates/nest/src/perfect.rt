//! The nests of parallel loops (OpenMP 5.2, 4.4.1 to 4.4.3).

ghost use Rattle.std.specs.Prelude.{◌≡◌, ◌⊎◌, ◌*◌, ◌≤◌, ◌^◌, ℕ, false, List, ◌++◌, length, IfOk, IfErr, IfSome, OnOk, OnErr, MatchOption, Some};
ghost use Rattle.std.specs.Option.{SomeIff};
ghost use Rattle.ktree.specs.View.{stmt_of};
ghost use Rattle.affine_expr.specs.Forms.{is_counter};
ghost use Rattle.affine_expr.specs.declared.faults.Fault.TheVariants.{OutOfMemory};
ghost use Rattle.nest_loop.specs.Canonical.{canonical};
ghost use Rattle.nest_loop.specs.declared.head.Canonical as canonicals;
ghost use Rattle.nest.specs.Heads.{head_of};
ghost use Rattle.nest_loop.specs.Facts.{FactsOf};
ghost use Rattle.nest.specs.Facts.{product_of};
ghost use Rattle.nest.specs.Judged.{Decides, DecidesBy};
ghost use Rattle.nest_space.specs.Space.{Turns, IsSpace};
ghost use Rattle.nest_space.specs.Nests.{given, AreModest, AreRunsOf};
ghost use Rattle.nest_space.specs.Heads.{HasIterations};
ghost use Rattle.nest.specs.Perfect.{NestHas, AreRectangular, IsNestWithin};

use crate::directed::Found;
use crate::earlier::both;
use crate::heads::{as_loop, depends_on_nest, is_perfect};
use affine::VarBox;
use affine_expr::Fault;
use ktree::{Head, Place, Stmt};
use nest_loop::{Canonical, LoopFacts, canonical_of};
use nest_space::{Space, Value, product_within};
use std::alloc::Global;

/// A loop's form in the box of the loops round its nest, of which none has its variable.
fn independent(alloc: Global, head: &Head, bounds: &VarBox) -> Result<Canonical, Fault>
    ensures ok { IfOk result (λ l.
        (canonical bounds.now (head_of head.now).variable (head_of head.now).start
        (head_of head.now).test (head_of head.now).step ≡ Some l)
        × (is_counter bounds.now (head_of head.now).variable ≡ false)) }
    ensures err { IfErr result
        (λ fault. (fault ≡ OutOfMemory)
        ⊎ ((l : canonicals.Canonical)
        → canonical bounds.now (head_of head.now).variable (head_of head.now).start
        (head_of head.now).test (head_of head.now).step ≡ Some l
        → is_counter bounds.now (head_of head.now).variable ≡ false → ⊥)) }
{
    let canonical = canonical_of(alloc, head, bounds)?;
    if bounds.has(head.variable) {
        return Err(Fault::NotPerfect(head.place));
    }
    Ok(canonical)
}

/// What is told of a loop that has no form there: that the nest is not rectangular, where a bound mentions one of the nest's
/// variables.
fn form_fault(head: &Head, mentions: bool, fault: Fault) -> Fault
    ensures { fault ≡ OutOfMemory → result ≡ OutOfMemory }
{
    match fault {
        Fault::NotAffine(_) if mentions => Fault::NotPerfect(head.place),
        _ => fault,
    }
}

/// Puts down the forms of so many loops, one directly in the other, in the box of the loops round them. They are the
/// innermost of a nest of `whole` loops, whose outermost is `first`.
fn forms(
    alloc: Global,
    depth: u64,
    statement: &Stmt,
    bounds: &VarBox,
    whole: u64,
    first: &Stmt,
    place: Place,
) -> Result<Vec<Canonical>, Fault>
    ensures ok { IfOk result (λ ls. NestHas (λ loops. AreRectangular bounds.now loops ls.items)
        depth (stmt_of statement.now)) }
    ensures err { IfErr result
        (λ fault. (fault ≡ OutOfMemory)
        ⊎ (NestHas (λ loops. (ls : List canonicals.Canonical)
        × AreRectangular bounds.now loops ls) depth (stmt_of statement.now) → ⊥)) }
{
    if depth == 0 {
        return Ok(Vec::new(alloc));
    }
    let Some(level) = as_loop(statement) else {
        return Err(Fault::NotPerfect(place));
    };
    let canonical = match independent(alloc, level.head, bounds) {
        Ok(canonical) => canonical,
        Err(fault) => {
            let mentions = depends_on_nest(level.head, whole, first);
            return Err(form_fault(level.head, mentions, fault));
        }
    };
    let mut forms = forms(alloc, depth - 1, level.body, bounds, whole, first, place)?;
    forms.insert(0, canonical)?;
    Ok(forms)
}

/// How often the first of some loops turn at most, multiplied, if that is at most 2^24.
fn product(depth: u64, loops: &[LoopFacts]) -> Option<u64>
    ensures { SomeIff result (product_of depth loops.now ≤ 2 ^ 24) (product_of depth loops.now) }
{
    if depth == 0 {
        return Some(1);
    }
    let Some((first, inner)) = loops.split_first() else {
        return Some(1);
    };
    product_within(first.trip_count, product(depth - 1, inner))
}

/// Whether so many loops have at most so many iterations.
fn is_small(depth: u64, most: u64, found: Found<'_>, place: Place) -> Result<(), Fault>
    requires { most ≤ 2 ^ 24 }
    ensures ok { OnOk result (product_of depth found.entry.loops.now ≤ most) }
    ensures err { OnErr result (depth ≤ length found.entry.loops.now
        → product_of depth found.entry.loops.now ≤ most → ⊥) }
{
    if (found.loops.len() as u64) < depth {
        return Err(found.missing);
    }
    let Some(iterations) = product(depth, found.loops) else {
        return Err(Fault::Limit(place));
    };
    if iterations > most {
        return Err(Fault::Limit(place));
    }
    Ok(())
}

/// Whether each of so many loops has a form in the box of the loops round them.
fn is_rectangular(
    alloc: Global,
    depth: u64,
    statement: &Stmt,
    bounds: &VarBox,
    place: Place,
) -> Result<(), Fault>
    ensures { Decides result
        (NestHas (λ loops. (ls : List canonicals.Canonical) × AreRectangular bounds.now loops ls)
        depth (stmt_of statement.now)) }
{
    forms(alloc, depth, statement, bounds, depth, statement, place)?;
    Ok(())
}

/// Where a loop's `for` stands, or else its directive line.
fn first_place(statement: &Stmt, directive: Place) -> Place {
    match as_loop(statement) {
        Some(level) => level.head.place,
        None => directive,
    }
}

/// Whether a statement behind a directive line at a place is a right nest of so many loops with at most so many iterations, by the facts
/// of its loops.
pub fn right_nest(
    alloc: Global,
    depth: u64,
    most: u64,
    statement: &Stmt,
    found: Found<'_>,
    bounds: &VarBox,
    directive: Place,
) -> Result<(), Fault>
    requires { most ≤ 2 ^ 24 }
    ensures { DecidesBy (FactsOf bounds.now (stmt_of statement.now) found.entry.loops.now) result
        (IsNestWithin most bounds.now depth (stmt_of statement.now)) }
{
    let place = first_place(statement, directive);
    if !is_perfect(depth, statement) {
        return Err(Fault::NotPerfect(place));
    }
    let rectangular = is_rectangular(alloc, depth, statement, bounds, place);
    let small = is_small(depth, most, found, place);
    both(small, rectangular)
}

/// The loops of a perfect, rectangular nest, the outermost first, each with its form in the box of the loops round the nest
/// (OpenMP 5.2, 4.4.1 and 4.4.3).
#[derive(Drop)]
pub struct Nest {
    pub loops: Vec<Canonical>,
}

impl Nest {
    /// The nest of so many loops that a statement is, inside the loops of a box.
    ///
    /// # Errors
    ///
    /// `NotPerfect`, at the first `for` where there are no such loops, one directly in the other, and at the `for` of a loop
    /// whose bounds mention the variable of another; the fault of a loop that is not canonical; `OutOfMemory`.
    pub fn new(
        alloc: Global,
        depth: u64,
        statement: &Stmt,
        bounds: &VarBox,
        directive: Place,
    ) -> Result<Nest, Fault>
        ensures ok { IfOk result (λ nest. NestHas
            (λ loops. AreRectangular bounds.now loops nest.loops.items) depth
            (stmt_of statement.now)) }
        ensures err { IfErr result
            (λ fault. (fault ≡ OutOfMemory)
            ⊎ (NestHas (λ loops. (ls : List canonicals.Canonical)
            × AreRectangular bounds.now loops ls) depth (stmt_of statement.now) → ⊥)) }
    {
        let place = first_place(statement, directive);
        let loops = forms(alloc, depth, statement, bounds, depth, statement, place)?;
        Ok(Nest { loops })
    }

    /// Its iterations where the variables round it have these values, and those without a value are 0; None as for
    /// [`Space::at`] (OpenMP 5.2, 4.4.2).
    pub fn at(&self, alloc: Global, values: &[Value]) -> Option<Space>
        ensures exact { MatchOption result
            ((ts : List Turns) → AreModest values.now
            → AreRunsOf self.now.loops.items (given values.now) ts → IsSpace ts → ⊥)
            (λ ts. AreRunsOf self.now.loops.items (given values.now) ts) }
        ensures loops { IfSome result (λ ts. length ts ≡ length self.now.loops.items) }
        ensures iterations { IfSome result
            (λ ts. HasIterations self.now.loops.items (given values.now) ts) }
    {
        Space::at(alloc, self.loops.as_slice(), values)
    }
}
