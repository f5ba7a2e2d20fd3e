//! The parallel regions of a kernel, with their loops.

ghost use Rattle.std.specs.Prelude.{ℕ, ◌≡◌, ◌||◌, ◌++◌, List, [], ◌∷◌, None, Some, map, flat_map, option_map, OnOk, IfOk};
ghost use Rattle.semantics.specs.Tree.{Name, Stmt as Tree};
ghost use Rattle.semantics.specs.Directives.Directive.{Clause as Over};
ghost use Rattle.ktree.specs.View.{stmt_of, with_item, items_of, kernel_of};
ghost use Rattle.semantics.specs.Directives.Clauses.{reduction_of, is_scan};
ghost use Rattle.ktree.specs.DirectiveView.{name_of, operator_of, directive_of};
ghost use Rattle.pragma_clause.specs.Views.{written_clause};
ghost use Rattle.pragma.specs.Views.{said_of};
ghost use Rattle.pragma_attach.specs.Standing.{directive_on};
ghost use Rattle.pragma_region.specs.Listed.{LoopSaid, reduction_named, loop_with, directive_loop, loop_there, shared_line, shared_among, shared_in, region_line, region_behind, regions_in, regions_among, regions_of, parts_of, part_said, line_of, opens, AddsParts, AddsOpened, AddsShared, AddsRegions};

use crate::sinks::sinks_of;
use ktree::{
    AssociatedLoops, Clause, Directive, Item, Kernel, Place, ReductionOperator, Stmt, Written,
};
use pragma::{Directives, ParallelFor, doacross_of, loop_of};
use std::alloc::{AllocError, Global};

/// A reduction variable, by the name that stands in its clause (OpenMP 5.2, 5.5.8).
#[derive(Drop)]
pub struct NamedReduction {
    pub operator: ReductionOperator,
    pub name: String,
}

/// What the line of a loop says, of its iterations and of the variables that it reduces, and the lines of its sinks.
#[derive(Drop)]
pub struct RegionLoop {
    pub said: ParallelFor,
    /// Those of reductions that are no scan's, in the order of the clauses.
    pub reductions: Vec<NamedReduction>,
    /// Whether it has the reduction of a scan (OpenMP 5.2, 5.6).
    pub scan: bool,
    /// Of how many loops a doacross nest it is, if it is one (OpenMP 5.2, 4.4.4).
    pub doacross: Option<AssociatedLoops>,
    /// The offsets of each of its sinks, in the order of the text, one for each element: those of `i-1, j` are -1 and 0 (OpenMP 5.2,
    /// 15.9.6).
    pub sinks: Vec<Vec<i128>>,
}

/// A part of the parallel regions of a kernel, as they stand one behind another: the begin of a region, or a loop of the one that has
/// begun last (OpenMP 5.2, 10.1).
#[derive(Drop)]
pub struct RegionPart {
    /// What the line of a loop says; none at the begin of a region.
    pub said: Option<RegionLoop>,
}

/// Adds the begin of a region.
fn begin_region(parts: &mut Vec<RegionPart>) -> Result<(), AllocError>
    ensures { OnOk result (AddsParts (None ∷ []) parts.old.items parts.new.items) }
{
    parts.push(RegionPart { said: None })?;
    Ok(())
}

/// Adds the variables of a list that are reduced by an operator.
fn add_reduced(
    operator: ReductionOperator,
    names: &[Written],
    reductions: &mut Vec<NamedReduction>,
) -> Result<(), AllocError>
    ensures { OnOk result (map reduction_named reductions.new.items
        ≡ map reduction_named reductions.old.items
        ++ map (λ x. (x, operator_of operator)) (map name_of names.now)) }
{
    for written in names {
        let name = written.name.clone()?;
        reductions.push(NamedReduction { operator, name })?;
    }
    Ok(())
}

/// Adds those of a clause.
fn add_clause(
    clause: &Clause<Written>,
    reductions: &mut Vec<NamedReduction>,
) -> Result<(), AllocError>
    ensures { OnOk result (map reduction_named reductions.new.items
        ≡ map reduction_named reductions.old.items ++ reduction_of (written_clause clause.now)) }
{
    match clause {
        Clause::Reduction(operator, names) => add_reduced(*operator, names, reductions),
        _ => Ok(()),
    }
}

/// The variables that some clauses reduce.
fn reductions_of(
    alloc: Global,
    clauses: &[Clause<Written>],
) -> Result<Vec<NamedReduction>, AllocError>
    ensures { IfOk result (λ reductions. map reduction_named reductions.items
        ≡ flat_map reduction_of (map written_clause clauses.now)) }
{
    let mut reductions = Vec::new(alloc);
    for clause in clauses {
        add_clause(clause, &mut reductions)?;
    }
    Ok(reductions)
}

/// Whether a clause is the reduction of a scan.
fn is_scan_clause(clause: &Clause<Written>) -> bool
    ensures { (rest : List (Over Name)) → is_scan (written_clause clause.now ∷ rest)
        ≡ (result || is_scan rest) }
{
    match clause {
        Clause::Inscan(_, _) => true,
        _ => false,
    }
}

/// Whether one of some clauses is (OpenMP 5.2, 5.6).
fn has_scan(clauses: &[Clause<Written>]) -> bool
    ensures { result ≡ is_scan (map written_clause clauses.now) }
{
    for clause in clauses {
        if is_scan_clause(clause) {
            return true;
        }
    }
    false
}

/// Adds a loop that says this, with these clauses and this statement behind them.
fn add_loop(
    alloc: Global,
    directives: &Directives,
    parts: &mut Vec<RegionPart>,
    said: ParallelFor,
    clauses: &[Clause<Written>],
    statement: &Stmt,
) -> Result<(), AllocError>
    ensures { OnOk result (AddsParts (Some (loop_with directives.now (said_of said)
        (map written_clause clauses.now) (stmt_of statement.now)) ∷ [])
        parts.old.items parts.new.items) }
{
    let (scan, doacross) = (has_scan(clauses), doacross_of(clauses));
    let reductions = reductions_of(alloc, clauses)?;
    let sinks = sinks_of(alloc, directives, clauses, statement)?;
    parts.push(RegionPart {
        said: Some(RegionLoop {
            said,
            reductions,
            scan,
            doacross,
            sinks,
        }),
    })?;
    Ok(())
}

/// Adds the loop of a directive with this statement behind it, if it is one's and its clauses are known.
fn add_loop_of(
    alloc: Global,
    directives: &Directives,
    parts: &mut Vec<RegionPart>,
    directive: &Directive<Written>,
    statement: &Stmt,
) -> Result<(), AllocError>
    ensures { OnOk result (AddsParts (map Some (directive_loop directives.now
        (directive_of name_of directive.now) (stmt_of statement.now)))
        parts.old.items parts.new.items) }
{
    let Some(said) = loop_of(directive) else {
        return Ok(());
    };
    match directive {
        Directive::ParallelFor(clauses) | Directive::For(clauses) => add_loop(
            alloc,
            directives,
            parts,
            said,
            clauses.as_slice(),
            statement,
        ),
        _ => Ok(()),
    }
}

/// A `for` directive, and no other.
fn shared_loop(directive: &Directive<Written>) -> Option<&Directive<Written>>
    ensures { (text : List ℕ) (behind : Tree) → loop_there text
        (option_map (λ d. directive_of name_of d.now) result) behind
        ≡ shared_line text (Some (directive_of name_of directive.now)) behind }
{
    match directive {
        Directive::For(_) => Some(directive),
        _ => None,
    }
}

/// The `for` directive at a place.
fn shared_at<'d>(directives: &'d Directives, place: Place) -> Option<&'d Directive<Written>>
    ensures { (text : List ℕ) (behind : Tree) → loop_there text
        (option_map (λ d. directive_of name_of d.now) result) behind
        ≡ shared_line text (directive_on directives.now place.line) behind }
{
    let Ok(directive) = directives.directive(place) else {
        return None;
    };
    shared_loop(directive)
}

/// Adds the loop of the `for` directive at a place, with this statement behind it.
fn add_shared_at(
    alloc: Global,
    directives: &Directives,
    place: Place,
    statement: &Stmt,
    parts: &mut Vec<RegionPart>,
) -> Result<(), AllocError>
    ensures { OnOk result (AddsParts (map Some (shared_line directives.now
        (directive_on directives.now place.line) (stmt_of statement.now)))
        parts.old.items parts.new.items) }
{
    match shared_at(directives, place) {
        None => Ok(()),
        Some(directive) => add_loop_of(alloc, directives, parts, directive, statement),
    }
}

/// Adds what an item of a `parallel` block is a loop of, behind this line; gives the line behind which the next item stands.
fn add_shared_item(
    alloc: Global,
    directives: &Directives,
    before: Option<Place>,
    item: &Item,
    parts: &mut Vec<RegionPart>,
) -> Result<Option<Place>, AllocError>
    ensures { IfOk result (λ next. AddsShared directives.now before (with_item item.now) next
        parts.old.items parts.new.items) }
{
    match item {
        Item::Directive(place) => Ok(Some(*place)),
        Item::Local(_) => Ok(None),
        Item::Statement(statement) => {
            if let Some(place) = before {
                add_shared_at(alloc, directives, place, statement, parts)?;
            }
            Ok(None)
        }
    }
}

/// Adds the loops of a `parallel` block.
fn add_shared_among(
    alloc: Global,
    directives: &Directives,
    items: &[Item],
    parts: &mut Vec<RegionPart>,
) -> Result<(), AllocError>
    ensures { OnOk result (AddsParts (map Some (shared_among directives.now None
        (items_of items.now))) parts.old.items parts.new.items) }
{
    let mut before = None;
    for item in items {
        before = add_shared_item(alloc, directives, before, item, parts)?;
    }
    Ok(())
}

/// Adds those of a statement, where it is a block.
#[tactic(auto, using(ktree::proofs::Trees::block_items))]
fn add_shared(
    alloc: Global,
    directives: &Directives,
    statement: &Stmt,
    parts: &mut Vec<RegionPart>,
) -> Result<(), AllocError>
    ensures { OnOk result (AddsParts (map Some (shared_in directives.now (stmt_of statement.now)))
        parts.old.items parts.new.items) }
{
    match statement {
        Stmt::Block(items) => add_shared_among(alloc, directives, items, parts),
        _ => Ok(()),
    }
}

/// What stands behind a directive line: a loop, by its directive, a region of loops, or neither.
enum Opened<'d> {
    Loop(&'d Directive<Written>),
    Region,
    Nothing,
}

/// What a directive opens.
fn opened_by(directive: &Directive<Written>) -> Opened<'_>
    ensures { (text : List ℕ) (s : Tree) (shared : List LoopSaid) (inside : List (List LoopSaid))
        → opens text result s shared inside
        ≡ region_line text (Some (directive_of name_of directive.now)) s shared inside }
{
    match directive {
        Directive::ParallelFor(_) => Opened::Loop(directive),
        Directive::Parallel(_) => Opened::Region,
        _ => Opened::Nothing,
    }
}

/// What the line before opens, if one stands there.
fn opened_behind<'d>(directives: &'d Directives, before: Option<Place>) -> Opened<'d>
    ensures { (statement : Tree) (inside : List (List LoopSaid)) → opens directives.now result
        statement (shared_in directives.now statement) inside
        ≡ region_behind directives.now (line_of before) statement inside }
{
    let Some(place) = before else {
        return Opened::Nothing;
    };
    let Ok(directive) = directives.directive(place) else {
        return Opened::Nothing;
    };
    opened_by(directive)
}

/// Adds the region that the line before opens with this statement, and says whether it opens one.
fn add_opened(
    alloc: Global,
    directives: &Directives,
    before: Option<Place>,
    statement: &Stmt,
    parts: &mut Vec<RegionPart>,
) -> Result<bool, AllocError>
    ensures { IfOk result (λ opens. AddsOpened directives.now (line_of before)
        (stmt_of statement.now) opens parts.old.items parts.new.items) }
{
    match opened_behind(directives, before) {
        Opened::Loop(directive) => {
            begin_region(parts)?;
            add_loop_of(alloc, directives, parts, directive, statement)?;
            Ok(true)
        }
        Opened::Region => {
            begin_region(parts)?;
            add_shared(alloc, directives, statement, parts)?;
            Ok(true)
        }
        Opened::Nothing => Ok(false),
    }
}

/// Adds the regions in a statement.
#[cycle(regions)]
#[tactic(auto, using(ktree::proofs::Trees::block_items))]
fn add_in(
    alloc: Global,
    directives: &Directives,
    statement: &Stmt,
    parts: &mut Vec<RegionPart>,
) -> Result<(), AllocError>
    ensures { OnOk result (AddsParts (parts_of (regions_in directives.now
        (stmt_of statement.now))) parts.old.items parts.new.items) }
{
    match statement {
        Stmt::Assign(_, _) => Ok(()),
        Stmt::Update(_, _, _) => Ok(()),
        Stmt::If(_, then, other) => {
            add_in(alloc, directives, then, parts)?;
            match other {
                None => Ok(()),
                Some(other) => add_in(alloc, directives, other, parts),
            }
        }
        Stmt::For(_, body) => add_in(alloc, directives, body, parts),
        Stmt::Block(items) => add_among(alloc, directives, items, parts),
        Stmt::Print(_, _) => Ok(()),
    }
}

/// Adds those that a statement is or has in it, behind this line.
#[cycle(regions)]
fn add_behind(
    alloc: Global,
    directives: &Directives,
    before: Option<Place>,
    statement: &Stmt,
    parts: &mut Vec<RegionPart>,
) -> Result<(), AllocError>
    ensures { OnOk result (AddsParts (parts_of (region_behind directives.now (line_of before)
        (stmt_of statement.now) (regions_in directives.now (stmt_of statement.now))))
        parts.old.items parts.new.items) }
{
    if add_opened(alloc, directives, before, statement, parts)? {
        return Ok(());
    }
    add_in(alloc, directives, statement, parts)
}

/// Adds those of an item behind this line; gives the line behind which the next item stands.
#[cycle(regions)]
fn add_item(
    alloc: Global,
    directives: &Directives,
    before: Option<Place>,
    item: &Item,
    parts: &mut Vec<RegionPart>,
) -> Result<Option<Place>, AllocError>
    ensures { IfOk result (λ next. AddsRegions directives.now before (with_item item.now) next
        parts.old.items parts.new.items) }
{
    match item {
        Item::Directive(place) => Ok(Some(*place)),
        Item::Local(_) => Ok(None),
        Item::Statement(statement) => {
            add_behind(alloc, directives, before, statement, parts)?;
            Ok(None)
        }
    }
}

/// Adds those among a block's items.
#[cycle(regions)]
fn add_among(
    alloc: Global,
    directives: &Directives,
    items: &[Item],
    parts: &mut Vec<RegionPart>,
) -> Result<(), AllocError>
    ensures { OnOk result (AddsParts (parts_of (regions_among directives.now None
        (items_of items.now))) parts.old.items parts.new.items) }
{
    let mut before = None;
    for item in items {
        before = add_item(alloc, directives, before, item, parts)?;
    }
    Ok(())
}

/// The parallel regions of a kernel in the order of the text, with what the lines of their loops say: each `parallel for` is a region of
/// one loop, each `parallel` one of the loops of its block (OpenMP 5.2, 10.1, 11.5 and 17). A loop with clauses that are not known is
/// left out.
///
/// # Errors
///
/// Where memory runs out.
pub fn regions_of(
    alloc: Global,
    directives: &Directives,
    kernel: &Kernel,
) -> Result<Vec<RegionPart>, AllocError>
    ensures { IfOk result (λ parts. map part_said parts.items
        ≡ parts_of (regions_of directives.now (kernel_of kernel.now))) }
{
    let mut parts = Vec::new(alloc);
    add_among(alloc, directives, kernel.body.as_slice(), &mut parts)?;
    Ok(parts)
}
