//! Kernels without the directive lines of their parallel regions, of their ordered ones, of their scans and of their doacross nests.

ghost use Rattle.std.specs.Prelude.{◌≡◌, Some, IfOk};
ghost use Rattle.semantics.specs.Directives.Placed.{is_team};
ghost use Rattle.ktree.specs.DirectiveView.{name_of, directive_of};
ghost use Rattle.ktree.specs.View.{stmt_of, items_of, kernel_of};
ghost use Rattle.law_lines.specs.Without.{without_in, without_among};
ghost use Rattle.pragma_region.specs.Regions.{is_region_line, is_ordered, is_ordered_line, is_scan, is_scan_line, is_doacross, is_doacross_line, is_left_out, alone};

use ktree::{Directive, Item, Kernel, Place, Stmt, Written};
use pragma::Directives;
use std::alloc::{AllocError, Global};

/// Whether a directive is a `parallel` (OpenMP 5.2, 10.1).
fn is_parallel(directive: &Directive<Written>) -> bool
    ensures { result ≡ is_team (Some (directive_of name_of directive.now)) }
{
    match directive {
        Directive::Parallel(_) => true,
        _ => false,
    }
}

/// Whether the line at a place is a `parallel` directive.
#[tactic(auto, using(crate::proofs::Lines::region_none))]
pub(crate) fn is_region(directives: &Directives, place: Place) -> bool
    ensures { result ≡ is_region_line directives.now place.line }
{
    let Ok(directive) = directives.directive(place) else {
        return false;
    };
    is_parallel(directive)
}

/// Whether a directive is the `ordered` of a region (OpenMP 5.2, 15.10.1).
fn is_ordered_directive(directive: &Directive<Written>) -> bool
    ensures { result ≡ is_ordered (Some (directive_of name_of directive.now)) }
{
    match directive {
        Directive::Ordered => true,
        _ => false,
    }
}

/// Whether the line at a place is the `ordered` directive of a region (OpenMP 5.2, 15.10.1).
#[tactic(auto, using(crate::proofs::Lines::ordered_none))]
pub fn is_ordered(directives: &Directives, place: Place) -> bool
    ensures { result ≡ is_ordered_line directives.now place.line }
{
    let Ok(directive) = directives.directive(place) else {
        return false;
    };
    is_ordered_directive(directive)
}

/// Whether a directive is a `scan` (OpenMP 5.2, 5.6).
fn is_scan_directive(directive: &Directive<Written>) -> bool
    ensures { result ≡ is_scan (Some (directive_of name_of directive.now)) }
{
    match directive {
        Directive::ScanInclusive(_) => true,
        Directive::ScanExclusive(_) => true,
        _ => false,
    }
}

/// Whether the line at a place is a `scan` directive (OpenMP 5.2, 5.6).
#[tactic(auto, using(crate::proofs::Lines::scan_none))]
pub fn is_scan(directives: &Directives, place: Place) -> bool
    ensures { result ≡ is_scan_line directives.now place.line }
{
    let Ok(directive) = directives.directive(place) else {
        return false;
    };
    is_scan_directive(directive)
}

/// Whether a directive is a sink or a source of a doacross nest (OpenMP 5.2, 15.9.6).
fn is_doacross_directive(directive: &Directive<Written>) -> bool
    ensures { result ≡ is_doacross (Some (directive_of name_of directive.now)) }
{
    match directive {
        Directive::DoacrossSource => true,
        Directive::DoacrossSink(_) => true,
        _ => false,
    }
}

/// Whether the line at a place is a sink or a source of a doacross nest (OpenMP 5.2, 15.9.6).
#[tactic(auto, using(crate::proofs::Lines::doacross_none))]
pub fn is_doacross(directives: &Directives, place: Place) -> bool
    ensures { result ≡ is_doacross_line directives.now place.line }
{
    let Ok(directive) = directives.directive(place) else {
        return false;
    };
    is_doacross_directive(directive)
}

/// Whether the line at a place is one of those that [`dissolve_regions`] leaves out.
pub fn is_left_out(directives: &Directives, place: Place) -> bool
    ensures { result ≡ is_left_out directives.now place.line }
{
    is_region(directives, place)
        || is_ordered(directives, place)
        || is_scan(directives, place)
        || is_doacross(directives, place)
}

/// A statement without these lines.
#[cycle(statement)]
#[tactic(auto, using(ktree::proofs::Trees::block_items))]
fn statement_without(
    alloc: Global,
    directives: &Directives,
    statement: Stmt,
) -> Result<Stmt, AllocError>
    ensures { IfOk result (λ s. stmt_of s
        ≡ without_in (is_left_out directives.now) (stmt_of statement)) }
{
    match statement {
        Stmt::Assign(target, source) => Ok(Stmt::Assign(target, source)),
        Stmt::Update(target, operator, operand) => Ok(Stmt::Update(target, operator, operand)),
        Stmt::If(test, then, other) => {
            let then = boxed_without(alloc, directives, then)?;
            match other {
                None => Ok(Stmt::If(test, then, None)),
                Some(other) => {
                    let other = boxed_without(alloc, directives, other)?;
                    Ok(Stmt::If(test, then, Some(other)))
                }
            }
        }
        Stmt::For(head, body) => {
            let body = boxed_without(alloc, directives, body)?;
            Ok(Stmt::For(head, body))
        }
        Stmt::Block(items) => Ok(Stmt::Block(items_without(alloc, directives, items)?)),
        Stmt::Print(parts, place) => Ok(Stmt::Print(parts, place)),
    }
}

/// A statement in a box.
#[cycle(statement)]
fn boxed_without(
    alloc: Global,
    directives: &Directives,
    statement: Box<Stmt>,
) -> Result<Box<Stmt>, AllocError>
    ensures { IfOk result (λ s. stmt_of s.value
        ≡ without_in (is_left_out directives.now) (stmt_of statement.value)) }
{
    let statement = statement_without(alloc, directives, Box::into_inner(statement))?;
    Ok(Box::new(alloc, statement)?)
}

/// The items of a block.
#[cycle(statement)]
fn items_without(
    alloc: Global,
    directives: &Directives,
    items: Vec<Item>,
) -> Result<Vec<Item>, AllocError>
    ensures { IfOk result (λ kept. items_of kept.items
        ≡ without_among (is_left_out directives.now) (items_of items.items)) }
{
    let mut kept = Vec::new(alloc);
    for item in items {
        match item {
            Item::Directive(place) => {
                if !is_left_out(directives, place) {
                    kept.push(Item::Directive(place))?;
                }
            }
            Item::Local(local) => kept.push(Item::Local(local))?,
            Item::Statement(statement) => {
                kept.push(Item::Statement(boxed_without(alloc, directives, statement)?))?;
            }
        }
    }
    Ok(kept)
}

/// The kernel with each region dissolved: without the lines of its `parallel` directives, those of its ordered regions, those of its
/// scans and those of its doacross nests, so that each of its loops stands behind its own line alone (OpenMP 5.2, 5.6, 10.1, 11.5, 15.9
/// and 15.10).
///
/// # Errors
///
/// Where memory runs out.
pub fn dissolve_regions(
    alloc: Global,
    directives: &Directives,
    kernel: Kernel,
) -> Result<Kernel, AllocError>
    ensures { IfOk result (λ k. kernel_of k ≡ alone directives.now (kernel_of kernel)) }
{
    let Kernel {
        constants,
        variables,
        body,
    } = kernel;
    let body = items_without(alloc, directives, body)?;
    Ok(Kernel {
        constants,
        variables,
        body,
    })
}
