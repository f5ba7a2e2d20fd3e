//! What the lines of a scan and of its loop say.

ghost use Rattle.std.specs.Prelude.{◌≡◌, ◌||◌, List, ◌∷◌, Some, map, option_map};
ghost use Rattle.std.specs.List.{list_all};
ghost use Rattle.semantics.specs.Tree.{Variable};
ghost use Rattle.semantics.specs.Directives.Directive.{Clause as Over};
ghost use Rattle.semantics.specs.Directives.Clauses.{is_scan, inscan_of};
ghost use Rattle.ktree.specs.DirectiveView.{name_of, directive_of};
ghost use Rattle.pragma_named.specs.Views.{resolved_clause};
ghost use Rattle.pragma_named.specs.Known.{kept, lines_known};
ghost use Rattle.flow_reduction.specs.Reduced.{reduction_of};
ghost use Rattle.flow_scan.specs.Lines.{scan_said, scan_on, is_loop, is_loop_line, associates_one, associates_one_on, suits_scan, sole_of, scanned};
ghost use Rattle.flow_scan.specs.Scans.{is_scan_loop};
ghost use Rattle.flow_scan.specs.Views.{line_said, reduced_there};

use flow_reduction::Reduction;
use ktree::{Clause, Directive, Place, Written};
use pragma::{Directives, loop_of};
use pragma_named::{LineClauses, Named, clauses_known};

/// What a `scan` directive says (OpenMP 5.2, 5.6).
#[derive(Clone, Copy)]
pub(crate) struct ScanLine<'d> {
    pub place: Place,
    pub inclusive: bool,
    pub name: &'d Written,
}

/// What a directive at a place says, where it is a `scan`.
fn said_by(directive: &Directive<Written>, place: Place) -> Option<ScanLine<'_>>
    ensures { option_map line_said result ≡ scan_said (Some (directive_of name_of directive.now)) }
{
    match directive {
        Directive::ScanInclusive(name) => Some(ScanLine {
            place,
            inclusive: true,
            name,
        }),
        Directive::ScanExclusive(name) => Some(ScanLine {
            place,
            inclusive: false,
            name,
        }),
        _ => None,
    }
}

/// What the line at a place says, where it is a `scan` directive.
#[tactic(auto, using(crate::proofs::LinesLaw::said_none))]
pub(crate) fn scan_line<'d>(directives: &'d Directives<'_>, place: Place) -> Option<ScanLine<'d>>
    ensures { option_map line_said result ≡ scan_on directives.now place.line }
{
    let Ok(directive) = directives.directive(place) else {
        return None;
    };
    said_by(directive, place)
}

/// Whether a directive is a loop's.
fn is_loop(directive: &Directive<Written>) -> bool
    ensures { result ≡ is_loop (Some (directive_of name_of directive.now)) }
{
    match directive {
        Directive::ParallelFor(_) => true,
        Directive::For(_) => true,
        _ => false,
    }
}

/// Whether the line at a place is.
#[tactic(auto, using(crate::proofs::LinesLaw::loop_none))]
fn is_loop_line(directives: &Directives, place: Place) -> bool
    ensures { result ≡ is_loop_line directives.now place.line }
{
    let Ok(directive) = directives.directive(place) else {
        return false;
    };
    is_loop(directive)
}

/// The reduction of a scan that a clause is.
fn scan_clause(clause: &Clause<Named>) -> Option<Reduction>
    ensures { reduced_there result ≡ inscan_of (resolved_clause clause.now) }
{
    match clause {
        Clause::Inscan(operator, named) => Some(Reduction {
            variable: named.variable,
            operator: *operator,
        }),
        _ => None,
    }
}

/// Whether a clause is such a reduction.
fn is_scan_clause(clause: &Clause<Named>) -> bool
    ensures { (rest : List (Over Variable)) → is_scan (resolved_clause clause.now ∷ rest)
        ≡ (result || is_scan rest) }
{
    match clause {
        Clause::Inscan(_, _) => true,
        _ => false,
    }
}

/// Whether one of these clauses is such a reduction.
fn has_scan_clause(clauses: &[Clause<Named>]) -> bool
    ensures { result ≡ is_scan (map resolved_clause clauses.now) }
{
    for clause in clauses {
        if is_scan_clause(clause) {
            return true;
        }
    }
    false
}

/// The one reduction of a scan among these clauses.
pub(crate) fn sole_scan(clauses: &[Clause<Named>]) -> Option<Reduction>
    ensures { option_map reduction_of result ≡ sole_of (scanned (map resolved_clause clauses.now)) }
{
    let mut sole = None;
    for clause in clauses {
        if let Some(reduction) = scan_clause(clause) {
            if sole.is_some() {
                return None;
            }
            sole = Some(reduction);
        }
    }
    sole
}

/// Whether a directive associates one loop.
fn associates_one(directive: &Directive<Written>) -> bool
    ensures { result ≡ associates_one (Some (directive_of name_of directive.now)) }
{
    match loop_of(directive) {
        None => false,
        Some(said) => said.associated_loops() == 1,
    }
}

/// Whether that on the line at a place does (OpenMP 5.2, 4.4.3).
#[tactic(auto, using(crate::proofs::LinesLaw::one_none))]
pub(crate) fn associates_one_at(directives: &Directives, place: Place) -> bool
    ensures { result ≡ associates_one_on directives.now place.line }
{
    let Ok(directive) = directives.directive(place) else {
        return false;
    };
    associates_one(directive)
}

/// Whether a clause may stand beside it.
fn suits_scan(clause: &Clause<Named>) -> bool
    ensures { result ≡ suits_scan (resolved_clause clause.now) }
{
    match clause {
        Clause::Schedule(_) => false,
        Clause::Ordered => false,
        Clause::OrderedLoops(_) => false,
        Clause::Reduction(_, _) => false,
        _ => true,
    }
}

/// Whether each of these may.
pub(crate) fn suit_scan(clauses: &[Clause<Named>]) -> bool
    ensures { result ≡ list_all suits_scan (map resolved_clause clauses.now) }
{
    for clause in clauses {
        if !suits_scan(clause) {
            return false;
        }
    }
    true
}

/// Whether the line at a place is that of a scan's loop, by the clauses that count for it.
pub(crate) fn is_scan_loop(directives: &Directives, lines: &LineClauses, place: Place) -> bool
    ensures { result ≡ is_scan_loop directives.now (lines_known (kept lines.now)) place.line }
{
    is_loop_line(directives, place) && has_scan_clause(clauses_known(lines, place.line))
}
