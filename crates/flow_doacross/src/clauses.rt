//! The clauses of a doacross nest.

ghost use Rattle.std.specs.Prelude.{◌≡◌, List, ◌∷◌, map};
ghost use Rattle.std.specs.List.{list_all};
ghost use Rattle.semantics.specs.Tree.{Variable};
ghost use Rattle.semantics.specs.Directives.Directive.{Clause as Over};
ghost use Rattle.semantics.specs.Directives.Clauses.{doacross_of};
ghost use Rattle.pragma.specs.Views.{or_loops};
ghost use Rattle.pragma_named.specs.Views.{resolved_clause};
ghost use Rattle.flow_doacross.specs.Lines.{suits_doacross};

use ktree::{AssociatedLoops, Clause};
use pragma_named::Named;

/// The number of loops of a clause, where it is `ordered(n)`.
fn ordered_loops(clause: &Clause<Named>) -> Option<AssociatedLoops>
    ensures { (rest : List (Over Variable)) → doacross_of (resolved_clause clause.now ∷ rest)
        ≡ or_loops result (doacross_of rest) }
{
    match clause {
        Clause::OrderedLoops(loops) => Some(*loops),
        _ => None,
    }
}

/// The number of loops of the nest that these clauses make of a loop, if there is one (OpenMP 5.2, 4.4.4).
pub(crate) fn doacross_of(clauses: &[Clause<Named>]) -> Option<AssociatedLoops>
    ensures { result ≡ doacross_of (map resolved_clause clauses.now) }
{
    for clause in clauses {
        let found = ordered_loops(clause);
        if found.is_some() {
            return found;
        }
    }
    None
}

/// Whether a clause may stand beside `ordered(n)`.
fn suits_doacross(clause: &Clause<Named>) -> bool
    ensures { result ≡ suits_doacross (resolved_clause clause.now) }
{
    match clause {
        Clause::Collapse(_) => false,
        Clause::Reduction(_, _) => false,
        Clause::Inscan(_, _) => false,
        Clause::Lastprivate(_) => false,
        Clause::LastConditional(_) => false,
        _ => true,
    }
}

/// Whether each of these may.
pub(crate) fn suit_doacross(clauses: &[Clause<Named>]) -> bool
    ensures { result ≡ list_all suits_doacross (map resolved_clause clauses.now) }
{
    for clause in clauses {
        if !suits_doacross(clause) {
            return false;
        }
    }
    true
}
