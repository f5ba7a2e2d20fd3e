//! The variables that clauses name (OpenMP 5.2, 5.4), as lists and as sets.

ghost use Rattle.std.specs.Prelude.{◌≡◌, ◌||◌, ℕ, map, flat_map, IfOk, OnOk};
ghost use Rattle.std.specs.List.{list_any};
ghost use Rattle.std.specs.Mem.{FitsInMemory};
ghost use Rattle.semantics.specs.Meaning.Agrees.{is_among};
ghost use Rattle.semantics.specs.Directives.Naming.{variables_in, kept_private, is_none as forbids_default};
ghost use Rattle.ktree.specs.DirectiveView.{clause_of};
ghost use Rattle.pragma_mention.specs.Sets.{holds};
ghost use Rattle.pragma_named.specs.Views.{variable_named, resolved_clause};

use ktree::Clause;
use pragma_mention::note;
use pragma_named::Named;
use std::alloc::{AllocError, Global};
use std::collections::HashSet;
use std::slice::from_ref;

/// What a clause names.
pub(crate) fn names_in<N>(clause: &Clause<N>) -> &[N]
    requires { FitsInMemory N.row }
    ensures { (view : N → ℕ) → map view result.now ≡ variables_in (clause_of view clause.now) }
{
    match clause {
        Clause::Shared(names) => names.as_slice(),
        Clause::Private(names) => names.as_slice(),
        Clause::Firstprivate(names) => names.as_slice(),
        Clause::Lastprivate(names) => names.as_slice(),
        Clause::LastConditional(names) => names.as_slice(),
        Clause::Reduction(_, names) => names.as_slice(),
        Clause::Inscan(_, name) => from_ref(name),
        _ => &[],
    }
}

/// What a clause of a `parallel` makes private.
fn private_names(clause: &Clause<Named>) -> &[Named]
    ensures { map variable_named result.now ≡ kept_private (resolved_clause clause.now) }
{
    match clause {
        Clause::Private(names) | Clause::Firstprivate(names) => names.as_slice(),
        _ => &[],
    }
}

/// Adds what is named to a set.
fn add_names(set: &mut HashSet<u32>, names: &[Named]) -> Result<(), AllocError>
    ensures { OnOk result ((q : ℕ) → holds set.new q
        ≡ (holds set.old q || is_among (map variable_named names.now) q)) }
{
    for named in names {
        note(set, named.variable)?;
    }
    Ok(())
}

/// The variables that clauses name.
pub(crate) fn listed_variables(
    alloc: Global,
    clauses: &[Clause<Named>],
) -> Result<HashSet<u32>, AllocError>
    ensures { IfOk result (λ set. (q : ℕ) → holds set q
        ≡ is_among (flat_map variables_in (map resolved_clause clauses.now)) q) }
{
    let mut set = HashSet::new(alloc);
    for clause in clauses {
        add_names(&mut set, names_in(clause))?;
    }
    Ok(set)
}

/// Those that a `parallel` with these clauses makes private.
pub(crate) fn private_in(
    alloc: Global,
    clauses: &[Clause<Named>],
) -> Result<HashSet<u32>, AllocError>
    ensures { IfOk result (λ set. (q : ℕ) → holds set q
        ≡ is_among (flat_map kept_private (map resolved_clause clauses.now)) q) }
{
    let mut set = HashSet::new(alloc);
    for clause in clauses {
        add_names(&mut set, private_names(clause))?;
    }
    Ok(set)
}

/// Whether a clause is `default(none)`.
fn is_default_none(clause: &Clause<Named>) -> bool
    ensures { result ≡ forbids_default (resolved_clause clause.now) }
{
    matches!(clause, Clause::DefaultNone)
}

/// Whether one of these clauses is (OpenMP 5.2, 5.4.1).
pub(crate) fn has_default_none(clauses: &[Clause<Named>]) -> bool
    ensures { result ≡ list_any forbids_default (map resolved_clause clauses.now) }
{
    for clause in clauses {
        if is_default_none(clause) {
            return true;
        }
    }
    false
}
