//! The names in clauses, resolved (OpenMP 5.2, 5.1; C11 6.2.1).

ghost use Rattle.std.specs.Prelude.{◌≡◌, map, option_map, IfErr};
ghost use Rattle.semantics.specs.Directives.Annotated.{resolve, resolve_all, resolve_clause, resolve_clauses};
ghost use Rattle.ktree.specs.DirectiveView.{name_of};
ghost use Rattle.cparse_cursor.specs.Names.{names_of};
ghost use Rattle.pragma_clause.specs.Views.{written_clause};
ghost use Rattle.pragma_named.specs.Views.{variable_named, variables_named, resolved_clause, resolved_clauses};
ghost use Rattle.pragma_attach.specs.Resolved.{Gives};
ghost use Rattle.pragma_attach.specs.declared.stop.Stop.TheVariants.{Memory};

use crate::listed::names_in;
use crate::stop::Stop;
use cparse_cursor::scope::{Entity, Scope, find};
use ktree::{Clause, Written};
use pragma_named::Named;
use std::alloc::Global;

/// The variable that a name in a clause stands for.
fn resolve_name(scope: &Scope, written: &Written) -> Result<Named, Stop>
    ensures { Gives variable_named result (resolve (names_of scope.now) (name_of written.now)) }
{
    match find(scope, written.name.as_str()) {
        Some(Entity::Variable(variable, _)) => Ok(Named {
            variable,
            place: written.place,
        }),
        Some(Entity::Constant(_)) => Err(Stop::UnknownName(written.place)),
        None => Err(Stop::UnknownName(written.place)),
    }
}

/// Those of a list.
fn resolve_names(alloc: Global, scope: &Scope, names: &[Written]) -> Result<Vec<Named>, Stop>
    ensures { Gives variables_named result
        (resolve_all (names_of scope.now) (map name_of names.now)) }
{
    let mut found = Vec::new(alloc);
    for written in names {
        found.push(resolve_name(scope, written)?)?;
    }
    Ok(found)
}

/// A clause with its names resolved.
fn resolve_clause(
    alloc: Global,
    scope: &Scope,
    clause: &Clause<Written>,
) -> Result<Clause<Named>, Stop>
    ensures { Gives resolved_clause result
        (resolve_clause (names_of scope.now) (written_clause clause.now)) }
{
    match clause {
        Clause::DefaultShared => Ok(Clause::DefaultShared),
        Clause::DefaultNone => Ok(Clause::DefaultNone),
        Clause::Shared(names) => Ok(Clause::Shared(resolve_names(alloc, scope, names)?)),
        Clause::Private(names) => Ok(Clause::Private(resolve_names(alloc, scope, names)?)),
        Clause::Firstprivate(names) => Ok(Clause::Firstprivate(resolve_names(
            alloc, scope, names,
        )?)),
        Clause::Lastprivate(names) => Ok(Clause::Lastprivate(resolve_names(alloc, scope, names)?)),
        Clause::LastConditional(names) => Ok(Clause::LastConditional(resolve_names(
            alloc, scope, names,
        )?)),
        Clause::Reduction(operator, names) => Ok(Clause::Reduction(
            *operator,
            resolve_names(alloc, scope, names)?,
        )),
        Clause::Inscan(operator, name) => {
            Ok(Clause::Inscan(*operator, resolve_name(scope, name)?))
        }
        Clause::Schedule(kind) => Ok(Clause::Schedule(*kind)),
        Clause::Collapse(loops) => Ok(Clause::Collapse(*loops)),
        Clause::Ordered => Ok(Clause::Ordered),
        Clause::OrderedLoops(loops) => Ok(Clause::OrderedLoops(*loops)),
        Clause::Nowait => Ok(Clause::Nowait),
    }
}

/// Clauses with their names resolved.
pub(crate) fn resolve_clauses(
    alloc: Global,
    scope: &Scope,
    clauses: &[Clause<Written>],
) -> Result<Vec<Clause<Named>>, Stop>
    ensures { Gives resolved_clauses result
        (resolve_clauses (names_of scope.now) (map written_clause clauses.now)) }
{
    let mut resolved = Vec::new(alloc);
    for clause in clauses {
        resolved.push(resolve_clause(alloc, scope, clause)?)?;
    }
    Ok(resolved)
}

/// The names in clauses that are those of visible variables, whatever the others are.
pub(crate) fn visible_names(
    alloc: Global,
    scope: &Scope,
    clauses: &[Clause<Written>],
) -> Result<Vec<Named>, Stop>
    ensures err { IfErr result (λ stop. stop ≡ Memory) }
{
    let mut known = Vec::new(alloc);
    for clause in clauses {
        for written in names_in(clause) {
            if let Ok(named) = resolve_name(scope, written) {
                known.push(named)?;
            }
        }
    }
    Ok(known)
}
