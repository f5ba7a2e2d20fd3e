//! Variables that a directive names twice (OpenMP 5.2, 5.4).

ghost use Rattle.std.specs.Prelude.{◌≡◌, is_none, map, flat_map, IfOk, IfErr};
ghost use Rattle.semantics.specs.Directives.Naming.{variables_in, are_distinct};
ghost use Rattle.pragma_attach.specs.declared.stop.Stop.TheVariants.{Memory};
ghost use Rattle.semantics.specs.Directives.Annotated.{resolve_clauses};
ghost use Rattle.cparse_cursor.specs.Names.{names_of};
ghost use Rattle.pragma_clause.specs.Views.{written_clause};
ghost use Rattle.pragma_named.specs.Views.{variable_named, resolved_clause, resolved_clauses};
ghost use Rattle.pragma_attach.specs.Resolved.{Gives};
ghost use Rattle.pragma_attach.specs.Told.{unless_twice};

use crate::listed::names_in;
use crate::resolved::resolve_clauses;
use crate::stop::Stop;
use cparse_cursor::scope::Scope;
use ktree::{Clause, Place, Written};
use pragma_mention::note;
use pragma_named::Named;
use std::alloc::Global;
use std::collections::HashSet;

/// The variables that clauses name, in their order.
fn listed_names(alloc: Global, clauses: &[Clause<Named>]) -> Result<Vec<Named>, Stop>
    ensures ok { IfOk result (λ list. map variable_named list.items
        ≡ flat_map variables_in (map resolved_clause clauses.now)) }
    ensures err { IfErr result (λ stop. stop ≡ Memory) }
{
    let mut list = Vec::new(alloc);
    for clause in clauses {
        list.extend_from_slice(names_in(clause))?;
    }
    Ok(list)
}

/// Where the first variable stands that stood before.
pub(crate) fn first_twice(alloc: Global, list: &[Named]) -> Result<Option<Place>, Stop>
    ensures ok { IfOk result
        (λ found. is_none found ≡ are_distinct (map variable_named list.now)) }
    ensures err { IfErr result (λ stop. stop ≡ Memory) }
{
    let mut seen = HashSet::new(alloc);
    for named in list {
        if !note(&mut seen, named.variable)? {
            return Ok(Some(named.place));
        }
    }
    Ok(None)
}

/// Where clauses name a variable that they named before.
pub(crate) fn named_twice(alloc: Global, clauses: &[Clause<Named>]) -> Result<Option<Place>, Stop>
    ensures ok { IfOk result (λ found. is_none found
        ≡ are_distinct (flat_map variables_in (map resolved_clause clauses.now))) }
    ensures err { IfErr result (λ stop. stop ≡ Memory) }
{
    let list = listed_names(alloc, clauses)?;
    first_twice(alloc, list.as_slice())
}

/// The clauses of a line with their names resolved, none of which stands twice.
pub(crate) fn line_clauses(
    alloc: Global,
    scope: &Scope,
    clauses: &[Clause<Written>],
) -> Result<Vec<Clause<Named>>, Stop>
    ensures { Gives resolved_clauses result
        (unless_twice (resolve_clauses (names_of scope.now) (map written_clause clauses.now))) }
{
    match resolve_clauses(alloc, scope, clauses) {
        Err(stop) => Err(stop),
        Ok(resolved) => match named_twice(alloc, resolved.as_slice()) {
            Err(stop) => Err(stop),
            Ok(Some(place)) => Err(Stop::NamedTwice(place)),
            Ok(None) => Ok(resolved),
        },
    }
}
