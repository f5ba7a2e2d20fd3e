//! Names in data clauses, against the declarations at file scope and the variables of loops.

ghost use Rattle.std.specs.Prelude.{◌≡◌, map, is_none};
ghost use Rattle.std.specs.List.{list_all};
ghost use Rattle.ktree.specs.View.{declaration_of};
ghost use Rattle.pragma_mention.specs.Sets.{holds};
ghost use Rattle.pragma_named.specs.Views.{variable_named, resolved_clause};
ghost use Rattle.ktree.specs.Numbers.{number_of};
ghost use Rattle.flow_clauses.specs.Fitting.{is_scalar, is_private_local, is_result, fits, number_told};

use ktree::{Clause, Declaration, Place, Refusal, VarId};
use pragma_named::Named;
use std::collections::HashSet;

/// A name that may not stand in its clause, by its place.
#[derive(Clone, Copy, Debug, PartialEq, Eq)]
pub enum Misuse {
    /// In a `private`, `firstprivate` or `lastprivate` clause (OpenMP 5.2, 5.4.3 to 5.4.5).
    Privatised(Place),
    /// The variable of a loop in a `private` clause inside that loop, with the variable (OpenMP 5.2, 5.4.3).
    LoopVariable(Place, VarId),
    /// In a `reduction` clause (OpenMP 5.2, 5.5.8).
    Reduced(Place),
}

impl From<Misuse> for Refusal {
    ghost use Rattle.ktree.specs.Numbers.{number_of};
    ghost use Rattle.flow_clauses.specs.Fitting.{number_told};

    ghost from_gives = { λ misuse refusal. number_of refusal ≡ number_told misuse };

    fn from(misuse: Misuse) -> Refusal {
        match misuse {
            Misuse::Privatised(place) | Misuse::LoopVariable(place, _) => {
                Refusal::PrivateVariable(place)
            }
            Misuse::Reduced(place) => Refusal::Reduction(place),
        }
    }
}

/// Whether a name is that of a scalar.
fn is_scalar(files: &[Declaration], named: &Named) -> bool
    ensures { result ≡ is_scalar (map declaration_of files.now) (variable_named named.now) }
{
    match files.get(named.variable.0 as usize) {
        None => true,
        Some(declaration) => declaration.lengths.is_empty(),
    }
}

/// Whether it is that of a local, and of no loop's variable.
fn is_private_local(files: &[Declaration], loops: &HashSet<u32>, named: &Named) -> bool
    ensures { result ≡ is_private_local (map declaration_of files.now) (holds loops.now)
        (variable_named named.now) }
{
    let number = named.variable.0;
    if (number as usize) < files.len() {
        return false;
    }
    !loops.contains(&number)
}

/// A name that may not stand in a private list.
fn private_name(loops: &HashSet<u32>, named: &Named) -> Misuse {
    if loops.contains(&named.variable.0) {
        Misuse::LoopVariable(named.place, named.variable)
    } else {
        Misuse::Privatised(named.place)
    }
}

/// The first name in a private list that may not stand there (OpenMP 5.2, 5.4.3).
fn private_fault(files: &[Declaration], loops: &HashSet<u32>, names: &[Named]) -> Option<Misuse>
    ensures { is_none result ≡ list_all
        (is_private_local (map declaration_of files.now) (holds loops.now))
        (map variable_named names.now) }
{
    for named in names {
        if !is_private_local(files, loops, named) {
            return Some(private_name(loops, named));
        }
    }
    None
}

/// Where a `firstprivate` list does (OpenMP 5.2, 5.4.4).
fn copied_fault(files: &[Declaration], names: &[Named]) -> Option<Place>
    ensures { is_none result
        ≡ list_all (is_scalar (map declaration_of files.now)) (map variable_named names.now) }
{
    for named in names {
        if !is_scalar(files, named) {
            return Some(named.place);
        }
    }
    None
}

/// Whether a name is that of a scalar, and of no loop's variable.
fn is_result(files: &[Declaration], loops: &HashSet<u32>, named: &Named) -> bool
    ensures { result ≡ is_result (map declaration_of files.now) (holds loops.now)
        (variable_named named.now) }
{
    if !is_scalar(files, named) {
        return false;
    }
    !loops.contains(&named.variable.0)
}

/// Where a `lastprivate` or `reduction` list does (OpenMP 5.2, 5.4.5 and 5.5.8).
fn result_fault(files: &[Declaration], loops: &HashSet<u32>, names: &[Named]) -> Option<Place>
    ensures { is_none result ≡ list_all (is_result (map declaration_of files.now) (holds loops.now))
        (map variable_named names.now) }
{
    for named in names {
        if !is_result(files, loops, named) {
            return Some(named.place);
        }
    }
    None
}

/// Where the reduction of a scan does (OpenMP 5.2, 5.6).
fn scan_fault(files: &[Declaration], loops: &HashSet<u32>, named: &Named) -> Option<Place>
    ensures { is_none result ≡ is_result (map declaration_of files.now) (holds loops.now)
        (variable_named named.now) }
{
    if is_result(files, loops, named) {
        None
    } else {
        Some(named.place)
    }
}

/// A place in a list of variables with copies of their own.
fn private_misuse(place: Option<Place>) -> Option<Misuse>
    ensures { is_none result ≡ is_none place }
{
    match place {
        None => None,
        Some(place) => Some(Misuse::Privatised(place)),
    }
}

/// A place in a list of reduction variables.
fn reduction_misuse(place: Option<Place>) -> Option<Misuse>
    ensures { is_none result ≡ is_none place }
{
    match place {
        None => None,
        Some(place) => Some(Misuse::Reduced(place)),
    }
}

/// The first name that may not stand in a clause.
fn clause_fault(
    files: &[Declaration],
    loops: &HashSet<u32>,
    clause: &Clause<Named>,
) -> Option<Misuse>
    ensures { is_none result
        ≡ fits (map declaration_of files.now) (holds loops.now) (resolved_clause clause.now) }
{
    match clause {
        Clause::Private(names) => private_fault(files, loops, names),
        Clause::Firstprivate(names) => private_misuse(copied_fault(files, names)),
        Clause::Lastprivate(names) => private_misuse(result_fault(files, loops, names)),
        Clause::Reduction(_, names) => reduction_misuse(result_fault(files, loops, names)),
        Clause::Inscan(_, named) => reduction_misuse(scan_fault(files, loops, named)),
        _ => None,
    }
}

/// The first in some clauses.
pub(crate) fn clauses_fault(
    files: &[Declaration],
    loops: &HashSet<u32>,
    clauses: &[Clause<Named>],
) -> Option<Misuse>
    ensures { is_none result ≡ list_all (fits (map declaration_of files.now) (holds loops.now))
        (map resolved_clause clauses.now) }
{
    for clause in clauses {
        let found = clause_fault(files, loops, clause);
        if found.is_some() {
            return found;
        }
    }
    None
}
