//! Directives of the form `parallel for`, with a schedule and collapsed loops, or without.

ghost use Rattle.std.specs.Prelude.{◌≡◌, ◌∷◌, List, Some, map, option_map};
ghost use Rattle.semantics.specs.Tree.{Name};
ghost use Rattle.semantics.specs.Directives.Directive.{Clause as Over};
ghost use Rattle.semantics.specs.Directives.Clauses.{doacross_of};
ghost use Rattle.pragma_clause.specs.Views.{written_clause, written_directive};
ghost use Rattle.pragma.specs.Clauses.{greater, with_clause, said_by, loop_of, doacross_loops};
ghost use Rattle.pragma.specs.Parallel.{associated};
ghost use Rattle.pragma.specs.Views.{said_of, or_loops};

use ktree::{AssociatedLoops, Clause, Directive, Schedule, Written};

/// What the clauses of a loop's directive say: of a `parallel for`, or of a `for` inside a `parallel` (OpenMP 5.2, 11.5 and 17).
#[derive(Clone, Copy, Debug, PartialEq, Eq)]
pub struct ParallelFor {
    /// What `schedule` says (OpenMP 5.2, 11.5.3).
    pub schedule: Option<Schedule>,
    /// The number of associated loops, where `collapse(c)` or `ordered(n)` stands: the greater where both do (OpenMP 5.2, 4.4.3 and
    /// 4.4.4).
    pub collapse: Option<AssociatedLoops>,
}

impl ParallelFor {
    /// How many loops the directive associates: one where neither clause stands (OpenMP 5.2, 4.4.3 and 4.4.4).
    pub fn associated_loops(self) -> u64
        ensures { result ≡ associated self.collapse }
    {
        match self.collapse {
            None => 1,
            Some(collapse) => collapse.get(),
        }
    }
}

/// The greater of a number of loops and one that was said, where one was.
fn greater(loops: AssociatedLoops, said: Option<AssociatedLoops>) -> AssociatedLoops
    ensures { result ≡ greater loops said }
{
    match said {
        Some(other) if loops.get() < other.get() => other,
        _ => loops,
    }
}

/// What a clause says that associates so many loops, and others behind it.
fn with_loops(loops: AssociatedLoops, said: ParallelFor) -> ParallelFor
    ensures { said_of result ≡ ((said_of said).0, Some (greater loops said.collapse)) }
{
    ParallelFor {
        schedule: said.schedule,
        collapse: Some(greater(loops, said.collapse)),
    }
}

/// What a clause and others behind it say, where it is known and no two say how the iterations are shared out.
fn with_clause(clause: &Clause<Written>, said: ParallelFor) -> Option<ParallelFor>
    ensures { option_map said_of result ≡ with_clause (written_clause clause.now) (said_of said) }
{
    match clause {
        Clause::Schedule(schedule) if said.schedule.is_none() => Some(ParallelFor {
            schedule: Some(*schedule),
            collapse: said.collapse,
        }),
        Clause::Collapse(loops) => Some(with_loops(*loops, said)),
        Clause::OrderedLoops(loops) => Some(with_loops(*loops, said)),
        Clause::DefaultShared
        | Clause::DefaultNone
        | Clause::Shared(_)
        | Clause::Private(_)
        | Clause::Firstprivate(_)
        | Clause::Lastprivate(_)
        | Clause::Reduction(_, _)
        | Clause::Inscan(_, _)
        | Clause::Nowait
        | Clause::Ordered => Some(said),
        _ => None,
    }
}

/// What the clauses of a loop's directive say, where each is known and one `schedule` stands at most (OpenMP 5.2, 11.5 and 17).
pub fn said_by(clauses: &[Clause<Written>]) -> Option<ParallelFor>
    ensures { option_map said_of result ≡ said_by (map written_clause clauses.now) }
{
    match clauses {
        [] => Some(ParallelFor {
            schedule: None,
            collapse: None,
        }),
        [first, rest @ ..] => with_clause(first, said_by(rest)?),
    }
}

/// What a directive says, where it is a `parallel for`, or a `for` inside a `parallel`, of known clauses.
pub fn loop_of(directive: &Directive<Written>) -> Option<ParallelFor>
    ensures { option_map said_of result ≡ loop_of (written_directive directive.now) }
{
    match directive {
        Directive::ParallelFor(clauses) | Directive::For(clauses) => said_by(clauses.as_slice()),
        _ => None,
    }
}

/// The number of loops of a clause, where it is `ordered(n)`.
fn ordered_loops(clause: &Clause<Written>) -> Option<AssociatedLoops>
    ensures { (rest : List (Over Name)) → doacross_of (written_clause clause.now ∷ rest)
        ≡ or_loops result (doacross_of rest) }
{
    match clause {
        Clause::OrderedLoops(loops) => Some(*loops),
        _ => None,
    }
}

/// The number of loops of the doacross nest that some clauses make of a loop, if they make one (OpenMP 5.2, 4.4.4).
pub fn doacross_of(clauses: &[Clause<Written>]) -> Option<AssociatedLoops>
    ensures { result ≡ doacross_of (map written_clause clauses.now) }
{
    for clause in clauses {
        let found = ordered_loops(clause);
        if found.is_some() {
            return found;
        }
    }
    None
}

/// The number of loops of the doacross nest that a directive makes of a loop, if it makes one (OpenMP 5.2, 4.4.4).
pub fn doacross_loops(directive: &Directive<Written>) -> Option<AssociatedLoops>
    ensures { result ≡ doacross_loops (written_directive directive.now) }
{
    match directive {
        Directive::ParallelFor(clauses) | Directive::For(clauses) => {
            doacross_of(clauses.as_slice())
        }
        _ => None,
    }
}
