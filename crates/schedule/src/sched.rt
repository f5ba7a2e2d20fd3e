//! Schedules.

ghost use Rattle.std.specs.Prelude.{◌≡◌};
ghost use Rattle.schedule.specs.Sched.{kind_of, kind_said};

use ktree::{ChunkSize, Schedule};

/// How a loop's iterations are cut into chunks and given to workers (OpenMP 5.2, 11.5.3).
#[derive(Clone, Copy, Debug, PartialEq, Eq)]
pub enum Sched {
    /// `static`: one chunk for each worker, of sizes that differ by one at most.
    PlainStatic,
    /// `static, k`: chunks of k, dealt to the workers in turn.
    Static(ChunkSize),
    /// `dynamic, k`: chunks of k, each for the worker that asks next.
    Dynamic(ChunkSize),
    /// `guided, k`: each chunk a worker's share of what is left, and k at least, for the worker that asks next.
    Guided(ChunkSize),
}

/// The schedule of a loop by the clause of its directive: plain static where none stands and for `auto`, and for `runtime` the one that
/// is given (OpenMP 5.2, 11.5.3).
pub fn sched_of(clause: Option<Schedule>, runtime: Sched) -> Sched
    ensures { kind_of result ≡ kind_said clause runtime }
{
    match &clause {
        None => Sched::PlainStatic,
        Some(Schedule::Static) => Sched::PlainStatic,
        Some(Schedule::StaticChunks(size)) => Sched::Static(*size),
        Some(Schedule::Dynamic(size)) => Sched::Dynamic(*size),
        Some(Schedule::Guided(size)) => Sched::Guided(*size),
        Some(Schedule::Auto) => Sched::PlainStatic,
        Some(Schedule::Runtime) => runtime,
    }
}
