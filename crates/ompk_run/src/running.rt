//! A run of an accepted kernel.

ghost use Rattle.std.specs.Prelude.{◌+◌, ◌<◌, ◌^◌, IfErr, OnOk};
ghost use Rattle.semantics.specs.Theorems.{WritesABeginning, WritesAll, RefusesRightly};
ghost use Rattle.ktree.specs.Numbers.{number_of};
ghost use Rattle.deptest.specs.Accepted.{tree_of};
ghost use Rattle.ompk_run.specs.Outcome.{NamesTheFault, NamesTheOutput, RunsOfAccepted};

use crate::leading::run_body;
use crate::preparing::{Prepared, prepare};
use deptest::Checked;
use ktree::{Refusal, Workers};
use schedule::Sched;
use seqrun::block;
use seqrun_io::{Sink, dump, input as read_input};
use seqrun_value::Frame;
use std::alloc::Global;
use std::sync::Wait;
use std::thread::Threads;
use team::Gate;

/// How many threads a run starts: where there is a parallel loop, one for each worker beside the first.
fn others(checked: &Checked, workers: Workers) -> u64 {
    if checked.loops().is_empty() {
        0
    } else {
        workers.get() - 1
    }
}

/// Runs an accepted kernel on an input by a team, and writes what the C program without the directive lines writes
/// (C11 5.1.2.3, 6): what it prints, and a line for each file-scope variable as it leaves them. Each loop behind a directive line
/// is run by the team (OpenMP 5.2, 11.5), whose threads stand by for the whole run; a doacross nest of light iterations, and all else, by the thread that
/// calls. `sched` stands for `schedule(runtime)` (OpenMP 5.2, 11.5.3). One worker runs such a loop as any other statement, and `gate` is told then, once for each time that the loop is reached and before it runs, that the only worker has
/// taken the only chunk, also where there is no iteration.
///
/// # Errors
///
/// `Input` names the first faulty line of an input, and nothing is written then. `OutOfMemory` comes where memory is refused,
/// `OutputFailed` where the sink fails; a beginning of the output may be written then. Of threads that do not start the others do the work.
pub fn run<R: Threads + Wait + Sync, G: Gate + Sync, S: Sink>(
    rt: &R,
    alloc: Global,
    checked: &Checked,
    input: &[u8],
    workers: Workers,
    sched: Sched,
    gate: &G,
    sink: &mut S,
) -> Result<(), Refusal>
    requires { S.failed sink.old + 1 < 2 ^ 64 }
    ensures all { OnOk result (WritesAll (tree_of checked.now) input.now (S.told sink.old)
        (S.told sink.new)) }
    ensures beginning { WritesABeginning (tree_of checked.now) input.now (S.told sink.old)
        (S.told sink.new) }
    ensures refusal { IfErr result
        (λ refusal. RefusesRightly (tree_of checked.now) input.now (S.failed sink.old)
        (S.failed sink.new) (number_of refusal)) }
    ensures fault { IfErr result (NamesTheFault (tree_of checked.now) input.now) }
    ensures output { IfErr result (NamesTheOutput (S.failed sink.old) (S.failed sink.new)) }
{
    let declarations = checked.declarations();
    let mut store = read_input(alloc, declarations, input)?;
    let Prepared {
        outline,
        mut registers,
    } = prepare(alloc, checked, &store)?;
    let others = others(checked, workers);
    run_body(
        rt,
        alloc,
        &outline,
        others,
        workers,
        sched,
        gate,
        &mut registers,
        &mut store,
        sink,
    )?;
    let _cells = store.cells();
    dump(alloc, declarations, &store, sink)
}

/// Runs an accepted kernel on an input by the thread that calls, and writes what the C program without the directive lines
/// writes, as [`run`] does (C11 5.1.2.3, 6).
///
/// # Errors
///
/// As for [`run`], but that no thread is started.
pub fn seq<S: Sink>(
    alloc: Global,
    checked: &Checked,
    input: &[u8],
    sink: &mut S,
) -> Result<(), Refusal>
    requires { S.failed sink.old + 1 < 2 ^ 64 }
    ensures all { OnOk result (WritesAll (tree_of checked.now) input.now (S.told sink.old)
        (S.told sink.new)) }
    ensures beginning { WritesABeginning (tree_of checked.now) input.now (S.told sink.old)
        (S.told sink.new) }
    ensures refusal { IfErr result
        (λ refusal. RefusesRightly (tree_of checked.now) input.now (S.failed sink.old)
        (S.failed sink.new) (number_of refusal)) }
    ensures fault { IfErr result (NamesTheFault (tree_of checked.now) input.now) }
    ensures output { IfErr result (NamesTheOutput (S.failed sink.old) (S.failed sink.new)) }
{
    let declarations = checked.declarations();
    let mut store = read_input(alloc, declarations, input)?;
    let mut frame = Frame::new(Vec::new(alloc));
    block(checked.body(), &mut frame, &mut store, sink)?;
    dump(alloc, declarations, &store, sink)
}

/// From each good input an accepted kernel writes something, and nothing else.
pub fn runs_of_accepted()
    ensures { RunsOfAccepted }
{}
