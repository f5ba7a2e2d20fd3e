//! A run by a crew.

ghost use Rattle.std.specs.Prelude.{◌≡◌, ◌+◌, ◌<◌, ◌^◌, OnOk, IfErr};
ghost use Rattle.seqrun_io.specs.Told.{Refuses};
ghost use Rattle.seqrun.specs.Ran.{lengths_of};
ghost use Rattle.lower_run.specs.Walk.{stage};
ghost use Rattle.ompk_run.specs.Led.{AreWalked, AreBegun};

use crate::teaming::{Teaming, team_block};
use crew::{Crew, dismiss, serve_all};
use ktree::{Refusal, Workers};
use lane_rows::Bench;
use lower_lanes::new_bench;
use outline::OutlineItem;
use schedule::Sched;
use seqrun_io::Sink;
use std::alloc::Global;
use std::sync::Wait;
use std::thread::{Threads, join_mut};
use store::Store;
use team::Gate;

// Runs a body, and dismisses the crew.
fn lead<'l, R: Threads + Wait + Sync, G: Gate + Sync, S: Sink>(
    items: &'l [OutlineItem<'_>],
    team: &Teaming<'_, '_, '_, 'l, R, G>,
    registers: &mut Vec<u64>,
    store: &mut Store,
    bench: &mut Bench,
    sink: &mut S,
) -> Result<(), Refusal>
    requires room { S.failed sink.old + 1 < 2 ^ 64 }
    ensures ran { OnOk result (AreWalked items.now
        (stage registers.old.items store.old (S.told sink.old))
        (stage registers.new.items store.new (S.told sink.new))) }
    ensures beginning { AreBegun items.now
        (stage registers.old.items store.old (S.told sink.old)) (S.told sink.new) }
    ensures sound { OnOk result (S.failed sink.new ≡ S.failed sink.old) }
    ensures refusal { IfErr result (Refuses (S.failed sink.old) (S.failed sink.new)) }
    ensures shape { lengths_of store.new ≡ lengths_of store.old }
{
    let end = team_block(items, team, registers, store, bench, sink);
    dismiss(team.crew);
    end
}

// Starts the threads of a team's crew, if it has any, and runs a body meanwhile.
fn run_led<'l, R: Threads + Wait + Sync, G: Gate + Sync, S: Sink>(
    items: &'l [OutlineItem<'_>],
    team: &Teaming<'_, '_, '_, 'l, R, G>,
    registers: &mut Vec<u64>,
    store: &mut Store,
    bench: &mut Bench,
    sink: &mut S,
) -> Result<(), Refusal>
    requires room { S.failed sink.old + 1 < 2 ^ 64 }
    ensures ran { OnOk result (AreWalked items.now
        (stage registers.old.items store.old (S.told sink.old))
        (stage registers.new.items store.new (S.told sink.new))) }
    ensures beginning { AreBegun items.now
        (stage registers.old.items store.old (S.told sink.old)) (S.told sink.new) }
    ensures sound { OnOk result (S.failed sink.new ≡ S.failed sink.old) }
    ensures refusal { IfErr result (Refuses (S.failed sink.old) (S.failed sink.new)) }
    ensures shape { lengths_of store.new ≡ lengths_of store.old }
{
    if team.crew.others() == 0 {
        return lead(items, team, registers, store, bench, sink);
    }
    let (rt, alloc, crew, gate) = (team.rt, team.alloc, team.crew, team.gate);
    let (_, end) = join_mut(
        rt,
        &mut || serve_all(rt, alloc, crew, gate),
        &mut || -> Result<(), Refusal>
            requires { S.failed sink.now + 1 < 2 ^ 64 }
        { lead(items, team, registers, store, bench, sink) },
    );
    end
}

// Runs a body by a team of so many workers, in the thread that calls and in others beside it.
pub(crate) fn run_body<'l, R: Threads + Wait + Sync, G: Gate + Sync, S: Sink>(
    rt: &R,
    alloc: Global,
    items: &'l [OutlineItem<'_>],
    others: u64,
    workers: Workers,
    sched: Sched,
    gate: &G,
    registers: &mut Vec<u64>,
    store: &mut Store,
    sink: &mut S,
) -> Result<(), Refusal>
    requires room { S.failed sink.old + 1 < 2 ^ 64 }
    ensures ran { OnOk result (AreWalked items.now
        (stage registers.old.items store.old (S.told sink.old))
        (stage registers.new.items store.new (S.told sink.new))) }
    ensures beginning { AreBegun items.now
        (stage registers.old.items store.old (S.told sink.old)) (S.told sink.new) }
    ensures sound { OnOk result (S.failed sink.new ≡ S.failed sink.old) }
    ensures refusal { IfErr result (Refuses (S.failed sink.old) (S.failed sink.new)) }
    ensures shape { lengths_of store.new ≡ lengths_of store.old }
{
    let mut bench = new_bench(alloc)?;
    let crew = Crew::new(alloc, others)?;
    let team = Teaming {
        rt,
        alloc,
        crew: &crew,
        workers,
        sched,
        gate,
    };
    run_led(items, &team, registers, store, &mut bench, sink)
}
