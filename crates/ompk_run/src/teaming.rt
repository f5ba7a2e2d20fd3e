//! The loops that a team runs.

ghost use Rattle.std.specs.Prelude.{◌≡◌, ℕ, ◌+◌, ◌<◌, ◌^◌, true, false, List, OnOk, IfOk, IfErr};
ghost use Rattle.semantics.specs.Loops.Chunk.{IsSized};
ghost use Rattle.semantics.specs.Loops.Nest.{Loop};
ghost use Rattle.flow.specs.Roles.{LineData};
ghost use Rattle.schedule.specs.Sched.{kind_of, kind_said};
ghost use Rattle.outline.specs.Fit.{Fits, ItemFits, AllFit};
ghost use Rattle.outline.specs.View.{performed, item_performed, items_performed};
ghost use Rattle.outline.specs.declared.shape.Outline.TheVariants.{Team};
ghost use Rattle.outline.specs.declared.shape.Way.TheVariants.{Chunks, Scan, Waves};
ghost use Rattle.seqrun_io.specs.Told.{Refuses};
ghost use Rattle.seqrun.specs.Ran.{lengths_of};
ghost use Rattle.store.specs.Flat.{values_of};
ghost use Rattle.lower_code.specs.declared.laid.Laid.{Laid};
ghost use Rattle.lower_machine.specs.Machine.{machine, truth};
ghost use Rattle.lower_run.specs.Walk.{Walks, Begins, stage};

use crate::placing::run_by_parts;
use crate::single::run_by_one;
use ktree::{Refusal, Schedule, Workers};
use lane_rows::Bench;
use lower::LoweredLoop;
use lower_machine::{Test, truth};
use lower_run::{confirm_words, perform};
use outline::{Outline, OutlineItem, TeamLoop, Way};
use schedule::{Sched, sched_of};
use seqrun_io::Sink;
use std::alloc::Global;
use std::sync::Wait;
use std::thread::Threads;
use store::Store;
use team::{Gate, LoopCrew, share_loop, share_scan, share_waves};
use team_in_place::Crew;
use waves::Sinks;

// A team of so many workers for each parallel loop, in the threads of a crew; the gate is told of the chunks that they take.
#[derive(Drop)]
pub(crate) struct Teaming<'r, 'g, 'c, 'l, R: Threads + Wait + Sync, G: Gate + Sync> {
    pub(crate) rt: &'r R,
    pub(crate) alloc: Global,
    pub(crate) crew: &'c LoopCrew<'l>,
    pub(crate) workers: Workers,
    pub(crate) sched: Sched,
    pub(crate) gate: &'g G,
}

// Whether a test holds over registers and a store.
fn holds(test: &Test, registers: &Vec<u64>, store: &Store) -> bool
    ensures { result ≡ truth test.now (machine registers.now.items (values_of store.now)) }
{
    truth(test, registers.as_slice(), store.cells())
}

// Chunks of this schedule hold iterations.
fn are_sized(sched: &Sched)
    ensures { IsSized (kind_of sched.now) }
{
    match sched {
        Sched::PlainStatic => {}
        Sched::Static(size) | Sched::Dynamic(size) | Sched::Guided(size) => {
            let _iterations = size.get();
        }
    }
}

// So do those of a loop, and there are workers for them.
fn confirm_cut(clause: Option<Schedule>, runtime: Sched, workers: Workers)
    ensures sized { IsSized (kind_said clause runtime) }
    ensures some { 0 < workers }
{
    let sched = sched_of(clause, runtime);
    are_sized(&sched);
    let _count = workers.get();
}

// Runs a loop by the team, and puts what it prints (OpenMP 5.2, 11.5 and 15.10).
fn run_team_loop<'l, R: Threads + Wait + Sync, G: Gate + Sync, S: Sink>(
    construct: &'l TeamLoop<'_>,
    team: &Teaming<'_, '_, '_, 'l, R, G>,
    registers: &mut Vec<u64>,
    store: &mut Store,
    sink: &mut S,
) -> Result<(), Refusal>
    requires chunks { construct.now.way ≡ Chunks }
    requires room { S.failed sink.old + 1 < 2 ^ 64 }
    ensures ran { OnOk result ((layout : List Laid) (mark : ℕ) (R : LineData) (serial : List Loop)
        → Fits layout mark R serial (Team construct.now)
        → Walks layout mark (performed R serial (Team construct.now))
        (stage registers.old.items store.old (S.told sink.old))
        (stage registers.new.items store.new (S.told sink.new))) }
    ensures beginning { (layout : List Laid) (mark : ℕ) (R : LineData) (serial : List Loop)
        → Fits layout mark R serial (Team construct.now)
        → Begins layout mark (performed R serial (Team construct.now))
        (stage registers.old.items store.old (S.told sink.old)) (S.told sink.new) }
    ensures sound { OnOk result (S.failed sink.new ≡ S.failed sink.old) }
    ensures refusal { IfErr result (Refuses (S.failed sink.old) (S.failed sink.new)) }
    ensures shape { lengths_of store.new ≡ lengths_of store.old }
{
    let lowered = &construct.lowered;
    confirm_cut(lowered.schedule, team.sched, team.workers);
    share_loop(
        team.rt,
        team.alloc,
        team.crew,
        lowered,
        registers.as_mut_slice(),
        store,
        team.workers,
        team.sched,
        team.gate,
        sink,
    )?;
    confirm_words(registers.as_slice(), store);
    Ok(())
}

// Runs a loop in place, if its chunks are told apart by no more than who runs them, and it is seen that it may be; else it changes nothing, and tells so. Its
// turns are alike, so that no schedule would share them better than plain static does (OpenMP 5.2, 11.5.3).
fn is_run_in_place<'l, R: Threads + Wait + Sync, G: Gate + Sync>(
    construct: &'l TeamLoop<'_>,
    team: &Teaming<'_, '_, '_, 'l, R, G>,
    registers: &mut Vec<u64>,
    store: &mut Store,
) -> Result<bool, Refusal>
    ensures ran { IfOk result (λ done. done ≡ true → (layout : List Laid) (mark : ℕ)
        (R : LineData) (serial : List Loop) (text : List ℕ)
        → Fits layout mark R serial (Team construct.now)
        → Walks layout mark (performed R serial (Team construct.now))
        (stage registers.old.items store.old text) (stage registers.new.items store.new text)) }
    ensures left { IfOk result (λ done. done ≡ false
        → (registers.new.items ≡ registers.old.items) × (store.new ≡ store.old)) }
    ensures refusal { IfErr result (λ refusal. refusal ≡ Refusal.OutOfMemory) }
    ensures shape { lengths_of store.new ≡ lengths_of store.old }
{
    let in_chunks = matches!(construct.way, Way::Chunks | Way::Scan(_));
    if !in_chunks && team.workers.get() != 1 {
        return Ok(false);
    }
    let crew = Crew {
        rt: team.rt,
        alloc: team.alloc,
        gate: team.gate,
        workers: team.workers,
    };
    let done = run_by_parts(&crew, construct, registers, store)?;
    Ok(done)
}

// Runs a scan by the team in two passes: the input phase first, which this loop is (OpenMP 5.2, 5.6).
fn run_scan_loop<'l, R: Threads + Wait + Sync, G: Gate + Sync, S: Sink>(
    construct: &'l TeamLoop<'_>,
    first: &'l LoweredLoop,
    team: &Teaming<'_, '_, '_, 'l, R, G>,
    registers: &mut Vec<u64>,
    store: &mut Store,
    sink: &mut S,
) -> Result<(), Refusal>
    requires scan { construct.now.way ≡ Scan first.now }
    requires room { S.failed sink.old + 1 < 2 ^ 64 }
    ensures ran { OnOk result ((layout : List Laid) (mark : ℕ) (R : LineData) (serial : List Loop)
        → Fits layout mark R serial (Team construct.now)
        → Walks layout mark (performed R serial (Team construct.now))
        (stage registers.old.items store.old (S.told sink.old))
        (stage registers.new.items store.new (S.told sink.new))) }
    ensures beginning { (layout : List Laid) (mark : ℕ) (R : LineData) (serial : List Loop)
        → Fits layout mark R serial (Team construct.now)
        → Begins layout mark (performed R serial (Team construct.now))
        (stage registers.old.items store.old (S.told sink.old)) (S.told sink.new) }
    ensures sound { OnOk result (S.failed sink.new ≡ S.failed sink.old) }
    ensures refusal { IfErr result (Refuses (S.failed sink.old) (S.failed sink.new)) }
    ensures shape { lengths_of store.new ≡ lengths_of store.old }
{
    let _workers = team.workers.get();
    share_scan(
        team.rt,
        team.alloc,
        team.crew,
        first,
        &construct.lowered,
        registers.as_mut_slice(),
        store,
        team.workers,
        team.gate,
        sink,
    )?;
    confirm_words(registers.as_slice(), store);
    Ok(())
}

// Runs a doacross nest by the team, wave by wave (OpenMP 5.2, 15.9.6 and 15.10.1). It prints nothing.
fn run_wave_loop<'l, R: Threads + Wait + Sync, G: Gate + Sync>(
    construct: &'l TeamLoop<'_>,
    sinks: &Sinks,
    team: &Teaming<'_, '_, '_, 'l, R, G>,
    registers: &Vec<u64>,
    store: &mut Store,
) -> Result<(), Refusal>
    requires waves { construct.now.way ≡ Waves sinks.now }
    ensures ran { OnOk result ((layout : List Laid) (mark : ℕ) (R : LineData) (serial : List Loop)
        (text : List ℕ) → Fits layout mark R serial (Team construct.now)
        → Walks layout mark (performed R serial (Team construct.now))
        (stage registers.now.items store.old text) (stage registers.now.items store.new text)) }
    ensures refusal { IfErr result (λ refusal. refusal ≡ Refusal.OutOfMemory) }
    ensures shape { lengths_of store.new ≡ lengths_of store.old }
{
    let nest = &construct.lowered;
    confirm_cut(nest.schedule, team.sched, team.workers);
    confirm_words(registers.as_slice(), store);
    share_waves(
        team.rt,
        team.alloc,
        team.crew,
        nest,
        sinks,
        registers.as_slice(),
        store,
        team.workers,
        team.sched,
        team.gate,
    )?;
    confirm_words(registers.as_slice(), store);
    Ok(())
}

// Runs a parallel loop: by the team in the way that it may be run, and as any other statement where there is one worker.
fn run_by_way<'l, R: Threads + Wait + Sync, G: Gate + Sync, S: Sink>(
    construct: &'l TeamLoop<'_>,
    team: &Teaming<'_, '_, '_, 'l, R, G>,
    registers: &mut Vec<u64>,
    store: &mut Store,
    bench: &mut Bench,
    sink: &mut S,
) -> Result<(), Refusal>
    requires room { S.failed sink.old + 1 < 2 ^ 64 }
    ensures ran { OnOk result ((layout : List Laid) (mark : ℕ) (R : LineData) (serial : List Loop)
        → Fits layout mark R serial (Team construct.now)
        → Walks layout mark (performed R serial (Team construct.now))
        (stage registers.old.items store.old (S.told sink.old))
        (stage registers.new.items store.new (S.told sink.new))) }
    ensures beginning { (layout : List Laid) (mark : ℕ) (R : LineData) (serial : List Loop)
        → Fits layout mark R serial (Team construct.now)
        → Begins layout mark (performed R serial (Team construct.now))
        (stage registers.old.items store.old (S.told sink.old)) (S.told sink.new) }
    ensures sound { OnOk result (S.failed sink.new ≡ S.failed sink.old) }
    ensures refusal { IfErr result (Refuses (S.failed sink.old) (S.failed sink.new)) }
    ensures shape { lengths_of store.new ≡ lengths_of store.old }
{
    if team.workers.get() == 1 {
        return run_by_one(
            team.alloc, construct, team.gate, registers, store, bench, sink,
        );
    }
    match &construct.way {
        Way::Chunks => run_team_loop(construct, team, registers, store, sink),
        Way::Scan(first) => run_scan_loop(construct, first, team, registers, store, sink),
        Way::Waves(sinks) => run_wave_loop(construct, sinks, team, registers, store),
        Way::Alone => run_by_one(
            team.alloc, construct, team.gate, registers, store, bench, sink,
        ),
    }
}

// Runs a parallel loop: in place, if it is seen that it may be, and else in its way.
fn run_parallel_loop<'l, R: Threads + Wait + Sync, G: Gate + Sync, S: Sink>(
    construct: &'l TeamLoop<'_>,
    team: &Teaming<'_, '_, '_, 'l, R, G>,
    registers: &mut Vec<u64>,
    store: &mut Store,
    bench: &mut Bench,
    sink: &mut S,
) -> Result<(), Refusal>
    requires room { S.failed sink.old + 1 < 2 ^ 64 }
    ensures ran { OnOk result ((layout : List Laid) (mark : ℕ) (R : LineData) (serial : List Loop)
        → Fits layout mark R serial (Team construct.now)
        → Walks layout mark (performed R serial (Team construct.now))
        (stage registers.old.items store.old (S.told sink.old))
        (stage registers.new.items store.new (S.told sink.new))) }
    ensures beginning { (layout : List Laid) (mark : ℕ) (R : LineData) (serial : List Loop)
        → Fits layout mark R serial (Team construct.now)
        → Begins layout mark (performed R serial (Team construct.now))
        (stage registers.old.items store.old (S.told sink.old)) (S.told sink.new) }
    ensures sound { OnOk result (S.failed sink.new ≡ S.failed sink.old) }
    ensures refusal { IfErr result (Refuses (S.failed sink.old) (S.failed sink.new)) }
    ensures shape { lengths_of store.new ≡ lengths_of store.old }
{
    if is_run_in_place(construct, team, registers, store)? {
        return Ok(());
    }
    run_by_way(construct, team, registers, store, bench, sink)
}

// Runs a statement, each parallel loop in it by the team (C11 6.8; OpenMP 5.2, 11.5).
#[cycle(teaming)]
fn team_statement<'l, R: Threads + Wait + Sync, G: Gate + Sync, S: Sink>(
    outline: &'l Outline<'_>,
    team: &Teaming<'_, '_, '_, 'l, R, G>,
    registers: &mut Vec<u64>,
    store: &mut Store,
    bench: &mut Bench,
    sink: &mut S,
) -> Result<(), Refusal>
    requires room { S.failed sink.old + 1 < 2 ^ 64 }
    ensures ran { OnOk result ((layout : List Laid) (mark : ℕ) (R : LineData) (serial : List Loop)
        → Fits layout mark R serial outline.now → Walks layout mark (performed R serial outline.now)
        (stage registers.old.items store.old (S.told sink.old))
        (stage registers.new.items store.new (S.told sink.new))) }
    ensures beginning { (layout : List Laid) (mark : ℕ) (R : LineData) (serial : List Loop)
        → Fits layout mark R serial outline.now → Begins layout mark
        (performed R serial outline.now)
        (stage registers.old.items store.old (S.told sink.old)) (S.told sink.new) }
    ensures sound { OnOk result (S.failed sink.new ≡ S.failed sink.old) }
    ensures refusal { IfErr result (Refuses (S.failed sink.old) (S.failed sink.new)) }
    ensures shape { lengths_of store.new ≡ lengths_of store.old }
{
    match outline {
        Outline::Serial(code, _stmt) => perform(code, registers, store, bench, sink),
        Outline::Team(construct) => run_parallel_loop(
            construct, team, registers, store, bench, sink,
        ),
        Outline::If(test, _cond, then, other) => {
            if holds(test, registers, store) {
                team_statement(then, team, registers, store, bench, sink)
            } else if let Some(other) = other {
                team_statement(other, team, registers, store, bench, sink)
            } else {
                Ok(())
            }
        }
        Outline::For(lowered, _head, body) => {
            perform(&lowered.entry, registers, store, bench, sink)?;
            for _turn in 0..u64::MAX {
                if !holds(&lowered.test, registers, store) {
                    return Ok(());
                }
                team_statement(body, team, registers, store, bench, sink)?;
                perform(&lowered.step, registers, store, bench, sink)?;
            }
            Ok(())
        }
        Outline::Block(items) => team_block(items, team, registers, store, bench, sink),
    }
}

// Runs the items of a block in their order (C11 6.8.2).
#[cycle(teaming)]
pub(crate) fn team_block<'l, R: Threads + Wait + Sync, G: Gate + Sync, S: Sink>(
    items: &'l [OutlineItem<'_>],
    team: &Teaming<'_, '_, '_, 'l, R, G>,
    registers: &mut Vec<u64>,
    store: &mut Store,
    bench: &mut Bench,
    sink: &mut S,
) -> Result<(), Refusal>
    requires room { S.failed sink.old + 1 < 2 ^ 64 }
    ensures ran { OnOk result ((layout : List Laid) (mark : ℕ) (R : LineData) (serial : List Loop)
        → AllFit layout mark R serial items.now
        → Walks layout mark (items_performed R serial items.now)
        (stage registers.old.items store.old (S.told sink.old))
        (stage registers.new.items store.new (S.told sink.new))) }
    ensures beginning { (layout : List Laid) (mark : ℕ) (R : LineData) (serial : List Loop)
        → AllFit layout mark R serial items.now
        → Begins layout mark (items_performed R serial items.now)
        (stage registers.old.items store.old (S.told sink.old)) (S.told sink.new) }
    ensures sound { OnOk result (S.failed sink.new ≡ S.failed sink.old) }
    ensures refusal { IfErr result (Refuses (S.failed sink.old) (S.failed sink.new)) }
    ensures shape { lengths_of store.new ≡ lengths_of store.old }
{
    for item in items {
        team_item(item, team, registers, store, bench, sink)?;
    }
    Ok(())
}

// Runs one item of a block.
#[cycle(teaming)]
fn team_item<'l, R: Threads + Wait + Sync, G: Gate + Sync, S: Sink>(
    item: &'l OutlineItem<'_>,
    team: &Teaming<'_, '_, '_, 'l, R, G>,
    registers: &mut Vec<u64>,
    store: &mut Store,
    bench: &mut Bench,
    sink: &mut S,
) -> Result<(), Refusal>
    requires room { S.failed sink.old + 1 < 2 ^ 64 }
    ensures ran { OnOk result ((layout : List Laid) (mark : ℕ) (R : LineData) (serial : List Loop)
        → ItemFits layout mark R serial item.now
        → Walks layout mark (item_performed R serial item.now)
        (stage registers.old.items store.old (S.told sink.old))
        (stage registers.new.items store.new (S.told sink.new))) }
    ensures beginning { (layout : List Laid) (mark : ℕ) (R : LineData) (serial : List Loop)
        → ItemFits layout mark R serial item.now
        → Begins layout mark (item_performed R serial item.now)
        (stage registers.old.items store.old (S.told sink.old)) (S.told sink.new) }
    ensures sound { OnOk result (S.failed sink.new ≡ S.failed sink.old) }
    ensures refusal { IfErr result (Refuses (S.failed sink.old) (S.failed sink.new)) }
    ensures shape { lengths_of store.new ≡ lengths_of store.old }
{
    match item {
        OutlineItem::Plain(code, _item) => perform(code, registers, store, bench, sink),
        OutlineItem::Statement(inner) => team_statement(inner, team, registers, store, bench, sink),
    }
}
