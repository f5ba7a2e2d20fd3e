//! Doacross nests, which a team runs wave by wave (OpenMP 5.2, 15.9.6 and 15.10.1).

ghost use Rattle.std.specs.Prelude.{◌≡◌, ◌≤◌, ◌^◌, ℕ, length, map, IfOk, IfErr, OnOk};
ghost use Rattle.nest_space.specs.Fixed.{AreFixed};
ghost use Rattle.nest_space.specs.Rises.{EachRises};
ghost use Rattle.nest_space.specs.Space.{vectors};
ghost use Rattle.schedule.specs.Sched.{kind_of, kind_said};
ghost use Rattle.store.specs.Flat.{AreFilled, values_of};
ghost use Rattle.team_worker.specs.Overwritten.{AreOverwrittenByAll};
ghost use Rattle.team_worker.specs.Places.{Aim, AreLeft};
ghost use Rattle.team.specs.Waved.{WaveTogether, AreWaved, LeavesInWaves, IsReachedBy, IsWaveIn, AreWavesIn, AreOfWave, standing};

use crate::lent::{LoopCrew, Returned, lent_whole};
use crate::teamwork::confirm_filled;
use ktree::{Refusal, Workers};
use lower::LoweredLoop;
use lower_run::confirm_words;
use nest_space::Space;
use schedule::{Sched, chunk_list, sched_of};
use std::alloc::{AllocError, Global};
use std::mem;
use std::sync::Wait;
use store::Store;
use team_worker::{Gate, Grounds, Pass, Spare, apply_left};
use waves::{Sinks, Waves, levels};

/// A loop where it is reached, but for its store: its registers, and its iterations.
#[derive(Drop)]
pub struct Reached {
    pub registers: Vec<u64>,
    pub space: Space,
}

// A doacross nest where it is reached with these registers.
fn reach_nest(alloc: Global, lowered: &LoweredLoop, registers: &[u64]) -> Result<Reached, Refusal>
    requires { AreFixed lowered.now.loops.items }
    ensures by { IfOk result (IsReachedBy lowered.now) }
    ensures registers { IfOk result (λ r. r.registers.items ≡ registers.now) }
    ensures rise { IfOk result (λ r. EachRises r.space) }
    ensures refusal { IfErr result (λ refusal. refusal ≡ Refusal.OutOfMemory) }
{
    let registers = Vec::from_slice(alloc, registers)?;
    let space = lowered.fixed_space(alloc);
    space.confirm_few();
    Ok(Reached { registers, space })
}

// These numbers, in the memory of others.
fn copy_numbers(numbers: &[u64], memory: Vec<u64>) -> Result<Vec<u64>, AllocError>
    ensures { IfOk result (λ copy. copy.items ≡ numbers.now) }
{
    let mut copy = memory;
    copy.clear();
    copy.extend_from_slice(numbers)?;
    Ok(copy)
}

// The memory of the numbers of a wave.
fn memory_of(alloc: Global, pass: Pass) -> Vec<u64> {
    match pass {
        Pass::Wave(numbers) => numbers,
        _ => Vec::new(alloc),
    }
}

// What a nest is run from where it is reached, before its first wave.
fn first_grounds(
    alloc: Global,
    reached: Reached,
    sched: &Sched,
    workers: Workers,
) -> Result<Box<Grounds>, Refusal>
    ensures stands { IfOk result (λ g. standing g.value ≡ reached) }
    ensures refusal { IfErr result (λ refusal. refusal ≡ Refusal.OutOfMemory) }
{
    let chunks = chunk_list(alloc, *sched, 0, workers)?;
    let Reached { registers, space } = reached;
    let grounds = Grounds {
        registers,
        space,
        chunks,
        pass: Pass::Plain,
    };
    Ok(Box::new(alloc, grounds)?)
}

// Makes it what a wave is run from: the iterations of these numbers, cut by this schedule for so many workers. The numbers stand in the memory
// of those of the wave before.
fn set_wave(
    alloc: Global,
    grounds: &mut Grounds,
    numbers: &[u64],
    sched: &Sched,
    workers: Workers,
) -> Result<(), Refusal>
    requires { length numbers.now ≤ 2 ^ 24 }
    ensures wave { OnOk result
        (AreOfWave (standing grounds.old) numbers.now (kind_of sched.now) workers grounds.new) }
    ensures refusal { IfErr result (λ refusal. refusal ≡ Refusal.OutOfMemory) }
{
    let chunks = chunk_list(alloc, *sched, numbers.len() as u64, workers)?;
    grounds.chunks = chunks;
    let before = mem::replace(&mut grounds.pass, Pass::Plain);
    let numbers = copy_numbers(numbers, memory_of(alloc, before))?;
    grounds.pass = Pass::Wave(numbers);
    Ok(())
}

// Puts what all chunks of a wave changed into the store, and gives back what it was run from. The memory of its workers' places is kept.
fn put_wave(
    alloc: Global,
    returned: Returned,
    store: &mut Store,
    spare: &mut Spare,
) -> Result<Box<Grounds>, Refusal>
    requires { (aim : Aim) × (count : ℕ) × AreLeft aim count returned.way returned.places.items }
    ensures grounds { IfOk result (λ grounds. grounds ≡ returned.grounds) }
    ensures filled { AreFilled store.old }
    ensures applied { OnOk result ((aim : Aim) (count : ℕ)
        → AreLeft aim count returned.way returned.places.items
        → AreOverwrittenByAll aim (values_of store.old) (values_of store.new)) }
    ensures shape { map (λ k. k.lengths) store.new ≡ map (λ k. k.lengths) store.old }
    ensures refusal { IfErr result (λ refusal. refusal ≡ Refusal.OutOfMemory) }
{
    let Returned {
        grounds,
        way,
        places,
    } = returned;
    spare.places = places;
    confirm_filled(store);
    apply_left(alloc, way, spare, store)?;
    Ok(grounds)
}

// Runs the iterations of these numbers, from the store as it is.
fn run_wave<'l, R: Wait, G: Gate>(
    rt: &R,
    alloc: Global,
    crew: &LoopCrew<'l>,
    lowered: &'l LoweredLoop,
    here: Box<Grounds>,
    numbers: &[u64],
    store: &mut Store,
    workers: Workers,
    sched: &Sched,
    gate: &G,
    spare: &mut Spare,
) -> Result<Box<Grounds>, Refusal>
    requires by { IsReachedBy lowered.now (standing here.value) }
    requires numbers { IsWaveIn (vectors here.value.space) numbers.now }
    ensures waved { OnOk result (WaveTogether lowered.now numbers.now here.value.registers.items
        store.old store.new (kind_of sched.now) workers) }
    ensures stands { IfOk result (λ g. standing g.value ≡ standing here.value) }
    ensures shape { map (λ k. k.lengths) store.new ≡ map (λ k. k.lengths) store.old }
    ensures refusal { IfErr result (λ refusal. refusal ≡ Refusal.OutOfMemory) }
{
    let mut grounds = here;
    set_wave(alloc, &mut grounds, numbers, sched, workers)?;
    let returned = lent_whole(
        rt, alloc, crew, lowered, grounds, spare, store, workers, sched, gate,
    )?;
    put_wave(alloc, returned, store, spare)
}

// Runs these waves, each from the store behind the one before.
fn run_waves<'l, R: Wait, G: Gate>(
    rt: &R,
    alloc: Global,
    crew: &LoopCrew<'l>,
    lowered: &'l LoweredLoop,
    reached: Reached,
    waves: &Waves,
    store: &mut Store,
    workers: Workers,
    sched: &Sched,
    gate: &G,
) -> Result<(), Refusal>
    requires by { IsReachedBy lowered.now reached }
    requires waves { AreWavesIn (vectors reached.space) waves.now }
    ensures waved { OnOk result (AreWaved lowered.now waves.now reached.registers.items store.old
        store.new (kind_of sched.now) workers) }
    ensures shape { map (λ k. k.lengths) store.new ≡ map (λ k. k.lengths) store.old }
    ensures refusal { IfErr result (λ refusal. refusal ≡ Refusal.OutOfMemory) }
{
    let mut here = first_grounds(alloc, reached, sched, workers)?;
    let mut spare = Spare::new(alloc);
    for level in 0..waves.len() {
        here = run_wave(
            rt,
            alloc,
            crew,
            lowered,
            here,
            waves.wave(level),
            store,
            workers,
            sched,
            gate,
            &mut spare,
        )?;
        confirm_words(here.registers.as_slice(), store);
    }
    Ok(())
}

/// Runs a doacross nest on a crew that stands by, wave after wave: its loops rise between numbers and have a space, and its iterations are
/// taken by the levels that its sinks give them, so that each iteration waits for those that its sinks name. Each wave is cut into chunks by
/// the schedule of the nest's clause, and for `runtime` by this one, over the positions of its iterations, with a drawing of its own where
/// chunks are drawn; its chunks begin from the store behind the wave before, and the gate is told of each of them, by its number in its wave
/// (OpenMP 5.2, 11.5.3, 15.9.6 and 15.10.1). These registers stand as where the nest is reached. Where the chunks of a wave have a run each
/// from there, each object at file scope is behind the wave as before where none of these runs changes it, and else as one of them leaves it
/// that does. It holds for nests that have neither reduction nor lastprivate variables, and nothing is put that they print.
///
/// # Errors
///
/// `OutOfMemory` alone; some waves may have been run then, and the store is as behind the last of these.
pub fn share_waves<'l, R: Wait, G: Gate>(
    rt: &R,
    alloc: Global,
    crew: &LoopCrew<'l>,
    lowered: &'l LoweredLoop,
    sinks: &Sinks,
    registers: &[u64],
    store: &mut Store,
    workers: Workers,
    runtime: Sched,
    gate: &G,
) -> Result<(), Refusal>
    requires { AreFixed lowered.now.loops.items }
    ensures waved { OnOk result (LeavesInWaves lowered.now sinks.now.distances registers.now
        store.old store.new (kind_said lowered.now.schedule runtime) workers) }
    ensures shape { map (λ k. k.lengths) store.new ≡ map (λ k. k.lengths) store.old }
    ensures refusal { IfErr result (λ refusal. refusal ≡ Refusal.OutOfMemory) }
{
    let sched = sched_of(lowered.schedule, runtime);
    let reached = reach_nest(alloc, lowered, registers)?;
    let waves = levels(alloc, &reached.space, sinks)?;
    run_waves(
        rt, alloc, crew, lowered, reached, &waves, store, workers, &sched, gate,
    )
}
