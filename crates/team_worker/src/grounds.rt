//! What a loop is run from.

ghost use Rattle.std.specs.Prelude.{◌≡◌, length, IfOk, IfErr};
ghost use Rattle.semantics.specs.Loops.Chunk.{cut};
ghost use Rattle.nest_space.specs.Space.{vectors};
ghost use Rattle.schedule.specs.Sched.{kind_of};
ghost use Rattle.team_worker.specs.Ends.{IsSplit};
ghost use Rattle.team_worker.specs.Places.{count_taken};

use crate::pass::Pass;
use ktree::{Refusal, Workers};
use lower::LoweredLoop;
use nest_space::Space;
use schedule::{Chunks, Sched, chunk_list};
use std::alloc::Global;

/// What a loop is run from where it is reached, but for its store: registers, its iterations, the chunks that these are cut
/// into, and how they begin.
#[derive(Drop)]
pub struct Grounds {
    pub registers: Vec<u64>,
    pub space: Space,
    pub chunks: Chunks,
    pub pass: Pass,
}

impl Grounds {
    /// How many iterations the pass takes.
    pub(crate) fn count(&self) -> u64
        ensures { result ≡ count_taken self.now }
    {
        self.pass.count(&self.space)
    }

    /// The same in this pass.
    pub fn in_pass(self, pass: Pass) -> Grounds
        ensures registers { result.registers ≡ self.registers }
        ensures space { result.space ≡ self.space }
        ensures chunks { result.chunks ≡ self.chunks }
        ensures pass { result.pass ≡ pass }
    {
        let Grounds {
            registers,
            space,
            chunks,
            pass: _,
        } = self;
        Grounds {
            registers,
            space,
            chunks,
            pass,
        }
    }
}

/// That of a loop where it is reached with these registers, cut by this schedule for so many workers.
///
/// # Errors
///
/// `OutOfMemory` alone.
pub fn grounds_of(
    alloc: Global,
    lowered: &LoweredLoop,
    registers: &[u64],
    sched: &Sched,
    workers: Workers,
) -> Result<Grounds, Refusal>
    ensures registers { IfOk result (λ g. g.registers.items ≡ registers.now) }
    ensures split { IfOk result (λ g. IsSplit lowered.now registers.now Pass.Plain g.space
        g.chunks) }
    ensures chunks { IfOk result (λ g. g.chunks
        ≡ cut (kind_of sched.now) (length (vectors g.space)) workers) }
    ensures pass { IfOk result (λ g. g.pass ≡ Pass.Plain) }
    ensures refusal { IfErr result (λ refusal. refusal ≡ Refusal.OutOfMemory) }
{
    let space = lowered.space(alloc, registers)?;
    let chunks = chunk_list(alloc, *sched, space.count(), workers)?;
    let registers = Vec::from_slice(alloc, registers)?;
    Ok(Grounds {
        registers,
        space,
        chunks,
        pass: Pass::Plain,
    })
}
