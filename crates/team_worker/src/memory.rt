//! Memory that is kept from loop to loop.

ghost use Rattle.std.specs.Prelude.{◌≡◌, [], IfOk};
ghost use Rattle.team_log.specs.Logged.{no_account};

use crate::place::Place;
use overlay::Tools;
use std::alloc::{AllocError, Global};
use team_log::ChunkLog;

/// A log of no chunk, at hand.
#[derive(Drop)]
pub struct EmptyLog {
    log: Box<ChunkLog>,
    pub ghost empty: { log.value ≡ no_account },
}

// A log of no chunk, in memory of its own.
fn new_log(alloc: Global) -> Result<Box<ChunkLog>, AllocError>
    ensures { IfOk result (λ log. log.value ≡ no_account) }
{
    Ok(Box::new(alloc, ChunkLog::new(alloc))?)
}

/// What a thread keeps from loop to loop: what a worker left there, the memory of a log that it took in exchange for its own, whatever that
/// holds, and a log of no chunk.
#[derive(Drop)]
pub struct ThreadMemory {
    pub(crate) tools: Option<Tools>,
    pub(crate) used: Option<Box<ChunkLog>>,
    empty: Option<EmptyLog>,
}

impl Default for ThreadMemory {
    fn default() -> ThreadMemory {
        ThreadMemory {
            tools: None,
            used: None,
            empty: None,
        }
    }
}

impl ThreadMemory {
    /// Has a log of no chunk at hand, where there is the memory of one. Another thread had that last, so that writing there takes long.
    pub fn make_ready(&mut self, alloc: Global) {
        let Some(mut log) = self.used.take() else {
            return;
        };
        *log = ChunkLog::new(alloc);
        self.empty = Some(EmptyLog { log });
    }

    /// A log of no chunk.
    pub(crate) fn empty_log(&mut self, alloc: Global) -> Result<Box<ChunkLog>, AllocError>
        ensures { IfOk result (λ log. log.value ≡ no_account) }
    {
        self.make_ready(alloc);
        match self.empty.take() {
            Some(EmptyLog { log }) => Ok(log),
            None => new_log(alloc),
        }
    }
}

/// What the thread that leads keeps from wave to wave: the memory of places, and of logs for the places of a wave, whatever these hold.
#[derive(Drop)]
pub struct Spare {
    pub places: Vec<Place>,
    pub(crate) logs: Vec<Box<ChunkLog>>,
}

impl Spare {
    /// None yet.
    pub fn new(alloc: Global) -> Spare
        ensures { result.places.items ≡ [] }
    {
        Spare {
            places: Vec::new(alloc),
            logs: Vec::new(alloc),
        }
    }

    /// The memory of a log.
    pub(crate) fn log(&mut self, alloc: Global) -> Result<Box<ChunkLog>, AllocError>
        ensures { self.new.places ≡ self.old.places }
    {
        match self.logs.pop() {
            Some(log) => Ok(log),
            None => new_log(alloc),
        }
    }
}
