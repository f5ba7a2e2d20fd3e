//! Who is told of the chunks that workers take.

ghost use Rattle.std.specs.Prelude.{◌<◌};

/// A chunk that a worker has taken, by its number among the chunks of the loop, and the worker by its number among the workers of the team.
#[derive(Clone, Copy, Debug, PartialEq, Eq)]
pub struct Taken {
    pub worker: u64,
    pub workers: u64,
    pub chunk: u64,
    pub chunks: u64,
}

/// Is told of each chunk that a worker has taken, before the worker runs it.
pub trait Gate {
    /// A worker has taken a chunk.
    fn entered(&self, taken: Taken)
        requires worker { taken.worker < taken.workers }
        requires chunk { taken.chunk < taken.chunks };
}

/// A gate that lets each worker pass.
pub struct OpenGate;

impl Gate for OpenGate {
    fn entered(&self, _taken: Taken) {}
}
