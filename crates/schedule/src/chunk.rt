//! Chunks that follow from their numbers.

ghost use Rattle.std.specs.Prelude.{◌≡◌, ◌+◌, ◌<◌, ◌≤◌, ◌^◌, length, min, slice_get};
ghost use Rattle.semantics.specs.Loops.Chunk.{cut, PlainStatic, Static};
ghost use Rattle.schedule.specs.Chunk.{chunk_of};

/// The iterations `first`, `first + 1`, .. of a loop, `count` of them.
#[derive(Clone, Copy, Debug, PartialEq, Eq)]
pub struct Chunk {
    pub first: u64,
    pub count: u64,
}

/// How many chunks plain static makes.
pub(crate) fn share_count(iterations: u64, workers: u64) -> u64
    requires { 0 < workers }
    ensures { result ≡ length (cut PlainStatic iterations workers) }
{
    iterations.min(workers)
}

/// Which chunk of plain static has this number.
pub(crate) fn share_at(iterations: u64, workers: u64, number: u64) -> Chunk
    requires most { iterations ≤ 2 ^ 24 }
    requires some { 0 < workers }
    requires within { number < length (cut PlainStatic iterations workers) }
    ensures { slice_get (cut PlainStatic iterations workers) number ≡ Some (chunk_of result) }
{
    let least = iterations / workers;
    let longer = iterations % workers;
    Chunk {
        first: number * least + number.min(longer),
        count: if number < longer { least + 1 } else { least },
    }
}

/// How many chunks of this size there are.
pub(crate) fn block_count(iterations: u64, size: u64) -> u64
    requires { 0 < size }
    ensures { result ≡ length (cut (Static size) iterations 1) }
{
    iterations.div_ceil(size)
}

/// Which chunk of this size has this number.
pub(crate) fn block_at(iterations: u64, size: u64, number: u64) -> Chunk
    requires some { 0 < size }
    requires within { number < length (cut (Static size) iterations 1) }
    ensures { slice_get (cut (Static size) iterations 1) number ≡ Some (chunk_of result) }
{
    let first = number * size;
    Chunk {
        first,
        count: size.min(iterations - first),
    }
}
