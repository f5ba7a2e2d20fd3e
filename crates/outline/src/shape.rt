//! What is made of a kernel before it is run.

ghost use Rattle.outline.specs.Waved.{IsFixedInWaves};

use ktree::{Cond, Head, Item, Stmt};
use lower::LoweredLoop;
use lower_block::Compiled;
use lower_machine::Test;
use waves::Sinks;

/// How a team may run a loop.
#[derive(Drop)]
pub enum Way {
    /// In chunks: nothing is carried from one iteration to the next.
    Chunks,
    /// In chunks, in two passes (OpenMP 5.2, 5.6): this is what the first pass runs.
    Scan(LoweredLoop),
    /// Wave by wave, by these sinks, each wave in chunks (OpenMP 5.2, 15.9.6).
    Waves(Sinks),
    /// By one worker alone.
    Alone,
}

/// A loop that a team runs: the statement, the number of the directive line before it, how many loops of it are associated
/// (OpenMP 5.2, 4.4.3), how it may be run, what it is lowered to, and the code of the whole statement for a team of one thread. The
/// loops of a nest that is run in waves rise between numbers, and have a space (15.9.6).
#[derive(Drop)]
pub struct TeamLoop<'k> {
    pub statement: &'k Stmt,
    pub line: u32,
    pub depth: u64,
    pub way: Way,
    pub lowered: LoweredLoop,
    pub code: Compiled,
    pub ghost fixed: { IsFixedInWaves lowered way },
}

/// A loop's head as it is run: the first value of its variable, the test before each turn, and the step behind it (C11 6.8.5.3).
#[derive(Drop)]
pub struct LoweredHead {
    pub entry: Compiled,
    pub test: Test,
    pub step: Compiled,
}

/// A statement as it is run (C11 6.8).
#[cycle(outline)]
#[derive(Drop)]
pub enum Outline<'k> {
    /// By the thread that runs the kernel.
    Serial(Compiled, &'k Stmt),
    /// By a team (OpenMP 5.2, 11.5).
    Team(TeamLoop<'k>),
    If(Test, &'k Cond, Box<Outline<'k>>, Option<Box<Outline<'k>>>),
    For(LoweredHead, &'k Head, Box<Outline<'k>>),
    Block(Vec<OutlineItem<'k>>),
}

/// A block's item as it is run (C11 6.8.2).
#[cycle(outline)]
#[derive(Drop)]
pub enum OutlineItem<'k> {
    /// By the thread that runs the kernel: a local's declaration, or a directive line.
    Plain(Compiled, &'k Item),
    Statement(Box<Outline<'k>>),
}
