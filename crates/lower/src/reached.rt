//! The iterations of a lowered loop where it is reached.

ghost use Rattle.std.specs.Prelude.{◌≡◌, ◌≤◌, ℕ, List, length, IfOk};
ghost use Rattle.lower.specs.Lowered.{IsSpaceOf, values_in};
ghost use Rattle.nest_space.specs.Fixed.{AreFixed};
ghost use Rattle.nest_space.specs.Rises.{EachRises};

use crate::lowered::LoweredLoop;
use ktree::VarId;
use ktree::limits::ASSOCIATED_LOOPS;
use nest_loop::{Direction, Stride};
use nest_space::{LoopTurns, Space, Value};
use std::alloc::{AllocError, Global};

// What these variables' registers hold.
fn values_at(alloc: Global, around: &[VarId], registers: &[u64]) -> Result<Vec<Value>, AllocError>
    ensures { IfOk result (λ values. values.items ≡ values_in around.now registers.now) }
{
    let mut values = Vec::with_capacity(alloc, around.len())?;
    for variable in around {
        let value = registers.get(variable.0 as usize).copied().unwrap_or(0);
        values.push(Value {
            variable: *variable,
            value,
        })?;
    }
    Ok(values)
}

// A loop that never turns.
fn never() -> LoopTurns
    ensures { result.count ≡ 0 }
{
    let stride = Stride {
        direction: Direction::Rising,
        by: 1,
    };
    match LoopTurns::new(0, stride, 0) {
        Some(turns) => turns,
        None => unreachable!(),
    }
}

// A space of so many loops that never turn.
fn idle(alloc: Global, loops: usize) -> Space
    requires { loops ≤ 4 }
    ensures { length result ≡ loops }
{
    let turns = [never(); ASSOCIATED_LOOPS];
    match Space::new(alloc, &turns[..loops]) {
        Some(space) => space,
        None => unreachable!(),
    }
}

impl LoweredLoop {
    /// Its iterations, where the variables round it are at what their registers hold (OpenMP 5.2, 4.4.2). Where its loops do not keep
    /// to their bounds there, or have more than 2^24 iterations, it has none: no loop of an accepted kernel is reached so.
    ///
    /// # Errors
    ///
    /// Where memory runs out.
    pub fn space(&self, alloc: Global, registers: &[u64]) -> Result<Space, AllocError>
        ensures loops { IfOk result (λ space. length space ≡ length self.now.loops.items) }
        ensures iterations { IfOk result (IsSpaceOf self.now registers.now) }
    {
        let values = values_at(alloc, &self.around, registers)?;
        match Space::reached_at(alloc, self.loops.as_slice(), values.as_slice()) {
            Some(space) => Ok(space),
            None => Ok(idle(alloc, self.loops.len())),
        }
    }

    /// Its iterations, where its loops rise between numbers and have a space: the same wherever it is reached (OpenMP 5.2, 4.4.2 and 15.9.6).
    pub fn fixed_space(&self, alloc: Global) -> Space
        requires { AreFixed self.now.loops.items }
        ensures loops { length result ≡ length self.now.loops.items }
        ensures iterations { (registers : List ℕ) → IsSpaceOf self.now registers result }
        ensures rise { EachRises result }
    {
        Space::anywhere(alloc, self.loops.as_slice())
    }
}
