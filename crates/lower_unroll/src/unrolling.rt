//! Loops written out.

ghost use Rattle.std.specs.Prelude.{◌≡◌, ◌+◌, ◌*◌, ◌<◌, ◌≤◌, ◌^◌, true, length, IfOk, if◌then◌else◌};
ghost use Rattle.semantics.specs.Meaning.Runs.{greatest_trip_count};
ghost use Rattle.lower_machine.specs.Machine.{Running, after, spins, truth};
ghost use Rattle.lower_unroll.specs.Turns.{DoesAs, sets_others, turns, with_register};

use crate::copying::{Known, copy_code};
use crate::counting::{Counted, counted_of};
use lower_machine::{Code, Test, beside, box_both, branch, number, then};
use std::alloc::{AllocError, Global};

// A number that a register takes.
fn set_to(counted: Counted<'_>, value: u64) -> Code
    ensures { (r : Running) → after result r ≡ with_register counted.entry.variable.at value r }
{
    Code::Set(counted.variable, number(value))
}

// The turns of a loop, one behind another.
fn copies(alloc: Global, counted: Counted<'_>) -> Result<Code, AllocError>
    requires body { sets_others counted.variable.at counted.body.now ≡ true }
    requires few { counted.turns ≤ 256 }
    requires fits { counted.first + counted.turns * counted.by < 2 ^ 64 }
    ensures { IfOk result (λ c. (r : Running)
        → counted.entry.variable.at < length r.machine.registers
        → after c r ≡ turns counted.entry.body.now counted.entry.variable.at counted.entry.first
        counted.entry.by counted.entry.turns r) }
{
    let mut code = Code::Nothing;
    'turns: for turn in 0..counted.turns {
        let known = Known {
            register: counted.variable,
            value: counted.first + turn * counted.by,
        };
        let (before, next) = beside(code, copy_code(alloc, counted.body, known))?;
        code = then(alloc, before, next)?;
    }
    let end = set_to(counted, counted.first + counted.turns * counted.by);
    then(alloc, code, end)
}

// Code behind other code over so many registers, written out where both are a loop of which that is to be done.
fn sequence(alloc: Global, a: Code, b: Code, count: u64) -> Result<Code, AllocError>
    ensures { IfOk result (DoesAs count (λ r. after b (after a r))) }
{
    if let Some(counted) = counted_of(&a, &b)
        && u64::from(counted.variable.at) < count
    {
        return copies(alloc, counted);
    }
    then(alloc, a, b)
}

// As long as a test holds, a body and then a step.
fn repeat(alloc: Global, test: Test, body: Code, step: Code) -> Result<Code, AllocError>
    ensures { IfOk result (λ c. (r : Running) → after c r
        ≡ spins greatest_trip_count (truth test) (λ k. after step (after body k)) r) }
{
    let (body, step) = box_both(alloc, body, step)?;
    Ok(Code::Loop(test, body, step))
}

/// Code over so many registers, in which each loop that turns a known number of times, at most 256, and does nothing but to set locals is
/// written out, where that does not become too long: it does the same (C11 6.8.5).
///
/// # Errors
///
/// Where memory runs out.
pub fn unroll(alloc: Global, code: Code, count: u64) -> Result<Code, AllocError>
    ensures { IfOk result (DoesAs count (after code)) }
{
    match code {
        Code::Then(a, b) => {
            let (b, a) = beside(b, unroll(alloc, Box::into_inner(a), count))?;
            let (a, b) = beside(a, unroll(alloc, Box::into_inner(b), count))?;
            sequence(alloc, a, b, count)
        }
        Code::If(c, a, b) => {
            let (rest, a) = beside((c, b), unroll(alloc, Box::into_inner(a), count))?;
            let (front, b) = beside((rest.0, a), unroll(alloc, Box::into_inner(rest.1), count))?;
            branch(alloc, front.0, front.1, b)
        }
        Code::Loop(test, body, step) => {
            let (rest, body) = beside((test, step), unroll(alloc, Box::into_inner(body), count))?;
            repeat(alloc, rest.0, body, Box::into_inner(rest.1))
        }
        other => Ok(other),
    }
}
