//! Statements, tests and heads of loops as they are run by one thread.

ghost use Rattle.std.specs.Prelude.{◌≡◌, ◌≤◌, ◌^◌, [], ◌∷◌, IfOk, IfErr};
ghost use Rattle.semantics.specs.Tree.{no_items};
ghost use Rattle.semantics.specs.Meaning.Runs.{run, run_items};
ghost use Rattle.semantics.specs.Meaning.Agrees.{declared_in, declared_among};
ghost use Rattle.ktree.specs.View.{stmt_of, items_of, cond_of, with_item};
ghost use Rattle.ktree.specs.declared.refusal.Refusal.TheVariants.{OutOfMemory};
ghost use Rattle.lower_code.specs.Meaning.{MeansTest};
ghost use Rattle.lower_block.specs.Emission.{Compiles};
ghost use Rattle.outline.specs.Fit.{EntryPerforms, StepPerforms, HeadFits, WithLocals};
ghost use Rattle.lower_run.specs.Walk.{Performs};

use crate::shape::LoweredHead;
use ktree::{Cond, Head, Item, Refusal, Stmt};
use lower_block::{Compiled, compile};
use lower_code::{
    Laid, entry, increment, item as code_of_item, items as code_of_items, statement, test,
};
use lower_machine::{Code, Test};
use lower_unroll::unroll;
use std::alloc::Global;

/// What code is made for: where the file-scope variables lie among the cells, and how many registers the locals have, which 32 bits number.
#[derive(Clone, Copy)]
pub struct Target<'l> {
    pub layout: &'l [Laid],
    pub registers: u64,
    pub ghost few: { registers ≤ 2 ^ 32 },
}

// Code as a block over at least so many registers.
fn compile_as_it_is(alloc: Global, code: Code, registers: u64) -> Result<Compiled, Refusal>
    ensures ok { IfOk result
        (λ c. Compiles code registers c × registers ≤ c.registers) }
    ensures refusal { IfErr result (λ refusal. refusal ≡ OutOfMemory) }
{
    Ok(compile(alloc, &code, registers)?)
}

// Code as such a block, its short loops over locals written out.
fn compile_code(alloc: Global, code: Code, registers: u64) -> Result<Compiled, Refusal>
    ensures ok { IfOk result
        (λ c. Compiles code registers c × registers ≤ c.registers) }
    ensures refusal { IfErr result (λ refusal. refusal ≡ OutOfMemory) }
{
    let unrolled = unroll(alloc, code, registers)?;
    compile_as_it_is(alloc, unrolled, registers)
}

// The code of a statement.
pub(crate) fn compile_statement(
    alloc: Global,
    stmt: &Stmt,
    target: Target<'_>,
) -> Result<Compiled, Refusal>
    ensures ok { IfOk result
        (λ c. WithLocals target.entry.layout.now target.entry.registers
        (declared_in (stmt_of stmt.now))
        (Performs target.entry.layout.now target.entry.registers (run (stmt_of stmt.now)) c)) }
    ensures refusal { IfErr result (λ refusal. refusal ≡ OutOfMemory) }
{
    let code = statement(alloc, stmt, target.layout)?;
    compile_code(alloc, code, target.registers)
}

// The code of a block's item.
pub(crate) fn compile_item(
    alloc: Global,
    item: &Item,
    target: Target<'_>,
) -> Result<Compiled, Refusal>
    ensures ok { IfOk result
        (λ c. WithLocals target.entry.layout.now target.entry.registers
        (declared_among (with_item item.now no_items))
        (Performs target.entry.layout.now target.entry.registers
        (run_items (with_item item.now no_items)) c)) }
    ensures refusal { IfErr result (λ refusal. refusal ≡ OutOfMemory) }
{
    let code = code_of_item(alloc, item, target.layout)?;
    compile_code(alloc, code, target.registers)
}

// The code of a block's items.
pub(crate) fn compile_items(
    alloc: Global,
    items: &[Item],
    target: Target<'_>,
) -> Result<Compiled, Refusal>
    ensures ok { IfOk result
        (λ c. WithLocals target.entry.layout.now target.entry.registers
        (declared_among (items_of items.now))
        (Performs target.entry.layout.now target.entry.registers
        (run_items (items_of items.now)) c)) }
    ensures refusal { IfErr result (λ refusal. refusal ≡ OutOfMemory) }
{
    let code = code_of_items(alloc, items, target.layout)?;
    compile_code(alloc, code, target.registers)
}

// The test of a condition.
pub(crate) fn compile_test(alloc: Global, cond: &Cond, target: Target<'_>) -> Result<Test, Refusal>
    ensures ok { IfOk result (MeansTest target.entry.layout.now (cond_of cond.now)) }
    ensures refusal { IfErr result (λ refusal. refusal ≡ OutOfMemory) }
{
    Ok(test(alloc, cond, target.layout)?)
}

// What a loop's variable takes first.
fn compile_entry(alloc: Global, head: &Head, target: Target<'_>) -> Result<Compiled, Refusal>
    ensures ok { IfOk result
        (λ c. WithLocals target.entry.layout.now target.entry.registers (head.now.variable.0 ∷ [])
        (EntryPerforms target.entry.layout.now target.entry.registers head.now c)) }
    ensures refusal { IfErr result (λ refusal. refusal ≡ OutOfMemory) }
{
    let code = entry(alloc, head, target.layout)?;
    compile_code(alloc, code, target.registers)
}

// What a loop does behind each turn.
fn compile_step(alloc: Global, head: &Head, target: Target<'_>) -> Result<Compiled, Refusal>
    ensures ok { IfOk result
        (StepPerforms target.entry.layout.now target.entry.registers head.now) }
    ensures refusal { IfErr result (λ refusal. refusal ≡ OutOfMemory) }
{
    let code = increment(alloc, &head.step, target.layout)?;
    compile_code(alloc, code, target.registers)
}

// The head of a loop.
pub(crate) fn lower_head(
    alloc: Global,
    head: &Head,
    target: Target<'_>,
) -> Result<LoweredHead, Refusal>
    ensures ok { IfOk result
        (λ l. WithLocals target.entry.layout.now target.entry.registers (head.now.variable.0 ∷ [])
        (HeadFits target.entry.layout.now target.entry.registers head.now l)) }
    ensures refusal { IfErr result (λ refusal. refusal ≡ OutOfMemory) }
{
    let entry = compile_entry(alloc, head, target)?;
    let test = compile_test(alloc, &head.test, target)?;
    let step = compile_step(alloc, head, target)?;
    Ok(LoweredHead { entry, test, step })
}
