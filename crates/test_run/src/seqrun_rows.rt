//! Statements over a store with one array, the variable 0, and the local 1.

ghost use Rattle.std.specs.Prelude.{◌≡◌, ◌+◌, ◌<◌, ◌^◌, List, [], ◌∷◌, codes, Some, IsSome, IfOk};
ghost use Rattle.semantics.specs.Tree;
ghost use Rattle.ktree.specs.View.{expr_of, cond_of, binary_of, stmt_of, with_item, items_of};
ghost use Rattle.semantics.specs.Meaning.Runs.{run, run_items};
ghost use Rattle.store.specs.Kept.{Kept};
ghost use Rattle.seqrun_value.specs.Standing.{standing};
ghost use Rattle.seqrun_value.specs.declared.frame.Slot.{Slot};

use crate::stores::{holds, one_array};
use ktree::{
    BinaryOp, CompareOp, Cond, Expr, Head, Increment, Item, Local, NamePlaces, Place, PrintPart,
    Refusal, Source, Stmt, Suffix, Target, VarId,
};
use seqrun::*;
use seqrun_io::{Memory, Sink, Writer};
use seqrun_value::Frame;
use std::alloc::{AllocError, Global};
use std::io::{Error, ErrorKind, Write};
use std::test::Fail;
use store::Store;

const HERE: Place = Place { line: 1, column: 1 };

/// A literal.
fn number(n: u64) -> Expr
    ensures { expr_of result ≡ Tree.Literal n Tree.Ull }
{
    Expr::Literal(n, Suffix::Ull)
}

fn mention(alloc: Global) -> NamePlaces {
    NamePlaces {
        name: HERE,
        subscripts: Vec::new(alloc),
    }
}

/// The local.
fn local(alloc: Global) -> Expr
    ensures { expr_of result ≡ Tree.Object 1 Tree.no_exprs }
{
    Expr::Object(VarId(1), Vec::new(alloc), mention(alloc))
}

/// `local < n`
fn below(alloc: Global, n: u64) -> Result<Cond, AllocError>
    ensures { IfOk result (λ c. cond_of c
        ≡ Tree.Compare Tree.Less (Tree.Object 1 Tree.no_exprs) (Tree.Literal n Tree.Ull)) }
{
    let left = Box::new(alloc, local(alloc))?;
    let right = Box::new(alloc, number(n))?;
    Ok(Cond::Compare(CompareOp::Less, left, right, HERE))
}

/// `A[at]`
fn element(alloc: Global, at: u64) -> Result<Target, AllocError>
    ensures { IfOk result (λ t. (e : _) × (t.variable.0 ≡ 0) × (t.subscripts.items ≡ e ∷ [])
        × (expr_of e ≡ Tree.Literal at Tree.Ull)) }
{
    let mut subscripts = Vec::new(alloc);
    subscripts.push(number(at))?;
    Ok(Target {
        variable: VarId(0),
        subscripts,
        mention: mention(alloc),
    })
}

/// `A[at] = n;`
fn assignment(alloc: Global, at: u64, n: u64) -> Result<Box<Stmt>, AllocError>
    ensures { IfOk result (λ s. stmt_of s.value
        ≡ Tree.Assign 0 (Tree.more_exprs (Tree.Literal at Tree.Ull) Tree.no_exprs)
        (Tree.Number (Tree.Literal n Tree.Ull))) }
{
    let target = element(alloc, at)?;
    Ok(Box::new(alloc, Stmt::Assign(target, Source::Number(number(n))))?)
}

/// `A[at] op= n;`
fn update(alloc: Global, at: u64, op: BinaryOp, n: u64) -> Result<Box<Stmt>, AllocError>
    ensures { IfOk result (λ s. stmt_of s.value
        ≡ Tree.Update 0 (Tree.more_exprs (Tree.Literal at Tree.Ull) Tree.no_exprs) (binary_of op)
        (Tree.Literal n Tree.Ull)) }
{
    let target = element(alloc, at)?;
    Ok(Box::new(alloc, Stmt::Update(target, op, number(n)))?)
}

/// `printf("%llu\n", local);`
fn line(alloc: Global) -> Result<Box<Stmt>, AllocError>
    ensures { IfOk result (λ s. stmt_of s.value
        ≡ Tree.Print (Tree.Decimal (Tree.Object 1 Tree.no_exprs) ∷ Tree.Characters (codes "\n")
        ∷ [])) }
{
    let characters = PrintPart::Characters(Vec::from_slice(alloc, b"\n")?);
    let parts = vec![in alloc; PrintPart::Decimal(local(alloc)), characters]?;
    Ok(Box::new(alloc, Stmt::Print(parts, HERE))?)
}

/// `for (local = 9; local < 12; local++) body`
fn turns(alloc: Global, body: Box<Stmt>) -> Result<Box<Stmt>, AllocError>
    ensures { IfOk result (λ s. stmt_of s.value
        ≡ Tree.For 1 (codes "i") (Tree.Number (Tree.Literal 9 Tree.Ull))
        (Tree.Compare Tree.Less (Tree.Object 1 Tree.no_exprs) (Tree.Literal 12 Tree.Ull))
        (Tree.Up 1) (stmt_of body.value)) }
{
    let test = below(alloc, 12)?;
    let name = String::from_str(alloc, "i")?;
    let head = Head {
        variable: VarId(1),
        name,
        start: Source::Number(number(9)),
        test,
        step: Increment::Up(VarId(1)),
        place: HERE,
        start_place: HERE,
    };
    Ok(Box::new(alloc, Stmt::For(head, body))?)
}

/// The loop that prints, which has a run wherever it stands.
fn printing_loop(alloc: Global) -> Result<Box<Stmt>, AllocError>
    ensures { IfOk result (λ s. (frame : List Slot) (ks : List Kept)
        → IsSome (run (stmt_of s.value) (standing frame ks))) }
{
    let body = line(alloc)?;
    let stmt = turns(alloc, body)?;
    Ok(stmt)
}

/// `unsigned long long i = n;`
fn declaration(alloc: Global, n: u64) -> Result<Item, AllocError>
    ensures { IfOk result (λ i. (rest : Tree.Items)
        → with_item i rest ≡ Tree.local 1 (codes "i") (Some (Tree.Number (Tree.Literal n Tree.Ull)))
        rest) }
{
    Ok(Item::Local(Local {
        variable: VarId(1),
        name: String::from_str(alloc, "i")?,
        start: Some(Source::Number(number(n))),
        place: HERE,
    }))
}

/// Runs a statement without locals; the number of its refusal, where it is refused.
fn refusal_number<S: Sink>(
    alloc: Global,
    stmt: &Stmt,
    store: &mut Store,
    sink: &mut S,
) -> Option<u8>
    requires room { S.failed sink.old + 1 < 2 ^ 64 }
    requires runs { IsSome (run (stmt_of stmt.now) (standing [] store.old)) }
{
    let mut frame = Frame::new(Vec::new(alloc));
    match statement(stmt, &mut frame, store, sink) {
        Ok(()) => None,
        Err(refusal) => Some(refusal.number()),
    }
}

/// Whether a statement leaves these values of three, 7 each, and writes these bytes.
fn leaves(alloc: Global, stmt: &Stmt, values: &[u64], output: &[u8]) -> bool
    requires { IsSome (run (stmt_of stmt.now)
        (standing [] (record { lengths = 3 ∷ []; values = 7 ∷ 7 ∷ 7 ∷ [] } ∷ []))) }
{
    let Ok(mut store) = one_array(alloc, &[7, 7, 7]) else {
        return false;
    };
    let mut sink = Memory::new(alloc);
    refusal_number(alloc, stmt, &mut store, &mut sink).is_none()
        && holds(&store, values)
        && sink.bytes() == output
}

#[test]
fn assignments_write_elements(rt: HostRuntime) -> Result<(), Fail> {
    let stmt = assignment(rt.alloc(), 2, 9)?;
    assert!(rt; leaves(rt.alloc(), &*stmt, &[7, 7, 9], b""));
    Ok(())
}

#[test]
fn updates_take_the_old_value(rt: HostRuntime) -> Result<(), Fail> {
    let stmt = update(rt.alloc(), 1, BinaryOp::Minus, 8)?;
    assert!(rt; leaves(rt.alloc(), &*stmt, &[7, u64::MAX, 7], b""));
    Ok(())
}

/// A choice by the local: the first element is 1 or 2.
fn choice_by_local(alloc: Global) -> Result<Box<Stmt>, AllocError>
    ensures { IfOk result (λ s. stmt_of s.value
        ≡ Tree.IfElse (Tree.Compare Tree.Less (Tree.Object 1 Tree.no_exprs)
        (Tree.Literal 4 Tree.Ull)) (Tree.Assign 0
        (Tree.more_exprs (Tree.Literal 0 Tree.Ull) Tree.no_exprs)
        (Tree.Number (Tree.Literal 1 Tree.Ull)))
        (Tree.Assign 0 (Tree.more_exprs (Tree.Literal 0 Tree.Ull) Tree.no_exprs)
        (Tree.Number (Tree.Literal 2 Tree.Ull)))) }
{
    let then = assignment(alloc, 0, 1)?;
    let other = assignment(alloc, 0, 2)?;
    let cond = below(alloc, 4)?;
    Ok(Box::new(alloc, Stmt::If(cond, then, Some(other)))?)
}

/// A declaration of the local and a choice by it.
fn body(alloc: Global) -> Result<Vec<Item>, AllocError>
    ensures { IfOk result (λ is. items_of is.items
        ≡ Tree.local 1 (codes "i") (Some (Tree.Number (Tree.Literal 4 Tree.Ull)))
        (Tree.stmt (Tree.IfElse (Tree.Compare Tree.Less (Tree.Object 1 Tree.no_exprs)
        (Tree.Literal 4 Tree.Ull)) (Tree.Assign 0
        (Tree.more_exprs (Tree.Literal 0 Tree.Ull) Tree.no_exprs)
        (Tree.Number (Tree.Literal 1 Tree.Ull)))
        (Tree.Assign 0 (Tree.more_exprs (Tree.Literal 0 Tree.Ull) Tree.no_exprs)
        (Tree.Number (Tree.Literal 2 Tree.Ull)))) Tree.no_items)) }
{
    let choice = choice_by_local(alloc)?;
    let mut items = Vec::new(alloc);
    items.push(declaration(alloc, 4)?)?;
    items.push(Item::Statement(choice))?;
    Ok(items)
}

/// Whether items leave these values of three, 7 each.
fn leave(alloc: Global, items: &[Item], values: &[u64]) -> bool
    requires { IsSome (run_items (items_of items.now)
        (standing [] (record { lengths = 3 ∷ []; values = 7 ∷ 7 ∷ 7 ∷ [] } ∷ []))) }
{
    let Ok(mut store) = one_array(alloc, &[7, 7, 7]) else {
        return false;
    };
    let mut frame = Frame::new(Vec::new(alloc));
    let mut sink = Memory::new(alloc);
    block(items, &mut frame, &mut store, &mut sink).is_ok() && holds(&store, values)
}

#[test]
fn blocks_run_their_items_in_order(rt: HostRuntime) -> Result<(), Fail> {
    let items = body(rt.alloc())?;
    assert!(rt; leave(rt.alloc(), items.as_slice(), &[2, 7, 7]));
    Ok(())
}

#[test]
fn loops_print_in_each_turn(rt: HostRuntime) -> Result<(), Fail> {
    let stmt = printing_loop(rt.alloc())?;
    assert!(rt; leaves(rt.alloc(), &*stmt, &[7, 7, 7], b"9\n10\n11\n"));
    Ok(())
}

// A writer that takes one byte a call, and fails at its fourth.
#[derive(Drop)]
struct OneByte {
    calls: usize,
}

impl Write for OneByte {
    fn write(&mut self, buf: &[u8]) -> std::io::Result<usize> {
        self.calls = self.calls.wrapping_add(1);
        if self.calls == 4 {
            return Err(Error::from(ErrorKind::Other));
        }
        Ok(buf.len().min(1))
    }

    fn flush(&mut self) -> std::io::Result<()> {
        Ok(())
    }
}

/// Whether a statement over that writer is refused as an output that failed, and the sink failed once.
fn fails_once(alloc: Global, stmt: &Stmt) -> Result<bool, AllocError>
    requires { IsSome (run (stmt_of stmt.now)
        (standing [] (record { lengths = 3 ∷ []; values = 7 ∷ 7 ∷ 7 ∷ [] } ∷ []))) }
{
    let mut store = one_array(alloc, &[7, 7, 7])?;
    let mut sink = Writer::new(OneByte { calls: 0 });
    let number = refusal_number(alloc, stmt, &mut store, &mut sink);
    Ok(number == Some(Refusal::OutputFailed.number()) && sink.failures() == 1)
}

#[test]
fn a_failing_sink_ends_the_run(rt: HostRuntime) -> Result<(), Fail> {
    let stmt = printing_loop(rt.alloc())?;
    assert!(rt; matches!(fails_once(rt.alloc(), &*stmt), Ok(true)));
    Ok(())
}
