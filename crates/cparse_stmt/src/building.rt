//! Statements made of their parts.

ghost use Rattle.std.specs.Prelude.{◌≡◌, ◌&&◌, Some, Ok, Err, IfOk, IfErr, is_none, string_bytes};
ghost use Rattle.semantics.specs.Tree.{If, IfElse, For};
ghost use Rattle.semantics.specs.Source.Scope.{Scope};
ghost use Rattle.ktree.specs.View.{stmt_of, source_of, cond_of};
ghost use Rattle.cparse_grammar.specs.Operators.{cond_in};
ghost use Rattle.cparse_grammar.specs.StatementReader.{told};
ghost use Rattle.cparse_grammar.specs.StatementParts.{append_items, with_item};
ghost use Rattle.cparse_phrase.specs.Headings.{heading_of};
ghost use Rattle.cparse_stmt.specs.Rows.{row_of, item_of, item_in, items_in, boxed_of};
ghost use Rattle.cparse_phrase.specs.Tallies.{tally_of, told_of};
ghost use Rattle.cparse_cursor.specs.Lexemes.{tokens_of};
ghost use Rattle.cparse_cursor.specs.Outcome.{Gives};
ghost use Rattle.cparse_cursor.specs.declared.stop.Stop.TheVariants.{Memory};

use cparse_cursor::parsed::Parsed;
use cparse_cursor::stop::{Stop, earlier};
use cparse_operand::wanted::cond_in;
use cparse_phrase::loop_head::LoopHead;
use cparse_phrase::tally::Tally;
use cparse_phrase::told::Told;
use ktree::{Head, Item, Place, Source, Stmt, VarId};
use std::alloc::Global;

/// An `if` without `else` (C11 6.8.4.1).
pub fn if_only<'s, 't>(
    alloc: Global,
    condition: Parsed<'s, 't, Source>,
    then: Told<'s, 't, Box<Stmt>>,
) -> Result<Told<'s, 't, Stmt>, Stop>
    ensures { let a = told_of boxed_of then.entry in
        Gives (told_of stmt_of) result
        (told (If (cond_in (source_of condition.entry.tree)) a.tree)
        (is_none condition.entry.fault && a.sound) a.tally a.rest) }
{
    let test = cond_in(alloc, condition.tree)?;
    Ok(Told {
        tree: Stmt::If(test, then.tree, None),
        fault: earlier(condition.fault, then.fault),
        tally: then.tally,
        rest: then.rest,
    })
}

/// An `if` with `else`.
pub fn if_else<'s, 't>(
    alloc: Global,
    condition: Parsed<'s, 't, Source>,
    then: Told<'s, 't, Box<Stmt>>,
    other: Told<'s, 't, Box<Stmt>>,
) -> Result<Told<'s, 't, Stmt>, Stop>
    ensures { let a = told_of boxed_of then.entry in let b = told_of boxed_of other.entry in
        Gives (told_of stmt_of) result
        (told (IfElse (cond_in (source_of condition.entry.tree)) a.tree b.tree)
        (is_none condition.entry.fault && (a.sound && b.sound)) b.tally b.rest) }
{
    let test = cond_in(alloc, condition.tree)?;
    Ok(Told {
        tree: Stmt::If(test, then.tree, Some(other.tree)),
        fault: earlier(condition.fault, earlier(then.fault, other.fault)),
        tally: other.tally,
        rest: other.rest,
    })
}

/// A loop's head with the spelling of its variable.
fn spelled_head(
    alloc: Global,
    place: Place,
    variable: VarId,
    name: String,
    head: LoopHead<'_, '_>,
) -> Result<Head, Stop>
    ensures variable { IfOk result (λ h. h.variable ≡ variable) }
    ensures name { IfOk result (λ h. h.name ≡ name) }
    ensures start { IfOk result (λ h. h.start ≡ head.entry.start) }
    ensures test { IfOk result (λ h. cond_of h.test ≡ cond_in (source_of head.entry.test)) }
    ensures step { IfOk result (λ h. h.step ≡ head.entry.step) }
    ensures err { IfErr result (λ stop. stop ≡ Memory) }
{
    let LoopHead {
        start,
        start_place,
        test,
        step,
        ..
    } = head;
    let test = cond_in(alloc, test)?;
    Ok(Head {
        variable,
        name,
        start,
        test,
        step,
        place,
        start_place,
    })
}

/// The spelling of a name, and what it belongs to. The type of that is not known here, so that letting go of it is a call, and is
/// not written out.
fn spell<T: Drop>(alloc: Global, name: &str, owner: T) -> Result<(String, T), Stop>
    ensures name { IfOk result (λ r. string_bytes r.0 ≡ name.now) }
    ensures owner { IfOk result (λ r. r.1 ≡ owner) }
    ensures err { IfErr result (λ stop. stop ≡ Memory) }
{
    let name = String::from_str(alloc, name)?;
    Ok((name, owner))
}

/// The head of a loop whose word stands at a place, over the variable of this number.
fn head_of(
    alloc: Global,
    place: Place,
    variable: VarId,
    head: LoopHead<'_, '_>,
) -> Result<Head, Stop>
    ensures variable { IfOk result (λ h. h.variable ≡ variable) }
    ensures name { IfOk result (λ h. string_bytes h.name ≡ head.entry.name.now) }
    ensures start { IfOk result (λ h. h.start ≡ head.entry.start) }
    ensures test { IfOk result (λ h. cond_of h.test ≡ cond_in (source_of head.entry.test)) }
    ensures step { IfOk result (λ h. h.step ≡ head.entry.step) }
    ensures err { IfErr result (λ stop. stop ≡ Memory) }
{
    let (name, head) = spell(alloc, head.name, head)?;
    spelled_head(alloc, place, variable, name, head)
}

/// What was read before a statement and that statement, if there is one; the first is of any type, as above.
pub fn both<'s, 't, T: Drop>(
    before: T,
    body: Result<Told<'s, 't, Box<Stmt>>, Stop>,
) -> Result<(T, Told<'s, 't, Box<Stmt>>), Stop>
    ensures before { IfOk result (λ r. r.0 ≡ before) }
    ensures body { IfOk result (λ r. body.entry ≡ Ok r.1) }
    ensures err { IfErr result (λ stop. body.entry ≡ Err stop) }
{
    let body = body?;
    Ok((before, body))
}

/// A loop whose word stands at a place, with the tally at its variable (C11 6.8.5.3).
pub fn loop_statement<'s, 't>(
    alloc: Global,
    place: Place,
    tally: Tally,
    head: LoopHead<'s, 't>,
    body: Told<'s, 't, Box<Stmt>>,
) -> Result<Told<'s, 't, Stmt>, Stop>
    ensures { let h = heading_of head.entry in let s = told_of boxed_of body.entry in
        Gives (told_of stmt_of) result
        (told (For tally.next h.name h.start (cond_in h.test) h.step s.tree) (h.sound && s.sound)
        s.tally s.rest) }
{
    let fault = earlier(head.fault, body.fault);
    let head = head_of(alloc, place, VarId(tally.next), head)?;
    Ok(Told {
        tree: Stmt::For(head, body.tree),
        fault,
        tally: body.tally,
        rest: body.rest,
    })
}

/// Items and one more.
#[tactic(auto, using(crate::proofs::ItemLemmas::items_more))]
fn more_items(mut items: Vec<Item>, tree: Item) -> Result<Vec<Item>, Stop>
    ensures { Gives items_in result (Some (append_items (items_in items) (item_in tree))) }
{
    items.push(tree)?;
    Ok(items)
}

/// What was read of items, and of one more.
pub fn with_item<'s, 't>(
    row: Told<'s, 't, Vec<Item>>,
    item: Told<'s, 't, Item>,
) -> Result<Told<'s, 't, Vec<Item>>, Stop>
    ensures { (outer inner : Scope)
        → Gives (row_of inner) result
        (Some (with_item (row_of outer row.entry) (item_of inner item.entry))) }
{
    let fault = earlier(row.fault, item.fault);
    let tree = more_items(row.tree, item.tree)?;
    Ok(Told {
        tree,
        fault,
        tally: item.tally,
        rest: item.rest,
    })
}
