//! What a part of a body writes.

ghost use Rattle.std.specs.Prelude.{◌≡◌, ◌||◌, ◌∷◌, [], ℕ, is_some, string_bytes, OnOk, IfOk};
ghost use Rattle.semantics.specs.Tree as meant;
ghost use Rattle.semantics.specs.Tree.{Items};
ghost use Rattle.semantics.specs.Meaning.Agrees.{is_among};
ghost use Rattle.law_scans.specs.Phases.{written_in, written_among};
ghost use Rattle.ktree.specs.View.{start_of, stmt_of, with_item, items_of};
ghost use Rattle.pragma_mention.specs.Sets.{holds};

use ktree::{Item, Local, Place, Stmt, VarId};
use pragma_mention::note;
use std::alloc::{AllocError, Global};
use std::collections::HashSet;

/// Adds what a statement writes to a set.
#[cycle(gathering)]
fn add_written(set: &mut HashSet<u32>, statement: &Stmt) -> Result<(), AllocError>
    ensures { OnOk result ((q : ℕ) → holds set.new q
        ≡ (holds set.old q || is_among (written_in (stmt_of statement.now)) q)) }
{
    match statement {
        Stmt::Assign(target, _) => {
            note(set, target.variable)?;
            Ok(())
        }
        Stmt::Update(target, _, _) => {
            note(set, target.variable)?;
            Ok(())
        }
        Stmt::If(_, then, other) => {
            add_written(set, then)?;
            match other {
                None => Ok(()),
                Some(other) => add_written(set, other),
            }
        }
        Stmt::For(head, body) => {
            note(set, head.variable)?;
            add_written(set, body)
        }
        Stmt::Block(items) => add_among(set, items),
        Stmt::Print(_, _) => Ok(()),
    }
}

/// Adds what a block's items write.
#[cycle(gathering)]
fn add_among(set: &mut HashSet<u32>, items: &[Item]) -> Result<(), AllocError>
    ensures { OnOk result ((q : ℕ) → holds set.new q
        ≡ (holds set.old q || is_among (written_among (items_of items.now)) q)) }
{
    for item in items {
        add_item(set, item)?;
    }
    Ok(())
}

/// Adds what an item writes.
#[cycle(gathering)]
fn add_item(set: &mut HashSet<u32>, item: &Item) -> Result<(), AllocError>
    ensures { OnOk result ((rest : Items) (q : ℕ)
        → (holds set.new q || is_among (written_among rest) q)
        ≡ (holds set.old q || is_among (written_among (with_item item.now rest)) q)) }
{
    match item {
        Item::Directive(_) => Ok(()),
        Item::Local(local) => {
            if local.start.is_some() {
                note(set, local.variable)?;
            }
            Ok(())
        }
        Item::Statement(statement) => add_written(set, statement),
    }
}

/// What items write.
pub(crate) fn written_among(alloc: Global, items: &[Item]) -> Result<HashSet<u32>, AllocError>
    ensures { IfOk result (λ set. (q : ℕ)
        → holds set q ≡ is_among (written_among (items_of items.now)) q) }
{
    let mut set = HashSet::new(alloc);
    add_among(&mut set, items)?;
    Ok(set)
}

/// Where a variable is written, where it is this one.
fn write_at(variable: VarId, own: VarId, place: Place) -> Option<Place>
    ensures { is_some result ≡ is_among (own.0 ∷ []) variable.0 }
{
    if own == variable { Some(place) } else { None }
}

/// Where a local is declared with a value, where it is this one.
fn local_write(variable: VarId, local: &Local) -> Option<Place>
    ensures { (rest : Items) → is_among (written_among (meant.local local.now.variable.0
        (string_bytes local.now.name) (start_of local.now.start) rest)) variable.0
        ≡ (is_some result || is_among (written_among rest) variable.0) }
{
    match local.start {
        None => None,
        Some(_) => write_at(variable, local.variable, local.place),
    }
}

/// Where a statement first writes a variable.
#[cycle(writing)]
fn write_in(variable: VarId, statement: &Stmt) -> Option<Place>
    ensures { is_some result ≡ is_among (written_in (stmt_of statement.now)) variable.0 }
{
    match statement {
        Stmt::Assign(target, _) => write_at(variable, target.variable, target.mention.name),
        Stmt::Update(target, _, _) => write_at(variable, target.variable, target.mention.name),
        Stmt::If(_, then, other) => {
            let first = write_in(variable, then);
            match other {
                None => first,
                Some(other) => first.or(write_in(variable, other)),
            }
        }
        Stmt::For(head, body) => {
            write_at(variable, head.variable, head.place).or(write_in(variable, body))
        }
        Stmt::Block(items) => first_write(variable, items),
        Stmt::Print(_, _) => None,
    }
}

/// Where an item does.
#[cycle(writing)]
fn write_of(variable: VarId, item: &Item) -> Option<Place>
    ensures { (rest : Items) → is_among (written_among (with_item item.now rest)) variable.0
        ≡ (is_some result || is_among (written_among rest) variable.0) }
{
    match item {
        Item::Directive(_) => None,
        Item::Local(local) => local_write(variable, local),
        Item::Statement(statement) => write_in(variable, statement),
    }
}

/// Where items do.
#[cycle(writing)]
pub(crate) fn first_write(variable: VarId, items: &[Item]) -> Option<Place>
    ensures { is_some result ≡ is_among (written_among (items_of items.now)) variable.0 }
{
    for item in items {
        if let Some(place) = write_of(variable, item) {
            return Some(place);
        }
    }
    None
}
