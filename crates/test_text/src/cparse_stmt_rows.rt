//! Statements of tokens that are made by hand.

ghost use Rattle.std.specs.Prelude.{◌≤◌, length};

use cparse_cursor::context::Setting;
use cparse_cursor::lexeme::{Kind, Lexeme};
use cparse_cursor::scope::{Entity, Scope, add, empty};
use cparse_cursor::stop::{Fault, Flaw, Stop};
use cparse_phrase::tally::Tally;
use cparse_phrase::told::Told;
use cparse_stmt::statement::items;
use ctoken::Symbol;
use ktree::{BinaryOp, Item, Place, Stmt, Suffix, VarId};
use std::alloc::{AllocError, Global};
use std::test::*;

fn word<'t>(column: u32, name: &'t str) -> Lexeme<'t> {
    let place = Place { line: 1, column };
    Lexeme {
        kind: Kind::Identifier(name),
        place,
    }
}

fn sign<'t>(column: u32, symbol: Symbol) -> Lexeme<'t> {
    let place = Place { line: 1, column };
    Lexeme {
        kind: Kind::Punctuator(symbol),
        place,
    }
}

fn long<'t>(column: u32, value: u64) -> Lexeme<'t> {
    let place = Place { line: 1, column };
    Lexeme {
        kind: Kind::IntegerConstant(Some(value), Suffix::Ull),
        place,
    }
}

fn visible(alloc: Global) -> Result<Scope<'static>, AllocError> {
    let mut scope = empty(alloc);
    add(&mut scope, "s", Entity::Variable(VarId(0), 0))?;
    Ok(scope)
}

/// What is read of tokens.
#[derive(Clone, Copy)]
struct Reading {
    /// How many items there are.
    count: usize,
    fault: Option<Fault>,
    tally: Tally,
    /// How many tokens are left.
    rest: usize,
    /// Whether the first item is an update by `^=`.
    is_update: bool,
}

/// Whether an item is an update by `^=`.
fn is_update(item: &Item) -> bool {
    match item {
        Item::Statement(stmt) => matches!(**stmt, Stmt::Update(_, BinaryOp::BitXor, _)),
        _ => false,
    }
}

fn summary(told: &Told<Vec<Item>>) -> Reading {
    Reading {
        count: told.tree.len(),
        fault: told.fault,
        tally: told.tally,
        rest: told.rest.len(),
        is_update: match told.tree.first() {
            Some(item) => is_update(item),
            None => false,
        },
    }
}

/// What is read of items where these names are visible, and so many statements may follow.
fn read_among<'t>(
    alloc: Global,
    scope: &mut Scope<'t>,
    left: u32,
    tokens: &[Lexeme<'t>],
) -> Result<Reading, Stop>
    requires { length tokens.now ≤ 64 }
{
    let end = Place { line: 9, column: 1 };
    let tally = Tally { next: 1, left };
    match items(Setting { alloc, end }, scope, 64, tally, tokens) {
        Ok(told) => Ok(summary(&told)),
        Err(stop) => Err(stop),
    }
}

/// What is read of items behind the declaration of the variable `s`, where so many statements may follow.
fn read(alloc: Global, left: u32, tokens: &[Lexeme<'static>]) -> Result<Reading, Stop>
    requires { length tokens.now ≤ 64 }
{
    match visible(alloc) {
        Ok(mut scope) => read_among(alloc, &mut scope, left, tokens),
        Err(_) => Err(Stop::Memory),
    }
}

/// Whether tokens are an update by `^=` and one token more, where seven statements may follow.
fn is_one_update(alloc: Global, tokens: &[Lexeme<'static>]) -> bool
    requires { length tokens.now ≤ 64 }
{
    match read(alloc, 7, tokens) {
        Ok(reading) => {
            reading.fault.is_none()
                && reading.rest == 1
                && reading.tally.left == 6
                && reading.tally.next == 1
                && reading.is_update
        }
        Err(_) => false,
    }
}

#[test]
fn update_ends_at_its_semicolon(rt: HostRuntime) {
    let tokens = [
        word(1, "s"),
        sign(3, Symbol::CaretEqual),
        long(6, 5),
        sign(10, Symbol::Semicolon),
        sign(12, Symbol::CloseBrace),
    ];
    assert!(rt; is_one_update(rt.alloc(), &tokens));
}

/// The column of the name that tokens use unknown in two items with one local, where seven statements may follow.
fn unknown_in_two(alloc: Global, tokens: &[Lexeme<'static>]) -> Option<u32>
    requires { length tokens.now ≤ 64 }
{
    let reading = read(alloc, 7, tokens).ok()?;
    let fault = reading.fault?;
    if reading.count == 2 && reading.tally.next == 2 && fault.flaw == Flaw::UnknownName {
        Some(fault.place.column)
    } else {
        None
    }
}

#[test]
fn local_is_no_name_behind_its_block(rt: HostRuntime) {
    let tokens = [
        sign(1, Symbol::OpenBrace),
        word(2, "uint64_t"),
        word(11, "x"),
        sign(12, Symbol::Semicolon),
        sign(13, Symbol::CloseBrace),
        word(15, "x"),
        sign(17, Symbol::EqualSign),
        long(19, 1),
        sign(23, Symbol::Semicolon),
    ];
    assert!(rt; unknown_in_two(rt.alloc(), &tokens) == Some(15));
}

/// The column at which tokens pass the limit, or 0, where so many statements may follow; none where they are refused otherwise.
fn limit_column(alloc: Global, left: u32, tokens: &[Lexeme<'static>]) -> Option<u32>
    requires { length tokens.now ≤ 64 }
{
    match read(alloc, left, tokens) {
        Ok(_) => Some(0),
        Err(Stop::Limit(place)) => Some(place.column),
        Err(_) => None,
    }
}

#[test]
fn statement_past_the_last_is_a_limit(rt: HostRuntime) {
    let tokens = [
        sign(1, Symbol::OpenBrace),
        sign(2, Symbol::OpenBrace),
        sign(3, Symbol::CloseBrace),
        sign(4, Symbol::CloseBrace),
    ];
    assert!(rt; limit_column(rt.alloc(), 1, &tokens) == Some(2));
    assert!(rt; limit_column(rt.alloc(), 2, &tokens) == Some(0));
}
