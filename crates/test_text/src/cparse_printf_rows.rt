//! Calls of printf of tokens that are made by hand.

use cparse_cursor::context::Context;
use cparse_cursor::lexeme::{Kind, Lexeme};
use cparse_cursor::parsed::Parsed;
use cparse_cursor::scope::{Entity, Scope, add, empty};
use cparse_cursor::stop::Fault;
use cparse_printf::printing::print_behind;
use ctoken::Symbol;
use ktree::{Place, PrintPart, Stmt, VarId};
use std::alloc::{AllocError, Global};
use std::test::*;

fn token<'t>(column: u32, kind: Kind<'t>) -> Lexeme<'t> {
    let place = Place { line: 1, column };
    Lexeme { kind, place }
}

fn visible(alloc: Global) -> Result<Scope<'static>, AllocError> {
    let mut scope = empty(alloc);
    add(&mut scope, "s", Entity::Variable(VarId(0), 0))?;
    Ok(scope)
}

/// What is read of tokens.
#[derive(Clone, Copy)]
struct Reading {
    fault: Option<Fault>,
    /// How many tokens are left.
    rest: usize,
    /// Whether the tree is a call of printf that writes a number.
    writes_number: bool,
}

/// Whether a statement is a call of printf that writes a number.
fn writes_number(stmt: &Stmt) -> bool {
    match stmt {
        Stmt::Print(parts, _) => {
            parts
                .iter()
                .any(|part| matches!(part, PrintPart::Decimal(_)))
        }
        _ => false,
    }
}

fn summary(parsed: &Parsed<Stmt>) -> Reading {
    Reading {
        fault: parsed.fault,
        rest: parsed.rest.len(),
        writes_number: writes_number(&parsed.tree),
    }
}

/// What is read of the tokens behind a word `printf` where these names are visible.
fn read_among(alloc: Global, scope: &Scope, tokens: &[Lexeme]) -> Option<Reading> {
    let context = Context {
        alloc,
        scope,
        end: Place { line: 9, column: 1 },
    };
    match print_behind(context, 64, Place { line: 1, column: 1 }, tokens) {
        Ok(parsed) => Some(summary(&parsed)),
        Err(_) => None,
    }
}

/// What is read of the tokens behind a word `printf` where `s` is a variable.
fn read(alloc: Global, tokens: &[Lexeme]) -> Option<Reading> {
    match visible(alloc) {
        Ok(scope) => read_among(alloc, &scope, tokens),
        Err(_) => None,
    }
}

/// Whether tokens, the last left out, are a call of printf that writes a number.
fn write_number(alloc: Global, tokens: &[Lexeme]) -> bool {
    match read(alloc, tokens) {
        Some(reading) => reading.fault.is_none() && reading.rest == 1 && reading.writes_number,
        None => false,
    }
}

#[test]
fn printf_has_an_argument_for_each_place(rt: HostRuntime) {
    let tokens = [
        token(7, Kind::Punctuator(Symbol::OpenParen)),
        token(8, Kind::StringLiteral(b"s=%", true)),
        token(14, Kind::Identifier("PRIu64")),
        token(21, Kind::StringLiteral(b"\\n", false)),
        token(25, Kind::Punctuator(Symbol::Comma)),
        token(27, Kind::Identifier("s")),
        token(28, Kind::Punctuator(Symbol::CloseParen)),
        token(29, Kind::Punctuator(Symbol::Semicolon)),
    ];
    assert!(rt; write_number(rt.alloc(), &tokens));
}
