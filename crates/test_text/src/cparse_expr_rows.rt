//! Trees and faults of tokens that are made by hand.

use cparse_cursor::context::Context;
use cparse_cursor::lexeme::{Kind, Lexeme};
use cparse_cursor::parsed::Parsed;
use cparse_cursor::scope::{Entity, Scope, add, empty};
use cparse_cursor::stop::{Fault, Flaw, Stop};
use cparse_expr::expression::whole;
use cparse_operand::operand::Operand;
use ctoken::Symbol;
use ktree::{BinaryOp, Expr, Place, Source, Suffix, VarId};
use std::alloc::{AllocError, Global};
use std::test::*;

const END: Place = Place { line: 9, column: 1 };

fn token<'t>(column: u32, kind: Kind<'t>) -> Lexeme<'t> {
    let place = Place { line: 1, column };
    Lexeme { kind, place }
}

fn visible(alloc: Global) -> Result<Scope<'static>, AllocError> {
    let mut scope = empty(alloc);
    add(&mut scope, "x", Entity::Variable(VarId(0), 0))?;
    add(&mut scope, "y", Entity::Variable(VarId(1), 0))?;
    Ok(scope)
}

/// What is read of tokens.
#[derive(Clone, Copy)]
struct Reading {
    fault: Option<Fault>,
    /// How many tokens are left.
    rest: usize,
    /// Whether the tree is a sum whose right operand is a product.
    is_sum: bool,
}

/// Whether a tree is a sum whose right operand is a product.
fn is_sum_with_product(source: &Source) -> bool {
    match source {
        Source::Number(Expr::Binary(BinaryOp::Plus, _one, product)) => {
            matches!(**product, Expr::Binary(BinaryOp::Times, _, _))
        }
        _ => false,
    }
}

fn summary(parsed: &Parsed<Operand>) -> Reading {
    Reading {
        fault: parsed.fault,
        rest: parsed.rest.len(),
        is_sum: is_sum_with_product(&parsed.tree.source),
    }
}

/// What is read of tokens where these names are visible.
fn read_among(alloc: Global, scope: &Scope, tokens: &[Lexeme]) -> Result<Reading, Stop> {
    let context = Context {
        alloc,
        scope,
        end: END,
    };
    match whole(context, 64, tokens) {
        Ok(parsed) => Ok(summary(&parsed)),
        Err(stop) => Err(stop),
    }
}

/// What is read of tokens where `x` and `y` are variables.
fn read(alloc: Global, tokens: &[Lexeme]) -> Result<Reading, Stop> {
    match visible(alloc) {
        Ok(scope) => read_among(alloc, &scope, tokens),
        Err(_) => Err(Stop::Memory),
    }
}

/// Whether tokens are a sum whose right operand is a product.
fn are_sum(alloc: Global, tokens: &[Lexeme]) -> bool {
    match read(alloc, tokens) {
        Ok(reading) => reading.fault.is_none() && reading.rest == 0 && reading.is_sum,
        Err(_) => false,
    }
}

#[test]
fn products_are_tighter_than_sums(rt: HostRuntime) {
    let tokens = [
        token(1, Kind::IntegerConstant(Some(1), Suffix::Bare)),
        token(3, Kind::Punctuator(Symbol::PlusSign)),
        token(5, Kind::IntegerConstant(Some(2), Suffix::Bare)),
        token(7, Kind::Punctuator(Symbol::Star)),
        token(9, Kind::Identifier("x")),
    ];
    assert!(rt; are_sum(rt.alloc(), &tokens));
}

/// Where operands are told not to fit in an expression of these tokens, or 0; none, if they are no expression.
fn misfit_column(alloc: Global, tokens: &[Lexeme]) -> Option<u32> {
    match read(alloc, tokens).ok()?.fault {
        Some(
            Fault {
                place,
                flaw: Flaw::Operands,
            },
        ) => Some(place.column),
        _ => Some(0),
    }
}

#[test]
fn condition_is_no_operand_of_a_product(rt: HostRuntime) {
    let tokens = [
        token(1, Kind::Punctuator(Symbol::MinusSign)),
        token(2, Kind::Punctuator(Symbol::OpenParen)),
        token(3, Kind::Identifier("x")),
        token(4, Kind::Punctuator(Symbol::CloseParen)),
        token(6, Kind::Punctuator(Symbol::Star)),
        token(8, Kind::Punctuator(Symbol::Bang)),
        token(9, Kind::Identifier("y")),
    ];
    assert!(rt; misfit_column(rt.alloc(), &tokens) == Some(6));
}

#[test]
fn operation_at_fault_counts_as_typed(rt: HostRuntime) {
    let tokens = [
        token(1, Kind::Punctuator(Symbol::MinusSign)),
        token(2, Kind::Punctuator(Symbol::OpenParen)),
        token(3, Kind::IntegerConstant(Some(1), Suffix::Bare)),
        token(5, Kind::Punctuator(Symbol::DoubleGreater)),
        token(8, Kind::IntegerConstant(Some(0), Suffix::Bare)),
        token(9, Kind::Punctuator(Symbol::CloseParen)),
    ];
    assert!(rt; misfit_column(rt.alloc(), &tokens) == Some(5));
}

#[test]
fn missing_operand_is_told_at_the_end(rt: HostRuntime) {
    let tokens = [
        token(1, Kind::Identifier("x")),
        token(3, Kind::Punctuator(Symbol::PlusSign)),
    ];
    let line = match read(rt.alloc(), &tokens) {
        Err(Stop::Syntax(place)) => place.line,
        _ => 0,
    };
    assert!(rt; line == 9);
}
