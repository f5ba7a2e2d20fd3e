//! Operators between two operands.

ghost use Rattle.std.specs.Prelude.{◌≡◌, option_map};
ghost use Rattle.ktree.specs.View.{binary_of};
ghost use Rattle.ctoken.specs.Meant.{symbol_of};
ghost use Rattle.cparse_grammar.specs.Operators.{precedence, infix_of, update_of};
ghost use Rattle.cparse_grammar.specs.ExpressionReader.{next_infix};
ghost use Rattle.cparse_cursor.specs.Lexemes.{tokens_of};
ghost use Rattle.cparse_operand.specs.Infixes.{infix_in, next_precedence};

use cparse_cursor::lexeme::{Kind, Lexeme};
use ctoken::Symbol;
use ktree::{BinaryOp, CompareOp, Place};

/// An operator between two operands (C11 6.5.5 to 6.5.14).
#[derive(Clone, Copy)]
pub enum Infix {
    Arithmetic(BinaryOp),
    Comparing(CompareOp),
    AndAlso,
    OrElse,
}

/// The operator that a symbol is.
pub fn infix_of(symbol: Symbol) -> Option<Infix>
    ensures { option_map infix_in result ≡ infix_of (symbol_of symbol) }
{
    Some(match symbol {
        Symbol::Star => Infix::Arithmetic(BinaryOp::Times),
        Symbol::Slash => Infix::Arithmetic(BinaryOp::Divide),
        Symbol::Percent => Infix::Arithmetic(BinaryOp::Remainder),
        Symbol::PlusSign => Infix::Arithmetic(BinaryOp::Plus),
        Symbol::MinusSign => Infix::Arithmetic(BinaryOp::Minus),
        Symbol::DoubleLess => Infix::Arithmetic(BinaryOp::ShiftLeft),
        Symbol::DoubleGreater => Infix::Arithmetic(BinaryOp::ShiftRight),
        Symbol::LessSign => Infix::Comparing(CompareOp::Less),
        Symbol::LessEqualSign => Infix::Comparing(CompareOp::LessEqual),
        Symbol::GreaterSign => Infix::Comparing(CompareOp::Greater),
        Symbol::GreaterEqualSign => Infix::Comparing(CompareOp::GreaterEqual),
        Symbol::DoubleEqual => Infix::Comparing(CompareOp::Equal),
        Symbol::BangEqual => Infix::Comparing(CompareOp::NotEqual),
        Symbol::Amp => Infix::Arithmetic(BinaryOp::BitAnd),
        Symbol::Caret => Infix::Arithmetic(BinaryOp::BitXor),
        Symbol::Bar => Infix::Arithmetic(BinaryOp::BitOr),
        Symbol::DoubleAmp => Infix::AndAlso,
        Symbol::DoubleBar => Infix::OrElse,
        _ => return None,
    })
}

/// The operator of `op=` (C11 6.5.16.2).
pub fn update_of(symbol: Symbol) -> Option<BinaryOp>
    ensures { option_map binary_of result ≡ update_of (symbol_of symbol) }
{
    Some(match symbol {
        Symbol::PlusEqual => BinaryOp::Plus,
        Symbol::MinusEqual => BinaryOp::Minus,
        Symbol::TimesEqual => BinaryOp::Times,
        Symbol::AmpEqual => BinaryOp::BitAnd,
        Symbol::BarEqual => BinaryOp::BitOr,
        Symbol::CaretEqual => BinaryOp::BitXor,
        _ => return None,
    })
}

/// The precedence of an operator: 1 for the tightest, 10 for the loosest.
fn precedence(operator: Infix) -> u32
    ensures { result ≡ precedence (infix_in operator) }
{
    match operator {
        Infix::Arithmetic(BinaryOp::Times | BinaryOp::Divide | BinaryOp::Remainder) => 1,
        Infix::Arithmetic(BinaryOp::Plus | BinaryOp::Minus) => 2,
        Infix::Arithmetic(BinaryOp::ShiftLeft | BinaryOp::ShiftRight) => 3,
        Infix::Comparing(CompareOp::Equal | CompareOp::NotEqual) => 5,
        Infix::Comparing(_) => 4,
        Infix::Arithmetic(BinaryOp::BitAnd) => 6,
        Infix::Arithmetic(BinaryOp::BitXor) => 7,
        Infix::Arithmetic(BinaryOp::BitOr) => 8,
        Infix::AndAlso => 9,
        Infix::OrElse => 10,
    }
}

/// The precedence of the operator that comes first, if one does.
pub fn next_precedence(tokens: &[Lexeme<'_>]) -> Option<u32>
    ensures { result ≡ next_precedence (tokens_of tokens.now) }
{
    let Kind::Punctuator(symbol) = tokens.first()?.kind else {
        return None;
    };
    Some(precedence(infix_of(symbol)?))
}

/// An operator, its place, and the tokens behind it.
#[derive(Clone, Copy)]
pub struct Found<'s, 't> {
    pub operator: Infix,
    pub place: Place,
    pub rest: &'s [Lexeme<'t>],
}

/// The operator that comes first, if it has this precedence.
pub fn next_infix<'s, 't>(limit: u32, tokens: &'s [Lexeme<'t>]) -> Option<Found<'s, 't>>
    ensures { option_map (λ found. (infix_in found.operator, tokens_of found.rest.now)) result
        ≡ next_infix limit (tokens_of tokens.now) }
{
    let (first, rest) = tokens.split_first()?;
    let Kind::Punctuator(symbol) = first.kind else {
        return None;
    };
    let operator = infix_of(symbol)?;
    if precedence(operator) == limit {
        let place = first.place;
        Some(Found {
            operator,
            place,
            rest,
        })
    } else {
        None
    }
}
