//! The lengths of a declared array (C11 6.7.6.2).

ghost use Rattle.std.specs.Prelude.{ℕ, ◌≡◌, length};
ghost use Rattle.cparse_grammar.specs.TextReader.{lengths, length_of, is_length};
ghost use Rattle.cparse_grammar.specs.DeclarationSteps.{dimension};
ghost use Rattle.cparse_cursor.specs.Names.{names_of};
ghost use Rattle.cparse_cursor.specs.Lexemes.{tokens_of};
ghost use Rattle.cparse_cursor.specs.Outcome.{Gives, got_of};

use crate::constants::constant_expression;
use cparse_cursor::context::{Context, Outcome};
use cparse_cursor::lexeme::Lexeme;
use cparse_cursor::parsed::{Parsed, and_then};
use cparse_cursor::punctuation::{if_punctuator, punctuator};
use ctoken::Symbol;

/// A length, 1 where there is none.
#[tactic(auto, using(crate::proofs::DeclarationLemmas::length_some))]
fn length_of(value: Option<u32>) -> u64
    ensures { result ≡ length_of value }
{
    match value {
        Some(length) => length.max(1) as u64,
        None => 1,
    }
}

/// Whether there is a length.
#[tactic(auto, using(crate::proofs::DeclarationLemmas::is_length_some))]
fn is_length(value: Option<u32>) -> bool
    ensures { result ≡ is_length value }
{
    match value {
        Some(length) => length != 0,
        None => false,
    }
}

/// A dimension behind its bracket.
fn dimension<'s, 't>(context: Context<'_, 't>, tokens: &'s [Lexeme<'t>]) -> Outcome<'s, 't, u64>
    ensures { Gives (got_of (λ (n : ℕ). n)) result
        (dimension (names_of context.entry.scope.now) (tokens_of tokens.now)) }
{
    let Parsed { tree, fault, rest } = constant_expression(context, tokens)?;
    let rest = punctuator(Symbol::CloseBracket, rest, context.end)?;
    Ok(Parsed {
        tree: length_of(tree.value),
        fault: tree.fault_for(fault, is_length(tree.value), 1),
        rest,
    })
}

/// The dimensions of an array behind its name.
pub fn lengths<'s, 't>(
    context: Context<'_, 't>,
    tokens: &'s [Lexeme<'t>],
) -> Outcome<'s, 't, Vec<u64>>
    ensures { Gives (got_of (λ v. v.items)) result
        (lengths (length (tokens_of tokens.now)) (names_of context.entry.scope.now)
        (tokens_of tokens.now)) }
{
    let mut row = Parsed {
        tree: Vec::new(context.alloc),
        fault: None,
        rest: tokens,
    };
    for _turn in 0..tokens.len() {
        let Some((_place, inner)) = if_punctuator(Symbol::OpenBracket, row.rest) else {
            return Ok(row);
        };
        let one = dimension(context, inner)?;
        row = and_then(row, one)?;
    }
    Ok(row)
}
