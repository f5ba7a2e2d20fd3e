//! Punctuators that come next.

ghost use Rattle.std.specs.Prelude.{◌≡◌, option_map};
ghost use Rattle.semantics.specs.Source.Cuts.{symbol_text};
ghost use Rattle.semantics.specs.Source.Scope.{same_name};
ghost use Rattle.ctoken.specs.Meant.{symbol_of};
ghost use Rattle.cparse_grammar.specs.NextTokens.{punctuator};
ghost use Rattle.cparse_cursor.specs.Lexemes.{tokens_of, first_place};
ghost use Rattle.cparse_cursor.specs.Outcome.{Gives};

use crate::lexeme::{Kind, Lexeme};
use crate::stop::Stop;
use ctoken::Symbol;
use ktree::Place;

/// Where the first token stands, or else the end.
pub fn first_place(tokens: &[Lexeme], end: Place) -> Place
    ensures { result ≡ first_place tokens.now end }
{
    match tokens.first() {
        Some(first) => first.place,
        None => end,
    }
}

/// Whether two symbols are the same.
fn is_symbol(symbol: Symbol, other: Symbol) -> bool
    ensures { result
        ≡ same_name (symbol_text (symbol_of symbol)) (symbol_text (symbol_of other)) }
{
    symbol == other
}

/// The place of this punctuator and the tokens behind it, if it comes first.
pub fn if_punctuator<'s, 't>(
    expected: Symbol,
    tokens: &'s [Lexeme<'t>],
) -> Option<(Place, &'s [Lexeme<'t>])>
    ensures { option_map (λ found. tokens_of found.1.now) result
        ≡ punctuator (symbol_of expected) (tokens_of tokens.now) }
{
    let (first, rest) = tokens.split_first()?;
    match first.kind {
        Kind::Punctuator(found) if is_symbol(found, expected) => Some((first.place, rest)),
        _ => None,
    }
}

/// The tokens behind this punctuator, which has to come first.
pub fn punctuator<'s, 't>(
    expected: Symbol,
    tokens: &'s [Lexeme<'t>],
    end: Place,
) -> Result<&'s [Lexeme<'t>], Stop>
    ensures { Gives (λ rest. tokens_of rest.now) result
        (punctuator (symbol_of expected) (tokens_of tokens.now)) }
{
    match if_punctuator(expected, tokens) {
        Some((_place, rest)) => Ok(rest),
        None => Err(Stop::Syntax(first_place(tokens, end))),
    }
}
