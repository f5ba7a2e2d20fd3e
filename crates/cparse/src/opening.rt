//! What stands around the declarations and the kernel.

ghost use Rattle.std.specs.Prelude.{◌≡◌, ◌≤◌, length, option_map, IfOk};
ghost use Rattle.cparse_grammar.specs.TextReader.{opening, behind_headers, at_end};
ghost use Rattle.cparse_cursor.specs.Lexemes.{tokens_of};
ghost use Rattle.cparse_cursor.specs.Outcome.{Gives};

use cparse_cursor::lexeme::{Kind, Lexeme};
use cparse_cursor::punctuation::{first_place, punctuator};
use cparse_cursor::stop::Stop;
use cparse_cursor::words::word;
use ctoken::Symbol;
use ktree::Place;

/// The tokens behind the include lines (C11 6.10.2).
pub fn behind_headers<'s, 't>(tokens: &'s [Lexeme<'t>]) -> &'s [Lexeme<'t>]
    ensures rest { tokens_of result.now ≡ behind_headers (tokens_of tokens.now) }
    ensures fewer { length result.now ≤ length tokens.now }
{
    let mut count = 0;
    for token in tokens {
        if !matches!(token.kind, Kind::Include(_)) {
            break;
        }
        count += 1;
    }
    &tokens[count..]
}

/// The tokens behind `void kernel(void) {`.
#[tactic(auto, unfolding(cparse_grammar::specs::TextReader::opening))]
pub fn kernel_opening<'s, 't>(
    tokens: &'s [Lexeme<'t>],
    end: Place,
) -> Result<&'s [Lexeme<'t>], Stop>
    ensures rest { Gives (λ rest. tokens_of rest.now) result (opening (tokens_of tokens.now)) }
    ensures fewer { IfOk result (λ rest. length rest.now ≤ length tokens.now) }
{
    let named = word("void", tokens, end)?;
    let opened = word("kernel", named, end)?;
    let inner = punctuator(Symbol::OpenParen, opened, end)?;
    let behind = word("void", inner, end)?;
    let closed = punctuator(Symbol::CloseParen, behind, end)?;
    punctuator(Symbol::OpenBrace, closed, end)
}

/// The end, which has to be here.
pub fn at_end<'s, 't>(tokens: &'s [Lexeme<'t>], end: Place) -> Result<&'s [Lexeme<'t>], Stop>
    ensures { Gives (λ rest. tokens_of rest.now) result (at_end (tokens_of tokens.now)) }
{
    if tokens.is_empty() {
        Ok(tokens)
    } else {
        Err(Stop::Syntax(first_place(tokens, end)))
    }
}
