//! The tokens of a text with their own bytes at hand.

ghost use Rattle.std.specs.Prelude.{ℕ, ◌≡◌, List, [], ◌∷◌, ◌++◌, All, IsAscii, IfOk};
ghost use Rattle.ctoken.specs.Meant.{LiesIn};
ghost use Rattle.cparse.specs.LexedTokens.{IsKindOf, IsLexed, AreLexed};
ghost use Rattle.ctoken.specs.declared.token.TokenKind.TheVariants as kinds;

use cparse_cursor::lexeme::{Kind, Lexeme};
use ctoken::{Token, TokenKind};
use std::alloc::{AllocError, Global};
use std::str;

/// A word of the text.
#[tactic(auto, using(crate::proofs::WithBytes::ascii_is_utf8))]
fn word(bytes: &[u8]) -> &str
    requires { IsAscii bytes.now }
    ensures { result.now ≡ bytes.now }
{
    match str::from_utf8(bytes) {
        Ok(word) => word,
        Err(_) => unreachable!(),
    }
}

/// A string's bytes without its quotes.
fn between_quotes(bytes: &[u8]) -> &[u8]
    ensures { (w : List ℕ) → bytes.now ≡ 34 ∷ (w ++ 34 ∷ []) → result.now ≡ w }
{
    match bytes {
        [_, between @ .., _] => between,
        _ => bytes,
    }
}

/// A kind of token with its bytes.
fn kind(bytes: &[u8], kind: TokenKind) -> Kind<'_>
    requires { kind ≡ kinds.Identifier → IsAscii bytes.now }
    ensures { IsKindOf bytes.now kind result }
{
    match kind {
        TokenKind::Identifier => Kind::Identifier(word(bytes)),
        TokenKind::IntegerConstant(value, suffix) => Kind::IntegerConstant(value, suffix),
        TokenKind::StringLiteral(single) => Kind::StringLiteral(between_quotes(bytes), single),
        TokenKind::Punctuator(symbol) => Kind::Punctuator(symbol),
        TokenKind::Include(header) => Kind::Include(header),
        TokenKind::Line => Kind::Line,
    }
}

/// A token with its bytes.
fn lexeme<'t>(text: &'t [u8], token: Token) -> Lexeme<'t>
    requires { LiesIn text.now token }
    ensures { IsLexed text.now token result }
{
    Lexeme {
        kind: kind(token.bytes(text), token.kind),
        place: token.place,
    }
}

/// The tokens of a text.
pub fn lexemes<'t>(
    alloc: Global,
    text: &'t [u8],
    tokens: &[Token],
) -> Result<Vec<Lexeme<'t>>, AllocError>
    requires { All (LiesIn text.now) tokens.now }
    ensures { IfOk result (λ lexemes. AreLexed text.now tokens.now lexemes.items) }
{
    let mut lexemes = Vec::with_capacity(alloc, tokens.len())?;
    for token in tokens {
        lexemes.push(lexeme(text, *token))?;
    }
    Ok(lexemes)
}
