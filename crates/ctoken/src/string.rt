//! String literals of printf (C11 6.4.5, 7.21.6.1).

ghost use Rattle.std.specs.Prelude.{ℕ, Bool, ◌≡◌, ◌+◌, ◌<◌, ◌≤◌, List, length, Some, None, MatchResult, IfOk};
ghost use Rattle.semantics.specs.Source.Token.{StringLiteral};
ghost use Rattle.semantics.specs.Source.Cuts.{Stands};
ghost use Rattle.ctoken.specs.Front.{Plain, string_end, string_of, spelled};
ghost use Rattle.ctoken.specs.Pieces.{IsFront};

use crate::bytes::is_printable;
use crate::piece::Piece;
use crate::token::TokenKind;
use std::alloc::{AllocError, Global};

/// What the next byte of a string stands behind.
#[derive(Clone, Copy)]
enum Mode {
    Plain,
    Escape,
    Percent,
}

/// Where the string ends whose bytes these are, and whether a single `%` stands there; or the place of its fault: a byte
/// that it may not hold, a backslash or a `%` that begins nothing, or the end.
fn string_end(bytes: &[u8]) -> Result<(usize, bool), usize>
    ensures { MatchResult result
        (λ end. (end.0 < length bytes.now) × (string_end Plain bytes.now ≡ Some end))
        (λ at. (at ≤ length bytes.now) × (string_end Plain bytes.now ≡ None)) }
{
    let mut mode = Mode::Plain;
    for (i, byte) in bytes.iter().enumerate() {
        mode = match (mode, *byte) {
            (Mode::Plain, b'"') => return Ok((i, false)),
            (Mode::Percent, b'"') => return Ok((i, true)),
            (Mode::Plain, b'\\') => Mode::Escape,
            (Mode::Plain, b'%') => Mode::Percent,
            (Mode::Plain, byte) if is_printable(byte) => Mode::Plain,
            (Mode::Plain, _) => return Err(i),
            (Mode::Escape, b'n' | b'\\' | b'"') => Mode::Plain,
            (Mode::Percent, b'%') => Mode::Plain,
            (Mode::Escape | Mode::Percent, _) => return Err(i - 1),
        };
    }
    match mode {
        Mode::Plain => Err(bytes.len()),
        Mode::Escape | Mode::Percent => Err(bytes.len() - 1),
    }
}

/// The string whose bytes follow its opening quote, or the place of its fault, counted from that quote.
pub fn string(bytes: &[u8]) -> Result<Piece, usize>
    ensures { MatchResult result (λ p. IsFront p (string_of bytes.now (string_end Plain bytes.now)))
        (λ at. (at ≤ length bytes.now + 1)
        × (string_of bytes.now (string_end Plain bytes.now) ≡ None)) }
{
    match string_end(bytes) {
        Ok((length, single)) => Ok(Piece::Token(TokenKind::StringLiteral(single), 0, length + 2)),
        Err(at) => Err(at + 1),
    }
}

/// What the bytes of a string literal stand for, its quotes among them (C11 5.2.2, 6.4.5): each escape's byte, `%` for `%%`,
/// and a single `%` at the end left out.
pub fn characters(alloc: Global, literal: &[u8]) -> Result<Vec<u8>, AllocError>
    ensures { IfOk result (λ characters. (rest meant : List ℕ) (single : Bool)
        → Stands literal.now rest (StringLiteral meant single) → characters.items ≡ meant) }
{
    let mut characters = Vec::new(alloc);
    let Some((_quote, bytes)) = literal.split_first() else {
        return Ok(characters);
    };
    let mut escaped = false;
    for byte in &bytes[..bytes.len().saturating_sub(1)] {
        if escaped {
            characters.push(if *byte == b'n' { b'\n' } else { *byte })?;
            escaped = false;
        } else if *byte == b'\\' || *byte == b'%' {
            escaped = true;
        } else {
            characters.push(*byte)?;
        }
    }
    Ok(characters)
}
