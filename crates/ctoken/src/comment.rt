//! Comments (C11 6.4.9), and the symbol `/`.

ghost use Rattle.std.specs.Prelude.{◌≡◌, ◌+◌, ◌<◌, ◌≤◌, length, codes, None, MatchResult, IfSome};
ghost use Rattle.semantics.specs.Source.Text.{starts_with};
ghost use Rattle.ctoken.specs.Front.{comment_end, slash};
ghost use Rattle.ctoken.specs.Pieces.{IsFront};

use crate::bytes::Class;
use crate::piece::Piece;
use crate::token::{Symbol, TokenKind};
use text::first_line;

/// Whether `*/` stands here.
fn closes(bytes: &[u8]) -> bool
    ensures { result ≡ starts_with (codes "*/") bytes.now }
{
    matches!(bytes, [b'*', b'/', ..])
}

/// How many bytes stand before the first `*/`, if no line end and no backslash does.
fn comment_end(bytes: &[u8]) -> Option<usize>
    ensures exact { result ≡ comment_end bytes.now }
    ensures within { IfSome result (λ k. k < length bytes.now) }
{
    for (i, byte) in bytes.iter().enumerate() {
        if closes(&bytes[i..]) {
            return Some(i);
        }
        if !Class::Comment.has(*byte) {
            return None;
        }
    }
    None
}

/// Where a comment is at fault whose bytes follow its `/*`, counted from there: at its backslash where it ends in its
/// line, else at its `/*`.
fn comment_fault(bytes: &[u8]) -> usize
    ensures { result ≤ length bytes.now + 2 }
{
    let line = first_line(bytes);
    let is_closed = line.windows(2).any(closes);
    if is_closed {
        Class::Comment.run(line) + 2
    } else {
        0
    }
}

/// A comment or the symbol `/`, whose bytes follow its `/`, or the place of a comment's fault, counted from there.
pub fn slash(rest: &[u8]) -> Result<Piece, usize>
    ensures { MatchResult result (λ p. IsFront p (slash rest.now))
        (λ at. (at ≤ length rest.now + 1) × (slash rest.now ≡ None)) }
{
    let Some((second, comment)) = rest.split_first() else {
        return Ok(Piece::Token(TokenKind::Punctuator(Symbol::Slash), 0, 1));
    };
    if *second == b'/' {
        Ok(Piece::Gap(Class::Comment.run(comment) + 2))
    } else if *second == b'*' {
        match comment_end(comment) {
            Some(length) => Ok(Piece::Gap(length + 4)),
            None => Err(comment_fault(comment)),
        }
    } else {
        Ok(Piece::Token(TokenKind::Punctuator(Symbol::Slash), 0, 1))
    }
}
