//! The front of a text (C11 5.1.1.2, 6.4).

ghost use Rattle.std.specs.Prelude.{ℕ, ◌≡◌};
ghost use Rattle.semantics.specs.Source.Text.{skip_blanks};
ghost use Rattle.ctoken.specs.Front.{inside, begins_hash, front};
ghost use Rattle.ctoken.specs.Pieces.{Gives};

use crate::bytes::Class;
use crate::comment::slash;
use crate::line::hash_line;
use crate::literal::literal;
use crate::piece::Piece;
use crate::sign::sign;
use crate::string::string;
use crate::token::TokenKind;
use text::{first_line, is_blank, is_digit, is_letter, skip_blanks};

/// What stands at the front, no line that begins with `#`; or where the first byte is that does not fit.
fn inside(text: &[u8]) -> Result<Piece, usize>
    ensures { Gives text.now result (inside text.now) }
{
    let Some((first, rest)) = text.split_first() else {
        return Err(0);
    };
    if is_letter(*first) {
        Ok(Piece::Token(TokenKind::Identifier, 0, Class::Word.run(rest) + 1))
    } else if is_digit(*first) {
        literal(text)
    } else if is_blank(*first) {
        Ok(Piece::Gap(1))
    } else if *first == b'\n' {
        Ok(Piece::LineEnd)
    } else if *first == b'"' {
        string(rest)
    } else if *first == b'/' {
        slash(rest)
    } else {
        match sign(*first, rest) {
            Some(piece) => Ok(piece),
            None => Err(0),
        }
    }
}

/// Whether the first byte behind blanks is a `#`.
fn begins_hash(text: &[u8]) -> bool
    ensures { result ≡ begins_hash (skip_blanks text.now) }
{
    matches!(skip_blanks(text), [b'#', ..])
}

/// What stands at the front, or where the first byte is that does not fit; `fresh`: nothing of the line was passed yet.
pub fn front(text: &[u8], fresh: bool) -> Result<Piece, usize>
    ensures { (n : ℕ) → Gives text.now result (front fresh n text.now) }
{
    if fresh && begins_hash(text) {
        hash_line(first_line(text))
    } else {
        inside(text)
    }
}
