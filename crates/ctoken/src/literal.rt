//! Literals (C11 6.4.4.1).

ghost use Rattle.std.specs.Prelude.{◌≡◌, ◌==◌, ◌||◌, ◌+◌, ◌<◌, ◌≤◌, ◌^◌, length, None, MatchResult};
ghost use Rattle.semantics.specs.Source.Cuts.{decimal_from, is_word_byte, stops, suffix_text};
ghost use Rattle.ktree.specs.View.{suffix_of};
ghost use Rattle.ctoken.specs.Front.{digits_length, literal, number};
ghost use Rattle.ctoken.specs.Pieces.{Gives, IsFront};

use crate::bytes::Class;
use crate::piece::Piece;
use crate::token::TokenKind;
use ktree::Suffix;
use text::{behind, is_word_byte, value};

/// How many digits stand at the front: a literal that begins with `0` has no further one.
fn digits_length(bytes: &[u8]) -> usize
    ensures exact { result ≡ digits_length bytes.now }
    ensures within { result ≤ length bytes.now }
{
    if matches!(bytes, [b'0', ..]) {
        1
    } else {
        Class::Digit.run(bytes)
    }
}

/// Whether a literal may end before these bytes: no letter, digit, `_` or `.` stands there.
fn may_end(rest: &[u8]) -> bool
    ensures { result ≡ stops (λ b. is_word_byte b || (b == 46)) rest.now }
{
    match rest {
        [] => true,
        [next, ..] => !(is_word_byte(*next) || *next == b'.'),
    }
}

/// How many bytes a suffix has.
fn suffix_length(suffix: Suffix) -> usize
    ensures { result ≡ length (suffix_text (suffix_of suffix)) }
{
    match suffix {
        Suffix::Bare => 0,
        Suffix::Ull => 3,
    }
}

/// The literal of these digits, or `Err` with its length where what follows breaks it off.
fn close_literal(digits: &[u8], suffix: Suffix, rest: &[u8]) -> Result<Piece, usize>
    ensures { MatchResult result (λ p. IsFront p (literal digits.now (suffix_of suffix) rest.now))
        (λ at. (at ≡ length digits.now + length (suffix_text (suffix_of suffix)))
        × (literal digits.now (suffix_of suffix) rest.now ≡ None)) }
{
    let length = digits.len() + suffix_length(suffix);
    if may_end(rest) {
        Ok(Piece::Token(TokenKind::IntegerConstant(value(digits), suffix), 0, length))
    } else {
        Err(length)
    }
}

/// The literal at the front, or where it breaks off.
pub fn literal(bytes: &[u8]) -> Result<Piece, usize>
    ensures { Gives bytes.now result (number bytes.now) }
{
    let (digits, rest) = bytes.split_at(digits_length(bytes));
    match behind(rest, b"ull") {
        Some(rest) => close_literal(digits, Suffix::Ull, rest),
        None => close_literal(digits, Suffix::Bare, rest),
    }
}
