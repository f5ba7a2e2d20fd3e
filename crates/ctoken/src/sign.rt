//! Punctuators (C11 6.4.6).

ghost use Rattle.std.specs.Prelude.{◌≡◌, [], ◌∷◌, None, option_map, MatchOption};
ghost use Rattle.ctoken.specs.Front.{long_signs, short_signs, sign_of, sign};
ghost use Rattle.ctoken.specs.Meant.{symbol_of};
ghost use Rattle.ctoken.specs.Pieces.{IsFront};

use crate::piece::Piece;
use crate::token::{Symbol, TokenKind};

/// The symbol of these two bytes.
fn long_symbol(first: u8, second: u8) -> Option<Symbol>
    ensures { option_map symbol_of result ≡ sign_of long_signs (first ∷ second ∷ []) }
{
    Some(match (first, second) {
        (b'+', b'+') => Symbol::PlusPlus,
        (b'-', b'-') => Symbol::MinusMinus,
        (b'+', b'=') => Symbol::PlusEqual,
        (b'-', b'=') => Symbol::MinusEqual,
        (b'*', b'=') => Symbol::TimesEqual,
        (b'&', b'=') => Symbol::AmpEqual,
        (b'|', b'=') => Symbol::BarEqual,
        (b'^', b'=') => Symbol::CaretEqual,
        (b'<', b'<') => Symbol::DoubleLess,
        (b'>', b'>') => Symbol::DoubleGreater,
        (b'<', b'=') => Symbol::LessEqualSign,
        (b'>', b'=') => Symbol::GreaterEqualSign,
        (b'=', b'=') => Symbol::DoubleEqual,
        (b'!', b'=') => Symbol::BangEqual,
        (b'&', b'&') => Symbol::DoubleAmp,
        (b'|', b'|') => Symbol::DoubleBar,
        _ => return None,
    })
}

/// The symbol of this byte; `/` is none, as it may begin a comment.
fn short_symbol(byte: u8) -> Option<Symbol>
    ensures { option_map symbol_of result ≡ sign_of short_signs (byte ∷ []) }
{
    Some(match byte {
        b';' => Symbol::Semicolon,
        b',' => Symbol::Comma,
        b'(' => Symbol::OpenParen,
        b')' => Symbol::CloseParen,
        b'[' => Symbol::OpenBracket,
        b']' => Symbol::CloseBracket,
        b'{' => Symbol::OpenBrace,
        b'}' => Symbol::CloseBrace,
        b'=' => Symbol::EqualSign,
        b'+' => Symbol::PlusSign,
        b'-' => Symbol::MinusSign,
        b'*' => Symbol::Star,
        b'%' => Symbol::Percent,
        b'&' => Symbol::Amp,
        b'|' => Symbol::Bar,
        b'^' => Symbol::Caret,
        b'~' => Symbol::Tilde,
        b'!' => Symbol::Bang,
        b'?' => Symbol::Question,
        b':' => Symbol::Colon,
        b'<' => Symbol::LessSign,
        b'>' => Symbol::GreaterSign,
        _ => return None,
    })
}

/// The longest symbol that begins with this byte before these, if one does (C11 6.4); `/` is none.
pub fn sign(first: u8, rest: &[u8]) -> Option<Piece>
    ensures { MatchOption result (sign first rest.now ≡ None)
        (λ p. IsFront p (sign first rest.now)) }
{
    if let Some((second, _more)) = rest.split_first() {
        if let Some(symbol) = long_symbol(first, *second) {
            return Some(Piece::Token(TokenKind::Punctuator(symbol), 0, 2));
        }
    }
    match short_symbol(first) {
        Some(symbol) => Some(Piece::Token(TokenKind::Punctuator(symbol), 0, 1)),
        None => None,
    }
}
