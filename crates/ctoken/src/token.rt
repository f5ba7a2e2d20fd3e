//! Tokens and where they stand.

ghost use Rattle.std.specs.Prelude.{◌≡◌, ◌+◌, ◌≤◌, length};

use ktree::{Place, Suffix};

/// A punctuator (C11 6.4.6).
#[derive(Clone, Copy, Debug, PartialEq, Eq)]
pub enum Symbol {
    Semicolon,
    Comma,
    OpenParen,
    CloseParen,
    OpenBracket,
    CloseBracket,
    OpenBrace,
    CloseBrace,
    PlusPlus,
    MinusMinus,
    EqualSign,
    PlusEqual,
    MinusEqual,
    TimesEqual,
    AmpEqual,
    BarEqual,
    CaretEqual,
    PlusSign,
    MinusSign,
    Star,
    Slash,
    Percent,
    Amp,
    Bar,
    Caret,
    Tilde,
    Bang,
    Question,
    Colon,
    DoubleLess,
    DoubleGreater,
    LessSign,
    LessEqualSign,
    GreaterSign,
    GreaterEqualSign,
    DoubleEqual,
    BangEqual,
    DoubleAmp,
    DoubleBar,
}

/// A header that an include line may name (C11 7.20, 7.8, 7.21).
#[derive(Clone, Copy, Debug, PartialEq, Eq)]
pub enum Header {
    Stdint,
    Inttypes,
    Stdio,
}

/// What a token is (C11 6.4).
#[derive(Clone, Copy, Debug, PartialEq, Eq)]
pub enum TokenKind {
    /// A name or a reserved word: the token's own bytes.
    Identifier,
    /// A literal: its value if that is below 2^64, and its suffix.
    IntegerConstant(Option<u64>, Suffix),
    /// A string literal, and whether it ends in a single `%`.
    StringLiteral(bool),
    Punctuator(Symbol),
    /// An include line.
    Include(Header),
    /// A directive line.
    Line,
}

/// A token, its span in the text, and its place. An include or directive line stands where its `#` does.
#[derive(Clone, Copy, Debug, PartialEq, Eq)]
pub struct Token {
    pub kind: TokenKind,
    /// The first byte, from 0.
    pub start: usize,
    /// How many bytes.
    pub length: usize,
    pub place: Place,
}

impl Token {
    ghost use Rattle.semantics.specs.Source.Spans.{spanned};
    ghost use Rattle.ctoken.specs.Meant.{span_of};

    /// The token's own bytes in its text.
    pub fn bytes(self, text: &[u8]) -> &[u8]
        requires { self.start + self.length ≤ length text.now }
        ensures { result.now ≡ spanned text.now (span_of self) }
    {
        &text[self.start..self.start + self.length]
    }
}
