//! Tokens with their own bytes at hand.

use ctoken::{Header, Symbol};
use ktree::{Place, Suffix};

/// What a token is (C11 6.4).
#[derive(Clone, Copy)]
pub enum Kind<'t> {
    /// A name or a reserved word.
    Identifier(&'t str),
    /// A literal: its value if that is below 2^64, and its suffix.
    IntegerConstant(Option<u64>, Suffix),
    /// A string literal: its bytes between the quotes, and whether it ends in a single `%`.
    StringLiteral(&'t [u8], bool),
    Punctuator(Symbol),
    /// An include line.
    Include(Header),
    /// A directive line.
    Line,
}

/// A token and where it stands.
#[derive(Clone, Copy)]
pub struct Lexeme<'t> {
    pub kind: Kind<'t>,
    pub place: Place,
}
