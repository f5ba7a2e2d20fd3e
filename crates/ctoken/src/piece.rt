//! What a text begins with.

use crate::token::TokenKind;

/// What a text begins with.
#[derive(Clone, Copy)]
pub enum Piece {
    /// A blank or a comment, of so many bytes.
    Gap(usize),
    LineEnd,
    /// Behind so many blanks a token of so many bytes.
    Token(TokenKind, usize, usize),
}
