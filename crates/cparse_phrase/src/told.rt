//! What was read of a body.

use crate::tally::Tally;
use cparse_cursor::lexeme::Lexeme;
use cparse_cursor::stop::Fault;

/// A part of the tree, the first fault in it, and the tally and the tokens behind it.
#[derive(Drop)]
pub struct Told<'s, 't, T: Drop> {
    pub tree: T,
    pub fault: Option<Fault>,
    pub tally: Tally,
    pub rest: &'s [Lexeme<'t>],
}
