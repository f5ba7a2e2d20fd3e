//! The tokens of a C text, and the text without its directive lines.
#![tactic(auto)]

mod bytes;
mod check;
mod comment;
mod cut;
mod erasing;
mod front;
mod law;
mod line;
mod list;
mod literal;
mod piece;
mod scanning;
mod sign;
mod string;
mod token;

pub use erasing::erase;
pub use law::cuts_are_unique;
pub use list::Tokens;
pub use scanning::{Scanned, scan, tokens};
pub use string::characters;
pub use token::{Header, Symbol, Token, TokenKind};
