//! The cut of a text into tokens.

ghost use Rattle.std.specs.Prelude.{◌≡◌, min, IfOk};
ghost use Rattle.ctoken.specs.Meant.{CutSo, LieIn};

use crate::front::front;
use crate::piece::Piece;
use crate::token::Token;
use ktree::Place;
use std::alloc::{AllocError, Global};

/// The tokens of a text as far as they go, and where it goes on with none.
#[derive(Drop)]
pub struct Cut {
    pub tokens: Vec<Token>,
    pub fault: Option<usize>,
}

/// A line or a column, the greatest that a place can name at most.
fn cap(number: usize) -> u32
    ensures { result ≡ min number 4294967295 }
{
    number.min(4294967295) as u32
}

/// The place in this line and column.
pub fn place(line: usize, column: usize) -> Place
    ensures { result.line ≡ min line 4294967295 }
{
    Place {
        line: cap(line),
        column: cap(column),
    }
}

/// Cuts a text from its beginning.
pub fn cut_text(alloc: Global, text: &[u8]) -> Result<Cut, AllocError>
    ensures cut { IfOk result (λ cut. CutSo text.now cut.tokens.items cut.fault) }
    ensures lie { IfOk result (λ cut. LieIn text.now cut.tokens.items) }
{
    let mut tokens = Vec::new(alloc);
    let mut position = 0;
    let mut line = 1;
    let mut line_start = 0;
    let mut fresh = true;
    while position < text.len() {
        match front(&text[position..], fresh) {
            Ok(Piece::Gap(length)) => {
                position += length;
                fresh = false;
            }
            Ok(Piece::LineEnd) => {
                position += 1;
                line += 1;
                line_start = position;
                fresh = true;
            }
            Ok(Piece::Token(kind, blanks, length)) => {
                let start = position + blanks;
                let place = place(line, start - line_start + 1);
                tokens.push(Token {
                    kind,
                    start,
                    length,
                    place,
                })?;
                position = start + length;
                fresh = false;
            }
            Err(at) => return Ok(Cut {
                tokens,
                fault: Some(position + at),
            }),
        }
    }
    let fault = if fresh { None } else { Some(text.len()) };
    Ok(Cut { tokens, fault })
}
