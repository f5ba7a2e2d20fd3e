//! Formats of printf (C11 7.21.6.1, 7.8.1).

ghost use Rattle.std.specs.Prelude.{◌≡◌, length, Some, map};
ghost use Rattle.cparse_grammar.specs.PrintfReader.{format, starts_quoted};
ghost use Rattle.cparse_grammar.specs.PrintfSteps.{format_turn, with_turn};
ghost use Rattle.cparse_cursor.specs.Lexemes.{tokens_of};
ghost use Rattle.cparse_cursor.specs.Outcome.{Gives, got_of};
ghost use Rattle.cparse_printf.specs.Spots.{spots_of, turn_of};

use crate::characters::characters;
use cparse_cursor::context::Outcome;
use cparse_cursor::lexeme::{Kind, Lexeme};
use cparse_cursor::parsed::Parsed;
use cparse_cursor::punctuation::first_place;
use cparse_cursor::stop::Stop;
use cparse_cursor::words::word;
use ktree::Place;
use std::alloc::Global;

/// A part of a format.
#[derive(Drop)]
pub enum Spot {
    Characters(Vec<u8>),
    /// A place for a number.
    Number,
}

/// Whether a string comes first.
fn starts_quoted(tokens: &[Lexeme]) -> bool
    ensures { result ≡ starts_quoted (tokens_of tokens.now) }
{
    match tokens.first() {
        Some(first) => matches!(first.kind, Kind::StringLiteral(_, _)),
        None => false,
    }
}

/// A string of a format, whether a place for a number stands behind it, whether a further string does, and the tokens
/// behind that.
#[derive(Drop)]
pub struct Turn<'s, 't> {
    pub characters: Vec<u8>,
    pub placed: bool,
    pub more: bool,
    pub rest: &'s [Lexeme<'t>],
}

/// The string that comes first, with the word for a place behind it where it ends in a single `%`.
fn format_turn<'s, 't>(
    alloc: Global,
    tokens: &'s [Lexeme<'t>],
    end: Place,
) -> Result<Turn<'s, 't>, Stop>
    ensures { Gives turn_of result (format_turn (tokens_of tokens.now)) }
{
    let Some((first, rest)) = tokens.split_first() else {
        return Err(Stop::Syntax(end));
    };
    match first.kind {
        Kind::StringLiteral(bytes, false) => {
            let characters = characters(alloc, bytes)?;
            Ok(Turn {
                characters,
                placed: false,
                more: false,
                rest,
            })
        }
        Kind::StringLiteral(bytes, true) => {
            let characters = characters(alloc, bytes)?;
            let rest = word("PRIu64", rest, end)?;
            let more = starts_quoted(rest);
            Ok(Turn {
                characters,
                placed: true,
                more,
                rest,
            })
        }
        _ => Err(Stop::Syntax(first.place)),
    }
}

/// The parts of a format, and one more string.
fn with_turn<'s, 't>(
    row: Parsed<'s, 't, Vec<Spot>>,
    turn: Turn<'s, 't>,
) -> Outcome<'s, 't, Vec<Spot>>
    ensures { Gives (got_of spots_of) result
        (Some (with_turn (got_of spots_of row.entry) (turn_of turn.entry))) }
{
    let mut spots = row.tree;
    let Turn {
        characters,
        placed,
        more: _,
        rest,
    } = turn;
    spots.push(Spot::Characters(characters))?;
    if placed {
        spots.push(Spot::Number)?;
    }
    Ok(Parsed {
        tree: spots,
        fault: None,
        rest,
    })
}

/// A format: strings with places for numbers between them.
pub fn format<'s, 't>(
    alloc: Global,
    tokens: &'s [Lexeme<'t>],
    end: Place,
) -> Outcome<'s, 't, Vec<Spot>>
    ensures { Gives (got_of spots_of) result
        (format (length (tokens_of tokens.now)) (tokens_of tokens.now)) }
{
    let mut row = Parsed {
        tree: Vec::new(alloc),
        fault: None,
        rest: tokens,
    };
    for _turn in 0..tokens.len() {
        let turn = format_turn(alloc, row.rest, end)?;
        let more = turn.more;
        row = with_turn(row, turn)?;
        if !more {
            return Ok(row);
        }
    }
    Err(Stop::Syntax(first_place(row.rest, end)))
}
