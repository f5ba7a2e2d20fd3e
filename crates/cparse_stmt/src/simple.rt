//! Statements in which no other stands.

ghost use Rattle.std.specs.Prelude.{◌≡◌};
ghost use Rattle.semantics.specs.Tree.{Stmt as Statement};
ghost use Rattle.ktree.specs.View.{stmt_of};
ghost use Rattle.cparse_grammar.specs.StatementReader.{ended};
ghost use Rattle.cparse_grammar.specs.StatementParts.{simple};
ghost use Rattle.cparse_phrase.specs.Tallies.{tally_of, told_of};
ghost use Rattle.cparse_cursor.specs.Names.{names_of};
ghost use Rattle.cparse_cursor.specs.Lexemes.{tokens_of};
ghost use Rattle.cparse_cursor.specs.Outcome.{Gives, got_of};

use cparse_cursor::context::Context;
use cparse_cursor::lexeme::Lexeme;
use cparse_cursor::parsed::Parsed;
use cparse_cursor::punctuation::punctuator;
use cparse_cursor::stop::Stop;
use cparse_phrase::assignment::assignment;
use cparse_phrase::tally::Tally;
use cparse_phrase::told::Told;
use cparse_printf::printing::print_behind;
use ctoken::Symbol;
use ktree::{Place, Stmt};

/// A statement that ends in a semicolon, by a tree of any type: of one that is not known letting go is a call, and is not written
/// out.
fn end_statement<'s, 't, T: Drop>(
    tally: Tally,
    statement: Parsed<'s, 't, T>,
    end: Place,
) -> Result<Told<'s, 't, T>, Stop>
    ensures { (view : T → Statement) → Gives (told_of view) result
        (ended (tally_of tally) (got_of view statement.entry)) }
{
    let rest = punctuator(Symbol::Semicolon, statement.rest, end)?;
    Ok(Told {
        tree: statement.tree,
        fault: statement.fault,
        tally,
        rest,
    })
}

/// What stands behind a word at a place: printf, or an assignment to that name.
pub fn simple<'s, 't>(
    context: Context<'_, 't>,
    room: u32,
    tally: Tally,
    word: &str,
    place: Place,
    tokens: &'s [Lexeme<'t>],
) -> Result<Told<'s, 't, Stmt>, Stop>
    ensures { Gives (told_of stmt_of) result
        (simple room (names_of context.entry.scope.now) (tally_of tally) word.now
        (tokens_of tokens.now)) }
{
    if word == "printf" {
        let statement = print_behind(context, room, place, tokens)?;
        end_statement(tally, statement, context.end)
    } else {
        let statement = assignment(context, room, word, place, tokens)?;
        end_statement(tally, statement, context.end)
    }
}
