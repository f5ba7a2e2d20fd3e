//! Expressions up to the sign that ends them.

ghost use Rattle.ktree.specs.View.{source_of};
ghost use Rattle.cparse_grammar.specs.ExpressionReader.{expression};
ghost use Rattle.cparse_grammar.specs.StatementParts.{ended_source, in_parens};
ghost use Rattle.cparse_cursor.specs.Names.{names_of};
ghost use Rattle.cparse_cursor.specs.Lexemes.{tokens_of};
ghost use Rattle.cparse_cursor.specs.Outcome.{Gives, got_of};

use crate::held::both;
use cparse_cursor::context::{Context, Outcome};
use cparse_cursor::lexeme::Lexeme;
use cparse_cursor::parsed::Parsed;
use cparse_cursor::punctuation::punctuator;
use cparse_expr::expression::whole;
use ctoken::Symbol;
use ktree::Source;

/// An expression in parentheses.
pub fn in_parens<'s, 't>(
    context: Context<'_, 't>,
    room: u32,
    tokens: &'s [Lexeme<'t>],
) -> Outcome<'s, 't, Source>
    ensures { Gives (got_of source_of) result
        (in_parens (expression room (names_of context.entry.scope.now)) (tokens_of tokens.now)) }
{
    let inner = punctuator(Symbol::OpenParen, tokens, context.end)?;
    let Parsed { tree, fault, rest } = whole(context, room, inner)?;
    let (tree, rest) = both(tree, punctuator(Symbol::CloseParen, rest, context.end))?;
    Ok(Parsed {
        tree: tree.source,
        fault,
        rest,
    })
}

/// An expression, and the tokens behind its semicolon.
pub fn ended_source<'s, 't>(
    context: Context<'_, 't>,
    room: u32,
    tokens: &'s [Lexeme<'t>],
) -> Outcome<'s, 't, Source>
    ensures { Gives (got_of source_of) result
        (ended_source (expression room (names_of context.entry.scope.now)) (tokens_of tokens.now)) }
{
    let Parsed { tree, fault, rest } = whole(context, room, tokens)?;
    let (tree, rest) = both(tree, punctuator(Symbol::Semicolon, rest, context.end))?;
    Ok(Parsed {
        tree: tree.source,
        fault,
        rest,
    })
}
