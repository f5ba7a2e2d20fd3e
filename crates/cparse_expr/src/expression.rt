//! Expressions (C11 6.5).

ghost use Rattle.std.specs.Prelude.{◌≡◌, ◌≤◌, ◌<◌, ◌-◌, length, suc, MatchOption};
ghost use Rattle.cparse_grammar.specs.ExpressionReader.{subscripts, primary, unary, further, binary, whole, inside};
ghost use Rattle.cparse_grammar.specs.ExpressionSteps.{at_name, second_arm, arms_behind};
ghost use Rattle.cparse_cursor.specs.Names.{names_of};
ghost use Rattle.cparse_cursor.specs.Lexemes.{tokens_of};
ghost use Rattle.cparse_cursor.specs.Outcome.{Gives, got_of, subscripts_of};
ghost use Rattle.cparse_operand.specs.OperandViews.{operand_of};
ghost use Rattle.cparse_expr.specs.Rising.{rise, NoneWithin};

use cparse_cursor::context::{Context, Outcome, enter_level, tighter};
use cparse_cursor::lexeme::{Kind, Lexeme};
use cparse_cursor::parsed::{Parsed, Subscripts};
use cparse_cursor::punctuation::{first_place, if_punctuator, punctuator};
use cparse_cursor::scope::{find, is_reserved};
use cparse_cursor::stop::Stop;
use cparse_operand::combining::{
    apply_unary, choice, join, no_subscripts, opposite, with_subscript,
};
use cparse_operand::leaf::{literal, named_operand};
use cparse_operand::operand::Operand;
use cparse_operand::operator::{next_infix, next_precedence};
use ctoken::Symbol;
use ktree::{Place, UnaryOp};

/// A whole expression inside of what is opened at a place.
#[cycle(expression)]
fn whole_inside<'s, 't>(
    context: Context<'_, 't>,
    room: u32,
    place: Place,
    tokens: &'s [Lexeme<'t>],
) -> Outcome<'s, 't, Operand>
    ensures { Gives (got_of operand_of) result
        ((inside room (names_of context.entry.scope.now)).whole (tokens_of tokens.now)) }
{
    let room = enter_level(room, place)?;
    whole(context, room, tokens)
}

/// The operand of a unary operator at a place.
#[cycle(expression)]
fn operand_inside<'s, 't>(
    context: Context<'_, 't>,
    room: u32,
    place: Place,
    tokens: &'s [Lexeme<'t>],
) -> Outcome<'s, 't, Operand>
    ensures { Gives (got_of operand_of) result
        ((inside room (names_of context.entry.scope.now)).operand (tokens_of tokens.now)) }
{
    let room = enter_level(room, place)?;
    unary(context, room, tokens)
}

/// The subscripts behind an array's name at a place (C11 6.5.2.1).
#[cycle(expression)]
pub fn subscripts<'s, 't>(
    context: Context<'_, 't>,
    room: u32,
    place: Place,
    tokens: &'s [Lexeme<'t>],
) -> Outcome<'s, 't, Subscripts>
    ensures { Gives (got_of subscripts_of) result
        (subscripts (length (tokens_of tokens.now)) (inside room (names_of context.entry.scope.now))
        (tokens_of tokens.now)) }
{
    let mut row = no_subscripts(context.alloc, tokens);
    for _turn in 0..tokens.len() {
        let Some((bracket, inner)) = if_punctuator(Symbol::OpenBracket, row.rest) else {
            return Ok(row);
        };
        let begin = first_place(inner, context.end);
        let subscript = whole_inside(context, room, bracket, inner)?;
        let behind = punctuator(Symbol::CloseBracket, subscript.rest, context.end)?;
        row = with_subscript(row, subscript, place, begin, behind)?;
    }
    Ok(row)
}

/// A name at a place, with its subscripts.
#[cycle(expression)]
fn name<'s, 't>(
    context: Context<'_, 't>,
    room: u32,
    word: &str,
    place: Place,
    tokens: &'s [Lexeme<'t>],
) -> Outcome<'s, 't, Operand>
    ensures { Gives (got_of operand_of) result
        (at_name (names_of context.entry.scope.now) (inside room (names_of context.entry.scope.now))
        word.now (tokens_of tokens.now)) }
{
    let entity = find(context.scope, word);
    if entity.is_none() && is_reserved(word) {
        return Err(Stop::Syntax(place));
    }
    let subscripts = subscripts(context, room, place, tokens)?;
    named_operand(context.alloc, entity, word, place, subscripts)
}

/// A literal, a name, or an expression in parentheses (C11 6.5.1).
#[cycle(expression)]
#[tactic(auto, unfolding(cparse_grammar::specs::ExpressionReader::primary))]
fn primary<'s, 't>(
    context: Context<'_, 't>,
    room: u32,
    tokens: &'s [Lexeme<'t>],
) -> Outcome<'s, 't, Operand>
    ensures { Gives (got_of operand_of) result
        (primary (names_of context.entry.scope.now) (inside room (names_of context.entry.scope.now))
        (tokens_of tokens.now)) }
{
    let Some((first, rest)) = tokens.split_first() else {
        return Err(Stop::Syntax(context.end));
    };
    match first.kind {
        Kind::IntegerConstant(value, suffix) => Ok(literal(value, suffix, first.place, rest)),
        Kind::Identifier(word) => name(context, room, word, first.place, rest),
        Kind::Punctuator(Symbol::OpenParen) => {
            let inner = whole_inside(context, room, first.place, rest)?;
            let rest = punctuator(Symbol::CloseParen, inner.rest, context.end)?;
            Ok(Parsed {
                tree: inner.tree,
                fault: inner.fault,
                rest,
            })
        }
        _ => Err(Stop::Syntax(first.place)),
    }
}

/// An operand with the unary operators in front of it (C11 6.5.3.3).
#[cycle(expression)]
#[tactic(auto, unfolding(cparse_grammar::specs::ExpressionReader::unary))]
fn unary<'s, 't>(
    context: Context<'_, 't>,
    room: u32,
    tokens: &'s [Lexeme<'t>],
) -> Outcome<'s, 't, Operand>
    ensures { Gives (got_of operand_of) result
        (unary (names_of context.entry.scope.now) (inside room (names_of context.entry.scope.now))
        (tokens_of tokens.now)) }
{
    let alloc = context.alloc;
    match tokens {
        [
            Lexeme {
                kind: Kind::Punctuator(Symbol::MinusSign),
                place,
            },
            rest @ ..,
        ] => {
            let operand = operand_inside(context, room, *place, rest)?;
            apply_unary(alloc, UnaryOp::Negate, *place, operand)
        }
        [
            Lexeme {
                kind: Kind::Punctuator(Symbol::Tilde),
                place,
            },
            rest @ ..,
        ] => {
            let operand = operand_inside(context, room, *place, rest)?;
            apply_unary(alloc, UnaryOp::Complement, *place, operand)
        }
        [
            Lexeme {
                kind: Kind::Punctuator(Symbol::Bang),
                place,
            },
            rest @ ..,
        ] => {
            let operand = operand_inside(context, room, *place, rest)?;
            opposite(alloc, *place, operand)
        }
        _ => primary(context, room, tokens),
    }
}

/// Operands joined by operators up to a precedence (C11 6.5.5 to 6.5.14).
#[cycle(expression)]
fn binary<'s, 't>(
    context: Context<'_, 't>,
    room: u32,
    precedence: u32,
    tokens: &'s [Lexeme<'t>],
) -> Outcome<'s, 't, Operand>
    requires { precedence ≤ 10 }
    ensures { Gives (got_of operand_of) result
        (binary precedence (names_of context.entry.scope.now)
        (inside room (names_of context.entry.scope.now)) (tokens_of tokens.now)) }
{
    let left = unary(context, room, tokens)?;
    operators_up_to(context, room, 0, precedence, left)
}

/// The next tighter precedence than that of the operator that comes first, if it is one behind this one, up to a limit.
fn next_tighter(reached: u32, limit: u32, tokens: &[Lexeme<'_>]) -> Option<u32>
    ensures { MatchOption result (NoneWithin reached limit (tokens_of tokens.now))
        (λ tighter. (reached ≤ tighter) × (tighter < limit)
        × NoneWithin reached tighter (tokens_of tokens.now)) }
{
    let tighter = tighter(next_precedence(tokens)?)?;
    if reached <= tighter && tighter < limit {
        Some(tighter)
    } else {
        None
    }
}

/// Operators up to a precedence behind a left operand that was read up to a tighter one. The operator that comes first tells which
/// precedences have none, so that they are passed over.
#[cycle(expression)]
fn operators_up_to<'s, 't>(
    context: Context<'_, 't>,
    room: u32,
    reached: u32,
    precedence: u32,
    left: Parsed<'s, 't, Operand>,
) -> Outcome<'s, 't, Operand>
    requires reached { reached ≤ precedence }
    requires limit { precedence ≤ 10 }
    ensures { Gives (got_of operand_of) result
        (rise (precedence - reached) reached (names_of context.entry.scope.now)
        (inside room (names_of context.entry.scope.now)) (got_of operand_of left.entry)) }
{
    match next_tighter(reached, precedence, left.rest) {
        None => Ok(left),
        Some(tighter) => {
            let left = further(context, room, tighter, left)?;
            operators_up_to(context, room, tighter + 1, precedence, left)
        }
    }
}

/// More operators of the precedence behind this one, after a left operand; they group to the left.
#[cycle(expression)]
fn further<'s, 't>(
    context: Context<'_, 't>,
    room: u32,
    tighter: u32,
    left: Parsed<'s, 't, Operand>,
) -> Outcome<'s, 't, Operand>
    requires { suc tighter ≤ 10 }
    ensures { Gives (got_of operand_of) result
        (further (length (tokens_of left.entry.rest.now)) (suc tighter)
        (binary tighter (names_of context.entry.scope.now)
        (inside room (names_of context.entry.scope.now))) (got_of operand_of left.entry)) }
{
    let mut left = left;
    for _turn in 0..left.rest.len() {
        let Some(found) = next_infix(tighter + 1, left.rest) else {
            return Ok(left);
        };
        let begin = first_place(found.rest, context.end);
        let right = binary(context, room, tighter, found.rest)?;
        left = join(
            context.alloc,
            found.operator,
            found.place,
            begin,
            left,
            right,
        )?;
    }
    Ok(left)
}

/// The second arm of `?:`, with the colon in front of it (C11 6.5.15).
#[cycle(expression)]
fn second_arm<'s, 't>(
    context: Context<'_, 't>,
    room: u32,
    place: Place,
    tokens: &'s [Lexeme<'t>],
) -> Outcome<'s, 't, Operand>
    ensures { Gives (got_of operand_of) result
        (second_arm (inside room (names_of context.entry.scope.now)) (tokens_of tokens.now)) }
{
    let behind = punctuator(Symbol::Colon, tokens, context.end)?;
    whole_inside(context, room, place, behind)
}

/// Both arms of `?:` behind its condition (C11 6.5.15).
#[cycle(expression)]
fn arms<'s, 't>(
    context: Context<'_, 't>,
    room: u32,
    place: Place,
    condition: Parsed<'s, 't, Operand>,
    tokens: &'s [Lexeme<'t>],
) -> Outcome<'s, 't, Operand>
    ensures { Gives (got_of operand_of) result
        (arms_behind (inside room (names_of context.entry.scope.now))
        (got_of operand_of condition.entry) (tokens_of tokens.now)) }
{
    let first = whole_inside(context, room, place, tokens)?;
    let second = second_arm(context, room, place, first.rest)?;
    choice(context.alloc, place, condition, first, second)
}

/// A whole expression, of which `?:` reaches furthest (C11 6.5.15).
#[cycle(expression)]
#[tactic(auto, unfolding(cparse_grammar::specs::ExpressionReader::whole))]
pub fn whole<'s, 't>(
    context: Context<'_, 't>,
    room: u32,
    tokens: &'s [Lexeme<'t>],
) -> Outcome<'s, 't, Operand>
    ensures { Gives (got_of operand_of) result
        (whole (names_of context.entry.scope.now) (inside room (names_of context.entry.scope.now))
        (tokens_of tokens.now)) }
{
    let condition = binary(context, room, 10, tokens)?;
    match if_punctuator(Symbol::Question, condition.rest) {
        None => Ok(condition),
        Some((place, behind)) => arms(context, room, place, condition, behind),
    }
}
