//! printf (C11 7.21.6.3).

ghost use Rattle.std.specs.Prelude.{◌≡◌, length, count_by, map, Some};
ghost use Rattle.ktree.specs.View.{expr_of, part_of, stmt_of};
ghost use Rattle.cparse_grammar.specs.ExpressionReader.{expression};
ghost use Rattle.cparse_grammar.specs.PrintfReader.{arguments, filled, fills, printed};
ghost use Rattle.cparse_grammar.specs.PrintfSteps.{with_argument, part_at, arguments_behind, closed_arguments, print_of};
ghost use Rattle.cparse_cursor.specs.Names.{names_of};
ghost use Rattle.cparse_cursor.specs.Lexemes.{tokens_of};
ghost use Rattle.cparse_cursor.specs.Outcome.{Gives, got_of};
ghost use Rattle.cparse_operand.specs.OperandViews.{operand_of};
ghost use Rattle.cparse_printf.specs.Spots.{spot_of, spots_of, is_place, arguments_of, arguments_left, parts_of};

use crate::format::{Spot, format};
use cparse_cursor::context::{Context, Outcome, enter_level};
use cparse_cursor::lexeme::Lexeme;
use cparse_cursor::parsed::Parsed;
use cparse_cursor::punctuation::{if_punctuator, punctuator};
use cparse_cursor::stop::{Flaw, Stop, earlier, told_sort, unless};
use cparse_expr::expression::whole;
use cparse_operand::operand::Operand;
use cparse_operand::wanted::number_in;
use ctoken::Symbol;
use ktree::{Expr, Place, PrintPart, Stmt, Suffix};
use std::alloc::Global;

/// Arguments of the printf at a place, and one more.
fn with_argument<'s, 't>(
    row: Parsed<'s, 't, Vec<Expr>>,
    argument: Parsed<'s, 't, Operand>,
    place: Place,
) -> Outcome<'s, 't, Vec<Expr>>
    ensures { Gives (got_of arguments_of) result
        (Some (with_argument (got_of arguments_of row.entry) (got_of operand_of argument.entry))) }
{
    let Parsed {
        tree: mut arguments,
        fault: row_fault,
        rest: _,
    } = row;
    let Parsed { tree, fault, rest } = argument;
    let number = number_in(tree);
    let counts = number.written.is_typed() && !number.written.has_ull;
    let own = told_sort(
        fault,
        number.is_number && number.typed && number.plain,
        counts,
        place,
    );
    arguments.push(number.expr)?;
    Ok(Parsed {
        tree: arguments,
        fault: earlier(row_fault, own),
        rest,
    })
}

/// The arguments behind the format of the printf at a place.
fn arguments<'s, 't>(
    context: Context<'_, 't>,
    room: u32,
    place: Place,
    tokens: &'s [Lexeme<'t>],
) -> Outcome<'s, 't, Vec<Expr>>
    ensures { Gives (got_of arguments_of) result
        (arguments (length (tokens_of tokens.now))
        (expression room (names_of context.entry.scope.now)) (tokens_of tokens.now)) }
{
    let mut row = Parsed {
        tree: Vec::new(context.alloc),
        fault: None,
        rest: tokens,
    };
    for _turn in 0..tokens.len() {
        let Some((_place, inner)) = if_punctuator(Symbol::Comma, row.rest) else {
            return Ok(row);
        };
        let argument = whole(context, room, inner)?;
        row = with_argument(row, argument, place)?;
    }
    Ok(row)
}

/// How many places for numbers there are.
fn places(spots: &[Spot]) -> usize
    ensures { result ≡ count_by is_place spots.now }
{
    spots
        .iter()
        .filter(|spot| matches!(spot, Spot::Number))
        .count()
}

/// Whether there are as many arguments as places for them.
#[tactic(auto, using(crate::proofs::FillLemmas::fills_by))]
fn fills(spots: &[Spot], arguments: &[Expr]) -> bool
    ensures { result ≡ fills (map spot_of spots.now) (map expr_of arguments.now) }
{
    places(spots) == arguments.len()
}

/// What is printed for a part of a format; a place takes the last argument.
fn part(spot: Spot, arguments: &mut Vec<Expr>) -> PrintPart
    ensures part { part_of result ≡ part_at (spot_of spot) (arguments_left arguments.old) }
    ensures arguments { arguments_left arguments.new
        ≡ arguments_behind (spot_of spot) (arguments_left arguments.old) }
{
    match spot {
        Spot::Characters(characters) => PrintPart::Characters(characters),
        Spot::Number => match arguments.pop() {
            Some(expr) => PrintPart::Decimal(expr),
            None => PrintPart::Decimal(Expr::Literal(0, Suffix::Ull)),
        },
    }
}

/// What is printed: each place has its argument.
fn fill_places(
    alloc: Global,
    mut spots: Vec<Spot>,
    mut arguments: Vec<Expr>,
) -> Result<Vec<PrintPart>, Stop>
    ensures { Gives parts_of result (Some (filled (spots_of spots) (arguments_of arguments))) }
{
    let mut parts = Vec::new(alloc);
    spots.reverse();
    arguments.reverse();
    while let Some(spot) = spots.pop() {
        parts.push(part(spot, &mut arguments))?;
    }
    Ok(parts)
}

/// The arguments behind the format of the printf at a place, and the parenthesis that closes.
fn closed_arguments<'s, 't>(
    context: Context<'_, 't>,
    room: u32,
    place: Place,
    tokens: &'s [Lexeme<'t>],
) -> Outcome<'s, 't, Vec<Expr>>
    ensures { Gives (got_of arguments_of) result
        (closed_arguments (expression room (names_of context.entry.scope.now))
        (tokens_of tokens.now)) }
{
    let Parsed { tree, fault, rest } = arguments(context, room, place, tokens)?;
    let rest = punctuator(Symbol::CloseParen, rest, context.end)?;
    Ok(Parsed { tree, fault, rest })
}

/// The printf at a place, of its format and arguments.
fn print_of<'s, 't>(
    alloc: Global,
    place: Place,
    spots: Vec<Spot>,
    arguments: Parsed<'s, 't, Vec<Expr>>,
) -> Outcome<'s, 't, Stmt>
    ensures { Gives (got_of stmt_of) result
        (print_of (spots_of spots) (got_of arguments_of arguments.entry)) }
{
    let own = unless(fills(&spots, &arguments.tree), Flaw::Operands, place);
    let fault = earlier(arguments.fault, own);
    let parts = fill_places(alloc, spots, arguments.tree)?;
    Ok(Parsed {
        tree: Stmt::Print(parts, place),
        fault,
        rest: arguments.rest,
    })
}

/// What stands behind the word printf, whose place this is.
#[tactic(auto, using(cparse_grammar::proofs::PrintedLemmas::printed_by_parts), unfolding(cparse_grammar::specs::PrintfReader::printed))]
pub fn print_behind<'s, 't>(
    context: Context<'_, 't>,
    room: u32,
    place: Place,
    tokens: &'s [Lexeme<'t>],
) -> Outcome<'s, 't, Stmt>
    ensures { Gives (got_of stmt_of) result
        (printed room (names_of context.entry.scope.now) (tokens_of tokens.now)) }
{
    let room = enter_level(room, place)?;
    let inner = punctuator(Symbol::OpenParen, tokens, context.end)?;
    let spots = format(context.alloc, inner, context.end)?;
    let arguments = closed_arguments(context, room, place, spots.rest)?;
    print_of(context.alloc, place, spots.tree, arguments)
}
