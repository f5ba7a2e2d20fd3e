//! Assignments (C11 6.5.16).

ghost use Rattle.std.specs.Prelude.{◌≡◌, option_map, is_none};
ghost use Rattle.semantics.specs.Source.Token.{EqualSign};
ghost use Rattle.ctoken.specs.Meant.{symbol_of};
ghost use Rattle.ktree.specs.View.{stmt_of, binary_of};
ghost use Rattle.cparse_grammar.specs.ExpressionReader.{expression};
ghost use Rattle.cparse_grammar.specs.StatementReader.{target_of, assigned, assignment};
ghost use Rattle.cparse_grammar.specs.StatementSteps.{updated};
ghost use Rattle.cparse_cursor.specs.Names.{entity_of, names_of};
ghost use Rattle.cparse_cursor.specs.Lexemes.{tokens_of};
ghost use Rattle.cparse_cursor.specs.Outcome.{Gives, got_of, subscripts_of};

use crate::held::both;
use crate::target::{target_fault, target_of};
use cparse_cursor::context::{Context, Outcome};
use cparse_cursor::lexeme::Lexeme;
use cparse_cursor::parsed::{Parsed, Subscripts};
use cparse_cursor::scope::Entity;
use cparse_cursor::stop::{Stop, earlier, told_sort};
use cparse_cursor::words::{NextSign, look_up, next_sign};
use cparse_expr::expression::{subscripts, whole};
use cparse_operand::operator::update_of;
use cparse_operand::wanted::number_in;
use ctoken::Symbol;
use ktree::{BinaryOp, NamePlaces, Place, Stmt, Target};

/// What is set, as it was named at a place.
fn target(entity: Option<Entity>, place: Place, subscripts: Subscripts) -> Target
    ensures variable { result.variable.0 ≡ target_of (option_map entity_of entity) }
    ensures subscripts { result.subscripts.items ≡ subscripts.exprs.items }
{
    let Subscripts { exprs, places } = subscripts;
    let mention = NamePlaces {
        name: place,
        subscripts: places,
    };
    Target {
        variable: target_of(entity),
        subscripts: exprs,
        mention,
    }
}

/// `a = e` behind its `=`.
fn assign<'s, 't>(
    context: Context<'_, 't>,
    room: u32,
    entity: Option<Entity>,
    place: Place,
    row: Parsed<'s, 't, Subscripts>,
    tokens: &'s [Lexeme<'t>],
) -> Outcome<'s, 't, Stmt>
    ensures { Gives (got_of stmt_of) result
        (assigned (expression room (names_of context.entry.scope.now)) (option_map entity_of entity)
        (subscripts_of row.entry.tree) (is_none row.entry.fault) EqualSign
        (tokens_of tokens.now)) }
{
    let Parsed {
        tree: subscripts,
        fault: row_fault,
        rest: _,
    } = row;
    let own = target_fault(entity, &subscripts.exprs, place);
    let (subscripts, read) = both(subscripts, whole(context, room, tokens))?;
    let Parsed { tree, fault, rest } = read;
    let fault = earlier(row_fault, earlier(own, fault));
    Ok(Parsed {
        tree: Stmt::Assign(target(entity, place, subscripts), tree.source),
        fault,
        rest,
    })
}

/// `a op= e` behind its operator.
fn update<'s, 't>(
    context: Context<'_, 't>,
    room: u32,
    entity: Option<Entity>,
    place: Place,
    row: Parsed<'s, 't, Subscripts>,
    operator: BinaryOp,
    sign: NextSign<'s, 't>,
) -> Outcome<'s, 't, Stmt>
    ensures { Gives (got_of stmt_of) result
        (updated (expression room (names_of context.entry.scope.now)) (option_map entity_of entity)
        (subscripts_of row.entry.tree) (is_none row.entry.fault) (binary_of operator)
        (tokens_of sign.entry.rest.now)) }
{
    let Parsed {
        tree: subscripts,
        fault: row_fault,
        rest: _,
    } = row;
    let own = target_fault(entity, &subscripts.exprs, place);
    let (subscripts, read) = both(subscripts, whole(context, room, sign.rest))?;
    let Parsed { tree, fault, rest } = read;
    let number = number_in(tree);
    let counts = number.written.is_number();
    let fault = told_sort(fault, number.is_number, counts, sign.place);
    let fault = earlier(row_fault, earlier(own, fault));
    Ok(Parsed {
        tree: Stmt::Update(target(entity, place, subscripts), operator, number.expr),
        fault,
        rest,
    })
}

/// What is assigned behind a sign.
fn assign_behind<'s, 't>(
    context: Context<'_, 't>,
    room: u32,
    entity: Option<Entity>,
    place: Place,
    row: Parsed<'s, 't, Subscripts>,
    sign: NextSign<'s, 't>,
) -> Outcome<'s, 't, Stmt>
    ensures { Gives (got_of stmt_of) result
        (assigned (expression room (names_of context.entry.scope.now)) (option_map entity_of entity)
        (subscripts_of row.entry.tree) (is_none row.entry.fault) (symbol_of sign.entry.symbol)
        (tokens_of sign.entry.rest.now)) }
{
    match sign.symbol {
        Symbol::EqualSign => assign(context, room, entity, place, row, sign.rest),
        symbol => match update_of(symbol) {
            None => Err(Stop::Syntax(sign.place)),
            Some(operator) => update(context, room, entity, place, row, operator, sign),
        },
    }
}

/// An assignment to a name at a place, without its semicolon.
#[tactic(auto, unfolding(cparse_grammar::specs::StatementReader::assignment))]
pub fn assignment<'s, 't>(
    context: Context<'_, 't>,
    room: u32,
    name: &str,
    place: Place,
    tokens: &'s [Lexeme<'t>],
) -> Outcome<'s, 't, Stmt>
    ensures { Gives (got_of stmt_of) result
        (assignment room (names_of context.entry.scope.now) name.now (tokens_of tokens.now)) }
{
    let entity = look_up(context.scope, name, place)?;
    let row = subscripts(context, room, place, tokens)?;
    let sign = next_sign(row.rest, context.end);
    let (row, sign) = both(row, sign)?;
    assign_behind(context, room, entity, place, row, sign)
}
