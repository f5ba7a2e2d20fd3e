//! What a loop does behind each turn (C11 6.5.2.4, 6.5.3.1, 6.5.16).

ghost use Rattle.std.specs.Prelude.{◌≡◌, Some, option_map};
ghost use Rattle.semantics.specs.Source.Token.{EqualSign};
ghost use Rattle.cparse_grammar.specs.StatementSteps.{by_one, changed_by, step_before, step_of};
ghost use Rattle.ctoken.specs.Meant.{symbol_of};
ghost use Rattle.ktree.specs.View.{increment_of, binary_of};
ghost use Rattle.cparse_grammar.specs.ExpressionReader.{expression};
ghost use Rattle.cparse_grammar.specs.StatementReader.{step_behind, step};
ghost use Rattle.cparse_cursor.specs.Names.{entity_of, names_of};
ghost use Rattle.cparse_cursor.specs.Lexemes.{tokens_of};
ghost use Rattle.cparse_cursor.specs.Outcome.{Gives, got_of};

use crate::target::{step_fault, target_of};
use cparse_cursor::context::{Context, Outcome};
use cparse_cursor::lexeme::{Kind, Lexeme};
use cparse_cursor::parsed::Parsed;
use cparse_cursor::scope::Entity;
use cparse_cursor::stop::{Stop, earlier, told_sort};
use cparse_cursor::words::{NextSign, look_up, next_sign, next_word};
use cparse_expr::expression::whole;
use cparse_operand::operator::update_of;
use cparse_operand::wanted::number_in;
use ctoken::Symbol;
use ktree::{BinaryOp, Increment, Place};

/// `x = e` behind its `=`.
fn set_to<'s, 't>(
    context: Context<'_, 't>,
    room: u32,
    entity: Option<Entity>,
    place: Place,
    tokens: &'s [Lexeme<'t>],
) -> Outcome<'s, 't, Increment>
    ensures { Gives (got_of increment_of) result
        (step_behind (expression room (names_of context.entry.scope.now))
        (option_map entity_of entity) EqualSign (tokens_of tokens.now)) }
{
    let Parsed { tree, fault, rest } = whole(context, room, tokens)?;
    let fault = earlier(step_fault(entity, place), fault);
    Ok(Parsed {
        tree: Increment::Set(target_of(entity), tree.source),
        fault,
        rest,
    })
}

/// `x op= e` behind its operator, which stands at a place of its own.
fn changed_by<'s, 't>(
    context: Context<'_, 't>,
    room: u32,
    entity: Option<Entity>,
    place: Place,
    operator: BinaryOp,
    sign: NextSign<'s, 't>,
) -> Outcome<'s, 't, Increment>
    ensures { Gives (got_of increment_of) result
        (changed_by (expression room (names_of context.entry.scope.now))
        (option_map entity_of entity) (binary_of operator) (tokens_of sign.entry.rest.now)) }
{
    let Parsed { tree, fault, rest } = whole(context, room, sign.rest)?;
    let number = number_in(tree);
    let counts = number.written.is_number();
    let fault = told_sort(fault, number.is_number, counts, sign.place);
    let fault = earlier(step_fault(entity, place), fault);
    Ok(Parsed {
        tree: Increment::Change(target_of(entity), operator, number.expr),
        fault,
        rest,
    })
}

/// What stands behind the variable, which is named at a place.
fn step_behind<'s, 't>(
    context: Context<'_, 't>,
    room: u32,
    entity: Option<Entity>,
    place: Place,
    sign: NextSign<'s, 't>,
) -> Outcome<'s, 't, Increment>
    ensures { Gives (got_of increment_of) result
        (step_behind (expression room (names_of context.entry.scope.now))
        (option_map entity_of entity) (symbol_of sign.entry.symbol)
        (tokens_of sign.entry.rest.now)) }
{
    match sign.symbol {
        Symbol::PlusPlus => Ok(by_one(entity, place, true, sign.rest)),
        Symbol::MinusMinus => Ok(by_one(entity, place, false, sign.rest)),
        Symbol::EqualSign => set_to(context, room, entity, place, sign.rest),
        symbol => match update_of(symbol) {
            None => Err(Stop::Syntax(sign.place)),
            Some(operator) => changed_by(context, room, entity, place, operator, sign),
        },
    }
}

/// `++` or `--`, in front of the variable or behind it.
fn by_one<'s, 't>(
    entity: Option<Entity>,
    place: Place,
    up: bool,
    rest: &'s [Lexeme<'t>],
) -> Parsed<'s, 't, Increment>
    ensures { Some (got_of increment_of result)
        ≡ by_one (option_map entity_of entity) up (tokens_of rest.now) }
{
    let variable = target_of(entity);
    let tree = if up {
        Increment::Up(variable)
    } else {
        Increment::Down(variable)
    };
    Parsed {
        tree,
        fault: step_fault(entity, place),
        rest,
    }
}

/// `++` or `--` in front of a variable.
fn step_before<'s, 't>(
    context: Context<'_, 't>,
    up: bool,
    tokens: &'s [Lexeme<'t>],
) -> Outcome<'s, 't, Increment>
    ensures { Gives (got_of increment_of) result
        (step_before (names_of context.entry.scope.now) up (tokens_of tokens.now)) }
{
    let word = next_word(tokens, context.end)?;
    let entity = look_up(context.scope, word.name, word.place)?;
    Ok(by_one(entity, word.place, up, word.rest))
}

/// What stands behind a name at a place.
fn step_of<'s, 't>(
    context: Context<'_, 't>,
    room: u32,
    name: &str,
    place: Place,
    tokens: &'s [Lexeme<'t>],
) -> Outcome<'s, 't, Increment>
    ensures { Gives (got_of increment_of) result
        (step_of (expression room (names_of context.entry.scope.now))
        (names_of context.entry.scope.now) name.now (tokens_of tokens.now)) }
{
    let entity = look_up(context.scope, name, place)?;
    let sign = next_sign(tokens, context.end)?;
    step_behind(context, room, entity, place, sign)
}

/// A loop's step.
#[tactic(auto, using(cparse_grammar::proofs::StepLemmas::step_up, cparse_grammar::proofs::StepLemmas::step_down, cparse_grammar::proofs::StepLemmas::step_word), unfolding(cparse_grammar::specs::StatementReader::step))]
pub fn step<'s, 't>(
    context: Context<'_, 't>,
    room: u32,
    tokens: &'s [Lexeme<'t>],
) -> Outcome<'s, 't, Increment>
    ensures { Gives (got_of increment_of) result
        (step (expression room (names_of context.entry.scope.now))
        (names_of context.entry.scope.now) (tokens_of tokens.now)) }
{
    let Some((first, rest)) = tokens.split_first() else {
        return Err(Stop::Syntax(context.end));
    };
    match first.kind {
        Kind::Punctuator(Symbol::PlusPlus) => step_before(context, true, rest),
        Kind::Punctuator(Symbol::MinusMinus) => step_before(context, false, rest),
        Kind::Identifier(name) => step_of(context, room, name, first.place, rest),
        _ => Err(Stop::Syntax(first.place)),
    }
}
