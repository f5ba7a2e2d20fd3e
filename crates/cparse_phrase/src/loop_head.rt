//! The head of a loop (C11 6.8.5.3).

ghost use Rattle.std.specs.Prelude.{◌≡◌, length, take, IfOk, OnOk};
ghost use Rattle.ktree.specs.View.{increment_of};
ghost use Rattle.cparse_grammar.specs.ExpressionReader.{expression};
ghost use Rattle.cparse_grammar.specs.StatementParts.{counter, closed_step};
ghost use Rattle.cparse_grammar.specs.StatementReader.{heading, with_local};
ghost use Rattle.cparse_phrase.specs.Headings.{heading_of};
ghost use Rattle.cparse_phrase.specs.Tallies.{tally_of};
ghost use Rattle.cparse_cursor.specs.Names.{names_of};
ghost use Rattle.cparse_cursor.specs.Lexemes.{tokens_of};
ghost use Rattle.cparse_cursor.specs.Outcome.{Gives, got_of};

use crate::delimited::ended_source;
use crate::held::both;
use crate::step::step;
use crate::tally::Tally;
use cparse_cursor::context::{Context, Outcome, Setting};
use cparse_cursor::lexeme::Lexeme;
use cparse_cursor::parsed::Parsed;
use cparse_cursor::punctuation::{first_place, punctuator};
use cparse_cursor::scope::{Entity, Scope, add, find};
use cparse_cursor::stop::{Fault, Flaw, Stop, earlier, unless};
use cparse_cursor::words::{NextWord, new_name, word};
use ctoken::Symbol;
use ktree::{Increment, Place, Source, VarId};

/// A loop's variable, start, test and step, and the tokens behind them.
#[derive(Drop)]
pub struct LoopHead<'s, 't> {
    pub name: &'t str,
    pub start: Source,
    pub start_place: Place,
    pub test: Source,
    pub step: Increment,
    pub fault: Option<Fault>,
    pub rest: &'s [Lexeme<'t>],
}

/// A loop's variable, and the tokens behind its `=`.
#[derive(Clone, Copy)]
struct LoopName<'s, 't> {
    name: NextWord<'s, 't>,
    behind: &'s [Lexeme<'t>],
}

/// The parenthesis that opens, the type, and the variable with its `=`.
fn counter<'s, 't>(tokens: &'s [Lexeme<'t>], end: Place) -> Result<LoopName<'s, 't>, Stop>
    ensures { Gives (λ c. (c.name.name.now, tokens_of c.behind.now)) result
        (counter (tokens_of tokens.now)) }
{
    let inner = punctuator(Symbol::OpenParen, tokens, end)?;
    let typed = word("uint64_t", inner, end)?;
    let name = new_name(typed, end)?;
    let behind = punctuator(Symbol::EqualSign, name.rest, end)?;
    Ok(LoopName { name, behind })
}

/// A loop's step, and the tokens behind the parenthesis that closes.
fn closed_step<'s, 't>(
    context: Context<'_, 't>,
    room: u32,
    tokens: &'s [Lexeme<'t>],
) -> Outcome<'s, 't, Increment>
    ensures { Gives (got_of increment_of) result
        (closed_step (expression room (names_of context.entry.scope.now))
        (names_of context.entry.scope.now) (tokens_of tokens.now)) }
{
    let Parsed { tree, fault, rest } = step(context, room, tokens)?;
    let (tree, rest) = both(tree, punctuator(Symbol::CloseParen, rest, context.end))?;
    Ok(Parsed { tree, fault, rest })
}

/// What stands behind the word `for`, up to the parenthesis that closes; the loop's variable is visible behind it.
#[tactic(auto, using(cparse_grammar::proofs::HeadingLemmas::heading_by_parts))]
pub fn loop_head<'s, 't>(
    setting: Setting,
    scope: &mut Scope<'t>,
    room: u32,
    tally: Tally,
    tokens: &'s [Lexeme<'t>],
) -> Result<LoopHead<'s, 't>, Stop>
    ensures heading { Gives heading_of result
        (heading room (names_of scope.old) (tally_of tally) (tokens_of tokens.now)) }
    ensures visible { IfOk result (λ h. names_of scope.new
        ≡ with_local (names_of scope.old) h.name.now (tally_of tally)) }
    ensures front { OnOk result (take (length scope.old) scope.new ≡ scope.old) }
{
    let Setting { alloc, end } = setting;
    let LoopName { name, behind } = counter(tokens, end)?;
    let own = unless(
        find(scope, name.name).is_none(),
        Flaw::NameTwice,
        name.place,
    );
    add(scope, name.name, Entity::Variable(VarId(tally.next), 0))?;
    let context = Context { alloc, scope, end };
    let start = ended_source(context, room, behind)?;
    let test = ended_source(context, room, start.rest);
    let (start, test) = both(start, test)?;
    let turn = closed_step(context, room, test.rest);
    let ((start, test), turn) = both((start, test), turn)?;
    let inside = earlier(start.fault, earlier(test.fault, turn.fault));
    Ok(LoopHead {
        name: name.name,
        start: start.tree,
        start_place: first_place(behind, end),
        test: test.tree,
        step: turn.tree,
        fault: earlier(own, inside),
        rest: turn.rest,
    })
}
