//! Items in which no statement stands.

ghost use Rattle.std.specs.Prelude.{◌≡◌, length, take, OnOk};
ghost use Rattle.ktree.specs.View.{start_of};
ghost use Rattle.cparse_grammar.specs.ExpressionReader.{expression};
ghost use Rattle.cparse_grammar.specs.StatementReader.{initial};
ghost use Rattle.cparse_grammar.specs.StatementParts.{begins_item, located};
ghost use Rattle.cparse_stmt.specs.Rows.{item_of};
ghost use Rattle.cparse_phrase.specs.Tallies.{HasNumbersBehind, tally_of};
ghost use Rattle.cparse_cursor.specs.Names.{names_of};
ghost use Rattle.cparse_cursor.specs.Lexemes.{tokens_of};
ghost use Rattle.cparse_cursor.specs.Outcome.{Gives, got_of};

use cparse_cursor::context::{Context, Outcome, Setting};
use cparse_cursor::lexeme::{Kind, Lexeme};
use cparse_cursor::parsed::Parsed;
use cparse_cursor::scope::{Entity, Scope, add, find};
use cparse_cursor::stop::{Flaw, Stop, earlier, unless};
use cparse_cursor::words::new_name;
use cparse_phrase::delimited::ended_source;
use cparse_phrase::tally::{Tally, declare};
use cparse_phrase::told::Told;
use ctoken::Symbol;
use ktree::{Item, Local, Source, VarId};

/// Whether an item begins here.
pub fn begins_item(tokens: &[Lexeme]) -> bool
    ensures { result ≡ begins_item (tokens_of tokens.now) }
{
    match tokens.first() {
        Some(first) => matches!(
            first.kind,
            Kind::Line | Kind::Identifier(_) | Kind::Punctuator(Symbol::OpenBrace)
        ),
        None => false,
    }
}

/// A local's first value, if it has one (C11 6.7.9).
fn initial<'s, 't>(
    context: Context<'_, 't>,
    room: u32,
    tokens: &'s [Lexeme<'t>],
) -> Outcome<'s, 't, Option<Source>>
    ensures { Gives (got_of start_of) result
        (initial (expression room (names_of context.entry.scope.now)) (tokens_of tokens.now)) }
{
    let Some((first, rest)) = tokens.split_first() else {
        return Err(Stop::Syntax(context.end));
    };
    match first.kind {
        Kind::Punctuator(Symbol::Semicolon) => Ok(Parsed {
            tree: None,
            fault: None,
            rest,
        }),
        Kind::Punctuator(Symbol::EqualSign) => {
            let Parsed { tree, fault, rest } = ended_source(context, room, rest)?;
            Ok(Parsed {
                tree: Some(tree),
                fault,
                rest,
            })
        }
        _ => Err(Stop::Syntax(first.place)),
    }
}

/// A local behind its type; it is visible from its name on (C11 6.2.1). More numbers have to be left for variables than there are
/// tokens.
pub fn local_behind<'s, 't>(
    setting: Setting,
    scope: &mut Scope<'t>,
    room: u32,
    tally: Tally,
    tokens: &'s [Lexeme<'t>],
) -> Result<Told<'s, 't, Item>, Stop>
    requires numbers { HasNumbersBehind tally tokens.now }
    ensures item { Gives (item_of (names_of scope.new)) result
        (located room (names_of scope.old) (tally_of tally) (tokens_of tokens.now)) }
    ensures front { OnOk result (take (length scope.old) scope.new ≡ scope.old) }
{
    let Setting { alloc, end } = setting;
    let name = new_name(tokens, end)?;
    let own = unless(
        find(scope, name.name).is_none(),
        Flaw::NameTwice,
        name.place,
    );
    let variable = VarId(tally.next);
    add(scope, name.name, Entity::Variable(variable, 0))?;
    let tally = declare(tally);
    let spelled = String::from_str(alloc, name.name)?;
    let start = initial(Context { alloc, scope, end }, room, name.rest)?;
    let local = Local {
        variable,
        name: spelled,
        start: start.tree,
        place: name.place,
    };
    Ok(Told {
        tree: Item::Local(local),
        fault: earlier(own, start.fault),
        tally,
        rest: start.rest,
    })
}
