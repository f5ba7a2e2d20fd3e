//! Statements and the items of blocks (C11 6.8).

ghost use Rattle.std.specs.Prelude.{◌≡◌, length, take, OnOk};
ghost use Rattle.ktree.specs.View.{stmt_of, source_of};
ghost use Rattle.cparse_grammar.specs.StatementReader.{statement, counted, block, items, selection, iteration};
ghost use Rattle.cparse_grammar.specs.StatementParts.{once, twice, headed, item, stated, otherwise};
ghost use Rattle.cparse_stmt.specs.Rows.{item_of, items_in, boxed_of};
ghost use Rattle.cparse_phrase.specs.Tallies.{HasNumbers, HasNumbersBehind, tally_of, told_of};
ghost use Rattle.cparse_cursor.specs.Names.{names_of};
ghost use Rattle.cparse_cursor.specs.Lexemes.{tokens_of};
ghost use Rattle.cparse_cursor.specs.Outcome.{Gives, got_of};

use crate::building::{both, if_else, if_only, loop_statement, with_item};
use crate::local::{begins_item, local_behind};
use crate::simple::simple;
use cparse_cursor::context::{Context, Setting, enter_level};
use cparse_cursor::lexeme::{Kind, Lexeme};
use cparse_cursor::parsed::Parsed;
use cparse_cursor::punctuation::punctuator;
use cparse_cursor::scope::{Scope, close, count};
use cparse_cursor::stop::Stop;
use cparse_cursor::words::if_word;
use cparse_phrase::delimited::in_parens;
use cparse_phrase::loop_head::loop_head;
use cparse_phrase::tally::{Tally, declare, spend};
use cparse_phrase::told::Told;
use ctoken::Symbol;
use ktree::{Item, Place, Source, Stmt};

/// A statement.
#[cycle(statement)]
#[tactic(auto, using(crate::proofs::ItemLemmas::statement_by))]
fn statement<'s, 't>(
    setting: Setting,
    scope: &mut Scope<'t>,
    room: u32,
    tally: Tally,
    tokens: &'s [Lexeme<'t>],
) -> Result<Told<'s, 't, Stmt>, Stop>
    requires numbers { HasNumbers tally tokens.now }
    ensures statement { Gives (told_of stmt_of) result
        (statement room (names_of scope.old) (tally_of tally) (tokens_of tokens.now)) }
    ensures names { OnOk result (scope.new ≡ scope.old) }
{
    count_statement(setting, scope, room, tally, tokens)
}

/// A statement, which is one more.
#[cycle(statement)]
fn count_statement<'s, 't>(
    setting: Setting,
    scope: &mut Scope<'t>,
    room: u32,
    tally: Tally,
    tokens: &'s [Lexeme<'t>],
) -> Result<Told<'s, 't, Stmt>, Stop>
    requires numbers { HasNumbers tally tokens.now }
    ensures statement { Gives (told_of stmt_of) result
        (counted room (once room) (twice room) (names_of scope.old) (tally_of tally)
        (tokens_of tokens.now)) }
    ensures names { OnOk result (scope.new ≡ scope.old) }
{
    let Some((first, rest)) = tokens.split_first() else {
        return Err(Stop::Syntax(setting.end));
    };
    let place = first.place;
    let tally = spend(tally, place)?;
    match first.kind {
        Kind::Punctuator(Symbol::OpenBrace) => block(setting, scope, room, tally, place, rest),
        Kind::Identifier(word) => statement_behind(setting, scope, room, tally, word, place, rest),
        _ => Err(Stop::Syntax(place)),
    }
}

/// What stands behind a word at a place.
#[cycle(statement)]
fn statement_behind<'s, 't>(
    setting: Setting,
    scope: &mut Scope<'t>,
    room: u32,
    tally: Tally,
    word: &str,
    place: Place,
    tokens: &'s [Lexeme<'t>],
) -> Result<Told<'s, 't, Stmt>, Stop>
    requires numbers { HasNumbersBehind tally tokens.now }
    ensures statement { Gives (told_of stmt_of) result
        (headed room (names_of scope.old) (tally_of tally) word.now (tokens_of tokens.now)) }
    ensures names { OnOk result (scope.new ≡ scope.old) }
{
    if word == "if" {
        selection(setting, scope, room, tally, place, tokens)
    } else if word == "for" {
        iteration(setting, scope, room, tally, place, tokens)
    } else {
        let Setting { alloc, end } = setting;
        simple(
            Context { alloc, scope, end },
            room,
            tally,
            word,
            place,
            tokens,
        )
    }
}

/// A block behind its `{` at a place (C11 6.8.2).
#[cycle(statement)]
#[tactic(auto, using(ktree::proofs::Trees::block_items), unfolding(cparse_grammar::specs::StatementReader::block))]
fn block<'s, 't>(
    setting: Setting,
    scope: &mut Scope<'t>,
    room: u32,
    tally: Tally,
    place: Place,
    tokens: &'s [Lexeme<'t>],
) -> Result<Told<'s, 't, Stmt>, Stop>
    requires numbers { HasNumbers tally tokens.now }
    ensures statement { Gives (told_of stmt_of) result
        (block room (once room) (names_of scope.old) (tally_of tally) (tokens_of tokens.now)) }
    ensures names { OnOk result (scope.new ≡ scope.old) }
{
    let room = enter_level(room, place)?;
    let names = count(scope);
    let row = items(setting, scope, room, tally, tokens)?;
    let rest = punctuator(Symbol::CloseBrace, row.rest, setting.end)?;
    close(scope, names);
    Ok(Told {
        tree: Stmt::Block(row.tree),
        fault: row.fault,
        tally: row.tally,
        rest,
    })
}

/// The items of a block, up to what begins none; their names are visible behind them. The numbers that are left for variables
/// have to suffice for the tokens, each of which might declare one.
#[cycle(statement)]
pub fn items<'s, 't>(
    setting: Setting,
    scope: &mut Scope<'t>,
    room: u32,
    tally: Tally,
    tokens: &'s [Lexeme<'t>],
) -> Result<Told<'s, 't, Vec<Item>>, Stop>
    requires numbers { HasNumbers tally tokens.now }
    ensures items { Gives (told_of items_in) result
        (items (length (tokens_of tokens.now)) room (statement room) (names_of scope.old)
        (tally_of tally) (tokens_of tokens.now)) }
    ensures front { OnOk result (take (length scope.old) scope.new ≡ scope.old) }
{
    let mut row = Told {
        tree: Vec::new(setting.alloc),
        fault: None,
        tally,
        rest: tokens,
    };
    for _turn in 0..tokens.len() {
        if !begins_item(row.rest) {
            return Ok(row);
        }
        let item = item(setting, scope, room, row.tally, row.rest)?;
        row = with_item(row, item)?;
    }
    Ok(row)
}

/// An item (C11 6.8.2).
#[cycle(statement)]
fn item<'s, 't>(
    setting: Setting,
    scope: &mut Scope<'t>,
    room: u32,
    tally: Tally,
    tokens: &'s [Lexeme<'t>],
) -> Result<Told<'s, 't, Item>, Stop>
    requires numbers { HasNumbers tally tokens.now }
    ensures item { Gives (item_of (names_of scope.new)) result
        (item room (statement room) (names_of scope.old) (tally_of tally) (tokens_of tokens.now)) }
    ensures front { OnOk result (take (length scope.old) scope.new ≡ scope.old) }
{
    match tokens.split_first() {
        Some((first, rest)) => match first.kind {
            Kind::Line => {
                let tree = Item::Directive(first.place);
                Ok(Told {
                    tree,
                    fault: None,
                    tally,
                    rest,
                })
            }
            Kind::Identifier(word) if word == "uint64_t" => local_behind(
                setting, scope, room, tally, rest,
            ),
            _ => statement_item(setting, scope, room, tally, tokens),
        },
        None => statement_item(setting, scope, room, tally, tokens),
    }
}

/// A statement inside of an item or of another statement.
#[cycle(statement)]
fn inner<'s, 't>(
    setting: Setting,
    scope: &mut Scope<'t>,
    room: u32,
    tally: Tally,
    tokens: &'s [Lexeme<'t>],
) -> Result<Told<'s, 't, Box<Stmt>>, Stop>
    requires numbers { HasNumbers tally tokens.now }
    ensures statement { Gives (told_of boxed_of) result
        (statement room (names_of scope.old) (tally_of tally) (tokens_of tokens.now)) }
    ensures names { OnOk result (scope.new ≡ scope.old) }
{
    let Told {
        tree,
        fault,
        tally,
        rest,
    } = statement(setting, scope, room, tally, tokens)?;
    let tree = Box::new(setting.alloc, tree)?;
    Ok(Told {
        tree,
        fault,
        tally,
        rest,
    })
}

/// A statement as an item.
#[cycle(statement)]
fn statement_item<'s, 't>(
    setting: Setting,
    scope: &mut Scope<'t>,
    room: u32,
    tally: Tally,
    tokens: &'s [Lexeme<'t>],
) -> Result<Told<'s, 't, Item>, Stop>
    requires numbers { HasNumbers tally tokens.now }
    ensures item { Gives (item_of (names_of scope.new)) result
        (stated (statement room) (names_of scope.old) (tally_of tally) (tokens_of tokens.now)) }
    ensures front { OnOk result (take (length scope.old) scope.new ≡ scope.old) }
{
    let statement = inner(setting, scope, room, tally, tokens)?;
    Ok(Told {
        tree: Item::Statement(statement.tree),
        fault: statement.fault,
        tally: statement.tally,
        rest: statement.rest,
    })
}

/// What stands behind the word `if` at a place (C11 6.8.4.1).
#[cycle(statement)]
#[tactic(auto, unfolding(cparse_grammar::specs::StatementReader::selection))]
fn selection<'s, 't>(
    setting: Setting,
    scope: &mut Scope<'t>,
    room: u32,
    tally: Tally,
    place: Place,
    tokens: &'s [Lexeme<'t>],
) -> Result<Told<'s, 't, Stmt>, Stop>
    requires numbers { HasNumbers tally tokens.now }
    ensures statement { Gives (told_of stmt_of) result
        (selection room (once room) (twice room) (names_of scope.old) (tally_of tally)
        (tokens_of tokens.now)) }
    ensures names { OnOk result (scope.new ≡ scope.old) }
{
    let Setting { alloc, end } = setting;
    let outer = enter_level(room, place)?;
    let room = enter_level(outer, place)?;
    let condition = in_parens(Context { alloc, scope, end }, room, tokens)?;
    let then = inner(setting, scope, outer, tally, condition.rest);
    let (condition, then) = both(condition, then)?;
    otherwise(setting, scope, room, condition, then)
}

/// What stands behind the first statement of an `if`, with its condition: the end, or `else` and a second one.
#[cycle(statement)]
fn otherwise<'s, 't>(
    setting: Setting,
    scope: &mut Scope<'t>,
    room: u32,
    condition: Parsed<'s, 't, Source>,
    then: Told<'s, 't, Box<Stmt>>,
) -> Result<Told<'s, 't, Stmt>, Stop>
    requires numbers { HasNumbers then.tally then.rest.now }
    ensures statement { Gives (told_of stmt_of) result
        (otherwise (statement room) (names_of scope.old) (got_of source_of condition.entry)
        (told_of boxed_of then.entry)) }
    ensures names { OnOk result (scope.new ≡ scope.old) }
{
    match if_word("else", then.rest) {
        None => if_only(setting.alloc, condition, then),
        Some((_place, other)) => {
            let other = inner(setting, scope, room, then.tally, other);
            let ((condition, then), other) = both((condition, then), other)?;
            if_else(setting.alloc, condition, then, other)
        }
    }
}

/// What stands behind the word `for` at a place (C11 6.8.5.3).
#[cycle(statement)]
#[tactic(auto, unfolding(cparse_grammar::specs::StatementReader::iteration))]
fn iteration<'s, 't>(
    setting: Setting,
    scope: &mut Scope<'t>,
    room: u32,
    tally: Tally,
    place: Place,
    tokens: &'s [Lexeme<'t>],
) -> Result<Told<'s, 't, Stmt>, Stop>
    requires numbers { HasNumbersBehind tally tokens.now }
    ensures statement { Gives (told_of stmt_of) result
        (iteration room (once room) (names_of scope.old) (tally_of tally) (tokens_of tokens.now)) }
    ensures names { OnOk result (scope.new ≡ scope.old) }
{
    let outer = enter_level(room, place)?;
    let room = enter_level(outer, place)?;
    let names = count(scope);
    let behind = declare(tally);
    let head = loop_head(setting, scope, room, tally, tokens)?;
    let body = inner(setting, scope, outer, behind, head.rest);
    let (head, body) = both(head, body)?;
    close(scope, names);
    loop_statement(setting.alloc, place, tally, head, body)
}
