//! File-scope declarations (C11 6.7).

ghost use Rattle.std.specs.Prelude.{ℕ, ◌≡◌, ◌+◌, ◌<◌, ◌≤◌, ◌^◌, length, Some, IfOk};
ghost use Rattle.semantics.specs.Source.Scope.{with_constants};
ghost use Rattle.ktree.specs.View.{declaration_of};
ghost use Rattle.cparse_grammar.specs.TextReader.{enumeration, variable, declarations};
ghost use Rattle.cparse_grammar.specs.DeclarationSteps.{enum_step, variable_step};
ghost use Rattle.cparse.specs.DeclarationViews.{enumerators_of, named_of, decls_of};
ghost use Rattle.cparse_cursor.specs.Names.{names_of};
ghost use Rattle.cparse_cursor.specs.Lexemes.{tokens_of};
ghost use Rattle.cparse_cursor.specs.Outcome.{Gives, got_of};

use crate::constants::constants;
use crate::lengths::lengths;
use cparse_cursor::context::{Context, Outcome, Setting};
use cparse_cursor::lexeme::Lexeme;
use cparse_cursor::parsed::Parsed;
use cparse_cursor::punctuation::punctuator;
use cparse_cursor::scope::{Entity, Scope, add, find};
use cparse_cursor::stop::{Fault, Flaw, Stop, earlier, unless};
use cparse_cursor::words::{if_word, new_name};
use ctoken::Symbol;
use ktree::limits::DIMENSIONS;
use ktree::{Declaration, Enumerator, Place, VarId};

/// What is declared, and the tokens behind it.
#[derive(Drop)]
pub struct FileScope<'s, 't> {
    pub constants: Vec<Enumerator>,
    pub variables: Vec<Declaration>,
    pub fault: Option<Fault>,
    pub rest: &'s [Lexeme<'t>],
}

/// A variable as it is declared.
#[derive(Drop)]
struct Named<'t> {
    name: &'t str,
    lengths: Vec<u64>,
    place: Place,
}

/// What stands behind the word `enum`; the constants are visible behind it (C11 6.7.2.2).
#[tactic(auto, unfolding(cparse_grammar::specs::TextReader::enumeration))]
fn enumeration<'s, 't>(
    setting: Setting,
    scope: &mut Scope<'t>,
    tokens: &'s [Lexeme<'t>],
) -> Outcome<'s, 't, Vec<Enumerator>>
    ensures constants { Gives (got_of enumerators_of) result
        (enumeration (names_of scope.old) (tokens_of tokens.now)) }
    ensures visible { IfOk result (λ cs. names_of scope.new
        ≡ with_constants (enumerators_of cs.tree) (names_of scope.old)) }
{
    let inner = punctuator(Symbol::OpenBrace, tokens, setting.end)?;
    let Parsed { tree, fault, rest } = constants(setting, scope, inner)?;
    let behind = punctuator(Symbol::CloseBrace, rest, setting.end)?;
    let rest = punctuator(Symbol::Semicolon, behind, setting.end)?;
    Ok(Parsed { tree, fault, rest })
}

/// What stands behind a variable's type: its name and its dimensions, 4 at most (C11 6.7.6.2).
#[tactic(auto, unfolding(cparse_grammar::specs::TextReader::variable))]
fn variable<'s, 't>(
    context: Context<'_, 't>,
    tokens: &'s [Lexeme<'t>],
) -> Outcome<'s, 't, Named<'t>>
    ensures { Gives (got_of named_of) result
        (variable (names_of context.entry.scope.now) (tokens_of tokens.now)) }
{
    let name = new_name(tokens, context.end)?;
    let twice = unless(
        find(context.scope, name.name).is_none(),
        Flaw::NameTwice,
        name.place,
    );
    let Parsed {
        tree: lengths,
        fault,
        rest,
    } = lengths(context, name.rest)?;
    let rest = punctuator(Symbol::Semicolon, rest, context.end)?;
    let many = unless(lengths.len() <= DIMENSIONS, Flaw::Limit, name.place);
    let tree = Named {
        name: name.name,
        lengths,
        place: name.place,
    };
    Ok(Parsed {
        tree,
        fault: earlier(twice, earlier(fault, many)),
        rest,
    })
}

/// What was declared, and an enumeration.
fn with_enumeration<'s, 't>(
    setting: Setting,
    scope: &mut Scope<'t>,
    row: FileScope<'s, 't>,
    tokens: &'s [Lexeme<'t>],
) -> Result<FileScope<'s, 't>, Stop>
    ensures step { Gives (decls_of (names_of scope.new)) result
        (enum_step (decls_of (names_of scope.old) row.entry) (tokens_of tokens.now)) }
    ensures as_many { IfOk result (λ s. length s.variables.items
        ≡ length row.entry.variables.items) }
    ensures fewer { IfOk result (λ s. length s.rest.now ≤ length tokens.now) }
{
    let FileScope {
        constants: mut all,
        variables,
        fault: row_fault,
        rest: _,
    } = row;
    let Parsed {
        tree: mut constants,
        fault,
        rest,
    } = enumeration(setting, scope, tokens)?;
    all.append(&mut constants)?;
    Ok(FileScope {
        constants: all,
        variables,
        fault: earlier(row_fault, fault),
        rest,
    })
}

/// What was declared, and a variable.
fn with_variable<'s, 't>(
    setting: Setting,
    scope: &mut Scope<'t>,
    row: FileScope<'s, 't>,
    tokens: &'s [Lexeme<'t>],
) -> Result<FileScope<'s, 't>, Stop>
    requires { length row.variables.items < 2 ^ 20 }
    ensures step { Gives (decls_of (names_of scope.new)) result
        (variable_step (decls_of (names_of scope.old) row.entry) (tokens_of tokens.now)) }
    ensures one_more { IfOk result (λ s. length s.variables.items
        ≡ length row.entry.variables.items + 1) }
    ensures fewer { IfOk result (λ s. length s.rest.now ≤ length tokens.now) }
{
    let Setting { alloc, end } = setting;
    let FileScope {
        constants,
        mut variables,
        fault: row_fault,
        rest: _,
    } = row;
    let Parsed { tree, fault, rest } = variable(Context { alloc, scope, end }, tokens)?;
    let Named {
        name,
        lengths,
        place,
    } = tree;
    let number = VarId(variables.len() as u32);
    add(scope, name, Entity::Variable(number, lengths.len()))?;
    variables.push(Declaration {
        name: String::from_str(alloc, name)?,
        lengths,
        place,
    })?;
    Ok(FileScope {
        constants,
        variables,
        fault: earlier(row_fault, fault),
        rest,
    })
}

/// The declarations from the front of at most 2^20 tokens on; what they declare is visible behind them.
pub fn declarations<'s, 't>(
    setting: Setting,
    scope: &mut Scope<'t>,
    tokens: &'s [Lexeme<'t>],
) -> Result<FileScope<'s, 't>, Stop>
    requires { length tokens.now ≤ 2 ^ 20 }
    ensures declared { Gives (decls_of (names_of scope.new)) result
        (declarations (length (tokens_of tokens.now)) (names_of scope.old) 0
        (tokens_of tokens.now)) }
    ensures few { IfOk result (λ s. length s.variables.items ≤ 2 ^ 20) }
    ensures fewer { IfOk result (λ s. length s.rest.now ≤ length tokens.now) }
{
    let alloc = setting.alloc;
    let mut row = FileScope {
        constants: Vec::new(alloc),
        variables: Vec::new(alloc),
        fault: None,
        rest: tokens,
    };
    for _turn in 0..tokens.len() {
        if let Some((_enum, behind)) = if_word("enum", row.rest) {
            row = with_enumeration(setting, scope, row, behind)?;
            continue;
        }
        let Some((_type, behind)) = if_word("uint64_t", row.rest) else {
            return Ok(row);
        };
        row = with_variable(setting, scope, row, behind)?;
    }
    Ok(row)
}
