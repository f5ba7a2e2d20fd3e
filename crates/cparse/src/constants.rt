//! Constant expressions and enumerations (C11 6.6, 6.7.2.2).

ghost use Rattle.std.specs.Prelude.{◌≡◌, ◌∷◌, ◌&&◌, is_none, length, Some, IfOk, OnOk};
ghost use Rattle.semantics.specs.Source.Scope.{with_constants};
ghost use Rattle.cparse_grammar.specs.DeclarationSteps.{constant_read, one_constant, and_then, visible};
ghost use Rattle.cparse.specs.DeclarationViews.{value_in, valued_of, enumerators_of};
ghost use Rattle.cparse_grammar.specs.TextReader.{constants};
ghost use Rattle.cparse_cursor.specs.Names.{names_of};
ghost use Rattle.cparse_cursor.specs.Lexemes.{tokens_of};
ghost use Rattle.cparse_cursor.specs.Outcome.{Gives, got_of};

use cparse_cursor::context::{Context, Outcome, Setting};
use cparse_cursor::lexeme::Lexeme;
use cparse_cursor::parsed::{Parsed, and_then};
use cparse_cursor::punctuation::{first_place, if_punctuator, punctuator};
use cparse_cursor::scope::{Entity, Scope, add, find};
use cparse_cursor::stop::{Fault, Flaw, Stop, earlier, operand_fault, unless};
use cparse_cursor::words::new_name;
use cparse_cursor::written::{Sort, Written};
use cparse_expr::expression::whole;
use cparse_operand::wanted::number_in;
use ctoken::Symbol;
use ktree::Enumerator;
use ktree::limits::OPEN_AT_ONCE;
use std::alloc::Global;

/// The value of a constant expression, if it has one, and how it was written.
#[derive(Clone, Copy, Drop)]
pub struct Constant {
    pub value: Option<u32>,
    pub written: Written,
}

impl Constant {
    /// What is wrong where a constant expression of this value or more was to be written. A fault inside that leaves it
    /// without a value draws no other one.
    fn misfit(self, least: u32) -> Option<Fault> {
        let holds = match self.written.sort {
            Sort::Constant(Some(n)) => n >= least,
            Sort::Constant(None) => true,
            _ => false,
        };
        let fault = self.written.out_of_range();
        unless(holds, fault.flaw, fault.place)
    }

    /// The fault that is told where this value or more is wanted, and whether it has one that is right.
    pub fn fault_for(self, inside: Option<Fault>, right: bool, least: u32) -> Option<Fault>
        ensures { is_none result ≡ (is_none inside && right) }
    {
        operand_fault(inside, right, self.misfit(least), self.written.place)
    }
}

/// A constant expression.
pub fn constant_expression<'s, 't>(
    context: Context<'_, 't>,
    tokens: &'s [Lexeme<'t>],
) -> Outcome<'s, 't, Constant>
    ensures { Gives (got_of value_in) result
        (constant_read (names_of context.entry.scope.now) (tokens_of tokens.now)) }
{
    let Parsed { tree, fault, rest } = whole(context, OPEN_AT_ONCE, tokens)?;
    let constant = Constant {
        value: tree.constant,
        written: tree.written,
    };
    let number = number_in(tree);
    Ok(Parsed {
        tree: constant,
        fault: constant.fault_for(fault, number.is_number, 0),
        rest,
    })
}

/// An enumeration constant with its value.
#[derive(Clone, Copy, Drop)]
struct Valued<'t> {
    name: &'t str,
    value: u32,
}

/// An enumeration constant.
fn enumerator<'s, 't>(
    context: Context<'_, 't>,
    tokens: &'s [Lexeme<'t>],
) -> Outcome<'s, 't, Valued<'t>>
    ensures { Gives (got_of valued_of) result
        (one_constant (names_of context.entry.scope.now) (tokens_of tokens.now)) }
{
    let name = new_name(tokens, context.end)?;
    let behind = punctuator(Symbol::EqualSign, name.rest, context.end)?;
    let twice = unless(
        find(context.scope, name.name).is_none(),
        Flaw::NameTwice,
        name.place,
    );
    let Parsed { tree, fault, rest } = constant_expression(context, behind)?;
    let fault = tree.fault_for(fault, tree.value.is_some(), 0);
    let tree = Valued {
        name: name.name,
        value: tree.value.unwrap_or(0),
    };
    Ok(Parsed {
        tree,
        fault: earlier(twice, fault),
        rest,
    })
}

/// Constants read so far, and one more, which is visible from here on.
fn with_constant<'s, 't>(
    alloc: Global,
    scope: &mut Scope<'t>,
    row: Parsed<'s, 't, Vec<Enumerator>>,
    one: Parsed<'s, 't, Valued<'t>>,
) -> Outcome<'s, 't, Vec<Enumerator>>
    ensures row { Gives (got_of enumerators_of) result
        (Some (and_then (got_of enumerators_of row.entry) (got_of valued_of one.entry))) }
    ensures visible { OnOk result (names_of scope.new
        ≡ visible (valued_of one.entry.tree) ∷ names_of scope.old) }
{
    let Parsed {
        tree: Valued { name, value },
        fault,
        rest,
    } = one;
    add(scope, name, Entity::Constant(value))?;
    let tree = Enumerator {
        name: String::from_str(alloc, name)?,
        value,
    };
    and_then(row, Parsed { tree, fault, rest })
}

/// The enumeration constants of one declaration; each is visible behind it.
pub fn constants<'s, 't>(
    setting: Setting,
    scope: &mut Scope<'t>,
    tokens: &'s [Lexeme<'t>],
) -> Outcome<'s, 't, Vec<Enumerator>>
    ensures constants { Gives (got_of enumerators_of) result
        (constants (length (tokens_of tokens.now)) (names_of scope.old) (tokens_of tokens.now)) }
    ensures visible { IfOk result (λ cs. names_of scope.new
        ≡ with_constants (enumerators_of cs.tree) (names_of scope.old)) }
{
    let Setting { alloc, end } = setting;
    let mut row = Parsed {
        tree: Vec::new(alloc),
        fault: None,
        rest: tokens,
    };
    for _turn in 0..tokens.len() {
        let one = enumerator(Context { alloc, scope, end }, row.rest)?;
        row = with_constant(alloc, scope, row, one)?;
        match if_punctuator(Symbol::Comma, row.rest) {
            None => return Ok(row),
            Some((_place, rest)) => row.rest = rest,
        }
    }
    Err(Stop::Syntax(first_place(row.rest, end)))
}
