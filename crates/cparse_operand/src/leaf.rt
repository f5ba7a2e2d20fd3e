//! Literals and names (C11 6.5.1).

ghost use Rattle.std.specs.Prelude.{◌≡◌, IfOk, Some, option_map};
ghost use Rattle.semantics.specs.Tree.{Number, Literal, Object, Constant, Ull};
ghost use Rattle.semantics.specs.Source.Typing.{in_range};
ghost use Rattle.ktree.specs.View.{suffix_of, exprs_of};
ghost use Rattle.cparse_grammar.specs.Reading.{got};
ghost use Rattle.cparse_grammar.specs.ExpressionReader.{literal_tree, named};
ghost use Rattle.cparse_cursor.specs.Lexemes.{value_of, tokens_of};
ghost use Rattle.cparse_cursor.specs.Names.{entity_of};
ghost use Rattle.cparse_cursor.specs.Outcome.{Gives, got_of, subscripts_of};
ghost use Rattle.cparse_operand.specs.OperandViews.{operand_of};

use crate::operand::Operand;
use crate::typing::in_range;
use cparse_cursor::lexeme::Lexeme;
use cparse_cursor::parsed::{Parsed, Subscripts};
use cparse_cursor::scope::Entity;
use cparse_cursor::stop::{Fault, Flaw, Stop, earlier, unless};
use cparse_cursor::written::{Sort, Written};
use ktree::{Expr, NamePlaces, Place, Source, Suffix, VarId, int_constant};
use std::alloc::Global;

/// A literal, of which the value is known if it is below 2^64 (C11 6.4.4.1).
pub fn literal<'s, 't>(
    value: Option<u64>,
    suffix: Suffix,
    place: Place,
    rest: &'s [Lexeme<'t>],
) -> Parsed<'s, 't, Operand>
    ensures { Some (got_of operand_of result)
        ≡ got (Number (literal_tree (value_of value) (suffix_of suffix)))
        (in_range (suffix_of suffix) (value_of value)) (tokens_of rest.now) }
{
    let (n, fault) = match value {
        Some(n) if in_range(suffix, n) => (n, None),
        _ => {
            let flaw = Flaw::NumberOutOfRange;
            (0, Some(Fault { place, flaw }))
        }
    };
    let source = Source::Number(Expr::Literal(n, suffix));
    let tree = match suffix {
        Suffix::Bare => Operand {
            source,
            typed: false,
            constant: int_constant(n),
            plain: true,
            written: Written {
                sort: Sort::Constant(if fault.is_none() {
                    int_constant(n)
                } else {
                    None
                }),
                has_ull: false,
                place,
            },
        },
        Suffix::Ull => Operand {
            source,
            typed: true,
            constant: None,
            plain: false,
            written: Written {
                sort: Sort::Typed,
                has_ull: true,
                place,
            },
        },
    };
    Parsed { tree, fault, rest }
}

/// An expression with a type of its own, which stands where one is missing.
pub fn stand_in(written: Written) -> Operand
    ensures { operand_of result ≡ Number (Literal 0 Ull) }
{
    let source = Source::Number(Expr::Literal(0, Suffix::Ull));
    Operand {
        source,
        typed: true,
        constant: None,
        plain: false,
        written,
    }
}

/// An object with its subscripts, of which it has as many as dimensions.
fn object(x: VarId, place: Place, subscripts: Subscripts) -> Operand
    ensures { operand_of result ≡ Number (Object x.0 (subscripts_of subscripts)) }
{
    let Subscripts { exprs, places } = subscripts;
    let mention = NamePlaces {
        name: place,
        subscripts: places,
    };
    let source = Source::Number(Expr::Object(x, exprs, mention));
    Operand {
        source,
        typed: true,
        constant: None,
        plain: true,
        written: Written::variable(place),
    }
}

/// An enumeration constant.
fn constant(alloc: Global, name: &str, n: u32, place: Place) -> Result<Operand, Stop>
    ensures { Gives operand_of result (Some (Number (Constant name.now n))) }
{
    let source = Source::Number(Expr::Constant(String::from_str(alloc, name)?, n));
    Ok(Operand {
        source,
        typed: false,
        constant: Some(n),
        plain: true,
        written: Written {
            sort: Sort::Constant(Some(n)),
            has_ull: false,
            place,
        },
    })
}

/// What a name stands for, with the subscripts behind it.
#[tactic(auto, using(crate::proofs::TreeLemmas::counted))]
pub fn named_operand<'s, 't>(
    alloc: Global,
    entity: Option<Entity>,
    name: &str,
    place: Place,
    subscripts: Parsed<'s, 't, Subscripts>,
) -> Result<Parsed<'s, 't, Operand>, Stop>
    ensures { Gives (got_of operand_of) result
        (named (option_map entity_of entity) name.now (got_of subscripts_of subscripts.entry)) }
{
    let Parsed {
        tree: subscripts,
        fault,
        rest,
    } = subscripts;
    let count = subscripts.exprs.len();
    match entity {
        None => {
            let fault = earlier(fault, unless(false, Flaw::UnknownName, place));
            Ok(Parsed {
                tree: stand_in(Written::variable(place)),
                fault,
                rest,
            })
        }
        Some(Entity::Variable(x, dimensions)) => {
            let fault = earlier(fault, unless(dimensions == count, Flaw::Operands, place));
            Ok(Parsed {
                tree: object(x, place, subscripts),
                fault,
                rest,
            })
        }
        Some(Entity::Constant(n)) => {
            let fault = earlier(fault, unless(count == 0, Flaw::Operands, place));
            Ok(Parsed {
                tree: constant(alloc, name, n, place)?,
                fault,
                rest,
            })
        }
    }
}
