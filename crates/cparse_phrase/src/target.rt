//! What is assigned (C11 6.5.16).

ghost use Rattle.std.specs.Prelude.{◌≡◌, option_map, is_none};
ghost use Rattle.ktree.specs.View.{exprs_of};
ghost use Rattle.cparse_grammar.specs.StatementReader.{target_of, may_set, may_step};
ghost use Rattle.cparse_cursor.specs.Names.{entity_of};

use cparse_cursor::scope::Entity;
use cparse_cursor::stop::{Fault, Flaw, unless};
use ktree::{Expr, Place, VarId};

/// The variable that is set, or the first one where there is none.
pub fn target_of(entity: Option<Entity>) -> VarId
    ensures { result.0 ≡ target_of (option_map entity_of entity) }
{
    match entity {
        Some(Entity::Variable(x, _)) => x,
        _ => VarId(0),
    }
}

/// What is wrong with setting a name at a place.
fn unless_set(entity: Option<Entity>, right: bool, place: Place) -> Option<Fault>
    ensures { is_none result ≡ right }
{
    let flaw = match entity {
        None => Flaw::UnknownName,
        Some(_) => Flaw::Operands,
    };
    unless(right, flaw, place)
}

/// What is wrong with setting a name with these subscripts: it is a variable, with as many as dimensions.
#[tactic(auto, using(cparse_operand::proofs::TreeLemmas::counted))]
pub fn target_fault(entity: Option<Entity>, subscripts: &[Expr], place: Place) -> Option<Fault>
    ensures { is_none result ≡ may_set (option_map entity_of entity) (exprs_of subscripts.now) }
{
    match entity {
        Some(Entity::Variable(_, dimensions)) => unless_set(
            entity,
            dimensions == subscripts.len(),
            place,
        ),
        _ => unless_set(entity, false, place),
    }
}

/// What is wrong with stepping a name: it is a scalar.
pub fn step_fault(entity: Option<Entity>, place: Place) -> Option<Fault>
    ensures { is_none result ≡ may_step (option_map entity_of entity) }
{
    match entity {
        Some(Entity::Variable(_, dimensions)) => unless_set(entity, dimensions == 0, place),
        _ => unless_set(entity, false, place),
    }
}
