//! What was read at the front of the tokens.

ghost use Rattle.std.specs.Prelude.{◌≡◌, ◌&&◌, [], ◌∷◌, ◌++◌, is_none, IfOk, IfErr};
ghost use Rattle.cparse_cursor.specs.declared.stop.Stop.TheVariants.{Memory};

use crate::lexeme::Lexeme;
use crate::stop::{Fault, Stop, earlier};
use ktree::{Expr, Place};

/// A part of the tree, the first fault in it, and the tokens behind it.
#[derive(Drop)]
pub struct Parsed<'s, 't, T: Drop> {
    pub tree: T,
    pub fault: Option<Fault>,
    pub rest: &'s [Lexeme<'t>],
}

/// Subscripts from the left, and where each begins (C11 6.5.2.1).
#[derive(Drop)]
pub struct Subscripts {
    pub exprs: Vec<Expr>,
    pub places: Vec<Place>,
}

/// A list read so far, and one more.
pub fn and_then<'s, 't, T: Drop>(
    row: Parsed<'s, 't, Vec<T>>,
    one: Parsed<'s, 't, T>,
) -> Result<Parsed<'s, 't, Vec<T>>, Stop>
    ensures tree { IfOk result (λ r. r.tree.items ≡ row.entry.tree.items ++ one.entry.tree ∷ []) }
    ensures fault { IfOk result (λ r. is_none r.fault
        ≡ (is_none row.entry.fault && is_none one.entry.fault)) }
    ensures rest { IfOk result (λ r. r.rest ≡ one.entry.rest) }
    ensures err { IfErr result (λ stop. stop ≡ Memory) }
{
    let Parsed {
        tree: mut items,
        fault: row_fault,
        rest: _,
    } = row;
    let Parsed { tree, fault, rest } = one;
    items.push(tree)?;
    Ok(Parsed {
        tree: items,
        fault: earlier(row_fault, fault),
        rest,
    })
}
