//! The clauses of directive lines, by the lines' numbers.

ghost use Rattle.std.specs.Prelude.{◌≡◌, map};
ghost use Rattle.pragma_named.specs.Views.{resolved_clause};
ghost use Rattle.pragma_named.specs.Known.{known_clauses, kept};
ghost use Rattle.pragma_named.specs.Lines.{line_in};

use crate::named::Named;
use ktree::{Clause, Item};
use std::collections::HashMap;

/// The clauses of a directive line, their names resolved.
#[derive(Drop)]
pub struct Clauses {
    pub clauses: Vec<Clause<Named>>,
}

/// Those of directive lines, by the lines' numbers.
pub type LineClauses = HashMap<u32, Clauses>;

/// The clauses that are known of a line; none where it is not there.
pub fn clauses_known(table: &LineClauses, line: u32) -> &[Clause<Named>]
    ensures { map resolved_clause result.now ≡ known_clauses (kept table.now line) }
{
    match table.get(&line) {
        None => &[],
        Some(entry) => entry.clauses.as_slice(),
    }
}

/// The line that an item is, where it is a directive line.
pub fn line_of(item: &Item) -> Option<u32>
    ensures { result ≡ line_in item.now }
{
    match item {
        Item::Directive(place) => Some(place.line),
        _ => None,
    }
}
