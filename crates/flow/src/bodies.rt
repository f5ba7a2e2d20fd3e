//! What the associated loops of a directive run.

ghost use Rattle.std.specs.Prelude.{◌≡◌, option_map};
ghost use Rattle.ktree.specs.View.{stmt_of, items_of};
ghost use Rattle.flow.specs.Private.{nest_body_of, first_stmt_of};

use ktree::{Item, Stmt};
use nest::as_loop;

/// What the innermost of so many nested loops runs (OpenMP 5.2, 4.4.3).
pub fn nest_body(statement: &Stmt, depth: u64) -> Option<&Stmt>
    ensures { option_map (λ body. stmt_of body.now) result
        ≡ nest_body_of depth (stmt_of statement.now) }
{
    let mut body = statement;
    for _ in 0..depth {
        let Some(level) = as_loop(body) else {
            return None;
        };
        body = level.body;
    }
    Some(body)
}

/// The statement that stands first.
pub(crate) fn first_statement(items: &[Item]) -> Option<&Stmt>
    ensures { option_map (λ s. stmt_of s.now) result ≡ first_stmt_of (items_of items.now) }
{
    match items {
        [] => None,
        [Item::Statement(statement), ..] => Some(statement),
        [_, ..] => None,
    }
}
