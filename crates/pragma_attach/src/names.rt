//! The names in the clauses of a kernel's directive lines, each resolved by what is visible there (C11 6.2.1).

ghost use Rattle.std.specs.Prelude.{◌≡◌, ◌≤◌, ◌^◌, ◌∷◌, ◌++◌, ℕ, nat_eq, List, length, take, map, cond, string_bytes, Some, None, IsTrue, IfErr, OnOk};
ghost use Rattle.semantics.specs.Tree.{Items};
ghost use Rattle.semantics.specs.Source.Scope.{AVariable, Scope as Visible};
ghost use Rattle.semantics.specs.Directives.Annotated.{clauses_of, clauses_there, lines_in, lines_among, lines_of};
ghost use Rattle.ktree.specs.DirectiveView.{name_of, directive_of};
ghost use Rattle.ktree.specs.View.{stmt_of, with_item, items_of, kernel_of};
ghost use Rattle.cparse_cursor.specs.Names.{names_of};
ghost use Rattle.pragma_clause.specs.Views.{written_clause};
ghost use Rattle.pragma_attach.specs.Standing.{directive_on};
ghost use Rattle.pragma_named.specs.Views.{resolved_clauses};
ghost use Rattle.pragma_named.specs.Known.{kept};
ghost use Rattle.pragma_attach.specs.Told.{told, tells_of, Carries, Misses, Blames};
ghost use Rattle.pragma_attach.specs.declared.stop.Stop.TheVariants.{Memory};

use crate::once::{first_twice, line_clauses};
use crate::placed::directive_on;
use crate::resolved::visible_names;
use crate::stop::Stop;
use crate::visible::file_scope;
use cparse_cursor::scope::{Entity, Scope, add, close, count};
use ktree::{Clause, Directive, Head, Item, Kernel, Local, Place, Stmt, Written};
use pragma::Directives;
use pragma_named::{Clauses, LineClauses, Named};
use std::alloc::Global;

/// The clauses of a directive.
fn clauses_of(directive: &Directive<Written>) -> &[Clause<Written>]
    ensures { map written_clause result.now ≡ clauses_of (directive_of name_of directive.now) }
{
    match directive {
        Directive::ParallelFor(clauses) => clauses.as_slice(),
        Directive::Parallel(clauses) => clauses.as_slice(),
        Directive::For(clauses) => clauses.as_slice(),
        _ => &[],
    }
}

/// The clauses on a line, none where it is no directive.
fn clauses_on<'d>(directives: &'d Directives, place: Place) -> &'d [Clause<Written>]
    ensures { map written_clause result.now
        ≡ clauses_there (directive_on directives.now place.line) }
{
    match directive_on(directives, place) {
        Err(_) => &[],
        Ok(directive) => clauses_of(directive),
    }
}

/// Keeps the clauses of a line.
fn put(table: &mut LineClauses, line: u32, clauses: Vec<Clause<Named>>) -> Result<(), Stop>
    ensures ok { OnOk result ((n : ℕ) → kept table.new n
        ≡ cond (nat_eq line n) (Some (Some (resolved_clauses clauses))) (kept table.old n)) }
    ensures err { IfErr result (λ stop. stop ≡ Memory) }
{
    table.insert(line, Clauses { clauses })?;
    Ok(())
}

/// Refuses a line at the first name that is unknown or stands twice, and keeps the names on it that are known, so that what else
/// is wrong with them is told where it stands before.
fn refuse_line(
    alloc: Global,
    table: &mut LineClauses,
    scope: &Scope,
    line: u32,
    clauses: &[Clause<Written>],
    stop: Stop,
) -> Result<(), Stop>
    ensures never { OnOk result ⊥ }
    ensures err { IfErr result (λ first. IsTrue (tells_of first) → IsTrue (tells_of stop)) }
{
    let known = visible_names(alloc, scope, clauses)?;
    let twice = first_twice(alloc, known.as_slice())?;
    let mut kept = Vec::new(alloc);
    kept.push(Clause::Shared(known))?;
    put(table, line, kept)?;
    Err(stop.or_twice(twice))
}

/// Resolves the names on a line, where the line stands first.
fn line_names(
    alloc: Global,
    directives: &Directives,
    table: &mut LineClauses,
    scope: &Scope,
    place: Place,
) -> Result<(), Stop>
    ensures ok { OnOk result ((rest : List (ℕ × Visible))
        → Carries directives.now (kept table.old) (kept table.new)
        ((place.line, names_of scope.now) ∷ rest) rest) }
    ensures err { IfErr result (λ stop. Blames stop ((rest : List (ℕ × Visible))
        → Misses directives.now (kept table.old) ((place.line, names_of scope.now) ∷ rest))) }
{
    if table.contains_key(&place.line) {
        return Ok(());
    }
    let clauses = clauses_on(directives, place);
    match line_clauses(alloc, scope, clauses) {
        Err(stop) => refuse_line(alloc, table, scope, place.line, clauses, stop),
        Ok(clauses) => put(table, place.line, clauses),
    }
}

/// Makes a local's name visible.
fn local_name<'k>(scope: &mut Scope<'k>, local: &'k Local) -> Result<(), Stop>
    ensures names { OnOk result (names_of scope.new
        ≡ (string_bytes local.now.name, AVariable local.now.variable.0 0) ∷ names_of scope.old) }
    ensures front { OnOk result (take (length scope.old) scope.new ≡ scope.old) }
    ensures err { IfErr result (λ stop. stop ≡ Memory) }
{
    add(
        scope,
        local.name.as_str(),
        Entity::Variable(local.variable, 0),
    )?;
    Ok(())
}

/// Resolves the names in a statement's lines.
#[cycle(names)]
fn statement_names<'k>(
    alloc: Global,
    directives: &Directives,
    table: &mut LineClauses,
    scope: &mut Scope<'k>,
    statement: &'k Stmt,
) -> Result<(), Stop>
    ensures ok { OnOk result ((rest : List (ℕ × Visible))
        → Carries directives.now (kept table.old) (kept table.new)
        (lines_in (names_of scope.old) (stmt_of statement.now) ++ rest) rest) }
    ensures names { OnOk result (scope.new ≡ scope.old) }
    ensures err { IfErr result (λ stop. Blames stop ((rest : List (ℕ × Visible))
        → Misses directives.now (kept table.old)
        (lines_in (names_of scope.old) (stmt_of statement.now) ++ rest))) }
{
    match statement {
        Stmt::Assign(_, _) => Ok(()),
        Stmt::Update(_, _, _) => Ok(()),
        Stmt::If(_, then, other) => {
            statement_names(alloc, directives, table, scope, then)?;
            match other {
                None => Ok(()),
                Some(other) => statement_names(alloc, directives, table, scope, other),
            }
        }
        Stmt::For(head, body) => loop_names(alloc, directives, table, scope, head, body),
        Stmt::Block(items) => block_names(alloc, directives, table, scope, items),
        Stmt::Print(_, _) => Ok(()),
    }
}

/// Those in a loop's body, in which its variable is visible.
#[cycle(names)]
fn loop_names<'k>(
    alloc: Global,
    directives: &Directives,
    table: &mut LineClauses,
    scope: &mut Scope<'k>,
    head: &'k Head,
    body: &'k Stmt,
) -> Result<(), Stop>
    ensures ok { OnOk result ((rest : List (ℕ × Visible))
        → Carries directives.now (kept table.old) (kept table.new)
        (lines_in
        ((string_bytes head.now.name, AVariable head.now.variable.0 0) ∷ names_of scope.old)
        (stmt_of body.now) ++ rest) rest) }
    ensures names { OnOk result (scope.new ≡ scope.old) }
    ensures err { IfErr result (λ stop. Blames stop ((rest : List (ℕ × Visible))
        → Misses directives.now (kept table.old)
        (lines_in
        ((string_bytes head.now.name, AVariable head.now.variable.0 0) ∷ names_of scope.old)
        (stmt_of body.now) ++ rest))) }
{
    let outer = count(scope);
    add(
        scope,
        head.name.as_str(),
        Entity::Variable(head.variable, 0),
    )?;
    statement_names(alloc, directives, table, scope, body)?;
    close(scope, outer);
    Ok(())
}

/// Those in a block, behind which its names are forgotten.
#[cycle(names)]
fn block_names<'k>(
    alloc: Global,
    directives: &Directives,
    table: &mut LineClauses,
    scope: &mut Scope<'k>,
    items: &'k [Item],
) -> Result<(), Stop>
    ensures ok { OnOk result ((rest : List (ℕ × Visible))
        → Carries directives.now (kept table.old) (kept table.new)
        (lines_among (names_of scope.old) (items_of items.now) ++ rest) rest) }
    ensures names { OnOk result (scope.new ≡ scope.old) }
    ensures err { IfErr result (λ stop. Blames stop ((rest : List (ℕ × Visible))
        → Misses directives.now (kept table.old)
        (lines_among (names_of scope.old) (items_of items.now) ++ rest))) }
{
    let names = count(scope);
    items_names(alloc, directives, table, scope, items)?;
    close(scope, names);
    Ok(())
}

/// Those among items, whose names stay visible.
#[cycle(names)]
fn items_names<'k>(
    alloc: Global,
    directives: &Directives,
    table: &mut LineClauses,
    scope: &mut Scope<'k>,
    items: &'k [Item],
) -> Result<(), Stop>
    ensures ok { OnOk result ((rest : List (ℕ × Visible))
        → Carries directives.now (kept table.old) (kept table.new)
        (lines_among (names_of scope.old) (items_of items.now) ++ rest) rest) }
    ensures front { OnOk result (take (length scope.old) scope.new ≡ scope.old) }
    ensures err { IfErr result (λ stop. Blames stop ((rest : List (ℕ × Visible))
        → Misses directives.now (kept table.old)
        (lines_among (names_of scope.old) (items_of items.now) ++ rest))) }
{
    for item in items {
        item_names(alloc, directives, table, scope, item)?;
    }
    Ok(())
}

/// Those in an item, whose name stays visible.
#[cycle(names)]
fn item_names<'k>(
    alloc: Global,
    directives: &Directives,
    table: &mut LineClauses,
    scope: &mut Scope<'k>,
    item: &'k Item,
) -> Result<(), Stop>
    ensures ok { OnOk result ((items : Items) (rest : List (ℕ × Visible))
        → Carries directives.now (kept table.old) (kept table.new)
        (lines_among (names_of scope.old) (with_item item.now items) ++ rest)
        (lines_among (names_of scope.new) items ++ rest)) }
    ensures front { OnOk result (take (length scope.old) scope.new ≡ scope.old) }
    ensures err { IfErr result (λ stop. Blames stop ((items : Items) (rest : List (ℕ × Visible))
        → Misses directives.now (kept table.old)
        (lines_among (names_of scope.old) (with_item item.now items) ++ rest))) }
{
    match item {
        Item::Directive(place) => line_names(alloc, directives, table, scope, *place),
        Item::Local(local) => local_name(scope, local),
        Item::Statement(statement) => statement_names(alloc, directives, table, scope, statement),
    }
}

/// Resolves the names in the clauses of a kernel's directive lines, into a table that knows none. Where that stops, it knows the lines before,
/// and of the line where it stops the names that are known.
pub(crate) fn kernel_names(
    alloc: Global,
    kernel: &Kernel,
    directives: &Directives,
    table: &mut LineClauses,
) -> Result<(), Stop>
    requires empty { (n : ℕ) → kept table.old n ≡ None }
    requires few { length kernel.now.variables.items ≤ 2 ^ 20 }
    ensures ok { OnOk result ((n : ℕ) → kept table.new n
        ≡ told directives.now (lines_of (kernel_of kernel.now)) n) }
    ensures err { IfErr result (λ stop. Blames stop ((n : ℕ)
        × (told directives.now (lines_of (kernel_of kernel.now)) n ≡ Some None))) }
{
    let Ok(mut scope) = file_scope(alloc, kernel) else {
        return Err(Stop::Memory);
    };
    items_names(alloc, directives, table, &mut scope, kernel.body.as_slice())
}
