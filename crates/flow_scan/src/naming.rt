//! By which names variables are declared.

ghost use Rattle.std.specs.Prelude.{◌≡◌, ◌&&◌, ◌||◌, ◌==◌, map, slice_get};
ghost use Rattle.semantics.specs.Tree.{Items};
ghost use Rattle.semantics.specs.Meaning.State.{same_indexes};
ghost use Rattle.ktree.specs.View.{declaration_of, stmt_of, with_item, items_of, kernel_of};
ghost use Rattle.flow_scan.specs.Lines.{is_named, declares, declare, is_called};

use ktree::{Declaration, Item, Kernel, Stmt, VarId};

/// Whether two names are the same.
fn is_same(own: &str, name: &str) -> bool
    ensures { result ≡ same_indexes own.now name.now }
{
    own.as_bytes() == name.as_bytes()
}

/// Whether a declaration at file scope is that of a variable by this name.
fn is_named(variables: &[Declaration], variable: VarId, name: &str) -> bool
    ensures { result
        ≡ is_named name.now (slice_get (map declaration_of variables.now) variable.0) }
{
    match variables.get(variable.0 as usize) {
        None => false,
        Some(declaration) => is_same(declaration.name.as_str(), name),
    }
}

/// Whether a declaration is that of a variable by this name.
fn is_declaration(own: VarId, own_name: &str, variable: VarId, name: &str) -> bool
    ensures { result ≡ ((own.0 == variable.0) && same_indexes own_name.now name.now) }
{
    own == variable && is_same(own_name, name)
}

/// Whether a statement declares a variable by this name.
#[cycle(declaring)]
#[tactic(auto, using(ktree::proofs::Trees::block_items))]
fn declares(variable: VarId, name: &str, statement: &Stmt) -> bool
    ensures { result ≡ declares variable.0 name.now (stmt_of statement.now) }
{
    match statement {
        Stmt::Assign(_, _) => false,
        Stmt::Update(_, _, _) => false,
        Stmt::If(_, then, None) => declares(variable, name, then),
        Stmt::If(_, then, Some(other)) => {
            declares(variable, name, then) || declares(variable, name, other)
        }
        Stmt::For(head, body) => {
            is_declaration(head.variable, head.name.as_str(), variable, name)
                || declares(variable, name, body)
        }
        Stmt::Block(items) => declare(variable, name, items),
        Stmt::Print(_, _) => false,
    }
}

/// Whether an item does.
#[cycle(declaring)]
fn item_declares(variable: VarId, name: &str, item: &Item) -> bool
    ensures { (rest : Items) → declare variable.0 name.now (with_item item.now rest)
        ≡ (result || declare variable.0 name.now rest) }
{
    match item {
        Item::Directive(_) => false,
        Item::Local(local) => {
            is_declaration(local.variable, local.name.as_str(), variable, name)
        }
        Item::Statement(statement) => declares(variable, name, statement),
    }
}

/// Whether a block's items do.
#[cycle(declaring)]
fn declare(variable: VarId, name: &str, items: &[Item]) -> bool
    ensures { result ≡ declare variable.0 name.now (items_of items.now) }
{
    for item in items {
        if item_declares(variable, name, item) {
            return true;
        }
    }
    false
}

/// Whether a kernel declares a variable by this name (C11 6.2.1).
pub(crate) fn is_called(kernel: &Kernel, variable: VarId, name: &str) -> bool
    ensures { result ≡ is_called (kernel_of kernel.now) variable.0 name.now }
{
    is_named(kernel.variables.as_slice(), variable, name)
        || declare(variable, name, kernel.body.as_slice())
}
