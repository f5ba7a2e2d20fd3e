//! Visible names (C11 6.2.1).

ghost use Rattle.std.specs.Prelude.{◌≡◌, ◌∷◌, ◌-◌, [], List, length, take, cond, option_map, Some, OnOk, OnErr, IsSome};
ghost use Rattle.std.specs.List.{list_any};
ghost use Rattle.semantics.specs.Tree.{Name};
ghost use Rattle.semantics.specs.Source.Scope.{find, is_reserved, same_name};
ghost use Rattle.cparse_cursor.specs.declared.scope.Binding.{Binding};
ghost use Rattle.cparse_cursor.specs.Names.{entity_of, names_of, stands, IsTied};

use ktree::VarId;
use std::alloc::{AllocError, Global};
use std::collections::HashMap;
use std::marker::Model;

/// What a name stands for: a variable with so many dimensions, or an enumeration constant.
#[derive(Clone, Copy, Drop)]
pub enum Entity {
    Variable(VarId, usize),
    Constant(u32),
}

/// A name, what it stands for, and what it stood for before.
#[derive(Clone, Copy, Drop)]
pub struct Binding<'t> {
    pub name: &'t str,
    pub entity: Entity,
    pub before: Option<Entity>,
}

/// Visible names, the innermost last, and what each of them stands for.
#[derive(Drop)]
pub struct Scope<'t> {
    bindings: Vec<Binding<'t>>,
    latest: HashMap<&'t str, Entity>,
}

impl<'t> Model for Scope<'t> {
    ghost Value = { List Binding };

    ghost view = { λ s. s.bindings.items };

    ghost invariant = { λ s. IsTied s.latest s.bindings.items };
}

/// No names.
pub fn empty<'t>(alloc: Global) -> Scope<'t>
    ensures { result ≡ [] }
{
    Scope {
        bindings: Vec::new(alloc),
        latest: HashMap::new(alloc),
    }
}

/// How many names there are.
pub fn count(scope: &Scope) -> usize
    ensures { result ≡ length scope.now }
{
    scope.bindings.len()
}

/// What a visible name stands for.
pub fn find(scope: &Scope, name: &str) -> Option<Entity>
    ensures { option_map entity_of result ≡ find (names_of scope.now) name.now }
{
    scope.latest.get(name).copied()
}

/// Puts down what a name stands for.
fn put<'t>(
    latest: &mut HashMap<&'t str, Entity>,
    name: &'t str,
    entity: Entity,
) -> Result<(), AllocError>
    ensures ok { OnOk result ((q : Name)
        → stands latest.new q ≡ cond (same_name name.now q) (Some (entity_of entity))
        (stands latest.old q)) }
    ensures err { OnErr result ((q : Name) → stands latest.new q ≡ stands latest.old q) }
{
    latest.insert(name, entity)?;
    Ok(())
}

/// Puts back what a name stood for.
fn put_back<'t>(latest: &mut HashMap<&'t str, Entity>, name: &'t str, before: Option<Entity>)
    requires { IsSome (stands latest.old name.now) }
    ensures { (q : Name) → stands latest.new q
        ≡ cond (same_name name.now q) (option_map entity_of before) (stands latest.old q) }
{
    match before {
        None => {
            latest.remove(name);
        }
        Some(entity) => {
            let _same = latest.insert(name, entity);
        }
    }
}

/// Makes a name visible.
pub fn add<'t>(scope: &mut Scope<'t>, name: &'t str, entity: Entity) -> Result<(), AllocError>
    ensures names { OnOk result (names_of scope.new
        ≡ (name.now, entity_of entity) ∷ names_of scope.old) }
    ensures front { OnOk result (take (length scope.old) scope.new ≡ scope.old) }
{
    let before = scope.latest.get(name).copied();
    scope.bindings.push(Binding {
        name,
        entity,
        before,
    })?;
    match put(&mut scope.latest, name, entity) {
        Ok(()) => Ok(()),
        Err(error) => {
            scope.bindings.pop();
            Err(error)
        }
    }
}

/// Forgets the last name.
fn forget_last(scope: &mut Scope)
    ensures { scope.new ≡ take (length scope.old - 1) scope.old }
{
    if let Some(Binding { name, before, .. }) = scope.bindings.pop() {
        put_back(&mut scope.latest, name, before);
    }
}

/// Forgets all but the first names.
pub fn close(scope: &mut Scope, length: usize)
    ensures { scope.new ≡ take length scope.old }
{
    while count(scope) > length {
        forget_last(scope);
    }
}

const RESERVED: [&str; 38] = [
    "auto", "break", "case", "char", "const", "continue", "default", "do", "double", "else",
    "enum", "extern", "float", "for", "goto", "if", "inline", "int", "long", "register",
    "restrict", "return", "short", "signed", "sizeof", "static", "struct", "switch", "typedef",
    "union", "unsigned", "void", "volatile", "while", "uint64_t", "printf", "PRIu64", "kernel",
];

/// Whether a word is one of these.
fn is_among(word: &str, words: &[&str]) -> bool
    ensures { result ≡ list_any (λ other. same_name word.now other.now) words.now }
{
    words.iter().any(|other| word == *other)
}

/// Whether a word is no name (C11 6.4.1).
pub fn is_reserved(word: &str) -> bool
    ensures { result ≡ is_reserved word.now }
{
    is_among(word, &RESERVED)
}
