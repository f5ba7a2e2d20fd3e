//! What is visible in a kernel's own block (C11 6.2.1).

ghost use Rattle.std.specs.Prelude.{◌≡◌, ◌≤◌, ◌^◌, length, map, string_bytes, IfOk, OnOk};
ghost use Rattle.semantics.specs.Source.Scope.{with_constants};
ghost use Rattle.semantics.specs.Directives.Annotated.{variables_from, file_scope};
ghost use Rattle.ktree.specs.View.{declaration_of, kernel_of};
ghost use Rattle.cparse_cursor.specs.Names.{names_of};

use crate::stop::Stop;
use cparse_cursor::scope::{Entity, Scope, add, empty};
use ktree::{Declaration, Enumerator, Kernel, VarId};
use std::alloc::Global;

/// The variables at file scope, by their numbers; the first of two with one name is meant.
fn variables<'k>(alloc: Global, declarations: &'k [Declaration]) -> Result<Scope<'k>, Stop>
    requires few { length declarations.now ≤ 2 ^ 20 }
    ensures { IfOk result (λ scope. names_of scope
        ≡ variables_from 0 (map declaration_of declarations.now)) }
{
    let mut scope = empty(alloc);
    for done in 0..declarations.len() {
        let at = declarations.len() - 1 - done;
        let declaration = &declarations[at];
        add(
            &mut scope,
            declaration.name.as_str(),
            Entity::Variable(VarId(at as u32), declaration.lengths.len()),
        )?;
    }
    Ok(scope)
}

/// Makes enumeration constants visible.
fn add_constants<'k>(scope: &mut Scope<'k>, constants: &'k [Enumerator]) -> Result<(), Stop>
    ensures { OnOk result (names_of scope.new
        ≡ with_constants (map (λ c. (string_bytes c.name, c.value)) constants.now)
        (names_of scope.old)) }
{
    for constant in constants {
        add(
            scope,
            constant.name.as_str(),
            Entity::Constant(constant.value),
        )?;
    }
    Ok(())
}

/// What is visible in a kernel's own block.
pub(crate) fn file_scope<'k>(alloc: Global, kernel: &'k Kernel) -> Result<Scope<'k>, Stop>
    requires few { length kernel.now.variables.items ≤ 2 ^ 20 }
    ensures { IfOk result (λ scope. names_of scope ≡ file_scope (kernel_of kernel.now)) }
{
    let mut scope = variables(alloc, kernel.variables.as_slice())?;
    add_constants(&mut scope, kernel.constants.as_slice())?;
    Ok(scope)
}
