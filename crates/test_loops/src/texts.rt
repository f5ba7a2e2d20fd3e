//! Texts with arrays `A` of 8 and `B` of 2 times 3 elements and a scalar `s` at file scope, which are the variables 0 to 2,
//! and a local `x`, the variable 3. The variables that the given lines declare have the numbers from 4 on.

ghost use Rattle.std.specs.Prelude.{◌≡◌};

use ktree::{Item, Kernel, NamePlaces, Place, Stmt, VarId};
use std::alloc::{AllocError, Global};

/// The array `A`.
pub(crate) const A: VarId = VarId(0);

/// The scalar `s`.
pub(crate) const S: VarId = VarId(2);

pub(crate) const X: VarId = VarId(3);

/// The first variable that the given lines declare.
pub(crate) const I: VarId = VarId(4);

/// The second.
pub(crate) const J: VarId = VarId(5);

/// The text with these lines, which begin at line 2.
pub(crate) fn text(alloc: Global, lines: &str) -> Result<String, AllocError> {
    format!(in alloc;
        "uint64_t A[8]; uint64_t B[2][3]; uint64_t s; void kernel(void) {{ uint64_t x;\n{lines}\n}}\n"
    )
}

/// The last statement of a kernel.
pub(crate) fn last_statement(kernel: &Kernel) -> Option<&Stmt> {
    match kernel.body.as_slice() {
        [.., Item::Statement(statement)] => Some(statement),
        _ => None,
    }
}

/// Puts one more statement behind those of a kernel.
pub(crate) fn add_last(alloc: Global, kernel: &mut Kernel, last: Stmt) -> Result<(), AllocError>
    ensures { kernel.new.variables ≡ kernel.old.variables }
{
    let last = Box::new(alloc, last)?;
    kernel.body.push(Item::Statement(last))?;
    Ok(())
}

/// A name on line 3, without subscripts.
pub(crate) fn name(alloc: Global, column: u32) -> NamePlaces {
    NamePlaces {
        name: Place { line: 3, column },
        subscripts: Vec::new(alloc),
    }
}

/// Eight loops, one in the other, each on a line of its own.
pub(crate) const EIGHT_LOOPS: &str = "for (uint64_t i0 = 0; i0 < 2; i0++)
for (uint64_t i1 = 0; i1 < 2; i1++)
for (uint64_t i2 = 0; i2 < 2; i2++)
for (uint64_t i3 = 0; i3 < 2; i3++)
for (uint64_t i4 = 0; i4 < 2; i4++)
for (uint64_t i5 = 0; i5 < 2; i5++)
for (uint64_t i6 = 0; i6 < 2; i6++)
for (uint64_t i7 = 0; i7 < 2; i7++)
{ }";

/// Nine of them.
pub(crate) const NINE_LOOPS: &str = "for (uint64_t i0 = 0; i0 < 2; i0++)
for (uint64_t i1 = 0; i1 < 2; i1++)
for (uint64_t i2 = 0; i2 < 2; i2++)
for (uint64_t i3 = 0; i3 < 2; i3++)
for (uint64_t i4 = 0; i4 < 2; i4++)
for (uint64_t i5 = 0; i5 < 2; i5++)
for (uint64_t i6 = 0; i6 < 2; i6++)
for (uint64_t i7 = 0; i7 < 2; i7++)
for (uint64_t i8 = 0; i8 < 2; i8++)
{ }";
