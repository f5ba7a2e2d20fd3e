//! A kernel's directives, each at its place.

ghost use Rattle.std.specs.Prelude.{◌≡◌, ◌≤◌, ◌^◌, ◌⊎◌, ◌&&◌, ℕ, length, Some, is_none, IfOk, IfErr};
ghost use Rattle.semantics.specs.Directives.Annotated.{Directives as Those, clauses_at};
ghost use Rattle.semantics.specs.Directives.Naming.{IsAttached};
ghost use Rattle.ktree.specs.View.{kernel_of};
ghost use Rattle.ktree.specs.declared.refusal.Refusal.TheVariants.{OutOfMemory};
ghost use Rattle.pragma_attach.specs.declared.stop.Stop.TheVariants.{Memory};
ghost use Rattle.pragma_attach.specs.Faults.{IsOfDirectives};
ghost use Rattle.pragma_attach.specs.Attached.{directives_of};
ghost use Rattle.pragma_named.specs.Known.{kept, lines_known};

use crate::fault::{Fault, Flaw, first};
use crate::names::kernel_names;
use crate::naming::naming_fault;
use crate::placed::placing_fault;
use crate::stop::Stop;
use ktree::{Kernel, Place, Refusal};
use pragma::Directives;
use pragma_named::LineClauses;
use std::alloc::Global;
use std::collections::HashMap;

/// What is told of a flaw at a place and of what is wrong elsewhere.
fn first_refusal(place: Place, flaw: Flaw, placing: Option<Fault>) -> Refusal
    ensures { IsOfDirectives result }
{
    Refusal::from(first(Fault { place, flaw }, placing))
}

/// Why names are not resolved, or what is wrong before that in the text.
fn refuse_names(stop: Stop, placing: Option<Fault>) -> Refusal
    ensures memory { stop ≡ Memory → result ≡ OutOfMemory }
    ensures told { (result ≡ OutOfMemory) ⊎ IsOfDirectives result }
{
    match stop {
        Stop::Memory => Refusal::OutOfMemory,
        Stop::UnknownName(place) => first_refusal(place, Flaw::UnknownName, placing),
        Stop::NamedTwice(place) => first_refusal(place, Flaw::ClauseForVariable, placing),
    }
}

/// The first of what is wrong with constructs, and of a name in a construct that stands in the wrong clauses or in none.
fn first_fault(placing: Option<Fault>, naming: Option<Place>) -> Option<Fault>
    ensures { is_none result ≡ (is_none placing && is_none naming) }
{
    match naming {
        None => placing,
        Some(place) => Some(first(
            Fault {
                place,
                flaw: Flaw::ClauseForVariable,
            },
            placing,
        )),
    }
}

/// Attaches the directives of a text to its kernel, and gives the clauses of each line over variables, exactly where that can be: each line is read, each construct stands where it may, each name in a
/// clause is that of a visible variable, none stands twice in a directive's clauses, a `for` inside a `parallel` names only what is shared there, and under
/// `default(none)` each variable from outside stands in a clause (OpenMP 5.2, 3.1, 5.1, 5.4, 10.1, 11.5 and 17; C11 6.2.1). The kernel
/// has at most 1,048,576 variables at file scope, as every text's has.
///
/// # Errors
///
/// [`Refusal::OutOfMemory`], and of several faults the first in the text, by its place, and at one place that of the lower number:
/// [`Refusal::UnknownName`] and [`Refusal::ClauseForVariable`] at a name, [`Refusal::Directive`] and [`Refusal::Limit`] at a line's `#`.
pub fn attach(
    alloc: Global,
    kernel: &Kernel,
    directives: &Directives,
) -> Result<LineClauses, Refusal>
    requires few { length kernel.now.variables.items ≤ 2 ^ 20 }
    ensures attached { IfOk result (λ _. IsAttached directives.now (kernel_of kernel.now)
        (directives_of directives.now (kernel_of kernel.now))) }
    ensures clauses { IfOk result (λ lines. (n : ℕ) → clauses_at (kernel_of kernel.now)
        (directives_of directives.now (kernel_of kernel.now)) n
        ≡ Some (lines_known (kept lines) n)) }
    ensures err { IfErr result (λ refusal. (refusal ≡ OutOfMemory)
        ⊎ (IsOfDirectives refusal
        × ((ds : Those) → IsAttached directives.now (kernel_of kernel.now) ds → ⊥))) }
{
    let placing = placing_fault(kernel, directives);
    let mut lines = HashMap::new(alloc);
    let names = kernel_names(alloc, kernel, directives, &mut lines);
    let naming = naming_fault(alloc, kernel, &lines)?;
    let fault = first_fault(placing, naming);
    match names {
        Err(stop) => Err(refuse_names(stop, fault)),
        Ok(()) => match fault {
            None => Ok(lines),
            Some(fault) => Err(Refusal::from(fault)),
        },
    }
}
