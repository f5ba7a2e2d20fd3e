//! Directive lines (OpenMP 5.2, 3.1).

ghost use Rattle.std.specs.Prelude.{◌≡◌, ◌⊎◌, true, false, length, is_some, Some, IfOk, IfErr};
ghost use Rattle.semantics.specs.Directives.DirectiveGrammar.{ReadsLine};
ghost use Rattle.ktree.specs.DirectiveView.{name_of, directive_of};
ghost use Rattle.ktree.specs.declared.refusal.Refusal.TheVariants as refusals;
ghost use Rattle.pragma_clause.specs.DirectiveReader.{line_directive};
ghost use Rattle.pragma_clause.specs.Outcome.{IsFormless, IsRefusal, IsTold};
ghost use Rattle.pragma_clause.specs.Views.{written_directive};

use crate::directive::directive;
use crate::name::Setting;
use crate::unread::Unread;
use ktree::{Directive, Place, Refusal, Written};
use std::alloc::Global;
use text::{behind_omp, is_blank};

/// Where a line begins, of which the first byte that is no blank stands at a place.
fn line_start(line: &[u8], place: Place) -> Place {
    let mut column = place.column;
    for byte in line {
        if !is_blank(*byte) {
            break;
        }
        column = column.saturating_sub(1);
    }
    Place {
        line: place.line,
        column,
    }
}

/// How a line is read whose `#` stands at a place.
fn setting_of(alloc: Global, line: &[u8], place: Place, exact: bool) -> Setting
    ensures { (result.length ≡ length line.now) × (result.exact ≡ exact) }
{
    Setting {
        alloc,
        place: line_start(line, place),
        length: line.len(),
        exact,
    }
}

/// The directive that a line is but for the size of its numbers, each of them read as 1; `line` and `place` are as for [`read`].
///
/// # Errors
///
/// [`Refusal::Directive`] where the line is no directive whatever its numbers, and [`Refusal::OutOfMemory`] where memory runs out.
pub fn read_form(alloc: Global, line: &[u8], place: Place) -> Result<Directive<Written>, Refusal>
    ensures ok { IfOk result (λ d. line_directive false line.now ≡ Some (directive_of name_of d)) }
    ensures err { IfErr result (IsFormless place line.now) }
{
    let Some(text) = behind_omp(line) else {
        return Err(Refusal::Directive(place));
    };
    match directive(setting_of(alloc, line, place, false), text) {
        Ok(directive) => Ok(directive),
        Err(Unread::Malformed) => Err(Refusal::Directive(place)),
        Err(Unread::OutOfMemory) => Err(Refusal::OutOfMemory),
    }
}

/// Why a line is refused that is not read exactly.
fn refusal(alloc: Global, line: &[u8], place: Place) -> Refusal
    ensures { ((result ≡ refusals.Limit place)
        × (is_some (line_directive false line.now) ≡ true)) ⊎ IsFormless place line.now result }
{
    match read_form(alloc, line, place) {
        Ok(_) => Refusal::Limit(place),
        Err(refusal) => refusal,
    }
}

/// The directive of a line, as the reader of the definitions reads it.
fn read_line(alloc: Global, line: &[u8], place: Place) -> Result<Directive<Written>, Refusal>
    ensures ok { IfOk result (λ d. line_directive true line.now ≡ Some (written_directive d)) }
    ensures err { IfErr result (IsRefusal place line.now) }
{
    let Some(text) = behind_omp(line) else {
        return Err(Refusal::Directive(place));
    };
    match directive(setting_of(alloc, line, place, true), text) {
        Ok(directive) => Ok(directive),
        Err(Unread::Malformed) => Err(refusal(alloc, line, place)),
        Err(Unread::OutOfMemory) => Err(Refusal::OutOfMemory),
    }
}

/// The directive that a line is, with its clauses (OpenMP 5.2, 3.1, 5.6, 10.1, 11.5.1, 15.9, 15.10 and 17). The line comes
/// without its line end, and `place` is that of its `#`; the names are told with their own places.
///
/// # Errors
///
/// [`Refusal::Limit`] where the line is a directive but for numbers above their limits: a size of chunks above 2^24, or more
/// than 4 loops. [`Refusal::Directive`] for every other line that is no directive, and [`Refusal::OutOfMemory`] where memory
/// runs out.
pub fn read(alloc: Global, line: &[u8], place: Place) -> Result<Directive<Written>, Refusal>
    ensures ok { IfOk result (λ d. ReadsLine line.now (directive_of name_of d)) }
    ensures err { IfErr result (IsTold place line.now) }
{
    read_line(alloc, line, place)
}
