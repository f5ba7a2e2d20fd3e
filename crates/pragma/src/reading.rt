//! What a line of a text is read as.

ghost use Rattle.std.specs.Prelude.{◌≡◌, ℕ, List, option_map, IfOk, IfErr};
ghost use Rattle.ktree.specs.DirectiveView.{name_of, directive_of};
ghost use Rattle.ktree.specs.declared.refusal.Refusal.TheVariants.{OutOfMemory};
ghost use Rattle.semantics.specs.Directives.DirectiveGrammar.{ReadsLine};
ghost use Rattle.pragma_clause.specs.DirectiveReader.{line_form};
ghost use Rattle.pragma_clause.specs.Outcome.{HasForm, IsFault, IsTold};
ghost use Rattle.pragma.specs.Reading.{IsTooLarge, IsReading, ReadsNone};

use ktree::{Directive, Place, Refusal, Written};
use pragma_clause::{read, read_form};
use std::alloc::Global;
use text::skip_blanks;

/// What a line is read as.
#[derive(Drop)]
pub(crate) enum Reading {
    /// A directive.
    Read(Directive<Written>),
    /// A directive but for a number above its limit, with 1 in place of each of its numbers.
    TooLarge(Directive<Written>),
    /// Any other line.
    Malformed,
}

impl Reading {
    /// The directive of the line at a place, or why it is refused.
    pub(crate) fn at(&self, place: Place) -> Result<&Directive<Written>, Refusal>
        ensures ok { (line : List ℕ) → IsReading line self.now
            → IfOk result (λ d. ReadsLine line (directive_of name_of d.now)) }
        ensures err { (line : List ℕ) → IsReading line self.now
            → IfErr result (λ r. IsFault place (HasForm line) r × ReadsNone line) }
    {
        match self {
            Reading::Read(directive) => Ok(directive),
            Reading::TooLarge(_) => Err(Refusal::Limit(place)),
            Reading::Malformed => Err(Refusal::Directive(place)),
        }
    }

    /// The directive of the line whatever the size of its numbers.
    pub(crate) fn form(&self) -> Option<&Directive<Written>>
        ensures { (line : List ℕ) → IsReading line self.now
            → option_map (λ d. directive_of name_of d.now) result ≡ line_form line }
    {
        match self {
            Reading::Read(directive) | Reading::TooLarge(directive) => Some(directive),
            Reading::Malformed => None,
        }
    }
}

/// Where the `#` of the line of an index stands, from 0.
fn hash_place(index: usize, line: &[u8]) -> Place {
    let blanks = line.len().saturating_sub(skip_blanks(line).len());
    Place {
        line: u32::try_from(index).unwrap_or(u32::MAX).saturating_add(1),
        column: u32::try_from(blanks).unwrap_or(u32::MAX).saturating_add(1),
    }
}

/// What a line is read as whose numbers alone keep it from being a directive.
fn too_large(alloc: Global, line: &[u8], place: Place) -> Result<Reading, Refusal>
    requires { IsTooLarge line.now }
    ensures ok { IfOk result (IsReading line.now) }
    ensures err { IfErr result (λ refusal. refusal ≡ OutOfMemory) }
{
    match read_form(alloc, line, place) {
        Ok(directive) => Ok(Reading::TooLarge(directive)),
        Err(refusal) => Err(refusal),
    }
}

/// What a line is read as that is no directive, by its refusal.
fn reading_of_refusal(
    alloc: Global,
    line: &[u8],
    place: Place,
    refusal: &Refusal,
) -> Result<Reading, Refusal>
    requires { IsTold place line.now refusal.now }
    ensures ok { IfOk result (IsReading line.now) }
    ensures err { IfErr result (λ refusal. refusal ≡ OutOfMemory) }
{
    match refusal {
        Refusal::OutOfMemory => Err(Refusal::OutOfMemory),
        Refusal::Limit(_) => too_large(alloc, line, place),
        _ => Ok(Reading::Malformed),
    }
}

/// Reads the line of an index, from 0, which comes without its line end.
///
/// # Errors
///
/// `OutOfMemory` alone.
pub(crate) fn read_line(alloc: Global, index: usize, line: &[u8]) -> Result<Reading, Refusal>
    ensures ok { IfOk result (IsReading line.now) }
    ensures err { IfErr result (λ refusal. refusal ≡ OutOfMemory) }
{
    let place = hash_place(index, line);
    match read(alloc, line, place) {
        Ok(directive) => Ok(Reading::Read(directive)),
        Err(refusal) => reading_of_refusal(alloc, line, place, &refusal),
    }
}
