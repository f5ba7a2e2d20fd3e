//! The directive lines of a text.

ghost use Rattle.std.specs.Prelude.{◌≡◌, ℕ, Option, option_map, IfOk, IfErr, OnOk, MatchOption, List, drop};
ghost use Rattle.semantics.specs.Source.Text.{line_at};
ghost use Rattle.semantics.specs.Directives.DirectiveGrammar.{ReadsLine};
ghost use Rattle.ktree.specs.DirectiveView.{name_of, directive_of};
ghost use Rattle.ktree.specs.declared.refusal.Refusal.TheVariants.{OutOfMemory};
ghost use Rattle.pragma.specs.Clauses.{ReadsLoop};
ghost use Rattle.pragma.specs.Views.{scheduled};
ghost use Rattle.semantics.specs.Directives.Directive.{Schedule};
ghost use Rattle.pragma_clause.specs.DirectiveReader.{line_form};
ghost use Rattle.pragma_clause.specs.Outcome.{HasForm, IsFault};
ghost use Rattle.pragma.specs.Lines.{line_starts};
ghost use Rattle.pragma.specs.Reading.{IsTooLarge, ReadsNone, IsReading, AddsLine};
ghost use Rattle.pragma.specs.declared.reading.Reading.TheVariants.{Malformed as malformed};

use crate::combined::{ParallelFor, loop_of};
use crate::reading::{Reading, read_line};
use ktree::{Directive, Place, Refusal, Written};
use std::alloc::{AllocError, Global};
use std::marker::Model;
use text::first_line;

/// What a line is read as, by its index from 0.
#[derive(Drop)]
struct LineReading {
    index: usize,
    reading: Reading,
}

/// The directive lines of a text, each read once, by the numbers of their lines.
#[derive(Drop)]
pub struct Directives<'t> {
    text: &'t [u8],
    lines: Vec<LineReading>,
}

impl<'t> Model for Directives<'t> {
    ghost use Rattle.std.specs.Prelude.{ℕ, List};
    ghost use Rattle.pragma.specs.Reading.{AreRead};

    ghost Value = { List ℕ };

    ghost view = { λ d. d.text.now };

    ghost invariant = { λ d. AreRead d.text.now d.lines.items };
}

/// The bytes from a position on, none where it is past the end.
fn behind(text: &[u8], position: usize) -> &[u8]
    ensures { result.now ≡ drop position text.now }
{
    if position <= text.len() {
        &text[position..]
    } else {
        &[]
    }
}

/// Where each line begins.
fn line_starts(alloc: Global, text: &[u8]) -> Result<Vec<usize>, AllocError>
    ensures { IfOk result (λ starts. starts.items ≡ line_starts text.now) }
{
    let mut starts = Vec::new(alloc);
    starts.push(0)?;
    for (i, byte) in text.iter().enumerate() {
        if *byte == b'\n' {
            starts.push(i + 1)?;
        }
    }
    Ok(starts)
}

/// What the line of an index is read as, where it is well formed.
fn well_formed(alloc: Global, index: usize, line: &[u8]) -> Result<Option<Reading>, Refusal>
    ensures ok { IfOk result (λ found. MatchOption found (IsReading line.now malformed)
        (IsReading line.now)) }
    ensures err { IfErr result (λ refusal. refusal ≡ OutOfMemory) }
{
    match read_line(alloc, index, line)? {
        Reading::Malformed => Ok(None),
        reading => Ok(Some(reading)),
    }
}

/// Keeps what the line of this index is read as, where it is well formed.
fn add_line(
    alloc: Global,
    lines: &mut Vec<LineReading>,
    index: usize,
    line: &[u8],
) -> Result<(), Refusal>
    ensures ok { OnOk result (AddsLine index line.now lines.old.items lines.new.items) }
    ensures err { IfErr result (λ refusal. refusal ≡ OutOfMemory) }
{
    let Some(reading) = well_formed(alloc, index, line)? else {
        return Ok(());
    };
    lines.push(LineReading { index, reading })?;
    Ok(())
}

impl<'t> Directives<'t> {
    /// Reads the directive lines of a text.
    ///
    /// # Errors
    ///
    /// `OutOfMemory` alone.
    pub fn read(alloc: Global, text: &'t [u8]) -> Result<Directives<'t>, Refusal>
        ensures ok { IfOk result (λ directives. directives ≡ text.now) }
        ensures err { IfErr result (λ refusal. refusal ≡ OutOfMemory) }
    {
        let starts = line_starts(alloc, text)?;
        let mut lines = Vec::new(alloc);
        for (index, start) in starts.iter().enumerate() {
            add_line(alloc, &mut lines, index, first_line(behind(text, *start)))?;
        }
        Ok(Directives { text, lines })
    }

    /// What the line of a number is read as, from 1, where it is well formed.
    fn reading_of_line(&self, number: u32) -> Option<&Reading>
        ensures { MatchOption result (IsReading (line_at self.now number) malformed)
            (λ reading. IsReading (line_at self.now number) reading.now) }
    {
        let index = number.saturating_sub(1) as usize;
        match self.lines.binary_search_by_key(&index, |line| line.index) {
            Ok(found) => Some(&self.lines[found].reading),
            Err(_) => None,
        }
    }

    /// The directive at a place, with its clauses (OpenMP 5.2, 3.1); `place` is that of its `#`.
    ///
    /// # Errors
    ///
    /// `Limit` where the line is a directive but for a number above its limit, and `Directive` where it is none; both name the place.
    pub fn directive(&self, place: Place) -> Result<&Directive<Written>, Refusal>
        ensures ok { IfOk result
            (λ d. ReadsLine (line_at self.now place.line) (directive_of name_of d.now)) }
        ensures err { IfErr result (λ r. IsFault place (HasForm (line_at self.now place.line)) r
            × ReadsNone (line_at self.now place.line)) }
    {
        let Some(reading) = self.reading_of_line(place.line) else {
            return Err(Refusal::Directive(place));
        };
        reading.at(place)
    }

    /// The directive at a place whatever the size of its numbers, with 1 in place of each of them where one is above its limit; none
    /// where the line is no directive in either way.
    pub fn form(&self, place: Place) -> Option<&Directive<Written>>
        ensures { option_map (λ d. directive_of name_of d.now) result
            ≡ line_form (line_at self.now place.line) }
    {
        match self.reading_of_line(place.line) {
            None => None,
            Some(reading) => reading.form(),
        }
    }

    /// What the `parallel for` at a place says (OpenMP 5.2, 17); `place` is that of its `#`.
    ///
    /// # Errors
    ///
    /// `Limit` where the line is a directive but for a number above its limit, and `Directive` where it is no `parallel for` of known
    /// clauses; both name the place.
    pub fn at(&self, place: Place) -> Result<ParallelFor, Refusal>
        ensures ok { IfOk result (λ d. ReadsLoop (line_at self.now place.line) (scheduled d)
            d.collapse) }
        ensures err { IfErr result
            (λ r. IsFault place (IsTooLarge (line_at self.now place.line)) r
            × ((k : Option Schedule) (c : Option ℕ) → ReadsLoop (line_at self.now place.line) k c
            → ⊥)) }
    {
        match self.directive(place) {
            Err(refusal) => Err(refusal),
            Ok(directive) => match loop_of(directive) {
                None => Err(Refusal::Directive(place)),
                Some(said) => Ok(said),
            },
        }
    }
}
