//! Names (OpenMP 5.2, 3.2.1; C11 6.4.2.1).

ghost use Rattle.std.specs.Prelude.{◌≡◌, ◌&&◌, ℕ, true};
ghost use Rattle.std.specs.List.{list_all};
ghost use Rattle.semantics.specs.Source.Cuts.{is_word_byte, is_name};
ghost use Rattle.semantics.specs.Directives.DirectiveGrammar.{words};
ghost use Rattle.ktree.specs.DirectiveView.{name_of};
ghost use Rattle.pragma_clause.specs.ClauseReader.{name_in, name, names};
ghost use Rattle.pragma_clause.specs.Outcome.{Gives};
ghost use Rattle.pragma_clause.specs.Views.{with_rest, names_of};

use crate::tokens::{punctuator, run};
use crate::unread::Unread;
use crate::word::Punctuator;
use cparse_cursor::scope::is_reserved;
use ktree::{Place, Written};
use std::alloc::Global;
use std::str;
use text::{is_letter, is_word_byte};

/// How a line is read.
#[derive(Clone, Copy)]
pub struct Setting {
    pub alloc: Global,
    /// Where the line begins.
    pub place: Place,
    /// How many bytes it has.
    pub length: usize,
    /// Whether numbers above their limits are malformed; else each number is read as 1.
    pub exact: bool,
}

/// Whether all bytes may stand in a name.
fn are_word_bytes(bytes: &[u8]) -> bool
    ensures { result ≡ list_all is_word_byte bytes.now }
{
    bytes.iter().all(|byte| is_word_byte(*byte))
}

/// Whether a word is a name or a reserved word.
fn is_name(word: &[u8]) -> bool
    ensures { result ≡ is_name word.now }
{
    match word {
        [] => false,
        [first, rest @ ..] => is_letter(*first) && are_word_bytes(rest),
    }
}

/// A column so many bytes further on.
fn column_behind(place: Place, bytes: usize) -> Place {
    let bytes = u32::try_from(bytes).unwrap_or(u32::MAX);
    Place {
        line: place.line,
        column: place.column.saturating_add(bytes),
    }
}

/// A name as a text, which it is since it is ASCII.
fn text_of(word: &[u8]) -> &str
    requires { is_name word.now ≡ true }
    ensures { result.now ≡ word.now }
{
    let Ok(text) = str::from_utf8(word) else {
        unreachable!();
    };
    text
}

/// The name that a word is, which stands at this place.
pub fn name_in(alloc: Global, word: &[u8], place: Place) -> Result<Written, Unread>
    ensures { Gives name_of result (name_in word.now) }
{
    if !is_name(word) {
        return Err(Unread::Malformed);
    }
    let text = text_of(word);
    if is_reserved(text) {
        return Err(Unread::Malformed);
    }
    let name = String::from_str(alloc, text)?;
    Ok(Written { name, place })
}

/// Where a word begins that ends before the rest of a line.
pub fn place_of(setting: Setting, word: &[u8], rest: &[u8]) -> Place {
    let behind = setting.length.saturating_sub(rest.len());
    column_behind(setting.place, behind.saturating_sub(word.len()))
}

/// The name that comes next, and what stands behind it.
pub fn name<'l>(setting: Setting, text: &'l [u8]) -> Result<(Written, &'l [u8]), Unread>
    ensures { Gives (with_rest name_of) result (name (words text.now)) }
{
    let Some((word, rest)) = run(text) else {
        return Err(Unread::Malformed);
    };
    let name = name_in(setting.alloc, word, place_of(setting, word, rest))?;
    Ok((name, rest))
}

/// Names with commas between them, and what stands behind them.
pub fn names<'l>(setting: Setting, text: &'l [u8]) -> Result<(Vec<Written>, &'l [u8]), Unread>
    ensures { Gives (with_rest names_of) result (names setting.length (words text.now)) }
{
    let mut names = Vec::new(setting.alloc);
    let mut rest = text;
    for _turn in 0..setting.length {
        let (name, behind) = name(setting, rest)?;
        names.push(name)?;
        let Some(next) = punctuator(Punctuator::Comma, behind) else {
            return Ok((names, behind));
        };
        rest = next;
    }
    Err(Unread::Malformed)
}
