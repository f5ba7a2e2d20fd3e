//! The tree of a text (C11 6.9).

ghost use Rattle.std.specs.Prelude.{ℕ, ◌≡◌, ◌≤◌, ◌^◌, List, length, IfOk, IfErr};
ghost use Rattle.semantics.specs.Source.Grammar.{ReadsText};
ghost use Rattle.ctoken.specs.Meant.{AreTokensOf, LieIn};
ghost use Rattle.ktree.specs.View.{kernel_of};
ghost use Rattle.cparse.specs.Parsed.{HasNoTree, StopsFor, RefusesTree};

use crate::kernel::{Whole, kernel};
use crate::lexing::lexemes;
use cparse_cursor::context::Setting;
use cparse_cursor::stop::{Fault, Flaw, Stop};
use ctoken::{Scanned, Token, scan};
use ktree::limits::TEXT_BYTES;
use ktree::{Kernel, Place, Refusal};
use std::alloc::Global;

/// The refusal of a text by what stops its reading.
fn refusal_by_stop(stop: Stop) -> Refusal
    ensures { (text : List ℕ) → StopsFor text stop → RefusesTree text result }
{
    match stop {
        Stop::Memory => Refusal::OutOfMemory,
        Stop::Syntax(place) => Refusal::Syntax(place),
        Stop::Limit(place) => Refusal::Limit(place),
    }
}

/// The refusal of a text by a fault in its tree.
fn refusal_by_fault(fault: Fault) -> Refusal
    ensures { (text : List ℕ) → HasNoTree text → RefusesTree text result }
{
    match fault.flaw {
        Flaw::NumberOutOfRange => Refusal::NumberOutOfRange(fault.place),
        Flaw::UnknownName => Refusal::UnknownName(fault.place),
        Flaw::NameTwice => Refusal::NameTwice(fault.place),
        Flaw::Operands => Refusal::Operands(fault.place),
        Flaw::Limit => Refusal::Limit(fault.place),
    }
}

/// The tree of a text whose tokens these are.
fn tree(alloc: Global, text: &[u8], tokens: &[Token], end: Place) -> Result<Kernel, Refusal>
    requires tokens { AreTokensOf text.now tokens.now }
    requires lie { LieIn text.now tokens.now }
    requires length { length text.now ≤ 2 ^ 20 }
    ensures ok { IfOk result (λ kernel. ReadsText text.now (kernel_of kernel)) }
    ensures variables { IfOk result (λ kernel. length kernel.variables.items ≤ 2 ^ 20) }
    ensures err { IfErr result (RefusesTree text.now) }
{
    let lexemes = lexemes(alloc, text, tokens)?;
    match kernel(Setting { alloc, end }, &lexemes) {
        Ok(whole) => match whole.fault {
            None => Ok(whole.kernel),
            Some(fault) => Err(refusal_by_fault(fault)),
        },
        Err(stop) => Err(refusal_by_stop(stop)),
    }
}

/// What stops reading these first tokens of a text, behind which it is at fault at a place.
fn first_stop(alloc: Global, text: &[u8], tokens: &[Token], end: Place) -> Stop
    requires lie { LieIn text.now tokens.now }
    requires length { length text.now ≤ 2 ^ 20 }
{
    let Ok(lexemes) = lexemes(alloc, text, tokens) else {
        return Stop::Memory;
    };
    match kernel(Setting { alloc, end }, &lexemes) {
        Ok(_) => Stop::Syntax(end),
        Err(stop) => stop,
    }
}

/// Where the first byte past the greatest length stands.
fn limit_of(text: &[u8]) -> Place {
    let mut place = Place { line: 1, column: 1 };
    for byte in text.iter().take(TEXT_BYTES) {
        if *byte == b'\n' {
            place = Place {
                line: place.line.saturating_add(1),
                column: 1,
            };
        } else {
            place.column = place.column.saturating_add(1);
        }
    }
    place
}

/// The refusal of a text that is too long: a fault of syntax in front of its limit, or else the limit.
fn too_long(alloc: Global, text: &[u8]) -> Refusal
    ensures { HasNoTree text.now → RefusesTree text.now result }
{
    let limit = limit_of(text);
    let front = &text[..text.len().min(TEXT_BYTES)];
    let Ok(Scanned { tokens, fault }) = scan(alloc, front) else {
        return Refusal::OutOfMemory;
    };
    match first_stop(alloc, front, tokens.as_slice(), fault.unwrap_or(limit)) {
        Stop::Syntax(place) if place != limit => Refusal::Syntax(place),
        Stop::Memory => Refusal::OutOfMemory,
        Stop::Limit(place) => Refusal::Limit(place),
        Stop::Syntax(_) => Refusal::Limit(limit),
    }
}

/// The tree of a text (C11 5.1.1.2, 6.9): one translation unit of enumerations, `uint64_t` variables and a function `kernel`, of at
/// most 1,048,576 bytes, 4,096 statements, 64 open at once and 2^24 elements.
///
/// # Errors
///
/// A text that has no tree is refused by its first fault of syntax or first limit that is passed, and else by its first fault of
/// names and sorts. Want of memory refuses it too.
#[tactic(auto, using(crate::proofs::ParseLaw::too_long_text))]
pub fn parse(alloc: Global, text: &[u8]) -> Result<Kernel, Refusal>
    ensures ok { IfOk result (λ kernel. ReadsText text.now (kernel_of kernel)) }
    ensures variables { IfOk result (λ kernel. length kernel.variables.items ≤ 2 ^ 20) }
    ensures err { IfErr result (RefusesTree text.now) }
{
    if text.len() > TEXT_BYTES {
        return Err(too_long(alloc, text));
    }
    let Scanned { tokens, fault } = scan(alloc, text)?;
    match fault {
        None => tree(alloc, text, tokens.as_slice(), limit_of(text)),
        Some(end) => Err(refusal_by_stop(first_stop(alloc, text, tokens.as_slice(), end))),
    }
}
