//! The elements of a sink's vector (OpenMP 5.2, 15.9.6).

ghost use Rattle.std.specs.Prelude.{◌≡◌, ◌≤◌, length, option_map};
ghost use Rattle.semantics.specs.Directives.DirectiveGrammar.{words};
ghost use Rattle.ktree.specs.View.{suffix_of};
ghost use Rattle.ktree.specs.DirectiveView.{offset_of};
ghost use Rattle.pragma_clause.specs.DirectiveReader.{digits_length, suffix_in, value_in, literal_in, sign_at, offset_in, element_in, element, vector};
ghost use Rattle.pragma_clause.specs.Outcome.{Gives};
ghost use Rattle.pragma_clause.specs.Views.{with_rest, written_element, elements_of};

use crate::name::{Setting, name_in, place_of};
use crate::tokens::{is_word, punctuator, run};
use crate::unread::Unread;
use crate::word::Punctuator;
use ktree::{Offset, SinkElement, Suffix, Written};
use text::{is_decimal, is_digit, value};

/// How many digits stand at the front.
fn digits_length(bytes: &[u8]) -> usize
    ensures exact { result ≡ digits_length bytes.now }
    ensures within { result ≤ length bytes.now }
{
    for (i, byte) in bytes.iter().enumerate() {
        if !is_digit(*byte) {
            return i;
        }
    }
    bytes.len()
}

/// How many bytes stand before the first sign.
fn sign_at(bytes: &[u8]) -> usize
    ensures exact { result ≡ sign_at bytes.now }
    ensures within { result ≤ length bytes.now }
{
    for (i, byte) in bytes.iter().enumerate() {
        if *byte == b'+' || *byte == b'-' {
            return i;
        }
    }
    bytes.len()
}

/// The suffix of a literal that all of a text is (C11 6.4.4.1).
fn suffix_in(bytes: &[u8]) -> Option<Suffix>
    ensures { option_map suffix_of result ≡ suffix_in bytes.now }
{
    if is_word(bytes, b"") {
        return Some(Suffix::Bare);
    }
    if is_word(bytes, b"ull") {
        return Some(Suffix::Ull);
    }
    None
}

/// The value of a literal of these digits, where its suffix has one so great (C11 6.4.4.1).
fn value_in(digits: &[u8], suffix: Suffix) -> Option<u64>
    ensures { result ≡ value_in digits.now (suffix_of suffix) }
{
    if !is_decimal(digits) {
        return None;
    }
    let value = value(digits)?;
    match suffix {
        Suffix::Bare if value >= 1 << 31 => None,
        _ => Some(value),
    }
}

/// The value of a literal.
fn literal_in(bytes: &[u8]) -> Option<u64>
    ensures { result ≡ literal_in bytes.now }
{
    let (digits, rest) = bytes.split_at(digits_length(bytes));
    value_in(digits, suffix_in(rest)?)
}

/// A sign and a literal, or nothing, as an offset.
fn offset_in(bytes: &[u8]) -> Option<Offset>
    ensures { option_map offset_of result ≡ offset_in bytes.now }
{
    match bytes {
        [] => Some(Offset::Forward(0)),
        [sign, rest @ ..] => {
            let iterations = literal_in(rest)?;
            if *sign == b'+' {
                Some(Offset::Forward(iterations))
            } else {
                Some(Offset::Back(iterations))
            }
        }
    }
}

/// The element that a word is, which ends before the rest of a line.
fn element_in(setting: Setting, word: &[u8], rest: &[u8]) -> Result<SinkElement<Written>, Unread>
    ensures { Gives written_element result (element_in word.now) }
{
    let place = place_of(setting, word, rest);
    let (front, behind) = word.split_at(sign_at(word));
    let variable = name_in(setting.alloc, front, place)?;
    match offset_in(behind) {
        Some(offset) => Ok(SinkElement { variable, offset }),
        None => Err(Unread::Malformed),
    }
}

/// The element that comes next, and what stands behind it.
fn element<'l>(setting: Setting, text: &'l [u8]) -> Result<(SinkElement<Written>, &'l [u8]), Unread>
    ensures { Gives (with_rest written_element) result (element (words text.now)) }
{
    let Some((word, rest)) = run(text) else {
        return Err(Unread::Malformed);
    };
    let element = element_in(setting, word, rest)?;
    Ok((element, rest))
}

/// Elements with commas between them, and what stands behind them.
pub fn vector<'l>(
    setting: Setting,
    text: &'l [u8],
) -> Result<(Vec<SinkElement<Written>>, &'l [u8]), Unread>
    ensures { Gives (with_rest elements_of) result (vector setting.length (words text.now)) }
{
    let mut elements = Vec::new(setting.alloc);
    let mut rest = text;
    for _turn in 0..setting.length {
        let (element, behind) = element(setting, rest)?;
        elements.push(element)?;
        let Some(next) = punctuator(Punctuator::Comma, behind) else {
            return Ok((elements, behind));
        };
        rest = next;
    }
    Err(Unread::Malformed)
}
