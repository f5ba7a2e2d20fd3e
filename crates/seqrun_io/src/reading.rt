//! How an input is read.

ghost use Rattle.std.specs.Prelude.{◌≡◌, ◌==◌, ◌+◌, ◌^◌, ◌≤◌, [], false, length, map, count_by, IfOk, IfErr, MatchOption};
ghost use Rattle.std.specs.List.{list_all};
ghost use Rattle.semantics.specs.Meaning.InputFault.{is_formed as formed, is_value};
ghost use Rattle.ktree.specs.View.{declaration_of};
ghost use Rattle.seqrun_io.specs.Reading.{words_behind, IsBefore, StartsWithSpace, value_of_word, AreRead, ArePlaces, IsRight, IsFault, AreVariables, ArePositive, kept_from, IsStart, RefusesInput, refused};
ghost use Rattle.semantics.specs.Meaning.Places.{size};
ghost use Rattle.semantics.specs.Source.Grammar.{elements};

use ktree::{Cause, Declaration, InputFault, Refusal, VarId};
use std::alloc::{AllocError, Global};
use std::collections::BTreeMap;
use store::{Shape, Store};

/// Why a line is not read.
#[derive(Clone, Copy, Debug, PartialEq, Eq)]
pub(crate) enum Fault {
    Line(Cause),
    Memory,
}

impl From<AllocError> for Fault {
    ghost use Rattle.seqrun_io.specs.declared.reading.Fault.TheVariants.{Memory};

    ghost from_gives = { λ _ fault. fault ≡ Memory };

    fn from(_error: AllocError) -> Fault {
        Fault::Memory
    }
}

// What a fault of the line of this number is refused by.
fn refusal_at(fault: Fault, line: u64) -> Refusal
    ensures { result ≡ refused fault line }
{
    match fault {
        Fault::Line(cause) => Refusal::Input(InputFault { line, cause }),
        Fault::Memory => Refusal::OutOfMemory,
    }
}

// Printable bytes alone, and single spaces between words.
fn is_formed(line: &[u8]) -> bool
    ensures { result ≡ formed line.now }
{
    let mut fresh = true;
    for byte in line {
        if *byte == b' ' {
            if fresh {
                return false;
            }
            fresh = true;
        } else {
            if !(b' '..=b'~').contains(byte) {
                return false;
            }
            fresh = false;
        }
    }
    !fresh
}

// How many bytes stand in front of the first such byte, or all.
fn length_before(bytes: &[u8], mark: u8) -> usize
    ensures { IsBefore mark bytes.now result }
{
    for (i, byte) in bytes.iter().enumerate() {
        if *byte == mark {
            return i;
        }
    }
    bytes.len()
}

// The number that a word is: `0`, or a decimal without leading zeros, below 2^64.
fn value_of(word: &[u8]) -> Option<u64>
    ensures { result ≡ value_of_word word.now }
{
    if word.is_empty() || (1 < word.len() && word[0] == b'0') {
        return None;
    }
    let mut value = 0u64;
    for byte in word {
        if *byte < b'0' || b'9' < *byte {
            return None;
        }
        value = value.checked_mul(10)?.checked_add(u64::from(*byte - b'0'))?;
    }
    Some(value)
}

// How many spaces there are.
fn spaces(text: &[u8]) -> usize
    ensures { result ≡ count_by (λ b. b == 32) text.now }
{
    text.iter().filter(|byte| **byte == b' ').count()
}

// The values behind a name, each behind a space, or none where a word is no number.
fn read_values(alloc: Global, text: &[u8]) -> Result<Option<Vec<u64>>, AllocError>
    requires { StartsWithSpace text.now }
    ensures { IfOk result (λ read. MatchOption read
        (list_all is_value (words_behind text.now) ≡ false)
        (λ values. AreRead text.now values.items)) }
{
    let mut values = Vec::new(alloc);
    let mut rest = text;
    while let Some((_, words)) = rest.split_first() {
        let (word, behind) = words.split_at(length_before(words, b' '));
        let Some(value) = value_of(word) else {
            return Ok(None);
        };
        values.push(value)?;
        rest = behind;
    }
    Ok(Some(values))
}

// How many elements an array of these lengths has.
fn size_of(lengths: &[u64]) -> u64
    requires positive { ArePositive lengths.now }
    requires few { size lengths.now ≤ 2 ^ 24 }
    ensures { result ≡ size lengths.now }
{
    let mut product = 1;
    for length in lengths {
        product *= *length;
    }
    product
}

// The place of each declaration by its name. The last is put down first, so that of two of a name
// the first stays.
fn places_of<'d>(
    alloc: Global,
    declarations: &'d [Declaration],
) -> Result<BTreeMap<&'d [u8], usize>, AllocError>
    ensures { IfOk result (ArePlaces (map declaration_of declarations.now)) }
{
    let mut places = BTreeMap::new(alloc);
    let mut rest = declarations;
    while let Some((declaration, front)) = rest.split_last() {
        places.insert(declaration.name.as_bytes(), front.len())?;
        rest = front;
    }
    Ok(places)
}

// A line, without its end: its variable, which had none so far, and its values.
fn read_line(
    alloc: Global,
    declarations: &[Declaration],
    places: &BTreeMap<&[u8], usize>,
    seen: &[bool],
    line: &[u8],
) -> Result<(usize, Vec<u64>), Fault>
    requires named { AreVariables (map declaration_of declarations.now) }
    requires few { elements (map declaration_of declarations.now) ≤ 2 ^ 24 }
    requires places { ArePlaces (map declaration_of declarations.now) places.now }
    requires count { length seen.now ≡ length declarations.now }
    ensures right { IfOk result (λ read. IsRight (map declaration_of declarations.now) seen.now
        line.now read.0 read.1.items) }
    ensures fault { IfErr result (IsFault (map declaration_of declarations.now) seen.now line.now) }
{
    if !is_formed(line) {
        return Err(Fault::Line(Cause::Form));
    }
    let (name, text) = line.split_at(length_before(line, b' '));
    let Some(variable) = places.get(name).copied() else {
        return Err(Fault::Line(Cause::Name));
    };
    if seen[variable] {
        return Err(Fault::Line(Cause::Twice));
    }
    if spaces(text) != size_of(declarations[variable].lengths.as_slice()) as usize {
        return Err(Fault::Line(Cause::Count));
    }
    match read_values(alloc, text)? {
        Some(values) => Ok((variable, values)),
        None => Err(Fault::Line(Cause::Number)),
    }
}

// The variables, each element 0.
fn zeros(alloc: Global, declarations: &[Declaration]) -> Result<Store, AllocError>
    requires named { AreVariables (map declaration_of declarations.now) }
    requires few { elements (map declaration_of declarations.now) ≤ 2 ^ 24 }
    ensures { IfOk result (λ store. store ≡ kept_from 0 (map declaration_of declarations.now) []) }
{
    let mut shapes = Vec::with_capacity(alloc, declarations.len())?;
    for declaration in declarations {
        let lengths = Vec::from_slice(alloc, declaration.lengths.as_slice())?;
        let count = size_of(declaration.lengths.as_slice());
        shapes.push(Shape { lengths, count })?;
    }
    Store::zeros(alloc, shapes)
}

/// Reads an input: a line `NAME V1 V2 ..` for each variable that it names, its values row by row; the others are 0.
///
/// `Input` names the first faulty line, from 1, and its first cause, and else `OutOfMemory` comes.
pub fn input(alloc: Global, declarations: &[Declaration], bytes: &[u8]) -> Result<Store, Refusal>
    requires named { AreVariables (map declaration_of declarations.now) }
    requires few { elements (map declaration_of declarations.now) ≤ 2 ^ 24 }
    ensures start { IfOk result (IsStart (map declaration_of declarations.now) bytes.now) }
    ensures refusal { IfErr result (RefusesInput (map declaration_of declarations.now) bytes.now) }
{
    let places = places_of(alloc, declarations)?;
    let mut store = zeros(alloc, declarations)?;
    let mut seen = Vec::from_elem(alloc, false, declarations.len())?;
    let mut rest = bytes;
    let mut line = 1u64;
    while !rest.is_empty() {
        let (front, behind) = rest.split_at(length_before(rest, b'\n'));
        let Some((_, further)) = behind.split_first() else {
            let cause = Cause::Form;
            return Err(Refusal::Input(InputFault { line, cause }));
        };
        let read = read_line(alloc, declarations, &places, seen.as_slice(), front);
        let (variable, values) = match read {
            Ok(read) => read,
            Err(fault) => return Err(refusal_at(fault, line)),
        };
        seen[variable] = true;
        store.write(VarId(variable as u32), 0, values.as_slice());
        rest = further;
        line += 1;
    }
    Ok(store)
}
