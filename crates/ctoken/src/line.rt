//! Lines, and those that begin with `#` (C11 6.10).

ghost use Rattle.std.specs.Prelude.{◌≡◌, ℕ, not, ◌==◌, ◌&&◌, ◌||◌, ◌<◌, length, drop, IfSome, is_none, option_map};
ghost use Rattle.semantics.specs.Source.Text.{skip_blanks, starts_with, behind, is_directive_line};
ghost use Rattle.std.specs.List.{list_all};
ghost use Rattle.ctoken.specs.Front.{hash_line};
ghost use Rattle.ctoken.specs.Meant.{number_of};
ghost use Rattle.ctoken.specs.Pieces.{Gives};
ghost use Rattle.semantics.specs.Source.Cuts.{is_end, header_names, header_number, header_of};

use crate::bytes::Class;
use crate::piece::Piece;
use crate::token::{Header, TokenKind};
use text::{behind, behind_omp, skip_blanks};

/// Whether a line is an OpenMP directive (OpenMP 5.2, 3.1; C11 6.10.6).
pub fn is_directive_line(line: &[u8]) -> bool
    ensures { result ≡ is_directive_line line.now }
{
    behind_omp(line).is_some()
}

/// Whether a word and blanks stand here alone.
fn is_only(bytes: &[u8], word: &[u8]) -> bool
    ensures { result ≡ (starts_with word.now bytes.now
        && is_end (skip_blanks (behind word.now bytes.now))) }
{
    match behind(bytes, word) {
        None => false,
        Some(rest) => skip_blanks(rest).is_empty(),
    }
}

/// The header whose name stands here alone.
fn header(bytes: &[u8]) -> Option<Header>
    ensures { option_map number_of result ≡ header_number 0 header_names bytes.now }
{
    if is_only(bytes, b"<stdint.h>") {
        Some(Header::Stdint)
    } else if is_only(bytes, b"<inttypes.h>") {
        Some(Header::Inttypes)
    } else if is_only(bytes, b"<stdio.h>") {
        Some(Header::Stdio)
    } else {
        None
    }
}

/// The header of an include line (C11 6.10.2).
fn header_of(line: &[u8]) -> Option<Header>
    ensures { option_map number_of result ≡ header_of line.now }
{
    match skip_blanks(line) {
        [b'#', rest @ ..] => {
            let rest = behind(skip_blanks(rest), b"include")?;
            header(skip_blanks(rest))
        }
        _ => None,
    }
}

/// Where a `#` or a backslash stands behind the first byte, if one does.
fn stray(bytes: &[u8]) -> Option<usize>
    ensures none { is_none result
        ≡ list_all (λ b. not ((b == 35) || (b == 92))) (drop 1 bytes.now) }
    ensures within { IfSome result (λ at. at < length bytes.now) }
{
    let Some((_first, rest)) = bytes.split_first() else {
        return None;
    };
    for (i, byte) in rest.iter().enumerate() {
        if *byte == b'#' || *byte == b'\\' {
            return Some(i + 1);
        }
    }
    None
}

/// The token of a line that begins with `#`, or where it is at fault: at its `#` where it is neither a directive nor an
/// include line, and in a directive at a further `#` or a backslash.
pub fn hash_line(line: &[u8]) -> Result<Piece, usize>
    ensures { (n : ℕ) → Gives line.now result (hash_line n line.now) }
{
    let body = skip_blanks(line);
    let blanks = Class::Blank.run(line);
    if is_directive_line(line) {
        return match stray(body) {
            None => Ok(Piece::Token(TokenKind::Line, blanks, body.len())),
            Some(at) => Err(blanks + at),
        };
    }
    match header_of(line) {
        None => Err(blanks),
        Some(header) => Ok(Piece::Token(TokenKind::Include(header), blanks, body.len())),
    }
}
