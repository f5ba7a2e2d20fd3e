//! Lines, and where a directive begins on its line (OpenMP 5.2, 3.1; C11 6.10.6).

ghost use Rattle.std.specs.Prelude.{◌≡◌, ◌≤◌, true, false, length, MatchOption};
ghost use Rattle.semantics.specs.Source.Text.{first_line, starts_with, behind, skip_blanks, omp_word, pragma_word, is_omp_rest, is_pragma_rest, is_directive_line, behind_omp};

use crate::byte::is_blank;

/// What stands behind the blanks at the front.
pub fn skip_blanks(bytes: &[u8]) -> &[u8]
    ensures { result.now ≡ skip_blanks bytes.now }
{
    for (i, byte) in bytes.iter().enumerate() {
        if !is_blank(*byte) {
            return &bytes[i..];
        }
    }
    &bytes[bytes.len()..]
}

/// The first line, without its line end.
pub fn first_line(bytes: &[u8]) -> &[u8]
    ensures exact { result.now ≡ first_line bytes.now }
    ensures within { length result.now ≤ length bytes.now }
{
    for (i, byte) in bytes.iter().enumerate() {
        if *byte == b'\n' {
            return &bytes[..i];
        }
    }
    bytes
}

/// What stands behind a word at the front.
pub fn behind<'l>(bytes: &'l [u8], word: &[u8]) -> Option<&'l [u8]>
    ensures { MatchOption result (starts_with word.now bytes.now ≡ false)
        (λ rest. (starts_with word.now bytes.now ≡ true) × (rest.now ≡ behind word.now bytes.now)) }
{
    bytes.strip_prefix(word)
}

/// What stands behind blanks and the word `omp`, which ends there.
fn behind_omp_word(bytes: &[u8]) -> Option<&[u8]>
    ensures { MatchOption result (is_omp_rest bytes.now ≡ false)
        (λ rest. (is_omp_rest bytes.now ≡ true)
        × (rest.now ≡ behind omp_word (skip_blanks bytes.now))) }
{
    if !matches!(bytes, [b' ' | b'\t', ..]) {
        return None;
    }
    match behind(skip_blanks(bytes), b"omp") {
        None => None,
        Some(rest) => match rest {
            [] | [b' ' | b'\t', ..] => Some(rest),
            _ => None,
        },
    }
}

/// What stands behind `pragma`, blanks and `omp`.
fn behind_pragma(bytes: &[u8]) -> Option<&[u8]>
    ensures { MatchOption result (is_pragma_rest bytes.now ≡ false)
        (λ rest. (is_pragma_rest bytes.now ≡ true)
        × (rest.now ≡ behind omp_word (skip_blanks (behind pragma_word bytes.now)))) }
{
    match behind(bytes, b"pragma") {
        None => None,
        Some(rest) => behind_omp_word(rest),
    }
}

/// What stands behind `omp`, if the line is an OpenMP directive (OpenMP 5.2, 3.1; C11 6.10.6).
pub fn behind_omp(line: &[u8]) -> Option<&[u8]>
    ensures { MatchOption result (is_directive_line line.now ≡ false)
        (λ rest. (is_directive_line line.now ≡ true) × (rest.now ≡ behind_omp line.now)) }
{
    match skip_blanks(line) {
        [b'#', rest @ ..] => behind_pragma(skip_blanks(rest)),
        _ => None,
    }
}
