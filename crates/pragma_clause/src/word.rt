//! The words of a directive line behind its `omp`.

ghost use Rattle.std.specs.Prelude.{◌≡◌, ◌≤◌, ◌∷◌, [], List, length, MatchOption, option_map};
ghost use Rattle.semantics.specs.Source.Token as meant;
ghost use Rattle.semantics.specs.Directives.DirectiveGrammar.{words, ends_run};
ghost use Rattle.pragma_clause.specs.Words.{token_of, symbol_of, symbol_at, run_length};

use text::{is_blank, skip_blanks};

/// One of the four signs that are words of their own.
#[derive(Clone, Copy, PartialEq, Eq)]
pub enum Punctuator {
    OpenParen,
    CloseParen,
    Comma,
    Colon,
}

/// A word of a directive line: a sign, or the longest run of bytes between signs and blanks.
#[derive(Clone, Copy)]
pub enum Word<'l> {
    Run(&'l [u8]),
    Punctuator(Punctuator),
}

/// The sign that a byte is.
fn sign_at(byte: u8) -> Option<Punctuator>
    ensures { option_map symbol_of result ≡ symbol_at byte }
{
    match byte {
        b'(' => Some(Punctuator::OpenParen),
        b')' => Some(Punctuator::CloseParen),
        b',' => Some(Punctuator::Comma),
        b':' => Some(Punctuator::Colon),
        _ => None,
    }
}

/// Whether a byte ends a run: a blank or a sign.
fn ends_run(byte: u8) -> bool
    ensures { result ≡ ends_run byte }
{
    is_blank(byte) || matches!(byte, b'(' | b')' | b',' | b':')
}

/// How many bytes stand before the first blank or sign.
fn run_length(bytes: &[u8]) -> usize
    ensures exact { result ≡ run_length bytes.now }
    ensures within { result ≤ length bytes.now }
{
    for (i, byte) in bytes.iter().enumerate() {
        if ends_run(*byte) {
            return i;
        }
    }
    bytes.len()
}

/// The first word, and what stands behind it.
pub fn next_word(text: &[u8]) -> Option<(Word<'_>, &[u8])>
    ensures { MatchOption result (words text.now ≡ [])
        (λ next. words text.now ≡ token_of next.0 ∷ words next.1.now) }
{
    let text = skip_blanks(text);
    let Some((first, behind)) = text.split_first() else {
        return None;
    };
    if let Some(sign) = sign_at(*first) {
        return Some((Word::Punctuator(sign), behind));
    }
    let (run, behind) = text.split_at(run_length(text));
    Some((Word::Run(run), behind))
}
