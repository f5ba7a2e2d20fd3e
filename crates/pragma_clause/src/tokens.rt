//! What comes next on a line.

ghost use Rattle.std.specs.Prelude.{◌≡◌, option_map};
ghost use Rattle.semantics.specs.Source.Cuts.{symbol_text};
ghost use Rattle.semantics.specs.Source.Scope.{same_name};
ghost use Rattle.semantics.specs.Directives.DirectiveGrammar.{words};
ghost use Rattle.cparse_grammar.specs.NextTokens.{punctuator, word};
ghost use Rattle.pragma_clause.specs.ClauseReader.{run, is_end};
ghost use Rattle.pragma_clause.specs.Views.{with_rest};
ghost use Rattle.pragma_clause.specs.Words.{symbol_of};

use crate::word::{Punctuator, Word, next_word};

/// Whether two words are the same.
pub fn is_word(word: &[u8], other: &[u8]) -> bool
    ensures { result ≡ same_name word.now other.now }
{
    word == other
}

/// Whether no word is left.
pub fn is_end(text: &[u8]) -> bool
    ensures { result ≡ is_end (words text.now) }
{
    next_word(text).is_none()
}

/// The run of bytes that comes next, and what stands behind it.
pub fn run(text: &[u8]) -> Option<(&[u8], &[u8])>
    ensures { option_map (with_rest (λ word. word.now)) result ≡ run (words text.now) }
{
    match next_word(text)? {
        (Word::Run(word), rest) => Some((word, rest)),
        (Word::Punctuator(_), _) => None,
    }
}

/// What stands behind this word, if it comes next.
pub fn word<'l>(expected: &[u8], text: &'l [u8]) -> Option<&'l [u8]>
    ensures { option_map (λ rest. words rest.now) result ≡ word expected.now (words text.now) }
{
    let (found, rest) = run(text)?;
    if is_word(found, expected) {
        Some(rest)
    } else {
        None
    }
}

/// Whether two punctuators are the same.
fn is_punctuator(one: Punctuator, other: Punctuator) -> bool
    ensures { result
        ≡ same_name (symbol_text (symbol_of one)) (symbol_text (symbol_of other)) }
{
    one == other
}

/// What stands behind this punctuator, if it comes next.
pub fn punctuator(expected: Punctuator, text: &[u8]) -> Option<&[u8]>
    ensures { option_map (λ rest. words rest.now) result
        ≡ punctuator (symbol_of expected) (words text.now) }
{
    match next_word(text)? {
        (Word::Punctuator(found), rest) if is_punctuator(found, expected) => Some(rest),
        _ => None,
    }
}
