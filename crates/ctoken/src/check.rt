//! What tokens must meet beside the cut: the text's bytes, its include lines, and the places of numbers in strings.

ghost use Rattle.std.specs.Prelude.{ℕ, ◌≡◌, ◌==◌, ◌||◌, true, false, not, nat_eq, List, [], ◌∷◌, Some, codes, is_none, MatchOption};
ghost use Rattle.std.specs.List.{list_all, list_any};
ghost use Rattle.semantics.specs.Source.Text.{starts_with};
ghost use Rattle.semantics.specs.Source.Cuts.{is_printable, has_trigraph};
ghost use Rattle.ctoken.specs.Checks.{AreIncluded, is_place, places_from, headers_from};
ghost use Rattle.ctoken.specs.Meant.{number_of};

use crate::bytes::is_printable;
use crate::token::{Header, Token, TokenKind};
use text::behind;

/// The first byte that a text may not hold (C11 5.2.1).
pub fn unfit_byte(text: &[u8]) -> Option<usize>
    ensures { is_none result ≡ list_all (λ b. is_printable b || ((b == 9) || (b == 10))) text.now }
{
    for (i, byte) in text.iter().enumerate() {
        if !(is_printable(*byte) || *byte == b'\t' || *byte == b'\n') {
            return Some(i);
        }
    }
    None
}

/// Whether two question marks stand here.
fn begins_trigraph(bytes: &[u8]) -> bool
    ensures { result ≡ starts_with (codes "??") bytes.now }
{
    matches!(bytes, [b'?', b'?', ..])
}

/// The first two question marks next to each other, which would begin a trigraph (C11 5.2.1.1).
pub fn trigraph(text: &[u8]) -> Option<usize>
    ensures { is_none result ≡ not (has_trigraph text.now) }
{
    for i in 0..text.len() {
        if begins_trigraph(&text[i..]) {
            return Some(i);
        }
    }
    None
}

/// Which headers were included.
#[derive(Clone, Copy)]
struct Included {
    stdint: bool,
    inttypes: bool,
    stdio: bool,
}

impl Included {
    /// With one more header, if it is not there.
    fn with(self, header: Header) -> Option<Included>
        ensures { (seen : List ℕ) → AreIncluded self seen
            → MatchOption result (list_any (nat_eq (number_of header)) seen ≡ true)
            (λ more. (list_any (nat_eq (number_of header)) seen ≡ false)
            × AreIncluded more (number_of header ∷ seen)) }
    {
        match header {
            Header::Stdint if !self.stdint => Some(Included {
                stdint: true,
                ..self
            }),
            Header::Inttypes if !self.inttypes => Some(Included {
                inttypes: true,
                ..self
            }),
            Header::Stdio if !self.stdio => Some(Included {
                stdio: true,
                ..self
            }),
            _ => None,
        }
    }
}

/// The first include line behind another token, or that names a header again.
pub fn misplaced_include(tokens: &[Token]) -> Option<usize>
    ensures { is_none result ≡ headers_from (Some []) tokens.now }
{
    let mut leading = Some(Included {
        stdint: false,
        inttypes: false,
        stdio: false,
    });
    for token in tokens {
        leading = match (token.kind, leading) {
            (TokenKind::Include(header), Some(included)) => match included.with(header) {
                Some(more) => Some(more),
                None => return Some(token.start),
            },
            (TokenKind::Include(_), None) => return Some(token.start),
            _ => None,
        };
    }
    None
}

/// Whether a token is the word `PRIu64` (C11 7.8.1).
fn is_place(text: &[u8], token: Token) -> bool
    ensures { result ≡ is_place text.now token }
{
    matches!(token.kind, TokenKind::Identifier)
        && token.length == 6
        && token.start <= text.len()
        && behind(&text[token.start..], b"PRIu64").is_some()
}

/// The first token behind a string that ends in a single `%` that is not `PRIu64`, or the text's end.
pub fn missing_place(text: &[u8], tokens: &[Token]) -> Option<usize>
    ensures { is_none result ≡ places_from false text.now tokens.now }
{
    let mut is_due = false;
    for token in tokens {
        if is_due && !is_place(text, *token) {
            return Some(token.start);
        }
        is_due = matches!(token.kind, TokenKind::StringLiteral(true));
    }
    if is_due { Some(text.len()) } else { None }
}
