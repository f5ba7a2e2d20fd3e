//! A text's tokens, and where it is at fault.

ghost use Rattle.std.specs.Prelude.{◌≡◌, ◌&&◌, IfOk, IfErr, MatchOption, is_none};
ghost use Rattle.ctoken.specs.Meant.{AreTokensOf, LieIn, HasNoTokens, RefusesText};
ghost use Rattle.ctoken.specs.Checks.{passes};

use crate::check::{misplaced_include, missing_place, trigraph, unfit_byte};
use crate::cut::{Cut, cut_text, place};
use crate::list::Tokens;
use crate::token::Token;
use ktree::{Place, Refusal};
use std::alloc::{AllocError, Global};

/// The tokens of a text in front of its first fault, and that fault's place.
#[derive(Drop)]
pub struct Scanned {
    pub tokens: Tokens,
    pub fault: Option<Place>,
}

/// The smaller of two numbers, where they are there.
fn earlier(a: Option<usize>, b: Option<usize>) -> Option<usize>
    ensures { is_none result ≡ (is_none a && is_none b) }
{
    match (a, b) {
        (Some(a), Some(b)) => Some(a.min(b)),
        (Some(a), None) => Some(a),
        (None, b) => b,
    }
}

/// The first place where a check beside the cut fails.
fn first_failure(text: &[u8], tokens: &[Token]) -> Option<usize>
    ensures { is_none result ≡ passes text.now tokens.now }
{
    let of_tokens = earlier(misplaced_include(tokens), missing_place(text, tokens));
    earlier(unfit_byte(text), earlier(trigraph(text), of_tokens))
}

/// The place of a byte of a text.
fn place_of(text: &[u8], at: usize) -> Place {
    let mut line = 1usize;
    let mut line_start = 0;
    for (i, byte) in text.iter().enumerate() {
        if i < at && *byte == b'\n' {
            line = line.saturating_add(1);
            line_start = i + 1;
        }
    }
    place(line, at.saturating_sub(line_start).saturating_add(1))
}

/// How many tokens end at this byte at the latest.
fn count_before(tokens: &[Token], at: usize) -> usize {
    tokens
        .iter()
        .take_while(|token| token.start.saturating_add(token.length) <= at)
        .count()
}

/// The tokens of a text by C11 5.1.1.2 and 6.4, up to its first fault.
pub fn scan(alloc: Global, text: &[u8]) -> Result<Scanned, AllocError>
    ensures cut { IfOk result (λ scanned. MatchOption scanned.fault
        (AreTokensOf text.now scanned.tokens) (λ place. HasNoTokens text.now)) }
    ensures lie { IfOk result (λ scanned. LieIn text.now scanned.tokens) }
{
    let Cut { mut tokens, fault } = cut_text(alloc, text)?;
    match earlier(fault, first_failure(text, tokens.as_slice())) {
        None => Ok(Scanned {
            tokens: Tokens::new(tokens),
            fault: None,
        }),
        Some(at) => {
            tokens.truncate(count_before(tokens.as_slice(), at));
            Ok(Scanned {
                tokens: Tokens::new(tokens),
                fault: Some(place_of(text, at)),
            })
        }
    }
}

/// The tokens of a text by C11 5.1.1.2 and 6.4, literals being of any size. A text that has none is refused by
/// `Refusal::Syntax` at its first fault: the first byte that does not fit, but for an open block comment its `/*`, for a line
/// that begins with `#` and is neither a directive nor an include line that `#`, for an escape its backslash. Want of memory
/// refuses it too.
pub fn tokens(alloc: Global, text: &[u8]) -> Result<Tokens, Refusal>
    ensures ok { IfOk result (AreTokensOf text.now) }
    ensures err { IfErr result (RefusesText text.now) }
{
    let Scanned { tokens, fault } = scan(alloc, text)?;
    match fault {
        None => Ok(tokens),
        Some(place) => Err(Refusal::Syntax(place)),
    }
}
