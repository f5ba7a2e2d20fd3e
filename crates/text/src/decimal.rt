//! Decimal numbers (C11 6.4.4.1).

ghost use Rattle.std.specs.Prelude.{◌≡◌, ◌<◌, ◌^◌};
ghost use Rattle.std.specs.Option.{SomeIff};
ghost use Rattle.semantics.specs.Source.Cuts.{is_digit, is_decimal, decimal_from};
ghost use Rattle.std.specs.List.{list_all};

use crate::byte::is_digit;

/// Whether all bytes are digits.
fn are_digits(bytes: &[u8]) -> bool
    ensures { result ≡ list_all is_digit bytes.now }
{
    bytes.iter().all(|byte| is_digit(*byte))
}

/// Whether a word is `0`, or digits of which the first is not `0` (C11 6.4.4.1).
pub fn is_decimal(word: &[u8]) -> bool
    ensures { result ≡ is_decimal word.now }
{
    match word {
        [] => false,
        [digit] => is_digit(*digit),
        [first, rest @ ..] => is_digit(*first) && *first != b'0' && are_digits(rest),
    }
}

/// The value of decimal digits, if it is below 2^64.
pub fn value(digits: &[u8]) -> Option<u64>
    ensures { SomeIff result (decimal_from 0 digits.now < 2 ^ 64) (decimal_from 0 digits.now) }
{
    let mut value = 0u64;
    for digit in digits {
        let digit = u64::from(digit.saturating_sub(b'0'));
        value = value.checked_mul(10)?.checked_add(digit)?;
    }
    Some(value)
}
