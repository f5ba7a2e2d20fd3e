//! Bytes by what they may stand in.

ghost use Rattle.std.specs.Prelude.{◌≡◌};
ghost use Rattle.semantics.specs.Source.Text.{is_blank};
ghost use Rattle.semantics.specs.Source.Cuts.{is_digit, is_letter, is_word_byte};

/// Whether a byte is a space or a tab.
pub fn is_blank(byte: u8) -> bool
    ensures { result ≡ is_blank byte }
{
    byte == b' ' || byte == b'\t'
}

/// Whether a byte is a digit (C11 5.2.1).
pub fn is_digit(byte: u8) -> bool
    ensures { result ≡ is_digit byte }
{
    matches!(byte, b'0'..=b'9')
}

/// Whether a byte is a letter (C11 5.2.1).
pub fn is_letter(byte: u8) -> bool
    ensures { result ≡ is_letter byte }
{
    matches!(byte, b'a'..=b'z') || matches!(byte, b'A'..=b'Z')
}

/// Whether a name goes on with a byte: a letter, a digit or `_` (C11 6.4.2.1).
pub fn is_word_byte(byte: u8) -> bool
    ensures { result ≡ is_word_byte byte }
{
    is_letter(byte) || is_digit(byte) || byte == b'_'
}
