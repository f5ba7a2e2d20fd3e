//! Bytes by what they may stand in.

ghost use Rattle.std.specs.Prelude.{◌≡◌, ◌≤◌, length};
ghost use Rattle.semantics.specs.Source.Cuts.{is_printable};
ghost use Rattle.ctoken.specs.Front.{run};
ghost use Rattle.ctoken.specs.Classes.{class_test};

use text::{is_blank, is_digit, is_word_byte};

/// Bytes that go on with one another.
#[derive(Clone, Copy)]
pub enum Class {
    Blank,
    Digit,
    /// What a name goes on with (C11 6.4.2.1).
    Word,
    /// What a comment may hold: no line end, and no backslash.
    Comment,
}

/// Whether a byte prints in ASCII, the space among them.
pub fn is_printable(byte: u8) -> bool
    ensures { result ≡ is_printable byte }
{
    matches!(byte, b' '..=b'~')
}

impl Class {
    /// Whether a byte is of the class.
    pub fn has(self, byte: u8) -> bool
        ensures { result ≡ class_test self byte }
    {
        match self {
            Class::Blank => is_blank(byte),
            Class::Digit => is_digit(byte),
            Class::Word => is_word_byte(byte),
            Class::Comment => byte != b'\n' && byte != b'\\',
        }
    }

    /// How many bytes of the class stand at the front.
    pub fn run(self, bytes: &[u8]) -> usize
        ensures exact { result ≡ run (class_test self) bytes.now }
        ensures within { result ≤ length bytes.now }
    {
        for (i, byte) in bytes.iter().enumerate() {
            if !self.has(*byte) {
                return i;
            }
        }
        bytes.len()
    }
}
