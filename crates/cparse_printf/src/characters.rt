//! What the bytes of a string literal stand for (C11 5.2.2, 6.4.5).

ghost use Rattle.std.specs.Prelude.{◌≡◌, false, Some};
ghost use Rattle.ctoken.specs.Front.{spelled};
ghost use Rattle.cparse_cursor.specs.Outcome.{Gives};

use cparse_cursor::stop::Stop;
use std::alloc::Global;

/// The characters between the quotes: each escape's byte, `%` for `%%`, and a single `%` at the end left out.
pub fn characters(alloc: Global, bytes: &[u8]) -> Result<Vec<u8>, Stop>
    ensures { Gives (λ characters. characters.items) result (Some (spelled false bytes.now)) }
{
    let mut characters = Vec::new(alloc);
    let mut escaped = false;
    for byte in bytes {
        if escaped {
            characters.push(if *byte == b'n' { b'\n' } else { *byte })?;
            escaped = false;
        } else if *byte == b'\\' || *byte == b'%' {
            escaped = true;
        } else {
            characters.push(*byte)?;
        }
    }
    Ok(characters)
}
