//! What was read before, held while more is read.

ghost use Rattle.std.specs.Prelude.{◌≡◌, Ok, Err, IfOk, IfErr};

use cparse_cursor::stop::Stop;

/// What was read before, and what was read behind it, if it was. Of types that are not known letting go is a call, and is not written out.
pub(crate) fn both<A: Drop, B: Drop>(before: A, behind: Result<B, Stop>) -> Result<(A, B), Stop>
    ensures before { IfOk result (λ r. r.0 ≡ before) }
    ensures behind { IfOk result (λ r. behind ≡ Ok r.1) }
    ensures err { IfErr result (λ stop. behind ≡ Err stop) }
{
    let behind = behind?;
    Ok((before, behind))
}
