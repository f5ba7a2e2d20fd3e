//! Copies of canonical loops.

ghost use Rattle.std.specs.Prelude.{◌≡◌, IfOk, IfErr};
ghost use Rattle.affine_expr.specs.declared.faults.Fault.TheVariants.{OutOfMemory};

use affine_expr::Fault;
use nest_loop::Canonical;

/// A canonical loop once more.
///
/// # Errors
///
/// `OutOfMemory`.
pub fn copy_of(canonical: &Canonical) -> Result<Canonical, Fault>
    ensures ok { IfOk result (λ copy. copy ≡ canonical.now) }
    ensures err { IfErr result (λ fault. fault ≡ OutOfMemory) }
{
    let copy = canonical.clone()?;
    Ok(copy)
}
