//! Parts of a tree, put into boxes by functions that know no type of them: letting go of one is then a call, and is not written out.

ghost use Rattle.std.specs.Prelude.{◌≡◌, ◌∷◌, ◌++◌, [], Ok, IfOk, IfErr, OnOk};
ghost use Rattle.cparse_cursor.specs.declared.stop.Stop.TheVariants.{Memory};

use cparse_cursor::stop::Stop;
use std::alloc::Global;

/// Two parts in boxes.
pub(crate) fn box_both<A: Drop, B: Drop>(
    alloc: Global,
    a: A,
    b: B,
) -> Result<(Box<A>, Box<B>), Stop>
    ensures first { IfOk result (λ r. r.0.value ≡ a) }
    ensures second { IfOk result (λ r. r.1.value ≡ b) }
    ensures err { IfErr result (λ stop. stop ≡ Memory) }
{
    let a = Box::new(alloc, a)?;
    let b = Box::new(alloc, b)?;
    Ok((a, b))
}

/// Two parts, if memory ran out for neither.
pub(crate) fn both<A: Drop, B: Drop>(a: Result<A, Stop>, b: Result<B, Stop>) -> Result<(A, B), Stop>
    requires first { IfErr a (λ stop. stop ≡ Memory) }
    requires second { IfErr b (λ stop. stop ≡ Memory) }
    ensures first { IfOk result (λ r. a ≡ Ok r.0) }
    ensures second { IfOk result (λ r. b ≡ Ok r.1) }
    ensures err { IfErr result (λ stop. stop ≡ Memory) }
{
    let a = a?;
    let b = b?;
    Ok((a, b))
}

/// One more part behind others. The first takes room for itself alone, since most lists of a tree have one.
pub(crate) fn add_part<T: Drop>(parts: &mut Vec<T>, part: T) -> Result<(), Stop>
    ensures added { OnOk result (parts.new.items ≡ parts.old.items ++ part ∷ []) }
    ensures err { IfErr result (λ stop. stop ≡ Memory) }
{
    if parts.is_empty() {
        parts.reserve_exact(1)?;
    }
    parts.push(part)?;
    Ok(())
}
