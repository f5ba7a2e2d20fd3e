//! A text without its directive lines.

ghost use Rattle.std.specs.Prelude.{◌≡◌, [], ◌++◌, if◌then◌else◌, OnOk, IfOk, IfErr};
ghost use Rattle.semantics.specs.Source.Text.{is_directive_line, erase};
ghost use Rattle.ktree.specs.declared.refusal.Refusal.TheVariants.{OutOfMemory};

use crate::line::is_directive_line;
use ktree::Refusal;
use std::alloc::{AllocError, Global};
use text::first_line;

/// Appends a line, if it is no directive.
fn keep_line(kept: &mut Vec<u8>, line: &[u8]) -> Result<(), AllocError>
    ensures { OnOk result (kept.new.items
        ≡ kept.old.items ++ (if is_directive_line line.now then [] else line.now)) }
{
    if is_directive_line(line) {
        return Ok(());
    }
    kept.extend_from_slice(line)
}

/// The text with the bytes of each directive line dropped and its line end kept.
fn erase_lines(alloc: Global, text: &[u8]) -> Result<Vec<u8>, AllocError>
    ensures { IfOk result (λ kept. kept.items ≡ erase text.now) }
{
    let mut kept = Vec::with_capacity(alloc, text.len())?;
    let mut rest = text;
    loop {
        let line = first_line(rest);
        keep_line(&mut kept, line)?;
        let Some((_line_end, more)) = rest[line.len()..].split_first() else {
            return Ok(kept);
        };
        kept.push(b'\n')?;
        rest = more;
    }
}

/// Appends the text with the bytes of each directive line dropped and its line end kept, whatever the bytes (the text's end
/// ends a line too). Only want of memory refuses it, and then the vector has the same bytes as before.
pub fn erase(alloc: Global, text: &[u8], out: &mut Vec<u8>) -> Result<(), Refusal>
    ensures ok { OnOk result (out.new.items ≡ out.old.items ++ erase text.now) }
    ensures err { IfErr result
        (λ refusal. (refusal ≡ OutOfMemory) × (out.new.items ≡ out.old.items)) }
{
    let kept = erase_lines(alloc, text)?;
    out.extend_from_slice(kept.as_slice())?;
    Ok(())
}
