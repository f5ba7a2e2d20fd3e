//! What a run writes of its variables.

ghost use Rattle.std.specs.Prelude.{◌≡◌, ◌+◌, ◌<◌, ◌^◌, ◌++◌, map, flat_map, IfErr, OnOk};
ghost use Rattle.semantics.specs.Meaning.Output.{dump as dumped};
ghost use Rattle.ktree.specs.View.{declaration_of};
ghost use Rattle.store.specs.Kept.{state_of};
ghost use Rattle.seqrun_io.specs.Told.{AddsBeginning, Holds, Refuses};
ghost use Rattle.seqrun_io.specs.Lines.{HasLengths, value_text, line_of};

use crate::sink::{Sink, put_all};
use itoa::Buffer;
use ktree::{Declaration, Refusal};
use std::alloc::Global;
use store::{Array, Store};

/// So many bytes are held back before they are put.
const HELD: usize = 1 << 16;

// Text that is put in large pieces: adds these bytes behind those that are held.
fn add<S: Sink>(sink: &mut S, held: &mut Vec<u8>, bytes: &[u8]) -> Result<(), Refusal>
    requires { S.failed sink.old + 1 < 2 ^ 64 }
    ensures added { OnOk result (Holds (S.told sink.old) (S.told sink.new) held.new.items
        (held.old.items ++ bytes.now)) }
    ensures beginning { AddsBeginning (S.told sink.old) (S.told sink.new)
        (held.old.items ++ bytes.now) }
    ensures sound { OnOk result (S.failed sink.new ≡ S.failed sink.old) }
    ensures refusal { IfErr result (Refuses (S.failed sink.old) (S.failed sink.new)) }
{
    if held.len() >= HELD {
        put_all(sink, held.as_slice())?;
        held.clear();
    }
    held.extend_from_slice(bytes)?;
    Ok(())
}

// A space and the decimal, for each of these.
fn add_values<S: Sink>(sink: &mut S, held: &mut Vec<u8>, values: &[u64]) -> Result<(), Refusal>
    requires { S.failed sink.old + 1 < 2 ^ 64 }
    ensures added { OnOk result (Holds (S.told sink.old) (S.told sink.new) held.new.items
        (held.old.items ++ flat_map value_text values.now)) }
    ensures beginning { AddsBeginning (S.told sink.old) (S.told sink.new)
        (held.old.items ++ flat_map value_text values.now) }
    ensures sound { OnOk result (S.failed sink.new ≡ S.failed sink.old) }
    ensures refusal { IfErr result (Refuses (S.failed sink.old) (S.failed sink.new)) }
{
    let mut decimal = Buffer::new();
    for value in values {
        add(sink, held, b" ")?;
        add(sink, held, decimal.format(*value).as_bytes())?;
    }
    Ok(())
}

// A variable's line.
fn add_line<S: Sink>(
    sink: &mut S,
    held: &mut Vec<u8>,
    declaration: &Declaration,
    array: &Array<'_>,
) -> Result<(), Refusal>
    requires room { S.failed sink.old + 1 < 2 ^ 64 }
    requires lengths { array.now.lengths ≡ declaration.now.lengths.items }
    ensures added { OnOk result (Holds (S.told sink.old) (S.told sink.new) held.new.items
        (held.old.items ++ line_of (declaration_of declaration.now) array.now)) }
    ensures beginning { AddsBeginning (S.told sink.old) (S.told sink.new)
        (held.old.items ++ line_of (declaration_of declaration.now) array.now) }
    ensures sound { OnOk result (S.failed sink.new ≡ S.failed sink.old) }
    ensures refusal { IfErr result (Refuses (S.failed sink.old) (S.failed sink.new)) }
{
    let values = array.values();
    add(sink, held, declaration.name.as_bytes())?;
    add(sink, held, b" =")?;
    add_values(sink, held, values)?;
    add(sink, held, b"\n")
}

/// Writes a line for each variable, in order of declaration: its name, ` =`, and a space and the decimal for each
/// element row by row.
///
/// The text is put in pieces of about 64 KiB. `OutputFailed` comes where a `put` failed, and else `OutOfMemory`.
pub fn dump<S: Sink>(
    alloc: Global,
    declarations: &[Declaration],
    store: &Store,
    sink: &mut S,
) -> Result<(), Refusal>
    requires room { S.failed sink.old + 1 < 2 ^ 64 }
    requires lengths { HasLengths (map declaration_of declarations.now) store.now }
    ensures all { OnOk result (S.told sink.new
        ≡ S.told sink.old ++ dumped (map declaration_of declarations.now) (state_of store.now)) }
    ensures beginning { AddsBeginning (S.told sink.old) (S.told sink.new)
        (dumped (map declaration_of declarations.now) (state_of store.now)) }
    ensures sound { OnOk result (S.failed sink.new ≡ S.failed sink.old) }
    ensures refusal { IfErr result (Refuses (S.failed sink.old) (S.failed sink.new)) }
{
    let mut held = Vec::new(alloc);
    for (variable, declaration) in declarations.iter().enumerate() {
        let array = store.array(variable);
        add_line(sink, &mut held, declaration, &array)?;
    }
    put_all(sink, held.as_slice())
}
