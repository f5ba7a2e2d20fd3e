//! Sinks that take bytes, inputs that are read, and outputs that are written.

ghost use Rattle.std.specs.Prelude.{◌≡◌, ◌+◌, ◌<◌, ◌≤◌, ◌^◌, [], ◌∷◌, codes, map, IfOk};
ghost use Rattle.ktree.specs.View.{declaration_of};

use crate::stores::one_array;
use ktree::{Cause, Declaration, InputFault, Place, Refusal};
use seqrun_io::{Memory, Sink, Writer, dump, input, put_all};
use std::alloc::{AllocError, Global};
use std::io::{Error, ErrorKind, Write};

/// A writer that takes one byte a call, and fails at a call.
#[derive(Drop)]
struct OneByte {
    calls: usize,
    failing: usize,
}

impl Write for OneByte {
    fn write(&mut self, buf: &[u8]) -> std::io::Result<usize> {
        self.calls = self.calls.wrapping_add(1);
        if self.calls == self.failing {
            return Err(Error::from(ErrorKind::Other));
        }
        Ok(buf.len().min(1))
    }

    fn flush(&mut self) -> std::io::Result<()> {
        Ok(())
    }
}

/// The number of a refusal, or 0.
fn number_of(answer: Result<(), Refusal>) -> u8 {
    match answer {
        Ok(()) => 0,
        Err(refusal) => refusal.number(),
    }
}

/// The number of the refusal of bytes that are put, or 0, and how often the sink has failed then.
fn put<S: Sink>(sink: &mut S, bytes: &[u8]) -> (u8, u64)
    requires { S.failed sink.old + 1 < 2 ^ 64 }
    ensures { S.failed sink.new ≤ S.failed sink.old + 1 }
{
    let number = number_of(put_all(sink, bytes));
    (number, sink.failures())
}

#[test]
fn puts_all_bytes_one_by_one(rt: HostRuntime) {
    let mut sink = Writer::new(OneByte {
        calls: 0,
        failing: 9,
    });
    assert!(rt; put(&mut sink, b"A = 1 2\n") == (0, 0));
    assert!(rt; put(&mut sink, b"A") == (24, 1));
}

#[test]
fn keeps_what_it_took(rt: HostRuntime) {
    let mut sink = Memory::new(rt.alloc());
    assert!(rt; put(&mut sink, b"A = ") == (0, 0));
    assert!(rt; put(&mut sink, b"1\n") == (0, 0));
    assert!(rt; sink.bytes() == b"A = 1\n".as_slice());
}

/// `A`, of so many elements.
fn one_declaration(alloc: Global, length: u64) -> Result<Vec<Declaration>, AllocError>
    ensures { IfOk result (λ ds. map declaration_of ds.items
        ≡ record { name = codes "A"; lengths = length ∷ [] } ∷ []) }
{
    let name = String::from_str(alloc, "A")?;
    let lengths = Vec::from_slice(alloc, &[length])?;
    let place = Place { line: 1, column: 1 };
    Ok(vec![in alloc;
        Declaration {
            name,
            lengths,
            place
        },
    ]?)
}

/// The fault of an input that a refusal tells.
fn fault_of(refusal: &Refusal) -> Option<Option<InputFault>> {
    match refusal {
        Refusal::Input(fault) => Some(Some(*fault)),
        _ => None,
    }
}

/// The fault of an input for it, if there is one; None where it is refused for another reason.
fn fault(alloc: Global, length: u64, bytes: &[u8]) -> Option<Option<InputFault>>
    requires least { 1 ≤ length }
    requires most { length ≤ 8 }
{
    let declarations = one_declaration(alloc, length).ok()?;
    match input(alloc, declarations.as_slice(), bytes) {
        Ok(_store) => Some(None),
        Err(refusal) => fault_of(&refusal),
    }
}

/// The number of the first input of some rows, from 0, that has another fault.
fn first_other(alloc: Global, length: u64, rows: &[(&str, Option<InputFault>)]) -> Option<usize>
    requires least { 1 ≤ length }
    requires most { length ≤ 8 }
{
    for (number, (text, wanted)) in rows.iter().enumerate() {
        if fault(alloc, length, text.as_bytes()) != Some(*wanted) {
            return Some(number);
        }
    }
    None
}

#[test]
fn names_the_first_fault(rt: HostRuntime) {
    const OF_THREE: &[(&str, Option<InputFault>)] = &[
        (
            "A 1 2\n",
            Some(InputFault {
                line: 1,
                cause: Cause::Count,
            }),
        ),
        (
            "A 1 2 18446744073709551616\n",
            Some(InputFault {
                line: 1,
                cause: Cause::Number,
            }),
        ),
        (
            "A 1 2 18446744073709551615\nA 1 2 3\n",
            Some(InputFault {
                line: 2,
                cause: Cause::Twice,
            }),
        ),
    ];
    const OF_TWO: &[(&str, Option<InputFault>)] = &[
        (
            "A 1  2\n",
            Some(InputFault {
                line: 1,
                cause: Cause::Form,
            }),
        ),
        (
            "A 1 2",
            Some(InputFault {
                line: 1,
                cause: Cause::Form,
            }),
        ),
        (
            "B 1 2\n",
            Some(InputFault {
                line: 1,
                cause: Cause::Name,
            }),
        ),
        (
            "A\n",
            Some(InputFault {
                line: 1,
                cause: Cause::Count,
            }),
        ),
        (
            "A 1 02\n",
            Some(InputFault {
                line: 1,
                cause: Cause::Number,
            }),
        ),
        (
            "A 1 02 3\n",
            Some(InputFault {
                line: 1,
                cause: Cause::Count,
            }),
        ),
        ("A 1 0\n", None),
        ("", None),
    ];
    assert!(rt; first_other(rt.alloc(), 3, OF_THREE).is_none());
    assert_eq!(rt; first_other(rt.alloc(), 2, OF_TWO), None);
}

/// The number of the refusal of a dump of `A = 1 2 3 4 5 6 7 8`, or 0, and how often the sink fails, over a writer that takes one
/// byte a call and fails at a call.
fn dump_outcome(alloc: Global, failing: usize) -> Result<(u8, u64), AllocError> {
    let declarations = one_declaration(alloc, 8)?;
    let store = one_array(alloc, &[1, 2, 3, 4, 5, 6, 7, 8])?;
    let mut sink = Writer::new(OneByte { calls: 0, failing });
    let number = number_of(dump(alloc, declarations.as_slice(), &store, &mut sink));
    Ok((number, sink.failures()))
}

#[test]
fn dumps_to_a_slow_sink(rt: HostRuntime) {
    assert!(rt; matches!(dump_outcome(rt.alloc(), 21), Ok((0, 0))));
    assert!(rt; matches!(dump_outcome(rt.alloc(), 8), Ok((24, 1))));
}
