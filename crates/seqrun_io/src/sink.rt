//! Where a run's output goes.

ghost use Rattle.std.specs.Io.KnownBytes.{WriteAppends};
ghost use Rattle.std.specs.Prelude.{◌≡◌, ◌+◌, ◌<◌, ◌≤◌, ◌^◌, List, ℕ, [], ◌++◌, length, take, IfOk, IfErr, OnOk, OnErr};
ghost use Rattle.ktree.specs.declared.refusal.Refusal.TheVariants.{OutputFailed};
ghost use Rattle.seqrun_io.specs.Told.{AddsBeginning};

use crate::account::Account;
use ktree::Refusal;
use std::alloc::{AllocError, Global};
use std::io::Write;
use std::marker::Model;
use thiserror::Error;

/// A sink took nothing of what it was given.
#[derive(Clone, Copy, Debug, PartialEq, Eq, Error)]
#[error("the output was not taken")]
pub struct SinkFault;

/// What takes a run's output and counts its own failures.
pub trait Sink {
    /// All the bytes that it took, in their order.
    ghost told: { Self → List ℕ };

    /// How often it failed.
    ghost failed: { Self → ℕ };

    /// Takes bytes from the front on, at least one where there is one, and answers how many; or takes none and counts
    /// a failure.
    fn put(&mut self, bytes: &[u8]) -> Result<usize, SinkFault>
        requires { failed self.old + 1 < 2 ^ 64 }
        ensures within { IfOk result (λ count. count ≤ length bytes.now) }
        ensures some { IfOk result (λ count. 0 < length bytes.now → 0 < count) }
        ensures taken { IfOk result (λ count. told self.new
            ≡ told self.old ++ take count bytes.now) }
        ensures sound { OnOk result (failed self.new ≡ failed self.old) }
        ensures refused { OnErr result (told self.new ≡ told self.old) }
        ensures counted { OnErr result (failed self.new ≡ failed self.old + 1) };

    /// How many of its calls failed.
    fn failures(&self) -> u64
        ensures { result ≡ failed self.now };
}

/// Puts all these bytes. A short `put` goes on with the bytes that are left; the first that fails ends it with
/// `OutputFailed`.
pub fn put_all<S: Sink>(sink: &mut S, bytes: &[u8]) -> Result<(), Refusal>
    requires { S.failed sink.old + 1 < 2 ^ 64 }
    ensures all { OnOk result (S.told sink.new ≡ S.told sink.old ++ bytes.now) }
    ensures beginning { AddsBeginning (S.told sink.old) (S.told sink.new) bytes.now }
    ensures sound { OnOk result (S.failed sink.new ≡ S.failed sink.old) }
    ensures counted { OnErr result (S.failed sink.new ≡ S.failed sink.old + 1) }
    ensures refusal { IfErr result (λ refusal. refusal ≡ OutputFailed) }
{
    let mut start = 0;
    while start < bytes.len() {
        match sink.put(&bytes[start..]) {
            Ok(count) => start += count,
            Err(SinkFault) => return Err(Refusal::OutputFailed),
        }
    }
    Ok(())
}

/// A sink over memory; want of memory is a failure.
#[derive(Drop)]
pub struct Memory {
    bytes: Vec<u8>,
    failures: u64,
}

impl Model for Memory {
    ghost use Rattle.seqrun_io.specs.Told.{Told};

    ghost Value = { Told };

    ghost view = { λ m. record { bytes = m.bytes.items; failures = m.failures } };
}

impl Memory {
    /// A sink that took nothing yet.
    pub fn new(alloc: Global) -> Memory
        ensures told { result.bytes ≡ [] }
        ensures failed { result.failures ≡ 0 }
    {
        Memory {
            bytes: Vec::new(alloc),
            failures: 0,
        }
    }

    /// The bytes that it took.
    pub fn bytes(&self) -> &[u8]
        ensures { result.now ≡ self.now.bytes }
    {
        self.bytes.as_slice()
    }
}

impl Sink for Memory {
    ghost told = { λ m. m.bytes };

    ghost failed = { λ m. m.failures };

    fn put(&mut self, bytes: &[u8]) -> Result<usize, SinkFault> {
        match self.bytes.extend_from_slice(bytes) {
            Ok(()) => Ok(bytes.len()),
            Err(AllocError) => {
                self.failures += 1;
                Err(SinkFault)
            }
        }
    }

    fn failures(&self) -> u64 {
        self.failures
    }
}

/// A sink over a writer. A write of 0 of some bytes is a failure, as is an error of the writer's.
///
/// The bytes that it took are its own account: those that the writer said it wrote. Where it is known what the writer holds, these and
/// no others are put there. Contracts see both, and how often it failed.
#[derive(Drop)]
pub struct Writer<W: Write> {
    inner: W,
    account: Account,
    failures: u64,
}

impl<W: Write> Model for Writer<W> {
    ghost use Rattle.seqrun_io.specs.Told.{Written};

    ghost Value = { Written };

    ghost view = { λ w. record {
      bytes = w.account.told;
      failures = w.failures;
      contents = W.contents w.inner;
    } };
}

impl<W: Write> Writer<W> {
    /// A sink over this writer that took nothing yet.
    pub fn new(inner: W) -> Writer<W>
        ensures told { result.bytes ≡ [] }
        ensures failed { result.failures ≡ 0 }
        ensures contents { result.contents ≡ W.contents inner }
    {
        Writer {
            inner,
            account: Account::new(),
            failures: 0,
        }
    }
}

impl<W: Write> Sink for Writer<W> {
    ghost told = { λ w. w.bytes };

    ghost failed = { λ w. w.failures };

    fn put(&mut self, bytes: &[u8]) -> Result<usize, SinkFault>
        requires { self.old.failures + 1 < 2 ^ 64 }
        ensures within { IfOk result (λ count. count ≤ length bytes.now) }
        ensures some { IfOk result (λ count. 0 < length bytes.now → 0 < count) }
        ensures taken { IfOk result (λ count. self.new.bytes
            ≡ self.old.bytes ++ take count bytes.now) }
        ensures sound { OnOk result (self.new.failures ≡ self.old.failures) }
        ensures refused { OnErr result (self.new.bytes ≡ self.old.bytes) }
        ensures counted { OnErr result (self.new.failures ≡ self.old.failures + 1) }
        ensures written { WriteAppends self.old.contents self.new.contents result bytes.now }
    {
        match self.inner.write(bytes) {
            Ok(count) if 0 < count || bytes.is_empty() => {
                self.account.note(&bytes[..count]);
                Ok(count)
            }
            Ok(_) | Err(_) => {
                self.failures += 1;
                Err(SinkFault)
            }
        }
    }

    fn failures(&self) -> u64 {
        self.failures
    }
}
