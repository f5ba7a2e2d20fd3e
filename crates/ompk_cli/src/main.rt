//! `ompk`: checks a kernel, lists its runtime calls, or runs it, on a team of workers or by one thread.
#![tactic(auto)]

ghost use Rattle.std.specs.Prelude.{◌+◌, ◌<◌, ◌^◌};
ghost use Rattle.ompk_cli.specs.Status.{HasStatus};

mod fault;

use fault::Fault;
use ktree::{Refusal, Workers};
use listing::add_listing;
use ompk::{Checked, Sched, check, run, seq, status, tell};
use ompk_command::{Order, order_of};
use seqrun_io::{Sink, Writer, put_all};
use std::io::ErrorKind;
use std::mem::forget;
use std::process::ExitCode;
use std::rt::Files;
use std::sync::Wait;
use std::thread::{Builder, Threads};
use std::{env, fs};
use team::OpenGate;

// The words of the command line.
fn words_of(rt: &HostRuntime) -> Result<Vec<String>, Fault<'static>> {
    match env::args(rt) {
        Ok(words) => Ok(words.collect(rt.alloc())?),
        Err(error) if error.kind() == ErrorKind::OutOfMemory => {
            Err(Fault::Refused(Refusal::OutOfMemory))
        }
        Err(_) => Err(Fault::NoText),
    }
}

// The bytes of a file.
fn read<'a, R: Files + AllocGlobal>(rt: &R, name: &'a str) -> Result<Vec<u8>, Fault<'a>> {
    match fs::read(rt, name) {
        Ok(bytes) => Ok(bytes),
        Err(error) if error.kind() == ErrorKind::OutOfMemory => {
            Err(Fault::Refused(Refusal::OutOfMemory))
        }
        Err(_) => Err(Fault::Unread(name)),
    }
}

// The kernel of a file.
fn accept_file<'a, R: Files + AllocGlobal>(rt: &R, file: &'a str) -> Result<Checked, Fault<'a>> {
    let text = read(rt, file)?;
    Ok(check(rt.alloc(), text.as_slice())?)
}

// The bytes of an input, none where no file is named.
fn read_input<'a, R: Files + AllocGlobal>(
    rt: &R,
    input: Option<&'a str>,
) -> Result<Vec<u8>, Fault<'a>> {
    match input {
        Some(name) => read(rt, name),
        None => Ok(Vec::new(rt.alloc())),
    }
}

// Runs the kernel of a file on a team.
fn run_file<'a, R, S>(
    rt: &R,
    file: &'a str,
    input: Option<&'a str>,
    workers: Workers,
    sched: Sched,
    sink: &mut S,
) -> Result<(), Fault<'a>>
where
    R: Files + AllocGlobal + Threads + Wait + Sync,
    S: Sink,
    requires { S.failed sink.old + 1 < 2 ^ 64 }
{
    let kernel = accept_file(rt, file)?;
    let bytes = read_input(rt, input)?;
    let given = bytes.as_slice();
    Ok(run(
        rt,
        rt.alloc(),
        &kernel,
        given,
        workers,
        sched,
        &OpenGate,
        sink,
    )?)
}

// Runs the kernel of a file by one thread.
fn seq_file<'a, R, S>(
    rt: &R,
    file: &'a str,
    input: Option<&'a str>,
    sink: &mut S,
) -> Result<(), Fault<'a>>
where
    R: Files + AllocGlobal,
    S: Sink,
    requires { S.failed sink.old + 1 < 2 ^ 64 }
{
    let kernel = accept_file(rt, file)?;
    let bytes = read_input(rt, input)?;
    Ok(seq(rt.alloc(), &kernel, bytes.as_slice(), sink)?)
}

// Checks the kernel of a file.
fn check_file<'a, R, S>(rt: &R, file: &'a str, sink: &mut S) -> Result<(), Fault<'a>>
where
    R: Files + AllocGlobal,
    S: Sink,
    requires { S.failed sink.old + 1 < 2 ^ 64 }
{
    // The program ends behind this: to give back a large tree takes longer than to leave it.
    forget(accept_file(rt, file)?);
    Ok(put_all(sink, b"accepted\n")?)
}

// Lists the runtime calls of the kernel of a file.
fn lower_file<'a, R, S>(rt: &R, file: &'a str, sink: &mut S) -> Result<(), Fault<'a>>
where
    R: Files + AllocGlobal,
    S: Sink,
    requires { S.failed sink.old + 1 < 2 ^ 64 }
{
    let kernel = accept_file(rt, file)?;
    let mut lines = Vec::new(rt.alloc());
    add_listing(&kernel, &mut lines)?;
    Ok(put_all(sink, lines.as_slice())?)
}

// Does what is asked for, and writes to this sink.
fn perform<'a, R, S>(rt: &R, order: &Order<'a>, sink: &mut S) -> Result<(), Fault<'a>>
where
    R: Files + AllocGlobal + Threads + Wait + Sync,
    S: Sink,
    requires { S.failed sink.old + 1 < 2 ^ 64 }
{
    match order {
        Order::Check { file } => check_file(rt, file, sink),
        Order::Lower { file } => lower_file(rt, file, sink),
        Order::Run {
            file,
            input,
            workers,
            sched,
        } => run_file(rt, file, *input, *workers, *sched, sink),
        Order::Seq { file, input } => seq_file(rt, file, *input, sink),
    }
}

// Says what is wrong, and answers the exit status for it.
fn report(rt: &HostRuntime, fault: Fault<'_>) -> u8
    ensures { HasStatus fault.entry result }
{
    match fault {
        Fault::Refused(refusal) => {
            let _ = tell(&refusal, &mut Writer::new(rt.stderr()));
            status(&refusal)
        }
        Fault::Unread(name) => {
            let _ = eprintln!(rt; "cannot read {name}");
            1
        }
        Fault::NoText => {
            let _ = eprintln!(rt; "error: the command line is no text");
            2
        }
        Fault::Usage(error) => match error.print(rt) {
            Err(_) if !error.use_stderr() => report_output(rt),
            _ if error.use_stderr() => 2,
            _ => 0,
        },
    }
}

// Help that is not taken.
fn report_output(rt: &HostRuntime) -> u8 {
    let refusal = Refusal::OutputFailed;
    let _ = tell(&refusal, &mut Writer::new(rt.stderr()));
    status(&refusal)
}

// Bytes of stack for the walks over trees: that of the longest chain of operators which a text can hold takes a third. The
// system gives memory only to what is used of it.
const STACK: usize = 1 << 30;

fn main(rt: HostRuntime) -> ExitCode {
    let answer = move || -> u8 {
        let words = match words_of(&rt) {
            Ok(words) => words,
            Err(fault) => return report(&rt, fault),
        };
        let done = match order_of(rt.alloc(), words.as_slice()) {
            Ok(order) => perform(&rt, &order, &mut Writer::new(rt.stdout())),
            Err(usage) => Err(Fault::from(usage)),
        };
        match done {
            Ok(()) => 0,
            Err(fault) => report(&rt, fault),
        }
    };
    ExitCode::from(match Builder::new().stack_size(STACK).spawn(&rt, answer) {
        Ok(thread) => thread.join(&rt),
        Err(_) => report(&rt, Fault::Refused(Refusal::OutOfMemory)),
    })
}
