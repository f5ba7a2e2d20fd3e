//! What the command line asks for.

ghost use Rattle.std.specs.Prelude.{◌≡◌, ◌∷◌, [], Some, option_map, false, true, codes, map, string_bytes, IfOk, IfErr, IsSomeAnd};
ghost use Rattle.clap.specs.Words.{Shape, Text, app_of, first_of, found_of, rows_of, rule_of, subcommand_rows_of, with_subcommand};
ghost use Rattle.ompk_command.specs.declared.usage.Usage.TheVariants.{OutOfMemory};
ghost use Rattle.schedule.specs.Sched.{kind_of};
ghost use Rattle.ompk_command.specs.Orders as orders;
ghost use Rattle.ompk_command.specs.Orders.{AskFor, Decides, IsCount, IsReadFrom, alone, command_line, taking};
ghost use Rattle.ompk_command.specs.Schedules.{Finds, IsNamed};
ghost use Rattle.ompk_command.specs.Usages.{IsTold};

use crate::schedule_words::schedule_of;
use crate::usage::Usage;
use clap::error::ErrorKind;
use clap::{Arg, ArgMatches, Command};
use ktree::Workers;
use schedule::Sched;
use std::alloc::{AllocError, Global};
use text::{is_decimal, value};

/// What the program is asked for.
#[derive(Drop)]
pub enum Order<'a> {
    Check {
        file: &'a str,
    },
    Lower {
        file: &'a str,
    },
    Run {
        file: &'a str,
        input: Option<&'a str>,
        workers: Workers,
        /// What stands for `schedule(runtime)` (OpenMP 5.2, 11.5.3).
        sched: Sched,
    },
    Seq {
        file: &'a str,
        input: Option<&'a str>,
    },
}

// The file of a kernel.
fn file<'a>(alloc: Global) -> Arg<'a>
    ensures rule { rule_of result ≡ orders.file }
    ensures own { result.global ≡ false }
{
    Arg::new(alloc, "file")
        .value_name("F")
        .required(true)
        .help("The kernel's file")
}

// The file of the variables' first values.
fn input<'a>(alloc: Global) -> Arg<'a>
    ensures rule { rule_of result ≡ orders.input }
    ensures own { result.global ≡ false }
{
    Arg::new(alloc, "input").long("input").value_name("I").help(
        "The file of the variables' first values; without it all are 0",
    )
}

// `ompk check F`.
fn check_command<'a>(alloc: Global) -> Result<Command<'a>, AllocError>
    ensures { IfOk result (λ command. app_of command ≡ alone orders.check) }
{
    Command::new(alloc, "check")
        .about("Checks a kernel")
        .arg(file(alloc))
}

// `ompk lower F`.
fn lower_command<'a>(alloc: Global) -> Result<Command<'a>, AllocError>
    ensures { IfOk result (λ command. app_of command ≡ alone orders.lower) }
{
    Command::new(alloc, "lower")
        .about("Lists the calls of LLVM's OpenMP runtime that an accepted kernel stands for")
        .arg(file(alloc))
}

// The number of workers.
fn workers<'a>(alloc: Global) -> Arg<'a>
    ensures rule { rule_of result ≡ orders.workers }
    ensures own { result.global ≡ false }
{
    Arg::new(alloc, "workers")
        .long("workers")
        .value_name("N")
        .default_value("4")
        .help("The number of workers, 1 to 64")
}

// The schedule for `schedule(runtime)`.
fn schedule<'a>(alloc: Global) -> Arg<'a>
    ensures rule { rule_of result ≡ orders.schedule }
    ensures own { result.global ≡ false }
{
    Arg::new(alloc, "schedule")
        .long("schedule")
        .value_name("KIND[,K]")
        .default_value("static")
        .help(
            "What schedule(runtime) stands for: static, dynamic, guided or auto; K is 1 to 16777216",
        )
}

// `ompk NAME F [--input I]`.
fn input_command<'a>(
    alloc: Global,
    name: &'a str,
    about: &'a str,
) -> Result<Command<'a>, AllocError>
    ensures { IfOk result (λ command. app_of command
        ≡ alone (taking name.now (orders.file ∷ orders.input ∷ []))) }
{
    Command::new(alloc, name)
        .about(about)
        .arg(file(alloc))?
        .arg(input(alloc))
}

// `ompk run F [--input I] [--workers N] [--schedule KIND[,K]]`.
fn run_command<'a>(alloc: Global) -> Result<Command<'a>, AllocError>
    ensures { IfOk result (λ command. app_of command ≡ alone orders.run) }
{
    input_command(
        alloc,
        "run",
        "Runs a kernel on a team of workers and writes its output",
    )?
    .arg(workers(alloc))?
    .arg(schedule(alloc))
}

// `ompk seq F [--input I]`.
fn seq_command<'a>(alloc: Global) -> Result<Command<'a>, AllocError>
    ensures { IfOk result (λ command. app_of command ≡ alone orders.seq) }
{
    input_command(
        alloc,
        "seq",
        "Runs a kernel by one thread and writes its output",
    )
}

// The program's command, without subcommands.
fn program_command<'a>(alloc: Global) -> Result<Command<'a>, AllocError>
    ensures { IfOk result (λ command. app_of command ≡ orders.program) }
{
    Command::new(alloc, "ompk")
        .about(
            "Runs C11 kernels with OpenMP loops, with exactly the output of the sequential program",
        )
        .subcommand_required(true)
        .bin_name("ompk")
}

// A command with one more subcommand, if memory is left for both.
fn with<'a>(
    command: Command<'a>,
    added: Result<Command<'a>, AllocError>,
) -> Result<Command<'a>, AllocError>
    ensures { (shape : Shape) → shape.is_plain ≡ true
        → IfOk added.entry (λ sub. app_of sub ≡ alone shape)
        → IfOk result (λ both. app_of both ≡ with_subcommand (app_of command.entry) shape) }
{
    command.subcommand(added?)
}

// All that the command line may say.
fn command<'a>(alloc: Global) -> Result<Command<'a>, AllocError>
    ensures { IfOk result (λ command. app_of command ≡ command_line) }
{
    let program = program_command(alloc)?;
    let one = with(program, check_command(alloc))?;
    let two = with(one, lower_command(alloc))?;
    let three = with(two, run_command(alloc))?;
    with(three, seq_command(alloc))
}

// 1 to 64, without leading zeros.
fn workers_of(word: &str) -> Option<Workers>
    ensures { Finds (IsCount word.now) result }
{
    let digits = word.as_bytes();
    if !is_decimal(digits) {
        return None;
    }
    Workers::new(value(digits)?)
}

// What is wrong with words that have the form of a command line.
#[derive(Clone, Copy, Drop)]
enum Flaw {
    Workers,
    Schedule,
    Subcommand,
}

impl Flaw {
    fn kind(self) -> ErrorKind {
        match self {
            Flaw::Workers | Flaw::Schedule => ErrorKind::InvalidValue,
            Flaw::Subcommand => ErrorKind::MissingSubcommand,
        }
    }

    fn message(self) -> &'static str {
        match self {
            Flaw::Workers => "the number of workers is 1 to 64, without leading zeros",
            Flaw::Schedule => {
                "the schedule is static, dynamic or guided, with or without a comma and 1 to 16777216, or auto"
            }
            Flaw::Subcommand => "a subcommand is missing",
        }
    }
}

// The word that stands under this id.
fn word_in<'a>(found: &ArgMatches<'a>, id: &str) -> Option<&'a str>
    ensures { option_map (λ word. word.now) result
        ≡ first_of id.now (rows_of (found_of found.now)) }
{
    found.get_str(id)
}

// The kernel's file.
fn file_in<'a>(found: &ArgMatches<'a>) -> Result<&'a str, Flaw>
    ensures read { IfOk result (λ file.
        first_of (codes "file") (rows_of (found_of found.now)) ≡ Some file.now) }
    ensures none { IfErr result (λ _. (name : Text) (order : _)
        → IsReadFrom (name, rows_of (found_of found.now)) order → ⊥) }
{
    match word_in(found, "file") {
        Some(file) => Ok(file),
        None => Err(Flaw::Subcommand),
    }
}

// The number of workers.
fn workers_in(found: &ArgMatches<'_>) -> Option<Workers>
    ensures { Finds (λ workers.
        IsSomeAnd (first_of (codes "workers") (rows_of (found_of found.now)))
        (λ word. IsCount word workers)) result }
{
    workers_of(word_in(found, "workers")?)
}

// The schedule for `schedule(runtime)`.
fn schedule_in(found: &ArgMatches<'_>) -> Option<Sched>
    ensures { Finds (λ sched. IsSomeAnd (first_of (codes "schedule") (rows_of (found_of found.now)))
        (λ word. IsNamed word (kind_of sched))) result }
{
    schedule_of(word_in(found, "schedule")?)
}

// What `check` asks for.
fn check_in<'a>(found: &ArgMatches<'a>) -> Result<Order<'a>, Flaw>
    ensures { Decides (IsReadFrom (codes "check", rows_of (found_of found.now))) result }
{
    let file = file_in(found)?;
    Ok(Order::Check { file })
}

// What `lower` asks for.
fn lower_in<'a>(found: &ArgMatches<'a>) -> Result<Order<'a>, Flaw>
    ensures { Decides (IsReadFrom (codes "lower", rows_of (found_of found.now))) result }
{
    let file = file_in(found)?;
    Ok(Order::Lower { file })
}

// What `run` asks for.
fn run_in<'a>(found: &ArgMatches<'a>) -> Result<Order<'a>, Flaw>
    ensures { Decides (IsReadFrom (codes "run", rows_of (found_of found.now))) result }
{
    let file = file_in(found)?;
    let input = word_in(found, "input");
    let Some(workers) = workers_in(found) else {
        return Err(Flaw::Workers);
    };
    let Some(sched) = schedule_in(found) else {
        return Err(Flaw::Schedule);
    };
    Ok(Order::Run {
        file,
        input,
        workers,
        sched,
    })
}

// What `seq` asks for.
fn seq_in<'a>(found: &ArgMatches<'a>) -> Result<Order<'a>, Flaw>
    ensures { Decides (IsReadFrom (codes "seq", rows_of (found_of found.now))) result }
{
    let file = file_in(found)?;
    let input = word_in(found, "input");
    Ok(Order::Seq { file, input })
}

// What these words ask for.
fn order_in<'a>(matches: &ArgMatches<'a>) -> Result<Order<'a>, Flaw>
    ensures { Decides (λ order.
        IsSomeAnd (subcommand_rows_of matches.now) (λ met. IsReadFrom met order)) result }
{
    if let Some(found) = matches.subcommand_matches("check") {
        return check_in(found);
    }
    if let Some(found) = matches.subcommand_matches("lower") {
        return lower_in(found);
    }
    if let Some(found) = matches.subcommand_matches("run") {
        return run_in(found);
    }
    if let Some(found) = matches.subcommand_matches("seq") {
        return seq_in(found);
    }
    Err(Flaw::Subcommand)
}

// What is told of a flaw.
fn tell(command: &mut Command<'_>, flaw: Flaw) -> Usage
    ensures { IsTold result }
{
    match command.error(flaw.kind(), flaw.message()) {
        Ok(error) => Usage::from(error),
        Err(refused) => Usage::from(refused),
    }
}

/// Reads the words of a command line, the program's own name first.
///
/// # Errors
///
/// `Told` where they are no order, or ask for help; `OutOfMemory` where memory is refused.
pub fn order_of<'a>(alloc: Global, words: &'a [String]) -> Result<Order<'a>, Usage>
    ensures asked { IfOk result (λ order.
        AskFor (map (λ word. string_bytes word) words.entry.now) order) }
    ensures told { IfErr result IsTold }
    ensures refused { IfErr result (λ usage. (order : _)
        → AskFor (map (λ word. string_bytes word) words.entry.now) order → usage ≡ OutOfMemory) }
{
    let mut command = command(alloc)?;
    let matches = command.try_get_matches_from_mut(words)?;
    match order_in(&matches) {
        Ok(order) => Ok(order),
        Err(flaw) => Err(tell(&mut command, flaw)),
    }
}
