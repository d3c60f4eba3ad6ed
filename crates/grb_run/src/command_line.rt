//! The words of a command line, read by `clap`, and the statuses that they end with.
ghost use Rattle.std.specs.Prelude.{◌≡◌, ◌<◌, ◌≤◌, IfOk, false, is_ok, map, if◌then◌else◌};
ghost use Rattle.grb_order.specs.declared.limits.TheConstants.{MOST_ROOM};
ghost use Rattle.clap.specs.Words.{FailsBy, app_of, kind_of, rule_of};
ghost use Rattle.grb_run.specs.CommandLine.{GivesOptions, command_line, faults_of, named_command, room_option, script_argument, status_of_kind, threads_option};
ghost use Rattle.grb_run.specs.declared.progress.TheConstants.{MOST_THREADS};

use crate::arguments::Options;
use crate::fault::RunFault;
use crate::progress::MOST_THREADS;
use clap::error::ErrorKind;
use clap::{Arg, ArgAction, Command, Error, value_parser};
use grb_order::MOST_ROOM;
use std::alloc::{AllocError, Global};

/// The version of the programs, of which `--version` prints `grbrun 1.0.0`.
const VERSION: &str = "1.0.0";

/// What help ends with.
const AFTER_HELP: &str =
    "A line `thread 1` begins a section that runs after the lines before it, next to\n\
    those of `thread 2` and so on; a line `finally` begins the last section. A first\n\
    line `version 2` adds the statement `vxm`, the option `tran`, and thread sections\n\
    up to 255; `version 3` adds to these `transpose`, `apply`, `select`, `kronecker`,\n\
    `diag`, `tuples` and the option `tran1`. docs/FORMATS.md has each statement,\n\
    refusal and fault.\n\n\
    Exit status: 0 where all lines were written, or help was; 1 where the run ended\n\
    early, and standard error says why; 2 where the command line is faulty.";

/// The command without its arguments: its name, what it does, and its version. The words begin after the name.
fn named<'a>(alloc: Global, program: &'a str) -> Command<'a>
    ensures { app_of result ≡ named_command program.now }
{
    Command::new(alloc, program)
        .about("Runs a script of GraphBLAS calls on one shared store")
        .after_help(AFTER_HELP)
        .version(VERSION)
        .no_binary_name(true)
}

/// The option `--room N`.
fn room_option<'a>(alloc: Global) -> Arg<'a>
    ensures rule { rule_of result ≡ room_option }
    ensures local { result.global ≡ false }
{
    Arg::new(alloc, "room")
        .long("room")
        .value_name("N")
        .action(ArgAction::Set)
        .value_parser(value_parser!(u32).range(1..=i64::from(MOST_ROOM)))
        .default_value("4096")
        .help("How many calls may change the store, two of each load, from 1 to 65536")
}

/// The option `--threads N`.
fn threads_option<'a>(alloc: Global) -> Arg<'a>
    ensures rule { rule_of result ≡ threads_option }
    ensures local { result.global ≡ false }
{
    Arg::new(alloc, "threads")
        .long("threads")
        .value_name("N")
        .action(ArgAction::Set)
        .value_parser(value_parser!(u32).range(1..=i64::from(MOST_THREADS)))
        .default_value("1")
        .help("How many threads make large products of matrices, from 1 to 64")
}

/// The argument `SCRIPT`.
fn script_argument<'a>(alloc: Global) -> Arg<'a>
    ensures rule { rule_of result ≡ script_argument }
    ensures local { result.global ≡ false }
{
    Arg::new(alloc, "script")
        .value_name("SCRIPT")
        .action(ArgAction::Set)
        .required(true)
        .help(
            "The script to run, of at most 1,048,576 bytes; the paths of its loads\n\
            begin in the working folder. A load reads a Matrix Market coordinate\n\
            file of at most 67,108,864 bytes, integer or pattern, general or\n\
            symmetric. All files are read and checked after the script, and before\n\
            anything runs.",
        )
}

/// The command `[--room N] [--threads N] SCRIPT` of the program of this name. `AllocError` where memory is refused; then nothing is made.
fn command<'a>(alloc: Global, program: &'a str) -> Result<Command<'a>, AllocError>
    ensures { IfOk result (λ c. app_of c ≡ command_line program.now) }
{
    let roomy = named(alloc, program).arg(room_option(alloc))?;
    let threaded = roomy.arg(threads_option(alloc))?;
    threaded.arg(script_argument(alloc))
}

/// The options that these words give, which are the words after the program's name: `[--room N] [--threads N] SCRIPT`, with a room from 1 to
/// `MOST_ROOM`, and 4096 where it is not given, and threads from 1 to `MOST_THREADS`, and 1 where they are not given (own).
///
/// An error of the kind `DisplayHelp` is a request for help, and one of the kind `DisplayVersion` for the version; each holds its text.
/// Any other error says what is wrong with the words, or that memory was refused.
pub fn options<'a>(
    alloc: Global,
    program: &'a str,
    words: &'a [&'a str],
) -> Result<Options<'a>, Error>
    ensures room { IfOk result (λ o. (0 < o.room) × (o.room ≤ MOST_ROOM)) }
    ensures threads { IfOk result (λ o. (0 < o.threads) × (o.threads ≤ MOST_THREADS)) }
    ensures given { IfOk result (GivesOptions program.now (map (λ w. w.now) words.entry.now)) }
    ensures faults { FailsBy (faults_of program.now (map (λ w. w.now) words.entry.now)) result }
{
    let matches = command(alloc, program)?.try_get_matches_from(words)?;
    let room = matches.get_one::<u32>("room").unwrap();
    let threads = matches.get_one::<u32>("threads").unwrap();
    let path = matches.get_str("script").unwrap();
    Ok(Options {
        room,
        threads,
        path,
    })
}

/// The exit status of a run: 0 where all was written, and else 1.
pub fn status_of_run(outcome: &Result<(), RunFault>) -> u8
    ensures { result ≡ (if is_ok outcome.now then 0 else 1) }
{
    if outcome.is_ok() { 0 } else { 1 }
}

/// The exit status where the words give no options: 0 for help and for the version, and else 2.
pub fn status_of_words(error: &Error) -> u8
    ensures { result ≡ status_of_kind (kind_of error.now) }
{
    match error.kind() {
        ErrorKind::DisplayHelp | ErrorKind::DisplayVersion => 0,
        _ => 2,
    }
}
