//! What a program says on standard error, and the status that it ends with.
ghost use Rattle.std.specs.Prelude.{◌≡◌, ◌⊎◌, ◌<◌, ◌≤◌, IfOk, is_ok, if◌then◌else◌, map};
ghost use Rattle.std.specs.Fn.{FnOnceReturnsAt};
ghost use Rattle.std.specs.IoError.{error_kind};
ghost use Rattle.std.specs.declared.io.ErrorKind.{ErrorKind};
ghost use Rattle.grb_order.specs.declared.limits.TheConstants.{MOST_ROOM};
ghost use Rattle.clap.specs.Words.{kind_of};
ghost use Rattle.grb_run.specs.CommandLine.{IsExit, status_of_kind, status_of_unread};
ghost use Rattle.grb_run.specs.declared.arguments.Options.{Options};

use crate::arguments::Options;
use crate::command_line::{options, status_of_run, status_of_words};
use crate::fault::RunFault;
use std::rt::Env;
use std::{env, io};

/// Says on standard error, after the program's name, why a run ended early, and answers the exit status. Where standard error fails too,
/// the status alone tells.
pub fn report_run(rt: &impl Eprint, program: &str, outcome: &Result<(), RunFault>) -> u8
    ensures { result ≡ (if is_ok outcome.now then 0 else 1) }
{
    if let Err(fault) = outcome {
        let _ = eprintln!(rt; "{program}: {fault}");
    }
    status_of_run(outcome)
}

/// Prints help or the version, or says on standard error what is wrong with the words, and answers the exit status. Where help or the
/// version cannot be printed, it ends as a run whose output cannot be written.
pub fn report_words<R: Print + Eprint>(rt: &R, program: &str, error: &clap::Error) -> u8
    ensures { (result ≡ status_of_kind (kind_of error.now)) ⊎ ((status_of_kind (kind_of error.now) ≡ 0) × (result ≡ 1)) }
{
    let status = status_of_words(error);
    if error.print(rt).is_err() && status == 0 {
        return report_run(rt, program, &Err(RunFault::CannotWrite));
    }
    status
}

/// Does what the words after the program's name ask for, and answers the exit status. Where they give options `run` is called with them,
/// once: the status is 0 where the run ended well, and else 1. Where they do not, it is 0 for help and for the version, or 1 where that
/// could not be printed, and 2 for faulty words.
pub fn run_words<'a, R, F>(rt: &R, program: &'a str, words: &'a [&'a str], run: F) -> u8
where
    R: Print + Eprint + AllocGlobal,
    F: FnOnce(Options<'a>) -> Result<(), RunFault>,
    requires room { (o : Options) → 0 < o.room → o.room ≤ MOST_ROOM → F.pre run o }
    ensures exit { IsExit program.now (map (λ w. w.now) words.entry.now) (F.post run) result }
{
    match options(rt.alloc(), program, words) {
        Ok(options) => report_run(rt, program, &run(options)),
        Err(error) => report_words(rt, program, &error),
    }
}

/// Says on standard error why the words of the command line could not be read, and answers the exit status: out of memory ends a run, and a
/// word that is not UTF-8 is a fault of the command line.
pub fn report_unread_words(rt: &impl Eprint, program: &str, error: &io::Error) -> u8
    ensures { result ≡ status_of_unread (error_kind error.now) }
{
    if error.kind() == io::ErrorKind::OutOfMemory {
        return report_run(rt, program, &Err(RunFault::OutOfMemory));
    }
    let _ = eprintln!(rt; "error: a word of the command line is not UTF-8");
    2
}

/// Gives the words of the command line after the program's name to `run`, and answers the status that it answers.
fn with_words<R, F>(rt: &R, run: F) -> io::Result<u8>
where
    R: Env + AllocGlobal,
    F: FnOnce(&[&str]) -> u8,
    requires { F.IsAlwaysCallable run }
    ensures { IfOk result (λ status. (words : _) × FnOnceReturnsAt F.FnOnce run words status) }
{
    let arguments: Vec<String> = env::args(rt)?.skip(1).collect(rt.alloc())?;
    let words: Vec<&str> = arguments
        .iter()
        .map(|word| word.as_str())
        .collect(rt.alloc())?;
    Ok(run(&words))
}

/// Gives the words of the command line after the program's name to `run`, and answers the exit status that it answers. Where they cannot be
/// read, `run` is not called, and `report_unread_words` says so.
pub fn run_arguments<R, F>(rt: &R, program: &str, run: F) -> u8
where
    R: Env + Eprint + AllocGlobal,
    F: FnOnce(&[&str]) -> u8,
    requires { F.IsAlwaysCallable run }
    ensures exit { ((words : _) × FnOnceReturnsAt F.FnOnce run words result) ⊎ ((kind : ErrorKind) × (result ≡ status_of_unread kind)) }
{
    match with_words(rt, run) {
        Ok(status) => status,
        Err(error) => report_unread_words(rt, program, &error),
    }
}
