//! The program `grbtrace [--room N] [--threads N] SCRIPT`: it runs a script as `grbrun` does, and writes to standard error how long each
//! statement took, as `section 0 statement 2: 14 us`.
//!
//! It shows what a `Gate` is for: `run_helped_script` calls it before and after each statement, and leaves the rest of the run to itself. It
//! also tells on standard error what `grbrun` does not: of a fault the line as it stands, its form and its names, of a refused statement the
//! hint and the objects, as `grb_explanations` has them, and of a file its path and the cause.
#![tactic(auto)]

ghost use Rattle.std.specs.Prelude.{◌<◌, ◌≤◌};
ghost use Rattle.grb_order.specs.declared.limits.TheConstants.{MOST_ROOM};

mod ends;
mod files;
mod gate;

use crate::ends::{tell_end, tell_refusals};
use crate::gate::TraceGate;
use grb_market::put_all;
use grb_run::{
    FileSource, Options, OutputSink, RunFault, options, report_run, report_words, run_arguments,
    run_helped_script,
};
use std::io;
use std::process::ExitCode;
use std::rt::{Clock, Files};
use std::sync::Wait;
use std::thread::Threads;

/// The name that the program gives itself in what it tells.
const PROGRAM: &str = "grbtrace";

/// The lines of the script that the options name, which is traced.
fn lines_of<R>(rt: &R, options: Options<'_>) -> Result<Vec<u8>, RunFault>
where
    R: Clock + Files + Eprint + AllocGlobal + Threads + Wait + Sync,
    requires room { (0 < options.room) × (options.room ≤ MOST_ROOM) }
{
    let mut source = FileSource::new(rt, options.path);
    let mut sink = OutputSink::new(Vec::new(rt.alloc()));
    let gate = TraceGate::open(rt)?;
    let ended = run_helped_script(
        rt,
        rt.alloc(),
        options.room,
        options.threads,
        &mut source,
        &mut sink,
        &gate,
    );
    match ended {
        Ok(()) => Ok(sink.writer),
        // A list takes no byte only where memory is refused.
        Err(RunFault::CannotWrite) => Err(RunFault::OutOfMemory),
        Err(fault) => Err(fault),
    }
}

/// Runs the script that the options name, writes its lines to standard output, and tells of those that were refused.
fn run<R>(rt: &R, options: Options<'_>) -> Result<(), RunFault>
where
    R: Clock + Files + Print + Eprint + AllocGlobal + Threads + Wait + Sync,
    requires room { (0 < options.room) × (options.room ≤ MOST_ROOM) }
{
    let lines = lines_of(rt, options)?;
    let mut sink = OutputSink::new(io::writer(rt));
    put_all(&mut sink, &lines)?;
    tell_refusals(rt, options.path, &lines);
    Ok(())
}

/// Runs the script that the options name, tells how that ended, and answers the exit status.
fn run_options<R>(rt: &R, options: Options<'_>) -> u8
where
    R: Clock + Files + Print + Eprint + AllocGlobal + Threads + Wait + Sync,
    requires room { (0 < options.room) × (options.room ≤ MOST_ROOM) }
{
    let outcome = run(rt, options);
    let status = report_run(rt, PROGRAM, &outcome);
    if let Err(fault) = &outcome {
        tell_end(rt, options.path, fault);
    }
    status
}

/// Does what these words after the program's name ask for, and answers the exit status.
fn run_by_words<R>(rt: &R, words: &[&str]) -> u8
where
    R: Clock + Files + Print + Eprint + AllocGlobal + Threads + Wait + Sync,
{
    match options(rt.alloc(), PROGRAM, words) {
        Ok(options) => run_options(rt, options),
        Err(error) => report_words(rt, PROGRAM, &error),
    }
}

fn main(rt: HostRuntime) -> ExitCode {
    let run_by = |words: &[&str]| run_by_words(&rt, words);
    ExitCode::from(run_arguments(&rt, PROGRAM, run_by))
}
