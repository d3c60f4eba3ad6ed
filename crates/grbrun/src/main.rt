//! The program `grbrun [--room N] [--threads N] SCRIPT`: it runs the script in a file on a store, and prints a line for each statement.
//!
//! A script is a text of statements. It is read whole, and then each file that it loads, or the first fault is answered and nothing
//! runs; then each statement is one call, a load two, and the lines of the answers are written when all are known. Where the bytes come
//! from and go to, a `Source` and a `Sink` decide: here files and standard output, in tests tables. The exit status is 0 where all lines
//! were written, or help was; 1 where the run ended early, which standard error explains; and 2 where the command line is faulty.
#![tactic(auto)]

ghost use Rattle.std.specs.Prelude.{◌<◌, ◌≤◌};
ghost use Rattle.grb_order.specs.declared.limits.TheConstants.{MOST_ROOM};

use grb_run::{
    FileSource, OpenGate, Options, OutputSink, RunFault, run_arguments, run_helped_script,
    run_words,
};
use std::io;
use std::process::ExitCode;
use std::rt::Files;
use std::sync::Wait;
use std::thread::Threads;

/// The name that the program gives itself in what it tells.
const PROGRAM: &str = "grbrun";

/// Runs the script that the options name, and writes its lines to standard output. `OutOfMemory` where memory is refused outside of the
/// calls; then nothing is written.
fn run<R: Files + Print + AllocGlobal + Threads + Wait + Sync>(
    rt: &R,
    options: Options<'_>,
) -> Result<(), RunFault>
    requires room { (0 < options.room) × (options.room ≤ MOST_ROOM) }
{
    let mut source = FileSource::new(rt, options.path);
    let mut sink = OutputSink::new(io::writer(rt));
    run_helped_script(
        rt,
        rt.alloc(),
        options.room,
        options.threads,
        &mut source,
        &mut sink,
        &OpenGate,
    )
}

/// Does what these words after the program's name ask for, and answers the exit status.
fn run_by_words<R>(rt: &R, words: &[&str]) -> u8
where
    R: Files + Print + Eprint + AllocGlobal + Threads + Wait + Sync,
{
    let run_with = |options: Options<'_>|
        requires room { (0 < options.room) × (options.room ≤ MOST_ROOM) }
    { run(rt, options) };
    run_words(rt, PROGRAM, words, run_with)
}

/// Runs the program by the words of its command line, and ends with the status of that.
fn main(rt: HostRuntime) -> ExitCode {
    let run_by = |words: &[&str]| run_by_words(&rt, words);
    ExitCode::from(run_arguments(&rt, PROGRAM, run_by))
}
