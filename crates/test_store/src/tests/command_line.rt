//! What the words of a command line ask for. What they are is tested word by word, and what is told of them, which no contract says; a
//! script has no command line.
use crate::tests::same::same;
use grb_run::{Options, options, status_of_words};
use std::alloc::{AllocError, Global};
use std::process::Abort;
use std::test::Fail;

const ABOUT: &str = "Runs a script of GraphBLAS calls on one shared store\n\n";

const ARGUMENTS: &str =
    "Arguments:\n  <SCRIPT>  The script to run, of at most 1,048,576 bytes; the paths of its loads\n            \
    begin in the working folder. A load reads a Matrix Market coordinate\n            \
    file of at most 67,108,864 bytes, integer or pattern, general or\n            \
    symmetric. All files are read and checked after the script, and before\n            \
    anything runs.\n\n\
    Options:\n      --room <N>     How many calls may change the store, two of each load, from 1 to 65536 [default: 4096]\n      \
    --threads <N>  How many threads make large products of matrices, from 1 to 64 [default: 1]\n  \
    -h, --help         Print help\n  -V, --version      Print version\n\n";

const ENDING: &str =
    "A line `thread 1` begins a section that runs after the lines before it, next to\n\
    those of `thread 2` and so on; a line `finally` begins the last section. A first\n\
    line `version 2` adds the statement `vxm`, the option `tran`, and thread sections\n\
    up to 255; `version 3` adds to these `transpose`, `apply`, `select`, `kronecker`,\n\
    `diag`, `tuples` and the option `tran1`. docs/FORMATS.md has each statement,\n\
    refusal and fault.\n\n\
    Exit status: 0 where all lines were written, or help was; 1 where the run ended\n\
    early, and standard error says why; 2 where the command line is faulty.\n";

const MISSING_SCRIPT: &str =
    "error: the following required arguments were not provided:\n  <SCRIPT>\n\n\
    Usage: grbrun <SCRIPT>\n\nFor more information, try '--help'.\n";

const ROOM_OF_0: &str = "error: invalid value '0' for '--room <N>': 0 is not in 1..=65536\n\n\
    For more information, try '--help'.\n";

const ROOM_OF_X: &str =
    "error: invalid value 'x' for '--room <N>': invalid digit found in string\n\n\
    For more information, try '--help'.\n";

const THREADS_OF_65: &str = "error: invalid value '65' for '--threads <N>': 65 is not in 1..=64\n\n\
    For more information, try '--help'.\n";

const UNEXPECTED_Y: &str = "error: unexpected argument 'y' found\n\n\
    Usage: grbrun [OPTIONS] <SCRIPT>\n\nFor more information, try '--help'.\n";

#[test]
fn words_give_a_room_threads_and_a_path(rt: HostRuntime) -> Result<(), Fail> {
    let rows: [(&[&str], u32, u32, &str); 12] = [
        (&["first.grb"], 4096, 1, "first.grb"),
        (&["--room", "1", "x"], 1, 1, "x"),
        (&["--room", "65536", "x"], 65536, 1, "x"),
        (&["--room=7", "x"], 7, 1, "x"),
        (&["x", "--room", "7"], 7, 1, "x"),
        (
            &["--room", "2", "folder/with a space.grb"],
            2,
            1,
            "folder/with a space.grb",
        ),
        (&["--", "--room"], 4096, 1, "--room"),
        (&["-"], 4096, 1, "-"),
        (&["--threads", "1", "x"], 4096, 1, "x"),
        (&["--threads=64", "x"], 4096, 64, "x"),
        (&["x", "--threads", "+04"], 4096, 4, "x"),
        (&["--room", "7", "--threads", "2", "x"], 7, 2, "x"),
    ];
    for (words, room, threads, path) in &rows {
        let given = options(rt.alloc(), "grbrun", *words)?;
        let wanted = Options {
            room: *room,
            threads: *threads,
            path: *path,
        };
        same(&rt, given, wanted, *words);
    }
    Ok(())
}

/// The words of a line are no options, and end the program with this status.
fn expect_status(rt: &impl Abort, alloc: Global, line: &str, status: u8) -> Result<(), AllocError> {
    let words: Vec<&str> = line.split_whitespace().collect(alloc)?;
    let met = match options(alloc, "grbrun", &words) {
        Ok(_) => None,
        Err(error) => Some(status_of_words(&error)),
    };
    same(rt, met, Some(status), line);
    Ok(())
}

#[test]
fn other_words_are_faulty_or_ask_for_help(rt: HostRuntime) -> Result<(), Fail> {
    let rows = [
        ("--room 0 x", 2),
        ("--room 65537 x", 2),
        ("--room 18446744073709551616 x", 2),
        ("--room -1 x", 2),
        ("--room many x", 2),
        ("--room= x", 2),
        ("--room x", 2),
        ("--room 1 --room 2 x", 2),
        ("--threads 0 x", 2),
        ("--threads 65 x", 2),
        ("--threads many x", 2),
        ("--threads x", 2),
        ("--threads 2 --threads 2 x", 2),
        ("--thread 2 x", 2),
        ("", 2),
        ("x y", 2),
        ("--rooms 3 x", 2),
        ("--help", 0),
        ("-h", 0),
        ("--version", 0),
        ("-V", 0),
    ];
    for (line, status) in &rows {
        expect_status(&rt, rt.alloc(), *line, *status)?;
    }
    Ok(())
}

/// What a program is told of the words of a line, which are no options.
fn told_of(alloc: Global, program: &str, line: &str) -> Result<Option<String>, AllocError> {
    let words: Vec<&str> = line.split_whitespace().collect(alloc)?;
    match options(alloc, program, &words) {
        Ok(_) => Ok(None),
        Err(error) => Ok(Some(format!(in alloc; "{error}")?)),
    }
}

fn expect_told(
    rt: &impl Abort,
    alloc: Global,
    program: &str,
    line: &str,
    text: &str,
) -> Result<(), AllocError> {
    let told = told_of(alloc, program, line)?;
    same(rt, told.as_deref(), Some(text), (program, line));
    Ok(())
}

#[test]
fn what_is_wrong_is_told_in_words(rt: HostRuntime) -> Result<(), Fail> {
    let rows = [
        ("", MISSING_SCRIPT),
        ("--room 0 x", ROOM_OF_0),
        ("--room x x", ROOM_OF_X),
        ("--threads 65 x", THREADS_OF_65),
        ("x y", UNEXPECTED_Y),
    ];
    for (line, text) in &rows {
        expect_told(&rt, rt.alloc(), "grbrun", *line, *text)?;
    }
    Ok(())
}

#[test]
fn help_and_the_version_have_the_name_of_the_program(rt: HostRuntime) -> Result<(), Fail> {
    let alloc = rt.alloc();
    for program in ["grbrun", "grbtrace"] {
        let usage = format!(in alloc; "Usage: {program} [OPTIONS] <SCRIPT>")?;
        let help = format!(in alloc; "{ABOUT}{usage}\n\n{ARGUMENTS}{ENDING}")?;
        let version = format!(in alloc; "{program} 1.0.0\n")?;
        expect_told(&rt, alloc, program, "--help", &help)?;
        expect_told(&rt, alloc, program, "--version", &version)?;
    }
    Ok(())
}
