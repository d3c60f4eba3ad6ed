//! What the program tells, and on which stream. No contract has the texts or the streams, and a script cannot meet most of these faults.
use crate::tests::same::same;
use grb_market::MarketFault;
use grb_run::{RunFault, options, report_run, report_unread_words, report_words};
use grb_script::FaultKind;
use std::alloc::Global;
use std::cell::Cell;
use std::fmt::Display;
use std::io;
use std::io::ErrorKind;
use std::test::Fail;

/// Standard output and standard error that count what they are given. Where output is full it fails.
#[derive(Drop)]
struct Streams {
    is_full: bool,
    printed: Cell<u32>,
    explained: Cell<u32>,
}

impl Streams {
    fn new(is_full: bool) -> Self {
        Streams {
            is_full,
            printed: Cell::new(0),
            explained: Cell::new(0),
        }
    }
}

impl Print for Streams {
    fn print<D: Display + Drop>(&self, _value: D) -> io::Result<()> {
        self.write_all(b"text")
    }

    fn println<D: Display + Drop>(&self, _value: D) -> io::Result<()> {
        self.write_all(b"line")
    }

    fn write_all(&self, _bytes: &[u8]) -> io::Result<()> {
        if self.is_full {
            return Err(io::Error::from(ErrorKind::StorageFull));
        }
        self.printed.set(self.printed.get().saturating_add(1));
        Ok(())
    }
}

impl Eprint for Streams {
    fn eprint<D: Display + Drop>(&self, value: D) -> io::Result<()> {
        self.eprintln(value)
    }

    fn eprintln<D: Display + Drop>(&self, _value: D) -> io::Result<()> {
        self.explained.set(self.explained.get().saturating_add(1));
        Ok(())
    }
}

/// Standard error that keeps the last line that it was given.
#[derive(Drop)]
struct LastLine {
    alloc: Global,
    line: Cell<String>,
}

impl Eprint for LastLine {
    fn eprint<D: Display + Drop>(&self, value: D) -> io::Result<()> {
        self.eprintln(value)
    }

    fn eprintln<D: Display + Drop>(&self, value: D) -> io::Result<()> {
        self.line.set(format!(in self.alloc; "{value}")?);
        Ok(())
    }
}

#[test]
fn help_goes_to_output_and_a_fault_to_standard_error(rt: HostRuntime) -> Result<(), Fail> {
    let rows = [
        ("--help", false, (0, 1, 0)),
        ("--help", true, (1, 0, 1)),
        ("--version", false, (0, 1, 0)),
        ("--version", true, (1, 0, 1)),
        ("--rooms", false, (2, 0, 1)),
        ("--rooms", true, (2, 0, 1)),
    ];
    for (word, is_full, expected) in rows {
        let screen = Streams::new(is_full);
        match options(rt.alloc(), "grbrun", &[word]) {
            Ok(given) => assert!(rt; false, "{word} gives {given:?}"),
            Err(error) => {
                let status = report_words(&screen, "grbrun", &error);
                let met = (status, screen.printed.get(), screen.explained.get());
                same(&rt, met, expected, (word, "full", is_full));
            }
        }
    }
    Ok(())
}

#[test]
fn a_run_that_is_done_says_nothing(rt: HostRuntime) {
    let screen = Streams::new(true);
    same(
        &rt,
        report_run(&screen, "grbrun", &Ok(())),
        0,
        "a run that is done",
    );
    same(&rt, screen.explained.get(), 0, "what is then explained");
    let fault = Err(RunFault::CannotWrite);
    same(
        &rt,
        report_run(&screen, "grbrun", &fault),
        1,
        "a run that cannot write",
    );
    same(&rt, screen.explained.get(), 1, "what is then explained");
}

#[test]
fn words_that_are_no_text_are_a_fault_of_the_command_line(rt: HostRuntime) {
    let screen = Streams::new(false);
    for (kind, status) in [(ErrorKind::InvalidData, 2), (ErrorKind::OutOfMemory, 1)] {
        let met = report_unread_words(&screen, "grbrun", &io::Error::from(kind));
        same(&rt, met, status, kind);
    }
    let met = (screen.printed.get(), screen.explained.get());
    same(&rt, met, (0, 2), "what was printed and explained");
}

#[test]
fn a_fault_is_told_after_the_name_of_the_program(rt: HostRuntime) -> Result<(), Fail> {
    let script = RunFault::Script {
        line: 1,
        kind: FaultKind::UnknownName,
    };
    let load = RunFault::Load {
        line: 1,
        fault: MarketFault {
            line: 3,
            kind: grb_market::FaultKind::UpperTriangle,
        },
    };
    let rows = [
        (script, "grbrun: line 1: unknown name"),
        (load, "grbrun: line 1: load: line 3: upper triangle"),
        (
            RunFault::TooManySections,
            "grbrun: too many sections for the room",
        ),
        (RunFault::CannotReadScript, "grbrun: cannot read the script"),
        (
            RunFault::CannotReadFile { line: 2 },
            "grbrun: line 2: cannot read the file",
        ),
        (RunFault::ScriptTooLong, "grbrun: the script is too long"),
        (
            RunFault::FileTooLong { line: 31 },
            "grbrun: line 31: the file is too long",
        ),
        (RunFault::OutOfMemory, "grbrun: out of memory"),
        (RunFault::NoThread, "grbrun: cannot start a thread"),
        (RunFault::Panic, "grbrun: GrB_PANIC"),
        (RunFault::CannotWrite, "grbrun: cannot write"),
    ];
    let screen = LastLine {
        alloc: rt.alloc(),
        line: Cell::new(String::new(rt.alloc())),
    };
    for (fault, text) in rows {
        let _ = report_run(&screen, "grbrun", &Err(fault));
        let told = screen.line.replace(String::new(rt.alloc()));
        same(&rt, told.as_str(), text, "a fault");
    }
    let _ = report_run(&screen, "grbtrace", &Err(RunFault::Panic));
    let told = screen.line.replace(String::new(rt.alloc()));
    same(
        &rt,
        told.as_str(),
        "grbtrace: GrB_PANIC",
        "a fault of another program",
    );
    Ok(())
}
