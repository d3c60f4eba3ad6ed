//! Files at their last byte, and readers that fail. What a file holds is known to no contract, and a script loads small files that are
//! there.
ghost use Rattle.grb_run.specs.Source.{AreCountable};
ghost use Rattle.grb_run.specs.Files.{counts_of};

use crate::tests::same::same;
use crate::tests::sinks::sink_of;
use grb_run::{FileSource, OpenGate, RunFault, Source, SourceFault, read_all, run_script};
use std::io::{ErrorKind, Read};
use std::process::Abort;
use std::rt::Files;
use std::test::Fail;
use std::{fs, io};

/// What was read, or why nothing was.
fn lent(read: &Result<Vec<u8>, SourceFault>) -> Result<&[u8], SourceFault> {
    match read {
        Ok(bytes) => Ok(bytes.as_slice()),
        Err(fault) => Err(*fault),
    }
}

#[test]
fn a_reader_is_read_to_its_end_or_to_the_limit(rt: HostRuntime) {
    let rows: [(&[u8], usize, bool); 5] = [
        (b"", 0, true),
        (b"a", 0, false),
        (b"abc", 3, true),
        (b"abcd", 3, false),
        (b"abc", 4, true),
    ];
    for (bytes, limit, is_read) in rows {
        let wanted = if is_read {
            Ok(bytes)
        } else {
            Err(SourceFault::TooLong)
        };
        let read = read_all(rt.alloc(), bytes, limit);
        same(&rt, lent(&read), wanted, (bytes, limit));
    }
}

/// A reader that gives one byte and then fails.
#[derive(Drop)]
struct Failing {
    has_given: bool,
    kind: ErrorKind,
}

impl Read for Failing {
    fn read(&mut self, buf: &mut [u8]) -> io::Result<usize> {
        if self.has_given || buf.is_empty() {
            return Err(io::Error::from(self.kind));
        }
        self.has_given = true;
        buf[0] = b'a';
        Ok(1)
    }
}

#[test]
fn a_failing_reader_gives_nothing(rt: HostRuntime) {
    let rows = [
        (ErrorKind::OutOfMemory, SourceFault::OutOfMemory),
        (ErrorKind::IsADirectory, SourceFault::CannotRead),
        (ErrorKind::Other, SourceFault::CannotRead),
    ];
    for (kind, fault) in rows {
        let reader = Failing {
            has_given: false,
            kind,
        };
        let read = read_all(rt.alloc(), reader, 100);
        same(&rt, lent(&read), Err(fault), kind);
    }
}

/// How many bytes the script has, or why it was not read.
fn length_of_script<R: Files + AllocGlobal>(
    rt: &impl Abort,
    source: &mut FileSource<'_, R>,
) -> Result<usize, SourceFault> {
    expect_few_faults(rt, source);
    length_of(source.script())
}

/// How many bytes the file of this path has, or why it was not read.
fn length_of_file<R: Files + AllocGlobal>(
    rt: &impl Abort,
    source: &mut FileSource<'_, R>,
    path: &str,
) -> Result<usize, SourceFault> {
    expect_few_faults(rt, source);
    length_of(source.file(path))
}

fn expect_few_faults<R: Files + AllocGlobal>(rt: &impl Abort, source: &FileSource<'_, R>)
    ensures { AreCountable (counts_of source.now) }
{
    assert!(rt; source.cannot_read < 10);
    assert!(rt; source.too_long < 10);
    assert!(rt; source.out_of_memory < 10);
}

/// How many bytes were read, or why none were.
fn length_of(read: Result<Vec<u8>, SourceFault>) -> Result<usize, SourceFault> {
    match read {
        Ok(bytes) => Ok(bytes.len()),
        Err(fault) => Err(fault),
    }
}

#[test]
fn faults_are_counted_one_by_one(rt: HostRuntime) {
    let mut source = FileSource::new(&rt, "/dev/null");
    let script = length_of_script(&rt, &mut source);
    same(&rt, script, Ok(0), "the script");
    let missing = length_of_file(&rt, &mut source, "no such folder/x");
    same(&rt, missing, Err(SourceFault::CannotRead), "no file");
    let folder = length_of_file(&rt, &mut source, "/");
    same(&rt, folder, Err(SourceFault::CannotRead), "a folder");
    let nothing = length_of_file(&rt, &mut source, "/dev/null");
    same(&rt, nothing, Ok(0), "no bytes");
    let met = (source.cannot_read, source.too_long, source.out_of_memory);
    same(&rt, met, (2, 0, 0), "faults of the folder");
    let mut endless = FileSource::new(&rt, "/dev/zero");
    let read = length_of_script(&rt, &mut endless);
    same(&rt, read, Err(SourceFault::TooLong), "an endless file");
    let met = (endless.cannot_read, endless.too_long, endless.out_of_memory);
    same(&rt, met, (0, 1, 0), "faults of the endless file");
}

/// A script of empty lines runs to its end, and one of a byte more does not begin.
#[test]
fn a_script_is_at_most_a_mebibyte(rt: HostRuntime) -> Result<(), Fail> {
    for (length, ended) in [
        (1_048_576, Ok(())),
        (1_048_577, Err(RunFault::ScriptTooLong)),
    ] {
        let lines = vec![in rt.alloc(); b'\n'; length]?;
        fs::write(&rt, "lines.grb", lines)?;
        let mut source = FileSource::new(&rt, "lines.grb");
        let mut sink = sink_of(rt.alloc(), 1000, 1000);
        let met = run_script(&rt, rt.alloc(), 4096, &mut source, &mut sink, &OpenGate);
        same(&rt, &met, &ended, length);
        same(&rt, sink.taken.len(), 0, length);
    }
    fs::remove_file(&rt, "lines.grb")?;
    Ok(())
}

#[test]
fn a_file_of_more_than_sixty_four_mebibytes_is_too_long(rt: HostRuntime) -> Result<(), Fail> {
    let mut source = FileSource::new(&rt, "/dev/null");
    let written = fs::create(&rt, "zeros.mtx")?;
    for (length, read) in [
        (1_048_577, Ok(1_048_577)),
        (67_108_864, Ok(67_108_864)),
        (67_108_865, Err(SourceFault::TooLong)),
    ] {
        written.set_len(length)?;
        let met = length_of_file(&rt, &mut source, "zeros.mtx");
        same(&rt, met, read, length);
    }
    fs::remove_file(&rt, "zeros.mtx")?;
    let endless = length_of_file(&rt, &mut source, "/dev/zero");
    same(&rt, endless, Err(SourceFault::TooLong), "an endless file");
    let met = (source.cannot_read, source.too_long, source.out_of_memory);
    same(&rt, met, (0, 2, 0), "faults");
    Ok(())
}
