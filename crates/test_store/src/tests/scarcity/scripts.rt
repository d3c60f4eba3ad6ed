//! A script with ever more memory. Where memory is refused outside of its calls the run ends, and nothing is written; in a call its line
//! tells.
ghost use Rattle.std.specs.Prelude.{None};

use crate::tests::same::same;
use crate::tests::scarcity::memory::{STEP, TRIALS, hold_all, leave, leave_ample};
use grb_market::{Sink, SinkFault};
use grb_run::{MAX_FILE, MAX_SCRIPT, OpenGate, RunFault, Source, SourceFault, run_script};
use grb_scarcity::{Hoard, SPARE};
use std::alloc::{AllocError, Global};
use std::fs::Files;
use std::mem;
use std::process::Abort;
use std::sync::Wait;
use std::thread::Threads;

/// A script that loads a matrix, makes a vector and sets an entry of it, and reads the vector and then the matrix.
#[derive(Clone, Copy)]
struct Scene {
    script: &'static str,
    /// Its lines, where no memory is refused.
    lines: &'static [u8],
    /// What the vector is read as with its entry, and without it.
    vector: [&'static [u8]; 2],
    /// What the matrix is read as with its entry, and without it.
    matrix: [&'static [u8]; 2],
}

/// It reads an entry, and a count.
const READS: Scene = Scene {
    script: "load A file\nvector v uint64 5\nset v 2 7\nget v 2\nnvals A\n",
    lines: b"ok\nok\nok\nvalue 7\ncount 1\n",
    vector: [b"value 7", b"none"],
    matrix: [b"count 1", b"count 0"],
};

/// It reads all entries.
const TUPLES: Scene = Scene {
    script: "version 3\nload A file\nvector v uint64 5\nset v 2 7\ntuples v\ntuples A\n",
    lines: b"ok\nok\nok\ntuples 2 7\ntuples 0 1 3\n",
    vector: [b"tuples 2 7", b"tuples"],
    matrix: [b"tuples 0 1 3", b"tuples"],
};

/// It makes a vector, and sets an entry of it in a thread section.
const THREAD: Scene = Scene {
    script: "vector v uint64 5\nthread 1\nset v 2 7\n",
    lines: b"ok\nok\n",
    ..READS
};

const OK: &[u8] = b"ok";

const GONE: &[u8] = b"GrB_UNINITIALIZED_OBJECT";

const REFUSED: &[u8] = b"GrB_OUT_OF_MEMORY";

const FILE: &[u8] = b"%%MatrixMarket matrix coordinate integer general\n2 2 1\n1 2 3\n";

/// Hands out a script and a file that it has, and takes no memory.
#[derive(Drop)]
struct Texts {
    alloc: Global,
    script: Vec<u8>,
    file: Vec<u8>,
}

impl Source for Texts {
    ghost script_bytes = { λ s. None };

    ghost file_bytes = { λ s path. None };

    ghost faults = { λ s. record { cannot_read = 0; too_long = 0; out_of_memory = 0 } };

    fn script(&mut self) -> Result<Vec<u8>, SourceFault> {
        let mut script = mem::replace(&mut self.script, Vec::new(self.alloc));
        script.truncate(MAX_SCRIPT);
        Ok(script)
    }

    fn file(&mut self, _path: &str) -> Result<Vec<u8>, SourceFault> {
        let mut file = mem::replace(&mut self.file, Vec::new(self.alloc));
        file.truncate(MAX_FILE);
        Ok(file)
    }
}

fn texts_of(alloc: Global, script: &str) -> Result<Texts, AllocError> {
    let script = script.as_bytes().to_vec(alloc)?;
    let file = FILE.to_vec(alloc)?;
    Ok(Texts {
        alloc,
        script,
        file,
    })
}

/// Takes bytes while it has places, and takes no memory.
#[derive(Drop)]
struct Places {
    taken: Vec<u8>,
    failures: u64,
}

impl Sink for Places {
    ghost taken = { λ s. None };

    ghost failures = { λ s. s.failures };

    fn put(&mut self, bytes: &[u8]) -> Result<usize, SinkFault> {
        if self.taken.extend_from_slice(bytes).is_err() {
            self.failures += 1;
            return Err(SinkFault);
        }
        Ok(bytes.len())
    }
}

/// How a run ended.
#[derive(Clone, Copy, Debug, PartialEq, Eq)]
enum End {
    /// Memory was refused outside of the calls.
    Refused,
    /// Lines tell of calls that were refused memory.
    Told,
    /// A thread was not started.
    NoThread,
    /// All calls were answered.
    Whole,
}

/// Whether a line is this one, or tells that memory was refused.
fn is_or_tells(line: &[u8], wanted: &[u8]) -> bool {
    line == wanted || line == REFUSED
}

/// Whether these are the five lines of the script, of which some tell that memory was refused. What such a call had made is not there for
/// those after it, but for a matrix whose file alone was not taken over.
fn are_told(scene: Scene, lines: &[&[u8]]) -> bool {
    let [load, made, set, vector, matrix, end] = lines else {
        return false;
    };
    let ([is_there, is_bare], [has_entry, is_empty]) = (scene.vector, scene.matrix);
    let (is_loaded, is_made, is_set) = (*load == OK, *made == OK, *set == OK);
    let may_set = if is_made { OK } else { GONE };
    let may_vector = match (is_made, is_set) {
        (true, true) => is_there,
        (true, false) => is_bare,
        _ => GONE,
    };
    let may_matrix = if is_loaded { has_entry } else { GONE };
    is_or_tells(*load, OK)
        && is_or_tells(*made, OK)
        && is_or_tells(*set, may_set)
        && is_or_tells(*vector, may_vector)
        && (is_or_tells(*matrix, may_matrix) || (!is_loaded && *matrix == is_empty))
        && end.is_empty()
}

/// How a run ended with these lines, which is as it may.
fn end_of<R: Abort>(
    rt: &R,
    alloc: Global,
    scene: Scene,
    ended: &Result<(), RunFault>,
    lines: &[u8],
) -> Result<End, AllocError> {
    let end = match ended {
        Ok(()) if lines == scene.lines => return Ok(End::Whole),
        Ok(()) => {
            let mut each = Vec::new(alloc);
            for line in lines.split(|byte| *byte == b'\n') {
                each.push(line)?;
            }
            same(rt, are_told(scene, &each), true, lines);
            return Ok(End::Told);
        }
        Err(RunFault::OutOfMemory) => End::Refused,
        Err(RunFault::NoThread) => End::NoThread,
        Err(_) => panic!(rt; "the run has another fault"),
    };
    same(rt, lines.len(), 0, "the bytes written");
    Ok(end)
}

/// Runs the script with so many bytes.
fn run_with<R: Abort + Threads + Wait + Sync>(
    rt: &R,
    alloc: Global,
    hoard: &mut Hoard,
    scene: Scene,
    bytes: usize,
) -> Result<End, AllocError> {
    let taken = Vec::with_capacity(alloc, 1_000)?;
    let mut sink = Places { taken, failures: 0 };
    let mut source = texts_of(alloc, scene.script)?;
    leave(rt, hoard, bytes);
    let ended = run_script(rt, alloc, 8, &mut source, &mut sink, &OpenGate);
    leave_ample(rt, hoard);
    end_of(rt, alloc, scene, &ended, &sink.taken)
}

/// Runs the script with ever more memory, until all its calls are answered.
fn sweep<R>(rt: &R, scene: Scene) -> Result<(), AllocError>
where
    R: Abort + Files + AllocGlobal + Print + Threads + Wait + Sync,
{
    let mut hoard = hold_all(rt, 4_000);
    leave_ample(rt, &mut hoard);
    let (mut refused, mut told) = (0u32, 0u32);
    for trial in 0..TRIALS {
        match run_with(rt, rt.alloc(), &mut hoard, scene, trial * STEP)? {
            End::Refused => refused = refused.saturating_add(1),
            End::Told => told = told.saturating_add(1),
            _ => break,
        }
    }
    let end = run_with(rt, rt.alloc(), &mut hoard, scene, SPARE)?;
    hoard.release();
    assert!(rt; println!(rt; "a script: refused {refused}, told in a line {told}").is_ok());
    same(rt, end, End::Whole, "the last run");
    same(rt, (refused > 0, told > 0), (true, true), "the runs");
    Ok(())
}

#[test]
fn a_script_without_memory_writes_nothing(rt: HostRuntime) -> Result<(), AllocError> {
    sweep(&rt, READS)
}

#[test]
fn a_script_without_memory_for_all_entries_writes_nothing(
    rt: HostRuntime,
) -> Result<(), AllocError> {
    sweep(&rt, TUPLES)
}

/// All addresses are taken, and a thread needs some for its stack.
#[test]
fn a_thread_that_is_not_started_ends_the_run(rt: HostRuntime) -> Result<(), AllocError> {
    let mut hoard = hold_all(&rt, 10);
    leave_ample(&rt, &mut hoard);
    let end = run_with(&rt, rt.alloc(), &mut hoard, THREAD, SPARE)?;
    same(&rt, end, End::NoThread, "the run");
    Ok(())
}
