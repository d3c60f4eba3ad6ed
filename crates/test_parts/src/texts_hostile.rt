//! Texts that nobody would write, more than a million bytes of scripts and of Market texts: drawn bytes, drawn pieces of lines, and valid
//! texts with a few changes.
//!
//! Contracts say what is read of each text. None says that the reader comes to an end soon, and that memory suffices whatever a text
//! states; and by which rules a text has its fault, a reader of the contract has to believe. Here each answer is seen again in another
//! way: a script says the same with wider spaces, and a matrix is read back from its canonical text.
use crate::same::same;
use crate::texts_changed::{changed, push_bytes, push_pieces};
use grb_core::{Domain, Value};
use grb_drawn::Draw;
use grb_market::{Loaded, ReadError, read};
use grb_script::{Command, NumberedCommand, ReadFault, Script, read_script};
use std::alloc::{AllocError, Global};
use std::process::Abort;

/// A script with each statement, and with sections.
const SCRIPT: &[u8] = b"# each statement\n\
    vector v uint64 5\n\
    vector b bool 5\n\
    matrix A uint64 5 5\n\
    matrix B bool 5 5\n\
    build A plus 0 1 2 1 2 3\n\
    build v min 0 4 1 5\n\
    set v 2 7\n\
    set A 1 1 8\n\
    set b 0 true\n\
    get v 2\n\
    get A 0 1\n\
    remove v 2\n\
    remove A 0 1\n\
    nvals v\n\
    size A\n\
    clear b\n\
    resize v 6\n\
    resize A 6 6\n\
    dup w v\n\
    ewiseadd w v v plus\n\
    ewisemult A A A times mask B structure comp accum plus replace\n\
    mxv w A v min.plus accum min\n\
    mxm B B B lor.land mask A\n\
    mxv v A v max.first\n\
    mxv b B b lxor.land\n\
    mxm A A A min.second\n\
    mxm A A A plus.minus\n\
    reduce w A plus\n\
    total A max\n\
    wait A materialize\n\
    load C a/file.mtx\n\
    free w\n\
    thread 1\n\
    set v 1 1\n\
    vector y bool 2\n\
    thread 2\n\
    get v 1\n\
    finally\n\
    wait v complete\n";

/// A script of the second version, with each statement that it has more.
const SECOND: &[u8] = b"version 2\n\
    vector v uint64 5\n\
    vector b bool 5\n\
    matrix A uint64 5 5\n\
    matrix B bool 5 5\n\
    build A plus 0 1 2 1 2 3\n\
    vxm v v A min.plus accum min\n\
    vxm b b B lor.land mask b structure comp replace\n\
    mxv v A v plus.minus tran\n\
    mxm A A A plus.times mask A tran\n\
    ewiseadd A A A first tran\n\
    ewisemult B B B lxor accum lor replace tran\n\
    reduce v A plus tran\n\
    thread 1\n\
    vxm v v A max.first\n\
    finally\n\
    total A plus\n";

static SCRIPTS: [&[u8]; 2] = [SCRIPT, SECOND];

static MARKETS: [&[u8]; 4] = [
    b"%%MatrixMarket matrix coordinate integer general\n% a comment\n3 4 5\n1 1 5\n3 4 0\n2 2 18446744073709551615\n1 4 7\n2 1 1\n",
    b"%%MatrixMarket matrix coordinate integer symmetric\n%\n3 3 4\n1 1 5\n3 3 6\n3 1 7\n2 1 8\n",
    b"%%MatrixMarket matrix coordinate pattern general\n4294967295 2 3\n1 1\n4294967295 2\n2 1\n",
    b"%%MatrixMarket matrix coordinate pattern symmetric\n3 3 3\n2 1\n3\t2\n003  3\n",
];

/// How many bytes the texts had, how many texts were read, and how many had each fault.
#[derive(Drop)]
struct Met {
    bytes: u64,
    read: u64,
    faults: [u64; 12],
}

impl Met {
    fn none() -> Met {
        Met {
            bytes: 0,
            read: 0,
            faults: [0; 12],
        }
    }

    fn add_text(&mut self, text: &[u8]) {
        self.bytes = self.bytes.saturating_add(text.len() as u64);
    }

    fn add_fault(&mut self, kind: usize) {
        if let Some(count) = self.faults.get_mut(kind) {
            *count = count.saturating_add(1);
        }
    }
}

/// The lines of a text, an unended one too.
fn lines_of(text: &[u8]) -> u64 {
    let mut ended = 0u64;
    for b in text {
        if *b == b'\n' {
            ended = ended.saturating_add(1);
        }
    }
    match text {
        [] | [.., b'\n'] => ended,
        _ => ended.saturating_add(1),
    }
}

/// The text with two spaces for each.
fn with_wider_spaces(alloc: Global, text: &[u8]) -> Result<Vec<u8>, AllocError> {
    let mut wider = Vec::new(alloc);
    for b in text {
        wider.push(*b)?;
        if *b == b' ' {
            wider.push(b' ')?;
        }
    }
    Ok(wider)
}

fn is_same_command(found: &Command, wanted: &Command) -> bool {
    match (found, wanted) {
        (Command::Statement(one), Command::Statement(other)) => *one == *other,
        (Command::Load(one), Command::Load(other)) => one.as_str() == other.as_str(),
        _ => false,
    }
}

fn expect_commands(
    rt: &impl Abort,
    found: &[NumberedCommand],
    wanted: &[NumberedCommand],
    lines: u64,
) {
    same(rt, found.len(), wanted.len(), "the commands");
    for (one, other) in found.iter().zip(wanted) {
        same(rt, one.line, other.line, "the line of a command");
        same(
            rt,
            is_same_command(&one.command, &other.command),
            true,
            one.line,
        );
        assert!(rt; one.line >= 1 && one.line <= lines);
    }
}

fn expect_sections(rt: &impl Abort, found: &Script, wanted: &Script, lines: u64) {
    expect_commands(rt, &found.main, &wanted.main, lines);
    same(
        rt,
        found.threads.len(),
        wanted.threads.len(),
        "the sections",
    );
    for (one, other) in found.threads.iter().zip(&wanted.threads) {
        expect_commands(rt, one, other, lines);
    }
    expect_commands(rt, &found.finally, &wanted.finally, lines);
}

/// The text is read as a script or has a fault in one of its lines, and the same with wider spaces.
fn expect_script(
    rt: &impl Abort,
    alloc: Global,
    text: &[u8],
    met: &mut Met,
) -> Result<(), AllocError> {
    met.add_text(text);
    let wider = with_wider_spaces(alloc, text)?;
    let lines = lines_of(text);
    match (read_script(alloc, text), read_script(alloc, &wider)) {
        (Ok(script), Ok(again)) => {
            expect_sections(rt, &script, &again, lines);
            met.read = met.read.saturating_add(1);
        }
        (Err(ReadFault::Fault(fault)), Err(ReadFault::Fault(again))) => {
            same(rt, fault, again, "the fault with wider spaces");
            assert!(rt; fault.line >= 1 && fault.line <= lines, "{fault:?}");
            met.add_fault(fault.kind as usize);
        }
        _ => panic!(rt; "one of two readings failed"),
    }
    Ok(())
}

/// The canonical text of a matrix.
fn canonical(alloc: Global, loaded: &Loaded) -> Result<String, AllocError> {
    let field = match loaded.domain {
        Domain::Bool => "pattern",
        Domain::Uint64 => "integer",
    };
    let tuples = loaded.tuples.as_slice();
    let mut text = format!(in alloc; "%%MatrixMarket matrix coordinate {field} general\n")?;
    write!(text, "{} {} {}\n", loaded.nrows, loaded.ncols, tuples.len())?;
    for (i, j, value) in tuples {
        let (i, j) = (i.saturating_add(1), j.saturating_add(1));
        match value {
            Value::Bool(_) => write!(text, "{i} {j}\n")?,
            Value::Uint64(n) => write!(text, "{i} {j} {n}\n")?,
        }
    }
    Ok(text)
}

fn expect_matrix(rt: &impl Abort, found: &Loaded, wanted: &Loaded) {
    same(rt, found.domain, wanted.domain, "the domain");
    let (dims, others) = ((found.nrows, found.ncols), (wanted.nrows, wanted.ncols));
    same(rt, dims, others, "rows and columns");
    same(
        rt,
        found.tuples.as_slice(),
        wanted.tuples.as_slice(),
        "the entries",
    );
}

/// The text spells a matrix that is read back, or has a fault in one of its lines or the one behind them.
fn expect_market(
    rt: &impl Abort,
    alloc: Global,
    text: &[u8],
    met: &mut Met,
) -> Result<(), AllocError> {
    met.add_text(text);
    match read(alloc, text) {
        Ok(loaded) => {
            let written = canonical(alloc, &loaded)?;
            match read(alloc, written.as_bytes()) {
                Ok(again) => expect_matrix(rt, &again, &loaded),
                Err(error) => panic!(rt; "not read back: {error}"),
            }
            met.read = met.read.saturating_add(1);
        }
        Err(ReadError::Fault(fault)) => {
            let behind = lines_of(text).saturating_add(1);
            assert!(rt; fault.line >= 1 && fault.line <= behind, "{fault:?}");
            met.add_fault(fault.kind as usize);
        }
        Err(ReadError::OutOfMemory) => panic!(rt; "memory suffices"),
    }
    Ok(())
}

/// A text with drawn bytes or with drawn pieces behind it, or these alone, or the text with a few changes.
fn hostile_text(alloc: Global, draw: &mut Draw, valid: &[u8]) -> Result<Vec<u8>, AllocError> {
    let kept = if draw.truth() { valid.len() } else { 0 };
    let mut text = valid[..kept].to_vec(alloc)?;
    match draw.below(8) {
        0 => push_bytes(draw, 600, &mut text)?,
        1 => push_pieces(draw, 100, &mut text)?,
        _ => return changed(alloc, draw, valid),
    }
    Ok(text)
}

/// There were enough bytes, texts that were read, and texts with each of so many faults.
fn expect_met(rt: &impl Abort, met: &Met, kinds: usize) {
    assert!(rt; met.bytes >= 1_000_000, "{} bytes", met.bytes);
    assert!(rt; met.read >= 100, "{} texts were read", met.read);
    for (kind, count) in met.faults.iter().enumerate().take(kinds) {
        assert!(rt; *count > 0, "no text had the fault {kind}");
    }
}

#[test]
fn a_hostile_script_has_a_fault_or_says_the_same_again(rt: HostRuntime) -> Result<(), AllocError> {
    let mut draw = Draw { state: 1 };
    let mut met = Met::none();
    for _ in 0..2_000 {
        for valid in SCRIPTS {
            let text = hostile_text(rt.alloc(), &mut draw, valid)?;
            expect_script(&rt, rt.alloc(), &text, &mut met)?;
        }
    }
    expect_met(&rt, &met, 8);
    Ok(())
}

#[test]
fn a_hostile_market_text_has_a_fault_or_is_read_back(rt: HostRuntime) -> Result<(), AllocError> {
    let mut draw = Draw { state: 2 };
    let mut met = Met::none();
    for _ in 0..2_000 {
        for valid in MARKETS {
            let text = hostile_text(rt.alloc(), &mut draw, valid)?;
            expect_market(&rt, rt.alloc(), &text, &mut met)?;
        }
    }
    expect_met(&rt, &met, 12);
    Ok(())
}
