//! Texts that nobody would write: drawn bytes, lines of drawn pieces, and texts with a few changes.
ghost use Rattle.std.specs.Prelude.{◌≤◌, length};

use grb_drawn::Draw;
use std::alloc::{AllocError, Global};

/// Words of scripts and of Market texts, numbers at their limits, and what stands in neither.
static PIECES: [&[u8]; 80] = [
    b"matrix",
    b"vector",
    b"dup",
    b"free",
    b"set",
    b"remove",
    b"get",
    b"nvals",
    b"size",
    b"clear",
    b"resize",
    b"build",
    b"ewiseadd",
    b"ewisemult",
    b"mxv",
    b"vxm",
    b"mxm",
    b"reduce",
    b"total",
    b"wait",
    b"load",
    b"thread",
    b"finally",
    b"version",
    b"version 2",
    b"mask",
    b"structure",
    b"comp",
    b"accum",
    b"replace",
    b"tran",
    b"materialize",
    b"complete",
    b"bool",
    b"uint64",
    b"true",
    b"false",
    b"plus",
    b"min",
    b"lor",
    b"first_bool",
    b"min.plus",
    b"lor.land",
    b"plus.land",
    b"lor.times",
    b"min.lor",
    b"lxor.min",
    b"land.minus",
    b"times.second_bool",
    b"plus.",
    b"A",
    b"B",
    b"v",
    b"b",
    b"v_32_bytes_are_the_most_of_a_name",
    b"0",
    b"1",
    b"2",
    b"3",
    b"00",
    b"-1",
    b"4294967295",
    b"4294967296",
    b"18446744073709551615",
    b"18446744073709551616",
    b"340282366920938463463374607431768211456",
    b"%%MatrixMarket matrix coordinate integer symmetric",
    b"%",
    b"#",
    b"\n",
    b"\n\n",
    b" \n",
    b"  ",
    b"\t",
    b"\r\n",
    b"\x0B",
    b"\0",
    b"\x7F",
    b"\xFF\xFE",
    b"\xC3\xA9",
];

fn piece(draw: &mut Draw) -> &'static [u8] {
    PIECES[draw.below(80) as usize]
}

/// A place in a text of this length, or its end.
fn place(draw: &mut Draw, length: usize) -> usize
    ensures { result ≤ length }
{
    if length == 0 {
        return 0;
    }
    draw.below(length as u64) as usize
}

fn byte(draw: &mut Draw) -> u8 {
    draw.below(256) as u8
}

/// Adds so many drawn bytes.
pub(crate) fn push_bytes(
    draw: &mut Draw,
    count: u64,
    text: &mut Vec<u8>,
) -> Result<(), AllocError> {
    for _ in 0..count {
        text.push(byte(draw))?;
    }
    Ok(())
}

/// Adds so many drawn pieces, with a space between most.
pub(crate) fn push_pieces(
    draw: &mut Draw,
    count: u64,
    text: &mut Vec<u8>,
) -> Result<(), AllocError> {
    for _ in 0..count {
        text.extend_from_slice(piece(draw))?;
        match draw.below(8) {
            0 => text.push(b'\n')?,
            1 => {}
            _ => text.push(b' ')?,
        }
    }
    Ok(())
}

/// Where the word ends that stands at `at`.
fn end_of_word(text: &[u8], at: usize) -> usize
    requires { at ≤ length text.now }
    ensures { (at ≤ result) × (result ≤ length text.now) }
{
    for i in at..text.len() {
        if text[i] == b' ' || text[i] == b'\n' {
            return i;
        }
    }
    text.len()
}

/// The text with a piece in place of the bytes from `from` on up to `end`.
fn with_piece(
    alloc: Global,
    draw: &mut Draw,
    text: &[u8],
    from: usize,
    end: usize,
) -> Result<Vec<u8>, AllocError>
    requires { (from ≤ end) × (end ≤ length text.now) }
{
    let mut changed = text[..from].to_vec(alloc)?;
    changed.extend_from_slice(piece(draw))?;
    changed.extend_from_slice(&text[end..])?;
    Ok(changed)
}

/// The text with a piece in place of a word.
fn with_another_word(alloc: Global, draw: &mut Draw, text: &[u8]) -> Result<Vec<u8>, AllocError> {
    let before = end_of_word(text, place(draw, text.len()));
    let from = text.len().min(before.saturating_add(1));
    let end = end_of_word(text, from);
    with_piece(alloc, draw, text, from, end)
}

/// The text with a byte changed or taken out.
fn with_another_byte(alloc: Global, draw: &mut Draw, text: &[u8]) -> Result<Vec<u8>, AllocError> {
    let mut changed = text.to_vec(alloc)?;
    let at = place(draw, text.len());
    if at >= changed.len() {
        return Ok(changed);
    }
    if draw.truth() {
        changed[at] = byte(draw);
    } else {
        changed.remove(at);
    }
    Ok(changed)
}

/// Takes a line out, doubles it, or lets two lines change places.
fn change_lines(draw: &mut Draw, lines: &mut Vec<&[u8]>) -> Result<(), AllocError> {
    let (at, other) = (place(draw, lines.len()), place(draw, lines.len()));
    if at >= lines.len() || other >= lines.len() {
        return Ok(());
    }
    match draw.below(3) {
        0 => {
            lines.remove(at);
        }
        1 => lines.insert(other, lines[at])?,
        _ => lines.swap(at, other),
    }
    Ok(())
}

/// The text with its lines changed.
fn with_other_lines(alloc: Global, draw: &mut Draw, text: &[u8]) -> Result<Vec<u8>, AllocError> {
    let mut lines: Vec<&[u8]> = text.split(|b| *b == b'\n').collect(alloc)?;
    let _rest = lines.pop();
    change_lines(draw, &mut lines)?;
    let mut changed = Vec::new(alloc);
    for line in lines {
        changed.extend_from_slice(line)?;
        changed.push(b'\n')?;
    }
    Ok(changed)
}

/// The text with one change.
fn changed_once(alloc: Global, draw: &mut Draw, text: &[u8]) -> Result<Vec<u8>, AllocError> {
    let at = place(draw, text.len());
    match draw.below(12) {
        0 | 1 => with_another_byte(alloc, draw, text),
        2 => text[..at].to_vec(alloc),
        3 => with_piece(alloc, draw, text, at, at),
        4..=7 => with_other_lines(alloc, draw, text),
        _ => with_another_word(alloc, draw, text),
    }
}

/// The text with one to three changes.
pub(crate) fn changed(alloc: Global, draw: &mut Draw, text: &[u8]) -> Result<Vec<u8>, AllocError> {
    let mut changed = changed_once(alloc, draw, text)?;
    for _ in 0..draw.below(3) {
        changed = changed_once(alloc, draw, &changed)?;
    }
    Ok(changed)
}
