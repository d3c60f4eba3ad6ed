//! The files of a run, read again once it has ended, for what is told of them.
ghost use Rattle.std.specs.Prelude.{◌-◌, ◌<◌, ◌^◌};

use grb_explanations::{Dims, Object, line_at, push_line};
use grb_market::{MarketFault, read};
use grb_run::{MAX_FILE, MAX_SCRIPT, read_all};
use grb_words::{is_load, load_of, words};
use std::alloc::AllocError;
use std::fs;
use std::io::Read;
use std::rt::Files;

/// The bytes of a file of at most so many, or none where they cannot be had.
fn bytes_of<R: Files + AllocGlobal>(rt: &R, path: &str, limit: usize) -> Option<Vec<u8>>
    requires { limit < 2 ^ 64 - 1 }
{
    let file = fs::open(rt, path).ok()?;
    read_all(rt.alloc(), file, limit).ok()
}

/// The text of the script of this path, or no text where it cannot be had.
pub(crate) fn script_text<R: Files + AllocGlobal>(rt: &R, path: &str) -> Vec<u8> {
    match bytes_of(rt, path, MAX_SCRIPT) {
        Some(text) => text,
        None => Vec::new(rt.alloc()),
    }
}

/// The domain and the dimensions of the matrix that the file of this path spells.
fn head_of<R: Files + AllocGlobal>(rt: &R, path: &str) -> Object {
    let Some(bytes) = bytes_of(rt, path, MAX_FILE) else {
        return Object::Unread;
    };
    match read(rt.alloc(), &bytes) {
        Ok(loaded) => Object::Known(loaded.domain, Dims::Matrix(loaded.nrows, loaded.ncols)),
        Err(_) => Object::Unread,
    }
}

/// The path that the line of this number in a script loads, if it loads one.
pub(crate) fn path_at<R: AllocGlobal>(
    rt: &R,
    text: &[u8],
    number: u64,
) -> Result<String, AllocError> {
    let words = words(rt.alloc(), line_at(text, number))?;
    match load_of(&words) {
        Some((_, path)) => String::from_str(rt.alloc(), path),
        None => Ok(String::new(rt.alloc())),
    }
}

/// What the files of a script spell that it loads, in their order.
pub(crate) fn heads_of<R: Files + AllocGlobal>(
    rt: &R,
    text: &[u8],
) -> Result<Vec<Object>, AllocError> {
    let mut heads = Vec::new(rt.alloc());
    for line in text.split(|b| *b == b'\n') {
        let words = words(rt.alloc(), line)?;
        if let (true, Some((_, path))) = (is_load(&words), load_of(&words)) {
            heads.push(head_of(rt, path))?;
        }
    }
    Ok(heads)
}

/// What is told of a file that could not be read: its path, and the cause, where it is met once more.
pub(crate) fn told_of_file<R: Files + AllocGlobal>(
    rt: &R,
    path: &str,
) -> Result<String, AllocError> {
    let mut told = format!(in rt.alloc(); "  file: {path}\n")?;
    let mut first = [0u8; 1];
    let outcome = match fs::open(rt, path) {
        Ok(mut file) => file.read(&mut first).err(),
        Err(error) => Some(error),
    };
    if let Some(error) = outcome {
        write!(told, "  cause: {error}\n")?;
    }
    Ok(told)
}

/// What is told of the first fault of a file that a script loads: its path, and its line as it stands.
pub(crate) fn told_of_market<R: Files + AllocGlobal>(
    rt: &R,
    path: &str,
    fault: MarketFault,
) -> Result<String, AllocError> {
    let mut told = format!(in rt.alloc(); "  file: {path}\n")?;
    if let Some(bytes) = bytes_of(rt, path, MAX_FILE) {
        push_line(&mut told, fault.line, line_at(&bytes, fault.line))?;
    }
    Ok(told)
}
