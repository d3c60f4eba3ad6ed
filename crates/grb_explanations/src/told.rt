//! What is told of lines and names, next to what every program tells.
use crate::names::{Dims, Named, Names, Object, State};
use grb_core::Domain;
use std::alloc::AllocError;

/// How many bytes of a line are shown at most.
const SHOWN: usize = 200;

/// Appends bytes as they stand, but those that are not 0x20 to 0x7E as `\xNN`, and `..` where there are more than are shown.
fn push_bytes(text: &mut String, bytes: &[u8]) -> Result<(), AllocError> {
    for byte in bytes.iter().take(SHOWN) {
        if (0x20..=0x7E).contains(byte) {
            text.push(char::from(*byte))?;
        } else {
            write!(text, "\\x{byte:02x}")?;
        }
    }
    if bytes.len() > SHOWN {
        text.push_str(" ..")?;
    }
    Ok(())
}

/// Appends the line of this number as it stands.
pub fn push_line(text: &mut String, number: u64, line: &[u8]) -> Result<(), AllocError> {
    write!(text, "  line {number}: ")?;
    push_bytes(text, line)?;
    text.push_str("\n")
}

/// The word of a domain.
pub(crate) fn word_of_domain(domain: Domain) -> &'static str {
    match domain {
        Domain::Bool => "bool",
        Domain::Uint64 => "uint64",
    }
}

/// Appends the sort, the domain and the dimensions of an object.
fn push_object(text: &mut String, object: Object) -> Result<(), AllocError> {
    match object {
        Object::Known(domain, Dims::Matrix(nrows, ncols)) => write!(
            text,
            "a matrix of {} of {nrows} rows and {ncols} columns",
            word_of_domain(domain)
        ),
        Object::Known(domain, Dims::Vector(size)) => {
            write!(
                text,
                "a vector of {} of size {size}",
                word_of_domain(domain)
            )
        }
        Object::Unread => text.push_str("a matrix as its file spells it"),
    }
}

/// Appends a name and what it stands for, with the line that made it.
fn push_named(text: &mut String, named: Named<'_>) -> Result<(), AllocError> {
    text.push_str("`")?;
    push_bytes(text, named.name)?;
    text.push_str("` is ")?;
    push_object(text, named.object)?;
    match named.state {
        State::Made => write!(text, ", made on line {}", named.line),
        State::Refused => write!(text, ", whose making on line {} was refused", named.line),
        State::Freed(line) => {
            write!(
                text,
                ", made on line {} and freed on line {line}",
                named.line
            )
        }
    }
}

/// Appends a line on what a name stands for, where these names stand; where it stands for nothing, on a name near it, or on the line of the
/// script that makes it in vain.
pub(crate) fn push_name(
    text: &mut String,
    names: &Names<'_>,
    name: &[u8],
    elsewhere: Option<u64>,
) -> Result<(), AllocError> {
    text.push_str("  ")?;
    if let Some(named) = names.find(name) {
        push_named(text, named)?;
        return text.push_str("\n");
    }
    text.push_str("`")?;
    push_bytes(text, name)?;
    text.push_str("` does not stand here")?;
    if let Some(line) = elsewhere {
        write!(text, "; line {line} makes it, in another section or later")?;
    } else if let Some(near) = names.near(name) {
        text.push_str("; near it ")?;
        push_named(text, near)?;
    } else {
        text.push_str(", and no name near it does")?;
    }
    text.push_str("\n")
}
