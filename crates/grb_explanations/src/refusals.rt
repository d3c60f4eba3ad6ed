//! What is told of the statements that were refused.
use crate::names::{Names, Object, asks_nothing, names_used};
use crate::told::{push_line, push_name};
use grb_core::Refusal;
use grb_words::{is_section, words};
use std::alloc::{AllocError, Global};

/// Each reason for which a statement is refused.
static REFUSALS: [Refusal; 10] = [
    Refusal::UninitializedObject,
    Refusal::InvalidValue,
    Refusal::InvalidIndex,
    Refusal::DomainMismatch,
    Refusal::DimensionMismatch,
    Refusal::OutputNotEmpty,
    Refusal::IndexOutOfBounds,
    Refusal::OrderFull,
    Refusal::OutOfMemory,
    Refusal::Panic,
];

/// The refusal that a line of the output prints, if it prints one.
fn refusal_printed(line: &[u8]) -> Option<Refusal> {
    for refusal in &REFUSALS {
        if refusal.name().as_bytes() == line {
            return Some(*refusal);
        }
    }
    None
}

/// Whether a line of the output prints a refusal.
pub fn is_any_refused(output: &[u8]) -> bool {
    output
        .split(|b| *b == b'\n')
        .any(|line| refusal_printed(line).is_some())
}

/// Appends a refused line as it stands, the refusal with its hint, and what the names stand for that the line uses.
fn push_refusal(
    alloc: Global,
    told: &mut String,
    names: &Names<'_>,
    number: u64,
    line: &[u8],
    words: &[&[u8]],
    refusal: Refusal,
) -> Result<(), AllocError> {
    push_line(told, number, line)?;
    write!(told, "  {}: {}\n", refusal.name(), refusal.hint())?;
    for name in names_used(alloc, words)? {
        push_name(told, names, name, None)?;
    }
    Ok(())
}

/// What is told of the refused statements of a script whose run wrote these lines, in the order of the text: the line as it stands, the
/// refusal with its hint, and the objects as they were before it, by the lines of main and of its section. The heads are those of the files
/// that it loads, in their order.
pub fn told_of_refusals(
    alloc: Global,
    text: &[u8],
    output: &[u8],
    heads: &[Object],
) -> Result<String, AllocError> {
    let mut told = String::new(alloc);
    let mut names = Names::new(alloc);
    let mut answers = output.split(|b| *b == b'\n');
    let mut number: u64 = 0;
    for line in text.split(|b| *b == b'\n') {
        number = number.saturating_add(1);
        let words = words(alloc, line)?;
        if asks_nothing(number, &words) {
            continue;
        }
        let refusal = if is_section(&words) {
            None
        } else {
            answers.next().and_then(refusal_printed)
        };
        if let Some(refusal) = refusal {
            push_refusal(alloc, &mut told, &names, number, line, &words, refusal)?;
        }
        names.take_line(number, &words, refusal.is_some(), heads)?;
    }
    Ok(told)
}
