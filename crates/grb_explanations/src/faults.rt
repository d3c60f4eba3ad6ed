//! What is told of the first fault of a script.
use crate::forms::{OPTIONS, form_of, near_first_word};
use crate::names::{Names, asks_nothing, name_made, names_used};
use crate::told::{push_line, push_name, word_of_domain};
use grb_script::{FaultKind, ScriptFault};
use grb_words::word::semiring;
use grb_words::words;
use std::alloc::{AllocError, Global};

/// The line of this number, counted from 1, or no bytes where there is none.
pub fn line_at(text: &[u8], number: u64) -> &[u8] {
    let at = number.saturating_sub(1);
    for (place, line) in text.split(|b| *b == b'\n').enumerate() {
        if place as u64 == at {
            return line;
        }
    }
    &[]
}

/// The names that stand on the line of this number, where the lines before it were done.
pub(crate) fn names_at(alloc: Global, text: &[u8], number: u64) -> Result<Names<'_>, AllocError> {
    let mut names = Names::new(alloc);
    let mut at: u64 = 0;
    for line in text.split(|b| *b == b'\n') {
        at = at.saturating_add(1);
        if at >= number {
            break;
        }
        let words = words(alloc, line)?;
        if !asks_nothing(at, &words) {
            names.take_line(at, &words, false, &[])?;
        }
    }
    Ok(names)
}

/// The first line that makes this name, in any section.
fn line_that_makes(alloc: Global, text: &[u8], name: &[u8]) -> Result<Option<u64>, AllocError> {
    let mut at: u64 = 0;
    for line in text.split(|b| *b == b'\n') {
        at = at.saturating_add(1);
        let words = words(alloc, line)?;
        if name_made(&words) == Some(name) {
            return Ok(Some(at));
        }
    }
    Ok(None)
}

/// Appends the form of the line with these words, or a word near the first.
fn push_form(text: &mut String, words: &[&[u8]]) -> Result<(), AllocError> {
    let Some(first) = words.first() else {
        return Ok(());
    };
    match (form_of(first), near_first_word(first)) {
        (Some(form), _) => write!(text, "  form: {form}\n")?,
        (None, Some(near)) => write!(text, "  no line begins so; near it is {near}\n")?,
        (None, None) => text.push_str("  no line begins so, and no word near it does\n")?,
    }
    if form_of(first).is_some_and(|form| form.contains("OPTIONS")) {
        write!(text, "  {OPTIONS}\n")?;
    }
    Ok(())
}

/// Appends the domains of the first word that is a semiring.
fn push_semiring(text: &mut String, words: &[&[u8]]) -> Result<(), AllocError> {
    for word in words {
        if let Some((monoid, op)) = semiring(word) {
            return write!(
                text,
                "  its MONOID is of {}, and its OP of {}\n",
                word_of_domain(monoid.domain()),
                word_of_domain(op.domain())
            );
        }
    }
    Ok(())
}

/// Appends what these names stand for, which stand on the line of this number.
fn push_names(
    alloc: Global,
    told: &mut String,
    text: &[u8],
    number: u64,
    asked: &[&[u8]],
) -> Result<(), AllocError> {
    let names = names_at(alloc, text, number)?;
    for name in asked {
        let elsewhere = line_that_makes(alloc, text, name)?;
        push_name(told, &names, name, elsewhere)?;
    }
    Ok(())
}

/// What is told of the first fault of this script: the line as it stands, the form of such lines, and what the names stand for that the
/// fault is about.
pub fn told_of_fault(alloc: Global, text: &[u8], fault: ScriptFault) -> Result<String, AllocError> {
    let mut told = String::new(alloc);
    let line = line_at(text, fault.line);
    let words = words(alloc, line)?;
    push_line(&mut told, fault.line, line)?;
    match fault.kind {
        FaultKind::UnendedLine => told.push_str("  no line end stands after it\n")?,
        FaultKind::BadByte => told.push_str(
            "  a byte other than 0x20 to 0x7E is shown as \\xNN\n",
        )?,
        FaultKind::Section | FaultKind::Statement => push_form(&mut told, &words)?,
        FaultKind::NameTaken => {
            if let Some(name) = name_made(&words) {
                push_names(alloc, &mut told, text, fault.line, &[name])?;
            }
        }
        FaultKind::UnknownName | FaultKind::WrongKind => {
            push_form(&mut told, &words)?;
            let used = names_used(alloc, &words)?;
            push_names(alloc, &mut told, text, fault.line, &used)?;
        }
        FaultKind::Semiring => {
            push_form(&mut told, &words)?;
            push_semiring(&mut told, &words)?;
        }
    }
    Ok(told)
}
