//! What is told of a run once it has ended, next to what every program tells.
use crate::files::{heads_of, path_at, script_text, told_of_file, told_of_market};
use grb_explanations::{is_any_refused, told_of_fault, told_of_refusals};
use grb_run::RunFault;
use grb_script::ScriptFault;
use std::alloc::AllocError;
use std::rt::Files;

/// What is told of a run that ended early: of a fault the line, its form and its names, and of a file its path and the cause.
fn told_of_end<R: Files + AllocGlobal>(
    rt: &R,
    script: &str,
    fault: &RunFault,
) -> Result<String, AllocError> {
    let text = script_text(rt, script);
    match fault {
        RunFault::Script { line, kind } => {
            let fault = ScriptFault {
                line: *line,
                kind: *kind,
            };
            told_of_fault(rt.alloc(), &text, fault)
        }
        RunFault::Load { line, fault } => {
            told_of_market(rt, path_at(rt, &text, *line)?.as_str(), *fault)
        }
        RunFault::CannotReadFile { line } | RunFault::FileTooLong { line } => {
            told_of_file(rt, path_at(rt, &text, *line)?.as_str())
        }
        RunFault::CannotReadScript | RunFault::ScriptTooLong => told_of_file(rt, script),
        _ => Ok(String::new(rt.alloc())),
    }
}

/// Tells on standard error what is known of a run that ended early. Where memory is refused for it, nothing is told.
pub(crate) fn tell_end<R: Files + Eprint + AllocGlobal>(rt: &R, script: &str, fault: &RunFault) {
    if let Ok(told) = told_of_end(rt, script, fault) {
        let _ = eprint!(rt; "{told}");
    }
}

/// What is told of the statements of a script that were refused, where its run wrote these lines.
fn told_of_lines<R: Files + AllocGlobal>(
    rt: &R,
    script: &str,
    output: &[u8],
) -> Result<String, AllocError> {
    let text = script_text(rt, script);
    let heads = heads_of(rt, &text)?;
    told_of_refusals(rt.alloc(), &text, output, &heads)
}

/// Tells on standard error what is known of the statements that were refused, if some were. Where memory is refused for it, nothing is
/// told.
pub(crate) fn tell_refusals<R: Files + Eprint + AllocGlobal>(rt: &R, script: &str, output: &[u8]) {
    if !is_any_refused(output) {
        return;
    }
    if let Ok(told) = told_of_lines(rt, script, output) {
        let _ = eprint!(rt; "{told}");
    }
}
