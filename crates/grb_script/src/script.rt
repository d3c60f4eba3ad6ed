//! A script, read whole: its lines, section by section, or its first fault.
ghost use Rattle.std.specs.Prelude.{◌≡◌, ◌≤◌, [], ◌++◌, None, IfOk, IfErr, OnOk, length};
ghost use Rattle.grb_market.specs.Line.{ended};
ghost use Rattle.grb_words.specs.Line.{words_of};
ghost use Rattle.grb_words.specs.declared.version.Version.TheVariants as versions;
ghost use Rattle.grb_script.specs.Scope.{at_start, most_threads, seen, IsKept};
ghost use Rattle.grb_script.specs.Script.{listed, joined, nothing, part_of, sections_of};
ghost use Rattle.grb_script.specs.LineMeaning.{IsLineTaken, IsTaken};
ghost use Rattle.grb_script.specs.ScriptFault.{line_fault, script_fault, IsWhyLineUnread, IsWhyTextUnread};

use crate::command::NumberedCommand;
use crate::fault::ReadFault;
use crate::line::{LineMeaning, fault, read_line};
use crate::scope::Scope;
use grb_market::next_line;
use grb_words::{FaultKind, Section};
use std::alloc::{AllocError, Global};
use std::mem;

/// What a script asks for, by its sections. A name stands in a statement as its number among the names that stand in its section: those of
/// main in the order of making, and then those of the section.
#[derive(Drop)]
pub struct Script {
    /// What stands before the first section.
    pub main: Vec<NumberedCommand>,
    /// The thread sections: that of `thread K` at K - 1. There are at most 255, and at most 63 in version 1.
    pub threads: Vec<Vec<NumberedCommand>>,
    /// What stands after `finally`, where that stands.
    pub finally: Vec<NumberedCommand>,
}

/// Moves the commands behind those of the list, and empties theirs. Where that list has none it takes theirs as it lies, and no memory.
/// `AllocError` where memory is refused; then nothing is moved.
fn move_behind(
    list: &mut Vec<NumberedCommand>,
    commands: &mut Vec<NumberedCommand>,
) -> Result<(), AllocError>
    ensures moved { OnOk result (list.new.items ≡ list.old.items ++ commands.old.items) }
    ensures emptied { OnOk result (commands.new.items ≡ []) }
{
    if list.is_empty() {
        mem::swap(list, commands);
        return Ok(());
    }
    list.append(commands)
}

/// Adds the commands of a section to a script, and empties their list. `AllocError` where memory is refused; what the script has then,
/// no clause says.
fn end_section(
    alloc: Global,
    script: &mut Script,
    section: Option<Section>,
    commands: &mut Vec<NumberedCommand>,
) -> Result<(), AllocError>
    ensures added { OnOk result (listed script.new ≡ joined (listed script.old) (part_of section commands.old.items)) }
    ensures emptied { OnOk result (commands.new.items ≡ []) }
{
    match section {
        None => move_behind(&mut script.main, commands),
        Some(Section::Finally) => move_behind(&mut script.finally, commands),
        Some(Section::Thread(_)) => {
            let thread = mem::replace(commands, Vec::new(alloc));
            script.threads.push(thread).map_err(AllocError::from)
        }
    }
}

/// Takes in the line of this number, which stands in this section: its command joins those of the section so far. `AllocError` where memory
/// is refused; what the script has then, no clause says.
fn take(
    alloc: Global,
    script: &mut Script,
    section: Option<Section>,
    commands: &mut Vec<NumberedCommand>,
    number: u64,
    meaning: Option<LineMeaning>,
) -> Result<(), AllocError>
    ensures { OnOk result (IsTaken number section meaning (listed script.old) commands.old.items (listed script.new) commands.new.items) }
{
    match meaning {
        None => Ok(()),
        Some(LineMeaning::Section(_)) => end_section(alloc, script, section, commands),
        Some(LineMeaning::Command(command)) => commands
            .push(NumberedCommand {
                line: number,
                command,
            })
            .map_err(AllocError::from),
    }
}

/// Reads a line of this number, and takes what it says. Its words are put into this list. `OutOfMemory` where memory for that is refused.
fn take_line<'a>(
    alloc: Global,
    script: &mut Script,
    commands: &mut Vec<NumberedCommand>,
    words: &mut Vec<&'a [u8]>,
    scope: &mut Scope,
    number: u64,
    line: &'a [u8],
) -> Result<(), ReadFault>
    requires kept { IsKept scope.old }
    ensures faultless { OnOk result (line_fault (seen scope.old) (ended line.now) ≡ None) }
    ensures taken { OnOk result (IsLineTaken number (seen scope.old) (words_of line.now) (listed script.old) commands.old.items (seen scope.new) (listed script.new) commands.new.items) }
    ensures kept { OnOk result (IsKept scope.new) }
    ensures fault { IfErr result (IsWhyLineUnread number (seen scope.old) (ended line.now)) }
{
    let section = scope.section;
    let meaning = read_line(alloc, number, line, words, scope)?;
    Ok(take(alloc, script, section, commands, number, meaning)?)
}

/// Reads the lines of a text into a script without commands, by a list of commands that is empty. `OutOfMemory` where memory is refused;
/// what the script has then, no clause says.
fn read_lines(
    alloc: Global,
    text: &[u8],
    script: &mut Script,
    commands: &mut Vec<NumberedCommand>,
    scope: &mut Scope,
) -> Result<(), ReadFault>
    requires start { seen scope.old ≡ at_start }
    requires kept { IsKept scope.old }
    requires none { listed script.old ≡ nothing }
    requires no_commands { commands.old.items ≡ [] }
    ensures read { OnOk result ((script_fault text.now ≡ None) × (listed script.new ≡ sections_of text.now)) }
    ensures few { OnOk result (length script.new.threads.items ≤ most_threads versions.Two) }
    ensures fault { IfErr result (IsWhyTextUnread text.now) }
{
    let mut words = Vec::new(alloc);
    let mut rest = text;
    let mut number: u64 = 1;
    while !rest.is_empty() {
        let Some((line, after)) = next_line(rest) else {
            return Err(fault(number, FaultKind::UnendedLine));
        };
        take_line(alloc, script, commands, &mut words, scope, number, line)?;
        rest = after;
        number += 1;
    }
    Ok(end_section(alloc, script, scope.section, commands)?)
}

/// What a script asks for, section by section and line by line, or its first fault. Takes time linear in the text. `OutOfMemory` where
/// memory is refused, and then no script is made.
///
/// A line ends with a byte 0x0A, and its words are parted by spaces. A line without words and a comment, whose first byte other
/// than a space is a `#`, are skipped (own). Where the words of line 1 are `version 2` or `version 3`, it asks for nothing, and the
/// script is written in that version (own).
pub fn read_script(alloc: Global, text: &[u8]) -> Result<Script, ReadFault>
    ensures read { IfOk result (λ script. (script_fault text.now ≡ None) × (listed script ≡ sections_of text.now)) }
    ensures few { IfOk result (λ script. length script.threads.items ≤ most_threads versions.Two) }
    ensures fault { IfErr result (IsWhyTextUnread text.now) }
{
    let mut scope = Scope::new(alloc, text);
    let mut script = Script {
        main: Vec::new(alloc),
        threads: Vec::new(alloc),
        finally: Vec::new(alloc),
    };
    let mut commands = Vec::new(alloc);
    read_lines(alloc, text, &mut script, &mut commands, &mut scope)?;
    Ok(script)
}
