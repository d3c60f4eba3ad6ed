//! One line of a script, read where the lines before it have led.
ghost use Rattle.std.specs.Prelude.{◌≡◌, true, false, Some, None, IfOk, IfErr, OnOk, map};
ghost use Rattle.grb_market.specs.Line.{ended};
ghost use Rattle.grb_words.specs.Line.{words_of, is_section};
ghost use Rattle.grb_words.specs.Section.{section_of};
ghost use Rattle.grb_script.specs.Scope.{begun, may_follow, seen, IsKept};
ghost use Rattle.grb_script.specs.LineMeaning.{IsRead, IsWhyNotRead};
ghost use Rattle.grb_script.specs.ScriptFault.{fault_at, line_fault, section_fault, IsWhyLineUnread};

use crate::command::{Command, read_command};
use crate::fault::{ReadFault, ScriptFault};
use crate::scope::{Scope, may_follow};
use crate::version::{says_nothing, version_by};
use grb_words::{
    FaultKind, Section, Unread, Version, has_allowed_bytes, is_section, put_words, section_of,
};
use std::alloc::Global;

/// What a line of a script says that says something.
#[derive(Drop)]
pub(crate) enum LineMeaning {
    /// A section begins.
    Section(Section),
    /// It asks for something.
    Command(Command),
}

/// The error of a fault on the line of this number.
pub(crate) fn fault(line: u64, kind: FaultKind) -> ReadFault
    ensures { result ≡ ReadFault.Fault (record { line = line; kind = kind }) }
{
    ReadFault::Fault(ScriptFault { line, kind })
}

/// Why a text is not read whose line of this number is not read.
fn fault_at(line: u64, unread: Unread) -> ReadFault
    ensures { result ≡ fault_at line unread }
{
    match unread {
        Unread::Fault(kind) => fault(line, kind),
        Unread::OutOfMemory => ReadFault::OutOfMemory,
    }
}

/// Begins the section that these words spell, in a script of this version.
fn begin_section(version: Version, words: &[&[u8]], scope: &mut Scope) -> Result<Section, FaultKind>
    requires kept { IsKept scope.old }
    ensures section { IfOk result (λ section. section_of (map (λ word. word.now) words.now) ≡ Some section) }
    ensures follows { IfOk result (λ section. may_follow version scope.old.section section ≡ true) }
    ensures begun { IfOk result (λ section. seen scope.new ≡ begun (seen scope.old) section) }
    ensures kept { OnOk result (IsKept scope.new) }
    ensures fault { IfErr result (λ kind. section_fault version scope.old.section (section_of (map (λ word. word.now) words.now)) ≡ Some kind) }
{
    let section = section_of(words).ok_or(FaultKind::Section)?;
    if !may_follow(version, scope.section, section) {
        return Err(FaultKind::Section);
    }
    scope.begin(section);
    Ok(section)
}

/// What these words say. The version is settled then, the name that they make joins the names, and a section that they begin begins.
fn read_words(
    alloc: Global,
    words: &[&[u8]],
    scope: &mut Scope,
) -> Result<Option<LineMeaning>, Unread>
    requires kept { IsKept scope.old }
    ensures read { IfOk result (λ meaning. IsRead (seen scope.old) (map (λ word. word.now) words.now) meaning (seen scope.new)) }
    ensures kept { OnOk result (IsKept scope.new) }
    ensures fault { IfErr result (IsWhyNotRead (seen scope.old) (map (λ word. word.now) words.now)) }
{
    let is_silent = says_nothing(scope.version, words);
    let version = version_by(scope.version, words);
    scope.version = Some(version);
    if is_silent {
        return Ok(None);
    }
    if is_section(words) {
        let section = begin_section(version, words, scope)?;
        return Ok(Some(LineMeaning::Section(section)));
    }
    let command = read_command(alloc, version, words, &mut scope.names)?;
    Ok(Some(LineMeaning::Command(command)))
}

/// What the line with these bytes says, which has this number. Its words are put into this list. `OutOfMemory` where memory for its words,
/// a name, a path or a list is refused.
pub(crate) fn read_line<'a>(
    alloc: Global,
    number: u64,
    bytes: &'a [u8],
    words: &mut Vec<&'a [u8]>,
    scope: &mut Scope,
) -> Result<Option<LineMeaning>, ReadFault>
    requires kept { IsKept scope.old }
    ensures faultless { OnOk result (line_fault (seen scope.old) (ended bytes.now) ≡ None) }
    ensures read { IfOk result (λ meaning. IsRead (seen scope.old) (words_of bytes.now) meaning (seen scope.new)) }
    ensures kept { OnOk result (IsKept scope.new) }
    ensures fault { IfErr result (IsWhyLineUnread number (seen scope.old) (ended bytes.now)) }
{
    if !has_allowed_bytes(bytes) {
        return Err(fault(number, FaultKind::BadByte));
    }
    put_words(words, bytes)?;
    match read_words(alloc, words, scope) {
        Ok(meaning) => Ok(meaning),
        Err(unread) => Err(fault_at(number, unread)),
    }
}
