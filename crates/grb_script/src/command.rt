//! The commands of a script, and the paths that it loads from.
ghost use Rattle.std.specs.Prelude.{◌≡◌, IfOk, IfErr, map};
ghost use Rattle.grb_words.specs.Form.{load_of};
ghost use Rattle.grb_script.specs.Command.{IsLoading, IsWhyUnloaded, IsAsked, IsWhyUnasked};

use crate::names::{Names, Sort};
use crate::statement::{Statement, read_statement};
use grb_words::{FaultKind, Unread, Version, is_load, load_of};
use std::alloc::{AllocError, Global};
use std::marker::Model;

/// The path of a file that a script names: a word, as it stands. It is seen as its bytes.
#[derive(Debug, Drop)]
pub struct FilePath {
    path: String,
}

impl Model for FilePath {
    ghost use Rattle.std.specs.Prelude.{List, ℕ, string_bytes};

    ghost Value = { List ℕ };

    ghost view = { λ p. string_bytes p.path };
}

impl FilePath {
    /// A copy of the path. `AllocError` where memory is refused; then nothing is made.
    fn from_str(alloc: Global, path: &str) -> Result<FilePath, AllocError>
        ensures { IfOk result (λ copy. copy ≡ path.now) }
    {
        Ok(FilePath {
            path: String::from_str(alloc, path)?,
        })
    }

    /// The path as text. Takes no memory.
    pub fn as_str(&self) -> &str
        ensures { result.now ≡ self.now }
    {
        self.path.as_str()
    }
}

/// What a line of a script asks for. The name that it makes, if it makes one, is the next.
#[derive(Drop)]
pub enum Command {
    /// A statement of one call.
    Statement(Statement),
    /// `load NAME PATH` makes a matrix, fills it from the file of this path, and makes the next name for it.
    Load(FilePath),
}

/// A line of a script that asks for something.
#[derive(Drop)]
pub struct NumberedCommand {
    /// The number of the line, from 1.
    pub line: u64,
    /// What it asks for.
    pub command: Command,
}

/// `load NAME PATH`. The name joins the names.
fn read_load(alloc: Global, words: &[&[u8]], names: &mut Names) -> Result<FilePath, Unread>
    ensures read { IfOk result (λ path. IsLoading names.old (load_of (map (λ word. word.now) words.now)) path names.new) }
    ensures fault { IfErr result (IsWhyUnloaded names.old (load_of (map (λ word. word.now) words.now))) }
{
    let Some((name, path)) = load_of(words) else {
        return Err(Unread::Fault(FaultKind::Statement));
    };
    if names.find(name).is_some() {
        return Err(Unread::Fault(FaultKind::NameTaken));
    }
    let path = FilePath::from_str(alloc, path)?;
    names.make(name, Sort::Matrix)?;
    Ok(path)
}

/// What these words ask for in a script of this version where these names stand, or what is wrong with them. The name that they make joins
/// the names.
pub(crate) fn read_command(
    alloc: Global,
    version: Version,
    words: &[&[u8]],
    names: &mut Names,
) -> Result<Command, Unread>
    ensures read { IfOk result (λ c. IsAsked version names.old (map (λ word. word.now) words.now) c names.new) }
    ensures fault { IfErr result (IsWhyUnasked version names.old (map (λ word. word.now) words.now)) }
{
    if is_load(words) {
        let path = read_load(alloc, words, names)?;
        return Ok(Command::Load(path));
    }
    let statement = read_statement(alloc, version, words, names)?;
    Ok(Command::Statement(statement))
}
