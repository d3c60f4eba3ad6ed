//! Files as a source of a script and of what it loads.
ghost use Rattle.std.specs.Prelude.{◌≡◌, ◌-◌, ◌<◌, ◌≤◌, ◌^◌, None, IfOk, IfSome, IsErrOf, length};
ghost use Rattle.std.specs.IoError.{error_kind};
ghost use Rattle.grb_run.specs.Source.{AreCountable, IsGiven, counts_after};
ghost use Rattle.grb_run.specs.Files.{IsOverLimit, counts_of, fault_of_kind};

use crate::source::{MAX_FILE, MAX_SCRIPT, Source, SourceFault};
use std::alloc::Global;
use std::io::{ErrorKind, Read};
use std::rt::Files;
use std::{fs, io};

/// The source of the program: the script is the file of a path, and a file that the script names is read as it is. It tells no bytes,
/// since what a file holds is known to no proof.
#[derive(Drop)]
pub struct FileSource<'a, R> {
    rt: &'a R,
    /// The path of the script.
    pub script: &'a str,
    /// How often a file could not be read, the script among them.
    pub cannot_read: u64,
    /// How often a file had more bytes than its limit.
    pub too_long: u64,
    /// How often a file was not read since memory was refused.
    pub out_of_memory: u64,
}

impl<'a, R: Files + AllocGlobal> FileSource<'a, R> {
    /// A source that has not failed yet. The file is read by `script`.
    pub fn new(rt: &'a R, script: &'a str) -> Self
        ensures script { result.script ≡ script.entry }
        ensures faults { (result.cannot_read ≡ 0) × (result.too_long ≡ 0) × (result.out_of_memory ≡ 0) }
    {
        FileSource {
            rt,
            script,
            cannot_read: 0,
            too_long: 0,
            out_of_memory: 0,
        }
    }

    /// The whole file of a path. A fault is counted. `OutOfMemory` where memory for its bytes is refused.
    fn read(&mut self, path: &str, limit: usize) -> Result<Vec<u8>, SourceFault>
        requires within { limit < 2 ^ 64 - 1 }
        requires countable { AreCountable (counts_of self.old) }
        ensures within { IfOk result (λ bytes. length bytes.items ≤ limit) }
        ensures too_long { IsErrOf result SourceFault.TooLong → IsOverLimit R.File.remaining limit }
        ensures faults { counts_of self.new ≡ counts_after (counts_of self.old) result }
    {
        let outcome = read_file(self.rt, path, limit);
        match outcome {
            Ok(_) => {}
            Err(SourceFault::CannotRead) => self.cannot_read += 1,
            Err(SourceFault::TooLong) => self.too_long += 1,
            Err(SourceFault::OutOfMemory) => self.out_of_memory += 1,
        }
        outcome
    }
}

/// Why a read of a file failed.
fn fault_of(error: io::Error) -> SourceFault
    ensures { result ≡ fault_of_kind (error_kind error) }
{
    match error.kind() {
        ErrorKind::OutOfMemory => SourceFault::OutOfMemory,
        _ => SourceFault::CannotRead,
    }
}

/// All bytes that a reader gives, where they are no more than the limit, and else `TooLong`. Where memory is refused it is
/// `OutOfMemory`, and where the reader fails in another way `CannotRead`.
pub fn read_all<F: Read + Drop>(
    alloc: Global,
    reader: F,
    limit: usize,
) -> Result<Vec<u8>, SourceFault>
    requires { limit < 2 ^ 64 - 1 }
    ensures given { IfOk result (λ bytes. IsGiven (F.remaining reader) limit bytes.items) }
    ensures too_long { IsErrOf result SourceFault.TooLong → IfSome (F.remaining reader) (λ xs. limit < length xs) }
{
    let mut bytes = Vec::new(alloc);
    let beyond = limit as u64 + 1;
    reader
        .take(beyond)
        .read_to_end(&mut bytes)
        .map_err(fault_of)?;
    if bytes.len() > limit {
        return Err(SourceFault::TooLong);
    }
    Ok(bytes)
}

/// The whole file of a path; `TooLong` where it is longer than the limit, and nowhere else. Which bytes it has, and when it cannot be read,
/// no clause says. `OutOfMemory` where memory for its bytes is refused; then they are dropped.
fn read_file<R: Files + AllocGlobal>(
    rt: &R,
    path: &str,
    limit: usize,
) -> Result<Vec<u8>, SourceFault>
    requires { limit < 2 ^ 64 - 1 }
    ensures within { IfOk result (λ bytes. length bytes.items ≤ limit) }
    ensures too_long { IsErrOf result SourceFault.TooLong → IsOverLimit R.File.remaining limit }
{
    let file = fs::open(rt, path).map_err(fault_of)?;
    read_all(rt.alloc(), file, limit)
}

impl<R: Files + AllocGlobal> Source for FileSource<'_, R> {
    ghost script_bytes = { λ _. None };

    ghost file_bytes = { λ _ _. None };

    ghost faults = { counts_of };

    fn script(&mut self) -> Result<Vec<u8>, SourceFault>
        requires { AreCountable (counts_of self.old) }
        ensures given { IfOk result (λ bytes. IsGiven None MAX_SCRIPT bytes.items) }
        ensures too_long { IsErrOf result SourceFault.TooLong → IsOverLimit R.File.remaining MAX_SCRIPT }
        ensures faults { counts_of self.new ≡ counts_after (counts_of self.old) result }
    {
        self.read(self.script, MAX_SCRIPT)
    }

    fn file(&mut self, path: &str) -> Result<Vec<u8>, SourceFault>
        requires { AreCountable (counts_of self.old) }
        ensures given { IfOk result (λ bytes. IsGiven None MAX_FILE bytes.items) }
        ensures too_long { IsErrOf result SourceFault.TooLong → IsOverLimit R.File.remaining MAX_FILE }
        ensures faults { counts_of self.new ≡ counts_after (counts_of self.old) result }
    {
        self.read(path, MAX_FILE)
    }
}
