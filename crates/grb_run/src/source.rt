//! Where the bytes of a script and of its files come from.
ghost use Rattle.std.specs.Prelude.{◌≡◌, ℕ, List, Option, IfOk};
ghost use Rattle.grb_run.specs.Source.{FaultCounts, AreCountable, counts_after, IsGiven};

use thiserror::Error;

/// How many bytes a script has at most.
pub const MAX_SCRIPT: usize = 1_048_576;

/// How many bytes a file that a script names has at most.
pub const MAX_FILE: usize = 67_108_864;

/// Why a source did not give the bytes of a script or of a file.
#[derive(Clone, Copy, Debug, PartialEq, Eq, Error)]
pub enum SourceFault {
    /// The bytes could not be read.
    #[error("cannot read")]
    CannotRead,
    /// There are more bytes than the limit.
    #[error("too long")]
    TooLong,
    /// Memory was refused.
    #[error("out of memory")]
    OutOfMemory,
}

/// Gives the script, and the files that it names (own).
///
/// `script_bytes` and `file_bytes` are the bytes of the script and of the file of a path, where the source tells them. `faults` is how
/// often each fault came, each below 2^64.
pub trait Source {
    ghost script_bytes: { Self → Option (List ℕ) };

    ghost file_bytes: { Self → List ℕ → Option (List ℕ) };

    ghost faults: { Self → FaultCounts };

    /// The whole script, of at most `MAX_SCRIPT` bytes. `OutOfMemory` where memory for them is refused.
    fn script(&mut self) -> Result<Vec<u8>, SourceFault>
        requires { AreCountable (faults self.old) }
        ensures given { IfOk result (λ bytes. IsGiven (script_bytes self.old) MAX_SCRIPT bytes.items) }
        ensures faults { faults self.new ≡ counts_after (faults self.old) result }
        ensures script_stays { script_bytes self.new ≡ script_bytes self.old }
        ensures files_stay { (path : List ℕ) → file_bytes self.new path ≡ file_bytes self.old path };

    /// The whole file of this path, of at most `MAX_FILE` bytes. `OutOfMemory` where memory for them is refused.
    fn file(&mut self, path: &str) -> Result<Vec<u8>, SourceFault>
        requires { AreCountable (faults self.old) }
        ensures given { IfOk result (λ bytes. IsGiven (file_bytes self.old path.now) MAX_FILE bytes.items) }
        ensures faults { faults self.new ≡ counts_after (faults self.old) result }
        ensures script_stays { script_bytes self.new ≡ script_bytes self.old }
        ensures files_stay { (path : List ℕ) → file_bytes self.new path ≡ file_bytes self.old path };
}
