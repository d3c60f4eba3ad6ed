//! A source with a script and files at hand, or a fault in place of any of them. Contracts say how each fault is counted; a script has only
//! files that are there.
ghost use Rattle.std.specs.Prelude.{◌≡◌, Some, None};
ghost use Rattle.grb_run.specs.Source.{AreCountable, counted};

use grb_run::{MAX_FILE, MAX_SCRIPT, Source, SourceFault};
use std::alloc::Global;

/// A path, and its file or why there is none.
pub(super) type NamedFile<'a> = (&'a str, Result<&'a [u8], SourceFault>);

/// Gives this text, or always this fault, and these files.
#[derive(Drop)]
pub(super) struct TextSource<'a> {
    pub(super) alloc: Global,
    pub(super) text: &'a [u8],
    pub(super) fault: Option<SourceFault>,
    pub(super) files: &'a [NamedFile<'a>],
    pub(super) cannot_read: u64,
    pub(super) too_long: u64,
    pub(super) out_of_memory: u64,
    /// How often it was asked for a file.
    pub(super) files_read: u64,
}

impl<'a> TextSource<'a> {
    /// The file of this path, or why there is none.
    fn named(&self, path: &str) -> Result<&'a [u8], SourceFault> {
        for (name, file) in self.files {
            if *name == path {
                return *file;
            }
        }
        Err(SourceFault::CannotRead)
    }

    fn count(&mut self, fault: SourceFault) -> SourceFault
        requires { AreCountable (record { cannot_read = self.old.cannot_read; too_long = self.old.too_long; out_of_memory = self.old.out_of_memory }) }
        ensures fault { result ≡ fault }
        ensures counts { record { cannot_read = self.new.cannot_read; too_long = self.new.too_long; out_of_memory = self.new.out_of_memory }
            ≡ counted (record { cannot_read = self.old.cannot_read; too_long = self.old.too_long; out_of_memory = self.old.out_of_memory }) fault }
        ensures text { self.new.text.now ≡ self.old.text.now }
    {
        match fault {
            SourceFault::CannotRead => self.cannot_read += 1,
            SourceFault::TooLong => self.too_long += 1,
            SourceFault::OutOfMemory => self.out_of_memory += 1,
        }
        fault
    }
}

impl Source for TextSource<'_> {
    ghost script_bytes = { λ s. Some s.text.now };

    ghost file_bytes = { λ s path. None };

    ghost faults = { λ s. record { cannot_read = s.cannot_read; too_long = s.too_long; out_of_memory = s.out_of_memory } };

    fn script(&mut self) -> Result<Vec<u8>, SourceFault> {
        if let Some(fault) = self.fault {
            return Err(self.count(fault));
        }
        if self.text.len() > MAX_SCRIPT {
            return Err(self.count(SourceFault::TooLong));
        }
        match self.text.to_vec(self.alloc) {
            Ok(text) => Ok(text),
            Err(_) => Err(self.count(SourceFault::OutOfMemory)),
        }
    }

    fn file(&mut self, path: &str) -> Result<Vec<u8>, SourceFault> {
        self.files_read = self.files_read.saturating_add(1);
        let bytes = match self.named(path) {
            Ok(bytes) => bytes,
            Err(fault) => return Err(self.count(fault)),
        };
        if bytes.len() > MAX_FILE {
            return Err(self.count(SourceFault::TooLong));
        }
        match bytes.to_vec(self.alloc) {
            Ok(bytes) => Ok(bytes),
            Err(_) => Err(self.count(SourceFault::OutOfMemory)),
        }
    }
}

/// A source of this script and these files.
pub(super) fn source_of<'a>(
    alloc: Global,
    text: &'a str,
    files: &'a [NamedFile<'a>],
) -> TextSource<'a>
    ensures counts { (result.cannot_read ≡ 0) × (result.too_long ≡ 0) × (result.out_of_memory ≡ 0) }
{
    TextSource {
        alloc,
        text: text.as_bytes(),
        fault: None,
        files,
        cannot_read: 0,
        too_long: 0,
        out_of_memory: 0,
        files_read: 0,
    }
}
