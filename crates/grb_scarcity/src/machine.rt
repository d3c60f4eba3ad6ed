//! Whether the machine gives out more memory than it has.
use std::fs::{self, Files};

/// Whether the machine counts what its processes ask for (`vm.overcommit_memory` is 2), so that a hoard of one would starve the others.
/// `None` where it does not say.
///
/// Source: own.
pub fn never_overcommits<R: Files + AllocGlobal>(rt: &R) -> Option<bool> {
    match fs::read(rt, "/proc/sys/vm/overcommit_memory") {
        Ok(text) => Some(text.first() == Some(&b'2')),
        Err(_) => None,
    }
}
