//! What is wrong with a line.
ghost use Rattle.std.specs.Prelude.{◌≡◌};
ghost use Rattle.grb_words.specs.declared.fault.Unread.TheVariants as unread;

use std::alloc::AllocError;
use thiserror::Error;

/// What is wrong with a line of a script. Of several the first in this order is answered (own).
#[derive(Clone, Copy, Debug, PartialEq, Eq, Error)]
pub enum FaultKind {
    /// The text's last line has no line end.
    #[error("unended line")]
    UnendedLine,
    /// A byte other than 0x20 to 0x7E stands in the line.
    #[error("bad byte")]
    BadByte,
    /// The line begins with `thread` or `finally`, where no section may stand.
    #[error("section")]
    Section,
    /// The line has the form of no statement in the script's version, whatever its names stand for. What begins with `version` has none,
    /// and is no fault as line 1 with the words `version 2` or `version 3`.
    #[error("statement")]
    Statement,
    /// The line makes a name that stands already.
    #[error("name taken")]
    NameTaken,
    /// The line uses a name that does not stand. A name that the line itself makes does not yet stand.
    #[error("unknown name")]
    UnknownName,
    /// A name stands for an object of another sort than the form asks for, or than the output of an element-wise statement, of `apply` or of
    /// `select`, or a mask for one of another sort than its output; or `tran` or `tran1` stands in such a statement of vectors; or the list
    /// of a `build` is no list of its object's groups.
    #[error("wrong kind")]
    WrongKind,
    /// The monoid and the operator of a semiring differ in domain.
    #[error("semiring")]
    Semiring,
}

/// Why words were not read as a statement.
#[derive(Clone, Copy, Debug, PartialEq, Eq)]
pub enum Unread {
    /// This is wrong with them.
    Fault(FaultKind),
    /// Memory was refused.
    OutOfMemory,
}

impl From<FaultKind> for Unread {
    ghost from_gives = { λ kind fault. fault ≡ unread.Fault kind };

    fn from(kind: FaultKind) -> Unread {
        Unread::Fault(kind)
    }
}

impl From<AllocError> for Unread {
    ghost from_gives = { λ _ fault. fault ≡ unread.OutOfMemory };

    fn from(_refused: AllocError) -> Unread {
        Unread::OutOfMemory
    }
}
