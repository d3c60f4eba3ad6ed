//! What stands for one record: of which pass it is, and its index.
ghost use Rattle.std.specs.Prelude.{◌≡◌};

use grb_call::Call;
use once_cell::race::Note;
use std::marker::Model;

/// One record, as whoever put it or was shown it knows it: of which pass it is, its index, and what its cell is known
/// to hold.
#[derive(Drop)]
pub struct Token {
    pub(crate) pass: u32,
    pub(crate) index: u64,
    pub(crate) note: Note<Call>,
}

impl Model for Token {
    ghost use Rattle.std.specs.Prelude.{IsSome};
    ghost use Rattle.grb_records.specs.Token.{Shown, held};

    ghost Value = { Shown };

    ghost view = { λ t. record { pass = t.pass; index = t.index; call = held t.note.known; cell = t.note.cell } };

    ghost invariant = { λ t. IsSome t.note.known };
}

impl Token {
    /// The index of the token's record.
    pub fn index(&self) -> u64
        ensures { result ≡ self.now.index }
    {
        self.index
    }
}
