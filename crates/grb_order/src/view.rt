//! What a contract sees of a pass's seat at the order.
ghost use Rattle.std.specs.Prelude.{ℕ, List};
ghost use Rattle.std.specs.Borrow.{ftrue};

use std::marker::Model;

/// What a seat knows of the row and what it did there, as plain data that contracts speak of. No value of it is made.
pub struct View {
    /// The number of the seat, from 0.
    pub ghost number: { ℕ },
    /// How many seats there are.
    pub ghost passes: { ℕ },
    /// The words that it has learnt, from the first of the row on.
    pub ghost words: { List ℕ },
    /// The positions of the words that it entered, in rising order.
    pub ghost own: { List ℕ },
    /// The positions at which it found no word, each time that it looked, the last one last.
    pub ghost looks: { List ℕ },
}

impl Model for View {
    ghost also_owns = { λ _. ftrue };
}
