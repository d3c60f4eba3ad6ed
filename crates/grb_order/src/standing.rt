//! How a pass stands with the order: what it has entered and what it has seen.
//!
//! What the rule of the row knows of each seat of the table. No value of these types is made.
ghost use Rattle.std.specs.Prelude.{ℕ, List};
ghost use Rattle.std.specs.Borrow.{ftrue};

use crate::view::View;
use std::marker::Model;

/// What a seat of the table is for.
pub enum Role {
    /// It deals the seats out. Its number is that of the next one.
    Dealer,
    /// It is a pass's seat.
    Seated,
    /// It carries the words that a seat has learnt to another seat.
    Note,
    /// A note that was taken in.
    Spent,
}

/// What the rule knows of each seat of the table.
pub struct Standing {
    /// What it is for.
    pub role: Role,
    /// What it has entered and seen.
    pub view: View,
    /// The words of the last note that it took in.
    pub ghost told: { List ℕ },
}

impl Model for Standing {
    ghost also_owns = { λ _. ftrue };
}
