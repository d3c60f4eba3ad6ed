//! The rule that the table of the order keeps, and the moves that the rule allows.
//!
//! The rule of the row, which holds between any two steps of any threads, and the steps that keep it. No value of these types but
//! `Size` is made.
ghost use Rattle.std.specs.Prelude.{◌+◌};
ghost use Rattle.grb_order.specs.Rule.{Orderly};
ghost use Rattle.grb_order.specs.Steps.{dealing, dealt, noted, joined, spent, looked, tried, compared, heard};

use crate::standing::Standing;
use atomic_table::{Join, Play, Split, TableRule};

/// How many words the row has, and how many seats there are.
#[derive(Clone, Copy)]
pub struct Size {
    /// The number of words.
    pub room: u32,
    /// The number of seats.
    pub passes: u32,
}

/// The rule of the row, which holds between any two steps of any threads: the words that are not 0 begin the row, and what each seat has
/// learnt begins them.
pub struct Rule;

impl TableRule<(), Standing, Size> for Rule {
    ghost holds = { Orderly };

    ghost first = { λ size. dealing 0 size.passes };
}

/// Cuts the next seat off the dealer.
pub struct Deal;

impl Split<Standing> for Deal {
    ghost left = { λ v. dealing (v.view.number + 1) v.view.passes };

    ghost right = { dealt };
}

/// Writes down what a seat has learnt, as a note.
pub struct Write;

impl Split<Standing> for Write {
    ghost left = { λ v. v };

    ghost right = { noted };
}

/// Takes a note of another seat in.
pub struct Read;

impl Join<Standing> for Read {
    ghost both = { joined };

    ghost spent = { spent };
}

/// A load of the first word that the seat has not learnt.
pub struct Looking;

impl Play<(), Standing> for Looking {
    ghost then = { looked };
}

/// A compare-and-swap from 0 of the first word that the seat has not learnt.
pub struct Entering;

impl Play<(), Standing> for Entering {
    ghost then = { tried };
}

/// A load of the first word: of what the seat has learnt and what the note has, the shorter begins the longer.
pub struct Comparing;

impl Play<(), Standing> for Comparing {
    ghost then = { compared };
}

/// A load of a word that the note has.
pub struct Hearing;

impl Play<(), Standing> for Hearing {
    ghost then = { heard };
}
