//! What the chronicle of a chain tells of each generation.
use grb_chronicle::{Chained, Telling};
use grb_context::{Context, Pass};
use grb_numbers::Numbers;
use std::sync::Arc;

/// What is told of a generation: its store, the numbers by which that is seen, and a pass of the generation before that knew the end of
/// that, of whose objects the store was made; of the first generation any pass. No value of it is made.
pub struct Told {
    /// Its store.
    pub context: Context,
    /// By which it is seen.
    pub numbers: Numbers,
    /// Which knew the end of the one before.
    pub last: Pass,
}

impl Chained for Told {
    ghost use Rattle.grb_generations.specs.Follows.{Follows, any_told};

    ghost follows = { Follows };

    ghost any = { any_told };
}

/// A generation of which the chronicle is to tell.
#[derive(Clone, Copy)]
pub(crate) struct Founding<'a> {
    pub(crate) context: &'a Arc<Context>,
    pub(crate) numbers: &'a Arc<Numbers>,
    pub(crate) last: &'a Pass,
}

/// How it tells of that. No value of it is made.
pub(crate) struct Founded;

impl<'a> Telling<Founding<'a>, Told> for Founded {
    ghost told = { λ f. record { context = f.context.now.value; numbers = f.numbers.now.value; last = f.last.now } };
}
