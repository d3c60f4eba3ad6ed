//! The end of a generation, for its members that have not moved on.
use crate::site::Site;
use crate::told::Told;
use grb_chronicle::Page;
use grb_context::Pass;
use grb_slots::FitsAt;

/// The pass that knew the end of a generation and made the next one of that, with a page on which the next one stands.
#[derive(Drop)]
pub(crate) struct Ended {
    pub(crate) pass: Pass,
    pub(crate) page: Page<Told>,
}

impl FitsAt for Ended {
    type Tag = Site;

    ghost use Rattle.grb_generations.specs.Sites.{IsEndOf};

    ghost fits = { λ site _ ended. IsEndOf site ended };
}
