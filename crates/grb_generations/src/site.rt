//! Where the slots of a chain are.
use crate::told::Told;
use grb_chronicle::{Mark, Page};

/// For which generation of which chain slots are made: the sizes of the chain and a page of its chronicle, the number of the generation,
/// and what is told of it.
#[derive(Drop)]
pub(crate) struct Site {
    pub(crate) room: u32,
    pub(crate) members: u32,
    pub(crate) page: Page<Told>,
    pub(crate) generation: u64,
    pub(crate) mark: Mark<Told>,
}
