//! Why there is no next generation.
use grb_call::Object;

/// Why a member that needs the next generation does not find or make one, or makes no object (own).
#[derive(Clone, Copy, Debug, PartialEq, Eq)]
pub enum NoGeneration {
    /// This object is there and cannot be made: memory is refused to its evaluation. Once that is there, or the object is freed, a later
    /// call goes on.
    Unmade {
        /// The object, by the number that its users have.
        object: Object,
    },
    /// No history takes the calls that make the store anew and the chain's room beside them. Objects that are freed need none.
    RoomTooSmall {
        /// How many calls make the store anew.
        needed: u64,
    },
    /// One object more could leave no room for the next generation. Once objects are freed, a later call makes one again.
    Crowded,
    /// 2^32 - 2 numbers of a sort were given.
    NumbersSpent,
    /// Memory is refused.
    OutOfMemory,
    /// A record of the next generation is not taken.
    Panic,
    /// Another member makes it, or its place is being changed, at each of so many looks. A later call tries again.
    Busy,
}
