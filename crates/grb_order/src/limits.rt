//! How many passes and calls one order may have.

/// The most calls for which a history is opened, and which one takes beside those that it begins with (own).
pub const MOST_ROOM: u32 = 65_536;

/// The most passes that share an order (own).
pub const MOST_PASSES: u32 = 256;

/// The most that the room and the number of the passes of a history that begins with no call may come to, one times the other (own).
pub const MOST_SEATS: u32 = 1_048_576;

/// The most words of an order: the calls that a history begins with, and those that it takes beside them (own).
pub const MOST_WORDS: u32 = 4_194_304;

/// The most that the words and the number of the passes may come to, one times the other: what each pass keeps for each call is bounded by
/// it (own).
pub const MOST_PLACES: u32 = 268_435_456;
