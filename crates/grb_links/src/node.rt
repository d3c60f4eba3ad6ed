//! A call of a list, by what it changes and what it reads.

use grb_call::Object;

/// A call at its place: the object that it changes, none where it is refused or only reads; and its links. For each object of which the
/// call needs what it stores stands, in the order of `objects_read`, after how many calls of the list that object was last changed; 0 where
/// it never was, and 0 at the places that are left. The shape that few calls need is noted in a list next to the nodes.
#[derive(Clone, Copy, Debug)]
pub struct Node {
    /// The object that the call changes.
    pub target: Option<Object>,
    /// After how many calls each object that it needs was last changed.
    pub links: [u32; 4],
    /// After how many noted shapes, itself included, that of its output stands, where it needs nothing else of it; else 0.
    pub noted: u32,
}
