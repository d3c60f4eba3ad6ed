//! What a command line asks for.

/// What a run of the program is given.
#[derive(Clone, Copy, Debug, PartialEq, Eq)]
pub struct Options<'a> {
    /// How many calls of the script may change the store, from 1 to `MOST_ROOM`.
    pub room: u32,
    /// How many threads run the script at least, from 1 to `MOST_THREADS`; those that it has no section for help.
    pub threads: u32,
    /// The path of the script.
    pub path: &'a str,
}
