//! The names that a script gives its objects, numbered in the order of their making.
ghost use Rattle.std.specs.Prelude.{◌≡◌, [], ◌∷◌, ◌++◌, OnOk, OnErr, false, length, take};
ghost use Rattle.grb_script.specs.Names.{stands, name_found};

use grb_market::next_line;
use indexmap::IndexMap;
use sha2::{Digest, Sha256};
use std::alloc::{AllocError, Global};
use std::hash::{BuildHasher, DefaultHasher, Hasher};
use std::marker::Model;

/// Up to so many names, to look at each takes less time than to hash one (own).
const FEW_NAMES: usize = 8;

/// The sort of an object.
#[derive(Clone, Copy, Debug, PartialEq, Eq)]
pub enum Sort {
    /// The object has rows and columns.
    Matrix,
    /// The object has one dimension.
    Vector,
}

/// Whether a line may make a name, by its first byte: the words that make one are `matrix`, `vector`, `dup`, `diag` and `load`, and
/// spaces may stand before them.
fn may_make_name(line: &[u8]) -> bool {
    matches!(line, [b'm' | b'v' | b'd' | b'l' | b' ', ..])
}

/// The digest of those lines of a script that may make names, each with its end.
fn digest_of_names(text: &[u8]) -> [u8; 32] {
    let mut digest = Sha256::new();
    let mut rest = text;
    'lines: while let Some((line, after)) = next_line(rest) {
        if may_make_name(line) {
            digest.update(line);
            digest.update(b"\n".as_slice());
        }
        rest = after;
    }
    digest.finalize()
}

/// Hashes the names of one script: the digest of the lines that make them, and then the name. The digest depends on each name, so nobody
/// can write a script whose names were chosen to collide (own).
#[derive(Clone, Copy)]
struct NameHashing {
    seeded: DefaultHasher,
}

impl NameHashing {
    /// The hashing of the names of this script.
    fn of(text: &[u8]) -> NameHashing {
        let mut seeded = DefaultHasher::new();
        seeded.write(&digest_of_names(text));
        NameHashing { seeded }
    }
}

impl BuildHasher for NameHashing {
    type Hasher = DefaultHasher;

    ghost build_hasher = { λ hashing. hashing.seeded };

    fn build_hasher(&self) -> DefaultHasher {
        self.seeded
    }
}

/// The names that stand in a section of a script, in the order of making, each with the sort of the object that it stands for: those of
/// main, and then those of the section. A name's number is its place, from 0.
#[derive(Drop)]
pub(crate) struct Names {
    sorts: IndexMap<Vec<u8>, Sort, NameHashing>,
}

impl Model for Names {
    ghost use Rattle.std.specs.Prelude.{List, map};
    ghost use Rattle.grb_script.specs.Names.{Name};

    ghost Value = { List Name };

    ghost view = { λ n. map (λ entry. (entry.0.items, entry.1)) n.sorts.entries };
}

impl Names {
    /// No names of this script yet.
    pub(crate) fn new(alloc: Global, text: &[u8]) -> Names
        ensures { result ≡ [] }
    {
        Names {
            sorts: IndexMap::with_hasher(alloc, NameHashing::of(text)),
        }
    }

    /// The number and the sort of a name, if it stands, found by a look at one name after another.
    fn find_in_turn(&self, name: &[u8]) -> Option<(usize, Sort)>
        ensures { result ≡ name_found self.now name.now }
    {
        for number in 0..self.sorts.len() {
            let Some((key, sort)) = self.sorts.get_index(number) else {
                unreachable!();
            };
            if name == key.as_slice() {
                return Some((number, *sort));
            }
        }
        None
    }

    /// The same, found by the hash of the name.
    fn find_by_hash(&self, name: &[u8]) -> Option<(usize, Sort)>
        ensures { result ≡ name_found self.now name.now }
    {
        let (number, _, sort) = self.sorts.get_full(name)?;
        Some((number, *sort))
    }

    /// The number and the sort of a name, if it stands.
    pub(crate) fn find(&self, name: &[u8]) -> Option<(usize, Sort)>
        ensures { result ≡ name_found self.now name.now }
    {
        if self.sorts.len() <= FEW_NAMES {
            self.find_in_turn(name)
        } else {
            self.find_by_hash(name)
        }
    }

    /// How many names stand.
    pub(crate) fn len(&self) -> usize
        ensures { result ≡ length self.now }
    {
        self.sorts.len()
    }

    /// Keeps this many of the names, the first ones. Takes no memory.
    pub(crate) fn truncate(&mut self, count: usize)
        ensures { self.new ≡ take count self.old }
    {
        self.sorts.truncate(count);
    }

    /// Makes a name for an object of this sort. Its number is how many names stood before. `AllocError` where memory is refused; then no
    /// name is made.
    pub(crate) fn make(&mut self, name: &[u8], sort: Sort) -> Result<(), AllocError>
        requires { stands self.old name.now ≡ false }
        ensures made { OnOk result (self.new ≡ self.old ++ (name.now, sort) ∷ []) }
        ensures err { OnErr result (self.new ≡ self.old) }
    {
        let name = name.to_vec(*self.sorts.allocator())?;
        self.sorts.insert(name, sort)?;
        Ok(())
    }
}
