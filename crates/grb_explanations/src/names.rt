//! What the names of a script stand for, as its lines are gone through.
use grb_core::{Domain, diagonal_size};
use grb_words::word::{domain, keyword_in, number};
use grb_words::{
    Indices, Keyword, Placed, Version, Whole, diagonal_of, indices_of, is_load, is_section,
    is_skipped, version_named,
};
use std::alloc::{AllocError, Global};

/// The dimensions of an object, and so its sort.
#[derive(Clone, Copy)]
pub enum Dims {
    /// A matrix of so many rows and columns.
    Matrix(u64, u64),
    /// A vector of this size.
    Vector(u64),
}

/// What is known of an object.
#[derive(Clone, Copy)]
pub enum Object {
    /// Its domain and its dimensions.
    Known(Domain, Dims),
    /// It is a matrix whose file was not read.
    Unread,
}

/// Whether an object is there.
#[derive(Clone, Copy)]
pub(crate) enum State {
    /// It was made, and not freed.
    Made,
    /// Its making was refused.
    Refused,
    /// It was freed on this line.
    Freed(u64),
}

/// A name, and what it stands for.
#[derive(Clone, Copy)]
pub(crate) struct Named<'a> {
    pub(crate) name: &'a [u8],
    /// The line that made the name.
    pub(crate) line: u64,
    pub(crate) object: Object,
    pub(crate) state: State,
}

/// The names that stand in a section: those of main, and then those of the section.
#[derive(Drop)]
pub(crate) struct Names<'a> {
    all: Vec<Named<'a>>,
    /// How many of them are of main, where a section began.
    main: Option<usize>,
    /// How many files were loaded.
    loads: usize,
}

/// Whether the line of this number asks for nothing: it is skipped, or is line 1 and says the version.
pub(crate) fn asks_nothing(line: u64, words: &[&[u8]]) -> bool {
    is_skipped(words) || line == 1 && version_named(words).is_some()
}

/// Whether a line that begins with this word makes a matrix of a vector.
fn is_diag(word: &[u8]) -> bool {
    matches!(keyword_in(Version::Three, word), Some(Keyword::Diag))
}

/// The name that a line with these words makes, if it makes one.
pub(crate) fn name_made<'a>(words: &[&'a [u8]]) -> Option<&'a [u8]> {
    let [first, name, ..] = words else {
        return None;
    };
    match keyword_in(Version::Three, first) {
        Some(Keyword::Matrix | Keyword::Vector | Keyword::Dup | Keyword::Diag) => Some(*name),
        None if is_load(words) => Some(*name),
        _ => None,
    }
}

/// How many names a statement uses next to one another, and how many words stand before them.
fn places_of_names(keyword: Keyword) -> (usize, usize) {
    match keyword {
        Keyword::Matrix | Keyword::Vector => (0, 1),
        Keyword::Dup | Keyword::Diag => (1, 2),
        Keyword::Ewise(_) | Keyword::Multiply(_) | Keyword::Kronecker => (3, 1),
        Keyword::Reduce | Keyword::Transpose | Keyword::Apply | Keyword::Select => (2, 1),
        _ => (1, 1),
    }
}

/// The names that a line with these words uses, its mask last. None stands twice.
pub(crate) fn names_used<'a>(
    alloc: Global,
    words: &[&'a [u8]],
) -> Result<Vec<&'a [u8]>, AllocError> {
    let mut used = Vec::new(alloc);
    let Some(keyword) = words
        .first()
        .and_then(|word| keyword_in(Version::Three, word))
    else {
        return Ok(used);
    };
    let (count, before) = places_of_names(keyword);
    for name in words.iter().skip(before).take(count) {
        if !used.contains(name) {
            used.push(*name)?;
        }
    }
    if count > 1 {
        let mask = words
            .iter()
            .skip_while(|word| **word != b"mask".as_slice())
            .nth(1);
        if let Some(name) = mask {
            if !used.contains(name) {
                used.push(*name)?;
            }
        }
    }
    Ok(used)
}

impl<'a> Names<'a> {
    /// No names yet.
    pub(crate) fn new(alloc: Global) -> Self {
        Names {
            all: Vec::new(alloc),
            main: None,
            loads: 0,
        }
    }

    /// What this name stands for, if it stands.
    pub(crate) fn find(&self, name: &[u8]) -> Option<Named<'a>> {
        self.all.iter().find(|named| named.name == name).copied()
    }

    /// A name that stands and is near this one, if there is one.
    pub(crate) fn near(&self, name: &[u8]) -> Option<Named<'a>> {
        self.all
            .iter()
            .find(|named| crate::near::is_near(named.name, name))
            .copied()
    }

    /// A section begins: of the names those of main stand in it.
    fn begin_section(&mut self) {
        let main = self.main.unwrap_or(self.all.len());
        self.all.truncate(main);
        self.main = Some(main);
    }

    /// The matrix with the vector of this name on a diagonal, if the name stands for one.
    fn matrix_of_diagonal(&self, source: &[u8], diagonal: &[u8]) -> Option<Object> {
        let diagonal = diagonal_of(diagonal)?;
        match self.find(source)?.object {
            Object::Known(of, Dims::Vector(size)) => {
                let rows = diagonal_size(diagonal, size);
                Some(Object::Known(of, Dims::Matrix(rows, rows)))
            }
            _ => None,
        }
    }

    /// The object that a line with these words makes, if it makes one. The heads are those of the files that were read.
    fn object_made(&self, words: &[&[u8]], heads: &[Object]) -> Option<Object> {
        match words {
            [first, _, source, diagonal] if is_diag(first) => {
                self.matrix_of_diagonal(source, diagonal)
            }
            [_, _, of, nrows, ncols] => {
                let dims = Dims::Matrix(number(nrows)?, number(ncols)?);
                Some(Object::Known(domain(of)?, dims))
            }
            [_, _, of, size] => Some(Object::Known(domain(of)?, Dims::Vector(number(size)?))),
            [_, _, _] if is_load(words) => {
                Some(heads.get(self.loads).copied().unwrap_or(Object::Unread))
            }
            [_, _, source] => Some(self.find(source)?.object),
            _ => None,
        }
    }

    /// Takes what a line with these words, which was not refused, does to an object that stands.
    fn change(&mut self, line: u64, words: &[&[u8]]) {
        let [first, name, more @ ..] = words else {
            return;
        };
        let Some(named) = self.all.iter_mut().find(|named| named.name == *name) else {
            return;
        };
        match keyword_in(Version::Three, first) {
            Some(Keyword::Whole(Whole::Free)) => named.state = State::Freed(line),
            Some(Keyword::Placed(Placed::Resize)) => {
                if let Object::Known(of, _) = named.object {
                    match indices_of(more) {
                        Some(Indices::One(size)) => {
                            named.object = Object::Known(of, Dims::Vector(size));
                        }
                        Some(Indices::Two(nrows, ncols)) => {
                            named.object = Object::Known(of, Dims::Matrix(nrows, ncols));
                        }
                        None => {}
                    }
                }
            }
            _ => {}
        }
    }

    /// Takes what the line of this number with these words makes and changes.
    pub(crate) fn take_line(
        &mut self,
        line: u64,
        words: &[&'a [u8]],
        is_refused: bool,
        heads: &[Object],
    ) -> Result<(), AllocError> {
        if is_section(words) {
            self.begin_section();
        } else if let (Some(name), Some(object)) = (
            name_made(words),
            self.object_made(words, heads),
        ) {
            let state = if is_refused {
                State::Refused
            } else {
                State::Made
            };
            self.all.push(Named {
                name,
                line,
                object,
                state,
            })?;
            if is_load(words) {
                self.loads = self.loads.saturating_add(1);
            }
        } else if !is_refused {
            self.change(line, words);
        }
        Ok(())
    }
}
