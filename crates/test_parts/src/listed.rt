//! Sparse vectors and matrices against a plain list of what they store. Many methods are drawn from a fixed row of numbers, and each answer
//! is compared, the entries in their order and row by row among them.
//!
//! A contract says each answer by definitions over finite maps. That these are insertion, removal, restriction and the rest, and that
//! memory is there, no contract can say.
ghost use Rattle.std.specs.Prelude.{◌≡◌, true};
ghost use Rattle.grb_core.specs.Contents.{IsDimension};

use crate::same::same;
use grb_core::{Domain, Monoid, Value};
use grb_drawn::Draw;
use grb_sparse::{SparseMatrix, SparseVector};
use std::alloc::{AllocError, Global};
use std::process::Abort;

/// Matrices have up to so many rows and columns, and vectors up to this size. A vector is listed as the row 0 of a matrix.
const SIDE: u64 = 6;

/// How many methods are drawn.
const METHODS: u32 = 10_000;

/// A method by its arguments; a place stands for a row and a column.
#[derive(Clone, Copy, Debug)]
enum Method {
    Set(u64, u64),
    Remove(u64),
    Clear,
    Resize(u64, u64),
    /// A clear, and then a build of three tuples, combined by the sum.
    Build([(u64, u64); 3]),
    /// A copy takes its place.
    Copy,
    Assemble,
}

/// A sort of objects that is tried.
trait Sparse {
    /// The rows and the columns.
    fn shape(&self) -> (u64, u64);

    /// How many entries it stores, how many changes wait in it, and whether it is assembled.
    fn counts(&self) -> (u64, u64, bool);

    fn value_at(&self, place: u64) -> Option<Value>;

    /// The places and values of the entries in their order: of an assembled object alone.
    fn in_order(&self, alloc: Global) -> Result<Vec<(u64, Value)>, AllocError>;

    /// The same row by row.
    fn by_row(&self, alloc: Global) -> Result<Vec<(u64, Value)>, AllocError>;

    /// Does as the method says, whose places are within the dimensions.
    fn take(&mut self, method: Method) -> Result<(), AllocError>;
}

fn place_of(i: u64, j: u64) -> u64 {
    i.wrapping_mul(SIDE).wrapping_add(j)
}

fn is_side(n: u64) -> bool
    ensures { result ≡ true → IsDimension n }
{
    n >= 1 && n <= SIDE
}

impl Sparse for SparseVector {
    fn shape(&self) -> (u64, u64) {
        (1, self.dims())
    }

    fn counts(&self) -> (u64, u64, bool) {
        (self.nvals(), self.pending(), self.is_assembled())
    }

    fn value_at(&self, place: u64) -> Option<Value> {
        self.get(place)
    }

    fn in_order(&self, alloc: Global) -> Result<Vec<(u64, Value)>, AllocError> {
        let mut seen = Vec::new(alloc);
        if self.is_assembled() {
            for entry in self.entries() {
                seen.push(entry)?;
            }
        }
        Ok(seen)
    }

    fn by_row(&self, alloc: Global) -> Result<Vec<(u64, Value)>, AllocError> {
        self.in_order(alloc)
    }

    fn take(&mut self, method: Method) -> Result<(), AllocError> {
        match method {
            Method::Set(i, x) => set_index(self, i, x),
            Method::Remove(i) => remove_index(self, i),
            Method::Clear => {
                self.clear();
                Ok(())
            }
            Method::Resize(_, size) if is_side(size) => self.resize(size),
            Method::Resize(_, _) => Ok(()),
            Method::Build(tuples) => build_vector(self, tuples),
            Method::Copy => {
                *self = self.try_clone()?;
                Ok(())
            }
            Method::Assemble => self.assemble(),
        }
    }
}

fn set_index(v: &mut SparseVector, i: u64, x: u64) -> Result<(), AllocError> {
    if i < v.dims() && v.domain() == Domain::Uint64 {
        v.reserve_pending(2)?;
        v.set(i, Value::Uint64(x));
    }
    Ok(())
}

fn remove_index(v: &mut SparseVector, i: u64) -> Result<(), AllocError> {
    if i < v.dims() {
        v.reserve_pending(1)?;
        v.remove(i);
    }
    Ok(())
}

fn build_vector(v: &mut SparseVector, tuples: [(u64, u64); 3]) -> Result<(), AllocError> {
    let [(i, x), (j, y), (k, z)] = tuples;
    let size = v.dims();
    v.clear();
    if i < size && j < size && k < size && v.domain() == Domain::Uint64 {
        let tuples = [
            (i, Value::Uint64(x)),
            (j, Value::Uint64(y)),
            (k, Value::Uint64(z)),
        ];
        v.build(&tuples, Monoid::Plus)?;
    }
    Ok(())
}

impl Sparse for SparseMatrix {
    fn shape(&self) -> (u64, u64) {
        self.dims()
    }

    fn counts(&self) -> (u64, u64, bool) {
        (self.nvals(), self.pending(), self.is_assembled())
    }

    fn value_at(&self, place: u64) -> Option<Value> {
        self.get(place / SIDE, place % SIDE)
    }

    fn in_order(&self, alloc: Global) -> Result<Vec<(u64, Value)>, AllocError> {
        let mut seen = Vec::new(alloc);
        if self.is_assembled() {
            for ((i, j), value) in self.entries() {
                seen.push((place_of(i, j), value))?;
            }
        }
        Ok(seen)
    }

    fn by_row(&self, alloc: Global) -> Result<Vec<(u64, Value)>, AllocError> {
        let mut seen = Vec::new(alloc);
        for i in 0..SIDE {
            see_row(self, &mut seen, i)?;
        }
        Ok(seen)
    }

    fn take(&mut self, method: Method) -> Result<(), AllocError> {
        match method {
            Method::Set(place, x) => set_cell(self, place, x),
            Method::Remove(place) => remove_cell(self, place),
            Method::Clear => {
                self.clear();
                Ok(())
            }
            Method::Resize(nrows, ncols) if is_side(nrows) && is_side(ncols) => {
                self.resize(nrows, ncols)
            }
            Method::Resize(_, _) => Ok(()),
            Method::Build(tuples) => build_matrix(self, tuples),
            Method::Copy => {
                *self = self.try_clone()?;
                Ok(())
            }
            Method::Assemble => self.assemble(),
        }
    }
}

fn see_row(a: &SparseMatrix, seen: &mut Vec<(u64, Value)>, i: u64) -> Result<(), AllocError> {
    if a.is_assembled() {
        for (j, value) in a.row(i) {
            seen.push((place_of(i, j), value))?;
        }
    }
    Ok(())
}

fn set_cell(a: &mut SparseMatrix, place: u64, x: u64) -> Result<(), AllocError> {
    let (i, j) = (place / SIDE, place % SIDE);
    let (nrows, ncols) = a.dims();
    if i < nrows && j < ncols && a.domain() == Domain::Uint64 {
        a.reserve_pending(2)?;
        a.set(i, j, Value::Uint64(x));
    }
    Ok(())
}

fn remove_cell(a: &mut SparseMatrix, place: u64) -> Result<(), AllocError> {
    let (i, j) = (place / SIDE, place % SIDE);
    let (nrows, ncols) = a.dims();
    if i < nrows && j < ncols {
        a.reserve_pending(1)?;
        a.remove(i, j);
    }
    Ok(())
}

fn build_matrix(a: &mut SparseMatrix, tuples: [(u64, u64); 3]) -> Result<(), AllocError> {
    let [(p, x), (q, y), (r, z)] = tuples;
    let (nrows, ncols) = a.dims();
    let tuples = [
        (p / SIDE, p % SIDE, Value::Uint64(x)),
        (q / SIDE, q % SIDE, Value::Uint64(y)),
        (r / SIDE, r % SIDE, Value::Uint64(z)),
    ];
    a.clear();
    let has_rows = p / SIDE < nrows && q / SIDE < nrows && r / SIDE < nrows;
    let has_columns = p % SIDE < ncols && q % SIDE < ncols && r % SIDE < ncols;
    if has_rows && has_columns && a.domain() == Domain::Uint64 {
        a.build(&tuples, Monoid::Plus)?;
    }
    Ok(())
}

// ---- the plain list

/// What the list stores at a place.
fn stored(list: &[Option<u64>], place: u64) -> Option<u64> {
    match list.get(place as usize) {
        Some(value) => *value,
        None => None,
    }
}

fn write(list: &mut [Option<u64>], place: u64, value: Option<u64>) {
    if let Some(found) = list.get_mut(place as usize) {
        *found = value;
    }
}

/// Leaves what is within the dimensions.
fn cut(list: &mut [Option<u64>], nrows: u64, ncols: u64) {
    for place in 0..36 {
        if place / SIDE >= nrows || place % SIDE >= ncols {
            write(list, place, None);
        }
    }
}

/// Combines a tuple into the list by the sum.
fn add(list: &mut [Option<u64>], place: u64, value: u64) {
    let before = stored(list, place).unwrap_or(0);
    write(list, place, Some(before.wrapping_add(value)));
}

/// Does in the list as the method says.
fn list_method(list: &mut [Option<u64>], method: Method) {
    match method {
        Method::Set(place, x) => write(list, place, Some(x)),
        Method::Remove(place) => write(list, place, None),
        Method::Clear => cut(list, 0, 0),
        Method::Resize(nrows, ncols) => cut(list, nrows, ncols),
        Method::Build(tuples) => {
            cut(list, 0, 0);
            for (place, x) in tuples {
                add(list, place, x);
            }
        }
        Method::Copy | Method::Assemble => {}
    }
}

/// How many places of the list store something.
fn count(list: &[Option<u64>]) -> u64 {
    let mut n = 0_u64;
    for value in list {
        n = n.wrapping_add(u64::from(value.is_some()));
    }
    n
}

// ---- the comparison

/// These entries are all that the list stores, in rising order of their places.
fn same_entries(rt: &impl Abort, entries: &[(u64, Value)], list: &[Option<u64>], method: Method) {
    let mut next = 0;
    for (place, value) in entries {
        same(rt, next <= *place, true, (method, *place));
        let wanted = stored(list, *place).map(|n| Value::Uint64(n));
        same(rt, Some(*value), wanted, (method, *place));
        next = place.wrapping_add(1);
    }
    same(rt, entries.len() as u64, count(list), method);
}

fn same_object<T: Sparse>(
    rt: &impl Abort,
    alloc: Global,
    object: &T,
    list: &[Option<u64>],
    method: Method,
) -> Result<(), AllocError> {
    let (nvals, pending, is_assembled) = object.counts();
    same(rt, nvals, count(list), method);
    for place in 0..36 {
        let wanted = stored(list, place).map(|n| Value::Uint64(n));
        same(rt, object.value_at(place), wanted, (method, place));
    }
    if is_assembled {
        same(rt, pending, 0, method);
        same_entries(rt, &object.in_order(alloc)?, list, method);
        same_entries(rt, &object.by_row(alloc)?, list, method);
    }
    Ok(())
}

/// A place within the dimensions.
fn drawn_place(draw: &mut Draw, (nrows, ncols): (u64, u64)) -> u64 {
    let (i, j) = (draw.below(SIDE), draw.below(SIDE));
    place_of(i % nrows.max(1), j % ncols.max(1))
}

fn drawn_tuple(draw: &mut Draw, shape: (u64, u64)) -> (u64, u64) {
    (drawn_place(draw, shape), draw.below(1_000))
}

/// A method, mostly a set or a remove.
fn drawn_method(draw: &mut Draw, shape: (u64, u64), most_rows: u64) -> Method {
    let place = drawn_place(draw, shape);
    match draw.below(40) {
        0 => Method::Clear,
        1 | 2 => Method::Resize(
            (draw.below(SIDE) % most_rows.max(1)).wrapping_add(1),
            draw.below(SIDE).wrapping_add(1),
        ),
        3 => Method::Resize(most_rows, SIDE),
        4 => Method::Build([
            drawn_tuple(draw, shape),
            drawn_tuple(draw, shape),
            drawn_tuple(draw, shape),
        ]),
        5 => Method::Copy,
        6 | 7 => Method::Assemble,
        8..18 => Method::Remove(place),
        _ => Method::Set(place, draw.below(1_000)),
    }
}

/// An object and a list that begin without entries are the same after each of many methods.
fn stay_same<T: Sparse>(
    rt: &impl Abort,
    alloc: Global,
    object: &mut T,
    most_rows: u64,
    seed: u64,
) -> Result<(), AllocError> {
    let mut draw = Draw { state: seed };
    let mut list: Vec<Option<u64>> = vec![in alloc; None; 36]?;
    for _ in 0..METHODS {
        let method = drawn_method(&mut draw, object.shape(), most_rows);
        object.take(method)?;
        list_method(&mut list, method);
        same_object(rt, alloc, &*object, &list, method)?;
    }
    Ok(())
}

#[test]
fn same_as_list(rt: HostRuntime) -> Result<(), AllocError> {
    let alloc = rt.alloc();
    let mut v = SparseVector::new(alloc, Domain::Uint64, SIDE);
    stay_same(&rt, alloc, &mut v, 1, 20_261_122)?;
    let mut a = SparseMatrix::new(alloc, Domain::Uint64, SIDE, SIDE);
    stay_same(&rt, alloc, &mut a, SIDE, 5_150)
}
