//! diag: the entries of a vector on a diagonal of a matrix.
ghost use Rattle.std.specs.Prelude.{◌≡◌, ◌+◌, ◌<◌, ◌≤◌, ◌^◌, [], length, true, All, IfOk, IsTrue};
ghost use Rattle.std.specs.Ordering.{nat_cmp};
ghost use Rattle.std.specs.FinMap.{is_sorted};
ghost use Rattle.std.specs.Vec.{vec_len, vec_capacity};
ghost use Rattle.grb_core.specs.Contents.{IsDimension};
ghost use Rattle.grb_core.specs.Value.{IsValueOf};
ghost use Rattle.grb_core.specs.Entries.{cell_cmp};
ghost use Rattle.grb_kernels.specs.Typed.{entries_of};
ghost use Rattle.grb_lists.specs.Cells.{decoded, IsFlat};
ghost use Rattle.grb_ewise.specs.Rows.{flat_entries};
ghost use Rattle.grb_core.specs.Maps.{diagonal_matrix, diagonal_size};
ghost use Rattle.grb_core.specs.Tests.{down, up};
ghost use Rattle.grb_maps.specs.Placed.{placed};

use grb_core::{Diagonal, Domain, diagonal_size};
use grb_ewise::Stored;
use grb_kernels::EntrySlice;
use grb_lists::FlatRows;
use grb_sparse::{SparseMatrix, SparseVector};
use std::alloc::{AllocError, Global};

/// Puts each entry of a vector into empty lists as a row of its own, so much further down and so much further to the right.
fn fill_diagonal<T: Stored>(
    down: u64,
    up: u64,
    entries: &EntrySlice<T>,
    rows: &mut Vec<u32>,
    starts: &mut Vec<usize>,
    columns: &mut Vec<u32>,
    values: &mut Vec<T>,
)
    requires rows_fit { All (λ i. i + down < 2 ^ 32) entries.now.indices.now }
    requires columns_fit { All (λ i. i + up < 2 ^ 32) entries.now.indices.now }
    requires no_rows { rows.old.items ≡ [] }
    requires no_starts { starts.old.items ≡ [] }
    requires no_columns { columns.old.items ≡ [] }
    requires no_values { values.old.items ≡ [] }
    requires rows_room { length entries.now.indices.now ≤ vec_capacity rows.old }
    requires starts_room { length entries.now.indices.now ≤ vec_capacity starts.old }
    requires columns_room { length entries.now.indices.now ≤ vec_capacity columns.old }
    requires values_room { length entries.now.indices.now ≤ vec_capacity values.old }
    ensures flat { IsFlat rows.new.items starts.new.items columns.new.items }
    ensures same { length values.new.items ≡ length columns.new.items }
    ensures entries { flat_entries T.value rows.new.items starts.new.items columns.new.items values.new.items ≡ placed down up (entries_of T.value entries.now.indices.now entries.now.values.now) }
{
    'entries: for at in 0..entries.indices.len() {
        let k = entries.indices[at] as u64;
        rows.push_reserved((k + down) as u32);
        starts.push_reserved(at);
        columns.push_reserved((k + up) as u32);
        values.push_reserved(entries.values[at]);
    }
}

/// The flat lists of a diagonal. `AllocError` where memory is refused; then nothing is made.
fn diagonal_lists<T: Stored + Drop>(
    alloc: Global,
    down: u64,
    up: u64,
    entries: &EntrySlice<T>,
) -> Result<FlatRows, AllocError>
    requires rows_fit { All (λ i. i + down < 2 ^ 32) entries.now.indices.now }
    requires columns_fit { All (λ i. i + up < 2 ^ 32) entries.now.indices.now }
    ensures entries { IfOk result (λ made. decoded made.entries ≡ placed down up (entries_of T.value entries.now.indices.now entries.now.values.now)) }
    ensures domain { IfOk result (λ made. made.domain ≡ T.domain) }
    ensures of_domain { IfOk result (λ made. All (λ e. IsValueOf T.domain e.1) (decoded made.entries)) }
{
    let room = entries.indices.len();
    let mut rows = Vec::with_capacity(alloc, room)?;
    let mut starts = Vec::with_capacity(alloc, room)?;
    let mut columns = Vec::with_capacity(alloc, room)?;
    let mut values = Vec::with_capacity(alloc, room)?;
    fill_diagonal(
        down,
        up,
        entries,
        &mut rows,
        &mut starts,
        &mut columns,
        &mut values,
    );
    T::show(values.as_slice());
    Ok(T::keep(rows, starts, columns, values))
}

/// The matrix that has a vector on a diagonal, whose values are of the Rust type `T`. `AllocError` where memory is refused; then nothing is
/// made.
fn spread<T: Stored + Drop>(
    alloc: Global,
    d: Diagonal,
    v: &SparseVector,
) -> Result<SparseMatrix, AllocError>
    requires assembled { v.now.assembled ≡ true }
    requires domain { v.now.vector.domain ≡ T.domain }
    requires fits { IsDimension (diagonal_size d v.now.vector.size) }
    ensures matrix { IfOk result (λ made. made.matrix ≡ diagonal_matrix d v.now.vector) }
    ensures assembled { IfOk result (λ made. made.assembled ≡ true) }
{
    let size = diagonal_size(d, v.dims());
    let lists = diagonal_lists::<T>(alloc, d.down(), d.up(), &T::lend(v))?;
    Ok(SparseMatrix::from_lists(alloc, size, size, lists))
}

/// diag: the square matrix that has the entries of `v` on a diagonal, and its domain. It has so many rows more than `v` has places as the
/// diagonal is away from the main one. `AllocError` where memory is refused; then nothing is made.
///
/// The time is in proportion to the stored entries. Whether a matrix can have so many rows, `diagonal_size` and `is_dimension` tell.
///
/// Source: GraphBLAS C API 2.0, "Matrix_diag".
pub fn diagonal_matrix(
    alloc: Global,
    d: Diagonal,
    v: &SparseVector,
) -> Result<SparseMatrix, AllocError>
    requires assembled { v.now.assembled ≡ true }
    requires fits { IsDimension (diagonal_size d v.now.vector.size) }
    ensures matrix { IfOk result (λ made. made.matrix ≡ diagonal_matrix d v.now.vector) }
    ensures assembled { IfOk result (λ made. made.assembled ≡ true) }
{
    match v.domain() {
        Domain::Bool => {
            let made = spread::<bool>(alloc, d, v)?;
            Ok(made)
        }
        Domain::Uint64 => {
            let made = spread::<u64>(alloc, d, v)?;
            Ok(made)
        }
    }
}
