//! All entries of an object, written into arrays list by list.
ghost use Rattle.std.specs.Prelude.{◌≡◌, ◌≤◌, ◌++◌, drop, length, true};
ghost use Rattle.grb_lists.specs.Cells.{decoded};
ghost use Rattle.grb_codes.specs.Arrays.{written};

use crate::item::Item;
use grb_sparse::{FlatRows, SparseMatrix, SparseVector};

/// Writes the items to the front of the array.
fn copy_front<T: Item>(items: &[T], array: &mut [T])
    requires { length items.now ≤ length array.old }
    ensures { array.new ≡ items.now ++ drop (length items.now) array.old }
{
    array[..items.len()].copy_from_slice(items);
}

/// Writes the numbers to the front of the array.
fn widen_front(numbers: &[u32], array: &mut [u64])
    requires { length numbers.now ≤ length array.old }
    ensures { array.new ≡ numbers.now ++ drop (length numbers.now) array.old }
{
    'numbers: for at in 0..numbers.len() {
        array[at] = numbers[at] as u64;
    }
}

/// Writes the row of each entry to the front of the array.
fn write_rows(lists: &FlatRows, array: &mut [u64])
    requires { length lists.now.entries ≤ length array.old }
    ensures { array.new ≡ written (λ e. e.0.0) (decoded lists.now.entries) array.old }
{
    let count = lists.len();
    if count == 0 {
        return;
    }
    let rows = lists.rows();
    let mut k = 0;
    let mut end = lists.row_end(0);
    'entries: for at in 0..count {
        if at == end {
            k += 1;
            end = lists.row_end(k);
        }
        array[at] = rows[k] as u64;
    }
}

/// Writes all entries of the matrix to the front of the arrays.
pub(crate) fn write_matrix<T: Item>(
    matrix: &SparseMatrix,
    rows: &mut [u64],
    columns: &mut [u64],
    values: &mut [T],
)
    requires assembled { matrix.now.assembled ≡ true }
    requires domain { matrix.now.matrix.domain ≡ T.domain }
    requires rows { length matrix.now.matrix.entries ≤ length rows.old }
    requires columns { length matrix.now.matrix.entries ≤ length columns.old }
    requires values { length matrix.now.matrix.entries ≤ length values.old }
    ensures rows { rows.new ≡ written (λ e. e.0.0) matrix.now.matrix.entries rows.old }
    ensures columns { columns.new ≡ written (λ e. e.0.1) matrix.now.matrix.entries columns.old }
    ensures values { values.new ≡ written (λ e. T.item e.1) matrix.now.matrix.entries values.old }
{
    let lists = matrix.lists();
    write_rows(lists, rows);
    widen_front(lists.columns(), columns);
    copy_front(T::of_lists(lists), values);
}

/// Writes all entries of the vector to the front of the arrays.
pub(crate) fn write_vector<T: Item>(vector: &SparseVector, indices: &mut [u64], values: &mut [T])
    requires assembled { vector.now.assembled ≡ true }
    requires domain { vector.now.vector.domain ≡ T.domain }
    requires indices { length vector.now.vector.entries ≤ length indices.old }
    requires values { length vector.now.vector.entries ≤ length values.old }
    ensures indices { indices.new ≡ written (λ e. e.0) vector.now.vector.entries indices.old }
    ensures values { values.new ≡ written (λ e. T.item e.1) vector.now.vector.entries values.old }
{
    widen_front(vector.indices(), indices);
    copy_front(T::of_vector(vector), values);
}
