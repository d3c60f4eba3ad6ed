//! What is made of each entry by itself: the kernel of select and of apply.
ghost use Rattle.std.specs.Prelude.{◌≡◌, ◌≤◌, ℕ, length, Option, IfOk};
ghost use Rattle.grb_core.specs.declared.value.Value.{Value};
ghost use Rattle.grb_kernels.specs.Typed.{kept, entries_of, first_entries};
ghost use Rattle.grb_kernels.specs.Merging.{owned, lent};
ghost use Rattle.grb_core.specs.Each.{each_made};

use grb_kernels::{EntryList, EntrySlice, Scalar, emit};
use std::alloc::{AllocError, Global};

/// What is made of each entry by itself: another value, or none. What does not change within a row is found out once for each row.
pub(crate) trait Each<T: Scalar>: Drop {
    /// What is made of a value in this row, by its column.
    ghost gives: { Self → ℕ → Value → Option Value };

    /// What is made of a value, by its row and its column.
    ghost row_gives: { Self → ℕ → ℕ → Value → Option Value };

    /// The same, for one row.
    fn in_row(&self, i: u32) -> Self
        ensures { (j : ℕ) (v : Value) → gives result j v ≡ row_gives self.now i j v };

    /// What is made of a value at a column of the row, and whether it is kept.
    fn make(&self, j: u32, v: T) -> (T, bool)
        ensures { kept (T.value result.0) result.1 ≡ gives self.now j (T.value v) };
}

/// Writes what is made of each entry of a row to the front of `columns` and `values`, and answers how many entries that is. The time is
/// the number of entries of the row.
pub(crate) fn make_row<T: Scalar, E: Each<T>>(
    each: &E,
    js: &[u32],
    vs: &[T],
    columns: &mut [u32],
    values: &mut [T],
) -> usize
    requires list { length js.now ≡ length vs.now }
    requires room { length js.now ≤ length columns.old }
    requires same { length columns.old ≡ length values.old }
    ensures entries { first_entries T.value result columns.new values.new ≡ each_made (E.gives each.now) (entries_of T.value js.now vs.now) }
    ensures most { result ≤ length js.now }
{
    let mut k = 0;
    'entries: for at in 0..js.len() {
        let (value, keep) = each.make(js[at], vs[at]);
        k = emit(columns, values, k, js[at], value, keep);
    }
    k
}

/// What is made of each of some entries. Takes memory for as many as there are. `AllocError` where that is refused; then nothing is made.
pub(crate) fn make_list<T: Scalar + Drop, E: Each<T>>(
    alloc: Global,
    each: &E,
    entries: &EntrySlice<T>,
) -> Result<EntryList<T>, AllocError>
    ensures { IfOk result (λ list. owned list ≡ each_made (E.gives each.now) (lent entries.now)) }
{
    let room = entries.indices.len();
    let mut indices = vec![in alloc; 0u32; room]?;
    let mut values = vec![in alloc; T::any(); room]?;
    let count = make_row(
        each,
        entries.indices,
        entries.values,
        indices.as_mut_slice(),
        values.as_mut_slice(),
    );
    indices.truncate(count);
    values.truncate(count);
    Ok(EntryList { indices, values })
}
