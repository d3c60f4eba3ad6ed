//! The rows of a matrix that the entries of a vector pick.
ghost use Rattle.std.specs.Prelude.{◌≡◌, ◌≢◌, ◌<◌, true, false, length, slice_index, All, IfOk};
ghost use Rattle.grb_core.specs.declared.value.Value.{Value};
ghost use Rattle.grb_kernels.specs.Typed.{entries_of};
ghost use Rattle.grb_lists.specs.Cells.{decoded};
ghost use Rattle.grb_sums.specs.ColumnSums.{as_entries};
ghost use Rattle.grb_push.specs.Pushes.{pushed, at_numbers};

use grb_ewise::Stored;
use grb_kernels::EntrySlice;
use grb_lists::{FlatRows, next_place};
use std::alloc::{AllocError, Global};

/// Whether a number stands at a place.
fn is_at(numbers: &[u32], place: usize, number: u32) -> bool
    ensures here { result ≡ true → (place < length numbers.now) × (slice_index numbers.now place ≡ number) }
    ensures not_here { result ≡ false → place < length numbers.now → slice_index numbers.now place ≢ number }
{
    place < numbers.len() && numbers[place] == number
}

/// The entries of a vector at whose rows a matrix stores something: of each the place of its row among these rows, and its value. Takes
/// memory for as many as the vector has entries. `AllocError` where that is refused; then nothing is made.
pub(crate) fn pick_rows<T: Stored + Drop>(
    alloc: Global,
    lists: &FlatRows,
    u: &EntrySlice<T>,
) -> Result<Vec<(usize, T)>, AllocError>
    ensures within { IfOk result (λ picks. All (λ p. p.0 < length lists.now.rows) picks.items) }
    ensures picked { IfOk result (λ picks. (f : Value → Value → Value) → pushed f (at_numbers lists.now.rows (as_entries T.value picks.items)) (decoded lists.now.entries) ≡ pushed f (entries_of T.value u.now.indices.now u.now.values.now) (decoded lists.now.entries)) }
{
    let mut picks = Vec::with_capacity(alloc, u.indices.len())?;
    let rows = lists.rows();
    let mut from = 0;
    'entries: for i in 0..u.indices.len() {
        let (index, value) = (u.indices[i], u.values[i]);
        from = next_place(rows, from, index);
        if is_at(rows, from, index) {
            picks.push_reserved((from, value));
        }
    }
    Ok(picks)
}
