//! Columns of a matrix: whether they are few beside its entries, where one stands among others, and numbers from 0 on for those that
//! store something.
ghost use Rattle.std.specs.Prelude.{◌≡◌, ◌≢◌, ◌⊎◌, ◌*◌, ◌<◌, ◌≤◌, ◌^◌, ℕ, true, false, length, map, slice_index, All, IfOk, IfSome, IfNone};
ghost use Rattle.std.specs.List.{Contains};
ghost use Rattle.grb_ewise.specs.Ranks.{Rise};

use std::alloc::{AllocError, Global};

/// Whether a work array of `ncols` places is no longer than 8 times the entries that are there. Takes no memory.
///
/// `ncols` is below 2^32. The bound is our own.
pub fn is_worth_opening(ncols: u64, entries: usize) -> bool
    requires few { ncols < 2 ^ 32 }
    ensures short { result ≡ true → ncols ≤ 8 * entries }
    ensures long { result ≡ false → 8 * entries < ncols }
{
    (ncols + 7) / 8 <= entries as u64
}

/// Where an index stands among those that rise; none, where it stands nowhere. Takes no memory.
///
/// Source: own.
pub fn place_of(indices: &[u32], index: u32) -> Option<usize>
    requires { (i j : ℕ) → i ≤ j → j < length indices.now → slice_index indices.now i ≤ slice_index indices.now j }
    ensures found { IfSome result (λ at. (at < length indices.now) × (slice_index indices.now at ≡ index)) }
    ensures absent { IfNone result ((k : ℕ) → k < length indices.now → slice_index indices.now k ≢ index) }
{
    match indices.binary_search(&index) {
        Ok(at) => Some(at),
        Err(_) => None,
    }
}

/// The numbers of two lists, each once and in rising order. `AllocError` where memory is refused; then nothing is made.
///
/// Source: own.
pub fn distinct(alloc: Global, columns: &[u32], others: &[u32]) -> Result<Vec<u32>, AllocError>
    ensures rising { IfOk result (λ names. Rise names.items) }
    ensures all { IfOk result (λ names. (j : ℕ) → Contains columns.now j → Contains names.items j) }
    ensures others { IfOk result (λ names. (j : ℕ) → Contains others.now j → Contains names.items j) }
    ensures no_other { IfOk result (λ names. (j : ℕ) → Contains names.items j → Contains columns.now j ⊎ Contains others.now j) }
{
    let mut names = Vec::new(alloc);
    names.extend_from_slice(columns)?;
    names.extend_from_slice(others)?;
    names.sort_unstable();
    names.dedup();
    Ok(names)
}

/// The place of a column among names.
fn rank_of(names: &[u32], column: u32) -> u32
    requires rising { Rise names.now }
    requires there { Contains names.now column }
    ensures in_range { result < length names.now }
    ensures named { slice_index names.now result ≡ column }
{
    match place_of(names, column) {
        Some(at) => at as u32,
        None => unreachable!(),
    }
}

/// The place of each column among names, in which each of them stands. `AllocError` where memory is refused; then nothing is made.
///
/// Source: own.
pub fn ranks_of(alloc: Global, columns: &[u32], names: &[u32]) -> Result<Vec<u32>, AllocError>
    requires rising { Rise names.now }
    requires all { (j : ℕ) → Contains columns.now j → Contains names.now j }
    ensures in_range { IfOk result (λ ranks. All (λ r. r < length names.now) ranks.items) }
    ensures named { IfOk result (λ ranks. map (λ c. slice_index names.now c) ranks.items ≡ columns.now) }
{
    let mut ranks = Vec::with_capacity(alloc, columns.len())?;
    'columns: for column in columns {
        ranks.push_reserved(rank_of(names, *column));
    }
    Ok(ranks)
}
