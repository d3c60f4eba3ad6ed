//! Marks at places that are wanted: others are taken away before sums become entries, so what a mask leaves out is never written.
ghost use Rattle.std.specs.Prelude.{◌≡◌, ◌≢◌, ◌&&◌, ◌<◌, ◌*◌, ℕ, Bool, true, false, not, cond, length, IfOk};
ghost use Rattle.grb_core.specs.declared.monoid.Monoid.{Monoid};
ghost use Rattle.grb_core.specs.Entries.{VectorEntries};
ghost use Rattle.grb_kernels.specs.Bits.{has_bit};
ghost use Rattle.grb_kernels.specs.Typed.{entries_of};
ghost use Rattle.grb_sums.specs.Bits.{is_marked, AreMarked};
ghost use Rattle.grb_sums.specs.ColumnSums.{AreSums, column_folds, numbers_below};
ghost use Rattle.grb_push.specs.Wanted.{is_among, is_wanted, IsMade};

use crate::wanted::Wanted;
use grb_ewise::Stored;
use grb_kernels::EntryList;
use grb_sums::{AllColumns, close_sums, mark};
use std::alloc::{AllocError, Global};

/// Marks are taken away where the mask has at most so many numbers for each product: else what was made is searched among them.
const NUMBERS_FOR_ONE: usize = 4;

/// Marks a place, if there is a bit for it.
fn mark_there(words: &mut [u64], at: usize)
    ensures here { at < 64 * length words.old → is_marked words.new at ≡ true }
    ensures others { (p : ℕ) → p ≢ at → is_marked words.new p ≡ is_marked words.old p }
{
    if at / 64 < words.len() {
        mark(words, at);
    }
}

/// Marks each of these places for which there is a bit, where none is marked.
fn mark_each(places: &[u32], words: &mut [u64])
    requires none { (p : ℕ) → is_marked words.old p ≡ false }
    ensures { (p : ℕ) → p < 64 * length words.old → is_marked words.new p ≡ is_among p places.now }
{
    'places: for i in 0..places.len() {
        mark_there(words, places[i] as usize);
    }
}

/// The bits that are set in a word; those that are not, where they are not the ones that are wanted.
fn wanted_bits(listed: u64, among: bool) -> u64
    ensures { (t : ℕ) → t < 64 → has_bit result t ≡ cond among (has_bit listed t) (not (has_bit listed t)) }
{
    if among { listed } else { !listed }
}

/// Takes away the marks of places that are not listed; of those that are, where these are not the ones that are wanted.
fn keep_listed(listed: &[u64], among: bool, words: &mut [u64])
    requires same { length listed.now ≡ length words.old }
    ensures { (p : ℕ) → is_marked words.new p ≡ (is_marked words.old p && cond among (is_marked listed.now p) (not (is_marked listed.now p))) }
{
    'words: for w in 0..words.len() {
        words[w] = words[w] & wanted_bits(listed[w], among);
    }
}

/// Takes away the marks of places that are not wanted. Takes memory for as many words, to work in. `AllocError` where that is refused; then
/// all marks are as before.
fn keep_wanted(alloc: Global, wanted: &Wanted, words: &mut [u64]) -> Result<(), AllocError>
    ensures { IfOk result (λ _. (p : ℕ) → is_marked words.new p ≡ (is_marked words.old p && is_wanted wanted.now.among wanted.now.names.now p)) }
{
    let mut listed = vec![in alloc; 0u64; words.len()]?;
    let bits = listed.as_mut_slice();
    mark_each(wanted.names, bits);
    keep_listed(bits, wanted.among, words);
    Ok(())
}

/// The sums of `count` products as entries, and whether places that are not wanted may be among them. They are not, where it takes no more
/// time to take their marks away than to look for them later. Takes memory for the entries, and for a bit of each column. `AllocError`
/// where that is refused; then nothing is made.
pub(crate) fn close_wanted<T: Stored + Drop>(
    alloc: Global,
    all: &AllColumns,
    wanted: &Wanted,
    words: &mut [u64],
    sums: &[T],
    count: usize,
) -> Result<(EntryList<T>, bool), AllocError>
    requires marked { AreMarked (length (numbers_below all.now.ncols)) words.old sums.now }
    ensures { IfOk result (λ made. (m : Monoid) (added : VectorEntries) → AreSums T.value m (numbers_below all.now.ncols) added words.old sums.now → IsMade made.1 (is_wanted wanted.now.among wanted.now.names.now) (column_folds m (numbers_below all.now.ncols) added) (entries_of T.value made.0.indices.items made.0.values.items)) }
{
    if wanted.is_all() || wanted.names.len() / NUMBERS_FOR_ONE > count {
        let entries = close_sums(alloc, all, words, sums)?;
        return Ok((entries, true));
    }
    keep_wanted(alloc, wanted, words)?;
    let entries = close_sums(alloc, all, words, sums)?;
    Ok((entries, false))
}
