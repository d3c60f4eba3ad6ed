//! The rows of a mask, by the ranks of their columns.
ghost use Rattle.std.specs.Prelude.{◌≡◌, ◌<◌, ℕ, length, map, slice_index, slice_index_or, All, IsTrue, false};
ghost use Rattle.std.specs.Ordering.{nat_cmp};
ghost use Rattle.std.specs.FinMap.{is_sorted, find};
ghost use Rattle.grb_core.specs.Entries.{cell_cmp};
ghost use Rattle.grb_core.specs.Mask.{selects};
ghost use Rattle.grb_core.specs.Results.{row_of};
ghost use Rattle.grb_kernels.specs.Typed.{entries_of};
ghost use Rattle.grb_lists.specs.Cells.{decoded};
ghost use Rattle.grb_ewise.specs.Ranks.{Rise};
ghost use Rattle.grb_sums.specs.Naming.{name_in};
ghost use Rattle.grb_mxm.specs.AllowedSums.{AreSelected, is_allowed, is_summed, allowed_of, summed_of};

use crate::allowed_sums::{ALLOWED, OUTSIDE};
use grb_core::Domain;
use grb_ewise::Stored;
use grb_lists::FlatRows;
use grb_sums::{Names, row_at};

/// A mask whose columns have ranks, as those of `RankedRows` do, read by structure or by value. It may be of either domain.
#[derive(Drop)]
pub(crate) struct MaskRows<'a> {
    pub(crate) lists: &'a FlatRows,
    pub(crate) ranks: &'a [u32],
    pub(crate) names: &'a Names<'a>,
    pub(crate) structure: bool,
    ghost ordered: { IsTrue (is_sorted cell_cmp (decoded lists.now.entries)) },
    ghost in_range: { All (λ r. r < length names.now) ranks.now },
    ghost named: { map (name_in names.now) ranks.now ≡ map (λ e. e.0.1) (decoded lists.now.entries) },
    ghost rising: { Rise names.now },
}

/// The state of a place, where there is no sum yet.
fn state_of(is_selected: bool) -> u8
    ensures allowed { is_allowed result ≡ is_selected }
    ensures none { is_summed result ≡ false }
{
    if is_selected { ALLOWED } else { OUTSIDE }
}

/// Allows sums at the places that the entries of a mask's row select.
fn allow_entries<U: Stored>(places: &[u32], values: &[U], structure: bool, states: &mut [u8])
    requires same { length places.now ≡ length values.now }
    requires in_range { All (λ p. p < length states.old) places.now }
    requires none { (p : ℕ) → slice_index states.old p ≡ 0 }
    ensures allowed { (p : ℕ) → slice_index_or (allowed_of states.new) p false ≡ selects structure (find nat_cmp p (entries_of U.value places.now values.now)) }
    ensures none { (p : ℕ) → slice_index_or (summed_of states.new) p false ≡ false }
{
    let mut i = places.len();
    'down: while i > 0 {
        i -= 1;
        states[places[i] as usize] = state_of(structure | values[i].is_true());
    }
}

impl<'a> MaskRows<'a> {
    /// Allows sums at the places that the `k`th row selects, whose values are of the Rust type `U`. Answers the places of its entries.
    fn allow_typed<U: Stored + 'a>(&self, k: usize, states: &mut [u8]) -> &'a [u32]
        requires at { k < length self.now.lists.now.rows }
        requires domain { self.now.lists.now.domain ≡ U.domain }
        requires room { length states.old ≡ length self.now.names.now }
        requires none { (p : ℕ) → slice_index states.old p ≡ 0 }
        ensures { AreSelected self.now.names.now self.now.structure (row_of (slice_index self.now.lists.now.rows k) (decoded self.now.lists.now.entries)) states.new result.now }
    {
        let row = row_at::<U>(self.lists, self.ranks, self.names, k);
        allow_entries(row.indices, row.values, self.structure, states);
        row.indices
    }

    /// Allows sums at the places that the `k`th row selects. Answers the places of its entries.
    pub(crate) fn allow(&self, k: usize, states: &mut Vec<u8>) -> &'a [u32]
        requires at { k < length self.now.lists.now.rows }
        requires room { length states.old.items ≡ length self.now.names.now }
        requires none { (p : ℕ) → slice_index states.old.items p ≡ 0 }
        ensures long { length states.new.items ≡ length states.old.items }
        ensures selected { AreSelected self.now.names.now self.now.structure (row_of (slice_index self.now.lists.now.rows k) (decoded self.now.lists.now.entries)) states.new.items result.now }
    {
        let states = states.as_mut_slice();
        match self.lists.domain() {
            Domain::Bool => self.allow_typed::<bool>(k, states),
            Domain::Uint64 => self.allow_typed::<u64>(k, states),
        }
    }
}
