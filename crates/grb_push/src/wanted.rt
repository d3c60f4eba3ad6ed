//! Which places of a result are made, where a mask lets the others be left out, and how what was made is written.
ghost use Rattle.std.specs.Prelude.{◌≡◌, ◌<◌, ◌≤◌, ℕ, true, false, not, Some, length, slice_index, IfSome, IfOk};
ghost use Rattle.std.specs.Ordering.{nat_cmp};
ghost use Rattle.std.specs.Option.{option_map};
ghost use Rattle.grb_core.specs.Mask.{is_inside};
ghost use Rattle.grb_ewise.specs.Premises.{IsVectorInput, IsVectorOutput, LieInside};
ghost use Rattle.grb_ewise.specs.Ranks.{Rise};
ghost use Rattle.grb_ewise.specs.Written.{written_into_vector};
ghost use Rattle.grb_push.specs.Wanted.{is_among, is_wanted};

use grb_core::{BinaryOp, Descriptor};
use grb_ewise::{write_inside_vector, write_masked_vector};
use grb_lists::next_place;
use grb_sparse::SparseVector;
use std::alloc::{AllocError, Global};

/// Which places are made: those that stand among some numbers, or all others.
#[derive(Drop)]
pub struct Wanted<'a> {
    /// The numbers, which rise.
    pub names: &'a [u32],
    /// Whether these places are the ones that are made.
    pub among: bool,
    ghost rising: { Rise names.now },
}

impl<'a> Wanted<'a> {
    /// Whether all places are known to be wanted.
    pub fn is_all(&self) -> bool
        ensures { result ≡ true → (q : ℕ) → is_wanted self.now.among self.now.names.now q ≡ true }
    {
        self.names.is_empty() && !self.among
    }

    /// Whether a place is wanted. The search begins at `from`, before which the numbers are known to be below the place; beside the answer
    /// is where it ended. Takes no memory.
    pub fn wants(&self, from: usize, place: u32) -> (bool, usize)
        requires from { from ≤ length self.now.names.now }
        requires passed { (q : ℕ) → q < from → slice_index self.now.names.now q < place }
        ensures wanted { result.0 ≡ is_wanted self.now.among self.now.names.now place }
        ensures within { result.1 ≤ length self.now.names.now }
        ensures below { (q : ℕ) → q < result.1 → slice_index self.now.names.now q < place }
    {
        if from == self.names.len() {
            return (!self.among, from);
        }
        let at = next_place(self.names, from, place);
        (stands_at(self.names, at, place) == self.among, at)
    }
}

/// Whether a number stands among those that rise, where those from a place on are the ones that are not below it.
fn stands_at(names: &[u32], at: usize, number: u32) -> bool
    requires rising { Rise names.now }
    requires below { (q : ℕ) → q < at → slice_index names.now q < number }
    requires above { (q : ℕ) → at ≤ q → q < length names.now → number ≤ slice_index names.now q }
    ensures { result ≡ is_among number names.now }
{
    at < names.len() && names[at] == number
}

/// The places at which a mask may let something be written; all places, where that is not known of any. Of a structural mask, and of none,
/// they are those that are inside.
pub fn wanted_of(mask: Option<&SparseVector>, descriptor: Descriptor) -> Wanted<'_>
    requires mask_assembled { IfSome mask (λ m. m.now.assembled ≡ true) }
    ensures covers { (q : ℕ) → is_inside nat_cmp descriptor.structure descriptor.comp (option_map (λ m. m.now.vector.entries) mask.entry) q ≡ true → is_wanted result.among result.names.now q ≡ true }
    ensures inside { descriptor.structure ≡ true → (q : ℕ) → is_wanted result.among result.names.now q ≡ true → is_inside nat_cmp descriptor.structure descriptor.comp (option_map (λ m. m.now.vector.entries) mask.entry) q ≡ true }
{
    match mask {
        Some(mask) => wanted_by(mask, descriptor),
        None => places_beside_none(descriptor.comp),
    }
}

/// The places that stand among none, which is no place, or all others, which is every place.
fn places_beside_none<'a>(among: bool) -> Wanted<'a>
    ensures { (q : ℕ) → is_wanted result.among result.names.now q ≡ not among }
{
    Wanted { names: &[], among }
}

/// The places at which a mask may let something be written: those that it stores, or with a structural mask's complement all others. What
/// the complement of a mask by value lets in is not known without its values, and so it is all places.
fn wanted_by(mask: &SparseVector, descriptor: Descriptor) -> Wanted<'_>
    requires assembled { mask.now.assembled ≡ true }
    ensures covers { (q : ℕ) → is_inside nat_cmp descriptor.structure descriptor.comp (Some mask.now.vector.entries) q ≡ true → is_wanted result.among result.names.now q ≡ true }
    ensures inside { descriptor.structure ≡ true → (q : ℕ) → is_wanted result.among result.names.now q ≡ true → is_inside nat_cmp descriptor.structure descriptor.comp (Some mask.now.vector.entries) q ≡ true }
{
    if descriptor.comp & !descriptor.structure {
        return places_beside_none(false);
    }
    Wanted {
        names: mask.indices(),
        among: !descriptor.comp,
    }
}

/// The new output of an operation that computed `computed`: at the places that are wanted, or, where `whole` says so, perhaps at others
/// too. By a structural mask all that is wanted lies inside, and it is not masked again. `AllocError` where memory is refused; then nothing
/// is made, and `output` is as before.
pub fn write_wanted(
    alloc: Global,
    output: &SparseVector,
    mask: Option<&SparseVector>,
    accum: Option<BinaryOp>,
    descriptor: Descriptor,
    whole: bool,
    computed: SparseVector,
) -> Result<SparseVector, AllocError>
    requires output { IsVectorOutput output.now mask accum }
    requires computed { IsVectorInput output.now.vector.domain output.now.vector.size computed }
    requires inside { descriptor.structure ≡ true → whole ≡ false → LieInside nat_cmp (option_map (λ m. m.now.vector.entries) mask) descriptor computed.vector.entries }
    ensures vector { IfOk result (λ made. made.vector ≡ written_into_vector output.now mask.entry accum descriptor
        computed.vector.entries) }
    ensures assembled { IfOk result (λ made. made.assembled ≡ true) }
{
    if descriptor.structure & !whole {
        let made = write_inside_vector(alloc, output, mask, accum, descriptor, computed)?;
        return Ok(made);
    }
    let masked = write_masked_vector(alloc, output, mask, accum, descriptor, computed)?;
    Ok(masked)
}
