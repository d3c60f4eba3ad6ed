//! Tuples of a place and a value, put in rising order of their places, the values of one place combined.
ghost use Rattle.std.specs.Prelude.{◌≡◌, ◌≢◌, ◌+◌, ◌-◌, ◌<◌, ◌≤◌, ◌↔◌, ℕ, true, false, length, All, IsTrue, IfOk, slice_index_or};
ghost use Rattle.std.specs.Ordering.{is_gt, nat_cmp};
ghost use Rattle.std.specs.List.Sorted.{IsSortedByKey};
ghost use Rattle.std.specs.FinMap.{find, put, is_sorted};
ghost use Rattle.grb_core.specs.declared.value.Value.{Value as Stored};
ghost use Rattle.grb_core.specs.Value.{value_domain, IsValueOf};
ghost use Rattle.grb_core.specs.Monoid.{monoid_domain};
ghost use Rattle.grb_core.specs.Entries.{built_from};
ghost use Rattle.grb_sparse.specs.Build.{joined};

use grb_core::{Monoid, Value, apply};
use grb_rows::{FlatRows, packed};
use std::alloc::{AllocError, Global};

/// What reading a value shows: it is one of its domain.
pub(crate) fn read(value: Value)
    ensures { IsValueOf (value_domain value) value }
{
    match value {
        Value::Bool(_) => {}
        Value::Uint64(_number) => {}
    }
}

/// Whether the last of the entries so far stands at a place.
fn ends_at(built: &FlatRows, place: u64) -> bool
    ensures yes { result ≡ true → (0 < length built.now.entries) × ((d : ℕ × Stored) → (slice_index_or built.now.entries (length built.now.entries - 1) d).0 ≡ place) }
    ensures no { result ≡ false → (d : ℕ × Stored) → 0 < length built.now.entries → (slice_index_or built.now.entries (length built.now.entries - 1) d).0 ≢ place }
{
    match built.last_index() {
        Some(last) => last == place,
        None => false,
    }
}

/// Adds a tuple to the entries so far, whose places are none higher: at the last place it combines both values.
pub(crate) fn add(built: &mut FlatRows, place: u64, value: Value, dup: Monoid)
    requires sorted { IsTrue (is_sorted nat_cmp built.old.entries) }
    requires room { 0 < built.old.room }
    requires rising { All (λ e. is_gt (nat_cmp e.0 place) ≡ false) built.old.entries }
    requires of_domain { All (λ e. IsValueOf (monoid_domain dup) e.1) built.old.entries }
    requires domain { built.old.domain ≡ monoid_domain dup }
    requires same_domain { value_domain value ≡ monoid_domain dup }
    ensures entries { built.new.entries ≡ put nat_cmp place (joined dup (find nat_cmp place built.old.entries) value) built.old.entries }
    ensures domain { built.new.domain ≡ built.old.domain }
    ensures room { built.old.room ≤ built.new.room + 1 }
    ensures of_domain { IsValueOf (value_domain value) value }
{
    read(value);
    if ends_at(&*built, place) {
        let end = built.len() - 1;
        let combined = apply(dup.op(), built.value_at(end), value);
        built.write(end, combined);
        return;
    }
    built.push_reserved(place, value);
}

/// The flat lists of tuples in rising order of their places, where those of one place stand together: their values are combined. Takes
/// memory for as many entries as there are tuples, and gives back what none takes, as `shrink` does. `AllocError` where that is refused;
/// then nothing is made.
fn combine(alloc: Global, tuples: &[(u64, Value)], dup: Monoid) -> Result<FlatRows, AllocError>
    requires rising { IsSortedByKey (λ e. e.0) nat_cmp tuples.now }
    requires of_domain { All (λ e. value_domain e.1 ≡ monoid_domain dup) tuples.now }
    ensures entries { IfOk result (λ built. built.entries ≡ built_from nat_cmp dup tuples.now) }
    ensures of_domain { IfOk result (λ built. All (λ e. IsValueOf (monoid_domain dup) e.1) built.entries) }
    ensures domain { IfOk result (λ built. built.domain ≡ monoid_domain dup) }
{
    let mut built = FlatRows::with_capacity(alloc, dup.domain(), tuples.len())?;
    for tuple in tuples {
        add(&mut built, tuple.0, tuple.1, dup);
    }
    built.shrink();
    Ok(built)
}

/// Whether the places rise, or stay as they are, from each tuple to the next.
fn is_in_order(tuples: &[(u64, Value)]) -> bool
    ensures { result ≡ true ↔ IsSortedByKey (λ e. e.0) nat_cmp tuples.now }
{
    for at in 1..tuples.len() {
        if tuples[at].0 < tuples[at - 1].0 {
            return false;
        }
    }
    true
}

/// The map of these tuples as flat lists, with the values of one place combined. `AllocError` where memory is refused. Tuples that are in
/// order are not sorted, and no other list is made of them.
pub(crate) fn build(
    alloc: Global,
    tuples: &[(u64, Value)],
    dup: Monoid,
) -> Result<FlatRows, AllocError>
    requires of_domain { All (λ e. value_domain e.1 ≡ monoid_domain dup) tuples.now }
    ensures entries { IfOk result (λ built. built.entries ≡ built_from nat_cmp dup tuples.now) }
    ensures of_domain { IfOk result (λ built. All (λ e. IsValueOf (monoid_domain dup) e.1) built.entries) }
    ensures domain { IfOk result (λ built. built.domain ≡ monoid_domain dup) }
{
    if is_in_order(tuples) {
        return combine(alloc, tuples, dup);
    }
    let sorted = packed::in_order(alloc, tuples)?;
    combine(alloc, &sorted, dup)
}
