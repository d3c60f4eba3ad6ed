//! Values folded where changes go over some of them: nothing is put together, and no memory is taken.
ghost use Rattle.std.specs.Prelude.{◌≡◌, ◌+◌, ◌<◌, ◌≤◌, ℕ, false, length, map, All, slice_index_or};
ghost use Rattle.std.specs.List.{AllByRecursion};
ghost use Rattle.std.proofs.Props.{props};
ghost use Rattle.grb_core.specs.Value.{IsValueOf, value_domain};
ghost use Rattle.grb_core.specs.Entries.{VectorEntries, values_of};
ghost use Rattle.grb_core.specs.Fold.{fold_of};
ghost use Rattle.grb_core.specs.Monoid.{monoid_domain};
ghost use Rattle.grb_core.specs.Results.{reduce_of};
ghost use Rattle.grb_rows.specs.Pending.{IsChangeOf, changed};
ghost use Rattle.grb_rows.specs.Layers.{is_listed, IsChanged};
ghost use Rattle.grb_folds.specs.Changed.{remaining, values_left};

use crate::folding::fold_values;
use grb_core::{Domain, Monoid, Value};
use grb_ewise::Stored;
use grb_kernels::{Scalar, chosen};
use grb_rows::Layers;
use grb_semirings::{ByMonoid, Folded, MonoidOver};
use std::collections::HashMap;

/// How many places have marks at a time.
const WINDOW: usize = 8192;

/// A Rust type in which values of its domain are read.
pub(crate) trait Reads: Scalar {
    /// The value, which is one of the domain.
    fn of_value(value: Value) -> Self
        requires { value_domain value ≡ Self.domain }
        ensures { Self.value result ≡ value };
}

impl Reads for bool {
    fn of_value(value: Value) -> bool {
        match value {
            Value::Bool(value) => value,
            Value::Uint64(_) => unreachable!(),
        }
    }
}

impl Reads for u64 {
    fn of_value(value: Value) -> u64 {
        match value {
            Value::Uint64(value) => value,
            Value::Bool(_) => unreachable!(),
        }
    }
}

/// Takes all marks away.
fn clear(marks: &mut [bool])
    ensures { (q : ℕ) → q < length marks.old → slice_index_or marks.new q false ≡ false }
{
    'marks: for mark in marks.iter_mut() {
        *mark = false;
    }
}

/// Marks the places that are listed and no other, where the first mark is for `start`; whether one of them has a mark.
fn mark_window(marks: &mut [bool], start: usize, places: &[usize]) -> bool
    ensures marked { (q : ℕ) → q < length marks.old → slice_index_or marks.new q false ≡ is_listed places.now (start + q) }
    ensures none { result ≡ false → (q : ℕ) → q < length marks.old → is_listed places.now (start + q) ≡ false }
{
    clear(marks);
    let mut any = false;
    'places: for place in places {
        if start <= *place && *place - start < marks.len() {
            marks[*place - start] = true;
            any = true;
        }
    }
    any
}

/// The values that have no mark combined by a monoid as a type; its identity, where there are none.
fn fold_unmarked<T: Stored, M: MonoidOver<T>>(values: &[T], marks: &[bool]) -> T
    requires { length values.now ≤ length marks.now }
    ensures { T.value result ≡ fold_of M.monoid (remaining (λ q. slice_index_or marks.now q false) (map T.value values.now)) }
{
    let mut sum = M::identity();
    'values: for i in 0..values.len() {
        let value = values[i].read();
        sum = M::add(sum, chosen(marks[i], M::identity(), value));
    }
    sum
}

/// The values at places that are not listed combined by a monoid as a type, where the first stands at the place `start`. The marks may be
/// any, and are set anew.
fn fold_window<T: Stored + Folded, M: MonoidOver<T>>(
    values: &[T],
    start: usize,
    places: &[usize],
    marks: &mut [bool],
) -> T
    requires { length values.now ≤ length marks.old }
    ensures { T.value result ≡ fold_of M.monoid (remaining (λ q. is_listed places.now (start + q)) (map T.value values.now)) }
{
    if mark_window(marks, start, places) {
        return fold_unmarked::<T, M>(values, marks);
    }
    fold_values::<T, M>(values)
}

/// The values at places that are not listed combined by a monoid as a type; its identity, where there are none. As many values are looked
/// at together as there are marks.
fn fold_windows<T: Stored + Folded + Reads, M: MonoidOver<T>>(
    values: &[T],
    places: &[usize],
    marks: &mut [bool],
) -> T
    requires { 0 < length marks.old }
    ensures folded { T.value result ≡ fold_of M.monoid (remaining (is_listed places.now) (map T.value values.now)) }
    ensures of_domain { AllByRecursion (IsValueOf T.domain) (map T.value values.now) }
{
    T::read_all(values);
    let mut sum = M::identity();
    let mut start = 0;
    while start < values.len() {
        let end = start + marks.len().min(values.len() - start);
        let part = fold_window::<T, M>(&values[start..end], start, places, marks);
        sum = M::add(sum, part);
        if M::is_final(sum) {
            return sum;
        }
        start = end;
    }
    sum
}

/// The values at places that are not listed combined by a monoid as a type; its identity, where there are none.
fn fold_unlisted<T: Stored + Folded + Reads, M: MonoidOver<T>>(values: &[T], places: &[usize]) -> T
    ensures folded { T.value result ≡ fold_of M.monoid (remaining (is_listed places.now) (map T.value values.now)) }
    ensures of_domain { AllByRecursion (IsValueOf T.domain) (map T.value values.now) }
{
    let mut marks = [false; WINDOW];
    fold_windows::<T, M>(values, places, &mut marks)
}

/// The values that changes leave combined by a monoid as a type; its identity, where there are none.
fn fold_left<T: Stored + Reads, M: MonoidOver<T>>(changes: &HashMap<u64, Option<Value>>) -> T
    requires { All (IsChangeOf T.domain) changes.now.entries }
    ensures folded { T.value result ≡ fold_of M.monoid (values_left changes.now.entries) }
    ensures of_domain { AllByRecursion (IsValueOf T.domain) (values_left changes.now.entries) }
{
    let mut sum = M::identity();
    'changes: for (_, change) in changes {
        if let Some(value) = change {
            let read = T::of_value(*value).read();
            sum = M::add(sum, read);
        }
    }
    sum
}

/// The values of entries after changes combined by a monoid as a type; its identity, where there are none.
fn fold_parts<T: Stored + Folded + Reads, M: MonoidOver<T>>(
    values: &[T],
    places: &[usize],
    changes: &HashMap<u64, Option<Value>>,
) -> T
    requires { All (IsChangeOf T.domain) changes.now.entries }
    ensures { (entries : VectorEntries) → map T.value values.now ≡ values_of entries → IsChanged entries places.now changes.now.entries → T.value result ≡ reduce_of M.monoid (changed entries changes.now.entries) }
{
    let kept = fold_unlisted::<T, M>(values, places);
    let left = fold_left::<T, M>(changes);
    M::add(kept, left)
}

/// Values of entries with changes of these, combined by whichever monoid.
#[derive(Drop)]
struct Parts<'a, T: Scalar> {
    values: &'a [T],
    places: &'a [usize],
    changes: &'a HashMap<u64, Option<Value>>,
    ghost inside: { All (IsChangeOf T.domain) changes.now.entries } by { Prim.hlevel props },
}

impl<'a, T: Stored + Folded + Reads> ByMonoid<T> for Parts<'a, T> {
    type Output = T;

    ghost Gives = { λ p monoid result. (entries : VectorEntries) → map T.value p.values.now ≡ values_of entries → IsChanged entries p.places.now p.changes.now.entries → T.value result ≡ reduce_of monoid (changed entries p.changes.now.entries) };

    fn by<M: MonoidOver<T>>(self) -> T {
        fold_parts::<T, M>(self.values, self.places, self.changes)
    }
}

/// The values of entries after changes combined by a monoid of the domain; its identity, where there are none.
fn fold_changed<T: Stored + Folded + Reads>(
    monoid: Monoid,
    values: &[T],
    places: &[usize],
    changes: &HashMap<u64, Option<Value>>,
) -> T
    requires domain { monoid_domain monoid ≡ T.domain }
    requires inside { All (IsChangeOf T.domain) changes.now.entries }
    ensures { (entries : VectorEntries) → map T.value values.now ≡ values_of entries → IsChanged entries places.now changes.now.entries → T.value result ≡ reduce_of monoid (changed entries changes.now.entries) }
{
    T::choose_monoid(
        monoid,
        Parts {
            values,
            places,
            changes,
        },
    )
}

/// All values that stand in layers, combined by `monoid`; its identity where there are none. Takes no memory, and time in proportion to the
/// entries of the base, to the changes, and for each window of entries to the places.
///
/// The layers and the monoid are of one domain.
pub(crate) fn reduce_changed(monoid: Monoid, layers: Layers<'_>) -> Value
    requires { monoid_domain monoid ≡ layers.base.now.domain }
    ensures { result ≡ reduce_of monoid (changed layers.entry.base.now.entries layers.entry.changes.now.entries) }
{
    match layers.base.domain() {
        Domain::Bool => {
            let values = bool::of_lists(layers.base);
            Value::Bool(fold_changed(monoid, values, layers.places, layers.changes))
        }
        Domain::Uint64 => {
            let values = u64::of_lists(layers.base);
            Value::Uint64(fold_changed(monoid, values, layers.places, layers.changes))
        }
    }
}
