//! Changes that wait to be assembled: the last one of each index, in a table.
ghost use Rattle.std.specs.Prelude.{◌≡◌, ◌+◌, ◌<◌, ◌≤◌, ◌^◌, ℕ, [], Some, None, Option, true, false, cond, nat_eq, length, IfOk, OnOk, OnErr, IsTrue, is_some, is_none, ◌↔◌};
ghost use Rattle.std.specs.Ordering.{nat_cmp};
ghost use Rattle.std.specs.FinMap.{find, is_sorted};
ghost use Rattle.grb_core.specs.declared.value.Value.{Value as Stored};
ghost use Rattle.grb_rows.specs.Pending.{last_at, over};
ghost use Rattle.grb_rows.specs.Layers.{placed_after};
ghost use Rattle.std.specs.HashMap.{IsUnique};
ghost use Rattle.std.specs.List.{IsDistinct};
ghost use Rattle.std.specs.Map.{keys_of};
ghost use Rattle.std.specs.Vec.{vec_len, vec_capacity};

use grb_core::Value;
use grb_lists::packed;
use std::alloc::{AllocError, AllocFailed, Global};
use std::collections::HashMap;
use std::marker::Model;

/// The last change of each index that was changed: a value that is stored, or `None` where it is taken away. `places` are those of the
/// changed indices that stand in the rows that they go over. `apart` changes were of indices at which nothing stood there.
pub(crate) struct Pending {
    latest: HashMap<u64, Option<Value>>,
    places: Vec<usize>,
    reserved: u64,
    apart: u64,
}

/// One call drops the table and the places, in place of one for each of their lists wherever changes go.
impl Drop for Pending {
    fn drop(self) {
        let Pending {
            latest: _,
            places: _,
            reserved: _,
            apart: _,
        } = self;
    }
}

impl Model for Pending {
    ghost use Rattle.std.specs.Prelude.{◌≡◌, ◌+◌, ◌≤◌, [], nat_eq};
    ghost use Rattle.std.specs.HashMap.{IsUnique, spare};
    ghost use Rattle.std.specs.Vec.{vec_len, vec_capacity};
    ghost use Rattle.grb_rows.specs.Pending.{PendingView};

    ghost Value = { PendingView };

    ghost view = { λ p. record { changes = p.latest.entries; places = p.places.items; reserved = p.reserved; apart = p.apart } };

    ghost invariant = { λ p. IsUnique nat_eq p.latest × (p.reserved ≤ spare p.latest) × (p.latest.entries ≡ [] → p.apart ≡ 0) × (vec_len p.places + p.reserved ≤ vec_capacity p.places) };
}

impl Pending {
    /// No change, and no place for one. Takes no memory.
    pub fn new(alloc: Global) -> Pending
        ensures { result ≡ record { changes = []; places = []; reserved = 0; apart = 0 } }
    {
        Pending {
            latest: HashMap::new(alloc),
            places: Vec::new(alloc),
            reserved: 0,
            apart: 0,
        }
    }

    /// The number of indices that were changed.
    pub fn len(&self) -> usize
        ensures len { result ≡ length self.now.changes }
        ensures bound { length self.now.changes < 2 ^ 63 }
    {
        self.latest.len()
    }

    /// Whether there is no change.
    pub(crate) fn is_empty(&self) -> bool
        ensures { result ≡ true ↔ (self.now.changes ≡ []) }
    {
        self.latest.is_empty()
    }

    /// The last change of each index.
    pub(crate) fn changes(&self) -> &HashMap<u64, Option<Value>>
        ensures changes { result.now.entries ≡ self.now.changes }
        ensures distinct { IsDistinct nat_eq (keys_of self.now.changes) }
    {
        &self.latest
    }

    /// The places in the rows of the changed indices that stand there, in no order.
    pub(crate) fn places(&self) -> &[usize]
        ensures { result.now ≡ self.now.places }
    {
        &self.places
    }

    /// How many changes were of indices at which nothing stood in the rows, those among them that others went over.
    pub(crate) fn apart(&self) -> u64
        ensures apart { result ≡ self.now.apart }
        ensures none { self.now.changes ≡ [] → result ≡ 0 }
    {
        self.apart
    }

    /// The last change of an index, if there is one.
    pub(crate) fn latest(&self, index: u64) -> Option<Option<Value>>
        ensures { result ≡ last_at index self.now.changes }
    {
        if self.latest.is_empty() {
            return None;
        }
        match self.latest.get(&index) {
            Some(change) => Some(*change),
            None => None,
        }
    }

    /// Whether a value is stored at an index, where it is known whether one `stands` in the rows.
    pub(crate) fn leaves_value(&self, index: u64, stands: bool) -> bool
        ensures { (w : Option Stored) → is_some w ≡ stands → result ≡ is_some (over (last_at index self.now.changes) w) }
    {
        match self.latest(index) {
            Some(change) => change.is_some(),
            None => stands,
        }
    }

    /// Makes places for `n` changes from now on, in place of those made before. `AllocError` where memory is refused; then nothing changes.
    pub fn reserve(&mut self, n: u64) -> Result<(), AllocError>
        ensures last { (q : ℕ) → last_at q self.new.changes ≡ last_at q self.old.changes }
        ensures none { self.old.changes ≡ [] → self.new.changes ≡ [] }
        ensures places { self.new.places ≡ self.old.places }
        ensures apart { self.new.apart ≡ self.old.apart }
        ensures ok { OnOk result (self.new.reserved ≡ n) }
        ensures err { OnErr result (self.new ≡ self.old) }
    {
        self.places.reserve(n as usize)?;
        self.latest.reserve(n as usize)?;
        self.reserved = n;
        Ok(())
    }

    /// Uses up a place for no change.
    pub(crate) fn spend(&mut self)
        requires { 0 < self.old.reserved }
        ensures changes { self.new.changes ≡ self.old.changes }
        ensures places { self.new.places ≡ self.old.places }
        ensures apart { self.new.apart ≡ self.old.apart }
        ensures reserved { self.new.reserved + 1 ≡ self.old.reserved }
    {
        self.reserved -= 1;
    }

    /// One more change, of an index of which it is known at which `place` of the rows it stands, if at one: it takes the place of the one
    /// before. Takes no memory, and uses up a place.
    pub(crate) fn push(&mut self, index: u64, change: Option<Value>, place: Option<usize>)
        requires { 0 < self.old.reserved }
        ensures last { (q : ℕ) → last_at q self.new.changes ≡ cond (nat_eq q index) (Some change) (last_at q self.old.changes) }
        ensures places { self.new.places ≡ placed_after (last_at index self.old.changes) place self.old.places }
        ensures reserved { self.new.reserved + 1 ≡ self.old.reserved }
        ensures not_fewer { self.old.apart ≤ self.new.apart }
        ensures one_more { self.new.apart ≤ self.old.apart + 1 }
    {
        let before = self.latest.insert(index, change);
        list(&mut self.places, is_first(before), place);
        self.reserved -= 1;
        self.apart = self.apart.saturating_add(u64::from(place.is_none()));
    }

    /// Takes away the value that is stored at an index, if there is one, where it is known at which `place` of the rows one stands, if at
    /// one; whether there was one. Where there was none, no change is added. Takes no memory, and uses up a place.
    pub(crate) fn remove(&mut self, index: u64, place: Option<usize>) -> bool
        requires { 0 < self.old.reserved }
        ensures stood { (w : Option Stored) → is_some w ≡ is_some place → result ≡ is_some (over (last_at index self.old.changes) w) }
        ensures removed { result ≡ true → (q : ℕ) → last_at q self.new.changes ≡ cond (nat_eq q index) (Some None) (last_at q self.old.changes) }
        ensures places { result ≡ true → self.new.places ≡ placed_after (last_at index self.old.changes) place self.old.places }
        ensures absent { result ≡ false → (self.new.changes ≡ self.old.changes) × (self.new.apart ≡ self.old.apart) × (self.new.places ≡ self.old.places) }
        ensures reserved { self.new.reserved + 1 ≡ self.old.reserved }
        ensures not_fewer { self.old.apart ≤ self.new.apart }
        ensures one_more { self.new.apart ≤ self.old.apart + 1 }
    {
        let stood = self.leaves_value(index, place.is_some());
        if stood {
            self.push(index, None, place);
            return stood;
        }
        self.spend();
        stood
    }

    /// The same changes, and no place for one more. `AllocError` where memory is refused.
    pub(crate) fn try_clone(&self) -> Result<Pending, AllocError>
        ensures { IfOk result (λ copy. copy ≡ record { changes = self.now.changes; places = self.now.places; reserved = 0; apart = self.now.apart }) }
    {
        Ok(Pending {
            latest: copied(&self.latest)?,
            places: grb_lists::copied(*self.places.allocator(), &self.places)?,
            reserved: 0,
            apart: self.apart,
        })
    }

    /// The last change of each index, in rising order of the indices. `AllocError` where memory is refused; then nothing is made.
    pub(crate) fn in_order(&self, alloc: Global) -> Result<Vec<(u64, Option<Value>)>, AllocError>
        ensures sorted { IfOk result (λ last. IsTrue (is_sorted nat_cmp last.items)) }
        ensures found { IfOk result (λ last. (q : ℕ) → find nat_cmp q last.items ≡ last_at q self.now.changes) }
    {
        // no two of the table's indices are equal
        let _distinct = self.latest.len();
        let changes = listed(alloc, &self.latest)?;
        packed::in_order(alloc, &changes)
    }
}

/// A table of its own with the same changes. `AllocError` where memory is refused.
fn copied(latest: &HashMap<u64, Option<Value>>) -> Result<HashMap<u64, Option<Value>>, AllocError>
    ensures unique { IfOk result (IsUnique nat_eq) }
    ensures entries { IfOk result (λ copy. copy.entries ≡ latest.now.entries) }
{
    // no two of the table's indices are equal
    let _distinct = latest.len();
    latest.clone()
}

/// The changes in a table, in no order. `AllocError` where memory is refused.
fn listed(
    alloc: Global,
    latest: &HashMap<u64, Option<Value>>,
) -> Result<Vec<(u64, Option<Value>)>, AllocError>
    ensures { IfOk result (λ all. all.items ≡ latest.now.entries) }
{
    let mut all = Vec::with_capacity(alloc, latest.len())?;
    for (index, change) in latest {
        all.push((*index, *change))?;
    }
    Ok(all)
}

/// Whether a change was put where none was before.
fn is_first(before: Result<Option<Option<Value>>, AllocFailed<(u64, Option<Value>)>>) -> bool
    ensures { IfOk before (λ old. result ≡ is_none old) }
{
    match before {
        Ok(old) => old.is_none(),
        Err(_) => false,
    }
}

/// Adds a place to those listed, if there is one, where its index had no change. Takes no memory.
fn list(places: &mut Vec<usize>, first: bool, place: Option<usize>)
    requires { vec_len places.old < vec_capacity places.old }
    ensures items { (before : Option (Option Stored)) → first ≡ is_none before → places.new.items ≡ placed_after before place places.old.items }
    ensures len { vec_len places.new ≤ vec_len places.old + 1 }
    ensures capacity { vec_capacity places.old ≤ vec_capacity places.new }
{
    if !first {
        return;
    }
    if let Some(at) = place {
        places.push_reserved(at);
    }
}
