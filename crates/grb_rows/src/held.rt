//! What is held of one object: flat lists and changes, how one entry is stored or taken away, and how all are assembled.
ghost use Rattle.std.specs.Prelude.{◌≡◌, ◌+◌, ◌-◌, ◌<◌, ◌≤◌, ◌^◌, ℕ, [], true, false, if◌then◌else◌, cond, nat_eq, length, slice_index_or, Some, None, IfOk, OnOk, OnErr, IsOk, is_some};
ghost use Rattle.std.specs.Ordering.{nat_cmp};
ghost use Rattle.std.specs.FinMap.{find, put};
ghost use Rattle.grb_core.specs.declared.value.Value.{Value as Stored};
ghost use Rattle.grb_core.specs.Value.{value_domain};
ghost use Rattle.grb_core.specs.Entries.{without_entry};
ghost use Rattle.grb_lists.specs.Cells.{entries_within};
ghost use Rattle.grb_rows.specs.Held.{stored, settled_view, unreserved_view, IsLaid};
ghost use Rattle.grb_rows.specs.Layers.{IsPlaced};
ghost use Rattle.grb_rows.specs.Pending.{changed};

use crate::base::Base;
use crate::layers::Layers;
use crate::merge;
use crate::pending::Pending;
use grb_core::{Domain, Value};
use grb_lists::FlatRows;
use std::alloc::{AllocError, Global};
use std::marker::Model;

/// What is held of one object: the entries as they were last assembled, and the changes that wait. A cell is named by its number, which of
/// a vector is its index. Copies share the entries that were assembled, and each has its own changes.
///
/// It keeps its allocator. `reserved` is how many more calls of `set` and `remove` it holds memory for, `assembled` whether no such change
/// waits to be put in order, and `pending` how many changes were made since then at cells that were not stored when it was last assembled.
pub struct Held {
    /// The entries as they were last assembled.
    base: Base,
    /// What was set and removed since then.
    pending: Pending,
    nvals: u64,
    assembled: bool,
}

/// One call drops all lists, in place of one for each wherever what is held goes.
impl Drop for Held {
    fn drop(self) {
        let Held {
            base: _,
            pending: _,
            nvals: _,
            assembled: _,
        } = self;
    }
}

impl Model for Held {
    ghost use Rattle.grb_rows.specs.Held.{HeldView, IsHeld, held_view};

    ghost Value = { HeldView };

    ghost view = { λ h. held_view h.base h.pending h.assembled };

    ghost invariant = { λ h. IsHeld h.base h.pending h.nvals h.assembled };
}

impl Held {
    /// These rows and no change. `assembled` is what it says of itself. Takes no memory.
    pub fn of(alloc: Global, rows: FlatRows, assembled: bool) -> Held
        ensures { result ≡ settled_view rows.entries rows.domain assembled }
    {
        Held::over(alloc, Base::own(rows), assembled)
    }

    /// The same, and copies may share the rows; where memory is refused for that, they copy them.
    pub fn shareable(alloc: Global, rows: FlatRows, assembled: bool) -> Held
        ensures { result ≡ settled_view rows.entries rows.domain assembled }
    {
        Held::over(alloc, Base::shareable(rows), assembled)
    }

    /// The same rows, whether copies may share them or not.
    fn over(alloc: Global, base: Base, assembled: bool) -> Held
        ensures { result ≡ settled_view base.entries base.domain assembled }
    {
        let nvals = base.rows().len() as u64;
        Held {
            base,
            pending: Pending::new(alloc),
            nvals,
            assembled,
        }
    }

    /// No entries and no change. Takes no memory.
    pub fn new(alloc: Global, domain: Domain) -> Held
        ensures { result ≡ settled_view [] domain true }
    {
        Held::of(alloc, FlatRows::new(alloc, domain), true)
    }

    /// Its allocator.
    pub fn allocator(&self) -> Global {
        self.base.rows().allocator()
    }

    /// The domain of the values.
    pub fn domain(&self) -> Domain
        ensures { result ≡ self.now.domain }
    {
        self.base.rows().domain()
    }

    /// Whether no change waits to be put in order.
    pub fn is_assembled(&self) -> bool
        ensures { result ≡ self.now.assembled }
    {
        self.assembled
    }

    /// The number of entries.
    pub fn nvals(&self) -> u64
        ensures { result ≡ length self.now.entries }
    {
        self.nvals
    }

    /// The number of changes since it was last assembled at cells that were not stored then.
    pub fn pending(&self) -> u64
        ensures pending { result ≡ self.now.pending }
        ensures assembled { self.now.assembled ≡ true → result ≡ 0 }
    {
        self.pending.apart()
    }

    /// The value stored at a cell, if there is one. Takes no memory.
    pub fn get(&self, number: u64) -> Option<Value>
        ensures { result ≡ find nat_cmp number self.now.entries }
    {
        match self.pending.latest(number) {
            None => self.base.rows().get(number),
            Some(change) => change,
        }
    }

    /// The entries as flat lists: of what is assembled alone. Nothing is copied.
    pub fn rows(&self) -> &FlatRows
        requires assembled { self.now.assembled ≡ true }
        ensures entries { result.now.entries ≡ self.now.entries }
        ensures domain { result.now.domain ≡ self.now.domain }
    {
        self.base.rows()
    }

    /// What is stored, as the entries that were assembled and the changes over them: nothing is copied, and it takes no memory.
    pub fn layers(&self) -> Layers<'_>
        ensures entries { changed result.base.now.entries result.changes.now.entries ≡ self.now.entries }
        ensures domain { result.base.now.domain ≡ self.now.domain }
    {
        Layers {
            base: self.base.rows(),
            places: self.pending.places(),
            changes: self.pending.changes(),
        }
    }

    /// Makes places for `n` calls of `set` or `remove` from now on, in place of those made before. `AllocError` where memory is refused,
    /// and then nothing changes.
    pub fn reserve_pending(&mut self, n: u64) -> Result<(), AllocError>
        ensures entries { self.new.entries ≡ self.old.entries }
        ensures domain { self.new.domain ≡ self.old.domain }
        ensures assembled { self.new.assembled ≡ self.old.assembled }
        ensures ok { OnOk result (self.new.reserved ≡ n) }
        ensures pending { self.new.pending ≡ self.old.pending }
        ensures err { OnErr result (self.new ≡ self.old) }
    {
        self.pending.reserve(n)
    }

    /// Stores `value` at a cell. Takes no memory, and uses up one reserved place.
    pub fn set(&mut self, number: u64, value: Value)
        requires same_domain { value_domain value ≡ self.old.domain }
        requires reserved { 0 < self.old.reserved }
        ensures entries { self.new.entries ≡ put nat_cmp number value self.old.entries }
        ensures domain { self.new.domain ≡ self.old.domain }
        ensures assembled { self.new.assembled ≡ false }
        ensures reserved { self.new.reserved + 1 ≡ self.old.reserved }
        ensures not_fewer { self.old.pending ≤ self.new.pending }
        ensures one_more { self.new.pending ≤ self.old.pending + 1 }
    {
        // there are no more entries than these together, so one more can be counted
        let _most = (self.base.rows().len(), self.pending.len());
        let stood = store(&mut self.base, &mut self.pending, number, value);
        self.nvals = counted(self.nvals, stood, true);
        self.assembled = false;
    }

    /// Takes away the entry at a cell, if there is one. Where there is none, no change is added. Takes no memory, and uses up one reserved
    /// place.
    pub fn remove(&mut self, number: u64)
        requires reserved { 0 < self.old.reserved }
        ensures entries { self.new.entries ≡ without_entry nat_cmp number self.old.entries }
        ensures domain { self.new.domain ≡ self.old.domain }
        ensures absent { find nat_cmp number self.old.entries ≡ None → self.new.pending ≡ self.old.pending }
        ensures assembled { self.new.assembled ≡ false }
        ensures reserved { self.new.reserved + 1 ≡ self.old.reserved }
        ensures not_fewer { self.old.pending ≤ self.new.pending }
        ensures one_more { self.new.pending ≤ self.old.pending + 1 }
    {
        // there are no more entries than these together, so one more can be counted
        let _most = (self.base.rows().len(), self.pending.len());
        let stood = erase(&self.base, &mut self.pending, number);
        self.nvals = counted(self.nvals, stood, false);
        self.assembled = false;
    }

    /// What is stored, as rows of their own: the changes merged with the entries.
    fn merged_rows(&self) -> Result<FlatRows, AllocError>
        ensures entries { IfOk result (λ new. new.entries ≡ self.now.entries) }
        ensures domain { IfOk result (λ new. new.domain ≡ self.now.domain) }
    {
        let changes = self.pending.in_order(self.allocator())?;
        merge::merged(self.base.rows(), &changes)
    }

    /// What is stored, as rows that copies may share. Where nothing waits, they are the same rows.
    fn merged(&self) -> Result<Base, AllocError>
        ensures entries { IfOk result (λ new. new.entries ≡ self.now.entries) }
        ensures domain { IfOk result (λ new. new.domain ≡ self.now.domain) }
    {
        if self.pending.is_empty() {
            return self.base.try_clone();
        }
        let merged = self.merged_rows()?;
        Ok(Base::shareable(merged))
    }

    /// Puts rows in place of all that is held, and gives back what waited with its memory. Takes no memory.
    fn settle(&mut self, base: Base, assembled: bool)
        ensures { self.new ≡ settled_view base.entries base.domain assembled }
    {
        *self = Held::over(base.rows().allocator(), base, assembled);
    }

    /// Takes away all entries, changes and reserved places. Takes no memory.
    pub fn clear(&mut self)
        ensures { self.new ≡ settled_view [] self.old.domain true }
    {
        let none = FlatRows::new(self.allocator(), self.domain());
        self.settle(Base::own(none), true);
    }

    /// What is stored within `nrows` rows and `ncols` columns, as rows of their own: the changes merged with the entries, and each entry
    /// that is kept copied once.
    fn merged_within(&self, nrows: u64, ncols: u64) -> Result<FlatRows, AllocError>
        ensures entries { IfOk result (λ new. new.entries ≡ entries_within nrows ncols self.now.entries) }
        ensures domain { IfOk result (λ new. new.domain ≡ self.now.domain) }
    {
        let changes = self.pending.in_order(self.allocator())?;
        merge::merged_within(self.base.rows(), &changes, (nrows, ncols))
    }

    /// Keeps the entries within `nrows` rows and `ncols` columns alone, with no change that waits. `AllocError` where memory is refused,
    /// and then nothing changes. Where nothing waits and all entries are within, nothing is copied, and it takes no memory; else each entry
    /// that it keeps is copied once.
    pub fn resize(&mut self, nrows: u64, ncols: u64) -> Result<(), AllocError>
        ensures ok { OnOk result (self.new ≡ settled_view (entries_within nrows ncols self.old.entries) self.old.domain self.old.assembled) }
        ensures done { self.old.assembled ≡ true → entries_within nrows ncols self.old.entries ≡ self.old.entries → IsOk result }
        ensures err { OnErr result (self.new ≡ self.old) }
    {
        if self.pending.is_empty() && self.base.rows().is_within(nrows, ncols) {
            self.pending = Pending::new(self.base.rows().allocator());
            return Ok(());
        }
        let rows = self.merged_within(nrows, ncols)?;
        self.settle(Base::shareable(rows), self.assembled);
        Ok(())
    }

    /// The same entries, with no change that waits and no reserved places. `AllocError` where memory is refused. Where nothing waits it
    /// shares the entries, if they can be shared, and then copies none of them.
    pub fn try_clone(&self) -> Result<Held, AllocError>
        ensures { IfOk result (λ copy. copy ≡ settled_view self.now.entries self.now.domain self.now.assembled) }
    {
        let copy = self.merged()?;
        Ok(Held::over(self.allocator(), copy, self.assembled))
    }

    /// The same entries and the same changes that wait, with no reserved places: the entries that were assembled are shared, if they can
    /// be, and the changes copied. `AllocError` where memory is refused, or where 2^63 - 1 objects share the entries.
    pub fn try_share(&self) -> Result<Held, AllocError>
        ensures { IfOk result (λ copy. copy ≡ unreserved_view self.now) }
    {
        let base = self.base.try_clone()?;
        let pending = self.pending.try_clone()?;
        Ok(Held {
            base,
            pending,
            nvals: self.nvals,
            assembled: self.assembled,
        })
    }

    /// Lets copies share the entries that were assembled, from now on; fewer than 64 entries are as cheap to copy, and stay as they are.
    /// Takes little memory, and none again; where it is refused, copies copy the entries, and nothing else is lost.
    pub fn make_shareable(&mut self)
        ensures { self.new ≡ self.old }
    {
        if self.base.rows().len() >= 64 {
            self.base.make_shareable();
        }
    }

    /// Merges the changes with the entries, and gives up the reserved places. `AllocError` where memory is refused, and then nothing
    /// changes. With n entries and p changes it takes time `O(n + p log p)`. Where nothing waits it does none of this and takes no memory.
    pub fn assemble(&mut self) -> Result<(), AllocError>
        ensures ok { OnOk result (self.new ≡ settled_view self.old.entries self.old.domain true) }
        ensures done { self.old.assembled ≡ true → IsOk result }
        ensures err { OnErr result (self.new ≡ self.old) }
    {
        if self.pending.is_empty() {
            let alloc = self.base.rows().allocator();
            self.pending = Pending::new(alloc);
            self.assembled = true;
            return Ok(());
        }
        let rows = self.merged_rows()?;
        self.settle(Base::shareable(rows), true);
        Ok(())
    }
}

/// Stores `value` at a cell; whether something stood there.
fn store(base: &mut Base, pending: &mut Pending, number: u64, value: Value) -> bool
    requires laid { IsLaid base.old pending.old.changes }
    requires placed { IsPlaced base.old.entries pending.old.places pending.old.changes }
    requires same_domain { value_domain value ≡ base.old.domain }
    requires reserved { 0 < pending.old.reserved }
    ensures laid { IsLaid base.new pending.new.changes }
    ensures placed { IsPlaced base.new.entries pending.new.places pending.new.changes }
    ensures found { (q : ℕ) → find nat_cmp q (stored base.new pending.new.changes) ≡ cond (nat_eq q number) (Some value) (find nat_cmp q (stored base.old pending.old.changes)) }
    ensures stood { result ≡ is_some (find nat_cmp number (stored base.old pending.old.changes)) }
    ensures domain { base.new.domain ≡ base.old.domain }
    ensures reserved { pending.new.reserved + 1 ≡ pending.old.reserved }
    ensures not_fewer { pending.old.apart ≤ pending.new.apart }
    ensures one_more { pending.new.apart ≤ pending.old.apart + 1 }
{
    match base.rows().place_of(number) {
        Some(at) => store_at(base, pending, number, at, value),
        None => {
            let stood = pending.leaves_value(number, false);
            pending.push(number, Some(value), None);
            stood
        }
    }
}

/// The same at a cell that stands in the rows, at a place: its value is written there, unless a change of the cell waits or another object
/// shares the rows.
fn store_at(base: &mut Base, pending: &mut Pending, number: u64, at: usize, value: Value) -> bool
    requires laid { IsLaid base.old pending.old.changes }
    requires placed { IsPlaced base.old.entries pending.old.places pending.old.changes }
    requires same_domain { value_domain value ≡ base.old.domain }
    requires reserved { 0 < pending.old.reserved }
    requires within { at < length base.old.entries }
    requires number { (d : ℕ × Stored) → (slice_index_or base.old.entries at d).0 ≡ number }
    ensures laid { IsLaid base.new pending.new.changes }
    ensures placed { IsPlaced base.new.entries pending.new.places pending.new.changes }
    ensures found { (q : ℕ) → find nat_cmp q (stored base.new pending.new.changes) ≡ cond (nat_eq q number) (Some value) (find nat_cmp q (stored base.old pending.old.changes)) }
    ensures stood { result ≡ is_some (find nat_cmp number (stored base.old pending.old.changes)) }
    ensures domain { base.new.domain ≡ base.old.domain }
    ensures reserved { pending.new.reserved + 1 ≡ pending.old.reserved }
    ensures not_fewer { pending.old.apart ≤ pending.new.apart }
    ensures one_more { pending.new.apart ≤ pending.old.apart + 1 }
{
    match pending.latest(number) {
        Some(change) => {
            pending.push(number, Some(value), Some(at));
            change.is_some()
        }
        None => {
            if base.try_write(at, value) {
                pending.spend();
                return true;
            }
            pending.push(number, Some(value), Some(at));
            true
        }
    }
}

/// Takes away the entry at a cell; whether there was one. Where there was none, no change is added.
fn erase(base: &Base, pending: &mut Pending, number: u64) -> bool
    requires laid { IsLaid base.now pending.old.changes }
    requires placed { IsPlaced base.now.entries pending.old.places pending.old.changes }
    requires reserved { 0 < pending.old.reserved }
    ensures laid { IsLaid base.now pending.new.changes }
    ensures placed { IsPlaced base.now.entries pending.new.places pending.new.changes }
    ensures found { (q : ℕ) → find nat_cmp q (stored base.now pending.new.changes) ≡ cond (nat_eq q number) None (find nat_cmp q (stored base.now pending.old.changes)) }
    ensures stood { result ≡ is_some (find nat_cmp number (stored base.now pending.old.changes)) }
    ensures absent { find nat_cmp number (stored base.now pending.old.changes) ≡ None → pending.new.apart ≡ pending.old.apart }
    ensures reserved { pending.new.reserved + 1 ≡ pending.old.reserved }
    ensures not_fewer { pending.old.apart ≤ pending.new.apart }
    ensures one_more { pending.new.apart ≤ pending.old.apart + 1 }
{
    let place = base.rows().place_of(number);
    pending.remove(number, place)
}

/// The number of entries after a change of one index: whether something was stored there, and whether something is.
fn counted(nvals: u64, stood: bool, stands: bool) -> u64
    requires stood { (if stood then 1 else 0) ≤ nvals }
    requires fits { nvals < 2 ^ 64 - 1 }
    ensures { result + (if stood then 1 else 0) ≡ nvals + (if stands then 1 else 0) }
{
    if stood == stands {
        return nvals;
    }
    if stood {
        return nvals - 1;
    }
    nvals + 1
}
