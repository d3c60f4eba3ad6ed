//! The row, and what a thread does with a slot.
ghost use Rattle.std.specs.Prelude.{◌≡◌, ◌<◌, None, Some, length, map, replicate, IfOk, IfSome};
ghost use Rattle.grb_slots.specs.Row.{AllFit};

use crate::claim::{Claim, Given};
use crate::fits::FitsAt;
use crate::rule::{Closing, Key, Opening, Rule, Visitor};
use atomic_table::{Refused, Table};
use std::alloc::{AllocError, Global};
use std::hint::spin_loop;
use std::marker::Model;
use std::snapshot::Snapshot;

/// The word of a slot that is at home.
const OPEN: u64 = 0;

/// The word of a slot into which a thread looks.
const CLOSED: u64 = 1;

/// A row of slots. Contracts see the tag, how many slots there are, with which values it was opened, and which row it is.
#[derive(Drop)]
pub struct Slots<X: FitsAt> {
    table: Table<Option<X>, Visitor<X, X::Tag>, Key<X, X::Tag>, Rule<X>, Global>,
}

impl<X: FitsAt> Model for Slots<X> {
    ghost use Rattle.std.specs.Prelude.{◌≡◌, length};
    ghost use Rattle.grb_slots.specs.Row.{Row};

    ghost Value = { Row X X.Tag };

    ghost view = { λ s. record { tag = s.table.shared.key.tag.value; count = s.table.shared.table_id.slots; first = s.table.shared.key.first.value.items; row = s.table.shared.table_id } };

    ghost invariant = { λ s. (s.table.shared.table_id.words ≡ s.table.shared.table_id.slots) × (s.table.shared.table_id.slots ≡ length s.table.shared.key.first.value.items) };
}

/// A place for each of the values, with that in it. `AllocError` where memory is refused; then the values are dropped.
fn filled<X: Drop>(alloc: Global, values: Vec<X>) -> Result<Vec<Option<X>>, AllocError>
    ensures { IfOk result (λ places. places.items ≡ map Some values.items) }
{
    let mut places = Vec::with_capacity(alloc, values.len())?;
    'values: for value in values {
        places.push(Some(value))?;
    }
    Ok(places)
}

/// So many times `None`. `AllocError` where memory is refused.
fn nones<X: Drop>(alloc: Global, count: usize) -> Result<Vec<Option<X>>, AllocError>
    ensures { IfOk result (λ values. values.items ≡ replicate count None) }
{
    let mut values = Vec::with_capacity(alloc, count)?;
    'values: for at in 0..count {
        values.push(None)?;
    }
    Ok(values)
}

impl<X: FitsAt + Drop> Slots<X> {
    /// A row with these values, a slot for each, in their order. Takes memory for the row. `AllocError` where it is refused; then the values
    /// are dropped.
    pub fn open(alloc: Global, values: Vec<X>, tag: &X::Tag) -> Result<Slots<X>, AllocError>
        requires fit { AllFit (X.fits tag.now) values.items }
        ensures tag { IfOk result (λ row. row.tag ≡ tag.now) }
        ensures count { IfOk result (λ row. row.count ≡ length values.items) }
        ensures first { IfOk result (λ row. row.first ≡ values.items) }
    {
        let words = Vec::from_elem(alloc, OPEN, values.len())?;
        let key = Key {
            tag: Snapshot::of(tag),
            first: Snapshot::of(&values),
        };
        match Table::new(alloc, &words, filled(alloc, values)?, &key) {
            Ok((table, _seat)) => Ok(Slots { table }),
            Err(Refused { slots: _ }) => Err(AllocError),
        }
    }

    /// How many slots there are. Takes no memory.
    pub fn len(&self) -> usize
        ensures { result ≡ self.now.count }
    {
        self.table.slot_count()
    }

    /// Closes the slot at this index, from 0, to all others: what is in it, and the right to give it back. `None` where there is no such slot,
    /// or another thread has it. Takes no memory and does not wait.
    pub fn claim(&self, at: usize) -> Option<(X, Claim<X>)>
        ensures fits { IfSome result (λ claimed. X.fits self.now.tag at claimed.0) }
        ensures row { IfSome result (λ claimed. claimed.1.row ≡ self.now.row) }
        ensures there { IfSome result (λ _. at < self.now.count) }
        ensures at { IfSome result (λ claimed. claimed.1.at ≡ at) }
        ensures found { IfSome result (λ claimed. claimed.1.found ≡ claimed.0) }
    {
        if at >= self.len() {
            return None;
        }
        let row = &self.table.shared;
        let (found, mut seat) = row.swap_new_seat::<Closing<X>>(at, CLOSED);
        if found != OPEN {
            return None;
        }
        match row.exchange(&mut seat, at, None) {
            Some(value) => {
                let found = Snapshot::of(&value);
                Some((value, Claim { seat, at, found }))
            }
            None => unreachable!(),
        }
    }

    /// The same, at the first of so many looks at which no other thread has it.
    pub fn claim_within(&self, looks: u32, at: usize) -> Option<(X, Claim<X>)>
        ensures fits { IfSome result (λ claimed. X.fits self.now.tag at claimed.0) }
        ensures row { IfSome result (λ claimed. claimed.1.row ≡ self.now.row) }
        ensures there { IfSome result (λ _. at < self.now.count) }
        ensures at { IfSome result (λ claimed. claimed.1.at ≡ at) }
        ensures found { IfSome result (λ claimed. claimed.1.found ≡ claimed.0) }
    {
        'looks: for _ in 0..looks {
            match self.claim(at) {
                Some(claimed) => return Some(claimed),
                None => spin_loop(),
            }
        }
        None
    }

    /// Gives a slot of the row back, open to all, with this in it. Takes no memory and does not wait.
    pub fn give(&self, claim: Claim<X>, value: X) -> Given<X>
        requires row { claim.row ≡ self.now.row }
        requires fits { X.fits self.now.tag claim.at value }
        ensures { result ≡ record { visit = claim; left = value } }
    {
        let Claim {
            mut seat,
            at,
            found,
        } = claim;
        let left = Snapshot::of(&value);
        let row = &self.table.shared;
        let _nothing = row.exchange(&mut seat, at, Some(value));
        row.store::<Opening>(&mut seat, at, OPEN);
        Given {
            seat,
            at,
            found,
            left,
        }
    }
}

impl<X: FitsAt + Drop> Slots<Option<X>> {
    /// A row of so many empty slots. Takes memory for the row. `AllocError` where it is refused.
    pub fn empty(alloc: Global, count: usize, tag: &X::Tag) -> Result<Slots<Option<X>>, AllocError>
        ensures tag { IfOk result (λ row. row.tag ≡ tag.now) }
        ensures count { IfOk result (λ row. row.count ≡ count) }
        ensures first { IfOk result (λ row. row.first ≡ replicate count None) }
    {
        Slots::open(alloc, nones(alloc, count)?, tag)
    }

    /// Takes out what is in the slot at this index, from 0, and leaves that empty. `None` where there is no such slot, it is empty, or another
    /// thread has it. Takes no memory and does not wait.
    pub fn take(&self, at: usize) -> Option<(X, Given<Option<X>>)>
        ensures fits { IfSome result (λ taken. X.fits self.now.tag at taken.0) }
        ensures row { IfSome result (λ taken. taken.1.visit.row ≡ self.now.row) }
        ensures there { IfSome result (λ _. at < self.now.count) }
        ensures at { IfSome result (λ taken. taken.1.visit.at ≡ at) }
        ensures found { IfSome result (λ taken. taken.1.visit.found ≡ Some taken.0) }
        ensures left { IfSome result (λ taken. taken.1.left ≡ None) }
    {
        let (value, claim) = self.claim(at)?;
        let given = self.give(claim, None);
        Some((value?, given))
    }
}
