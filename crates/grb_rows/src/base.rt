//! The rows of an object as they were last assembled: its own, or shared with copies of it.
ghost use Rattle.std.specs.Prelude.{◌≡◌, ◌<◌, ℕ, true, false, length, slice_set, slice_index_or, IfOk};
ghost use Rattle.grb_core.specs.declared.value.Value.{Value as Stored};
ghost use Rattle.grb_core.specs.Value.{value_domain};
ghost use Rattle.grb_rows.specs.Base.{rows_of};

use grb_core::Value;
use grb_lists::FlatRows;
use std::alloc::AllocError;
use std::marker::Model;
use std::mem;
use std::sync::Arc;

/// Rows that one object alone has, or that copies may share.
#[derive(Drop)]
pub(crate) enum Lists {
    Own(FlatRows),
    Shared(Arc<FlatRows>),
}

/// The rows of an object as they were last assembled. Copies may share them; then none of them writes there.
#[derive(Drop)]
pub(crate) struct Base {
    lists: Lists,
}

impl Model for Base {
    ghost use Rattle.grb_lists.specs.Stored.{RowView};

    ghost Value = { RowView };

    ghost use Rattle.grb_rows.specs.Base.{rows_of};

    ghost view = { λ b. rows_of b.lists };
}

impl Base {
    /// Rows that one object alone has. Takes no memory.
    pub(crate) fn own(rows: FlatRows) -> Base
        ensures { result ≡ rows }
    {
        Base {
            lists: Lists::Own(rows),
        }
    }

    /// The rows.
    pub(crate) fn rows(&self) -> &FlatRows
        ensures { result.now ≡ self.now }
    {
        match &self.lists {
            Lists::Own(rows) => rows,
            Lists::Shared(rows) => rows,
        }
    }

    /// Rows that copies may share; where memory is refused, one object alone has them.
    pub(crate) fn shareable(rows: FlatRows) -> Base
        ensures { result ≡ rows }
    {
        Base {
            lists: shareable(Lists::Own(rows)),
        }
    }

    /// Lets copies share the rows from now on. Where memory is refused, nothing changes.
    pub(crate) fn make_shareable(&mut self)
        ensures { self.new ≡ self.old }
    {
        let rows = self.rows();
        let none = FlatRows::new(rows.allocator(), rows.domain());
        let lists = mem::replace(&mut self.lists, Lists::Own(none));
        self.lists = shareable(lists);
    }

    /// The same rows for one more object: shared where they may be, and else copied whole. `AllocError` where memory is refused, or where
    /// 2^63 - 1 objects share them.
    pub(crate) fn try_clone(&self) -> Result<Base, AllocError>
        ensures entries { IfOk result (λ copy. copy.entries ≡ self.now.entries) }
        ensures domain { IfOk result (λ copy. copy.domain ≡ self.now.domain) }
    {
        match &self.lists {
            Lists::Own(rows) => {
                let copy = rows.try_clone()?;
                Ok(Base::shareable(copy))
            }
            Lists::Shared(rows) => {
                let same = Arc::try_clone(rows)?;
                Ok(Base {
                    lists: Lists::Shared(same),
                })
            }
        }
    }

    /// Writes a value over the one at a place, unless another object shares the rows; whether it did.
    pub(crate) fn try_write(&mut self, at: usize, value: Value) -> bool
        requires at { at < length self.old.entries }
        requires domain { value_domain value ≡ self.old.domain }
        ensures written { result ≡ true → (d : ℕ × Stored) → self.new.entries ≡ slice_set self.old.entries at ((slice_index_or self.old.entries at d).0, value) }
        ensures shared { result ≡ false → self.new ≡ self.old }
        ensures domain { self.new.domain ≡ self.old.domain }
    {
        match &mut self.lists {
            Lists::Own(rows) => {
                rows.write(at, value);
                true
            }
            Lists::Shared(shared) => match Arc::get_mut(shared) {
                Some(rows) => {
                    rows.write(at, value);
                    true
                }
                None => false,
            },
        }
    }
}

/// The same rows, so that copies may share them; where memory is refused, as they were.
fn shareable(lists: Lists) -> Lists
    ensures { rows_of result ≡ rows_of lists }
{
    match lists {
        Lists::Own(rows) => match Arc::new(rows.allocator(), rows) {
            Ok(shared) => Lists::Shared(shared),
            Err(refused) => Lists::Own(refused.value),
        },
        Lists::Shared(shared) => Lists::Shared(shared),
    }
}
