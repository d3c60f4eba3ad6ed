//! The status that the last call on each object left, of the calls of one pass.
ghost use Rattle.std.specs.Prelude.{◌≡◌, Some, slice_set, IfOk};
ghost use Rattle.grb_call.specs.Status.{with_status};
ghost use Rattle.grb_call.specs.Statuses.{no_rows, status_at};

use crate::ids::Object;
use grb_core::Info;
use std::alloc::{AllocError, Global};
use std::marker::Model;

/// The status of each object, for the numbers below the room. Its memory is taken when it is opened.
#[derive(Drop)]
pub struct Statuses {
    matrices: Vec<Option<Info>>,
    vectors: Vec<Option<Info>>,
}

impl Model for Statuses {
    ghost use Rattle.std.specs.Prelude.{length};
    ghost use Rattle.grb_call.specs.Statuses.{RoomyStatuses, AreRows};

    ghost Value = { RoomyStatuses };

    ghost view = { λ s. record { rows = record { matrices = s.matrices.items; vectors = s.vectors.items }; room = length s.matrices.items } };

    ghost invariant = { λ s. AreRows s.matrices.items s.vectors.items (length s.matrices.items) };
}

/// Puts the status at its place in a row, if it has one.
fn put(row: &mut Vec<Option<Info>>, at: u32, status: Info)
    ensures { row.new.items ≡ slice_set row.old.items at (Some status) }
{
    if let Some(place) = row.get_mut(at as usize) {
        *place = Some(status);
    }
}

impl Statuses {
    /// No object has a status. `AllocError` where memory is refused; then nothing is made.
    pub fn open(alloc: Global, room: u32) -> Result<Statuses, AllocError>
        ensures { IfOk result (λ statuses. statuses ≡ record { rows = no_rows room; room = room }) }
    {
        Ok(Statuses {
            matrices: vec![in alloc; None; room as usize]?,
            vectors: vec![in alloc; None; room as usize]?,
        })
    }

    /// The status of the object. Takes no memory.
    pub fn find(&self, object: Object) -> Option<Info>
        ensures { result ≡ status_at self.now.rows object }
    {
        match object {
            Object::Matrix(a) => self.matrices.get(a.0 as usize).copied().flatten(),
            Object::Vector(v) => self.vectors.get(v.0 as usize).copied().flatten(),
        }
    }

    /// Keeps the status of the target, if there is one and it has a place. Takes no memory.
    pub fn keep(&mut self, target: Option<Object>, status: Info)
        ensures kept { status_at self.new.rows ≡ with_status self.old.room target status (status_at self.old.rows) }
        ensures room { self.new.room ≡ self.old.room }
    {
        if let Some(object) = target {
            match object {
                Object::Matrix(a) => put(&mut self.matrices, a.0, status),
                Object::Vector(v) => put(&mut self.vectors, v.0, status),
            }
        }
    }
}
