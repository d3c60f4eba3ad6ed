//! Objects in an `Arc` each, as a state holds them: a share takes no memory and copies no entry.
ghost use Rattle.std.specs.Prelude.{◌≡◌, ◌+◌, ◌<◌, ◌≤◌, ◌^◌, IfOk, length, vec_capacity};

use std::alloc::{AllocError, Global};
use std::marker::Model;
use std::sync::Arc;

/// An object that several stores may hold. One that changes it does so in place where no other holds it, and else changes a copy.
#[derive(Drop)]
pub struct SharedObject<T> {
    pub(crate) object: Arc<T>,
}

/// The places of the objects of one sort, by their numbers: each has its object where that was made and not freed.
pub type Places<T> = Vec<Option<SharedObject<T>>>;

impl<T> Model for SharedObject<T> {
    ghost use Rattle.std.specs.Arc.{arc_value};

    ghost Value = { T };

    ghost view = { λ s. arc_value s.object };
}

impl<T> SharedObject<T> {
    /// The object, which one store holds. `AllocError` where memory is refused.
    pub fn new(alloc: Global, object: T) -> Result<SharedObject<T>, AllocError>
    where
        T: Drop,
        ensures { IfOk result (λ shared. shared ≡ object) }
    {
        match Arc::new(alloc, object) {
            Ok(object) => Ok(SharedObject { object }),
            Err(_refused) => Err(AllocError),
        }
    }

    /// The same object for one more store; nothing of it is copied, and no memory is taken. `AllocError` where 2^63 - 1 hold it.
    pub(crate) fn share(&self) -> Result<SharedObject<T>, AllocError>
        ensures { IfOk result (λ shared. shared ≡ self.now) }
    {
        Ok(SharedObject {
            object: Arc::try_clone(&self.object)?,
        })
    }

    /// The object as all share it that hold it. Takes no memory.
    pub(crate) fn held(&self) -> &Arc<T>
        ensures { result.now.value ≡ self.now }
    {
        &self.object
    }

    /// The object. Takes no memory.
    pub fn lent(&self) -> &T
        ensures { result.now ≡ self.now }
    {
        &self.object
    }
}

/// The object of a place for one more store, if it has one; nothing of it is copied, and no memory is taken. `AllocError` where 2^63 - 1
/// hold it.
pub fn share_place<T>(
    place: &Option<SharedObject<T>>,
) -> Result<Option<SharedObject<T>>, AllocError>
    ensures { IfOk result (λ shared. shared ≡ place.now) }
{
    match place {
        Some(shared) => Ok(Some(shared.share()?)),
        None => Ok(None),
    }
}

/// The same objects for one more store, at the same places, with places reserved for so many more. `AllocError` where memory is refused, or
/// where 2^63 - 1 hold one of them.
pub fn share_all<T>(places: &Places<T>, room: u32) -> Result<Places<T>, AllocError>
where
    T: Drop,
    requires { length places.now.items + room < 2 ^ 32 }
    ensures same { IfOk result (λ all. all.items ≡ places.now.items) }
    ensures reserved { IfOk result (λ all. length places.now.items + room ≤ vec_capacity all) }
{
    let mut all = Vec::with_capacity(*places.allocator(), places.len() + room as usize)?;
    'places: for at in 0..places.len() {
        all.push_reserved(share_place(&places[at])?);
    }
    Ok(all)
}
