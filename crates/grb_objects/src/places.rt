//! The places of objects of one sort, by their numbers. An object that a clone shares is copied before it is changed.
ghost use Rattle.std.specs.Prelude.{◌≡◌, ◌≢◌, ◌<◌, ℕ, [], ◌∷◌, ◌++◌, Some, length, false, true, is_some, OnOk, OnErr, IfOk, IfSome, slice_set, vec_len, vec_capacity};
ghost use Rattle.std.specs.Option.{option_map};
ghost use Rattle.grb_call.specs.Shapes.{object_at};
ghost use Rattle.grb_objects.specs.Places.{contents_at, left_of, IsAssembledAt};

use crate::shared::{Places, SharedObject};
use crate::stored_object::StoredObject;
use grb_call::Call;
use std::alloc::{AllocError, Global};
use std::sync::Arc;

/// Changes the object as the call says, or a copy of it where another store holds it. `AllocError` where memory is refused; then its
/// entries are as before.
pub(crate) fn change_shared<T: StoredObject>(
    alloc: Global,
    shared: &mut SharedObject<T>,
    call: &Call,
) -> Result<(), AllocError>
    requires fits { T.fits call.now (T.contents shared.old) }
    requires goes_on { T.ends call.now ≡ false }
    ensures ok { OnOk result (T.contents shared.new ≡ T.after call.now (T.contents shared.old)) }
    ensures err { OnErr result (T.contents shared.new ≡ T.contents shared.old) }
{
    if let Some(object) = Arc::get_mut(&mut shared.object) {
        return object.change(call);
    }
    let mut copy = shared.lent().copy_to_change(alloc, call)?;
    copy.change(call)?;
    *shared = SharedObject::new(alloc, copy)?;
    Ok(())
}

/// Changes or ends the object of this place, if there is one, as the call says. `AllocError` where memory is refused.
fn change_place<T: StoredObject>(
    alloc: Global,
    place: &mut Option<SharedObject<T>>,
    call: &Call,
) -> Result<(), AllocError>
    requires { IfSome (option_map T.contents place.old) (T.fits call.now) }
    ensures ok { OnOk result (option_map T.contents place.new ≡ left_of (T.ends call.now) (T.after call.now) (option_map T.contents place.old)) }
    ensures err { OnErr result (option_map T.contents place.new ≡ option_map T.contents place.old) }
{
    if T::is_ended_by(call) {
        *place = None;
        return Ok(());
    }
    match place {
        Some(shared) => change_shared(alloc, shared, call),
        None => Ok(()),
    }
}

/// Changes or ends the object with this number, if it is there, as the call says. `AllocError` where memory is refused; then its
/// entries are as before.
pub fn edit<T: StoredObject>(
    places: &mut Places<T>,
    id: T::Id,
    call: &Call,
) -> Result<(), AllocError>
    requires fits { IfSome (object_at (contents_at T.contents places.old.items) (T.number id)) (T.fits call.now) }
    ensures ok { OnOk result (contents_at T.contents places.new.items ≡ slice_set (contents_at T.contents places.old.items) (T.number id) (left_of (T.ends call.now) (T.after call.now) (object_at (contents_at T.contents places.old.items) (T.number id)))) }
    ensures err { OnErr result (contents_at T.contents places.new.items ≡ contents_at T.contents places.old.items) }
    ensures capacity { vec_capacity places.new ≡ vec_capacity places.old }
{
    let alloc = *places.allocator();
    match places.get_mut(T::number(id) as usize) {
        Some(place) => change_place(alloc, place, call),
        None => Ok(()),
    }
}

/// The object with this number for one more place, if it is there; no entry is copied. `AllocError` where 2^63 - 1 places hold it.
pub fn share<T: StoredObject>(
    places: &Places<T>,
    id: T::Id,
) -> Result<Option<SharedObject<T>>, AllocError>
    ensures stored { IfOk result (λ shared. option_map T.contents shared ≡ object_at (contents_at T.contents places.now.items) (T.number id)) }
    ensures object { IfOk result (λ shared. shared ≡ object_at places.now.items (T.number id)) }
{
    match places.get(T::number(id) as usize) {
        Some(Some(shared)) => Ok(Some(shared.share()?)),
        _ => Ok(None),
    }
}

/// Makes one more object, equal to the one with this number: the same object, until one of the two is changed. `AllocError` where
/// 2^63 - 1 places hold it. Takes no memory.
pub fn dup<T: StoredObject>(places: &mut Places<T>, id: T::Id) -> Result<(), AllocError>
    requires { vec_len places.old < vec_capacity places.old }
    ensures ok { OnOk result (contents_at T.contents places.new.items ≡ contents_at T.contents places.old.items ++ object_at (contents_at T.contents places.old.items) (T.number id) ∷ []) }
    ensures err { OnErr result (places.new.items ≡ places.old.items) }
    ensures capacity { vec_capacity places.new ≡ vec_capacity places.old }
{
    let shared = share(places, id)?;
    places.push_reserved(shared);
    Ok(())
}

/// The object with this number, if it was made and not freed. Takes no memory.
pub fn object_of<T: StoredObject>(places: &Places<T>, id: T::Id) -> Option<&T>
    ensures stored { option_map (λ x. T.contents x.now) result ≡ object_at (contents_at T.contents places.now.items) (T.number id) }
    ensures object { option_map (λ x. x.now) result ≡ object_at places.now.items (T.number id) }
{
    match places.get(T::number(id) as usize) {
        Some(Some(shared)) => Some(shared.lent()),
        _ => None,
    }
}

/// The object with this number as all share it that hold it, if it was made and not freed. Takes no memory.
pub fn held_of<T: StoredObject>(places: &Places<T>, id: T::Id) -> Option<&Arc<T>>
    ensures stored { option_map (λ x. T.contents x.now.value) result ≡ object_at (contents_at T.contents places.now.items) (T.number id) }
    ensures object { option_map (λ x. x.now.value) result ≡ object_at places.now.items (T.number id) }
{
    match places.get(T::number(id) as usize) {
        Some(Some(shared)) => Some(shared.held()),
        _ => None,
    }
}

/// Assembles the object, or a copy of it where another store holds it; one that is assembled stays as it is. `AllocError` where memory is
/// refused; its entries are as before in any case.
pub(crate) fn assemble_shared<T: StoredObject>(
    alloc: Global,
    shared: &mut SharedObject<T>,
) -> Result<(), AllocError>
    ensures same { T.contents shared.new ≡ T.contents shared.old }
    ensures assembled { OnOk result (T.is_assembled shared.new ≡ true) }
    ensures kept { T.is_assembled shared.old ≡ true → T.is_assembled shared.new ≡ true }
{
    if shared.lent().is_assembled() {
        return Ok(());
    }
    if let Some(object) = Arc::get_mut(&mut shared.object) {
        return object.assemble();
    }
    let mut copy = shared.lent().try_clone()?;
    copy.assemble()?;
    *shared = SharedObject::new(alloc, copy)?;
    Ok(())
}

/// Assembles the object of this place, if there is one. `AllocError` where memory is refused; its entries are as before in any case.
fn assemble_place<T: StoredObject>(
    alloc: Global,
    place: &mut Option<SharedObject<T>>,
) -> Result<(), AllocError>
    ensures same { option_map T.contents place.new ≡ option_map T.contents place.old }
    ensures assembled { OnOk result (IfSome place.new (λ x. T.is_assembled x ≡ true)) }
    ensures kept { IfSome place.old (λ x. T.is_assembled x ≡ true) → IfSome place.new (λ x. T.is_assembled x ≡ true) }
{
    match place {
        Some(shared) => assemble_shared(alloc, shared),
        None => Ok(()),
    }
}

/// Assembles the object of the place with this number, if there is one. `AllocError` where memory is refused; its entries are as before
/// in any case, and what was assembled stays so.
fn assemble_at<T: StoredObject>(places: &mut Places<T>, at: usize) -> Result<(), AllocError>
    ensures same { contents_at T.contents places.new.items ≡ contents_at T.contents places.old.items }
    ensures assembled { OnOk result (IsAssembledAt T.is_assembled places.new.items at) }
    ensures kept { (n : ℕ) → IsAssembledAt T.is_assembled places.old.items n → IsAssembledAt T.is_assembled places.new.items n }
    ensures capacity { vec_capacity places.new ≡ vec_capacity places.old }
{
    let alloc = *places.allocator();
    match places.get_mut(at) {
        Some(place) => assemble_place(alloc, place),
        None => Ok(()),
    }
}

/// Assembles the object with this number, if it is there. `AllocError` where memory is refused; its entries are as before in any
/// case, and what was assembled stays so.
pub fn assemble<T: StoredObject>(places: &mut Places<T>, id: T::Id) -> Result<(), AllocError>
    ensures same { contents_at T.contents places.new.items ≡ contents_at T.contents places.old.items }
    ensures assembled { OnOk result (IsAssembledAt T.is_assembled places.new.items (T.number id)) }
    ensures kept { (n : ℕ) → IsAssembledAt T.is_assembled places.old.items n → IsAssembledAt T.is_assembled places.new.items n }
    ensures capacity { vec_capacity places.new ≡ vec_capacity places.old }
{
    assemble_at(places, T::number(id) as usize)
}

/// Whether so many changes wait in the object with this number that it pays to do them. Takes no memory.
pub fn has_many_changes<T: StoredObject>(places: &Places<T>, id: T::Id) -> bool {
    match object_of(places, id) {
        Some(object) => object.has_many_changes(),
        None => false,
    }
}

/// Assembles each object. `AllocError` where memory is refused; the entries are as before in any case.
pub fn assemble_all<T: StoredObject>(places: &mut Places<T>) -> Result<(), AllocError>
    ensures same { contents_at T.contents places.new.items ≡ contents_at T.contents places.old.items }
    ensures assembled { OnOk result ((n : ℕ) → IsAssembledAt T.is_assembled places.new.items n) }
    ensures capacity { vec_capacity places.new ≡ vec_capacity places.old }
{
    for n in 0..places.len() {
        assemble_at(places, n)?;
    }
    Ok(())
}

/// Puts the object in the place of the one with this number; copies may share its entries. `AllocError` where memory is refused; then each
/// is as before.
pub fn put<T: StoredObject>(places: &mut Places<T>, id: T::Id, object: T) -> Result<(), AllocError>
    ensures ok { OnOk result (contents_at T.contents places.new.items ≡ slice_set (contents_at T.contents places.old.items) (T.number id) (Some (T.contents object))) }
    ensures err { OnErr result (places.new.items ≡ places.old.items) }
    ensures capacity { vec_capacity places.new ≡ vec_capacity places.old }
{
    let mut object = object;
    object.make_shareable();
    let shared = SharedObject::new(*places.allocator(), object)?;
    if let Some(place) = places.get_mut(T::number(id) as usize) {
        *place = Some(shared);
    }
    Ok(())
}

/// The object with this number, which is there. Takes no memory.
pub fn lent<T: StoredObject>(places: &Places<T>, id: T::Id) -> &T
    requires { is_some (object_at places.now.items (T.number id)) ≡ true }
    ensures { object_at places.now.items (T.number id) ≡ Some result.now }
{
    match places.get(T::number(id) as usize) {
        Some(Some(shared)) => shared.lent(),
        _ => unreachable!(),
    }
}

/// The mask with this number, which is there, or none. Takes no memory.
pub fn lent_mask<T: StoredObject>(places: &Places<T>, mask: Option<T::Id>) -> Option<&T>
    requires { IfSome mask (λ id. is_some (object_at places.now.items (T.number id)) ≡ true) }
    ensures { option_map (λ x. Some x.now) result ≡ option_map (λ id. object_at places.now.items (T.number id)) mask }
{
    match mask {
        Some(id) => Some(lent(places, id)),
        None => None,
    }
}

/// Makes places up to this number, with nothing there. `AllocError` where memory is refused.
fn make_places<T: StoredObject>(places: &mut Places<T>, number: u32) -> Result<(), AllocError>
    ensures same { (n : ℕ) → object_at (contents_at T.contents places.new.items) n ≡ object_at (contents_at T.contents places.old.items) n }
    ensures place { OnOk result (number < length places.new.items) }
{
    'places: while places.len() <= number as usize {
        places.push(None)?;
    }
    Ok(())
}

/// Puts the object at its number. `AllocError` where memory for its place is refused.
pub fn hold<T: StoredObject>(
    places: &mut Places<T>,
    id: T::Id,
    object: SharedObject<T>,
) -> Result<(), AllocError>
    ensures held { OnOk result (object_at (contents_at T.contents places.new.items) (T.number id) ≡ Some (T.contents object)) }
    ensures others { OnOk result ((n : ℕ) → T.number id ≢ n → object_at (contents_at T.contents places.new.items) n ≡ object_at (contents_at T.contents places.old.items) n) }
{
    make_places(places, T::number(id))?;
    if let Some(place) = places.get_mut(T::number(id) as usize) {
        *place = Some(object);
    }
    Ok(())
}

/// Takes the object with this number, if it is there: nothing is there then.
pub fn take<T: StoredObject>(places: &mut Places<T>, id: T::Id) -> Option<SharedObject<T>>
    ensures { option_map T.contents result ≡ object_at (contents_at T.contents places.old.items) (T.number id) }
{
    match places.get_mut(T::number(id) as usize) {
        Some(place) => place.take(),
        None => None,
    }
}
