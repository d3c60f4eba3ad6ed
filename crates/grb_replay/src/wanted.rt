//! The objects whose contents are wanted.
ghost use Rattle.std.specs.Prelude.{true, Some, slice_get, ◌≡◌, ◌<◌, ◌≤◌, ◌||◌, ◌==◌, ℕ, false, if◌then◌else◌, length, IfOk, OnOk, OnErr};
ghost use Rattle.grb_call.specs.Status.{is_same_object};
ghost use Rattle.grb_call.specs.declared.ids.Object.{Object};
ghost use Rattle.grb_slices.specs.Slice.{is_among};
ghost use Rattle.grb_replay.specs.Wanted.{HasPlace, HavePlaces, KeepsPlaces, is_chosen, is_wanted, marked, wants_before_entry};

use grb_call::{Call, Object, objects_read};
use std::alloc::{AllocError, Global};
use std::marker::Model;

/// The objects that are wanted at a place of a list of calls, for one who goes back over them from the last: those whose entries there are
/// needed for the answer, or are read by a later call that was chosen. Each is a mark by its number.
#[derive(Drop)]
pub(crate) struct Wanted {
    matrices: Vec<bool>,
    vectors: Vec<bool>,
}

impl Model for Wanted {
    ghost use Rattle.grb_replay.specs.Wanted.{Marks};

    ghost Value = { Marks };

    ghost view = { λ w. record { matrices = w.matrices.items; vectors = w.vectors.items } };
}

/// The mark with this number; none where it has no place.
fn mark_at(marks: &[bool], number: u32) -> bool
    ensures { result ≡ marked marks.now number }
{
    marks.get(number as usize).copied().unwrap_or(false)
}

/// Makes a place for the mark with this number, if it has none. `AllocError` where memory is refused; the same objects are wanted in any
/// case.
fn make_place_at(marks: &mut Vec<bool>, number: u32) -> Result<(), AllocError>
    ensures same { (n : ℕ) → marked marks.new.items n ≡ marked marks.old.items n }
    ensures place { OnOk result (number < length marks.new.items) }
    ensures kept { length marks.old.items ≤ length marks.new.items }
{
    let place = number as usize;
    if marks.len() <= place {
        marks.resize(place + 1, false)?;
    }
    Ok(())
}

/// Puts the mark with this number, which has a place.
fn put_mark(marks: &mut [bool], number: u32, mark: bool)
    requires { number < length marks.old }
    ensures { (n : ℕ) → marked marks.new n ≡ (if number == n then mark else marked marks.old n) }
{
    marks[number as usize] = mark;
}

/// The object at this place of the list.
fn object_at(objects: &[Object], at: usize) -> Object
    requires { at < length objects.now }
    ensures { slice_get objects.now at ≡ Some result }
{
    objects[at]
}

impl Wanted {
    /// No object is wanted. Takes no memory.
    pub(crate) fn new(alloc: Global) -> Wanted
        ensures { (o : Object) → is_wanted result o ≡ false }
    {
        Wanted {
            matrices: Vec::new(alloc),
            vectors: Vec::new(alloc),
        }
    }

    /// Whether the object is wanted. Takes no memory.
    pub(crate) fn contains(&self, object: Object) -> bool
        ensures { result ≡ is_wanted self.now object }
    {
        match object {
            Object::Matrix(a) => mark_at(&self.matrices, a.0),
            Object::Vector(v) => mark_at(&self.vectors, v.0),
        }
    }

    /// Makes a place for the mark of the object, if it has none. `AllocError` where memory is refused; the same objects are wanted in any
    /// case.
    fn make_place(&mut self, object: Object) -> Result<(), AllocError>
        ensures same { (o : Object) → is_wanted self.new o ≡ is_wanted self.old o }
        ensures place { OnOk result (HasPlace self.new object) }
        ensures kept { KeepsPlaces self.old self.new }
    {
        match object {
            Object::Matrix(a) => make_place_at(&mut self.matrices, a.0),
            Object::Vector(v) => make_place_at(&mut self.vectors, v.0),
        }
    }

    /// The object is wanted or not from now on. It has a place.
    fn put(&mut self, object: Object, mark: bool)
        requires { HasPlace self.old object }
        ensures marks { (o : Object) → is_wanted self.new o ≡ (if is_same_object object o then mark else is_wanted self.old o) }
        ensures kept { KeepsPlaces self.old self.new }
    {
        match object {
            Object::Matrix(a) => put_mark(&mut self.matrices, a.0, mark),
            Object::Vector(v) => put_mark(&mut self.vectors, v.0, mark),
        }
    }

    /// The object is wanted too. `AllocError` where memory is refused; then nothing more is wanted.
    pub(crate) fn want(&mut self, object: Object) -> Result<(), AllocError>
        ensures ok { OnOk result ((o : Object) → is_wanted self.new o ≡ (is_same_object object o || is_wanted self.old o)) }
        ensures err { OnErr result ((o : Object) → is_wanted self.new o ≡ is_wanted self.old o) }
    {
        self.make_place(object)?;
        self.put(object, true);
        Ok(())
    }

    /// Makes a place for the mark of each object. `AllocError` where memory is refused; the same objects are wanted in any case.
    fn make_places(&mut self, objects: &[Object]) -> Result<(), AllocError>
        ensures same { (o : Object) → is_wanted self.new o ≡ is_wanted self.old o }
        ensures places { OnOk result (HavePlaces self.new objects.now) }
        ensures kept { KeepsPlaces self.old self.new }
    {
        let mut at = objects.len();
        'places: while at > 0 {
            at -= 1;
            self.make_place(object_at(objects, at))?;
        }
        Ok(())
    }

    /// The objects are wanted from now on. Each has a place.
    fn mark_all(&mut self, objects: &[Object])
        requires { HavePlaces self.old objects.now }
        ensures { (o : Object) → is_wanted self.new o ≡ (is_among objects.now o || is_wanted self.old o) }
    {
        let mut at = objects.len();
        'marks: while at > 0 {
            at -= 1;
            self.put(object_at(objects, at), true);
        }
    }

    /// Goes back over a call that has this target at its place, none where it is refused there: whether the target is wanted, so that the
    /// call is chosen. What it reads is wanted then, and the target only where it is read. `AllocError` where memory is refused; then the
    /// same objects are wanted as before.
    ///
    /// Source: Weiser, "Program slicing", 1981; over calls own.
    pub(crate) fn go_back(
        &mut self,
        target: Option<Object>,
        call: &Call,
    ) -> Result<bool, AllocError>
        ensures chosen { IfOk result (λ chosen. chosen ≡ is_chosen (is_wanted self.old) target) }
        ensures wanted { OnOk result ((o : Object) → is_wanted self.new o ≡ wants_before_entry (is_wanted self.old) target call.now o) }
        ensures err { OnErr result ((o : Object) → is_wanted self.new o ≡ is_wanted self.old o) }
    {
        let Some(object) = target else {
            return Ok(false);
        };
        if !self.contains(object) {
            return Ok(false);
        }
        let objects = objects_read(*self.matrices.allocator(), call);
        self.make_places(objects.as_slice())?;
        self.make_place(object)?;
        self.put(object, false);
        self.mark_all(objects.as_slice());
        Ok(true)
    }
}
