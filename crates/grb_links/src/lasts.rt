//! After how many calls each object was last changed.
ghost use Rattle.std.specs.Prelude.{◌≡◌, ◌<◌, ◌≤◌, ◌==◌, ℕ, Some, if◌then◌else◌, length, map, slice_get, OnOk, OnErr};
ghost use Rattle.std.specs.Option.{option_map_or};
ghost use Rattle.grb_call.specs.Operands.{objects_read};
ghost use Rattle.grb_call.specs.Status.{is_same_object};
ghost use Rattle.grb_call.specs.declared.ids.Object.{Object};
ghost use Rattle.grb_links.specs.Overwrites.{inputs_of, objects_needed};
ghost use Rattle.grb_links.specs.Lasts.{AreLinks, HasPlace, last_in, last_of, last_with};

use crate::needed::forgets;
use grb_call::{Call, Class, Object, objects_read};
use std::alloc::{AllocError, Global};

/// After how many calls of a list each object was last changed, by its number; 0 where it never was.
#[derive(Drop)]
pub struct Lasts {
    matrices: Vec<u32>,
    vectors: Vec<u32>,
}

/// The number at this place; 0 where there is none.
fn last_at(lasts: &[u32], number: u32) -> u32
    ensures { result ≡ last_in lasts.now number }
{
    lasts.get(number as usize).copied().unwrap_or(0)
}

/// Makes a place with this number, if there is none. `AllocError` where memory is refused; the numbers are the same in any case.
fn make_place_at(lasts: &mut Vec<u32>, number: u32) -> Result<(), AllocError>
    ensures same { (n : ℕ) → last_in lasts.new.items n ≡ last_in lasts.old.items n }
    ensures place { OnOk result (number < length lasts.new.items) }
{
    let place = number as usize;
    if lasts.len() <= place {
        lasts.resize(place + 1, 0)?;
    }
    Ok(())
}

/// Puts the number of calls at a place that is there.
fn put_at(lasts: &mut [u32], number: u32, count: u32)
    requires { number < length lasts.old }
    ensures { (n : ℕ) → last_in lasts.new n ≡ (if number == n then count else last_in lasts.old n) }
{
    lasts[number as usize] = count;
}

impl Lasts {
    /// No object was changed. Takes no memory.
    pub fn open(alloc: Global) -> Lasts
        ensures { (o : Object) → last_of result o ≡ 0 }
    {
        Lasts {
            matrices: Vec::new(alloc),
            vectors: Vec::new(alloc),
        }
    }

    /// After how many calls the object was last changed. Takes no memory.
    pub fn last_of(&self, object: Object) -> u32
        ensures { result ≡ last_of self.now object }
    {
        match object {
            Object::Matrix(a) => last_at(&self.matrices, a.0),
            Object::Vector(v) => last_at(&self.vectors, v.0),
        }
    }

    /// Makes a place for the object, if it has none. `AllocError` where memory is refused; all is as it was in any case.
    pub(crate) fn make_place(&mut self, object: Object) -> Result<(), AllocError>
        ensures same { (o : Object) → last_of self.new o ≡ last_of self.old o }
        ensures place { OnOk result (HasPlace self.new object) }
    {
        match object {
            Object::Matrix(a) => make_place_at(&mut self.matrices, a.0),
            Object::Vector(v) => make_place_at(&mut self.vectors, v.0),
        }
    }

    /// The object, which has a place, was last changed after so many calls. Takes no memory.
    pub(crate) fn put(&mut self, object: Object, count: u32)
        requires { HasPlace self.old object }
        ensures { (o : Object) → last_of self.new o ≡ (if is_same_object object o then count else last_of self.old o) }
    {
        match object {
            Object::Matrix(a) => put_at(&mut self.matrices, a.0, count),
            Object::Vector(v) => put_at(&mut self.vectors, v.0, count),
        }
    }

    /// Takes in that the call which is the one of this number has this target. `AllocError` where memory is refused; then all is as it was.
    pub(crate) fn change(&mut self, target: Option<Object>, count: u32) -> Result<(), AllocError>
        ensures ok { OnOk result ((o : Object) → last_of self.new o ≡ last_with target count (last_of self.old) o) }
        ensures err { OnErr result ((o : Object) → last_of self.new o ≡ last_of self.old o) }
    {
        match target {
            Some(object) => {
                self.make_place(object)?;
                self.put(object, count);
                Ok(())
            }
            None => Ok(()),
        }
    }

    /// After how many calls the object was last changed that stands at this place of the list; 0 where none does.
    fn link_at(&self, read: &[Object], at: usize) -> u32
        ensures { result ≡ option_map_or (last_of self.now) (slice_get read.now at) 0 }
    {
        match read.get(at) {
            Some(object) => self.last_of(*object),
            None => 0,
        }
    }

    /// After how many calls each of these objects was last changed.
    fn links_to(&self, read: &[Object]) -> [u32; 4]
        requires { length read.now ≤ 4 }
        ensures { AreLinks (last_of self.now) read.now result }
    {
        [
            self.link_at(read, 0),
            self.link_at(read, 1),
            self.link_at(read, 2),
            self.link_at(read, 3),
        ]
    }

    /// After how many calls each of the call's inputs was last changed, where it is an operation.
    fn links_of_inputs(&self, alloc: Global, call: &Call) -> [u32; 4]
        ensures { AreLinks (last_of self.now) (inputs_of call.now) result }
    {
        match call.operation() {
            Some(operation) => self.links_to(operation.inputs(alloc).as_slice()),
            None => [0, 0, 0, 0],
        }
    }

    /// After how many calls each object was last changed that the call reads. Takes no memory.
    fn links_of_all(&self, alloc: Global, call: &Call) -> [u32; 4]
        ensures { AreLinks (last_of self.now) (objects_read call.now) result }
    {
        match call.class() {
            Class::Edits => match call.output() {
                Some(object) => [self.last_of(object), 0, 0, 0],
                None => unreachable!(),
            },
            Class::Makes | Class::Operates | Class::Reads(_) | Class::AsksDimensions => {
                self.links_to(objects_read(alloc, call).as_slice())
            }
        }
    }

    /// After how many calls each object was last changed that the call needs. Takes no memory.
    pub(crate) fn links_of(&self, alloc: Global, call: &Call) -> [u32; 4]
        ensures { AreLinks (last_of self.now) (objects_needed call.now) result }
    {
        if forgets(call) {
            return self.links_of_inputs(alloc, call);
        }
        self.links_of_all(alloc, call)
    }
}
