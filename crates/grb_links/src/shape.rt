//! The shape of what an object holds, as far as calls need no more of it.
ghost use Rattle.std.specs.Prelude.{◌≡◌, ◌+◌, ◌<◌, ◌≤◌, ◌^◌, ℕ, true, is_some, length, vec_capacity, vec_len, OnOk};
ghost use Rattle.grb_call.specs.Refused.{shapes_after};
ghost use Rattle.grb_slices.specs.Content.{effective_target};
ghost use Rattle.grb_links.specs.Overwrites.{shape_at, shape_needed, shape_noted};

use crate::needed::forgets;
use grb_call::{Call, Object, Shapes};
use grb_core::Domain;
use std::alloc::AllocError;

/// The domain and the dimensions of what an object holds.
#[derive(Clone, Copy, Debug)]
pub enum Shape {
    /// Of a matrix: its domain, its rows and its columns.
    Matrix(Domain, u64, u64),
    /// Of a vector: its domain and its size.
    Vector(Domain, u64),
}

/// The shape of the object, if it is there.
fn shape_at(shapes: &Shapes, object: Object) -> Option<Shape>
    ensures { result ≡ shape_at shapes.now.objects object }
{
    match object {
        Object::Matrix(a) => match shapes.matrix(a) {
            Some((domain, nrows, ncols)) => Some(Shape::Matrix(domain, nrows, ncols)),
            None => None,
        },
        Object::Vector(v) => match shapes.vector(v) {
            Some((domain, size)) => Some(Shape::Vector(domain, size)),
            None => None,
        },
    }
}

/// The shape of the call's output, where it needs nothing else of it. Takes no memory.
pub(crate) fn shape_needed(shapes: &Shapes, call: &Call) -> Option<Shape>
    ensures { result ≡ shape_needed shapes.now.objects call.now }
{
    if !forgets(call) {
        return None;
    }
    match call.output() {
        Some(object) => shape_at(shapes, object),
        None => None,
    }
}

/// Makes room for the shape, if there is one, after those that were noted. `AllocError` where memory is refused; the shapes are the same in
/// any case.
pub(crate) fn make_room(noted: &mut Vec<Shape>, shape: Option<Shape>) -> Result<(), AllocError>
    ensures same { noted.new.items ≡ noted.old.items }
    ensures room { OnOk result (is_some shape ≡ true → vec_len noted.new < vec_capacity noted.new) }
{
    match shape {
        Some(_) => noted.reserve(1),
        None => Ok(()),
    }
}

/// Notes the shape, if there is one, and tells after how many noted shapes it stands, itself included; 0 where there is none. Takes no memory.
pub(crate) fn note(noted: &mut Vec<Shape>, shape: Option<Shape>) -> u32
    requires room { is_some shape ≡ true → vec_len noted.old < vec_capacity noted.old }
    requires few { length noted.old.items + 1 < 2 ^ 32 }
    ensures shape { shape_noted noted.new.items result ≡ shape }
    ensures within { result ≤ length noted.new.items }
    ensures kept { (n : ℕ) → n ≤ length noted.old.items → shape_noted noted.new.items n ≡ shape_noted noted.old.items n }
    ensures more { length noted.old.items ≤ length noted.new.items }
    ensures few { length noted.new.items ≤ length noted.old.items + 1 }
{
    match shape {
        Some(shape) => {
            noted.push_reserved(shape);
            noted.len() as u32
        }
        None => 0,
    }
}

/// The last of so many noted shapes; none of 0. Takes no memory.
pub(crate) fn shape_noted(noted: &[Shape], count: u32) -> Option<Shape>
    ensures { result ≡ shape_noted noted.now count }
{
    if count == 0 {
        return None;
    }
    noted.get(count as usize - 1).copied()
}

/// Takes in a call that has this target on the shapes: it is not checked again. Takes no memory.
pub(crate) fn absorb(shapes: &mut Shapes, call: &Call, target: Option<Object>)
    requires room { 0 < shapes.old.room }
    requires target { target ≡ effective_target shapes.old.objects call.now }
    ensures { shapes.new.objects ≡ shapes_after shapes.old.objects call.now }
{
    if target.is_some() {
        shapes.absorb_accepted(call);
    }
}
