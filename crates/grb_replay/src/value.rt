//! One object after calls on any store, from only the calls that it depends on.
ghost use Rattle.std.specs.Prelude.{◌≡◌, ◌+◌, ◌<◌, ◌^◌, true, length, map, IfOk, IfSome};
ghost use Rattle.std.specs.Option.{option_map};
ghost use Rattle.grb_replay.specs.Held.{HoldsSame, IsEmptyWhereGone, IsMadeBySlice, held_matrix, held_vector, slice_length};

use crate::making::make_chosen;
use crate::slice::slice_for;
use crate::targets::Targets;
use crate::wanted::Wanted;
use grb_call::{Call, Object};
use grb_sparse::{SparseMatrix, SparseVector};
use grb_states::State;
use std::alloc::{AllocError, Global};
use std::marker::Model;

/// What an object holds after a list of calls, or that it is not there then. No change waits in it.
#[derive(Drop)]
pub struct Held {
    object: Object,
    // Where the calls of its slice were made, and no other.
    state: State,
    evaluated: u32,
}

impl Model for Held {
    ghost use Rattle.std.specs.Prelude.{◌≡◌, true};
    ghost use Rattle.grb_states.specs.State.{is_assembled};
    ghost use Rattle.grb_replay.specs.Held.{HeldObject};

    ghost Value = { HeldObject };

    ghost view = { λ h. record { object = h.object; state = h.state; evaluated = h.evaluated } };

    ghost invariant = { λ h. is_assembled h.state.matrices h.state.vectors h.object ≡ true };
}

/// What the object holds after these calls on a store, from only the calls that it depends on: what is held is the store that these calls
/// alone leave, in which an object that others made is not there. The others are passed over by their shapes, and all are, and nothing is
/// held, where the object is not there after them. The store stays as it is, and no entry is copied but of objects that these calls change.
/// It takes memory for a place of each object, for the slice and for what its calls make. `AllocError` where memory is refused; then
/// nothing is made.
///
/// Source: GraphBLAS C API 2.0, "Execution modes": a method may be executed when an answer needs it; the form is own.
pub fn value_of(
    alloc: Global,
    whole: &State,
    calls: &[&Call],
    object: Object,
) -> Result<Held, AllocError>
    requires matrices { length whole.now.store.matrices + length calls.now < 2 ^ 32 }
    requires vectors { length whole.now.store.vectors + length calls.now < 2 ^ 32 }
    ensures object { IfOk result (λ held. held.object ≡ object) }
    ensures content { IfOk result (λ held. HoldsSame whole.now.store object (map (λ c. c.now) calls.now) held.state.store) }
    ensures slice { IfOk result (λ held. IsMadeBySlice whole.now.store object (map (λ c. c.now) calls.now) held.state.store) }
    ensures gone { IfOk result (λ held. IsEmptyWhereGone whole.now.store object (map (λ c. c.now) calls.now) held.state.store) }
    ensures evaluated { IfOk result (λ held. held.evaluated ≡ slice_length whole.now.store object (map (λ c. c.now) calls.now)) }
{
    let room = calls.len() as u32;
    let mut walk = Targets::of(alloc, whole.shapes(), room)?;
    walk.go_on(calls);
    if !walk.contains(object) {
        return Ok(Held {
            object,
            state: State::empty(alloc),
            evaluated: 0,
        });
    }
    let targets = walk.targets();
    let mut wanted = Wanted::new(alloc);
    wanted.want(object)?;
    let slice = slice_for(alloc, targets, calls, wanted)?;
    let mut state = whole.try_clone(room)?;
    make_chosen(&mut state, targets, calls, slice.chosen.as_slice())?;
    state.complete(object)?;
    Ok(Held {
        object,
        state,
        evaluated: slice.count as u32,
    })
}

impl Held {
    /// The object, where it is a matrix that is there; no change waits in it. Takes no memory.
    pub fn matrix(&self) -> Option<&SparseMatrix>
        ensures stored { option_map (λ matrix. matrix.now.matrix) result ≡ held_matrix self.now.state.store self.now.object }
        ensures assembled { IfSome result (λ matrix. matrix.now.assembled ≡ true) }
    {
        match self.object {
            Object::Matrix(a) => self.state.matrix(a),
            Object::Vector(_) => None,
        }
    }

    /// The object, where it is a vector that is there; no change waits in it. Takes no memory.
    pub fn vector(&self) -> Option<&SparseVector>
        ensures stored { option_map (λ vector. vector.now.vector) result ≡ held_vector self.now.state.store self.now.object }
        ensures assembled { IfSome result (λ vector. vector.now.assembled ≡ true) }
    {
        match self.object {
            Object::Matrix(_) => None,
            Object::Vector(v) => self.state.vector(v),
        }
    }

    /// How many calls its slice has. Takes no memory.
    pub fn evaluated(&self) -> u32
        ensures { result ≡ self.now.evaluated }
    {
        self.evaluated
    }
}
