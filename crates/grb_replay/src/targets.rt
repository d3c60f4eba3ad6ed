//! Which object each call changes.
ghost use Rattle.std.specs.Prelude.{◌≡◌, ◌+◌, ◌<◌, ◌≤◌, ◌^◌, ◌++◌, ◌∷◌, [], length, map, IfOk};
ghost use Rattle.grb_call.specs.Refused.{shapes_after};
ghost use Rattle.grb_slices.specs.Content.{effective_target};
ghost use Rattle.grb_call.specs.Shapes.{is_live};
ghost use Rattle.grb_replay.specs.Targets.{WalksOn};

use grb_call::{Call, Object, Shapes};
use grb_slices::target_at;
use std::alloc::{AllocError, Global};
use std::marker::Model;

/// The targets of the first calls of a history, each at its place, none for one that is refused there or only reads, and the shapes after
/// these calls: of one walk over the calls, which goes on where it stopped.
#[derive(Drop)]
pub struct Targets {
    shapes: Shapes,
    targets: Vec<Option<Object>>,
}

impl Model for Targets {
    ghost use Rattle.std.specs.Prelude.{◌+◌, ◌≤◌, length, vec_capacity};
    ghost use Rattle.grb_replay.specs.Targets.{WalkedCalls};

    ghost Value = { WalkedCalls };

    ghost view = { λ t. record { targets = t.targets.items; shapes = t.shapes } };

    ghost invariant = { λ t. length t.targets.items + t.shapes.room ≤ vec_capacity t.targets };
}

impl Targets {
    /// Of no calls yet on objects of these shapes, with memory for so many. `AllocError` where memory is refused; then nothing is made.
    pub fn of(alloc: Global, shapes: &Shapes, room: u32) -> Result<Targets, AllocError>
        requires matrices { length shapes.now.objects.matrices + room < 2 ^ 32 }
        requires vectors { length shapes.now.objects.vectors + room < 2 ^ 32 }
        ensures targets { IfOk result (λ t. t.targets ≡ []) }
        ensures shapes { IfOk result (λ t. t.shapes.objects ≡ shapes.now.objects) }
        ensures room { IfOk result (λ t. t.shapes.room ≡ room) }
    {
        let targets = Vec::with_capacity(alloc, room as usize)?;
        Ok(Targets {
            targets,
            shapes: shapes.try_clone(room)?,
        })
    }

    /// Takes in the call after those walked over. Takes no memory.
    pub fn go_over(&mut self, call: &Call)
        requires { 0 < self.old.shapes.room }
        ensures targets { self.new.targets ≡ self.old.targets ++ effective_target self.old.shapes.objects call.now ∷ [] }
        ensures shapes { self.new.shapes.objects ≡ shapes_after self.old.shapes.objects call.now }
        ensures room { self.new.shapes.room + 1 ≡ self.old.shapes.room }
    {
        self.targets.push_reserved(target_at(&self.shapes, call));
        self.shapes.absorb(call);
    }

    /// Goes on over these calls, which come after those walked over. Takes no memory.
    pub fn go_on(&mut self, calls: &[&Call])
        requires room { length calls.now ≤ self.old.shapes.room }
        ensures walked { WalksOn self.old (map (λ c. c.now) calls.now) self.new }
        ensures all { length self.new.targets ≡ length self.old.targets + length calls.now }
        ensures room { length self.new.targets + self.new.shapes.room ≡ length self.old.targets + self.old.shapes.room }
    {
        'calls: for at in 0..calls.len() {
            self.go_over(calls[at]);
        }
    }

    /// The target of each call walked over, in turn. Takes no memory.
    pub fn targets(&self) -> &[Option<Object>]
        ensures { result.now ≡ self.now.targets }
    {
        &self.targets
    }

    /// Whether the object is there after the calls. Takes no memory.
    pub fn contains(&self, object: Object) -> bool
        ensures { result ≡ is_live self.now.shapes.objects object }
    {
        match object {
            Object::Matrix(a) => self.shapes.matrix(a).is_some(),
            Object::Vector(v) => self.shapes.vector(v).is_some(),
        }
    }
}
