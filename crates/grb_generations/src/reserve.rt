//! What is kept back of the room of a chain, so that objects which are made leave the next generation its room.
//!
//! A generation begins with two calls at most for each object that is there. A call that makes an object is taken only where there is place
//! in the next generation for all objects that there can be at the end of this one: those that were made, and one for each call that it takes
//! yet. That number rises by no call, so what one member has seen stays true whatever others enter. Where there is no place such a call is
//! refused, and calls that free, clear or change objects go on.
ghost use Rattle.std.specs.Prelude.{◌≡◌, ◌+◌, ◌*◌, ◌^◌, ◌<◌, ◌≤◌, false, true};
ghost use Rattle.grb_order.specs.Order.{room_of};
ghost use Rattle.grb_call.specs.Kinds.{class_of};
ghost use Rattle.grb_call.specs.declared.class.Class.TheVariants as Class;
ghost use Rattle.grb_context.specs.Known.{known};
ghost use Rattle.grb_generations.specs.Reserve.{HasPlace, most_objects, most_words};
ghost use Rattle.grb_generations.specs.Seated.{Comes};

use crate::generations::Generations;
use crate::member::Member;
use grb_call::{Call, Class};
use grb_context::{MOST_PLACES, MOST_WORDS};

impl Member {
    /// The most words of a store of the chain.
    fn most_words(&self) -> u64
        ensures { result ≡ most_words self.now.chain.members }
    {
        let generations: &Generations = &self.generations;
        u64::from(MOST_WORDS.min(MOST_PLACES / generations.members))
    }

    /// How many objects there can be where the member's generation ends, as far as it has learnt.
    fn most_objects(&self) -> u64
        ensures count { result ≡ most_objects (room_of self.now.pass.order) (known self.now.pass) }
        ensures few { result < 2 ^ 34 }
    {
        let given = u64::from(self.pass.matrices_given()) + u64::from(self.pass.vectors_given());
        let room = u64::from(self.pass.room_left()) + u64::from(self.pass.words());
        given + room.saturating_sub(u64::from(self.pass.known()))
    }

    /// How many more objects the chain has place for, beside all that there can be where the member's generation ends: 0 where a call that
    /// makes one is refused. It is of what the member knows, and rises where objects are freed and a generation ends. Takes no memory (own).
    pub fn objects_left(&self) -> u64
        ensures place { 0 < result → HasPlace self.now.chain (room_of self.now.pass.order) (known self.now.pass) }
        ensures none { result ≡ 0 → HasPlace self.now.chain (room_of self.now.pass.order) (known self.now.pass) → ⊥ }
        ensures fit { 0 < result → 2 * (most_objects (room_of self.now.pass.order) (known self.now.pass) + result) + self.now.chain.room ≤ most_words self.now.chain.members + 2 }
        ensures no_more { most_words self.now.chain.members < 2 * (most_objects (room_of self.now.pass.order) (known self.now.pass) + result) + self.now.chain.room }
    {
        let words = self.most_words();
        let taken = 2 * self.most_objects() + u64::from(self.generations.room);
        if words < taken {
            return 0;
        }
        (words - taken) / 2 + 1
    }

    /// Whether the call makes an object, for which there is no place.
    pub(crate) fn is_crowded_for(&self, call: &Call) -> bool
        ensures makes { result ≡ true → class_of call.now ≡ Class.Makes }
        ensures none { result ≡ true → HasPlace self.now.chain (room_of self.now.pass.order) (known self.now.pass) → ⊥ }
        ensures place { result ≡ false → class_of call.now ≡ Class.Makes → HasPlace self.now.chain (room_of self.now.pass.order) (known self.now.pass) }
    {
        match call.class() {
            Class::Makes => self.objects_left() == 0,
            Class::Edits | Class::Operates | Class::Reads(_) | Class::AsksDimensions => false,
        }
    }

    /// Looks, where there seems to be no place for what the call makes.
    pub(crate) fn look_for_place(&mut self, call: &Call)
        ensures comes { Comes self.old self.new }
        ensures generation { self.new.generation ≡ self.old.generation }
    {
        if self.is_crowded_for(call) {
            self.look();
        }
    }
}
