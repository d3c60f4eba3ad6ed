//! The rule of the row, which holds between any two steps of any threads, and what a step tells. Of these types only a `Key` is ever made.
use crate::fits::FitsAt;
use atomic_table::{Play, TableRule};
use std::marker::PhantomData;
use std::snapshot::Snapshot;

/// What is fixed with a row: the tag, and the values with which it was opened. It has no bytes.
pub struct Key<X, T> {
    pub(crate) tag: Snapshot<T>,
    pub(crate) first: Snapshot<Vec<X>>,
}

impl<X, T> Drop for Key<X, T> {
    fn drop(self) {
        let Self { tag: _, first: _ } = self;
    }
}

/// What a thread knows that visits a slot: the tag, the index, what it found there, and what it left there, once it has.
pub struct Visitor<X, T> {
    pub(crate) tag: T,
    pub(crate) at: u64,
    pub(crate) found: Option<X>,
    pub(crate) left: Option<X>,
}

/// What is known of a row: in each slot lies what came of its first value by all visits, and that fits; or the last visit has not ended.
pub struct Rule<X: FitsAt> {
    marker: PhantomData<X>,
}

impl<X: FitsAt> TableRule<Option<X>, Visitor<X, X::Tag>, Key<X, X::Tag>> for Rule<X> {
    ghost use Rattle.grb_slots.specs.Rule.{IsKept, no_visit};

    ghost holds = { λ key state. IsKept (X.fits key.tag.value) key.first.value.items state };

    ghost first = { λ key. no_visit key.tag.value };
}

/// The step that closes a slot: where it was open, who made the step has the slot now.
pub struct Closing<X: FitsAt> {
    marker: PhantomData<X>,
}

impl<X: FitsAt> Play<Option<X>, Visitor<X, X::Tag>> for Closing<X> {
    ghost use Rattle.grb_slots.specs.Rule.{closed};

    ghost then = { λ step before found after. closed (X.fits before.0.tag) before.0.tag step.word found after };
}

/// The step that opens it again, with what the thread put there.
pub struct Opening;

impl<X, T> Play<Option<X>, Visitor<X, T>> for Opening {
    ghost use Rattle.grb_slots.specs.Rule.{opened};

    ghost then = { λ step before found after. opened before after };
}
