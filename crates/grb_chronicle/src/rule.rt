//! The rule of the book that a chronicle is, and what its steps tell. No value of these types is made.
use logbook::{Gain, Opening, Plain, Play, Rule};
use std::marker::PhantomData;

/// What a chronicle tells of a generation.
pub trait Chained {
    // which generation may come after which
    ghost follows: { Self → Self → Type 0 };

    // some generation, which a step names that adds none
    ghost any: { Self };
}

/// How a value that is at hand tells of a generation.
pub trait Telling<X, E> {
    ghost told: { X → E };
}

/// The rule of the book: each generation in the list follows the one before it, and the word is the number of the last.
pub struct Law<E: Chained> {
    marker: PhantomData<E>,
}

impl<E: Chained> Rule<E, u64> for Law<E> {
    ghost use Rattle.std.specs.Prelude.{[]};
    ghost use base.Fml.{ftrue};
    ghost use Rattle.grb_chronicle.specs.Steps.{IsKept};

    ghost holds = { λ cells log. IsKept E.follows cells log };

    ghost first = { [] };

    ghost hinted = { λ n log. Unit {0} };

    ghost shows = { λ log. [] };

    ghost keeps = { λ names log. ftrue };

    ghost moves = { λ ask before after answer. Unit {0} };
}

/// Threads trade nothing.
pub struct Nothing;

impl<E> Gain<E, u64> for Nothing {
    ghost use base.Fml.{ftrue};

    ghost after = { λ names about answer. ftrue };
}

/// The step that adds a generation.
pub struct Turn<E: Chained> {
    marker: PhantomData<E>,
}

impl<E: Chained> Play<E, u64> for Turn<E> {
    ghost use Rattle.grb_chronicle.specs.Steps.{Turns};

    ghost then = { Turns E.follows };
}

/// What a step asks for: the generation that it adds.
pub struct Asking<M> {
    marker: PhantomData<M>,
}

impl<X, E, M: Telling<X, E>> Plain<X, E, u64> for Asking<M> {
    ghost use Rattle.std.specs.Prelude.{None};

    ghost ask = { λ x. M.told x };

    ghost state = { λ x. None };
}

impl<X, E, M: Telling<X, E>> Opening<X, E> for Asking<M> {
    ghost use Rattle.std.specs.Prelude.{[], ◌∷◌};

    ghost log = { λ count x. M.told x ∷ [] };
}
