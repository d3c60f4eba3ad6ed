//! The choice from a monoid, and from a semiring, to the types that stand for them: made once a call, and in one place.
ghost use Rattle.std.specs.Prelude.{◌≡◌, ◌≢◌, false, All};
ghost use Rattle.grb_core.specs.Value.{IsValueOf};
ghost use Rattle.grb_core.specs.declared.monoid.Monoid.{Monoid as MonoidOf};
ghost use Rattle.grb_core.specs.Monoid.{monoid_domain};
ghost use Rattle.grb_core.specs.Operator.{op_domain};
ghost use Rattle.grb_core.specs.Semiring.{SemiringParts};

use crate::monoids::MonoidOver;
use grb_core::{BinaryOp, Monoid, Semiring};
use grb_kernels::operators::{Land, Lor, Lxnor, Lxor, Max, Min, Plus, Times};
use grb_kernels::{ByOperator, Operated, Operator, Scalar};
use std::marker::PhantomData;

/// What is made by a monoid on values of the type `T`, whichever it is.
pub trait ByMonoid<T: Scalar> {
    /// What comes of it.
    type Output;

    /// That this comes of it by that monoid.
    ghost Gives: { Self → MonoidOf → Self.Output → Type 0 };

    /// Makes it by a monoid as a type.
    fn by<M: MonoidOver<T>>(self) -> Self::Output
        ensures { Gives self M.monoid result };
}

/// What is made by a semiring on values of the type `T`, whichever it is.
pub trait BySemiring<T: Scalar> {
    /// What comes of it.
    type Output;

    /// That this comes of it by that semiring.
    ghost Gives: { Self → SemiringParts → Self.Output → Type 0 };

    /// Makes it by a monoid and an operator as types.
    fn by<M: MonoidOver<T>, O: Operator<T>>(self) -> Self::Output
        ensures { Gives self (record { monoid = M.monoid; op = O.op }) result };
}

/// A Rust type that has the monoids of its domain.
pub trait Folded: Operated {
    /// What reading values shows: they are of the domain. Takes no time.
    fn read_all(values: &[Self])
        ensures { All (λ x. IsValueOf Self.domain (Self.value x)) values.now };

    /// Whether two values are the same one.
    fn is_same(self, other: Self) -> bool
        ensures { result ≡ false → Self.value self ≢ Self.value other };

    /// Makes what a monoid of the domain makes, by the type that stands for it.
    fn choose_monoid<F: ByMonoid<Self>>(monoid: Monoid, made: F) -> F::Output
        requires domain { monoid_domain monoid ≡ Self.domain }
        ensures { F.Gives made monoid result };
}

impl Folded for bool {
    fn read_all(_values: &[bool]) {}

    fn is_same(self, other: bool) -> bool {
        self == other
    }

    fn choose_monoid<F: ByMonoid<bool>>(monoid: Monoid, made: F) -> F::Output {
        match monoid {
            Monoid::Lor => made.by::<Lor>(),
            Monoid::Land => made.by::<Land>(),
            Monoid::Lxor => made.by::<Lxor>(),
            Monoid::Lxnor => made.by::<Lxnor>(),
            Monoid::Plus | Monoid::Times | Monoid::Min | Monoid::Max => unreachable!(),
        }
    }
}

impl Folded for u64 {
    fn read_all(_values: &[u64]) {}

    fn is_same(self, other: u64) -> bool {
        self == other
    }

    fn choose_monoid<F: ByMonoid<u64>>(monoid: Monoid, made: F) -> F::Output {
        match monoid {
            Monoid::Plus => made.by::<Plus>(),
            Monoid::Times => made.by::<Times>(),
            Monoid::Min => made.by::<Min>(),
            Monoid::Max => made.by::<Max>(),
            Monoid::Lor | Monoid::Land | Monoid::Lxor | Monoid::Lxnor => unreachable!(),
        }
    }
}

/// What is made by a semiring whose monoid is chosen.
#[derive(Drop)]
struct WithMonoid<M, F> {
    made: F,
    of: PhantomData<M>,
}

impl<T: Scalar, M: MonoidOver<T>, F: BySemiring<T> + Drop> ByOperator<T> for WithMonoid<M, F> {
    type Output = F::Output;

    ghost Gives = { λ w op result. F.Gives w.made (record { monoid = M.monoid; op = op }) result };

    fn by<O: Operator<T>>(self) -> F::Output {
        self.made.by::<M, O>()
    }
}

/// What is made by a semiring with this operator.
#[derive(Drop)]
struct WithOperator<T: Scalar, F> {
    op: BinaryOp,
    made: F,
    of: PhantomData<T>,
    ghost domain: { op_domain op ≡ T.domain },
}

impl<T: Operated, F: BySemiring<T> + Drop> ByMonoid<T> for WithOperator<T, F> {
    type Output = F::Output;

    ghost Gives = { λ w monoid result. F.Gives w.made (record { monoid = monoid; op = w.op }) result };

    fn by<M: MonoidOver<T>>(self) -> F::Output {
        let with: WithMonoid<M, F> = WithMonoid {
            made: self.made,
            of: PhantomData,
        };
        T::choose(self.op, with)
    }
}

/// Makes what a semiring of the domain makes, by the types that stand for its monoid and its operator.
pub fn by_semiring<T: Folded, F: BySemiring<T> + Drop>(semiring: Semiring, made: F) -> F::Output
    requires monoid { monoid_domain semiring.monoid ≡ T.domain }
    requires op { op_domain semiring.op ≡ T.domain }
    ensures { F.Gives made semiring result }
{
    let with: WithOperator<T, F> = WithOperator {
        op: semiring.op(),
        made,
        of: PhantomData,
    };
    T::choose_monoid(semiring.monoid(), with)
}
