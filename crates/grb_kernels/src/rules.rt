//! The rules by which two maps are made into one.
ghost use Rattle.std.specs.Prelude.{◌≡◌, refl, Option, Some, None, true, false, not};
ghost use Rattle.std.specs.Option.{option_or};
ghost use Rattle.grb_core.specs.declared.value.Value.{Value};
ghost use Rattle.grb_core.specs.Operator.{value_of_op};
ghost use Rattle.grb_core.specs.Written.{either_value, both_values};
ghost use Rattle.grb_kernels.specs.Masked.{by_mask, by_mask-none, by_mask-unwanted};

use crate::merging::Rule;
use crate::operators::Operator;
use crate::scalar::{Scalar, chosen};
use std::marker::PhantomData;

/// The operator's value where both maps store one, else the one value: eWiseAdd, and the accumulator.
#[derive(Drop)]
pub struct Either<O> {
    /// The operator, as a type.
    pub op: PhantomData<O>,
}

impl<T: Scalar, O: Operator<T>> Rule<T, T> for Either<O> {
    ghost gives = { λ rule. either_value (value_of_op O.op) };

    fn pick(&self, x: T, here: bool, y: T, there: bool) -> (T, bool) {
        let both = O::apply(x, y);
        let first = chosen(there, both, x);
        (chosen(here, first, y), here | there)
    }

    ghost left = { λ rule. true };

    ghost right = { λ rule. true };

    fn keeps_left(&self) -> bool {
        true
    }

    fn keeps_right(&self) -> bool {
        true
    }

    ghost none = { λ rule. refl };

    ghost left_none = { λ rule e x. cc };

    ghost right_none = { λ rule e y. cc };
}

/// The operator's value where both maps store one: eWiseMult.
#[derive(Drop)]
pub struct Both<O> {
    /// The operator, as a type.
    pub op: PhantomData<O>,
}

impl<T: Scalar, O: Operator<T>> Rule<T, T> for Both<O> {
    ghost gives = { λ rule. both_values (value_of_op O.op) };

    fn pick(&self, x: T, here: bool, y: T, there: bool) -> (T, bool) {
        (O::apply(x, y), here & there)
    }

    ghost left = { λ rule. false };

    ghost right = { λ rule. false };

    fn keeps_left(&self) -> bool {
        false
    }

    fn keeps_right(&self) -> bool {
        false
    }

    ghost none = { λ rule. refl };

    ghost left_none = { λ rule e x. refl };

    ghost right_none = { λ rule e y. refl };
}

/// The first map's value, else the second's.
#[derive(Drop)]
pub struct Over;

impl<T: Scalar> Rule<T, T> for Over {
    ghost gives = { λ rule. option_or };

    fn pick(&self, x: T, here: bool, y: T, there: bool) -> (T, bool) {
        (chosen(here, x, y), here | there)
    }

    ghost left = { λ rule. true };

    ghost right = { λ rule. true };

    fn keeps_left(&self) -> bool {
        true
    }

    fn keeps_right(&self) -> bool {
        true
    }

    ghost none = { λ rule. refl };

    ghost left_none = { λ rule e x. cc };

    ghost right_none = { λ rule e y. cc };
}

/// The first map's values where the second, a mask, lets the index in; or, with `wanted` false, where it does not.
#[derive(Drop)]
pub struct ByMask {
    /// Each stored value of the mask selects its index, and not a true one alone.
    pub structure: bool,
    /// Whether what the mask selects is kept; with `false` it is what it does not select.
    pub wanted: bool,
}

impl<T: Scalar, M: Scalar> Rule<T, M> for ByMask {
    ghost gives = { λ rule. by_mask rule.structure rule.wanted };

    fn pick(&self, x: T, here: bool, y: M, there: bool) -> (T, bool) {
        let lets_in = there & (self.structure | y.is_true());
        (x, here & (lets_in == self.wanted))
    }

    ghost left = { λ rule. not rule.wanted };

    ghost right = { λ rule. false };

    fn keeps_left(&self) -> bool {
        !self.wanted
    }

    fn keeps_right(&self) -> bool {
        false
    }

    ghost none = { λ rule. by_mask-none rule.structure rule.wanted None };

    ghost left_none = { λ rule e x. by_mask-unwanted rule.structure rule.wanted x e };

    ghost right_none = { λ rule e y. by_mask-none rule.structure rule.wanted (Some y) };
}
