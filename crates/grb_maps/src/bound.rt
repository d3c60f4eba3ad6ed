//! Functions of one value as operators with one argument bound, each operator as a type.
ghost use Rattle.std.specs.Prelude.{◌≡◌};
ghost use Rattle.grb_core.specs.Operator.{value_of_op};

use crate::changing::Change;
use grb_kernels::{Operator, Scalar};
use std::marker::PhantomData;

/// The operator of a value and each entry's, in this order.
#[derive(Drop)]
pub(crate) struct BoundFirst<T: Scalar, O> {
    pub(crate) x: T,
    pub(crate) op: PhantomData<O>,
}

impl<T: Scalar, O: Operator<T>> Change<T> for BoundFirst<T, O> {
    ghost gives = { λ s v. value_of_op O.op (T.value s.x) v };

    fn of(&self, v: T) -> T {
        O::apply(self.x, v)
    }
}

/// The operator of each entry's value and this one, in this order.
#[derive(Drop)]
pub(crate) struct BoundSecond<T: Scalar, O> {
    pub(crate) x: T,
    pub(crate) op: PhantomData<O>,
}

impl<T: Scalar, O: Operator<T>> Change<T> for BoundSecond<T, O> {
    ghost gives = { λ s v. value_of_op O.op v (T.value s.x) };

    fn of(&self, v: T) -> T {
        O::apply(v, self.x)
    }
}
