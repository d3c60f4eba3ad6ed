//! Which value of a product comes first: the vector's, or the matrix's.
ghost use Rattle.std.specs.Prelude.{◌≡◌};
ghost use Rattle.grb_core.specs.declared.value.Value.{Value};
ghost use Rattle.grb_core.specs.declared.operator.BinaryOp.{BinaryOp};
ghost use Rattle.grb_core.specs.Value.{IsValueOf};
ghost use Rattle.grb_core.specs.Operator.{op_domain, value_of_op};
ghost use Rattle.grb_core.proofs.Made.{op_closed};

use grb_kernels::{Operator, Scalar};
use grb_sums::Term;
use std::marker::PhantomData;

/// Which value an operator takes first.
pub trait Side {
    /// What an operator makes of a value of the vector and one of the matrix.
    ghost makes: { BinaryOp → Value → Value → Value };

    /// Makes it, of the vector's value `x` and the matrix's value `y`.
    fn product<T: Scalar, O: Operator<T>>(x: T, y: T) -> T
        ensures { T.value result ≡ makes O.op (T.value x) (T.value y) };

    /// Of two values of the operator's domain it is one of that domain.
    ghost closed: { (op : BinaryOp) (x y : Value) → IsValueOf (op_domain op) x → IsValueOf (op_domain op) y → IsValueOf (op_domain op) (makes op x y) };
}

/// The vector's value comes first, as in vxm.
pub struct VectorFirst;

impl Side for VectorFirst {
    ghost makes = { λ op. λ x. λ y. value_of_op op x y };

    fn product<T: Scalar, O: Operator<T>>(x: T, y: T) -> T {
        O::apply(x, y)
    }

    ghost closed = { λ op x y p q. op_closed op x y p q };
}

/// The matrix's value comes first, as in mxv.
pub struct MatrixFirst;

impl Side for MatrixFirst {
    ghost makes = { λ op. λ x. λ y. value_of_op op y x };

    fn product<T: Scalar, O: Operator<T>>(x: T, y: T) -> T {
        O::apply(y, x)
    }

    ghost closed = { λ op x y p q. op_closed op y x q p };
}

/// A value of the vector, of which the products with those of a row are made.
#[derive(Drop)]
pub(crate) struct Product<T, O, S> {
    pub(crate) x: T,
    pub(crate) of: PhantomData<(O, S)>,
}

impl<T: Scalar, O: Operator<T>, S: Side> Term<T> for Product<T, O, S> {
    ghost gives = { λ term. λ y. S.makes O.op (T.value term.x) y };

    fn of(&self, value: T) -> T {
        S::product::<T, O>(self.x, value)
    }
}
