//! The choice from an operator to the type that stands for it: made once a call, and in one place.
ghost use Rattle.std.specs.Prelude.{◌≡◌};
ghost use Rattle.grb_core.specs.declared.operator.BinaryOp.{BinaryOp as Op};
ghost use Rattle.grb_core.specs.Operator.{op_domain};

use crate::operators::{
    First, FirstBool, Land, Lor, Lxnor, Lxor, Max, Min, Minus, Operator, Plus, Second, SecondBool,
    Times,
};
use crate::scalar::Scalar;
use grb_core::BinaryOp;

/// What is made by an operator on values of the type `T`, whichever it is.
pub trait ByOperator<T: Scalar> {
    /// What comes of it.
    type Output;

    /// That this comes of it by that operator.
    ghost Gives: { Self → Op → Self.Output → Type 0 };

    /// Makes it by an operator as a type.
    fn by<O: Operator<T>>(self) -> Self::Output
        ensures { Gives self O.op result };
}

/// A Rust type that has the operators of its domain.
pub trait Operated: Scalar {
    /// Makes what an operator of the domain makes, by the type that stands for it.
    fn choose<F: ByOperator<Self>>(op: BinaryOp, made: F) -> F::Output
        requires domain { op_domain op ≡ Self.domain }
        ensures { F.Gives made op result };
}

impl Operated for bool {
    fn choose<F: ByOperator<bool>>(op: BinaryOp, made: F) -> F::Output {
        match op {
            BinaryOp::Lor => made.by::<Lor>(),
            BinaryOp::Land => made.by::<Land>(),
            BinaryOp::Lxor => made.by::<Lxor>(),
            BinaryOp::Lxnor => made.by::<Lxnor>(),
            BinaryOp::FirstBool => made.by::<FirstBool>(),
            BinaryOp::SecondBool => made.by::<SecondBool>(),
            _ => unreachable!(),
        }
    }
}

impl Operated for u64 {
    fn choose<F: ByOperator<u64>>(op: BinaryOp, made: F) -> F::Output {
        match op {
            BinaryOp::Plus => made.by::<Plus>(),
            BinaryOp::Times => made.by::<Times>(),
            BinaryOp::Min => made.by::<Min>(),
            BinaryOp::Max => made.by::<Max>(),
            BinaryOp::Minus => made.by::<Minus>(),
            BinaryOp::First => made.by::<First>(),
            BinaryOp::Second => made.by::<Second>(),
            _ => unreachable!(),
        }
    }
}
