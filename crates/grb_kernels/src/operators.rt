//! Each operator as a type, so that a kernel is made for it and has no choice in its loop.
//!
//! Source: GraphBLAS C API 2.0, "Binary operators". Arithmetic is modulo 2^64, as that of C's unsigned numbers (own).
ghost use Rattle.std.specs.Prelude.{◌≡◌};
ghost use Rattle.grb_core.specs.declared.value.Value.{Value};
ghost use Rattle.grb_core.specs.declared.operator.BinaryOp.{BinaryOp};
ghost use Rattle.grb_core.specs.declared.operator.BinaryOp.TheVariants as op;
ghost use Rattle.grb_core.specs.Operator.{value_of_op};

use crate::scalar::Scalar;

/// An operator on values of the type `T`.
pub trait Operator<T: Scalar> {
    /// The operator that it is.
    ghost op: { BinaryOp };

    /// What it makes of two values.
    fn apply(a: T, b: T) -> T
        ensures { T.value result ≡ value_of_op op (T.value a) (T.value b) };
}

/// True where one of both is true.
#[derive(Drop)]
pub struct Lor;

impl Operator<bool> for Lor {
    ghost op = { op.Lor };

    fn apply(a: bool, b: bool) -> bool {
        a | b
    }
}

/// True where both are true.
#[derive(Drop)]
pub struct Land;

impl Operator<bool> for Land {
    ghost op = { op.Land };

    fn apply(a: bool, b: bool) -> bool {
        a & b
    }
}

/// True where both differ.
#[derive(Drop)]
pub struct Lxor;

impl Operator<bool> for Lxor {
    ghost op = { op.Lxor };

    fn apply(a: bool, b: bool) -> bool {
        a ^ b
    }
}

/// True where both are equal.
#[derive(Drop)]
pub struct Lxnor;

impl Operator<bool> for Lxnor {
    ghost op = { op.Lxnor };

    fn apply(a: bool, b: bool) -> bool {
        a == b
    }
}

/// The first of two truth values.
#[derive(Drop)]
pub struct FirstBool;

impl Operator<bool> for FirstBool {
    ghost op = { op.FirstBool };

    fn apply(a: bool, _b: bool) -> bool {
        a
    }
}

/// The second of two truth values.
#[derive(Drop)]
pub struct SecondBool;

impl Operator<bool> for SecondBool {
    ghost op = { op.SecondBool };

    fn apply(_a: bool, b: bool) -> bool {
        b
    }
}

/// The sum modulo 2^64.
#[derive(Drop)]
pub struct Plus;

impl Operator<u64> for Plus {
    ghost op = { op.Plus };

    fn apply(a: u64, b: u64) -> u64 {
        a.wrapping_add(b)
    }
}

/// The product modulo 2^64.
#[derive(Drop)]
pub struct Times;

impl Operator<u64> for Times {
    ghost op = { op.Times };

    fn apply(a: u64, b: u64) -> u64 {
        a.wrapping_mul(b)
    }
}

/// The smaller.
#[derive(Drop)]
pub struct Min;

impl Operator<u64> for Min {
    ghost op = { op.Min };

    fn apply(a: u64, b: u64) -> u64 {
        a.min(b)
    }
}

/// The larger.
#[derive(Drop)]
pub struct Max;

impl Operator<u64> for Max {
    ghost op = { op.Max };

    fn apply(a: u64, b: u64) -> u64 {
        a.max(b)
    }
}

/// The difference modulo 2^64.
#[derive(Drop)]
pub struct Minus;

impl Operator<u64> for Minus {
    ghost op = { op.Minus };

    fn apply(a: u64, b: u64) -> u64 {
        a.wrapping_sub(b)
    }
}

/// The first of two numbers.
#[derive(Drop)]
pub struct First;

impl Operator<u64> for First {
    ghost op = { op.First };

    fn apply(a: u64, _b: u64) -> u64 {
        a
    }
}

/// The second of two numbers.
#[derive(Drop)]
pub struct Second;

impl Operator<u64> for Second {
    ghost op = { op.Second };

    fn apply(_a: u64, b: u64) -> u64 {
        b
    }
}
