//! Functions of one value: unary operators, and binary operators with one argument bound.
ghost use Rattle.std.specs.Prelude.{◌≡◌};
ghost use Rattle.grb_core.specs.Value.{value_domain};
ghost use Rattle.grb_core.specs.Functions.{IsFunctionOf, turns_input, unary_domain, value_of_function, value_of_unary};

use crate::domain::Domain;
use crate::operator::{BinaryOp, apply};
use crate::value::Value;

/// A unary operator: argument and result are of its one domain.
///
/// Source: GraphBLAS C API 2.0, "Unary operators", of the types `GrB_BOOL` and `GrB_UINT64`.
#[derive(Clone, Copy, Debug, PartialEq, Eq)]
pub enum UnaryOp {
    /// The number itself (`GrB_IDENTITY_UINT64`).
    Identity,
    /// The truth value itself (`GrB_IDENTITY_BOOL`).
    IdentityBool,
    /// The negative modulo 2^64 (`GrB_AINV_UINT64`).
    Ainv,
    /// The complement of all 64 bits (`GrB_BNOT_UINT64`).
    Bnot,
    /// The negation (`GrB_LNOT`).
    Lnot,
}

impl UnaryOp {
    /// The domain of argument and result.
    pub fn domain(self) -> Domain
        ensures { result ≡ unary_domain self }
    {
        match self {
            UnaryOp::IdentityBool | UnaryOp::Lnot => Domain::Bool,
            UnaryOp::Identity | UnaryOp::Ainv | UnaryOp::Bnot => Domain::Uint64,
        }
    }
}

/// A function of one value, as apply takes it.
///
/// Source: GraphBLAS C API 2.0, "apply": a unary operator, or a binary operator with a bound scalar.
#[derive(Clone, Copy, PartialEq, Eq)]
pub enum Function {
    /// The unary operator.
    Unary(UnaryOp),
    /// The operator of this value and the argument, in this order.
    First(Value, BinaryOp),
    /// The operator of the argument and this value, in this order.
    Second(BinaryOp, Value),
}

/// What a unary operator makes of a value of its domain.
fn apply_unary(op: UnaryOp, a: Value) -> Value
    ensures { result ≡ value_of_unary op a }
{
    match (op, a) {
        (UnaryOp::Ainv, Value::Uint64(n)) => Value::Uint64(0u64.wrapping_sub(n)),
        (UnaryOp::Bnot, Value::Uint64(n)) => Value::Uint64(u64::MAX - n),
        (UnaryOp::Lnot, Value::Bool(b)) => Value::Bool(!b),
        _ => a,
    }
}

/// What the function makes of a value: all that it brings is of the value's domain. Takes no memory.
///
/// Source: GraphBLAS C API 2.0, "apply".
pub fn apply_function(f: Function, a: Value) -> Value
    requires { IsFunctionOf (value_domain a) f }
    ensures { result ≡ value_of_function f a }
{
    match f {
        Function::Unary(op) => apply_unary(op, a),
        Function::First(x, op) => apply(op, x, a),
        Function::Second(op, x) => apply(op, a, x),
    }
}

/// Whether apply reads its input transposed. An object that stands second, since the first argument is bound, is turned by the second input's
/// bit, and any other by the first input's. Takes no memory.
///
/// Source: GraphBLAS C API 2.0, "apply": `GrB_TRAN` of `GrB_INP0` or `GrB_INP1`.
pub fn turns_input(f: Function, tran: bool, tran1: bool) -> bool
    ensures { result ≡ turns_input f tran tran1 }
{
    match f {
        Function::First(..) => tran1,
        Function::Unary(_) | Function::Second(..) => tran,
    }
}
