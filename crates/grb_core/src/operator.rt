//! Binary operators, and the value of each on two values.
ghost use Rattle.std.specs.Prelude.{◌≡◌};
ghost use Rattle.grb_core.specs.Value.{value_domain};
ghost use Rattle.grb_core.specs.Operator.{op_domain, value_of_op, on_bools, on_numbers};

use crate::domain::Domain;
use crate::value::Value;

/// A binary operator: both arguments and the result are of its one domain.
///
/// Source: GraphBLAS C API 2.0, "Binary operators", of the types `GrB_BOOL` and `GrB_UINT64`.
#[derive(Clone, Copy, Debug, PartialEq, Eq)]
pub enum BinaryOp {
    /// True where one of both is true (`GrB_LOR`).
    Lor,
    /// True where both are true (`GrB_LAND`).
    Land,
    /// True where both differ (`GrB_LXOR`).
    Lxor,
    /// True where both are equal (`GrB_LXNOR`).
    Lxnor,
    /// The first of two truth values (`GrB_FIRST_BOOL`).
    FirstBool,
    /// The second of two truth values (`GrB_SECOND_BOOL`).
    SecondBool,
    /// The sum modulo 2^64 (`GrB_PLUS_UINT64`).
    Plus,
    /// The product modulo 2^64 (`GrB_TIMES_UINT64`).
    Times,
    /// The smaller (`GrB_MIN_UINT64`).
    Min,
    /// The larger (`GrB_MAX_UINT64`).
    Max,
    /// The difference modulo 2^64 (`GrB_MINUS_UINT64`).
    Minus,
    /// The first of two numbers (`GrB_FIRST_UINT64`).
    First,
    /// The second of two numbers (`GrB_SECOND_UINT64`).
    Second,
}

impl BinaryOp {
    /// The domain of both arguments and of the result.
    pub fn domain(self) -> Domain
        ensures { result ≡ op_domain self }
    {
        match self {
            BinaryOp::Lor
            | BinaryOp::Land
            | BinaryOp::Lxor
            | BinaryOp::Lxnor
            | BinaryOp::FirstBool
            | BinaryOp::SecondBool => Domain::Bool,
            BinaryOp::Plus
            | BinaryOp::Times
            | BinaryOp::Min
            | BinaryOp::Max
            | BinaryOp::Minus
            | BinaryOp::First
            | BinaryOp::Second => Domain::Uint64,
        }
    }
}

/// What an operator of truth values makes of two of them, in this order.
fn apply_bool(op: BinaryOp, a: bool, b: bool) -> bool
    ensures { result ≡ on_bools op a b }
{
    match op {
        BinaryOp::Lor => a | b,
        BinaryOp::Land => a & b,
        BinaryOp::Lxor => a ^ b,
        BinaryOp::Lxnor => a == b,
        BinaryOp::SecondBool => b,
        _ => a,
    }
}

/// What an operator of numbers makes of two of them, in this order, modulo 2^64.
fn apply_number(op: BinaryOp, a: u64, b: u64) -> u64
    ensures { result ≡ on_numbers op a b }
{
    match op {
        BinaryOp::Plus => a.wrapping_add(b),
        BinaryOp::Times => a.wrapping_mul(b),
        BinaryOp::Min => a.min(b),
        BinaryOp::Max => a.max(b),
        BinaryOp::Minus => a.wrapping_sub(b),
        BinaryOp::Second => b,
        _ => a,
    }
}

/// What the operator makes of two values of its domain. Arithmetic is modulo 2^64, as that of C's unsigned numbers (own). Takes no
/// memory.
///
/// Source: GraphBLAS C API 2.0, "Binary operators".
pub fn apply(op: BinaryOp, a: Value, b: Value) -> Value
    requires left { value_domain a ≡ op_domain op }
    requires right { value_domain b ≡ op_domain op }
    ensures { result ≡ value_of_op op a b }
{
    match (a, b) {
        (Value::Bool(a), Value::Bool(b)) => Value::Bool(apply_bool(op, a, b)),
        (Value::Uint64(a), Value::Uint64(b)) => Value::Uint64(apply_number(op, a, b)),
        _ => a,
    }
}
