//! Monoids, and the identity of each.
ghost use Rattle.std.specs.Prelude.{◌≡◌};
ghost use Rattle.grb_core.specs.Value.{IsValueOf};
ghost use Rattle.grb_core.specs.Operator.{value_of_op};
ghost use Rattle.grb_core.specs.Monoid.{monoid_op, monoid_domain, identity_of, IsCommutativeMonoid};

use crate::domain::Domain;
use crate::operator::BinaryOp;
use crate::value::Value;

/// An operator that is associative and commutative, with the value that changes no other under it.
///
/// Source: GraphBLAS C API 2.0, "Monoids", of the types `GrB_BOOL` and `GrB_UINT64`.
#[derive(Clone, Copy, Debug, PartialEq, Eq)]
pub enum Monoid {
    /// True where one is true; identity false (`GrB_LOR_MONOID_BOOL`).
    Lor,
    /// True where all are true; identity true (`GrB_LAND_MONOID_BOOL`).
    Land,
    /// True where an odd number of the values are true; identity false (`GrB_LXOR_MONOID_BOOL`).
    Lxor,
    /// True where an even number of the values are false, as where none is; identity true (`GrB_LXNOR_MONOID_BOOL`).
    Lxnor,
    /// The sum modulo 2^64; identity 0 (`GrB_PLUS_MONOID_UINT64`).
    Plus,
    /// The product modulo 2^64; identity 1 (`GrB_TIMES_MONOID_UINT64`).
    Times,
    /// The smallest; identity 2^64 - 1 (`GrB_MIN_MONOID_UINT64`).
    Min,
    /// The largest; identity 0 (`GrB_MAX_MONOID_UINT64`).
    Max,
}

impl Monoid {
    /// The domain of the values that it combines.
    pub fn domain(self) -> Domain
        ensures { result ≡ monoid_domain self }
    {
        self.op().domain()
    }

    /// The operator that combines two values.
    pub fn op(self) -> BinaryOp
        ensures { result ≡ monoid_op self }
    {
        match self {
            Monoid::Lor => BinaryOp::Lor,
            Monoid::Land => BinaryOp::Land,
            Monoid::Lxor => BinaryOp::Lxor,
            Monoid::Lxnor => BinaryOp::Lxnor,
            Monoid::Plus => BinaryOp::Plus,
            Monoid::Times => BinaryOp::Times,
            Monoid::Min => BinaryOp::Min,
            Monoid::Max => BinaryOp::Max,
        }
    }
}

/// The value that changes no other of the domain under the monoid. The clause `laws` is the laws of the monoid itself, over all
/// values of its domain. Takes no memory.
///
/// Source: GraphBLAS C API 2.0, "Monoids".
#[tactic(auto, using(crate::proofs::MonoidLaws::monoid_laws))]
pub fn identity(m: Monoid) -> Value
    ensures value { result ≡ identity_of m }
    ensures laws { IsCommutativeMonoid (IsValueOf (monoid_domain m)) (value_of_op (monoid_op m)) (identity_of m) }
{
    match m {
        Monoid::Lor | Monoid::Lxor => Value::Bool(false),
        Monoid::Land | Monoid::Lxnor => Value::Bool(true),
        Monoid::Plus | Monoid::Max => Value::Uint64(0),
        Monoid::Times => Value::Uint64(1),
        Monoid::Min => Value::Uint64(u64::MAX),
    }
}
