//! A value of one of the domains.
ghost use Rattle.std.specs.Prelude.{◌≡◌};
ghost use Rattle.grb_core.specs.Value.{value_domain};

use crate::domain::Domain;

/// One stored value. A stored `false` or 0 is a value like any other.
///
/// Source: GraphBLAS C API 2.0, "Types (domains)".
#[derive(Clone, Copy, Debug, PartialEq, Eq)]
pub enum Value {
    /// A truth value, of the domain `Bool`.
    Bool(bool),
    /// A whole number from 0 to 2^64 - 1, of the domain `Uint64`.
    Uint64(u64),
}

impl Value {
    /// The domain that the value is of.
    pub fn domain(self) -> Domain
        ensures { result ≡ value_domain self }
    {
        match self {
            Value::Bool(_) => Domain::Bool,
            Value::Uint64(_) => Domain::Uint64,
        }
    }
}
