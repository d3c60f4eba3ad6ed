//! Each monoid as a type, so that a fold is made for it and has no choice in its loop.
//!
//! Source: GraphBLAS C API 2.0, "Monoids".
ghost use Rattle.std.specs.Prelude.{◌≡◌, refl, true, IfSome};
ghost use Rattle.grb_core.specs.declared.value.Value.{Value};
ghost use Rattle.grb_core.specs.declared.monoid.Monoid.{Monoid};
ghost use Rattle.grb_core.specs.declared.monoid.Monoid.TheVariants as monoid;
ghost use Rattle.grb_core.specs.Value.{IsValueOf};
ghost use Rattle.grb_core.specs.Operator.{value_of_op};
ghost use Rattle.grb_core.specs.Monoid.{monoid_op, monoid_domain, identity_of};

use grb_kernels::Scalar;
use grb_kernels::operators::{Land, Lor, Lxnor, Lxor, Max, Min, Plus, Times};

/// A monoid on values of the type `T`.
pub trait MonoidOver<T: Scalar> {
    /// The monoid that it is.
    ghost monoid: { Monoid };

    /// The value that changes no other.
    fn identity() -> T
        ensures { T.value result ≡ identity_of monoid };

    /// What it makes of two values.
    fn add(a: T, b: T) -> T
        ensures { T.value result ≡ value_of_op (monoid_op monoid) (T.value a) (T.value b) };

    /// Whether a fold that meets this value has it as its result, so that the rest need not be read. Where it is not worth a test the
    /// answer is no.
    fn is_terminal(value: T) -> bool
        ensures { result ≡ true → (v : Value) → value_of_op (monoid_op monoid) (T.value value) v ≡ T.value value }
    {
        false
    }

    /// The same of a sum, asked once for many values: whether no value of the domain changes it.
    fn is_final(sum: T) -> bool
        ensures { result ≡ true → (v : Value) → IsValueOf (monoid_domain monoid) v → value_of_op (monoid_op monoid) (T.value sum) v ≡ T.value sum }
    {
        false
    }

    /// What a sum has beyond a part of it, where the two tell that. Else `None`, whatever they are.
    fn difference(sum: T, part: T) -> Option<T>
        ensures { IfSome result (λ rest. (v : Value) → IsValueOf (monoid_domain monoid) v → value_of_op (monoid_op monoid) (T.value part) v ≡ T.value sum → T.value rest ≡ v) }
    {
        None
    }

    /// Its values are those of the type.
    ghost same_domain: { monoid_domain monoid ≡ T.domain };
}

impl MonoidOver<bool> for Lor {
    ghost monoid = { monoid.Lor };

    fn identity() -> bool {
        false
    }

    fn add(a: bool, b: bool) -> bool {
        a | b
    }

    fn is_terminal(value: bool) -> bool {
        value
    }

    fn is_final(sum: bool) -> bool {
        sum
    }

    ghost same_domain = { refl };
}

impl MonoidOver<bool> for Land {
    ghost monoid = { monoid.Land };

    fn identity() -> bool {
        true
    }

    fn add(a: bool, b: bool) -> bool {
        a & b
    }

    fn is_terminal(value: bool) -> bool {
        !value
    }

    fn is_final(sum: bool) -> bool {
        !sum
    }

    ghost same_domain = { refl };
}

impl MonoidOver<bool> for Lxor {
    ghost monoid = { monoid.Lxor };

    fn identity() -> bool {
        false
    }

    fn add(a: bool, b: bool) -> bool {
        a ^ b
    }

    ghost same_domain = { refl };
}

impl MonoidOver<bool> for Lxnor {
    ghost monoid = { monoid.Lxnor };

    fn identity() -> bool {
        true
    }

    fn add(a: bool, b: bool) -> bool {
        a == b
    }

    ghost same_domain = { refl };
}

impl MonoidOver<u64> for Plus {
    ghost monoid = { monoid.Plus };

    fn identity() -> u64 {
        0
    }

    fn add(a: u64, b: u64) -> u64 {
        a.wrapping_add(b)
    }

    fn difference(sum: u64, part: u64) -> Option<u64> {
        Some(sum.wrapping_sub(part))
    }

    ghost same_domain = { refl };
}

impl MonoidOver<u64> for Times {
    ghost monoid = { monoid.Times };

    fn identity() -> u64 {
        1
    }

    fn add(a: u64, b: u64) -> u64 {
        a.wrapping_mul(b)
    }

    fn is_final(sum: u64) -> bool {
        sum == 0
    }

    ghost same_domain = { refl };
}

impl MonoidOver<u64> for Min {
    ghost monoid = { monoid.Min };

    fn identity() -> u64 {
        u64::MAX
    }

    fn add(a: u64, b: u64) -> u64 {
        a.min(b)
    }

    fn is_final(sum: u64) -> bool {
        sum == 0
    }

    ghost same_domain = { refl };
}

impl MonoidOver<u64> for Max {
    ghost monoid = { monoid.Max };

    fn identity() -> u64 {
        0
    }

    fn add(a: u64, b: u64) -> u64 {
        a.max(b)
    }

    fn is_final(sum: u64) -> bool {
        sum == u64::MAX
    }

    ghost same_domain = { refl };
}
