//! The values of one domain as values of one Rust type.
ghost use Rattle.std.specs.Prelude.{◌≡◌, if◌then◌else◌};
ghost use Rattle.grb_core.specs.declared.value.Value.{Value};
ghost use Rattle.grb_core.specs.declared.value.Value.TheVariants as value;
ghost use Rattle.grb_core.specs.declared.domain.Domain.{Domain};
ghost use Rattle.grb_core.specs.declared.domain.Domain.TheVariants as domain;
ghost use Rattle.grb_core.specs.Mask.{is_true_value};

/// A Rust type whose values stand for those of one domain.
pub trait Scalar: Copy {
    /// The value that it stands for.
    ghost value: { Self → Value };

    /// The domain of that value.
    ghost domain: { Domain };

    /// Whether a mask that stores it, read by value, selects its index.
    fn is_true(self) -> bool
        ensures { result ≡ is_true_value (value self) };

    /// Some value, to fill a place that is written before it is read.
    fn any() -> Self;
}

impl Scalar for bool {
    ghost value = { λ b. value.Bool b };

    ghost domain = { domain.Bool };

    fn is_true(self) -> bool {
        self
    }

    fn any() -> bool {
        false
    }
}

impl Scalar for u64 {
    ghost value = { λ n. value.Uint64 n };

    ghost domain = { domain.Uint64 };

    fn is_true(self) -> bool {
        self != 0
    }

    fn any() -> u64 {
        0
    }
}

/// The first value where it is wanted, else the second. Takes no memory.
///
/// Source: own.
pub fn chosen<T: Scalar>(wanted: bool, first: T, second: T) -> T
    ensures { result ≡ (if wanted then first else second) }
{
    if wanted { first } else { second }
}
