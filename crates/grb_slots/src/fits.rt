//! What is to hold of a value in a slot.
ghost use Rattle.std.specs.Prelude.{ℕ, IfSome};

/// A fact about each value of a row, by the row's tag and the index of the value's slot.
pub trait FitsAt {
    type Tag;

    ghost fits: { Self.Tag → ℕ → Self → Type 0 };
}

impl<X: FitsAt> FitsAt for Option<X> {
    type Tag = X::Tag;

    ghost fits = { λ tag k x. IfSome x (X.fits tag k) };
}
