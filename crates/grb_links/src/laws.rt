//! What links rely on, beyond the laws of `grb_slices`.
ghost use Rattle.grb_links.specs.Overwrites.{OverwrittenIsNotRead};

/// An operation without mask, accumulator and complement, and a clear, leave the same whatever their output stored: of what it held they
/// read its domain and its dimensions alone.
pub fn an_overwritten_output_is_not_read()
    ensures { OverwrittenIsNotRead }
{}
