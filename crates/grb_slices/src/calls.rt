//! A list of calls that is read call by call.
ghost use Rattle.std.specs.Prelude.{◌≡◌, ◌<◌, List, Some, length, map, slice_get};
ghost use Rattle.grb_call.specs.declared.call.Call.{Call};

use grb_call::Call;

/// A list of calls. A source holds the calls and lends each for itself, so that only those are read that are needed (own).
///
/// `calls` are the calls, where the source holds them by `is_in`.
pub trait CallList<S> {
    ghost is_in: { S → Self → Type 0 };

    ghost calls: { S → Self → List Call };

    /// The call at this place, from 0. Takes no memory. The list stays as it is.
    fn call_at<'a>(&mut self, source: &'a S, at: usize) -> &'a Call
        requires held { is_in source.now self.old }
        requires at { at < length (calls source.now self.old) }
        ensures call { slice_get (calls source.now self.old) at ≡ Some result.now }
        ensures same { self.new ≡ self.old };
}

/// Calls that are lent together (own).
#[derive(Drop)]
pub struct LentCalls<'a, 'b> {
    /// The calls, in turn.
    pub calls: &'b [&'a Call],
}

impl<'a, 'b> CallList<LentCalls<'a, 'b>> for () {
    ghost is_in = { λ s l. Unit {0} };

    ghost calls = { λ s l. map (λ c. c.now) s.calls.now };

    fn call_at<'c>(&mut self, source: &'c LentCalls<'a, 'b>, at: usize) -> &'c Call {
        source.calls[at]
    }
}
