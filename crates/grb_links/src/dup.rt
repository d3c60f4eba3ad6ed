//! Which calls make an object that is equal to another.
ghost use Rattle.std.specs.Prelude.{◌≡◌};
ghost use Rattle.grb_links.specs.Dup.{is_dup};

use grb_call::Call;

/// Whether the call makes an object that is equal to another. Takes no memory.
pub fn is_dup(call: &Call) -> bool
    ensures { result ≡ is_dup call.now }
{
    matches!(call, Call::DupMatrix { .. } | Call::DupVector { .. })
}
