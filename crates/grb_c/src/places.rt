//! How many more objects a chain has place for.
ghost use Rattle.std.specs.Prelude.{◌≡◌, ◌<◌, ◌+◌, ◌*◌, ◌≤◌};
ghost use Rattle.grb_c.specs.Chains.{TellsObjectsLeft, TellsObjectsLeftOf};

use crate::handle::TrbPass;
use crate::session::Kind;
use grb_codes::{INVALID_VALUE, SUCCESS, UNINITIALIZED_OBJECT};
use std::alloc::Global;

/// How many more objects there is place for, of a member.
fn put_objects_left(kind: &Kind, out: &mut u64) -> i32
    ensures { TellsObjectsLeftOf kind.now result out.old out.new }
{
    match kind {
        Kind::Bounded(_) => INVALID_VALUE,
        Kind::Member(member) => {
            *out = member.objects_left();
            SUCCESS
        }
    }
}

/// Tells how many more objects the chain of a member has place for, as far as the member knows: 0 where a call that makes one is refused.
#[unsafe(no_mangle)]
pub extern "C" fn trb_chain_objects_left(alloc: Global, pass: &mut TrbPass, out: &mut u64) -> i32
    ensures same { pass.new.raw.session ≡ pass.old.raw.session }
    ensures tells { TellsObjectsLeft pass.old.raw.session result out.old out.new }
{
    let Some(session) = pass.take(alloc) else {
        return UNINITIALIZED_OBJECT;
    };
    let code = put_objects_left(&session.kind, out);
    pass.put(session);
    code
}
