//! What calls cost, by themselves. No contract knows any of it: whatever it is bears on time and memory alone. One unit is what the copy of
//! an entry costs.

use grb_call::{Call, Class};

/// An edit, whatever it changes; and each other call, next to what its entries cost.
pub const EDIT_WORK: u64 = 64;

/// An entry of the result of an operation.
const ENTRY: u64 = 2;

/// An entry of the result of a product of two matrices.
const PRODUCT_ENTRY: u64 = 16;

/// A tuple of a build.
const TUPLE: u64 = 8;

/// What an operation may cost whose inputs are not known yet: as much as 4,096 edits.
pub const UNKNOWN_WORK: u64 = 4096 * EDIT_WORK;

/// So many calls are many.
pub const MANY_CALLS: u32 = 64;

/// How many tuples the call has to look at, to build of them.
fn tuples_of(call: &Call) -> usize {
    match call {
        Call::BuildMatrix { tuples, .. } => tuples.listed(),
        Call::BuildVector { tuples, .. } => tuples.listed(),
        _ => 0,
    }
}

/// What an entry of the result of the call costs.
fn entry_cost(call: &Call) -> u64 {
    match call {
        Call::Mxm { .. } => PRODUCT_ENTRY,
        _ => ENTRY,
    }
}

/// What the call costs, which makes an object or computes one of so many entries.
pub fn work_of(call: &Call, entries: u64) -> u64 {
    match call.class() {
        Class::Operates => entries
            .saturating_mul(entry_cost(call))
            .saturating_add(EDIT_WORK),
        Class::Makes => match call {
            Call::Diag { .. } => entries.saturating_mul(ENTRY).saturating_add(EDIT_WORK),
            _ => EDIT_WORK,
        },
        Class::Edits | Class::Reads(_) | Class::AsksDimensions => EDIT_WORK,
    }
}

/// What the call costs, which edits an object where it lies.
pub fn work_of_edit(call: &Call) -> u64 {
    (tuples_of(call) as u64)
        .saturating_mul(TUPLE)
        .saturating_add(EDIT_WORK)
}

/// Whether the call edits an object in the time of one entry: it is no build.
pub fn is_short_edit(call: &Call) -> bool {
    tuples_of(call) == 0
}
