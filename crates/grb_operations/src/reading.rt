//! What a call reads of one object, by what it holds.
ghost use Rattle.std.specs.Prelude.{◌≡◌, Some, None};
ghost use Rattle.std.specs.Ordering.{nat_cmp};
ghost use Rattle.std.specs.FinMap.{find};
ghost use Rattle.grb_core.specs.Entries.{cell_cmp};
ghost use Rattle.grb_core.specs.Monoid.{monoid_domain};
ghost use Rattle.grb_call.specs.declared.ids.Object.{Object};
ghost use Rattle.grb_call.specs.After.{get_reply, refused, reply_of};
ghost use Rattle.grb_call.specs.Status.{object_of};
ghost use Rattle.grb_call.specs.Store.{Store};
ghost use Rattle.grb_operations.specs.Reading.{cells_of, domain_in, elements_of, total_of};
ghost use Rattle.grb_objects.specs.SharedContent.{IsAt, MayRead};

use grb_call::{Call, Reply};
use grb_core::{Monoid, Value};
use grb_folds::{reduce_matrix, reduce_vector};
use grb_objects::SharedContent;

/// The reply to a get, by what is stored there. Takes no memory.
pub fn get_reply(value: Option<Value>) -> Reply
    ensures { result ≡ get_reply value }
{
    match value {
        Some(value) => Reply::Value(value),
        None => Reply::NoValue,
    }
}

/// The value in row `i`, column `j`, if this is a matrix and stores one there.
fn cell(content: &SharedContent, i: u64, j: u64) -> Option<Value>
    ensures { result ≡ find cell_cmp (i, j) (cells_of content.now) }
{
    match content {
        SharedContent::Matrix(matrix) => matrix.lent().get(i, j),
        SharedContent::Vector(_) => None,
    }
}

/// The value at `i`, if this is a vector and stores one there.
fn element(content: &SharedContent, i: u64) -> Option<Value>
    ensures { result ≡ find nat_cmp i (elements_of content.now) }
{
    match content {
        SharedContent::Matrix(_) => None,
        SharedContent::Vector(vector) => vector.lent().get(i),
    }
}

/// All values that it stores, combined by the monoid.
fn total(content: &SharedContent, monoid: Monoid) -> Value
    requires { monoid_domain monoid ≡ domain_in content.now }
    ensures { result ≡ total_of monoid content.now }
{
    match content {
        SharedContent::Matrix(matrix) => reduce_matrix(matrix.lent(), monoid),
        SharedContent::Vector(vector) => reduce_vector(vector.lent(), monoid),
    }
}

/// The reply to a call that only reads the object which holds this, is not refused, and does not ask for dimensions alone. Takes no memory.
pub(crate) fn reply_from(content: &SharedContent, call: &Call) -> Reply
    requires { MayRead call.now content.now }
    ensures { (s : Store) (o : Object) → object_of call.now ≡ Some o → IsAt s o content.now → refused s call.now ≡ None → result ≡ reply_of s call.now }
{
    match call {
        Call::GetMatrix { i, j, .. } => get_reply(cell(content, *i, *j)),
        Call::GetVector { i, .. } => get_reply(element(content, *i)),
        Call::NvalsMatrix { .. } | Call::NvalsVector { .. } => Reply::Count(content.nvals()),
        Call::ReduceMatrix { monoid, .. } => Reply::Value(total(content, *monoid)),
        Call::ReduceVector { monoid, .. } => Reply::Value(total(content, *monoid)),
        Call::WaitMatrix { .. } | Call::WaitVector { .. } => Reply::Done,
        _ => unreachable!(),
    }
}
