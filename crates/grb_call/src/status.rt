//! The object that a call is about and whose status it leaves, and the status that an answer is.
ghost use Rattle.std.specs.Prelude.{◌≡◌};
ghost use Rattle.std.specs.Option.{option_map, option_or};
ghost use Rattle.grb_call.specs.Operands.{named};
ghost use Rattle.grb_call.specs.Operation.{operation_of};
ghost use Rattle.grb_call.specs.Output.{output_of};
ghost use Rattle.grb_call.specs.Status.{info_of, made_by, object_of};

use crate::call::Call;
use crate::class::Class;
use crate::ids::Object;
use crate::reply::Reply;
use grb_core::{Info, Refusal};

impl Call {
    /// The object that the call names first: that of a method on one object, or the output of an operation; none of a new object.
    fn first_named(&self) -> Option<Object>
        ensures { result ≡ option_or (option_map (λ o. o.output) (operation_of self.now)) (named self.now) }
    {
        match self {
            Call::FreeMatrix { a }
            | Call::SetMatrix { a, .. }
            | Call::RemoveMatrix { a, .. }
            | Call::GetMatrix { a, .. }
            | Call::NvalsMatrix { a }
            | Call::SizeMatrix { a }
            | Call::ClearMatrix { a }
            | Call::ResizeMatrix { a, .. }
            | Call::DupMatrix { a }
            | Call::BuildMatrix { a, .. }
            | Call::ReduceMatrix { a, .. }
            | Call::WaitMatrix { a, .. } => Some(Object::Matrix(*a)),
            Call::FreeVector { v }
            | Call::SetVector { v, .. }
            | Call::RemoveVector { v, .. }
            | Call::GetVector { v, .. }
            | Call::NvalsVector { v }
            | Call::SizeVector { v }
            | Call::ClearVector { v }
            | Call::ResizeVector { v, .. }
            | Call::DupVector { v }
            | Call::BuildVector { v, .. }
            | Call::Diag { v, .. }
            | Call::ReduceVector { v, .. }
            | Call::WaitVector { v, .. } => Some(Object::Vector(*v)),
            Call::EwiseAddMatrix { c, .. }
            | Call::EwiseMultMatrix { c, .. }
            | Call::Mxm { c, .. }
            | Call::WriteMatrix { c, .. } => Some(Object::Matrix(*c)),
            Call::EwiseAddVector { w, .. }
            | Call::EwiseMultVector { w, .. }
            | Call::Mxv { w, .. }
            | Call::Vxm { w, .. }
            | Call::ReduceRows { w, .. }
            | Call::WriteVector { w, .. } => Some(Object::Vector(*w)),
            Call::NewMatrix { .. } | Call::NewVector { .. } => None,
        }
    }

    /// The object that a method on one object names; none of a new object, which was not made before, and of an operation. Takes no
    /// memory.
    pub fn named(&self) -> Option<Object>
        ensures { result ≡ named self.now }
    {
        match self.class() {
            Class::Operates => None,
            Class::Makes | Class::Edits | Class::Reads(_) | Class::AsksDimensions => {
                self.first_named()
            }
        }
    }

    /// The object that the call is about, of those that were made before it: the one that it changes, reads or has changes done of; of
    /// an operation its output. None for a call that makes an object. Takes no memory.
    pub fn object(&self) -> Option<Object>
        ensures { result ≡ object_of self.now }
    {
        match self.class() {
            Class::Makes => None,
            Class::Edits | Class::Operates | Class::Reads(_) | Class::AsksDimensions => {
                self.first_named()
            }
        }
    }

    /// The object that the call changes, of those that were made before it; none for a call that makes an object or only reads.
    /// Takes no memory.
    pub fn output(&self) -> Option<Object>
        ensures { result ≡ output_of self.now }
    {
        if !self.enters() {
            return None;
        }
        self.object()
    }
}

/// The object that an answer says was made.
fn made_by(answer: &Result<Reply, Refusal>) -> Option<Object>
    ensures { result ≡ made_by answer.now }
{
    match answer {
        Ok(Reply::MadeMatrix(a)) => Some(Object::Matrix(*a)),
        Ok(Reply::MadeVector(v)) => Some(Object::Vector(*v)),
        _ => None,
    }
}

/// The target of a call with this object ([`Call::object`]) and this answer: the object, and of a new or a dup the
/// one that it made. None for a new or a dup that is refused. Takes no memory.
#[inline(always)]
pub fn target_of(object: Option<Object>, answer: &Result<Reply, Refusal>) -> Option<Object>
    ensures { result ≡ option_or object (made_by answer.now) }
{
    object.or(made_by(answer))
}

/// The status that an answer leaves on the target of its call: the refusal, `NoValue` for that reply, and `Success` for any other. Takes
/// no memory.
///
/// Source: GraphBLAS C API 2.0, "Error model".
#[inline(always)]
pub fn info_of(answer: &Result<Reply, Refusal>) -> Info
    ensures { result ≡ info_of answer.now }
{
    match answer {
        Ok(Reply::NoValue) => Info::NoValue,
        Ok(_) => Info::Success,
        Err(refusal) => Info::Refused(*refusal),
    }
}
