//! What a call does to the store, or reads of it.
ghost use Rattle.std.specs.Prelude.{◌≡◌};
ghost use Rattle.grb_call.specs.Kinds.{class_of, enters, extent_of};

use crate::call::Call;
use crate::wait_mode::WaitMode;

/// The operations, as a pattern.
macro_rules! an_operation {
    () => {
        Call::EwiseAddMatrix { .. }
            | Call::EwiseAddVector { .. }
            | Call::EwiseMultMatrix { .. }
            | Call::EwiseMultVector { .. }
            | Call::Mxv { .. }
            | Call::Vxm { .. }
            | Call::Mxm { .. }
            | Call::ReduceRows { .. }
            | Call::WriteMatrix { .. }
            | Call::WriteVector { .. }
    };
}

pub(crate) use an_operation;

/// How many objects a reading call reads.
#[derive(Clone, Copy, Debug, PartialEq, Eq)]
pub enum Extent {
    /// Of the object that it names.
    Object,
    /// Of all objects.
    All,
}

/// What a call does to the store, or reads of it (own).
#[derive(Clone, Copy, Debug, PartialEq, Eq)]
pub enum Class {
    /// It makes an object: a new, a dup, or a diag.
    Makes,
    /// It changes or ends one object, by what it brings itself.
    Edits,
    /// It writes into its output what it computes of its inputs: it is an [operation](Call::operation).
    Operates,
    /// It reads the entries of an object, or has changes done.
    Reads(Extent),
    /// It reads dimensions alone, which takes no memory.
    AsksDimensions,
}

impl WaitMode {
    /// The objects of which a wait with this mode has the changes done. Takes no memory.
    pub fn extent(self) -> Extent
        ensures { result ≡ extent_of self }
    {
        match self {
            WaitMode::Complete => Extent::Object,
            WaitMode::Materialize => Extent::All,
        }
    }
}

impl Call {
    /// What the call does to the store, or reads of it. Takes no memory.
    pub fn class(&self) -> Class
        ensures { result ≡ class_of self.now }
    {
        match self {
            Call::NewMatrix { .. }
            | Call::NewVector { .. }
            | Call::DupMatrix { .. }
            | Call::DupVector { .. }
            | Call::Diag { .. } => Class::Makes,
            Call::FreeMatrix { .. }
            | Call::FreeVector { .. }
            | Call::SetMatrix { .. }
            | Call::SetVector { .. }
            | Call::RemoveMatrix { .. }
            | Call::RemoveVector { .. }
            | Call::ClearMatrix { .. }
            | Call::ClearVector { .. }
            | Call::ResizeMatrix { .. }
            | Call::ResizeVector { .. }
            | Call::BuildMatrix { .. }
            | Call::BuildVector { .. } => Class::Edits,
            an_operation!() => Class::Operates,
            Call::GetMatrix { .. }
            | Call::GetVector { .. }
            | Call::NvalsMatrix { .. }
            | Call::NvalsVector { .. }
            | Call::ReduceMatrix { .. }
            | Call::ReduceVector { .. } => Class::Reads(Extent::Object),
            Call::WaitMatrix { mode, .. } | Call::WaitVector { mode, .. } => {
                Class::Reads(mode.extent())
            }
            Call::SizeMatrix { .. } | Call::SizeVector { .. } => Class::AsksDimensions,
        }
    }

    /// Whether the call changes the store where it is not refused. Such a call is entered into the history; any other only reads.
    /// Takes no memory.
    pub fn enters(&self) -> bool
        ensures { result ≡ enters self.now }
    {
        match self.class() {
            Class::Makes | Class::Edits | Class::Operates => true,
            Class::Reads(_) | Class::AsksDimensions => false,
        }
    }
}
