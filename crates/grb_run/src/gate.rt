//! Who is told before each statement of a section, and after it.

/// Stands before and after each statement of a run. It may let other threads go first (own).
///
/// A section is numbered by its pass: the main section is 0. The statements of a section are numbered from 1.
pub trait Gate {
    /// Called before this statement of this section runs.
    fn before(&self, section: u32, statement: u32);

    /// Called once this statement of this section is answered.
    fn after(&self, section: u32, statement: u32);
}

/// A gate that does nothing.
#[derive(Clone, Copy, Debug, PartialEq, Eq)]
pub struct OpenGate;

impl Gate for OpenGate {
    fn before(&self, _section: u32, _statement: u32) {}

    fn after(&self, _section: u32, _statement: u32) {}
}
