//! The modes of a wait.

/// How far a wait has the work of an object done.
///
/// Source: GraphBLAS C API 2.0, `GrB_wait` and `GrB_WaitMode`; what each mode does here is our own.
#[derive(Clone, Copy, Debug, PartialEq, Eq)]
pub enum WaitMode {
    /// The changes of the object are done (`GrB_COMPLETE`).
    Complete,
    /// The changes of all objects are done (`GrB_MATERIALIZE`).
    Materialize,
}
