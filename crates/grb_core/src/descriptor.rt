//! The descriptor of an operation.

/// How an operation reads its mask and its inputs, and writes its output.
///
/// Source: GraphBLAS C API 2.0, "Descriptors".
#[derive(Clone, Copy, Debug, PartialEq, Eq)]
pub struct Descriptor {
    /// Each value that the mask stores selects its place, and not a true one alone (`GrB_STRUCTURE`).
    pub structure: bool,
    /// What the mask does not select is inside (`GrB_COMP`).
    pub comp: bool,
    /// What lies outside is removed from the output (`GrB_REPLACE`).
    pub replace: bool,
    /// The first input, where it is a matrix, is read transposed: its rows and columns change places (`GrB_TRAN` of `GrB_INP0`).
    pub tran: bool,
    /// The second input, where it is a matrix, is read transposed (`GrB_TRAN` of `GrB_INP1`).
    pub tran1: bool,
}
