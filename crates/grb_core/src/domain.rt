//! The domains of stored values.

/// The type of the values that an object stores. An object has one domain, and keeps it.
///
/// Source: GraphBLAS C API 2.0, "Types (domains)": `GrB_BOOL` and `GrB_UINT64`. That there are no casts between them is our own.
#[derive(Clone, Copy, Debug, PartialEq, Eq)]
pub enum Domain {
    /// Truth values.
    Bool,
    /// Whole numbers from 0 to 2^64 - 1.
    Uint64,
}
