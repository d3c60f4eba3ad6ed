//! The words that a line may begin with.

/// The first word of a statement.
#[derive(Clone, Copy, Debug, PartialEq, Eq)]
pub enum Keyword {
    /// `matrix NAME DOMAIN R C`.
    Matrix,
    /// `vector NAME DOMAIN N`.
    Vector,
    /// `dup NAME NAME`.
    Dup,
    /// A keyword after which a name stands alone.
    Whole(Whole),
    /// A keyword after which a name and its indices stand.
    Placed(Placed),
    /// `set NAME INDICES VALUE`.
    Set,
    /// `build NAME MONOID ..`.
    Build,
    /// A keyword after which the names of an output and of two inputs stand, an operator and options.
    Ewise(Ewise),
    /// A keyword after which the names of an output and of two inputs stand, a semiring and options.
    Multiply(Multiply),
    /// `reduce NAME NAME MONOID OPTIONS`.
    Reduce,
    /// `total NAME MONOID`.
    Total,
    /// `transpose NAME NAME OPTIONS`.
    Transpose,
    /// `apply NAME NAME FUNCTION OPTIONS`.
    Apply,
    /// `select NAME NAME TEST OPTIONS`.
    Select,
    /// `kronecker NAME NAME NAME OP OPTIONS`.
    Kronecker,
    /// `diag NAME NAME D`.
    Diag,
    /// `wait NAME MODE`.
    Wait,
}

/// The first word of a statement on a whole object.
#[derive(Clone, Copy, Debug, PartialEq, Eq)]
pub enum Whole {
    /// `free NAME`.
    Free,
    /// `nvals NAME`.
    Nvals,
    /// `size NAME`.
    Size,
    /// `clear NAME`.
    Clear,
    /// `tuples NAME`.
    Tuples,
}

/// The first word of a statement with indices and no value.
#[derive(Clone, Copy, Debug, PartialEq, Eq)]
pub enum Placed {
    /// `remove NAME INDICES`.
    Remove,
    /// `get NAME INDICES`.
    Get,
    /// `resize NAME INDICES`, where the numbers tell the new size, or the new rows and columns.
    Resize,
}

/// The first word of an element-wise statement.
#[derive(Clone, Copy, Debug, PartialEq, Eq)]
pub enum Ewise {
    /// `ewiseadd NAME NAME NAME OP OPTIONS`.
    Add,
    /// `ewisemult NAME NAME NAME OP OPTIONS`.
    Mult,
}

/// The first word of a statement that multiplies.
#[derive(Clone, Copy, Debug, PartialEq, Eq)]
pub enum Multiply {
    /// `mxv NAME NAME NAME SEMIRING OPTIONS`, a matrix by a vector.
    Mxv,
    /// `vxm NAME NAME NAME SEMIRING OPTIONS`, a vector by a matrix.
    Vxm,
    /// `mxm NAME NAME NAME SEMIRING OPTIONS`, a matrix by a matrix.
    Mxm,
}
