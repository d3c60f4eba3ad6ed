//! Tests of an entry by its row, its column and its value.
ghost use Rattle.std.specs.Prelude.{◌≡◌, ◌<◌, ◌^◌, not, true};
ghost use Rattle.grb_core.specs.Contents.{is_dimension};
ghost use Rattle.grb_core.specs.Value.{value_domain};
ghost use Rattle.grb_core.specs.Maps.{diagonal_size};
ghost use Rattle.grb_core.specs.Tests.{IsTestOf, number_of, passes, up, down};

use crate::value::Value;

/// A diagonal of a matrix, by how far it is above or below the main one. `Above(0)` and `Below(0)` are the main one.
///
/// Source: GraphBLAS C API 2.0, "Index unary operators"; that it is two numbers, and none with a sign, is own.
#[derive(Clone, Copy, Debug, PartialEq, Eq)]
pub enum Diagonal {
    /// The places whose column is so much more than their row.
    Above(u32),
    /// The places whose row is so much more than their column.
    Below(u32),
}

impl Diagonal {
    /// How far it is above the main diagonal, or 0.
    pub fn up(self) -> u64
        ensures { result ≡ up self }
    {
        match self {
            Diagonal::Above(n) => n as u64,
            Diagonal::Below(_) => 0,
        }
    }

    /// How far it is below the main diagonal, or 0.
    pub fn down(self) -> u64
        ensures { result ≡ down self }
    {
        match self {
            Diagonal::Above(_) => 0,
            Diagonal::Below(n) => n as u64,
        }
    }
}

/// How many rows and columns a matrix has that has a vector of a size on a diagonal. Where no matrix can have so many, which `is_dimension`
/// tells, it is some number that no matrix can have. Takes no memory.
///
/// Source: GraphBLAS C API 2.0, "Matrix_diag".
pub fn diagonal_size(d: Diagonal, size: u64) -> u64
    ensures dimension { is_dimension result ≡ is_dimension (diagonal_size d size) }
    ensures size { is_dimension result ≡ true → result ≡ diagonal_size d size }
{
    size.saturating_add(d.up()).saturating_add(d.down())
}

/// A test of an entry, as select takes it. An index of a vector is the row of a cell of column 0.
///
/// Source: GraphBLAS C API 2.0, "select" and "Index unary operators". That the numbers of row and column tests are not negative is own.
#[derive(Clone, Copy, PartialEq, Eq)]
pub enum Test {
    /// On the diagonal or below it (`GrB_TRIL`).
    Tril(Diagonal),
    /// On the diagonal or above it (`GrB_TRIU`).
    Triu(Diagonal),
    /// On the diagonal (`GrB_DIAG`).
    Diag(Diagonal),
    /// Not on the diagonal (`GrB_OFFDIAG`).
    Offdiag(Diagonal),
    /// In this row or one before it (`GrB_ROWLE`).
    RowLe(u64),
    /// In a row after this one (`GrB_ROWGT`).
    RowGt(u64),
    /// In this column or one before it (`GrB_COLLE`).
    ColLe(u64),
    /// In a column after this one (`GrB_COLGT`).
    ColGt(u64),
    /// The value is this one (`GrB_VALUEEQ`).
    ValueEq(Value),
    /// The value is not this one (`GrB_VALUENE`).
    ValueNe(Value),
    /// The value is less than this one, as `false` is than `true` (`GrB_VALUELT`).
    ValueLt(Value),
    /// The value is not more than this one (`GrB_VALUELE`).
    ValueLe(Value),
    /// The value is more than this one (`GrB_VALUEGT`).
    ValueGt(Value),
    /// The value is not less than this one (`GrB_VALUEGE`).
    ValueGe(Value),
}

/// The number by which values of one domain are compared: of `false` it is 0, of `true` 1.
pub fn number(value: Value) -> u64
    ensures { result ≡ number_of value }
{
    match value {
        Value::Bool(b) => u64::from(b),
        Value::Uint64(n) => n,
    }
}

/// Whether an entry in row `i` and column `j` passes a test: the value of a test is of the entry's domain. Takes no memory.
///
/// Source: GraphBLAS C API 2.0, "select" and "Index unary operators".
pub fn passes(t: Test, i: u64, j: u64, a: Value) -> bool
    requires domain { IsTestOf (value_domain a) t }
    requires row { i < 2 ^ 32 }
    requires column { j < 2 ^ 32 }
    ensures { result ≡ passes t i j a }
{
    match t {
        Test::Tril(d) => j + d.down() <= i + d.up(),
        Test::Triu(d) => i + d.up() <= j + d.down(),
        Test::Diag(d) => j + d.down() == i + d.up(),
        Test::Offdiag(d) => j + d.down() != i + d.up(),
        Test::RowLe(n) => i <= n,
        Test::RowGt(n) => i > n,
        Test::ColLe(n) => j <= n,
        Test::ColGt(n) => j > n,
        Test::ValueEq(x) => number(a) == number(x),
        Test::ValueNe(x) => number(a) != number(x),
        Test::ValueLt(x) => number(a) < number(x),
        Test::ValueLe(x) => number(a) <= number(x),
        Test::ValueGt(x) => number(a) > number(x),
        Test::ValueGe(x) => number(a) >= number(x),
    }
}
