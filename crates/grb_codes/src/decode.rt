//! The calls that the functions of the C interface make, from the numbers that they are given. Each is refused by `INVALID_VALUE` for a
//! number that stands for nothing, and by the status of another domain for a monoid and an operator of two domains.
ghost use Rattle.std.specs.Prelude.{◌≡◌};
ghost use Rattle.grb_codes.specs.Calls.{add_matrices, add_vectors, apply_first_matrix, apply_first_vector, apply_matrix, apply_second_matrix, apply_second_vector, apply_vector, diag, kronecker, mult_matrices, mult_vectors, mxm, mxv, new_matrix, new_vector, reduce_matrix, reduce_rows, reduce_vector, select_matrix, select_values_matrix, select_values_vector, select_vector, transpose, vxm, wait_matrix, wait_vector};

use crate::codes::{
    INVALID_VALUE, Id, accum_at, descriptor_at, diagonal_at, domain_at, first_descriptor_at,
    mask_at, mode_at, monoid_at, op_at, place_test_at, second_descriptor_at, semiring_of, unary_at,
    upright_descriptor_at, value_test_at,
};
use grb_call::{Call, MatrixTerm, VectorTerm};
use grb_core::{Function, Value};

/// What each operation is given next to its objects and what it computes by, as numbers.
#[derive(Clone, Copy)]
pub struct Given {
    pub mask: u32,
    pub accum: u32,
    pub desc: u32,
}

/// The operation of this variant, with a descriptor that is read so: its output, what it computes by, once that is decoded, and its inputs,
/// where they stand next to that.
macro_rules! operation {
    ($given:expr, $descriptor:ident, $call:ident, $output:ident, $by:ident $(, $input:ident)*) => {{
        let accum = accum_at($given.accum).ok_or(INVALID_VALUE)?;
        let d = $descriptor($given.desc).ok_or(INVALID_VALUE)?;
        Ok(Call::$call {
            $output: Id::at($output),
            mask: mask_at($given.mask),
            accum,
            $by,
            $($input: Id::at($input),)*
            d,
        })
    }};
}

/// A new matrix.
pub fn new_matrix(domain: u32, nrows: u64, ncols: u64) -> Result<Call, i32>
    ensures { result ≡ new_matrix domain nrows ncols }
{
    let domain = domain_at(domain).ok_or(INVALID_VALUE)?;
    Ok(Call::NewMatrix {
        domain,
        nrows,
        ncols,
    })
}

/// A new vector.
pub fn new_vector(domain: u32, size: u64) -> Result<Call, i32>
    ensures { result ≡ new_vector domain size }
{
    let domain = domain_at(domain).ok_or(INVALID_VALUE)?;
    Ok(Call::NewVector { domain, size })
}

/// A matrix with a vector on a diagonal.
pub fn diag(v: u32, k: i64) -> Result<Call, i32>
    ensures { result ≡ diag v k }
{
    let diagonal = diagonal_at(k).ok_or(INVALID_VALUE)?;
    Ok(Call::Diag {
        v: Id::at(v),
        diagonal,
    })
}

/// A wait for a matrix.
pub fn wait_matrix(a: u32, mode: u32) -> Result<Call, i32>
    ensures { result ≡ wait_matrix a mode }
{
    let mode = mode_at(mode).ok_or(INVALID_VALUE)?;
    Ok(Call::WaitMatrix { a: Id::at(a), mode })
}

/// A wait for a vector.
pub fn wait_vector(v: u32, mode: u32) -> Result<Call, i32>
    ensures { result ≡ wait_vector v mode }
{
    let mode = mode_at(mode).ok_or(INVALID_VALUE)?;
    Ok(Call::WaitVector { v: Id::at(v), mode })
}

/// The total of a matrix.
pub fn reduce_matrix(a: u32, monoid: u32) -> Result<Call, i32>
    ensures { result ≡ reduce_matrix a monoid }
{
    let monoid = monoid_at(monoid).ok_or(INVALID_VALUE)?;
    let a = Id::at(a);
    Ok(Call::ReduceMatrix { a, monoid })
}

/// The total of a vector.
pub fn reduce_vector(v: u32, monoid: u32) -> Result<Call, i32>
    ensures { result ≡ reduce_vector v monoid }
{
    let monoid = monoid_at(monoid).ok_or(INVALID_VALUE)?;
    let v = Id::at(v);
    Ok(Call::ReduceVector { v, monoid })
}

/// A product of matrices.
pub fn mxm(c: u32, monoid: u32, op: u32, a: u32, b: u32, given: Given) -> Result<Call, i32>
    ensures { result ≡ mxm c given.mask given.accum monoid op a b given.desc }
{
    let monoid = monoid_at(monoid).ok_or(INVALID_VALUE)?;
    let semiring = semiring_of(monoid, op_at(op).ok_or(INVALID_VALUE)?)?;
    operation!(given, descriptor_at, Mxm, c, semiring, a, b)
}

/// A product of a matrix and a vector.
pub fn mxv(w: u32, monoid: u32, op: u32, a: u32, u: u32, given: Given) -> Result<Call, i32>
    ensures { result ≡ mxv w given.mask given.accum monoid op a u given.desc }
{
    let monoid = monoid_at(monoid).ok_or(INVALID_VALUE)?;
    let semiring = semiring_of(monoid, op_at(op).ok_or(INVALID_VALUE)?)?;
    operation!(given, first_descriptor_at, Mxv, w, semiring, a, u)
}

/// A product of a vector and a matrix.
pub fn vxm(w: u32, monoid: u32, op: u32, u: u32, a: u32, given: Given) -> Result<Call, i32>
    ensures { result ≡ vxm w given.mask given.accum monoid op u a given.desc }
{
    let monoid = monoid_at(monoid).ok_or(INVALID_VALUE)?;
    let semiring = semiring_of(monoid, op_at(op).ok_or(INVALID_VALUE)?)?;
    operation!(given, second_descriptor_at, Vxm, w, semiring, u, a)
}

/// A union of matrices.
pub fn add_matrices(c: u32, op: u32, a: u32, b: u32, given: Given) -> Result<Call, i32>
    ensures { result ≡ add_matrices c given.mask given.accum op a b given.desc }
{
    let op = op_at(op).ok_or(INVALID_VALUE)?;
    operation!(given, descriptor_at, EwiseAddMatrix, c, op, a, b)
}

/// A union of vectors.
pub fn add_vectors(w: u32, op: u32, u: u32, v: u32, given: Given) -> Result<Call, i32>
    ensures { result ≡ add_vectors w given.mask given.accum op u v given.desc }
{
    let op = op_at(op).ok_or(INVALID_VALUE)?;
    operation!(given, upright_descriptor_at, EwiseAddVector, w, op, u, v)
}

/// An intersection of matrices.
pub fn mult_matrices(c: u32, op: u32, a: u32, b: u32, given: Given) -> Result<Call, i32>
    ensures { result ≡ mult_matrices c given.mask given.accum op a b given.desc }
{
    let op = op_at(op).ok_or(INVALID_VALUE)?;
    operation!(given, descriptor_at, EwiseMultMatrix, c, op, a, b)
}

/// An intersection of vectors.
pub fn mult_vectors(w: u32, op: u32, u: u32, v: u32, given: Given) -> Result<Call, i32>
    ensures { result ≡ mult_vectors w given.mask given.accum op u v given.desc }
{
    let op = op_at(op).ok_or(INVALID_VALUE)?;
    operation!(given, upright_descriptor_at, EwiseMultVector, w, op, u, v)
}

/// A reduction of rows.
pub fn reduce_rows(w: u32, monoid: u32, a: u32, given: Given) -> Result<Call, i32>
    ensures { result ≡ reduce_rows w given.mask given.accum monoid a given.desc }
{
    let monoid = monoid_at(monoid).ok_or(INVALID_VALUE)?;
    operation!(given, first_descriptor_at, ReduceRows, w, monoid, a)
}

/// A transposed matrix.
pub fn transpose(c: u32, a: u32, given: Given) -> Result<Call, i32>
    ensures { result ≡ transpose c given.mask given.accum a given.desc }
{
    let term = MatrixTerm::Transposed { a: Id::at(a) };
    operation!(given, first_descriptor_at, WriteMatrix, c, term)
}

/// A Kronecker product.
pub fn kronecker(c: u32, op: u32, a: u32, b: u32, given: Given) -> Result<Call, i32>
    ensures { result ≡ kronecker c given.mask given.accum op a b given.desc }
{
    let op = op_at(op).ok_or(INVALID_VALUE)?;
    let term = MatrixTerm::Kronecker {
        op,
        a: Id::at(a),
        b: Id::at(b),
    };
    operation!(given, descriptor_at, WriteMatrix, c, term)
}

/// A unary operator on the values of a matrix.
pub fn apply_matrix(c: u32, op: u32, a: u32, given: Given) -> Result<Call, i32>
    ensures { result ≡ apply_matrix c given.mask given.accum op a given.desc }
{
    let f = Function::Unary(unary_at(op).ok_or(INVALID_VALUE)?);
    let term = MatrixTerm::Applied { f, a: Id::at(a) };
    operation!(given, first_descriptor_at, WriteMatrix, c, term)
}

/// An operator on a value and those of a matrix.
pub fn apply_first_matrix(c: u32, op: u32, x: Value, a: u32, given: Given) -> Result<Call, i32>
    ensures { result ≡ apply_first_matrix c given.mask given.accum op x a given.desc }
{
    let f = Function::First(x, op_at(op).ok_or(INVALID_VALUE)?);
    let term = MatrixTerm::Applied { f, a: Id::at(a) };
    operation!(given, second_descriptor_at, WriteMatrix, c, term)
}

/// An operator on the values of a matrix and a value.
pub fn apply_second_matrix(c: u32, op: u32, a: u32, y: Value, given: Given) -> Result<Call, i32>
    ensures { result ≡ apply_second_matrix c given.mask given.accum op a y given.desc }
{
    let f = Function::Second(op_at(op).ok_or(INVALID_VALUE)?, y);
    let term = MatrixTerm::Applied { f, a: Id::at(a) };
    operation!(given, first_descriptor_at, WriteMatrix, c, term)
}

/// The entries of a matrix that pass a test by their places.
pub fn select_matrix(c: u32, test: u32, a: u32, k: i64, given: Given) -> Result<Call, i32>
    ensures { result ≡ select_matrix c given.mask given.accum test a k given.desc }
{
    let test = place_test_at(test, k).ok_or(INVALID_VALUE)?;
    let term = MatrixTerm::Selected { test, a: Id::at(a) };
    operation!(given, first_descriptor_at, WriteMatrix, c, term)
}

/// The entries of a matrix that pass a test by their values.
pub fn select_values_matrix(c: u32, test: u32, a: u32, x: Value, given: Given) -> Result<Call, i32>
    ensures { result ≡ select_values_matrix c given.mask given.accum test a x given.desc }
{
    let test = value_test_at(test, x).ok_or(INVALID_VALUE)?;
    let term = MatrixTerm::Selected { test, a: Id::at(a) };
    operation!(given, first_descriptor_at, WriteMatrix, c, term)
}

/// A unary operator on the values of a vector.
pub fn apply_vector(w: u32, op: u32, u: u32, given: Given) -> Result<Call, i32>
    ensures { result ≡ apply_vector w given.mask given.accum op u given.desc }
{
    let f = Function::Unary(unary_at(op).ok_or(INVALID_VALUE)?);
    let term = VectorTerm::Applied { f, u: Id::at(u) };
    operation!(given, upright_descriptor_at, WriteVector, w, term)
}

/// An operator on a value and those of a vector.
pub fn apply_first_vector(w: u32, op: u32, x: Value, u: u32, given: Given) -> Result<Call, i32>
    ensures { result ≡ apply_first_vector w given.mask given.accum op x u given.desc }
{
    let f = Function::First(x, op_at(op).ok_or(INVALID_VALUE)?);
    let term = VectorTerm::Applied { f, u: Id::at(u) };
    operation!(given, upright_descriptor_at, WriteVector, w, term)
}

/// An operator on the values of a vector and a value.
pub fn apply_second_vector(w: u32, op: u32, u: u32, y: Value, given: Given) -> Result<Call, i32>
    ensures { result ≡ apply_second_vector w given.mask given.accum op u y given.desc }
{
    let f = Function::Second(op_at(op).ok_or(INVALID_VALUE)?, y);
    let term = VectorTerm::Applied { f, u: Id::at(u) };
    operation!(given, upright_descriptor_at, WriteVector, w, term)
}

/// The entries of a vector that pass a test by their places.
pub fn select_vector(w: u32, test: u32, u: u32, k: i64, given: Given) -> Result<Call, i32>
    ensures { result ≡ select_vector w given.mask given.accum test u k given.desc }
{
    let test = place_test_at(test, k).ok_or(INVALID_VALUE)?;
    let term = VectorTerm::Selected { test, u: Id::at(u) };
    operation!(given, upright_descriptor_at, WriteVector, w, term)
}

/// The entries of a vector that pass a test by their values.
pub fn select_values_vector(w: u32, test: u32, u: u32, x: Value, given: Given) -> Result<Call, i32>
    ensures { result ≡ select_values_vector w given.mask given.accum test u x given.desc }
{
    let test = value_test_at(test, x).ok_or(INVALID_VALUE)?;
    let term = VectorTerm::Selected { test, u: Id::at(u) };
    operation!(given, upright_descriptor_at, WriteVector, w, term)
}
