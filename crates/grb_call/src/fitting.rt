//! Whether the operands of an operation fit together: that its mask is there, one domain, and dimensions.
ghost use Rattle.std.specs.Prelude.{◌≡◌, ◌++◌, ◌*◌, ◌==◌};
ghost use Rattle.std.specs.List.{list_all};
ghost use Rattle.grb_call.specs.Operation.{accum_domains, function_domains, if_any, kind_domains, operation_domains, operation_inputs, operation_objects, test_domains, turns};
ghost use Rattle.grb_call.specs.Refused.{same_domain, are_of_domain, is_one_domain, same_size, dims_at, has_dims, mask_dims, mask_fits, ewise_fits, kronecker_fits, operation_fits, product_fits, rows_fit, same_fits, turned_dims, turned_ncols, turned_nrows};
ghost use Rattle.grb_call.specs.Shapes.{is_live};

use crate::ids::{MatrixId, Object, VectorId};
use crate::operation::{Input, Operation, OperationKind};
use crate::shapes::Shapes;
use grb_core::{BinaryOp, Domain, Function, Test};

/// Whether the object, if there is one, was made, and not freed.
fn is_live_if_any(shapes: &Shapes, object: Option<Object>) -> bool
    ensures { result ≡ list_all (is_live shapes.now.objects) (if_any object) }
{
    object.map_or(true, |o| shapes.is_live(o))
}

/// Whether output, inputs and mask of an operation were made, and not freed.
pub(crate) fn is_operation_live(shapes: &Shapes, operation: &Operation) -> bool
    ensures { result ≡ list_all (is_live shapes.now.objects) (operation_objects operation.now ++ if_any operation.now.mask) }
{
    shapes.is_live(operation.output)
        & is_live_if_any(shapes, operation.first)
        & is_live_if_any(shapes, operation.second)
        & is_live_if_any(shapes, operation.mask)
}

/// Whether the object, if there is one and it is there, is of the domain.
fn is_of_domain_if_any(shapes: &Shapes, domain: Domain, object: Option<Object>) -> bool
    ensures { result ≡ are_of_domain shapes.now.objects domain (if_any object) }
{
    object.map_or(true, |o| shapes.domain(o).map_or(true, |d| domain == d))
}

/// Whether the inputs that are there are of the domain.
fn are_inputs_of(shapes: &Shapes, domain: Domain, operation: &Operation) -> bool
    ensures { result ≡ are_of_domain shapes.now.objects domain (operation_inputs operation.now) }
{
    is_of_domain_if_any(shapes, domain, operation.first)
        & is_of_domain_if_any(shapes, domain, operation.second)
}

/// Whether what a function brings is of the domain.
fn is_function_of(domain: Domain, f: Function) -> bool
    ensures { result ≡ list_all (same_domain domain) (function_domains f) }
{
    match f {
        Function::Unary(op) => domain == op.domain(),
        Function::First(x, op) => (domain == x.domain()) & (domain == op.domain()),
        Function::Second(op, x) => (domain == op.domain()) & (domain == x.domain()),
    }
}

/// Whether what a test brings is of the domain; a test of places brings nothing.
fn is_test_of(domain: Domain, test: Test) -> bool
    ensures { result ≡ list_all (same_domain domain) (test_domains test) }
{
    match test {
        Test::ValueEq(x)
        | Test::ValueNe(x)
        | Test::ValueLt(x)
        | Test::ValueLe(x)
        | Test::ValueGt(x)
        | Test::ValueGe(x) => domain == x.domain(),
        Test::Tril(_)
        | Test::Triu(_)
        | Test::Diag(_)
        | Test::Offdiag(_)
        | Test::RowLe(_)
        | Test::RowGt(_)
        | Test::ColLe(_)
        | Test::ColGt(_) => true,
    }
}

/// Whether what an operation computes with is of the domain; of a semiring both its parts.
fn computes_in(domain: Domain, kind: OperationKind) -> bool
    ensures { result ≡ list_all (same_domain domain) (kind_domains kind) }
{
    match kind {
        OperationKind::EwiseAdd(op) | OperationKind::EwiseMult(op) | OperationKind::Kronecker(op) =>
            domain == op.domain(),
        OperationKind::Product(semiring) => {
            (domain == semiring.monoid().domain()) & (domain == semiring.op().domain())
        }
        OperationKind::Rows(monoid) => domain == monoid.domain(),
        OperationKind::Transpose => true,
        OperationKind::Apply(f) => is_function_of(domain, f),
        OperationKind::Select(test) => is_test_of(domain, test),
    }
}

/// Whether the accumulator, if there is one, is of the domain.
fn accumulates_in(domain: Domain, accum: Option<BinaryOp>) -> bool
    ensures { result ≡ list_all (same_domain domain) (accum_domains accum) }
{
    accum.map_or(true, |op| domain == op.domain())
}

/// Whether the inputs of an operation, what it computes with and its accumulator have the domain of the output.
pub(crate) fn is_operation_of_one_domain(shapes: &Shapes, operation: &Operation) -> bool
    ensures { result ≡ is_one_domain shapes.now.objects (operation_objects operation.now) (operation_domains operation.now) }
{
    match shapes.domain(operation.output) {
        Some(domain) => {
            are_inputs_of(shapes, domain, operation)
                & computes_in(domain, operation.kind)
                & accumulates_in(domain, operation.accum)
        }
        None => true,
    }
}

/// The dimensions of an object.
#[derive(Clone, Copy, Debug)]
pub(crate) enum Dims {
    /// The rows and the columns of a matrix.
    Matrix(u64, u64),
    /// The size of a vector.
    Vector(u64),
}

/// The dimensions of the object; 0 where it is not there.
fn dims_of(shapes: &Shapes, object: Object) -> Dims
    ensures { result ≡ dims_at shapes.now.objects object }
{
    match object {
        Object::Matrix(a) => Dims::Matrix(shapes.nrows(a), shapes.ncols(a)),
        Object::Vector(v) => Dims::Vector(shapes.size(v)),
    }
}

/// Whether the object is of the sort of these dimensions, and has them.
fn has_dims(shapes: &Shapes, object: Object, needed: Dims) -> bool
    ensures { result ≡ has_dims shapes.now.objects object needed }
{
    match (object, needed) {
        (Object::Matrix(a), Dims::Matrix(nrows, ncols)) => {
            (shapes.nrows(a) == nrows) & (shapes.ncols(a) == ncols)
        }
        (Object::Vector(v), Dims::Vector(size)) => shapes.size(v) == size,
        (Object::Matrix(_), Dims::Vector(_)) | (Object::Vector(_), Dims::Matrix(_, _)) => false,
    }
}

/// The dimensions that the mask of the operation is to have: those of its output.
fn mask_dims(shapes: &Shapes, operation: &Operation) -> Dims
    ensures { result ≡ mask_dims shapes.now.objects operation.now }
{
    dims_of(shapes, operation.output)
}

/// Whether the mask, if there is one, has these dimensions.
fn mask_fits(shapes: &Shapes, mask: Option<Object>, needed: Dims) -> bool
    ensures { result ≡ mask_fits shapes.now.objects mask needed }
{
    mask.map_or(true, |m| has_dims(shapes, m, needed))
}

/// The rows of an input, its columns where it is transposed.
fn turned_nrows(shapes: &Shapes, tran: bool, a: MatrixId) -> u64
    ensures { result ≡ turned_nrows shapes.now.objects tran a }
{
    if tran {
        shapes.ncols(a)
    } else {
        shapes.nrows(a)
    }
}

/// The columns of an input, its rows where it is transposed.
fn turned_ncols(shapes: &Shapes, tran: bool, a: MatrixId) -> u64
    ensures { result ≡ turned_ncols shapes.now.objects tran a }
{
    if tran {
        shapes.nrows(a)
    } else {
        shapes.ncols(a)
    }
}

/// Whether the first matrix, transposed where `tran` says so, has the dimensions of the other.
fn turned_dims(shapes: &Shapes, tran: bool, a: MatrixId, c: MatrixId) -> bool
    ensures { result ≡ turned_dims shapes.now.objects tran a c }
{
    (turned_nrows(shapes, tran, a) == shapes.nrows(c))
        & (turned_ncols(shapes, tran, a) == shapes.ncols(c))
}

/// Whether two vectors have the same size.
fn same_size(shapes: &Shapes, u: VectorId, v: VectorId) -> bool
    ensures { result ≡ same_size shapes.now.objects u v }
{
    shapes.size(u) == shapes.size(v)
}

/// Whether the inputs of an element-wise operation, each turned where it is so said, have the dimensions of the output, and the mask fits.
fn ewise_fits(
    shapes: &Shapes,
    first: bool,
    second: bool,
    operation: &Operation,
    masked: bool,
) -> bool
    ensures { result ≡ ewise_fits shapes.now.objects first second operation.now.output operation.now.first operation.now.second masked }
{
    match (operation.output, operation.first, operation.second) {
        (Object::Matrix(c), Some(Object::Matrix(a)), Some(Object::Matrix(b))) => {
            turned_dims(shapes, first, a, c) & turned_dims(shapes, second, b, c) & masked
        }
        (Object::Vector(w), Some(Object::Vector(u)), Some(Object::Vector(v))) => {
            same_size(shapes, u, w) & same_size(shapes, v, w) & masked
        }
        _ => false,
    }
}

/// Whether the dimensions of a product's inputs, each turned where it is so said, fit together with those of the output, and the mask fits.
fn product_fits(
    shapes: &Shapes,
    first: bool,
    second: bool,
    operation: &Operation,
    masked: bool,
) -> bool
    ensures { result ≡ product_fits shapes.now.objects first second operation.now.output operation.now.first operation.now.second masked }
{
    match (operation.output, operation.first, operation.second) {
        (Object::Matrix(c), Some(Object::Matrix(a)), Some(Object::Matrix(b))) => {
            (turned_nrows(shapes, first, a) == shapes.nrows(c))
                & (turned_ncols(shapes, second, b) == shapes.ncols(c))
                & (turned_ncols(shapes, first, a) == turned_nrows(shapes, second, b))
                & masked
        }
        (Object::Vector(w), Some(Object::Matrix(a)), Some(Object::Vector(u))) => {
            (turned_nrows(shapes, first, a) == shapes.size(w))
                & (turned_ncols(shapes, first, a) == shapes.size(u))
                & masked
        }
        (Object::Vector(w), Some(Object::Vector(u)), Some(Object::Matrix(a))) => {
            (turned_ncols(shapes, second, a) == shapes.size(w))
                & (turned_nrows(shapes, second, a) == shapes.size(u))
                & masked
        }
        _ => false,
    }
}

/// Whether a reduction's matrix, turned where it is so said, has a row for each place of the output, and the mask fits.
fn rows_fit(shapes: &Shapes, first: bool, second: bool, operation: &Operation, masked: bool) -> bool
    ensures { result ≡ rows_fit shapes.now.objects first second operation.now.output operation.now.first operation.now.second masked }
{
    match (operation.output, operation.first, operation.second) {
        (Object::Vector(w), Some(Object::Matrix(a)), None) => {
            (turned_nrows(shapes, first, a) == shapes.size(w)) & masked
        }
        _ => false,
    }
}

/// Whether the only input of an operation on each entry, turned where it is so said, has the dimensions of the output, and the mask fits.
fn same_fits(
    shapes: &Shapes,
    first: bool,
    second: bool,
    operation: &Operation,
    masked: bool,
) -> bool
    ensures { result ≡ same_fits shapes.now.objects first second operation.now.output operation.now.first operation.now.second masked }
{
    match (operation.output, operation.first, operation.second) {
        (Object::Matrix(c), Some(Object::Matrix(a)), None) => {
            turned_dims(shapes, first, a, c) & masked
        }
        (Object::Vector(w), Some(Object::Vector(u)), None) => same_size(shapes, u, w) & masked,
        _ => false,
    }
}

/// Whether two numbers multiplied make a third.
fn is_product(a: u64, b: u64, product: u64) -> bool
    ensures { result ≡ (a * b == product) }
{
    match a.checked_mul(b) {
        Some(n) => n == product,
        None => false,
    }
}

/// Whether the output of a Kronecker product has as many rows, and columns, as those of both inputs, each turned where it is so said, make
/// together, and the mask fits.
fn kronecker_fits(
    shapes: &Shapes,
    first: bool,
    second: bool,
    operation: &Operation,
    masked: bool,
) -> bool
    ensures { result ≡ kronecker_fits shapes.now.objects first second operation.now.output operation.now.first operation.now.second masked }
{
    match (operation.output, operation.first, operation.second) {
        (Object::Matrix(c), Some(Object::Matrix(a)), Some(Object::Matrix(b))) => {
            let (rows, more_rows) = (
                turned_nrows(shapes, first, a),
                turned_nrows(shapes, second, b),
            );
            let (columns, more_columns) = (
                turned_ncols(shapes, first, a),
                turned_ncols(shapes, second, b),
            );
            is_product(rows, more_rows, shapes.nrows(c))
                & is_product(columns, more_columns, shapes.ncols(c))
                & masked
        }
        _ => false,
    }
}

/// Whether the dimensions of output, inputs and mask fit together.
pub(crate) fn operation_fits(shapes: &Shapes, operation: &Operation) -> bool
    ensures { result ≡ operation_fits shapes.now.objects operation.now }
{
    let masked = mask_fits(shapes, operation.mask, mask_dims(shapes, operation));
    let first = operation.turns(Input::First);
    let second = operation.turns(Input::Second);
    match operation.kind {
        OperationKind::EwiseAdd(_) | OperationKind::EwiseMult(_) => {
            ewise_fits(shapes, first, second, operation, masked)
        }
        OperationKind::Product(_) => product_fits(shapes, first, second, operation, masked),
        OperationKind::Rows(_) => rows_fit(shapes, first, second, operation, masked),
        OperationKind::Transpose | OperationKind::Apply(_) | OperationKind::Select(_) => {
            same_fits(shapes, first, second, operation, masked)
        }
        OperationKind::Kronecker(_) => kronecker_fits(shapes, first, second, operation, masked),
    }
}
