//! What the numbers of the C interface stand for.
ghost use Rattle.std.specs.Prelude.{◌≡◌, ◌==◌, ℕ, None, Some, if◌then◌else◌};
ghost use Rattle.grb_codes.specs.Codes.{TellsInfo, accum_at, bool_code, bool_out, descriptor_at, diagonal_at, dims_code, dims_out, domain_at, done_code, first_descriptor_at, index_at, met_code, mode_at, monoid_at, number_code, number_out, object_code, object_out, op_at, place_test_at, refusal_code, second_descriptor_at, semiring_of, unary_at, upright_descriptor_at, value_test_at};

use grb_call::{Descriptor, MatrixId, Reply, VectorId, WaitMode};
use grb_core::{BinaryOp, Diagonal, Domain, Info, Monoid, Refusal, Semiring, Test, UnaryOp, Value};

/// The call was answered.
pub const SUCCESS: i32 = 0;

/// Nothing is stored at the index of a get.
pub const NO_VALUE: i32 = 1;

/// The handle has no pass.
pub const UNINITIALIZED_OBJECT: i32 = -1;

/// A number stands for nothing, or lengths differ.
pub const INVALID_VALUE: i32 = -3;

/// The value is of the other domain.
pub(crate) const DOMAIN_MISMATCH: i32 = -5;

/// An answer of another kind than the call has.
pub const PANIC: i32 = -101;

/// Memory was refused.
pub const OUT_OF_MEMORY: i32 = -102;

/// The caller's arrays are too short.
pub const INSUFFICIENT_SPACE: i32 = -103;

/// The room is used up.
pub const ORDER_FULL: i32 = -1001;

/// The status of a refusal: that of the standard, or our own.
pub fn refusal_code(refusal: Refusal) -> i32
    ensures { result ≡ refusal_code refusal }
{
    match refusal {
        Refusal::UninitializedObject => -1,
        Refusal::InvalidValue => -3,
        Refusal::InvalidIndex => -4,
        Refusal::DomainMismatch => -5,
        Refusal::DimensionMismatch => -6,
        Refusal::OutputNotEmpty => -7,
        Refusal::IndexOutOfBounds => -105,
        Refusal::OrderFull => -1001,
        Refusal::OutOfMemory => -102,
        Refusal::Panic => -101,
    }
}

/// The status of an answer that puts nothing out.
pub fn done_code(answer: Result<Reply, Refusal>) -> i32
    ensures { result ≡ done_code answer }
{
    match answer {
        Ok(_) => SUCCESS,
        Err(refusal) => refusal_code(refusal),
    }
}

/// The status of a meeting.
pub fn met_code(answer: Result<(), Refusal>) -> i32
    ensures { result ≡ met_code answer }
{
    match answer {
        Ok(()) => SUCCESS,
        Err(refusal) => refusal_code(refusal),
    }
}

/// Puts the number out that an answer has: a value, a count or a size.
pub fn put_number(answer: Result<Reply, Refusal>, out: &mut u64) -> i32
    ensures code { result ≡ number_code answer }
    ensures out { out.new ≡ number_out answer out.old }
{
    match answer {
        Ok(Reply::Value(Value::Uint64(x)) | Reply::Count(x) | Reply::Size(x)) => {
            *out = x;
            SUCCESS
        }
        Ok(Reply::Value(Value::Bool(_))) => DOMAIN_MISMATCH,
        Ok(Reply::NoValue) => NO_VALUE,
        Ok(_) => PANIC,
        Err(refusal) => refusal_code(refusal),
    }
}

/// Puts the truth value out that an answer has.
pub fn put_bool(answer: Result<Reply, Refusal>, out: &mut bool) -> i32
    ensures code { result ≡ bool_code answer }
    ensures out { out.new ≡ bool_out answer out.old }
{
    match answer {
        Ok(Reply::Value(Value::Bool(x))) => {
            *out = x;
            SUCCESS
        }
        Ok(Reply::Value(Value::Uint64(_))) => DOMAIN_MISMATCH,
        Ok(Reply::NoValue) => NO_VALUE,
        Ok(_) => PANIC,
        Err(refusal) => refusal_code(refusal),
    }
}

/// Puts the number out of the object that was made.
pub fn put_object(answer: Result<Reply, Refusal>, out: &mut u32) -> i32
    ensures code { result ≡ object_code answer }
    ensures out { out.new ≡ object_out answer out.old }
{
    match answer {
        Ok(Reply::MadeMatrix(MatrixId(n)) | Reply::MadeVector(VectorId(n))) => {
            *out = n;
            SUCCESS
        }
        Ok(_) => PANIC,
        Err(refusal) => refusal_code(refusal),
    }
}

/// Puts the dimensions out that an answer has.
pub fn put_dims(answer: Result<Reply, Refusal>, nrows: &mut u64, ncols: &mut u64) -> i32
    ensures code { result ≡ dims_code answer }
    ensures out { (nrows.new, ncols.new) ≡ dims_out answer (nrows.old, ncols.old) }
{
    match answer {
        Ok(Reply::Dims(rows, columns)) => {
            *nrows = rows;
            *ncols = columns;
            SUCCESS
        }
        Ok(_) => PANIC,
        Err(refusal) => refusal_code(refusal),
    }
}

/// Puts the status of an object out, if it has one.
pub fn put_info(info: Option<Info>, out: &mut i32) -> i32
    ensures { TellsInfo info result out.old out.new }
{
    match info {
        None => NO_VALUE,
        Some(Info::Success) => {
            *out = SUCCESS;
            SUCCESS
        }
        Some(Info::NoValue) => {
            *out = NO_VALUE;
            SUCCESS
        }
        Some(Info::Refused(refusal)) => {
            *out = refusal_code(refusal);
            SUCCESS
        }
    }
}

/// The domain of a number, which is that of GrB_Type_Code.
pub(crate) fn domain_at(n: u32) -> Option<Domain>
    ensures { result ≡ domain_at n }
{
    match n {
        1 => Some(Domain::Bool),
        9 => Some(Domain::Uint64),
        _ => None,
    }
}

/// The operator of a number.
pub(crate) fn op_at(n: u32) -> Option<BinaryOp>
    ensures { result ≡ op_at n }
{
    match n {
        1 => Some(BinaryOp::Lor),
        2 => Some(BinaryOp::Land),
        3 => Some(BinaryOp::Lxor),
        4 => Some(BinaryOp::Lxnor),
        5 => Some(BinaryOp::FirstBool),
        6 => Some(BinaryOp::SecondBool),
        7 => Some(BinaryOp::Plus),
        8 => Some(BinaryOp::Times),
        9 => Some(BinaryOp::Min),
        10 => Some(BinaryOp::Max),
        11 => Some(BinaryOp::Minus),
        12 => Some(BinaryOp::First),
        13 => Some(BinaryOp::Second),
        _ => None,
    }
}

/// The accumulator of a number, of which 0 is none.
pub(crate) fn accum_at(n: u32) -> Option<Option<BinaryOp>>
    ensures { result ≡ accum_at n }
{
    if n == 0 {
        return Some(None);
    }
    match op_at(n) {
        Some(op) => Some(Some(op)),
        None => None,
    }
}

/// The monoid of a number, which is that of its operator.
pub(crate) fn monoid_at(n: u32) -> Option<Monoid>
    ensures { result ≡ monoid_at n }
{
    match n {
        1 => Some(Monoid::Lor),
        2 => Some(Monoid::Land),
        3 => Some(Monoid::Lxor),
        4 => Some(Monoid::Lxnor),
        7 => Some(Monoid::Plus),
        8 => Some(Monoid::Times),
        9 => Some(Monoid::Min),
        10 => Some(Monoid::Max),
        _ => None,
    }
}

/// The unary operator of a number.
pub(crate) fn unary_at(n: u32) -> Option<UnaryOp>
    ensures { result ≡ unary_at n }
{
    match n {
        1 => Some(UnaryOp::IdentityBool),
        2 => Some(UnaryOp::Lnot),
        3 => Some(UnaryOp::Identity),
        4 => Some(UnaryOp::Ainv),
        5 => Some(UnaryOp::Bnot),
        _ => None,
    }
}

/// The diagonal of a number with a sign: above the main one, or with a minus below it. None is as far as 2^32.
pub(crate) fn diagonal_at(k: i64) -> Option<Diagonal>
    ensures { result ≡ diagonal_at k }
{
    let far = k.unsigned_abs();
    if far > u32::MAX as u64 {
        None
    } else if k < 0 {
        Some(Diagonal::Below(far as u32))
    } else {
        Some(Diagonal::Above(far as u32))
    }
}

/// The number of a row or a column, if it is none below 0.
pub(crate) fn index_at(k: i64) -> Option<u64>
    ensures { result ≡ index_at k }
{
    if k < 0 { None } else { Some(k.unsigned_abs()) }
}

/// The test of this number by places, and of the number that it compares with.
pub(crate) fn place_test_at(n: u32, k: i64) -> Option<Test>
    ensures { result ≡ place_test_at n k }
{
    match n {
        1 => Some(Test::Tril(diagonal_at(k)?)),
        2 => Some(Test::Triu(diagonal_at(k)?)),
        3 => Some(Test::Diag(diagonal_at(k)?)),
        4 => Some(Test::Offdiag(diagonal_at(k)?)),
        5 => Some(Test::RowLe(index_at(k)?)),
        6 => Some(Test::RowGt(index_at(k)?)),
        7 => Some(Test::ColLe(index_at(k)?)),
        8 => Some(Test::ColGt(index_at(k)?)),
        _ => None,
    }
}

/// The test of this number by values, and of the value that it compares with.
pub(crate) fn value_test_at(n: u32, x: Value) -> Option<Test>
    ensures { result ≡ value_test_at n x }
{
    match n {
        9 => Some(Test::ValueEq(x)),
        10 => Some(Test::ValueNe(x)),
        11 => Some(Test::ValueLt(x)),
        12 => Some(Test::ValueLe(x)),
        13 => Some(Test::ValueGt(x)),
        14 => Some(Test::ValueGe(x)),
        _ => None,
    }
}

/// The semiring of both, or the status that refuses them.
pub(crate) fn semiring_of(monoid: Monoid, op: BinaryOp) -> Result<Semiring, i32>
    ensures { result ≡ semiring_of monoid op }
{
    match Semiring::new(monoid, op) {
        Ok(semiring) => Ok(semiring),
        Err(_) => Err(DOMAIN_MISMATCH),
    }
}

/// The number of an object of one sort.
pub(crate) trait Id: Copy {
    /// The object of this number.
    ghost at: { ℕ → Self };

    /// The object of this number.
    fn at(n: u32) -> Self
        ensures { result ≡ at n };
}

impl Id for MatrixId {
    ghost at = { λ n. record { 0 = n } };

    fn at(n: u32) -> MatrixId {
        MatrixId(n)
    }
}

impl Id for VectorId {
    ghost at = { λ n. record { 0 = n } };

    fn at(n: u32) -> VectorId {
        VectorId(n)
    }
}

/// The mask of a number, of which the largest is none.
pub(crate) fn mask_at<I: Id>(n: u32) -> Option<I>
    ensures { result ≡ (if n == 4294967295 then None else Some (I.at n)) }
{
    if n == u32::MAX { None } else { Some(I::at(n)) }
}

/// The descriptor of five bits, from the lowest: replace, complement, structure, the first input transposed, and the second.
pub(crate) fn descriptor_at(n: u32) -> Option<Descriptor>
    ensures { result ≡ descriptor_at n }
{
    if n < 32 {
        Some(Descriptor {
            structure: (n / 4) % 2 == 1,
            comp: (n / 2) % 2 == 1,
            replace: n % 2 == 1,
            tran: (n / 8) % 2 == 1,
            tran1: (n / 16) % 2 == 1,
        })
    } else {
        None
    }
}

/// The descriptor of the lowest three of these bits, for what reads no matrix transposed.
pub(crate) fn upright_descriptor_at(n: u32) -> Option<Descriptor>
    ensures { result ≡ upright_descriptor_at n }
{
    if n < 8 { descriptor_at(n) } else { None }
}

/// The descriptor without the bit of the second input, for what reads no second input transposed.
pub(crate) fn first_descriptor_at(n: u32) -> Option<Descriptor>
    ensures { result ≡ first_descriptor_at n }
{
    if n < 16 { descriptor_at(n) } else { None }
}

/// The descriptor without the bit of the first input, for what reads no first input transposed.
pub(crate) fn second_descriptor_at(n: u32) -> Option<Descriptor>
    ensures { result ≡ second_descriptor_at n }
{
    if (n / 8) % 2 == 1 {
        None
    } else {
        descriptor_at(n)
    }
}

/// The mode of a number.
pub(crate) fn mode_at(n: u32) -> Option<WaitMode>
    ensures { result ≡ mode_at n }
{
    match n {
        0 => Some(WaitMode::Complete),
        1 => Some(WaitMode::Materialize),
        _ => None,
    }
}
