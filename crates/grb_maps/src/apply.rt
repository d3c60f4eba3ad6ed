//! apply: each entry's value by a function.
ghost use Rattle.std.specs.Prelude.{◌≡◌, true, IfOk};
ghost use Rattle.grb_core.specs.declared.value.Value.{Value as Brought};
ghost use Rattle.grb_core.specs.Value.{IsValueOf, value_domain};
ghost use Rattle.grb_core.specs.Operator.{op_domain};
ghost use Rattle.grb_core.specs.Contents.{edited_matrix, edited_vector};
ghost use Rattle.grb_core.specs.Results.{turned};
ghost use Rattle.grb_ewise.specs.Objects.{IsLike};
ghost use Rattle.grb_ewise.specs.Premises.{IsMatrixInput, IsMatrixOutput, IsVectorInput, IsVectorOutput};
ghost use Rattle.grb_ewise.specs.Written.{written_into_matrix, written_into_vector};
ghost use Rattle.grb_core.specs.Functions.{IsFunctionOf, turns_input, value_of_function};
ghost use Rattle.grb_core.specs.Maps.{applied};
ghost use Rattle.grb_maps.specs.Changed.{with_values};
ghost use Rattle.grb_maps.specs.Bound.{bound_value};

use crate::bound::{BoundFirst, BoundSecond};
use crate::objects::EachObject;
use crate::typed::Compared;
use grb_core::{BinaryOp, Descriptor, Domain, Function, UnaryOp, Value, turns_input};
use grb_ewise::{read_matrix, write_masked_matrix, write_masked_vector};
use grb_kernels::{ByOperator, Operator, Scalar};
use grb_sparse::{SparseMatrix, SparseVector};
use std::alloc::{AllocError, Global};
use std::marker::PhantomData;

/// The function as an operator with one argument bound, the first or the second.
fn bound_of(f: Function) -> (bool, BinaryOp, Value)
    ensures op { (d : Domain) → IsFunctionOf d f → op_domain result.1 ≡ d }
    ensures bound { (d : Domain) → IsFunctionOf d f → value_domain result.2 ≡ d }
    ensures value { (d : Domain) (v : Brought) → IsFunctionOf d f → IsValueOf d v → bound_value result.0 result.1 result.2 v ≡ value_of_function f v }
{
    match f {
        Function::First(x, op) => (true, op, x),
        Function::Second(op, x) => (false, op, x),
        Function::Unary(UnaryOp::Identity) => (false, BinaryOp::First, Value::Uint64(0)),
        Function::Unary(UnaryOp::IdentityBool) => (false, BinaryOp::FirstBool, Value::Bool(false)),
        Function::Unary(UnaryOp::Ainv) => (true, BinaryOp::Minus, Value::Uint64(0)),
        Function::Unary(UnaryOp::Bnot) => (true, BinaryOp::Minus, Value::Uint64(u64::MAX)),
        Function::Unary(UnaryOp::Lnot) => (true, BinaryOp::Lxor, Value::Bool(true)),
    }
}

/// An object, each value of which an operator combines with another value, whichever operator it is.
#[derive(Drop)]
struct Bound<'a, O: EachObject, T: Scalar> {
    alloc: Global,
    /// Whether the other value is the first argument.
    first: bool,
    x: T,
    a: &'a O,
    ghost assembled: { (O.contents a.now).assembled ≡ true },
    ghost domain: { (O.contents a.now).domain ≡ T.domain },
}

impl<'a, O: EachObject, T: Compared + Drop> ByOperator<T> for Bound<'a, O, T> {
    type Output = Result<O, AllocError>;

    ghost Gives = { λ p op result. IfOk result (λ made. IsLike (O.contents p.a.now) (with_values (bound_value p.first op (T.value p.x)) (O.contents p.a.now).entries) (O.contents made)) };

    /// What comes of it by an operator as a type. `AllocError` where memory is refused; then nothing is made.
    fn by<F: Operator<T>>(self) -> Result<O, AllocError> {
        if self.first {
            let change: BoundFirst<T, F> = BoundFirst {
                x: self.x,
                op: PhantomData,
            };
            return O::changed::<T, BoundFirst<T, F>>(self.alloc, &change, self.a);
        }
        let change: BoundSecond<T, F> = BoundSecond {
            x: self.x,
            op: PhantomData,
        };
        O::changed::<T, BoundSecond<T, F>>(self.alloc, &change, self.a)
    }
}

/// The object with each value by a function, of which the values are of the Rust type `T`. `AllocError` where memory is refused; then
/// nothing is made.
fn change<O: EachObject, T: Compared + Drop>(
    alloc: Global,
    f: Function,
    a: &O,
) -> Result<O, AllocError>
    requires assembled { (O.contents a.now).assembled ≡ true }
    requires domain { (O.contents a.now).domain ≡ T.domain }
    requires function { IsFunctionOf T.domain f }
    ensures { IfOk result (λ made. IsLike (O.contents a.now) (applied f (O.contents a.now).entries) (O.contents made)) }
{
    a.show();
    let (first, op, x) = bound_of(f);
    let bound = Bound {
        alloc,
        first,
        x: T::of(x),
        a,
    };
    let made = T::choose(op, bound)?;
    Ok(made)
}

/// The matrix with each value by a function. `AllocError` where memory is refused; then nothing is made.
fn change_matrix(alloc: Global, f: Function, a: &SparseMatrix) -> Result<SparseMatrix, AllocError>
    requires assembled { a.now.assembled ≡ true }
    requires function { IsFunctionOf a.now.matrix.domain f }
    ensures matrix { IfOk result (λ made. made.matrix ≡ edited_matrix (applied f) a.now.matrix) }
    ensures assembled { IfOk result (λ made. made.assembled ≡ true) }
{
    match a.domain() {
        Domain::Bool => {
            let made = change::<SparseMatrix, bool>(alloc, f, a)?;
            Ok(made)
        }
        Domain::Uint64 => {
            let made = change::<SparseMatrix, u64>(alloc, f, a)?;
            Ok(made)
        }
    }
}

/// The vector with each value by a function. `AllocError` where memory is refused; then nothing is made.
fn change_vector(alloc: Global, f: Function, u: &SparseVector) -> Result<SparseVector, AllocError>
    requires assembled { u.now.assembled ≡ true }
    requires function { IsFunctionOf u.now.vector.domain f }
    ensures vector { IfOk result (λ made. made.vector ≡ edited_vector (applied f) u.now.vector) }
    ensures assembled { IfOk result (λ made. made.assembled ≡ true) }
{
    match u.domain() {
        Domain::Bool => {
            let made = change::<SparseVector, bool>(alloc, f, u)?;
            Ok(made)
        }
        Domain::Uint64 => {
            let made = change::<SparseVector, u64>(alloc, f, u)?;
            Ok(made)
        }
    }
}

/// apply: each value of `a` by a function, written into `output` by the accumulator, the mask and the descriptor. `AllocError` where memory
/// is refused; then nothing is made, and `output` is as before.
///
/// - `output`: the old output, which is read.
/// - `mask`: which cells may be written, read as `descriptor` says; `None` for all, or with `comp` for none.
/// - `accum`: combines the old value and the computed one where both are there; `None` for the computed one alone.
/// - `f`: makes a value of each.
/// - `a`: the input. It stands second where the function has its first argument bound, and first otherwise.
/// - `descriptor`: how the mask is read, whether what lies outside of it is removed, and whether `a` is read transposed: by `tran` where it
///   stands first, and by `tran1` where it stands second.
///
/// All are of one domain, the mask aside, and of the same dimensions, those of `a` exchanged where it is read transposed. Time and memory
/// are in proportion to the stored entries.
///
/// Source: GraphBLAS C API 2.0, "apply".
pub fn apply_matrix(
    alloc: Global,
    output: &SparseMatrix,
    mask: Option<&SparseMatrix>,
    accum: Option<BinaryOp>,
    f: Function,
    a: &SparseMatrix,
    descriptor: Descriptor,
) -> Result<SparseMatrix, AllocError>
    requires output { IsMatrixOutput output.now mask accum }
    requires function { IsFunctionOf output.now.matrix.domain f }
    requires a { IsMatrixInput (turns_input f descriptor.tran descriptor.tran1) output.now.matrix.domain output.now.matrix.nrows output.now.matrix.ncols a.now }
    ensures matrix { IfOk result (λ made. made.matrix ≡ written_into_matrix output.now mask.entry accum descriptor
        (applied f (turned (turns_input f descriptor.tran descriptor.tran1) a.now.matrix.entries))) }
    ensures assembled { IfOk result (λ made. made.assembled ≡ true) }
{
    let input = read_matrix(alloc, a, turns_input(f, descriptor.tran, descriptor.tran1))?;
    let computed = change_matrix(alloc, f, input.matrix())?;
    write_masked_matrix(alloc, output, mask, accum, descriptor, computed)
}

/// apply: each value of `u` by a function, written into `output` by the accumulator, the mask and the descriptor. `AllocError` where memory
/// is refused; then nothing is made, and `output` is as before.
///
/// - `output`: the old output, which is read.
/// - `mask`: which indices may be written, read as `descriptor` says; `None` for all, or with `comp` for none.
/// - `accum`: combines the old value and the computed one where both are there; `None` for the computed one alone.
/// - `f`: makes a value of each.
/// - `u`: the input.
/// - `descriptor`: how the mask is read, whether what lies outside of it is removed; `tran` and `tran1` are not read.
///
/// All are of one domain, the mask aside, and of one size. Time and memory are in proportion to the stored entries.
///
/// Source: GraphBLAS C API 2.0, "apply".
pub fn apply_vector(
    alloc: Global,
    output: &SparseVector,
    mask: Option<&SparseVector>,
    accum: Option<BinaryOp>,
    f: Function,
    u: &SparseVector,
    descriptor: Descriptor,
) -> Result<SparseVector, AllocError>
    requires output { IsVectorOutput output.now mask accum }
    requires function { IsFunctionOf output.now.vector.domain f }
    requires u { IsVectorInput output.now.vector.domain output.now.vector.size u.now }
    ensures vector { IfOk result (λ made. made.vector ≡ written_into_vector output.now mask.entry accum descriptor
        (applied f u.now.vector.entries)) }
    ensures assembled { IfOk result (λ made. made.assembled ≡ true) }
{
    let computed = change_vector(alloc, f, u)?;
    write_masked_vector(alloc, output, mask, accum, descriptor, computed)
}
