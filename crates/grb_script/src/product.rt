//! Lines of products and reductions.
ghost use Rattle.std.specs.Prelude.{◌≡◌, ◌∷◌, map};
ghost use Rattle.grb_script.specs.Reading.{reading, saying, output_sort, left_sort, right_sort, are_of_product, product_statement, semiring_made, product_on};
ghost use Rattle.grb_words.specs.Form.{ProductForm, ReduceForm, product_form, reduce_form};
ghost use Rattle.grb_words.specs.Options.{spelled};

use crate::ewise::{is_same_sort, mask_is_of, used_mask};
use crate::names::{Names, Sort};
use crate::statement::{Statement, used};
use grb_call::Descriptor;
use grb_core::{BinaryOp, Monoid, Semiring};
use grb_words::{FaultKind, Multiply, Options, Turns, Version, options_in, product_turns, word};

/// What a statement says that multiplies. All its objects stand by the numbers of their names.
#[derive(Clone, Copy, Debug, PartialEq, Eq)]
pub struct Product {
    /// The name of the output: a vector at `mxv` and `vxm`, and a matrix at `mxm`.
    pub output: usize,
    /// The name of the mask, where one is given. Its object is of the sort of the output.
    pub mask: Option<usize>,
    /// The name of the first input: a vector at `vxm`, and a matrix at `mxv` and `mxm`.
    pub left: usize,
    /// The name of the second input: a vector at `mxv`, and a matrix at `vxm` and `mxm`.
    pub right: usize,
    /// The accumulator, where one is given.
    pub accum: Option<BinaryOp>,
    /// What combines the inputs.
    pub semiring: Semiring,
    /// How the inputs and the mask are read and the output is written. `tran` is false at `vxm`, and `tran1` at `mxv`.
    pub descriptor: Descriptor,
}

/// What a statement says that reduces the rows of a matrix. All its objects stand by the numbers of their names.
#[derive(Clone, Copy, Debug, PartialEq, Eq)]
pub struct Reduction {
    /// The name of the output, a vector.
    pub output: usize,
    /// The name of the mask, a vector, where one is given.
    pub mask: Option<usize>,
    /// The name of the input, a matrix.
    pub input: usize,
    /// The accumulator, where one is given.
    pub accum: Option<BinaryOp>,
    /// What combines the values of a row.
    pub monoid: Monoid,
    /// How the input and the mask are read and the output is written. `tran1` is false.
    pub descriptor: Descriptor,
}

/// Whether the output is a matrix or a vector.
fn output_sort(multiply: Multiply) -> Sort
    ensures { result ≡ output_sort multiply }
{
    match multiply {
        Multiply::Mxv | Multiply::Vxm => Sort::Vector,
        Multiply::Mxm => Sort::Matrix,
    }
}

/// Whether the left input is a matrix or a vector.
fn left_sort(multiply: Multiply) -> Sort
    ensures { result ≡ left_sort multiply }
{
    match multiply {
        Multiply::Vxm => Sort::Vector,
        Multiply::Mxv | Multiply::Mxm => Sort::Matrix,
    }
}

/// Whether the right input is a matrix or a vector.
fn right_sort(multiply: Multiply) -> Sort
    ensures { result ≡ right_sort multiply }
{
    match multiply {
        Multiply::Mxv => Sort::Vector,
        Multiply::Vxm | Multiply::Mxm => Sort::Matrix,
    }
}

/// Whether these objects, and that of the mask where one is given, are of their sorts in this product.
fn are_of_product(
    multiply: Multiply,
    output: (usize, Sort),
    left: (usize, Sort),
    right: (usize, Sort),
    mask: Option<(usize, Sort)>,
) -> bool
    ensures { result ≡ are_of_product multiply output left right mask }
{
    is_same_sort(output_sort(multiply), output.1)
        && is_same_sort(left_sort(multiply), left.1)
        && is_same_sort(right_sort(multiply), right.1)
        && mask_is_of(output_sort(multiply), mask)
}

/// The statement of an mxv, a vxm or an mxm with these operands.
fn statement_of(multiply: Multiply, says: Product) -> Statement
    ensures { result ≡ product_statement multiply says }
{
    match multiply {
        Multiply::Mxv => Statement::Mxv(says),
        Multiply::Vxm => Statement::Vxm(says),
        Multiply::Mxm => Statement::Mxm(says),
    }
}

/// The semiring of these two, where both are of one domain.
fn semiring_made(monoid: Monoid, op: BinaryOp) -> Result<Semiring, FaultKind>
    ensures { result ≡ semiring_made (monoid, op) }
{
    match Semiring::new(monoid, op) {
        Ok(semiring) => Ok(semiring),
        Err(_) => Err(FaultKind::Semiring),
    }
}

/// What a statement that multiplies says by the numbers and the sorts of its names.
fn product_on(
    multiply: Multiply,
    output: (usize, Sort),
    left: (usize, Sort),
    right: (usize, Sort),
    mask: Option<(usize, Sort)>,
    semiring: (Monoid, BinaryOp),
    options: &Options<'_>,
) -> Result<Statement, FaultKind>
    ensures { result ≡ product_on multiply output left right mask semiring (spelled options.now) }
{
    if !are_of_product(multiply, output, left, right, mask) {
        return Err(FaultKind::WrongKind);
    }
    let says = Product {
        output: output.0,
        mask: mask.map(|mask| mask.0),
        accum: options.accum,
        semiring: semiring_made(semiring.0, semiring.1)?,
        left: left.0,
        right: right.0,
        descriptor: options.descriptor,
    };
    Ok(statement_of(multiply, says))
}

/// What the words of a statement that multiplies say where these names stand.
fn product_of(
    multiply: Multiply,
    output: &[u8],
    left: &[u8],
    right: &[u8],
    semiring: (Monoid, BinaryOp),
    options: &Options<'_>,
    names: &Names,
) -> Result<Statement, FaultKind>
    ensures { result ≡ saying names.now (ProductForm multiply output.now left.now right.now semiring (spelled options.now)) }
{
    let output = used(output, names)?;
    let left = used(left, names)?;
    let right = used(right, names)?;
    let mask = used_mask(options.mask, names)?;
    product_on(multiply, output, left, right, mask, semiring, options)
}

/// `mxv NAME NAME NAME SEMIRING OPTIONS`, or the same of `vxm` or `mxm`, by each of its words.
fn product_by_words(
    version: Version,
    multiply: Multiply,
    output: &[u8],
    left: &[u8],
    right: &[u8],
    semiring: &[u8],
    options: &[&[u8]],
    names: &Names,
) -> Result<Statement, FaultKind>
    ensures { result ≡ reading names.now (product_form version multiply output.now (left.now ∷ right.now ∷ semiring.now ∷ map (λ word. word.now) options.now)) }
{
    if !word::is_name(left) || !word::is_name(right) {
        return Err(FaultKind::Statement);
    }
    let Some(semiring) = word::semiring(semiring) else {
        return Err(FaultKind::Statement);
    };
    let Some(options) = options_in(version, product_turns(multiply), options) else {
        return Err(FaultKind::Statement);
    };
    product_of(multiply, output, left, right, semiring, &options, names)
}

/// `mxv NAME NAME NAME SEMIRING OPTIONS`, or the same of `vxm` or `mxm`, where `output` is the first name, in a script of this version.
pub(crate) fn read_product(
    version: Version,
    multiply: Multiply,
    output: &[u8],
    others: &[&[u8]],
    names: &Names,
) -> Result<Statement, FaultKind>
    ensures { result ≡ reading names.now (product_form version multiply output.now (map (λ word. word.now) others.now)) }
{
    let [left, right, semiring, options @ ..] = others else {
        return Err(FaultKind::Statement);
    };
    product_by_words(
        version, multiply, output, left, right, semiring, options, names,
    )
}

/// What the words of a reduction say where these names stand.
fn reduction_of(
    output: &[u8],
    input: &[u8],
    monoid: Monoid,
    options: &Options<'_>,
    names: &Names,
) -> Result<Statement, FaultKind>
    ensures { result ≡ saying names.now (ReduceForm output.now input.now monoid (spelled options.now)) }
{
    let output = used(output, names)?;
    let input = used(input, names)?;
    let mask = used_mask(options.mask, names)?;
    let is_right = is_same_sort(Sort::Vector, output.1)
        && is_same_sort(Sort::Matrix, input.1)
        && mask_is_of(Sort::Vector, mask);
    if !is_right {
        return Err(FaultKind::WrongKind);
    }
    Ok(Statement::Reduce(Reduction {
        output: output.0,
        mask: mask.map(|mask| mask.0),
        accum: options.accum,
        monoid,
        input: input.0,
        descriptor: options.descriptor,
    }))
}

/// `reduce NAME NAME MONOID OPTIONS`, by each of its words.
fn reduction_by_words(
    version: Version,
    output: &[u8],
    input: &[u8],
    monoid: &[u8],
    options: &[&[u8]],
    names: &Names,
) -> Result<Statement, FaultKind>
    ensures { result ≡ reading names.now (reduce_form version output.now (input.now ∷ monoid.now ∷ map (λ word. word.now) options.now)) }
{
    if !word::is_name(input) {
        return Err(FaultKind::Statement);
    }
    let Some(monoid) = word::monoid(monoid) else {
        return Err(FaultKind::Statement);
    };
    let Some(options) = options_in(version, Turns::First, options) else {
        return Err(FaultKind::Statement);
    };
    reduction_of(output, input, monoid, &options, names)
}

/// `reduce NAME NAME MONOID OPTIONS`, where `output` is the first name, in a script of this version.
pub(crate) fn read_reduction(
    version: Version,
    output: &[u8],
    others: &[&[u8]],
    names: &Names,
) -> Result<Statement, FaultKind>
    ensures { result ≡ reading names.now (reduce_form version output.now (map (λ word. word.now) others.now)) }
{
    let [input, monoid, options @ ..] = others else {
        return Err(FaultKind::Statement);
    };
    reduction_by_words(version, output, input, monoid, options, names)
}
