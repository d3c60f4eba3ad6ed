//! Lines of what version 3 computes of one object, and of the Kronecker product.
ghost use Rattle.std.specs.Prelude.{◌≡◌, ◌∷◌, map};
ghost use Rattle.grb_words.specs.Form.{ApplyForm, KroneckerForm, SelectForm, TransposeForm, apply_form, kronecker_form, select_form, transpose_form};
ghost use Rattle.grb_words.specs.Options.{spelled};
ghost use Rattle.grb_script.specs.Reading.{reading, saying, same_fit, are_of, apply_on, kronecker_on, select_on, transpose_on};

use crate::ewise::{are_of, is_same_sort, mask_is_of, turn_fits, used_mask};
use crate::names::{Names, Sort};
use crate::statement::{Statement, used};
use grb_call::Descriptor;
use grb_core::{BinaryOp, Function, Test};
use grb_words::{
    FaultKind, Options, Turns, Version, function_first, function_turns, options_in, test_first,
    word,
};

/// What a statement says that transposes a matrix. All its objects are matrices, and stand by the numbers of their names.
#[derive(Clone, Copy, Debug, PartialEq, Eq)]
pub struct Transposition {
    /// The name of the output.
    pub output: usize,
    /// The name of the mask, where one is given.
    pub mask: Option<usize>,
    /// The name of the input.
    pub input: usize,
    /// The accumulator, where one is given.
    pub accum: Option<BinaryOp>,
    /// How the input and the mask are read and the output is written. With `tran` the input is turned twice. `tran1` is false.
    pub descriptor: Descriptor,
}

/// What a statement says that applies a function to each value of an object. All its objects are of one sort, and stand by the numbers of
/// their names.
#[derive(Clone, Copy, PartialEq, Eq)]
pub struct Application {
    /// The name of the output.
    pub output: usize,
    /// The name of the mask, where one is given.
    pub mask: Option<usize>,
    /// The name of the input.
    pub input: usize,
    /// The sort of all objects.
    pub sort: Sort,
    /// The accumulator, where one is given.
    pub accum: Option<BinaryOp>,
    /// The function.
    pub function: Function,
    /// How the input and the mask are read and the output is written. `tran1` is false where the input stands first, and `tran` where it
    /// stands second; both are where the sort is that of vectors.
    pub descriptor: Descriptor,
}

/// What a statement says that selects entries of an object. All its objects are of one sort, and stand by the numbers of their names.
#[derive(Clone, Copy, PartialEq, Eq)]
pub struct Selection {
    /// The name of the output.
    pub output: usize,
    /// The name of the mask, where one is given.
    pub mask: Option<usize>,
    /// The name of the input.
    pub input: usize,
    /// The sort of all objects.
    pub sort: Sort,
    /// The accumulator, where one is given.
    pub accum: Option<BinaryOp>,
    /// The test that an entry has to pass.
    pub test: Test,
    /// How the input and the mask are read and the output is written. `tran1` is false, and `tran` is where the sort is that of vectors.
    pub descriptor: Descriptor,
}

/// What a statement says that makes a Kronecker product. All its objects are matrices, and stand by the numbers of their names.
#[derive(Clone, Copy, Debug, PartialEq, Eq)]
pub struct KroneckerProduct {
    /// The name of the output.
    pub output: usize,
    /// The name of the mask, where one is given.
    pub mask: Option<usize>,
    /// The name of the first input.
    pub left: usize,
    /// The name of the second input.
    pub right: usize,
    /// The accumulator, where one is given.
    pub accum: Option<BinaryOp>,
    /// The operator that combines the inputs.
    pub op: BinaryOp,
    /// How the inputs and the mask are read and the output is written.
    pub descriptor: Descriptor,
}

/// What a `transpose` says by the numbers and the sorts of its names.
fn transpose_on(
    output: (usize, Sort),
    input: (usize, Sort),
    mask: Option<(usize, Sort)>,
    options: &Options<'_>,
) -> Result<Statement, FaultKind>
    ensures { result ≡ transpose_on output input mask (spelled options.now) }
{
    let is_right = is_same_sort(Sort::Matrix, output.1)
        && is_same_sort(Sort::Matrix, input.1)
        && mask_is_of(Sort::Matrix, mask);
    if !is_right {
        return Err(FaultKind::WrongKind);
    }
    Ok(Statement::Transpose(Transposition {
        output: output.0,
        mask: mask.map(|mask| mask.0),
        input: input.0,
        accum: options.accum,
        descriptor: options.descriptor,
    }))
}

/// What the words of a `transpose` say where these names stand.
fn transpose_of(
    output: &[u8],
    input: &[u8],
    options: &Options<'_>,
    names: &Names,
) -> Result<Statement, FaultKind>
    ensures { result ≡ saying names.now (TransposeForm output.now input.now (spelled options.now)) }
{
    let output = used(output, names)?;
    let input = used(input, names)?;
    let mask = used_mask(options.mask, names)?;
    transpose_on(output, input, mask, options)
}

/// `transpose NAME NAME OPTIONS`, by its second name and the words after it.
fn transpose_by_words(
    version: Version,
    output: &[u8],
    input: &[u8],
    options: &[&[u8]],
    names: &Names,
) -> Result<Statement, FaultKind>
    ensures { result ≡ reading names.now (transpose_form version output.now (input.now ∷ map (λ word. word.now) options.now)) }
{
    if !word::is_name(input) {
        return Err(FaultKind::Statement);
    }
    let Some(options) = options_in(version, Turns::First, options) else {
        return Err(FaultKind::Statement);
    };
    transpose_of(output, input, &options, names)
}

/// `transpose NAME NAME OPTIONS`, where `output` is the first name, in a script of this version.
pub(crate) fn transpose(
    version: Version,
    output: &[u8],
    others: &[&[u8]],
    names: &Names,
) -> Result<Statement, FaultKind>
    ensures { result ≡ reading names.now (transpose_form version output.now (map (λ word. word.now) others.now)) }
{
    let [input, options @ ..] = others else {
        return Err(FaultKind::Statement);
    };
    transpose_by_words(version, output, input, options, names)
}

/// Whether these objects, and that of the mask where one is given, are of one sort, which is not that of vectors where one is read
/// transposed.
fn same_fit(
    output: (usize, Sort),
    input: (usize, Sort),
    mask: Option<(usize, Sort)>,
    descriptor: Descriptor,
) -> bool
    ensures { result ≡ same_fit output input mask descriptor }
{
    is_same_sort(output.1, input.1) && mask_is_of(output.1, mask) && turn_fits(output.1, descriptor)
}

/// What an `apply` says by the numbers and the sorts of its names.
fn apply_on(
    output: (usize, Sort),
    input: (usize, Sort),
    mask: Option<(usize, Sort)>,
    function: Function,
    options: &Options<'_>,
) -> Result<Statement, FaultKind>
    ensures { result ≡ apply_on output input mask function (spelled options.now) }
{
    if !same_fit(output, input, mask, options.descriptor) {
        return Err(FaultKind::WrongKind);
    }
    Ok(Statement::Apply(Application {
        sort: output.1,
        output: output.0,
        mask: mask.map(|mask| mask.0),
        accum: options.accum,
        function,
        input: input.0,
        descriptor: options.descriptor,
    }))
}

/// What the words of an `apply` say where these names stand.
fn apply_of(
    output: &[u8],
    input: &[u8],
    function: Function,
    options: &Options<'_>,
    names: &Names,
) -> Result<Statement, FaultKind>
    ensures { result ≡ saying names.now (ApplyForm output.now input.now function (spelled options.now)) }
{
    let output = used(output, names)?;
    let input = used(input, names)?;
    let mask = used_mask(options.mask, names)?;
    apply_on(output, input, mask, function, options)
}

/// `apply NAME NAME FUNCTION OPTIONS`, by its second name and the words after it.
fn apply_by_words(
    version: Version,
    output: &[u8],
    input: &[u8],
    others: &[&[u8]],
    names: &Names,
) -> Result<Statement, FaultKind>
    ensures { result ≡ reading names.now (apply_form version output.now (input.now ∷ map (λ word. word.now) others.now)) }
{
    if !word::is_name(input) {
        return Err(FaultKind::Statement);
    }
    let Some((function, options)) = function_first(others) else {
        return Err(FaultKind::Statement);
    };
    let Some(options) = options_in(version, function_turns(function), options) else {
        return Err(FaultKind::Statement);
    };
    apply_of(output, input, function, &options, names)
}

/// `apply NAME NAME FUNCTION OPTIONS`, where `output` is the first name, in a script of this version. The function is `UNARY`, `VALUE OP`
/// or `OP VALUE`.
pub(crate) fn apply(
    version: Version,
    output: &[u8],
    others: &[&[u8]],
    names: &Names,
) -> Result<Statement, FaultKind>
    ensures { result ≡ reading names.now (apply_form version output.now (map (λ word. word.now) others.now)) }
{
    let [input, others @ ..] = others else {
        return Err(FaultKind::Statement);
    };
    apply_by_words(version, output, input, others, names)
}

/// What a `select` says by the numbers and the sorts of its names.
fn select_on(
    output: (usize, Sort),
    input: (usize, Sort),
    mask: Option<(usize, Sort)>,
    test: Test,
    options: &Options<'_>,
) -> Result<Statement, FaultKind>
    ensures { result ≡ select_on output input mask test (spelled options.now) }
{
    if !same_fit(output, input, mask, options.descriptor) {
        return Err(FaultKind::WrongKind);
    }
    Ok(Statement::Select(Selection {
        sort: output.1,
        output: output.0,
        mask: mask.map(|mask| mask.0),
        accum: options.accum,
        test,
        input: input.0,
        descriptor: options.descriptor,
    }))
}

/// What the words of a `select` say where these names stand.
fn select_of(
    output: &[u8],
    input: &[u8],
    test: Test,
    options: &Options<'_>,
    names: &Names,
) -> Result<Statement, FaultKind>
    ensures { result ≡ saying names.now (SelectForm output.now input.now test (spelled options.now)) }
{
    let output = used(output, names)?;
    let input = used(input, names)?;
    let mask = used_mask(options.mask, names)?;
    select_on(output, input, mask, test, options)
}

/// `select NAME NAME TEST OPTIONS`, by its second name and the words after it.
fn select_by_words(
    version: Version,
    output: &[u8],
    input: &[u8],
    others: &[&[u8]],
    names: &Names,
) -> Result<Statement, FaultKind>
    ensures { result ≡ reading names.now (select_form version output.now (input.now ∷ map (λ word. word.now) others.now)) }
{
    if !word::is_name(input) {
        return Err(FaultKind::Statement);
    }
    let Some((test, options)) = test_first(others) else {
        return Err(FaultKind::Statement);
    };
    let Some(options) = options_in(version, Turns::First, options) else {
        return Err(FaultKind::Statement);
    };
    select_of(output, input, test, &options, names)
}

/// `select NAME NAME TEST OPTIONS`, where `output` is the first name, in a script of this version.
pub(crate) fn select(
    version: Version,
    output: &[u8],
    others: &[&[u8]],
    names: &Names,
) -> Result<Statement, FaultKind>
    ensures { result ≡ reading names.now (select_form version output.now (map (λ word. word.now) others.now)) }
{
    let [input, others @ ..] = others else {
        return Err(FaultKind::Statement);
    };
    select_by_words(version, output, input, others, names)
}

/// What a `kronecker` says by the numbers and the sorts of its names.
fn kronecker_on(
    output: (usize, Sort),
    left: (usize, Sort),
    right: (usize, Sort),
    mask: Option<(usize, Sort)>,
    op: BinaryOp,
    options: &Options<'_>,
) -> Result<Statement, FaultKind>
    ensures { result ≡ kronecker_on output left right mask op (spelled options.now) }
{
    if !is_same_sort(Sort::Matrix, output.1) || !are_of(Sort::Matrix, left, right, mask) {
        return Err(FaultKind::WrongKind);
    }
    Ok(Statement::Kronecker(KroneckerProduct {
        output: output.0,
        mask: mask.map(|mask| mask.0),
        accum: options.accum,
        op,
        left: left.0,
        right: right.0,
        descriptor: options.descriptor,
    }))
}

/// What the words of a `kronecker` say where these names stand.
fn kronecker_of(
    output: &[u8],
    left: &[u8],
    right: &[u8],
    op: BinaryOp,
    options: &Options<'_>,
    names: &Names,
) -> Result<Statement, FaultKind>
    ensures { result ≡ saying names.now (KroneckerForm output.now left.now right.now op (spelled options.now)) }
{
    let output = used(output, names)?;
    let left = used(left, names)?;
    let right = used(right, names)?;
    let mask = used_mask(options.mask, names)?;
    kronecker_on(output, left, right, mask, op, options)
}

/// `kronecker NAME NAME NAME OP OPTIONS`, by each of its words.
fn kronecker_by_words(
    version: Version,
    output: &[u8],
    left: &[u8],
    right: &[u8],
    op: &[u8],
    options: &[&[u8]],
    names: &Names,
) -> Result<Statement, FaultKind>
    ensures { result ≡ reading names.now (kronecker_form version output.now (left.now ∷ right.now ∷ op.now ∷ map (λ word. word.now) options.now)) }
{
    if !word::is_name(left) || !word::is_name(right) {
        return Err(FaultKind::Statement);
    }
    let Some(op) = word::operator(op) else {
        return Err(FaultKind::Statement);
    };
    let Some(options) = options_in(version, Turns::Both, options) else {
        return Err(FaultKind::Statement);
    };
    kronecker_of(output, left, right, op, &options, names)
}

/// `kronecker NAME NAME NAME OP OPTIONS`, where `output` is the first name, in a script of this version.
pub(crate) fn kronecker(
    version: Version,
    output: &[u8],
    others: &[&[u8]],
    names: &Names,
) -> Result<Statement, FaultKind>
    ensures { result ≡ reading names.now (kronecker_form version output.now (map (λ word. word.now) others.now)) }
{
    let [left, right, op, options @ ..] = others else {
        return Err(FaultKind::Statement);
    };
    kronecker_by_words(version, output, left, right, op, options, names)
}
