//! Lines of element-wise operations.
ghost use Rattle.std.specs.Prelude.{◌≡◌, ◌∷◌, Some, None, map};
ghost use Rattle.std.specs.Option.{ok_or, option_map, option_map_or};
ghost use Rattle.grb_words.specs.Form.{EwiseForm, ewise_form};
ghost use Rattle.grb_script.specs.Names.{same_sort};
ghost use Rattle.grb_words.specs.Options.{spelled};
ghost use Rattle.grb_script.specs.Reading.{reading, saying, mask_found, mask_is_of, are_of, turn_fits, ewise_on, ewise_statement};

use crate::names::{Names, Sort};
use crate::statement::{Statement, used};
use grb_call::Descriptor;
use grb_core::BinaryOp;
use grb_words::{Ewise, FaultKind, Options, Turns, Version, options_in, word};

/// What an element-wise statement says. All its objects are of one sort, and stand by the numbers of their names.
#[derive(Clone, Copy, Debug, PartialEq, Eq)]
pub struct Elementwise {
    /// The name of the output.
    pub output: usize,
    /// The name of the mask, where one is given.
    pub mask: Option<usize>,
    /// The name of the first input.
    pub left: usize,
    /// The name of the second input.
    pub right: usize,
    /// The sort of all objects.
    pub sort: Sort,
    /// The accumulator, where one is given.
    pub accum: Option<BinaryOp>,
    /// The operator that combines the inputs.
    pub op: BinaryOp,
    /// How the inputs and the mask are read and the output is written. `tran` and `tran1` are false where the sort is that of vectors.
    pub descriptor: Descriptor,
}

/// Whether both sorts are one.
pub(crate) fn is_same_sort(one: Sort, other: Sort) -> bool
    ensures { result ≡ same_sort one other }
{
    matches!(
        (one, other),
        (Sort::Matrix, Sort::Matrix) | (Sort::Vector, Sort::Vector)
    )
}

/// Whether the object of the mask is of this sort, where one is given.
pub(crate) fn mask_is_of(sort: Sort, mask: Option<(usize, Sort)>) -> bool
    ensures { result ≡ mask_is_of sort mask }
{
    match mask {
        Some((_, other)) => is_same_sort(sort, other),
        None => true,
    }
}

/// Whether these two objects, and that of the mask where one is given, are of this sort.
pub(crate) fn are_of(
    sort: Sort,
    left: (usize, Sort),
    right: (usize, Sort),
    mask: Option<(usize, Sort)>,
) -> bool
    ensures { result ≡ are_of sort left right mask }
{
    is_same_sort(sort, left.1) && is_same_sort(sort, right.1) && mask_is_of(sort, mask)
}

/// Whether a statement on objects of this sort may say what this descriptor says of transposed inputs: that of vectors has none.
pub(crate) fn turn_fits(sort: Sort, descriptor: Descriptor) -> bool
    ensures { result ≡ turn_fits sort descriptor }
{
    match sort {
        Sort::Matrix => true,
        Sort::Vector => !descriptor.tran && !descriptor.tran1,
    }
}

/// The statement of an eWiseAdd or an eWiseMult with these operands.
fn statement_of(ewise: Ewise, says: Elementwise) -> Statement
    ensures { result ≡ ewise_statement ewise says }
{
    match ewise {
        Ewise::Add => Statement::EwiseAdd(says),
        Ewise::Mult => Statement::EwiseMult(says),
    }
}

/// The number and the sort of the name of the mask, where one is given.
pub(crate) fn used_mask(
    mask: Option<&[u8]>,
    names: &Names,
) -> Result<Option<(usize, Sort)>, FaultKind>
    ensures { result ≡ mask_found names.now (option_map (λ name. name.now) mask.entry) }
{
    match mask {
        Some(name) => Ok(Some(used(name, names)?)),
        None => Ok(None),
    }
}

/// What an element-wise statement says by the numbers and the sorts of its names.
fn ewise_on(
    ewise: Ewise,
    output: (usize, Sort),
    left: (usize, Sort),
    right: (usize, Sort),
    mask: Option<(usize, Sort)>,
    op: BinaryOp,
    options: &Options<'_>,
) -> Result<Statement, FaultKind>
    ensures { result ≡ ewise_on ewise output left right mask op (spelled options.now) }
{
    let fits = turn_fits(output.1, options.descriptor);
    if !are_of(output.1, left, right, mask) || !fits {
        return Err(FaultKind::WrongKind);
    }
    let says = Elementwise {
        sort: output.1,
        output: output.0,
        mask: mask.map(|mask| mask.0),
        accum: options.accum,
        op,
        left: left.0,
        right: right.0,
        descriptor: options.descriptor,
    };
    Ok(statement_of(ewise, says))
}

/// What the words of an element-wise statement say where these names stand.
fn ewise_of(
    ewise: Ewise,
    output: &[u8],
    left: &[u8],
    right: &[u8],
    op: BinaryOp,
    options: &Options<'_>,
    names: &Names,
) -> Result<Statement, FaultKind>
    ensures { result ≡ saying names.now (EwiseForm ewise output.now left.now right.now op (spelled options.now)) }
{
    let output = used(output, names)?;
    let left = used(left, names)?;
    let right = used(right, names)?;
    let mask = used_mask(options.mask, names)?;
    ewise_on(ewise, output, left, right, mask, op, options)
}

/// `ewiseadd NAME NAME NAME OP OPTIONS` or `ewisemult NAME NAME NAME OP OPTIONS`, by each of its words.
fn ewise_by_words(
    version: Version,
    ewise: Ewise,
    output: &[u8],
    left: &[u8],
    right: &[u8],
    op: &[u8],
    options: &[&[u8]],
    names: &Names,
) -> Result<Statement, FaultKind>
    ensures { result ≡ reading names.now (ewise_form version ewise output.now (left.now ∷ right.now ∷ op.now ∷ map (λ word. word.now) options.now)) }
{
    if !word::is_name(left) || !word::is_name(right) {
        return Err(FaultKind::Statement);
    }
    let Some(op) = word::operator(op) else {
        return Err(FaultKind::Statement);
    };
    let Some(options) = options_in(version, Turns::Both, options) else {
        return Err(FaultKind::Statement);
    };
    ewise_of(ewise, output, left, right, op, &options, names)
}

/// `ewiseadd NAME NAME NAME OP OPTIONS` or `ewisemult NAME NAME NAME OP OPTIONS`, where `output` is the first name, in a script of this
/// version.
pub(crate) fn ewise(
    version: Version,
    ewise: Ewise,
    output: &[u8],
    others: &[&[u8]],
    names: &Names,
) -> Result<Statement, FaultKind>
    ensures { result ≡ reading names.now (ewise_form version ewise output.now (map (λ word. word.now) others.now)) }
{
    let [left, right, op, options @ ..] = others else {
        return Err(FaultKind::Statement);
    };
    ewise_by_words(version, ewise, output, left, right, op, options, names)
}
