//! The product of two matrices: rows of it, all of it, and all of it written into an output.
ghost use Rattle.std.specs.Prelude.{◌≡◌, ◌<◌, ◌≤◌, ◌++◌, ℕ, length, true, All, IsTrue, IfOk, IfSome, false};
ghost use Rattle.std.specs.Option.{option_map};
ghost use Rattle.std.specs.FinMap.{is_sorted};
ghost use Rattle.grb_core.specs.Operator.{op_domain};
ghost use Rattle.grb_core.specs.Monoid.{monoid_domain};
ghost use Rattle.grb_core.specs.Entries.{cell_cmp};
ghost use Rattle.grb_core.specs.Contents.{IsMatrix};
ghost use Rattle.grb_core.specs.Written.{written};
ghost use Rattle.grb_core.specs.Results.{mxm_of, turned};
ghost use Rattle.grb_lists.specs.Cells.{decoded, IsFlat};
ghost use Rattle.grb_ewise.specs.Rows.{flat_entries};
ghost use Rattle.grb_ewise.specs.Premises.{IsMatrixInput, IsMatrixOutput, LieInside, columns_read, rows_read};
ghost use Rattle.grb_ewise.specs.Written.{written_into_matrix};
ghost use Rattle.grb_mxm.specs.Rows.{AreBelow, bounding, rows_between, selected_product};

use crate::factors::{Factors, RowsOfProduct};
use crate::rows::{MadeRows, Part, no_rows};
use crate::true_rows::InBits;
use grb_core::{BinaryOp, Descriptor, Domain, Semiring};
use grb_ewise::{Stored, read_matrix, write_inside_matrix, write_masked_matrix};
use grb_lists::FlatRows;
use grb_semirings::{Folded, MatrixRows, by_semiring, lend_matrix};
use grb_sparse::SparseMatrix;
use std::alloc::{AllocError, Global};

/// Puts the rows from one up to another of a product after rows that come before them: of the product of two matrices whose values are of
/// one Rust type, at the cells that a mask selects; at all cells, where there is no mask. `AllocError` where memory is refused; then
/// nothing is made, and the rows that were there are dropped.
///
/// - `structure`: whether the mask is read by structure; else by value.
/// - `a`, `b`: the first and the second matrix; the value of `a` comes first in a product.
/// - `made`: the rows that are there, all below `from`.
/// - `from`, `upto`: the first row that is made, and the one that comes after the last.
/// - `reserves`: whether memory is reserved ahead for the entries of all rows of the product, where no entry is there yet: for who makes
///   all of it. Else the lists grow as they are written.
///
/// Time and memory are those of `mxm` for these rows alone, and for what `mxm` makes once: work arrays, and lists by which rows and columns
/// are found. Without `reserves` products are not counted, and none is left out because all values are true.
///
/// Source: own.
pub fn append_product<T: InBits + Folded + Drop>(
    alloc: Global,
    semiring: Semiring,
    structure: bool,
    mask: Option<&FlatRows>,
    a: MatrixRows<T>,
    b: MatrixRows<T>,
    made: MadeRows<T>,
    from: u64,
    upto: u64,
    reserves: bool,
) -> Result<MadeRows<T>, AllocError>
    requires monoid_domain { monoid_domain semiring.monoid ≡ T.domain }
    requires op_domain { op_domain semiring.op ≡ T.domain }
    requires mask_ordered { IfSome mask (λ m. IsTrue (is_sorted cell_cmp (decoded m.now.entries))) }
    requires mask_in_range { IfSome mask (λ m. All (λ e. e.0.1 < b.ncols) (decoded m.now.entries)) }
    requires rises { from ≤ upto }
    requires lists { AreBelow from made.rows.items made.starts.items made.columns.items made.values.items }
    requires below { All (λ e. e.0.0 < from) (flat_entries T.value made.rows.items made.starts.items made.columns.items made.values.items) }
    ensures lists { IfOk result (λ all. AreBelow upto all.rows.items all.starts.items all.columns.items all.values.items) }
    ensures entries { IfOk result (λ all. flat_entries T.value all.rows.items all.starts.items all.columns.items all.values.items ≡ flat_entries T.value made.rows.items made.starts.items made.columns.items made.values.items ++ rows_between from upto (selected_product semiring structure (option_map (λ m. decoded m.now.entries) mask.entry) (decoded a.entry.lists.now.entries) (decoded b.entry.lists.now.entries))) }
{
    let factors: Factors<T> = Factors {
        alloc,
        structure,
        mask,
        a,
        b,
    };
    let part: Part<T> = Part {
        made,
        from,
        upto,
        reserves,
    };
    let rows: RowsOfProduct<T> = RowsOfProduct { factors, part };
    let all = by_semiring(semiring, rows)?;
    Ok(all)
}

/// The matrix of these rows. They are not copied.
///
/// Source: own.
pub fn keep_rows<T: Stored>(
    alloc: Global,
    nrows: u64,
    ncols: u64,
    made: MadeRows<T>,
) -> SparseMatrix
    requires flat { IsFlat made.rows.items made.starts.items made.columns.items }
    requires same { length made.values.items ≡ length made.columns.items }
    requires whole { IsMatrix (record { domain = T.domain; nrows = nrows; ncols = ncols; entries = flat_entries T.value made.rows.items made.starts.items made.columns.items made.values.items }) }
    ensures matrix { result.matrix ≡ record { domain = T.domain; nrows = nrows; ncols = ncols; entries = flat_entries T.value made.rows.items made.starts.items made.columns.items made.values.items } }
    ensures assembled { result.assembled ≡ true }
{
    let lists = T::keep(made.rows, made.starts, made.columns, made.values);
    SparseMatrix::from_lists(alloc, nrows, ncols, lists)
}

/// The product of two matrices at the cells that a mask selects, as a matrix; at all cells, where there is no mask. The mask is read by
/// structure where `structure` says so, else by value. `AllocError` where memory is refused; then nothing is made. Time and memory are
/// those of `mxm`, where it reads both as they are.
///
/// Source: own.
pub fn product(
    alloc: Global,
    semiring: Semiring,
    structure: bool,
    mask: Option<&FlatRows>,
    a: &SparseMatrix,
    b: &SparseMatrix,
) -> Result<SparseMatrix, AllocError>
    requires a { IsMatrixInput false (op_domain semiring.op) a.now.matrix.nrows b.now.matrix.nrows a.now }
    requires b { IsMatrixInput false (op_domain semiring.op) b.now.matrix.nrows b.now.matrix.ncols b.now }
    requires mask_ordered { IfSome mask (λ m. IsTrue (is_sorted cell_cmp (decoded m.now.entries))) }
    requires mask_in_range { IfSome mask (λ m. All (λ e. e.0.1 < b.now.matrix.ncols) (decoded m.now.entries)) }
    ensures matrix { IfOk result (λ made. made.matrix ≡ record { domain = a.now.matrix.domain; nrows = a.now.matrix.nrows; ncols = b.now.matrix.ncols; entries = selected_product semiring structure (option_map (λ m. decoded m.now.entries) mask.entry) a.now.matrix.entries b.now.matrix.entries }) }
    ensures assembled { IfOk result (λ made. made.assembled ≡ true) }
{
    let (nrows, _inner) = a.dims();
    let (_rows, ncols) = b.dims();
    match semiring.domain() {
        Domain::Bool => {
            let (first, second) = (lend_matrix(a), lend_matrix(b));
            let none = no_rows::<bool>(alloc);
            let made = append_product::<bool>(
                alloc, semiring, structure, mask, first, second, none, 0, nrows, true,
            )?;
            Ok(keep_rows::<bool>(alloc, nrows, ncols, made))
        }
        Domain::Uint64 => {
            let (first, second) = (lend_matrix(a), lend_matrix(b));
            let none = no_rows::<u64>(alloc);
            let made = append_product::<u64>(
                alloc, semiring, structure, mask, first, second, none, 0, nrows, true,
            )?;
            Ok(keep_rows::<u64>(alloc, nrows, ncols, made))
        }
    }
}

/// The flat lists of a mask that bounds the product; none, where there is no mask or its complement is meant. Takes no memory.
///
/// Source: own.
pub fn bounding_lists(mask: Option<&SparseMatrix>, comp: bool) -> Option<&FlatRows>
    requires assembled { IfSome mask (λ m. m.now.assembled ≡ true) }
    ensures ordered { IfSome result (λ m. IsTrue (is_sorted cell_cmp (decoded m.now.entries))) }
    ensures in_range { (n : ℕ) → IfSome mask.entry (λ m. m.now.matrix.ncols ≡ n) → IfSome result (λ m. All (λ e. e.0.1 < n) (decoded m.now.entries)) }
    ensures entries { option_map (λ m. decoded m.now.entries) result ≡ bounding comp (option_map (λ m. m.now.matrix.entries) mask.entry) }
{
    if comp {
        return None;
    }
    match mask {
        None => None,
        Some(mask) => Some(mask.lists()),
    }
}

/// The same of two matrices as they are read. `AllocError` where memory is refused; then nothing is made.
fn product_read(
    alloc: Global,
    semiring: Semiring,
    structure: bool,
    mask: Option<&FlatRows>,
    a: &SparseMatrix,
    b: &SparseMatrix,
    tran: bool,
    tran1: bool,
) -> Result<SparseMatrix, AllocError>
    requires a { IsMatrixInput tran (op_domain semiring.op) (rows_read tran a.now.matrix) (rows_read tran1 b.now.matrix) a.now }
    requires b { IsMatrixInput tran1 (op_domain semiring.op) (rows_read tran1 b.now.matrix) (columns_read tran1 b.now.matrix) b.now }
    requires mask_ordered { IfSome mask (λ m. IsTrue (is_sorted cell_cmp (decoded m.now.entries))) }
    requires mask_in_range { IfSome mask (λ m. All (λ e. e.0.1 < columns_read tran1 b.now.matrix) (decoded m.now.entries)) }
    ensures matrix { IfOk result (λ made. made.matrix ≡ record { domain = a.now.matrix.domain; nrows = rows_read tran a.now.matrix; ncols = columns_read tran1 b.now.matrix; entries = selected_product semiring structure (option_map (λ m. decoded m.now.entries) mask.entry) (turned tran a.now.matrix.entries) (turned tran1 b.now.matrix.entries) }) }
    ensures assembled { IfOk result (λ made. made.assembled ≡ true) }
{
    let first = read_matrix(alloc, a, tran)?;
    let second = read_matrix(alloc, b, tran1)?;
    let made = product(
        alloc,
        semiring,
        structure,
        mask,
        first.matrix(),
        second.matrix(),
    )?;
    Ok(made)
}

/// Writes a product into `output` by the accumulator, the mask and the descriptor. `AllocError` where memory is refused; then nothing is
/// made, and `output` is as before.
///
/// - `output`, `mask`, `accum`, `descriptor`: as `mxm` takes them.
/// - `computed`: the product, which is dropped where memory is refused. Where the mask is not complemented, nothing of it lies outside, as
///   of one that was bounded by it.
///
/// Where the mask is not complemented and there is no accumulator, the answer is `computed` itself, if there is no mask, the descriptor
/// says `replace`, or `output` stores nothing. Else time and memory are in proportion to the stored entries of the three.
///
/// Source: GraphBLAS C API 2.0, as `grb_ewise::write_masked_matrix`.
pub fn write_product(
    alloc: Global,
    output: &SparseMatrix,
    mask: Option<&SparseMatrix>,
    accum: Option<BinaryOp>,
    descriptor: Descriptor,
    computed: SparseMatrix,
) -> Result<SparseMatrix, AllocError>
    requires output { IsMatrixOutput output.now mask accum }
    requires computed { IsMatrixInput false output.now.matrix.domain output.now.matrix.nrows output.now.matrix.ncols computed }
    requires inside { descriptor.comp ≡ false → LieInside cell_cmp (option_map (λ m. m.now.matrix.entries) mask) descriptor computed.matrix.entries }
    ensures matrix { IfOk result (λ made. made.matrix ≡ written_into_matrix output.now mask.entry accum descriptor computed.matrix.entries) }
    ensures assembled { IfOk result (λ made. made.assembled ≡ true) }
{
    if descriptor.comp {
        let masked = write_masked_matrix(alloc, output, mask, accum, descriptor, computed)?;
        return Ok(masked);
    }
    let made = write_inside_matrix(alloc, output, mask, accum, descriptor, computed)?;
    Ok(made)
}

/// The product of two matrices: at each row of `a` and each column of `b` the fold, by the semiring's monoid, of what its operator makes of
/// both values where both are stored, and nothing where there is no such place; written into `output` by the accumulator, the mask and the
/// descriptor. `AllocError` where memory is refused; then nothing is made, and `output` is as before.
///
/// - `output`: the old output, which is read.
/// - `mask`: which cells may be written, read as `descriptor` says; `None` for all, or with `comp` for none.
/// - `accum`: combines the old value and the computed one where both are there; `None` for the computed one alone.
/// - `semiring`: its operator multiplies, its monoid adds up the products.
/// - `a`, `b`: the first and the second input; the value of `a` comes first in a product.
/// - `descriptor`: how the mask is read, whether what lies outside of it is removed, whether `a` is read transposed, and whether `b` is.
///
/// All are of one domain, the mask aside; `b` has one row for each column of `a`, and the output and the mask have the rows of `a` and the
/// columns of `b`. Where the descriptor says `tran`, `a` stands here for its transposed, and where it says `tran1`, `b` for its own: that is
/// made first, as `grb_ewise::transposed` does; else nothing is copied.
///
/// A mask that is given and not complemented bounds the work: sums are made at the cells that it selects alone, for the
/// rows in which it stores something, in time in proportion to the products that are looked at and to the mask's entries. Else time is in
/// proportion to the products that there are. A row of `a` with one entry takes no more than that, as rows of a permutation or of a
/// diagonal matrix do. For another with few products one step for 4096 columns is added: where there are more than 65,536 columns, and
/// rows of `b` are found by a list, for the columns from the least to the greatest with a product alone. For one with many products one
/// step for 64 columns is added. Where all values of `a` and `b` are true, and so is what the semiring makes of true and true, columns are
/// marked and nothing is added up, if there are no more than 8 products for each entry of both.
///
/// Work arrays of one place for each column are made where that is no more than 8 times the entries of `a` and `b`; else the columns in
/// which `b` or the mask stores something are numbered first, by a sort and a binary search for each entry. A row is found by a list of
/// where each begins, by its number, that is no longer than 8 times the entries, else by a binary search. Memory is in proportion to the
/// entries of all and of the product.
///
/// Source: GraphBLAS C API 2.0, "mxm".
pub fn mxm(
    alloc: Global,
    output: &SparseMatrix,
    mask: Option<&SparseMatrix>,
    accum: Option<BinaryOp>,
    semiring: Semiring,
    a: &SparseMatrix,
    b: &SparseMatrix,
    descriptor: Descriptor,
) -> Result<SparseMatrix, AllocError>
    requires output { IsMatrixOutput output.now mask accum }
    requires semiring_domain { op_domain semiring.op ≡ output.now.matrix.domain }
    requires a { IsMatrixInput descriptor.tran output.now.matrix.domain output.now.matrix.nrows (rows_read descriptor.tran1 b.now.matrix) a.now }
    requires b { IsMatrixInput descriptor.tran1 output.now.matrix.domain (rows_read descriptor.tran1 b.now.matrix) output.now.matrix.ncols b.now }
    ensures matrix { IfOk result (λ made. made.matrix ≡ written_into_matrix output.now mask.entry accum descriptor
        (mxm_of semiring (turned descriptor.tran a.now.matrix.entries) (turned descriptor.tran1 b.now.matrix.entries))) }
    ensures assembled { IfOk result (λ made. made.assembled ≡ true) }
{
    let bound = bounding_lists(mask, descriptor.comp);
    let (structure, tran, tran1) = (descriptor.structure, descriptor.tran, descriptor.tran1);
    let computed = product_read(alloc, semiring, structure, bound, a, b, tran, tran1)?;
    // A product that the mask bounds has nothing outside of it.
    let made = write_product(alloc, output, mask, accum, descriptor, computed)?;
    Ok(made)
}
