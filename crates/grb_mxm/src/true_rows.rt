//! The rows of a product of truth values all of which are true, where what the semiring makes of true and true is true: a row has true at
//! each column that has a product. So no product is made and no sum is added to: columns are marked, and nothing else.
ghost use Rattle.std.specs.Prelude.{◌≡◌, ◌<◌, ◌≤◌, ◌*◌, ◌||◌, ℕ, Bool, List, [], true, false, All, length, slice_index, slice_index_or, slice_set, is_some, IfOk, IfSome};
ghost use Rattle.std.specs.List.{AllByRecursion};
ghost use Rattle.std.specs.Ordering.{nat_cmp};
ghost use Rattle.std.specs.FinMap.{find};
ghost use Rattle.grb_core.specs.declared.value.Value.TheVariants as value;
ghost use Rattle.grb_core.specs.Operator.{value_of_op};
ghost use Rattle.grb_core.specs.Monoid.{monoid_op};
ghost use Rattle.grb_core.specs.Results.{row_of, mxm_of};
ghost use Rattle.grb_kernels.specs.Typed.{entries_of};
ghost use Rattle.grb_lists.specs.Cells.{decoded};
ghost use Rattle.grb_semirings.specs.Products.{is_any};
ghost use Rattle.grb_sums.specs.Bits.{is_marked};
ghost use Rattle.grb_sums.specs.Marks.{touched, AreMarks, AreTops, IsCleared, AreNoTops};
ghost use Rattle.grb_sums.specs.Naming.{name_in};
ghost use Rattle.grb_mxm.specs.Rows.{AreAppended};

use crate::rows::{MadeRows, Part, RowMaker, make_rows, no_rows};
use crate::whole_rows::{reached, scale_row};
use grb_ewise::Stored;
use grb_kernels::operators::Land;
use grb_kernels::{EntrySlice, Operator, Scalar};
use grb_semirings::{MatrixRows, MonoidOver};
use grb_sums::{OpenSums, RankedRows, ToppedSums, mark, take_topped};
use std::alloc::{AllocError, Global};
use std::marker::PhantomData;

/// Whether a value is true, and those before it were.
fn true_too(value: bool, before: bool) -> bool
    ensures before { result ≡ true → before ≡ true }
    ensures here { result ≡ true → value ≡ true }
{
    if value {
        return before;
    }
    false
}

/// Whether all values are true.
fn are_true(values: &[bool]) -> bool
    ensures { result ≡ true → (k : ℕ) → k < length values.now → slice_index_or values.now k false ≡ true }
{
    let mut all = true;
    'values: for i in 0..values.len() {
        all = true_too(values[i], all);
    }
    all
}

/// Whether the product of true and true is true, and so is their sum.
fn is_true_of_true<M: MonoidOver<bool>, O: Operator<bool>>() -> bool
    ensures times { result ≡ true → value_of_op O.op (value.Bool true) (value.Bool true) ≡ value.Bool true }
    ensures plus { result ≡ true → value_of_op (monoid_op M.monoid) (value.Bool true) (value.Bool true) ≡ value.Bool true }
{
    if O::apply(true, true) {
        return M::add(true, true);
    }
    false
}

/// Sets the bit of a word in `tops`, but where it is the word before, whose bit is set: neighbours wait for no write then.
fn mark_after(before: usize, word: usize, tops: &mut [u64])
    requires in_range { word < 64 * length tops.old }
    ensures { (marks : List Bool) → word < length marks → (word ≡ before → slice_index_or marks word false ≡ true) → AreMarks marks tops.old → AreMarks (slice_set marks word true) tops.new }
{
    if word == before {
        return;
    }
    mark(tops, word);
}

/// Marks the places of a row, and in `tops` the words that get a mark.
fn mark_row(row: &EntrySlice<bool>, words: &mut [u64], tops: &mut [u64])
    requires in_range { All (λ p. p < 64 * length words.old) row.now.indices.now }
    requires tops { AreTops words.old tops.old }
    ensures marked { (p : ℕ) → is_marked words.new p ≡ (is_marked words.old p || is_some (find nat_cmp p (entries_of (λ b. value.Bool b) row.now.indices.now row.now.values.now))) }
    ensures tops { AreTops words.new tops.new }
{
    let places = row.indices;
    let mut before = words.len();
    'row: for i in 0..places.len() {
        let at = places[i] as usize;
        mark(words, at);
        mark_after(before, at / 64, tops);
        before = at / 64;
    }
}

/// Marks the places of the rows that a row of the first matrix picks, and in `tops` the words that get a mark.
fn mark_rows(first: &EntrySlice<bool>, b: &RankedRows<bool>, words: &mut [u64], tops: &mut [u64])
    requires enough { length b.now.names.now ≤ 64 * length words.old }
    requires none { (w : ℕ) → slice_index words.old w ≡ 0 }
    requires tops { AreTops words.old tops.old }
    ensures marked { (p : ℕ) → p < length b.now.names.now → is_marked words.new p ≡ is_any (λ k. find nat_cmp (name_in b.now.names.now p) (row_of k (decoded b.now.lists.now.entries))) first.now.indices.now }
    ensures within { (p : ℕ) → is_marked words.new p ≡ true → p < length b.now.names.now }
    ensures tops { AreTops words.new tops.new }
{
    let columns = first.indices;
    'entries: for i in 0..columns.len() {
        let row = (&*b).row(columns[i]);
        mark_row(&row, words, tops);
    }
}

/// All cells of such a product.
#[derive(Drop)]
struct TrueRows<'a, M: MonoidOver<bool>, O: Operator<bool>> {
    a: &'a MatrixRows<'a, bool>,
    b: &'a RankedRows<'a, bool>,
    of: PhantomData<(M, O)>,
    ghost a_true: { All (λ e. e.1 ≡ value.Bool true) (decoded a.now.lists.now.entries) },
    ghost b_true: { All (λ e. e.1 ≡ value.Bool true) (decoded b.now.lists.now.entries) },
    ghost times: { value_of_op O.op (value.Bool true) (value.Bool true) ≡ value.Bool true },
    ghost plus: { value_of_op (monoid_op M.monoid) (value.Bool true) (value.Bool true) ≡ value.Bool true },
}

impl<'a, M: MonoidOver<bool>, O: Operator<bool>> RowMaker<bool> for TrueRows<'a, M, O> {
    type Work = ToppedSums<bool>;

    ghost makes = { λ rows. mxm_of (record { monoid = M.monoid; op = O.op }) (decoded rows.a.now.lists.now.entries) (decoded rows.b.now.lists.now.entries) };

    ghost listed = { λ rows. rows.a.now.lists.now.rows };

    ghost most = { λ rows. length rows.b.now.names.now };

    ghost ready = { λ rows work. (IsCleared (λ (b : Bool). value.Bool b) (value.Bool true) (length rows.b.now.names.now) work.lower.sums.items work.lower.words.items) × (AreNoTops work.lower.words.items work.tops.items) };

    fn work(&self, alloc: Global) -> Result<ToppedSums<bool>, AllocError> {
        let count = self.b.names.len();
        let words = vec![in alloc; 0u64; count / 64 + 1]?;
        let tops = vec![in alloc; 0u64; words.len() / 64 + 1]?;
        let sums = vec![in alloc; true; count]?;
        let lower = OpenSums { sums, words };
        Ok(ToppedSums { lower, tops })
    }

    fn width(&self) -> usize {
        self.b.names.len()
    }

    fn numbers(&self) -> &[u32] {
        self.a.lists.rows()
    }

    fn make(
        &self,
        place: usize,
        work: &mut ToppedSums<bool>,
        columns: &mut [u32],
        values: &mut [bool],
    ) -> usize {
        let row = bool::row(self.a.lists, place);
        if row.indices.len() == 1 {
            return scale_row::<bool, O>(row.indices[0], row.values[0], self.b, columns, values);
        }
        let (from, upto) = reached(row.indices, self.b, work.tops.len());
        let words = work.lower.words.as_mut_slice();
        let tops = work.tops.as_mut_slice();
        let sums = work.lower.sums.as_mut_slice();
        mark_rows(&row, self.b, words, tops);
        take_topped::<bool, Land>(tops, from, upto, words, self.b.names, sums, columns, values)
    }
}

/// The rows from one up to another of the product of two matrices of truth values, where all are true and so is what the semiring makes
/// of true and true; else `None`. Memory is reserved for `room` entries at most, and more is taken where they are more. `AllocError` where
/// memory is refused; then nothing is made.
pub(crate) fn multiply_true<M: MonoidOver<bool>, O: Operator<bool>>(
    alloc: Global,
    a: &MatrixRows<bool>,
    b: &RankedRows<bool>,
    from: u64,
    upto: u64,
    room: usize,
) -> Result<Option<MadeRows<bool>>, AllocError>
    requires { from ≤ upto }
    ensures { IfOk result (λ answer. IfSome answer (λ made. AreAppended (λ (b : Bool). value.Bool b) [] from upto (mxm_of (record { monoid = M.monoid; op = O.op }) (decoded a.now.lists.now.entries) (decoded b.now.lists.now.entries)) made.rows.items made.starts.items made.columns.items made.values.items)) }
{
    if !is_true_of_true::<M, O>() {
        return Ok(None);
    }
    if !are_true(bool::of_lists(a.lists)) {
        return Ok(None);
    }
    if !are_true(b.values) {
        return Ok(None);
    }
    let rows: TrueRows<M, O> = TrueRows {
        a,
        b,
        of: PhantomData,
    };
    let part: Part<bool> = Part {
        made: no_rows(alloc),
        from,
        upto,
        reserves: true,
    };
    let made = make_rows(alloc, &rows, part, room)?;
    Ok(Some(made))
}

/// A Rust type of which some products are made by bits alone.
///
/// Source: own.
pub trait InBits: Stored {
    /// The rows from one up to another of the product of two matrices, where bits tell it; else `None`. Memory is reserved for `room`
    /// entries at most, and more is taken where they are more. `AllocError` where memory is refused; then nothing is made.
    fn multiply_in_bits<M: MonoidOver<Self>, O: Operator<Self>>(
        alloc: Global,
        a: &MatrixRows<Self>,
        b: &RankedRows<Self>,
        from: u64,
        upto: u64,
        room: usize,
    ) -> Result<Option<MadeRows<Self>>, AllocError>
        requires { from ≤ upto }
        ensures { IfOk result (λ answer. IfSome answer (λ made. AreAppended Self.value [] from upto (mxm_of (record { monoid = M.monoid; op = O.op }) (decoded a.now.lists.now.entries) (decoded b.now.lists.now.entries)) made.rows.items made.starts.items made.columns.items made.values.items)) };
}

impl InBits for bool {
    fn multiply_in_bits<M: MonoidOver<bool>, O: Operator<bool>>(
        alloc: Global,
        a: &MatrixRows<bool>,
        b: &RankedRows<bool>,
        from: u64,
        upto: u64,
        room: usize,
    ) -> Result<Option<MadeRows<bool>>, AllocError> {
        multiply_true::<M, O>(alloc, a, b, from, upto, room)
    }
}

impl InBits for u64 {
    fn multiply_in_bits<M: MonoidOver<u64>, O: Operator<u64>>(
        alloc: Global,
        a: &MatrixRows<u64>,
        b: &RankedRows<u64>,
        from: u64,
        upto: u64,
        room: usize,
    ) -> Result<Option<MadeRows<u64>>, AllocError> {
        Ok(None)
    }
}
