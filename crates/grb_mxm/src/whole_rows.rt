//! The rows of the product of two matrices, all of whose cells are computed.
ghost use Rattle.std.specs.Prelude.{◌≡◌, ◌-◌, ◌<◌, ◌≤◌, ◌*◌, ◌/◌, ◌^◌, ◌↔◌, ℕ, None, true, min, All, length, slice_index, IfOk};
ghost use Rattle.std.specs.List.{AllByRecursion};
ghost use Rattle.std.specs.Ordering.{nat_cmp};
ghost use Rattle.std.specs.FinMap.{find};
ghost use Rattle.grb_core.specs.Value.{IsValueOf};
ghost use Rattle.grb_core.specs.Operator.{value_of_op};
ghost use Rattle.grb_core.specs.Monoid.{identity_of};
ghost use Rattle.grb_core.specs.Results.{row_of, mxm_of};
ghost use Rattle.grb_kernels.specs.Typed.{first_entries};
ghost use Rattle.grb_lists.specs.Cells.{decoded};
ghost use Rattle.grb_ewise.specs.Ranks.{Rise};
ghost use Rattle.grb_sums.specs.ColumnSums.{with_values};
ghost use Rattle.grb_ewise.specs.Rows.{flat_entries};
ghost use Rattle.grb_mxm.specs.RowProducts.{products_count};
ghost use Rattle.grb_mxm.specs.Rows.{AreAppended};
ghost use Rattle.grb_sums.specs.Naming.{name_in};
ghost use Rattle.grb_sums.specs.Marks.{IsCleared, AreNoTops};
ghost use Rattle.grb_sums.specs.Reach.{IsOutside};

use crate::rows::{MadeRows, Part, RowMaker, make_rows};
use crate::true_rows::InBits;
use grb_ewise::Stored;
use grb_kernels::Operator;
use grb_semirings::{MatrixRows, MonoidOver};
use grb_sums::{LOOKED_AT, OpenSums, RankedRows, ToppedSums, sum_row, take_topped, take_words};
use std::alloc::{AllocError, Global};
use std::marker::PhantomData;

/// Memory is reserved for at most so many entries of the product for each entry of both matrices. Where the product has more, its lists
/// grow as they are written.
const RESERVED_FOR_ONE_ENTRY: usize = 8;

/// A row that may have fewer products than so many for each word is one of few: so a walk over all words takes less than a step for two
/// products.
const PRODUCTS_FOR_ONE_WORD: usize = 2;

/// How many products a row of these columns has, if they are fewer than `most`; else `most`. A product makes one entry of the result, or is
/// added to one.
fn products_up_to<T: Stored>(columns: &[u32], b: &RankedRows<T>, most: usize) -> usize
    ensures { result ≡ min most (products_count columns.now (decoded b.now.lists.now.entries)) }
{
    let mut count = 0;
    for i in 0..columns.len() {
        let row = (&*b).row(columns[i]);
        count += row.indices.len().min(most - count);
        if count == most {
            return most;
        }
    }
    count
}

/// Whether a row of these columns has few products for so many words. Where rows are found by search no products are counted, and each row
/// is taken for one of few. Either answer is right; it bears on time alone.
fn has_few_products<T: Stored>(columns: &[u32], b: &RankedRows<T>, words: usize) -> bool
    ensures searched { length b.now.spans.now ≡ 0 → result ≡ true }
    ensures counted { 0 < length b.now.spans.now → (result ≡ true ↔ products_count columns.now (decoded b.now.lists.now.entries) < min (2 * words) (2 ^ 64 - 1)) }
{
    if b.spans.len() == 0 {
        return true;
    }
    let many = words.saturating_mul(PRODUCTS_FOR_ONE_WORD);
    products_up_to(columns, b, many) < many
}

/// A word of `tops` stands for so many places: 64 words of 64.
const PLACES_OF_TOP: usize = 4096;

/// Widens the words of `tops` from one place up to another, so that those in which a row's places are marked are among them.
fn widened(places: &[u32], from: usize, upto: usize) -> (usize, usize)
    requires rising { Rise places.now }
    ensures from { result.0 ≤ from }
    ensures upto { upto ≤ result.1 }
    ensures within { (n : ℕ) → upto ≤ n → All (λ p. p < 4096 * n) places.now → result.1 ≤ n }
    ensures after { (k : ℕ) → k < length places.now → result.0 ≤ slice_index places.now k / 4096 }
    ensures before { (k : ℕ) → k < length places.now → slice_index places.now k / 4096 < result.1 }
{
    if places.len() == 0 {
        return (from, upto);
    }
    let first = places[0] as usize / PLACES_OF_TOP;
    let last = places[places.len() - 1] as usize / PLACES_OF_TOP;
    (from.min(first), upto.max(last + 1))
}

/// Where the words of `tops` stand that the rows of these columns may mark: from one place up to another. It is all words where there are
/// no more than are looked at together, and where rows are found by search.
pub(crate) fn reached<T: Stored>(columns: &[u32], b: &RankedRows<T>, tops: usize) -> (usize, usize)
    requires enough { length b.now.names.now ≤ 4096 * tops }
    ensures up { result.0 ≤ result.1 }
    ensures within { result.1 ≤ tops }
    ensures none { (k p : ℕ) → k < length columns.now → p < length b.now.names.now → IsOutside result.0 result.1 (p / 4096) → find nat_cmp (name_in b.now.names.now p) (row_of (slice_index columns.now k) (decoded b.now.lists.now.entries)) ≡ None }
{
    if tops <= LOOKED_AT {
        return (0, tops);
    }
    if b.spans.len() == 0 {
        return (0, tops);
    }
    let mut from = tops;
    let mut upto = 0;
    'entries: for i in 0..columns.len() {
        let row = (&*b).row(columns[i]);
        let wider = widened(row.indices, from, upto);
        from = wider.0;
        upto = wider.1;
    }
    (from.min(upto), upto)
}

/// The row of a product where the row of the first matrix has one entry, `x` in the column `number`: writes the second's row of that number
/// to the front of `columns` and `values`, with each value multiplied by `x`. No two products meet, so there are no sums. Answers how many
/// entries there are.
pub(crate) fn scale_row<T: Stored, O: Operator<T>>(
    number: u32,
    x: T,
    b: &RankedRows<T>,
    columns: &mut [u32],
    values: &mut [T],
) -> usize
    requires room { length b.now.names.now ≤ length columns.old }
    requires room_same { length columns.old ≡ length values.old }
    ensures within { result ≤ length columns.new }
    ensures entries { first_entries T.value result columns.new values.new ≡ with_values (value_of_op O.op (T.value x)) (row_of number (decoded b.now.lists.now.entries)) }
    ensures of_domain { AllByRecursion (λ e. IsValueOf T.domain (value_of_op O.op (T.value x) e.1)) (row_of number (decoded b.now.lists.now.entries)) }
{
    let row = (&*b).row(number);
    let (places, factors) = (row.indices, row.values);
    'entries: for i in 0..places.len() {
        let made = O::apply(x, factors[i]);
        let product = made.read();
        columns[i] = b.names.name(places[i] as usize);
        values[i] = product;
    }
    places.len()
}

/// All cells of the product of two matrices.
#[derive(Drop)]
struct WholeRows<'a, T: Stored, M, O> {
    a: &'a MatrixRows<'a, T>,
    b: &'a RankedRows<'a, T>,
    of: PhantomData<(M, O)>,
}

impl<'a, T: Stored + Drop, M: MonoidOver<T>, O: Operator<T>> RowMaker<T>
    for WholeRows<'a, T, M, O> {
    type Work = ToppedSums<T>;

    ghost makes = { λ rows. mxm_of (record { monoid = M.monoid; op = O.op }) (decoded rows.a.now.lists.now.entries) (decoded rows.b.now.lists.now.entries) };

    ghost listed = { λ rows. rows.a.now.lists.now.rows };

    ghost most = { λ rows. length rows.b.now.names.now };

    ghost ready = { λ rows work. (IsCleared T.value (identity_of M.monoid) (length rows.b.now.names.now) work.lower.sums.items work.lower.words.items) × (AreNoTops work.lower.words.items work.tops.items) };

    fn work(&self, alloc: Global) -> Result<ToppedSums<T>, AllocError> {
        let count = self.b.names.len();
        let words = vec![in alloc; 0u64; count / 64 + 1]?;
        let tops = vec![in alloc; 0u64; words.len() / 64 + 1]?;
        let sums = vec![in alloc; M::identity(); count]?;
        let lower = OpenSums { sums, words };
        Ok(ToppedSums { lower, tops })
    }

    fn width(&self) -> usize {
        self.b.names.len()
    }

    fn numbers(&self) -> &[u32] {
        self.a.lists.rows()
    }

    fn make(
        &self,
        place: usize,
        work: &mut ToppedSums<T>,
        columns: &mut [u32],
        values: &mut [T],
    ) -> usize {
        let row = T::row(self.a.lists, place);
        if row.indices.len() == 1 {
            return scale_row::<T, O>(row.indices[0], row.values[0], self.b, columns, values);
        }
        if has_few_products(row.indices, self.b, work.lower.words.len()) {
            let (from, upto) = reached(row.indices, self.b, work.tops.len());
            sum_row::<T, M, O, ToppedSums<T>>(&row, self.b, work);
            return take_topped::<T, M>(
                work.tops.as_mut_slice(),
                from,
                upto,
                work.lower.words.as_mut_slice(),
                self.b.names,
                work.lower.sums.as_mut_slice(),
                columns,
                values,
            );
        }
        sum_row::<T, M, O, OpenSums<T>>(&row, self.b, &mut work.lower);
        take_words::<T, M>(
            work.lower.words.as_mut_slice(),
            self.b.names,
            work.lower.sums.as_mut_slice(),
            columns,
            values,
        )
    }
}

/// Rows of the product of two matrices by a monoid and an operator as types. Where memory is reserved ahead and there are no rows yet, they
/// are made by bits alone, if that is possible and there are not many products; else products are not counted and values are not looked at,
/// so that a block of rows costs no more than its own. Takes memory to work in, some places for each name, and for the result. `AllocError`
/// where that is refused; then nothing is made.
pub(crate) fn multiply_whole<T: InBits + Drop, M: MonoidOver<T>, O: Operator<T>>(
    alloc: Global,
    a: &MatrixRows<T>,
    b: &RankedRows<T>,
    part: Part<T>,
) -> Result<MadeRows<T>, AllocError>
    ensures { IfOk result (λ made. AreAppended T.value (flat_entries T.value part.made.rows.items part.made.starts.items part.made.columns.items part.made.values.items) part.from part.upto (mxm_of (record { monoid = M.monoid; op = O.op }) (decoded a.now.lists.now.entries) (decoded b.now.lists.now.entries)) made.rows.items made.starts.items made.columns.items made.values.items) }
{
    let mut room = 0;
    if part.reserves {
        let most = (a.lists.len() + b.lists.len()).saturating_mul(RESERVED_FOR_ONE_ENTRY);
        room = products_up_to(a.lists.columns(), b, most);
        if room < most && part.made.rows.len() == 0 {
            let in_bits = T::multiply_in_bits::<M, O>(alloc, a, b, part.from, part.upto, room)?;
            if let Some(made) = in_bits {
                return Ok(made);
            }
        }
    }
    let rows: WholeRows<T, M, O> = WholeRows {
        a,
        b,
        of: PhantomData,
    };
    make_rows(alloc, &rows, part, room)
}
