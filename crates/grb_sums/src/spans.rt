//! Where the entries of a row lie among those of a matrix, by the row's number: by a list of starts, or by search.
ghost use Rattle.std.specs.Prelude.{◌≡◌, ◌≢◌, ◌<◌, ◌≤◌, ◌*◌, ◌+◌, ◌^◌, ℕ, length, take, drop, slice_index, slice_index_or, IfOk};
ghost use Rattle.grb_core.specs.Results.{row_of};
ghost use Rattle.grb_lists.specs.Cells.{decoded, in_row};
ghost use Rattle.grb_ewise.specs.Ranks.{Rise};
ghost use Rattle.grb_sums.specs.Spans.{AreSpans, spans_needed, AreWorthSpans};

use grb_ewise::{is_worth_opening, place_of};
use grb_lists::FlatRows;
use std::alloc::{AllocError, Global};

/// The length of a list of starts by number: one start for each number up to the last row, and one more. 0 where that is more than 8 times
/// `entries`, where there are no rows, and where the length, or `len`, at which all entries end, needs more than 32 bits.
fn spans_length(rows: &[u32], len: usize, entries: usize) -> usize
    requires rising { Rise rows.now }
    ensures enough { 0 < result → (k : ℕ) → k < length rows.now → slice_index rows.now k + 1 < result }
    ensures exact { 0 < result → result ≡ spans_needed rows.now }
    ensures listed { AreWorthSpans rows.now len entries → 0 < result }
    ensures fit { 0 < result → len < 2 ^ 32 }
    ensures few { result ≤ 8 * entries }
{
    let count = rows.len();
    if count == 0 || len > u32::MAX as usize {
        return 0;
    }
    let last = rows[count - 1];
    if last >= u32::MAX - 1 {
        return 0;
    }
    if is_worth_opening(last as u64 + 2, entries) {
        last as usize + 2
    } else {
        0
    }
}

/// Where the `k`th row begins; at the end of all, where there is no such row.
fn start_of(starts: &[usize], k: usize, len: usize) -> usize
    requires within { (i : ℕ) → i < length starts.now → slice_index starts.now i < len }
    ensures start { result ≡ slice_index_or starts.now k len }
    ensures within { result ≤ len }
{
    if k < starts.len() { starts[k] } else { len }
}

/// How many rows are no more than a number, where the first `k` are below it and no others.
fn rows_upto(rows: &[u32], k: usize, number: usize) -> usize
    ensures more { k < length rows.now → slice_index rows.now k ≡ number → result ≡ k + 1 }
    ensures same { (k < length rows.now → slice_index rows.now k ≢ number) → result ≡ k }
{
    if k < rows.len() {
        if rows[k] as usize == number {
            return k + 1;
        }
    }
    k
}

/// Writes at each number where its row begins or, where it has no entries, the next row that has some; at the end of all, where none has.
fn fill_spans(lists: &FlatRows, spans: &mut [u32])
    requires room { (k : ℕ) → k < length lists.now.rows → slice_index lists.now.rows k + 1 < length spans.old }
    requires fit { length lists.now.entries < 2 ^ 32 }
    ensures { AreSpans lists.now.entries spans.new }
{
    let rows = lists.rows();
    let starts = lists.starts();
    let mut k = 0;
    'numbers: for number in 0..spans.len() {
        spans[number] = start_of(starts, k, lists.len()) as u32;
        k = rows_upto(rows, k, number);
    }
}

/// Where the entries of each row begin, by its number, and one place further where they end; an empty list, where it would be longer than
/// 8 times `entries`, where there are no rows, and where its length or a place of an entry needs more than 32 bits. `AllocError` where
/// memory is refused; then nothing is made.
pub fn spans_of(alloc: Global, lists: &FlatRows, entries: usize) -> Result<Vec<u32>, AllocError>
    ensures spans { IfOk result (λ spans. 0 < length spans.items → AreSpans lists.now.entries spans.items) }
    ensures listed { IfOk result (λ spans. AreWorthSpans lists.now.rows (length lists.now.entries) entries → 0 < length spans.items) }
    ensures few { IfOk result (λ spans. length spans.items ≤ 8 * entries) }
{
    let size = spans_length(lists.rows(), lists.len(), entries);
    let mut spans = vec![in alloc; 0u32; size]?;
    if size > 0 {
        fill_spans(lists, spans.as_mut_slice());
    }
    Ok(spans)
}

/// Where the entries of the `k`th row that has some begin, and where they end.
pub(crate) fn span_at(lists: &FlatRows, k: usize) -> (usize, usize)
    requires at { k < length lists.now.rows }
    ensures row { row_of (slice_index lists.now.rows k) (decoded lists.now.entries) ≡ in_row (drop result.0 (take result.1 lists.now.entries)) }
    ensures up { result.0 ≤ result.1 }
    ensures within { result.1 ≤ length lists.now.entries }
{
    let starts = lists.starts();
    (starts[k], start_of(starts, k + 1, lists.len()))
}

/// Where the entries of the row of a number begin and end, by a list of starts.
fn span_listed(lists: &FlatRows, spans: &[u32], number: u32) -> (usize, usize)
    requires spans { AreSpans lists.now.entries spans.now }
    ensures row { row_of number (decoded lists.now.entries) ≡ in_row (drop result.0 (take result.1 lists.now.entries)) }
    ensures up { result.0 ≤ result.1 }
    ensures within { result.1 ≤ length lists.now.entries }
{
    let number = number as usize;
    if number + 1 >= spans.len() {
        return (0, 0);
    }
    (spans[number] as usize, spans[number + 1] as usize)
}

/// Where the entries of the row of a number begin and end, by search among the rows.
fn span_searched(lists: &FlatRows, number: u32) -> (usize, usize)
    ensures row { row_of number (decoded lists.now.entries) ≡ in_row (drop result.0 (take result.1 lists.now.entries)) }
    ensures up { result.0 ≤ result.1 }
    ensures within { result.1 ≤ length lists.now.entries }
{
    match place_of(lists.rows(), number) {
        Some(k) => span_at(lists, k),
        None => (0, 0),
    }
}

/// Where the entries of the row of a number begin and end: by the list of starts, or by search, where that is empty.
pub fn span_of(lists: &FlatRows, spans: &[u32], number: u32) -> (usize, usize)
    requires spans { 0 < length spans.now → AreSpans lists.now.entries spans.now }
    ensures row { row_of number (decoded lists.now.entries) ≡ in_row (drop result.0 (take result.1 lists.now.entries)) }
    ensures up { result.0 ≤ result.1 }
    ensures within { result.1 ≤ length lists.now.entries }
{
    if spans.len() == 0 {
        return span_searched(lists, number);
    }
    span_listed(lists, spans, number)
}

/// The elements of a list from one place up to another.
pub fn part<U>(list: &[U], start: usize, end: usize) -> &[U]
    requires up { start ≤ end }
    requires within { end ≤ length list.now }
    ensures { result.now ≡ drop start (take end list.now) }
{
    &list[start..end]
}
