//! The sum of what the entries of a row add, four at a time.
ghost use Rattle.std.specs.Prelude.{◌≡◌, ◌+◌, ◌<◌, ◌≤◌, length, All, IfSome};
ghost use Rattle.grb_pull.specs.RowSums.{IsRowSum};

use crate::rows::SumRule;
use grb_kernels::Scalar;
use grb_semirings::MonoidOver;

/// The sum of what the two entries from a place on add.
fn sum_2<T: Scalar, M: MonoidOver<T>, R: SumRule<T, M>>(
    rule: &R,
    columns: &[u32],
    values: &[T],
    at: usize,
) -> T
    requires same { length columns.now ≡ length values.now }
    requires in_range { All (λ c. c < R.reads rule.now) columns.now }
    requires within { at + 2 ≤ length columns.now }
    ensures { IsRowSum M.monoid T.value (R.adds rule.now) columns.now values.now at (at + 2) (T.value result) }
{
    let first = rule.term(columns[at], values[at]);
    let second = rule.term(columns[at + 1], values[at + 1]);
    M::add(first, second)
}

/// The sum of what the four entries from a place on add.
fn sum_4<T: Scalar, M: MonoidOver<T>, R: SumRule<T, M>>(
    rule: &R,
    columns: &[u32],
    values: &[T],
    at: usize,
) -> T
    requires same { length columns.now ≡ length values.now }
    requires in_range { All (λ c. c < R.reads rule.now) columns.now }
    requires within { at + 4 ≤ length columns.now }
    ensures { IsRowSum M.monoid T.value (R.adds rule.now) columns.now values.now at (at + 4) (T.value result) }
{
    let first = sum_2::<T, M, R>(rule, columns, values, at);
    let second = sum_2::<T, M, R>(rule, columns, values, at + 2);
    M::add(first, second)
}

/// The sum of what the entries from one place up to another add, one after the other.
fn sum_each<T: Scalar, M: MonoidOver<T>, R: SumRule<T, M>>(
    rule: &R,
    columns: &[u32],
    values: &[T],
    start: usize,
    end: usize,
) -> T
    requires same { length columns.now ≡ length values.now }
    requires in_range { All (λ c. c < R.reads rule.now) columns.now }
    requires order { start ≤ end }
    requires within { end ≤ length columns.now }
    ensures { IsRowSum M.monoid T.value (R.adds rule.now) columns.now values.now start end (T.value result) }
{
    let mut sum = M::identity();
    let mut at = start;
    'entries: while at < end {
        let term = rule.term(columns[at], values[at]);
        sum = M::add(sum, term);
        at += 1;
    }
    sum
}

/// The sum of what the entries of a row add, four at a time, so that it waits once for four of them. The row stands from one place up to
/// another. `None` where four of them follow a sum that is terminal: such a row is better read one by one. Takes no memory.
pub(crate) fn row_sum<T: Scalar, M: MonoidOver<T>, R: SumRule<T, M>>(
    rule: &R,
    columns: &[u32],
    values: &[T],
    start: usize,
    end: usize,
) -> Option<T>
    requires same { length columns.now ≡ length values.now }
    requires in_range { All (λ c. c < R.reads rule.now) columns.now }
    requires order { start ≤ end }
    requires within { end ≤ length columns.now }
    ensures { IfSome result (λ sum. IsRowSum M.monoid T.value (R.adds rule.now) columns.now values.now start end (T.value sum)) }
{
    let mut sum = M::identity();
    let mut at = start;
    'fours: while 4 <= end - at {
        if M::is_terminal(sum) {
            return None;
        }
        let next = sum_4::<T, M, R>(rule, columns, values, at);
        sum = M::add(sum, next);
        at += 4;
    }
    let rest = sum_each::<T, M, R>(rule, columns, values, at, end);
    Some(M::add(sum, rest))
}
