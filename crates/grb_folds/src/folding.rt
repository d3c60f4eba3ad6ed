//! Values folded by a monoid: chosen once a call.
ghost use Rattle.std.specs.Prelude.{◌≡◌, ◌+◌, ◌<◌, ◌≤◌, ◌^◌, ◌++◌, cond, map, length, take, drop};
ghost use Rattle.grb_core.specs.Fold.{fold_of};
ghost use Rattle.grb_core.specs.Monoid.{monoid_domain};

use grb_core::Monoid;
use grb_ewise::Stored;
use grb_kernels::chosen;
use grb_semirings::{ByMonoid, Folded, MonoidOver};

/// How many values are folded together, and a quarter of them.
const BLOCK: usize = 4 * QUARTER;

const QUARTER: usize = 64;

/// The values combined by a monoid as a type; its identity, where there are none. Blocks after a sum that no value changes are not read.
pub fn fold_values<T: Stored + Folded, M: MonoidOver<T>>(values: &[T]) -> T
    ensures { T.value result ≡ fold_of M.monoid (map T.value values.now) }
{
    T::read_all(values);
    let mut sum = M::identity();
    let mut at = 0;
    'whole: while BLOCK <= values.len() - at {
        if M::is_final(sum) {
            return sum;
        }
        sum = M::add(sum, fold_block::<T, M>(&values[at..at + BLOCK]));
        at += BLOCK;
    }
    M::add(sum, fold_fours::<T, M>(values, at, values.len()))
}

/// The values from one place up to another combined, four at a time, so that a sum waits once for four of them. Those after a terminal sum
/// are not read.
fn fold_fours<T: Stored, M: MonoidOver<T>>(values: &[T], start: usize, end: usize) -> T
    requires order { start ≤ end }
    requires within { end ≤ length values.now }
    ensures { T.value result ≡ fold_of M.monoid (map T.value (drop start (take end values.now))) }
{
    T::show(values);
    let mut sum = M::identity();
    let mut at = start;
    'fours: while 4 <= end - at {
        if M::is_terminal(sum) {
            return sum;
        }
        sum = M::add(sum, fold_4::<T, M>(values, at));
        at += 4;
    }
    M::add(sum, fold_each::<T, M>(values, at, end))
}

/// The values from one place up to another, combined by a monoid as a type; its identity, where there are none. Fast where they are few, if
/// as many are folded again and again.
pub fn fold_row<T: Stored + Folded, M: MonoidOver<T>>(values: &[T], start: usize, end: usize) -> T
    requires order { start ≤ end }
    requires within { end ≤ length values.now }
    ensures { T.value result ≡ fold_of M.monoid (map T.value (drop start (take end values.now))) }
{
    if end - start < BLOCK {
        return fold_fours::<T, M>(values, start, end);
    }
    fold_values::<T, M>(&values[start..end])
}

/// How many values past the end of a part may be read, since parts of it are folded whole.
const REACH: usize = 15;

/// The values from one place up to another, combined by a monoid as a type; its identity, where there are none. Fast where they are few: it
/// has no case that depends on how many they are.
pub fn fold_part<T: Stored + Folded, M: MonoidOver<T>>(values: &[T], start: usize, end: usize) -> T
    requires order { start ≤ end }
    requires within { end ≤ length values.now }
    ensures { T.value result ≡ fold_of M.monoid (map T.value (drop start (take end values.now))) }
{
    if (end - start < BLOCK) & (REACH <= values.len() - end) {
        return fold_few::<T, M>(values, start, end);
    }
    fold_row::<T, M>(values, start, end)
}

/// The same, where values past the end can be read.
fn fold_few<T: Stored, M: MonoidOver<T>>(values: &[T], start: usize, end: usize) -> T
    requires order { start ≤ end }
    requires reach { end + 15 ≤ length values.now }
    ensures { T.value result ≡ fold_of M.monoid (map T.value (drop start (take end values.now))) }
{
    T::show(values);
    let mut sum = M::identity();
    let mut at = start;
    'sixteens: while 16 <= end - at {
        let next = M::add(fold_8::<T, M>(values, at), fold_8::<T, M>(values, at + 8));
        sum = M::add(sum, next);
        at += 16;
    }
    M::add(sum, fold_below_16::<T, M>(values, at, end))
}

/// Two values combined.
fn fold_2<T: Stored, M: MonoidOver<T>>(values: &[T], at: usize) -> T
    requires { at + 2 ≤ length values.now }
    ensures { T.value result ≡ fold_of M.monoid (map T.value (drop at (take (at + 2) values.now))) }
{
    M::add(values[at].read(), values[at + 1].read())
}

/// Four values combined.
fn fold_4<T: Stored, M: MonoidOver<T>>(values: &[T], at: usize) -> T
    requires { at + 4 ≤ length values.now }
    ensures { T.value result ≡ fold_of M.monoid (map T.value (drop at (take (at + 4) values.now))) }
{
    T::show(values);
    M::add(fold_2::<T, M>(values, at), fold_2::<T, M>(values, at + 2))
}

/// Eight values combined.
fn fold_8<T: Stored, M: MonoidOver<T>>(values: &[T], at: usize) -> T
    requires { at + 8 ≤ length values.now }
    ensures { T.value result ≡ fold_of M.monoid (map T.value (drop at (take (at + 8) values.now))) }
{
    T::show(values);
    M::add(fold_4::<T, M>(values, at), fold_4::<T, M>(values, at + 4))
}

/// Where what comes after a part begins, if the part is taken.
fn after(taken: bool, at: usize, len: usize) -> usize
    requires { at + len < 2 ^ 64 }
    ensures { result ≡ cond taken (at + len) at }
{
    if taken { at + len } else { at }
}

/// Fewer than 2 values combined.
fn fold_below_2<T: Stored, M: MonoidOver<T>>(values: &[T], at: usize, end: usize) -> T
    requires order { at ≤ end }
    requires few { end < at + 2 }
    requires reach { at < length values.now }
    ensures { T.value result ≡ fold_of M.monoid (map T.value (drop at (take end values.now))) }
{
    chosen(at < end, values[at].read(), M::identity())
}

/// Fewer than 4 values combined.
fn fold_below_4<T: Stored, M: MonoidOver<T>>(values: &[T], at: usize, end: usize) -> T
    requires order { at ≤ end }
    requires few { end < at + 4 }
    requires reach { end + 15 ≤ length values.now }
    ensures { T.value result ≡ fold_of M.monoid (map T.value (drop at (take end values.now))) }
{
    T::show(values);
    let taken = 2 <= end - at;
    let part = chosen(taken, fold_2::<T, M>(values, at), M::identity());
    M::add(part, fold_below_2::<T, M>(values, after(taken, at, 2), end))
}

/// Fewer than 8 values combined.
fn fold_below_8<T: Stored, M: MonoidOver<T>>(values: &[T], at: usize, end: usize) -> T
    requires order { at ≤ end }
    requires few { end < at + 8 }
    requires reach { end + 15 ≤ length values.now }
    ensures { T.value result ≡ fold_of M.monoid (map T.value (drop at (take end values.now))) }
{
    T::show(values);
    let taken = 4 <= end - at;
    let part = chosen(taken, fold_4::<T, M>(values, at), M::identity());
    M::add(part, fold_below_4::<T, M>(values, after(taken, at, 4), end))
}

/// Fewer than 16 values combined: the parts of 8, 4, 2 and 1 of which their number is made, each folded whole, and taken or not.
fn fold_below_16<T: Stored, M: MonoidOver<T>>(values: &[T], at: usize, end: usize) -> T
    requires order { at ≤ end }
    requires few { end < at + 16 }
    requires reach { end + 15 ≤ length values.now }
    ensures { T.value result ≡ fold_of M.monoid (map T.value (drop at (take end values.now))) }
{
    T::show(values);
    let taken = 8 <= end - at;
    let part = chosen(taken, fold_8::<T, M>(values, at), M::identity());
    M::add(part, fold_below_8::<T, M>(values, after(taken, at, 8), end))
}

/// A block of values combined: its quarters are folded in step, so that no sum waits for the one before.
fn fold_block<T: Stored, M: MonoidOver<T>>(values: &[T]) -> T
    requires len { length values.now ≡ 256 }
    ensures { T.value result ≡ fold_of M.monoid (map T.value values.now) }
{
    let (low, high) = values.split_at(2 * QUARTER);
    let (first, second) = low.split_at(QUARTER);
    let (third, fourth) = high.split_at(QUARTER);
    fold_quarters::<T, M>(first, second, third, fourth)
}

/// Four lists of one length combined, one after the other.
fn fold_quarters<T: Stored, M: MonoidOver<T>>(
    first: &[T],
    second: &[T],
    third: &[T],
    fourth: &[T],
) -> T
    requires second { length second.now ≡ length first.now }
    requires third { length third.now ≡ length first.now }
    requires fourth { length fourth.now ≡ length first.now }
    ensures { T.value result ≡ fold_of M.monoid (map T.value ((first.now ++ second.now) ++ (third.now ++ fourth.now))) }
{
    let mut sums = (M::identity(), M::identity(), M::identity(), M::identity());
    for i in 0..first.len() {
        sums.0 = M::add(sums.0, first[i].read());
        sums.1 = M::add(sums.1, second[i].read());
        sums.2 = M::add(sums.2, third[i].read());
        sums.3 = M::add(sums.3, fourth[i].read());
    }
    M::add(M::add(sums.0, sums.1), M::add(sums.2, sums.3))
}

/// The values from one place up to another combined, one after the other.
fn fold_each<T: Stored, M: MonoidOver<T>>(values: &[T], start: usize, end: usize) -> T
    requires order { start ≤ end }
    requires within { end ≤ length values.now }
    ensures { T.value result ≡ fold_of M.monoid (map T.value (drop start (take end values.now))) }
{
    let mut sum = M::identity();
    let mut at = start;
    'values: while at < end {
        let value = values[at].read();
        sum = M::add(sum, value);
        at += 1;
    }
    sum
}

/// Values that are combined by whichever monoid.
#[derive(Drop)]
struct Values<'a, T> {
    values: &'a [T],
}

impl<'a, T: Stored + Folded> ByMonoid<T> for Values<'a, T> {
    type Output = T;

    ghost Gives = { λ v monoid result. T.value result ≡ fold_of monoid (map T.value v.values.now) };

    fn by<M: MonoidOver<T>>(self) -> T {
        fold_values::<T, M>(self.values)
    }
}

/// The values combined by a monoid of the domain; its identity, where there are none. Takes no memory.
pub(crate) fn fold<T: Stored + Folded>(monoid: Monoid, values: &[T]) -> T
    requires domain { monoid_domain monoid ≡ T.domain }
    ensures { T.value result ≡ fold_of monoid (map T.value values.now) }
{
    T::choose_monoid(monoid, Values { values })
}
