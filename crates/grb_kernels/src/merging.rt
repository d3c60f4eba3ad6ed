//! Two lists of entries in rising order of their indices, made into one.
ghost use Rattle.std.specs.Prelude.{◌≡◌, ◌≢◌, ◌+◌, ◌<◌, ◌≤◌, ◌^◌, ◌++◌, ℕ, Bool, [], length, slice_index, slice_index_or, true, false, Option, Some, None, IsTrue, IfOk};
ghost use Rattle.std.specs.Ordering.{nat_cmp};
ghost use Rattle.std.specs.FinMap.{is_sorted, find};
ghost use Rattle.grb_core.specs.declared.value.Value.{Value};
ghost use Rattle.grb_core.specs.Entries.{before_entries};
ghost use Rattle.grb_core.specs.Written.{pointwise};
ghost use Rattle.grb_kernels.specs.Typed.{kept, entries_of, first_entries, entries_from};
ghost use Rattle.grb_kernels.specs.Rests.{lone};
ghost use Rattle.grb_kernels.specs.Merging.{made, with_kept, most_of, owned, lent};

use crate::list::{EntryList, EntrySlice};
use crate::scalar::Scalar;
use grb_lists::next_place;
use std::alloc::{AllocError, Global};

/// How many times as long as another a list is at least, if it is searched for the indices of the other and not read.
const FAR_LONGER: usize = 16;

/// What a map made of two others stores at an index, by what both store there.
pub trait Rule<T: Scalar, U: Scalar> {
    /// The value there, if there is one.
    ghost gives: { Self → Option Value → Option Value → Option Value };

    /// At an index of one map or of both: `here` and `there` say whether the first and the second store a value. Written with
    /// selects, since which of the two it is would be a branch like the toss of a coin.
    fn pick(&self, x: T, here: bool, y: U, there: bool) -> (T, bool)
        ensures { kept (T.value result.0) result.1 ≡ gives self.now (kept (T.value x) here) (kept (U.value y) there) };

    /// Whether what the first map alone stores may be kept.
    ghost left: { Self → Bool };

    /// Whether what the second map alone stores may be kept.
    ghost right: { Self → Bool };

    /// Whether anything is kept of the first map alone: where not, what is left of it is not read.
    fn keeps_left(&self) -> bool
        ensures left { result ≡ left self.now }
        ensures nothing { result ≡ false → (x : Value) → gives self.now (Some x) None ≡ None };

    /// Whether anything is kept of the second map alone.
    fn keeps_right(&self) -> bool
        ensures right { result ≡ right self.now }
        ensures nothing { result ≡ false → (y : Value) → gives self.now None (Some y) ≡ None };

    /// Where neither stores a value there is none.
    ghost none: { (rule : Self) → gives rule None None ≡ None };

    /// Where what the first map alone stores is not kept, there is none.
    ghost left_none: { (rule : Self) → left rule ≡ false → (x : Value) → gives rule (Some x) None ≡ None };

    /// Where what the second map alone stores is not kept, there is none.
    ghost right_none: { (rule : Self) → right rule ≡ false → (y : Value) → gives rule None (Some y) ≡ None };
}

/// Writes an entry at place `k` of a result, if it is to be kept, and answers how many entries there are then. Takes no memory. What stands
/// at places after those is any.
///
/// - `columns`, `values`: the indices and the values of the result.
/// - `k`: how many entries it has so far.
/// - `index`, `value`: the entry.
/// - `keep`: whether it is kept.
///
/// Source: own.
pub fn emit<T: Scalar>(
    columns: &mut [u32],
    values: &mut [T],
    k: usize,
    index: u32,
    value: T,
    keep: bool,
) -> usize
    requires room { k < length columns.old }
    requires same { length columns.old ≡ length values.old }
    ensures first { first_entries T.value result columns.new values.new ≡ with_kept T.value k columns.old values.old index value keep }
    ensures most { result ≤ k + 1 }
    ensures nothing { keep ≡ false → result ≡ k }
{
    columns[k] = index;
    values[k] = value;
    if keep { k + 1 } else { k }
}

/// The lower of two indices.
fn lower(p: u32, q: u32) -> u32
    ensures left { p ≤ q → result ≡ p }
    ensures right { q ≤ p → result ≡ q }
{
    if p <= q { p } else { q }
}

/// The entry at the lower of two indices.
fn front<T: Scalar, U: Scalar, R: Rule<T, U>>(
    rule: &R,
    p: u32,
    x: T,
    q: u32,
    y: U,
) -> (u32, (T, bool))
    ensures left { p < q → before_entries result.0 (kept (T.value result.1.0) result.1.1) [] ≡ before_entries p (R.gives rule.now (Some (T.value x)) None) [] }
    ensures right { q < p → before_entries result.0 (kept (T.value result.1.0) result.1.1) [] ≡ before_entries q (R.gives rule.now None (Some (U.value y))) [] }
    ensures both { p ≡ q → before_entries result.0 (kept (T.value result.1.0) result.1.1) [] ≡ before_entries p (R.gives rule.now (Some (T.value x)) (Some (U.value y))) [] }
{
    let here = p <= q;
    let there = q <= p;
    // Where nothing is kept of the second map alone, `p` is the index of all that is kept.
    let index = if rule.keeps_right() { lower(p, q) } else { p };
    (index, rule.pick(x, here, y, there))
}

/// One where the index `p` is not above `q`: its list goes on.
fn advance(p: u32, q: u32) -> usize
    ensures on { p ≤ q → result ≡ 1 }
    ensures stays { q < p → result ≡ 0 }
{
    usize::from(p <= q)
}

/// One of the two maps that a rule is for, and the other one. Its values are of the Rust type `X`, those of the other of `Y`.
trait Side<T: Scalar, U: Scalar, X: Scalar, Y: Scalar> {
    /// What is made of the first map and the second, with this one put first.
    ghost turned: { (Option Value → Option Value → Option Value) → Option Value → Option Value → Option Value };

    /// What is said of it, by what is said of the first map and the second.
    ghost own: { Bool → Bool → Bool };

    /// At an index of this map: a value by the one that it stores and what the other stores, if it does, and whether it is kept.
    fn pick<R: Rule<T, U>>(rule: &R, x: X, y: Y, there: bool) -> (T, bool)
        ensures { kept (T.value result.0) result.1 ≡ turned (R.gives rule.now) (Some (X.value x)) (kept (Y.value y) there) };

    /// Whether anything is kept of it alone.
    fn is_kept<R: Rule<T, U>>(rule: &R) -> bool
        ensures own { result ≡ own (R.left rule.now) (R.right rule.now) }
        ensures nothing { result ≡ false → (x : Value) → turned (R.gives rule.now) (Some x) None ≡ None };

    /// Where neither stores a value there is none.
    ghost none: { (f : Option Value → Option Value → Option Value) → f None None ≡ None → turned f None None ≡ None };
}

/// The first map.
struct FirstMap;

impl<T: Scalar, U: Scalar> Side<T, U, T, U> for FirstMap {
    ghost turned = { λ f x y. f x y };

    ghost own = { λ l r. l };

    fn pick<R: Rule<T, U>>(rule: &R, x: T, y: U, there: bool) -> (T, bool) {
        rule.pick(x, true, y, there)
    }

    fn is_kept<R: Rule<T, U>>(rule: &R) -> bool {
        rule.keeps_left()
    }

    ghost none = { λ f h. h };
}

/// The second map.
struct SecondMap;

impl<T: Scalar, U: Scalar> Side<T, U, U, T> for SecondMap {
    ghost turned = { λ f y x. f x y };

    ghost own = { λ l r. r };

    fn pick<R: Rule<T, U>>(rule: &R, y: U, x: T, there: bool) -> (T, bool) {
        rule.pick(x, there, y, true)
    }

    fn is_kept<R: Rule<T, U>>(rule: &R) -> bool {
        rule.keeps_right()
    }

    ghost none = { λ f h. h };
}

/// Writes what the rule keeps of the rest of a list, from `i` on, after the first `k` entries of a result.
fn finish_rest<T: Scalar, U: Scalar, X: Scalar, Y: Scalar, R: Rule<T, U>, S: Side<T, U, X, Y>>(
    rule: &R,
    cs: &[u32],
    vs: &[X],
    i: usize,
    columns: &mut [u32],
    values: &mut [T],
    k: usize,
) -> usize
    requires list { length cs.now ≡ length vs.now }
    requires within { i ≤ length cs.now }
    requires room { S.own (R.left rule.now) (R.right rule.now) ≡ true → k + length cs.now ≤ length columns.old + i }
    requires same { length columns.old ≡ length values.old }
    ensures entries { first_entries T.value result columns.new values.new ≡ first_entries T.value k columns.old values.old ++ lone (λ x. S.turned (R.gives rule.now) x None) (entries_from X.value i cs.now vs.now) }
    ensures most { result + i ≤ k + length cs.now }
    ensures nothing { S.own (R.left rule.now) (R.right rule.now) ≡ false → result ≡ k }
{
    if !S::is_kept(rule) {
        return k;
    }
    let mut i = i;
    let mut k = k;
    'rest: while i < cs.len() {
        let (value, keep) = S::pick(rule, vs[i], Y::any(), false);
        k = emit(columns, values, k, cs[i], value, keep);
        i += 1;
    }
    k
}

/// Writes what the rule keeps of the rest of two lists, one of which has come to its end.
fn finish<T: Scalar, U: Scalar, R: Rule<T, U>>(
    rule: &R,
    ac: &[u32],
    av: &[T],
    i: usize,
    bc: &[u32],
    bv: &[U],
    j: usize,
    columns: &mut [u32],
    values: &mut [T],
    k: usize,
) -> usize
    requires a { length ac.now ≡ length av.now }
    requires b { length bc.now ≡ length bv.now }
    requires left { i ≤ length ac.now }
    requires right { j ≤ length bc.now }
    requires one { i < length ac.now → length bc.now ≤ j }
    requires a_rising { IsTrue (is_sorted nat_cmp (entries_from T.value i ac.now av.now)) }
    requires b_rising { IsTrue (is_sorted nat_cmp (entries_from U.value j bc.now bv.now)) }
    requires before { k ≤ most_of (R.left rule.now) (R.right rule.now) i j }
    requires room { most_of (R.left rule.now) (R.right rule.now) (length ac.now) (length bc.now) ≤ length columns.old }
    requires same { length columns.old ≡ length values.old }
    ensures entries { first_entries T.value result columns.new values.new ≡ first_entries T.value k columns.old values.old ++ pointwise nat_cmp (R.gives rule.now) (entries_from T.value i ac.now av.now) (entries_from U.value j bc.now bv.now) }
    ensures most { result ≤ most_of (R.left rule.now) (R.right rule.now) (length ac.now) (length bc.now) }
{
    let k = finish_rest::<T, U, T, U, R, FirstMap>(rule, ac, av, i, columns, values, k);
    finish_rest::<T, U, U, T, R, SecondMap>(rule, bc, bv, j, columns, values, k)
}

/// Makes the result by two cursors that step over both lists.
fn step_through<T: Scalar, U: Scalar, R: Rule<T, U>>(
    rule: &R,
    ac: &[u32],
    av: &[T],
    bc: &[u32],
    bv: &[U],
    columns: &mut [u32],
    values: &mut [T],
) -> usize
    requires a { length ac.now ≡ length av.now }
    requires b { length bc.now ≡ length bv.now }
    requires a_rising { IsTrue (is_sorted nat_cmp (entries_of T.value ac.now av.now)) }
    requires b_rising { IsTrue (is_sorted nat_cmp (entries_of U.value bc.now bv.now)) }
    requires room { most_of (R.left rule.now) (R.right rule.now) (length ac.now) (length bc.now) ≤ length columns.old }
    requires same { length columns.old ≡ length values.old }
    ensures entries { first_entries T.value result columns.new values.new ≡ pointwise nat_cmp (R.gives rule.now) (entries_of T.value ac.now av.now) (entries_of U.value bc.now bv.now) }
    ensures most { result ≤ most_of (R.left rule.now) (R.right rule.now) (length ac.now) (length bc.now) }
{
    let mut i = 0;
    let mut j = 0;
    let mut k = 0;
    'merging: while i < ac.len() && j < bc.len() {
        let p = ac[i];
        let q = bc[j];
        let (index, (value, keep)) = front(rule, p, av[i], q, bv[j]);
        k = emit(columns, values, k, index, value, keep);
        i += advance(p, q);
        j += advance(q, p);
    }
    finish(rule, ac, av, i, bc, bv, j, columns, values, k)
}

/// What a list stores at a place, if the index there is this one: the value, and whether it is.
fn stored_at<T: Scalar>(indices: &[u32], values: &[T], place: usize, index: u32) -> (T, bool)
    requires same { length indices.now ≡ length values.now }
    ensures here { result.1 ≡ true → (place < length indices.now) × (slice_index indices.now place ≡ index) × (result.0 ≡ slice_index_or values.now place result.0) }
    ensures not_here { result.1 ≡ false → place < length indices.now → slice_index indices.now place ≢ index }
{
    if place < indices.len() && indices[place] == index {
        return (values[place], true);
    }
    (T::any(), false)
}

/// Writes what the rule makes of an entry of one map, and of what the other stores at its index, after the first `k` entries of a result.
fn put_entry<T: Scalar, U: Scalar, X: Scalar, Y: Scalar, R: Rule<T, U>, S: Side<T, U, X, Y>>(
    rule: &R,
    index: u32,
    x: X,
    y: Y,
    there: bool,
    columns: &mut [u32],
    values: &mut [T],
    k: usize,
) -> usize
    requires room { there ≡ true → k < length columns.old }
    requires room_alone { S.own (R.left rule.now) (R.right rule.now) ≡ true → k < length columns.old }
    requires same { length columns.old ≡ length values.old }
    ensures first { first_entries T.value result columns.new values.new ≡ first_entries T.value k columns.old values.old ++ before_entries index (S.turned (R.gives rule.now) (Some (X.value x)) (kept (Y.value y) there)) [] }
    ensures most { result ≤ k + 1 }
    ensures nothing { there ≡ false → S.own (R.left rule.now) (R.right rule.now) ≡ false → result ≡ k }
{
    if !there && !S::is_kept(rule) {
        return k;
    }
    let (value, keep) = S::pick(rule, x, y, there);
    emit(columns, values, k, index, value, keep)
}

/// The place after one, if what stands there was taken; else the same place.
fn place_past(place: usize, taken: bool) -> usize
    requires { taken ≡ true → place < 2 ^ 63 }
    ensures on { taken ≡ true → result ≡ place + 1 }
    ensures stays { taken ≡ false → result ≡ place }
{
    if taken { place + 1 } else { place }
}

/// Makes the result by a search of the longer list for each index of the shorter one. What lies between two of these is written in one
/// loop, or passed over, where nothing is kept of the longer list alone. Then the time is the length of the shorter one by the logarithm of
/// what lies between.
///
/// - `ac`, `av`: the indices and the values of the shorter list.
/// - `bc`, `bv`: those of the longer.
fn search_longer<
    T: Scalar,
    U: Scalar,
    X: Scalar,
    Y: Scalar,
    R: Rule<T, U>,
    S: Side<T, U, X, Y>,
    L: Side<T, U, Y, X>,
>(
    rule: &R,
    ac: &[u32],
    av: &[X],
    bc: &[u32],
    bv: &[Y],
    columns: &mut [u32],
    values: &mut [T],
) -> usize
    requires a { length ac.now ≡ length av.now }
    requires b { length bc.now ≡ length bv.now }
    requires a_rising { IsTrue (is_sorted nat_cmp (entries_of X.value ac.now av.now)) }
    requires b_rising { IsTrue (is_sorted nat_cmp (entries_of Y.value bc.now bv.now)) }
    requires shorter { length ac.now ≤ length bc.now }
    requires turned { (x y : Option Value) → L.turned (R.gives rule.now) y x ≡ S.turned (R.gives rule.now) x y }
    requires room { most_of (S.own (R.left rule.now) (R.right rule.now)) (L.own (R.left rule.now) (R.right rule.now)) (length ac.now) (length bc.now) ≤ length columns.old }
    requires same { length columns.old ≡ length values.old }
    ensures entries { first_entries T.value result columns.new values.new ≡ pointwise nat_cmp (S.turned (R.gives rule.now)) (entries_of X.value ac.now av.now) (entries_of Y.value bc.now bv.now) }
    ensures most { result ≤ most_of (S.own (R.left rule.now) (R.right rule.now)) (L.own (R.left rule.now) (R.right rule.now)) (length ac.now) (length bc.now) }
{
    let mut place = 0;
    let mut k = 0;
    'entries: for i in 0..ac.len() {
        let index = ac[i];
        let next = next_place(bc, place, index);
        let (before, passed) = (&bc[..next], &bv[..next]);
        k = finish_rest::<T, U, Y, X, R, L>(rule, before, passed, place, columns, values, k);
        let (y, there) = stored_at(bc, bv, next, index);
        k = put_entry::<T, U, X, Y, R, S>(rule, index, av[i], y, there, columns, values, k);
        place = place_past(next, there);
    }
    finish_rest::<T, U, Y, X, R, L>(rule, bc, bv, place, columns, values, k)
}

/// The most entries of what the rule makes of a map of `a` entries and one of `b`. Takes no memory.
///
/// Source: own.
pub fn most_entries<T: Scalar, U: Scalar, R: Rule<T, U>>(rule: &R, a: usize, b: usize) -> usize
    requires fits { a + b < 2 ^ 64 }
    ensures { result ≡ most_of (R.left rule.now) (R.right rule.now) a b }
{
    match (rule.keeps_left(), rule.keeps_right()) {
        (true, true) => a + b,
        (true, false) => a,
        (false, true) => b,
        (false, false) => a.min(b),
    }
}

/// The map that the rule makes of two others, written to the front of `columns` and `values`. Answers how many entries it has. Where one
/// list is far longer than the other, it is searched for the indices of the other; what lies between is not read, where nothing is kept of
/// it alone.
///
/// - `rule`: what stands at an index, by the values that the two store there.
/// - `ac`, `av`: the indices and the values of the first map, in rising order of index.
/// - `bc`, `bv`: those of the second.
/// - `columns`, `values`: where the result goes; they have places for as many entries as it has at most.
pub fn merge<T: Scalar, U: Scalar, R: Rule<T, U>>(
    rule: &R,
    ac: &[u32],
    av: &[T],
    bc: &[u32],
    bv: &[U],
    columns: &mut [u32],
    values: &mut [T],
) -> usize
    requires a { length ac.now ≡ length av.now }
    requires b { length bc.now ≡ length bv.now }
    requires a_rising { IsTrue (is_sorted nat_cmp (entries_of T.value ac.now av.now)) }
    requires b_rising { IsTrue (is_sorted nat_cmp (entries_of U.value bc.now bv.now)) }
    requires room { most_of (R.left rule.now) (R.right rule.now) (length ac.now) (length bc.now) ≤ length columns.old }
    requires same { length columns.old ≡ length values.old }
    ensures entries { first_entries T.value result columns.new values.new ≡ made R.gives rule.now T.value ac.now av.now U.value bc.now bv.now }
    ensures rising { IsTrue (is_sorted nat_cmp (first_entries T.value result columns.new values.new)) }
    ensures most { result ≤ length ac.now + length bc.now }
    ensures within { result ≤ most_of (R.left rule.now) (R.right rule.now) (length ac.now) (length bc.now) }
{
    if bc.len() / FAR_LONGER >= ac.len() {
        return search_longer::<T, U, T, U, R, FirstMap, SecondMap>(
            rule, ac, av, bc, bv, columns, values,
        );
    }
    if ac.len() / FAR_LONGER >= bc.len() {
        return search_longer::<T, U, U, T, R, SecondMap, FirstMap>(
            rule, bc, bv, ac, av, columns, values,
        );
    }
    step_through(rule, ac, av, bc, bv, columns, values)
}

/// The map that the rule makes of two others. Takes memory for as many entries as it has at most. `AllocError` where that is refused; then
/// nothing is made.
///
/// - `rule`: what stands at an index, by the values that the two store there.
/// - `a`, `b`: the first and the second map.
pub fn merged<T: Scalar + Drop, U: Scalar, R: Rule<T, U>>(
    alloc: Global,
    rule: &R,
    a: &EntrySlice<T>,
    b: &EntrySlice<U>,
) -> Result<EntryList<T>, AllocError>
    ensures entries { IfOk result (λ list. owned list ≡ pointwise nat_cmp (R.gives rule.now) (lent a.now) (lent b.now)) }
{
    let room = most_entries::<T, U, R>(rule, a.indices.len(), b.indices.len());
    let mut indices = vec![in alloc; 0u32; room]?;
    let mut values = vec![in alloc; T::any(); room]?;
    let count = merge(
        rule,
        a.indices,
        a.values,
        b.indices,
        b.values,
        indices.as_mut_slice(),
        values.as_mut_slice(),
    );
    indices.truncate(count);
    values.truncate(count);
    Ok(EntryList { indices, values })
}
