//! Entries gathered from the lines of a text, and the matrix that they are stored in.
ghost use Rattle.std.specs.Prelude.{◌≡◌, [], ◌∷◌, ◌++◌, true, IfOk, OnOk, is_some};
ghost use Rattle.std.specs.FinMap.{find, put, is_sorted};
ghost use Rattle.grb_core.specs.Entries.{cell_cmp, cells_of, map_from};
ghost use Rattle.grb_core.specs.declared.value.Value.{Value as StoredValue};
ghost use Rattle.grb_market.specs.Gathered.{comes_before, count_apart, are_apart};

use grb_core::Value;
use std::alloc::{AllocError, Global};
use std::collections::BTreeMap;

/// Whether a place comes before another, by row and in a row by column.
fn comes_before(p: (u64, u64), q: (u64, u64)) -> bool
    ensures { result ≡ comes_before p q }
{
    p.0 < q.0 || (p.0 == q.0 && p.1 < q.1)
}

/// Whether each place comes before the next.
pub(crate) fn is_rising(tuples: &[(u64, u64, Value)]) -> bool
    ensures { result ≡ is_sorted cell_cmp (cells_of tuples.now) }
{
    let [first, rest @ ..] = tuples else {
        return true;
    };
    let mut last = *first;
    'rest: for tuple in rest {
        if !comes_before((last.0, last.1), (tuple.0, tuple.1)) {
            return false;
        }
        last = *tuple;
    }
    true
}

/// Puts the tuples in rising order of their places, and tells whether no two of them have one place. Tuples that rise, which `rising`
/// tells, take no memory. `AllocError` where memory is refused to the sort of others; in which order these stand then, no clause says.
pub(crate) fn put_in_order(
    tuples: &mut Vec<(u64, u64, Value)>,
    rising: bool,
) -> Result<bool, AllocError>
    requires { rising ≡ is_sorted cell_cmp (cells_of tuples.old.items) }
    ensures apart { IfOk result (λ apart. apart ≡ are_apart (cells_of tuples.old.items)) }
    ensures ordered { IfOk result (λ apart. apart ≡ true → cells_of tuples.new.items ≡ map_from cell_cmp (cells_of tuples.old.items)) }
{
    if rising {
        return Ok(true);
    }
    tuples.sort_by_key(|tuple| (tuple.0, tuple.1))?;
    Ok(is_rising(tuples))
}

/// Appends an entry. `AllocError` where memory is refused; then it is not appended.
pub(crate) fn append(
    tuples: &mut Vec<(u64, u64, Value)>,
    cell: (u64, u64),
    value: Value,
) -> Result<(), AllocError>
    ensures { OnOk result (cells_of tuples.new.items ≡ cells_of tuples.old.items ++ (cell, value) ∷ []) }
{
    tuples
        .push((cell.0, cell.1, value))
        .map_err(AllocError::from)
}

/// Whether the tuples rise with this place after them, where `rising` tells whether they do without it.
fn is_rising_with(tuples: &[(u64, u64, Value)], rising: bool, cell: (u64, u64)) -> bool
    requires { rising ≡ is_sorted cell_cmp (cells_of tuples.now) }
    ensures { (value : StoredValue) → result ≡ is_sorted cell_cmp (cells_of tuples.now ++ (cell, value) ∷ []) }
{
    if tuples.is_empty() {
        return true;
    }
    let last = tuples[tuples.len() - 1];
    rising && comes_before((last.0, last.1), cell)
}

/// Appends an entry to tuples of which `rising` tells whether they rise, and tells whether they still do. `AllocError` where memory is
/// refused; then it is not appended.
pub(crate) fn append_next(
    tuples: &mut Vec<(u64, u64, Value)>,
    rising: bool,
    cell: (u64, u64),
    value: Value,
) -> Result<bool, AllocError>
    requires { rising ≡ is_sorted cell_cmp (cells_of tuples.old.items) }
    ensures appended { OnOk result (cells_of tuples.new.items ≡ cells_of tuples.old.items ++ (cell, value) ∷ []) }
    ensures rising { IfOk result (λ rising. rising ≡ is_sorted cell_cmp (cells_of tuples.new.items)) }
{
    let rising = is_rising_with(tuples, rising, cell);
    append(tuples, cell, value)?;
    Ok(rising)
}

/// How many of the tuples come before the first whose place an earlier one has. `AllocError` where memory is refused to the set of their
/// places.
pub(crate) fn count_apart(alloc: Global, tuples: &[(u64, u64, Value)]) -> Result<usize, AllocError>
    ensures { IfOk result (λ count. count ≡ count_apart [] (cells_of tuples.now)) }
{
    let mut earlier = BTreeMap::new(alloc);
    let mut count: usize = 0;
    for (i, j, value) in tuples {
        if store(&mut earlier, (*i, *j), *value)? {
            return Ok(count);
        }
        count += 1;
    }
    Ok(count)
}

/// Stores an entry, and tells whether its place had one before. `AllocError` where memory is refused; then it is not stored.
fn store(
    entries: &mut BTreeMap<(u64, u64), Value>,
    cell: (u64, u64),
    value: Value,
) -> Result<bool, AllocError>
    ensures stored { OnOk result (entries.new.entries ≡ put cell_cmp cell value entries.old.entries) }
    ensures stood { IfOk result (λ stood. stood ≡ is_some (find cell_cmp cell entries.old.entries)) }
{
    match entries.insert(cell, value) {
        Ok(old) => Ok(old.is_some()),
        Err(refused) => Err(AllocError::from(refused)),
    }
}
