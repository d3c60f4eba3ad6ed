//! Values by a function: the kernel of apply. The cells of an object are copied whole, and its values are made anew.
ghost use Rattle.std.specs.Prelude.{◌≡◌, map, length, All, IsTrue, IfOk};
ghost use Rattle.std.specs.FinMap.{is_sorted};
ghost use Rattle.grb_core.specs.declared.value.Value.{Value};
ghost use Rattle.grb_core.specs.Value.{IsValueOf};
ghost use Rattle.grb_core.specs.Entries.{cell_cmp};
ghost use Rattle.grb_lists.specs.Cells.{decoded};
ghost use Rattle.grb_maps.specs.Changed.{with_values};

use grb_ewise::Stored;
use grb_kernels::Scalar;
use grb_lists::{FlatRows, copied};
use std::alloc::{AllocError, Global};

/// What is made of a value, whatever its place.
pub(crate) trait Change<T: Scalar>: Drop {
    /// What is made of a value.
    ghost gives: { Self → Value → Value };

    /// What is made of a value.
    fn of(&self, v: T) -> T
        ensures { T.value result ≡ gives self.now (T.value v) };
}

/// Writes what is made of each value, at its place.
fn write_changed<T: Scalar, C: Change<T>>(change: &C, values: &[T], made: &mut [T])
    requires { length made.old ≡ length values.now }
    ensures { map T.value made.new ≡ map (C.gives change.now) (map T.value values.now) }
{
    'values: for at in 0..values.len() {
        made[at] = change.of(values[at]);
    }
}

/// What is made of each value, in their order. `AllocError` where memory is refused; then nothing is made.
pub(crate) fn change_values<T: Scalar + Drop, C: Change<T>>(
    alloc: Global,
    change: &C,
    values: &[T],
) -> Result<Vec<T>, AllocError>
    ensures { IfOk result (λ made. map T.value made.items ≡ map (C.gives change.now) (map T.value values.now)) }
{
    let mut made = vec![in alloc; T::any(); values.len()]?;
    write_changed(change, values, made.as_mut_slice());
    Ok(made)
}

/// The same cells, with what is made of each value. `AllocError` where memory is refused; then nothing is made.
pub(crate) fn change_rows<T: Stored + Drop, C: Change<T>>(
    alloc: Global,
    change: &C,
    a: &FlatRows,
) -> Result<FlatRows, AllocError>
    requires domain { a.now.domain ≡ T.domain }
    requires ordered { IsTrue (is_sorted cell_cmp (decoded a.now.entries)) }
    ensures entries { IfOk result (λ made. decoded made.entries ≡ with_values (C.gives change.now) (decoded a.now.entries)) }
    ensures domain { IfOk result (λ made. made.domain ≡ T.domain) }
    ensures of_domain { IfOk result (λ made. All (λ e. IsValueOf T.domain e.1) (decoded made.entries)) }
{
    let rows = copied(alloc, a.rows())?;
    let starts = copied(alloc, a.starts())?;
    let columns = copied(alloc, a.columns())?;
    let values = change_values(alloc, change, T::of_lists(a))?;
    T::show(values.as_slice());
    Ok(T::keep(rows, starts, columns, values))
}
