//! The values of one object, in a list of their domain's type.
ghost use Rattle.std.specs.Prelude.{◌≡◌, ◌+◌, ◌-◌, ◌<◌, ◌≤◌, ◌++◌, [], ◌∷◌, true, length, map, take, drop, slice_set, slice_index_or, IfOk, OnOk};
ghost use Rattle.std.specs.Vec.{vec_len, vec_capacity};
ghost use Rattle.grb_core.specs.Value.{value_domain};
ghost use Rattle.grb_lists.specs.Values.{values_list, values_domain, values_len, values_capacity};

use crate::same::{are_same_bools, are_same_values};
use grb_core::{Domain, Value};
use std::alloc::{AllocError, Global};

/// The truth value of a value of the domain `Bool`.
fn bool_of(value: Value) -> bool
    requires { value_domain value ≡ Domain.Bool }
    ensures { value ≡ Value.Bool result }
{
    match value {
        Value::Bool(value) => value,
        Value::Uint64(_) => unreachable!(),
    }
}

/// The number of a value of the domain `Uint64`.
fn number_of(value: Value) -> u64
    requires { value_domain value ≡ Domain.Uint64 }
    ensures { value ≡ Value.Uint64 result }
{
    match value {
        Value::Uint64(value) => value,
        Value::Bool(_) => unreachable!(),
    }
}

/// Gives back the memory of a list that no element takes, where it is for more than an eighth of those that it has. Where that is refused,
/// the list keeps it.
pub(crate) fn shrink_list<T>(list: &mut Vec<T>)
    ensures { list.new.items ≡ list.old.items }
{
    let free = list.capacity() - list.len();
    if free > list.len() / 8 {
        list.shrink_to_fit();
    }
}

/// A list of its own with the same elements, copied whole. `AllocError` where memory is refused; then nothing is made.
pub fn copied<T: Copy>(alloc: Global, list: &[T]) -> Result<Vec<T>, AllocError>
    ensures { IfOk result (λ copy. copy.items ≡ list.now) }
{
    let mut copy = Vec::with_capacity(alloc, list.len())?;
    copy.extend_from_slice(list)?;
    Ok(copy)
}

/// Elements copied whole to the end of a list that has room for them. Takes no memory.
pub(crate) fn extend_reserved<T: Copy>(list: &mut Vec<T>, more: &[T])
    requires { vec_len list.old + length more.now ≤ vec_capacity list.old }
    ensures items { list.new.items ≡ list.old.items ++ more.now }
    ensures len { vec_len list.new ≡ vec_len list.old + length more.now }
    ensures capacity { vec_capacity list.old ≤ vec_capacity list.new }
{
    let _room_was_reserved = list.extend_from_slice(more);
}

/// The values of one domain, in order.
#[derive(Drop)]
pub(crate) enum Values {
    Bool(Vec<bool>),
    Uint64(Vec<u64>),
}

impl Values {
    /// No values. Takes no memory.
    pub(crate) fn new(alloc: Global, domain: Domain) -> Values
        ensures list { values_list result ≡ [] }
        ensures domain { values_domain result ≡ domain }
    {
        match domain {
            Domain::Bool => Values::Bool(Vec::new(alloc)),
            Domain::Uint64 => Values::Uint64(Vec::new(alloc)),
        }
    }

    /// No values, and memory for `room`. `AllocError` where it is refused; then nothing is made.
    pub(crate) fn with_capacity(
        alloc: Global,
        domain: Domain,
        room: usize,
    ) -> Result<Values, AllocError>
        ensures list { IfOk result (λ values. values_list values ≡ []) }
        ensures domain { IfOk result (λ values. values_domain values ≡ domain) }
        ensures len { IfOk result (λ values. values_len values ≡ 0) }
        ensures room { IfOk result (λ values. values_capacity values ≡ room) }
    {
        match domain {
            Domain::Bool => {
                let bools = Vec::with_capacity(alloc, room)?;
                Ok(Values::Bool(bools))
            }
            Domain::Uint64 => {
                let numbers = Vec::with_capacity(alloc, room)?;
                Ok(Values::Uint64(numbers))
            }
        }
    }

    /// The domain of the values.
    pub(crate) fn domain(&self) -> Domain
        ensures { result ≡ values_domain self.now }
    {
        match self {
            Values::Bool(_) => Domain::Bool,
            Values::Uint64(_) => Domain::Uint64,
        }
    }

    /// The value at a place.
    pub(crate) fn get(&self, at: usize) -> Value
        requires { at < length (values_list self.now) }
        ensures value { result ≡ slice_index_or (values_list self.now) at result }
        ensures domain { value_domain result ≡ values_domain self.now }
    {
        match self {
            Values::Bool(bools) => Value::Bool(bools[at]),
            Values::Uint64(numbers) => Value::Uint64(numbers[at]),
        }
    }

    /// Writes a value over the one at a place.
    pub(crate) fn set(&mut self, at: usize, value: Value)
        requires at { at < length (values_list self.old) }
        requires domain { value_domain value ≡ values_domain self.old }
        ensures list { values_list self.new ≡ slice_set (values_list self.old) at value }
        ensures domain { values_domain self.new ≡ values_domain self.old }
        ensures len { values_len self.new ≡ values_len self.old }
        ensures capacity { values_capacity self.new ≡ values_capacity self.old }
    {
        match self {
            Values::Bool(bools) => {
                bools[at] = bool_of(value);
                return;
            }
            Values::Uint64(numbers) => {
                numbers[at] = number_of(value);
                return;
            }
        }
    }

    /// One more value at the end.
    pub(crate) fn push_reserved(&mut self, value: Value)
        requires room { values_len self.old < values_capacity self.old }
        requires domain { value_domain value ≡ values_domain self.old }
        ensures list { values_list self.new ≡ values_list self.old ++ value ∷ [] }
        ensures domain { values_domain self.new ≡ values_domain self.old }
        ensures len { values_len self.new ≡ values_len self.old + 1 }
        ensures capacity { values_capacity self.new ≡ values_capacity self.old }
    {
        match self {
            Values::Bool(bools) => bools.push_reserved(bool_of(value)),
            Values::Uint64(numbers) => numbers.push_reserved(number_of(value)),
        }
    }

    /// Makes room for `n` more. `AllocError` where memory is refused.
    pub(crate) fn reserve(&mut self, n: usize) -> Result<(), AllocError>
        ensures list { values_list self.new ≡ values_list self.old }
        ensures domain { values_domain self.new ≡ values_domain self.old }
        ensures ok { OnOk result (values_len self.new + n ≤ values_capacity self.new) }
    {
        match self {
            Values::Bool(bools) => bools.reserve(n),
            Values::Uint64(numbers) => numbers.reserve(n),
        }
    }

    /// The values, which are of the domain `Bool`.
    pub(crate) fn bools(&self) -> &[bool]
        requires { values_domain self.now ≡ Domain.Bool }
        ensures { map (λ b. Value.Bool b) result.now ≡ values_list self.now }
    {
        match self {
            Values::Bool(bools) => bools,
            Values::Uint64(_) => unreachable!(),
        }
    }

    /// The values, which are of the domain `Uint64`.
    pub(crate) fn numbers(&self) -> &[u64]
        requires { values_domain self.now ≡ Domain.Uint64 }
        ensures { map (λ n. Value.Uint64 n) result.now ≡ values_list self.now }
    {
        match self {
            Values::Uint64(numbers) => numbers,
            Values::Bool(_) => unreachable!(),
        }
    }

    /// The values of others of the same domain from a place to another, copied whole to the end. Takes no memory.
    pub(crate) fn append_reserved(&mut self, other: &Values, start: usize, end: usize)
        requires order { start ≤ end }
        requires within { end ≤ length (values_list other.now) }
        requires domain { values_domain other.now ≡ values_domain self.old }
        requires room { values_len self.old + (end - start) ≤ values_capacity self.old }
        ensures list { values_list self.new ≡ values_list self.old ++ take (end - start) (drop start (values_list other.now)) }
        ensures domain { values_domain self.new ≡ values_domain self.old }
        ensures len { values_len self.new ≡ values_len self.old + (end - start) }
        ensures capacity { values_capacity self.old ≤ values_capacity self.new }
    {
        match self {
            Values::Bool(bools) => extend_reserved(bools, &other.bools()[start..end]),
            Values::Uint64(numbers) => extend_reserved(numbers, &other.numbers()[start..end]),
        }
    }

    /// Whether the values are the same, of one domain. Takes no memory.
    pub(crate) fn is_same(&self, other: &Values) -> bool
        ensures { result ≡ true → values_list self.now ≡ values_list other.now }
    {
        match self {
            Values::Bool(bools) => match other {
                Values::Bool(others) => are_same_bools(bools, others),
                Values::Uint64(_) => false,
            },
            Values::Uint64(numbers) => match other {
                Values::Uint64(others) => are_same_values(numbers, others),
                Values::Bool(_) => false,
            },
        }
    }

    /// Gives back the memory that no value takes, as `shrink_list` does.
    pub(crate) fn shrink(&mut self)
        ensures list { values_list self.new ≡ values_list self.old }
        ensures domain { values_domain self.new ≡ values_domain self.old }
    {
        match self {
            Values::Bool(bools) => shrink_list(bools),
            Values::Uint64(numbers) => shrink_list(numbers),
        }
    }

    /// The same values in a list of their own, copied whole. `AllocError` where memory is refused; then nothing is made.
    pub(crate) fn try_clone(&self, alloc: Global) -> Result<Values, AllocError>
        ensures list { IfOk result (λ copy. values_list copy ≡ values_list self.now) }
        ensures domain { IfOk result (λ copy. values_domain copy ≡ values_domain self.now) }
    {
        match self {
            Values::Bool(bools) => {
                let copy = copied(alloc, bools)?;
                Ok(Values::Bool(copy))
            }
            Values::Uint64(numbers) => {
                let copy = copied(alloc, numbers)?;
                Ok(Values::Uint64(copy))
            }
        }
    }
}
