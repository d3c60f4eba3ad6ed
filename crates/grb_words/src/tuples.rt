//! Lists of values, and the lists that a build takes.
ghost use Rattle.std.specs.Prelude.{◌≡◌, Some, IfOk, IfErr, map};
ghost use Rattle.grb_words.specs.Form.{values_in};
ghost use Rattle.grb_words.specs.Tuples.{vector_tuples, matrix_tuples, IsWhyNot};

use crate::fault::{FaultKind, Unread};
use crate::word::value;
use grb_call::{MatrixTuples, VectorTuples};
use grb_core::Value;
use std::alloc::{AllocError, Global};

/// The values that the words are.
pub fn values(alloc: Global, words: &[&[u8]]) -> Result<Vec<Value>, Unread>
    ensures read { IfOk result (λ values. values_in (map (λ word. word.now) words.now) ≡ Some values.items) }
    ensures fault { IfErr result (IsWhyNot (values_in (map (λ word. word.now) words.now)) FaultKind.Statement) }
{
    let mut values = Vec::new(alloc);
    for word in words {
        let value = value(word).ok_or(FaultKind::Statement)?;
        values.push(value).map_err(AllocError::from)?;
    }
    Ok(values)
}

/// The tuples that the values are: groups of an index and a value.
pub fn vector_tuples(alloc: Global, values: &[Value]) -> Result<VectorTuples, Unread>
    ensures read { IfOk result (λ tuples. vector_tuples values.now ≡ Some tuples) }
    ensures fault { IfErr result (IsWhyNot (vector_tuples values.now) FaultKind.WrongKind) }
{
    let mut tuples = Vec::new(alloc);
    let mut rest = values;
    while !rest.is_empty() {
        let [Value::Uint64(i), value, after @ ..] = rest else {
            return Err(Unread::Fault(FaultKind::WrongKind));
        };
        tuples.push((*i, *value)).map_err(AllocError::from)?;
        rest = after;
    }
    Ok(VectorTuples::from_vec(tuples)?)
}

/// The tuples that the values are: groups of a row, a column and a value.
pub fn matrix_tuples(alloc: Global, values: &[Value]) -> Result<MatrixTuples, Unread>
    ensures read { IfOk result (λ tuples. matrix_tuples values.now ≡ Some tuples) }
    ensures fault { IfErr result (IsWhyNot (matrix_tuples values.now) FaultKind.WrongKind) }
{
    let mut tuples = Vec::new(alloc);
    let mut rest = values;
    while !rest.is_empty() {
        let [Value::Uint64(i), Value::Uint64(j), value, after @ ..] = rest else {
            return Err(Unread::Fault(FaultKind::WrongKind));
        };
        tuples.push((*i, *j, *value)).map_err(AllocError::from)?;
        rest = after;
    }
    Ok(MatrixTuples::from_vec(tuples)?)
}
