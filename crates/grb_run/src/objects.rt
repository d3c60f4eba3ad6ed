//! The objects that stand for the names of a script.
ghost use Rattle.std.specs.Prelude.{◌≡◌, ℕ, List, OnOk};
ghost use Rattle.std.specs.Option.{option_map};
ghost use Rattle.grb_call.specs.declared.ids.Object.{Object};
ghost use Rattle.grb_run.specs.Objects.{matrix_named, vector_named, new_object, made_sort, objects_after};

use grb_call::{MatrixId, Object, Reply, VectorId};
use grb_replies::Answer;
use grb_script::{Sort, Statement};
use std::alloc::AllocError;

/// What a name stands for whose matrix was not made: no matrix has this number, so a call of it is refused.
const NO_MATRIX: MatrixId = MatrixId(u32::MAX);

/// What a name stands for whose vector was not made: no vector has this number, so a call of it is refused.
const NO_VECTOR: VectorId = VectorId(u32::MAX);

/// The number of an object of one sort, for which a name can stand.
pub(crate) trait Named: Copy {
    /// What a name stands for, where the names so far stand for these objects.
    ghost named: { List Object → ℕ → Self };

    /// What a name stands for, where the names so far stand for these objects.
    fn named(objects: &[Object], name: usize) -> Self
        ensures { result ≡ named objects.now name };
}

impl Named for MatrixId {
    ghost named = { matrix_named };

    fn named(objects: &[Object], name: usize) -> MatrixId {
        match objects.get(name) {
            Some(Object::Matrix(a)) => *a,
            _ => NO_MATRIX,
        }
    }
}

impl Named for VectorId {
    ghost named = { vector_named };

    fn named(objects: &[Object], name: usize) -> VectorId {
        match objects.get(name) {
            Some(Object::Vector(v)) => *v,
            _ => NO_VECTOR,
        }
    }
}

/// What the name of a mask stands for, where one is given.
pub(crate) fn mask_named<I: Named>(objects: &[Object], mask: Option<usize>) -> Option<I>
    ensures { result ≡ option_map (I.named objects.now) mask }
{
    match mask {
        Some(name) => Some(I::named(objects, name)),
        None => None,
    }
}

/// The sort of the object that a statement makes, if it makes one.
pub fn made_sort(statement: &Statement) -> Option<Sort>
    ensures { result ≡ made_sort statement.now }
{
    match statement {
        Statement::Matrix { .. } | Statement::Diag { .. } => Some(Sort::Matrix),
        Statement::Vector { .. } => Some(Sort::Vector),
        Statement::Dup { sort, .. } => Some(*sort),
        _ => None,
    }
}

/// What a new name stands for whose statement makes an object of this sort and was answered this.
fn new_object(sort: Sort, answer: &Answer) -> Object
    ensures { result ≡ new_object sort answer.now }
{
    match (sort, answer) {
        (_, Ok(Reply::MadeMatrix(a))) => Object::Matrix(*a),
        (_, Ok(Reply::MadeVector(v))) => Object::Vector(*v),
        (Sort::Matrix, _) => Object::Matrix(NO_MATRIX),
        (Sort::Vector, _) => Object::Vector(NO_VECTOR),
    }
}

/// Keeps what the name stands for that a statement makes, if it makes one of this sort and was answered this. `AllocError` where memory is
/// refused; then nothing is kept.
pub fn keep_object(
    objects: &mut Vec<Object>,
    made: Option<Sort>,
    answer: &Answer,
) -> Result<(), AllocError>
    ensures { OnOk result (objects.new.items ≡ objects_after objects.old.items made answer.now) }
{
    if let Some(sort) = made {
        objects.push(new_object(sort, answer))?;
    }
    Ok(())
}
