//! The lists of tuples that builds take, in the three forms in which they lie: which are equal, and what is built of them.
//!
//! A contract says what equality and a build answer of the tuples that a list is seen as. What these are in each form is told by hand here,
//! and what each monoid makes of the values of one place.
ghost use Rattle.std.specs.Prelude.{◌≡◌, length};

use crate::operations::lent;
use crate::same::same;
use crate::stores::replayed;
use grb_call::{Call, MatrixId, MatrixTuples, VectorId, VectorTuples};
use grb_core::{Domain, Monoid, Value};
use grb_drawn::value_of;
use grb_sparse::{ApartTuples, SparseMatrix, SparseVector};
use std::alloc::{AllocError, Global};
use std::process::Abort;
use std::sync::Arc;

/// Some tuples: of a matrix by rows and columns, of a vector by indices. In how many forms they may lie.
struct Tuples {
    name: &'static str,
    rows: &'static [u64],
    columns: &'static [u64],
    indices: &'static [u64],
    values: &'static [u64],
    forms: usize,
}

/// The first rises. Each of the next three differs from it in one number, and each of three more in its length or its order. Then come one
/// with a place that stands twice, and two with a place of 2^32 or above.
static LISTS: [Tuples; 10] = [
    Tuples {
        name: "rising",
        rows: &[0, 0, 2],
        columns: &[1, 3, 0],
        indices: &[1, 3, 8],
        values: &[1, 0, 1],
        forms: 3,
    },
    Tuples {
        name: "another row",
        rows: &[0, 0, 1],
        columns: &[1, 3, 0],
        indices: &[1, 3, 4],
        values: &[1, 0, 1],
        forms: 3,
    },
    Tuples {
        name: "another column",
        rows: &[0, 0, 2],
        columns: &[1, 2, 0],
        indices: &[1, 2, 8],
        values: &[1, 0, 1],
        forms: 3,
    },
    Tuples {
        name: "another value",
        rows: &[0, 0, 2],
        columns: &[1, 3, 0],
        indices: &[1, 3, 8],
        values: &[1, 1, 1],
        forms: 3,
    },
    Tuples {
        name: "without the last",
        rows: &[0, 0],
        columns: &[1, 3],
        indices: &[1, 3],
        values: &[1, 0],
        forms: 3,
    },
    Tuples {
        name: "one more",
        rows: &[0, 0, 2, 2],
        columns: &[1, 3, 0, 1],
        indices: &[1, 3, 8, 9],
        values: &[1, 0, 1, 1],
        forms: 3,
    },
    Tuples {
        name: "another order",
        rows: &[0, 2, 0],
        columns: &[1, 0, 3],
        indices: &[1, 8, 3],
        values: &[1, 1, 0],
        forms: 2,
    },
    Tuples {
        name: "a place twice",
        rows: &[0, 0, 0],
        columns: &[1, 3, 3],
        indices: &[1, 3, 3],
        values: &[1, 0, 1],
        forms: 2,
    },
    Tuples {
        name: "a row of 2^32",
        rows: &[0, 0x1_0000_0000, 2],
        columns: &[1, 3, 0],
        indices: &[1, 0x1_0000_0003, 8],
        values: &[1, 0, 1],
        forms: 1,
    },
    Tuples {
        name: "a column of 2^32",
        rows: &[0, 0, 2],
        columns: &[1, 0x1_0000_0003, 0],
        indices: &[1, 3, 0x1_0000_0000_0008],
        values: &[1, 0, 1],
        forms: 1,
    },
];

/// One list of numbers in two orders. The places in their order have 6; 5, 2; 9, 1; and 3, 4, 10.
static NUMBERS: [Tuples; 2] = [
    Tuples {
        name: "numbers in any order",
        rows: &[2, 0, 1, 2, 0, 2, 1, 0],
        columns: &[1, 3, 2, 1, 0, 1, 2, 3],
        indices: &[9, 3, 6, 9, 0, 9, 6, 3],
        values: &[3, 5, 9, 4, 6, 10, 1, 2],
        forms: 2,
    },
    Tuples {
        name: "numbers in order",
        rows: &[0, 0, 0, 1, 1, 2, 2, 2],
        columns: &[0, 3, 3, 2, 2, 1, 1, 1],
        indices: &[0, 3, 3, 6, 6, 9, 9, 9],
        values: &[6, 5, 2, 9, 1, 3, 4, 10],
        forms: 2,
    },
];

/// The same of truth values: false; true, true; true, false; and true, false, false.
static TRUTHS: [Tuples; 2] = [
    Tuples {
        name: "truth values in any order",
        rows: &[2, 0, 1, 2, 0, 2, 1, 0],
        columns: &[1, 3, 2, 1, 0, 1, 2, 3],
        indices: &[9, 3, 6, 9, 0, 9, 6, 3],
        values: &[1, 1, 1, 0, 0, 0, 0, 1],
        forms: 2,
    },
    Tuples {
        name: "truth values in order",
        rows: &[0, 0, 0, 1, 1, 2, 2, 2],
        columns: &[0, 3, 3, 2, 2, 1, 1, 1],
        indices: &[0, 3, 3, 6, 6, 9, 9, 9],
        values: &[0, 1, 1, 1, 0, 1, 0, 0],
        forms: 2,
    },
];

/// The places that a build of these stores, in their order.
const PLACES: [(u64, u64); 4] = [(0, 0), (0, 3), (1, 2), (2, 1)];

/// What a build stores at each of these places.
const OF_NUMBERS: [(Monoid, [u64; 4]); 4] = [
    (Monoid::Plus, [6, 7, 10, 17]),
    (Monoid::Times, [6, 10, 9, 120]),
    (Monoid::Min, [6, 2, 1, 3]),
    (Monoid::Max, [6, 5, 9, 10]),
];

const OF_TRUTHS: [(Monoid, [u64; 4]); 4] = [
    (Monoid::Lor, [0, 1, 1, 1]),
    (Monoid::Land, [0, 1, 0, 0]),
    (Monoid::Lxor, [0, 0, 1, 1]),
    (Monoid::Lxnor, [0, 1, 0, 1]),
];

fn bools_of(alloc: Global, values: &[u64]) -> Result<Vec<bool>, AllocError> {
    values.iter().map(|n| *n != 0).collect(alloc)
}

/// Adds the forms of these numbers of a matrix that are no list of their own.
fn push_matrices_of_numbers(
    alloc: Global,
    forms: &mut Vec<MatrixTuples>,
    (rows, columns, numbers): (&[u64], &[u64], &[u64]),
) -> Result<(), AllocError> {
    if columns.len() != rows.len() || numbers.len() != rows.len() {
        return Ok(());
    }
    if let Some(list) = ApartTuples::of_numbers(alloc, rows, columns, numbers)? {
        forms.push(MatrixTuples::from_apart(Arc::new(alloc, list)?))?;
    }
    if let Some(matrix) = SparseMatrix::of_numbers(alloc, rows, columns, numbers)? {
        forms.push(MatrixTuples::from_matrix(Arc::new(alloc, matrix)?))?;
    }
    Ok(())
}

/// The same of truth values.
fn push_matrices_of_bools(
    alloc: Global,
    forms: &mut Vec<MatrixTuples>,
    (rows, columns, bools): (&[u64], &[u64], &[bool]),
) -> Result<(), AllocError> {
    if columns.len() != rows.len() || bools.len() != rows.len() {
        return Ok(());
    }
    if let Some(list) = ApartTuples::of_bools(alloc, rows, columns, bools)? {
        forms.push(MatrixTuples::from_apart(Arc::new(alloc, list)?))?;
    }
    if let Some(matrix) = SparseMatrix::of_bools(alloc, rows, columns, bools)? {
        forms.push(MatrixTuples::from_matrix(Arc::new(alloc, matrix)?))?;
    }
    Ok(())
}

/// All forms of these tuples of a matrix.
fn matrix_forms(
    alloc: Global,
    domain: Domain,
    list: &Tuples,
) -> Result<Vec<MatrixTuples>, AllocError> {
    let mut tuples = Vec::new(alloc);
    for ((row, column), value) in list.rows.iter().zip(list.columns).zip(list.values) {
        tuples.push((*row, *column, value_of(domain, *value)))?;
    }
    let mut forms = Vec::new(alloc);
    forms.push(MatrixTuples::from_vec(tuples)?)?;
    match domain {
        Domain::Uint64 => {
            let arrays = (list.rows, list.columns, list.values);
            push_matrices_of_numbers(alloc, &mut forms, arrays)?;
        }
        Domain::Bool => {
            let bools = bools_of(alloc, list.values)?;
            let arrays = (list.rows, list.columns, bools.as_slice());
            push_matrices_of_bools(alloc, &mut forms, arrays)?;
        }
    }
    Ok(forms)
}

/// These numbers of a vector, apart, if each index is below 2^32.
fn apart_numbers(
    alloc: Global,
    indices: &[u64],
    numbers: &[u64],
) -> Result<Option<VectorTuples>, AllocError>
    requires { length numbers.now ≡ length indices.now }
{
    match ApartTuples::row_of_numbers(alloc, indices, numbers)? {
        Some(list) => Ok(Some(VectorTuples::from_apart(Arc::new(alloc, list)?))),
        None => Ok(None),
    }
}

/// The same of truth values.
fn apart_bools(
    alloc: Global,
    indices: &[u64],
    bools: &[bool],
) -> Result<Option<VectorTuples>, AllocError>
    requires { length bools.now ≡ length indices.now }
{
    match ApartTuples::row_of_bools(alloc, indices, bools)? {
        Some(list) => Ok(Some(VectorTuples::from_apart(Arc::new(alloc, list)?))),
        None => Ok(None),
    }
}

/// Adds the forms of these numbers of a vector that are no list of their own.
fn push_vectors_of_numbers(
    alloc: Global,
    forms: &mut Vec<VectorTuples>,
    indices: &[u64],
    numbers: &[u64],
) -> Result<(), AllocError> {
    if numbers.len() != indices.len() {
        return Ok(());
    }
    if let Some(list) = apart_numbers(alloc, indices, numbers)? {
        forms.push(list)?;
    }
    if let Some(vector) = SparseVector::of_numbers(alloc, indices, numbers)? {
        forms.push(VectorTuples::from_vector(Arc::new(alloc, vector)?))?;
    }
    Ok(())
}

/// The same of truth values.
fn push_vectors_of_bools(
    alloc: Global,
    forms: &mut Vec<VectorTuples>,
    indices: &[u64],
    bools: &[bool],
) -> Result<(), AllocError> {
    if bools.len() != indices.len() {
        return Ok(());
    }
    if let Some(list) = apart_bools(alloc, indices, bools)? {
        forms.push(list)?;
    }
    if let Some(vector) = SparseVector::of_bools(alloc, indices, bools)? {
        forms.push(VectorTuples::from_vector(Arc::new(alloc, vector)?))?;
    }
    Ok(())
}

/// All forms of these tuples of a vector.
fn vector_forms(
    alloc: Global,
    domain: Domain,
    list: &Tuples,
) -> Result<Vec<VectorTuples>, AllocError> {
    let mut tuples = Vec::new(alloc);
    for (index, value) in list.indices.iter().zip(list.values) {
        tuples.push((*index, value_of(domain, *value)))?;
    }
    let mut forms = Vec::new(alloc);
    forms.push(VectorTuples::from_vec(tuples)?)?;
    match domain {
        Domain::Uint64 => {
            push_vectors_of_numbers(alloc, &mut forms, list.indices, list.values)?;
        }
        Domain::Bool => {
            let bools = bools_of(alloc, list.values)?;
            push_vectors_of_bools(alloc, &mut forms, list.indices, &bools)?;
        }
    }
    Ok(forms)
}

/// Whether both are of one list and one domain.
fn are_one(a: (&'static str, Domain), b: (&'static str, Domain)) -> bool {
    a.0 == b.0 && a.1 == b.1
}

#[test]
fn lists_of_a_matrix_are_equal_where_their_tuples_are(rt: HostRuntime) -> Result<(), AllocError> {
    let alloc = rt.alloc();
    let mut all = Vec::new(alloc);
    for domain in [Domain::Bool, Domain::Uint64] {
        for list in &LISTS {
            let forms = matrix_forms(alloc, domain, list)?;
            same(&rt, forms.len(), list.forms, list.name);
            for form in forms {
                all.push(((list.name, domain), form))?;
            }
        }
    }
    for (a, one) in &all {
        for (b, other) in &all {
            same(&rt, one == other, are_one(*a, *b), (a.0, b.0));
        }
    }
    Ok(())
}

#[test]
fn lists_of_a_vector_are_equal_where_their_tuples_are(rt: HostRuntime) -> Result<(), AllocError> {
    let alloc = rt.alloc();
    let mut all = Vec::new(alloc);
    for domain in [Domain::Bool, Domain::Uint64] {
        for list in &LISTS {
            let forms = vector_forms(alloc, domain, list)?;
            same(&rt, forms.len(), list.forms, list.name);
            for form in forms {
                all.push(((list.name, domain), form))?;
            }
        }
    }
    for (a, one) in &all {
        for (b, other) in &all {
            same(&rt, one == other, are_one(*a, *b), (a.0, b.0));
        }
    }
    Ok(())
}

/// The matrix that is built of these tuples stores the wanted values, and no others.
fn expect_matrix(
    rt: &impl Abort,
    alloc: Global,
    tuples: MatrixTuples,
    (domain, dup, wanted): (Domain, Monoid, [u64; 4]),
) -> Result<(), AllocError> {
    let (a, nrows, ncols) = (MatrixId(0), 3, 4);
    let new = Call::NewMatrix {
        domain,
        nrows,
        ncols,
    };
    let calls = vec![in alloc; new, Call::BuildMatrix { a, tuples, dup }]?;
    let lent = lent(alloc, &calls)?;
    let state = replayed(alloc, &lent)?;
    let Some(matrix) = state.matrix(a) else {
        panic!(rt; "no matrix");
    };
    same(rt, matrix.nvals(), 4, dup);
    for ((i, j), value) in PLACES.iter().zip(&wanted) {
        same(rt, matrix.get(*i, *j), Some(value_of(domain, *value)), dup);
    }
    Ok(())
}

/// The same of a vector.
fn expect_vector(
    rt: &impl Abort,
    alloc: Global,
    tuples: VectorTuples,
    (domain, dup, wanted): (Domain, Monoid, [u64; 4]),
) -> Result<(), AllocError> {
    let (v, size) = (VectorId(0), 12);
    let new = Call::NewVector { domain, size };
    let calls = vec![in alloc; new, Call::BuildVector { v, tuples, dup }]?;
    let lent = lent(alloc, &calls)?;
    let state = replayed(alloc, &lent)?;
    let Some(vector) = state.vector(v) else {
        panic!(rt; "no vector");
    };
    same(rt, vector.nvals(), 4, dup);
    for (index, value) in [0, 3, 6, 9].iter().zip(&wanted) {
        same(rt, vector.get(*index), Some(value_of(domain, *value)), dup);
    }
    Ok(())
}

/// Builds a matrix and a vector of each form of these tuples by each monoid.
fn expect_builds(
    rt: &impl Abort,
    alloc: Global,
    domain: Domain,
    list: &Tuples,
    wanted: &[(Monoid, [u64; 4])],
) -> Result<(), AllocError> {
    for (dup, values) in wanted {
        let matrices = matrix_forms(alloc, domain, list)?;
        same(rt, matrices.len(), list.forms, list.name);
        for tuples in matrices {
            expect_matrix(rt, alloc, tuples, (domain, *dup, *values))?;
        }
        let vectors = vector_forms(alloc, domain, list)?;
        same(rt, vectors.len(), list.forms, list.name);
        for tuples in vectors {
            expect_vector(rt, alloc, tuples, (domain, *dup, *values))?;
        }
    }
    Ok(())
}

#[test]
fn a_build_does_not_depend_on_order_or_form(rt: HostRuntime) -> Result<(), AllocError> {
    let alloc = rt.alloc();
    for list in &NUMBERS {
        expect_builds(&rt, alloc, Domain::Uint64, list, &OF_NUMBERS)?;
    }
    for list in &TRUTHS {
        expect_builds(&rt, alloc, Domain::Bool, list, &OF_TRUTHS)?;
    }
    Ok(())
}
