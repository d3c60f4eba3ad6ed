//! The calls of a drawn history: of all sorts that enter, on few small objects, so that they depend on one another and some are refused.
use crate::operations::{Choice, Operands, Operation, operation_call};
use grb_call::{Call, MatrixId, MatrixTerm, MatrixTuples, VectorId, VectorTerm, VectorTuples};
use grb_core::{Domain, Value};
use grb_drawn::{Draw, value_of};
use std::alloc::{AllocError, Global};
use std::process::Abort;

/// How many calls a history has.
const CALLS: u32 = 200;

/// How many objects are made first, five of each sort.
const FIRST: u32 = 10;

/// The call that makes this of the first objects: vectors and matrices in turn, three of numbers and then two of truth values.
fn first_call(turn: u32) -> Call {
    let domain = if turn < 6 {
        Domain::Uint64
    } else {
        Domain::Bool
    };
    new_call(domain, turn % 2 == 1, 4, 4)
}

fn new_call(domain: Domain, is_matrix: bool, nrows: u64, ncols: u64) -> Call {
    if is_matrix {
        return Call::NewMatrix {
            domain,
            nrows,
            ncols,
        };
    }
    Call::NewVector {
        domain,
        size: nrows,
    }
}

/// The number of an object: mostly of a first one of the domain, else of one of the other, or of one that is made later, if at all.
fn drawn_number(draw: &mut Draw, domain: Domain) -> u32 {
    let n = draw.below(32) as u32;
    match (domain, n) {
        (_, 0) => 5,
        (_, 1) => 6,
        (Domain::Uint64, 2) | (Domain::Bool, 3..) => 3 + n % 2,
        (Domain::Uint64, _) => n % 3,
        (Domain::Bool, _) => 0,
    }
}

/// Mostly what the first objects have; 0 is refused.
fn drawn_size(draw: &mut Draw) -> u64 {
    match draw.below(8) {
        0 => draw.below(4),
        1 => 5,
        _ => 4,
    }
}

/// An index mostly within the first objects.
fn drawn_index(draw: &mut Draw) -> u64 {
    draw.below(17) / 4
}

fn drawn_value(draw: &mut Draw, domain: Domain) -> Value {
    value_of(domain, draw.number(domain))
}

/// A call on a vector alone.
fn call_on_vector(alloc: Global, draw: &mut Draw, domain: Domain) -> Result<Call, AllocError> {
    let v = VectorId(drawn_number(draw, domain));
    let (i, k) = (drawn_index(draw), drawn_index(draw));
    let (value, second) = (drawn_value(draw, domain), drawn_value(draw, domain));
    let size = drawn_size(draw);
    Ok(match draw.below(32) {
        0 => Call::NewVector { domain, size },
        1 => Call::FreeVector { v },
        2 | 3 => Call::DupVector { v },
        4 => Call::ClearVector { v },
        5 | 6 => Call::ResizeVector { v, size },
        7 | 8 => Call::RemoveVector { v, i },
        9..12 => Call::BuildVector {
            v,
            tuples: VectorTuples::from_vec(vec![in alloc; (i, value), (k, second)]?)?,
            dup: draw.monoid(domain),
        },
        _ => Call::SetVector { v, i, value },
    })
}

/// A call on a matrix alone.
fn call_on_matrix(alloc: Global, draw: &mut Draw, domain: Domain) -> Result<Call, AllocError> {
    let a = MatrixId(drawn_number(draw, domain));
    let (i, j) = (drawn_index(draw), drawn_index(draw));
    let (value, second) = (drawn_value(draw, domain), drawn_value(draw, domain));
    let (nrows, ncols) = (drawn_size(draw), drawn_size(draw));
    Ok(match draw.below(32) {
        0 => new_call(domain, true, nrows, ncols),
        1 => Call::FreeMatrix { a },
        2 | 3 => Call::DupMatrix { a },
        4 => Call::ClearMatrix { a },
        5 | 6 => Call::ResizeMatrix { a, nrows, ncols },
        7 | 8 => Call::RemoveMatrix { a, i, j },
        9..12 => Call::BuildMatrix {
            a,
            tuples: MatrixTuples::from_vec(vec![in alloc; (i, j, value), (j, i, second)]?)?,
            dup: draw.monoid(domain),
        },
        _ => Call::SetMatrix { a, i, j, value },
    })
}

const OPERATIONS: [Operation; 8] = [
    Operation::AddVector,
    Operation::MultVector,
    Operation::AddMatrix,
    Operation::MultMatrix,
    Operation::Mxv,
    Operation::Vxm,
    Operation::Mxm,
    Operation::ReduceRows,
];

/// An operation, whose mask may be of either domain.
fn drawn_operation(rt: &impl Abort, draw: &mut Draw, domain: Domain) -> Call {
    let choice = Choice {
        operation: OPERATIONS[draw.below(8) as usize],
        monoid: draw.monoid(domain),
        op: draw.op(domain),
        accum: draw.accum(domain),
        descriptor: draw.descriptor(),
    };
    let mask = draw.below(11) as u32 / 2;
    let operands = Operands {
        output: drawn_number(draw, domain),
        mask: if draw.truth() { Some(mask) } else { None },
        first: drawn_number(draw, domain),
        second: drawn_number(draw, domain),
    };
    let Ok(call) = operation_call(choice, operands) else {
        panic!(rt; "a monoid and an operator of two domains");
    };
    call
}

/// An operation on the entries of one matrix, or a Kronecker product, which mostly has too many rows and is refused.
fn matrix_term(draw: &mut Draw, domain: Domain) -> MatrixTerm {
    let (a, b) = (drawn_number(draw, domain), drawn_number(draw, domain));
    let (a, b) = (MatrixId(a), MatrixId(b));
    match draw.below(7) {
        0 | 1 => MatrixTerm::Transposed { a },
        2 | 3 => MatrixTerm::Applied {
            f: draw.function(domain),
            a,
        },
        4 | 5 => MatrixTerm::Selected {
            test: draw.test(domain),
            a,
        },
        _ => MatrixTerm::Kronecker {
            op: draw.op(domain),
            a,
            b,
        },
    }
}

fn vector_term(draw: &mut Draw, domain: Domain) -> VectorTerm {
    let u = VectorId(drawn_number(draw, domain));
    if draw.truth() {
        return VectorTerm::Applied {
            f: draw.function(domain),
            u,
        };
    }
    VectorTerm::Selected {
        test: draw.test(domain),
        u,
    }
}

/// A map or a filter, whose mask may be of either domain, or a matrix that has a vector on a diagonal.
fn drawn_term(draw: &mut Draw, domain: Domain) -> Call {
    let (output, accum, d) = (
        drawn_number(draw, domain),
        draw.accum(domain),
        draw.descriptor(),
    );
    let mask = draw.below(11) as u32 / 2;
    let is_masked = draw.truth();
    match draw.below(5) {
        0 | 1 => Call::WriteMatrix {
            c: MatrixId(output),
            mask: if is_masked {
                Some(MatrixId(mask))
            } else {
                None
            },
            accum,
            term: matrix_term(draw, domain),
            d,
        },
        2 | 3 => Call::WriteVector {
            w: VectorId(output),
            mask: if is_masked {
                Some(VectorId(mask))
            } else {
                None
            },
            accum,
            term: vector_term(draw, domain),
            d,
        },
        _ => Call::Diag {
            v: VectorId(output),
            diagonal: draw.diagonal(),
        },
    }
}

fn drawn_call(rt: &impl Abort, alloc: Global, draw: &mut Draw) -> Result<Call, AllocError> {
    let domain = if draw.below(3) == 0 {
        Domain::Bool
    } else {
        Domain::Uint64
    };
    match draw.below(4) {
        0 => call_on_vector(alloc, draw, domain),
        1 => call_on_matrix(alloc, draw, domain),
        2 => Ok(drawn_operation(rt, draw, domain)),
        _ => Ok(drawn_term(draw, domain)),
    }
}

/// The calls of a history over all sorts of calls that enter, some of which are refused.
pub(crate) fn drawn_history(
    rt: &impl Abort,
    alloc: Global,
    draw: &mut Draw,
) -> Result<Vec<Call>, AllocError> {
    let mut calls = Vec::new(alloc);
    for turn in 0..CALLS {
        calls.push(if turn < FIRST {
            first_call(turn)
        } else {
            drawn_call(rt, alloc, draw)?
        })?;
    }
    Ok(calls)
}
