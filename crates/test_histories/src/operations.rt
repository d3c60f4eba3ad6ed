//! Calls as tests make them: an operation by how it is called and by the numbers of its objects.
use grb_call::{Call, Descriptor, MatrixId, VectorId};
use grb_core::{BinaryOp, Monoid, Refusal, Semiring};
use std::alloc::{AllocError, Global};

/// An operation that writes an output.
#[derive(Clone, Copy)]
pub(crate) enum Operation {
    AddVector,
    MultVector,
    AddMatrix,
    MultMatrix,
    Mxv,
    Vxm,
    Mxm,
    ReduceRows,
}

/// How an operation is called. Where it is a product the monoid and the operator are of one domain.
#[derive(Clone, Copy)]
pub(crate) struct Choice {
    pub(crate) operation: Operation,
    pub(crate) monoid: Monoid,
    pub(crate) op: BinaryOp,
    pub(crate) accum: Option<BinaryOp>,
    pub(crate) descriptor: Descriptor,
}

/// The numbers of the objects of an operation. A reduction of rows has no second input.
#[derive(Clone, Copy)]
pub(crate) struct Operands {
    pub(crate) output: u32,
    pub(crate) mask: Option<u32>,
    pub(crate) first: u32,
    pub(crate) second: u32,
}

/// No mask is turned round or read by its structure alone, nothing is replaced, and no input is transposed.
pub(crate) const PLAIN: Descriptor = Descriptor {
    structure: false,
    comp: false,
    replace: false,
    tran: false,
    tran1: false,
};

fn of_vectors(choice: Choice, operands: Operands) -> Call {
    let (w, mask) = (
        VectorId(operands.output),
        operands.mask.map(|m| VectorId(m)),
    );
    let (u, v) = (VectorId(operands.first), VectorId(operands.second));
    let (accum, op, d) = (choice.accum, choice.op, choice.descriptor);
    match choice.operation {
        Operation::AddVector => Call::EwiseAddVector {
            w,
            mask,
            accum,
            op,
            u,
            v,
            d,
        },
        _ => Call::EwiseMultVector {
            w,
            mask,
            accum,
            op,
            u,
            v,
            d,
        },
    }
}

fn of_matrices(choice: Choice, operands: Operands, semiring: Semiring) -> Call {
    let (c, mask) = (
        MatrixId(operands.output),
        operands.mask.map(|m| MatrixId(m)),
    );
    let (a, b) = (MatrixId(operands.first), MatrixId(operands.second));
    let (accum, op, d) = (choice.accum, choice.op, choice.descriptor);
    match choice.operation {
        Operation::AddMatrix => Call::EwiseAddMatrix {
            c,
            mask,
            accum,
            op,
            a,
            b,
            d,
        },
        Operation::MultMatrix => Call::EwiseMultMatrix {
            c,
            mask,
            accum,
            op,
            a,
            b,
            d,
        },
        _ => Call::Mxm {
            c,
            mask,
            accum,
            semiring,
            a,
            b,
            d,
        },
    }
}

fn of_both(choice: Choice, operands: Operands, semiring: Semiring) -> Call {
    let (w, mask) = (
        VectorId(operands.output),
        operands.mask.map(|m| VectorId(m)),
    );
    let (first, second) = (operands.first, operands.second);
    let (accum, monoid, d) = (choice.accum, choice.monoid, choice.descriptor);
    match choice.operation {
        Operation::Mxv => Call::Mxv {
            w,
            mask,
            accum,
            semiring,
            a: MatrixId(first),
            u: VectorId(second),
            d,
        },
        Operation::Vxm => Call::Vxm {
            w,
            mask,
            accum,
            semiring,
            u: VectorId(first),
            a: MatrixId(second),
            d,
        },
        _ => Call::ReduceRows {
            w,
            mask,
            accum,
            monoid,
            a: MatrixId(first),
            d,
        },
    }
}

/// The call of this operation on these objects. A refusal where its monoid and its operator are of two domains.
pub(crate) fn operation_call(choice: Choice, operands: Operands) -> Result<Call, Refusal> {
    let semiring = Semiring::new(choice.monoid, choice.op)?;
    Ok(match choice.operation {
        Operation::AddVector | Operation::MultVector => of_vectors(choice, operands),
        Operation::Mxv | Operation::Vxm | Operation::ReduceRows => {
            of_both(choice, operands, semiring)
        }
        _ => of_matrices(choice, operands, semiring),
    })
}

/// These calls, each lent.
pub(crate) fn lent(alloc: Global, calls: &[Call]) -> Result<Vec<&Call>, AllocError> {
    calls.iter().collect(alloc)
}
