//! A store that is opened to be helped makes dear products by blocks for one pass alone, as that of a program does whose threads help.
//! Contracts say of each answer that it is right, whoever made which block, and none says that a product is made by blocks at all; a script
//! does not see it.
ghost use Rattle.grb_context.specs.Known.{IsPassOf};

use crate::tests::same::same;
use crate::tests::stores::next_pass;
use grb_call::{Descriptor, MatrixId, MatrixTuples, Reply};
use grb_context::{Context, Pass};
use grb_core::{BinaryOp, Domain, Monoid, Refusal, Semiring, Value};
use std::alloc::{AllocError, Global};
use std::process::Abort;

const ROOM: u32 = 64;

/// How many rows and columns the matrices have. The least product, of one that is full and one that is full below the diagonal, has
/// 136 * 136 * 135 / 2 = 1,248,480 products of entries, which is more than 2^20.
const SIDE: u64 = 136;

/// Ones everywhere.
const A: MatrixId = MatrixId(0);

/// Ones below the diagonal.
const L: MatrixId = MatrixId(1);

/// A mask says by its structure where is written.
const BY_STRUCTURE: Descriptor = Descriptor {
    structure: true,
    comp: false,
    replace: false,
    tran: false,
    tran1: false,
};

/// What a matrix stores, with row `i` and column `j` from 0.
#[derive(Clone, Copy)]
enum Stores {
    /// This everywhere.
    All(u64),
    /// This below the diagonal.
    Below(u64),
    /// This where `i` is not 0.
    AfterFirst(u64),
    /// `i` where that is not 0: row `i` of what is full below the diagonal has `i` ones.
    Row,
}

impl Stores {
    fn at(self, i: u64, j: u64) -> Option<u64> {
        match self {
            Stores::All(number) => Some(number),
            Stores::Below(number) if j < i => Some(number),
            Stores::AfterFirst(number) if i > 0 => Some(number),
            Stores::Row if i > 0 => Some(i),
            _ => None,
        }
    }

    fn tuples(self, alloc: Global) -> Result<MatrixTuples, AllocError> {
        let mut tuples = Vec::new(alloc);
        for i in 0..SIDE {
            for j in 0..SIDE {
                if let Some(number) = self.at(i, j) {
                    tuples.push((i, j, Value::Uint64(number)))?;
                }
            }
        }
        MatrixTuples::from_vec(tuples)
    }
}

/// A product into an empty matrix.
struct Case {
    name: &'static str,
    mask: Option<MatrixId>,
    semiring: (Monoid, BinaryOp),
    inputs: (MatrixId, MatrixId),
    stores: Stores,
}

/// By hand: a row of the full matrix has 136 ones.
static CASES: [Case; 4] = [
    Case {
        name: "all by all",
        mask: None,
        semiring: (Monoid::Plus, BinaryOp::Times),
        inputs: (A, A),
        stores: Stores::All(SIDE),
    },
    Case {
        name: "below the diagonal by all",
        mask: None,
        semiring: (Monoid::Plus, BinaryOp::Times),
        inputs: (L, A),
        stores: Stores::Row,
    },
    Case {
        name: "inside a structure",
        mask: Some(L),
        semiring: (Monoid::Plus, BinaryOp::Times),
        inputs: (A, A),
        stores: Stores::Below(SIDE),
    },
    Case {
        name: "the least sums",
        mask: None,
        semiring: (Monoid::Min, BinaryOp::Plus),
        inputs: (L, A),
        stores: Stores::AfterFirst(2),
    },
];

/// Makes a matrix that stores this.
fn make(
    alloc: Global,
    context: &Context,
    pass: &mut Pass,
    stores: Stores,
) -> Result<MatrixId, Refusal>
    requires { IsPassOf context.now pass.old }
    ensures { IsPassOf context.now pass.new }
{
    let Reply::MadeMatrix(a) = context.new_matrix(pass, Domain::Uint64, SIDE, SIDE)? else {
        return Err(Refusal::Panic);
    };
    let Ok(tuples) = stores.tuples(alloc) else {
        return Err(Refusal::OutOfMemory);
    };
    context.build_matrix(pass, a, tuples, Monoid::Plus)?;
    Ok(a)
}

/// What the product is found to store.
fn found(context: &Context, pass: &mut Pass, case: &Case) -> Result<MatrixTuples, Refusal>
    requires { IsPassOf context.now pass.old }
    ensures { IsPassOf context.now pass.new }
{
    let Reply::MadeMatrix(c) = context.new_matrix(pass, Domain::Uint64, SIDE, SIDE)? else {
        return Err(Refusal::Panic);
    };
    let semiring = Semiring::new(case.semiring.0, case.semiring.1)?;
    let (a, b) = case.inputs;
    context.mxm(pass, c, case.mask, None, semiring, a, b, BY_STRUCTURE)?;
    context.tuples_matrix(pass, c)
}

/// The product stores what it is to store.
fn expect<R: Abort>(rt: &R, alloc: Global, context: &Context, pass: &mut Pass, case: &Case)
    requires { IsPassOf context.now pass.old }
    ensures { IsPassOf context.now pass.new }
{
    let found = found(context, pass, case);
    let wanted = case.stores.tuples(alloc);
    let are_same = match (found, wanted) {
        (Ok(found), Ok(wanted)) => found == wanted,
        _ => false,
    };
    same(rt, are_same, true, case.name);
}

/// Each product stores what it is to store, and some block was made of it.
fn expect_cases<R: Abort>(rt: &R, alloc: Global, context: &Context, pass: &mut Pass)
    requires { IsPassOf context.now pass.old }
    ensures { IsPassOf context.now pass.new }
{
    let mut before = context.blocks();
    'cases: for case in &CASES {
        expect(rt, alloc, context, pass, case);
        let blocks = context.blocks();
        same(rt, before < blocks, true, ("blocks", case.name));
        before = blocks;
    }
}

/// At the end a thread without a pass finds nothing to make.
#[test]
fn a_pass_alone_that_may_be_helped_makes_blocks(rt: HostRuntime) -> Result<(), AllocError> {
    let alloc = rt.alloc();
    let (context, mut passes) = Context::open_with(alloc, ROOM, 1, true)?;
    let mut pass = next_pass(&rt, &context, &mut passes);
    let full = make(alloc, &context, &mut pass, Stores::All(1));
    same(&rt, full, Ok(A), "the full matrix");
    let lower = make(alloc, &context, &mut pass, Stores::Below(1));
    same(&rt, lower, Ok(L), "the one below the diagonal");
    expect_cases(&rt, alloc, &context, &mut pass);
    same(&rt, context.lend_hand(), 0, "blocks without a pass");
    Ok(())
}
