//! What a pass shows of itself without memory.
use crate::tests::scarcity::calls::OBJECTS;
use grb_call::{MatrixId, Object, VectorId};
use grb_context::Pass;
use grb_core::{Info, Refusal};

/// How many objects of each sort are looked at: those of the history, and the next.
const LOOKED_AT: usize = OBJECTS as usize + 1;

/// How much a pass has learnt, knows and has settled, and the statuses of objects.
#[derive(Clone, Copy, Debug, PartialEq, Eq)]
pub(super) struct Shown {
    pub(super) words: u32,
    pub(super) known: u32,
    pub(super) settled: u32,
    matrices: [Option<Info>; LOOKED_AT],
    vectors: [Option<Info>; LOOKED_AT],
}

/// Puts a status at its place in the row, if it has one.
fn put(row: &mut [Option<Info>], at: u32, status: Option<Info>) {
    if let Some(place) = row.get_mut(at as usize) {
        *place = status;
    }
}

impl Shown {
    pub(super) fn of(pass: &Pass) -> Shown {
        let mut shown = Shown {
            words: pass.words(),
            known: pass.known(),
            settled: pass.settled(),
            matrices: [None; LOOKED_AT],
            vectors: [None; LOOKED_AT],
        };
        for at in 0..=OBJECTS {
            let (a, v) = (Object::Matrix(MatrixId(at)), Object::Vector(VectorId(at)));
            put(&mut shown.matrices, at, pass.last_info(a));
            put(&mut shown.vectors, at, pass.last_info(v));
        }
        shown
    }

    /// The same after a call on this object that was refused memory.
    pub(super) fn refused(self, object: Option<Object>) -> Shown {
        let mut shown = self;
        let status = Some(Info::Refused(Refusal::OutOfMemory));
        match object {
            Some(Object::Matrix(a)) => put(&mut shown.matrices, a.0, status),
            Some(Object::Vector(v)) => put(&mut shown.vectors, v.0, status),
            None => {}
        }
        shown
    }
}
