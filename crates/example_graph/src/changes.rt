//! The changes that the workers of the service make, as a matrix of the chain.
use grb_call::{Call, MatrixId, Reply};
use grb_core::{Domain, Refusal, Value};
use grb_generations::Member;

/// The workers: there is a row for each.
pub(crate) const WORKERS: usize = 4;

/// The changes that each worker makes in all: there is a column for each.
pub(crate) const CHANGES: u64 = 100;

/// How often a change is tried that found no room. It was made nowhere then, since the next store was not to be had just now.
const TRIES: u32 = 1000;

/// The matrix of the changes. Any thread may copy it: it is a number, which the matrix keeps for as long as the chain goes on.
#[derive(Clone, Copy)]
pub(crate) struct Changes {
    matrix: MatrixId,
}

impl Changes {
    /// No changes yet. None where the call is answered by anything but the number of a matrix.
    pub(crate) fn new(member: &mut Member) -> Result<Option<Changes>, Refusal> {
        let reply = member.call(Call::NewMatrix {
            domain: Domain::Uint64,
            nrows: WORKERS as u64,
            ncols: CHANGES,
        })?;
        Ok(reply.matrix().map(|matrix| Changes { matrix }))
    }

    /// Makes a worker's change of this number: an entry in that column, with that value.
    fn make(self, member: &mut Member, worker: u64, number: u64) -> Result<(), Refusal> {
        'tries: for _ in 0..TRIES {
            let answer = member.call(Call::SetMatrix {
                a: self.matrix,
                i: worker,
                j: number,
                value: Value::Uint64(number),
            });
            match answer {
                Ok(_) => return Ok(()),
                Err(Refusal::OrderFull) => {}
                Err(refusal) => return Err(refusal),
            }
        }
        Err(Refusal::OrderFull)
    }

    /// Makes all changes of a worker, one after another; how many were answered `Done`.
    pub(crate) fn make_all(self, member: &mut Member, worker: u64) -> Result<u64, Refusal> {
        'changes: for number in 0..CHANGES {
            self.make(member, worker, number)?;
        }
        Ok(CHANGES)
    }

    /// How many of a worker's changes there are, each in its column and with its value.
    pub(crate) fn kept(self, member: &mut Member, worker: u64) -> Result<u64, Refusal> {
        let mut kept = 0u64;
        'changes: for number in 0..CHANGES {
            let reply = member.call(Call::GetMatrix {
                a: self.matrix,
                i: worker,
                j: number,
            })?;
            if reply == Reply::Value(Value::Uint64(number)) {
                kept = kept.saturating_add(1);
            }
        }
        Ok(kept)
    }
}
