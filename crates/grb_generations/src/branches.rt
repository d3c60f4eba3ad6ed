//! A store of its own that begins with some objects of a chain.
ghost use Rattle.std.specs.Prelude.{◌≡◌, ◌<◌, ◌≤◌, ◌^◌, length, map, All, IfErr, IfOk};
ghost use Rattle.grb_order.specs.declared.limits.TheConstants.{MOST_PASSES, MOST_ROOM};
ghost use Rattle.grb_order.specs.Order.{room_of};
ghost use Rattle.grb_call.specs.History.{store_of};
ghost use Rattle.grb_context.specs.Chosen.{IsNoSuccessor, NamesChosen, chosen_store, room_beside};
ghost use Rattle.grb_context.specs.Known.{IsPassOf, known};
ghost use Rattle.grb_context.specs.Succeeding.{AreBegun};
ghost use Rattle.grb_numbers.specs.Inside.{inner_matrix, inner_vector};
ghost use Rattle.grb_generations.specs.Branched.{IsLook, LooksFirst, NamesAsked, named_outside, store_named};
ghost use Rattle.grb_generations.specs.Seated.{Stays};

use crate::member::Member;
use grb_call::{Call, MatrixId, VectorId};
use grb_context::{Context, NoSuccessor, Pass};
use grb_numbers::Numbers;
use std::alloc::{AllocError, Global};

/// The matrices by inner numbers. `AllocError` where memory is refused.
fn inner_matrices(
    alloc: Global,
    numbers: &Numbers,
    matrices: &[MatrixId],
) -> Result<Vec<MatrixId>, AllocError>
    ensures { IfOk result (λ all. all.items ≡ map (inner_matrix numbers.now) matrices.now) }
{
    let mut all = Vec::with_capacity(alloc, matrices.len())?;
    'matrices: for at in 0..matrices.len() {
        all.push(numbers.inner_matrix(matrices[at]))?;
    }
    Ok(all)
}

/// The vectors by inner numbers. `AllocError` where memory is refused.
fn inner_vectors(
    alloc: Global,
    numbers: &Numbers,
    vectors: &[VectorId],
) -> Result<Vec<VectorId>, AllocError>
    ensures { IfOk result (λ all. all.items ≡ map (inner_vector numbers.now) vectors.now) }
{
    let mut all = Vec::with_capacity(alloc, vectors.len())?;
    'vectors: for at in 0..vectors.len() {
        all.push(numbers.inner_vector(vectors[at]))?;
    }
    Ok(all)
}

impl Member {
    /// A context of its own that begins with these objects, just as the member's pass knows them where it sits, as
    /// [`Context::branch`] makes one. The member learns nothing and moves nowhere; [`Member::branch_now`] learns the newest first.
    /// Refused as `Context::branch`, and `OutOfMemory` also for the lists; then no context is made. `Unmade` names one of these objects, by
    /// the number that users have (own).
    pub fn branch(
        &mut self,
        alloc: Global,
        matrices: &[MatrixId],
        vectors: &[VectorId],
        room: u32,
        passes: u32,
    ) -> Result<(Context, Vec<Pass>), NoSuccessor>
        requires room { (0 < room) × (room ≤ MOST_ROOM) }
        requires passes { (0 < passes) × (passes ≤ MOST_PASSES) }
        requires matrices { length matrices.now < 2 ^ 32 }
        requires vectors { length vectors.now < 2 ^ 32 }
        ensures stays { Stays self.old self.new }
        ensures room { IfOk result (λ opened. room_of opened.0.order ≡ room_beside (store_named self.old matrices.now vectors.now) room) }
        ensures begun { IfOk result (λ opened. AreBegun opened.0 (store_named self.old matrices.now vectors.now) passes opened.1.items) }
        ensures ours { IfOk result (λ opened. All (IsPassOf opened.0) opened.1.items) }
        ensures refused { IfErr result (λ no. IsNoSuccessor room passes (store_named self.old matrices.now vectors.now) no) }
        ensures named { IfErr result (NamesAsked self.old matrices.now vectors.now) }
    {
        let (Ok(matrices), Ok(vectors)) = (
            inner_matrices(alloc, &self.numbers, matrices),
            inner_vectors(alloc, &self.numbers, vectors),
        ) else {
            return Err(NoSuccessor::OutOfMemory);
        };
        match self.branch_inside(alloc, &matrices, &vectors, room, passes) {
            Ok(opened) => Ok(opened),
            Err(why) => Err(self.named_outside(why)),
        }
    }

    /// The same of objects by inner numbers, and refused by these.
    pub(crate) fn branch_inside(
        &mut self,
        alloc: Global,
        matrices: &[MatrixId],
        vectors: &[VectorId],
        room: u32,
        passes: u32,
    ) -> Result<(Context, Vec<Pass>), NoSuccessor>
        requires room { (0 < room) × (room ≤ MOST_ROOM) }
        requires passes { (0 < passes) × (passes ≤ MOST_PASSES) }
        requires matrices { length matrices.now < 2 ^ 32 }
        requires vectors { length vectors.now < 2 ^ 32 }
        ensures stays { Stays self.old self.new }
        ensures room { IfOk result (λ opened. room_of opened.0.order ≡ room_beside (chosen_store (store_of (known self.old.pass)) matrices.now vectors.now) room) }
        ensures begun { IfOk result (λ opened. AreBegun opened.0 (chosen_store (store_of (known self.old.pass)) matrices.now vectors.now) passes opened.1.items) }
        ensures ours { IfOk result (λ opened. All (IsPassOf opened.0) opened.1.items) }
        ensures refused { IfErr result (IsNoSuccessor room passes (chosen_store (store_of (known self.old.pass)) matrices.now vectors.now)) }
        ensures named { IfErr result (NamesChosen (store_of (known self.old.pass)) matrices.now vectors.now) }
    {
        self.context
            .branch(alloc, &mut self.pass, matrices, vectors, room, passes)
    }

    /// The same reason, with the object that it names by the number that users have.
    fn named_outside(&self, why: NoSuccessor) -> NoSuccessor
        ensures { result ≡ named_outside self.now.numbers why }
    {
        match why {
            NoSuccessor::Unmade { object } => NoSuccessor::Unmade {
                object: self.outer_object(object),
            },
            NoSuccessor::RoomTooSmall { needed } => NoSuccessor::RoomTooSmall { needed },
            NoSuccessor::OutOfMemory => NoSuccessor::OutOfMemory,
            NoSuccessor::Panic => NoSuccessor::Panic,
        }
    }

    /// Learns the newest words, and moves where a call would, by a call that is refused.
    fn catch_up(&mut self)
        ensures { IsLook self.old self.new }
    {
        let none = MatrixId(u32::MAX);
        let _refused = self.call(Call::SizeMatrix { a: none });
    }

    /// The same of these objects as they are now: the member first makes a call that only reads, so it learns the newest and moves where that
    /// does. A call that returned before this one began is seen. Refused as `branch` (own).
    pub fn branch_now(
        &mut self,
        alloc: Global,
        matrices: &[MatrixId],
        vectors: &[VectorId],
        room: u32,
        passes: u32,
    ) -> Result<(Context, Vec<Pass>), NoSuccessor>
        requires room { (0 < room) × (room ≤ MOST_ROOM) }
        requires passes { (0 < passes) × (passes ≤ MOST_PASSES) }
        requires matrices { length matrices.now < 2 ^ 32 }
        requires vectors { length vectors.now < 2 ^ 32 }
        ensures looks { LooksFirst self.old self.new }
        ensures room { IfOk result (λ opened. room_of opened.0.order ≡ room_beside (store_named self.new matrices.now vectors.now) room) }
        ensures begun { IfOk result (λ opened. AreBegun opened.0 (store_named self.new matrices.now vectors.now) passes opened.1.items) }
        ensures ours { IfOk result (λ opened. All (IsPassOf opened.0) opened.1.items) }
        ensures refused { IfErr result (λ no. IsNoSuccessor room passes (store_named self.new matrices.now vectors.now) no) }
        ensures named { IfErr result (NamesAsked self.new matrices.now vectors.now) }
    {
        self.catch_up();
        self.branch(alloc, matrices, vectors, room, passes)
    }
}
