//! The pass of a bounded store, with its context.
ghost use Rattle.std.specs.Prelude.{◌≡◌, ◌≤◌, ◌<◌, ◌^◌, All, IfErr, IfOk, OnOk, length};
ghost use Rattle.grb_order.specs.Order.{room_of};
ghost use Rattle.grb_call.specs.declared.call.Call.TheVariants as Call;
ghost use Rattle.grb_call.specs.declared.wait_mode.WaitMode.TheVariants as WaitMode;
ghost use Rattle.grb_call.specs.History.{store_of};
ghost use Rattle.grb_context.specs.Chosen.{IsNoSuccessor, chosen_store, room_beside};
ghost use Rattle.grb_context.specs.Known.{IsPassOf, known, none_made};
ghost use Rattle.grb_context.specs.Answered.{Answered};
ghost use Rattle.grb_context.specs.Looking.{IsNow, Looks};
ghost use Rattle.grb_context.specs.Meeting.{Met};
ghost use Rattle.grb_context.specs.Snapshot.{IsSnapshot};
ghost use Rattle.grb_context.specs.StoredIn.{IsMatrixOf, IsVectorOf};
ghost use Rattle.grb_context.specs.Succeeding.{AreBegun};
ghost use Rattle.grb_c.specs.Opening.{IsWithin};

use grb_call::{Call, MatrixId, Reply, VectorId};
use grb_context::{Context, NoSuccessor, Pass};
use grb_core::Refusal;
use grb_sparse::{SparseMatrix, SparseVector};
use std::alloc::Global;
use std::marker::Model;
use std::sync::Arc;

/// The pass of a bounded store, with its context.
#[derive(Drop)]
pub struct Bounded {
    pub(crate) context: Arc<Context>,
    pub(crate) pass: Pass,
}

impl Model for Bounded {
    ghost use Rattle.grb_context.specs.Known.{IsPassOf};
    ghost use Rattle.grb_c.specs.Bounded.{InStore};

    ghost Value = { InStore };

    ghost view = { λ s. record { context = s.context.value; pass = s.pass } };

    ghost invariant = { λ s. IsPassOf s.context.value s.pass };
}

impl Bounded {
    /// The pass and its context together.
    pub(crate) fn new(context: Arc<Context>, pass: Pass) -> Bounded
        requires pass { IsPassOf context.value pass }
        ensures { result ≡ record { context = context.value; pass = pass } }
    {
        Bounded { context, pass }
    }

    /// Makes one call. It is refused as by `Context::call`, by `OutOfMemory` too, which changes nothing.
    pub(crate) fn call(&mut self, call: Call) -> Result<Reply, Refusal>
        ensures context { self.new.context ≡ self.old.context }
        ensures answered { Answered self.old.context self.old.pass self.new.pass call result }
    {
        self.context.call(&mut self.pass, call)
    }

    /// Learns what the other knows, and where it adopts, goes on from what that has evaluated. `Panic` as of `Context::meet` and
    /// `Context::adopt`. A meeting takes no memory; where it is refused to an adoption, that goes on from its own.
    pub(crate) fn learn(&mut self, other: &mut Bounded, adopts: bool) -> Result<(), Refusal>
        requires context { self.old.context ≡ other.old.context }
        ensures met { Met self.old.context self.old.pass self.new.pass other.old.pass result }
        ensures context { self.new.context ≡ self.old.context }
        ensures other { other.new ≡ other.old }
    {
        if adopts {
            self.context.adopt(&mut self.pass, &mut other.pass)
        } else {
            self.context.meet(&mut self.pass, &mut other.pass)
        }
    }

    /// Evaluates what the pass knows, where that is dear; before how many of the calls that it knows no answer makes one any more.
    pub(crate) fn prepare(&mut self) -> u32
        ensures context { self.new.context ≡ self.old.context }
        ensures same { self.new.pass ≡ record self.old.pass { made = self.new.pass.made } }
        ensures count { result ≤ length (known self.new.pass) }
    {
        self.context.prepare(&mut self.pass)
    }

    /// Makes blocks of the dear products that other passes make at the moment; how many it made. Takes memory.
    pub(crate) fn help(&mut self) -> u32
        ensures { self.new ≡ self.old }
    {
        self.context.help(&mut self.pass)
    }

    /// How many blocks were made so far in the context. Takes no memory.
    pub(crate) fn blocks(&self) -> u64 {
        self.context.blocks()
    }

    /// Drops what the pass has evaluated: no known calls are settled any more. Takes no memory.
    pub(crate) fn release(&mut self)
        ensures context { self.new.context ≡ self.old.context }
        ensures released { self.new.pass ≡ record self.old.pass { settled = 0; made = none_made } }
    {
        self.pass.release();
    }

    /// A context that goes on from the store as it is now, and its passes, as [`Context::succeed_now`] has them.
    pub(crate) fn succeed(
        &mut self,
        alloc: Global,
        room: u32,
        passes: u32,
    ) -> Result<(Context, Vec<Pass>), NoSuccessor>
        requires within { IsWithin room passes }
        ensures context { self.new.context ≡ self.old.context }
        ensures looks { Looks (room_of self.old.context.order) self.old.pass self.new.pass }
        ensures now { OnOk result (IsNow (room_of self.old.context.order) self.old.pass self.new.pass) }
        ensures room { IfOk result (λ opened. room_of opened.0.order ≡ room_beside (store_of (known self.new.pass)) room) }
        ensures begun { IfOk result (λ opened. AreBegun opened.0 (store_of (known self.new.pass)) passes opened.1.items) }
        ensures ours { IfOk result (λ opened. All (IsPassOf opened.0) opened.1.items) }
        ensures refused { IfErr result (IsNoSuccessor room passes (store_of (known self.new.pass))) }
    {
        self.context
            .succeed_now(alloc, &mut self.pass, room, passes)
    }

    /// A context that begins with these objects as they are now, and its passes, as [`Context::branch_now`] has them.
    pub(crate) fn branch(
        &mut self,
        alloc: Global,
        matrices: &[MatrixId],
        vectors: &[VectorId],
        room: u32,
        passes: u32,
    ) -> Result<(Context, Vec<Pass>), NoSuccessor>
        requires within { IsWithin room passes }
        requires matrices { length matrices.now < 2 ^ 32 }
        requires vectors { length vectors.now < 2 ^ 32 }
        ensures context { self.new.context ≡ self.old.context }
        ensures looks { Looks (room_of self.old.context.order) self.old.pass self.new.pass }
        ensures now { OnOk result (IsNow (room_of self.old.context.order) self.old.pass self.new.pass) }
        ensures room { IfOk result (λ opened. room_of opened.0.order ≡ room_beside (chosen_store (store_of (known self.new.pass)) matrices.now vectors.now) room) }
        ensures begun { IfOk result (λ opened. AreBegun opened.0 (chosen_store (store_of (known self.new.pass)) matrices.now vectors.now) passes opened.1.items) }
        ensures ours { IfOk result (λ opened. All (IsPassOf opened.0) opened.1.items) }
        ensures refused { IfErr result (IsNoSuccessor room passes (chosen_store (store_of (known self.new.pass)) matrices.now vectors.now)) }
    {
        self.context
            .branch_now(alloc, &mut self.pass, matrices, vectors, room, passes)
    }

    /// The matrix as it stands at the point of a wait for it, as [`Context::snapshot_matrix`] hands it out.
    pub(crate) fn snapshot_matrix(&mut self, a: MatrixId) -> Result<Arc<SparseMatrix>, Refusal>
        ensures context { self.new.context ≡ self.old.context }
        ensures snapshot { IsSnapshot self.old.context self.old.pass self.new.pass (Call.WaitMatrix a WaitMode.Complete) result }
        ensures matrix { IfOk result (λ matrix. IsMatrixOf (store_of (known self.new.pass)) a matrix.value) }
    {
        self.context.snapshot_matrix(&mut self.pass, a)
    }

    /// The vector as it stands at the point of a wait for it, as [`Context::snapshot_vector`] hands it out.
    pub(crate) fn snapshot_vector(&mut self, v: VectorId) -> Result<Arc<SparseVector>, Refusal>
        ensures context { self.new.context ≡ self.old.context }
        ensures snapshot { IsSnapshot self.old.context self.old.pass self.new.pass (Call.WaitVector v WaitMode.Complete) result }
        ensures vector { IfOk result (λ vector. IsVectorOf (store_of (known self.new.pass)) v vector.value) }
    {
        self.context.snapshot_vector(&mut self.pass, v)
    }

    /// The pass.
    pub(crate) fn pass(&self) -> &Pass
        ensures { result.now ≡ self.now.pass }
    {
        &self.pass
    }
}
