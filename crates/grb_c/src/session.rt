//! What a handle has: the pass of a bounded store, or a member of a chain of stores.
ghost use Rattle.std.specs.Prelude.{◌≡◌, ◌≤◌, ◌<◌, ◌^◌, All, IfErr, IfOk, OnOk, length};
ghost use Rattle.std.specs.Result.{result_map_both};
ghost use Rattle.grb_call.specs.declared.call.Call.TheVariants as Call;
ghost use Rattle.grb_call.specs.declared.wait_mode.WaitMode.TheVariants as WaitMode;
ghost use Rattle.grb_order.specs.Order.{room_of};
ghost use Rattle.grb_context.specs.Chosen.{IsNoSuccessor, room_beside};
ghost use Rattle.grb_context.specs.Known.{IsPassOf, known};
ghost use Rattle.grb_context.specs.Succeeding.{AreBegun};
ghost use Rattle.grb_context.specs.StoredIn.{IsMatrixOf, IsVectorOf};
ghost use Rattle.grb_generations.specs.Branched.{LooksFirst};
ghost use Rattle.grb_generations.specs.Seated.{Stays};
ghost use Rattle.grb_c.specs.Branching.{HandsOut};
ghost use Rattle.grb_c.specs.Kinds.{HandsOutBy, IsMemberMatrix, IsMemberVector, info_at, store_chosen};
ghost use Rattle.grb_c.specs.Opening.{IsWithin};
ghost use Rattle.grb_c.specs.Sessions.{AreOfOne, Goes, IsSamePass, KindsMeet, KnowsNow, LooksIn, MadeBy, MeetsMember, is_full_at, meeting_code, pass_of, released};

use crate::bounded::Bounded;
use grb_call::{Call, MatrixId, Object, Reply, VectorId};
use grb_codes::{INVALID_VALUE, NO_VALUE, SUCCESS, met_code, refusal_code};
use grb_context::{Context, NoSuccessor, Pass};
use grb_core::{Info, Refusal};
use grb_generations::{Meeting, Member};
use grb_sparse::{SparseMatrix, SparseVector};
use std::alloc::Global;
use std::marker::Model;
use std::sync::Arc;

/// Who makes the calls of a handle.
#[derive(Drop)]
pub enum Kind {
    /// The pass of a bounded store.
    Bounded(Bounded),
    /// A member of a chain of stores.
    Member(Member),
}

/// Who makes the calls of a handle, and the number of the store or of the chain.
#[derive(Drop)]
pub struct Session {
    pub(crate) kind: Kind,
    // The number of the store.
    store: u64,
}

impl Model for Session {
    ghost use Rattle.grb_c.specs.Sessions.{Opened};

    ghost Value = { Opened };

    ghost view = { λ s. record { kind = s.kind; store = s.store } };
}

/// The member's snapshot of this matrix.
fn member_matrix(member: &mut Member, a: MatrixId) -> Result<Arc<SparseMatrix>, Refusal>
    ensures { HandsOutBy (Call.WaitMatrix a WaitMode.Complete) (λ n m. IsMemberMatrix n a m) (result_map_both (λ matrix. matrix.value) (λ refusal. refusal) result) member.old member.new }
{
    member.snapshot_matrix(a)
}

/// The member's snapshot of this vector.
fn member_vector(member: &mut Member, v: VectorId) -> Result<Arc<SparseVector>, Refusal>
    ensures { HandsOutBy (Call.WaitVector v WaitMode.Complete) (λ n x. IsMemberVector n v x) (result_map_both (λ vector. vector.value) (λ refusal. refusal) result) member.old member.new }
{
    member.snapshot_vector(v)
}

impl Session {
    /// A session of this store or chain.
    pub fn new(kind: Kind, store: u64) -> Session
        ensures { result ≡ record { kind = kind; store = store } }
    {
        Session { kind, store }
    }

    /// Makes one call. It is refused as by `Context::call` and `Member::call`, by `OutOfMemory` too, which changes nothing.
    pub fn call(&mut self, call: Call) -> Result<Reply, Refusal>
        ensures { MadeBy self.old self.new call result }
    {
        match &mut self.kind {
            Kind::Bounded(own) => own.call(call),
            Kind::Member(own) => own.call(call),
        }
    }

    /// Learns what the other knows, and where it adopts, goes on from what that has evaluated; tells the status. A member moves on first,
    /// where the other sits in a later generation, and tells where it could not. A pass of a bounded store and a member of a chain do not
    /// meet.
    pub(crate) fn learn(&mut self, other: &mut Session, adopts: bool) -> i32
        requires one { AreOfOne self.old.kind other.old.kind }
        ensures store { self.new.store ≡ self.old.store }
        ensures met { KindsMeet self.old.kind self.new.kind other.old.kind result }
        ensures other { other.new ≡ other.old }
    {
        match &mut self.kind {
            Kind::Bounded(own) => match &mut other.kind {
                Kind::Bounded(theirs) => met_code(own.learn(theirs, adopts)),
                Kind::Member(_) => INVALID_VALUE,
            },
            Kind::Member(own) => match &mut other.kind {
                Kind::Bounded(_) => INVALID_VALUE,
                Kind::Member(theirs) => meeting_code(learn_of(own, theirs, adopts)),
            },
        }
    }

    /// Evaluates what the pass knows, where that is dear; before how many of the calls that it knows no answer makes one any more.
    pub fn prepare(&mut self) -> u32
        ensures same { Goes IsSamePass Stays self.old self.new }
        ensures count { result ≤ length (known (pass_of self.new)) }
    {
        match &mut self.kind {
            Kind::Bounded(own) => own.prepare(),
            Kind::Member(own) => own.prepare(),
        }
    }

    /// Makes blocks of the dear products that other passes make at the moment, of a member in the generation in which it sits; how many it
    /// made. It learns nothing and waits for nobody. Takes memory.
    pub fn help(&mut self) -> u32
        ensures { self.new ≡ self.old }
    {
        match &mut self.kind {
            Kind::Bounded(own) => own.help(),
            Kind::Member(own) => own.help(),
        }
    }

    /// How many blocks were made so far, of a member in the generation in which it sits. Takes no memory.
    pub fn blocks(&self) -> u64 {
        match &self.kind {
            Kind::Bounded(own) => own.blocks(),
            Kind::Member(own) => own.blocks(),
        }
    }

    /// Drops what the pass has evaluated: no known calls are settled any more. Takes no memory.
    pub fn release(&mut self)
        ensures { Goes (λ o n. n ≡ record o { pass = released o.pass }) (λ o n. n ≡ record o { pass = released o.pass }) self.old self.new }
    {
        match &mut self.kind {
            Kind::Bounded(own) => own.release(),
            Kind::Member(own) => own.release(),
        }
    }

    /// A context that begins with these objects as they are now, and its passes, as
    /// [`Context::branch_now`](grb_context::Context::branch_now) and [`Member::branch_now`] have them.
    pub fn branch(
        &mut self,
        alloc: Global,
        matrices: &[MatrixId],
        vectors: &[VectorId],
        room: u32,
        passes: u32,
    ) -> Result<(Context, Vec<Pass>), NoSuccessor>
        requires within { IsWithin room passes }
        requires matrices { length matrices.now < 2 ^ 32 }
        requires vectors { length vectors.now < 2 ^ 32 }
        ensures looks { Goes LooksIn LooksFirst self.old self.new }
        ensures now { OnOk result (KnowsNow self.old self.new) }
        ensures room { IfOk result (λ opened. room_of opened.0.order ≡ room_beside (store_chosen self.new.kind matrices.now vectors.now) room) }
        ensures begun { IfOk result (λ opened. AreBegun opened.0 (store_chosen self.new.kind matrices.now vectors.now) passes opened.1.items) }
        ensures ours { IfOk result (λ opened. All (IsPassOf opened.0) opened.1.items) }
        ensures refused { IfErr result (IsNoSuccessor room passes (store_chosen self.new.kind matrices.now vectors.now)) }
    {
        match &mut self.kind {
            Kind::Bounded(own) => own.branch(alloc, matrices, vectors, room, passes),
            Kind::Member(own) => own.branch_now(alloc, matrices, vectors, room, passes),
        }
    }

    /// The matrix as it stands at the point of a wait for it, as [`Context::snapshot_matrix`](grb_context::Context::snapshot_matrix) and
    /// [`Member::snapshot_matrix`] hand it out.
    pub fn snapshot_matrix(&mut self, a: MatrixId) -> Result<Arc<SparseMatrix>, Refusal>
        ensures { Goes (HandsOut (Call.WaitMatrix a WaitMode.Complete) (λ s m. IsMatrixOf s a m) (result_map_both (λ matrix. matrix.value) (λ refusal. refusal) result)) (HandsOutBy (Call.WaitMatrix a WaitMode.Complete) (λ n m. IsMemberMatrix n a m) (result_map_both (λ matrix. matrix.value) (λ refusal. refusal) result)) self.old self.new }
    {
        match &mut self.kind {
            Kind::Bounded(own) => own.snapshot_matrix(a),
            Kind::Member(own) => member_matrix(own, a),
        }
    }

    /// The vector as it stands at the point of a wait for it, as [`Context::snapshot_vector`](grb_context::Context::snapshot_vector) and
    /// [`Member::snapshot_vector`] hand it out.
    pub fn snapshot_vector(&mut self, v: VectorId) -> Result<Arc<SparseVector>, Refusal>
        ensures { Goes (HandsOut (Call.WaitVector v WaitMode.Complete) (λ s x. IsVectorOf s v x) (result_map_both (λ vector. vector.value) (λ refusal. refusal) result)) (HandsOutBy (Call.WaitVector v WaitMode.Complete) (λ n x. IsMemberVector n v x) (result_map_both (λ vector. vector.value) (λ refusal. refusal) result)) self.old self.new }
    {
        match &mut self.kind {
            Kind::Bounded(own) => own.snapshot_vector(v),
            Kind::Member(own) => member_vector(own, v),
        }
    }

    /// The status that the last call on the object left, if there is one. Takes no memory.
    pub fn last_info(&self, object: Object) -> Option<Info>
        ensures { result ≡ info_at self.now.kind object }
    {
        match &self.kind {
            Kind::Bounded(own) => own.pass().last_info(object),
            Kind::Member(own) => own.last_info(object),
        }
    }

    /// Whether there is no room any more: the history is full and the pass knows all of it; of a member, whether it was refused to go on.
    /// Takes no memory.
    pub fn is_full(&self) -> bool
        ensures { result ≡ is_full_at self.now.kind }
    {
        match &self.kind {
            Kind::Bounded(own) => own.pass().is_at_end(),
            Kind::Member(own) => own.reason().is_some(),
        }
    }

    /// The number of the store.
    pub fn store(&self) -> u64
        ensures { result ≡ self.now.store }
    {
        self.store
    }

    /// The pass by which the next call is made: of a member, that in its generation.
    pub fn pass(&self) -> &Pass
        ensures { result.now ≡ pass_of self.now }
    {
        match &self.kind {
            Kind::Bounded(own) => own.pass(),
            Kind::Member(own) => own.pass(),
        }
    }
}

/// The status of a meeting of two members.
fn meeting_code(answer: Result<Meeting, Refusal>) -> i32
    ensures { result ≡ meeting_code answer }
{
    match answer {
        Ok(Meeting::Here | Meeting::Ahead) => SUCCESS,
        Ok(Meeting::Behind) => NO_VALUE,
        Err(refusal) => refusal_code(refusal),
    }
}

/// The same of two members of one chain.
fn learn_of(own: &mut Member, theirs: &mut Member, adopts: bool) -> Result<Meeting, Refusal>
    requires chain { own.old.chain ≡ theirs.old.chain }
    ensures met { MeetsMember own.old own.new theirs.old result }
    ensures theirs { theirs.new ≡ theirs.old }
{
    if adopts {
        own.adopt(theirs)
    } else {
        own.meet(theirs)
    }
}

/// What may go to another thread.
fn may_cross<T: Send>(_value: &T) {}

/// A session in its box may go to another thread.
pub fn session_may_cross(session: &Box<Session>) {
    may_cross(session);
}
