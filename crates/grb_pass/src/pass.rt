//! A pass: one thread's way into the history, with what it knows, has evaluated and was answered.
ghost use Rattle.std.specs.Prelude.{◌≡◌, ℕ, ◌<◌, ◌≤◌, ◌+◌, ◌^◌, ◌==◌, ◌⊎◌, false, true, None, Some, Ok, length, All, IfOk, IfErr, IfSome, MatchOption, OnErr};
ghost use Rattle.grb_order.specs.declared.limits.TheConstants.{MOST_PASSES, MOST_ROOM, MOST_WORDS};
ghost use Rattle.grb_order.specs.View.{fresh, LookedLast};
ghost use Rattle.grb_order.specs.Order.{room_of};
ghost use Rattle.grb_records.specs.Token.{IsOf};
ghost use Rattle.grb_call.specs.Kinds.{enters, is_build, is_size};
ghost use Rattle.grb_call.specs.Refused.{is_in_bounds, refused_by_shapes};
ghost use Rattle.grb_call.specs.Shapes.{is_live};
ghost use Rattle.grb_call.specs.Store.{shapes_of};
ghost use Rattle.grb_call.specs.After.{refused};
ghost use Rattle.grb_call.specs.History.{store_of};
ghost use Rattle.grb_call.specs.Status.{object_of};
ghost use Rattle.grb_call.specs.Statuses.{status_at};
ghost use Rattle.grb_states.specs.StoredIn.{IsMatrixOf, IsVectorOf};
ghost use Rattle.grb_rebuild.specs.Rebuilding.{IsRebuild};
ghost use Rattle.grb_pass.specs.Chosen.{IsNoSuccessor, MayHaveRoom, NamesChosen, NamesLive, chosen_store, room_beside};
ghost use Rattle.grb_pass.specs.Evaluated.{IsAssembled};
ghost use Rattle.grb_reader.specs.Known.{known, new_pass, none_made};
ghost use Rattle.grb_reader.specs.Counting.{Counts};
ghost use Rattle.grb_reader.specs.Laws.{Begins};
ghost use Rattle.grb_reader.specs.Learning.{Enters, IsSteady};
ghost use Rattle.grb_reader.specs.Cells.{OwnBelow};
ghost use Rattle.grb_reader.specs.LiveNumbers.{AreLiveObjects};
ghost use Rattle.grb_reader.specs.Reading.{IsBuildChecked, IsChecked, count_call, count_of_output};
ghost use Rattle.grb_reader.specs.Replying.{IsReplied, ReadsStore, statuses_with};
ghost use Rattle.grb_reader.specs.Settled.{is_materialize, waited_for, IsLeftReady, LeavesReady, MayLackMatrix, MayLackVector};

use crate::evaluated::Evaluated;
use grb_call::{Call, Class, Kind, MatrixId, Object, Reply, VectorId, WaitMode};
use grb_core::{Info, Refusal};
use grb_editions::Versions;
use grb_objects::Helps;
use grb_order::{Order, Seat};
use grb_reader::{BackOff, LiveObjects, Reader, RecordRow};
use grb_rebuild::{NoSuccessor, Rebuild};
use grb_records::{Records, Token};
use grb_sparse::{SparseMatrix, SparseVector};
use grb_states::State;
use std::alloc::{AllocError, Global};
use std::marker::Model;
use std::sync::Arc;

/// One thread's view of a context: its number, and what it knows of the history.
#[derive(Drop)]
pub struct Pass<O: Helps> {
    pub(crate) reader: Reader,
    // What it has evaluated of the calls that it knows.
    evaluated: Evaluated<O>,
    // Where its own records go.
    row: RecordRow,
    // How long it holds back after a lost try.
    back_off: BackOff,
}

impl<O: Helps> Model for Pass<O> {
    ghost use Rattle.grb_pass.specs.Evaluated.{IsPassState};
    ghost use Rattle.grb_reader.specs.Known.{Knowing};

    ghost Value = { Knowing };

    ghost view = { λ p. p.reader };

    ghost invariant = { λ p. IsPassState p.reader p.evaluated p.row.next };
}

/// The call that asks how many entries the object of a build stores.
fn count_call(call: &Call) -> Call
    requires { is_build call.now ≡ true }
    ensures { result ≡ count_call call.now }
{
    match call.object() {
        Some(Object::Matrix(a)) => Call::NvalsMatrix { a },
        Some(Object::Vector(v)) => Call::NvalsVector { v },
        None => unreachable!(),
    }
}

/// The object that a call waits for, where it waits for one alone.
fn waited_for(call: &Call) -> Option<Object>
    ensures { result ≡ waited_for call.now }
{
    match call {
        Call::WaitMatrix {
            a,
            mode: WaitMode::Complete,
        } => Some(Object::Matrix(*a)),
        Call::WaitVector {
            v,
            mode: WaitMode::Complete,
        } => Some(Object::Vector(*v)),
        _ => None,
    }
}

impl<O: Helps> Pass<O> {
    /// A pass that knows no call, with memory for all that it can learn. `AllocError` where memory is refused.
    pub(crate) fn open(
        alloc: Global,
        number: u32,
        seat: Seat,
        room: u32,
        versions: Arc<Versions>,
        bench: O,
        alone: bool,
    ) -> Result<Pass<O>, AllocError>
        requires number { (number ≡ seat.view.number) × (number < seat.view.passes) }
        requires room { (room ≡ room_of seat.table_id) × (room ≤ MOST_WORDS) }
        requires fresh { seat.view ≡ fresh number seat.view.passes }
        ensures { IfOk result (λ pass. pass ≡ new_pass seat.table_id seat.view) }
    {
        let reader = Reader::open(alloc, number, seat, room)?;
        Ok(Pass {
            reader,
            evaluated: Evaluated::open(alloc, versions, bench, alone),
            row: RecordRow::open(),
            back_off: BackOff::new(),
        })
    }

    /// The number of the pass, from 0. Takes no memory.
    pub fn number(&self) -> u32
        ensures { result ≡ self.now.view.number }
    {
        self.reader.number()
    }

    /// How many calls of the history the pass knows. Takes no memory.
    pub fn known(&self) -> u32
        ensures { result ≡ length (known self.now) }
    {
        self.reader.known()
    }

    /// How many words of the order the pass has learnt. Those that it entered itself each name a further record of its row. Takes no
    /// memory.
    pub fn words(&self) -> u32
        ensures words { result ≡ length self.now.view.words }
        ensures own { (end : ℕ) × OwnBelow end self.now.view }
    {
        self.reader.words()
    }

    /// How many atomic steps the pass's last call made on the order, or its last meeting with it as the first pass, if that came later; 0
    /// before either. A call that learns d words, its own included, makes d + 1, and one more for each try that it loses, where each record
    /// is shown; one less where it finds the order full or a record is not shown. A meeting that learns d words makes d. Takes no memory.
    pub fn steps(&self) -> u32
        ensures { result ≡ self.now.steps }
    {
        self.reader.steps()
    }

    /// How many calls of the history the pass's last call made to answer: only calls on which the answer depends and whose results it lacked. A
    /// call that is made twice counts twice, and one that was refused memory may count; those whose results the pass has of another's, by an
    /// edition or by [`Shared::adopt`](crate::Shared::adopt), do not. 0 before a first call and after a meeting; after
    /// [`Shared::prepare`](crate::Shared::prepare) what that made, and after a list of calls what its last call made. It is for tests and
    /// for services that watch what reads cost. It is 0 after a call that enters and is no build, one for dimensions, a read that shapes
    /// refuse, and a read where all known calls are settled; no contract says more of the number (own). Takes no memory.
    pub fn made(&self) -> u32
        ensures { result ≡ self.now.made.count }
    {
        self.reader.made()
    }

    /// How many calls of the history the pass knew at its last wait with `Materialize` that was answered `Done`; 0 before the first. As
    /// long as it knows no more, none of its reads of entries, totals and waits is refused memory. Takes no memory.
    ///
    /// Source: GraphBLAS C API 2.0, `GrB_MATERIALIZE`; the count is own.
    pub fn settled(&self) -> u32
        ensures { result ≡ self.now.settled }
    {
        self.reader.settled()
    }

    /// The status of the object: `Success` where the pass's last call on it was answered, `NoValue` where that call read an entry that is
    /// not stored, or its refusal. A call is on the object that it changes, reads or has changes done of, an operation on its output, a new
    /// or a dup on the object that it makes; one that is refused is on none. `None` before the first call on the object, and for a number
    /// that is not below the room. Takes no memory.
    ///
    /// Source: GraphBLAS C API 2.0, "Error model"; that each pass has statuses of its own calls is own.
    pub fn last_info(&self, object: Object) -> Option<Info>
        ensures { result ≡ status_at self.now.statuses object }
    {
        self.reader.last_info(object)
    }

    /// The matrix as it is after all calls that the pass knows, where it lies ready: with no change left that waits, and as all share it
    /// that hold it. It does so after a wait for it that was answered, up to the next call of the pass. Who clones the `Arc` keeps it as it
    /// is, whatever comes, and no entry is copied: a pass that changes its matrix while another holds it changes a copy. `None` where there
    /// is no such matrix or it does not lie ready; where all that the pass knows is settled, each matrix lies ready. Evaluates nothing,
    /// learns nothing and takes no memory (own).
    pub fn matrix(&self, a: MatrixId) -> Option<&Arc<SparseMatrix>>
        ensures { MatchOption result (MayLackMatrix self.now a) (λ matrix. IsMatrixOf (store_of (known self.now)) a matrix.now.value) }
    {
        self.evaluated.held_matrix(&self.reader, a)
    }

    /// The vector as it is after all calls that the pass knows, where it lies ready, as [`Pass::matrix`] gives a matrix (own).
    pub fn vector(&self, v: VectorId) -> Option<&Arc<SparseVector>>
        ensures { MatchOption result (MayLackVector self.now v) (λ vector. IsVectorOf (store_of (known self.now)) v vector.now.value) }
    {
        self.evaluated.held_vector(&self.reader, v)
    }

    /// The objects that are there after all calls that the pass knows, by their numbers: for who goes on with all of them by
    /// [`Shared::branch`](crate::Shared::branch). It takes one step for each number that was given, evaluates nothing and learns nothing.
    /// `AllocError` where memory for the lists is refused (own).
    pub fn live(&self, alloc: Global) -> Result<LiveObjects, AllocError>
        ensures { IfOk result (AreLiveObjects (store_of (known self.now))) }
    {
        self.reader.live(alloc)
    }

    /// How many matrices the known calls made, those that were freed too. Takes no memory (own).
    pub fn matrices_given(&self) -> u32
        ensures { result ≡ length (store_of (known self.now)).matrices }
    {
        let shapes = self.reader.shapes();
        shapes.matrices()
    }

    /// How many vectors the known calls made, those that were freed too. Takes no memory (own).
    pub fn vectors_given(&self) -> u32
        ensures { result ≡ length (store_of (known self.now)).vectors }
    {
        let shapes = self.reader.shapes();
        shapes.vectors()
    }

    /// Keeps the status that this answer leaves on the target of its call, which is about that object.
    pub(crate) fn keep(&mut self, object: Option<Object>, answer: &Result<Reply, Refusal>)
        ensures same { self.new ≡ record self.old { statuses = self.new.statuses } }
        ensures statuses { status_at self.new.statuses ≡ statuses_with self.old object answer.now }
    {
        self.reader.keep(object, answer);
    }

    /// Begins to count the steps of a call or a meeting, and the calls that it makes.
    pub(crate) fn begin(&mut self)
        ensures same { self.new ≡ record self.old { steps = 0; made = none_made } }
        ensures settled { self.old.settled ≤ length (known self.old) }
    {
        self.reader.begin();
        self.evaluated.begin();
    }

    /// How many entries the results have that the pass keeps: what it shares with others counts with each. For services that watch memory; no
    /// contract says more of it (own). Takes no memory.
    pub fn entries(&self) -> u64 {
        self.evaluated.entries().0
    }

    /// How many entries the results have that passes of the context left to one another, as far as they can be read at the moment. No contract
    /// says more of it (own). Takes no memory.
    pub fn entries_left(&self) -> u64 {
        self.evaluated.entries().1
    }

    /// How many objects, results and calls the pass has looked at so far without that one of them was made: for its waits for all, for what
    /// passes that it adopted have made, and for what others left. For tests, and for services that watch what these cost; no contract says
    /// more of it (own). Takes no memory.
    pub fn looks(&self) -> u64 {
        self.evaluated.looks()
    }

    /// How many more calls the history takes, as far as the pass has learnt. Takes no memory.
    pub fn room_left(&self) -> u32
        ensures { result + length self.now.view.words ≡ room_of self.now.order }
    {
        self.reader.room_left()
    }

    /// Whether the history is full and the pass knows all of it. It will never know more, and each other pass of the context knows, now and
    /// at any time, a beginning of that: that is the law `full_knows_all` of the context. Takes no memory (own).
    pub fn is_at_end(&self) -> bool
        ensures { result ≡ (length (known self.now) == room_of self.now.order) }
    {
        self.reader.known() == self.reader.room()
    }

    /// The store that all known calls leave, with the calls that make it anew and room for so many more, where a history that so many passes
    /// share may have it. It evaluates what is not evaluated.
    pub(crate) fn rebuild(
        &mut self,
        alloc: Global,
        records: &Records,
        room: u32,
        passes: u32,
    ) -> Result<Rebuild, NoSuccessor>
        requires records { All (IsOf records.now) self.old.shown }
        requires room { room ≤ MOST_ROOM }
        requires passes { (0 < passes) × (passes ≤ MOST_PASSES) }
        ensures same { self.new ≡ record self.old { made = self.new.made } }
        ensures rebuild { IfOk result (λ r. IsRebuild (room_beside r.state.store room) r.calls.items r.state) }
        ensures fits { IfOk result (λ r. MayHaveRoom (room_beside r.state.store room) passes) }
        ensures store { IfOk result (λ r. r.state.store ≡ store_of (known self.old)) }
        ensures refused { IfErr result (IsNoSuccessor room passes (store_of (known self.old))) }
        ensures named { IfErr result (NamesLive (store_of (known self.old))) }
    {
        self.evaluated.begin();
        let rebuild = self
            .evaluated
            .rebuild(alloc, records, &mut self.reader, room, passes);
        self.reader.note_made(self.evaluated.made());
        rebuild
    }

    /// The store of these objects, as the pass knows them, with the calls that make it anew and room for so many more, where a history that so
    /// many passes share may have it. It makes what these objects hold and nothing else.
    pub(crate) fn rebuild_chosen(
        &mut self,
        alloc: Global,
        records: &Records,
        matrices: &[MatrixId],
        vectors: &[VectorId],
        room: u32,
        passes: u32,
    ) -> Result<Rebuild, NoSuccessor>
        requires records { All (IsOf records.now) self.old.shown }
        requires matrices { length matrices.now < 2 ^ 32 }
        requires vectors { length vectors.now < 2 ^ 32 }
        requires room { room ≤ MOST_ROOM }
        requires passes { (0 < passes) × (passes ≤ MOST_PASSES) }
        ensures same { self.new ≡ record self.old { made = self.new.made } }
        ensures rebuild { IfOk result (λ r. IsRebuild (room_beside r.state.store room) r.calls.items r.state) }
        ensures fits { IfOk result (λ r. MayHaveRoom (room_beside r.state.store room) passes) }
        ensures store { IfOk result (λ r. r.state.store ≡ chosen_store (store_of (known self.old)) matrices.now vectors.now) }
        ensures refused { IfErr result (IsNoSuccessor room passes (chosen_store (store_of (known self.old)) matrices.now vectors.now)) }
        ensures named { IfErr result (NamesChosen (store_of (known self.old)) matrices.now vectors.now) }
    {
        self.evaluated.begin();
        let rebuild = self.evaluated.rebuild_chosen(
            alloc,
            records,
            &mut self.reader,
            matrices,
            vectors,
            room,
            passes,
        );
        self.reader.note_made(self.evaluated.made());
        rebuild
    }

    /// Takes this store, which the known calls leave, for what was evaluated. Where memory is refused, an answer makes what it needs.
    pub(crate) fn begin_with(&mut self, records: &Records, state: &State)
        requires records { All (IsOf records.now) self.old.shown }
        requires store { state.now.store ≡ store_of (known self.old) }
        requires none { self.old.made.ready ≡ None }
        ensures { self.new ≡ self.old }
    {
        self.evaluated.begin_with(records, &mut self.reader, state);
    }

    /// Puts the call as the next record of the pass, as [`RecordRow::put`] does. It is none that a word of the pass names. `OutOfMemory`
    /// where memory for the record is refused, and `Panic` where its cell did not take it; then no record is put.
    #[inline(always)]
    pub(crate) fn put(&mut self, records: &Records, call: Call) -> Result<Token, Refusal>
        ensures same { self.new ≡ self.old }
        ensures put { IfOk result (λ token. (token.pass ≡ self.old.view.number) × (token.call ≡ call)) }
        ensures index { IfOk result (λ token. token.index < 2 ^ 48) }
        ensures fresh { IfOk result (λ token. OwnBelow token.index self.old.view) }
        ensures of { IfOk result (IsOf records.now) }
        ensures refused { IfErr result (λ refusal. (refusal ≡ Refusal.Panic) ⊎ (refusal ≡ Refusal.OutOfMemory)) }
    {
        let number = self.number();
        let room = self.reader.room();
        self.row.put(records, number, room, call)
    }

    /// Keeps also what the other has evaluated, whose calls begin those that this pass knows.
    pub(crate) fn take_over(&mut self, records: &Records, other: &Pass<O>)
        requires records { All (IsOf records.now) self.old.shown }
        requires begins { Begins (known other.now) (known self.old) }
        requires none { self.old.made.ready ≡ None }
        ensures same { self.new ≡ self.old }
    {
        self.evaluated
            .take_over(records, &mut self.reader, &other.reader, &other.evaluated);
    }

    /// Evaluates what the pass knows where that is dear, so that others can go on from there; how many of the known calls no answer makes any
    /// more before another one.
    pub(crate) fn prepare(&mut self, records: &Records) -> u32
        requires records { All (IsOf records.now) self.old.shown }
        ensures same { self.new ≡ record self.old { made = self.new.made } }
        ensures count { result ≤ length (known self.new) }
    {
        self.evaluated.begin();
        let count = self.evaluated.prepare(records, &mut self.reader);
        self.reader.note_made(self.evaluated.made());
        count
    }

    /// Makes what the object holds after all known calls, if it is there, and leaves it ready, as a wait for it does; whether it is there.
    pub(crate) fn evaluate(&mut self, records: &Records, object: Object) -> Result<bool, AllocError>
        requires records { All (IsOf records.now) self.old.shown }
        ensures same { self.new ≡ record self.old { made = self.new.made } }
        ensures there { IfOk result (λ there. there ≡ is_live (shapes_of (store_of (known self.old))) object) }
        ensures ready { result ≡ Ok true → IsLeftReady self.new object }
        ensures memory { OnErr result (self.old.settled < length (known self.old)) }
    {
        self.evaluated.begin();
        let there = self.evaluated.evaluate(records, &mut self.reader, object);
        self.reader.note_made(self.evaluated.made());
        let there = there?;
        if there {
            self.reader.note_ready(Some(object));
        }
        Ok(there)
    }

    /// How much work it is, about, to make what the object holds after all known calls.
    pub(crate) fn work_left(&mut self, records: &Records, object: Object) -> u64
        requires records { All (IsOf records.now) self.old.shown }
        ensures same { self.new ≡ record self.old { made = record self.old.made { ready = None } } }
    {
        self.reader.forget_ready();
        self.evaluated.work_left(records, &mut self.reader, object)
    }

    /// Makes blocks of the dear products that other passes make at the moment, and answers how many.
    pub(crate) fn help(&self) -> u32 {
        self.evaluated.help()
    }

    /// Drops all that the pass has evaluated. What an answer needs is made anew, or found with other passes; no known calls are settled any
    /// more. What the pass knows stays. Other passes, and who holds a snapshot, keep what they have. Takes no memory (own).
    pub fn release(&mut self)
        ensures { self.new ≡ record self.old { settled = 0; made = none_made } }
    {
        self.reader.note_made(0);
        self.reader.unsettle();
        self.evaluated.begin();
        self.evaluated.release();
    }

    /// The reply to a call that reads entries or has changes done, after all known ones: only calls are made that it needs. One that waits for
    /// all objects settles them; one that waits for one object leaves that ready. `AllocError` where memory is refused; then no more calls
    /// are settled than before.
    fn reply_of_entries(&mut self, records: &Records, call: &Call) -> Result<Reply, AllocError>
        requires call { ReadsStore (store_of (known self.old)) call.now }
        requires records { All (IsOf records.now) self.old.shown }
        ensures { IsReplied self.old self.new call.now result }
    {
        self.reader.forget_ready();
        let reply = self.evaluated.reply(records, &mut self.reader, call);
        self.reader.note_made(self.evaluated.made());
        let reply = reply?;
        self.reader.note_ready(waited_for(call));
        Ok(reply)
    }

    /// How many entries the object of a build stores after all known calls, as far as these are needed to tell. `AllocError` where memory
    /// is refused; what was made stays made.
    fn count_of_output(&mut self, records: &Records, call: &Call) -> Result<u64, AllocError>
        requires build { is_build call.now ≡ true }
        requires accepted { refused_by_shapes (shapes_of (store_of (known self.old))) call.now ≡ None }
        requires records { All (IsOf records.now) self.old.shown }
        ensures count { IfOk result (λ count. count ≡ count_of_output (store_of (known self.old)) call.now) }
        ensures same { self.new ≡ record self.old { made = self.new.made } }
    {
        match self.reply_of_entries(records, &count_call(call))? {
            Reply::Count(count) => Ok(count),
            _ => unreachable!(),
        }
    }

    /// Why what is stored after all known calls refuses the build, if it does; it evaluates what its object needs. `OutOfMemory` where
    /// memory is refused to that.
    fn check_build(
        &mut self,
        records: &Records,
        call: &Call,
        in_bounds: bool,
    ) -> Result<(), Refusal>
        requires build { is_build call.now ≡ true }
        requires accepted { refused_by_shapes (shapes_of (store_of (known self.old))) call.now ≡ None }
        requires records { All (IsOf records.now) self.old.shown }
        requires in_bounds { in_bounds ≡ is_in_bounds (shapes_of (store_of (known self.old))) call.now }
        ensures checked { IsBuildChecked (store_of (known self.old)) call.now result }
        ensures same { self.new ≡ record self.old { made = self.new.made } }
    {
        let Ok(count) = self.count_of_output(records, call) else {
            return Err(Refusal::OutOfMemory);
        };
        if count != 0 {
            return Err(Refusal::OutputNotEmpty);
        }
        if !in_bounds {
            return Err(Refusal::IndexOutOfBounds);
        }
        Ok(())
    }

    /// Whether the call is refused after all known ones, and why; a build evaluates what its object needs. `OutOfMemory` where memory is
    /// refused to that.
    #[inline(always)]
    pub(crate) fn check(&mut self, records: &Records, call: &Call) -> Result<(), Refusal>
        requires records { All (IsOf records.now) self.old.shown }
        ensures checked { IsChecked (store_of (known self.old)) call.now result }
        ensures same { self.new ≡ record self.old { made = self.new.made } }
        ensures made { is_build call.now ≡ false → self.new.made ≡ self.old.made }
    {
        match self.reader.check(call)? {
            Kind::Build { in_bounds } => self.check_build(records, call, in_bounds),
            Kind::Enters | Kind::Reads => Ok(()),
        }
    }

    /// The reply to a call that only reads and is not refused, after all known ones. One for dimensions takes no memory; any other
    /// evaluates the known calls; a wait has the changes done that wait, and a total those of its object where they are many. Where the
    /// known calls are settled none of this is left, and no memory is taken. A wait for all objects settles them; one for one object leaves
    /// that ready. `AllocError` where memory is refused; what was made stays made, and no more calls are settled.
    pub(crate) fn reply(&mut self, records: &Records, call: &Call) -> Result<Reply, AllocError>
        requires reads { enters call.now ≡ false }
        requires accepted { refused (store_of (known self.old)) call.now ≡ None }
        requires records { All (IsOf records.now) self.old.shown }
        ensures replied { IsReplied self.old self.new call.now result }
        ensures memory { OnErr result (is_size call.now ≡ false) }
        ensures size { is_size call.now ≡ true → self.new.made ≡ self.old.made }
    {
        match call.class() {
            Class::AsksDimensions => Ok(self.reader.size(call)),
            Class::Reads(_) => self.reply_of_entries(records, call),
            Class::Makes | Class::Edits | Class::Operates => unreachable!(),
        }
    }

    /// Enters the record of a call after all known ones, whose shapes do not refuse it, in one atomic step. The token comes back where
    /// another pass was first; the pass has then held back for a while, so that the other runs on.
    pub(crate) fn enter(&mut self, order: &Order, token: Token, call: &Call) -> Option<Token>
        requires order { self.old.order ≡ order.now }
        requires looked { LookedLast self.old.view }
        requires shown { length self.old.shown ≡ length self.old.view.words }
        requires pass { token.pass ≡ self.old.view.number }
        requires index { token.index < 2 ^ 48 }
        requires fresh { OwnBelow token.index self.old.view }
        requires call { call.now ≡ token.call }
        requires accepted { refused_by_shapes (shapes_of (store_of (known self.old))) call.now ≡ None }
        requires few { self.old.steps < 2 ^ 31 }
        ensures order { self.new.order ≡ self.old.order }
        ensures statuses { self.new.statuses ≡ self.old.statuses }
        ensures settled { self.new.settled ≡ self.old.settled }
        ensures made { self.new.made ≡ self.old.made }
        ensures enters { Enters (room_of order.now) token self.old result self.new }
        ensures steady { IsSteady self.new }
        ensures counts { Counts self.old self.new }
    {
        // The row goes on after the record before a word names it.
        let index = token.index();
        self.row.spend(index);
        let back = self.reader.enter(order, token, call);
        self.back_off.tried(back.is_some());
        back
    }
}
