//! A context: the shared store, its passes, and any call by a pass.
ghost use Rattle.std.specs.Prelude.{◌≡◌, ◌<◌, ◌≤◌, ◌*◌, true, Ok, length, All, IfOk, OnErr};
ghost use Rattle.grb_call.specs.History.{store_of};
ghost use Rattle.grb_call.specs.Shapes.{is_live};
ghost use Rattle.grb_call.specs.Store.{shapes_of};
ghost use Rattle.grb_order.specs.declared.limits.TheConstants.{MOST_PASSES, MOST_ROOM, MOST_SEATS};
ghost use Rattle.grb_order.specs.Order.{room_of};
ghost use Rattle.grb_records.specs.Token.{HasRows};
ghost use Rattle.grb_context.specs.Known.{AreNew, HasNoStatus, IsPassOf, known};
ghost use Rattle.grb_context.specs.Answered.{Answered};
ghost use Rattle.grb_context.specs.Meeting.{Met};
ghost use Rattle.grb_context.specs.Settled.{IsLeftReady};

use crate::Pass;
use grb_call::{Call, Object, Reply};
use grb_core::Refusal;
use grb_operations::Bench;
use grb_pass::Shared;
use std::alloc::{AllocError, Global};
use std::marker::Model;

/// A store that passes share: the order of all calls, their records, and where they make dear products of two matrices together.
#[derive(Drop)]
pub struct Context {
    pub(crate) shared: Shared<Bench>,
    // Of the answers to lists of calls.
    pub(crate) alloc: Global,
}

impl Model for Context {
    ghost use Rattle.grb_context.specs.Known.{Shared};

    ghost Value = { Shared };

    ghost view = { λ c. c.shared };
}

impl Context {
    /// A context whose history takes `room` calls, from 1 to `MOST_ROOM`, and its passes, from 1 to `MOST_PASSES`, which know no call and
    /// have no status: the one at index k has the number k. `room` times `passes` is at most `MOST_SEATS`. After this memory is taken for
    /// the records of entered calls, for the evaluation of reads and builds, by reads and waits for what they leave to other passes, by
    /// `adopt` and `prepare`, by `help` for blocks of products, and by `run` for its answers. `AllocError` where memory is refused; then
    /// nothing is made. Two passes and more have a place where they make dear products together, as `help` says; where memory for that alone
    /// is refused, they make them alone.
    pub fn open(alloc: Global, room: u32, passes: u32) -> Result<(Context, Vec<Pass>), AllocError>
        requires room { (0 < room) × (room ≤ MOST_ROOM) }
        requires passes { (0 < passes) × (passes ≤ MOST_PASSES) }
        requires seats { room * passes ≤ MOST_SEATS }
        ensures room { IfOk result (λ opened. room_of opened.0.order ≡ room) }
        ensures records { IfOk result (λ opened. HasRows passes room opened.0.records) }
        ensures passes { IfOk result (λ opened. AreNew opened.0.order passes opened.1.items passes) }
        ensures ours { IfOk result (λ opened. All (IsPassOf opened.0) opened.1.items) }
        ensures statuses { IfOk result (λ opened. All HasNoStatus opened.1.items) }
    {
        let (shared, opened) = Shared::open(alloc, room, passes)?;
        Ok((Context { shared, alloc }, opened))
    }

    /// A context as [`Context::open`] makes it. Where it is to be helped, its dear products are made by blocks also where it has one pass, so
    /// that threads without a pass can help, as [`Context::lend_hand`] says (own).
    pub fn open_with(
        alloc: Global,
        room: u32,
        passes: u32,
        helped: bool,
    ) -> Result<(Context, Vec<Pass>), AllocError>
        requires room { (0 < room) × (room ≤ MOST_ROOM) }
        requires passes { (0 < passes) × (passes ≤ MOST_PASSES) }
        requires seats { room * passes ≤ MOST_SEATS }
        ensures room { IfOk result (λ opened. room_of opened.0.order ≡ room) }
        ensures records { IfOk result (λ opened. HasRows passes room opened.0.records) }
        ensures passes { IfOk result (λ opened. AreNew opened.0.order passes opened.1.items passes) }
        ensures ours { IfOk result (λ opened. All (IsPassOf opened.0) opened.1.items) }
        ensures statuses { IfOk result (λ opened. All HasNoStatus opened.1.items) }
    {
        let (shared, opened) = Shared::open_with(alloc, room, passes, helped)?;
        Ok((Context { shared, alloc }, opened))
    }

    /// Makes blocks of the dear products that the passes of the context make at the moment, as [`Context::help`] does, by a thread that has
    /// no pass, and answers how many. It learns nothing and changes nothing that a pass knows. Takes memory for the blocks; where it is
    /// refused, it ends, and nothing is lost (own).
    pub fn lend_hand(&self) -> u32 {
        self.shared.lend_hand()
    }

    /// Makes one call, by whichever thread has the pass, and does not wait. A refusal says why the call was not made: by shapes (the lowest
    /// of those that apply, at the end of the history), by a build's object, `OrderFull` where the history has no room for a call that
    /// would be entered, `OutOfMemory` where the record of an entered call, the evaluation of a read or of a build's object, or what a wait
    /// for all objects keeps for other passes is refused memory, and `Panic` where a record could not be put, or the record of an earlier
    /// call is not shown yet; the next call asks for it again. The answer is kept as the status of the call's object, as
    /// [`Pass::last_info`] says.
    ///
    /// Source: GraphBLAS C API 2.0, "Execution modes"; Herlihy, "Wait-free synchronization", 1991.
    #[inline(always)]
    pub fn call(&self, pass: &mut Pass, call: Call) -> Result<Reply, Refusal>
        requires pass { IsPassOf self.now pass.old }
        ensures pass { IsPassOf self.now pass.new }
        ensures answered { Answered self.now pass.old pass.new call result }
    {
        if call.enters() {
            self.shared.enter(pass, call)
        } else {
            self.shared.read(pass, &call)
        }
    }

    /// Lets the pass learn all that the other knows: one atomic load of each word that it had not learnt, and three of the first word,
    /// which are not counted. `Panic` where a record is not shown; the words stay learnt, and the next call or meeting asks for it again.
    /// Nothing that the other pass knows changes, whatever is answered. Takes no memory and does not wait.
    pub fn meet(&self, pass: &mut Pass, other: &mut Pass) -> Result<(), Refusal>
        requires pass { IsPassOf self.now pass.old }
        requires other { IsPassOf self.now other.old }
        ensures met { Met self.now pass.old pass.new other.old result }
        ensures other { other.new ≡ other.old }
    {
        self.shared.meet(pass, other)
    }

    /// Lets the pass learn all that the other knows, as [`Context::meet`] does, and then keep also what the other has evaluated: an answer makes
    /// what is left. Both share those objects until one of them changes one; no entry is copied before. Takes memory for what the pass has to
    /// learn; where it is refused, the pass evaluates for itself. `Panic` as of `meet` (own).
    pub fn adopt(&self, pass: &mut Pass, other: &mut Pass) -> Result<(), Refusal>
        requires pass { IsPassOf self.now pass.old }
        requires other { IsPassOf self.now other.old }
        ensures met { Met self.now pass.old pass.new other.old result }
        ensures other { other.new ≡ other.old }
    {
        self.shared.adopt(pass, other)
    }

    /// Evaluates the calls that the pass knows, where that is dear, so that passes that adopt it have no work of their own with that, and
    /// answers before how many of the calls that it knows none is made any more, whatever is asked: all where each object is evaluated. It
    /// learns nothing, changes no answer and no status, and does not wait. Takes memory for the evaluation; where it is refused, fewer are
    /// evaluated, and nothing is lost (own).
    pub fn prepare(&self, pass: &mut Pass) -> u32
        requires { IsPassOf self.now pass.old }
        ensures pass { IsPassOf self.now pass.new }
        ensures same { pass.new ≡ record pass.old { made = pass.new.made } }
        ensures count { result ≤ length (known pass.new) }
    {
        self.shared.prepare(pass)
    }

    /// Makes what the object holds after all calls that the pass knows, if it is there, has the changes done that wait in it, and leaves it
    /// ready, as a wait for it does: [`Pass::matrix`] then gives it up to the next call of the pass. Answers whether it is there. It learns
    /// nothing, enters nothing and makes nothing else: for who wants one object of many, as it was. `AllocError` where memory is refused; then
    /// what was made stays so (own).
    pub fn evaluate(&self, pass: &mut Pass, object: Object) -> Result<bool, AllocError>
        requires { IsPassOf self.now pass.old }
        ensures pass { IsPassOf self.now pass.new }
        ensures same { pass.new ≡ record pass.old { made = pass.new.made } }
        ensures there { IfOk result (λ there. there ≡ is_live (shapes_of (store_of (known pass.old))) object) }
        ensures ready { result ≡ Ok true → IsLeftReady pass.new object }
        ensures memory { OnErr result (pass.old.settled < length (known pass.old)) }
    {
        self.shared.evaluate(pass, object)
    }

    /// How much work it is, about, to make what the object holds after all calls that the pass knows: 0 where it lies ready, 64 for a change of
    /// one entry; a measure without a unit, of which no contract says more. Takes memory for what the pass did not look at yet; 0 where it is
    /// refused (own).
    pub fn work_left(&self, pass: &mut Pass, object: Object) -> u64
        requires { IsPassOf self.now pass.old }
        ensures pass { IsPassOf self.now pass.new }
        ensures same { pass.new ≡ record pass.old { made = pass.new.made } }
    {
        self.shared.work_left(pass, object)
    }

    /// Makes blocks of the dear products that other passes of the context make at the moment, and answers how many: 0 where there is none.
    /// A dear product of two matrices is made by blocks of its rows, by all passes that come to it at one time and by those that help. It
    /// learns nothing, changes no answer and no status, makes no step on the order and waits for no one. Takes memory for the blocks; where
    /// it is refused, it ends, and nothing is lost (own).
    pub fn help(&self, pass: &mut Pass) -> u32
        requires { IsPassOf self.now pass.old }
        ensures same { pass.new ≡ pass.old }
        ensures pass { IsPassOf self.now pass.new }
    {
        self.shared.help(pass)
    }

    /// How many blocks of dear products were made in this context so far, by passes that read and by passes that help; a block that two
    /// made counts twice. 0 in a context of one pass that is not helped, which makes its products alone. Takes no memory (own).
    pub fn blocks(&self) -> u64 {
        self.shared.blocks()
    }
}
