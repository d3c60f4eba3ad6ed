//! What a pass knows of the history: its words, the tokens of their records, and the shapes that their calls leave.
//!
//! It keeps the words that the pass has learnt and, for the first of them, the tokens of their records, with the shapes that the calls in these
//! leave. None of these lists shrinks. A call is known once its record was shown.
//!
//! 1. `look` loads the first word that is not learnt, and learns it where it is not 0. It is one step, which is counted.
//! 2. `next_unshown` names the first word without a token. Its record is read from the cells of the pass that entered it (`learn.rt`), and
//!    `admit` takes in its token and its shapes. A record that is not shown leaves the lists as they are; the next call begins there.
//! 3. `check`, `reply` and `size` read the lists alone: no step, and no memory.
//! 4. `enter` is made where each word has its token and the last look found 0. Where it is won the own word, token and shapes are added at
//!    once; where it is lost the other's word alone, and the token comes back.
//! 5. `tell` learns the words of another reader, and `agree_at` brings two tokens of one record together, which so have one call. Both take
//!    the other by `&mut`, so a meeting has both passes to itself.
//!
//! All lists have places for each word of the order from `open` on. So no step takes memory, and none waits: each makes one step on the
//! order at most, `tell` one for each word that it learns and three of the first word.
ghost use Rattle.std.specs.Prelude.{◌≡◌, ◌<◌, ◌≤◌, ◌+◌, ◌^◌, true, [], ◌∷◌, ◌++◌, length, All, None, Some, slice_get, slice_index, MatchOption, IfOk};
ghost use Rattle.std.specs.Option.{option_map};
ghost use Rattle.grb_order.specs.declared.limits.TheConstants.{MOST_WORDS};
ghost use Rattle.grb_order.specs.Word.{number_of, index_of, StartsWith};
ghost use Rattle.grb_order.specs.View.{fresh, is_told, LookedLast};
ghost use Rattle.grb_order.specs.Order.{room_of};
ghost use Rattle.grb_order.specs.Steps.{Looks};
ghost use Rattle.grb_records.specs.Token.{IsOf};
ghost use Rattle.grb_call.specs.Kinds.{class_of, enters, is_size};
ghost use Rattle.grb_call.specs.Refused.{check_of, refused_by_shapes};
ghost use Rattle.grb_call.specs.Store.{shapes_of};
ghost use Rattle.grb_call.specs.After.{reply_of};
ghost use Rattle.grb_call.specs.History.{calls_of, store_of};
ghost use Rattle.grb_call.specs.Statuses.{status_at};
ghost use Rattle.grb_reader.specs.Known.{known, new_pass, none_made};
ghost use Rattle.grb_reader.specs.Learning.{Enters, IsNextUnshown, IsSteady};
ghost use Rattle.grb_reader.specs.Counting.{Counts, look_steps};
ghost use Rattle.grb_reader.specs.Meeting.{IsSameRecordAt, SharesCallAt};
ghost use Rattle.grb_reader.specs.Replying.{statuses_with};

use grb_call::{
    Call, Class, Kind, MatrixId, Object, Reply, Shapes, Statuses, VectorId, check, info_of,
    target_of,
};
use grb_core::{Info, Refusal};
use grb_order::{Entered, Look, Order, Seat};
use grb_records::{Records, Token};
use grb_slices::CallList;
use std::alloc::{AllocError, Global};
use std::marker::Model;

/// What a pass has read of the order: its words, the records of the first of them, the shapes that their calls leave, the status that each
/// object has of the calls of the pass, how many calls it settled, and what it made to answer.
#[derive(Drop)]
pub struct Reader {
    number: u32,
    seat: Seat,
    // The records of the first words learnt, with room for all words of the order.
    tokens: Vec<Token>,
    // Those that all these records leave, with room for the others.
    shapes: Shapes,
    // The steps of the last call or meeting.
    steps: u32,
    // The status of each object, whose number is below that of the words that the order has.
    statuses: Statuses,
    // How many calls were known when all objects were last materialized.
    settled: u32,
    // How many calls the last call made to answer.
    made: u32,
    // The object that it left ready, and how many calls were known then.
    ready: Option<(Object, u32)>,
}

impl Model for Reader {
    ghost use Rattle.grb_reader.specs.Known.{Knowing};

    ghost Value = { Knowing };

    ghost use Rattle.grb_reader.specs.Reading.{knowing, IsReader};

    ghost view = { knowing };

    ghost invariant = { IsReader };
}

/// How many steps a look made.
fn steps_of_look(look: Look) -> u32
    ensures steps { result ≡ look_steps look }
    ensures few { result ≤ 1 }
{
    match look {
        Look::Next(_) | Look::Vacant => 1,
        Look::Full => 0,
    }
}

impl Reader {
    /// A reader that knows no call, with memory for all that it can learn. `AllocError` where memory is refused.
    pub fn open(alloc: Global, number: u32, seat: Seat, room: u32) -> Result<Reader, AllocError>
        requires number { (number ≡ seat.view.number) × (number < seat.view.passes) }
        requires room { (room ≡ room_of seat.table_id) × (room ≤ MOST_WORDS) }
        requires fresh { seat.view ≡ fresh number seat.view.passes }
        ensures { IfOk result (λ reader. reader ≡ new_pass seat.table_id seat.view) }
    {
        let tokens = Vec::with_capacity(alloc, room as usize)?;
        let shapes = Shapes::open(alloc, room)?;
        let statuses = Statuses::open(alloc, room)?;
        Ok(Reader {
            number,
            seat,
            tokens,
            shapes,
            steps: 0,
            statuses,
            settled: 0,
            made: 0,
            ready: None,
        })
    }

    /// The allocator of what the reader keeps.
    pub fn allocator(&self) -> Global {
        *self.tokens.allocator()
    }

    /// The number of the pass, from 0.
    pub fn number(&self) -> u32
        ensures { result ≡ self.now.view.number }
    {
        self.number
    }

    /// Begins to count the steps of a call or a meeting, and the calls that it makes.
    pub fn begin(&mut self)
        ensures { self.new ≡ record self.old { steps = 0; made = none_made } }
    {
        self.steps = 0;
        self.made = 0;
        self.ready = None;
    }

    /// Notes how many calls were made. No object is left ready so far.
    pub fn note_made(&mut self, made: u32)
        ensures { self.new ≡ record self.old { made = record { count = made; ready = None } } }
    {
        self.made = made;
        self.ready = None;
    }

    /// No object is left ready any more.
    pub fn forget_ready(&mut self)
        ensures { self.new ≡ record self.old { made = record self.old.made { ready = None } } }
    {
        self.ready = None;
    }

    /// Notes that this object was left ready, after all known calls; or none.
    pub fn note_ready(&mut self, object: Option<Object>)
        ensures { self.new ≡ record self.old { made = record self.old.made { ready = option_map (λ o. (o, length (known self.old))) object } } }
    {
        self.ready = match object {
            Some(object) => Some((object, self.known())),
            None => None,
        };
    }

    /// How many calls the last call made to answer.
    pub fn made(&self) -> u32
        ensures { result ≡ self.now.made.count }
    {
        self.made
    }

    /// The steps of the last call or meeting.
    pub fn steps(&self) -> u32
        ensures { result ≡ self.now.steps }
    {
        self.steps
    }

    /// The status of the object.
    pub fn last_info(&self, object: Object) -> Option<Info>
        ensures { result ≡ status_at self.now.statuses object }
    {
        self.statuses.find(object)
    }

    /// How many calls are settled.
    pub fn settled(&self) -> u32
        ensures { result ≡ self.now.settled }
    {
        self.settled
    }

    /// All known calls are settled from now on.
    pub fn settle(&mut self)
        ensures { self.new ≡ record self.old { settled = length (known self.old) } }
    {
        self.settled = self.known();
    }

    /// No known calls are settled any more.
    pub fn unsettle(&mut self)
        ensures { self.new ≡ record self.old { settled = 0 } }
    {
        self.settled = 0;
    }

    /// Keeps the status that this answer leaves on the target of its call, which is about that object.
    pub fn keep(&mut self, object: Option<Object>, answer: &Result<Reply, Refusal>)
        ensures same { self.new ≡ record self.old { statuses = self.new.statuses } }
        ensures statuses { status_at self.new.statuses ≡ statuses_with self.old object answer.now }
    {
        self.statuses
            .keep(target_of(object, answer), info_of(answer));
    }

    /// How many words the pass has learnt.
    pub fn words(&self) -> u32
        ensures { result ≡ length self.now.view.words }
    {
        self.seat.words().len() as u32
    }

    /// How many words are still vacant, as far as the pass has learnt.
    pub fn room_left(&self) -> u32
        ensures { result + length self.now.view.words ≡ room_of self.now.order }
    {
        self.seat.room() - self.words()
    }

    /// How many words the order has.
    pub fn room(&self) -> u32
        ensures room { result ≡ room_of self.now.order }
        ensures few { result ≤ MOST_WORDS }
    {
        self.seat.room()
    }

    /// How many records were shown.
    pub fn known(&self) -> u32
        ensures known { result ≡ length (known self.now) }
        ensures few { length (known self.now) ≤ room_of self.now.order }
    {
        self.tokens.len() as u32
    }

    /// The word learnt first of those whose record was not shown.
    pub(crate) fn next_unshown(&self) -> Option<u64>
        ensures next { MatchOption result (length self.now.shown ≡ length self.now.view.words) (λ word. IsNextUnshown self.now word) }
        ensures steady { IsSteady self.now }
    {
        let shown = self.tokens.len();
        let words = self.seat.words();
        if shown < words.len() {
            Some(words[shown])
        } else {
            None
        }
    }

    /// Takes in the record of that word and its call.
    pub(crate) fn admit(&mut self, token: Token, call: &Call)
        requires next { length self.old.shown < length self.old.view.words }
        requires pass { token.pass ≡ number_of (slice_index self.old.view.words (length self.old.shown)) }
        requires index { token.index ≡ index_of (slice_index self.old.view.words (length self.old.shown)) }
        requires call { call.now ≡ token.call }
        ensures { self.new ≡ record self.old { shown = self.old.shown ++ token ∷ [] } }
    {
        self.shapes.absorb(call);
        self.tokens.push_reserved(token);
    }

    /// Loads the word after those learnt, in one atomic step, unless all are learnt.
    pub fn look(&mut self, order: &Order) -> Look
        requires order { self.old.order ≡ order.now }
        requires few { self.old.steps < 2 ^ 31 }
        ensures order { self.new.order ≡ self.old.order }
        ensures shown { self.new.shown ≡ self.old.shown }
        ensures statuses { self.new.statuses ≡ self.old.statuses }
        ensures settled { self.new.settled ≡ self.old.settled }
        ensures made { self.new.made ≡ self.old.made }
        ensures look { Looks (room_of order.now) self.old.view result self.new.view }
        ensures steady { IsSteady self.new }
        ensures counts { Counts self.old self.new }
    {
        let look = order.look(&mut self.seat);
        self.steps += steps_of_look(look);
        look
    }

    /// Learns the words of the other that it has not learnt, in one atomic step each. Nothing of the other changes.
    pub(crate) fn tell(&mut self, order: &Order, other: &mut Reader)
        requires order { self.old.order ≡ order.now }
        requires other { other.old.order ≡ order.now }
        requires begun { self.old.steps ≡ 0 }
        ensures order { self.new.order ≡ self.old.order }
        ensures shown { self.new.shown ≡ self.old.shown }
        ensures statuses { self.new.statuses ≡ self.old.statuses }
        ensures settled { self.new.settled ≡ self.old.settled }
        ensures made { self.new.made ≡ self.old.made }
        ensures told { self.new.view ≡ is_told self.old.view other.old.view.words }
        ensures words { StartsWith self.new.view.words other.old.view.words }
        ensures other { other.new ≡ other.old }
        ensures steady { IsSteady self.new }
        ensures steady_other { IsSteady other.old }
        ensures few { length self.old.shown ≤ length self.old.view.words }
        ensures steps { self.new.steps + length self.old.view.words ≡ length self.new.view.words }
    {
        let before = self.words();
        order.tell(&mut self.seat, &mut other.seat);
        self.steps = self.words() - before;
    }

    /// Both have a token of one record at this place, so it has one call. Changes neither, and compares nothing.
    pub(crate) fn agree_at(&mut self, records: &Records, other: &mut Reader, at: usize)
        requires mine { at < length self.old.shown }
        requires theirs { at < length other.old.shown }
        requires of { All (IsOf records.now) self.old.shown }
        requires of_other { All (IsOf records.now) other.old.shown }
        requires record { IsSameRecordAt self.old.shown other.old.shown at }
        ensures call { SharesCallAt self.old.shown other.old.shown at }
        ensures same { self.new ≡ self.old }
        ensures other { other.new ≡ other.old }
    {
        records.agree(&mut self.tokens[at], &mut other.tokens[at]);
    }

    /// The shapes of all objects after all known calls. Takes no memory.
    pub fn shapes(&self) -> &Shapes
        ensures { result.now.objects ≡ shapes_of (store_of (known self.now)) }
    {
        &self.shapes
    }

    /// What becomes of the call after all known ones, or its refusal.
    pub fn check(&self, call: &Call) -> Result<Kind, Refusal>
        ensures { result ≡ check_of (shapes_of (store_of (known self.now))) call.now }
    {
        check(&self.shapes, call)
    }

    /// The number that a call is given which makes an object after all known ones.
    fn reply_of_made(&self, call: &Call) -> Reply
        requires { class_of call.now ≡ Class.Makes }
        ensures { result ≡ reply_of (store_of (known self.now)) call.now }
    {
        match call {
            Call::NewMatrix { .. } | Call::DupMatrix { .. } | Call::Diag { .. } => {
                Reply::MadeMatrix(MatrixId(self.shapes.matrices()))
            }
            Call::NewVector { .. } | Call::DupVector { .. } => {
                Reply::MadeVector(VectorId(self.shapes.vectors()))
            }
            _ => unreachable!(),
        }
    }

    /// The reply to a call that is entered after all known ones.
    pub fn reply(&self, call: &Call) -> Reply
        requires { enters call.now ≡ true }
        ensures { result ≡ reply_of (store_of (known self.now)) call.now }
    {
        match call.class() {
            Class::Makes => self.reply_of_made(call),
            Class::Edits | Class::Operates => Reply::Done,
            Class::Reads(_) | Class::AsksDimensions => unreachable!(),
        }
    }

    /// The reply to a call for the dimensions of an object, after all known calls. Takes no memory.
    pub fn size(&self, call: &Call) -> Reply
        requires { is_size call.now ≡ true }
        ensures { result ≡ reply_of (store_of (known self.now)) call.now }
    {
        match call.object() {
            Some(Object::Matrix(a)) => self
                .shapes
                .matrix(a)
                .map_or(Reply::Done, |shape| Reply::Dims(shape.1, shape.2)),
            Some(Object::Vector(v)) => self
                .shapes
                .vector(v)
                .map_or(Reply::Done, |shape| Reply::Size(shape.1)),
            None => unreachable!(),
        }
    }

    /// Enters the record of a call after all known ones, whose shapes do not refuse it, in one atomic step. The token comes back where
    /// another pass was first.
    pub fn enter(&mut self, order: &Order, token: Token, call: &Call) -> Option<Token>
        requires order { self.old.order ≡ order.now }
        requires looked { LookedLast self.old.view }
        requires shown { length self.old.shown ≡ length self.old.view.words }
        requires pass { token.pass ≡ self.old.view.number }
        requires index { token.index < 2 ^ 48 }
        requires call { call.now ≡ token.call }
        requires accepted { refused_by_shapes (shapes_of (store_of (known self.old))) call.now ≡ None }
        requires few { self.old.steps < 2 ^ 31 }
        ensures order { self.new.order ≡ self.old.order }
        ensures statuses { self.new.statuses ≡ self.old.statuses }
        ensures settled { self.new.settled ≡ self.old.settled }
        ensures made { self.new.made ≡ self.old.made }
        ensures enters { Enters (room_of order.now) token self.old result self.new }
        ensures steady { IsSteady self.new }
        ensures counts { Counts self.old self.new }
    {
        self.steps += 1;
        match order.enter(&mut self.seat, token.index()) {
            Entered::Won => {
                self.shapes.absorb_accepted(call);
                self.tokens.push_reserved(token);
                None
            }
            Entered::Lost(_) => Some(token),
        }
    }
}

impl CallList<Records> for Reader {
    ghost is_in = { λ records reader. All (IsOf records) reader.shown };

    ghost calls = { λ records reader. calls_of (known reader) };

    fn call_at<'a>(&mut self, source: &'a Records, at: usize) -> &'a Call {
        source.call_of(&mut self.tokens[at])
    }
}
