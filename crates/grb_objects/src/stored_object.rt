//! What a state asks of the objects of one sort that it holds.
ghost use Rattle.std.specs.Prelude.{◌≡◌, ℕ, Bool, false, true, OnOk, OnErr, IfOk};
ghost use Rattle.grb_call.specs.declared.call.Call.{Call};

use grb_call::Call;
use grb_sparse::Layers;
use std::alloc::{AllocError, Global};

/// How many entries that are changed or taken away are many, however large the object is: a total looks through their places for each 8,192
/// entries.
const MANY: usize = 16_384;

/// Whether so many changes wait that merging them pays: at least 1,024 changed cells, and at least a sixteenth of the entries that were
/// assembled last; or `MANY` of these are changed or taken away. Takes no memory. Either answer is right; it bears on time alone.
pub(crate) fn are_many(layers: &Layers<'_>) -> bool {
    let changes = layers.changes.len();
    let merging_pays = changes >= 1_024 && changes.saturating_mul(16) >= layers.base.len();
    merging_pays || MANY <= layers.places.len()
}

/// An object of a sort that a state holds in places.
pub trait StoredObject: Drop {
    /// What names an object of the sort.
    type Id: Copy;

    /// The number of its place.
    ghost number: { Self.Id → ℕ };

    /// What a contract sees of what an object stores.
    ghost Contents: { Type 0 };

    /// What the object stores.
    ghost contents: { Self → Contents };

    /// Whether no change waits in the object.
    ghost is_assembled: { Self → Bool };

    /// When the call may change or end an object that stores this.
    ghost fits: { Call → Contents → Type 0 };

    /// What the call makes of this, where it does not end the object.
    ghost after: { Call → Contents → Contents };

    /// Whether the call ends the object that it changes.
    ghost ends: { Call → Bool };

    /// The number of the object's place.
    fn number(id: Self::Id) -> u32
        ensures { result ≡ number id };

    /// Whether the call ends the object that it changes.
    fn is_ended_by(call: &Call) -> bool
        ensures { result ≡ ends call.now };

    /// Changes the object as the call says, which does not end it. `AllocError` where memory is refused; then its entries are as before.
    fn change(&mut self, call: &Call) -> Result<(), AllocError>
        requires fits { fits call.now (contents self.old) }
        requires goes_on { ends call.now ≡ false }
        ensures ok { OnOk result (contents self.new ≡ after call.now (contents self.old)) }
        ensures err { OnErr result (contents self.new ≡ contents self.old) };

    /// An object to change as the call says in place of this one, which others hold: a copy that shares the entries that were assembled, or
    /// one without entries where the call clears it. `AllocError` where memory is refused.
    fn copy_to_change(&self, alloc: Global, call: &Call) -> Result<Self, AllocError>
        requires { fits call.now (contents self.now) }
        ensures fits { IfOk result (λ copy. fits call.now (contents copy)) }
        ensures after { IfOk result (λ copy. after call.now (contents copy) ≡ after call.now (contents self.now)) };

    /// Lets copies share the entries from now on. Where memory is refused, copies have entries of their own.
    fn make_shareable(&mut self)
        ensures same { contents self.new ≡ contents self.old };

    /// Whether no change waits in the object. Takes no memory.
    fn is_assembled(&self) -> bool
        ensures { result ≡ is_assembled self.now };

    /// Whether so many changes wait that it pays to do them. Takes no memory.
    fn has_many_changes(&self) -> bool;

    /// Does the changes that wait in the object. `AllocError` where memory is refused; its entries are as before in any case.
    fn assemble(&mut self) -> Result<(), AllocError>
        ensures same { contents self.new ≡ contents self.old }
        ensures assembled { OnOk result (is_assembled self.new ≡ true) };

    /// An equal object. `AllocError` where memory is refused.
    fn try_clone(&self) -> Result<Self, AllocError>
        ensures { IfOk result (λ copy. contents copy ≡ contents self.now) };
}
