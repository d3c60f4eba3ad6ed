//! What makes operations, as the store of calls asks for it.
ghost use Rattle.std.specs.Prelude.{◌≡◌, true, Some, None, IfOk, OnOk, OnErr};
ghost use Rattle.grb_core.specs.Contents.{IsDimension};
ghost use Rattle.grb_core.specs.Maps.{diagonal_matrix, diagonal_size};
ghost use Rattle.grb_call.specs.declared.ids.Object.{Object};
ghost use Rattle.grb_call.specs.After.{changed, refused, reply_of};
ghost use Rattle.grb_call.specs.Kinds.{class_of};
ghost use Rattle.grb_call.specs.Status.{object_of};
ghost use Rattle.grb_call.specs.Store.{Store, empty_store};
ghost use Rattle.grb_objects.specs.SharedContent.{AreElse, IsAt, IsThere, MayRead};

use crate::shared_content::SharedContent;
use grb_call::{Call, Class, Object, Reply};
use grb_core::Diagonal;
use grb_sparse::{SparseMatrix, SparseVector};
use std::alloc::{AllocError, Global};

/// What makes one operation of single objects, as they stand on it by their numbers, and reads one. Nothing of it stays between two
/// operations. Who keeps results of calls is generic over it, and so stands on no kernel (own).
///
/// `on` is the store that stands on it.
pub trait Operates: Drop {
    ghost on: { Self → Store };

    /// Puts what an object holds at its number. `AllocError` where memory for its place is refused.
    fn hold(&mut self, object: Object, content: SharedContent) -> Result<(), AllocError>
        ensures held { OnOk result ((s : Store) → IsAt s object content → IsAt (on self.new) object content) }
        ensures others { OnOk result (AreElse (on self.old) (on self.new) object) };

    /// Makes the operation, which the objects on it do not refuse: its output is made of what stands there, and put last. `AllocError` where
    /// memory is refused; then the objects hold what they held.
    fn operate(&mut self, call: &Call) -> Result<(), AllocError>
        requires operates { class_of call.now ≡ Class.Operates }
        requires accepted { refused (on self.old) call.now ≡ None }
        ensures ok { OnOk result (on self.new ≡ changed (on self.old) call.now) }
        ensures err { OnErr result (on self.new ≡ on self.old) };

    /// Takes what the object holds off it, if it is there. Takes no memory.
    fn take(&mut self, object: Object) -> Option<SharedContent>
        ensures { IsThere (on self.old) object result };

    /// The square matrix that has the entries of `v` on a diagonal. `AllocError` where memory is refused; then nothing is made.
    ///
    /// Source: GraphBLAS C API 2.0, "Matrix_diag".
    fn diagonal(
        &self,
        alloc: Global,
        d: Diagonal,
        v: &SparseVector,
    ) -> Result<SparseMatrix, AllocError>
        requires assembled { v.now.assembled ≡ true }
        requires fits { IsDimension (diagonal_size d v.now.vector.size) }
        ensures matrix { IfOk result (λ made. made.matrix ≡ diagonal_matrix d v.now.vector) }
        ensures assembled { IfOk result (λ made. made.assembled ≡ true) };

    /// The reply to a call that only reads the object which holds this, is not refused, and does not ask for dimensions alone. Takes no
    /// memory.
    fn reply_from(&self, content: &SharedContent, call: &Call) -> Reply
        requires { MayRead call.now content.now }
        ensures { (s : Store) (o : Object) → object_of call.now ≡ Some o → IsAt s o content.now → refused s call.now ≡ None → result ≡ reply_of s call.now };
}

/// What operates, and is opened by who shares: those that are opened beside one another make what is dear together. What they leave is the
/// same (own).
pub trait Helps: Operates {
    /// One with nothing on it, and a place where what is dear is made `together` with those that are opened beside it. Takes memory for that
    /// place alone; where it is refused, each makes its own.
    fn open(alloc: Global, together: bool) -> Self
        ensures { Self.on result ≡ empty_store };

    /// One more with nothing on it, which makes what is dear together with this one. Takes no memory.
    fn beside(&self) -> Self
        ensures { Self.on result ≡ empty_store };

    /// Makes parts of what others make at the moment that are beside it, and answers how many. It waits for no one, and changes nothing on it.
    /// Takes memory for the parts; where it is refused, it ends.
    fn help(&self) -> u32;

    /// How many parts were made so far, by it and by those beside it; one that two made counts twice. Takes no memory.
    fn blocks(&self) -> u64;
}
