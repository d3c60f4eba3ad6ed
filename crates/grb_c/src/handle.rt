//! What C keeps: a pass, or none.
ghost use Rattle.std.specs.Prelude.{◌≡◌, ℕ, ℤ, None, Some, MatchOption, is_some};
ghost use Rattle.grb_context.specs.Explains.{Answer};
ghost use Rattle.grb_codes.specs.Codes.{bool_code, bool_out, dims_code, dims_out, number_code, number_out, object_code, object_out};
ghost use Rattle.grb_c.specs.Sessions.{Made};

use crate::parts::Parts;
use crate::raw::Raw;
use crate::session::Session;
use grb_call::{Call, Reply};
use grb_codes::{done_code, put_bool, put_dims, put_number, put_object};
use grb_core::Refusal;
use std::alloc::Global;
use std::mem::replace;

/// A pass that C keeps, or none: all bytes 0 are none.
#[repr(C)]
#[derive(Drop)]
pub struct TrbPass {
    is_open: bool,
    pub(crate) raw: Raw,
    ghost open: { is_open ≡ is_some raw.session },
}

impl TrbPass {
    ghost use Rattle.grb_c.specs.Handles.{Calls, Makes};

    /// Whether there is a pass.
    pub(crate) fn is_open(&self) -> bool
        ensures { result ≡ is_some self.now.raw.session }
    {
        self.is_open
    }

    /// Takes the session out, if there is one.
    pub(crate) fn take(&mut self, alloc: Global) -> Option<Box<Session>>
        ensures taken { MatchOption result (self.old.raw.session ≡ None) (λ s. self.old.raw.session ≡ Some s.value) }
        ensures left { self.new.raw.session ≡ None }
    {
        if !self.is_open {
            return None;
        }
        self.is_open = false;
        let raw = replace(&mut self.raw, Raw::nothing(alloc));
        Some(raw.into_parts().into_box())
    }

    /// Puts a session in.
    pub(crate) fn put(&mut self, session: Box<Session>)
        ensures { self.new.raw.session ≡ Some session.value }
    {
        self.raw = Raw::of_parts(Parts::of(session));
        self.is_open = true;
    }

    /// Makes a call by the pass. Where there is none, `UninitializedObject`. Else it is refused as by `Context::call`, by `OutOfMemory`
    /// too, which changes nothing.
    pub(crate) fn call(&mut self, alloc: Global, call: Call) -> Result<Reply, Refusal>
        ensures { Made self.old.raw.session self.new.raw.session call result }
    {
        let Some(mut session) = self.take(alloc) else {
            return Err(Refusal::UninitializedObject);
        };
        let answer = session.call(call);
        self.put(session);
        answer
    }

    /// Makes a call that puts nothing out, if it is one.
    pub(crate) fn done(&mut self, alloc: Global, call: Result<Call, i32>) -> i32
        ensures { Makes self.old self.new call result }
    {
        match call {
            Ok(call) => done_code(self.call(alloc, call)),
            Err(code) => code,
        }
    }

    /// Makes a call that is answered by a number, if it is one.
    pub(crate) fn number(&mut self, alloc: Global, call: Result<Call, i32>, out: &mut u64) -> i32
        ensures { Calls number_code number_out self.old self.new call result out.old out.new }
    {
        match call {
            Ok(call) => put_number(self.call(alloc, call), out),
            Err(code) => code,
        }
    }

    /// Makes a call that is answered by a truth value, if it is one.
    pub(crate) fn bool(&mut self, alloc: Global, call: Result<Call, i32>, out: &mut bool) -> i32
        ensures { Calls bool_code bool_out self.old self.new call result out.old out.new }
    {
        match call {
            Ok(call) => put_bool(self.call(alloc, call), out),
            Err(code) => code,
        }
    }

    /// Makes a call that makes an object, if it is one.
    pub(crate) fn object(&mut self, alloc: Global, call: Result<Call, i32>, out: &mut u32) -> i32
        ensures { Calls object_code object_out self.old self.new call result out.old out.new }
    {
        match call {
            Ok(call) => put_object(self.call(alloc, call), out),
            Err(code) => code,
        }
    }

    /// Makes a call that is answered by dimensions, if it is one.
    pub(crate) fn dims(
        &mut self,
        alloc: Global,
        call: Result<Call, i32>,
        nrows: &mut u64,
        ncols: &mut u64,
    ) -> i32
        ensures { Calls dims_code dims_out self.old self.new call result (nrows.old, ncols.old) (nrows.new, ncols.new) }
    {
        match call {
            Ok(call) => put_dims(self.call(alloc, call), nrows, ncols),
            Err(code) => code,
        }
    }
}
