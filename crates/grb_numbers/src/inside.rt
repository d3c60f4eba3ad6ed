//! A call by inner numbers.
ghost use Rattle.std.specs.Prelude.{◌≡◌};
ghost use Rattle.std.specs.Option.{option_map};
ghost use Rattle.grb_numbers.specs.Inside.{inner_matrix, inner_vector, inside, inwards, renamed_matrix_term, renamed_vector_term};

use crate::numbers::Numbers;
use grb_call::{Call, MatrixId, MatrixTerm, VectorId, VectorTerm};

/// The call of this form by inner numbers: its matrices, its vectors and their masks stand before the fields that stay. A call with a term
/// is none of these forms.
macro_rules! inside {
    ($numbers:expr, $call:expr; $($name:ident [ $($a:ident)* ; $($v:ident)* ; $($m:ident)* ; $($w:ident)* ; $($field:ident)* ])*) => {
        match $call {
            Call::WriteMatrix { c, mask, accum, term, d } => Call::WriteMatrix {
                c: $numbers.inner_matrix(c),
                mask: $numbers.inner_matrix_mask(mask),
                accum,
                term: $numbers.inner_matrix_term(term),
                d,
            },
            Call::WriteVector { w, mask, accum, term, d } => Call::WriteVector {
                w: $numbers.inner_vector(w),
                mask: $numbers.inner_vector_mask(mask),
                accum,
                term: $numbers.inner_vector_term(term),
                d,
            },
            $(Call::$name { $($a,)* $($v,)* $($m,)* $($w,)* $($field,)* } => Call::$name {
                $($a: $numbers.inner_matrix($a),)*
                $($v: $numbers.inner_vector($v),)*
                $($m: $numbers.inner_matrix_mask($m),)*
                $($w: $numbers.inner_vector_mask($w),)*
                $($field,)*
            },)*
        }
    };
}

impl Numbers {
    /// The mask of a matrix by its inner number.
    fn inner_matrix_mask(&self, mask: Option<MatrixId>) -> Option<MatrixId>
        ensures { result ≡ option_map (inner_matrix self.now) mask }
    {
        match mask {
            Some(a) => Some(self.inner_matrix(a)),
            None => None,
        }
    }

    /// The mask of a vector by its inner number.
    fn inner_vector_mask(&self, mask: Option<VectorId>) -> Option<VectorId>
        ensures { result ≡ option_map (inner_vector self.now) mask }
    {
        match mask {
            Some(v) => Some(self.inner_vector(v)),
            None => None,
        }
    }

    /// The term by inner numbers.
    fn inner_matrix_term(&self, term: MatrixTerm) -> MatrixTerm
        ensures { result ≡ renamed_matrix_term (inwards self.now) term }
    {
        match term {
            MatrixTerm::Transposed { a } => MatrixTerm::Transposed {
                a: self.inner_matrix(a),
            },
            MatrixTerm::Applied { f, a } => MatrixTerm::Applied {
                f,
                a: self.inner_matrix(a),
            },
            MatrixTerm::Selected { test, a } => MatrixTerm::Selected {
                test,
                a: self.inner_matrix(a),
            },
            MatrixTerm::Kronecker { op, a, b } => MatrixTerm::Kronecker {
                op,
                a: self.inner_matrix(a),
                b: self.inner_matrix(b),
            },
        }
    }

    /// The term by inner numbers.
    fn inner_vector_term(&self, term: VectorTerm) -> VectorTerm
        ensures { result ≡ renamed_vector_term (inwards self.now) term }
    {
        match term {
            VectorTerm::Applied { f, u } => VectorTerm::Applied {
                f,
                u: self.inner_vector(u),
            },
            VectorTerm::Selected { test, u } => VectorTerm::Selected {
                test,
                u: self.inner_vector(u),
            },
        }
    }

    /// The call by inner numbers. Takes no memory.
    pub fn inside(&self, call: Call) -> Call
        ensures { result ≡ inside self.now call }
    {
        inside!(self, call;
            NewMatrix [;;;; domain nrows ncols] NewVector [;;;; domain size]
            FreeMatrix [a;;;;] FreeVector [; v;;;]
            SetMatrix [a;;;; i j value] SetVector [; v;;; i value]
            RemoveMatrix [a;;;; i j] RemoveVector [; v;;; i]
            GetMatrix [a;;;; i j] GetVector [; v;;; i]
            NvalsMatrix [a;;;;] NvalsVector [; v;;;]
            SizeMatrix [a;;;;] SizeVector [; v;;;]
            ClearMatrix [a;;;;] ClearVector [; v;;;]
            ResizeMatrix [a;;;; nrows ncols] ResizeVector [; v;;; size]
            DupMatrix [a;;;;] DupVector [; v;;;]
            BuildMatrix [a;;;; tuples dup] BuildVector [; v;;; tuples dup]
            EwiseAddMatrix [c a b;; mask;; accum op d] EwiseAddVector [; w u v;; mask; accum op d]
            EwiseMultMatrix [c a b;; mask;; accum op d] EwiseMultVector [; w u v;; mask; accum op d]
            Mxv [a; w u;; mask; accum semiring d] Vxm [a; w u;; mask; accum semiring d]
            Mxm [c a b;; mask;; accum semiring d] ReduceRows [a; w;; mask; accum monoid d]
            Diag [; v;;; diagonal]
            ReduceMatrix [a;;;; monoid] ReduceVector [; v;;; monoid]
            WaitMatrix [a;;;; mode] WaitVector [; v;;; mode]
        )
    }
}
