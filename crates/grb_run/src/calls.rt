//! The call that a statement makes, with the objects that its names stand for.
ghost use Rattle.std.specs.Prelude.{◌≡◌};
ghost use Rattle.grb_run.specs.Calls.{call_of};

use crate::objects::{Named, mask_named};
use grb_call::{Call, MatrixTerm, Object, VectorTerm, WaitMode};
use grb_script::{Sort, Statement};

/// The call of this variant on the object that a name stands for, with what else it takes.
macro_rules! on {
    ($objects:expr, $name:expr, $call:ident { $object:ident $(, $more:ident)* }) => {
        Call::$call { $object: Named::named($objects, $name) $(, $more)* }
    };
}

/// The call of the first variant where the object that a name stands for is a matrix, and of the second where it is a vector.
macro_rules! by_sort {
    ($objects:expr, $name:expr, $sort:expr, $matrix:ident, $vector:ident $(, $more:ident)?) => {
        match $sort {
            Sort::Matrix => on!($objects, $name, $matrix { a $(, $more)? }),
            Sort::Vector => on!($objects, $name, $vector { v $(, $more)? }),
        }
    };
}

/// The operation of this variant that a statement asks for: its output, what it computes by, and its inputs by the names that stand in the
/// statement.
macro_rules! operation {
    ($objects:expr, $says:expr, $call:ident, $output:ident, $by:ident $(, $input:ident = $name:ident)+) => {
        Call::$call {
            $output: Named::named($objects, $says.output),
            mask: mask_named($objects, $says.mask),
            accum: $says.accum,
            $by: $says.$by,
            $($input: Named::named($objects, $says.$name),)+
            d: $says.descriptor,
        }
    };
}

/// The write of what a term computes into the output of a statement, by the names that stand in the statement.
macro_rules! writes {
    ($objects:expr, $says:expr, $call:ident, $output:ident, $term:expr) => {
        Call::$call {
            $output: Named::named($objects, $says.output),
            mask: mask_named($objects, $says.mask),
            accum: $says.accum,
            term: $term,
            d: $says.descriptor,
        }
    };
}

/// The call that a statement makes, where the names so far stand for these objects. The list of a build goes into its call. That of
/// `tuples` is a wait for the completion of its object. Takes no memory.
pub fn call_of(objects: &[Object], statement: Statement) -> Call
    ensures { result ≡ call_of objects.now statement }
{
    match statement {
        Statement::Matrix {
            domain,
            nrows,
            ncols,
        } => Call::NewMatrix {
            domain,
            nrows,
            ncols,
        },
        Statement::Vector { domain, size } => Call::NewVector { domain, size },
        Statement::Dup { name, sort } => by_sort!(objects, name, sort, DupMatrix, DupVector),
        Statement::Free { name, sort } => by_sort!(objects, name, sort, FreeMatrix, FreeVector),
        Statement::Nvals { name, sort } => by_sort!(objects, name, sort, NvalsMatrix, NvalsVector),
        Statement::Size { name, sort } => by_sort!(objects, name, sort, SizeMatrix, SizeVector),
        Statement::Clear { name, sort } => by_sort!(objects, name, sort, ClearMatrix, ClearVector),
        Statement::SetMatrix { name, i, j, value } => {
            on!(objects, name, SetMatrix { a, i, j, value })
        }
        Statement::SetVector { name, i, value } => on!(objects, name, SetVector { v, i, value }),
        Statement::RemoveMatrix { name, i, j } => on!(objects, name, RemoveMatrix { a, i, j }),
        Statement::RemoveVector { name, i } => on!(objects, name, RemoveVector { v, i }),
        Statement::GetMatrix { name, i, j } => on!(objects, name, GetMatrix { a, i, j }),
        Statement::GetVector { name, i } => on!(objects, name, GetVector { v, i }),
        Statement::ResizeMatrix { name, nrows, ncols } => {
            on!(objects, name, ResizeMatrix { a, nrows, ncols })
        }
        Statement::ResizeVector { name, size } => on!(objects, name, ResizeVector { v, size }),
        Statement::BuildMatrix { name, tuples, dup } => {
            on!(objects, name, BuildMatrix { a, tuples, dup })
        }
        Statement::BuildVector { name, tuples, dup } => {
            on!(objects, name, BuildVector { v, tuples, dup })
        }
        Statement::EwiseAdd(says) => match says.sort {
            Sort::Matrix => operation!(objects, says, EwiseAddMatrix, c, op, a = left, b = right),
            Sort::Vector => operation!(objects, says, EwiseAddVector, w, op, u = left, v = right),
        },
        Statement::EwiseMult(says) => match says.sort {
            Sort::Matrix => operation!(objects, says, EwiseMultMatrix, c, op, a = left, b = right),
            Sort::Vector => operation!(objects, says, EwiseMultVector, w, op, u = left, v = right),
        },
        Statement::Mxv(says) => operation!(objects, says, Mxv, w, semiring, a = left, u = right),
        Statement::Vxm(says) => operation!(objects, says, Vxm, w, semiring, u = left, a = right),
        Statement::Mxm(says) => operation!(objects, says, Mxm, c, semiring, a = left, b = right),
        Statement::Reduce(says) => operation!(objects, says, ReduceRows, w, monoid, a = input),
        Statement::Total { name, sort, monoid } => {
            by_sort!(objects, name, sort, ReduceMatrix, ReduceVector, monoid)
        }
        Statement::Wait { name, sort, mode } => {
            by_sort!(objects, name, sort, WaitMatrix, WaitVector, mode)
        }
        Statement::Transpose(says) => {
            let a = Named::named(objects, says.input);
            writes!(objects, says, WriteMatrix, c, MatrixTerm::Transposed { a })
        }
        Statement::Apply(says) => {
            let f = says.function;
            match says.sort {
                Sort::Matrix => {
                    let a = Named::named(objects, says.input);
                    writes!(objects, says, WriteMatrix, c, MatrixTerm::Applied { f, a })
                }
                Sort::Vector => {
                    let u = Named::named(objects, says.input);
                    writes!(objects, says, WriteVector, w, VectorTerm::Applied { f, u })
                }
            }
        }
        Statement::Select(says) => {
            let test = says.test;
            match says.sort {
                Sort::Matrix => {
                    let a = Named::named(objects, says.input);
                    writes!(
                        objects,
                        says,
                        WriteMatrix,
                        c,
                        MatrixTerm::Selected { test, a }
                    )
                }
                Sort::Vector => {
                    let u = Named::named(objects, says.input);
                    writes!(
                        objects,
                        says,
                        WriteVector,
                        w,
                        VectorTerm::Selected { test, u }
                    )
                }
            }
        }
        Statement::Kronecker(says) => {
            let op = says.op;
            let a = Named::named(objects, says.left);
            let b = Named::named(objects, says.right);
            writes!(
                objects,
                says,
                WriteMatrix,
                c,
                MatrixTerm::Kronecker { op, a, b }
            )
        }
        Statement::Diag { name, diagonal } => on!(objects, name, Diag { v, diagonal }),
        Statement::Tuples { name, sort } => {
            let mode = WaitMode::Complete;
            by_sort!(objects, name, sort, WaitMatrix, WaitVector, mode)
        }
    }
}
