//! An operation in one shape, whichever objects it is on.
ghost use Rattle.std.specs.Prelude.{◌≡◌, IfSome};
ghost use Rattle.grb_call.specs.Kinds.{class_of};
ghost use Rattle.grb_call.specs.Operation.{operation_of, turns};

use crate::call::Call;
use crate::class::Class;
use crate::ids::Object;
use grb_core::{BinaryOp, Descriptor, Function, Monoid, Semiring, Test, turns_input};

/// What an operation computes of its inputs, before mask, accumulator and descriptor say how that is written.
///
/// Source: GraphBLAS C API 2.0, "Operations".
#[derive(Clone, Copy, PartialEq, Eq)]
pub enum OperationKind {
    /// The operator of both values over the union of what two inputs of one sort store, else the one value (`GrB_eWiseAdd`).
    EwiseAdd(BinaryOp),
    /// The operator of both values over the intersection of what two inputs of one sort store (`GrB_eWiseMult`).
    EwiseMult(BinaryOp),
    /// The product of two inputs, of which one at least is a matrix (`GrB_mxm`, `GrB_mxv`, `GrB_vxm`).
    Product(Semiring),
    /// The values of each row of one matrix, combined (`GrB_Matrix_reduce`).
    Rows(Monoid),
    /// One matrix with its rows and columns exchanged (`GrB_transpose`).
    Transpose,
    /// What a function makes of each value of one input (`GrB_Matrix_apply`, `GrB_Vector_apply`).
    Apply(Function),
    /// The entries of one input that pass a test (`GrB_select`).
    Select(Test),
    /// The operator of each value of one matrix with each value of another (`GrB_kronecker`).
    Kronecker(BinaryOp),
}

/// Which input of an operation.
///
/// Source: GraphBLAS C API 2.0, "Descriptors", `GrB_INP0` and `GrB_INP1`.
#[derive(Clone, Copy, Debug, PartialEq, Eq)]
pub enum Input {
    /// The first, or the only one.
    First,
    /// The second.
    Second,
}

/// An operation: what all calls that write a result into an output have in common. Which of them it is, the kind and the sorts of its objects
/// say.
///
/// Source: GraphBLAS C API 2.0, "Operations"; the one shape for all is own.
#[derive(Clone, Copy, PartialEq, Eq)]
pub struct Operation {
    /// The object that the result is written into.
    pub output: Object,
    /// What selects the places at which it is written, of the output's sort; none selects all.
    pub mask: Option<Object>,
    /// What combines an old value with a new one; none puts the new one in its place.
    pub accum: Option<BinaryOp>,
    /// The first input, if there is one: each call has it.
    pub first: Option<Object>,
    /// The second input, if there is one: element-wise operations and products have it.
    pub second: Option<Object>,
    /// What is computed of the inputs.
    pub kind: OperationKind,
    /// How the mask and the inputs are read ([`Operation::turns`]), and what becomes of the places that are not selected.
    pub d: Descriptor,
}

impl Operation {
    /// Whether the input is read transposed where it is a matrix: the first where the descriptor says `tran`, the second where it says
    /// `tran1`. What transpose reads is turned once more, and the only input of a function whose first argument is bound stands second.
    /// Takes no memory.
    ///
    /// Source: GraphBLAS C API 2.0, "Descriptors", "transpose" and "apply".
    pub fn turns(&self, input: Input) -> bool
        ensures { result ≡ turns self.now.kind self.now.d input }
    {
        match (input, self.kind) {
            (Input::First, OperationKind::Transpose) => !self.d.tran,
            (Input::First, OperationKind::Apply(f)) => turns_input(f, self.d.tran, self.d.tran1),
            (Input::First, _) => self.d.tran,
            (Input::Second, _) => self.d.tran1,
        }
    }
}

impl Call {
    /// What the operation computes of its inputs.
    fn computed(&self) -> OperationKind
        requires { class_of self.now ≡ Class.Operates }
        ensures { IfSome (operation_of self.now) (λ o. result ≡ o.kind) }
    {
        match self {
            Call::EwiseAddMatrix { op, .. } | Call::EwiseAddVector { op, .. } => {
                OperationKind::EwiseAdd(*op)
            }
            Call::EwiseMultMatrix { op, .. } | Call::EwiseMultVector { op, .. } => {
                OperationKind::EwiseMult(*op)
            }
            Call::Mxm { semiring, .. } | Call::Mxv { semiring, .. } | Call::Vxm { semiring, .. } =>
                { OperationKind::Product(*semiring) }
            Call::ReduceRows { monoid, .. } => OperationKind::Rows(*monoid),
            Call::WriteMatrix { term, .. } => term.kind(),
            Call::WriteVector { term, .. } => term.kind(),
            _ => unreachable!(),
        }
    }

    /// The output of the operation, and its mask.
    fn output_and_mask(&self) -> (Object, Option<Object>)
        requires { class_of self.now ≡ Class.Operates }
        ensures { IfSome (operation_of self.now) (λ o. result ≡ (o.output, o.mask)) }
    {
        match self {
            Call::EwiseAddMatrix { c, mask, .. }
            | Call::EwiseMultMatrix { c, mask, .. }
            | Call::Mxm { c, mask, .. }
            | Call::WriteMatrix { c, mask, .. } => {
                (Object::Matrix(*c), mask.map(|m| Object::Matrix(m)))
            }
            Call::EwiseAddVector { w, mask, .. }
            | Call::EwiseMultVector { w, mask, .. }
            | Call::Mxv { w, mask, .. }
            | Call::Vxm { w, mask, .. }
            | Call::ReduceRows { w, mask, .. }
            | Call::WriteVector { w, mask, .. } => {
                (Object::Vector(*w), mask.map(|m| Object::Vector(m)))
            }
            _ => unreachable!(),
        }
    }

    /// The first input of the operation, and the second.
    fn first_and_second(&self) -> (Option<Object>, Option<Object>)
        requires { class_of self.now ≡ Class.Operates }
        ensures { IfSome (operation_of self.now) (λ o. result ≡ (o.first, o.second)) }
    {
        match self {
            Call::EwiseAddMatrix { a, b, .. }
            | Call::EwiseMultMatrix { a, b, .. }
            | Call::Mxm { a, b, .. } => (Some(Object::Matrix(*a)), Some(Object::Matrix(*b))),
            Call::EwiseAddVector { u, v, .. } | Call::EwiseMultVector { u, v, .. } => {
                (Some(Object::Vector(*u)), Some(Object::Vector(*v)))
            }
            Call::Mxv { a, u, .. } => (Some(Object::Matrix(*a)), Some(Object::Vector(*u))),
            Call::Vxm { u, a, .. } => (Some(Object::Vector(*u)), Some(Object::Matrix(*a))),
            Call::ReduceRows { a, .. } => (Some(Object::Matrix(*a)), None),
            Call::WriteMatrix { term, .. } => (Some(term.first()), term.second()),
            Call::WriteVector { term, .. } => (Some(term.first()), None),
            _ => unreachable!(),
        }
    }

    /// The accumulator of the operation, and its descriptor.
    fn accum_and_descriptor(&self) -> (Option<BinaryOp>, Descriptor)
        requires { class_of self.now ≡ Class.Operates }
        ensures { IfSome (operation_of self.now) (λ o. result ≡ (o.accum, o.d)) }
    {
        match self {
            Call::EwiseAddMatrix { accum, d, .. }
            | Call::EwiseAddVector { accum, d, .. }
            | Call::EwiseMultMatrix { accum, d, .. }
            | Call::EwiseMultVector { accum, d, .. }
            | Call::Mxv { accum, d, .. }
            | Call::Vxm { accum, d, .. }
            | Call::Mxm { accum, d, .. }
            | Call::ReduceRows { accum, d, .. }
            | Call::WriteMatrix { accum, d, .. }
            | Call::WriteVector { accum, d, .. } => (*accum, *d),
            _ => unreachable!(),
        }
    }

    /// The operation that the call is, if it writes a result into an output. Takes no memory.
    pub fn operation(&self) -> Option<Operation>
        ensures { result ≡ operation_of self.now }
    {
        match self.class() {
            Class::Operates => {
                let (output, mask) = self.output_and_mask();
                let (accum, d) = self.accum_and_descriptor();
                let (first, second) = self.first_and_second();
                Some(Operation {
                    output,
                    mask,
                    accum,
                    first,
                    second,
                    kind: self.computed(),
                    d,
                })
            }
            Class::Makes | Class::Edits | Class::Reads(_) | Class::AsksDimensions => None,
        }
    }
}
