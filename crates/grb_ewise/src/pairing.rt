//! Two objects, combined by an operator of their domain: chosen once a call.
ghost use Rattle.std.specs.Prelude.{◌≡◌, true, IfOk};
ghost use Rattle.grb_core.specs.Operator.{op_domain, value_of_op};
ghost use Rattle.grb_core.specs.Written.{pointwise};
ghost use Rattle.grb_kernels.specs.Pairing.{paired};
ghost use Rattle.grb_ewise.specs.Objects.{AreAlike, IsLike};

use crate::objects::SparseObject;
use crate::stored::Stored;
use grb_core::{BinaryOp, Domain};
use grb_kernels::{Both, ByOperator, Either, Operator, Pairing};
use std::alloc::{AllocError, Global};
use std::marker::PhantomData;

/// Two objects that are combined over the same places by whichever operator.
#[derive(Drop)]
struct TwoObjects<'a, O: SparseObject> {
    alloc: Global,
    pairing: Pairing,
    a: &'a O,
    b: &'a O,
}

/// Two objects whose values are of the Rust type `T`.
#[derive(Drop)]
struct TypedObjects<'a, O: SparseObject, T: Stored> {
    two: &'a TwoObjects<'a, O>,
    of: PhantomData<T>,
    ghost a_assembled: { (O.contents two.now.a.now).assembled ≡ true },
    ghost b_assembled: { (O.contents two.now.b.now).assembled ≡ true },
    ghost rows: { (O.contents two.now.b.now).nrows ≡ (O.contents two.now.a.now).nrows },
    ghost columns: { (O.contents two.now.b.now).ncols ≡ (O.contents two.now.a.now).ncols },
    ghost a_domain: { (O.contents two.now.a.now).domain ≡ T.domain },
    ghost b_domain: { (O.contents two.now.b.now).domain ≡ T.domain },
}

impl<'a, O: SparseObject, T: Stored + Drop> ByOperator<T> for TypedObjects<'a, O, T> {
    type Output = Result<O, AllocError>;

    ghost Gives = { λ p op result. IfOk result (λ made. IsLike (O.contents p.two.now.a.now) (pointwise O.order (paired p.two.now.pairing (value_of_op op)) (O.contents p.two.now.a.now).entries (O.contents p.two.now.b.now).entries) (O.contents made)) };

    /// What both make by an operator as a type. `AllocError` where memory is refused; then nothing is made.
    fn by<F: Operator<T>>(self) -> Result<O, AllocError> {
        let two = self.two;
        match two.pairing {
            Pairing::Union => {
                let rule: Either<F> = Either { op: PhantomData };
                O::merged::<T, T, Either<F>>(two.alloc, &rule, two.a, two.b)
            }
            Pairing::Intersection => {
                let rule: Both<F> = Both { op: PhantomData };
                O::merged::<T, T, Both<F>>(two.alloc, &rule, two.a, two.b)
            }
        }
    }
}

/// The same, whose values are of the Rust type `T`, combined by an operator. `AllocError` where memory is refused; then nothing is made.
fn pair_typed<O: SparseObject, T: Stored + Drop>(
    op: BinaryOp,
    two: &TwoObjects<O>,
) -> Result<O, AllocError>
    requires domain { op_domain op ≡ T.domain }
    requires alike { AreAlike (O.contents two.now.a.now) (O.contents two.now.b.now) }
    requires a_domain { (O.contents two.now.a.now).domain ≡ op_domain op }
    requires b_domain { (O.contents two.now.b.now).domain ≡ op_domain op }
    ensures { IfOk result (λ made. IsLike (O.contents two.now.a.now) (pointwise O.order (paired two.now.pairing (value_of_op op)) (O.contents two.now.a.now).entries (O.contents two.now.b.now).entries) (O.contents made)) }
{
    let typed: TypedObjects<O, T> = TypedObjects {
        two,
        of: PhantomData,
    };
    T::choose(op, typed)
}

/// Two objects combined by an operator of their domain. `AllocError` where memory is refused; then nothing is made.
pub(crate) fn pair<O: SparseObject>(
    alloc: Global,
    pairing: Pairing,
    op: BinaryOp,
    a: &O,
    b: &O,
) -> Result<O, AllocError>
    requires alike { AreAlike (O.contents a.now) (O.contents b.now) }
    requires a_domain { (O.contents a.now).domain ≡ op_domain op }
    requires b_domain { (O.contents b.now).domain ≡ op_domain op }
    ensures { IfOk result (λ made. IsLike (O.contents a.now) (pointwise O.order (paired pairing (value_of_op op)) (O.contents a.now).entries (O.contents b.now).entries) (O.contents made)) }
{
    let two = TwoObjects {
        alloc,
        pairing,
        a,
        b,
    };
    match op.domain() {
        Domain::Bool => pair_typed::<O, bool>(op, &two),
        Domain::Uint64 => pair_typed::<O, u64>(op, &two),
    }
}
