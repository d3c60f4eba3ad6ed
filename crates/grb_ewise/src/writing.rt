//! How what was computed goes into an object: the accumulator, and then the mask with replace.
ghost use Rattle.std.specs.Prelude.{◌≡◌, not, true, false, [], if◌then◌else◌, Some, None, IfSome, IfOk};
ghost use Rattle.std.specs.Ordering.{nat_cmp};
ghost use Rattle.std.specs.Option.{option_map, option_or};
ghost use Rattle.grb_core.specs.Operator.{op_domain, value_of_op};
ghost use Rattle.grb_core.specs.Entries.{cell_cmp};
ghost use Rattle.grb_core.specs.Written.{AccumulatesIn, accumulated, either_value, pointwise};
ghost use Rattle.grb_core.specs.Written.{written_by};
ghost use Rattle.grb_kernels.specs.Masked.{by_mask};
ghost use Rattle.grb_ewise.specs.Objects.{AreAlike, IsLike};
ghost use Rattle.grb_ewise.specs.Premises.{IsMatrixInput, IsMatrixOutput, IsVectorInput, IsVectorOutput, LieInside};
ghost use Rattle.grb_ewise.specs.Written.{written_into_matrix, written_into_vector};

use crate::objects::SparseObject;
use crate::pairing::pair;
use grb_core::{BinaryOp, Descriptor, Domain};
use grb_kernels::{ByMask, Over, Pairing};
use grb_sparse::{SparseMatrix, SparseVector};
use std::alloc::{AllocError, Global};

/// The object that an operation writes to, and how it does.
#[derive(Drop)]
struct Output<'a, O: SparseObject> {
    alloc: Global,
    /// The old output, which is read.
    old: &'a O,
    /// Combines the old value and the computed one where both are there; `None` for the computed one alone.
    accum: Option<BinaryOp>,
    /// How the mask is read, whether what lies outside of it is removed.
    descriptor: Descriptor,
    /// Whether what was computed is known to lie inside of the mask.
    inside: bool,
}

/// What a mask selects of an object, or what it does not, as the rule says. Of an object that stores nothing that is nothing, whatever
/// the mask. `AllocError` where memory is refused; then nothing is made.
fn select<O: SparseObject>(alloc: Global, rule: ByMask, a: &O, mask: &O) -> Result<O, AllocError>
    requires alike { AreAlike (O.contents a.now) (O.contents mask.now) }
    ensures { IfOk result (λ made. IsLike (O.contents a.now) (pointwise O.order (by_mask rule.structure rule.wanted) (O.contents a.now).entries (O.contents mask.now).entries) (O.contents made)) }
{
    if a.is_empty() {
        return Ok(a.emptied(alloc));
    }
    match (a.stores(), mask.stores()) {
        (Domain::Bool, Domain::Bool) => O::merged::<bool, bool, ByMask>(alloc, &rule, a, mask),
        (Domain::Bool, Domain::Uint64) => O::merged::<bool, u64, ByMask>(alloc, &rule, a, mask),
        (Domain::Uint64, Domain::Bool) => O::merged::<u64, bool, ByMask>(alloc, &rule, a, mask),
        (Domain::Uint64, Domain::Uint64) => O::merged::<u64, u64, ByMask>(alloc, &rule, a, mask),
    }
}

/// The entries of the first object, and those of the second where the first has none. Where one of them stores nothing it is the other,
/// which is not copied. `AllocError` where memory is refused; then both are dropped.
fn over<O: SparseObject>(alloc: Global, a: O, b: O) -> Result<O, AllocError>
    requires alike { AreAlike (O.contents a) (O.contents b) }
    requires domain { (O.contents b).domain ≡ (O.contents a).domain }
    ensures { IfOk result (λ made. IsLike (O.contents a) (pointwise O.order option_or (O.contents a).entries (O.contents b).entries) (O.contents made)) }
{
    b.stores();
    let domain = a.stores();
    if b.is_empty() {
        return Ok(a);
    }
    if a.is_empty() {
        return Ok(b);
    }
    match domain {
        Domain::Bool => O::merged::<bool, bool, Over>(alloc, &Over, &a, &b),
        Domain::Uint64 => O::merged::<u64, u64, Over>(alloc, &Over, &a, &b),
    }
}

/// What an accumulator makes of the old output and what was computed: both combined, else the one value. Where one of them stores nothing
/// it is the other, and no entry is read. `AllocError` where memory is refused; then `computed` is dropped.
fn combine<O: SparseObject>(output: &Output<O>, op: BinaryOp, computed: O) -> Result<O, AllocError>
    requires op_domain { op_domain op ≡ (O.contents output.now.old.now).domain }
    requires computed { AreAlike (O.contents output.now.old.now) (O.contents computed) }
    requires domain { (O.contents computed).domain ≡ (O.contents output.now.old.now).domain }
    ensures { IfOk result (λ made. IsLike (O.contents output.now.old.now) (pointwise O.order (either_value (value_of_op op)) (O.contents output.now.old.now).entries (O.contents computed).entries) (O.contents made)) }
{
    // Both are in order, as every object is.
    output.old.stores();
    computed.stores();
    if output.old.is_empty() {
        return Ok(computed);
    }
    if computed.is_empty() {
        let same = output.old.copied()?;
        return Ok(same);
    }
    let made = pair(output.alloc, Pairing::Union, op, output.old, &computed)?;
    Ok(made)
}

/// What the mask lets in of an object. `AllocError` where memory is refused; then nothing is made.
fn inside_of<O: SparseObject>(output: &Output<O>, mask: &O, made: &O) -> Result<O, AllocError>
    requires alike { AreAlike (O.contents made.now) (O.contents mask.now) }
    ensures { IfOk result (λ new. IsLike (O.contents made.now) (pointwise O.order (by_mask output.now.descriptor.structure (not output.now.descriptor.comp)) (O.contents made.now).entries (O.contents mask.now).entries) (O.contents new)) }
{
    let keep_inside = ByMask {
        structure: output.descriptor.structure,
        wanted: !output.descriptor.comp,
    };
    select(output.alloc, keep_inside, made, mask)
}

/// What the mask lets in of what was computed: that itself, where it is known to lie inside. `AllocError` where memory is refused; then
/// `computed` is dropped.
fn enter<O: SparseObject>(output: &Output<O>, mask: &O, computed: O) -> Result<O, AllocError>
    requires alike { AreAlike (O.contents computed) (O.contents mask.now) }
    requires known { output.now.inside ≡ true → LieInside O.order (Some (O.contents mask.now).entries) output.now.descriptor (O.contents computed).entries }
    ensures { IfOk result (λ new. IsLike (O.contents computed) (pointwise O.order (by_mask output.now.descriptor.structure (not output.now.descriptor.comp)) (O.contents computed).entries (O.contents mask.now).entries) (O.contents new)) }
{
    // What was computed is in order, as every object is.
    computed.stores();
    if output.inside {
        return Ok(computed);
    }
    let new = inside_of(output, mask, &computed)?;
    Ok(new)
}

/// What goes inside of the mask, and outside of it what the old output has; with replace that is nothing. `AllocError` where memory is
/// refused; then `inside` is dropped.
fn with_outside<O: SparseObject>(output: &Output<O>, mask: &O, inside: O) -> Result<O, AllocError>
    requires mask { AreAlike (O.contents output.now.old.now) (O.contents mask.now) }
    requires inside { AreAlike (O.contents output.now.old.now) (O.contents inside) }
    requires domain { (O.contents inside).domain ≡ (O.contents output.now.old.now).domain }
    ensures { IfOk result (λ new. IsLike (O.contents output.now.old.now) (pointwise O.order option_or (O.contents inside).entries (if output.now.descriptor.replace then [] else pointwise O.order (by_mask output.now.descriptor.structure output.now.descriptor.comp) (O.contents output.now.old.now).entries (O.contents mask.now).entries)) (O.contents new)) }
{
    // What goes inside is in order, as every object is.
    inside.stores();
    let descriptor = output.descriptor;
    if descriptor.replace {
        return Ok(inside);
    }
    let keep_outside = ByMask {
        structure: descriptor.structure,
        wanted: descriptor.comp,
    };
    let outside = select(output.alloc, keep_outside, output.old, mask)?;
    let both = over(output.alloc, inside, outside)?;
    Ok(both)
}

/// The new output by the accumulator and then by a mask. Without replace what lies outside of the mask stays: what is inside of the result
/// alone goes into the old output, which is read once. `AllocError` where memory is refused; then `computed` is dropped.
fn accumulate_by_mask<O: SparseObject>(
    output: &Output<O>,
    op: BinaryOp,
    mask: &O,
    computed: O,
) -> Result<O, AllocError>
    requires op_domain { op_domain op ≡ (O.contents output.now.old.now).domain }
    requires mask { AreAlike (O.contents output.now.old.now) (O.contents mask.now) }
    requires computed { AreAlike (O.contents output.now.old.now) (O.contents computed) }
    requires domain { (O.contents computed).domain ≡ (O.contents output.now.old.now).domain }
    requires known { output.now.inside ≡ true → LieInside O.order (Some (O.contents mask.now).entries) output.now.descriptor (O.contents computed).entries }
    ensures { IfOk result (λ new. IsLike (O.contents output.now.old.now) (written_by O.order (Some (O.contents mask.now).entries) (Some op) output.now.descriptor (O.contents output.now.old.now).entries (O.contents computed).entries) (O.contents new)) }
{
    if output.descriptor.replace {
        let made = combine(output, op, computed)?;
        let replaced = inside_of(output, mask, &made)?;
        return Ok(replaced);
    }
    let inside = enter(output, mask, computed)?;
    let new = combine(output, op, inside)?;
    Ok(new)
}

/// The new output by the accumulator, if there is one, and then by a mask. `AllocError` where memory is refused; then `computed` is
/// dropped, and the old output is as before.
fn write_by_mask<O: SparseObject>(
    output: &Output<O>,
    mask: &O,
    computed: O,
) -> Result<O, AllocError>
    requires accum { AccumulatesIn (O.contents output.now.old.now).domain output.now.accum }
    requires mask { AreAlike (O.contents output.now.old.now) (O.contents mask.now) }
    requires computed { AreAlike (O.contents output.now.old.now) (O.contents computed) }
    requires domain { (O.contents computed).domain ≡ (O.contents output.now.old.now).domain }
    requires known { output.now.inside ≡ true → LieInside O.order (Some (O.contents mask.now).entries) output.now.descriptor (O.contents computed).entries }
    ensures { IfOk result (λ new. IsLike (O.contents output.now.old.now) (written_by O.order (Some (O.contents mask.now).entries) output.now.accum output.now.descriptor (O.contents output.now.old.now).entries (O.contents computed).entries) (O.contents new)) }
{
    match output.accum {
        None => {
            let inside = enter(output, mask, computed)?;
            let new = with_outside(output, mask, inside)?;
            Ok(new)
        }
        Some(op) => {
            let new = accumulate_by_mask(output, op, mask, computed)?;
            Ok(new)
        }
    }
}

/// What the accumulator makes of the old output and what was computed; without one that is what was computed itself. `AllocError` where
/// memory is refused; then `computed` is dropped.
fn accumulate<O: SparseObject>(output: &Output<O>, computed: O) -> Result<O, AllocError>
    requires accum { AccumulatesIn (O.contents output.now.old.now).domain output.now.accum }
    requires computed { AreAlike (O.contents output.now.old.now) (O.contents computed) }
    requires domain { (O.contents computed).domain ≡ (O.contents output.now.old.now).domain }
    ensures { IfOk result (λ made. IsLike (O.contents output.now.old.now) (accumulated O.order output.now.accum (O.contents output.now.old.now).entries (O.contents computed).entries) (O.contents made)) }
{
    match output.accum {
        None => Ok(computed),
        Some(op) => {
            let made = combine(output, op, computed)?;
            Ok(made)
        }
    }
}

/// The new output where there is no mask: all is inside, or with the complement nothing. `AllocError` where memory is refused; then
/// `computed` is dropped, and the old output is as before.
fn write_unmasked<O: SparseObject>(output: &Output<O>, computed: O) -> Result<O, AllocError>
    requires accum { AccumulatesIn (O.contents output.now.old.now).domain output.now.accum }
    requires computed { AreAlike (O.contents output.now.old.now) (O.contents computed) }
    requires domain { (O.contents computed).domain ≡ (O.contents output.now.old.now).domain }
    ensures { IfOk result (λ new. IsLike (O.contents output.now.old.now) (written_by O.order None output.now.accum output.now.descriptor (O.contents output.now.old.now).entries (O.contents computed).entries) (O.contents new)) }
{
    // What was computed is in order, as every object is.
    computed.stores();
    let descriptor = output.descriptor;
    if !descriptor.comp {
        let made = accumulate(output, computed)?;
        return Ok(made);
    }
    if descriptor.replace {
        return Ok(output.old.emptied(output.alloc));
    }
    let same = output.old.copied()?;
    Ok(same)
}

/// The new output of an operation that computed `computed`. `AllocError` where memory is refused; then `computed` is dropped.
fn write<O: SparseObject>(
    output: &Output<O>,
    mask: Option<&O>,
    computed: O,
) -> Result<O, AllocError>
    requires accum { AccumulatesIn (O.contents output.now.old.now).domain output.now.accum }
    requires mask { IfSome mask (λ m. AreAlike (O.contents output.now.old.now) (O.contents m.now)) }
    requires computed { AreAlike (O.contents output.now.old.now) (O.contents computed) }
    requires domain { (O.contents computed).domain ≡ (O.contents output.now.old.now).domain }
    requires known { output.now.inside ≡ true → LieInside O.order (option_map (λ m. (O.contents m.now).entries) mask) output.now.descriptor (O.contents computed).entries }
    ensures { IfOk result (λ new. IsLike (O.contents output.now.old.now) (written_by O.order (option_map (λ m. (O.contents m.now).entries) mask.entry) output.now.accum output.now.descriptor (O.contents output.now.old.now).entries (O.contents computed).entries) (O.contents new)) }
{
    match mask {
        None => write_unmasked(output, computed),
        Some(mask) => write_by_mask(output, mask, computed),
    }
}

/// The new output of an operation that computed `computed`: inside the mask what the accumulator makes of the old output and what was
/// computed, outside it what the old output has, or with replace nothing. `AllocError` where memory is refused; then nothing is made, and
/// `output` is as before.
///
/// - `output`: the old output, which is read.
/// - `mask`: which indices may be written, read as `descriptor` says; `None` for all, or with `comp` for none.
/// - `accum`: combines the old value and the computed one where both are there; `None` for the computed one alone.
/// - `descriptor`: how the mask is read, whether what lies outside of it is removed.
/// - `computed`: what the operation made; it is dropped where memory is refused.
///
/// All are of one domain, the mask aside, and of one size. Without a mask and an accumulator the answer is `computed` itself. Else time
/// and memory are in proportion to the stored entries of the three.
///
/// Source: GraphBLAS C API 2.0, "Masks", "Descriptors", and the accumulator in each operation. That the complement of no mask has no
/// index inside is our own.
pub fn write_masked_vector(
    alloc: Global,
    output: &SparseVector,
    mask: Option<&SparseVector>,
    accum: Option<BinaryOp>,
    descriptor: Descriptor,
    computed: SparseVector,
) -> Result<SparseVector, AllocError>
    requires output { IsVectorOutput output.now mask accum }
    requires computed { IsVectorInput output.now.vector.domain output.now.vector.size computed }
    ensures vector { IfOk result (λ made. made.vector ≡ written_into_vector output.now mask.entry accum descriptor
        computed.vector.entries) }
    ensures assembled { IfOk result (λ made. made.assembled ≡ true) }
{
    let output = Output {
        alloc,
        old: output,
        accum,
        descriptor,
        inside: false,
    };
    let new = write(&output, mask, computed)?;
    Ok(new)
}

/// The same where all that was computed lies inside of the mask: it is not masked again. `AllocError` where memory is refused; then nothing
/// is made, and `output` is as before.
///
/// - `output`: the old output, which is read.
/// - `mask`: which indices may be written, read as `descriptor` says; `None` for all, or with `comp` for none.
/// - `accum`: combines the old value and the computed one where both are there; `None` for the computed one alone.
/// - `descriptor`: how the mask is read, whether what lies outside of it is removed.
/// - `computed`: what the operation made, nothing of it outside of the mask; it is dropped where memory is refused.
///
/// All are of one domain, the mask aside, and of one size. Without an accumulator the answer is `computed` itself, where there is no mask,
/// the descriptor says `replace`, or `output` stores nothing. Else time and memory are in proportion to the stored entries of the three.
///
/// Source: GraphBLAS C API 2.0, as `write_masked_vector`.
pub fn write_inside_vector(
    alloc: Global,
    output: &SparseVector,
    mask: Option<&SparseVector>,
    accum: Option<BinaryOp>,
    descriptor: Descriptor,
    computed: SparseVector,
) -> Result<SparseVector, AllocError>
    requires output { IsVectorOutput output.now mask accum }
    requires computed { IsVectorInput output.now.vector.domain output.now.vector.size computed }
    requires inside { LieInside nat_cmp (option_map (λ m. m.now.vector.entries) mask) descriptor computed.vector.entries }
    ensures vector { IfOk result (λ made. made.vector ≡ written_into_vector output.now mask.entry accum descriptor
        computed.vector.entries) }
    ensures assembled { IfOk result (λ made. made.assembled ≡ true) }
{
    let output = Output {
        alloc,
        old: output,
        accum,
        descriptor,
        inside: true,
    };
    let new = write(&output, mask, computed)?;
    Ok(new)
}

/// The new output of an operation that computed `computed`: inside the mask what the accumulator makes of the old output and what was
/// computed, outside it what the old output has, or with replace nothing. `AllocError` where memory is refused; then nothing is made, and
/// `output` is as before.
///
/// - `output`: the old output, which is read.
/// - `mask`: which cells may be written, read as `descriptor` says; `None` for all, or with `comp` for none.
/// - `accum`: combines the old value and the computed one where both are there; `None` for the computed one alone.
/// - `descriptor`: how the mask is read, whether what lies outside of it is removed.
/// - `computed`: what the operation made; it is dropped where memory is refused.
///
/// All are of one domain, the mask aside, and of the same dimensions. Without a mask and an accumulator the answer is `computed`
/// itself. Else time and memory are in proportion to the stored entries of the three.
///
/// Source: GraphBLAS C API 2.0, "Masks", "Descriptors", and the accumulator in each operation. That the complement of no mask has no
/// cell inside is our own.
pub fn write_masked_matrix(
    alloc: Global,
    output: &SparseMatrix,
    mask: Option<&SparseMatrix>,
    accum: Option<BinaryOp>,
    descriptor: Descriptor,
    computed: SparseMatrix,
) -> Result<SparseMatrix, AllocError>
    requires output { IsMatrixOutput output.now mask accum }
    requires computed { IsMatrixInput false output.now.matrix.domain output.now.matrix.nrows output.now.matrix.ncols computed }
    ensures matrix { IfOk result (λ made. made.matrix ≡ written_into_matrix output.now mask.entry accum descriptor
        computed.matrix.entries) }
    ensures assembled { IfOk result (λ made. made.assembled ≡ true) }
{
    let output = Output {
        alloc,
        old: output,
        accum,
        descriptor,
        inside: false,
    };
    let new = write(&output, mask, computed)?;
    Ok(new)
}

/// The same where all that was computed lies inside of the mask: it is not masked again. `AllocError` where memory is refused; then nothing
/// is made, and `output` is as before.
///
/// - `output`: the old output, which is read.
/// - `mask`: which cells may be written, read as `descriptor` says; `None` for all, or with `comp` for none.
/// - `accum`: combines the old value and the computed one where both are there; `None` for the computed one alone.
/// - `descriptor`: how the mask is read, whether what lies outside of it is removed.
/// - `computed`: what the operation made, nothing of it outside of the mask; it is dropped where memory is refused.
///
/// All are of one domain, the mask aside, and of the same dimensions. Without an accumulator the answer is `computed` itself, where there
/// is no mask, the descriptor says `replace`, or `output` stores nothing. Else time and memory are in proportion to the stored entries of
/// the three.
///
/// Source: GraphBLAS C API 2.0, as `write_masked_matrix`.
pub fn write_inside_matrix(
    alloc: Global,
    output: &SparseMatrix,
    mask: Option<&SparseMatrix>,
    accum: Option<BinaryOp>,
    descriptor: Descriptor,
    computed: SparseMatrix,
) -> Result<SparseMatrix, AllocError>
    requires output { IsMatrixOutput output.now mask accum }
    requires computed { IsMatrixInput false output.now.matrix.domain output.now.matrix.nrows output.now.matrix.ncols computed }
    requires inside { LieInside cell_cmp (option_map (λ m. m.now.matrix.entries) mask) descriptor computed.matrix.entries }
    ensures matrix { IfOk result (λ made. made.matrix ≡ written_into_matrix output.now mask.entry accum descriptor
        computed.matrix.entries) }
    ensures assembled { IfOk result (λ made. made.assembled ≡ true) }
{
    let output = Output {
        alloc,
        old: output,
        accum,
        descriptor,
        inside: true,
    };
    let new = write(&output, mask, computed)?;
    Ok(new)
}
