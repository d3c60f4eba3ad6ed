//! What a product is made of, as those share it that make it together.
ghost use Rattle.std.specs.Prelude.{◌≡◌, ℕ, ◌<◌, true, All, IsTrue, IfOk, IfSome};
ghost use Rattle.std.specs.Option.{option_map};
ghost use Rattle.std.specs.FinMap.{is_sorted};
ghost use Rattle.grb_core.specs.Contents.{IsMatrix};
ghost use Rattle.grb_core.specs.Entries.{cell_cmp};
ghost use Rattle.grb_lists.specs.Cells.{decoded};
ghost use Rattle.grb_jobs.specs.Blocks.{IsReady, whole_of};

use grb_core::Semiring;
use grb_lists::FlatRows;
use grb_sparse::SparseMatrix;
use std::alloc::AllocError;
use std::marker::Model;

/// What a product is made of: a semiring, the mask that bounds it, if there is one, and whether that is read by structure; and two matrices
/// as they are read, not transposed.
#[derive(Drop)]
pub(crate) struct Inputs {
    pub(crate) semiring: Semiring,
    pub(crate) structure: bool,
    pub(crate) mask: Option<SparseMatrix>,
    pub(crate) first: SparseMatrix,
    pub(crate) second: SparseMatrix,
}

impl Model for Inputs {
    ghost use Rattle.std.specs.Option.{option_map};
    ghost use Rattle.grb_jobs.specs.Blocks.{IsReady, Product};

    ghost Value = { Product };

    ghost invariant = { λ i. IsReady i.semiring i.mask i.first i.second };

    ghost view = { λ i. record { semiring = i.semiring; structure = i.structure; mask = option_map (λ m. m.matrix.entries) i.mask; domain = i.first.matrix.domain; nrows = i.first.matrix.nrows; ncols = i.second.matrix.ncols; first = i.first.matrix.entries; second = i.second.matrix.entries } };
}

/// The same mask once more, if there is one. `AllocError` where memory is refused; then nothing is made.
fn share_mask(mask: Option<&SparseMatrix>) -> Result<Option<SparseMatrix>, AllocError>
    ensures matrix { IfOk result (λ copy. option_map (λ m. m.matrix) copy ≡ option_map (λ m. m.now.matrix) mask.entry) }
    ensures assembled { IfSome mask.entry (λ m. m.now.assembled ≡ true) → IfOk result (λ copy. IfSome copy (λ m. m.assembled ≡ true)) }
{
    match mask {
        Some(mask) => {
            let copy = mask.try_clone()?;
            Ok(Some(copy))
        }
        None => Ok(None),
    }
}

/// Whether two semirings are the same.
fn is_same_semiring(a: Semiring, b: Semiring) -> bool
    ensures { result ≡ true → a ≡ b }
{
    if a.monoid() != b.monoid() {
        return false;
    }
    a.op() == b.op()
}

/// Whether two masks are the same, where they are assembled; two that are not there are.
fn is_same_mask(a: &Option<SparseMatrix>, b: &Option<SparseMatrix>) -> bool
    requires a { IfSome a.now (λ m. m.assembled ≡ true) }
    requires b { IfSome b.now (λ m. m.assembled ≡ true) }
    ensures { result ≡ true → option_map (λ m. m.matrix.entries) a.now ≡ option_map (λ m. m.matrix.entries) b.now }
{
    match (a, b) {
        (Some(a), Some(b)) => a.is_same(b),
        (None, None) => true,
        _ => false,
    }
}

/// The flat lists of a mask, if there is one.
fn lists_of(mask: &Option<SparseMatrix>) -> Option<&FlatRows>
    requires { IfSome mask.now (λ m. m.assembled ≡ true) }
    ensures ordered { IfSome result (λ m. IsTrue (is_sorted cell_cmp (decoded m.now.entries))) }
    ensures in_range { (n : ℕ) → IfSome mask.now (λ m. m.matrix.ncols ≡ n) → IfSome result (λ m. All (λ e. e.0.1 < n) (decoded m.now.entries)) }
    ensures entries { option_map (λ m. decoded m.now.entries) result ≡ option_map (λ m. m.matrix.entries) mask.now }
{
    match mask {
        Some(mask) => Some(mask.lists()),
        None => None,
    }
}

impl Inputs {
    /// What a product is made of, which is shared from now on: no entry is copied of a matrix whose copies share entries. `AllocError` where
    /// memory is refused; then nothing is made.
    pub(crate) fn of(
        semiring: Semiring,
        structure: bool,
        mask: Option<&SparseMatrix>,
        first: &SparseMatrix,
        second: &SparseMatrix,
    ) -> Result<Inputs, AllocError>
        requires { IsReady semiring (option_map (λ m. m.now) mask) first.now second.now }
        ensures { IfOk result (λ inputs. inputs ≡ record { semiring = semiring; structure = structure; mask = option_map (λ m. m.now.matrix.entries) mask.entry; domain = first.now.matrix.domain; nrows = first.now.matrix.nrows; ncols = second.now.matrix.ncols; first = first.now.matrix.entries; second = second.now.matrix.entries }) }
    {
        let mask = share_mask(mask)?;
        let first = first.try_clone()?;
        let second = second.try_clone()?;
        Ok(Inputs {
            semiring,
            structure,
            mask,
            first,
            second,
        })
    }

    /// Whether both are the same product: of the same matrices, as they are stored, by the same semiring, and bounded by the same mask.
    pub(crate) fn is_same(&self, other: &Inputs) -> bool
        ensures { result ≡ true → self.now ≡ other.now }
    {
        if !is_same_semiring(self.semiring, other.semiring) {
            return false;
        }
        if self.structure != other.structure {
            return false;
        }
        if !is_same_mask(&self.mask, &other.mask) {
            return false;
        }
        if !self.first.is_same(&other.first) {
            return false;
        }
        self.second.is_same(&other.second)
    }

    /// The flat lists of the mask that bounds the product, if there is one.
    pub(crate) fn bound(&self) -> Option<&FlatRows>
        ensures ordered { IfSome result (λ m. IsTrue (is_sorted cell_cmp (decoded m.now.entries))) }
        ensures in_range { IfSome result (λ m. All (λ e. e.0.1 < self.now.ncols) (decoded m.now.entries)) }
        ensures entries { option_map (λ m. decoded m.now.entries) result ≡ self.now.mask }
    {
        lists_of(&self.mask)
    }

    /// The number of rows and the number of columns of the product. The clause `whole` says what holds of every product.
    pub(crate) fn dims(&self) -> (u64, u64)
        ensures dims { result ≡ (self.now.nrows, self.now.ncols) }
        ensures whole { IsMatrix (whole_of self.now) }
    {
        let _domain = self.semiring.domain();
        let (nrows, _inner) = self.first.dims();
        let (_inner, ncols) = self.second.dims();
        (nrows, ncols)
    }
}
