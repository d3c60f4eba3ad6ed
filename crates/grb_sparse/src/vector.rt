//! Sparse vectors.
ghost use Rattle.std.specs.Prelude.{◌≡◌, ◌+◌, ◌-◌, ◌<◌, ◌≤◌, ◌^◌, [], true, false, if◌then◌else◌, map, All, OnOk, OnErr, IsOk, IfOk};
ghost use Rattle.std.specs.Ordering.{nat_cmp};
ghost use Rattle.std.specs.FinMap.{find, put};
ghost use Rattle.grb_core.specs.Value.{value_domain};
ghost use Rattle.grb_core.specs.Entries.{nvals_of, values_of, without_entry, built_from};
ghost use Rattle.grb_core.specs.Monoid.{monoid_domain};
ghost use Rattle.grb_core.specs.Contents.{IsDimension, IsVector, edited_vector, resized_vector};
ghost use Rattle.grb_rows.specs.Pending.{changed};
ghost use Rattle.grb_sparse.specs.Vector.{settled_vector};

use crate::iter::EntriesByIndex;
use crate::{apart, tuples};
use grb_core::{Domain, Monoid, Value};
use grb_rows::{ApartTuples, FlatRows, Held, Layers};
use std::alloc::{AllocError, Global};
use std::marker::Model;

/// A sparse vector: a domain, a size from 1 to 4,294,967,295, and the stored entries, each at an index from 0 on.
///
/// It keeps its allocator. `reserved` is how many more calls of `set` and `remove` it holds memory for, `assembled` whether no
/// such change waits to be put in order, and `pending` how many pending tuples and pending removals were added since it was last assembled.
///
/// Source: GraphBLAS C API 2.0, "Vectors".
pub struct SparseVector {
    pub(crate) size: u64,
    /// What is stored, where the number of a cell is its index.
    pub(crate) held: Held,
}

/// One call drops all lists, in place of one for each wherever a vector goes.
impl Drop for SparseVector {
    fn drop(self) {
        let SparseVector { size: _, held: _ } = self;
    }
}

impl Model for SparseVector {
    ghost use Rattle.grb_core.specs.Contents.{IsVector};
    ghost use Rattle.grb_sparse.specs.Vector.{SparseVectorView, vector_of};

    ghost Value = { SparseVectorView };

    ghost view = { λ v. record { vector = vector_of v.size v.held; assembled = v.held.assembled; reserved = v.held.reserved; pending = v.held.pending } };

    ghost invariant = { λ v. IsVector (vector_of v.size v.held) };
}

impl SparseVector {
    /// A vector of `size` that stores nothing, with indices from 0 to `size` - 1. Takes no memory.
    ///
    /// Source: GraphBLAS C API 2.0, `GrB_Vector_new`.
    pub fn new(alloc: Global, domain: Domain, size: u64) -> SparseVector
        requires dimension { IsDimension size }
        ensures { result ≡ settled_vector domain size [] }
    {
        SparseVector {
            size,
            held: Held::new(alloc, domain),
        }
    }

    /// The domain of the values that it stores. Takes no memory.
    pub fn domain(&self) -> Domain
        ensures { result ≡ self.now.vector.domain }
    {
        self.held.domain()
    }

    /// The size. The clause `whole` says what holds of every vector. Takes no memory.
    ///
    /// Source: GraphBLAS C API 2.0, `GrB_Vector_size`.
    pub fn dims(&self) -> u64
        ensures size { result ≡ self.now.vector.size }
        ensures whole { IsVector self.now.vector }
    {
        self.size
    }

    /// Whether no change waits to be put in order. Takes no memory.
    pub fn is_assembled(&self) -> bool
        ensures { result ≡ self.now.assembled }
    {
        self.held.is_assembled()
    }

    /// The number of stored entries. Takes no memory.
    ///
    /// Source: GraphBLAS C API 2.0, `GrB_Vector_nvals`.
    pub fn nvals(&self) -> u64
        ensures { result ≡ nvals_of self.now.vector.entries }
    {
        self.held.nvals()
    }

    /// The value stored at `index`, if there is one; at an index that is not below the size there is none. Takes no memory.
    ///
    /// Source: GraphBLAS C API 2.0, `GrB_Vector_extractElement`.
    pub fn get(&self, index: u64) -> Option<Value>
        ensures { result ≡ find nat_cmp index self.now.vector.entries }
    {
        self.held.get(index)
    }

    /// Makes places for `n` calls of `set` or `remove` from now on, in place of those made before. `AllocError` where memory is
    /// refused, and then nothing changes.
    ///
    /// It makes room for as many pending tuples and removals. Room grows by std's amortized `reserve`, so that `reserve_pending(1)`
    /// before each of n calls of `set` copies O(n) of them in all.
    ///
    /// Source: own.
    pub fn reserve_pending(&mut self, n: u64) -> Result<(), AllocError>
        ensures vector { self.new.vector ≡ self.old.vector }
        ensures assembled { self.new.assembled ≡ self.old.assembled }
        ensures ok { OnOk result (self.new.reserved ≡ n) }
        ensures pending { self.new.pending ≡ self.old.pending }
        ensures err { OnErr result (self.new ≡ self.old) }
    {
        self.held.reserve_pending(n)
    }

    /// How many pending tuples and pending removals were added since it was last assembled: changes at places that stored nothing
    /// then. Takes no memory.
    ///
    /// Source: own.
    pub fn pending(&self) -> u64
        ensures pending { result ≡ self.now.pending }
        ensures assembled { self.now.assembled ≡ true → result ≡ 0 }
    {
        self.held.pending()
    }

    /// The indices of the stored entries, in rising order: of an assembled vector alone. Nothing is copied.
    ///
    /// Source: own.
    pub fn indices(&self) -> &[u32]
        requires assembled { self.now.assembled ≡ true }
        ensures indices { result.now ≡ map (λ e. e.0) self.now.vector.entries }
        ensures below { All (λ i. i < self.now.vector.size) result.now }
        ensures whole { IsVector self.now.vector }
    {
        self.held.rows().columns()
    }

    /// The stored entries as flat lists, the row 0 alone: of an assembled vector alone. Nothing is copied.
    ///
    /// Source: own.
    pub fn lists(&self) -> &FlatRows
        requires assembled { self.now.assembled ≡ true }
        ensures entries { result.now.entries ≡ self.now.vector.entries }
        ensures domain { result.now.domain ≡ self.now.vector.domain }
    {
        self.held.rows()
    }

    /// Whether both are the same vector, as [`SparseMatrix::is_same`](crate::SparseMatrix::is_same) has it of matrices. Takes no memory.
    ///
    /// Source: own.
    pub fn is_same(&self, other: &SparseVector) -> bool
        requires assembled { self.now.assembled ≡ true }
        requires other { other.now.assembled ≡ true }
        ensures { result ≡ true → self.now.vector ≡ other.now.vector }
    {
        if self.size != other.size {
            return false;
        }
        if self.domain() != other.domain() {
            return false;
        }
        self.nvals() == other.nvals() && self.lists().is_same(other.lists())
    }

    /// The stored values of a vector of the domain `Bool`, in the order of their indices: of an assembled vector alone. Nothing is copied.
    ///
    /// Source: own.
    pub fn bools(&self) -> &[bool]
        requires assembled { self.now.assembled ≡ true }
        requires domain { self.now.vector.domain ≡ Domain.Bool }
        ensures { map (λ b. Value.Bool b) result.now ≡ values_of self.now.vector.entries }
    {
        self.held.rows().bools()
    }

    /// The stored values of a vector of the domain `Uint64`, in the order of their indices: of an assembled vector alone. Nothing is
    /// copied.
    ///
    /// Source: own.
    pub fn numbers(&self) -> &[u64]
        requires assembled { self.now.assembled ≡ true }
        requires domain { self.now.vector.domain ≡ Domain.Uint64 }
        ensures { map (λ n. Value.Uint64 n) result.now ≡ values_of self.now.vector.entries }
    {
        self.held.rows().numbers()
    }

    /// Stores `value` at `index`, in place of what was stored there.
    /// Takes no memory, and uses up one reserved place.
    ///
    /// Source: GraphBLAS C API 2.0, `GrB_Vector_setElement`.
    pub fn set(&mut self, index: u64, value: Value)
        requires in_range { index < self.old.vector.size }
        requires same_domain { value_domain value ≡ self.old.vector.domain }
        requires reserved { 0 < self.old.reserved }
        ensures vector { self.new.vector ≡ edited_vector (put nat_cmp index value) self.old.vector }
        ensures assembled { self.new.assembled ≡ false }
        ensures reserved { self.new.reserved + 1 ≡ self.old.reserved }
        ensures not_fewer { self.old.pending ≤ self.new.pending }
        ensures one_more { self.new.pending ≤ self.old.pending + 1 }
    {
        tuples::read(value);
        self.held.set(index, value);
    }

    /// Takes away the entry at `index`, if there is one. Where there is none, no pending removal is added.
    /// Takes no memory, and uses up one reserved place.
    ///
    /// Source: GraphBLAS C API 2.0, `GrB_Vector_removeElement`.
    pub fn remove(&mut self, index: u64)
        requires in_range { index < self.old.vector.size }
        requires reserved { 0 < self.old.reserved }
        ensures vector { self.new.vector ≡ edited_vector (without_entry nat_cmp index) self.old.vector }
        ensures absent { find nat_cmp index self.old.vector.entries ≡ None → self.new.pending ≡ self.old.pending }
        ensures assembled { self.new.assembled ≡ false }
        ensures reserved { self.new.reserved + 1 ≡ self.old.reserved }
        ensures not_fewer { self.old.pending ≤ self.new.pending }
        ensures one_more { self.new.pending ≤ self.old.pending + 1 }
    {
        self.held.remove(index);
    }

    /// Takes away all entries and reserved places. Takes no memory.
    ///
    /// Source: GraphBLAS C API 2.0, `GrB_Vector_clear`.
    pub fn clear(&mut self)
        ensures vector { self.new.vector ≡ edited_vector (λ _. []) self.old.vector }
        ensures assembled { self.new.assembled ≡ true }
        ensures reserved { self.new.reserved ≡ 0 }
        ensures pending { self.new.pending ≡ 0 }
    {
        self.held.clear();
    }

    /// Gives it another size. Entries at indices that are not below the new size are gone for good. `AllocError` where memory is
    /// refused, and then nothing changes.
    ///
    /// Source: GraphBLAS C API 2.0, `GrB_Vector_resize`.
    pub fn resize(&mut self, size: u64) -> Result<(), AllocError>
        requires dimension { IsDimension size }
        ensures vector { OnOk result (self.new.vector ≡ resized_vector size self.old.vector) }
        ensures assembled { OnOk result (self.new.assembled ≡ self.old.assembled) }
        ensures reserved { OnOk result (self.new.reserved ≡ 0) }
        ensures pending { OnOk result (self.new.pending ≡ 0) }
        ensures err { OnErr result (self.new ≡ self.old) }
    {
        self.held.resize(1, size)?;
        self.size = size;
        Ok(())
    }

    /// A vector of its own with the same entries and no reserved places. `AllocError` where memory is refused; then nothing is made.
    ///
    /// Source: GraphBLAS C API 2.0, `GrB_Vector_dup`.
    pub fn try_clone(&self) -> Result<SparseVector, AllocError>
        ensures vector { IfOk result (λ copy. copy.vector ≡ self.now.vector) }
        ensures assembled { IfOk result (λ copy. copy.assembled ≡ self.now.assembled) }
        ensures reserved { IfOk result (λ copy. copy.reserved ≡ 0) }
        ensures pending { IfOk result (λ copy. copy.pending ≡ 0) }
    {
        let held = self.held.try_clone()?;
        Ok(SparseVector {
            size: self.size,
            held,
        })
    }

    /// A vector with the same entries and the same changes that wait, and with no reserved places: one to change in place of this one. The
    /// entries that were assembled last are shared, if `make_shareable`, `build` or `assemble` let copies share them, and only the changes
    /// are copied. `AllocError` where memory is refused; then nothing is made.
    ///
    /// Source: own.
    pub fn try_share(&self) -> Result<SparseVector, AllocError>
        ensures vector { IfOk result (λ copy. copy.vector ≡ self.now.vector) }
        ensures assembled { IfOk result (λ copy. copy.assembled ≡ self.now.assembled) }
        ensures reserved { IfOk result (λ copy. copy.reserved ≡ 0) }
        ensures pending { IfOk result (λ copy. copy.pending ≡ self.now.pending) }
    {
        let held = self.held.try_share()?;
        Ok(SparseVector {
            size: self.size,
            held,
        })
    }

    /// What is stored, as the entries that were assembled last and the changes over them: nothing is copied, and it takes no
    /// memory.
    ///
    /// Source: own.
    pub fn layers(&self) -> Layers<'_>
        ensures entries { changed result.base.now.entries result.changes.now.entries ≡ self.now.vector.entries }
        ensures domain { result.base.now.domain ≡ self.now.vector.domain }
    {
        self.held.layers()
    }

    /// Lets copies share the entries that were assembled last, from now on; fewer than 64 are as cheap to copy, and stay as they are. It
    /// takes little memory, and none again; where that is refused, copies have entries of their own.
    ///
    /// Source: own.
    pub fn make_shareable(&mut self)
        ensures { self.new ≡ self.old }
    {
        self.held.make_shareable();
    }

    /// Stores the tuples of an index and a value in a vector that stores nothing; the values of one index are combined by `dup`.
    /// `AllocError` where memory is refused, and then nothing changes. It sorts a copy of the tuples, unless they are in order.
    ///
    /// Source: GraphBLAS C API 2.0, `GrB_Vector_build`.
    pub fn build(&mut self, tuples: &[(u64, Value)], dup: Monoid) -> Result<(), AllocError>
        requires empty { self.old.vector.entries ≡ [] }
        requires in_range { All (λ e. e.0 < self.old.vector.size) tuples.now }
        requires same_domain { monoid_domain dup ≡ self.old.vector.domain }
        requires tuples_domain { All (λ e. value_domain e.1 ≡ self.old.vector.domain) tuples.now }
        ensures vector { OnOk result (self.new.vector ≡ edited_vector (λ _. built_from nat_cmp dup tuples.now) self.old.vector) }
        ensures assembled { OnOk result (self.new.assembled ≡ true) }
        ensures reserved { OnOk result (self.new.reserved ≡ 0) }
        ensures pending { OnOk result (self.new.pending ≡ 0) }
        ensures err { OnErr result (self.new ≡ self.old) }
    {
        let alloc = self.held.allocator();
        let built = tuples::build(alloc, tuples, dup)?;
        self.held = Held::shareable(alloc, built, true);
        Ok(())
    }

    /// The same of tuples whose indices and values lie apart. It sorts one number for each tuple, unless they are in order.
    ///
    /// Source: GraphBLAS C API 2.0, `GrB_Vector_build`.
    pub fn build_apart(&mut self, list: &ApartTuples, dup: Monoid) -> Result<(), AllocError>
        requires empty { self.old.vector.entries ≡ [] }
        requires in_range { All (λ e. e.0 < self.old.vector.size) list.now }
        requires same_domain { monoid_domain dup ≡ self.old.vector.domain }
        requires tuples_domain { All (λ e. value_domain e.1 ≡ self.old.vector.domain) list.now }
        ensures vector { OnOk result (self.new.vector ≡ edited_vector (λ _. built_from nat_cmp dup list.now) self.old.vector) }
        ensures assembled { OnOk result (self.new.assembled ≡ true) }
        ensures reserved { OnOk result (self.new.reserved ≡ 0) }
        ensures pending { OnOk result (self.new.pending ≡ 0) }
        ensures err { OnErr result (self.new ≡ self.old) }
    {
        let alloc = self.held.allocator();
        let built = apart::build(alloc, list, dup)?;
        self.held = Held::shareable(alloc, built, true);
        Ok(())
    }

    /// Stores the entries of the other vector in place of its own; the size stays. They are shared, as [`SparseVector::try_share`] shares
    /// them. `AllocError` where memory is refused, and then nothing changes.
    ///
    /// Source: own.
    pub fn share_entries(&mut self, other: &SparseVector) -> Result<(), AllocError>
        requires in_range { All (λ e. e.0 < self.old.vector.size) other.now.vector.entries }
        requires same_domain { other.now.vector.domain ≡ self.old.vector.domain }
        ensures vector { OnOk result (self.new.vector ≡ edited_vector (λ _. other.now.vector.entries) self.old.vector) }
        ensures assembled { OnOk result (self.new.assembled ≡ other.now.assembled) }
        ensures err { OnErr result (self.new ≡ self.old) }
    {
        self.held = other.held.try_share()?;
        Ok(())
    }

    /// Merges the pending tuples and removals with the entries, and gives up the reserved places. `AllocError` where memory is
    /// refused, and then nothing changes. With n entries and p changes it takes time `O(n + p log p)`. Where nothing waits it does
    /// none of this and takes no memory.
    ///
    /// Source: GraphBLAS C API 2.0, `GrB_wait`.
    pub fn assemble(&mut self) -> Result<(), AllocError>
        ensures vector { OnOk result (self.new.vector ≡ self.old.vector) }
        ensures assembled { OnOk result (self.new.assembled ≡ true) }
        ensures reserved { OnOk result (self.new.reserved ≡ 0) }
        ensures pending { OnOk result (self.new.pending ≡ 0) }
        ensures done { self.old.assembled ≡ true → IsOk result }
        ensures err { OnErr result (self.new ≡ self.old) }
    {
        self.held.assemble()
    }

    /// The stored entries, in rising order of their indices. Takes no memory.
    ///
    /// Source: GraphBLAS C API 2.0, `GrB_Vector_extractTuples`.
    pub fn entries(&self) -> EntriesByIndex<'_>
        requires assembled { self.now.assembled ≡ true }
        ensures entries { result ≡ self.now.vector.entries }
        ensures whole { IsVector self.now.vector }
    {
        EntriesByIndex::over(self.held.rows())
    }
}
