//! What a user of stored entries, builds, folds, masks and results relies on. Each function has a law as its contract, and does nothing.
ghost use Rattle.std.specs.Prelude.{ℕ};
ghost use Rattle.std.specs.Ordering.{nat_cmp};
ghost use Rattle.grb_core.specs.Entries.{cell_cmp};
ghost use Rattle.grb_core.specs.Laws.{SetThenGet, RemoveThenGet, BuildStoresFolds, BuildIsSets, BuildsInAnyOrder, VectorResizedTwice, MatrixResizedTwice, FoldsInParts, FoldsInAnyOrder};
ghost use Rattle.grb_core.specs.TransposeLaws.{TransposedStores, TransposedTwice, TransposedRows, TransposedColumns, TransposedMakesEntries, TransposedProduct, VxmIsMxvExchanged, VxmIsMxv, VxmMakesEntries, ReducedColumns};
ghost use Rattle.grb_core.specs.ResultLaws.{MonoidsCommute, EwiseInEitherOrder, ComplementParts, WritesInside, LeavesOutside, ClearsOutside, IsBelow, IsCellBelow, EwiseMakesEntries, WrittenMakesEntries, MxvMakesEntries, MxmMakesEntries, ReduceRowsMakesEntries, ReduceMakesValue};

/// A value that was set is what a get gives, and every other place gives what it gave before.
///
/// Source: GraphBLAS C API 2.0, "Vector methods" and "Matrix methods": `GrB_Vector_setElement`, `GrB_Matrix_setElement`.
pub fn set_then_get()
    ensures vectors { SetThenGet nat_cmp }
    ensures matrices { SetThenGet cell_cmp }
{}

/// Where an entry was removed a get gives none, also where there was none before, and every other place gives what it gave.
///
/// Source: GraphBLAS C API 2.0, "Vector methods" and "Matrix methods": `GrB_Vector_removeElement`, `GrB_Matrix_removeElement`.
pub fn remove_then_get()
    ensures vectors { RemoveThenGet nat_cmp }
    ensures matrices { RemoveThenGet cell_cmp }
{}

/// A build stores at each place of its list what `dup` makes of the values that the list has there, and nothing elsewhere.
///
/// Source: GraphBLAS C API 2.0, "Vector methods" and "Matrix methods": `GrB_Vector_build`, `GrB_Matrix_build`.
pub fn build_stores_folds()
    ensures vectors { BuildStoresFolds nat_cmp }
    ensures matrices { BuildStoresFolds cell_cmp }
{}

/// Where no place stands twice in its list, a build stores what one set for each tuple stores in an empty object. The values are of
/// the domain of `dup`.
///
/// Source: GraphBLAS C API 2.0, "Vector methods" and "Matrix methods": `GrB_Vector_build`, `GrB_Matrix_build`.
pub fn build_is_sets()
    ensures vectors { BuildIsSets nat_cmp }
    ensures matrices { BuildIsSets cell_cmp }
{}

/// The order of the tuples of a build does not matter, since `dup` is associative and commutative on the values of its domain.
///
/// Source: GraphBLAS C API 2.0, "Vector methods" and "Matrix methods": `GrB_Vector_build`, `GrB_Matrix_build`.
pub fn builds_in_any_order()
    ensures vectors { BuildsInAnyOrder nat_cmp }
    ensures matrices { BuildsInAnyOrder cell_cmp }
{}

/// What is resized twice stores at the places inside both sizes what it stored, and nothing elsewhere: an entry that a smaller size
/// cut off does not come back with a bigger one.
///
/// Source: GraphBLAS C API 2.0, "Vector methods" and "Matrix methods": `GrB_Vector_resize`, `GrB_Matrix_resize`.
pub fn resize_twice()
    ensures vectors { VectorResizedTwice }
    ensures matrices { MatrixResizedTwice }
{}

/// The fold of a list of values of the monoid's domain does not depend on how the list is parted, nor on its order.
///
/// Source: GraphBLAS C API 2.0, "Monoids".
pub fn folds_in_any_order()
    ensures parts { FoldsInParts }
    ensures orders { FoldsInAnyOrder }
{}

/// eWiseAdd and eWiseMult with an operator that commutes do not depend on which input comes first. The operators of the monoids do
/// commute; First, Second and Minus do not.
///
/// Source: GraphBLAS C API 2.0, "eWiseAdd", "eWiseMult" and "Monoids".
pub fn ewise_in_either_order()
    ensures vectors { EwiseInEitherOrder nat_cmp }
    ensures matrices { EwiseInEitherOrder cell_cmp }
    ensures operators { MonoidsCommute }
{}

/// Each place is either inside a mask or inside its complement, whether the mask is read by value or by structure. Where there is no
/// mask, each place is inside, and none with the complement (own).
///
/// Source: GraphBLAS C API 2.0, "Masks" and "Descriptors".
pub fn complement_parts()
    ensures vectors { ComplementParts nat_cmp }
    ensures matrices { ComplementParts cell_cmp }
{}

/// Inside, an output has what the accumulator made of the old output and the result; outside, the old output stays without replace,
/// and with replace nothing is left.
///
/// Source: GraphBLAS C API 2.0, "Masks" and "Descriptors".
pub fn writes_inside_alone()
    ensures vectors_inside { WritesInside nat_cmp }
    ensures vectors_kept { LeavesOutside nat_cmp }
    ensures vectors_replaced { ClearsOutside nat_cmp }
    ensures matrices_inside { WritesInside cell_cmp }
    ensures matrices_kept { LeavesOutside cell_cmp }
    ensures matrices_replaced { ClearsOutside cell_cmp }
{}

/// What eWiseAdd, eWiseMult and a written output store of entries that are in order, within the dimensions and of one domain is so
/// too.
///
/// Source: GraphBLAS C API 2.0, "Vectors" and "Matrices".
pub fn element_wise_results_are_whole()
    ensures vectors { (size : ℕ) → EwiseMakesEntries nat_cmp (IsBelow size) }
    ensures matrices { (nrows ncols : ℕ) → EwiseMakesEntries cell_cmp (IsCellBelow nrows ncols) }
    ensures written_vectors { (size : ℕ) → WrittenMakesEntries nat_cmp (IsBelow size) }
    ensures written_matrices { (nrows ncols : ℕ) → WrittenMakesEntries cell_cmp (IsCellBelow nrows ncols) }
{}

/// What mxv, mxm and the reductions store of such entries is so too, within the dimensions of their output.
///
/// Source: GraphBLAS C API 2.0, "mxv", "mxm" and "reduce".
pub fn products_and_reductions_are_whole()
    ensures mxv { MxvMakesEntries }
    ensures mxm { MxmMakesEntries }
    ensures rows { ReduceRowsMakesEntries }
    ensures totals { ReduceMakesValue }
{}

/// A transposed matrix stores at row j and column i what the matrix stores at row i and column j. Transposed twice it is the matrix, its
/// rows are the matrix's columns and its columns the rows. The transposed of a product is the product of the transposed in the other order,
/// where multiply commutes. It is in order, within the exchanged dimensions and of the same domain.
///
/// Source: GraphBLAS C API 2.0, "Descriptors": `GrB_TRAN`.
pub fn transposed_exchanges_rows_and_columns()
    ensures stores { TransposedStores }
    ensures twice { TransposedTwice }
    ensures rows { TransposedRows }
    ensures columns { TransposedColumns }
    ensures product { TransposedProduct }
    ensures whole { TransposedMakesEntries }
{}

/// vxm is the product of the transposed matrix and the vector with the arguments of multiply exchanged, so it is mxv of the transposed
/// where multiply commutes, and a reduction of columns where multiply gives its second argument. What it stores is in order, within the
/// matrix's columns and of the semiring's domain.
///
/// Source: GraphBLAS C API 2.0, "vxm".
pub fn vxm_is_a_product_of_the_transposed()
    ensures exchanged { VxmIsMxvExchanged }
    ensures mxv { VxmIsMxv }
    ensures columns { ReducedColumns }
    ensures whole { VxmMakesEntries }
{}
