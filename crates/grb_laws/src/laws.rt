//! What a user relies on of products and reductions. Each function has a law as its contract, and does nothing.
ghost use Rattle.grb_laws.specs.Laws.{DistributiveProductsGroup, IdentityChangesNothing, IdentityIsWhole, MinPlusDoesNotGroup, MonoidsHaveOnes, MxvIsMxm, PredefinedProductsGroup, TotalOfRows};

/// The product of a matrix with an identity matrix, on either side, is the matrix. An identity matrix stores the operator's one at each
/// index of its diagonal, and nothing else; the one changes no value that it multiplies, on either side. The operator of each monoid
/// has the monoid's identity for its one: times has 1, and land has true.
///
/// Source: GraphBLAS C API 2.0, "mxm"; of ones, own.
pub fn an_identity_matrix_changes_nothing()
    ensures products { IdentityChangesNothing }
    ensures whole { IdentityIsWhole }
    ensures ones { MonoidsHaveOnes }
{}

/// Of three matrices the first two may be multiplied first, or the last two: the product is the same, entry for entry, and where the
/// one stores nothing the other stores nothing. It is so by each semiring whose operator is associative, and on both sides distributes
/// over the monoid; among the standard's predefined semirings these are plus.times and lor.land, and the others of the second clause.
/// It is not so by min.plus, since a sum modulo 2^64 may be less than what is summed.
///
/// Source: GraphBLAS C API 2.0, "mxm" and "Semirings"; that it asks for no zero is own, since what is not stored stands for it.
pub fn products_may_be_grouped()
    ensures distributive { DistributiveProductsGroup }
    ensures predefined { PredefinedProductsGroup }
    ensures min_plus { MinPlusDoesNotGroup }
{}

/// The product of a matrix with a vector is that with a matrix of one column, which stores what the vector does.
///
/// Source: GraphBLAS C API 2.0, "mxv" and "mxm".
pub fn mxv_is_mxm_with_one_column()
    ensures { MxvIsMxm }
{}

/// The total of a matrix is the total of its reduction to a vector by rows: the values are of the monoid's domain.
///
/// Source: GraphBLAS C API 2.0, "reduce".
pub fn a_total_is_that_of_the_rows()
    ensures { TotalOfRows }
{}
