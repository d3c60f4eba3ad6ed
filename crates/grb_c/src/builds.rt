//! Builds from arrays.
ghost use Rattle.grb_core.specs.declared.value.Value.TheVariants.{Bool, Uint64};
ghost use Rattle.grb_codes.specs.Arrays.{build_matrix, build_vector};
ghost use Rattle.grb_c.specs.Handles.{Builds};

use crate::handle::TrbPass;
use grb_codes::{matrix_build, vector_build};
use std::alloc::Global;

/// Fills a matrix of numbers that stores nothing from three arrays of one length.
#[unsafe(no_mangle)]
pub extern "C" fn trb_matrix_build_uint64(
    alloc: Global,
    pass: &mut TrbPass,
    a: u32,
    rows: &[u64],
    columns: &[u64],
    values: &[u64],
    dup: u32,
) -> i32
    ensures { Builds pass.old pass.new (build_matrix Uint64 a rows.now columns.now values.now dup) result }
{
    pass.done(alloc, matrix_build(alloc, a, rows, columns, values, dup))
}

/// Fills a vector of numbers that stores nothing from two arrays of one length.
#[unsafe(no_mangle)]
pub extern "C" fn trb_vector_build_uint64(
    alloc: Global,
    pass: &mut TrbPass,
    v: u32,
    indices: &[u64],
    values: &[u64],
    dup: u32,
) -> i32
    ensures { Builds pass.old pass.new (build_vector Uint64 v indices.now values.now dup) result }
{
    pass.done(alloc, vector_build(alloc, v, indices, values, dup))
}

/// Fills a matrix of truth values that stores nothing from three arrays of one length.
#[unsafe(no_mangle)]
pub extern "C" fn trb_matrix_build_bool(
    alloc: Global,
    pass: &mut TrbPass,
    a: u32,
    rows: &[u64],
    columns: &[u64],
    values: &[bool],
    dup: u32,
) -> i32
    ensures { Builds pass.old pass.new (build_matrix Bool a rows.now columns.now values.now dup) result }
{
    pass.done(alloc, matrix_build(alloc, a, rows, columns, values, dup))
}

/// Fills a vector of truth values that stores nothing from two arrays of one length.
#[unsafe(no_mangle)]
pub extern "C" fn trb_vector_build_bool(
    alloc: Global,
    pass: &mut TrbPass,
    v: u32,
    indices: &[u64],
    values: &[bool],
    dup: u32,
) -> i32
    ensures { Builds pass.old pass.new (build_vector Bool v indices.now values.now dup) result }
{
    pass.done(alloc, vector_build(alloc, v, indices, values, dup))
}
