//! Operations on the entries of one object, and kronecker.
ghost use Rattle.grb_core.specs.declared.value.Value.TheVariants.{Bool, Uint64};
ghost use Rattle.grb_codes.specs.Calls.{apply_first_matrix, apply_first_vector, apply_matrix, apply_second_matrix, apply_second_vector, apply_vector, kronecker, select_matrix, select_values_matrix, select_values_vector, select_vector, transpose};
ghost use Rattle.grb_c.specs.Handles.{Makes};

use crate::handle::TrbPass;
use grb_codes::{
    Given, apply_first_matrix, apply_first_vector, apply_matrix, apply_second_matrix,
    apply_second_vector, apply_vector, kronecker, select_matrix, select_values_matrix,
    select_values_vector, select_vector, transpose,
};
use grb_core::Value;
use std::alloc::Global;

/// Writes a matrix transposed.
#[unsafe(no_mangle)]
pub extern "C" fn trb_transpose(
    alloc: Global,
    pass: &mut TrbPass,
    c: u32,
    mask: u32,
    accum: u32,
    a: u32,
    desc: u32,
) -> i32
    ensures { Makes pass.old pass.new (transpose c mask accum a desc) result }
{
    let given = Given { mask, accum, desc };
    pass.done(alloc, transpose(c, a, given))
}

/// Writes the Kronecker product of two matrices.
#[unsafe(no_mangle)]
pub extern "C" fn trb_matrix_kronecker(
    alloc: Global,
    pass: &mut TrbPass,
    c: u32,
    mask: u32,
    accum: u32,
    op: u32,
    a: u32,
    b: u32,
    desc: u32,
) -> i32
    ensures { Makes pass.old pass.new (kronecker c mask accum op a b desc) result }
{
    let given = Given { mask, accum, desc };
    pass.done(alloc, kronecker(c, op, a, b, given))
}

/// Writes what a unary operator makes of each value of a matrix.
#[unsafe(no_mangle)]
pub extern "C" fn trb_matrix_apply(
    alloc: Global,
    pass: &mut TrbPass,
    c: u32,
    mask: u32,
    accum: u32,
    op: u32,
    a: u32,
    desc: u32,
) -> i32
    ensures { Makes pass.old pass.new (apply_matrix c mask accum op a desc) result }
{
    let given = Given { mask, accum, desc };
    pass.done(alloc, apply_matrix(c, op, a, given))
}

/// Writes what an operator makes of a value and each value of a matrix.
#[unsafe(no_mangle)]
pub extern "C" fn trb_matrix_apply_first_bool(
    alloc: Global,
    pass: &mut TrbPass,
    c: u32,
    mask: u32,
    accum: u32,
    op: u32,
    x: bool,
    a: u32,
    desc: u32,
) -> i32
    ensures { Makes pass.old pass.new (apply_first_matrix c mask accum op (Bool x) a desc) result }
{
    let given = Given { mask, accum, desc };
    pass.done(alloc, apply_first_matrix(c, op, Value::Bool(x), a, given))
}

/// Writes what an operator makes of each value of a matrix and a value.
#[unsafe(no_mangle)]
pub extern "C" fn trb_matrix_apply_second_bool(
    alloc: Global,
    pass: &mut TrbPass,
    c: u32,
    mask: u32,
    accum: u32,
    op: u32,
    a: u32,
    y: bool,
    desc: u32,
) -> i32
    ensures { Makes pass.old pass.new (apply_second_matrix c mask accum op a (Bool y) desc) result }
{
    let given = Given { mask, accum, desc };
    pass.done(alloc, apply_second_matrix(c, op, a, Value::Bool(y), given))
}

/// Writes what an operator makes of a value and each value of a matrix.
#[unsafe(no_mangle)]
pub extern "C" fn trb_matrix_apply_first_uint64(
    alloc: Global,
    pass: &mut TrbPass,
    c: u32,
    mask: u32,
    accum: u32,
    op: u32,
    x: u64,
    a: u32,
    desc: u32,
) -> i32
    ensures { Makes pass.old pass.new (apply_first_matrix c mask accum op (Uint64 x) a desc) result }
{
    let given = Given { mask, accum, desc };
    pass.done(alloc, apply_first_matrix(c, op, Value::Uint64(x), a, given))
}

/// Writes what an operator makes of each value of a matrix and a value.
#[unsafe(no_mangle)]
pub extern "C" fn trb_matrix_apply_second_uint64(
    alloc: Global,
    pass: &mut TrbPass,
    c: u32,
    mask: u32,
    accum: u32,
    op: u32,
    a: u32,
    y: u64,
    desc: u32,
) -> i32
    ensures { Makes pass.old pass.new (apply_second_matrix c mask accum op a (Uint64 y) desc) result }
{
    let given = Given { mask, accum, desc };
    pass.done(
        alloc,
        apply_second_matrix(c, op, a, Value::Uint64(y), given),
    )
}

/// Writes the entries of a matrix whose places pass a test.
#[unsafe(no_mangle)]
pub extern "C" fn trb_matrix_select_int64(
    alloc: Global,
    pass: &mut TrbPass,
    c: u32,
    mask: u32,
    accum: u32,
    test: u32,
    a: u32,
    k: i64,
    desc: u32,
) -> i32
    ensures { Makes pass.old pass.new (select_matrix c mask accum test a k desc) result }
{
    let given = Given { mask, accum, desc };
    pass.done(alloc, select_matrix(c, test, a, k, given))
}

/// Writes the entries of a matrix whose values pass a test.
#[unsafe(no_mangle)]
pub extern "C" fn trb_matrix_select_bool(
    alloc: Global,
    pass: &mut TrbPass,
    c: u32,
    mask: u32,
    accum: u32,
    test: u32,
    a: u32,
    x: bool,
    desc: u32,
) -> i32
    ensures { Makes pass.old pass.new (select_values_matrix c mask accum test a (Bool x) desc) result }
{
    let given = Given { mask, accum, desc };
    pass.done(
        alloc,
        select_values_matrix(c, test, a, Value::Bool(x), given),
    )
}

/// Writes the entries of a matrix whose values pass a test.
#[unsafe(no_mangle)]
pub extern "C" fn trb_matrix_select_uint64(
    alloc: Global,
    pass: &mut TrbPass,
    c: u32,
    mask: u32,
    accum: u32,
    test: u32,
    a: u32,
    x: u64,
    desc: u32,
) -> i32
    ensures { Makes pass.old pass.new (select_values_matrix c mask accum test a (Uint64 x) desc) result }
{
    let given = Given { mask, accum, desc };
    pass.done(
        alloc,
        select_values_matrix(c, test, a, Value::Uint64(x), given),
    )
}

/// Writes what a unary operator makes of each value of a vector.
#[unsafe(no_mangle)]
pub extern "C" fn trb_vector_apply(
    alloc: Global,
    pass: &mut TrbPass,
    w: u32,
    mask: u32,
    accum: u32,
    op: u32,
    u: u32,
    desc: u32,
) -> i32
    ensures { Makes pass.old pass.new (apply_vector w mask accum op u desc) result }
{
    let given = Given { mask, accum, desc };
    pass.done(alloc, apply_vector(w, op, u, given))
}

/// Writes what an operator makes of a value and each value of a vector.
#[unsafe(no_mangle)]
pub extern "C" fn trb_vector_apply_first_bool(
    alloc: Global,
    pass: &mut TrbPass,
    w: u32,
    mask: u32,
    accum: u32,
    op: u32,
    x: bool,
    u: u32,
    desc: u32,
) -> i32
    ensures { Makes pass.old pass.new (apply_first_vector w mask accum op (Bool x) u desc) result }
{
    let given = Given { mask, accum, desc };
    pass.done(alloc, apply_first_vector(w, op, Value::Bool(x), u, given))
}

/// Writes what an operator makes of each value of a vector and a value.
#[unsafe(no_mangle)]
pub extern "C" fn trb_vector_apply_second_bool(
    alloc: Global,
    pass: &mut TrbPass,
    w: u32,
    mask: u32,
    accum: u32,
    op: u32,
    u: u32,
    y: bool,
    desc: u32,
) -> i32
    ensures { Makes pass.old pass.new (apply_second_vector w mask accum op u (Bool y) desc) result }
{
    let given = Given { mask, accum, desc };
    pass.done(alloc, apply_second_vector(w, op, u, Value::Bool(y), given))
}

/// Writes what an operator makes of a value and each value of a vector.
#[unsafe(no_mangle)]
pub extern "C" fn trb_vector_apply_first_uint64(
    alloc: Global,
    pass: &mut TrbPass,
    w: u32,
    mask: u32,
    accum: u32,
    op: u32,
    x: u64,
    u: u32,
    desc: u32,
) -> i32
    ensures { Makes pass.old pass.new (apply_first_vector w mask accum op (Uint64 x) u desc) result }
{
    let given = Given { mask, accum, desc };
    pass.done(alloc, apply_first_vector(w, op, Value::Uint64(x), u, given))
}

/// Writes what an operator makes of each value of a vector and a value.
#[unsafe(no_mangle)]
pub extern "C" fn trb_vector_apply_second_uint64(
    alloc: Global,
    pass: &mut TrbPass,
    w: u32,
    mask: u32,
    accum: u32,
    op: u32,
    u: u32,
    y: u64,
    desc: u32,
) -> i32
    ensures { Makes pass.old pass.new (apply_second_vector w mask accum op u (Uint64 y) desc) result }
{
    let given = Given { mask, accum, desc };
    pass.done(
        alloc,
        apply_second_vector(w, op, u, Value::Uint64(y), given),
    )
}

/// Writes the entries of a vector whose places pass a test.
#[unsafe(no_mangle)]
pub extern "C" fn trb_vector_select_int64(
    alloc: Global,
    pass: &mut TrbPass,
    w: u32,
    mask: u32,
    accum: u32,
    test: u32,
    u: u32,
    k: i64,
    desc: u32,
) -> i32
    ensures { Makes pass.old pass.new (select_vector w mask accum test u k desc) result }
{
    let given = Given { mask, accum, desc };
    pass.done(alloc, select_vector(w, test, u, k, given))
}

/// Writes the entries of a vector whose values pass a test.
#[unsafe(no_mangle)]
pub extern "C" fn trb_vector_select_bool(
    alloc: Global,
    pass: &mut TrbPass,
    w: u32,
    mask: u32,
    accum: u32,
    test: u32,
    u: u32,
    x: bool,
    desc: u32,
) -> i32
    ensures { Makes pass.old pass.new (select_values_vector w mask accum test u (Bool x) desc) result }
{
    let given = Given { mask, accum, desc };
    pass.done(
        alloc,
        select_values_vector(w, test, u, Value::Bool(x), given),
    )
}

/// Writes the entries of a vector whose values pass a test.
#[unsafe(no_mangle)]
pub extern "C" fn trb_vector_select_uint64(
    alloc: Global,
    pass: &mut TrbPass,
    w: u32,
    mask: u32,
    accum: u32,
    test: u32,
    u: u32,
    x: u64,
    desc: u32,
) -> i32
    ensures { Makes pass.old pass.new (select_values_vector w mask accum test u (Uint64 x) desc) result }
{
    let given = Given { mask, accum, desc };
    pass.done(
        alloc,
        select_values_vector(w, test, u, Value::Uint64(x), given),
    )
}
