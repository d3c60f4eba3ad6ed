//! What a hoard leaves free, and that it gives all of it back. No contract says what an allocator gives.
use crate::tests::same::same;
use crate::tests::scarcity::memory::{hold_all, leave};
use grb_scarcity::deepen;
use std::alloc::{AllocError, Global};

fn is_had(alloc: Global, size: usize) -> bool {
    let block: Result<Vec<u8>, AllocError> = Vec::with_capacity(alloc, size);
    block.is_ok()
}

/// Fills the list with blocks of 24 bytes, as many as are had.
fn fill(alloc: Global, list: &mut Vec<Vec<u8>>) -> Result<(), AllocError> {
    for _ in 0..list.capacity() {
        list.push(Vec::with_capacity(alloc, 24)?)?;
    }
    Ok(())
}

#[test]
fn a_hoard_holds_all_back_but_what_it_leaves(rt: HostRuntime) -> Result<(), AllocError> {
    let alloc = rt.alloc();
    let mut had = Vec::with_capacity(alloc, 1_000)?;
    let mut hoard = hold_all(&rt, 100);
    for size in [1, 16, 4_096, 1_000_000] {
        same(&rt, is_had(alloc, size), false, ("all is held", size));
    }
    same(&rt, deepen(7, 15), Some(7), "the stack");
    leave(&rt, &mut hoard, 4_096);
    same(
        &rt,
        fill(alloc, &mut had).is_err(),
        true,
        "too much is left",
    );
    // the allocator gives 32 bytes for 24
    same(&rt, had.len(), 128, "the blocks that were had");
    hoard.release();
    let is_back = is_had(alloc, 1_000_000);
    same(&rt, is_back, true, "what was given back");
    Ok(())
}
