//! Records that two threads put, and tokens of them. A contract lets a record not be taken, or not be shown; that each is, with threads at
//! work, is seen here. No script names a record.
use crate::same::same;
use grb_call::{Call, VectorId};
use grb_core::{Refusal, Value};
use grb_records::Records;
use std::test::Fail;
use std::thread::join;

fn set(i: u64) -> Call {
    Call::SetVector {
        v: VectorId(0),
        i,
        value: Value::Uint64(i),
    }
}

/// Whether it is the call that sets the entry at `i`.
fn is_set(call: &Call, i: u64) -> bool {
    *call == set(i)
}

/// Whether the record there is shown, with the call that sets the entry at `i`.
fn is_shown(records: &Records, pass: u32, index: u64, i: u64) -> bool {
    match records.show(pass, index) {
        Some((call, _)) => is_set(call, i),
        None => false,
    }
}

/// Puts a record that sets the entry at `i`. The token is not kept.
fn put_set(records: &Records, pass: u32, index: u64, i: u64) -> Result<(), Refusal> {
    records.put(pass, index, set(i))?;
    Ok(())
}

fn put_fifty(records: &Records, pass: u32) -> u64 {
    let mut put = 0u64;
    for i in 0..50 {
        if put_set(records, pass, i, i).is_ok() {
            put = put.saturating_add(1);
        }
    }
    put
}

/// How many of the records of both passes are shown as they were put.
fn shown_as_put(records: &Records) -> u64 {
    let mut shown = 0u64;
    for pass in 0..2 {
        for index in 0..50 {
            if is_shown(records, pass, index, index) {
                shown = shown.saturating_add(1);
            }
        }
    }
    shown
}

#[test]
fn two_threads_put_each_in_its_row_and_both_are_shown_all(rt: HostRuntime) -> Result<(), Fail> {
    let records = Records::open(rt.alloc(), 2, 50)?;
    let (a, b) = join(&rt, || put_fifty(&records, 0), || put_fifty(&records, 1));
    same(&rt, (a, b), (50, 50), "records put by each");
    let (a, b) = join(&rt, || shown_as_put(&records), || shown_as_put(&records));
    same(&rt, (a, b), (100, 100), "records shown to each");
    Ok(())
}

#[test]
fn tokens_of_one_record_are_the_same_and_of_two_with_one_call_are_not(
    rt: HostRuntime,
) -> Result<(), Fail> {
    let records = Records::open(rt.alloc(), 2, 2)?;
    let mut put = records.put(0, 0, set(7)).expect(&rt, "a first record");
    let mut next = records.put(0, 1, set(7)).expect(&rt, "one next to it");
    let mut other = records.put(1, 0, set(7)).expect(&rt, "one of another");
    let (_, mut shown) = records.show(0, 0).expect(&rt, "the first, shown");
    let is_same = records.same(&mut put, &mut shown);
    same(&rt, is_same, true, "the token put and the token shown");
    let is_same = records.same(&mut put, &mut next);
    same(&rt, is_same, false, "two records in one row");
    let is_same = records.same(&mut put, &mut other);
    same(&rt, is_same, false, "two first records, of two rows");
    Ok(())
}
