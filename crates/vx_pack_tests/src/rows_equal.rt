// Arrays of the same rows in all layouts, and others that differ from them in one place.

use crate::packed::{expect_packed_alike, expect_packed_otherwise};
use std::process::Abort;
use vx_pack::RowsEqual;
use vx_pack::laws::{
    arrays_equal_themselves, equal_rows_are_equal_from_both_sides, equal_rows_are_equal_in_turn,
};
use vx_test_help::samples::{dictionary, lists, records};
use vx_tree::ArrayRef;

mod joined_lists;
mod lists;
mod lists_anywhere;
mod many_rows;
mod numbers;
mod records;
mod texts;
mod truths;

// Stops unless all arrays have the same rows and pack to the same parts, and none of the others has
// these rows or packs to these parts.
fn expect_rows(rt: &(impl Abort + AllocGlobal), arrays: &[ArrayRef], others: &[ArrayRef]) {
    expect_equal_rows(rt, arrays);
    expect_packed_alike(rt, arrays);
    expect_other_rows(rt, arrays, others);
    expect_packed_otherwise(rt, arrays, others);
}

// Stops unless all arrays have the same rows, each of them beside itself and every other one.
fn expect_equal_rows(rt: &impl Abort, arrays: &[ArrayRef]) {
    for (i, array) in arrays.iter().enumerate() {
        for (j, other) in arrays.iter().enumerate() {
            assert!(rt; array.rows_equal(other), "{i} beside {j}");
        }
    }
}

// Stops unless no array has the rows of one of the others, from either side.
fn expect_other_rows(rt: &impl Abort, arrays: &[ArrayRef], others: &[ArrayRef]) {
    for (i, array) in arrays.iter().enumerate() {
        for (j, other) in others.iter().enumerate() {
            assert!(rt; !array.rows_equal(other), "{i} beside {j}");
            assert!(rt; !other.rows_equal(array), "{j} beside {i}");
        }
    }
}

#[test]
fn laws(rt: HostRuntime) {
    let lists = lists(rt.alloc()).expect(&rt, "made");
    let records = records(rt.alloc()).expect(&rt, "made");
    let dictionary = dictionary(rt.alloc()).expect(&rt, "made");
    assert!(rt; arrays_equal_themselves(&lists));
    assert!(rt; equal_rows_are_equal_from_both_sides(&lists, &records));
    assert!(rt; equal_rows_are_equal_in_turn(&records, &records, &dictionary));
}
