// What arrays pack to: each wanted text was written by hand, of the rows alone.

use crate::written::written;
use std::process::Abort;
use vx_pack::laws::{
    packed_parts_tell_rows, packing_keeps_rows, packing_twice_is_packing_once,
    rows_pack_to_one_tree, what_is_packed_is_held,
};
use vx_pack::{Pack, RowsEqual};
use vx_tree::ArrayRef;

mod constants;
mod cut_away;
mod default_rows;
mod dictionaries;
mod empty;
mod fixed_lists;
mod joined_lists;
mod limits;
mod lists;
mod nests;
mod numbers;
mod records;
mod stored_lists;
mod texts;
mod truths;
mod values;

// Down to how many levels the arrays of these tests are written.
const LEVELS: usize = 8;

// The packed form of an array, as text.
fn packed_text(rt: &(impl Abort + AllocGlobal), array: &ArrayRef) -> String {
    written(rt, &array.pack(rt.alloc()).expect(rt, "packed"), LEVELS)
}

// Stops unless what was made packs to these parts.
fn expect_packed(rt: &(impl Abort + AllocGlobal), made: ArrayRef, wanted: &str) {
    expect_packs_to(rt, &made, wanted);
}

// Stops unless an array packs to these parts, they do too, and have its rows.
fn expect_packs_to(rt: &(impl Abort + AllocGlobal), array: &ArrayRef, wanted: &str) {
    let packed = expect_parts(rt, array, wanted);
    assert!(rt; packed.rows_equal(array));
}

// The packed form: stops unless it has these parts, and packs to them.
fn expect_parts(rt: &(impl Abort + AllocGlobal), array: &ArrayRef, wanted: &str) -> ArrayRef {
    let packed = array.pack(rt.alloc()).expect(rt, "packed");
    expect_written(rt, &packed, wanted);
    let again = packed.pack(rt.alloc()).expect(rt, "packed again");
    expect_written(rt, &again, wanted);
    packed
}

// Stops unless an array has these parts.
fn expect_written(rt: &(impl Abort + AllocGlobal), array: &ArrayRef, wanted: &str) {
    assert_eq!(rt; written(rt, array, LEVELS).as_str(), wanted);
}

// Stops unless all arrays pack to the same parts.
pub(crate) fn expect_packed_alike(rt: &(impl Abort + AllocGlobal), arrays: &[ArrayRef]) {
    let Some(first) = arrays.first() else {
        return;
    };
    let wanted = packed_text(rt, first);
    for array in arrays {
        expect_packs_to(rt, array, wanted.as_str());
    }
}

// Stops unless no array packs to the parts of one of the others.
pub(crate) fn expect_packed_otherwise(
    rt: &(impl Abort + AllocGlobal),
    arrays: &[ArrayRef],
    others: &[ArrayRef],
) {
    for array in arrays {
        let text = packed_text(rt, array);
        for (j, other) in others.iter().enumerate() {
            let otherwise = packed_text(rt, other);
            assert!(rt;
                text.as_str() != otherwise.as_str(),
                "the other {j}: {otherwise}"
            );
        }
    }
}

#[test]
fn laws() {
    rows_pack_to_one_tree();
    packing_keeps_rows();
    packed_parts_tell_rows();
    packing_twice_is_packing_once();
    what_is_packed_is_held();
}
