// Lists and records within each other.

use crate::layouts::{counts, fixed, lists_at, wrapped};
use crate::written::written;
use std::process::Abort;
use vx_pack::{Pack, RowsEqual};
use vx_tree::{ArrayRef, Layout};

// How many lists lie above the number, and how many records.
const LISTS: usize = 2000;

const RECORDS: usize = 1000;

// A number within so many lists.
fn lists(rt: &(impl Abort + AllocGlobal), depth: usize) -> ArrayRef {
    let mut row = counts(rt, &[7]);
    for _ in 0..depth {
        row = lists_at(rt, row, &[0], &[1]);
    }
    row
}

// A number within so many lists of size 1.
fn lists_of_one_size(rt: &(impl Abort + AllocGlobal), depth: usize) -> ArrayRef {
    let mut row = counts(rt, &[7]);
    for _ in 0..depth {
        row = fixed(rt, row, 1, 1);
    }
    row
}

// A number within so many records.
fn records(rt: &(impl Abort + AllocGlobal), depth: usize) -> ArrayRef {
    let mut row = counts(rt, &[7]);
    for _ in 0..depth {
        row = wrapped(rt, "a", row);
    }
    row
}

// What lies within a list, whose flag is set, a list of one size or a record of one column.
fn below(array: &ArrayRef) -> Option<&ArrayRef> {
    match array.layout() {
        Layout::ListView { elements, flag, .. } if *flag => Some(elements),
        Layout::FixedSizeList { elements, .. } => Some(elements),
        Layout::Struct { columns, .. } => columns.first(),
        _ => None,
    }
}

// What lies at the end of so many levels.
fn innermost(array: &ArrayRef, depth: usize) -> Option<&ArrayRef> {
    let mut inner = array;
    for _ in 0..depth {
        inner = below(inner)?;
    }
    Some(inner)
}

// Stops unless a number within so many levels packs to one.
fn expect_nest(rt: &(impl Abort + AllocGlobal), array: ArrayRef, depth: usize) {
    let packed = array.pack(rt.alloc()).expect(rt, "packed");
    assert!(rt; packed.rows_equal(&array));
    let inner = innermost(&packed, depth).expect(rt, "as many levels, the flag of each list set");
    assert_eq!(rt; written(rt, inner, 1).as_str(), "numbers u8 1 plain 07");
}

#[test]
fn a_nest_of_two_thousand_lists(rt: HostRuntime) {
    expect_nest(&rt, lists(&rt, LISTS), LISTS);
}

#[test]
fn a_nest_of_two_thousand_lists_of_one_size(rt: HostRuntime) {
    expect_nest(&rt, lists_of_one_size(&rt, LISTS), LISTS);
}

#[test]
fn a_nest_of_a_thousand_records(rt: HostRuntime) {
    expect_nest(&rt, records(&rt, RECORDS), RECORDS);
}
