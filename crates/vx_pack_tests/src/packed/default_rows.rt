// Default rows of each kind, below a null list of one size: a list of two rows, and null.

use super::expect_packed;
use crate::layouts::{
    LONG, byte_lists, counts, defaults, fixed, lists_at, null_where, records, same_nullable,
    some_counts, texts, truths, u8s, view,
};
use std::process::Abort;
use vx_base::Nullability;
use vx_tree::ArrayRef;
use vx_views::BinaryView;

// Stops unless the lists of two of four elements, of which the second one is null, pack to these
// parts.
fn expect_list_and_null(rt: &(impl Abort + AllocGlobal), elements: ArrayRef, wanted: &str) {
    let lists = null_where(rt, fixed(rt, elements, 2, 2), &[true, false]);
    expect_packed(rt, lists, wanted);
}

// A text of one byte, a long one, and two more that lie below the null.
fn views(rt: &impl Abort) -> [BinaryView; 4] {
    let long = view(rt, LONG, 0, 0);
    [view(rt, b"a", 0, 0), long, long, long]
}

// Two records of numbers, and two more that lie below the null.
fn two_columns(rt: &(impl Abort + AllocGlobal), second: ArrayRef) -> ArrayRef {
    records(rt, &["a", "b"], counts(rt, &[1, 2, 171, 171]), second)
}

#[test]
fn default_numbers_are_zero_or_null(rt: HostRuntime) {
    expect_list_and_null(
        &rt,
        counts(&rt, &[1, 2, 171, 171]),
        "fixed [u8;2]? 2 told (numbers u8 4 plain 01 02 00 00) (bits bool 2 plain 0:01)",
    );
    expect_list_and_null(
        &rt,
        some_counts(&rt, &[1, 171, 171, 171], &[true, false, true, true]),
        "fixed [u8?;2]? 2 told (numbers u8? 4 told 01 00 00 00 (bits bool 4 plain 0:01)) \
         (bits bool 2 plain 0:01)",
    );
    // Numbers that the state says are all there.
    expect_list_and_null(
        &rt,
        same_nullable(&rt, 5, 4),
        "fixed [u8?;2]? 2 told (numbers u8? 4 told 05 05 00 00 (bits bool 4 plain 0:03)) \
         (bits bool 2 plain 0:01)",
    );
    // Numbers that the state says are all null.
    expect_list_and_null(
        &rt,
        defaults(&rt, u8s(Nullability::Nullable), 4),
        "fixed [u8?;2]? 2 told (numbers u8? 4 none 00 00 00 00) (bits bool 2 plain 0:01)",
    );
}

#[test]
fn default_truth_values_are_false(rt: HostRuntime) {
    expect_list_and_null(
        &rt,
        truths(&rt, &[true, true, true, true]),
        "fixed [bool;2]? 2 told (bits bool 4 plain 0:03) (bits bool 2 plain 0:01)",
    );
}

#[test]
fn default_texts_are_empty_or_null(rt: HostRuntime) {
    expect_list_and_null(
        &rt,
        texts(&rt, &views(&rt), &[LONG]),
        "fixed [text;2]? 2 told (views text 4 plain 01000000.61000000.00000000.00000000 \
         1d000000.74686973.00000000.00000000 00000000.00000000.00000000.00000000 \
         00000000.00000000.00000000.00000000 \
         <746869732076616c756520697320646566696e6974656c79206c6f6e67>) (bits bool 2 plain 0:01)",
    );
    let elements = texts(&rt, &views(&rt), &[LONG]);
    expect_list_and_null(
        &rt,
        null_where(&rt, elements, &[true, true, true, true]),
        "fixed [text?;2]? 2 told (views text? 4 told 01000000.61000000.00000000.00000000 \
         1d000000.74686973.00000000.00000000 00000000.00000000.00000000.00000000 \
         00000000.00000000.00000000.00000000 \
         <746869732076616c756520697320646566696e6974656c79206c6f6e67> (bits bool 4 plain 0:03)) \
         (bits bool 2 plain 0:01)",
    );
}

#[test]
fn default_byte_lists_are_empty(rt: HostRuntime) {
    expect_list_and_null(
        &rt,
        byte_lists(&rt, &views(&rt), &[LONG]),
        "fixed [bytes;2]? 2 told (views bytes 4 plain 01000000.61000000.00000000.00000000 \
         1d000000.74686973.00000000.00000000 00000000.00000000.00000000.00000000 \
         00000000.00000000.00000000.00000000 \
         <746869732076616c756520697320646566696e6974656c79206c6f6e67>) (bits bool 2 plain 0:01)",
    );
}

#[test]
fn default_lists_are_empty(rt: HostRuntime) {
    let elements = counts(&rt, &[1, 2, 171, 171]);
    expect_list_and_null(
        &rt,
        lists_at(&rt, elements, &[0, 1, 2, 3], &[1, 1, 1, 1]),
        "fixed [[u8];2]? 2 told (lists [u8] 4 plain true (numbers u8 2 plain 01 02) \
         (numbers i32 4 plain 00000000 01000000 02000000 02000000) \
         (numbers i32 4 plain 01000000 01000000 00000000 00000000)) (bits bool 2 plain 0:01)",
    );
}

#[test]
fn default_records_are_of_defaults_or_null(rt: HostRuntime) {
    let second = some_counts(&rt, &[5, 171, 171, 171], &[true, false, true, true]);
    expect_list_and_null(
        &rt,
        two_columns(&rt, second),
        "fixed [{a:u8,b:u8?};2]? 2 told (records {a:u8,b:u8?} 4 plain .a .b \
         (numbers u8 4 plain 01 02 00 00) \
         (numbers u8? 4 told 05 00 00 00 (bits bool 4 plain 0:01))) (bits bool 2 plain 0:01)",
    );
    let rows = two_columns(&rt, counts(&rt, &[3, 4, 171, 171]));
    expect_list_and_null(
        &rt,
        null_where(&rt, rows, &[false, true, true, true]),
        "fixed [{a:u8,b:u8}?;2]? 2 told (records {a:u8,b:u8}? 4 told .a .b \
         (numbers u8 4 plain 00 02 00 00) (numbers u8 4 plain 00 04 00 00) \
         (bits bool 4 plain 0:02)) (bits bool 2 plain 0:01)",
    );
}
