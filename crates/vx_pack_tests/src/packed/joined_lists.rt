// Lists of lists and of records that stand end to end, in runs, and such as do not.

use super::expect_packed;
use crate::layouts::{counts, lists_at, records};
use std::process::Abort;
use vx_tree::ArrayRef;

// The lists `[[5], [6, 7]]`, `[[]]`.
const NESTED: &str = "lists [[u8]] 2 plain true \
    (lists [u8] 3 plain true (numbers u8 3 plain 05 06 07) \
    (numbers i32 3 plain 00000000 01000000 03000000) \
    (numbers i32 3 plain 01000000 02000000 00000000)) \
    (numbers i32 2 plain 00000000 02000000) (numbers i32 2 plain 02000000 01000000)";

// The lists `[5]`, `[6, 7]`, `[5, 6, 7]`, `[]`, and two of lists of them.
fn lists_of_four(rt: &(impl Abort + AllocGlobal), offsets: &[u8], sizes: &[u8]) -> ArrayRef {
    let inner = lists_at(rt, counts(rt, &[5, 6, 7]), &[0, 1, 0, 3], &[1, 2, 3, 0]);
    lists_at(rt, inner, offsets, sizes)
}

#[test]
fn lists_of_lists_end_to_end(rt: HostRuntime) {
    let inner = lists_at(&rt, counts(&rt, &[5, 6, 7]), &[0, 1, 3], &[1, 2, 0]);
    expect_packed(&rt, lists_at(&rt, inner, &[0, 2], &[2, 1]), NESTED);
    // After a list that is none of theirs.
    let inner = lists_at(
        &rt,
        counts(&rt, &[4, 5, 6, 7]),
        &[0, 1, 2, 4],
        &[1, 1, 2, 0],
    );
    expect_packed(&rt, lists_at(&rt, inner, &[1, 3], &[2, 1]), NESTED);
}

#[test]
fn lists_of_lists_with_a_gap(rt: HostRuntime) {
    expect_packed(&rt, lists_of_four(&rt, &[0, 3], &[2, 1]), NESTED);
}

#[test]
fn lists_of_lists_that_overlap(rt: HostRuntime) {
    // The lists `[[5], [6, 7]]`, `[[6, 7]]`.
    expect_packed(
        &rt,
        lists_of_four(&rt, &[0, 1], &[2, 1]),
        "lists [[u8]] 2 plain true \
         (lists [u8] 3 plain true (numbers u8 5 plain 05 06 07 06 07) \
         (numbers i32 3 plain 00000000 01000000 03000000) \
         (numbers i32 3 plain 01000000 02000000 02000000)) \
         (numbers i32 2 plain 00000000 02000000) (numbers i32 2 plain 02000000 01000000)",
    );
}

// Lists of the records `{a:10,b:20}` to `{a:19,b:29}`.
fn lists_of_ten(rt: &(impl Abort + AllocGlobal), offsets: &[u8], sizes: &[u8]) -> ArrayRef {
    let first = counts(rt, &[10, 11, 12, 13, 14, 15, 16, 17, 18, 19]);
    let second = counts(rt, &[20, 21, 22, 23, 24, 25, 26, 27, 28, 29]);
    lists_at(rt, records(rt, &["a", "b"], first, second), offsets, sizes)
}

#[test]
fn lists_of_records_in_runs(rt: HostRuntime) {
    // Those of records 1 to 3, 6 to 8, 0 and 0: lists without items begin anywhere.
    let offsets = [7, 1, 9, 3, 6, 0, 8, 0, 0, 5];
    let sizes = [0, 2, 0, 1, 2, 0, 1, 1, 1, 0];
    expect_packed(
        &rt,
        lists_of_ten(&rt, &offsets, &sizes),
        "lists [{a:u8,b:u8}] 10 plain true (records {a:u8,b:u8} 8 plain .a .b \
         (numbers u8 8 plain 0b 0c 0d 10 11 12 0a 0a) \
         (numbers u8 8 plain 15 16 17 1a 1b 1c 14 14)) \
         (numbers i32 10 plain 00000000 00000000 02000000 02000000 03000000 \
         05000000 05000000 06000000 07000000 08000000) \
         (numbers i32 10 plain 00000000 02000000 00000000 01000000 02000000 \
         00000000 01000000 01000000 01000000 00000000)",
    );
    // No list has items.
    expect_packed(
        &rt,
        lists_of_ten(&rt, &[3, 1, 2], &[0, 0, 0]),
        "lists [{a:u8,b:u8}] 3 plain true (records {a:u8,b:u8} 0 plain .a .b \
         (numbers u8 0 plain) (numbers u8 0 plain)) \
         (numbers i32 3 plain 00000000 00000000 00000000) \
         (numbers i32 3 plain 00000000 00000000 00000000)",
    );
}
