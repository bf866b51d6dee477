// Lists, wherever they lie among their elements.

use super::expect_rows;
use crate::layouts::{
    END_TO_END, OUT_OF_ORDER, OVERLAPPING, PARTED_ELSEWHERE, counts, fixed, in_order, named,
    null_where, numbers, same_counts, same_lists, some_counts, three_lists,
};
use std::process::Abort;
use vx_base::Nullability::{NonNullable, Nullable};
use vx_tree::ArrayRef;

// The lists `[1, 2]`, `[]`, `[2, 3]`, and rows that differ from them in one thing.
#[test]
fn some_lists_in_all_layouts(rt: HostRuntime) {
    let elements = named(&rt, counts(&rt, &[0, 1, 1, 2]), counts(&rt, &[1, 2, 3]));
    let turned = three_lists(&rt, counts(&rt, &[1, 2, 2, 3]), &OUT_OF_ORDER);
    let made = [
        in_order(&rt),
        three_lists(&rt, counts(&rt, &[2, 3, 1, 2]), &OUT_OF_ORDER),
        three_lists(&rt, counts(&rt, &[1, 2, 3, 9]), &OVERLAPPING),
        three_lists(&rt, elements, &END_TO_END),
        named(&rt, counts(&rt, &[2, 1, 0]), turned),
    ];
    let nullable = some_counts(&rt, &[1, 2, 2, 3], &[true, true, true, true]);
    let others = [
        // An element.
        three_lists(&rt, counts(&rt, &[1, 2, 2, 4]), &END_TO_END),
        three_lists(&rt, counts(&rt, &[2, 3, 1, 1]), &OUT_OF_ORDER),
        // The same elements, parted elsewhere.
        three_lists(&rt, counts(&rt, &[1, 2, 2, 3]), &PARTED_ELSEWHERE),
        // Null may stand among the elements, or among the lists.
        three_lists(&rt, nullable, &END_TO_END),
        null_where(&rt, in_order(&rt), &[true, true, true]),
        // The type of the elements.
        three_lists(&rt, numbers::<i8>(&rt, &[1, 2, 2, 3]), &END_TO_END),
    ];
    expect_rows(&rt, &made, &others);
}

// The lists `[1, 2]`, null, `[2, 3]`, and rows that differ from them in one thing.
#[test]
fn lists_and_null_in_all_layouts(rt: HostRuntime) {
    let overlapping = three_lists(&rt, counts(&rt, &[1, 2, 3, 9]), &OVERLAPPING);
    let codes = some_counts(&rt, &[0, 2, 2], &[true, false, true]);
    let made = [
        null_where(&rt, in_order(&rt), &[true, false, true]),
        null_where(&rt, overlapping, &[true, false, true]),
        named(&rt, codes, in_order(&rt)),
    ];
    // An empty list in place of null, and null in place of a list.
    let others = [
        null_where(&rt, in_order(&rt), &[true, true, true]),
        null_where(&rt, in_order(&rt), &[true, false, false]),
    ];
    expect_rows(&rt, &made, &others);
}

// The lists `[1, null]`, `[]`, `[null, 3]`, and rows that differ from them in one thing.
#[test]
fn lists_of_nulls_in_all_layouts(rt: HostRuntime) {
    let first = some_counts(&rt, &[1, 0, 0, 3], &[true, false, false, true]);
    // Other bytes lie below the nulls.
    let second = some_counts(&rt, &[7, 3, 1, 8], &[false, true, true, false]);
    let third = some_counts(&rt, &[1, 9, 3, 9], &[true, false, true, true]);
    let made = [
        three_lists(&rt, first, &END_TO_END),
        three_lists(&rt, second, &OUT_OF_ORDER),
        three_lists(&rt, third, &OVERLAPPING),
    ];
    // The default row in place of a null, and null in place of a number.
    let fourth = some_counts(&rt, &[1, 0, 0, 3], &[true, true, false, true]);
    let fifth = some_counts(&rt, &[1, 0, 0, 3], &[true, false, false, false]);
    let others = [
        three_lists(&rt, fourth, &END_TO_END),
        three_lists(&rt, fifth, &END_TO_END),
    ];
    expect_rows(&rt, &made, &others);
}

// The list `[7, null]`, twice, and rows that differ from them in one thing.
#[test]
fn same_rows_in_all_layouts(rt: HostRuntime) {
    let elements = some_counts(&rt, &[7, 9, 7, 8], &[true, false, true, false]);
    let lists = three_lists(&rt, elements, &END_TO_END);
    let same = same_lists(&rt, &[Some(7), None], Nullable, 3);
    let made = [
        same_lists(&rt, &[Some(7), None], Nullable, 2),
        named(&rt, counts(&rt, &[0, 2]), lists),
        named(&rt, counts(&rt, &[2, 0]), same),
    ];
    let others = [
        same_lists(&rt, &[Some(7), Some(0)], Nullable, 2),
        same_lists(&rt, &[Some(7), None], Nullable, 3),
        same_lists(&rt, &[None, Some(7)], Nullable, 2),
        same_lists(&rt, &[Some(7)], Nullable, 2),
        same_lists(&rt, &[Some(7), Some(0)], NonNullable, 2),
    ];
    expect_rows(&rt, &made, &others);
}

// The lists `[1, 2]`, `[3, 4]`, `[1, 2]` of one size, and rows that differ from them in one thing.
#[test]
fn some_pairs_in_all_layouts(rt: HostRuntime) {
    let turned = fixed(&rt, counts(&rt, &[3, 4, 1, 2, 9, 9]), 2, 3);
    let codes = counts(&rt, &[0, 1, 2, 3, 0, 1]);
    let elements = named(&rt, codes, counts(&rt, &[1, 2, 3, 4]));
    let made = [
        fixed(&rt, counts(&rt, &[1, 2, 3, 4, 1, 2]), 2, 3),
        named(&rt, counts(&rt, &[1, 0, 1]), turned),
        fixed(&rt, elements, 2, 3),
    ];
    let nullable = fixed(&rt, counts(&rt, &[1, 2, 3, 4, 1, 2]), 2, 3);
    let longer = fixed(&rt, counts(&rt, &[1, 2, 3, 4, 1, 2]), 2, 3);
    let others = [
        fixed(&rt, counts(&rt, &[1, 2, 3, 4, 1, 3]), 2, 3),
        null_where(&rt, nullable, &[true, true, true]),
        longer.slice(rt.alloc(), 0..2).expect(&rt, "sliced"),
        fixed(&rt, same_counts(&rt, 1, 6), 2, 3),
    ];
    expect_rows(&rt, &made, &others);
}

// Three lists of one size, 2, of six elements, null where these are false.
fn pairs(rt: &(impl Abort + AllocGlobal), elements: &[u8], valid: &[bool]) -> ArrayRef {
    null_where(rt, fixed(rt, counts(rt, elements), 2, 3), valid)
}

// The lists `[1, 2]`, null, `[1, 2]` of one size, and rows that differ from them in one thing.
#[test]
fn pairs_and_null_in_all_layouts(rt: HostRuntime) {
    let made = [
        pairs(&rt, &[1, 2, 0, 0, 1, 2], &[true, false, true]),
        pairs(&rt, &[1, 2, 8, 9, 1, 2], &[true, false, true]),
    ];
    let others = [
        pairs(&rt, &[1, 2, 0, 0, 1, 2], &[true, true, true]),
        pairs(&rt, &[1, 2, 0, 0, 2, 2], &[true, false, true]),
    ];
    expect_rows(&rt, &made, &others);
}
