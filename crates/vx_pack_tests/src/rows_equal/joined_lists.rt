// Lists that stand end to end, so many that their items are compared at once, and somewhat fewer.

use super::expect_rows;
use crate::layouts::{counts, lists_at, lists_within, numbers};
use std::process::Abort;
use vx_tree::ArrayRef;

// The numbers that the lists hold, and how many each of them has.
const NUMBERS: [u8; 18] = [
    1, 2, 3, 4, 5, 6, 7, 8, 9, 10, 11, 12, 13, 14, 15, 16, 17, 18,
];

const SIZES: [u8; 17] = [1, 2, 0, 1, 2, 0, 1, 2, 0, 1, 2, 0, 1, 2, 0, 1, 2];

// So many of these lists, from an element on.
fn lists_from(
    rt: &(impl Abort + AllocGlobal),
    elements: &[u8],
    first: u8,
    sizes: &[u8],
) -> ArrayRef {
    let mut offsets = Vec::new(rt.alloc());
    let mut next = first;
    for size in sizes {
        offsets.push(next).expect(rt, "an offset");
        next = next.wrapping_add(*size);
    }
    lists_at(rt, counts(rt, elements), &offsets, sizes)
}

// The same by numbers of other types.
fn wide_lists(rt: &(impl Abort + AllocGlobal), sizes: &[u8]) -> ArrayRef {
    let mut offsets = Vec::new(rt.alloc());
    let mut wide = Vec::new(rt.alloc());
    let mut next: i16 = 0;
    for size in sizes {
        offsets.push(next).expect(rt, "an offset");
        wide.push(*size as i64).expect(rt, "a size");
        next = next.wrapping_add(*size as i16);
    }
    let offsets = numbers::<i16>(rt, &offsets);
    lists_within(rt, counts(rt, &NUMBERS), offsets, numbers::<i64>(rt, &wide))
}

// Stops unless these lists have the same rows wherever they stand, and others where a list, or an
// item, differs.
fn expect_lists(rt: &(impl Abort + AllocGlobal), sizes: &[u8]) {
    // With an element before them.
    let later = [
        0, 1, 2, 3, 4, 5, 6, 7, 8, 9, 10, 11, 12, 13, 14, 15, 16, 17, 18,
    ];
    let made = [
        lists_from(rt, &NUMBERS, 0, sizes),
        lists_from(rt, &later, 1, sizes),
        wide_lists(rt, sizes),
    ];
    // The first item is another one, and the first list ends one item later.
    let other = [
        9, 2, 3, 4, 5, 6, 7, 8, 9, 10, 11, 12, 13, 14, 15, 16, 17, 18,
    ];
    let mut parted = Vec::new(rt.alloc());
    parted.extend_from_slice(sizes).expect(rt, "sizes");
    if parted.len() > 1 {
        parted[0] = 2;
        parted[1] = 1;
    }
    let others = [
        lists_from(rt, &other, 0, sizes),
        lists_from(rt, &NUMBERS, 0, &parted),
    ];
    expect_rows(rt, &made, &others);
}

#[test]
fn some_lists_end_to_end(rt: HostRuntime) {
    expect_lists(&rt, &SIZES[..15]);
    expect_lists(&rt, &SIZES[..16]);
    expect_lists(&rt, &SIZES);
}

#[test]
fn a_gap_is_no_item(rt: HostRuntime) {
    // Seventeen lists of one number, and the same with numbers between them that are in none.
    let ones = [1; 17];
    let evens = [
        0, 2, 4, 6, 8, 10, 12, 14, 16, 18, 20, 22, 24, 26, 28, 30, 32,
    ];
    let mut spread = Vec::new(rt.alloc());
    for number in NUMBERS {
        spread.push(number).expect(&rt, "a number");
        spread.push(0).expect(&rt, "a number");
    }
    let made = [
        lists_from(&rt, &NUMBERS, 0, &ones),
        lists_at(&rt, counts(&rt, &spread), &evens, &ones),
    ];
    let others = [lists_from(&rt, &spread, 0, &ones)];
    expect_rows(&rt, &made, &others);
}
