// Lists whose offsets and sizes stand as numbers, beside others.

use super::{expect_packed, expect_packed_alike};
use crate::layouts::{
    counts, lists_at, lists_within, named, null_where, numbers, same_counts, some_counts,
};
use std::process::Abort;
use vx_base::NativePType;
use vx_tree::ArrayRef;

// The lists `[5, 6]`, `[]`, `[6]`.
const LISTS: &str = "lists [u8] 3 plain true (numbers u8 3 plain 05 06 06) \
    (numbers i32 3 plain 00000000 02000000 02000000) \
    (numbers i32 3 plain 02000000 00000000 01000000)";

// Lists of the numbers 5, 6, 7 by offsets of one type and sizes of another.
fn lists_by<O: NativePType, S: NativePType>(
    rt: &(impl Abort + AllocGlobal),
    offsets: &[O; 3],
    sizes: &[S; 3],
) -> ArrayRef {
    let offsets = numbers::<O>(rt, offsets);
    let sizes = numbers::<S>(rt, sizes);
    lists_within(rt, counts(rt, &[5, 6, 7]), offsets, sizes)
}

// The lists of the last two of three elements, of none, and of the first.
fn turned(rt: &(impl Abort + AllocGlobal), elements: ArrayRef) -> ArrayRef {
    lists_at(rt, elements, &[1, 0, 0], &[2, 0, 1])
}

// So many lists of up to two of six elements, by offsets of one type and sizes of another.
fn lists_in_turn<O: NativePType, S: NativePType>(
    rt: &(impl Abort + AllocGlobal),
    elements: ArrayRef,
    starts: &[O],
    counts: &[S],
    len: usize,
) -> ArrayRef {
    assert!(rt; starts.len() == 5 && counts.len() == 3);
    let mut offsets = Vec::new(rt.alloc());
    let mut sizes = Vec::new(rt.alloc());
    for i in 0..len {
        offsets.push(starts[i % 5]).expect(rt, "an offset");
        sizes.push(counts[i % 3]).expect(rt, "a size");
    }
    let offsets = numbers::<O>(rt, &offsets);
    lists_within(rt, elements, offsets, numbers::<S>(rt, &sizes))
}

// Stops unless so many such lists pack to the same parts as they stand, and by codes, which are
// read row by row.
fn expect_alike<O: NativePType, S: NativePType>(
    rt: &(impl Abort + AllocGlobal),
    elements: ArrayRef,
    starts: &[O],
    counts: &[S],
    len: usize,
) {
    let mut codes = Vec::new(rt.alloc());
    for i in 0..len {
        codes.push(i as u64).expect(rt, "a code");
    }
    let same = elements.try_clone(rt.alloc()).expect(rt, "the same");
    let values = lists_in_turn::<O, S>(rt, same, starts, counts, len);
    let made = [
        lists_in_turn::<O, S>(rt, elements, starts, counts, len),
        named(rt, numbers::<u64>(rt, &codes), values),
    ];
    expect_packed_alike(rt, &made);
}

// The same of twenty lists.
fn expect_twenty<O: NativePType, S: NativePType>(
    rt: &(impl Abort + AllocGlobal),
    starts: &[O],
    counts: &[S],
) {
    let elements = numbers::<u16>(rt, &[10, 11, 12, 13, 14, 15]);
    expect_alike::<O, S>(rt, elements, starts, counts, 20);
}

// The same of twenty lists of these elements.
fn expect_twenty_of(rt: &(impl Abort + AllocGlobal), elements: ArrayRef) {
    expect_alike::<u32, u8>(rt, elements, &[0, 1, 2, 3, 4], &[0, 1, 2], 20);
}

#[test]
fn offsets_and_sizes_without_a_sign(rt: HostRuntime) {
    let made = lists_by::<u8, i64>(&rt, &[0, 3, 1], &[2, 0, 1]);
    expect_packed(&rt, made, LISTS);
    let made = lists_by::<u16, u8>(&rt, &[0, 3, 1], &[2, 0, 1]);
    expect_packed(&rt, made, LISTS);
    let made = lists_by::<u32, u16>(&rt, &[0, 3, 1], &[2, 0, 1]);
    expect_packed(&rt, made, LISTS);
    let made = lists_by::<u64, u32>(&rt, &[0, 3, 1], &[2, 0, 1]);
    expect_packed(&rt, made, LISTS);
}

#[test]
fn offsets_and_sizes_with_a_sign(rt: HostRuntime) {
    let made = lists_by::<i8, u64>(&rt, &[0, 3, 1], &[2, 0, 1]);
    expect_packed(&rt, made, LISTS);
    let made = lists_by::<i16, i8>(&rt, &[0, 3, 1], &[2, 0, 1]);
    expect_packed(&rt, made, LISTS);
    let made = lists_by::<i32, i16>(&rt, &[0, 3, 1], &[2, 0, 1]);
    expect_packed(&rt, made, LISTS);
    let made = lists_by::<i64, i32>(&rt, &[0, 3, 1], &[2, 0, 1]);
    expect_packed(&rt, made, LISTS);
}

#[test]
fn elements_of_each_width(rt: HostRuntime) {
    let made = turned(&rt, numbers::<i8>(&rt, &[5, -1, 7]));
    expect_packed(
        &rt,
        made,
        "lists [i8] 3 plain true (numbers i8 3 plain ff 07 05) \
         (numbers i32 3 plain 00000000 02000000 02000000) \
         (numbers i32 3 plain 02000000 00000000 01000000)",
    );
    let made = turned(&rt, numbers::<u16>(&rt, &[5, 258, 7]));
    expect_packed(
        &rt,
        made,
        "lists [u16] 3 plain true (numbers u16 3 plain 0201 0700 0500) \
         (numbers i32 3 plain 00000000 02000000 02000000) \
         (numbers i32 3 plain 02000000 00000000 01000000)",
    );
    let made = turned(&rt, numbers::<i32>(&rt, &[5, 16909060, -2]));
    expect_packed(
        &rt,
        made,
        "lists [i32] 3 plain true (numbers i32 3 plain 04030201 feffffff 05000000) \
         (numbers i32 3 plain 00000000 02000000 02000000) \
         (numbers i32 3 plain 02000000 00000000 01000000)",
    );
    let made = turned(&rt, numbers::<u64>(&rt, &[5, 72623859790382856, 7]));
    expect_packed(
        &rt,
        made,
        "lists [u64] 3 plain true \
         (numbers u64 3 plain 0807060504030201 0700000000000000 0500000000000000) \
         (numbers i32 3 plain 00000000 02000000 02000000) \
         (numbers i32 3 plain 02000000 00000000 01000000)",
    );
}

#[test]
fn lists_of_which_none_is_null(rt: HostRuntime) {
    // The lists `[6, 7]`, `[]`, `[5]`, of which none is null where null may stand.
    let lists = turned(&rt, counts(&rt, &[5, 6, 7]));
    expect_packed(
        &rt,
        null_where(&rt, lists, &[true, true, true]),
        "lists [u8]? 3 all true (numbers u8 3 plain 06 07 05) \
         (numbers i32 3 plain 00000000 02000000 02000000) \
         (numbers i32 3 plain 02000000 00000000 01000000)",
    );
    // The lists null, `[]`, `[5]`.
    let lists = turned(&rt, counts(&rt, &[5, 6, 7]));
    expect_packed(
        &rt,
        null_where(&rt, lists, &[false, true, true]),
        "lists [u8]? 3 told true (numbers u8 1 plain 05) \
         (numbers i32 3 plain 00000000 00000000 00000000) \
         (numbers i32 3 plain 00000000 00000000 01000000) (bits bool 3 plain 0:06)",
    );
}

#[test]
fn elements_of_which_none_is_null(rt: HostRuntime) {
    // The lists `[6, 7]`, `[]`, `[5]` of elements among which null may stand.
    expect_packed(
        &rt,
        turned(&rt, some_counts(&rt, &[5, 6, 7], &[true, true, true])),
        "lists [u8?] 3 plain true (numbers u8? 3 all 06 07 05) \
         (numbers i32 3 plain 00000000 02000000 02000000) \
         (numbers i32 3 plain 02000000 00000000 01000000)",
    );
    // The lists `[6, null]`, `[]`, `[5]`.
    expect_packed(
        &rt,
        turned(&rt, some_counts(&rt, &[5, 6, 7], &[true, true, false])),
        "lists [u8?] 3 plain true (numbers u8? 3 told 06 00 05 (bits bool 3 plain 0:05)) \
         (numbers i32 3 plain 00000000 02000000 02000000) \
         (numbers i32 3 plain 02000000 00000000 01000000)",
    );
}

#[test]
fn lists_of_numbers_are_cut_out(rt: HostRuntime) {
    // The lists `[7]`, `[8, 9]`, `[5]` out of five, of elements that are cut out too.
    let elements = counts(&rt, &[1, 5, 6, 7, 8, 9, 1]);
    let elements = elements.slice(rt.alloc(), 1..6).expect(&rt, "sliced");
    let lists = lists_at(&rt, elements, &[0, 2, 3, 0, 4], &[5, 1, 2, 1, 1]);
    expect_packed(
        &rt,
        lists.slice(rt.alloc(), 1..4).expect(&rt, "sliced"),
        "lists [u8] 3 plain true (numbers u8 4 plain 07 08 09 05) \
         (numbers i32 3 plain 00000000 01000000 03000000) \
         (numbers i32 3 plain 01000000 02000000 01000000)",
    );
    // No lists out of three.
    let lists = turned(&rt, counts(&rt, &[5, 6, 7]));
    expect_packed(
        &rt,
        lists.slice(rt.alloc(), 2..2).expect(&rt, "sliced"),
        "lists [u8] 0 plain true (numbers u8 0 plain) (numbers i32 0 plain) (numbers i32 0 plain)",
    );
}

#[test]
fn empty_lists_of_numbers(rt: HostRuntime) {
    // Three empty lists, of which two begin where the elements end.
    expect_packed(
        &rt,
        lists_at(&rt, counts(&rt, &[5, 6]), &[2, 0, 2], &[0, 0, 0]),
        "lists [u8] 3 plain true (numbers u8 0 plain) \
         (numbers i32 3 plain 00000000 00000000 00000000) \
         (numbers i32 3 plain 00000000 00000000 00000000)",
    );
}

#[test]
fn lists_of_lists_of_numbers(rt: HostRuntime) {
    // The lists `[[5], [6, 7]]`, `[[]]`, of lists of lists that stand elsewhere.
    let inner = lists_at(&rt, counts(&rt, &[5, 6, 7]), &[3, 0, 1, 0], &[0, 1, 2, 3]);
    expect_packed(
        &rt,
        lists_at(&rt, inner, &[1, 0], &[2, 1]),
        "lists [[u8]] 2 plain true \
         (lists [u8] 3 plain true (numbers u8 3 plain 05 06 07) \
         (numbers i32 3 plain 00000000 01000000 03000000) \
         (numbers i32 3 plain 01000000 02000000 00000000)) \
         (numbers i32 2 plain 00000000 02000000) (numbers i32 2 plain 02000000 01000000)",
    );
}

#[test]
fn twenty_lists_by_offsets_and_sizes_without_a_sign(rt: HostRuntime) {
    expect_twenty::<u8, i64>(&rt, &[0, 1, 2, 3, 4], &[0, 1, 2]);
    expect_twenty::<u16, u8>(&rt, &[0, 1, 2, 3, 4], &[0, 1, 2]);
    expect_twenty::<u32, u16>(&rt, &[0, 1, 2, 3, 4], &[0, 1, 2]);
    expect_twenty::<u64, u32>(&rt, &[0, 1, 2, 3, 4], &[0, 1, 2]);
}

#[test]
fn twenty_lists_by_offsets_and_sizes_with_a_sign(rt: HostRuntime) {
    expect_twenty::<i8, u64>(&rt, &[0, 1, 2, 3, 4], &[0, 1, 2]);
    expect_twenty::<i16, i8>(&rt, &[0, 1, 2, 3, 4], &[0, 1, 2]);
    expect_twenty::<i32, i16>(&rt, &[0, 1, 2, 3, 4], &[0, 1, 2]);
    expect_twenty::<i64, i32>(&rt, &[0, 1, 2, 3, 4], &[0, 1, 2]);
}

#[test]
fn twenty_lists_of_elements_of_each_width(rt: HostRuntime) {
    expect_twenty_of(&rt, numbers::<u8>(&rt, &[10, 11, 12, 13, 14, 15]));
    expect_twenty_of(&rt, numbers::<i16>(&rt, &[-10, 11, -12, 13, -14, 15]));
    expect_twenty_of(&rt, numbers::<i64>(&rt, &[-10, 11, -12, 13, -14, 15]));
}

#[test]
fn twenty_lists_of_elements_among_which_null_may_stand(rt: HostRuntime) {
    let elements = numbers::<u32>(&rt, &[10, 11, 12, 13, 14, 15]);
    expect_twenty_of(
        &rt,
        null_where(&rt, elements, &[true, true, true, true, true, true]),
    );
    let elements = numbers::<u32>(&rt, &[10, 11, 12, 13, 14, 15]);
    expect_twenty_of(
        &rt,
        null_where(&rt, elements, &[true, false, true, true, false, true]),
    );
}

#[test]
fn many_lists_by_numbers_and_by_codes(rt: HostRuntime) {
    for len in [127, 128, 129, 300] {
        let elements = numbers::<u32>(&rt, &[10, 11, 12, 13, 14, 15]);
        expect_alike::<i16, u64>(&rt, elements, &[0, 1, 2, 3, 4], &[0, 1, 2], len);
    }
}

#[test]
fn lists_by_numbers_and_by_constants(rt: HostRuntime) {
    // The lists `[5, 6]`, `[6, 7]`, by numbers and by constants.
    let sizes = same_counts(&rt, 2, 2);
    let made = [
        lists_at(&rt, counts(&rt, &[5, 6, 7]), &[0, 1], &[2, 2]),
        lists_within(&rt, counts(&rt, &[5, 6, 7]), counts(&rt, &[0, 1]), sizes),
    ];
    expect_packed_alike(&rt, &made);
}
