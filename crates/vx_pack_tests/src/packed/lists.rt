// Lists.

use super::expect_packed;
use crate::layouts::{
    LONG, OUT_OF_ORDER, OVERLAPPING, counts, defaults, in_order, lists_at, null_where,
    same_nullable, some_counts, texts, three_lists, truths, u8s, view,
};
use std::process::Abort;
use vx_base::Nullability;
use vx_tree::ArrayRef;

// The lists `[1, 2]`, `[]`, `[2, 3]`.
const LISTS: &str = "lists [u8] 3 plain true (numbers u8 4 plain 01 02 02 03) \
    (numbers i32 3 plain 00000000 02000000 02000000) \
    (numbers i32 3 plain 02000000 00000000 02000000)";

// The numbers 1, null, 2, 7.
fn some_null(rt: &(impl Abort + AllocGlobal)) -> ArrayRef {
    some_counts(rt, &[1, 171, 2, 7], &[true, false, true, true])
}

// The lists of a number that may be null, twice, and once, and null between them.
fn null_beside(rt: &(impl Abort + AllocGlobal), number: ArrayRef) -> ArrayRef {
    let lists = lists_at(rt, number, &[0, 0, 1], &[2, 3, 1]);
    null_where(rt, lists, &[true, false, true])
}

#[test]
fn lists_stand_end_to_end(rt: HostRuntime) {
    expect_packed(&rt, in_order(&rt), LISTS);
    // The last one first.
    let turned = three_lists(&rt, counts(&rt, &[2, 3, 1, 2]), &OUT_OF_ORDER);
    expect_packed(&rt, turned, LISTS);
    // Three lists that share elements, with some between them.
    let shared = three_lists(&rt, counts(&rt, &[1, 2, 3, 9]), &OVERLAPPING);
    expect_packed(&rt, shared, LISTS);
}

#[test]
fn lists_are_cut_out(rt: HostRuntime) {
    // Two lists out of five.
    let elements = counts(&rt, &[1, 2, 3, 4, 5, 6, 7, 8]);
    let lists = lists_at(&rt, elements, &[0, 6, 2, 3, 1], &[8, 2, 1, 3, 7]);
    expect_packed(
        &rt,
        lists.slice(rt.alloc(), 1..3).expect(&rt, "sliced"),
        "lists [u8] 2 plain true (numbers u8 3 plain 07 08 03) \
         (numbers i32 2 plain 00000000 02000000) (numbers i32 2 plain 02000000 01000000)",
    );
}

#[test]
fn empty_lists_have_no_elements(rt: HostRuntime) {
    // Two empty lists among elements.
    expect_packed(
        &rt,
        lists_at(&rt, counts(&rt, &[171, 171]), &[1, 2], &[0, 0]),
        "lists [u8] 2 plain true (numbers u8 0 plain) \
         (numbers i32 2 plain 00000000 00000000) (numbers i32 2 plain 00000000 00000000)",
    );
}

#[test]
fn null_lists_have_no_elements(rt: HostRuntime) {
    // The lists `[1, 2]`, null, `[2, 3]`: the null one has a size.
    let lists = lists_at(&rt, counts(&rt, &[1, 2, 3, 171]), &[0, 2, 1], &[2, 2, 2]);
    expect_packed(
        &rt,
        null_where(&rt, lists, &[true, false, true]),
        "lists [u8]? 3 told true (numbers u8 4 plain 01 02 02 03) \
         (numbers i32 3 plain 00000000 02000000 02000000) \
         (numbers i32 3 plain 02000000 00000000 02000000) (bits bool 3 plain 0:05)",
    );
}

#[test]
fn the_elements_of_lists_tell_their_own_nulls(rt: HostRuntime) {
    // The lists `[1, null]`, `[null, 2]`.
    expect_packed(
        &rt,
        lists_at(&rt, some_null(&rt), &[0, 1], &[2, 2]),
        "lists [u8?] 2 plain true (numbers u8? 4 told 01 00 00 02 (bits bool 4 plain 0:09)) \
         (numbers i32 2 plain 00000000 02000000) (numbers i32 2 plain 02000000 02000000)",
    );
    // The lists `[2]`, `[1]` of elements of which others are null.
    expect_packed(
        &rt,
        lists_at(&rt, some_null(&rt), &[2, 0], &[1, 1]),
        "lists [u8?] 2 plain true (numbers u8? 2 all 02 01) \
         (numbers i32 2 plain 00000000 01000000) (numbers i32 2 plain 01000000 01000000)",
    );
    // The lists `[null]`, `[null]`.
    expect_packed(
        &rt,
        lists_at(&rt, some_null(&rt), &[1, 1], &[1, 1]),
        "lists [u8?] 2 plain true (numbers u8? 2 none 00 00) \
         (numbers i32 2 plain 00000000 01000000) (numbers i32 2 plain 01000000 01000000)",
    );
}

#[test]
fn a_null_list_tells_nothing_of_its_elements(rt: HostRuntime) {
    expect_packed(
        &rt,
        null_beside(&rt, same_nullable(&rt, 5, 3)),
        "lists [u8?]? 3 told true (numbers u8? 3 all 05 05 05) \
         (numbers i32 3 plain 00000000 02000000 02000000) \
         (numbers i32 3 plain 02000000 00000000 01000000) (bits bool 3 plain 0:05)",
    );
    expect_packed(
        &rt,
        null_beside(&rt, defaults(&rt, u8s(Nullability::Nullable), 3)),
        "lists [u8?]? 3 told true (numbers u8? 3 none 00 00 00) \
         (numbers i32 3 plain 00000000 02000000 02000000) \
         (numbers i32 3 plain 02000000 00000000 01000000) (bits bool 3 plain 0:05)",
    );
}

#[test]
fn lists_of_lists_stand_end_to_end_at_both_levels(rt: HostRuntime) {
    // The lists `[[], [2, 3]]`, `[]`, `[[1, 2]]`.
    expect_packed(
        &rt,
        lists_at(&rt, in_order(&rt), &[1, 0, 0], &[2, 0, 1]),
        "lists [[u8]] 3 plain true \
         (lists [u8] 3 plain true (numbers u8 4 plain 02 03 01 02) \
         (numbers i32 3 plain 00000000 00000000 02000000) \
         (numbers i32 3 plain 00000000 02000000 02000000)) \
         (numbers i32 3 plain 00000000 02000000 02000000) \
         (numbers i32 3 plain 02000000 00000000 01000000)",
    );
}

#[test]
fn lists_of_lists_with_nulls_at_both_levels(rt: HostRuntime) {
    // The lists `[null]`, `[[], [2, 3]]`, null.
    let inner = null_where(&rt, in_order(&rt), &[false, true, true]);
    let lists = lists_at(&rt, inner, &[0, 1, 0], &[1, 2, 3]);
    expect_packed(
        &rt,
        null_where(&rt, lists, &[true, true, false]),
        "lists [[u8]?]? 3 told true \
         (lists [u8]? 3 told true (numbers u8 2 plain 02 03) \
         (numbers i32 3 plain 00000000 00000000 00000000) \
         (numbers i32 3 plain 00000000 00000000 02000000) (bits bool 3 plain 0:06)) \
         (numbers i32 3 plain 00000000 01000000 03000000) \
         (numbers i32 3 plain 01000000 02000000 00000000) (bits bool 3 plain 0:03)",
    );
}

#[test]
fn the_texts_of_all_lists_share_a_buffer(rt: HostRuntime) {
    // The lists of a long text and a short one, and of a text of 13 bytes.
    let views = [
        view(&rt, b"thirteen byte", 0, 29),
        view(&rt, LONG, 0, 0),
        view(&rt, b"a", 0, 0),
    ];
    let bytes = b"this value is definitely longthirteen byte".as_slice();
    expect_packed(
        &rt,
        lists_at(&rt, texts(&rt, &views, &[bytes]), &[1, 0], &[2, 1]),
        "lists [text] 2 plain true \
         (views text 3 plain 1d000000.74686973.00000000.00000000 \
         01000000.61000000.00000000.00000000 0d000000.74686972.00000000.1d000000 \
         <746869732076616c756520697320646566696e6974656c79206c6f6e67\
         746869727465656e2062797465>) \
         (numbers i32 2 plain 00000000 02000000) (numbers i32 2 plain 02000000 01000000)",
    );
}

#[test]
fn the_bits_of_all_lists_share_bytes(rt: HostRuntime) {
    // The lists `[true, false]`, `[true, false, true]`.
    let elements = truths(&rt, &[true, false, true, true, false]);
    expect_packed(
        &rt,
        lists_at(&rt, elements, &[3, 0], &[2, 3]),
        "lists [bool] 2 plain true (bits bool 5 plain 0:15) \
         (numbers i32 2 plain 00000000 02000000) (numbers i32 2 plain 02000000 03000000)",
    );
}
