// Dictionaries.

use super::expect_packed;
use crate::layouts::{
    LONG, OUT_OF_ORDER, counts, fixed, named, records, same_counts, some_counts, texts,
    three_lists, view,
};
use std::process::Abort;
use vx_tree::ArrayRef;

// The codes 1, null, 0: no value has the number that lies below the null.
fn one_null_zero(rt: &(impl Abort + AllocGlobal)) -> ArrayRef {
    some_counts(rt, &[1, 171, 0], &[true, false, true])
}

// The values 5, null, 7.
fn null_value(rt: &(impl Abort + AllocGlobal)) -> ArrayRef {
    some_counts(rt, &[5, 171, 7], &[true, false, true])
}

#[test]
fn numbers_that_codes_name(rt: HostRuntime) {
    // The codes 2, null, 0: no value has the number that lies below the null.
    let codes = some_counts(&rt, &[2, 171, 0], &[true, false, true]);
    expect_packed(
        &rt,
        named(&rt, codes, counts(&rt, &[5, 6, 7])),
        "numbers u8? 3 told 07 00 05 (bits bool 3 plain 0:05)",
    );
    expect_packed(
        &rt,
        named(&rt, counts(&rt, &[1, 0, 1, 2]), null_value(&rt)),
        "numbers u8? 4 told 00 05 00 07 (bits bool 4 plain 0:0a)",
    );
    expect_packed(
        &rt,
        named(&rt, one_null_zero(&rt), null_value(&rt)),
        "numbers u8? 3 told 00 00 05 (bits bool 3 plain 0:04)",
    );
    // The numbers 5, 6, null, null: one code is null at each of two levels.
    let values = named(&rt, one_null_zero(&rt), counts(&rt, &[5, 6]));
    let codes = some_counts(&rt, &[2, 0, 171, 1], &[true, true, false, true]);
    expect_packed(
        &rt,
        named(&rt, codes, values),
        "numbers u8? 4 told 05 06 00 00 (bits bool 4 plain 0:03)",
    );
}

#[test]
fn no_bits_tell_that_all_named_numbers_are_there_or_none(rt: HostRuntime) {
    // Codes that name no null value, and are all there.
    let codes = some_counts(&rt, &[2, 0], &[true, true]);
    expect_packed(
        &rt,
        named(&rt, codes, null_value(&rt)),
        "numbers u8? 2 all 07 05",
    );
    // Codes that name a null value alone.
    expect_packed(
        &rt,
        named(&rt, same_counts(&rt, 1, 2), null_value(&rt)),
        "numbers u8? 2 none 00 00",
    );
}

#[test]
fn a_text_stands_as_often_as_codes_name_it(rt: HostRuntime) {
    // A long text, twice, of two that differ in their last byte.
    let views = [
        view(&rt, b"this value is definitely lost", 0, 29),
        view(&rt, LONG, 0, 0),
    ];
    let bytes = b"this value is definitely longthis value is definitely lost".as_slice();
    expect_packed(
        &rt,
        named(&rt, counts(&rt, &[1, 1]), texts(&rt, &views, &[bytes])),
        "views text 2 plain 1d000000.74686973.00000000.00000000 \
         1d000000.74686973.00000000.1d000000 \
         <746869732076616c756520697320646566696e6974656c79206c6f6e67\
         746869732076616c756520697320646566696e6974656c79206c6f6e67>",
    );
}

#[test]
fn lists_that_codes_name(rt: HostRuntime) {
    // The lists null, `[1, 2]`, `[]`.
    let codes = some_counts(&rt, &[2, 0, 1], &[false, true, true]);
    let lists = three_lists(&rt, counts(&rt, &[171, 171, 1, 2]), &OUT_OF_ORDER);
    expect_packed(
        &rt,
        named(&rt, codes, lists),
        "lists [u8]? 3 told true (numbers u8 2 plain 01 02) \
         (numbers i32 3 plain 00000000 00000000 02000000) \
         (numbers i32 3 plain 00000000 02000000 00000000) (bits bool 3 plain 0:06)",
    );
}

#[test]
fn lists_of_one_size_that_codes_name(rt: HostRuntime) {
    // The lists `[3, 4]`, null, `[1, 2]` of one size.
    let lists = fixed(&rt, counts(&rt, &[1, 2, 3, 4]), 2, 2);
    expect_packed(
        &rt,
        named(&rt, one_null_zero(&rt), lists),
        "fixed [u8;2]? 3 told (numbers u8 6 plain 03 04 00 00 01 02) (bits bool 3 plain 0:05)",
    );
}

#[test]
fn records_that_codes_name(rt: HostRuntime) {
    // The records `{a:2,b:4}`, null, `{a:1,b:3}`.
    let rows = records(&rt, &["a", "b"], counts(&rt, &[1, 2]), counts(&rt, &[3, 4]));
    expect_packed(
        &rt,
        named(&rt, one_null_zero(&rt), rows),
        "records {a:u8,b:u8}? 3 told .a .b (numbers u8 3 plain 02 00 01) \
         (numbers u8 3 plain 04 00 03) (bits bool 3 plain 0:05)",
    );
}
