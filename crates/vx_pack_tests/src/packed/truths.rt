// Truth values.

use super::{expect_packed, expect_packed_alike};
use crate::layouts::{counts, named, some_truths, truths};
use std::process::Abort;
use vx_tree::ArrayRef;

// Twenty truth values, of which eleven from the sixth on are true, false, true, true, false, false,
// false, true, false, true, false, and all others are true.
const TWENTY: [bool; 20] = [
    true, true, true, true, true, true, false, true, true, false, false, false, true, false, true,
    false, true, true, true, true,
];

// Which of twenty rows are there: all but the third, the eighth and the tenth of the eleven.
const THERE: [bool; 20] = [
    true, true, true, true, true, true, true, false, true, true, true, true, false, true, false,
    true, true, true, true, true,
];

// The codes 0, 1 and 2 by turns, so many.
fn turns(rt: &(impl Abort + AllocGlobal), len: usize) -> Vec<u8> {
    let mut codes = Vec::new(rt.alloc());
    for i in 0..len {
        codes.push((i % 3) as u8).expect(rt, "a code");
    }
    codes
}

// True for the code 0, false for 1 and null for 2, with a bit that is set below each null.
fn by_bits(rt: &(impl Abort + AllocGlobal), codes: &[u8]) -> ArrayRef {
    let mut values = Vec::new(rt.alloc());
    let mut valid = Vec::new(rt.alloc());
    for code in codes {
        values.push(*code != 1).expect(rt, "a value");
        valid.push(*code < 2).expect(rt, "whether it is there");
    }
    some_truths(rt, &values, &valid)
}

// The same by a dictionary, which is read row by row.
fn by_codes(rt: &(impl Abort + AllocGlobal), codes: &[u8]) -> ArrayRef {
    let values = some_truths(rt, &[true, false, true], &[true, true, false]);
    named(rt, counts(rt, codes), values)
}

// So many of these rows from the sixth on, in both layouts.
fn both(rt: &(impl Abort + AllocGlobal), len: usize) -> [ArrayRef; 2] {
    let codes = turns(rt, len.saturating_add(9));
    let end = len.saturating_add(5);
    [
        by_bits(rt, &codes)
            .slice(rt.alloc(), 5..end)
            .expect(rt, "sliced"),
        by_codes(rt, &codes)
            .slice(rt.alloc(), 5..end)
            .expect(rt, "sliced"),
    ]
}

#[test]
fn truths_and_nulls_pack_alike_by_bits_and_by_rows(rt: HostRuntime) {
    for len in [63, 64, 65, 200] {
        let made = both(&rt, len);
        expect_packed_alike(&rt, &made);
    }
}

#[test]
fn many_truths_and_nulls(rt: HostRuntime) {
    expect_packed(
        &rt,
        by_bits(&rt, &turns(&rt, 66)),
        "bits bool? 66 told 0:499224499224499200 (bits bool 66 plain 0:dbb66ddbb66ddbb601)",
    );
}

#[test]
fn null_truths_are_false(rt: HostRuntime) {
    let made = some_truths(&rt, &[true, true, false], &[true, false, true]);
    expect_packed(&rt, made, "bits bool? 3 told 0:01 (bits bool 3 plain 0:05)");
    let made = some_truths(&rt, &[true, false], &[true, true]);
    expect_packed(&rt, made, "bits bool? 2 all 0:01");
    let made = some_truths(&rt, &[true, true], &[false, false]);
    expect_packed(&rt, made, "bits bool? 2 none 0:00");
}

#[test]
fn bits_begin_with_the_first_byte(rt: HostRuntime) {
    // The eleven.
    let made = truths(&rt, &TWENTY)
        .slice(rt.alloc(), 5..16)
        .expect(&rt, "sliced");
    expect_packed(&rt, made, "bits bool 11 plain 0:8d02");
    // The eleven, of which three are null.
    let rows = some_truths(&rt, &TWENTY, &THERE);
    expect_packed(
        &rt,
        rows.slice(rt.alloc(), 5..16).expect(&rt, "sliced"),
        "bits bool? 11 told 0:0900 (bits bool 11 plain 0:7b05)",
    );
}

#[test]
fn no_bit_after_the_last_row_is_set(rt: HostRuntime) {
    let made = truths(&rt, &[true, true, true, true, true, true, true]);
    expect_packed(&rt, made, "bits bool 7 plain 0:7f");
    let made = truths(&rt, &[true, true, true, true, true, true, true, true]);
    expect_packed(&rt, made, "bits bool 8 plain 0:ff");
    let made = truths(&rt, &[true, true, true, true, true, true, true, true, true]);
    expect_packed(&rt, made, "bits bool 9 plain 0:ff01");
}
