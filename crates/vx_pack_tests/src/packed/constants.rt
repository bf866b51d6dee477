// Constants.

use super::expect_packed;
use crate::layouts::{
    END_TO_END, LONG, same, same_counts, same_lists, same_nullable, same_records, text, three_lists,
};
use vx_base::{Nullability, Scalar};

#[test]
fn constant_truth_values(rt: HostRuntime) {
    let made = same(&rt, Scalar::bool(true, Nullability::NonNullable), 9);
    expect_packed(&rt, made, "bits bool 9 plain 0:ff01");
    let made = same(&rt, Scalar::bool(true, Nullability::Nullable), 2);
    expect_packed(&rt, made, "bits bool? 2 all 0:03");
}

#[test]
fn constant_numbers(rt: HostRuntime) {
    let made = same_counts(&rt, 5, 3);
    expect_packed(&rt, made, "numbers u8 3 plain 05 05 05");
    let made = same_nullable(&rt, 5, 2);
    expect_packed(&rt, made, "numbers u8? 2 all 05 05");
}

#[test]
fn a_constant_text_stands_once_for_each_row(rt: HostRuntime) {
    expect_packed(
        &rt,
        same(&rt, text(&rt, LONG, Nullability::NonNullable), 2),
        "views text 2 plain 1d000000.74686973.00000000.00000000 \
         1d000000.74686973.00000000.1d000000 \
         <746869732076616c756520697320646566696e6974656c79206c6f6e67\
         746869732076616c756520697320646566696e6974656c79206c6f6e67>",
    );
}

#[test]
fn constant_lists(rt: HostRuntime) {
    expect_packed(
        &rt,
        same_lists(&rt, &[Some(7), None], Nullability::Nullable, 2),
        "lists [u8?] 2 plain true (numbers u8? 4 told 07 00 07 00 (bits bool 4 plain 0:05)) \
         (numbers i32 2 plain 00000000 02000000) (numbers i32 2 plain 02000000 02000000)",
    );
    // The lists `[7, 7]`, `[]`, `[7, 7]` of a constant.
    expect_packed(
        &rt,
        three_lists(&rt, same_counts(&rt, 7, 4), &END_TO_END),
        "lists [u8] 3 plain true (numbers u8 4 plain 07 07 07 07) \
         (numbers i32 3 plain 00000000 02000000 02000000) \
         (numbers i32 3 plain 02000000 00000000 02000000)",
    );
}

#[test]
fn constant_records(rt: HostRuntime) {
    expect_packed(
        &rt,
        same_records(&rt, &[Some(1), None], 2),
        "records {a:u8,b:u8?} 2 plain .a .b (numbers u8 2 plain 01 01) (numbers u8? 2 none 00 00)",
    );
}
