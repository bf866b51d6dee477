// Numbers.

use super::expect_packed;
use crate::layouts::{counts, null_where, numbers, some_counts};
use std::process::Abort;
use vx_base::NativePType;
use vx_tree::ArrayRef;

// Three numbers, of which the second one lies below a null.
fn null_between<T: NativePType>(rt: &(impl Abort + AllocGlobal), items: &[T; 3]) -> ArrayRef {
    null_where(rt, numbers::<T>(rt, items), &[true, false, true])
}

#[test]
fn numbers_without_a_sign(rt: HostRuntime) {
    let made = numbers::<u8>(&rt, &[0, 255]);
    expect_packed(&rt, made, "numbers u8 2 plain 00 ff");
    let made = numbers::<u16>(&rt, &[258, 65535]);
    expect_packed(&rt, made, "numbers u16 2 plain 0201 ffff");
    let made = numbers::<u32>(&rt, &[16909060, 4294967295]);
    expect_packed(&rt, made, "numbers u32 2 plain 04030201 ffffffff");
    let made = numbers::<u64>(&rt, &[72623859790382856, 18446744073709551615]);
    expect_packed(
        &rt,
        made,
        "numbers u64 2 plain 0807060504030201 ffffffffffffffff",
    );
}

#[test]
fn numbers_with_a_sign(rt: HostRuntime) {
    let made = numbers::<i8>(&rt, &[-1, -128, 127]);
    expect_packed(&rt, made, "numbers i8 3 plain ff 80 7f");
    let made = numbers::<i16>(&rt, &[-2, 258]);
    expect_packed(&rt, made, "numbers i16 2 plain feff 0201");
    let made = numbers::<i32>(&rt, &[-2, 16909060]);
    expect_packed(&rt, made, "numbers i32 2 plain feffffff 04030201");
    let made = numbers::<i64>(&rt, &[-2, 72623859790382856]);
    expect_packed(
        &rt,
        made,
        "numbers i64 2 plain feffffffffffffff 0807060504030201",
    );
}

#[test]
fn null_numbers_without_a_sign_are_zero(rt: HostRuntime) {
    expect_packed(
        &rt,
        null_between::<u8>(&rt, &[7, 171, 9]),
        "numbers u8? 3 told 07 00 09 (bits bool 3 plain 0:05)",
    );
    expect_packed(
        &rt,
        null_between::<u16>(&rt, &[7, 43947, 9]),
        "numbers u16? 3 told 0700 0000 0900 (bits bool 3 plain 0:05)",
    );
    expect_packed(
        &rt,
        null_between::<u32>(&rt, &[7, 2880154539, 9]),
        "numbers u32? 3 told 07000000 00000000 09000000 (bits bool 3 plain 0:05)",
    );
    expect_packed(
        &rt,
        null_between::<u64>(&rt, &[7, 12370169555311111083, 9]),
        "numbers u64? 3 told 0700000000000000 0000000000000000 0900000000000000 \
         (bits bool 3 plain 0:05)",
    );
}

#[test]
fn null_numbers_with_a_sign_are_zero(rt: HostRuntime) {
    expect_packed(
        &rt,
        null_between::<i8>(&rt, &[-7, -85, 9]),
        "numbers i8? 3 told f9 00 09 (bits bool 3 plain 0:05)",
    );
    expect_packed(
        &rt,
        null_between::<i16>(&rt, &[-7, -21589, 9]),
        "numbers i16? 3 told f9ff 0000 0900 (bits bool 3 plain 0:05)",
    );
    expect_packed(
        &rt,
        null_between::<i32>(&rt, &[-7, -1414812757, 9]),
        "numbers i32? 3 told f9ffffff 00000000 09000000 (bits bool 3 plain 0:05)",
    );
    expect_packed(
        &rt,
        null_between::<i64>(&rt, &[-7, -6076574518398440533, 9]),
        "numbers i64? 3 told f9ffffffffffffff 0000000000000000 0900000000000000 \
         (bits bool 3 plain 0:05)",
    );
}

#[test]
fn numbers_are_cut_out(rt: HostRuntime) {
    // The middle of four numbers.
    let rows = counts(&rt, &[9, 5, 6, 9]);
    let made = rows.slice(rt.alloc(), 1..3).expect(&rt, "sliced");
    expect_packed(&rt, made, "numbers u8 2 plain 05 06");
    // The three in the middle of five numbers, of which the second one lies below a null.
    let rows = numbers::<u16>(&rt, &[9, 258, 43947, 65535, 9]);
    let rows = null_where(&rt, rows, &[true, true, false, true, true]);
    expect_packed(
        &rt,
        rows.slice(rt.alloc(), 1..4).expect(&rt, "sliced"),
        "numbers u16? 3 told 0201 0000 ffff (bits bool 3 plain 0:05)",
    );
}

#[test]
fn no_bits_tell_that_all_numbers_are_there_or_none(rt: HostRuntime) {
    let made = some_counts(&rt, &[5, 6], &[true, true]);
    expect_packed(&rt, made, "numbers u8? 2 all 05 06");
    let made = some_counts(&rt, &[5, 6], &[false, false]);
    expect_packed(&rt, made, "numbers u8? 2 none 00 00");
}
