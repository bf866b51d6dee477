// Lists of one size.

use super::{expect_packed, expect_packed_alike};
use crate::layouts::{counts, fixed, named, null_where};
use std::process::Abort;
use vx_tree::ArrayRef;

// Four lists, the numbers 1 to 8.
fn pairs(rt: &(impl Abort + AllocGlobal)) -> ArrayRef {
    fixed(rt, counts(rt, &[1, 2, 3, 4, 5, 6, 7, 8]), 2, 4)
}

// The lists `[3, 4]`, `[5, 6]` out of four.
fn cut(rt: &(impl Abort + AllocGlobal)) -> ArrayRef {
    pairs(rt).slice(rt.alloc(), 1..3).expect(rt, "sliced")
}

// Three lists of size 0, of which these are there.
fn of_none(rt: &(impl Abort + AllocGlobal), valid: &[bool]) -> ArrayRef {
    null_where(rt, fixed(rt, counts(rt, &[]), 0, 3), valid)
}

#[test]
fn lists_of_one_size_pack_alike_in_one_piece_and_by_rows(rt: HostRuntime) {
    // The lists `[3, 4]`, `[5, 6]` in one piece, and by codes, which are read row by row.
    let made = [cut(&rt), named(&rt, counts(&rt, &[1, 2]), pairs(&rt))];
    expect_packed_alike(&rt, &made);
    // The same where null may stand, and none does.
    let all = null_where(&rt, pairs(&rt), &[true, true, true, true]);
    let made = [
        null_where(&rt, cut(&rt), &[true, true]),
        named(&rt, counts(&rt, &[1, 2]), all),
    ];
    expect_packed_alike(&rt, &made);
}

#[test]
fn lists_of_one_size_are_cut_out(rt: HostRuntime) {
    expect_packed(
        &rt,
        cut(&rt),
        "fixed [u8;2] 2 plain (numbers u8 4 plain 03 04 05 06)",
    );
}

#[test]
fn null_lists_of_lists_of_one_size_have_default_rows(rt: HostRuntime) {
    // The lists `[[1, 2], [3, 4]]`, null.
    expect_packed(
        &rt,
        null_where(&rt, fixed(&rt, pairs(&rt), 2, 2), &[true, false]),
        "fixed [[u8;2];2]? 2 told \
         (fixed [u8;2] 4 plain (numbers u8 8 plain 01 02 03 04 00 00 00 00)) \
         (bits bool 2 plain 0:01)",
    );
    // The lists `[[1, 2], null]`, null.
    let inner = null_where(&rt, pairs(&rt), &[true, false, true, true]);
    expect_packed(
        &rt,
        null_where(&rt, fixed(&rt, inner, 2, 2), &[true, false]),
        "fixed [[u8;2]?;2]? 2 told \
         (fixed [u8;2]? 4 told (numbers u8 8 plain 01 02 00 00 00 00 00 00) \
         (bits bool 4 plain 0:01)) (bits bool 2 plain 0:01)",
    );
}

#[test]
fn lists_of_size_zero_have_no_elements(rt: HostRuntime) {
    let made = fixed(&rt, counts(&rt, &[]), 0, 3);
    expect_packed(&rt, made, "fixed [u8;0] 3 plain (numbers u8 0 plain)");
    expect_packed(
        &rt,
        of_none(&rt, &[true, false, true]),
        "fixed [u8;0]? 3 told (numbers u8 0 plain) (bits bool 3 plain 0:05)",
    );
    expect_packed(
        &rt,
        of_none(&rt, &[true, true, true]),
        "fixed [u8;0]? 3 all (numbers u8 0 plain)",
    );
    expect_packed(
        &rt,
        of_none(&rt, &[false, false, false]),
        "fixed [u8;0]? 3 none (numbers u8 0 plain)",
    );
}
