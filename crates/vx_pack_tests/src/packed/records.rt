// Records.

use super::expect_packed;
use crate::layouts::{
    LONG, counts, fixed, lists_at, null_where, records, same_nullable, some_counts, texts, truths,
    view, without_columns, wrapped,
};
use std::process::Abort;
use vx_tree::ArrayRef;

// A long text, one of 13 bytes, and a short one.
fn three_texts(rt: &(impl Abort + AllocGlobal)) -> ArrayRef {
    let views = [
        view(rt, LONG, 0, 0),
        view(rt, b"thirteen byte", 0, 29),
        view(rt, b"a", 0, 0),
    ];
    texts(
        rt,
        &views,
        &[b"this value is definitely longthirteen byte".as_slice()],
    )
}

// Three records of two columns, of which the second one is null.
fn null_between(rt: &(impl Abort + AllocGlobal), first: ArrayRef, second: ArrayRef) -> ArrayRef {
    null_where(
        rt,
        records(rt, &["a", "b"], first, second),
        &[true, false, true],
    )
}

#[test]
fn null_records_have_default_rows_in_each_column(rt: HostRuntime) {
    expect_packed(
        &rt,
        null_between(&rt, counts(&rt, &[1, 171, 3]), three_texts(&rt)),
        "records {a:u8,b:text}? 3 told .a .b (numbers u8 3 plain 01 00 03) \
         (views text 3 plain 1d000000.74686973.00000000.00000000 \
         00000000.00000000.00000000.00000000 01000000.61000000.00000000.00000000 \
         <746869732076616c756520697320646566696e6974656c79206c6f6e67>) (bits bool 3 plain 0:05)",
    );
    let second = some_counts(&rt, &[5, 171, 7], &[true, true, true]);
    expect_packed(
        &rt,
        null_between(&rt, truths(&rt, &[true, true, true]), second),
        "records {a:bool,b:u8?}? 3 told .a .b (bits bool 3 plain 0:05) \
         (numbers u8? 3 told 05 00 07 (bits bool 3 plain 0:05)) (bits bool 3 plain 0:05)",
    );
    // Numbers that the state says are all there.
    let first = counts(&rt, &[1, 171, 3]);
    expect_packed(
        &rt,
        null_between(&rt, first, same_nullable(&rt, 5, 3)),
        "records {a:u8,b:u8?}? 3 told .a .b (numbers u8 3 plain 01 00 03) \
         (numbers u8? 3 told 05 00 05 (bits bool 3 plain 0:05)) (bits bool 3 plain 0:05)",
    );
    let first = lists_at(&rt, counts(&rt, &[1, 2, 171, 4]), &[0, 2, 3], &[2, 1, 1]);
    let second = fixed(&rt, counts(&rt, &[5, 6, 171, 171, 7, 8]), 2, 3);
    expect_packed(
        &rt,
        null_between(&rt, first, second),
        "records {a:[u8],b:[u8;2]}? 3 told .a .b \
         (lists [u8] 3 plain true (numbers u8 3 plain 01 02 04) \
         (numbers i32 3 plain 00000000 02000000 02000000) \
         (numbers i32 3 plain 02000000 00000000 01000000)) \
         (fixed [u8;2] 3 plain (numbers u8 6 plain 05 06 00 00 07 08)) (bits bool 3 plain 0:05)",
    );
}

#[test]
fn records_are_cut_out(rt: HostRuntime) {
    // The records `{a:4,b:1}`, `{a:2,b:3}` out of four that lie the other way round.
    let first = counts(&rt, &[9, 4, 2, 9]);
    let rows = records(&rt, &["a", "b"], first, counts(&rt, &[9, 1, 3, 9]));
    expect_packed(
        &rt,
        rows.slice(rt.alloc(), 1..3).expect(&rt, "sliced"),
        "records {a:u8,b:u8} 2 plain .a .b (numbers u8 2 plain 04 02) (numbers u8 2 plain 01 03)",
    );
}

#[test]
fn fields_of_one_name_stay_apart(rt: HostRuntime) {
    // One record of two fields of one name.
    expect_packed(
        &rt,
        records(&rt, &["a", "a"], counts(&rt, &[1]), counts(&rt, &[2])),
        "records {a:u8,a:u8} 1 plain .a .a (numbers u8 1 plain 01) (numbers u8 1 plain 02)",
    );
}

#[test]
fn null_records_of_records(rt: HostRuntime) {
    // The records `{a:{b:1}}`, null, `{a:{b:3}}`.
    let inner = wrapped(&rt, "b", counts(&rt, &[1, 171, 3]));
    expect_packed(
        &rt,
        null_where(&rt, wrapped(&rt, "a", inner), &[true, false, true]),
        "records {a:{b:u8}}? 3 told .a \
         (records {b:u8} 3 plain .b (numbers u8 3 plain 01 00 03)) (bits bool 3 plain 0:05)",
    );
    // The records `{a:null}`, null, `{a:{b:3}}`.
    let inner = wrapped(&rt, "b", counts(&rt, &[171, 171, 3]));
    let inner = null_where(&rt, inner, &[false, true, true]);
    expect_packed(
        &rt,
        null_where(&rt, wrapped(&rt, "a", inner), &[true, false, true]),
        "records {a:{b:u8}?}? 3 told .a \
         (records {b:u8}? 3 told .b (numbers u8 3 plain 00 00 03) (bits bool 3 plain 0:04)) \
         (bits bool 3 plain 0:05)",
    );
}

#[test]
fn records_without_columns(rt: HostRuntime) {
    let made = without_columns(&rt, 3);
    expect_packed(&rt, made, "records {} 3 plain");
    expect_packed(
        &rt,
        null_where(&rt, without_columns(&rt, 3), &[true, false, true]),
        "records {}? 3 told (bits bool 3 plain 0:05)",
    );
}
