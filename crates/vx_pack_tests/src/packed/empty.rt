// No rows, and rows that are all null.

use super::expect_packed;
use crate::layouts::{
    END_TO_END, LONG, counts, defaults, fixed, fixed_of, lists_of, named, null_where, records_of,
    some_counts, texts, three_lists, u8s, view, wrapped,
};
use std::process::Abort;
use vx_base::DType;
use vx_base::Nullability::{self, NonNullable, Nullable};
use vx_tree::ArrayRef;

// The default list of numbers, so many times.
fn lists(rt: &(impl Abort + AllocGlobal), nullability: Nullability, len: usize) -> ArrayRef {
    defaults(rt, lists_of(rt, u8s(NonNullable), nullability), len)
}

// The default list of two numbers, so many times.
fn pairs(rt: &(impl Abort + AllocGlobal), nullability: Nullability, len: usize) -> ArrayRef {
    defaults(rt, fixed_of(rt, u8s(NonNullable), 2, nullability), len)
}

// The default record of a number and a text, which may be null, so many times.
fn records(rt: &(impl Abort + AllocGlobal), nullability: Nullability, len: usize) -> ArrayRef {
    let fields = [u8s(NonNullable), DType::Utf8(Nullable)];
    defaults(rt, records_of(rt, &["a", "b"], fields, nullability), len)
}

#[test]
fn no_leaves(rt: HostRuntime) {
    let made = defaults(&rt, DType::Bool(NonNullable), 0);
    expect_packed(&rt, made, "bits bool 0 plain 0:");
    let made = defaults(&rt, DType::Bool(Nullable), 0);
    expect_packed(&rt, made, "bits bool? 0 all 0:");
    let made = defaults(&rt, u8s(NonNullable), 0);
    expect_packed(&rt, made, "numbers u8 0 plain");
    let made = defaults(&rt, u8s(Nullable), 0);
    expect_packed(&rt, made, "numbers u8? 0 all");
    let made = defaults(&rt, DType::Utf8(NonNullable), 0);
    expect_packed(&rt, made, "views text 0 plain");
    let made = defaults(&rt, DType::Binary(Nullable), 0);
    expect_packed(&rt, made, "views bytes? 0 all");
}

#[test]
fn no_lists_and_records(rt: HostRuntime) {
    expect_packed(
        &rt,
        lists(&rt, NonNullable, 0),
        "lists [u8] 0 plain true (numbers u8 0 plain) (numbers i32 0 plain) (numbers i32 0 plain)",
    );
    expect_packed(
        &rt,
        lists(&rt, Nullable, 0),
        "lists [u8]? 0 all true (numbers u8 0 plain) (numbers i32 0 plain) (numbers i32 0 plain)",
    );
    expect_packed(
        &rt,
        pairs(&rt, NonNullable, 0),
        "fixed [u8;2] 0 plain (numbers u8 0 plain)",
    );
    expect_packed(
        &rt,
        pairs(&rt, Nullable, 0),
        "fixed [u8;2]? 0 all (numbers u8 0 plain)",
    );
    expect_packed(
        &rt,
        records(&rt, NonNullable, 0),
        "records {a:u8,b:text?} 0 plain .a .b (numbers u8 0 plain) (views text? 0 all)",
    );
    expect_packed(
        &rt,
        records(&rt, Nullable, 0),
        "records {a:u8,b:text?}? 0 all .a .b (numbers u8 0 plain) (views text? 0 all)",
    );
}

#[test]
fn no_rows_of_more(rt: HostRuntime) {
    // None of the rows of an array of each layout.
    let rows = texts(&rt, &[view(&rt, LONG, 0, 0)], &[LONG]);
    expect_packed(
        &rt,
        rows.slice(rt.alloc(), 1..1).expect(&rt, "sliced"),
        "views text 0 plain",
    );
    let rows = three_lists(&rt, counts(&rt, &[171, 171, 171, 171]), &END_TO_END);
    expect_packed(
        &rt,
        rows.slice(rt.alloc(), 2..2).expect(&rt, "sliced"),
        "lists [u8] 0 plain true (numbers u8 0 plain) (numbers i32 0 plain) (numbers i32 0 plain)",
    );
    let values = some_counts(&rt, &[171, 171], &[false, false]);
    expect_packed(
        &rt,
        named(&rt, counts(&rt, &[]), values),
        "numbers u8? 0 all",
    );
}

#[test]
fn leaves_that_are_all_null(rt: HostRuntime) {
    let made = defaults(&rt, DType::Bool(Nullable), 2);
    expect_packed(&rt, made, "bits bool? 2 none 0:00");
    let made = defaults(&rt, u8s(Nullable), 2);
    expect_packed(&rt, made, "numbers u8? 2 none 00 00");
    let made = defaults(&rt, DType::Utf8(Nullable), 1);
    expect_packed(
        &rt,
        made,
        "views text? 1 none 00000000.00000000.00000000.00000000",
    );
    let made = defaults(&rt, DType::Binary(Nullable), 1);
    expect_packed(
        &rt,
        made,
        "views bytes? 1 none 00000000.00000000.00000000.00000000",
    );
}

#[test]
fn lists_and_records_that_are_all_null(rt: HostRuntime) {
    expect_packed(
        &rt,
        lists(&rt, Nullable, 2),
        "lists [u8]? 2 none true (numbers u8 0 plain) \
         (numbers i32 2 plain 00000000 00000000) (numbers i32 2 plain 00000000 00000000)",
    );
    expect_packed(
        &rt,
        pairs(&rt, Nullable, 2),
        "fixed [u8;2]? 2 none (numbers u8 4 plain 00 00 00 00)",
    );
    expect_packed(
        &rt,
        records(&rt, Nullable, 1),
        "records {a:u8,b:text?}? 1 none .a .b (numbers u8 1 plain 00) \
         (views text? 1 none 00000000.00000000.00000000.00000000)",
    );
}

#[test]
fn rows_that_bits_make_null(rt: HostRuntime) {
    // Lists over sizes.
    let lists = three_lists(&rt, counts(&rt, &[171, 171, 171, 171]), &END_TO_END);
    expect_packed(
        &rt,
        null_where(&rt, lists, &[false, false, false]),
        "lists [u8]? 3 none true (numbers u8 0 plain) \
         (numbers i32 3 plain 00000000 00000000 00000000) \
         (numbers i32 3 plain 00000000 00000000 00000000)",
    );
    // Lists of one size over elements.
    let lists = fixed(&rt, counts(&rt, &[171, 171, 171, 171]), 2, 2);
    expect_packed(
        &rt,
        null_where(&rt, lists, &[false, false]),
        "fixed [u8;2]? 2 none (numbers u8 4 plain 00 00 00 00)",
    );
    // Records over fields.
    let rows = wrapped(&rt, "a", counts(&rt, &[171, 171]));
    expect_packed(
        &rt,
        null_where(&rt, rows, &[false, false]),
        "records {a:u8}? 2 none .a (numbers u8 2 plain 00 00)",
    );
}
