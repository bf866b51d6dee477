// Columns of more rows than memory holds, or than can be counted.

use super::{expect_packed, expect_parts};
use crate::layouts::{
    MANY, defaults, fixed_of, lists_within, many_columns, many_named, numbers, records, records_of,
    same, same_counts, same_lists, u8s, value, without_columns,
};
use std::process::Abort;
use vx_base::Nullability::{self, NonNullable, Nullable};
use vx_base::{DType, ScalarValue, ScalarValues, VortexError};
use vx_pack::Pack;
use vx_tree::ArrayRef;

// A quarter of the rows that can be counted.
const QUARTER: i64 = 4611686018427387904;

// Stops unless what was made is refused in this way.
fn expect_refused(rt: &(impl Abort + AllocGlobal), made: ArrayRef, wanted: VortexError) {
    assert_eq!(rt; made.pack(rt.alloc()).err(), Some(wanted));
}

// Stops unless what was made packs to these parts. Its rows are not compared, since no layout says
// that they are all one.
fn expect_many(rt: &(impl Abort + AllocGlobal), made: ArrayRef, wanted: &str) {
    let packed = expect_parts(rt, &made, wanted);
    assert_eq!(rt; packed.len(), made.len());
}

// Lists of so many elements, each from the first one on.
fn lists_from_start(
    rt: &(impl Abort + AllocGlobal),
    elements: ArrayRef,
    sizes: &[i64],
) -> ArrayRef {
    let offsets = same_counts(rt, 0, sizes.len());
    lists_within(rt, elements, offsets, numbers::<i64>(rt, sizes))
}

// Lists of so many zeroes.
fn lists_of_zeroes(rt: &(impl Abort + AllocGlobal), sizes: &[i64]) -> ArrayRef {
    lists_from_start(rt, same_counts(rt, 0, QUARTER as usize), sizes)
}

// Lists of so many records without columns.
fn lists_of_nothing(rt: &(impl Abort + AllocGlobal), sizes: &[i64]) -> ArrayRef {
    lists_from_start(rt, without_columns(rt, i64::MAX as usize), sizes)
}

// So many rows of the default list of a size.
fn fixed_lists(
    rt: &(impl Abort + AllocGlobal),
    size: u32,
    nullability: Nullability,
    len: usize,
) -> ArrayRef {
    defaults(rt, fixed_of(rt, u8s(NonNullable), size, nullability), len)
}

// 2^33 null lists of 2^31 elements each.
fn too_large(rt: &(impl Abort + AllocGlobal)) -> ArrayRef {
    fixed_lists(rt, 2147483648, Nullable, 8589934592)
}

// The values of an empty list, and of a record without columns.
fn no_values(rt: &(impl Abort + AllocGlobal)) -> ScalarValues {
    ScalarValues::from_vec(rt.alloc(), Vec::new(rt.alloc())).expect(rt, "no values")
}

// The data type of records without columns.
fn bare(rt: &(impl Abort + AllocGlobal), nullability: Nullability) -> DType {
    records_of(rt, &[], [], nullability)
}

#[test]
fn elements_that_i64_does_not_count(rt: HostRuntime) {
    let sizes = [QUARTER, QUARTER, QUARTER, QUARTER];
    expect_refused(&rt, lists_of_zeroes(&rt, &sizes), VortexError::Overflow);
    let sizes = [QUARTER, QUARTER];
    expect_refused(&rt, lists_of_zeroes(&rt, &sizes), VortexError::Overflow);
    let sizes = [QUARTER, QUARTER - 1];
    expect_refused(&rt, lists_of_zeroes(&rt, &sizes), VortexError::Memory);
    let sizes = [i64::MAX, 1];
    expect_refused(&rt, lists_of_nothing(&rt, &sizes), VortexError::Overflow);
}

#[test]
fn lists_that_are_one_are_counted_by_a_product(rt: HostRuntime) {
    let items = [Some(1), Some(2), Some(3)];
    let lists = same_lists(&rt, &items, NonNullable, QUARTER as usize);
    expect_refused(&rt, lists, VortexError::Overflow);
}

#[test]
fn elements_of_one_size_that_usize_does_not_count(rt: HostRuntime) {
    expect_refused(&rt, too_large(&rt), VortexError::Overflow);
}

#[test]
fn too_many_elements_at_any_depth(rt: HostRuntime) {
    // A list of these lists, and records of others.
    expect_refused(
        &rt,
        lists_from_start(&rt, too_large(&rt), &[8589934592]),
        VortexError::Overflow,
    );
    let first = lists_of_nothing(&rt, &[1, 2]);
    let second = lists_of_nothing(&rt, &[i64::MAX, 1]);
    expect_refused(
        &rt,
        records(&rt, &["a", "b"], first, second),
        VortexError::Overflow,
    );
}

#[test]
fn more_rows_than_memory_holds(rt: HostRuntime) {
    let memory = VortexError::Memory;
    expect_refused(&rt, many_named(&rt, 1), memory);
    expect_refused(&rt, same_counts(&rt, 5, MANY), memory);
    expect_refused(&rt, many_columns(&rt, 1), memory);
    expect_refused(&rt, fixed_lists(&rt, 1, NonNullable, MANY), memory);
    let lists = same_lists(&rt, &[Some(7)], NonNullable, MANY);
    expect_refused(&rt, lists, memory);
    let texts = defaults(&rt, DType::Utf8(NonNullable), MANY);
    expect_refused(&rt, texts, memory);
    // The record `{a:0}`.
    let dtypes = [u8s(NonNullable)];
    let dtype = records_of(&rt, &["a"], dtypes, NonNullable);
    expect_refused(&rt, defaults(&rt, dtype, MANY), memory);
}

#[test]
fn offsets_are_of_i32_where_it_holds_the_number_of_elements(rt: HostRuntime) {
    expect_packed(
        &rt,
        lists_of_nothing(&rt, &[2147483646, 1]),
        "lists [{}] 2 plain true (records {} 2147483647 plain) \
         (numbers i32 2 plain 00000000 feffff7f) (numbers i32 2 plain feffff7f 01000000)",
    );
    expect_packed(
        &rt,
        lists_of_nothing(&rt, &[2147483647, 1]),
        "lists [{}] 2 plain true (records {} 2147483648 plain) \
         (numbers i64 2 plain 0000000000000000 ffffff7f00000000) \
         (numbers i64 2 plain ffffff7f00000000 0100000000000000)",
    );
    expect_packed(
        &rt,
        lists_of_nothing(&rt, &[i64::MAX]),
        "lists [{}] 1 plain true (records {} 9223372036854775807 plain) \
         (numbers i64 1 plain 0000000000000000) (numbers i64 1 plain ffffffffffffff7f)",
    );
}

#[test]
fn many_lists_of_size_zero(rt: HostRuntime) {
    expect_many(
        &rt,
        fixed_lists(&rt, 0, NonNullable, MANY),
        "fixed [u8;0] 1099511627776 plain (numbers u8 0 plain)",
    );
    expect_many(
        &rt,
        fixed_lists(&rt, 0, Nullable, MANY),
        "fixed [u8;0]? 1099511627776 none (numbers u8 0 plain)",
    );
    // Lists that are there, where null may stand.
    let list = ScalarValue::List(no_values(&rt));
    let dtype = fixed_of(&rt, u8s(NonNullable), 0, Nullable);
    expect_many(
        &rt,
        same(&rt, value(&rt, dtype, list), MANY),
        "fixed [u8;0]? 1099511627776 all (numbers u8 0 plain)",
    );
}

#[test]
fn many_records_without_columns(rt: HostRuntime) {
    expect_many(
        &rt,
        without_columns(&rt, MANY),
        "records {} 1099511627776 plain",
    );
    expect_many(
        &rt,
        defaults(&rt, bare(&rt, NonNullable), MANY),
        "records {} 1099511627776 plain",
    );
    expect_many(
        &rt,
        defaults(&rt, bare(&rt, Nullable), MANY),
        "records {}? 1099511627776 none",
    );
    // Records that are there, where null may stand.
    let record = ScalarValue::Record(no_values(&rt));
    expect_many(
        &rt,
        same(&rt, value(&rt, bare(&rt, Nullable), record), MANY),
        "records {}? 1099511627776 all",
    );
}
