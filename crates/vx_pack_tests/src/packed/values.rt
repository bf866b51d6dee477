// Constants of lists and records: what is packed stands in values, at each depth.

use super::expect_packed;
use crate::layouts::{LONG, fixed_of, lists_of, records_of, same, u8s, value};
use std::process::Abort;
use vx_base::Nullability::{NonNullable, Nullable};
use vx_base::{ByteBuffer, DType, ScalarValue, ScalarValues};
use vx_tree::ArrayRef;

// A number.
fn number(number: i128) -> Option<ScalarValue> {
    Some(ScalarValue::Int(number))
}

// A text.
fn text(rt: &(impl Abort + AllocGlobal), bytes: &[u8]) -> Option<ScalarValue> {
    Some(ScalarValue::Text(ByteBuffer::copy_from(rt.alloc(), bytes).expect(rt, "bytes")))
}

// A list.
fn list(values: ScalarValues) -> Option<ScalarValue> {
    Some(ScalarValue::List(values))
}

// These values.
fn some<const N: usize>(
    rt: &(impl Abort + AllocGlobal),
    values: [Option<ScalarValue>; N],
) -> ScalarValues {
    let values = Vec::from_array(rt.alloc(), values).expect(rt, "values");
    ScalarValues::from_vec(rt.alloc(), values).expect(rt, "values")
}

// A list of these values, so many times.
fn same_lists(
    rt: &(impl Abort + AllocGlobal),
    items: DType,
    values: ScalarValues,
    len: usize,
) -> ArrayRef {
    let dtype = lists_of(rt, items, NonNullable);
    same(rt, value(rt, dtype, ScalarValue::List(values)), len)
}

#[test]
fn constant_lists_of_leaves(rt: HostRuntime) {
    // Twice a long text, null, and a short one.
    let values = some(&rt, [text(&rt, LONG), None, text(&rt, b"a")]);
    expect_packed(
        &rt,
        same_lists(&rt, DType::Utf8(Nullable), values, 2),
        "lists [text?] 2 plain true (views text? 6 told 1d000000.74686973.00000000.00000000 \
         00000000.00000000.00000000.00000000 01000000.61000000.00000000.00000000 \
         1d000000.74686973.00000000.1d000000 00000000.00000000.00000000.00000000 \
         01000000.61000000.00000000.00000000 \
         <746869732076616c756520697320646566696e6974656c79206c6f6e67\
         746869732076616c756520697320646566696e6974656c79206c6f6e67> (bits bool 6 plain 0:2d)) \
         (numbers i32 2 plain 00000000 03000000) (numbers i32 2 plain 03000000 03000000)",
    );
    // Twice true, false, and true.
    let values = some(
        &rt,
        [
            Some(ScalarValue::Bool(true)),
            Some(ScalarValue::Bool(false)),
            Some(ScalarValue::Bool(true)),
        ],
    );
    expect_packed(
        &rt,
        same_lists(&rt, DType::Bool(NonNullable), values, 2),
        "lists [bool] 2 plain true (bits bool 6 plain 0:2d) \
         (numbers i32 2 plain 00000000 03000000) (numbers i32 2 plain 03000000 03000000)",
    );
}

#[test]
fn constant_lists_of_lists(rt: HostRuntime) {
    // Twice the lists `[1]` and `[]`.
    let values = some(&rt, [list(some(&rt, [number(1)])), list(some(&rt, []))]);
    let items = lists_of(&rt, u8s(NonNullable), NonNullable);
    expect_packed(
        &rt,
        same_lists(&rt, items, values, 2),
        "lists [[u8]] 2 plain true (lists [u8] 4 plain true (numbers u8 2 plain 01 01) \
         (numbers i32 4 plain 00000000 01000000 01000000 02000000) \
         (numbers i32 4 plain 01000000 00000000 01000000 00000000)) \
         (numbers i32 2 plain 00000000 02000000) (numbers i32 2 plain 02000000 02000000)",
    );
    // The list `[1, 2]` of size 2, and null.
    let values = some(&rt, [list(some(&rt, [number(1), number(2)])), None]);
    let items = fixed_of(&rt, u8s(NonNullable), 2, Nullable);
    expect_packed(
        &rt,
        same_lists(&rt, items, values, 1),
        "lists [[u8;2]?] 1 plain true \
         (fixed [u8;2]? 2 told (numbers u8 4 plain 01 02 00 00) (bits bool 2 plain 0:01)) \
         (numbers i32 1 plain 00000000) (numbers i32 1 plain 02000000)",
    );
}

#[test]
fn constant_lists_of_records(rt: HostRuntime) {
    // The record `{a:1,b:null}`, and null.
    let row = ScalarValue::Record(some(&rt, [number(1), None]));
    let values = some(&rt, [Some(row), None]);
    let fields = [u8s(NonNullable), u8s(Nullable)];
    let items = records_of(&rt, &["a", "b"], fields, Nullable);
    expect_packed(
        &rt,
        same_lists(&rt, items, values, 1),
        "lists [{a:u8,b:u8?}?] 1 plain true (records {a:u8,b:u8?}? 2 told .a .b \
         (numbers u8 2 plain 01 00) (numbers u8? 2 none 00 00) (bits bool 2 plain 0:01)) \
         (numbers i32 1 plain 00000000) (numbers i32 1 plain 02000000)",
    );
}

#[test]
fn constant_records_of_lists(rt: HostRuntime) {
    // Twice the record of the list `[1, 2]`, and of `[3, 4]` of size 2.
    let first = lists_of(&rt, u8s(NonNullable), NonNullable);
    let second = fixed_of(&rt, u8s(NonNullable), 2, NonNullable);
    let fields = [first, second];
    let dtype = records_of(&rt, &["a", "b"], fields, NonNullable);
    let numbers = list(some(&rt, [number(1), number(2)]));
    let pair = list(some(&rt, [number(3), number(4)]));
    let row = ScalarValue::Record(some(&rt, [numbers, pair]));
    expect_packed(
        &rt,
        same(&rt, value(&rt, dtype, row), 2),
        "records {a:[u8],b:[u8;2]} 2 plain .a .b \
         (lists [u8] 2 plain true (numbers u8 4 plain 01 02 01 02) \
         (numbers i32 2 plain 00000000 02000000) (numbers i32 2 plain 02000000 02000000)) \
         (fixed [u8;2] 2 plain (numbers u8 4 plain 03 04 03 04))",
    );
}
