// Records.

use super::expect_rows;
use crate::layouts::{
    END_TO_END, OVERLAPPING, counts, defaults, fixed, in_order, named, null_where, records,
    same_counts, same_records, some_counts, three_lists, u8s,
};
use std::process::Abort;
use vx_base::Nullability;
use vx_tree::ArrayRef;

// Nulls of type u8.
fn nulls(rt: &(impl Abort + AllocGlobal), len: usize) -> ArrayRef {
    defaults(rt, u8s(Nullability::Nullable), len)
}

// Records of these numbers and the lists `[1, 2]`, `[]`, `[2, 3]`.
fn numbered(rt: &(impl Abort + AllocGlobal), names: &[&str; 2], numbers: &[u8]) -> ArrayRef {
    records(rt, names, counts(rt, numbers), in_order(rt))
}

// The records `{a:1,b:[1,2]}`, `{a:0,b:[]}`, `{a:3,b:[2,3]}`, and rows that differ from them in one
// thing.
#[test]
fn some_records_in_all_layouts(rt: HostRuntime) {
    let names = &["a", "b"];
    let first = named(&rt, counts(&rt, &[1, 2, 0]), counts(&rt, &[3, 1, 0]));
    let overlapping = three_lists(&rt, counts(&rt, &[1, 2, 3, 9]), &OVERLAPPING);
    let second = named(&rt, counts(&rt, &[2, 1, 0]), in_order(&rt));
    let turned = records(&rt, names, counts(&rt, &[3, 0, 1]), second);
    let made = [
        numbered(&rt, names, &[1, 0, 3]),
        records(&rt, names, first, overlapping),
        named(&rt, counts(&rt, &[2, 1, 0]), turned),
    ];
    let element = three_lists(&rt, counts(&rt, &[1, 2, 2, 4]), &END_TO_END);
    let nullable = some_counts(&rt, &[1, 0, 3], &[true, true, true]);
    let others = [
        // A number, and an element of a list.
        numbered(&rt, names, &[1, 0, 4]),
        records(&rt, names, counts(&rt, &[1, 0, 3]), element),
        // A name, and the order of the names.
        numbered(&rt, &["a", "c"], &[1, 0, 3]),
        numbered(&rt, &["b", "a"], &[1, 0, 3]),
        // Null may stand in a column, or among the records.
        records(&rt, names, nullable, in_order(&rt)),
        null_where(&rt, numbered(&rt, names, &[1, 0, 3]), &[true, true, true]),
    ];
    expect_rows(&rt, &made, &others);
}

// The records `{a:1,b:[1,2]}`, null, `{a:3,b:[2,3]}`, and rows that differ from them in one thing.
#[test]
fn records_and_null_in_all_layouts(rt: HostRuntime) {
    let names = &["a", "b"];
    let codes = some_counts(&rt, &[0, 1, 2], &[true, false, true]);
    let made = [
        null_where(&rt, numbered(&rt, names, &[1, 0, 3]), &[true, false, true]),
        // Other fields lie below the null.
        null_where(&rt, numbered(&rt, names, &[1, 9, 3]), &[true, false, true]),
        named(&rt, codes, numbered(&rt, names, &[1, 0, 3])),
    ];
    let others = [
        // The default record in place of null, and another null.
        null_where(&rt, numbered(&rt, names, &[1, 0, 3]), &[true, true, true]),
        null_where(&rt, numbered(&rt, names, &[1, 0, 3]), &[true, false, false]),
        // A field of a record that is there.
        null_where(&rt, numbered(&rt, names, &[2, 0, 3]), &[true, false, true]),
    ];
    expect_rows(&rt, &made, &others);
}

// The record `{a:1,b:null}`, three times, and rows that differ from them in one thing.
#[test]
fn same_rows_in_all_layouts(rt: HostRuntime) {
    let names = &["a", "b"];
    let second = some_counts(&rt, &[4, 5, 6], &[false, false, false]);
    let fewer = same_records(&rt, &[Some(1), None], 2);
    let made = [
        same_records(&rt, &[Some(1), None], 3),
        records(&rt, names, same_counts(&rt, 1, 3), nulls(&rt, 3)),
        records(&rt, names, counts(&rt, &[1, 1, 1]), second),
        named(&rt, counts(&rt, &[1, 0, 0]), fewer),
    ];
    let pairs = fixed(&rt, nulls(&rt, 6), 2, 3);
    let others = [
        same_records(&rt, &[Some(1), Some(0)], 3),
        same_records(&rt, &[Some(2), None], 3),
        same_records(&rt, &[Some(1), None], 4),
        records(&rt, names, counts(&rt, &[1, 1, 2]), nulls(&rt, 3)),
        records(&rt, &["a", "c"], same_counts(&rt, 1, 3), nulls(&rt, 3)),
        records(&rt, names, same_counts(&rt, 1, 3), pairs),
    ];
    expect_rows(&rt, &made, &others);
}
