// More rows than could be walked: arrays whose layouts say that all rows are one.

use super::{expect_equal_rows, expect_other_rows};
use crate::layouts::{MANY, many_columns, many_named, same_counts, same_records};

// 2^40 times the number 5, and rows that differ from them in one thing.
#[test]
fn many_numbers_in_all_layouts(rt: HostRuntime) {
    let made = [same_counts(&rt, 5, MANY), many_named(&rt, 1)];
    let others = [
        same_counts(&rt, 6, MANY),
        same_counts(&rt, 5, MANY - 1),
        many_named(&rt, 0),
    ];
    expect_equal_rows(&rt, &made);
    expect_other_rows(&rt, &made, &others);
}

// 2^40 times the record `{a:1,b:null}`, and rows that differ from them in one thing.
#[test]
fn many_records_in_all_layouts(rt: HostRuntime) {
    let made = [
        same_records(&rt, &[Some(1), None], MANY),
        many_columns(&rt, 1),
    ];
    let others = [
        same_records(&rt, &[Some(1), Some(0)], MANY),
        many_columns(&rt, 2),
    ];
    expect_equal_rows(&rt, &made);
    expect_other_rows(&rt, &made, &others);
}
