// Truth values.

use super::expect_rows;
use crate::layouts::{counts, named, null_where, same, some_truths, truths};
use vx_base::{Nullability, Scalar};

// True, null, false, and rows that differ from them in one thing.
#[test]
fn some_truths_in_all_layouts(rt: HostRuntime) {
    let longer = [
        true, true, true, true, true, true, true, true, true, true, false,
    ];
    let part = truths(&rt, &longer)
        .slice(rt.alloc(), 8..11)
        .expect(&rt, "sliced");
    let values = some_truths(&rt, &[false, true, true], &[true, false, true]);
    let made = [
        some_truths(&rt, &[true, false, false], &[true, false, true]),
        // Another bit lies below the null.
        some_truths(&rt, &[true, true, false], &[true, false, true]),
        // Bits that do not begin a byte.
        null_where(&rt, part, &[true, false, true]),
        named(&rt, counts(&rt, &[2, 1, 0]), values),
    ];
    let others = [
        some_truths(&rt, &[true, false, true], &[true, false, true]),
        some_truths(&rt, &[false, false, false], &[true, false, true]),
        // The default row in place of null.
        some_truths(&rt, &[true, false, false], &[true, true, true]),
        some_truths(&rt, &[true, false, false], &[true, false, false]),
        truths(&rt, &[true, false, false]),
    ];
    expect_rows(&rt, &made, &others);
}

// True three times, where no null may stand, and rows that differ from them in one thing.
#[test]
fn same_truths_in_all_layouts(rt: HostRuntime) {
    let made = [
        truths(&rt, &[true, true, true]),
        same(&rt, Scalar::bool(true, Nullability::NonNullable), 3),
        named(&rt, counts(&rt, &[0, 1, 0]), truths(&rt, &[true, true])),
    ];
    let others = [
        truths(&rt, &[true, true, false]),
        truths(&rt, &[true, true]),
        same(&rt, Scalar::bool(true, Nullability::Nullable), 3),
        same(&rt, Scalar::bool(false, Nullability::NonNullable), 3),
    ];
    expect_rows(&rt, &made, &others);
}
