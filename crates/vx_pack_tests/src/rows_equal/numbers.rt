// Numbers.

use super::expect_rows;
use crate::layouts::{counts, named, null_where, numbers, same_counts, some_counts, truths};

// The number 5, null, and the number 5 again, of type u8, and rows that differ from them in one
// thing.
#[test]
fn some_numbers_in_all_layouts(rt: HostRuntime) {
    let there = [true, false, true];
    let longer = some_counts(&rt, &[7, 5, 1, 5, 8], &[false, true, false, true, true]);
    let codes = null_where(&rt, numbers::<i16>(&rt, &[0, 1, 0]), &there);
    let values = some_counts(&rt, &[5, 6, 5], &there);
    let valid = named(&rt, counts(&rt, &[1, 0, 1]), truths(&rt, &[false, true]));
    let made = [
        some_counts(&rt, &[5, 0, 5], &there),
        // Another byte lies below the null.
        some_counts(&rt, &[5, 9, 5], &there),
        // A part of more rows.
        longer.slice(rt.alloc(), 1..4).expect(&rt, "sliced"),
        // A null code, and a null value.
        named(&rt, codes, counts(&rt, &[5, 6])),
        named(&rt, counts(&rt, &[2, 1, 0]), values),
        // A validity that is a dictionary, and rows that are all one but for null.
        counts(&rt, &[5, 5, 5])
            .mask(rt.alloc(), &valid)
            .expect(&rt, "masked"),
        null_where(&rt, same_counts(&rt, 5, 3), &there),
    ];
    let others = [
        // A number.
        some_counts(&rt, &[5, 0, 6], &there),
        // No null: the default row, and the byte that lies below a null.
        some_counts(&rt, &[5, 0, 5], &[true, true, true]),
        some_counts(&rt, &[5, 9, 5], &[true, true, true]),
        // A null more.
        some_counts(&rt, &[5, 0, 5], &[true, false, false]),
        // The length, the type, and rows of another kind.
        some_counts(&rt, &[5, 0], &[true, false]),
        null_where(&rt, numbers::<i8>(&rt, &[5, 0, 5]), &there),
        truths(&rt, &there),
    ];
    expect_rows(&rt, &made, &others);
}

// The numbers 258, -2, 258 of type i32, and rows that differ from them in one thing.
#[test]
fn signed_numbers_in_all_layouts(rt: HostRuntime) {
    let longer = numbers::<i32>(&rt, &[9, 258, -2, 258, 9]);
    let made = [
        numbers::<i32>(&rt, &[258, -2, 258]),
        longer.slice(rt.alloc(), 1..4).expect(&rt, "sliced"),
        named(
            &rt,
            counts(&rt, &[1, 0, 1]),
            numbers::<i32>(&rt, &[-2, 258]),
        ),
    ];
    let others = [
        numbers::<i32>(&rt, &[258, -2, 259]),
        numbers::<i32>(&rt, &[257, -2, 258]),
        numbers::<i32>(&rt, &[258, -2]),
        // Null may stand.
        null_where(
            &rt,
            numbers::<i32>(&rt, &[258, -2, 258]),
            &[true, true, true],
        ),
        // The same bytes as other numbers.
        numbers::<u32>(&rt, &[258, 4294967294, 258]),
        numbers::<i64>(&rt, &[258, -2, 258]),
    ];
    expect_rows(&rt, &made, &others);
}

// The number 5 three times, where no null may stand, and rows that differ from them in one thing.
#[test]
fn same_numbers_in_all_layouts(rt: HostRuntime) {
    let inner = named(&rt, counts(&rt, &[1, 1]), counts(&rt, &[6, 5]));
    let made = [
        same_counts(&rt, 5, 3),
        counts(&rt, &[5, 5, 5]),
        named(&rt, counts(&rt, &[1, 0, 1]), counts(&rt, &[5, 5])),
        named(&rt, same_counts(&rt, 0, 3), counts(&rt, &[5, 6])),
        // A dictionary of a dictionary.
        named(&rt, counts(&rt, &[0, 1, 0]), inner),
    ];
    let others = [
        same_counts(&rt, 6, 3),
        same_counts(&rt, 5, 4),
        counts(&rt, &[5, 5, 6]),
        counts(&rt, &[6, 5, 5]),
        named(&rt, counts(&rt, &[1, 0, 1]), counts(&rt, &[6, 5])),
        some_counts(&rt, &[5, 5, 5], &[true, true, true]),
    ];
    expect_rows(&rt, &made, &others);
}
