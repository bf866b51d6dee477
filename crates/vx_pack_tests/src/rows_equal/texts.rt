// Texts and byte lists.

use super::expect_rows;
use crate::layouts::{
    END_TO_END, LONG, OUT_OF_ORDER, byte_lists, counts, named, null_where, same, some_counts, text,
    texts, three_lists, value, view,
};
use std::process::Abort;
use vx_base::{ByteBuffer, DType, Nullability, ScalarValue};
use vx_tree::ArrayRef;

const LOST: &[u8] = b"this value is definitely lost";

// Two buffers, of which the second one holds the long text from its second byte on.
const TWO: [&[u8]; 2] = [LOST, b"-this value is definitely long-"];

// The texts `hi`, null, and a long one.
fn some_texts(rt: &(impl Abort + AllocGlobal)) -> [ArrayRef; 5] {
    let there = [true, false, true];
    let hi = view(rt, b"hi", 0, 0);
    let long = view(rt, LONG, 0, 0);
    let moved = view(rt, LONG, 1, 1);
    let no = view(rt, b"no", 0, 0);
    let longer = texts(rt, &[no, hi, no, moved, no], &TWO);
    let part = longer.slice(rt.alloc(), 1..4).expect(rt, "sliced");
    let codes = some_counts(rt, &[1, 0, 2], &there);
    let values = null_where(rt, texts(rt, &[hi, hi, long], &[LONG]), &there);
    [
        null_where(rt, texts(rt, &[hi, hi, long], &[LONG]), &there),
        // Another value lay there, and the long text lies elsewhere.
        null_where(rt, texts(rt, &[hi, moved, moved], &TWO), &there),
        null_where(rt, part, &there),
        // A null code.
        named(rt, codes, texts(rt, &[no, hi, long], &[LONG])),
        // A null value.
        named(rt, counts(rt, &[0, 1, 2]), values),
    ]
}

// Texts that differ from them in one thing.
fn other_texts(rt: &(impl Abort + AllocGlobal)) -> [ArrayRef; 7] {
    let there = [true, false, true];
    let hi = view(rt, b"hi", 0, 0);
    let ho = view(rt, b"ho", 0, 0);
    let none = view(rt, b"", 0, 0);
    let long = view(rt, LONG, 0, 0);
    let lost = view(rt, LOST, 0, 0);
    let part = view(rt, b"this value is definitely", 0, 0);
    [
        // The last byte of a long text.
        null_where(rt, texts(rt, &[hi, hi, lost], &[LOST]), &there),
        // A shorter text, which begins as the long one.
        null_where(rt, texts(rt, &[hi, hi, part], &[LONG]), &there),
        null_where(rt, texts(rt, &[ho, hi, long], &[LONG]), &there),
        // An empty text in place of null, and null in place of a text.
        null_where(
            rt,
            texts(rt, &[hi, none, long], &[LONG]),
            &[true, true, true],
        ),
        null_where(
            rt,
            texts(rt, &[hi, hi, long], &[LONG]),
            &[true, false, false],
        ),
        // Null may not stand.
        texts(rt, &[hi, none, long], &[LONG]),
        // Byte lists.
        null_where(rt, byte_lists(rt, &[hi, hi, long], &[LONG]), &there),
    ]
}

#[test]
fn some_texts_in_all_layouts(rt: HostRuntime) {
    expect_rows(&rt, &some_texts(&rt), &other_texts(&rt));
}

// A long text, twice, and rows that differ from them in one thing.
#[test]
fn texts_that_are_all_one(rt: HostRuntime) {
    let plain = Nullability::NonNullable;
    let hi = view(&rt, b"hi", 0, 0);
    let long = view(&rt, LONG, 0, 0);
    let moved = view(&rt, LONG, 1, 1);
    let made = [
        same(&rt, text(&rt, LONG, plain), 2),
        texts(&rt, &[long, long], &[LONG]),
        texts(&rt, &[moved, moved], &TWO),
        // The values are a constant.
        named(
            &rt,
            counts(&rt, &[6, 2]),
            same(&rt, text(&rt, LONG, plain), 7),
        ),
    ];
    let bytes = ByteBuffer::copy_from(rt.alloc(), LONG).expect(&rt, "bytes");
    let bytes = value(&rt, DType::Binary(plain), ScalarValue::Bytes(bytes));
    let others = [
        same(&rt, text(&rt, LOST, plain), 2),
        same(&rt, text(&rt, LONG, plain), 3),
        same(&rt, text(&rt, LONG, Nullability::Nullable), 2),
        texts(&rt, &[long, hi], &[LONG]),
        byte_lists(&rt, &[long, long], &[LONG]),
        same(&rt, bytes, 2),
    ];
    expect_rows(&rt, &made, &others);
}

// The lists `[hi, long]`, `[]`, `[long, no]` of texts: in order, and elsewhere in other buffers.
// Lists that differ from them in a short text, in a long one, and in the order of texts.
#[test]
fn texts_of_lists_in_other_places(rt: HostRuntime) {
    let hi = view(&rt, b"hi", 0, 0);
    let no = view(&rt, b"no", 0, 0);
    let lost = view(&rt, LOST, 0, 0);
    let long = view(&rt, LONG, 0, 0);
    let moved = view(&rt, LONG, 1, 1);
    let made = [
        three_lists(&rt, texts(&rt, &[hi, long, long, no], &[LONG]), &END_TO_END),
        three_lists(
            &rt,
            texts(&rt, &[moved, no, hi, moved], &TWO),
            &OUT_OF_ORDER,
        ),
    ];
    let others = [
        three_lists(&rt, texts(&rt, &[hi, moved, moved, hi], &TWO), &END_TO_END),
        three_lists(&rt, texts(&rt, &[hi, moved, lost, no], &TWO), &END_TO_END),
        three_lists(&rt, texts(&rt, &[moved, hi, moved, no], &TWO), &END_TO_END),
    ];
    expect_rows(&rt, &made, &others);
}
