// What was cut away is in no buffer: rows 1 and 3 of four are marked, and are cut, filtered or
// masked away, or not taken.

use super::{LEVELS, expect_packed};
use crate::layouts::{
    LONG, counts, fixed, lists_at, named, null_where, numbers, records, texts, view, wrapped,
};
use crate::written::written;
use std::process::Abort;
use vx_base::{BitBuffer, Mask};
use vx_tree::ArrayRef;

// The bytes of marked numbers and texts, as they are written.
const MARKS: [&str; 2] = ["abababab", "c2abc2ab"];

// A marked text of 14 bytes, and one of 13 bytes that stands after it.
const MARKED: &[u8] = b"\xC2\xAB\xC2\xAB\xC2\xAB\xC2\xAB\xC2\xAB\xC2\xAB\xC2\xAB";

const AFTER: &[u8] = b"\xC2\xAB\xC2\xAB\xC2\xAB\xC2\xAB\xC2\xAB\xC2\xAB\xC2\xABthirteen byte";

// What the texts pack to.
const TEXTS: [&str; 4] = [
    "views text 1 plain 0d000000.74686972.00000000.00000000 <746869727465656e2062797465>",
    "views text 2 plain 1d000000.74686973.00000000.00000000 \
     0d000000.74686972.00000000.1d000000 \
     <746869732076616c756520697320646566696e6974656c79206c6f6e67\
     746869727465656e2062797465>",
    "views text 2 plain 0d000000.74686972.00000000.00000000 \
     1d000000.74686973.00000000.0d000000 \
     <746869727465656e2062797465\
     746869732076616c756520697320646566696e6974656c79206c6f6e67>",
    "views text? 4 told 1d000000.74686973.00000000.00000000 \
     00000000.00000000.00000000.00000000 0d000000.74686972.00000000.1d000000 \
     00000000.00000000.00000000.00000000 \
     <746869732076616c756520697320646566696e6974656c79206c6f6e67\
     746869727465656e2062797465> (bits bool 4 plain 0:05)",
];

// Whether a text has a mark.
fn is_marked(text: &str) -> bool {
    text.contains(MARKS[0]) || text.contains(MARKS[1])
}

// Rows 0 and 2 of four.
fn filtered(rt: &(impl Abort + AllocGlobal), rows: &ArrayRef) -> ArrayRef {
    let bits = BitBuffer::from_bools(rt.alloc(), &[true, false, true, false]).expect(rt, "bits");
    let mask = Mask::from_buffer(rt.alloc(), bits).expect(rt, "a mask");
    rows.filter(rt.alloc(), &mask).expect(rt, "filtered")
}

// Rows 2 and 0.
fn taken(rt: &(impl Abort + AllocGlobal), rows: &ArrayRef) -> ArrayRef {
    rows.take(rt.alloc(), &counts(rt, &[2, 0]))
        .expect(rt, "taken")
}

// Stops unless row 2 alone, rows 0 and 2, rows 2 and 0, and all rows with 1 and 3 null pack to
// these parts, in which no mark is.
fn expect_cut_away(rt: &(impl Abort + AllocGlobal), rows: ArrayRef, wanted: &[&str; 4]) {
    assert!(rt; is_marked(written(rt, &rows, LEVELS).as_str()));
    for text in wanted {
        assert!(rt; !is_marked(text));
    }
    let third = rows.slice(rt.alloc(), 2..3).expect(rt, "sliced");
    expect_packed(rt, third, wanted[0]);
    expect_packed(rt, filtered(rt, &rows), wanted[1]);
    expect_packed(rt, taken(rt, &rows), wanted[2]);
    let nulls = null_where(rt, rows, &[true, false, true, false]);
    expect_packed(rt, nulls, wanted[3]);
}

// The numbers 1 and 3 beside two marked ones.
fn some_numbers(rt: &(impl Abort + AllocGlobal)) -> ArrayRef {
    numbers::<u32>(rt, &[1, 2880154539, 3, 2880154539])
}

// A long text and one of 13 bytes beside marked ones.
fn some_texts(rt: &(impl Abort + AllocGlobal)) -> ArrayRef {
    let marked = view(rt, MARKED, 1, 0);
    let views = [
        view(rt, LONG, 0, 0),
        marked,
        view(rt, b"thirteen byte", 1, 14),
        marked,
    ];
    texts(rt, &views, &[LONG, AFTER])
}

#[test]
fn numbers_that_are_cut_away(rt: HostRuntime) {
    expect_cut_away(
        &rt,
        some_numbers(&rt),
        &[
            "numbers u32 1 plain 03000000",
            "numbers u32 2 plain 01000000 03000000",
            "numbers u32 2 plain 03000000 01000000",
            "numbers u32? 4 told 01000000 00000000 03000000 00000000 (bits bool 4 plain 0:05)",
        ],
    );
}

#[test]
fn texts_that_are_cut_away(rt: HostRuntime) {
    expect_cut_away(&rt, some_texts(&rt), &TEXTS);
}

#[test]
fn values_that_no_code_names(rt: HostRuntime) {
    // The same texts by codes.
    expect_cut_away(
        &rt,
        named(&rt, counts(&rt, &[0, 1, 2, 3]), some_texts(&rt)),
        &TEXTS,
    );
}

#[test]
fn lists_of_texts_that_are_cut_away(rt: HostRuntime) {
    // The lists of a long text, and of one of 13 bytes and an empty one, beside marked ones.
    expect_cut_away(
        &rt,
        lists_at(&rt, some_texts(&rt), &[0, 1, 2, 3], &[1, 1, 1, 1]),
        &[
            "lists [text] 1 plain true \
             (views text 1 plain 0d000000.74686972.00000000.00000000 \
             <746869727465656e2062797465>) \
             (numbers i32 1 plain 00000000) (numbers i32 1 plain 01000000)",
            "lists [text] 2 plain true \
             (views text 2 plain 1d000000.74686973.00000000.00000000 \
             0d000000.74686972.00000000.1d000000 \
             <746869732076616c756520697320646566696e6974656c79206c6f6e67\
             746869727465656e2062797465>) \
             (numbers i32 2 plain 00000000 01000000) (numbers i32 2 plain 01000000 01000000)",
            "lists [text] 2 plain true \
             (views text 2 plain 0d000000.74686972.00000000.00000000 \
             1d000000.74686973.00000000.0d000000 \
             <746869727465656e2062797465\
             746869732076616c756520697320646566696e6974656c79206c6f6e67>) \
             (numbers i32 2 plain 00000000 01000000) (numbers i32 2 plain 01000000 01000000)",
            "lists [text]? 4 told true \
             (views text 2 plain 1d000000.74686973.00000000.00000000 \
             0d000000.74686972.00000000.1d000000 \
             <746869732076616c756520697320646566696e6974656c79206c6f6e67\
             746869727465656e2062797465>) \
             (numbers i32 4 plain 00000000 01000000 01000000 02000000) \
             (numbers i32 4 plain 01000000 00000000 01000000 00000000) (bits bool 4 plain 0:05)",
        ],
    );
}

#[test]
fn records_of_lists_that_are_cut_away(rt: HostRuntime) {
    // The records `{a:[1, 3]}`, `{a:[3]}` beside marked ones.
    let elements = numbers::<u32>(&rt, &[2880154539, 1, 3, 2880154539]);
    let lists = lists_at(&rt, elements, &[1, 0, 2, 3], &[2, 1, 1, 1]);
    expect_cut_away(
        &rt,
        wrapped(&rt, "a", lists),
        &[
            "records {a:[u32]} 1 plain .a \
             (lists [u32] 1 plain true (numbers u32 1 plain 03000000) \
             (numbers i32 1 plain 00000000) (numbers i32 1 plain 01000000))",
            "records {a:[u32]} 2 plain .a \
             (lists [u32] 2 plain true (numbers u32 3 plain 01000000 03000000 03000000) \
             (numbers i32 2 plain 00000000 02000000) (numbers i32 2 plain 02000000 01000000))",
            "records {a:[u32]} 2 plain .a \
             (lists [u32] 2 plain true (numbers u32 3 plain 03000000 01000000 03000000) \
             (numbers i32 2 plain 00000000 01000000) (numbers i32 2 plain 01000000 02000000))",
            "records {a:[u32]}? 4 told .a \
             (lists [u32] 4 plain true (numbers u32 3 plain 01000000 03000000 03000000) \
             (numbers i32 4 plain 00000000 02000000 02000000 03000000) \
             (numbers i32 4 plain 02000000 00000000 01000000 00000000)) (bits bool 4 plain 0:05)",
        ],
    );
}

#[test]
fn lists_of_one_size_that_are_cut_away(rt: HostRuntime) {
    // The lists `[1, 2]`, `[3, 4]` of one size beside marked ones.
    let marked = 2880154539;
    let elements = numbers::<u32>(&rt, &[1, 2, marked, marked, 3, 4, marked, marked]);
    expect_cut_away(
        &rt,
        fixed(&rt, elements, 2, 4),
        &[
            "fixed [u32;2] 1 plain (numbers u32 2 plain 03000000 04000000)",
            "fixed [u32;2] 2 plain (numbers u32 4 plain 01000000 02000000 03000000 04000000)",
            "fixed [u32;2] 2 plain (numbers u32 4 plain 03000000 04000000 01000000 02000000)",
            "fixed [u32;2]? 4 told (numbers u32 8 plain 01000000 02000000 00000000 00000000 \
             03000000 04000000 00000000 00000000) (bits bool 4 plain 0:05)",
        ],
    );
}

#[test]
fn records_of_texts_that_are_cut_away(rt: HostRuntime) {
    // The records `{a:1,b:this value is definitely long}`, `{a:3,b:thirteen byte}` beside marked
    // ones.
    expect_cut_away(
        &rt,
        records(&rt, &["a", "b"], some_numbers(&rt), some_texts(&rt)),
        &[
            "records {a:u32,b:text} 1 plain .a .b (numbers u32 1 plain 03000000) \
             (views text 1 plain 0d000000.74686972.00000000.00000000 <746869727465656e2062797465>)",
            "records {a:u32,b:text} 2 plain .a .b (numbers u32 2 plain 01000000 03000000) \
             (views text 2 plain 1d000000.74686973.00000000.00000000 \
             0d000000.74686972.00000000.1d000000 \
             <746869732076616c756520697320646566696e6974656c79206c6f6e67\
             746869727465656e2062797465>)",
            "records {a:u32,b:text} 2 plain .a .b (numbers u32 2 plain 03000000 01000000) \
             (views text 2 plain 0d000000.74686972.00000000.00000000 \
             1d000000.74686973.00000000.0d000000 \
             <746869727465656e2062797465\
             746869732076616c756520697320646566696e6974656c79206c6f6e67>)",
            "records {a:u32,b:text}? 4 told \
             .a .b (numbers u32 4 plain 01000000 00000000 03000000 00000000) \
             (views text 4 plain 1d000000.74686973.00000000.00000000 \
             00000000.00000000.00000000.00000000 0d000000.74686972.00000000.1d000000 \
             00000000.00000000.00000000.00000000 \
             <746869732076616c756520697320646566696e6974656c79206c6f6e67\
             746869727465656e2062797465>) (bits bool 4 plain 0:05)",
        ],
    );
}
