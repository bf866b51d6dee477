// Lists that lie anywhere among their elements: so many that they are compared by blocks, somewhat
// fewer, and as many as a block has.

use super::expect_rows;
use crate::layouts::{counts, lists_at, lists_within, numbers, texts, view};
use std::process::Abort;
use vx_tree::ArrayRef;

// Each number and the next one, a pair that begins otherwise than the first, and one that ends
// otherwise.
const PAIRS: [u8; 12] = [0, 1, 2, 3, 4, 5, 6, 7, 9, 1, 0, 9];

// Where the pair of each number begins.
const PLACES: [u8; 7] = [0, 1, 2, 3, 4, 5, 6];

// The same pairs elsewhere.
const TURNED: [u8; 14] = [6, 7, 5, 6, 4, 5, 3, 4, 2, 3, 1, 2, 0, 1];

const TURNED_PLACES: [u8; 7] = [12, 10, 8, 6, 4, 2, 0];

const LETTERS: &[u8; 24] = b"abcdefghijklmnopqrstuvwx";

// How many items so many lists have: both of a pair, its first one, or none. The last has both.
fn sizes(rt: &(impl Abort + AllocGlobal), len: usize) -> Vec<u8> {
    let mut sizes = Vec::new(rt.alloc());
    for i in 0..len {
        let size = if i + 1 == len { 2 } else { [2, 1, 0][i % 3] };
        sizes.push(size).expect(rt, "a size");
    }
    sizes
}

// Where so many lists begin: at the pairs by turns. The last begins where the first does.
fn offsets(rt: &(impl Abort + AllocGlobal), places: &[u8; 7], len: usize) -> Vec<u8> {
    let mut offsets = Vec::new(rt.alloc());
    for i in 0..len {
        let pair = if i + 1 == len { 0 } else { i % 7 };
        offsets.push(places[pair]).expect(rt, "an offset");
    }
    offsets
}

// The same where empty lists begin at the end of the elements.
fn ending(rt: &(impl Abort + AllocGlobal), offsets: &[u8], sizes: &[u8], end: u8) -> Vec<u8> {
    let mut all = Vec::new(rt.alloc());
    for (offset, size) in offsets.iter().zip(sizes) {
        let place = if *size == 0 { end } else { *offset };
        all.push(place).expect(rt, "an offset");
    }
    all
}

// The same numbers, but one.
fn but(rt: &(impl Abort + AllocGlobal), numbers: &[u8], i: usize, number: u8) -> Vec<u8> {
    let mut all = Vec::new(rt.alloc());
    all.extend_from_slice(numbers).expect(rt, "numbers");
    if i < all.len() {
        all[i] = number;
    }
    all
}

// Lists by offsets and sizes of other types.
fn wide_lists(
    rt: &(impl Abort + AllocGlobal),
    elements: ArrayRef,
    offsets: &[u8],
    sizes: &[u8],
) -> ArrayRef {
    let mut wide_offsets = Vec::new(rt.alloc());
    for offset in offsets {
        wide_offsets.push(*offset as i16).expect(rt, "an offset");
    }
    let mut wide_sizes = Vec::new(rt.alloc());
    for size in sizes {
        wide_sizes.push(*size as i64).expect(rt, "a size");
    }
    let offsets = numbers::<i16>(rt, &wide_offsets);
    lists_within(rt, elements, offsets, numbers::<i64>(rt, &wide_sizes))
}

// A text for each of these numbers, one of a letter or a long one.
fn texts_for(rt: &(impl Abort + AllocGlobal), numbers: &[u8]) -> ArrayRef {
    let letters: &[u8] = LETTERS;
    let mut views = Vec::new(rt.alloc());
    for number in numbers {
        let start = (*number % 10) as usize;
        let len = if *number % 2 == 0 { 1 } else { 13 };
        let text = view(rt, &letters[start..start + len], 0, start as u32);
        views.push(text).expect(rt, "a view");
    }
    texts(rt, &views, &[letters])
}

// Numbers of type u64.
fn wide_numbers(rt: &(impl Abort + AllocGlobal), items: &[u8]) -> ArrayRef {
    let mut wide = Vec::new(rt.alloc());
    for item in items {
        wide.push(*item as u64).expect(rt, "a number");
    }
    numbers::<u64>(rt, &wide)
}

// What the elements are: numbers of one byte or of eight, or texts.
#[derive(Clone, Copy)]
enum Kind {
    Narrow,
    Wide,
    Texts,
}

// An element for each of these numbers.
fn elements(rt: &(impl Abort + AllocGlobal), items: &[u8], kind: Kind) -> ArrayRef {
    match kind {
        Kind::Narrow => counts(rt, items),
        Kind::Wide => wide_numbers(rt, items),
        Kind::Texts => texts_for(rt, items),
    }
}

// Lists of the pairs, which begin there and have these sizes.
fn lists_of_pairs(
    rt: &(impl Abort + AllocGlobal),
    kind: Kind,
    offsets: &[u8],
    sizes: &[u8],
) -> ArrayRef {
    lists_at(rt, elements(rt, &PAIRS, kind), offsets, sizes)
}

// Stops unless so many lists have the same rows wherever they lie, and others where the first item
// differs, or the last one, or a size.
fn expect_lists_anywhere(rt: &(impl Abort + AllocGlobal), len: usize, kind: Kind) {
    let last = len.saturating_sub(1);
    let sizes = sizes(rt, len);
    let places = offsets(rt, &PLACES, len);
    let ends = ending(rt, &places, &sizes, 12);
    let turned = elements(rt, &TURNED, kind);
    let made = [
        lists_of_pairs(rt, kind, &places, &sizes),
        lists_of_pairs(rt, kind, &ends, &sizes),
        lists_at(rt, turned, &offsets(rt, &TURNED_PLACES, len), &sizes),
        wide_lists(rt, elements(rt, &PAIRS, kind), &ends, &sizes),
    ];
    let others = [
        lists_of_pairs(rt, kind, &but(rt, &places, 0, 8), &sizes),
        lists_of_pairs(rt, kind, &but(rt, &places, last, 10), &sizes),
        lists_of_pairs(rt, kind, &places, &but(rt, &sizes, 0, 1)),
        lists_of_pairs(rt, kind, &places, &but(rt, &sizes, last, 1)),
    ];
    expect_rows(rt, &made, &others);
}

#[test]
fn some_lists_of_numbers(rt: HostRuntime) {
    expect_lists_anywhere(&rt, 15, Kind::Narrow);
    expect_lists_anywhere(&rt, 16, Kind::Narrow);
    expect_lists_anywhere(&rt, 17, Kind::Narrow);
}

#[test]
fn a_block_of_lists_of_numbers(rt: HostRuntime) {
    expect_lists_anywhere(&rt, 127, Kind::Narrow);
    expect_lists_anywhere(&rt, 128, Kind::Wide);
    expect_lists_anywhere(&rt, 129, Kind::Wide);
}

#[test]
fn some_lists_of_texts(rt: HostRuntime) {
    expect_lists_anywhere(&rt, 15, Kind::Texts);
    expect_lists_anywhere(&rt, 16, Kind::Texts);
    expect_lists_anywhere(&rt, 129, Kind::Texts);
}
