// Marks of the values that codes name: a row at a time, and numbers where they lie.

ghost use Rattle.std.specs.Prelude.{◌≡◌, ◌<◌, ◌≤◌, ◌+◌, ◌^◌, ℕ, true, length, slice_index, unsigned_abs};
ghost use Rattle.std.specs.Int.{bit_at};
ghost use Rattle.vx_base.specs.Integers.{numbers};
ghost use Rattle.vx_base.specs.Kinds.{is_integers};
ghost use Rattle.vx_tree.specs.Formed.{IsCode};
ghost use Rattle.vx_tree.specs.Meaning.{kind_of, row_at, tree_len};
ghost use Rattle.vx_tree.specs.Operations.{masked_numbers};
ghost use Rattle.vx_leaves.specs.Dictionaries.{AreNamed, Marks, MarksSet, number_places};

use crate::valid_rows::ValidRows;
use std::ops::Range;
use vx_base::{NativePType, PType, call_native, int_at};
use vx_tree::ArrayRef;

// Marks the place that the code of a row names, where those of the rows before are marked.
pub(crate) fn mark_row(codes: &ArrayRef, row: usize, referenced: bool, out: &mut [bool])
    requires ints { is_integers (kind_of codes.now) ≡ true }
    requires in_bounds { row < tree_len codes.now }
    requires within { IsCode (length out.old) (row_at codes.now row) }
    requires before { AreNamed codes.now row (length out.old) referenced out.old }
    ensures { AreNamed codes.now (row + 1) (length out.old) referenced out.new }
{
    if let Some(number) = codes.int_at(row) {
        out[place_of(number)] = referenced;
    }
}

// Marks the places that numbers name which are valid, where those of the rows before are marked.
pub(crate) fn mark_numbers(
    ptype: PType,
    bytes: &[u8],
    valid: &ValidRows,
    rows: Range<usize>,
    referenced: bool,
    out: &mut [bool],
)
    requires same_len { length valid.now ≡ length (numbers ptype bytes.now) }
    requires within { (i : ℕ) → i < length valid.now
        → IsCode (length out.old) (row_at (masked_numbers ptype bytes.now valid.now) i) }
    requires order { rows.start ≤ rows.end }
    requires here { rows.end ≤ length valid.now }
    requires before { AreNamed (masked_numbers ptype bytes.now valid.now) rows.start (length out.old) referenced out.old }
    ensures { AreNamed (masked_numbers ptype bytes.now valid.now) rows.end (length out.old) referenced out.new }
{
    call_native!(ptype, mark_typed(bytes, valid, rows, referenced, out))
}

// Marks those that numbers of one type name, a word of rows at a time.
fn mark_typed<T: NativePType>(
    bytes: &[u8],
    valid: &ValidRows,
    rows: Range<usize>,
    referenced: bool,
    out: &mut [bool],
)
    requires same_len { length valid.now ≡ length (numbers T.PTYPE bytes.now) }
    requires within { (i : ℕ) → i < length valid.now
        → IsCode (length out.old) (row_at (masked_numbers T.PTYPE bytes.now valid.now) i) }
    requires order { rows.start ≤ rows.end }
    requires here { rows.end ≤ length valid.now }
    requires before { AreNamed (masked_numbers T.PTYPE bytes.now valid.now) rows.start (length out.old) referenced out.old }
    ensures { AreNamed (masked_numbers T.PTYPE bytes.now valid.now) rows.end (length out.old) referenced out.new }
{
    let mut row = rows.start;
    while row < rows.end {
        let (word, count) = valid.word(row, rows.end);
        if word == u64::MAX {
            mark_run::<T>(bytes, row..row + count, referenced, out);
        } else {
            mark_word::<T>(bytes, row..row + count, word, referenced, out);
        }
        row += count;
    }
}

// Marks the places that the numbers of some rows name.
#[inline(never)]
fn mark_run<T: NativePType>(bytes: &[u8], rows: Range<usize>, referenced: bool, out: &mut [bool])
    requires order { rows.start ≤ rows.end }
    requires here { rows.end ≤ length (number_places T.PTYPE bytes.now) }
    requires within { (i : ℕ) → rows.start ≤ i → i < rows.end
        → slice_index (number_places T.PTYPE bytes.now) i < length out.old }
    ensures { Marks (number_places T.PTYPE bytes.now) rows.start rows.end referenced out.old out.new }
{
    for row in rows.start..rows.end {
        out[place_at(bytes, T::PTYPE, row)] = referenced;
    }
}

// Marks the places that the numbers of those of some rows name that have their bit set in a word.
#[inline(never)]
fn mark_word<T: NativePType>(
    bytes: &[u8],
    rows: Range<usize>,
    word: u64,
    referenced: bool,
    out: &mut [bool],
)
    requires here { rows.end ≤ length (number_places T.PTYPE bytes.now) }
    requires none { (i : ℕ) → rows.end ≤ rows.start + i → bit_at word i ≡ 0 }
    requires within { (i : ℕ) → bit_at word i ≡ 1
        → slice_index (number_places T.PTYPE bytes.now) (rows.start + i) < length out.old }
    ensures { MarksSet (number_places T.PTYPE bytes.now) rows.start word referenced out.old out.new }
{
    let mut rest = word;
    while rest != 0 {
        let row = rows.start + rest.trailing_zeros() as usize;
        out[place_at(bytes, T::PTYPE, row)] = referenced;
        rest &= rest - 1;
    }
}

// The place that the number of a row names, where it is not negative.
#[inline]
fn place_at(bytes: &[u8], ptype: PType, row: usize) -> usize
    requires { row < length (number_places ptype bytes.now) }
    ensures { result ≡ slice_index (number_places ptype bytes.now) row }
{
    place_of(int_at(bytes, ptype, row))
}

// The size of a number as a place, which is the number where it names one.
#[inline]
fn place_of(number: i128) -> usize
    requires { unsigned_abs number < 2 ^ 64 }
    ensures { result ≡ unsigned_abs number }
{
    number.unsigned_abs() as usize
}
