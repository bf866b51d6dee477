// Whether codes are positions of values: they are read where they lie, and none is written.

ghost use Rattle.std.specs.Prelude.{◌≡◌, ◌<◌, ◌≤◌, ◌+◌, ◌-◌, ◌^◌, ◌≤ℤ◌, ℕ, pos, true, length, None, IsTrue};
ghost use Rattle.std.specs.Int.{bit_at};
ghost use Rattle.vx_base.specs.Integers.{numbers, number_nth};
ghost use Rattle.vx_base.specs.Kinds.{is_integers};
ghost use Rattle.vx_base.specs.Refusals.{Refuses, Tests, first_fault};
ghost use Rattle.vx_base.specs.Rows.{whole};
ghost use Rattle.vx_tree.specs.Faults.{index_fault, indices_fault};
ghost use Rattle.vx_tree.specs.Meaning.{tree_len, kind_of, row_at};
ghost use Rattle.vx_tree.specs.Operations.{masked_numbers};

use crate::valid_rows::ValidRows;
use std::alloc::Global;
use std::ops::Range;
use vx_base::{NativePType, PType, VortexError, call_native, int_at};
use vx_tree::{ArrayRef, Layout};

// Refuses the first valid code that is no position below `len`. Numbers are tested a word of rows
// at a time up to the first word with a fault. Of a constant one row is read, and of a dictionary
// none where no value has a fault.
pub(crate) fn check_codes(alloc: Global, codes: &ArrayRef, len: usize) -> Result<(), VortexError>
    requires { is_integers (kind_of codes.now) ≡ true }
    ensures { Refuses result (indices_fault len codes.now) }
{
    match codes.layout() {
        Layout::Primitive {
            ptype,
            bytes,
            validity,
        } => {
            let valid = ValidRows::new(alloc, validity, codes.len())?;
            let faultless = faultless_rows(*ptype, bytes.as_slice(), &valid, len);
            check_rows(codes, faultless..codes.len(), len)
        }
        Layout::Constant { .. } => check_rows(codes, 0..codes.len().min(1), len),
        Layout::Dict { values, .. } => {
            if check_codes(alloc, values, len).is_ok() {
                return Ok(());
            }
            check_rows(codes, 0..codes.len(), len)
        }
        _ => check_rows(codes, 0..codes.len(), len),
    }
}

// Tests rows, one after another, where none before them has a fault.
fn check_rows(codes: &ArrayRef, rows: Range<usize>, len: usize) -> Result<(), VortexError>
    requires ints { is_integers (kind_of codes.now) ≡ true }
    requires order { rows.start ≤ rows.end }
    requires within { rows.end ≤ tree_len codes.now }
    requires before { (i : ℕ) → i < rows.start → index_fault len i (row_at codes.now i) ≡ None }
    ensures { Tests result (first_fault (λ i. index_fault len i (row_at codes.now i)) rows.end) }
{
    for row in rows.start..rows.end {
        check_row(codes, row, len)?;
    }
    Ok(())
}

// Whether a row is null or a position below `len`.
fn check_row(codes: &ArrayRef, row: usize, len: usize) -> Result<(), VortexError>
    requires ints { is_integers (kind_of codes.now) ≡ true }
    requires in_bounds { row < tree_len codes.now }
    ensures { Tests result (index_fault len row (row_at codes.now row)) }
{
    match codes.int_at(row) {
        Some(number) => check_number(number, row, len),
        None => Ok(()),
    }
}

// Whether a number is a position below `len`.
fn check_number(number: i128, row: usize, len: usize) -> Result<(), VortexError>
    requires { number ≤ℤ pos (2 ^ 64 - 1) }
    ensures { Tests result (index_fault len row (whole number)) }
{
    if number < 0 {
        return Err(VortexError::Negative { row });
    }
    let index = number as usize;
    if index >= len {
        return Err(VortexError::OutOfBounds { index, len });
    }
    Ok(())
}

// A row before which no number that is valid has a fault: where one has, a row shortly before it.
fn faultless_rows(ptype: PType, bytes: &[u8], valid: &ValidRows, len: usize) -> usize
    requires { length valid.now ≡ length (numbers ptype bytes.now) }
    ensures within { result ≤ length valid.now }
    ensures none { (i : ℕ) → i < result
        → index_fault len i (row_at (masked_numbers ptype bytes.now valid.now) i) ≡ None }
{
    call_native!(ptype, typed_faultless_rows(bytes, valid, len))
}

// Such a row, where the numbers are of one type: that of the first word with a fault, or the end.
fn typed_faultless_rows<T: NativePType>(bytes: &[u8], valid: &ValidRows, len: usize) -> usize
    requires { length valid.now ≡ length (numbers T.PTYPE bytes.now) }
    ensures within { result ≤ length valid.now }
    ensures none { (i : ℕ) → i < result
        → index_fault len i (row_at (masked_numbers T.PTYPE bytes.now valid.now) i) ≡ None }
{
    let count = valid.len();
    let mut row = 0;
    while row < count {
        let (word, held) = valid.word(row, count);
        if !are_positions::<T>(bytes, row..row + held, word, len) {
            return row;
        }
        row += held;
    }
    count
}

// Whether each number is a position below `len` whose row has its bit set in a word: at once where
// none has, or where the numbers of all rows are positions.
fn are_positions<T: NativePType>(bytes: &[u8], rows: Range<usize>, word: u64, len: usize) -> bool
    requires order { rows.start ≤ rows.end }
    requires within { rows.end ≤ length (numbers T.PTYPE bytes.now) }
    requires none { (i : ℕ) → rows.end ≤ rows.start + i → bit_at word i ≡ 0 }
    ensures { IsTrue result → (i : ℕ) → bit_at word i ≡ 1
        → index_fault len (rows.start + i) (whole (number_nth (numbers T.PTYPE bytes.now) (rows.start + i))) ≡ None }
{
    let start = rows.start;
    if word == 0 || are_all_positions::<T>(bytes, rows, len) {
        return true;
    }
    let mut rest = word;
    while rest != 0 {
        let row = start + rest.trailing_zeros() as usize;
        if !is_position(int_at(bytes, T::PTYPE, row), len) {
            return false;
        }
        rest &= rest - 1;
    }
    true
}

// Whether each number of some rows is a position below `len`: no number ends the loop.
#[inline(never)]
fn are_all_positions<T: NativePType>(bytes: &[u8], rows: Range<usize>, len: usize) -> bool
    requires order { rows.start ≤ rows.end }
    requires within { rows.end ≤ length (numbers T.PTYPE bytes.now) }
    ensures { IsTrue result → (i : ℕ) → rows.start ≤ i → i < rows.end
        → index_fault len i (whole (number_nth (numbers T.PTYPE bytes.now) i)) ≡ None }
{
    let mut are_all = true;
    for row in rows.start..rows.end {
        if !is_position(int_at(bytes, T::PTYPE, row), len) {
            are_all = false;
        }
    }
    are_all
}

// Whether a number is a position below `len`, and so no fault of any row.
#[inline]
fn is_position(number: i128, len: usize) -> bool
    ensures { (row : ℕ) → IsTrue result → index_fault len row (whole number) ≡ None }
{
    0 <= number && number < len as i128
}
