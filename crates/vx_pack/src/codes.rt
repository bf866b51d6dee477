// Positions and counts that rows are.

ghost use Rattle.std.specs.Prelude.{◌≡◌, ◌<◌, ◌≤ℤ◌, ◌-◌, ◌^◌, length, pos, true, IfSome};
ghost use Rattle.vx_base.specs.Integers.{number_nth, numbers};
ghost use Rattle.vx_base.specs.Kinds.{is_integers};
ghost use Rattle.vx_base.specs.Rows.{count_in, position_in};
ghost use Rattle.vx_tree.specs.Formed.{IsCode, IsCounts};
ghost use Rattle.vx_tree.specs.Meaning.{kind_of, row_at, tree_len};

use vx_base::{PType, int_at};
use vx_tree::{ArrayRef, Layout};

// The position below `len` that the code of a row names: none where it is null.
pub(crate) fn code_at(codes: &ArrayRef, row: usize, len: usize) -> Option<usize>
    requires ints { is_integers (kind_of codes.now) ≡ true }
    requires in_bounds { row < tree_len codes.now }
    requires code { IsCode len (row_at codes.now row) }
    ensures value { result ≡ position_in (row_at codes.now row) }
    ensures within { IfSome result (λ k. k < len) }
{
    match codes.int_at(row) {
        Some(number) => Some(to_position(number)),
        None => None,
    }
}

// The count that a row is: read where it stands, where counts stand one after another.
#[inline(always)]
pub(crate) fn count_at(counts: &ArrayRef, row: usize) -> usize
    requires counts { IsCounts counts.now }
    requires in_bounds { row < tree_len counts.now }
    ensures { result ≡ count_in (row_at counts.now row) }
{
    match counts.layout() {
        Layout::Primitive { ptype, bytes, .. } => stored_count(bytes.as_slice(), *ptype, row),
        _ => count_of_row(counts, row),
    }
}

// The count that a row is, in any layout.
fn count_of_row(counts: &ArrayRef, row: usize) -> usize
    requires counts { IsCounts counts.now }
    requires in_bounds { row < tree_len counts.now }
    ensures { result ≡ count_in (row_at counts.now row) }
{
    match counts.int_at(row) {
        Some(number) => to_position(number),
        None => unreachable!(),
    }
}

// The count at a place of numbers that stand one after another.
#[inline(always)]
fn stored_count(bytes: &[u8], ptype: PType, row: usize) -> usize
    requires in_bounds { row < length (numbers ptype bytes.now) }
    requires low { pos 0 ≤ℤ number_nth (numbers ptype bytes.now) row }
    ensures { pos result ≡ number_nth (numbers ptype bytes.now) row }
{
    to_position(int_at(bytes, ptype, row))
}

// A number that is not negative, as a position.
#[inline(always)]
fn to_position(number: i128) -> usize
    requires low { pos 0 ≤ℤ number }
    requires high { number ≤ℤ pos (2 ^ 64 - 1) }
    ensures { pos result ≡ number }
{
    number as usize
}
