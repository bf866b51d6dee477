// Offsets and sizes that lie as bytes of numbers: their tests and bounds, in loops of their types.

ghost use Rattle.std.specs.Prelude.{◌≡◌, ◌<◌, ◌+◌, ◌^◌, ◌↔◌, ℕ, length, slice_index, IfOk, IsTrue};
ghost use Rattle.vx_base.specs.Integers.{numbers};
ghost use Rattle.vx_base.specs.Refusals.{Tests};
ghost use Rattle.vx_tree.specs.Formed.{IsCounts, IsConsecutive};
ghost use Rattle.vx_tree.specs.Tree.{primitive, non_nullable};
ghost use Rattle.vx_lists.specs.ListViews.CountBytes.{counts_of, AreCountBytes};
ghost use Rattle.vx_lists.specs.ListViews.Faults.{list_rows_fault};
ghost use Rattle.vx_lists.specs.ListViews.References.{AreBounds};

use crate::list_view::checks::check_list_row;
use crate::list_view::counts::count_of_bytes;
use vx_base::{NativePType, PType, VortexError, call_native, int_at, number_count};

// Refuses the first row that is negative, or ends past every usize or past `count` elements.
pub(crate) fn check_number_rows(
    count: usize,
    offset_type: PType,
    offsets: &[u8],
    size_type: PType,
    sizes: &[u8],
) -> Result<(), VortexError>
    requires { length (numbers size_type sizes.now) ≡ length (numbers offset_type offsets.now) }
    ensures tests { let o = primitive offset_type offsets.now non_nullable in
        let s = primitive size_type sizes.now non_nullable in
        Tests result (list_rows_fault count o s) }
    ensures offsets { IfOk result (λ _. IsCounts (primitive offset_type offsets.now non_nullable)) }
    ensures sizes { IfOk result (λ _. IsCounts (primitive size_type sizes.now non_nullable)) }
{
    call_native!(
        offset_type,
        check_rows_from(count, offsets, size_type, sizes)
    )
}

// Refuses the first row that is negative, or ends past the elements: offsets of one type.
fn check_rows_from<O: NativePType>(
    count: usize,
    offsets: &[u8],
    size_type: PType,
    sizes: &[u8],
) -> Result<(), VortexError>
    requires { length (numbers size_type sizes.now) ≡ length (numbers O.PTYPE offsets.now) }
    ensures tests { let o = primitive O.PTYPE offsets.now non_nullable in
        let s = primitive size_type sizes.now non_nullable in
        Tests result (list_rows_fault count o s) }
    ensures offsets { IfOk result (λ _. IsCounts (primitive O.PTYPE offsets.now non_nullable)) }
    ensures sizes { IfOk result (λ _. IsCounts (primitive size_type sizes.now non_nullable)) }
{
    call_native!(size_type, check_typed_rows::<O>(count, offsets, sizes))
}

// Refuses the first row that is negative, or ends past the elements: offsets of one type and sizes
// of another, in a loop by itself, whose numbers stay in registers.
#[inline(never)]
fn check_typed_rows<O: NativePType, S: NativePType>(
    count: usize,
    offsets: &[u8],
    sizes: &[u8],
) -> Result<(), VortexError>
    requires { length (numbers S.PTYPE sizes.now) ≡ length (numbers O.PTYPE offsets.now) }
    ensures tests { let o = primitive O.PTYPE offsets.now non_nullable in
        let s = primitive S.PTYPE sizes.now non_nullable in
        Tests result (list_rows_fault count o s) }
    ensures offsets { IfOk result (λ _. IsCounts (primitive O.PTYPE offsets.now non_nullable)) }
    ensures sizes { IfOk result (λ _. IsCounts (primitive S.PTYPE sizes.now non_nullable)) }
{
    for row in 0..number_count(offsets, O::PTYPE) {
        let offset = int_at(offsets, O::PTYPE, row);
        let size = int_at(sizes, S::PTYPE, row);
        check_list_row(count, row, offset, size)?;
    }
    Ok(())
}

// Whether each row ends where the next one starts. Asks that no number is negative.
pub(crate) fn are_number_rows_consecutive(
    offset_type: PType,
    offsets: &[u8],
    size_type: PType,
    sizes: &[u8],
) -> bool
    requires same_len { length (numbers size_type sizes.now) ≡ length (numbers offset_type offsets.now) }
    requires offsets { IsCounts (primitive offset_type offsets.now non_nullable) }
    requires sizes { IsCounts (primitive size_type sizes.now non_nullable) }
    ensures { let o = primitive offset_type offsets.now non_nullable in
        let s = primitive size_type sizes.now non_nullable in
        IsTrue result ↔ IsConsecutive o s }
{
    call_native!(offset_type, are_consecutive_from(offsets, size_type, sizes))
}

// Whether each row ends where the next one starts: offsets of one type.
fn are_consecutive_from<O: NativePType>(offsets: &[u8], size_type: PType, sizes: &[u8]) -> bool
    requires same_len { length (numbers size_type sizes.now) ≡ length (numbers O.PTYPE offsets.now) }
    requires offsets { IsCounts (primitive O.PTYPE offsets.now non_nullable) }
    requires sizes { IsCounts (primitive size_type sizes.now non_nullable) }
    ensures { let o = primitive O.PTYPE offsets.now non_nullable in
        let s = primitive size_type sizes.now non_nullable in
        IsTrue result ↔ IsConsecutive o s }
{
    call_native!(size_type, are_typed_consecutive::<O>(offsets, sizes))
}

// Whether each row ends where the next one starts: offsets of one type and sizes of another.
#[inline(never)]
fn are_typed_consecutive<O: NativePType, S: NativePType>(offsets: &[u8], sizes: &[u8]) -> bool
    requires same_len { length (numbers S.PTYPE sizes.now) ≡ length (numbers O.PTYPE offsets.now) }
    requires offsets { IsCounts (primitive O.PTYPE offsets.now non_nullable) }
    requires sizes { IsCounts (primitive S.PTYPE sizes.now non_nullable) }
    ensures { let o = primitive O.PTYPE offsets.now non_nullable in
        let s = primitive S.PTYPE sizes.now non_nullable in
        IsTrue result ↔ IsConsecutive o s }
{
    for row in 1..number_count(offsets, O::PTYPE) {
        let start = int_at(offsets, O::PTYPE, row - 1);
        let size = int_at(sizes, S::PTYPE, row - 1);
        if start + size != int_at(offsets, O::PTYPE, row) {
            return false;
        }
    }
    true
}

// The least offset and the greatest end of lists, of which there is one. Asks that no number is
// negative.
pub(crate) fn bounds_of_number_rows(
    offset_type: PType,
    offsets: &[u8],
    size_type: PType,
    sizes: &[u8],
) -> (usize, usize)
    requires some { 0 < length (numbers offset_type offsets.now) }
    requires offsets { AreCountBytes offset_type offsets.now }
    requires sizes { AreCountBytes size_type sizes.now }
    requires same_len { length (numbers size_type sizes.now) ≡ length (numbers offset_type offsets.now) }
    requires ends_fit { (i : ℕ) → i < length (numbers offset_type offsets.now) →
        slice_index (counts_of offset_type offsets.now) i
        + slice_index (counts_of size_type sizes.now) i < 2 ^ 64 }
    ensures { let starts = counts_of offset_type offsets.now in
        AreBounds (slice_index starts)
        (λ i. slice_index starts i + slice_index (counts_of size_type sizes.now) i)
        (length (numbers offset_type offsets.now)) result.0 result.1 }
{
    call_native!(offset_type, bounds_from(offsets, size_type, sizes))
}

// The least offset and the greatest end of lists: offsets of one type.
fn bounds_from<O: NativePType>(offsets: &[u8], size_type: PType, sizes: &[u8]) -> (usize, usize)
    requires some { 0 < length (numbers O.PTYPE offsets.now) }
    requires offsets { AreCountBytes O.PTYPE offsets.now }
    requires sizes { AreCountBytes size_type sizes.now }
    requires same_len { length (numbers size_type sizes.now) ≡ length (numbers O.PTYPE offsets.now) }
    requires ends_fit { (i : ℕ) → i < length (numbers O.PTYPE offsets.now) →
        slice_index (counts_of O.PTYPE offsets.now) i
        + slice_index (counts_of size_type sizes.now) i < 2 ^ 64 }
    ensures { let starts = counts_of O.PTYPE offsets.now in
        AreBounds (slice_index starts)
        (λ i. slice_index starts i + slice_index (counts_of size_type sizes.now) i)
        (length (numbers O.PTYPE offsets.now)) result.0 result.1 }
{
    call_native!(size_type, typed_bounds::<O>(offsets, sizes))
}

// The least offset and the greatest end of lists: offsets of one type and sizes of another.
#[inline(never)]
fn typed_bounds<O: NativePType, S: NativePType>(offsets: &[u8], sizes: &[u8]) -> (usize, usize)
    requires some { 0 < length (numbers O.PTYPE offsets.now) }
    requires offsets { AreCountBytes O.PTYPE offsets.now }
    requires sizes { AreCountBytes S.PTYPE sizes.now }
    requires same_len { length (numbers S.PTYPE sizes.now) ≡ length (numbers O.PTYPE offsets.now) }
    requires ends_fit { (i : ℕ) → i < length (numbers O.PTYPE offsets.now) →
        slice_index (counts_of O.PTYPE offsets.now) i
        + slice_index (counts_of S.PTYPE sizes.now) i < 2 ^ 64 }
    ensures { let starts = counts_of O.PTYPE offsets.now in
        AreBounds (slice_index starts)
        (λ i. slice_index starts i + slice_index (counts_of S.PTYPE sizes.now) i)
        (length (numbers O.PTYPE offsets.now)) result.0 result.1 }
{
    let mut least = count_of_bytes::<O>(offsets, 0);
    let mut greatest = least + count_of_bytes::<S>(sizes, 0);
    for row in 1..number_count(offsets, O::PTYPE) {
        let start = count_of_bytes::<O>(offsets, row);
        let end = start + count_of_bytes::<S>(sizes, row);
        least = least.min(start);
        greatest = greatest.max(end);
    }
    (least, greatest)
}
