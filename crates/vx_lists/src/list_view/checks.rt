// What is tested of the parts of a list view, and of its total before it is rebuilt.

ghost use Rattle.std.specs.Prelude.{◌≡◌, ◌<ℤ◌, ◌^◌, pos, true, false, IfOk};
ghost use Rattle.vx_base.specs.Refusals.{Tests};
ghost use Rattle.vx_base.specs.Kinds.{is_plain_integers};
ghost use Rattle.vx_tree.specs.Formed.{WellFormed, IsCounts};
ghost use Rattle.vx_tree.specs.Meaning.{tree_len, kind_of};
ghost use Rattle.vx_tree.specs.Parts.{valid_of};
ghost use Rattle.vx_tree.specs.Tree.{list_view};
ghost use Rattle.vx_lists.specs.ListViews.Faults.{list_row_fault, list_parts_fault, list_rows_fault, list_view_fault, either_total_fault, AreRepeated};

use crate::list_view::counts::{are_repeated, number_bytes};
use crate::list_view::number_rows::check_number_rows;
use vx_base::{PType, VortexError};
use vx_tree::{ArrayRef, Validity};

// Refuses offsets and sizes that are not plain integers, a validity array that is not one of plain
// booleans, then sizes or a validity that are not as long as the offsets (of lengths either fault
// is the same, so it matters not which is tested first).
fn check_list_parts(
    offsets: &ArrayRef,
    sizes: &ArrayRef,
    validity: &Validity,
) -> Result<(), VortexError>
    ensures tests { Tests result (list_parts_fault offsets.now sizes.now (valid_of validity.now)) }
{
    if !offsets.dtype().is_plain_int() || !sizes.dtype().is_plain_int() {
        return Err(VortexError::MismatchedTypes);
    }
    let expected = offsets.len();
    validity.check(expected)?;
    let found = sizes.len();
    if found != expected {
        return Err(VortexError::LengthMismatch { expected, found });
    }
    Ok(())
}

// Refuses a row that is not `size` elements from `offset` on, among `count` elements.
#[inline]
pub(crate) fn check_list_row(
    count: usize,
    row: usize,
    offset: i128,
    size: i128,
) -> Result<(), VortexError>
    requires offset { offset <ℤ pos (2 ^ 64) }
    requires size { size <ℤ pos (2 ^ 64) }
    ensures tests { Tests result (list_row_fault count row offset size) }
{
    if offset < 0 || size < 0 {
        return Err(VortexError::Negative { row });
    }
    let end = offset + size;
    if end > usize::MAX as i128 {
        return Err(VortexError::Overflow);
    }
    let index = end as usize;
    if index > count {
        return Err(VortexError::OutOfBounds { index, len: count });
    }
    Ok(())
}

// Refuses the first row that is negative, or ends past every usize or past `count` elements.
fn check_list_rows(count: usize, offsets: &ArrayRef, sizes: &ArrayRef) -> Result<(), VortexError>
    requires offsets { is_plain_integers (kind_of offsets.now) ≡ true }
    requires sizes { is_plain_integers (kind_of sizes.now) ≡ true }
    requires same_len { tree_len sizes.now ≡ tree_len offsets.now }
    ensures tests { Tests result (list_rows_fault count offsets.now sizes.now) }
    ensures offsets { IfOk result (λ _. IsCounts offsets.now) }
    ensures sizes { IfOk result (λ _. IsCounts sizes.now) }
{
    if let (Some((offset_type, offset_bytes)), Some((size_type, size_bytes))) = (
        number_bytes(offsets),
        number_bytes(sizes),
    ) {
        return check_number_rows(count, offset_type, offset_bytes, size_type, size_bytes);
    }
    if are_repeated(offsets, sizes) {
        return check_first_row(count, offsets, sizes);
    }
    check_each_row(count, offsets, sizes)
}

// Refuses the first row that is negative, or ends past the elements: in any layout, row by row.
fn check_each_row(count: usize, offsets: &ArrayRef, sizes: &ArrayRef) -> Result<(), VortexError>
    requires offsets { is_plain_integers (kind_of offsets.now) ≡ true }
    requires sizes { is_plain_integers (kind_of sizes.now) ≡ true }
    requires same_len { tree_len sizes.now ≡ tree_len offsets.now }
    ensures tests { Tests result (list_rows_fault count offsets.now sizes.now) }
    ensures offsets { IfOk result (λ _. IsCounts offsets.now) }
    ensures sizes { IfOk result (λ _. IsCounts sizes.now) }
{
    for row in 0..offsets.len() {
        let offset = offsets.int_at(row).unwrap();
        let size = sizes.int_at(row).unwrap();
        check_list_row(count, row, offset, size)?;
    }
    Ok(())
}

// Refuses the first row where it is negative, or ends past the elements: all lists have its offset
// and size, so it alone is tested.
fn check_first_row(count: usize, offsets: &ArrayRef, sizes: &ArrayRef) -> Result<(), VortexError>
    requires offsets { is_plain_integers (kind_of offsets.now) ≡ true }
    requires sizes { is_plain_integers (kind_of sizes.now) ≡ true }
    requires same_len { tree_len sizes.now ≡ tree_len offsets.now }
    requires repeated { AreRepeated offsets.now sizes.now }
    ensures tests { Tests result (list_rows_fault count offsets.now sizes.now) }
    ensures offsets { IfOk result (λ _. IsCounts offsets.now) }
    ensures sizes { IfOk result (λ _. IsCounts sizes.now) }
{
    let offset = offsets.int_at(0).unwrap();
    let size = sizes.int_at(0).unwrap();
    check_list_row(count, 0, offset, size)
}

// Refuses parts that make no list view, with their first fault.
pub(crate) fn check_list_view(
    elements: &ArrayRef,
    offsets: &ArrayRef,
    sizes: &ArrayRef,
    validity: &Validity,
) -> Result<(), VortexError>
    ensures tests { Tests result (list_view_fault elements.now offsets.now sizes.now (valid_of validity.now)) }
    ensures formed { let v = valid_of validity.now in
        IfOk result (λ _. WellFormed (list_view elements.now offsets.now sizes.now v false)) }
{
    check_list_parts(offsets, sizes, validity)?;
    check_list_rows(elements.len(), offsets, sizes)
}

// Refuses a total that passes the greatest number of the offset type or of the size type, and
// gives any other as a count.
pub(crate) fn check_total(
    offset_type: PType,
    size_type: PType,
    total: u128,
) -> Result<usize, VortexError>
    ensures tests { Tests result (either_total_fault offset_type size_type total) }
    ensures same { IfOk result (λ count. count ≡ total) }
{
    if total > usize::MAX as u128
        || !offset_type.holds(total as i128)
        || !size_type.holds(total as i128)
    {
        return Err(VortexError::Overflow);
    }
    Ok(total as usize)
}
