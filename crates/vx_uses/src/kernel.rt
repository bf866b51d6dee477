//! Columns that a kernel cuts, regroups and reads, whatever their layout.

ghost use Rattle.std.specs.Prelude.{◌≡◌, ◌<◌, ◌≤◌, ◌+◌, ◌-◌, ◌*◌, true, count_by, is_some, replicate, IfOk, IfSome, IsOkUnless, slice_range};
ghost use Rattle.std.specs.List.{filter};
ghost use Rattle.std.specs.Option.{option_map};
ghost use Rattle.vx_base.specs.Kinds.{is_integers, is_nullable_kind, or_nullable};
ghost use Rattle.vx_base.specs.Refusals.{Refuses, or_else};
ghost use Rattle.vx_base.specs.Rows.{is_present, list_in};
ghost use Rattle.vx_base.specs.declared.errors.VortexError.TheVariants.{Memory};
ghost use Rattle.vx_tree.specs.Faults.{slice_fault, take_overflow};
ghost use Rattle.vx_tree.specs.Meaning.{tree_len, kind_of, row_at, rows};
ghost use Rattle.vx_tree.specs.Operations.{picks, positions};
ghost use Rattle.vx_tree.specs.Tree.{non_nullable};
ghost use Rattle.vx_lists.specs.FixedSizeLists.{fixed_list_fault};
ghost use Rattle.vx_lists.specs.ListViews.{elements_of};
ghost use Rattle.vx_uses.specs.Uses.{page_fault, is_above};

use crate::kernel_laws::{rows_are_read_in_order, tested_rows_are_filtered};
use std::alloc::Global;
use std::ops::Range;
use vx_base::{BitBuffer, Mask, Scalar, VortexError};
use vx_lists::{FixedSizeListArray, FixedSizeListArrayExt, ListViewArray, ListViewArrayExt};
use vx_tree::row_laws::{parts_of_parts_of_rows, rows_of_a_constant};
use vx_tree::{ArrayRef, TypedArray, Validity, fewer_rows_are_countable};

/// A page of a column, in another order: the rows of `page` at the places that `order` names.
/// Refuses `OutOfBounds` where the page does not lie within the column, `MismatchedTypes` where the
/// order is of no integers, at its first faulty row `Negative` or `OutOfBounds`, then `Overflow`
/// where so many rows of the column as the order has need more elements than can be counted, as
/// lists of a fixed size may: never where the order is no longer than the page.
pub fn ordered_page(
    alloc: Global,
    column: &ArrayRef,
    page: Range<usize>,
    order: &ArrayRef,
) -> Result<ArrayRef, VortexError>
    ensures rows { IfOk result (λ a. rows a
        ≡ picks (slice_range (rows column.now) page.start page.end) (positions (rows order.now))) }
    ensures kind { IfOk result (λ a. kind_of a
        ≡ or_nullable (is_nullable_kind (kind_of order.now)) (kind_of column.now)) }
    ensures within { IfOk result (λ _. page.end ≤ tree_len column.now) }
    ensures integers { IfOk result (λ _. is_integers (kind_of order.now) ≡ true) }
    ensures refuses { Refuses result (or_else
        (page_fault column.now page.start page.end order.now)
        (take_overflow column.now (tree_len order.now))) }
    ensures no_longer { tree_len order.now ≤ page.end - page.start →
        Refuses result (page_fault column.now page.start page.end order.now) }
{
    let page = column.slice(alloc, page)?;
    fewer_rows_are_countable(&page);
    page.take(alloc, order)
}

/// A page of a page: the rows of the inner range, counted from the start of the outer one.
pub fn inner_page(
    alloc: Global,
    column: &ArrayRef,
    outer: Range<usize>,
    inner: Range<usize>,
) -> Result<ArrayRef, VortexError>
    ensures rows { IfOk result (λ a. rows a
        ≡ slice_range (rows column.now) (outer.start + inner.start) (outer.start + inner.end)) }
    ensures kind { IfOk result (λ a. kind_of a ≡ kind_of column.now) }
    ensures refuses { Refuses result (or_else
        (slice_fault (tree_len column.now) outer.start outer.end)
        (slice_fault (outer.end - outer.start) inner.start inner.end)) }
{
    parts_of_parts_of_rows();
    let page = column.slice(alloc, outer)?;
    Ok(page.slice(alloc, inner)?)
}

/// A column of one row, however often, which takes no more memory for more rows.
pub fn repeated_row(alloc: Global, row: Scalar, len: usize) -> Result<ArrayRef, VortexError>
    ensures rows { IfOk result (λ a. rows a ≡ replicate len row.row) }
    ensures kind { IfOk result (λ a. kind_of a ≡ row.kind) }
    ensures err { IsOkUnless result Memory }
{
    rows_of_a_constant();
    Ok(ArrayRef::constant(alloc, row, len)?)
}

/// The rows of list `i`, where it is not null.
pub fn list_of_row(
    alloc: Global,
    lists: &ListViewArray,
    i: usize,
) -> Result<Option<ArrayRef>, VortexError>
    requires { i < tree_len lists.now }
    ensures present { IfOk result (λ list. is_some list ≡ is_present (row_at lists.now i)) }
    ensures rows { IfOk result (λ list. option_map rows list ≡ list_in (row_at lists.now i)) }
    ensures kind { IfOk result (λ list.
        IfSome list (λ a. kind_of a ≡ kind_of (elements_of lists.now))) }
    ensures err { IsOkUnless result Memory }
{
    if !lists.as_array().is_valid(alloc, i)? {
        return Ok(None);
    }
    Ok(Some(lists.list_elements_at(alloc, i)?))
}

/// Vector `i` of so many vectors of a width, whose numbers or other elements are those of one
/// column, one vector after another. Asks a vector below the number of them. Refuses
/// `DegenerateElements` where the width is 0 and there are elements; of another width `Overflow`
/// where so many vectors have more elements than can be counted, then `LengthMismatch` where the
/// column has not so many.
pub fn vector_at(
    alloc: Global,
    column: ArrayRef,
    width: u32,
    count: usize,
    i: usize,
) -> Result<ArrayRef, VortexError>
    requires { i < count }
    ensures rows { IfOk result (λ a.
        rows a ≡ slice_range (rows column) (i * width) ((i + 1) * width)) }
    ensures len { IfOk result (λ a. tree_len a ≡ width) }
    ensures kind { IfOk result (λ a. kind_of a ≡ kind_of column) }
    ensures refuses { Refuses result (fixed_list_fault column width non_nullable count) }
{
    let vectors = FixedSizeListArray::try_new(alloc, column, width, Validity::NonNullable, count)?;
    Ok(vectors.fixed_size_list_elements_at(alloc, i)?)
}

/// How many rows of a column of numbers are not null.
pub fn valid_count(column: &ArrayRef) -> usize
    requires { is_integers (kind_of column.now) ≡ true }
    ensures { result ≡ count_by is_present (rows column.now) }
{
    rows_are_read_in_order();
    let mut count = 0;
    for i in 0..column.len() {
        if column.int_at(i).is_some() {
            count += 1;
        }
    }
    count
}

/// The rows of a column of numbers that are above a bound, in their order. Null rows are not.
/// Fails only for want of memory.
pub fn rows_above(alloc: Global, column: &ArrayRef, bound: i128) -> Result<ArrayRef, VortexError>
    requires { is_integers (kind_of column.now) ≡ true }
    ensures rows { IfOk result (λ a. rows a ≡ filter (is_above bound) (rows column.now)) }
    ensures kind { IfOk result (λ a. kind_of a ≡ kind_of column.now) }
    ensures err { IsOkUnless result Memory }
{
    rows_are_read_in_order();
    tested_rows_are_filtered();
    let mut marks = Vec::with_capacity(alloc, column.len())?;
    for i in 0..column.len() {
        marks.push(matches!(column.int_at(i), Some(number) if number > bound))?;
    }
    let mask = Mask::from_buffer(alloc, BitBuffer::from_bools(alloc, &marks)?)?;
    Ok(column.filter(alloc, &mask)?)
}
