//! Rows that are picked by their positions, by runs of them and by masks.

ghost use Rattle.std.specs.Prelude.{◌≡◌, ◌≤◌, ◌++◌, take, drop, replicate, reverse, IfOk, IsOkUnless};
ghost use Rattle.std.specs.List.{flat_map};
ghost use Rattle.vx_base.specs.MaskRuns.{AreRuns};
ghost use Rattle.vx_base.specs.Refusals.{Refuses};
ghost use Rattle.vx_base.specs.declared.errors.VortexError.TheVariants.{Memory};
ghost use Rattle.vx_tree.specs.Faults.{position_fault};
ghost use Rattle.vx_tree.specs.Meaning.{kind_of, row_at, rows, tree_len};
ghost use Rattle.vx_tree.specs.Runs.{rows_in_run};

use std::alloc::Global;
use std::ops::Range;
use vx_base::{Mask, Selection, VortexError};
use vx_tree::row_laws::{rows_of_a_constant, rows_stand_at_their_places};
use vx_tree::{ArrayRef, fewer_rows_are_countable};

/// The rows of a column, the last one first: of 5, null, 7 the rows 7, null, 5. Fails only for want
/// of memory.
pub fn reversed(alloc: Global, column: &ArrayRef) -> Result<ArrayRef, VortexError>
    ensures rows { IfOk result (λ a. rows a ≡ reverse (rows column.now)) }
    ensures kind { IfOk result (λ a. kind_of a ≡ kind_of column.now) }
    ensures err { IsOkUnless result Memory }
{
    rows_stand_at_their_places();
    fewer_rows_are_countable(column);
    let mut order = Vec::with_capacity(alloc, column.len())?;
    for i in 0..column.len() {
        order.push(column.len() - 1 - i)?;
    }
    Ok(column.select(alloc, &Selection::at_positions(&order))?)
}

/// The rows of a column before a gap and after it: of 5, 6, 7, 8 without the rows `1..3` the rows 5,
/// 8. Asks that the gap lies within the column. Fails only for want of memory.
pub fn without_rows(
    alloc: Global,
    column: &ArrayRef,
    gap: Range<usize>,
) -> Result<ArrayRef, VortexError>
    requires ordered { gap.start ≤ gap.end }
    requires within { gap.end ≤ tree_len column.now }
    ensures rows { IfOk result (λ a.
        rows a ≡ take gap.start (rows column.now) ++ drop gap.end (rows column.now)) }
    ensures kind { IfOk result (λ a. kind_of a ≡ kind_of column.now) }
    ensures err { IsOkUnless result Memory }
{
    rows_stand_at_their_places();
    fewer_rows_are_countable(column);
    let kept = [(0, gap.start), (gap.end, column.len())];
    Ok(column.take_runs(alloc, &kept)?)
}

/// The rows of these pages of a column, one page after another, by a mask that is true in just them.
/// Asks that the pages are in order and apart, that none is empty, and that the last one ends within
/// the column. Of 5, 6, 7, 8 the pages (0, 1) and (2, 4) have 5, 7, 8. Fails only for want of memory.
pub fn rows_of_pages(
    alloc: Global,
    column: &ArrayRef,
    pages: Vec<(usize, usize)>,
) -> Result<ArrayRef, VortexError>
    requires { AreRuns (tree_len column.now) pages.items }
    ensures rows { IfOk result (λ a. rows a ≡ flat_map (rows_in_run (rows column.now)) pages.items) }
    ensures kind { IfOk result (λ a. kind_of a ≡ kind_of column.now) }
    ensures err { IsOkUnless result Memory }
{
    let mask = Mask::from_runs(column.len(), pages);
    Ok(column.filter(alloc, &mask)?)
}

/// Row `i` of a column, `len` times, in no more memory for more rows: the row is read as a scalar,
/// of whatever data type it is. Refuses `OutOfBounds` where there is no such row.
pub fn row_everywhere(
    alloc: Global,
    column: &ArrayRef,
    i: usize,
    len: usize,
) -> Result<ArrayRef, VortexError>
    ensures rows { IfOk result (λ a. rows a ≡ replicate len (row_at column.now i)) }
    ensures kind { IfOk result (λ a. kind_of a ≡ kind_of column.now) }
    ensures refuses { Refuses result (position_fault (tree_len column.now) i) }
{
    rows_of_a_constant();
    let row = column.execute_scalar(alloc, i)?;
    Ok(ArrayRef::constant(alloc, row, len)?)
}
