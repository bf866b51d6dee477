//! Parts of columns, by lists of steps.

ghost use Rattle.std.specs.Prelude.{◌≡◌, ◌+◌, ◌-◌, IfOk, slice_range};
ghost use Rattle.vx_base.specs.Refusals.{Refuses, or_else};
ghost use Rattle.vx_tree.specs.Faults.{slice_fault};
ghost use Rattle.vx_tree.specs.Meaning.{tree_len, kind_of, rows};

use std::alloc::Global;
use std::ops::Range;
use vx_base::VortexError;
use vx_run::{Step, run};
use vx_tree::ArrayRef;
use vx_tree::row_laws::parts_of_parts_of_rows;

/// A part of a part of a column, whatever its layout, by two steps: the rows of the inner range,
/// counted from the start of the outer one. Refuses `OutOfBounds` where the outer range does not
/// lie within the column, then where the inner one does not lie within the outer one.
pub fn part_of_part(
    alloc: Global,
    column: ArrayRef,
    outer: Range<usize>,
    inner: Range<usize>,
) -> Result<ArrayRef, VortexError>
    ensures rows { IfOk result (λ part. rows part
        ≡ slice_range (rows column) (outer.start + inner.start) (outer.start + inner.end)) }
    ensures kind { IfOk result (λ part. kind_of part ≡ kind_of column) }
    ensures refuses { Refuses result (or_else
        (slice_fault (tree_len column) outer.start outer.end)
        (slice_fault (outer.end - outer.start) inner.start inner.end)) }
{
    parts_of_parts_of_rows();
    let steps = [
        Step::Slice {
            array: 0,
            start: outer.start,
            end: outer.end,
        },
        Step::Slice {
            array: 1,
            start: inner.start,
            end: inner.end,
        },
    ];
    let mut columns = Vec::with_capacity(alloc, 1)?;
    columns.push(column)?;
    match run(alloc, columns, &steps) {
        Ok(mut results) => Ok(results.swap_remove(2)),
        Err(fault) => Err(fault.error),
    }
}
