// A part of an array.

ghost use Rattle.std.specs.Prelude.{◌≡◌, ◌<◌, ◌≤◌, ◌-◌, IfOk, slice_range};
ghost use Rattle.vx_base.specs.Refusals.{Gives, Refuses};
ghost use Rattle.vx_tree.specs.Meaning.{tree_len, kind_of, rows};
ghost use Rattle.vx_tree.specs.Shapes.{shape_of, sliced_shape};
ghost use Rattle.vx_tree.specs.Faults.{slice_fault};
ghost use Rattle.vx_tree.specs.Operations.{IsSlice};

use crate::array::{ArrayRef, Layout};
use std::alloc::Global;
use std::ops::Range;
use vx_base::VortexError;

impl ArrayRef {
    /// The rows from `range.start` up to `range.end`, in the same layout. A list view keeps its
    /// elements and its flag, a dictionary its values, but not its flag. Refuses `OutOfBounds` with
    /// the end where it passes the length, then with the start where it passes the end. Of the
    /// lists `[3, 4]`, `[1]`, `[2, 3]` the range `1..3` has `[1]`, `[2, 3]`.
    pub fn slice(&self, alloc: Global, range: Range<usize>) -> Result<ArrayRef, VortexError>
        ensures rows { IfOk result (λ a. rows a ≡ slice_range (rows self.now) range.start range.end) }
        ensures kind { IfOk result (λ a. kind_of a ≡ kind_of self.now) }
        ensures shape { IfOk result (λ a. shape_of a ≡ sliced_shape (shape_of self.now)) }
        ensures by_row { IfOk result (IsSlice self.now range.start (range.end - range.start)) }
        ensures refuses { Refuses result (slice_fault (tree_len self.now) range.start range.end) }
    {
        let len = self.len();
        if range.end > len {
            return Err(VortexError::OutOfBounds {
                index: range.end,
                len,
            });
        }
        if range.start > range.end {
            return Err(VortexError::OutOfBounds {
                index: range.start,
                len: range.end,
            });
        }
        self.slice_within(alloc, range.start, range.end)
    }

    // The rows from `start` up to `end`, which lie within, in the same layout.
    #[cycle(slice)]
    pub(crate) fn slice_within(
        &self,
        alloc: Global,
        start: usize,
        end: usize,
    ) -> Result<ArrayRef, VortexError>
        requires start_le_end { start ≤ end }
        requires in_bounds { end ≤ tree_len self.now }
        ensures { Gives result (IsSlice self.now start (end - start)) }
    {
        match self.layout() {
            Layout::Bool { .. } => self.slice_bools(alloc, start, end),
            Layout::Primitive { .. } => self.slice_primitive(alloc, start, end),
            Layout::Constant { .. } => self.slice_constant(alloc, start, end),
            Layout::Dict { .. } => self.slice_dictionary(alloc, start, end),
            Layout::FixedSizeList { .. } => self.slice_fixed_lists(alloc, start, end),
            Layout::ListView { .. } => self.slice_list_view(alloc, start, end),
            Layout::VarBinView { .. } => self.slice_views(alloc, start, end),
            Layout::Struct { .. } => self.slice_struct(alloc, start, end),
        }
    }
}
