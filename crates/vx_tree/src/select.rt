// The rows of an array at positions that are all there: one recursion through all layouts.

ghost use Rattle.std.specs.Prelude.{◌≡◌, length, None, Some, if◌then◌else◌, IfOk};
ghost use Rattle.vx_base.specs.Refusals.{Refuses, Gives, overflow};
ghost use Rattle.vx_tree.specs.Meaning.{tree_len};
ghost use Rattle.vx_tree.specs.Faults.{take_overflow};
ghost use Rattle.vx_tree.specs.Operations.{IsSelected, AreBelow};

use crate::array::{ArrayRef, Layout};
use std::alloc::Global;
use vx_base::{Selection, VortexError};

impl ArrayRef {
    /// The rows that are picked, in their order, in the same layout and of the same data type and
    /// state; a list view keeps its elements and a dictionary its values, but neither its flag. Asks
    /// that each position is below the length. Refuses `Overflow` where lists of a fixed size would
    /// need more elements than can be counted.
    pub fn select(&self, alloc: Global, selection: &Selection) -> Result<ArrayRef, VortexError>
        requires { AreBelow (tree_len self.now) selection.now }
        ensures selected { IfOk result (IsSelected self.now selection.now) }
        ensures refuses { Refuses result (take_overflow self.now (length selection.now)) }
    {
        if !self.can_select(selection.len()) {
            return Err(VortexError::Overflow);
        }
        self.select_within(alloc, selection)
    }

    // Whether so many rows need no more elements than can be counted.
    #[cycle(can_select)]
    pub(crate) fn can_select(&self, count: usize) -> bool
        ensures { take_overflow self.now count ≡ (if result then None else Some overflow) }
    {
        match self.layout() {
            Layout::Bool { .. } => true,
            Layout::Primitive { .. } => true,
            Layout::Constant { .. } => true,
            Layout::Dict { .. } => true,
            Layout::FixedSizeList { elements, size, .. } => {
                match count.checked_mul(*size as usize) {
                    Some(count) => elements.can_select(count),
                    None => false,
                }
            }
            Layout::ListView { .. } => true,
            Layout::VarBinView { .. } => true,
            Layout::Struct { columns, .. } => ArrayRef::can_select_columns(columns, count),
        }
    }

    /// The rows that are picked, which can be counted at each depth. For the crates above.
    #[cycle(select)]
    pub fn select_within(
        &self,
        alloc: Global,
        selection: &Selection,
    ) -> Result<ArrayRef, VortexError>
        requires within { AreBelow (tree_len self.now) selection.now }
        requires countable { take_overflow self.now (length selection.now) ≡ None }
        ensures { Gives result (IsSelected self.now selection.now) }
    {
        match self.layout() {
            Layout::Bool { .. } => self.select_bools(alloc, selection),
            Layout::Primitive { .. } => self.select_primitive(alloc, selection),
            Layout::Constant { .. } => self.select_constant(alloc, selection),
            Layout::Dict { .. } => self.select_dictionary(alloc, selection),
            Layout::FixedSizeList { .. } => self.select_fixed_lists(alloc, selection),
            Layout::ListView { .. } => self.select_list_view(alloc, selection),
            Layout::VarBinView { .. } => self.select_views(alloc, selection),
            Layout::Struct { .. } => self.select_struct(alloc, selection),
        }
    }
}
