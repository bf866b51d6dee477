// Rows that become null where a validity is not true.

ghost use Rattle.std.specs.Prelude.{◌≡◌, ◌<◌, ℕ, true, false, None, IfOk};
ghost use Rattle.vx_base.specs.Refusals.{Gives};
ghost use Rattle.vx_tree.specs.Meaning.{tree_len, is_valid_at};
ghost use Rattle.vx_tree.specs.Layouts.{is_constant};
ghost use Rattle.vx_tree.specs.OneValue.{HasOneValue};
ghost use Rattle.vx_tree.specs.Formed.{ValidFits};
ghost use Rattle.vx_tree.specs.Parts.{valid_of};
ghost use Rattle.vx_tree.specs.Faults.{take_overflow};
ghost use Rattle.vx_tree.specs.Operations.{IsNulled, IsNulls};

use crate::array::{ArrayRef, Layout, Validity};
use std::alloc::Global;
use vx_base::VortexError;

impl ArrayRef {
    /// The same rows, null where this validity is not true. A constant becomes a dictionary, where
    /// null may stand under the validity. For the crates above.
    #[cycle(nulls)]
    pub fn nulled(&self, alloc: Global, nulls: &Validity) -> Result<ArrayRef, VortexError>
        requires fits { ValidFits (valid_of nulls.now) (tree_len self.now) }
        ensures by_row { Gives result (IsNulled self.now (valid_of nulls.now)) }
        ensures one_value { is_constant self.now ≡ true → IfOk result HasOneValue }
    {
        match self.layout() {
            Layout::Constant { .. } => self.nulled_constant(alloc, nulls),
            Layout::Dict { .. } => self.nulled_dictionary(alloc, nulls),
            Layout::VarBinView { .. } => self.nulled_views(alloc, nulls),
            Layout::Bool { validity, .. }
            | Layout::Primitive { validity, .. }
            | Layout::FixedSizeList { validity, .. }
            | Layout::ListView { validity, .. }
            | Layout::Struct { validity, .. } => self.nulled_parts(alloc, validity, nulls),
        }
    }

    // `len` rows of null in the same layout, by a validity that is nowhere true. The parts are made
    // of zeroes; a list view keeps its elements, a dictionary its values, and a column becomes a
    // constant. Asks that the elements of so many lists of a fixed size can be counted.
    #[cycle(null_rows)]
    pub(crate) fn nulls(
        &self,
        alloc: Global,
        len: usize,
        nulls: &Validity,
    ) -> Result<ArrayRef, VortexError>
        requires fits { ValidFits (valid_of nulls.now) len }
        requires none { (i : ℕ) → i < len → is_valid_at (valid_of nulls.now) i ≡ false }
        requires countable { take_overflow self.now len ≡ None }
        ensures by_row { Gives result (IsNulls self.now len (valid_of nulls.now)) }
        ensures one_value { is_constant self.now ≡ true → IfOk result HasOneValue }
    {
        match self.layout() {
            Layout::Bool { .. } => self.null_bools(alloc, len, nulls),
            Layout::Primitive { .. } => self.null_numbers(alloc, len, nulls),
            Layout::Constant { .. } => self.null_constant(alloc, len, nulls),
            Layout::Dict { .. } => self.null_codes(alloc, len, nulls),
            Layout::FixedSizeList { .. } => self.null_fixed_lists(alloc, len, nulls),
            Layout::ListView { .. } => self.null_lists(alloc, len, nulls),
            Layout::VarBinView { .. } => self.null_views(alloc, len, nulls),
            Layout::Struct { .. } => self.null_records(alloc, len, nulls),
        }
    }
}
