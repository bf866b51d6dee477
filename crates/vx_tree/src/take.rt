// Rows of an array at indices.

ghost use Rattle.std.specs.Prelude.{◌≡◌, ◌<◌, ℕ, true, false, length, IfOk};
ghost use Rattle.vx_base.specs.Refusals.{Refuses};
ghost use Rattle.vx_base.specs.Kinds.{is_nullable_kind, or_nullable};
ghost use Rattle.vx_tree.specs.Meaning.{tree_len, kind_of, rows, is_valid_at};
ghost use Rattle.vx_tree.specs.Extents.{extent_of};
ghost use Rattle.vx_tree.specs.Layouts.{is_constant};
ghost use Rattle.vx_tree.specs.Needs.{HasNeedsOf};
ghost use Rattle.vx_tree.specs.OneValue.{HasOneValue};
ghost use Rattle.vx_tree.specs.Shapes.{tree_state, shape_of, taken_shape};
ghost use Rattle.vx_tree.specs.Formed.{ValidFits};
ghost use Rattle.vx_tree.specs.Parts.{valid_of};
ghost use Rattle.vx_tree.specs.Faults.{take_fault, take_overflow};
ghost use Rattle.vx_tree.specs.Operations.{AreBelow, IsTakenAt, picks, positions};

use crate::array::{ArrayRef, Layout, Validity};
use crate::indices::Indices;
use std::alloc::Global;
use vx_base::VortexError;

impl ArrayRef {
    /// The rows at these indices, in their order; a null index gives null. The layout is kept, but
    /// a constant becomes a dictionary of its one value where the data type of the indices is
    /// nullable; a list view keeps its elements and a dictionary its values, but neither its flag.
    /// The data type is nullable where either side's is. Refuses `MismatchedTypes` where the
    /// indices are no integers, then at the first faulty valid index `Negative` or `OutOfBounds`,
    /// then `Overflow` where lists of a fixed size would need more elements than can be counted. Of
    /// the lists `[3, 4]`, `[1]`, `[2, 3]` the indices 2, null, 0 take `[2, 3]`, null, `[3, 4]`.
    pub fn take(&self, alloc: Global, indices: &ArrayRef) -> Result<ArrayRef, VortexError>
        ensures rows { IfOk result (λ a. rows a ≡ picks (rows self.now) (positions (rows indices.now))) }
        ensures kind { IfOk result (λ a. kind_of a ≡ or_nullable (is_nullable_kind (kind_of indices.now)) (kind_of self.now)) }
        ensures shape { IfOk result (λ a. shape_of a ≡ taken_shape (shape_of self.now) (tree_state indices.now)) }
        ensures one_value { is_constant self.now ≡ true → IfOk result HasOneValue }
        ensures extent { IfOk result (λ a. 0 < tree_len self.now → extent_of a ≡ extent_of self.now) }
        ensures needs { IfOk result (λ a. 0 < tree_len self.now → is_constant self.now ≡ false → HasNeedsOf self.now a) }
        ensures refuses { Refuses result (take_fault self.now indices.now) }
    {
        if !indices.dtype().is_int() {
            return Err(VortexError::MismatchedTypes);
        }
        let positions = indices.indices(alloc, self.len())?;
        let validity = match indices.validity(alloc) {
            Ok(validity) => validity,
            Err(error) => {
                drop(positions);
                return Err(error);
            }
        };
        let taken = self.take_at(alloc, &positions, &validity);
        drop(validity);
        drop(positions);
        taken
    }

    // The rows at these positions, null where the validity is not true: everywhere, where there are
    // no rows.
    fn take_at(
        &self,
        alloc: Global,
        positions: &Indices,
        nulls: &Validity,
    ) -> Result<ArrayRef, VortexError>
        requires fits { ValidFits (valid_of nulls.now) (length positions.now) }
        requires below { 0 < tree_len self.now → AreBelow (tree_len self.now) positions.now }
        requires none { tree_len self.now ≡ 0 → (i : ℕ) → i < length positions.now → is_valid_at (valid_of nulls.now) i ≡ false }
        ensures taken { IfOk result (IsTakenAt self.now positions.now (valid_of nulls.now)) }
        ensures one_value { is_constant self.now ≡ true → IfOk result HasOneValue }
        ensures refuses { Refuses result (take_overflow self.now (length positions.now)) }
    {
        let selection = positions.selection();
        if !self.can_select(selection.len()) {
            return Err(VortexError::Overflow);
        }
        if self.is_empty() {
            return Ok(self.nulls(alloc, selection.len(), nulls)?);
        }
        if let Layout::VarBinView { .. } = self.layout() {
            return Ok(self.take_views(alloc, &selection, nulls)?);
        }
        let selected = self.select_within(alloc, &selection)?;
        Ok(selected.nulled(alloc, nulls)?)
    }
}
