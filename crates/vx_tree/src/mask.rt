// Rows that become null where an array of booleans is false.

ghost use Rattle.std.specs.Prelude.{◌≡◌, true, IfOk};
ghost use Rattle.vx_base.specs.Kinds.{or_nullable};
ghost use Rattle.vx_base.specs.Refusals.{Refuses};
ghost use Rattle.vx_tree.specs.Tree.{by_array};
ghost use Rattle.vx_tree.specs.Meaning.{tree_len, kind_of, rows};
ghost use Rattle.vx_tree.specs.Layouts.{is_constant};
ghost use Rattle.vx_tree.specs.OneValue.{HasOneValue};
ghost use Rattle.vx_tree.specs.Shapes.{shape_of, nulled_shape, told};
ghost use Rattle.vx_tree.specs.Faults.{validity_fault};
ghost use Rattle.vx_tree.specs.Operations.{IsNulled, masked, truths};

use crate::array::{ArrayRef, Validity};
use std::alloc::Global;
use vx_base::VortexError;

impl ArrayRef {
    /// The same rows, null where the array of booleans is false, of a nullable data type, in the
    /// same layout; a list view keeps its elements and its flag, a dictionary its values, but not
    /// its flag, and a constant becomes a dictionary of its one value. Refuses `MismatchedTypes`
    /// where the mask is not an array of plain booleans, then `LengthMismatch` where it has not one
    /// row a row. Of the numbers 5, 6, 7 the mask true, false, true leaves 5, null, 7.
    pub fn mask(&self, alloc: Global, mask: &ArrayRef) -> Result<ArrayRef, VortexError>
        ensures rows { IfOk result (λ a. rows a ≡ masked (truths (rows mask.now)) (rows self.now)) }
        ensures kind { IfOk result (λ a. kind_of a ≡ or_nullable true (kind_of self.now)) }
        ensures shape { IfOk result (λ a. shape_of a ≡ nulled_shape (shape_of self.now) told) }
        ensures by_row { IfOk result (IsNulled self.now (by_array mask.now)) }
        ensures one_value { is_constant self.now ≡ true → IfOk result HasOneValue }
        ensures refuses { Refuses result (validity_fault (by_array mask.now) (tree_len self.now)) }
    {
        let nulls = Validity::Array(mask.try_clone(alloc)?);
        nulls.check(self.len())?;
        let masked = self.nulled(alloc, &nulls);
        drop(nulls);
        masked
    }
}
