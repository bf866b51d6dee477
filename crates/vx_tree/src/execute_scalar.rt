// One row of an array, with its data type.

ghost use Rattle.std.specs.Prelude.{◌≡◌, ◌<◌, ◌≤◌, ◌+◌, IfOk, map};
ghost use Rattle.vx_base.specs.Refusals.{Gives, Refuses};
ghost use Rattle.vx_base.specs.Scalars.{typed_row};
ghost use Rattle.vx_base.specs.Rows.{rows_from};
ghost use Rattle.vx_base.specs.ValueRows.{option_row, row_under, all_named};
ghost use Rattle.vx_tree.specs.Faults.{position_fault};
ghost use Rattle.vx_tree.specs.Meaning.{tree_len, kind_of, row_at, rows_range};

use crate::array::{ArrayRef, Layout};
use std::alloc::Global;
use vx_base::{Scalar, ScalarValue, VortexError};

impl ArrayRef {
    /// Row `i` as a scalar of the array's data type. Refuses `OutOfBounds` where `i` is not below
    /// the length. Of the lists `[3, 4]`, `[1]`, `[2, 3]` row 2 is `[2, 3]`.
    #[tactic(auto, using(crate::proofs::Fitting::rows_fit))]
    pub fn execute_scalar(&self, alloc: Global, i: usize) -> Result<Scalar, VortexError>
        ensures row { IfOk result (λ s. s ≡ typed_row (kind_of self.now) (row_at self.now i)) }
        ensures refuses { Refuses result (position_fault (tree_len self.now) i) }
    {
        let len = self.len();
        if i >= len {
            return Err(VortexError::OutOfBounds { index: i, len });
        }
        self.known();
        let value = self.value_at(alloc, i)?;
        match self.dtype().try_clone(alloc) {
            Ok(dtype) => Ok(Scalar::new(dtype, value)),
            Err(error) => {
                drop(value);
                Err(error)
            }
        }
    }

    // The value of row `i`, `None` where it is null.
    #[cycle(value)]
    pub(crate) fn value_at(
        &self,
        alloc: Global,
        i: usize,
    ) -> Result<Option<ScalarValue>, VortexError>
        requires { i < tree_len self.now }
        ensures { Gives result (λ v. row_under (kind_of self.now) v ≡ row_at self.now i) }
    {
        match self.layout() {
            Layout::Bool { .. } => Ok(self.truth_value(i)),
            Layout::Primitive { .. } => Ok(self.number_value(i)),
            Layout::Constant { .. } => self.constant_value(alloc),
            Layout::Dict { .. } => self.dictionary_value(alloc, i),
            Layout::FixedSizeList { .. } => self.fixed_list_value(alloc, i),
            Layout::ListView { .. } => self.list_value(alloc, i),
            Layout::VarBinView { .. } => self.view_value(alloc, i),
            Layout::Struct { .. } => self.record_value(alloc, i),
        }
    }

    // The values of `count` rows from `start` on.
    #[cycle(value)]
    #[tactic(auto, using(crate::proofs::Values::values_push))]
    pub(crate) fn values_within(
        &self,
        alloc: Global,
        start: usize,
        count: usize,
    ) -> Result<Vec<Option<ScalarValue>>, VortexError>
        requires { start + count ≤ tree_len self.now }
        ensures { Gives result (λ vs. all_named (kind_of self.now) (rows_from (map option_row vs.items))
            ≡ rows_range (row_at self.now) start count) }
    {
        self.known_len();
        let mut values = Vec::with_capacity(alloc, count)?;
        for i in 0..count {
            values.push(self.value_at(alloc, start + i)?)?;
        }
        Ok(values)
    }
}
