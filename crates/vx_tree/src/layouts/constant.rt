// One row, however often.

ghost use Rattle.std.specs.Prelude.{◌≡◌, ◌<◌, ◌≤◌, ◌-◌, ℕ, true, false, length, IfOk};
ghost use Rattle.vx_base.specs.Kinds.{is_nullable_kind};
ghost use Rattle.vx_base.specs.Rows.{is_present};
ghost use Rattle.vx_base.specs.Refusals.{Gives};
ghost use Rattle.vx_base.specs.ValueRows.{row_under};
ghost use Rattle.vx_base.specs.Trues.{trues};
ghost use Rattle.vx_tree.specs.Tree.{constant};
ghost use Rattle.vx_tree.specs.Layouts.{is_constant};
ghost use Rattle.vx_tree.specs.OneValue.{HasOneValue};
ghost use Rattle.vx_tree.specs.Meaning.{tree_len, kind_of, row_at, is_valid_at, nullable};
ghost use Rattle.vx_tree.specs.Shapes.{state_of, row_state};
ghost use Rattle.vx_tree.specs.Formed.{ValidFits};
ghost use Rattle.vx_tree.specs.Parts.{valid_of};
ghost use Rattle.vx_tree.specs.Plain.{IsPlainValid};
ghost use Rattle.vx_tree.specs.Operations.{IsSlice, IsSelected, IsNulled, IsNulls, AreBelow};

use crate::array::{ArrayRef, Layout, Validity};
use std::alloc::Global;
use vx_base::{Mask, Scalar, ScalarValue, Selection, VortexError};

impl ArrayRef {
    /// The row `len` times.
    pub fn constant(alloc: Global, scalar: Scalar, len: usize) -> Result<ArrayRef, VortexError>
        ensures { Gives result (λ a. a ≡ constant scalar.kind scalar.row len) }
    {
        ArrayRef::from_parts(alloc, Layout::Constant { scalar, len })
    }

    pub(crate) fn slice_constant(
        &self,
        alloc: Global,
        start: usize,
        end: usize,
    ) -> Result<ArrayRef, VortexError>
        requires layout { is_constant self.now ≡ true }
        requires start_le_end { start ≤ end }
        requires in_bounds { end ≤ tree_len self.now }
        ensures { Gives result (IsSlice self.now start (end - start)) }
    {
        let Layout::Constant { scalar, .. } = self.layout() else {
            unreachable!();
        };
        shared_constant(alloc, scalar, end - start)
    }

    pub(crate) fn select_constant(
        &self,
        alloc: Global,
        selection: &Selection,
    ) -> Result<ArrayRef, VortexError>
        requires layout { is_constant self.now ≡ true }
        requires within { AreBelow (tree_len self.now) selection.now }
        ensures { Gives result (IsSelected self.now selection.now) }
    {
        let Layout::Constant { scalar, .. } = self.layout() else {
            unreachable!();
        };
        shared_constant(alloc, scalar, selection.len())
    }

    // The rows at which the mask is true, of which only the number tells.
    pub(crate) fn filter_constant(
        &self,
        alloc: Global,
        mask: &Mask,
    ) -> Result<ArrayRef, VortexError>
        requires layout { is_constant self.now ≡ true }
        requires len { length mask.now ≡ tree_len self.now }
        ensures { Gives result (IsSelected self.now (trues mask.now)) }
    {
        let Layout::Constant { scalar, .. } = self.layout() else {
            unreachable!();
        };
        shared_constant(alloc, scalar, mask.true_count())
    }

    // A constant where null may not stand under the validity, else a dictionary of the one row.
    #[tactic(auto, using(crate::proofs::Dictionaries::constants))]
    pub(crate) fn nulled_constant(
        &self,
        alloc: Global,
        nulls: &Validity,
    ) -> Result<ArrayRef, VortexError>
        requires layout { is_constant self.now ≡ true }
        requires fits { ValidFits (valid_of nulls.now) (tree_len self.now) }
        ensures by_row { Gives result (IsNulled self.now (valid_of nulls.now)) }
        ensures one_value { IfOk result HasOneValue }
    {
        let Layout::Constant { scalar, len } = self.layout() else {
            unreachable!();
        };
        constant_or_null(alloc, scalar, *len, nulls)
    }

    pub(crate) fn null_constant(
        &self,
        alloc: Global,
        len: usize,
        nulls: &Validity,
    ) -> Result<ArrayRef, VortexError>
        requires layout { is_constant self.now ≡ true }
        requires fits { ValidFits (valid_of nulls.now) len }
        requires none { (i : ℕ) → i < len → is_valid_at (valid_of nulls.now) i ≡ false }
        ensures by_row { Gives result (IsNulls self.now len (valid_of nulls.now)) }
        ensures one_value { IfOk result HasOneValue }
    {
        let Layout::Constant { scalar, .. } = self.layout() else {
            unreachable!();
        };
        constant_or_null(alloc, scalar, len, nulls)
    }

    // The value of each row, `None` where they are null, its parts shared.
    pub(crate) fn constant_value(&self, alloc: Global) -> Result<Option<ScalarValue>, VortexError>
        requires { is_constant self.now ≡ true }
        ensures { Gives result (λ v. row_under (kind_of self.now) v ≡ row_at self.now 0) }
    {
        let Layout::Constant { scalar, .. } = self.layout() else {
            unreachable!();
        };
        match scalar.value() {
            Some(value) => Ok(Some(value.try_clone(alloc)?)),
            None => Ok(None),
        }
    }
}

// The row `len` times, null where this validity is not true: a constant where null may not stand
// under it, else a dictionary of the one row.
#[tactic(auto, using(crate::proofs::Dictionaries::constants, crate::proofs::OneValue::one_values))]
fn constant_or_null(
    alloc: Global,
    scalar: &Scalar,
    len: usize,
    nulls: &Validity,
) -> Result<ArrayRef, VortexError>
    requires { ValidFits (valid_of nulls.now) len }
    ensures by_row { Gives result (IsNulled (constant scalar.now.kind scalar.now.row len) (valid_of nulls.now)) }
    ensures one_value { IfOk result HasOneValue }
{
    if !nulls.is_nullable() {
        return shared_constant(alloc, scalar, len);
    }
    let codes = ArrayRef::zero_codes(alloc, len, nulls)?;
    match shared_constant(alloc, scalar, 1) {
        Ok(values) => ArrayRef::dictionary(alloc, codes, values, false),
        Err(error) => {
            drop(codes);
            Err(error)
        }
    }
}

// The row `len` times, its parts shared.
fn shared_constant(alloc: Global, scalar: &Scalar, len: usize) -> Result<ArrayRef, VortexError>
    ensures { Gives result (λ a. a ≡ constant scalar.now.kind scalar.now.row len) }
{
    ArrayRef::constant(alloc, scalar.try_clone(alloc)?, len)
}

/// The validity of rows that are all this one. For the crates above.
pub fn scalar_validity(scalar: &Scalar) -> Validity
    ensures state { state_of (valid_of result) ≡ row_state scalar.now.kind scalar.now.row }
    ensures fits { (n : ℕ) → ValidFits (valid_of result) n }
    ensures bits { (i : ℕ) → is_valid_at (valid_of result) i ≡ is_present scalar.now.row }
    ensures nullable { nullable (valid_of result) ≡ is_nullable_kind scalar.now.kind }
    ensures plain { IsPlainValid (valid_of result) }
{
    let dtype = scalar.dtype();
    if !scalar.is_valid() {
        Validity::AllInvalid
    } else if dtype.is_nullable() {
        Validity::AllValid
    } else {
        Validity::NonNullable
    }
}
