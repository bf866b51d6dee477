// Truth values, one to a bit.

ghost use Rattle.std.specs.Prelude.{◌≡◌, ◌<◌, ◌≤◌, ◌-◌, ℕ, true, false, length};
ghost use Rattle.vx_base.specs.Refusals.{Gives};
ghost use Rattle.vx_base.specs.ValueRows.{row_under};
ghost use Rattle.vx_tree.specs.Tree.{bools};
ghost use Rattle.vx_tree.specs.Layouts.{is_bools};
ghost use Rattle.vx_tree.specs.Meaning.{tree_len, kind_of, row_at, is_valid_at};
ghost use Rattle.vx_tree.specs.Formed.{ValidFits};
ghost use Rattle.vx_tree.specs.Parts.{valid_of};
ghost use Rattle.vx_tree.specs.Operations.{IsSlice, IsSelected, IsNulls, AreBelow};

use crate::array::{ArrayRef, Layout, Validity};
use std::alloc::Global;
use vx_base::{BitBuffer, ScalarValue, Selection, VortexError, gather_bits};

impl ArrayRef {
    /// Truth values, null where the validity is false. Asks that the validity is that of as many
    /// rows as there are bits.
    pub fn bools(
        alloc: Global,
        bits: BitBuffer,
        validity: Validity,
    ) -> Result<ArrayRef, VortexError>
        requires { ValidFits (valid_of validity) (length bits.bits) }
        ensures { Gives result (λ a. a ≡ bools bits.offset bits.bits (valid_of validity)) }
    {
        ArrayRef::from_parts(alloc, Layout::Bool { bits, validity })
    }

    #[cycle(slice)]
    #[tactic(auto, using(crate::specs::Formed::valid_reads))]
    pub(crate) fn slice_bools(
        &self,
        alloc: Global,
        start: usize,
        end: usize,
    ) -> Result<ArrayRef, VortexError>
        requires layout { is_bools self.now ≡ true }
        requires start_le_end { start ≤ end }
        requires in_bounds { end ≤ tree_len self.now }
        ensures { Gives result (IsSlice self.now start (end - start)) }
    {
        let Layout::Bool { bits, validity } = self.layout() else {
            unreachable!();
        };
        let bits = bits.slice(alloc, start..end)?;
        match validity.slice_within(alloc, start, end) {
            Ok(validity) => self.with_parts(alloc, Layout::Bool { bits, validity }),
            Err(error) => {
                drop(bits);
                Err(error)
            }
        }
    }

    #[cycle(select)]
    pub(crate) fn select_bools(
        &self,
        alloc: Global,
        selection: &Selection,
    ) -> Result<ArrayRef, VortexError>
        requires layout { is_bools self.now ≡ true }
        requires within { AreBelow (tree_len self.now) selection.now }
        ensures { Gives result (IsSelected self.now selection.now) }
    {
        let Layout::Bool { bits, validity } = self.layout() else {
            unreachable!();
        };
        let bits = gather_bits(alloc, bits, selection)?;
        match validity.select_within(alloc, selection) {
            Ok(validity) => self.with_parts(alloc, Layout::Bool { bits, validity }),
            Err(error) => {
                drop(bits);
                Err(error)
            }
        }
    }

    pub(crate) fn null_bools(
        &self,
        alloc: Global,
        len: usize,
        nulls: &Validity,
    ) -> Result<ArrayRef, VortexError>
        requires layout { is_bools self.now ≡ true }
        requires fits { ValidFits (valid_of nulls.now) len }
        requires none { (i : ℕ) → i < len → is_valid_at (valid_of nulls.now) i ≡ false }
        ensures { Gives result (IsNulls self.now len (valid_of nulls.now)) }
    {
        let Layout::Bool { validity, .. } = self.layout() else {
            unreachable!();
        };
        let validity = validity.nulls(alloc, len, nulls)?;
        match BitBuffer::new_unset(alloc, len) {
            Ok(bits) => ArrayRef::bools(alloc, bits, validity),
            Err(error) => {
                drop(validity);
                Err(error)
            }
        }
    }

    // The value of row `i`, `None` where it is null.
    #[tactic(auto, using(crate::specs::Formed::valid_reads))]
    pub(crate) fn truth_value(&self, i: usize) -> Option<ScalarValue>
        requires layout { is_bools self.now ≡ true }
        requires in_bounds { i < tree_len self.now }
        ensures { row_under (kind_of self.now) result ≡ row_at self.now i }
    {
        let Layout::Bool { bits, validity } = self.layout() else {
            unreachable!();
        };
        if validity.is_valid_at(i) {
            Some(ScalarValue::Bool(bits.value(i)))
        } else {
            None
        }
    }
}

// These truth values, shared, under this validity.
pub(crate) fn bools_under(
    alloc: Global,
    bits: &BitBuffer,
    validity: Validity,
) -> Result<ArrayRef, VortexError>
    requires { ValidFits (valid_of validity) (length bits.now.bits) }
    ensures { Gives result (λ a. a ≡ bools bits.now.offset bits.now.bits (valid_of validity)) }
{
    match bits.try_clone(alloc) {
        Ok(bits) => ArrayRef::bools(alloc, bits, validity),
        Err(error) => {
            drop(validity);
            Err(error)
        }
    }
}
