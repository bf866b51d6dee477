// Rows of a validity that are overwritten.

ghost use Rattle.std.specs.Prelude.{◌≡◌, ◌<◌, ◌≤◌, ◌≤ℤ◌, ◌+◌, ◌-◌, ◌^◌, ℕ, pos, true, false, length, None, IfOk, IfSome, IsTrue};
ghost use Rattle.vx_base.specs.Integers.{numbers, number_nth};
ghost use Rattle.vx_base.specs.Kinds.{is_plain_integers};
ghost use Rattle.vx_base.specs.Refusals.{Gives, Refuses, Tests};
ghost use Rattle.vx_base.specs.Rows.{whole, count_in};
ghost use Rattle.vx_tree.specs.Tree.{primitive, non_nullable};
ghost use Rattle.vx_tree.specs.Meaning.{tree_len, kind_of, row_at, is_valid_at};
ghost use Rattle.vx_tree.specs.Formed.{ValidFits};
ghost use Rattle.vx_tree.specs.Parts.{valid_of};
ghost use Rattle.vx_tree.specs.Faults.{valid_type_fault};
ghost use Rattle.vx_tree.specs.Patches.{is_unchanged, overwritten, patch_positions, patch_row_fault};
ghost use Rattle.vx_tree.specs.Patches.{patch_positions_fault, patch_type_fault, patch_len_fault, patch_rows_fault};
ghost use Rattle.vx_tree.specs.Patches.{patch_fault, IsPatched};

use crate::array::{ArrayRef, Validity};
use crate::indices::to_position;
use crate::validity::patched_bits::PatchedBits;
use crate::validity::{constant_truth, told_by};
use std::alloc::Global;
use vx_base::{BitBuffer, NativePType, PType, VortexError, call_native, int_at, number_count};

impl Validity {
    /// `len` rows, overwritten one after another at the positions that the indices name, less the
    /// offset, by the rows of the patches; of equal positions the last one wins. Two states that
    /// are alike and no array stay, and nothing else is looked at. Else refuses
    /// `NullabilityMismatch` where one is `NonNullable`, then `MismatchedTypes` where the indices
    /// are not integers that take no null or an array is not one of plain booleans, then
    /// `LengthMismatch` where the array has not `len` rows or the patches are not as many as the
    /// indices, then `PatchOutOfRange` at the first index that is below the offset or whose
    /// position is not below `len`. All valid rows, of which 2 and 4 are patched by true and false,
    /// are true, true, true, true, false.
    pub fn patch(
        self,
        alloc: Global,
        len: usize,
        offset: usize,
        indices: &ArrayRef,
        patches: &Validity,
    ) -> Result<Validity, VortexError>
        ensures same { is_unchanged (valid_of self) (valid_of patches.now) ≡ true → IfOk result (λ w. valid_of w ≡ valid_of self) }
        ensures patched { is_unchanged (valid_of self) (valid_of patches.now) ≡ false
            → IfOk result (λ w. IsPatched (valid_of self) len offset indices.now (valid_of patches.now) (valid_of w)) }
        ensures refuses { Refuses result (patch_fault (valid_of self) len offset indices.now (valid_of patches.now)) }
    {
        if self.is_unchanged(patches) {
            return Ok(self);
        }
        let patched = self.patch_nullable(alloc, len, offset, indices, patches);
        drop(self);
        patched
    }

    // Overwrites the rows, where null may stand in both.
    fn patch_nullable(
        &self,
        alloc: Global,
        len: usize,
        offset: usize,
        indices: &ArrayRef,
        patches: &Validity,
    ) -> Result<Validity, VortexError>
        requires { is_unchanged (valid_of self.now) (valid_of patches.now) ≡ false }
        ensures patched { IfOk result (λ w. IsPatched (valid_of self.now) len offset indices.now (valid_of patches.now) (valid_of w)) }
        ensures refuses { Refuses result (patch_fault (valid_of self.now) len offset indices.now (valid_of patches.now)) }
    {
        if !self.is_nullable() {
            return Err(VortexError::NullabilityMismatch);
        }
        if !patches.is_nullable() {
            return Err(VortexError::NullabilityMismatch);
        }
        let patched = self.patch_rows(alloc, len, offset, indices, patches)?;
        Ok(patched)
    }

    // Whether both are one state without an array.
    pub(crate) fn is_unchanged(&self, patches: &Validity) -> bool
        ensures { result ≡ is_unchanged (valid_of self.now) (valid_of patches.now) }
    {
        match self {
            Validity::NonNullable => matches!(patches, Validity::NonNullable),
            Validity::AllValid => matches!(patches, Validity::AllValid),
            Validity::AllInvalid => matches!(patches, Validity::AllInvalid),
            Validity::Array(_) => false,
        }
    }

    // Overwrites the rows.
    #[tactic(auto, using(crate::proofs::Patched::patches))]
    fn patch_rows(
        &self,
        alloc: Global,
        len: usize,
        offset: usize,
        indices: &ArrayRef,
        patches: &Validity,
    ) -> Result<Validity, VortexError>
        ensures patched { IfOk result (λ w. IsPatched (valid_of self.now) len offset indices.now (valid_of patches.now) (valid_of w)) }
        ensures refuses { Refuses result (patch_rows_fault (valid_of self.now) len offset indices.now (valid_of patches.now)) }
    {
        self.check_patch_types(indices, patches)?;
        self.check_patch_lens(len, indices, patches)?;
        indices.check_patch_positions(offset, len)?;
        Ok(self.patched_at(alloc, len, offset, indices, patches)?)
    }

    // `len` rows, overwritten one after another at the positions that the indices name, less the
    // offset, by the rows of the patches. No bit is written where none is overwritten, or all of
    // them are one value and stay it. Asks that each index names a position.
    fn patched_at(
        &self,
        alloc: Global,
        len: usize,
        offset: usize,
        indices: &ArrayRef,
        patches: &Validity,
    ) -> Result<Validity, VortexError>
        requires ints { is_plain_integers (kind_of indices.now) ≡ true }
        requires mine { ValidFits (valid_of self.now) len }
        requires theirs { ValidFits (valid_of patches.now) (tree_len indices.now) }
        requires named { patch_positions_fault offset len indices.now ≡ None }
        ensures { Gives result (λ w. IsPatched (valid_of self.now) len offset indices.now (valid_of patches.now) (valid_of w)) }
    {
        let count = indices.len();
        if count == 0 {
            return Ok(Validity::Array(self.to_array(alloc, len)?));
        }
        if let Some(value) = self.common_value(len, patches, count) {
            return Ok(Validity::Array(constant_truth(alloc, value, len)?));
        }
        let bits = self.bits(alloc, len)?;
        let values = match patches.bits(alloc, count) {
            Ok(values) => values,
            Err(error) => {
                drop(bits);
                return Err(error);
            }
        };
        let patched = indices.patched_bits(alloc, bits, offset, &values);
        drop(values);
        told_by(alloc, patched?)
    }

    // The one value that `len` rows of this and `count` rows of the other have, where the states or
    // the layouts say so.
    fn common_value(&self, len: usize, other: &Validity, count: usize) -> Option<bool>
        requires mine { ValidFits (valid_of self.now) len }
        requires theirs { ValidFits (valid_of other.now) count }
        ensures mine { IfSome result (λ b. (i : ℕ) → is_valid_at (valid_of self.now) i ≡ b) }
        ensures theirs { IfSome result (λ b. (i : ℕ) → is_valid_at (valid_of other.now) i ≡ b) }
    {
        let Some(value) = self.one_value(len) else {
            return None;
        };
        let Some(other) = other.one_value(count) else {
            return None;
        };
        if value == other { Some(value) } else { None }
    }

    // Whether the array, where there is one, is one of plain booleans.
    pub(crate) fn check_type(&self) -> Result<(), VortexError>
        ensures { Tests result (valid_type_fault (valid_of self.now)) }
    {
        let Validity::Array(array) = self else {
            return Ok(());
        };
        if !array.dtype().is_plain_bool() {
            return Err(VortexError::MismatchedTypes);
        }
        Ok(())
    }

    // Whether the indices are plain integers, and the arrays those of plain booleans.
    #[tactic(auto, using(crate::proofs::Patched::patches))]
    fn check_patch_types(&self, indices: &ArrayRef, patches: &Validity) -> Result<(), VortexError>
        ensures ints { IfOk result (λ _. is_plain_integers (kind_of indices.now) ≡ true) }
        ensures mine { IfOk result (λ _. valid_type_fault (valid_of self.now) ≡ None) }
        ensures theirs { IfOk result (λ _. valid_type_fault (valid_of patches.now) ≡ None) }
        ensures tests { Tests result (patch_type_fault (valid_of self.now) indices.now (valid_of patches.now)) }
    {
        if !indices.dtype().is_plain_int() {
            return Err(VortexError::MismatchedTypes);
        }
        self.check_type()?;
        patches.check_type()?;
        Ok(())
    }

    // Whether the array has `len` rows, and the patches are as many as the indices.
    #[tactic(auto, using(crate::proofs::Patched::patches))]
    fn check_patch_lens(
        &self,
        len: usize,
        indices: &ArrayRef,
        patches: &Validity,
    ) -> Result<(), VortexError>
        ensures mine { IfOk result (λ _. ValidFits (valid_of self.now) len) }
        ensures theirs { IfOk result (λ _. ValidFits (valid_of patches.now) (tree_len indices.now)) }
        ensures tests { Tests result (patch_len_fault (valid_of self.now) len indices.now (valid_of patches.now)) }
    {
        self.check(len)?;
        patches.check(indices.len())?;
        Ok(())
    }
}

impl ArrayRef {
    // Whether each row names a position, less the offset, below `len`: refuses the first that does
    // not. It is looked for where numbers of one type are not all such positions.
    fn check_patch_positions(&self, offset: usize, len: usize) -> Result<(), VortexError>
        requires { is_plain_integers (kind_of self.now) ≡ true }
        ensures { Tests result (patch_positions_fault offset len self.now) }
    {
        if let Some((ptype, bytes)) = self.plain_numbers()
            && are_all_patches(ptype, bytes, offset, len)
        {
            return Ok(());
        }
        self.check_each_patch(offset, len)
    }

    // Whether each row names a position, less the offset, below `len`: in any layout, row by row.
    fn check_each_patch(&self, offset: usize, len: usize) -> Result<(), VortexError>
        requires { is_plain_integers (kind_of self.now) ≡ true }
        ensures { Tests result (patch_positions_fault offset len self.now) }
    {
        for row in 0..self.len() {
            self.check_patch(row, offset, len)?;
        }
        Ok(())
    }

    // Whether a row names a position, less the offset, below `len`.
    fn check_patch(&self, row: usize, offset: usize, len: usize) -> Result<(), VortexError>
        requires ints { is_plain_integers (kind_of self.now) ≡ true }
        requires in_bounds { row < tree_len self.now }
        ensures { Tests result (patch_row_fault offset len row (row_at self.now row)) }
    {
        match self.int_at(row) {
            Some(number) => check_number(number, row, offset, len),
            None => unreachable!(),
        }
    }

    // These booleans, overwritten one after another at the positions that the rows name, less the
    // offset. Asks that each row names one.
    fn patched_bits(
        &self,
        alloc: Global,
        bits: BitBuffer,
        offset: usize,
        values: &BitBuffer,
    ) -> Result<BitBuffer, VortexError>
        requires ints { is_plain_integers (kind_of self.now) ≡ true }
        requires named { patch_positions_fault offset (length bits.bits) self.now ≡ None }
        requires as_many { length values.now.bits ≡ tree_len self.now }
        ensures { Gives result (λ b. b.bits ≡ overwritten bits.bits (patch_positions offset self.now) values.now.bits) }
    {
        let mut truths = PatchedBits::copy_of(alloc, bits)?;
        self.write_patches(&mut truths, offset, values);
        truths.freeze(alloc)
    }

    // Overwrites booleans, one after another, at the positions that the rows name, less the offset.
    // Asks that each row names one. Numbers of one type are read where they lie.
    fn write_patches(&self, out: &mut PatchedBits, offset: usize, values: &BitBuffer)
        requires ints { is_plain_integers (kind_of self.now) ≡ true }
        requires named { patch_positions_fault offset (length out.old) self.now ≡ None }
        requires as_many { length values.now.bits ≡ tree_len self.now }
        ensures { out.new ≡ overwritten out.old (patch_positions offset self.now) values.now.bits }
    {
        match self.plain_numbers() {
            Some((ptype, bytes)) => write_numbers(ptype, bytes, out, offset, values),
            None => self.write_each(out, offset, values),
        }
    }

    // Overwrites booleans at the positions, less the offset, that the rows of any layout name.
    fn write_each(&self, out: &mut PatchedBits, offset: usize, values: &BitBuffer)
        requires ints { is_plain_integers (kind_of self.now) ≡ true }
        requires named { patch_positions_fault offset (length out.old) self.now ≡ None }
        requires as_many { length values.now.bits ≡ tree_len self.now }
        ensures { out.new ≡ overwritten out.old (patch_positions offset self.now) values.now.bits }
    {
        for row in 0..values.len() {
            match self.int_at(row) {
                Some(number) => out.put(to_position(number) - offset, values.value(row)),
                None => unreachable!(),
            }
        }
    }
}

// Whether a number names a position, less the offset, below `len`.
fn check_number(number: i128, row: usize, offset: usize, len: usize) -> Result<(), VortexError>
    requires { number ≤ℤ pos (2 ^ 64 - 1) }
    ensures { Tests result (patch_row_fault offset len row (whole number)) }
{
    if number < 0 {
        return Err(VortexError::PatchOutOfRange { row });
    }
    let place = to_position(number);
    if place < offset || place - offset >= len {
        return Err(VortexError::PatchOutOfRange { row });
    }
    Ok(())
}

// Whether each number is a position, less the offset, below `len`. It may be false where an end is
// past the greatest number that can be counted.
fn are_all_patches(ptype: PType, bytes: &[u8], offset: usize, len: usize) -> bool
    ensures { IsTrue result → patch_positions_fault offset len (primitive ptype bytes.now non_nullable) ≡ None }
{
    call_native!(ptype, are_patches(bytes, offset, len))
}

// Whether each number of one type is a position, less the offset, below `len`: no number ends the
// loop.
#[inline(never)]
fn are_patches<T: NativePType>(bytes: &[u8], offset: usize, len: usize) -> bool
    ensures { IsTrue result → patch_positions_fault offset len (primitive T.PTYPE bytes.now non_nullable) ≡ None }
{
    let end = offset.saturating_add(len);
    let mut are_all = true;
    for row in 0..number_count(bytes, T::PTYPE) {
        if !is_patch(int_at(bytes, T::PTYPE, row), offset, end) {
            are_all = false;
        }
    }
    are_all
}

// Whether a number is at least the offset and below an end, and so a position, less the offset, of
// as many as stand between the two.
#[inline]
fn is_patch(number: i128, offset: usize, end: usize) -> bool
    ensures { (row len : ℕ) → end ≤ offset + len → IsTrue result → patch_row_fault offset len row (whole number) ≡ None }
{
    offset as i128 <= number && number < end as i128
}

// Overwrites booleans, one after another, at the positions that numbers are, less the offset.
fn write_numbers(
    ptype: PType,
    bytes: &[u8],
    out: &mut PatchedBits,
    offset: usize,
    values: &BitBuffer,
)
    requires named { patch_positions_fault offset (length out.old) (primitive ptype bytes.now non_nullable) ≡ None }
    requires as_many { length values.now.bits ≡ length (numbers ptype bytes.now) }
    ensures { out.new ≡ overwritten out.old (patch_positions offset (primitive ptype bytes.now non_nullable)) values.now.bits }
{
    call_native!(ptype, write_typed(bytes, out, offset, values))
}

// Overwrites booleans at the positions that numbers of one type are, less the offset.
#[inline(never)]
fn write_typed<T: NativePType>(
    bytes: &[u8],
    out: &mut PatchedBits,
    offset: usize,
    values: &BitBuffer,
)
    requires named { patch_positions_fault offset (length out.old) (primitive T.PTYPE bytes.now non_nullable) ≡ None }
    requires as_many { length values.now.bits ≡ length (numbers T.PTYPE bytes.now) }
    ensures { out.new ≡ overwritten out.old (patch_positions offset (primitive T.PTYPE bytes.now non_nullable)) values.now.bits }
{
    let bits = values.view();
    for row in 0..bits.len() {
        out.put(number_less(bytes, T::PTYPE, row, offset), bits.value(row));
    }
}

// The number of a row less the offset. Asks that it is not below the offset.
#[inline]
fn number_less(bytes: &[u8], ptype: PType, row: usize, offset: usize) -> usize
    requires in_bounds { row < length (numbers ptype bytes.now) }
    requires low { pos offset ≤ℤ number_nth (numbers ptype bytes.now) row }
    ensures { result ≡ count_in (whole (number_nth (numbers ptype bytes.now) row)) - offset }
{
    to_position(int_at(bytes, ptype, row)) - offset
}
