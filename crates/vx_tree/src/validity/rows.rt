// Rows of a validity: one of them, a part of them, and those that are taken or left.

ghost use Rattle.std.specs.Prelude.{◌≡◌, ◌-◌, ℕ, false, length, map, IfOk};
ghost use Rattle.std.specs.Int.{w8, bit_not};
ghost use Rattle.std.specs.List.{range_with_len};
ghost use Rattle.vx_base.specs.Bits.{bool_at};
ghost use Rattle.vx_base.specs.Kinds.{booleans};
ghost use Rattle.vx_base.specs.Refusals.{Gives, Refuses};
ghost use Rattle.vx_base.specs.Trues.{trues};
ghost use Rattle.vx_tree.specs.Tree.{by_array};
ghost use Rattle.vx_tree.specs.Meaning.{tree_len, kind_of, is_valid_at};
ghost use Rattle.vx_tree.specs.Named.{AreIndices};
ghost use Rattle.vx_tree.specs.Parts.{valid_of};
ghost use Rattle.vx_tree.specs.Faults.{take_fault, valid_type_fault};
ghost use Rattle.vx_tree.specs.Formed.{ValidFits};
ghost use Rattle.vx_tree.specs.Operations.{IsValidSlice, IsValidSelected, IsValidityOf};
ghost use Rattle.vx_tree.specs.Validities.{opposite, IsOpposite, IsValidTaken, valid_position_fault, valid_slice_fault};
ghost use Rattle.vx_tree.specs.Validities.{valid_filter_fault, valid_take_fault};

use crate::array::{ArrayRef, Validity};
use crate::indices::Indices;
use crate::validity::{constant_truth, never_true, told_by};
use std::alloc::Global;
use std::ops::Range;
use vx_base::{BitBuffer, ByteBuffer, Mask, VortexError};

#[tactic(auto, using(crate::proofs::Masks::plain_booleans))]
impl Validity {
    /// Whether row `i` is valid. A state without an array has any row. Refuses `MismatchedTypes`
    /// where the array is not one of plain booleans, then `OutOfBounds` where `i` is not below its
    /// length.
    pub fn is_valid(&self, _alloc: Global, i: usize) -> Result<bool, VortexError>
        ensures ok { IfOk result (λ b. b ≡ is_valid_at (valid_of self.now) i) }
        ensures refuses { Refuses result (valid_position_fault (valid_of self.now) i) }
    {
        match self {
            Validity::NonNullable => Ok(true),
            Validity::AllValid => Ok(true),
            Validity::AllInvalid => Ok(false),
            Validity::Array(array) => {
                if !array.dtype().is_plain_bool() {
                    return Err(VortexError::MismatchedTypes);
                }
                let len = array.len();
                if i >= len {
                    return Err(VortexError::OutOfBounds { index: i, len });
                }
                Ok(array.truth_at(i))
            }
        }
    }

    /// Whether row `i` is null. Refuses as `is_valid` does.
    pub fn is_null(&self, alloc: Global, i: usize) -> Result<bool, VortexError>
        ensures ok { IfOk result (λ b. b ≡ opposite (is_valid_at (valid_of self.now) i)) }
        ensures refuses { Refuses result (valid_position_fault (valid_of self.now) i) }
    {
        let valid = self.is_valid(alloc, i)?;
        Ok(!valid)
    }

    /// Whether row `i` is valid, as `is_valid` says.
    pub fn execute_is_valid(&self, alloc: Global, i: usize) -> Result<bool, VortexError>
        ensures ok { IfOk result (λ b. b ≡ is_valid_at (valid_of self.now) i) }
        ensures refuses { Refuses result (valid_position_fault (valid_of self.now) i) }
    {
        self.is_valid(alloc, i)
    }

    /// Whether row `i` is null, as `is_null` says.
    pub fn execute_is_null(&self, alloc: Global, i: usize) -> Result<bool, VortexError>
        ensures ok { IfOk result (λ b. b ≡ opposite (is_valid_at (valid_of self.now) i)) }
        ensures refuses { Refuses result (valid_position_fault (valid_of self.now) i) }
    {
        self.is_null(alloc, i)
    }

    /// The validity of the rows from `range.start` up to `range.end`. A state without an array
    /// stays, whatever the range. Refuses `MismatchedTypes` where the array is not one of plain
    /// booleans, then as slicing it does.
    pub fn slice(&self, alloc: Global, range: Range<usize>) -> Result<Validity, VortexError>
        ensures sliced { IfOk result (λ w. IsValidSlice (valid_of self.now) range.start (range.end - range.start) (valid_of w)) }
        ensures refuses { Refuses result (valid_slice_fault (valid_of self.now) range.start range.end) }
    {
        match self {
            Validity::NonNullable => Ok(Validity::NonNullable),
            Validity::AllValid => Ok(Validity::AllValid),
            Validity::AllInvalid => Ok(Validity::AllInvalid),
            Validity::Array(array) => {
                if !array.dtype().is_plain_bool() {
                    return Err(VortexError::MismatchedTypes);
                }
                let array = array.slice(alloc, range)?;
                Ok(Validity::Array(array))
            }
        }
    }

    /// The validity of the rows at which the mask is true. A state without an array stays, whatever
    /// the mask. Refuses `MismatchedTypes` where the array is not one of plain booleans, then
    /// `LengthMismatch` where the mask has not one boolean a row.
    pub fn filter(&self, alloc: Global, mask: &Mask) -> Result<Validity, VortexError>
        ensures filtered { IfOk result (λ w. IsValidSelected (valid_of self.now) (trues mask.now) (valid_of w)) }
        ensures refuses { Refuses result (valid_filter_fault (valid_of self.now) (length mask.now)) }
    {
        match self {
            Validity::NonNullable => Ok(Validity::NonNullable),
            Validity::AllValid => Ok(Validity::AllValid),
            Validity::AllInvalid => Ok(Validity::AllInvalid),
            Validity::Array(array) => {
                if !array.dtype().is_plain_bool() {
                    return Err(VortexError::MismatchedTypes);
                }
                let array = array.filter(alloc, mask)?;
                Ok(Validity::Array(array))
            }
        }
    }

    /// Valid where the row was null: `AllValid` and `AllInvalid` change places, an array is turned
    /// row by row, a constant into a constant, and `NonNullable` stays. Refuses `MismatchedTypes`
    /// where the array is not one of plain booleans.
    pub fn not(&self, alloc: Global) -> Result<Validity, VortexError>
        ensures opposite { IfOk result (λ w. (n : ℕ) → ValidFits (valid_of self.now) n → IsOpposite (valid_of self.now) n (valid_of w)) }
        ensures refuses { Refuses result (valid_type_fault (valid_of self.now)) }
    {
        match self {
            Validity::NonNullable => Ok(Validity::NonNullable),
            Validity::AllValid => Ok(Validity::AllInvalid),
            Validity::AllInvalid => Ok(Validity::AllValid),
            Validity::Array(array) => {
                if !array.dtype().is_plain_bool() {
                    return Err(VortexError::MismatchedTypes);
                }
                let validity = opposite_of(alloc, array)?;
                Ok(validity)
            }
        }
    }

    /// The validity of the rows at these indices: valid where the index is not null and the row is
    /// valid. `NonNullable` and `AllValid` take the validity of the indices, and `AllInvalid`
    /// stays; then the indices are not looked at. Refuses `MismatchedTypes` where the array is not
    /// one of plain booleans, then as taking from it does.
    pub fn take(&self, alloc: Global, indices: &ArrayRef) -> Result<Validity, VortexError>
        ensures taken { IfOk result (λ w. IsValidTaken (valid_of self.now) indices.now (valid_of w)) }
        ensures refuses { Refuses result (valid_take_fault (valid_of self.now) indices.now) }
    {
        match self {
            Validity::NonNullable => {
                let validity = indices.validity(alloc)?;
                Ok(validity)
            }
            Validity::AllValid => {
                let validity = indices.validity(alloc)?;
                Ok(validity.into_nullable())
            }
            Validity::AllInvalid => Ok(Validity::AllInvalid),
            Validity::Array(array) => {
                if !array.dtype().is_plain_bool() {
                    return Err(VortexError::MismatchedTypes);
                }
                let validity = take_truths(alloc, array, indices)?;
                Ok(validity)
            }
        }
    }
}

// The rows at these indices of an array of plain booleans, false where the index is null.
fn take_truths(alloc: Global, array: &ArrayRef, indices: &ArrayRef) -> Result<Validity, VortexError>
    requires { kind_of array.now ≡ booleans false }
    ensures taken { IfOk result (λ w. IsValidTaken (by_array array.now) indices.now (valid_of w)) }
    ensures refuses { Refuses result (take_fault array.now indices.now) }
{
    if !indices.dtype().is_int() {
        return Err(VortexError::MismatchedTypes);
    }
    let positions = indices.indices(alloc, array.len())?;
    let nulls = match indices.validity(alloc) {
        Ok(nulls) => nulls,
        Err(error) => {
            drop(positions);
            return Err(error);
        }
    };
    let truths = truths_at(alloc, array, indices, &positions, &nulls);
    drop(nulls);
    drop(positions);
    Ok(truths?)
}

// The rows at these positions, which are those of the indices, and false where their validity is
// not true.
fn truths_at(
    alloc: Global,
    array: &ArrayRef,
    indices: &ArrayRef,
    positions: &Indices,
    nulls: &Validity,
) -> Result<Validity, VortexError>
    requires kind { kind_of array.now ≡ booleans false }
    requires positions { AreIndices indices.now (tree_len array.now) positions.now }
    requires nulls { IsValidityOf indices.now (valid_of nulls.now) }
    ensures { Gives result (λ w. IsValidTaken (by_array array.now) indices.now (valid_of w)) }
{
    let len = indices.len();
    if array.is_empty() {
        return never_true(alloc, len);
    }
    let selected = array.select_within(alloc, &positions.selection())?;
    Validity::Array(selected).nulled(alloc, nulls, len)
}

// True where the array is false: of rows that are all one a constant.
#[tactic(auto, using(crate::proofs::Validities::repeated_turned))]
fn opposite_of(alloc: Global, array: &ArrayRef) -> Result<Validity, VortexError>
    requires { kind_of array.now ≡ booleans false }
    ensures { Gives result (λ w. (n : ℕ) → ValidFits (by_array array.now) n → IsOpposite (by_array array.now) n (valid_of w)) }
{
    if array.is_repeated() {
        let opposite = constant_truth(alloc, !array.truth_at(0), array.len())?;
        return Ok(Validity::Array(opposite));
    }
    let bits = negated(alloc, array.plain_bits(alloc)?)?;
    told_by(alloc, bits)
}

// Each boolean the other way: the bytes that hold them, negated.
fn negated(alloc: Global, bits: BitBuffer) -> Result<BitBuffer, VortexError>
    ensures { Gives result (λ b. b.bits ≡ map (λ i. opposite (bool_at bits.bits i)) (range_with_len 0 (length bits.bits))) }
{
    let (offset, len, bytes) = bits.into_inner();
    let negated = negated_bytes(alloc, &bytes.as_slice()[..(offset + len).div_ceil(8)]);
    drop(bytes);
    let negated = ByteBuffer::from_vec(alloc, negated?)?;
    BitBuffer::new_with_offset(alloc, negated, len, offset)
}

// Each bit of the bytes the other way.
fn negated_bytes(alloc: Global, bytes: &[u8]) -> Result<Vec<u8>, VortexError>
    ensures { Gives result (λ negated. negated.items ≡ map (bit_not w8) bytes.now) }
{
    Ok(bytes.iter().map(|byte| !*byte).collect(alloc)?)
}
