// A validity as booleans, and of booleans.

ghost use Rattle.std.specs.Prelude.{◌≡◌, ℕ, false, length, count_by, IfOk, IfSome};
ghost use Rattle.vx_base.specs.DTypes.{is_nullable};
ghost use Rattle.vx_base.specs.Refusals.{Gives, Refuses};
ghost use Rattle.vx_base.specs.Kinds.{booleans};
ghost use Rattle.vx_base.specs.Rows.{boolean};
ghost use Rattle.vx_tree.specs.Tree.{all_valid, constant};
ghost use Rattle.vx_tree.specs.Meaning.{is_valid_at, valid_mask};
ghost use Rattle.vx_tree.specs.Formed.{IsLenOf, ValidFits};
ghost use Rattle.vx_tree.specs.Parts.{valid_of};
ghost use Rattle.vx_tree.specs.Faults.{valid_type_fault};
ghost use Rattle.vx_tree.specs.Validities.{array_of, full_valid, has_no_nulls, opposite, simplest, valid_from};

use crate::array::{ArrayRef, Validity};
use crate::validity::told_by;
use std::alloc::Global;
use vx_base::{BitBuffer, Mask, Nullability, Scalar, VortexError};

impl Validity {
    /// `len` rows of booleans that tell which rows are valid: a constant true, a constant false, or
    /// the array. Fails only for want of memory.
    pub fn to_array(&self, alloc: Global, len: usize) -> Result<ArrayRef, VortexError>
        ensures { Gives result (λ a. a ≡ array_of (valid_of self.now) len) }
    {
        match self {
            Validity::NonNullable => constant_truth(alloc, true, len),
            Validity::AllValid => constant_truth(alloc, true, len),
            Validity::AllInvalid => constant_truth(alloc, false, len),
            Validity::Array(array) => array.try_clone(alloc),
        }
    }

    /// One boolean for each of `len` rows, as `execute_mask` gives them.
    pub fn to_mask(&self, alloc: Global, len: usize) -> Result<Mask, VortexError>
        requires { IsLenOf (valid_of self.now) len }
        ensures mask { IfOk result (λ m. m ≡ valid_mask (valid_of self.now) len) }
        ensures refuses { Refuses result (valid_type_fault (valid_of self.now)) }
    {
        self.execute_mask(alloc, len)
    }

    // One bit for each of `len` rows: whether the row is valid.
    pub(crate) fn bits(&self, alloc: Global, len: usize) -> Result<BitBuffer, VortexError>
        requires { ValidFits (valid_of self.now) len }
        ensures { Gives result (λ b. b.bits ≡ valid_mask (valid_of self.now) len) }
    {
        match self {
            Validity::NonNullable => BitBuffer::new_set(alloc, len),
            Validity::AllValid => BitBuffer::new_set(alloc, len),
            Validity::AllInvalid => BitBuffer::new_unset(alloc, len),
            Validity::Array(array) => array.plain_bits(alloc),
        }
    }

    // The one value of `_len` rows, where the state or the layout says that they have one.
    pub(crate) fn one_value(&self, _len: usize) -> Option<bool>
        requires { ValidFits (valid_of self.now) _len }
        ensures { IfSome result (λ b. (i : ℕ) → is_valid_at (valid_of self.now) i ≡ b) }
    {
        match self {
            Validity::NonNullable => Some(true),
            Validity::AllValid => Some(true),
            Validity::AllInvalid => Some(false),
            Validity::Array(array) => {
                if array.is_repeated() {
                    Some(array.truth_at(0))
                } else {
                    None
                }
            }
        }
    }

    /// Whether none of `len` rows is null. Asks that an array has `len` rows. Refuses
    /// `MismatchedTypes` where the array is not one of plain booleans, also of no rows, where
    /// `into_non_nullable` does not look at it.
    pub fn execute_no_nulls(&self, alloc: Global, len: usize) -> Result<bool, VortexError>
        requires { IsLenOf (valid_of self.now) len }
        ensures ok { IfOk result (λ b. b ≡ has_no_nulls (valid_of self.now) len) }
        ensures refuses { Refuses result (valid_type_fault (valid_of self.now)) }
    {
        let valid_count = self.valid_count(alloc, len)?;
        Ok(valid_count == len)
    }

    /// The simplest validity that says the same of `len` rows, and how many of them are null:
    /// `AllValid` in the place of an array none of whose rows is null, as where there are no rows,
    /// `AllInvalid` where all are; else it stays. Asks that an array has `len` rows. Refuses
    /// `MismatchedTypes` where the array is not one of plain booleans. Of the array true, true it
    /// gives `AllValid` and 0.
    pub fn simplest(&self, alloc: Global, len: usize) -> Result<(Validity, usize), VortexError>
        requires { IsLenOf (valid_of self.now) len }
        ensures simplest { IfOk result (λ made. valid_of made.0 ≡ simplest (valid_of self.now) len) }
        ensures mask { IfOk result (λ made. valid_mask (valid_of made.0) len ≡ valid_mask (valid_of self.now) len) }
        ensures nulls { IfOk result (λ made. made.1 ≡ count_by opposite (valid_mask (valid_of self.now) len)) }
        ensures refuses { Refuses result (valid_type_fault (valid_of self.now)) }
    {
        let valid_count = self.valid_count(alloc, len)?;
        let validity = self.simplified(alloc, len, valid_count)?;
        Ok((validity, len - valid_count))
    }

    // The simplest validity that says the same of `len` rows, of which so many are valid.
    fn simplified(
        &self,
        alloc: Global,
        len: usize,
        valid_count: usize,
    ) -> Result<Validity, VortexError>
        requires { valid_count ≡ count_by (λ b. b) (valid_mask (valid_of self.now) len) }
        ensures { Gives result (λ v. valid_of v ≡ simplest (valid_of self.now) len) }
    {
        let Validity::Array(_) = self else {
            return self.try_clone(alloc);
        };
        if valid_count == len {
            Ok(Validity::AllValid)
        } else if valid_count == 0 {
            Ok(Validity::AllInvalid)
        } else {
            self.try_clone(alloc)
        }
    }

    // How many of `len` rows are valid. Refuses as `execute_mask` does.
    pub(crate) fn valid_count(&self, alloc: Global, len: usize) -> Result<usize, VortexError>
        requires { IsLenOf (valid_of self.now) len }
        ensures count { IfOk result (λ n. n ≡ count_by (λ b. b) (valid_mask (valid_of self.now) len)) }
        ensures refuses { Refuses result (valid_type_fault (valid_of self.now)) }
    {
        match self {
            Validity::NonNullable => Ok(len),
            Validity::AllValid => Ok(len),
            Validity::AllInvalid => Ok(0),
            Validity::Array(array) => {
                if !array.dtype().is_plain_bool() {
                    return Err(VortexError::MismatchedTypes);
                }
                array.plain_true_count(alloc)
            }
        }
    }

    /// Valid where the boolean is true: `AllValid` where all are, `AllInvalid` where none is, else
    /// an array of them. Fails only for want of memory.
    pub fn from_buffer(alloc: Global, bits: BitBuffer) -> Result<Validity, VortexError>
        ensures given { Gives result (λ v. valid_of v ≡ valid_from bits.offset bits.bits all_valid) }
        ensures mask { IfOk result (λ v. valid_mask (valid_of v) (length bits.bits) ≡ bits.bits) }
    {
        Validity::from_bit_buffer(alloc, bits, Nullability::Nullable)
    }

    /// Valid where the boolean is true: by the nullability where all are, `AllInvalid` where none
    /// is, else an array of them. Fails only for want of memory.
    pub fn from_bit_buffer(
        alloc: Global,
        bits: BitBuffer,
        nullability: Nullability,
    ) -> Result<Validity, VortexError>
        ensures given { Gives result (λ v. valid_of v ≡ valid_from bits.offset bits.bits (full_valid (is_nullable nullability))) }
        ensures mask { IfOk result (λ v. valid_mask (valid_of v) (length bits.bits) ≡ bits.bits) }
    {
        let validity = of_bits(alloc, bits, nullability)?;
        Ok(validity)
    }
}

// Valid where the boolean is true.
fn of_bits(
    alloc: Global,
    bits: BitBuffer,
    nullability: Nullability,
) -> Result<Validity, VortexError>
    ensures { Gives result (λ v. valid_of v ≡ valid_from bits.offset bits.bits (full_valid (is_nullable nullability))) }
{
    let true_count = bits.true_count();
    if true_count == bits.len() {
        drop(bits);
        return Ok(Validity::full(nullability));
    }
    if true_count == 0 {
        drop(bits);
        return Ok(Validity::AllInvalid);
    }
    told_by(alloc, bits)
}

// One truth value, `len` times.
pub(crate) fn constant_truth(
    alloc: Global,
    value: bool,
    len: usize,
) -> Result<ArrayRef, VortexError>
    ensures { Gives result (λ a. a ≡ constant (booleans false) (boolean value) len) }
{
    ArrayRef::constant(alloc, Scalar::bool(value, Nullability::NonNullable), len)
}
