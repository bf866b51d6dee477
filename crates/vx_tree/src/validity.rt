// Which rows are valid.

ghost use Rattle.std.specs.Prelude.{◌≡◌, ◌<◌, ◌≤◌, ◌-◌, ℕ, IfOk, OnOk, None, false};
ghost use Rattle.vx_base.specs.DTypes.{is_nullable};
ghost use Rattle.vx_base.specs.Kinds.{booleans};
ghost use Rattle.vx_base.specs.Rows.{boolean};
ghost use Rattle.vx_base.specs.Refusals.{Gives, Refuses, Tests};
ghost use Rattle.vx_tree.specs.Tree.{bools, constant, by_array, all_invalid, non_nullable};
ghost use Rattle.vx_tree.specs.Meaning.{tree_len, kind_of, row_at, is_valid_at, nullable, valid_mask};
ghost use Rattle.vx_tree.specs.Formed.{IsLenOf, ValidFits, ValidReads, ValidCovers};
ghost use Rattle.vx_tree.specs.Fitting.{ValidityFormed};
ghost use Rattle.vx_tree.specs.Parts.{valid_of};
ghost use Rattle.vx_tree.specs.Faults.{valid_type_fault, valid_len, validity_fault};
ghost use Rattle.vx_tree.specs.Operations.{IsValidSlice, IsValidSelected, IsValidNulled, IsValidNulls, ValidHasAll};

mod bits;
mod both;
mod casts;
mod compare;
mod concat;
mod laws;
mod patch;
mod patched_bits;
mod rows;
mod states;

use crate::array::{ArrayRef, Validity};
pub(crate) use crate::validity::bits::constant_truth;
use crate::validity::both::plain_and;
pub use crate::validity::laws::{
    and_associates, and_commutes, and_has_a_unit, and_repeats, trivial_casts_are_casts,
};
use std::alloc::Global;
use vx_base::{BitBuffer, Mask, Nullability, Selection, VortexError};

impl Validity {
    /// Whether null may stand: in every state but `NonNullable`.
    pub fn nullability(&self) -> Nullability
        ensures { is_nullable result ≡ nullable (valid_of self.now) }
    {
        match self {
            Validity::NonNullable => Nullability::NonNullable,
            _ => Nullability::Nullable,
        }
    }

    /// The length of the validity array, where there is one.
    pub fn maybe_len(&self) -> Option<usize>
        ensures { result ≡ valid_len (valid_of self.now) }
    {
        match self {
            Validity::Array(array) => Some(array.len()),
            _ => None,
        }
    }

    /// The same state, its array shared.
    pub fn try_clone(&self, alloc: Global) -> Result<Validity, VortexError>
        ensures { Gives result (λ v. valid_of v ≡ valid_of self.now) }
    {
        match self {
            Validity::NonNullable => Ok(Validity::NonNullable),
            Validity::AllValid => Ok(Validity::AllValid),
            Validity::AllInvalid => Ok(Validity::AllInvalid),
            Validity::Array(array) => Ok(Validity::Array(array.try_clone(alloc)?)),
        }
    }

    /// Refuses `MismatchedTypes` where there is an array that is not one of plain booleans, then
    /// `LengthMismatch` where it has not `len` rows.
    #[tactic(auto, using(crate::proofs::Masks::plain_booleans))]
    pub fn check(&self, len: usize) -> Result<(), VortexError>
        ensures fits { OnOk result (ValidFits (valid_of self.now) len) }
        ensures tests { Tests result (validity_fault (valid_of self.now) len) }
    {
        let Validity::Array(array) = self else {
            return Ok(());
        };
        if !array.dtype().is_plain_bool() {
            return Err(VortexError::MismatchedTypes);
        }
        let found = array.len();
        if found != len {
            return Err(VortexError::LengthMismatch {
                expected: len,
                found,
            });
        }
        Ok(())
    }

    /// One boolean for each of `len` rows: whether the row is valid. Asks that an array has `len`
    /// rows. Refuses `MismatchedTypes` where the array is not one of plain booleans.
    pub fn execute_mask(&self, alloc: Global, len: usize) -> Result<Mask, VortexError>
        requires { IsLenOf (valid_of self.now) len }
        ensures mask { IfOk result (λ m. m ≡ valid_mask (valid_of self.now) len) }
        ensures refuses { Refuses result (valid_type_fault (valid_of self.now)) }
    {
        match self {
            Validity::NonNullable => Ok(Mask::new_true(len)),
            Validity::AllValid => Ok(Mask::new_true(len)),
            Validity::AllInvalid => Ok(Mask::new_false(len)),
            Validity::Array(array) => {
                if !array.dtype().is_plain_bool() {
                    return Err(VortexError::MismatchedTypes);
                }
                Ok(array.plain_mask(alloc)?)
            }
        }
    }

    // One boolean for each of `len` rows: whether the row is valid.
    pub(crate) fn mask(&self, alloc: Global, len: usize) -> Result<Mask, VortexError>
        requires { ValidFits (valid_of self.now) len }
        ensures { Gives result (λ m. m ≡ valid_mask (valid_of self.now) len) }
    {
        self.execute_mask(alloc, len)
    }

    // Whether null may stand.
    pub(crate) fn is_nullable(&self) -> bool
        ensures { result ≡ nullable (valid_of self.now) }
    {
        !matches!(self, Validity::NonNullable)
    }

    // What is always true of its array, at every depth. It does nothing.
    pub(crate) fn known(&self)
        ensures { ValidityFormed (valid_of self.now) }
    {
        if let Validity::Array(array) = self {
            array.known();
        }
    }

    // Whether row `i` is valid.
    #[cycle(read)]
    #[inline(always)]
    pub(crate) fn is_valid_at(&self, i: usize) -> bool
        requires { ValidReads (valid_of self.now) i }
        ensures { result ≡ is_valid_at (valid_of self.now) i }
    {
        match self {
            Validity::NonNullable => true,
            Validity::AllValid => true,
            Validity::AllInvalid => false,
            Validity::Array(array) => array.truth_at(i),
        }
    }

    // The validity of the rows from `start` up to `end`, where they lie within.
    #[cycle(slice)]
    pub(crate) fn slice_within(
        &self,
        alloc: Global,
        start: usize,
        end: usize,
    ) -> Result<Validity, VortexError>
        requires start_le_end { start ≤ end }
        requires in_bounds { ValidCovers (valid_of self.now) end }
        ensures { Gives result (λ v. IsValidSlice (valid_of self.now) start (end - start) (valid_of v)) }
    {
        match self {
            Validity::NonNullable => Ok(Validity::NonNullable),
            Validity::AllValid => Ok(Validity::AllValid),
            Validity::AllInvalid => Ok(Validity::AllInvalid),
            Validity::Array(array) => {
                let array = array.slice_within(alloc, start, end)?;
                Ok(Validity::Array(array))
            }
        }
    }

    /// The validity of the rows that are picked. For the crates above.
    #[cycle(select)]
    #[tactic(auto, using(crate::proofs::Selected::booleans_can_be_selected))]
    pub fn select_within(
        &self,
        alloc: Global,
        selection: &Selection,
    ) -> Result<Validity, VortexError>
        requires { ValidHasAll (valid_of self.now) selection.now }
        ensures { Gives result (λ w. IsValidSelected (valid_of self.now) selection.now (valid_of w)) }
    {
        match self {
            Validity::NonNullable => Ok(Validity::NonNullable),
            Validity::AllValid => Ok(Validity::AllValid),
            Validity::AllInvalid => Ok(Validity::AllInvalid),
            Validity::Array(array) => {
                let array = array.select_within(alloc, selection)?;
                Ok(Validity::Array(array))
            }
        }
    }

    // True where both are, of `len` rows.
    pub(crate) fn nulled(
        &self,
        alloc: Global,
        nulls: &Validity,
        len: usize,
    ) -> Result<Validity, VortexError>
        requires mine { ValidFits (valid_of self.now) len }
        requires theirs { ValidFits (valid_of nulls.now) len }
        ensures { Gives result (λ w. IsValidNulled (valid_of self.now) (valid_of nulls.now) len (valid_of w)) }
    {
        match (self, nulls) {
            (Validity::NonNullable, _) => nulls.try_clone(alloc),
            (_, Validity::NonNullable) => self.try_clone(alloc),
            (Validity::AllValid, _) => nulls.try_clone(alloc),
            (Validity::AllInvalid, _) => Ok(Validity::AllInvalid),
            (Validity::Array(_), Validity::AllValid) => self.try_clone(alloc),
            (Validity::Array(array), Validity::AllInvalid) => nowhere_true(alloc, array, len),
            (Validity::Array(array), Validity::Array(other)) => plain_and(alloc, array, other),
        }
    }

    /// In the state of nulls of this, nowhere true, for `len` rows. Asks that the nulls are nowhere
    /// true. For the crates above.
    pub fn nulls(
        &self,
        alloc: Global,
        len: usize,
        nulls: &Validity,
    ) -> Result<Validity, VortexError>
        requires fits { ValidFits (valid_of nulls.now) len }
        requires none { (i : ℕ) → i < len → is_valid_at (valid_of nulls.now) i ≡ false }
        ensures { Gives result (λ w. IsValidNulls (valid_of self.now) (valid_of nulls.now) len (valid_of w)) }
    {
        match self {
            Validity::NonNullable => nulls.try_clone(alloc),
            Validity::AllValid => Validity::AllValid.nulled(alloc, nulls, len),
            Validity::AllInvalid => Ok(Validity::AllInvalid),
            Validity::Array(_) => never_true(alloc, len),
        }
    }
}

/// Valid where the bit is set. For the crates above.
pub fn told_by(alloc: Global, bits: BitBuffer) -> Result<Validity, VortexError>
    ensures { Gives result (λ v. valid_of v ≡ by_array (bools bits.offset bits.bits non_nullable)) }
{
    let array = ArrayRef::bools(alloc, bits, Validity::NonNullable)?;
    Ok(Validity::Array(array))
}

// False again and again.
pub(crate) fn never_true(alloc: Global, len: usize) -> Result<Validity, VortexError>
    ensures { Gives result (λ v. valid_of v ≡ by_array (constant (booleans false) (boolean false) len)) }
{
    Ok(Validity::Array(constant_truth(alloc, false, len)?))
}

// False in place of an array: a constant where that is told to have one value for all rows, else
// bits.
#[tactic(auto, using(crate::proofs::Nulled::no_truths))]
fn nowhere_true(alloc: Global, array: &ArrayRef, len: usize) -> Result<Validity, VortexError>
    requires { ValidFits (by_array array.now) len }
    ensures { Gives result (λ w. IsValidNulled (by_array array.now) all_invalid len (valid_of w)) }
{
    if array.is_repeated() {
        return never_true(alloc, len);
    }
    told_by(alloc, BitBuffer::new_unset(alloc, len)?)
}
