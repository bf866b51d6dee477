// What an array of truth values tells of its parts, and its truth values as a mask.

ghost use Rattle.std.specs.Prelude.{◌≡◌, ℕ, true, false, IfOk, IfSome, MatchOption};
ghost use Rattle.vx_base.specs.Bits.{both};
ghost use Rattle.vx_base.specs.DTypes.{is_nullable};
ghost use Rattle.vx_base.specs.Refusals.{Gives, Refuses};
ghost use Rattle.vx_tree.specs.Formed.{ValidFits};
ghost use Rattle.vx_tree.specs.Meaning.{tree_len, nullable, valid_mask};
ghost use Rattle.vx_tree.specs.Parts.{valid_of};
ghost use Rattle.vx_tree.specs.Slots.{validity_slot};
ghost use Rattle.vx_tree.specs.Validities.{has_no_nulls};
ghost use Rattle.vx_leaves.specs.Leaves.{bits_in, first_bit, validity_of, null_fault};

use crate::bool_array::BoolArray;
use std::alloc::Global;
use vx_base::{BitBuffer, BitBufferView, Mask, Nullability, VortexError};
use vx_tree::{ArrayRef, Layout, TypedArray, Validity};

/// The children of an array of truth values.
#[derive(Drop)]
pub struct BoolSlots {
    /// None where no row is null by the state alone, a constant false where every row is, else the
    /// array that tells.
    pub validity: Option<ArrayRef>,
}

/// What an array of truth values tells of its parts.
pub trait BoolArrayExt: TypedArray {
    /// Whether null may stand.
    fn nullability(&self) -> Nullability
        ensures { is_nullable result ≡ nullable (validity_of (Self.as_tree self.now)) };

    /// Which rows are valid, an array shared. Fails only for want of memory.
    fn validity(&self, alloc: Global) -> Result<Validity, VortexError>
        ensures { Gives result (λ v. valid_of v ≡ validity_of (Self.as_tree self.now)) };

    /// The truth values, valid or not, shared, with the bit of the first byte at which they begin.
    /// Fails only for want of memory.
    fn to_bit_buffer(&self, alloc: Global) -> Result<BitBuffer, VortexError>
        ensures bits { Gives result (λ b. b.bits ≡ bits_in (Self.as_tree self.now)) }
        ensures offset { IfOk result (λ b. b.offset ≡ first_bit (Self.as_tree self.now)) };

    /// The truth values, valid or not, to be read where they lie.
    fn bit_buffer_view(&self) -> BitBufferView<'_>
        ensures { result ≡ bits_in (Self.as_tree self.now) };

    /// The truth values as a mask where no row is null, else nothing. Fails only for want of
    /// memory.
    fn maybe_execute_mask(&self, alloc: Global) -> Result<Option<Mask>, VortexError>
        ensures { Gives result (λ o. MatchOption o
            (has_no_nulls (validity_of (Self.as_tree self.now)) (tree_len (Self.as_tree self.now)) ≡ false)
            (λ m. (m ≡ bits_in (Self.as_tree self.now))
            × (has_no_nulls (validity_of (Self.as_tree self.now)) (tree_len (Self.as_tree self.now)) ≡ true))) };

    /// The truth values as a mask. Refuses `HasNulls` where a row is null.
    fn execute_mask(&self, alloc: Global) -> Result<Mask, VortexError>
        ensures mask { IfOk result (λ m. m ≡ bits_in (Self.as_tree self.now)) }
        ensures refuses { Refuses result (null_fault (validity_of (Self.as_tree self.now)) (tree_len (Self.as_tree self.now))) };

    /// The mask that is true where the row is valid and true. Fails only for want of memory.
    fn to_mask_fill_null_false(&self, alloc: Global) -> Result<Mask, VortexError>
        ensures { Gives result (λ m. m ≡ both (bits_in (Self.as_tree self.now))
            (valid_mask (validity_of (Self.as_tree self.now)) (tree_len (Self.as_tree self.now)))) };
}

impl BoolArrayExt for BoolArray {
    fn nullability(&self) -> Nullability {
        self.parts().validity.nullability()
    }

    fn validity(&self, alloc: Global) -> Result<Validity, VortexError> {
        self.parts().validity.try_clone(alloc)
    }

    fn to_bit_buffer(&self, alloc: Global) -> Result<BitBuffer, VortexError> {
        self.parts().bits.try_clone(alloc)
    }

    fn bit_buffer_view(&self) -> BitBufferView<'_> {
        self.parts().bits.view()
    }

    fn maybe_execute_mask(&self, alloc: Global) -> Result<Option<Mask>, VortexError> {
        let parts = self.parts();
        if !are_all_valid(alloc, parts.validity, parts.bits.len())? {
            return Ok(None);
        }
        let bits = parts.bits.try_clone(alloc)?;
        Ok(Some(Mask::from_buffer(alloc, bits)?))
    }

    fn execute_mask(&self, alloc: Global) -> Result<Mask, VortexError> {
        match self.maybe_execute_mask(alloc)? {
            Some(mask) => Ok(mask),
            None => Err(VortexError::HasNulls),
        }
    }

    fn to_mask_fill_null_false(&self, alloc: Global) -> Result<Mask, VortexError> {
        let parts = self.parts();
        match valid_bits(parts.validity) {
            // Where both begin with a byte, they are joined a word at a time.
            Some(valid) if valid.offset() == 0 && parts.bits.offset() == 0 => {
                Mask::from_buffer(alloc, parts.bits.and(alloc, valid)?)
            }
            _ => {
                let valid = valid_rows(alloc, parts.validity, parts.bits.len())?;
                Mask::from_buffer_within(alloc, parts.bits, &valid)
            }
        }
    }
}

impl BoolArray {
    /// The children. Fails only for want of memory.
    pub fn slots(&self, alloc: Global) -> Result<BoolSlots, VortexError>
        ensures { Gives result (λ s. s.validity
            ≡ validity_slot (validity_of self.now) (tree_len self.now)) }
    {
        let validity = self.parts().validity.to_slot(alloc, self.len())?;
        Ok(BoolSlots { validity })
    }
}

// Whether none of the rows is null.
fn are_all_valid(alloc: Global, validity: &Validity, len: usize) -> Result<bool, VortexError>
    requires { ValidFits (valid_of validity.now) len }
    ensures { Gives result (λ b. b ≡ has_no_nulls (valid_of validity.now) len) }
{
    validity.execute_no_nulls(alloc, len)
}

// Which of the rows are valid, as bits that are lent, where an array of truth values tells it.
fn valid_bits(validity: &Validity) -> Option<&BitBuffer>
    ensures { IfSome result (λ b. (n : ℕ) → ValidFits (valid_of validity.now) n
        → b.now.bits ≡ valid_mask (valid_of validity.now) n) }
{
    let Validity::Array(array) = validity else {
        return None;
    };
    match array.layout() {
        Layout::Bool { bits, .. } => Some(bits),
        _ => None,
    }
}

// Which of the rows are valid.
fn valid_rows(alloc: Global, validity: &Validity, len: usize) -> Result<Mask, VortexError>
    requires { ValidFits (valid_of validity.now) len }
    ensures { Gives result (λ m. m ≡ valid_mask (valid_of validity.now) len) }
{
    validity.execute_mask(alloc, len)
}
