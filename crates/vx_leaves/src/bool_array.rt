// Arrays of truth values.

ghost use Rattle.std.specs.Prelude.{◌≡◌, true, length, IfOk, OnOk};
ghost use Rattle.vx_base.specs.Refusals.{Gives, Refuses, Tests};
ghost use Rattle.vx_tree.specs.Formed.{ValidFits};
ghost use Rattle.vx_tree.specs.Meaning.{tree_len};
ghost use Rattle.vx_tree.specs.Tree.{bools, non_nullable};
ghost use Rattle.vx_tree.specs.Parts.{valid_of};
ghost use Rattle.vx_leaves.specs.Leaves.{is_bools, bits_in, first_bit, validity_of, validity_fault};

use std::alloc::Global;
use std::marker::Model;
use vx_base::{BitBuffer, VortexError};
use vx_tree::{ArrayRef, Layout, TypedArray, Validity};

/// An array of truth values, one to a bit.
#[derive(Drop)]
pub struct BoolArray {
    array: ArrayRef,
}

impl Model for BoolArray {
    ghost use Rattle.std.specs.Prelude.{◌≡◌, true};
    ghost use Rattle.vx_tree.specs.Tree.{Tree, tree_code};
    ghost use Rattle.vx_leaves.specs.Leaves.{is_bools};

    ghost Value = { Tree };

    ghost coded = { tree_code };

    ghost view = { λ a. a.array };

    ghost invariant = { λ a. is_bools a.array ≡ true };
}

// The parts of an array of truth values, lent.
#[derive(Drop)]
pub(crate) struct BoolParts<'a> {
    pub bits: &'a BitBuffer,
    pub validity: &'a Validity,
}

impl BoolArray {
    /// The array of these bits, null where the validity is false. Asks that a validity array is one
    /// of plain booleans and has one row a bit. Fails only for want of memory.
    pub fn new(alloc: Global, bits: BitBuffer, validity: Validity) -> Result<BoolArray, VortexError>
        requires { ValidFits (valid_of validity) (length bits.bits) }
        ensures { Gives result (λ a. a ≡ bools bits.offset bits.bits (valid_of validity)) }
    {
        let array = ArrayRef::bools(alloc, bits, validity)?;
        Ok(BoolArray { array })
    }

    /// The array of these bits, null where the validity is false. Refuses `MismatchedTypes` where
    /// the validity has an array that is not one of plain booleans, then `LengthMismatch` where it
    /// has not one row a bit.
    pub fn try_new(
        alloc: Global,
        bits: BitBuffer,
        validity: Validity,
    ) -> Result<BoolArray, VortexError>
        ensures parts { IfOk result (λ a. a ≡ bools bits.offset bits.bits (valid_of validity)) }
        ensures refuses { Refuses result (validity_fault (valid_of validity) (length bits.bits)) }
    {
        BoolArray::validate(&bits, &validity)?;
        BoolArray::new(alloc, bits, validity)
    }

    /// Whether `try_new` takes these parts, and so `new`: it refuses as `try_new` does.
    pub fn validate(bits: &BitBuffer, validity: &Validity) -> Result<(), VortexError>
        ensures fits { OnOk result (ValidFits (valid_of validity.now) (length bits.now.bits)) }
        ensures tests { Tests result (validity_fault (valid_of validity.now) (length bits.now.bits)) }
    {
        validity.check(bits.len())
    }

    /// The array of these bits, none of them null. Fails only for want of memory.
    pub fn from_bit_buffer(alloc: Global, bits: BitBuffer) -> Result<BoolArray, VortexError>
        ensures { Gives result (λ a. a ≡ bools bits.offset bits.bits non_nullable) }
    {
        BoolArray::new(alloc, bits, Validity::NonNullable)
    }

    /// The bits, valid or not, shared, with the bit of the first byte at which they begin. Fails
    /// only for want of memory.
    pub fn into_bit_buffer(self, alloc: Global) -> Result<BitBuffer, VortexError>
        ensures bits { Gives result (λ b. b.bits ≡ bits_in self) }
        ensures offset { IfOk result (λ b. b.offset ≡ first_bit self) }
    {
        self.parts().bits.try_clone(alloc)
    }

    // The parts, which are well formed.
    pub(crate) fn parts(&self) -> BoolParts<'_>
        ensures same { self.now ≡ bools result.bits.now.offset result.bits.now.bits (valid_of result.validity.now) }
        ensures bits { result.bits.now.bits ≡ bits_in self.now }
        ensures offset { result.bits.now.offset ≡ first_bit self.now }
        ensures validity { valid_of result.validity.now ≡ validity_of self.now }
        ensures len { length result.bits.now.bits ≡ tree_len self.now }
        ensures formed { ValidFits (valid_of result.validity.now) (length result.bits.now.bits) }
    {
        match self.array.layout() {
            Layout::Bool { bits, validity } => BoolParts { bits, validity },
            _ => unreachable!(),
        }
    }
}

impl TypedArray for BoolArray {
    ghost as_tree = { λ a. a };

    ghost has_layout = { is_bools };

    fn is_layout(layout: &Layout) -> bool {
        matches!(layout, Layout::Bool { .. })
    }

    fn from_array(array: ArrayRef) -> Self {
        BoolArray { array }
    }

    fn as_array(&self) -> &ArrayRef {
        &self.array
    }

    fn into_array(self) -> ArrayRef {
        let BoolArray { array } = self;
        array
    }
}
