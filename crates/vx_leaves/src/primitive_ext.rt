// What an array of whole numbers tells of its parts, and its numbers under another type.

ghost use Rattle.std.specs.Prelude.{◌≡◌};
ghost use Rattle.vx_base.specs.DTypes.{is_nullable};
ghost use Rattle.vx_base.specs.Integers.{byte_width};
ghost use Rattle.vx_base.specs.Refusals.{Gives};
ghost use Rattle.vx_tree.specs.Meaning.{tree_len, nullable};
ghost use Rattle.vx_tree.specs.Parts.{valid_of};
ghost use Rattle.vx_tree.specs.Slots.{validity_slot};
ghost use Rattle.vx_tree.specs.Tree.{primitive};
ghost use Rattle.vx_leaves.specs.Leaves.{type_in, bytes_in, validity_of};
ghost use Rattle.vx_leaves.specs.Narrow.{IsNarrowed};

use crate::narrow::narrowed_array;
use crate::primitive_array::{PrimitiveArray, primitive_array};
use std::alloc::Global;
use vx_base::{ByteBuffer, Nullability, PType, VortexError};
use vx_tree::{ArrayRef, TypedArray, Validity};

/// The children of an array of whole numbers.
#[derive(Drop)]
pub struct PrimitiveSlots {
    /// None where no row is null by the state alone, a constant false where every row is, else the
    /// array that tells.
    pub validity: Option<ArrayRef>,
}

/// The parts of an array of whole numbers.
#[derive(Drop)]
pub struct PrimitiveDataParts {
    /// The type of the numbers.
    pub ptype: PType,
    /// The bytes of the numbers, valid or not.
    pub buffer: ByteBuffer,
    /// Which rows are valid.
    pub validity: Validity,
}

/// What an array of whole numbers tells of its parts.
pub trait PrimitiveArrayExt: TypedArray {
    /// The type of the numbers.
    fn ptype(&self) -> PType
        ensures { result ≡ type_in (Self.as_tree self.now) };

    /// Whether null may stand.
    fn nullability(&self) -> Nullability
        ensures { is_nullable result ≡ nullable (validity_of (Self.as_tree self.now)) };

    /// The validity among the children: none where no row is null by the state alone, a constant
    /// false where every row is, else the array that tells, shared. Fails only for want of memory.
    fn validity_child(&self, alloc: Global) -> Result<Option<ArrayRef>, VortexError>
        ensures { Gives result (λ child. child
            ≡ validity_slot (validity_of (Self.as_tree self.now)) (tree_len (Self.as_tree self.now))) };

    /// Which rows are valid, an array shared. Fails only for want of memory.
    fn validity(&self, alloc: Global) -> Result<Validity, VortexError>
        ensures { Gives result (λ v. valid_of v ≡ validity_of (Self.as_tree self.now)) };

    /// The bytes of the numbers, valid or not.
    fn buffer_handle(&self) -> &ByteBuffer
        ensures { result.now ≡ bytes_in (Self.as_tree self.now) };

    /// The same bytes as numbers of another type, shared, with the same validity. Asks that the
    /// type has the same width. Fails only for want of memory.
    fn reinterpret_cast(&self, alloc: Global, ptype: PType) -> Result<PrimitiveArray, VortexError>
        requires { byte_width ptype ≡ byte_width (type_in (Self.as_tree self.now)) }
        ensures { Gives result (λ a. a ≡ primitive ptype (bytes_in (Self.as_tree self.now))
            (validity_of (Self.as_tree self.now))) };

    /// The same rows in the narrowest type that has the numbers of the valid ones: u8, u16 or u32
    /// where none is negative, else i8, i16 or i32, and the type itself where none of these has
    /// them. The validity is kept, and what stands in a null row decides nothing. Where the type
    /// stays and some row is valid, the array is shared, the numbers of null rows too. Elsewhere
    /// the numbers are written anew, 0 in a null row, and of type u8 where no row is valid. The i64
    /// rows -1, 128 are the i16 rows -1, 128. Fails only for want of memory.
    fn narrow(&self, alloc: Global) -> Result<PrimitiveArray, VortexError>
        ensures { Gives result (IsNarrowed (Self.as_tree self.now)) };
}

impl PrimitiveArrayExt for PrimitiveArray {
    fn ptype(&self) -> PType {
        self.parts().ptype
    }

    fn nullability(&self) -> Nullability {
        self.parts().validity.nullability()
    }

    fn validity_child(&self, alloc: Global) -> Result<Option<ArrayRef>, VortexError> {
        self.parts().validity.to_slot(alloc, self.len())
    }

    fn validity(&self, alloc: Global) -> Result<Validity, VortexError> {
        self.parts().validity.try_clone(alloc)
    }

    fn buffer_handle(&self) -> &ByteBuffer {
        self.parts().bytes
    }

    #[tactic(auto, using(crate::proofs::Widths::same_count))]
    fn reinterpret_cast(&self, alloc: Global, ptype: PType) -> Result<PrimitiveArray, VortexError> {
        let parts = self.parts();
        let bytes = parts.bytes.try_clone(alloc)?;
        let validity = parts.validity.try_clone(alloc)?;
        primitive_array(alloc, ptype, bytes, self.len(), validity)
    }

    fn narrow(&self, alloc: Global) -> Result<PrimitiveArray, VortexError> {
        narrowed_array(alloc, self)
    }
}

impl PrimitiveArray {
    /// The children. Fails only for want of memory.
    pub fn slots(&self, alloc: Global) -> Result<PrimitiveSlots, VortexError>
        ensures { Gives result (λ s. s.validity
            ≡ validity_slot (validity_of self.now) (tree_len self.now)) }
    {
        let validity = self.validity_child(alloc)?;
        Ok(PrimitiveSlots { validity })
    }

    /// The parts, shared. Fails only for want of memory.
    pub fn into_data_parts(self, alloc: Global) -> Result<PrimitiveDataParts, VortexError>
        ensures { Gives result (λ p. primitive p.ptype p.buffer (valid_of p.validity) ≡ self) }
    {
        let parts = self.parts();
        Ok(PrimitiveDataParts {
            ptype: parts.ptype,
            buffer: parts.bytes.try_clone(alloc)?,
            validity: parts.validity.try_clone(alloc)?,
        })
    }
}
