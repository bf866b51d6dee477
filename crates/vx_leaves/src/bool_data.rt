// The truth values of an array apart from its validity, in bytes.

ghost use Rattle.std.specs.Prelude.{◌≡◌, ◌≤◌, ◌+◌, ◌*◌, length, Some, IfOk};
ghost use Rattle.vx_base.specs.Refusals.{Gives};
ghost use Rattle.vx_leaves.specs.Data.{HoldsBits, bit_data_text};
ghost use Rattle.vx_leaves.specs.Leaves.{bits_in, first_bit};

use crate::bool_array::BoolArray;
use std::alloc::Global;
use std::fmt;
use std::marker::Model;
use vx_base::{BitBufferMeta, ByteBuffer, VortexError};

/// The bytes of an array of truth values, and the bit at which these begin.
#[derive(Drop)]
pub struct BoolData {
    bits: ByteBuffer,
    offset: usize,
}

impl Model for BoolData {
    ghost use Rattle.vx_leaves.specs.Data.{BitData, bit_data};

    ghost Value = { BitData };

    ghost view = { λ d. bit_data d.bits d.offset };
}

/// The bytes of truth values, and where in them these stand.
#[derive(Drop)]
pub struct BoolDataParts {
    /// The bytes, the least significant bit of each first.
    pub bits: ByteBuffer,
    /// The bit at which the truth values begin, and how many they are.
    pub meta: BitBufferMeta,
}

impl BoolData {
    /// The bytes, and where in them `len` truth values stand. Asks that they hold so many.
    pub fn into_parts(self, len: usize) -> BoolDataParts
        requires enough { self.offset + len ≤ 8 * length self.bytes }
        ensures bits { result.bits ≡ self.bytes }
        ensures offset { result.meta.offset ≡ self.offset }
        ensures len { result.meta.len ≡ len }
    {
        let BoolData { bits, offset } = self;
        BoolDataParts {
            bits,
            meta: BitBufferMeta::new(offset, len),
        }
    }

    /// The same data, the bytes shared. Fails only for want of memory.
    pub fn try_clone(&self, alloc: Global) -> Result<BoolData, VortexError>
        ensures { Gives result (λ d. d ≡ self.now) }
    {
        Ok(BoolData {
            bits: self.bits.try_clone(alloc)?,
            offset: self.offset,
        })
    }
}

impl fmt::Display for BoolData {
    ghost output = { λ d. Some (bit_data_text d) };

    fn fmt<W: fmt::Write>(&self, f: &mut fmt::Formatter<W>) -> fmt::Result {
        let offset = self.offset;
        write!(f, "offset: {offset}")
    }
}

impl fmt::Debug for BoolData {
    fn fmt<W: fmt::Write>(&self, f: &mut fmt::Formatter<W>) -> fmt::Result {
        let bits = self.bits.as_slice();
        let offset = self.offset;
        write!(f, "BoolData {{ bits: {bits:?}, offset: {offset} }}")
    }
}

impl BoolArray {
    /// The truth values, valid or not, in their bytes, shared, with the bit of the first byte at
    /// which they begin. Fails only for want of memory.
    pub fn to_data(&self, alloc: Global) -> Result<BoolData, VortexError>
        ensures bits { Gives result (λ d. HoldsBits d (bits_in self.now)) }
        ensures offset { IfOk result (λ d. d.offset ≡ first_bit self.now) }
    {
        let bits = self.parts().bits.try_clone(alloc)?;
        let (offset, _, bits) = bits.into_inner();
        Ok(BoolData { bits, offset })
    }
}
