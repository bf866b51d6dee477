// The numbers of an array apart from its validity, in bytes.

ghost use Rattle.std.specs.Prelude.{◌≡◌, ◌*◌, ◌==◌, [], length, map, Some, IfOk, OnOk, MatchResult};
ghost use Rattle.vx_base.specs.Integers.{numbers, byte_width};
ghost use Rattle.vx_base.specs.Refusals.{Gives, Refuses, Tests, or_else};
ghost use Rattle.vx_tree.specs.Formed.{ValidFits};
ghost use Rattle.vx_tree.specs.Meaning.{valid_mask};
ghost use Rattle.vx_tree.specs.Parts.{valid_of};
ghost use Rattle.vx_leaves.specs.Data.{number_data, number_data_text, HoldsNumbers};
ghost use Rattle.vx_leaves.specs.Leaves.{type_in, bytes_in, numbers_in, validity_fault};
ghost use Rattle.vx_leaves.specs.Spread.{spread, whole_fault, values_fault};

use crate::primitive_array::PrimitiveArray;
use std::alloc::Global;
use std::fmt;
use std::marker::Model;
use vx_base::{
    Buffer, BufferMut, ByteBuffer, NativePType, Nullability, PType, VortexError, number_count,
};
use vx_tree::Validity;

/// The bytes of an array of whole numbers, and the type of the numbers.
#[derive(Drop)]
pub struct PrimitiveData {
    ptype: PType,
    bytes: ByteBuffer,
}

impl Model for PrimitiveData {
    ghost use Rattle.vx_leaves.specs.Data.{NumberData, number_data};

    ghost Value = { NumberData };

    ghost view = { λ d. number_data d.ptype d.bytes };
}

impl PrimitiveData {
    /// The data of the array of no numbers, of a nullable data type or not. Fails only for want of
    /// memory.
    pub fn empty<T: NativePType + Drop>(
        alloc: Global,
        _nullability: Nullability,
    ) -> Result<PrimitiveData, VortexError>
        ensures { Gives result (λ d. d ≡ number_data T.PTYPE []) }
    {
        Ok(PrimitiveData {
            ptype: T::PTYPE,
            bytes: ByteBuffer::empty(alloc)?,
        })
    }

    /// The data of the array of these numbers. Asks of the validity what the array does. Fails only
    /// for want of memory.
    pub fn new<T: NativePType + Drop>(
        alloc: Global,
        buffer: Buffer<T>,
        _validity: Validity,
    ) -> Result<PrimitiveData, VortexError>
        requires { ValidFits (valid_of _validity) (length buffer) }
        ensures { Gives result (HoldsNumbers T.PTYPE (map T.value buffer)) }
    {
        Ok(PrimitiveData {
            ptype: T::PTYPE,
            bytes: buffer.into_byte_buffer(alloc)?,
        })
    }

    /// The data of the array of these numbers. Refuses as the array does: `MismatchedTypes` where
    /// the validity has an array that is not one of plain booleans, then `LengthMismatch` where it
    /// has not one row a number.
    pub fn try_new<T: NativePType + Drop>(
        alloc: Global,
        buffer: Buffer<T>,
        validity: Validity,
    ) -> Result<PrimitiveData, VortexError>
        ensures parts { IfOk result (HoldsNumbers T.PTYPE (map T.value buffer)) }
        ensures refuses { Refuses result (validity_fault (valid_of validity) (length buffer)) }
    {
        PrimitiveData::validate(&buffer, &validity)?;
        PrimitiveData::new(alloc, buffer, validity)
    }

    /// Whether `try_new` takes these parts, and so `new`: it refuses as `try_new` does.
    pub fn validate<T: NativePType + Drop>(
        buffer: &Buffer<T>,
        validity: &Validity,
    ) -> Result<(), VortexError>
        ensures fits { OnOk result (ValidFits (valid_of validity.now) (length buffer.now)) }
        ensures tests { Tests result (validity_fault (valid_of validity.now) (length buffer.now)) }
    {
        PrimitiveArray::validate(buffer, validity)
    }

    /// The data of the array of the numbers that these bytes hold, which are shared. Refuses as the
    /// array does: `LengthMismatch` where the bytes are not those of whole numbers, then
    /// `MismatchedTypes` where the validity has an array that is not one of plain booleans, then
    /// `LengthMismatch` where it has not one row a number.
    pub fn from_byte_buffer(
        alloc: Global,
        bytes: ByteBuffer,
        ptype: PType,
        validity: Validity,
    ) -> Result<PrimitiveData, VortexError>
        ensures parts { IfOk result (λ d. d ≡ number_data ptype bytes) }
        ensures refuses { Refuses result (or_else (whole_fault ptype bytes)
            (validity_fault (valid_of validity) (length (numbers ptype bytes)))) }
    {
        let array = PrimitiveArray::from_byte_buffer(alloc, bytes, ptype, validity)?;
        array.to_data(alloc)
    }

    /// The data of the array of `n_rows` rows whose values stand in these bytes, those of the valid
    /// rows alone. Refuses as the array does: `MismatchedTypes` and `LengthMismatch` of the
    /// validity, `Overflow` where so many numbers need more bytes than can be counted, then
    /// `LengthMismatch` of the bytes.
    pub fn from_values_byte_buffer(
        alloc: Global,
        bytes: ByteBuffer,
        ptype: PType,
        validity: Validity,
        n_rows: usize,
    ) -> Result<PrimitiveData, VortexError>
        ensures parts { IfOk result (HoldsNumbers ptype
            (spread (valid_mask (valid_of validity) n_rows) (numbers ptype bytes))) }
        ensures refuses { Refuses result (values_fault ptype bytes (valid_of validity) n_rows) }
    {
        let array = PrimitiveArray::from_values_byte_buffer(alloc, bytes, ptype, validity, n_rows)?;
        array.to_data(alloc)
    }

    /// How many numbers there are.
    pub fn len(&self) -> usize
        ensures { result ≡ length (numbers self.now.ptype self.now.bytes) }
    {
        number_count(self.bytes.as_slice(), self.ptype)
    }

    /// Whether there is no number.
    pub fn is_empty(&self) -> bool
        ensures { result ≡ (length (numbers self.now.ptype self.now.bytes) == 0) }
    {
        self.len() == 0
    }

    /// The type of the numbers.
    pub fn ptype(&self) -> PType
        ensures { result ≡ self.now.ptype }
    {
        self.ptype
    }

    /// The bytes of the numbers.
    pub fn buffer_handle(&self) -> &ByteBuffer
        ensures { result.now ≡ self.now.bytes }
    {
        &self.bytes
    }

    /// The numbers. Asks that they are of this type. Fails only for want of memory.
    pub fn to_buffer<T: NativePType + Drop>(&self, alloc: Global) -> Result<Buffer<T>, VortexError>
        requires { self.now.ptype ≡ T.PTYPE }
        ensures { Gives result (λ b. map T.value b ≡ numbers T.PTYPE self.now.bytes) }
    {
        Buffer::from_byte_buffer(alloc, &self.bytes)
    }

    /// The numbers. Asks that they are of this type. Fails only for want of memory.
    pub fn into_buffer<T: NativePType + Drop>(self, alloc: Global) -> Result<Buffer<T>, VortexError>
        requires { self.ptype ≡ T.PTYPE }
        ensures { Gives result (λ b. map T.value b ≡ numbers T.PTYPE self.bytes) }
    {
        self.to_buffer(alloc)
    }

    /// The numbers, to be written. Asks that they are of this type. Fails only for want of memory.
    pub fn into_buffer_mut<T: NativePType + Drop>(
        self,
        alloc: Global,
    ) -> Result<BufferMut<T>, VortexError>
        requires { self.ptype ≡ T.PTYPE }
        ensures { Gives result (λ b. map T.value b ≡ numbers T.PTYPE self.bytes) }
    {
        BufferMut::from_byte_buffer(alloc, &self.bytes)
    }

    /// The numbers, in a buffer to be written or in one to be read: either may come. Asks that they
    /// are of this type. Fails only for want of memory.
    pub fn try_into_buffer_mut<T: NativePType + Drop>(
        self,
        alloc: Global,
    ) -> Result<Result<BufferMut<T>, Buffer<T>>, VortexError>
        requires { self.ptype ≡ T.PTYPE }
        ensures { Gives result (λ held. MatchResult held
            (λ b. map T.value b ≡ numbers T.PTYPE self.bytes)
            (λ b. map T.value b ≡ numbers T.PTYPE self.bytes)) }
    {
        Ok(Ok(self.into_buffer_mut(alloc)?))
    }

    /// The same data, the bytes shared. Fails only for want of memory.
    pub fn try_clone(&self, alloc: Global) -> Result<PrimitiveData, VortexError>
        ensures { Gives result (λ d. d ≡ self.now) }
    {
        Ok(PrimitiveData {
            ptype: self.ptype,
            bytes: self.bytes.try_clone(alloc)?,
        })
    }
}

impl fmt::Display for PrimitiveData {
    ghost output = { λ d. Some (number_data_text d) };

    fn fmt<W: fmt::Write>(&self, f: &mut fmt::Formatter<W>) -> fmt::Result {
        let ptype = self.ptype;
        write!(f, "ptype: {ptype}")
    }
}

impl fmt::Debug for PrimitiveData {
    fn fmt<W: fmt::Write>(&self, f: &mut fmt::Formatter<W>) -> fmt::Result {
        let ptype = self.ptype;
        let bytes = self.bytes.as_slice();
        write!(f, "PrimitiveData {{ ptype: {ptype:?}, bytes: {bytes:?} }}")
    }
}

impl PrimitiveArray {
    /// The numbers, valid or not, in their bytes, shared. Fails only for want of memory.
    pub fn to_data(&self, alloc: Global) -> Result<PrimitiveData, VortexError>
        ensures data { Gives result (λ d. d ≡ number_data (type_in self.now) (bytes_in self.now)) }
        ensures whole { length (bytes_in self.now)
            ≡ length (numbers_in self.now) * byte_width (type_in self.now) }
    {
        let parts = self.parts();
        Ok(PrimitiveData {
            ptype: parts.ptype,
            bytes: parts.bytes.try_clone(alloc)?,
        })
    }
}
