// A shared run of bytes.

ghost use Rattle.std.specs.Prelude.{◌≡◌, ◌≤◌, ◌<◌, ◌^◌, ◌*◌, ◌-◌, ◌↔◌, pos, [], length, map, replicate, slice_range, IsTrue, IfOk};
ghost use Rattle.vx_base.specs.Refusals.{Gives};
ghost use Rattle.vx_base.specs.Bytes.{AreBytes};
ghost use Rattle.vx_base.specs.Integers.{byte_width, numbers};

use crate::errors::VortexError;
use crate::ptypes::PType;
use bytes::Bytes;
use std::alloc::Global;
use std::marker::Model;
use std::ops::Range;

/// Bytes that are cut and shared with no copy.
#[derive(Drop)]
pub struct ByteBuffer {
    bytes: Bytes,
}

impl Model for ByteBuffer {
    ghost use Rattle.std.specs.Prelude.{ℕ, List};

    ghost Value = { List ℕ };

    ghost view = { λ b. b.bytes };
}

impl ByteBuffer {
    /// A buffer without bytes. Fails only for want of memory.
    pub fn empty(_alloc: Global) -> Result<ByteBuffer, VortexError>
        ensures { Gives result (λ b. b ≡ []) }
    {
        Ok(ByteBuffer {
            bytes: Bytes::new(),
        })
    }

    /// A buffer with a copy of these bytes. Fails only for want of memory.
    pub fn copy_from(alloc: Global, bytes: &[u8]) -> Result<ByteBuffer, VortexError>
        ensures { Gives result (λ b. b ≡ bytes.now) }
    {
        Ok(ByteBuffer {
            bytes: Bytes::copy_from_slice(alloc, bytes)?,
        })
    }

    /// A buffer of the bytes of `vec`, with no copy of them. Fails only for want of memory.
    pub fn from_vec(_alloc: Global, vec: Vec<u8>) -> Result<ByteBuffer, VortexError>
        ensures { Gives result (λ b. b ≡ vec.items) }
    {
        Ok(ByteBuffer {
            bytes: Bytes::from_vec(vec)?,
        })
    }

    /// How many bytes there are: fewer than 2^63.
    pub fn len(&self) -> usize
        ensures value { result ≡ length self.now }
        ensures bound { result < 2 ^ 63 }
    {
        self.bytes.len()
    }

    /// Whether there are no bytes.
    pub fn is_empty(&self) -> bool
        ensures { IsTrue result ↔ (self.now ≡ []) }
    {
        self.bytes.is_empty()
    }

    /// The bytes, to be read.
    pub fn as_slice(&self) -> &[u8]
        ensures value { result.now ≡ self.now }
        ensures bytes { AreBytes result.now }
    {
        let bytes = self.bytes.as_slice();
        are_bytes(bytes);
        bytes
    }

    /// The bytes of `range`, shared. Asks that the range starts at or before its end, and ends at
    /// or before the last byte. Fails only for want of memory.
    pub fn slice(&self, _alloc: Global, range: Range<usize>) -> Result<ByteBuffer, VortexError>
        requires start_le_end { range.start ≤ range.end }
        requires in_bounds { range.end ≤ length self.now }
        ensures { Gives result (λ b. b ≡ slice_range self.now range.start range.end) }
    {
        Ok(ByteBuffer {
            bytes: self.bytes.slice(range)?,
        })
    }

    /// The same bytes, shared. Fails only for want of memory.
    pub fn try_clone(&self, _alloc: Global) -> Result<ByteBuffer, VortexError>
        ensures { Gives result (λ b. b ≡ self.now) }
    {
        Ok(ByteBuffer {
            bytes: self.bytes.clone()?,
        })
    }
}

// Each item of a slice of bytes is a byte.
#[inline]
fn are_bytes(bytes: &[u8])
    ensures { AreBytes bytes.now }
{}

/// Numbers that are all 0, in memory that is cleared as it is had. Fails only for want of memory.
pub fn zero_numbers(alloc: Global, ptype: PType, len: usize) -> Result<ByteBuffer, VortexError>
    ensures zeroes { Gives result (λ b. numbers ptype b ≡ map pos (replicate len 0)) }
    ensures whole { IfOk result (λ b. length b ≡ len * byte_width ptype) }
{
    let bytes = vec![in alloc; 0u8; len.saturating_mul(ptype.byte_width())]?;
    ByteBuffer::from_vec(alloc, bytes)
}

/// The bytes of the numbers of `range`, shared: the range counts numbers, not bytes. Asks that it
/// starts at or before its end, and ends at or before the last number. Fails only for want of
/// memory.
#[tactic(auto, using(crate::proofs::NumberLists::numbers_room))]
pub fn slice_numbers(
    alloc: Global,
    bytes: &ByteBuffer,
    ptype: PType,
    range: Range<usize>,
) -> Result<ByteBuffer, VortexError>
    requires start_le_end { range.start ≤ range.end }
    requires in_bounds { range.end ≤ length (numbers ptype bytes.now) }
    ensures ok { Gives result (λ b. numbers ptype b
        ≡ slice_range (numbers ptype bytes.now) range.start range.end) }
    ensures len { IfOk result (λ b. length b ≡ (range.end - range.start) * byte_width ptype) }
{
    prove!(bytes.len() <= isize::MAX as usize);
    let width = ptype.byte_width();
    bytes.slice(alloc, range.start * width..range.end * width)
}

/// The same buffers, each shared. Fails only for want of memory.
pub fn share_buffers(alloc: Global, buffers: &[ByteBuffer]) -> Result<Vec<ByteBuffer>, VortexError>
    ensures { Gives result (λ shared. shared.items ≡ buffers.now) }
{
    let mut shared = Vec::with_capacity(alloc, buffers.len())?;
    for buffer in buffers {
        shared.push(buffer.try_clone(alloc)?)?;
    }
    Ok(shared)
}
