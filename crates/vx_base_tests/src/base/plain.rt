// Bits in bytes as plain code has them: read and written one by one.

ghost use Rattle.std.specs.Prelude.{◌≡◌, length, IfOk};

use std::alloc::Global;
use vx_base::{BitBuffer, ByteBuffer, VortexError};

// Bytes without a pattern.
pub(crate) fn noise(alloc: Global, count: usize) -> Result<Vec<u8>, VortexError> {
    let mut bytes = Vec::with_capacity(alloc, count)?;
    let mut state = 1u32;
    for _ in 0..count {
        state = state.wrapping_mul(1664525).wrapping_add(1013904223);
        bytes.push((state >> 24) as u8)?;
    }
    Ok(bytes)
}

// The bit at a place of the bytes, false past their end.
pub(crate) fn bit_at(bytes: &[u8], place: usize) -> bool {
    place / 8 < bytes.len() && (bytes[place / 8] >> (place % 8)) & 1 == 1
}

// Writes the bit at a place of the bytes, where they have one.
pub(crate) fn put_bit(bytes: &mut [u8], place: usize, value: bool) {
    if place / 8 >= bytes.len() {
        return;
    }
    let mask = 1u8 << (place % 8);
    if value {
        bytes[place / 8] |= mask;
    } else {
        bytes[place / 8] &= !mask;
    }
}

// Whether there are `len` booleans, from the first bit of just these bytes on.
pub(crate) fn has_bytes(bits: BitBuffer, len: usize, wanted: &[u8]) -> bool {
    let (offset, own_len, bytes) = bits.into_inner();
    offset == 0 && own_len == len && bytes.as_slice() == wanted
}

// Booleans, and the bytes in which they lie from bit `from` on.
#[derive(Drop)]
pub(crate) struct Part<'a> {
    pub(crate) bytes: &'a [u8],
    pub(crate) from: usize,
    pub(crate) bits: BitBuffer,
}

// `len` bits of these bytes, from bit `from` on.
#[tactic(auto, using(vx_base::proofs::PackedBits::length_unpacked))]
pub(crate) fn part_from<'a>(
    alloc: Global,
    bytes: &'a [u8],
    from: usize,
    len: usize,
) -> Result<Part<'a>, VortexError>
    ensures { IfOk result (λ part. length part.bits.bits ≡ len) }
{
    let all = bytes.len().saturating_mul(8);
    if all < from || all - from < len {
        return Err(VortexError::Overflow);
    }
    let copy = ByteBuffer::copy_from(alloc, bytes)?;
    let bits = BitBuffer::new_with_offset(alloc, copy, len, from)?;
    Ok(Part { bytes, from, bits })
}

// `len` bits of these bytes, up to the last but `left`.
pub(crate) fn part_to<'a>(
    alloc: Global,
    bytes: &'a [u8],
    len: usize,
    left: usize,
) -> Result<Part<'a>, VortexError>
    ensures { IfOk result (λ part. length part.bits.bits ≡ len) }
{
    let all = bytes.len().saturating_mul(8);
    if all < left || all - left < len {
        return Err(VortexError::Overflow);
    }
    part_from(alloc, bytes, all - left - len, len)
}
