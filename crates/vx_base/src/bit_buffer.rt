// A shared run of booleans, packed eight to a byte.
#![tactic(auto, using(crate::proofs::PackedBits::unpacked_bits))]

ghost use Rattle.std.specs.Prelude.{ℕ, ◌&&◌, ◌≡◌, ◌≤◌, ◌<◌, ◌+◌, ◌*◌, ◌/◌, ◌^◌, ◌↔◌, [], length, take, slice_range, count_by};
ghost use Rattle.std.specs.Prelude.{IsTrue, ◌%◌, true, false, replicate, ◌-◌, ◌==◌, IfOk};
ghost use Rattle.std.specs.Int.{bit_at};
ghost use Rattle.vx_base.specs.Refusals.{Gives};
ghost use Rattle.std.specs.Bool.{beq};
ghost use Rattle.std.specs.Cmp.{bool_eq_equiv, on_equiv, partial_equiv_from_equiv};
ghost use Rattle.std.specs.Cmp.Lexicographic.{pointwise, lists_equiv};
ghost use Rattle.std.specs.Ordering.{on};
ghost use Rattle.vx_base.specs.Bits.{packed, bits_of, unpacked, bool_at, both, byte_from, Written};

use crate::bit_ands::and_bytes;
use crate::bit_buffer_mut::BitBufferMut;
use crate::bit_buffer_view::{BitBufferMeta, BitBufferView};
use crate::bit_bytes::{byte_from, fill_bits, pack, read_bit, same_whole};
use crate::bit_copies::copy_bits;
use crate::bit_words::{bits_from, clear_after, count_words};
use crate::byte_buffer::ByteBuffer;
use crate::errors::VortexError;
use std::alloc::Global;
use std::marker::Model;
use std::ops::Range;

/// Booleans, one to a bit: the first is bit `offset` of the bytes, and the least significant bit
/// of each byte comes first.
#[derive(Drop)]
pub struct BitBuffer {
    bytes: ByteBuffer,
    offset: usize,
    len: usize,
}

impl Model for BitBuffer {
    ghost use Rattle.std.specs.Prelude.{◌<◌, ◌≤◌, ◌+◌, ◌*◌, ◌^◌, length};
    ghost use Rattle.vx_base.specs.Bits.{PackedBits, packed, unpacked};

    ghost Value = { PackedBits };

    ghost view = { λ b. packed (unpacked b.bytes b.offset b.len) b.offset };

    ghost invariant = { λ b. (b.offset < 8) × (b.offset + b.len ≤ 8 * length b.bytes) × (b.offset + b.len < 2 ^ 64) };
}

impl BitBuffer {
    // The `len` bits of these bytes from bit `offset` of the first byte on.
    pub(crate) fn from_parts(bytes: ByteBuffer, offset: usize, len: usize) -> BitBuffer
        requires offset { offset < 8 }
        requires in_bounds { offset + len ≤ 8 * length bytes }
        requires fits { offset + len < 2 ^ 64 }
        ensures { result ≡ packed (unpacked bytes offset len) offset }
    {
        BitBuffer { bytes, offset, len }
    }

    /// The `len` bits of these bytes from bit `offset` on, the least significant bit of each byte
    /// first. Whole bytes before the first bit are dropped. Asks that there are `offset + len`
    /// bits, and that `offset % 8 + len` is below 2^64. Fails only for want of memory.
    pub fn new_with_offset(
        alloc: Global,
        bytes: ByteBuffer,
        len: usize,
        offset: usize,
    ) -> Result<BitBuffer, VortexError>
        requires in_bounds { offset + len ≤ 8 * length bytes }
        requires fits { offset % 8 + len < 2 ^ 64 }
        ensures bits { Gives result (λ b. b.bits ≡ unpacked bytes offset len) }
        ensures offset { IfOk result (λ b. b.offset ≡ offset % 8) }
    {
        let bytes = bytes.slice(alloc, offset / 8..bytes.len())?;
        Ok(BitBuffer::from_parts(bytes, offset % 8, len))
    }

    /// A buffer of these booleans. Fails only for want of memory.
    pub fn from_bools(alloc: Global, bools: &[bool]) -> Result<BitBuffer, VortexError>
        ensures bits { Gives result (λ b. b.bits ≡ bools.now) }
        ensures offset { IfOk result (λ b. b.offset ≡ 0) }
    {
        let mut bytes = vec![in alloc; 0u8; bools.len().div_ceil(8)]?;
        pack(bools, &mut bytes);
        Ok(BitBuffer::from_parts(ByteBuffer::from_vec(alloc, bytes)?, 0, bools.len()))
    }

    /// `len` times this boolean. Fails only for want of memory.
    pub fn full(alloc: Global, value: bool, len: usize) -> Result<BitBuffer, VortexError>
        ensures bits { Gives result (λ b. b.bits ≡ replicate len value) }
        ensures offset { IfOk result (λ b. b.offset ≡ 0) }
    {
        let mut bytes = vec![in alloc; 0u8; len.div_ceil(8)]?;
        fill_bits(&mut bytes, 0, len, value);
        Ok(BitBuffer::from_parts(ByteBuffer::from_vec(alloc, bytes)?, 0, len))
    }

    /// `len` times true. Fails only for want of memory.
    pub fn new_set(alloc: Global, len: usize) -> Result<BitBuffer, VortexError>
        ensures bits { Gives result (λ b. b.bits ≡ replicate len true) }
        ensures offset { IfOk result (λ b. b.offset ≡ 0) }
    {
        BitBuffer::full(alloc, true, len)
    }

    /// `len` times false. Fails only for want of memory.
    pub fn new_unset(alloc: Global, len: usize) -> Result<BitBuffer, VortexError>
        ensures bits { Gives result (λ b. b.bits ≡ replicate len false) }
        ensures offset { IfOk result (λ b. b.offset ≡ 0) }
    {
        BitBufferMut::new_unset(alloc, len)?.freeze()
    }

    /// How many booleans there are.
    pub fn len(&self) -> usize
        ensures { result ≡ length self.now.bits }
    {
        self.len
    }

    /// Whether there are no booleans.
    pub fn is_empty(&self) -> bool
        ensures { IsTrue result ↔ (self.now.bits ≡ []) }
    {
        self.len() == 0
    }

    /// The bit of the first byte at which the booleans begin, from 0 to 7.
    pub fn offset(&self) -> usize
        ensures value { result ≡ self.now.offset }
        ensures below { result < 8 }
    {
        self.offset
    }

    /// The boolean at place `i`, counted from 0. Asks that there is one.
    #[inline]
    pub fn value(&self, i: usize) -> bool
        requires { i < length self.now.bits }
        ensures { result ≡ bool_at self.now.bits i }
    {
        read_bit(self.bytes.as_slice(), self.offset + i)
    }

    /// The booleans of `range`, shared. Asks that the range starts at or before its end, and ends
    /// at or before the last boolean. Fails only for want of memory.
    pub fn slice(&self, alloc: Global, range: Range<usize>) -> Result<BitBuffer, VortexError>
        requires start_le_end { range.start ≤ range.end }
        requires in_bounds { range.end ≤ length self.now.bits }
        ensures bits { Gives result (λ b. b.bits ≡ slice_range self.now.bits range.start range.end) }
        ensures offset { IfOk result (λ b. b.offset ≡ (self.now.offset + range.start) % 8) }
    {
        let start = self.offset + range.start;
        let bytes = self.bytes.slice(alloc, start / 8..self.bytes.len())?;
        Ok(BitBuffer {
            bytes,
            offset: start % 8,
            len: range.end - range.start,
        })
    }

    /// The same booleans, shared. Fails only for want of memory.
    pub fn try_clone(&self, alloc: Global) -> Result<BitBuffer, VortexError>
        ensures { Gives result (λ b. b ≡ self.now) }
    {
        Ok(BitBuffer {
            bytes: self.bytes.try_clone(alloc)?,
            offset: self.offset,
            len: self.len,
        })
    }

    /// How many of the booleans are true.
    pub fn true_count(&self) -> usize
        ensures { result ≡ count_by (λ b. b) self.now.bits }
    {
        let source = self.bytes.as_slice();
        let words = if self.offset == 0 { self.len / 64 } else { 0 };
        let whole = self.len / 8;
        let mut count = count_words(source, words);
        for j in 8 * words..whole {
            count += byte_from(source, self.offset + 8 * j).count_ones() as usize;
        }
        for i in 8 * whole..self.len {
            if self.value(i) {
                count += 1;
            }
        }
        count
    }

    // The bytes of the booleans that are true in both, from the first bit on.
    fn bytes_of_both(&self, alloc: Global, other: &BitBuffer) -> Result<Vec<u8>, VortexError>
        requires { length self.now.bits ≡ length other.now.bits }
        ensures bits { Gives result (λ v. unpacked v.items 0 (length self.now.bits) ≡ both self.now.bits other.now.bits) }
        ensures enough { IfOk result (λ v. length self.now.bits ≤ 8 * length v.items) }
        ensures no_more { IfOk result (λ v. 8 * length v.items < length self.now.bits + 8) }
    {
        let mine = self.bytes.as_slice();
        let theirs = other.bytes.as_slice();
        let count = self.len.div_ceil(8);
        and_bytes(alloc, mine, self.offset, theirs, other.offset, count)
    }

    /// A buffer that is true at the places where both are. Asks that both are as long. Fails only
    /// for want of memory.
    pub fn and(&self, alloc: Global, other: &BitBuffer) -> Result<BitBuffer, VortexError>
        requires { length self.now.bits ≡ length other.now.bits }
        ensures bits { Gives result (λ b. b.bits ≡ both self.now.bits other.now.bits) }
        ensures offset { IfOk result (λ b. b.offset ≡ 0) }
    {
        let bytes = self.bytes_of_both(alloc, other)?;
        Ok(BitBuffer::from_parts(ByteBuffer::from_vec(alloc, bytes)?, 0, self.len()))
    }

    /// A buffer that is true at the places where both are, zero-padded: no bit of the last byte is
    /// set after the last boolean, where `and` may leave some. Asks that both are as long. Fails
    /// only for want of memory.
    pub fn and_zero_padded(
        &self,
        alloc: Global,
        other: &BitBuffer,
    ) -> Result<BitBuffer, VortexError>
        requires { length self.now.bits ≡ length other.now.bits }
        ensures bits { Gives result (λ b. b.bits ≡ both self.now.bits other.now.bits) }
        ensures offset { IfOk result (λ b. b.offset ≡ 0) }
    {
        let mut bytes = self.bytes_of_both(alloc, other)?;
        clear_after(&mut bytes, self.len());
        Ok(BitBuffer::from_parts(ByteBuffer::from_vec(alloc, bytes)?, 0, self.len()))
    }

    /// The booleans where they lie, to be read.
    pub fn view(&self) -> BitBufferView<'_>
        ensures { result ≡ self.now.bits }
    {
        let meta = BitBufferMeta::new(self.offset, self.len);
        BitBufferView::from_meta(self.bytes.as_slice(), meta)
    }

    /// The bit of the first byte at which the booleans begin, how many they are, and the bytes,
    /// which hold them all: what `new_with_offset` takes.
    pub fn into_inner(self) -> (usize, usize, ByteBuffer)
        ensures offset { result.0 ≡ self.offset }
        ensures below { result.0 < 8 }
        ensures len { result.1 ≡ length self.bits }
        ensures in_bounds { result.0 + result.1 ≤ 8 * length result.2 }
        ensures fits { result.0 + result.1 < 2 ^ 64 }
        ensures bits { self.bits ≡ unpacked result.2 result.0 result.1 }
    {
        let BitBuffer { bytes, offset, len } = self;
        (offset, len, bytes)
    }

    // The booleans from place `start` on as the bits of a word, which holds 57 of them or more: as
    // many as its bytes have from there on.
    #[inline]
    pub(crate) fn word_at(&self, start: usize) -> u64
        requires { start ≤ length self.now.bits }
        ensures { (i : ℕ) → i < 64 - (self.now.offset + start) % 8 → start + i < length self.now.bits
            → (bit_at result i == 1) ≡ bool_at self.now.bits (start + i) }
    {
        bits_from(self.bytes.as_slice(), self.offset + start)
    }

    // Copies the booleans from place `start` on to the bits of `out` from `at` up to, but not at,
    // `end`.
    pub(crate) fn copy_to(&self, start: usize, out: &mut [u8], at: usize, end: usize)
        requires ordered { at ≤ end }
        requires source { start + (end - at) ≤ length self.now.bits }
        requires room { end ≤ 8 * length out.old }
        ensures len { length out.new ≡ length out.old }
        ensures written { Written out.old out.new at end (λ k. bool_at self.now.bits (start + (k - at))) }
    {
        copy_bits(self.bytes.as_slice(), self.offset + start, out, at, end);
    }

    // Whether the two, which are as long, have the same booleans in their whole bytes.
    fn same_bytes(&self, other: &BitBuffer) -> bool
        requires { length self.now.bits ≡ length other.now.bits }
        ensures { IsTrue result ↔ (take (8 * (length self.now.bits / 8)) self.now.bits
            ≡ take (8 * (length self.now.bits / 8)) other.now.bits) }
    {
        let mine = self.bytes.as_slice();
        let theirs = other.bytes.as_slice();
        if self.offset == 0 && other.offset == 0 {
            return same_whole(mine, theirs, self.len / 8);
        }
        for j in 0..self.len / 8 {
            if byte_from(mine, self.offset + 8 * j) != byte_from(theirs, other.offset + 8 * j) {
                return false;
            }
        }
        true
    }

    // Whether the two have the same booleans.
    pub(crate) fn same(&self, other: &BitBuffer) -> bool
        ensures { IsTrue result ↔ (self.now.bits ≡ other.now.bits) }
    {
        if self.len() != other.len() || !self.same_bytes(other) {
            return false;
        }
        for i in 8 * (self.len() / 8)..self.len() {
            if self.value(i) != other.value(i) {
                return false;
            }
        }
        true
    }
}

impl PartialEq for BitBuffer {
    ghost eq = { on bits_of (pointwise beq) };

    ghost laws = { partial_equiv_from_equiv (on_equiv bits_of (lists_equiv bool_eq_equiv)) };

    fn eq(&self, other: &BitBuffer) -> bool {
        self.same(other)
    }
}

impl Eq for BitBuffer {
    ghost laws = { on_equiv bits_of (lists_equiv bool_eq_equiv) };
}
