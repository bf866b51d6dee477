// A run of booleans that grows.
#![tactic(auto, using(crate::proofs::PackedBits::unpacked_bits))]

ghost use Rattle.std.specs.Prelude.{◌≡◌, ◌≤◌, ◌<◌, ◌+◌, ◌-◌, ◌/◌, ◌*◌, ◌^◌, ℕ, Bool, true, false, [], ◌∷◌, ◌++◌, length, take, drop};
ghost use Rattle.std.specs.Prelude.{replicate, slice_set, slice_range, OnOk, OnErr, IfOk, IsOkUnless};
ghost use Rattle.vx_base.specs.Refusals.{Gives, Refuses};
ghost use Rattle.vx_base.specs.Bits.{bit_of, bool_at};
ghost use Rattle.vx_base.specs.Booleans.{count_fault};
ghost use Rattle.vx_base.specs.declared.errors.VortexError.TheVariants.{Memory};

use crate::bit_buffer::BitBuffer;
use crate::bit_bytes::{fill_bits, put_bit};
use crate::bit_words::put_word;
use crate::byte_buffer::ByteBuffer;
use crate::errors::VortexError;
use std::alloc::Global;
use std::marker::Model;

/// Booleans that are appended one by one.
#[derive(Drop)]
pub struct BitBufferMut {
    bytes: Vec<u8>,
    len: usize,
}

impl Model for BitBufferMut {
    ghost use Rattle.std.specs.Prelude.{Bool, List, ◌<◌, ◌≤◌, ◌+◌, ◌*◌, ◌^◌, length};
    ghost use Rattle.vx_base.specs.Bits.{unpacked};

    ghost Value = { List Bool };

    ghost view = { λ b. unpacked b.bytes.items 0 b.len };

    ghost invariant = { λ b. (b.len ≤ 8 * length b.bytes.items) × (b.len < 2 ^ 64) };
}

// Adds a byte if bit `len` has none.
fn make_room(bytes: &mut Vec<u8>, len: usize) -> Result<(), VortexError>
    requires { len ≤ 8 * length bytes.old.items }
    ensures room { OnOk result (len / 8 < length bytes.new.items) }
    ensures longer { length bytes.old.items ≤ length bytes.new.items }
    ensures same { (j : ℕ) → j < len → bit_of bytes.new.items j ≡ bit_of bytes.old.items j }
    ensures memory { IsOkUnless result Memory }
{
    if len / 8 == bytes.len() {
        bytes.push(0)?;
    }
    Ok(())
}

// Adds bytes until there are `total` bits, where there are fewer.
#[inline]
fn grow(bytes: &mut Vec<u8>, len: usize, total: usize) -> Result<(), VortexError>
    requires { len ≤ 8 * length bytes.old.items }
    ensures room { OnOk result (total ≤ 8 * length bytes.new.items) }
    ensures longer { length bytes.old.items ≤ length bytes.new.items }
    ensures same { (j : ℕ) → j < len → bit_of bytes.new.items j ≡ bit_of bytes.old.items j }
    ensures memory { IsOkUnless result Memory }
{
    let room = total.div_ceil(8);
    if bytes.len() < room {
        bytes.resize(room, 0)?;
    }
    Ok(())
}

// Writes the booleans of a buffer from place `start` on to the last bits: those from `at` up to,
// but not at, `end`. What there is after them may change. Always inlined: where many runs are short,
// a call for each took a third of the time.
#[inline(always)]
pub(crate) fn put_last(bytes: &mut [u8], at: usize, end: usize, bits: &BitBuffer, start: usize)
    requires ordered { at ≤ end }
    requires source { start + (end - at) ≤ length bits.now.bits }
    requires room { end ≤ 8 * length bytes.old }
    ensures len { length bytes.new ≡ length bytes.old }
    ensures before { (k : ℕ) → k < at → bit_of bytes.new k ≡ bit_of bytes.old k }
    ensures written { (k : ℕ) → at ≤ k → k < end → bit_of bytes.new k ≡ bool_at bits.now.bits (start + (k - at)) }
{
    if at < end && end - at <= 56 {
        put_word(bytes, at, end, bits.word_at(start));
    } else {
        bits.copy_to(start, bytes, at, end);
    }
}

impl BitBufferMut {
    /// No booleans, with room for `capacity` of them. Fails only for want of memory.
    pub fn with_capacity(alloc: Global, capacity: usize) -> Result<BitBufferMut, VortexError>
        ensures { Gives result (λ b. b ≡ []) }
    {
        Ok(BitBufferMut {
            bytes: Vec::with_capacity(alloc, capacity.div_ceil(8))?,
            len: 0,
        })
    }

    /// `len` times false. Fails only for want of memory.
    pub fn new_unset(alloc: Global, len: usize) -> Result<BitBufferMut, VortexError>
        ensures { Gives result (λ b. b ≡ replicate len false) }
    {
        let bytes = vec![in alloc; 0u8; len.div_ceil(8)]?;
        Ok(BitBufferMut { bytes, len })
    }

    /// How many booleans there are.
    pub fn len(&self) -> usize
        ensures { result ≡ length self.now }
    {
        self.len
    }

    /// Adds a boolean at the end. Refuses `Overflow` where there would be 2^64, more than a `usize`
    /// counts. Where it is refused, the booleans are what they were.
    #[tactic(auto, using(crate::proofs::PackedBits::unpacked_push, crate::proofs::PackedBits::length_unpacked))]
    #[inline]
    pub fn append(&mut self, value: bool) -> Result<(), VortexError>
        ensures ok { IfOk result (λ _. self.new ≡ self.old ++ value ∷ []) }
        ensures refuses { Refuses result (count_fault (length self.old + 1)) }
        ensures err { OnErr result (self.new ≡ self.old) }
    {
        if self.len == usize::MAX {
            return Err(VortexError::Overflow);
        }
        make_room(&mut self.bytes, self.len)?;
        put_bit(&mut self.bytes, self.len, value);
        self.len += 1;
        Ok(())
    }

    /// Adds a boolean `count` times at the end. Refuses `Overflow` where there would be 2^64 or
    /// more. Where it is refused, the booleans are what they were.
    pub fn append_n(&mut self, value: bool, count: usize) -> Result<(), VortexError>
        ensures ok { IfOk result (λ _. self.new ≡ self.old ++ replicate count value) }
        ensures refuses { Refuses result (count_fault (length self.old + count)) }
        ensures err { OnErr result (self.new ≡ self.old) }
    {
        if count > usize::MAX - self.len {
            return Err(VortexError::Overflow);
        }
        let end = self.len + count;
        let room = end.div_ceil(8).max(self.bytes.len());
        self.bytes.resize(room, 0)?;
        fill_bits(&mut self.bytes, self.len, end, value);
        self.len = end;
        Ok(())
    }

    /// Adds booleans of a buffer at the end: those from place `start` up to, but not at, place
    /// `end`. Asks that `start` is at most `end`, and `end` at most the buffer's length. Refuses
    /// `Overflow` where there would be 2^64 or more. Where it is refused, the booleans are what they
    /// were.
    pub fn append_slice(
        &mut self,
        bits: &BitBuffer,
        start: usize,
        end: usize,
    ) -> Result<(), VortexError>
        requires start_le_end { start ≤ end }
        requires in_bounds { end ≤ length bits.now.bits }
        ensures ok { IfOk result (λ _. self.new ≡ self.old ++ slice_range bits.now.bits start end) }
        ensures refuses { Refuses result (count_fault (length self.old + (end - start))) }
        ensures err { OnErr result (self.new ≡ self.old) }
    {
        let count = end - start;
        if count > usize::MAX - self.len {
            return Err(VortexError::Overflow);
        }
        let total = self.len + count;
        grow(&mut self.bytes, self.len, total)?;
        put_last(&mut self.bytes, self.len, total, bits, start);
        self.len = total;
        Ok(())
    }

    // Replaces the boolean at place `i`.
    #[tactic(auto, using(crate::proofs::PackedBits::unpacked_set, crate::proofs::PackedBits::length_unpacked))]
    fn replace(&mut self, i: usize, value: bool)
        requires { i < length self.old }
        ensures { self.new ≡ slice_set self.old i value }
    {
        put_bit(&mut self.bytes, i, value);
    }

    /// Makes the boolean at place `i` true. Asks that there is one.
    pub fn set(&mut self, i: usize)
        requires { i < length self.old }
        ensures { self.new ≡ slice_set self.old i true }
    {
        self.replace(i, true);
    }

    /// Makes each boolean from place `start` up to, but not at, place `end` the given one. Asks
    /// that `start` is at most `end`, and `end` at most the length.
    pub fn fill_range(&mut self, start: usize, end: usize, value: bool)
        requires start_le_end { start ≤ end }
        requires in_bounds { end ≤ length self.old }
        ensures { self.new ≡ take start self.old ++ replicate (end - start) value ++ drop end self.old }
    {
        fill_bits(&mut self.bytes, start, end, value);
    }

    /// The booleans, to be shared, with no copy of them. Fails only for want of memory.
    pub fn freeze(self) -> Result<BitBuffer, VortexError>
        ensures bits { Gives result (λ b. b.bits ≡ self) }
        ensures offset { IfOk result (λ b. b.offset ≡ 0) }
    {
        let BitBufferMut { bytes, len } = self;
        let alloc = *bytes.allocator();
        Ok(BitBuffer::from_parts(ByteBuffer::from_vec(alloc, bytes)?, 0, len))
    }
}
