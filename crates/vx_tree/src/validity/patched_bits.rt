// Booleans that are overwritten one by one, in any order.
#![tactic(auto, using(vx_base::proofs::PackedBits::unpacked_bits))]

ghost use Rattle.std.specs.Prelude.{◌≡◌, ◌≢◌, ◌<◌, ◌/◌, ℕ, length, slice_set};
ghost use Rattle.vx_base.specs.Refusals.{Gives};
ghost use Rattle.vx_base.specs.Bits.{bit_of};

use std::alloc::Global;
use std::marker::Model;
use vx_base::{BitBuffer, ByteBuffer, VortexError};

// Booleans in bytes of their own, one to a bit, from bit `start` of the bytes on.
#[derive(Drop)]
pub(crate) struct PatchedBits {
    bytes: Vec<u8>,
    start: usize,
    len: usize,
}

impl Model for PatchedBits {
    ghost use Rattle.std.specs.Prelude.{Bool, List, ◌≤◌, ◌<◌, ◌+◌, ◌*◌, ◌^◌, length};
    ghost use Rattle.vx_base.specs.Bits.{unpacked};

    ghost Value = { List Bool };

    ghost view = { λ b. unpacked b.bytes.items b.start b.len };

    ghost invariant = { λ b. (b.start + b.len ≤ 8 * length b.bytes.items) × (b.start + b.len < 2 ^ 64) };
}

impl PatchedBits {
    // A copy of these: of the bytes that hold them, and of no others.
    pub(crate) fn copy_of(alloc: Global, bits: BitBuffer) -> Result<PatchedBits, VortexError>
        ensures { Gives result (λ b. b ≡ bits.bits) }
    {
        let (start, len, bytes) = bits.into_inner();
        let end = (start + len).div_ceil(8);
        let bytes = Vec::from_slice(alloc, &bytes.as_slice()[..end])?;
        Ok(PatchedBits { bytes, start, len })
    }

    // Replaces the boolean at place `i`.
    #[inline]
    pub(crate) fn put(&mut self, i: usize, value: bool)
        requires { i < length self.old }
        ensures { self.new ≡ slice_set self.old i value }
    {
        put_bit(&mut self.bytes, self.start + i, value);
    }

    // The booleans, to be shared, with no copy of them.
    pub(crate) fn freeze(self, alloc: Global) -> Result<BitBuffer, VortexError>
        ensures { Gives result (λ b. b.bits ≡ self) }
    {
        let PatchedBits { bytes, start, len } = self;
        let bytes = ByteBuffer::from_vec(alloc, bytes)?;
        BitBuffer::new_with_offset(alloc, bytes, len, start)
    }
}

// Writes bit `k` of the bytes. The byte is chosen by the value and then written once, which lets a
// compiler do without a branch.
#[inline]
fn put_bit(bytes: &mut [u8], k: usize, value: bool)
    requires { k / 8 < length bytes.old }
    ensures written { bit_of bytes.new k ≡ value }
    ensures others { (j : ℕ) → j ≢ k → bit_of bytes.new j ≡ bit_of bytes.old j }
{
    let mask = 1u8 << (k % 8);
    let cleared = bytes[k / 8] & !mask;
    bytes[k / 8] = if value { cleared | mask } else { cleared };
}
