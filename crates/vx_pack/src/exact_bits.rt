// Bits with nothing beside them, as what is packed has them.

ghost use Rattle.std.specs.Prelude.{◌≡◌, IfOk};
ghost use Rattle.vx_base.specs.Refusals.{Gives};

use crate::bit_bytes::bits_bytes;
use std::alloc::Global;
use std::marker::Model;
use vx_base::{BitBuffer, BitBufferMut, ByteBuffer, VortexError};

// So many bits, which begin with a byte, in as many bytes as they need: no bit after the last one
// is set, where bits that are copied may leave some.
#[derive(Drop)]
pub(crate) struct ExactBits {
    bytes: Vec<u8>,
    len: usize,
}

impl Model for ExactBits {
    ghost use Rattle.std.specs.Prelude.{◌≡◌, ◌<◌, ◌≤◌, ◌*◌, ◌^◌, Bool, List, length};
    ghost use Rattle.vx_base.specs.Bits.{unpacked};
    ghost use Rattle.vx_pack.specs.BitBytes.{bits_bytes};

    ghost Value = { List Bool };

    ghost view = { λ b. unpacked b.bytes.items 0 b.len };

    ghost invariant = { λ b. (b.len ≤ 8 * length b.bytes.items) × (b.len < 2 ^ 64)
        × (b.bytes.items ≡ bits_bytes (unpacked b.bytes.items 0 b.len)) };
}

impl ExactBits {
    // These bits.
    pub fn of(alloc: Global, bits: BitBufferMut) -> Result<ExactBits, VortexError>
        ensures { Gives result (λ b. b ≡ bits) }
    {
        let (first, len, bytes) = bits.freeze()?.into_inner();
        let bytes = bits_bytes(alloc, bytes.as_slice(), first, len)?;
        Ok(ExactBits { bytes, len })
    }

    // The bits, to be shared.
    pub fn into_buffer(self, alloc: Global) -> Result<BitBuffer, VortexError>
        ensures bits { Gives result (λ b. b.bits ≡ self) }
        ensures offset { IfOk result (λ b. b.offset ≡ 0) }
    {
        let ExactBits { bytes, len } = self;
        BitBuffer::new_with_offset(alloc, ByteBuffer::from_vec(alloc, bytes)?, len, 0)
    }
}
