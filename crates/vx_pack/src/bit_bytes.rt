// Bits in bytes of their own, in which no other bit is set.

ghost use Rattle.std.specs.Prelude.{ℕ, ◌≡◌, ◌≤◌, ◌<◌, ◌+◌, ◌*◌, ◌^◌, ◌++◌, false, length, replicate};
ghost use Rattle.vx_base.specs.Bits.{bit_of, unpacked};
ghost use Rattle.vx_base.specs.Bytes.{AreBytes};
ghost use Rattle.vx_base.specs.Refusals.{Gives};
ghost use Rattle.vx_pack.specs.BitBytes.{bits_bytes};

use std::alloc::Global;
use vx_base::VortexError;

/// The bytes of `count` bits of these, from bit `first` of the first byte on: as many as they need,
/// and no bit is set before them or after them. Asks that `first` is below 8, and that there are
/// so many bits. Fails only for want of memory. For the crates above.
pub fn bits_bytes(
    alloc: Global,
    bytes: &[u8],
    first: usize,
    count: usize,
) -> Result<Vec<u8>, VortexError>
    requires one_byte { first < 8 }
    requires in_bounds { first + count ≤ 8 * length bytes.now }
    requires fits { first + count < 2 ^ 64 }
    ensures { Gives result (λ made. made.items ≡ bits_bytes (replicate first false ++ unpacked bytes.now first count)) }
{
    let end = first + count;
    let mut made = Vec::from_slice(alloc, &bytes[..end.div_ceil(8)])?;
    clear_before(&mut made, first);
    clear_after(&mut made, end);
    Ok(made)
}

// Clears the bits before bit `first`, all of which are in the first byte.
#[tactic(auto, using(crate::proofs::MaskedBits::masked))]
fn clear_before(bytes: &mut [u8], first: usize)
    requires one_byte { first < 8 }
    requires enough { first ≤ 8 * length bytes.old }
    ensures len { length bytes.new ≡ length bytes.old }
    ensures kept { (k : ℕ) → first ≤ k → bit_of bytes.new k ≡ bit_of bytes.old k }
    ensures cleared { (k : ℕ) → k < first → bit_of bytes.new k ≡ false }
{
    if first != 0 {
        bytes[0] &= u8::MAX << first;
    }
}

// Clears the bits from bit `end` on, all of which are in the last byte.
#[tactic(auto, using(crate::proofs::MaskedBits::masked))]
fn clear_after(bytes: &mut [u8], end: usize)
    requires enough { end ≤ 8 * length bytes.old }
    requires no_more { 8 * length bytes.old < end + 8 }
    ensures len { length bytes.new ≡ length bytes.old }
    ensures kept { (k : ℕ) → k < end → bit_of bytes.new k ≡ bit_of bytes.old k }
    ensures cleared { (k : ℕ) → end ≤ k → bit_of bytes.new k ≡ false }
    ensures bytes { AreBytes bytes.new }
{
    if end % 8 != 0 {
        bytes[end / 8] &= (1 << (end % 8)) - 1;
    }
}
