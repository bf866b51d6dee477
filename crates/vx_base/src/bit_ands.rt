// Bits that are set in both of two runs of bits.

ghost use Rattle.std.specs.Prelude.{ℕ, ◌&&◌, ◌≡◌, ◌≤◌, ◌<◌, ◌+◌, ◌*◌, ◌^◌, ◌++◌, IfOk, length, map, bit_and};
ghost use Rattle.std.specs.List.{zip};
ghost use Rattle.vx_base.specs.Refusals.{Gives};
ghost use Rattle.vx_base.specs.Bits.{bit_of};

use crate::bit_bytes::byte_from;
use crate::bit_words::{bits_from, put_bytes};
use crate::errors::VortexError;
use std::alloc::Global;

// The bits that are set in both, of the runs from these places on, in `count` bytes.
pub(crate) fn and_bytes(
    alloc: Global,
    left: &[u8],
    from: usize,
    right: &[u8],
    at: usize,
    count: usize,
) -> Result<Vec<u8>, VortexError>
    requires left { from ≡ 0 → count ≤ length left.now }
    requires right { at ≡ 0 → count ≤ length right.now }
    requires from { from + 8 * count < 2 ^ 64 + 8 }
    requires at { at + 8 * count < 2 ^ 64 + 8 }
    ensures len { IfOk result (λ v. length v.items ≡ count) }
    ensures bits { Gives result (λ v. (k : ℕ) → k < 8 * count
        → bit_of v.items k ≡ (bit_of left.now (from + k) && bit_of right.now (at + k))) }
{
    if from == 0 && at == 0 {
        return and_whole(alloc, left, right, count);
    }
    let mut bytes = vec![in alloc; 0u8; count]?;
    and_joined(left, from, right, at, &mut bytes);
    Ok(bytes)
}

// The bits that are set in both, of two runs that begin a byte. Each byte is written once, the
// first 16 by themselves: the C library gives large memory 16 bytes past a multiple of 32, so that
// the vectors of 32 bytes in which the rest is written lie aligned.
fn and_whole(alloc: Global, left: &[u8], right: &[u8], count: usize) -> Result<Vec<u8>, VortexError>
    requires left { count ≤ length left.now }
    requires right { count ≤ length right.now }
    ensures len { IfOk result (λ v. length v.items ≡ count) }
    ensures bits { Gives result (λ v. (k : ℕ) → k < 8 * count
        → bit_of v.items k ≡ (bit_of left.now (0 + k) && bit_of right.now (0 + k))) }
{
    let first = count.min(16);
    let mut bytes = Vec::with_capacity(alloc, count)?;
    extend_both(&mut bytes, &left[..first], &right[..first])?;
    extend_both(&mut bytes, &left[first..count], &right[first..count])?;
    Ok(bytes)
}

// Adds the bytes of the bits that are set in both, of two runs that begin a byte.
fn extend_both(bytes: &mut Vec<u8>, left: &[u8], right: &[u8]) -> Result<(), VortexError>
    ensures { Gives result (λ u. bytes.new.items
        ≡ bytes.old.items ++ map (λ p. bit_and p.0 p.1) (zip left.now right.now)) }
{
    let pairs = left.iter().zip(right.iter());
    Ok(bytes.extend(pairs.map(|(l, r)| *l & *r))?)
}

// Results of up to so many bytes are written a byte at a time: a word or two cost more.
const FEW: usize = 8;

// Writes the bits that are set in both, of two runs of which one begins inside a byte.
fn and_joined(left: &[u8], from: usize, right: &[u8], at: usize, out: &mut [u8])
    requires from { from + 8 * length out.old < 2 ^ 64 + 8 }
    requires at { at + 8 * length out.old < 2 ^ 64 + 8 }
    ensures len { length out.new ≡ length out.old }
    ensures bits { (k : ℕ) → k < 8 * length out.old → bit_of out.new k ≡ (bit_of left.now (from + k) && bit_of right.now (at + k)) }
{
    if out.len() <= FEW {
        and_by_bytes(left, from, right, at, out);
    } else {
        and_by_words(left, from, right, at, out);
    }
}

// Writes the bits that are set in both a byte at a time, each joined from two.
fn and_by_bytes(left: &[u8], from: usize, right: &[u8], at: usize, out: &mut [u8])
    requires from { from + 8 * length out.old < 2 ^ 64 + 8 }
    requires at { at + 8 * length out.old < 2 ^ 64 + 8 }
    ensures len { length out.new ≡ length out.old }
    ensures bits { (k : ℕ) → k < 8 * length out.old → bit_of out.new k ≡ (bit_of left.now (from + k) && bit_of right.now (at + k)) }
{
    for (j, byte) in out.iter_mut().enumerate() {
        *byte = byte_from(left, from + 8 * j) & byte_from(right, at + 8 * j);
    }
}

// Writes the bits that are set in both seven bytes at a time, as a word holds from any bit on.
fn and_by_words(left: &[u8], from: usize, right: &[u8], at: usize, out: &mut [u8])
    requires from { from + 8 * length out.old < 2 ^ 64 + 8 }
    requires at { at + 8 * length out.old < 2 ^ 64 + 8 }
    ensures len { length out.new ≡ length out.old }
    ensures bits { (k : ℕ) → k < 8 * length out.old → bit_of out.new k ≡ (bit_of left.now (from + k) && bit_of right.now (at + k)) }
{
    for j in 0..out.len().div_ceil(7) {
        let first = 7 * j;
        let word = bits_from(left, from + 8 * first) & bits_from(right, at + 8 * first);
        put_bytes(out, first, out.len().min(first + 7), word);
    }
}
