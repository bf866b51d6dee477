// Whether bytes are text.

ghost use Rattle.std.specs.Prelude.{◌≡◌, ◌-◌, ◌*◌, ◌<◌, ◌≤◌, ◌↔◌, ◌++◌, length, replicate, IfSome, IsTrue, IsUtf8};
ghost use Rattle.std.specs.Str.{IsCharBoundary};

use simdutf8::Checker;
use std::simd::prelude::*;

// Whether bytes are text. The loop over a long value stands by itself.
pub(crate) fn bytes_are_text(bytes: &[u8]) -> bool
    ensures { IsTrue result ↔ IsUtf8 bytes.now }
{
    if bytes.len() > 64 {
        return is_long_text(bytes);
    }
    is_short_text(bytes)
}

// Whether bytes are text, read by parts that end with a letter, and no further than the first that
// is no text.
#[inline(never)]
fn is_long_text(bytes: &[u8]) -> bool
    ensures { IsTrue result ↔ IsUtf8 bytes.now }
{
    let mut rest = bytes;
    while rest.len() > 64 {
        let Some(end) = end_of_letter(rest) else {
            return std::str::from_utf8(rest).is_ok();
        };
        if !is_short_text(&rest[..end]) {
            return false;
        }
        rest = &rest[end..];
    }
    is_short_text(rest)
}

// Where a letter of a longer value ends, at 61 to 64 bytes. A text has such a place.
fn end_of_letter(bytes: &[u8]) -> Option<usize>
    requires { 64 < length bytes.now }
    ensures { IfSome result (λ end. (0 < end) × (end ≤ 64) × IsCharBoundary bytes.now end) }
{
    let mut end = 64;
    while end > 60 {
        if bytes[end] < 0x80 || bytes[end] >= 0xC0 {
            return Some(end);
        }
        end -= 1;
    }
    None
}

// Whether a value that a block holds is text. Two loads that cover it tell whether all of its bytes
// are below 128; of 16 bytes and more the block then tells the rest at once. Fewer bytes have few
// letters, which take less time than a block.
#[inline(always)]
fn is_short_text(bytes: &[u8]) -> bool
    requires { length bytes.now ≤ 64 }
    ensures { IsTrue result ↔ IsUtf8 bytes.now }
{
    match bytes.len() {
        4..8 if are_ascii::<4>(bytes) => true,
        8..16 if are_ascii::<8>(bytes) => true,
        16..32 => are_ascii::<16>(bytes) || is_text_block::<16, 32>(bytes),
        32.. => are_ascii::<32>(bytes) || is_text_block::<32, 64>(bytes),
        _ => std::str::from_utf8(bytes).is_ok(),
    }
}

// Whether a value that its first and its last N bytes cover has bytes below 128 alone.
#[inline(always)]
fn are_ascii<const N: usize>(bytes: &[u8]) -> bool
    requires covered { (N ≤ length bytes.now) × (length bytes.now ≤ 2 * N) }
    requires lanes { N ≤ 64 }
    ensures { IsTrue result → IsUtf8 bytes.now }
{
    let front = Simd::<u8, N>::from_slice(bytes).simd_ge(Simd::splat(0x80));
    let back = Simd::<u8, N>::from_slice(&bytes[bytes.len() - N..]).simd_ge(Simd::splat(0x80));
    front.to_bitmask() | back.to_bitmask() == 0
}

// Whether a value that its first and its last `HALF` bytes cover is text.
fn is_text_block<const HALF: usize, const WHOLE: usize>(bytes: &[u8]) -> bool
    requires covered { (HALF ≤ length bytes.now) × (length bytes.now ≤ 2 * HALF) }
    requires within { (length bytes.now ≤ WHOLE) × (WHOLE ≤ 64) }
    ensures { IsTrue result ↔ IsUtf8 bytes.now }
{
    Checker::new().step(block_of::<HALF, WHOLE>(bytes)).finish()
}

// A block of such a value, and of zeroes after it. Its ends are copied, since a copy of a length
// that is known only when it runs takes longer than the test.
#[inline(always)]
fn block_of<const HALF: usize, const WHOLE: usize>(bytes: &[u8]) -> u8x64
    requires covered { (HALF ≤ length bytes.now) × (length bytes.now ≤ 2 * HALF) }
    requires within { (length bytes.now ≤ WHOLE) × (WHOLE ≤ 64) }
    ensures { result ≡ bytes.now ++ replicate (64 - length bytes.now) 0 }
{
    let len = bytes.len();
    let mut ends = [0; WHOLE];
    let filled = &mut ends[..];
    filled[..HALF].copy_from_slice(&bytes[..HALF]);
    filled[len - HALF..len].copy_from_slice(&bytes[len - HALF..]);
    let mut block = [0; 64];
    block[..WHOLE].copy_from_slice(&ends);
    u8x64::from_array(block)
}
