// Bits that are copied to other places, whole bytes of them at once.

ghost use Rattle.std.specs.Prelude.{ℕ, ◌≡◌, ◌≤◌, ◌<◌, ◌+◌, ◌-◌, ◌*◌, ◌^◌, length};
ghost use Rattle.vx_base.specs.Bits.{bit_of, Written};

use crate::bit_bytes::{put_bit, read_bit};

// Copies the bits of the source from place `from` on to the places from `at` up to, but not at,
// `end`: one by one up to the first whole byte and past the last, and whole bytes between.
pub(crate) fn copy_bits(source: &[u8], from: usize, out: &mut [u8], at: usize, end: usize)
    requires ordered { at ≤ end }
    requires source { from + (end - at) ≤ 8 * length source.now }
    requires room { end ≤ 8 * length out.old }
    requires fits { from + (end - at) < 2 ^ 64 }
    ensures len { length out.new ≡ length out.old }
    ensures written { Written out.old out.new at end (λ k. bit_of source.now (from + (k - at))) }
{
    let first = at.div_ceil(8);
    let last = end / 8;
    if last <= first {
        copy_each(source, from, out, at, at, end);
        return;
    }
    copy_each(source, from, out, at, at, 8 * first);
    copy_bytes(source, from, out, at, first, last);
    copy_each(source, from, out, at, 8 * last, end);
}

// Copies the bits of the source from place `from` on to the places from `at` on, but only to the
// places from `start` up to, but not at, `end`: one by one.
fn copy_each(source: &[u8], from: usize, out: &mut [u8], at: usize, start: usize, end: usize)
    requires ordered { (at ≤ start) × (start ≤ end) }
    requires source { from + (end - at) ≤ 8 * length source.now }
    requires room { end ≤ 8 * length out.old }
    requires fits { from + (end - at) < 2 ^ 64 }
    ensures len { length out.new ≡ length out.old }
    ensures written { Written out.old out.new start end (λ k. bit_of source.now (from + (k - at))) }
{
    for k in start..end {
        put_bit(out, k, read_bit(source, from + (k - at)));
    }
}

// Copies the bits of the source from place `from` on to the places from `at` on, but only to the
// bytes from `first` up to, but not at, `last`: each byte at once.
fn copy_bytes(source: &[u8], from: usize, out: &mut [u8], at: usize, first: usize, last: usize)
    requires ordered { (at ≤ 8 * first) × (first ≤ last) }
    requires source { from + (8 * last - at) ≤ 8 * length source.now }
    requires room { last ≤ length out.old }
    requires counted { 8 * last < 2 ^ 64 }
    requires fits { from + (8 * last - at) < 2 ^ 64 }
    ensures len { length out.new ≡ length out.old }
    ensures written { Written out.old out.new (8 * first) (8 * last) (λ k. bit_of source.now (from + (k - at))) }
{
    let start = from + (8 * first - at);
    let skip = start / 8;
    let shift = start % 8;
    if shift == 0 {
        out[first..last].copy_from_slice(&source[skip..skip + (last - first)]);
    } else {
        join_bytes(&source[skip..], shift, &mut out[first..last]);
    }
}

// Writes bytes that are each joined from two: the bits of the source from bit `shift` on.
fn join_bytes(source: &[u8], shift: usize, out: &mut [u8])
    requires shift { (0 < shift) × (shift < 8) }
    requires source { length out.old < length source.now }
    ensures len { length out.new ≡ length out.old }
    ensures bits { (k : ℕ) → k < 8 * length out.old → bit_of out.new k ≡ bit_of source.now (shift + k) }
{
    for (j, byte) in out.iter_mut().enumerate() {
        *byte = source[j] >> shift | source[j + 1] << (8 - shift);
    }
}
