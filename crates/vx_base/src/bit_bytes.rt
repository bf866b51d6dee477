// Bits in bytes: read, written, filled, and packed eight to a byte.
#![tactic(auto, using(crate::proofs::PackedBits::unpacked_bits))]

ghost use Rattle.std.specs.Prelude.{ℕ, ◌≡◌, ◌≢◌, ◌≤◌, ◌<◌, ◌+◌, ◌*◌, ◌/◌, ◌↔◌, length, slice_index, IsTrue};
ghost use Rattle.vx_base.specs.Bits.{bit_of, unpacked, byte_from, byte_of, byte_like, Filled};

// The byte at place `i`, or 0 past the end.
pub(crate) fn byte_or_zero(bytes: &[u8], i: usize) -> u8
    ensures { result ≡ slice_index bytes.now i }
{
    if i < bytes.len() { bytes[i] } else { 0 }
}

// The eight bits from bit `place` on, with zeroes past the end.
#[inline]
pub(crate) fn byte_from(bytes: &[u8], place: usize) -> u8
    ensures { result ≡ byte_from bytes.now place }
{
    let low = byte_or_zero(bytes, place / 8);
    let shift = place % 8;
    if shift == 0 {
        return low;
    }
    low >> shift | byte_or_zero(bytes, place / 8 + 1) << (8 - shift)
}

// The byte that these booleans make, the first of them its least significant bit.
#[inline]
pub(crate) fn byte_of(bits: [bool; 8]) -> u8
    ensures { result ≡ byte_of bits }
{
    bits[0] as u8
        + 2 * bits[1] as u8
        + 4 * bits[2] as u8
        + 8 * bits[3] as u8
        + 16 * bits[4] as u8
        + 32 * bits[5] as u8
        + 64 * bits[6] as u8
        + 128 * bits[7] as u8
}

// The byte of eight bits that are all `value`.
#[inline]
pub(crate) fn byte_like(value: bool) -> u8
    ensures { result ≡ byte_like value }
{
    if value { 255 } else { 0 }
}

// Bit `place` of the bytes.
#[inline]
pub(crate) fn read_bit(bytes: &[u8], place: usize) -> bool
    requires { place / 8 < length bytes.now }
    ensures { result ≡ bit_of bytes.now place }
{
    (bytes[place / 8] >> (place % 8)) & 1 == 1
}

// Writes bit `k` of the bytes.
#[inline]
pub(crate) fn put_bit(bytes: &mut [u8], k: usize, value: bool)
    requires { k / 8 < length bytes.old }
    ensures written { bit_of bytes.new k ≡ value }
    ensures others { (j : ℕ) → j ≢ k → bit_of bytes.new j ≡ bit_of bytes.old j }
{
    let mask = 1u8 << (k % 8);
    if value {
        bytes[k / 8] |= mask;
    } else {
        bytes[k / 8] &= !mask;
    }
}

// Writes the bits from `start` up to, but not at, `end`, all of them in one byte.
#[inline]
fn put_in_byte(bytes: &mut [u8], start: usize, end: usize, value: bool)
    requires start_le_end { start ≤ end }
    requires within { end ≤ 8 * length bytes.old }
    requires one_byte { end ≤ 8 * (start / 8) + 8 }
    ensures len { length bytes.new ≡ length bytes.old }
    ensures filled { Filled bytes.old bytes.new start end value }
{
    if start == end {
        return;
    }
    let mask = (u8::MAX >> (8 - (end - start))) << (start % 8);
    if value {
        bytes[start / 8] |= mask;
    } else {
        bytes[start / 8] &= !mask;
    }
}

// Writes all bits of the bytes from `first` up to, but not at, `last`.
fn fill_bytes(bytes: &mut [u8], first: usize, last: usize, value: bool)
    requires first_le_last { first ≤ last }
    requires within { last ≤ length bytes.old }
    ensures len { length bytes.new ≡ length bytes.old }
    ensures filled { Filled bytes.old bytes.new (8 * first) (8 * last) value }
{
    let byte = byte_like(value);
    for j in first..last {
        bytes[j] = byte;
    }
}

// Writes the bits from `start` up to, but not at, `end`, each byte at once.
pub(crate) fn fill_bits(bytes: &mut [u8], start: usize, end: usize, value: bool)
    requires start_le_end { start ≤ end }
    requires within { end ≤ 8 * length bytes.old }
    ensures len { length bytes.new ≡ length bytes.old }
    ensures filled { Filled bytes.old bytes.new start end value }
{
    let first = start.div_ceil(8);
    let last = end / 8;
    if last < first {
        put_in_byte(bytes, start, end, value);
        return;
    }
    put_in_byte(bytes, start, 8 * first, value);
    fill_bytes(bytes, first, last, value);
    put_in_byte(bytes, 8 * last, end, value);
}

// Writes these booleans, eight to a byte.
pub(crate) fn pack(bools: &[bool], out: &mut [u8])
    requires { length bools.now ≤ 8 * length out.old }
    ensures len { length out.new ≡ length out.old }
    ensures bits { unpacked out.new 0 (length bools.now) ≡ bools.now }
{
    let whole = bools.len() / 8;
    for j in 0..whole {
        let at = 8 * j;
        out[j] = byte_of([
            bools[at],
            bools[at + 1],
            bools[at + 2],
            bools[at + 3],
            bools[at + 4],
            bools[at + 5],
            bools[at + 6],
            bools[at + 7],
        ]);
    }
    for i in 8 * whole..bools.len() {
        put_bit(out, i, bools[i]);
    }
}

// Whether the first `count` bytes of two are the same.
pub(crate) fn same_whole(left: &[u8], right: &[u8], count: usize) -> bool
    requires left { count ≤ length left.now }
    requires right { count ≤ length right.now }
    ensures { IsTrue result ↔ (unpacked left.now 0 (8 * count) ≡ unpacked right.now 0 (8 * count)) }
{
    left[..count] == right[..count]
}
