// Bits that are read a word of 64 at a time.

ghost use Rattle.std.specs.Prelude.{ℕ, ◌≡◌, ◌≤◌, ◌<◌, ◌+◌, ◌-◌, ◌*◌, ◌/◌, ◌%◌, ◌^◌, ◌==◌, ◌↔◌, false, length, count_by};
ghost use Rattle.std.specs.Int.{bit_at};
ghost use Rattle.vx_base.specs.Bits.{bit_of, bit_before, unpacked, Written};

use crate::bit_bytes::byte_or_zero;

// The 64 bits from byte `at` on, with zeroes past the end.
#[inline]
fn word_from(bytes: &[u8], at: usize) -> u64
    requires { at + 8 < 2 ^ 64 }
    ensures { (i : ℕ) → i < 64 → (bit_at result i == 1) ≡ bit_of bytes.now (8 * at + i) }
{
    if bytes.len() < at + 8 {
        return last_word(bytes, at);
    }
    u64::from_le_bytes([
        bytes[at],
        bytes[at + 1],
        bytes[at + 2],
        bytes[at + 3],
        bytes[at + 4],
        bytes[at + 5],
        bytes[at + 6],
        bytes[at + 7],
    ])
}

// The 64 bits from byte `at` on, of which the bytes hold fewer: past their end there are zeroes.
fn last_word(bytes: &[u8], at: usize) -> u64
    requires { at + 8 < 2 ^ 64 }
    ensures { (i : ℕ) → i < 64 → (bit_at result i == 1) ≡ bit_of bytes.now (8 * at + i) }
{
    u64::from_le_bytes([
        byte_or_zero(bytes, at),
        byte_or_zero(bytes, at + 1),
        byte_or_zero(bytes, at + 2),
        byte_or_zero(bytes, at + 3),
        byte_or_zero(bytes, at + 4),
        byte_or_zero(bytes, at + 5),
        byte_or_zero(bytes, at + 6),
        byte_or_zero(bytes, at + 7),
    ])
}

// The bits from `place` on, as far as the word holds them that begins at their byte: 57 or more.
#[inline]
pub(crate) fn bits_from(bytes: &[u8], place: usize) -> u64
    ensures { (i : ℕ) → i < 64 - place % 8 → (bit_at result i == 1) ≡ bit_of bytes.now (place + i) }
{
    word_from(bytes, place / 8) >> (place % 8)
}

// The edges among the first `count` bits of a word, each a bit that is not the one before it: the
// first has this one before it.
#[inline]
pub(crate) fn edges_of(word: u64, before: bool, count: usize) -> u64
    requires { (0 < count) × (count ≤ 64) }
    ensures edges { (i : ℕ) → i < count → (bit_at result i ≡ 0) ↔ ((bit_at word i == 1) ≡ bit_before word before i) }
    ensures none { (i : ℕ) → count ≤ i → bit_at result i ≡ 0 }
{
    (word ^ (word << 1 | before as u64)) & (u64::MAX >> (64 - count))
}

// The first `count` bits of a byte, and zeroes after them.
#[inline]
fn low_bits(byte: u8, count: usize) -> u8
    requires { count < 8 }
    ensures kept { (i : ℕ) → i < count → bit_at result i ≡ bit_at byte i }
    ensures cleared { (i : ℕ) → count ≤ i → bit_at result i ≡ 0 }
{
    byte & ((1 << count) - 1)
}

// Clears the bits after the first `len`, all of which are in the last byte.
pub(crate) fn clear_after(bytes: &mut [u8], len: usize)
    requires enough { len ≤ 8 * length bytes.old }
    requires no_more { 8 * length bytes.old < len + 8 }
    ensures len { length bytes.new ≡ length bytes.old }
    ensures kept { unpacked bytes.new 0 len ≡ unpacked bytes.old 0 len }
    ensures cleared { (k : ℕ) → len ≤ k → bit_of bytes.new k ≡ false }
{
    if len % 8 != 0 {
        bytes[len / 8] = low_bits(bytes[len / 8], len % 8);
    }
}

// Writes the eight bytes of a word from byte `first` on.
#[inline]
fn put_whole(out: &mut [u8], first: usize, word: u64)
    requires { first + 8 ≤ length out.old }
    ensures len { length out.new ≡ length out.old }
    ensures written { Written out.old out.new (8 * first) (8 * (first + 8)) (λ k. bit_at word (k - 8 * first) == 1) }
{
    out[first..first + 8].copy_from_slice(&word.to_le_bytes());
}

// Writes the bytes of a word from byte `first` up to, but not at, `last`, one by one.
#[inline]
fn put_each(out: &mut [u8], first: usize, last: usize, word: u64)
    requires ordered { first ≤ last }
    requires few { last ≤ first + 8 }
    requires room { last ≤ length out.old }
    ensures len { length out.new ≡ length out.old }
    ensures written { Written out.old out.new (8 * first) (8 * last) (λ k. bit_at word (k - 8 * first) == 1) }
{
    for j in first..last {
        out[j] = ((word >> (8 * (j - first))) % 256) as u8;
    }
}

// Writes the bytes of a word from byte `first` up to, but not at, `last`. What there is after them
// may change: where there is room for more than eight, all eight are written at once. The last byte
// of all is so written by what ends in it alone.
#[inline]
pub(crate) fn put_bytes(out: &mut [u8], first: usize, last: usize, word: u64)
    requires ordered { first ≤ last }
    requires few { last ≤ first + 8 }
    requires room { last ≤ length out.old }
    ensures len { length out.new ≡ length out.old }
    ensures before { (k : ℕ) → k < 8 * first → bit_of out.new k ≡ bit_of out.old k }
    ensures written { (k : ℕ) → 8 * first ≤ k → k < 8 * last
        → bit_of out.new k ≡ (bit_at word (k - 8 * first) == 1) }
{
    if out.len() - first <= 8 {
        put_each(out, first, last, word);
    } else {
        put_whole(out, first, word);
    }
}

// Writes the bits of a word to the places from `at` up to, but not at, `end`. What there is after
// them may change.
#[inline]
pub(crate) fn put_word(out: &mut [u8], at: usize, end: usize, word: u64)
    requires ordered { at < end }
    requires few { end ≤ at + 56 }
    requires room { end ≤ 8 * length out.old }
    ensures len { length out.new ≡ length out.old }
    ensures before { (k : ℕ) → k < at → bit_of out.new k ≡ bit_of out.old k }
    ensures written { (k : ℕ) → at ≤ k → k < end → bit_of out.new k ≡ (bit_at word (k - at) == 1) }
{
    let first = at / 8;
    let shift = at % 8;
    let joined = word << shift | low_bits(out[first], shift) as u64;
    put_bytes(out, first, end.div_ceil(8), joined);
}

// How many of the bits of the first `words` words of 64 bits are set.
pub(crate) fn count_words(bytes: &[u8], words: usize) -> usize
    requires within { 8 * words ≤ length bytes.now }
    requires fits { 64 * words < 2 ^ 64 }
    ensures value { result ≡ count_by (λ b. b) (unpacked bytes.now 0 (64 * words)) }
    ensures bound { result ≤ 64 * words }
{
    let (chunks, _) = bytes.as_chunks::<8>();
    let mut count = 0;
    for j in 0..words {
        count += u64::from_le_bytes(chunks[j]).count_ones() as usize;
    }
    count
}
