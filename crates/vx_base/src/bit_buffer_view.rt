// Booleans that are read where they lie.

ghost use Rattle.std.specs.Prelude.{◌≡◌, ◌<◌, ◌≤◌, ◌+◌, ◌*◌, ◌^◌, ◌%◌, length};
ghost use Rattle.vx_base.specs.Bits.{unpacked, bool_at};

use crate::bit_bytes::read_bit;
use std::marker::Model;

/// Where booleans stand in bytes: the bit at which they begin, and how many they are.
#[derive(Clone, Copy, Debug, PartialEq, Eq)]
pub struct BitBufferMeta {
    offset: usize,
    len: usize,
}

impl BitBufferMeta {
    /// `len` booleans from bit `offset` on.
    pub fn new(offset: usize, len: usize) -> BitBufferMeta
        ensures offset { result.offset ≡ offset }
        ensures len { result.len ≡ len }
    {
        BitBufferMeta { offset, len }
    }

    /// The bit at which the booleans begin.
    pub fn offset(self) -> usize
        ensures { result ≡ self.offset }
    {
        self.offset
    }

    /// How many booleans there are.
    pub fn len(self) -> usize
        ensures { result ≡ self.len }
    {
        self.len
    }
}

/// Booleans in bytes that are lent, one to a bit, the least significant bit of each byte first.
#[derive(Drop)]
pub struct BitBufferView<'a> {
    bytes: &'a [u8],
    offset: usize,
    len: usize,
}

impl<'a> Model for BitBufferView<'a> {
    ghost use Rattle.std.specs.Prelude.{Bool, List, ◌≤◌, ◌<◌, ◌+◌, ◌*◌, ◌^◌, length};
    ghost use Rattle.vx_base.specs.Bits.{unpacked};

    ghost Value = { List Bool };

    ghost view = { λ v. unpacked v.bytes.now v.offset v.len };

    ghost invariant = { λ v. (v.offset + v.len ≤ 8 * length v.bytes.now) × (v.offset + v.len < 2 ^ 64) };
}

#[tactic(auto, using(crate::proofs::PackedBits::unpacked_bits))]
impl<'a> BitBufferView<'a> {
    /// The booleans that stand there in these bytes. Asks that the bytes have so many bits, and
    /// that `offset % 8 + len` is below 2^64.
    pub fn from_meta(bytes: &'a [u8], meta: BitBufferMeta) -> BitBufferView<'a>
        requires in_bounds { meta.offset + meta.len ≤ 8 * length bytes.now }
        requires fits { meta.offset % 8 + meta.len < 2 ^ 64 }
        ensures { result ≡ unpacked bytes.now meta.offset meta.len }
    {
        BitBufferView {
            bytes: &bytes[meta.offset / 8..],
            offset: meta.offset % 8,
            len: meta.len,
        }
    }

    /// How many booleans there are.
    pub fn len(&self) -> usize
        ensures { result ≡ length self.now }
    {
        self.len
    }

    /// The boolean at place `i`, counted from 0. Asks that there is one.
    #[inline]
    pub fn value(&self, i: usize) -> bool
        requires { i < length self.now }
        ensures { result ≡ bool_at self.now i }
    {
        read_bit(self.bytes, self.offset + i)
    }
}
