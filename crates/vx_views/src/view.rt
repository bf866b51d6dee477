//! Views of 16 bytes: a value of at most `MAX_INLINED_SIZE` bytes, or where a longer one stands.

ghost use Rattle.std.specs.Prelude.{◌≡◌, ◌+◌, ◌^◌, ◌<◌, ◌≤◌, ◌==◌, ◌++◌, ℕ, [], ◌∷◌, IsTrue, ◌↔◌, drop, length, map, slice_range, take, T};
ghost use Rattle.std.specs.Int.{w128, from_le_bytes, to_le_bytes};
ghost use Rattle.vx_views.specs.Views.{view_size, view_prefix, view_block, view_offset, view_of, ref_view, inlined_view, held_value};
ghost use Rattle.vx_views.specs.Views.{is_inline, IsView, Resolves, view_value, view_head, number_le, view_order_prefix, view_order_tail};
ghost use Rattle.vx_views.specs.Views.{prefix_of, head_of, order_prefix_of, order_tail_of, padded, AreBytes};

use crate::view_parts::{Inlined, Ref};
use std::fmt;
use std::hash::{Hash, Hasher};
use std::marker::Model;
use vx_base::{ByteBuffer, MAX_VALUE_LEN};

/// The greatest length of a value that stands in its view, 12.
pub const MAX_INLINED_SIZE: usize = 12;

/// The greatest length of a buffer that views refer to, that of the longest value: where a value
/// begins in it fits `u32`.
pub const MAX_BUFFER_LEN: usize = MAX_VALUE_LEN;

/// A view of a value of bytes, in 16 bytes; its numbers have their lowest byte first.
///
/// Bytes 0..4 are the value's length. A value of at most `MAX_INLINED_SIZE` bytes stands in the
/// bytes from 4 on, and after it zeroes where this crate wrote the view; a view from outside may
/// have any bytes there. Of a longer value the first four bytes stand at 4..8, the number of its
/// buffer at 8..12, and where it begins in that buffer at 12..16.
#[derive(Clone, Copy)]
pub struct BinaryView {
    bytes: [u8; 16],
}

impl Model for BinaryView {
    ghost use Rattle.std.specs.Prelude.{ℕ, List};
    ghost use Rattle.vx_views.specs.Views.{IsView};

    ghost Value = { List ℕ };

    ghost view = { λ v. v.bytes };

    ghost invariant = { λ v. IsView v.bytes };

    ghost inverse = { λ bytes. record { bytes = bytes } };
}

impl BinaryView {
    /// The greatest length of a value that stands in its view.
    pub const MAX_INLINED_SIZE: usize = MAX_INLINED_SIZE;

    /// The view of a value that stands in the buffer numbered `block`, from `offset` on.
    ///
    /// Asks fewer than 2^32 bytes. A value of at most 12 is put into the view itself, and `block`
    /// and `offset` are left out: the view of `inline` is `06000000 696e6c69 6e650000 00000000`.
    /// Thirteen times `c`, at the start of buffer 1, have the view
    /// `0d000000 63636363 01000000 00000000`.
    pub fn make_view(value: &[u8], block: u32, offset: u32) -> BinaryView
        requires { length value.now < 2 ^ 32 }
        ensures { result ≡ view_of value.now block offset }
    {
        if value.len() <= MAX_INLINED_SIZE {
            return BinaryView::new_inlined(value);
        }
        BinaryView::new_ref(value.len() as u32, bytes_at(value, 0), block, offset)
    }

    /// The view of the value of no bytes.
    #[tactic(auto, unfolding(crate::specs::Views::inlined_view, crate::specs::Views::padded))]
    pub fn empty_view() -> BinaryView
        ensures { result ≡ view_of [] 0 0 }
    {
        BinaryView { bytes: [0; 16] }
    }

    /// The view that refers to a value of `size` bytes which begins with `prefix` and stands in the
    /// buffer numbered `buffer_index`, from `offset` on. Asks more than 12 bytes.
    pub fn new_ref(size: u32, prefix: [u8; 4], buffer_index: u32, offset: u32) -> BinaryView
        requires { MAX_INLINED_SIZE < size }
        ensures { result ≡ ref_view size prefix buffer_index offset }
    {
        BinaryView::from(Ref {
            size,
            prefix,
            buffer_index,
            offset,
        })
    }

    /// The view that holds a value of at most 12 bytes.
    #[inline]
    pub fn new_inlined(value: &[u8]) -> BinaryView
        requires { length value.now ≤ MAX_INLINED_SIZE }
        ensures { result ≡ inlined_view value.now }
    {
        let size = value.len() as u32;
        let rest = rest_of(value);
        BinaryView {
            bytes: joined(
                &size.to_le_bytes(),
                &BinaryView::prefix_of(value),
                &rest[..4],
                &rest[4..],
            ),
        }
    }

    /// How many bytes the value has.
    #[tactic(auto, unfolding(crate::specs::Views::number_le))]
    pub fn len(&self) -> u32
        ensures size { result ≡ view_size self.now }
        ensures formed { IsView self.now }
    {
        u32::from_le_bytes(self.part(0))
    }

    /// Whether the value has no bytes.
    pub fn is_empty(&self) -> bool
        ensures { IsTrue result ↔ (view_size self.now ≡ 0) }
    {
        self.len() == 0
    }

    /// Whether the value stands in the view itself.
    pub fn is_inlined(&self) -> bool
        ensures { result ≡ is_inline self.now }
    {
        self.len() as usize <= MAX_INLINED_SIZE
    }

    /// The parts of a view that holds its value, which is asked.
    pub fn as_inlined(&self) -> Inlined
        requires { view_size self.now ≤ MAX_INLINED_SIZE }
        ensures size { result.size ≡ view_size self.now }
        ensures bytes { result.bytes ≡ slice_range self.now 4 16 }
        ensures value { take result.size result.bytes ≡ held_value self.now }
    {
        Inlined {
            size: self.len(),
            bytes: self.part(4),
        }
    }

    /// The parts of a view that refers to its value, which is asked.
    #[tactic(auto, unfolding(crate::specs::Views::number_le))]
    pub fn as_view(&self) -> Ref
        requires { MAX_INLINED_SIZE < view_size self.now }
        ensures { result ≡ record {
          size = view_size self.now;
          prefix = view_prefix self.now;
          buffer_index = view_block self.now;
          offset = view_offset self.now;
        } }
    {
        Ref {
            size: self.len(),
            prefix: self.prefix(),
            buffer_index: u32::from_le_bytes(self.part(8)),
            offset: u32::from_le_bytes(self.part(12)),
        }
    }

    /// Puts these parts in the place of those of a view that refers to its value. Asks that both
    /// values have more than 12 bytes.
    pub fn set_view(&mut self, parts: Ref)
        requires before { MAX_INLINED_SIZE < view_size self.old }
        requires after { MAX_INLINED_SIZE < parts.size }
        ensures { self.new ≡ ref_view parts.size parts.prefix parts.buffer_index parts.offset }
    {
        *self = BinaryView::from(parts);
    }

    /// The value, in the view itself or in the buffers. The buffer to which the view refers has to
    /// be there, and long enough.
    pub fn bytes<'a>(&'a self, buffers: &[&'a [u8]]) -> &'a [u8]
        requires { Resolves (map (λ b. b.now) buffers.now) self.now }
        ensures { result.now ≡ view_value (map (λ b. b.now) buffers.now) self.now }
    {
        if self.is_inlined() {
            return &self.bytes[4..4 + self.len() as usize];
        }
        let parts = self.as_view();
        &buffers[parts.buffer_index as usize][parts.as_range()]
    }

    /// The same, where the buffers are shared ones.
    pub fn value_in<'a>(&'a self, buffers: &'a [ByteBuffer]) -> &'a [u8]
        requires { Resolves buffers.now self.now }
        ensures { result.now ≡ view_value buffers.now self.now }
    {
        if self.is_inlined() {
            return self.bytes(&[]);
        }
        let parts = self.as_view();
        &buffers[parts.buffer_index as usize].as_slice()[parts.as_range()]
    }

    /// The bytes 4..8 of the view: the value's first four bytes, or fewer and then what pads it.
    pub fn prefix(&self) -> [u8; 4]
        ensures { result ≡ view_prefix self.now }
    {
        self.part(4)
    }

    /// The length and the prefix as one number, the length lowest. Views of equal values have equal
    /// heads where they are padded with zeroes, as `make_view` gives them.
    #[tactic(auto, unfolding(crate::specs::Views::view_head))]
    pub fn head(&self) -> u64
        ensures { result ≡ view_head self.now }
    {
        u64::from_le_bytes(self.part(0))
    }

    /// The prefix as a number whose order is that of the bytes.
    #[tactic(auto, unfolding(crate::specs::Views::view_order_prefix))]
    pub fn order_prefix(&self) -> u32
        ensures { result ≡ view_order_prefix self.now }
    {
        u32::from_be_bytes(self.prefix())
    }

    /// The bytes 8..16 of a view that holds its value, which is asked: those from 4 on of the value
    /// and of what pads it, as a number whose order is that of the bytes.
    #[tactic(auto, unfolding(crate::specs::Views::view_order_tail))]
    pub fn order_tail(&self) -> u64
        requires { view_size self.now ≤ MAX_INLINED_SIZE }
        ensures { result ≡ view_order_tail self.now }
    {
        u64::from_be_bytes(self.part(8))
    }

    /// The prefix that a view of the value has.
    #[inline]
    pub fn prefix_of(value: &[u8]) -> [u8; 4]
        ensures { result ≡ prefix_of value.now }
    {
        if value.len() < 4 {
            return at_most_three(value);
        }
        bytes_at(value, 0)
    }

    /// The head that a view of the value has; a length above a `u32` counts as `u32::MAX`. That of
    /// `ab` is `0x0000_6261_0000_0002`.
    #[tactic(auto, unfolding(crate::specs::Views::head_of))]
    pub fn head_of(value: &[u8]) -> u64
        ensures { result ≡ head_of value.now }
    {
        let size = u32::try_from(value.len()).unwrap_or(u32::MAX);
        let mut head = [0; 8];
        head[..4].copy_from_slice(&size.to_le_bytes());
        head[4..8].copy_from_slice(&BinaryView::prefix_of(value));
        u64::from_le_bytes(head)
    }

    /// The order prefix that a view of the value has. That of `ab` is `0x6162_0000`.
    #[tactic(auto, unfolding(crate::specs::Views::order_prefix_of))]
    pub fn order_prefix_of(value: &[u8]) -> u32
        ensures { result ≡ order_prefix_of value.now }
    {
        u32::from_be_bytes(BinaryView::prefix_of(value))
    }

    /// The order tail that a view which holds the value has. That of `abcdef` is
    /// `0x6566_0000_0000_0000`.
    #[tactic(auto, unfolding(crate::specs::Views::order_tail_of))]
    pub fn order_tail_of(value: &[u8]) -> u64
        ensures { result ≡ order_tail_of value.now }
    {
        u64::from_be_bytes(rest_of(value))
    }

    /// The 16 bytes as one number.
    pub fn as_u128(&self) -> u128
        ensures number { result ≡ from_le_bytes w128 self.now }
        ensures formed { IsView self.now }
    {
        u128::from_le_bytes(self.bytes)
    }

    // So many of the 16 bytes, from a place on.
    fn part<const N: usize>(&self, from: usize) -> [u8; N]
        requires { from + N ≤ 16 }
        ensures bytes { result ≡ slice_range self.now from (from + N) }
        ensures formed { IsView self.now }
    {
        bytes_at(&self.bytes, from)
    }

    // The 16 bytes.
    pub(crate) fn to_bytes(&self) -> [u8; 16]
        ensures { result ≡ self.now }
    {
        self.bytes
    }
}

// Four times four bytes in a row.
fn joined(a: &[u8], b: &[u8], c: &[u8], d: &[u8]) -> [u8; 16]
    requires first { length a.now ≡ 4 }
    requires second { length b.now ≡ 4 }
    requires third { length c.now ≡ 4 }
    requires fourth { length d.now ≡ 4 }
    ensures bytes { AreBytes result }
    ensures joined { result ≡ a.now ++ b.now ++ c.now ++ d.now }
{
    [
        a[0], a[1], a[2], a[3], b[0], b[1], b[2], b[3], c[0], c[1], c[2], c[3], d[0], d[1], d[2],
        d[3],
    ]
}

// So many bytes, from a place on.
#[inline(always)]
pub(crate) fn bytes_at<const N: usize>(bytes: &[u8], from: usize) -> [u8; N]
    requires { from + N ≤ length bytes.now }
    ensures { result ≡ slice_range bytes.now from (from + N) }
{
    let mut part = [0; N];
    part.copy_from_slice(&bytes[from..from + N]);
    part
}

// A value of at most three bytes, and zeroes after it: by one number, since four single bytes would
// be put together byte by byte.
#[inline(always)]
fn at_most_three(value: &[u8]) -> [u8; 4]
    requires { length value.now < 4 }
    ensures { result ≡ padded 4 value.now }
{
    let len = value.len();
    if len >= 2 {
        let first = u16::from_le_bytes(bytes_at(value, 0));
        let last = u16::from_le_bytes(bytes_at(value, len - 2));
        let third = u32::from(last) >> (8 * (4 - len) as u32);
        return (u32::from(first) + third * 0x1_0000).to_le_bytes();
    }
    if len == 1 {
        return u32::from(value[0]).to_le_bytes();
    }
    [0; 4]
}

// The eight bytes of a value from its fifth on, and zeroes where it has no more. The last four or
// eight bytes are loaded as one number, and those before the fifth are shifted out: no copy of a
// length that is known only when it runs.
#[inline(always)]
fn rest_of(value: &[u8]) -> [u8; 8]
    ensures { result ≡ padded 8 (drop 4 value.now) }
{
    let len = value.len();
    if len >= 12 {
        return bytes_at(value, 4);
    }
    if len >= 8 {
        let last = u64::from_le_bytes(bytes_at(value, len - 8));
        return (last >> (8 * (12 - len) as u32)).to_le_bytes();
    }
    if len >= 4 {
        let last = u32::from_le_bytes(bytes_at(value, len - 4));
        return (u64::from(last) >> (8 * (8 - len) as u32)).to_le_bytes();
    }
    [0; 8]
}

impl From<u128> for BinaryView {
    ghost from_gives = { λ number view. view ≡ to_le_bytes w128 number };

    fn from(number: u128) -> BinaryView {
        BinaryView {
            bytes: number.to_le_bytes(),
        }
    }
}

impl From<Ref> for BinaryView {
    ghost from_gives = { λ parts view. view
        ≡ ref_view parts.size parts.prefix parts.buffer_index parts.offset };

    #[tactic(auto, unfolding(crate::specs::Views::ref_view))]
    fn from(parts: Ref) -> BinaryView {
        let size = parts.size.to_le_bytes();
        let block = parts.buffer_index.to_le_bytes();
        let offset = parts.offset.to_le_bytes();
        BinaryView {
            bytes: joined(&size, &parts.prefix, &block, &offset),
        }
    }
}

impl PartialEq for BinaryView {
    ghost use Rattle.std.specs.Prelude.{◌==◌};
    ghost use Rattle.std.specs.Cmp.{nat_eq_equiv, partial_equiv_from_equiv};
    ghost use Rattle.std.specs.Cmp.Lexicographic.{pointwise, lists_equiv};

    ghost eq = { pointwise ◌==◌ };

    ghost laws = { partial_equiv_from_equiv (lists_equiv nat_eq_equiv) };

    fn eq(&self, other: &BinaryView) -> bool {
        self.bytes.as_slice() == other.bytes.as_slice()
    }
}

impl Eq for BinaryView {
    ghost use Rattle.std.specs.Cmp.{nat_eq_equiv};
    ghost use Rattle.std.specs.Cmp.Lexicographic.{lists_equiv};

    ghost laws = { lists_equiv nat_eq_equiv };
}

impl Hash for BinaryView {
    ghost use Rattle.std.specs.Prelude.{ℕ, List, [], ◌∷◌};
    ghost use Rattle.std.proofs.Common.{ap};
    ghost use Rattle.std.proofs.lemmas.Slice.Eq.{bytes_eq-Decides};

    ghost hash_input = { λ view. view ∷ [] };

    ghost respects_eq = { λ v w same. ap (λ (view : List ℕ). view ∷ []) ((bytes_eq-Decides v w).0 same) };

    fn hash<H: Hasher>(&self, state: &mut H) {
        state.write(self.bytes.as_slice());
    }
}

impl Default for BinaryView {
    ghost is_default = { λ view. view ≡ view_of [] 0 0 };

    fn default() -> BinaryView {
        BinaryView::empty_view()
    }
}

impl fmt::Debug for BinaryView {
    fn fmt<W: fmt::Write>(&self, f: &mut fmt::Formatter<W>) -> fmt::Result {
        if self.is_inlined() {
            let inlined = self.as_inlined();
            write!(f, "BinaryView {{ inline: {inlined:?} }}")
        } else {
            let parts = self.as_view();
            write!(f, "BinaryView {{ ref: {parts:?} }}")
        }
    }
}
