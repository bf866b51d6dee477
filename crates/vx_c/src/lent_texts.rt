// Texts between offsets that are lent.

ghost use Rattle.std.specs.Prelude.{◌≡◌, ◌<◌, ◌≤◌, ◌↔◌, length, slice_range, IsTrue, IsUtf8};
ghost use Rattle.vx_base.specs.Integers.{numbers};
ghost use Rattle.vx_views.specs.Utf8.{IsBoundary};
ghost use Rattle.vx_c.specs.Spans.{AreSpans, AreTexts};

use crate::lent_offsets::distance;
use vx_base::{NativePType, number_count};

// Whether values lie one after another between offsets, and each is a text. All bytes are tested at
// once, and then where each value ends.
pub(crate) fn are_texts<P: NativePType>(offsets: &[u8], heap: &[u8]) -> bool
    ensures spans { IsTrue result → AreSpans (numbers P.PTYPE offsets.now) (length heap.now) }
    ensures texts { IsTrue result → AreTexts (numbers P.PTYPE offsets.now) heap.now }
{
    simdutf8::is_utf8(heap) && are_cuts::<P>(offsets, heap)
}

// Whether values lie one after another between offsets, and none begins or ends within a letter of
// a text.
#[inline(never)]
fn are_cuts<P: NativePType>(offsets: &[u8], heap: &[u8]) -> bool
    requires { IsUtf8 heap.now }
    ensures spans { IsTrue result → AreSpans (numbers P.PTYPE offsets.now) (length heap.now) }
    ensures texts { IsTrue result → AreTexts (numbers P.PTYPE offsets.now) heap.now }
{
    let mut start = 0;
    if !is_boundary(heap, start) {
        return false;
    }
    for row in 1..number_count(offsets, P::PTYPE) {
        let Some(end) = distance::<P>(offsets, 0, row) else {
            return false;
        };
        if end < start || heap.len() < end || !is_boundary(heap, end) {
            return false;
        }
        start = end;
    }
    true
}

// Whether a place of some bytes is their end, or the byte there continues no letter.
#[inline(always)]
pub(crate) fn is_boundary(bytes: &[u8], place: usize) -> bool
    requires { place ≤ length bytes.now }
    ensures { IsTrue result ↔ IsBoundary bytes.now place }
{
    place == bytes.len() || bytes[place] < 0x80 || bytes[place] >= 0xC0
}
