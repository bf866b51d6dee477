// Views that are lent: whether each can be read, and is a text.

ghost use Rattle.std.specs.Prelude.{◌≡◌, ◌<◌, ◌≤◌, List, Bool, true, false, length, map, take, slice_range, IsTrue, IsUtf8};
ghost use Rattle.vx_views.specs.Sound.{IsSoundView, AreSoundViews};
ghost use Rattle.vx_views.specs.Views.{view_size, held_value};
ghost use Rattle.vx_views.specs.declared.view.TheConstants.{MAX_INLINED_SIZE};
ghost use Rattle.vx_c.specs.LentBuffers.{bytes_in, AreTextBuffers};
ghost use Rattle.vx_c.specs.Tables.{view_bytes};

use crate::lent_texts::is_boundary;
use crate::table::{CodraskBytes, CodraskView};
use std::ops::Range;
use vx_views::BinaryView;

// Whether each view, also of a null row, can be read and begins as it says.
#[inline(never)]
pub(crate) fn are_values(views: &[CodraskView], buffers: &[CodraskBytes<'_>]) -> bool
    ensures { IsTrue result → (mask : List Bool) → AreSoundViews (map view_bytes views.now) mask (bytes_in buffers.now) false }
{
    for view in views {
        if !is_value(&view_of(view), buffers) {
            return false;
        }
    }
    true
}

// Whether each view, also of a null row, can be read and begins as it says, and each buffer and each
// value is a text.
pub(crate) fn are_text_views(views: &[CodraskView], buffers: &[CodraskBytes<'_>]) -> bool
    ensures { IsTrue result → (mask : List Bool) → AreSoundViews (map view_bytes views.now) mask (bytes_in buffers.now) true }
{
    are_text_buffers(buffers) && are_text_values(views, buffers)
}

// Whether each buffer is a text.
pub(crate) fn are_text_buffers(buffers: &[CodraskBytes<'_>]) -> bool
    ensures { IsTrue result → AreTextBuffers buffers.now }
{
    for buffer in buffers {
        if !simdutf8::is_utf8(buffer.bytes) {
            return false;
        }
    }
    true
}

// Whether each view can be read, begins as it says, and is a text.
#[inline(never)]
fn are_text_values(views: &[CodraskView], buffers: &[CodraskBytes<'_>]) -> bool
    requires { AreTextBuffers buffers.now }
    ensures { IsTrue result → (mask : List Bool) → AreSoundViews (map view_bytes views.now) mask (bytes_in buffers.now) true }
{
    for view in views {
        if !is_text(&view_of(view), buffers) {
            return false;
        }
    }
    true
}

// A copy of a view.
#[inline(always)]
fn view_of(view: &CodraskView) -> BinaryView
    ensures { result ≡ view_bytes view.now }
{
    BinaryView::from(u128::from_le_bytes(view.bytes))
}

// Whether a view can be read and begins as it says.
#[inline(always)]
fn is_value(view: &BinaryView, buffers: &[CodraskBytes<'_>]) -> bool
    ensures { IsTrue result → IsSoundView (bytes_in buffers.now) false view.now }
{
    if view.is_inlined() {
        return true;
    }
    is_placed(view, buffers)
}

// Whether a view can be read, begins as it says, and is a text.
#[inline(always)]
fn is_text(view: &BinaryView, buffers: &[CodraskBytes<'_>]) -> bool
    requires { AreTextBuffers buffers.now }
    ensures { IsTrue result → IsSoundView (bytes_in buffers.now) true view.now }
{
    if view.is_inlined() {
        return holds_text(view);
    }
    is_placed(view, buffers) && is_text_part(view, buffers)
}

// Whether a view that refers to its value can be read, and begins as it says.
#[inline(always)]
fn is_placed(view: &BinaryView, buffers: &[CodraskBytes<'_>]) -> bool
    requires { MAX_INLINED_SIZE < view_size view.now }
    ensures { IsTrue result → IsSoundView (bytes_in buffers.now) false view.now }
{
    let parts = view.as_view();
    let Some(buffer) = buffers.get(parts.buffer_index as usize) else {
        return false;
    };
    let range = parts.as_range();
    if buffer.bytes.len() < range.end {
        return false;
    }
    begins_with(&buffer.bytes[range], parts.prefix)
}

// Whether the value that a view refers to begins and ends at letters.
#[inline(always)]
fn is_text_part(view: &BinaryView, buffers: &[CodraskBytes<'_>]) -> bool
    requires long { MAX_INLINED_SIZE < view_size view.now }
    requires sound { IsSoundView (bytes_in buffers.now) false view.now }
    requires texts { AreTextBuffers buffers.now }
    ensures { IsTrue result → IsSoundView (bytes_in buffers.now) true view.now }
{
    let parts = view.as_view();
    is_text_range(buffers[parts.buffer_index as usize].bytes, parts.as_range())
}

// Whether the value that a view holds is a text.
#[inline(always)]
fn holds_text(view: &BinaryView) -> bool
    requires { view_size view.now ≤ MAX_INLINED_SIZE }
    ensures { IsTrue result → IsUtf8 (held_value view.now) }
{
    let inlined = view.as_inlined();
    is_short_text(inlined.value())
}

// Whether a value of few bytes is a text: bytes below 128 are told first.
#[inline(always)]
fn is_short_text(value: &[u8]) -> bool
    ensures { IsTrue result → IsUtf8 value.now }
{
    value.is_ascii() || simdutf8::is_utf8(value)
}

// Whether a value begins with four bytes.
#[inline(always)]
fn begins_with(value: &[u8], prefix: [u8; 4]) -> bool
    requires { 4 ≤ length value.now }
    ensures { IsTrue result → prefix ≡ take 4 value.now }
{
    prefix.as_slice() == &value[..4]
}

// Whether a range of a text begins and ends at letters.
#[inline(always)]
fn is_text_range(text: &[u8], range: Range<usize>) -> bool
    requires text { IsUtf8 text.now }
    requires some { range.start < range.end }
    requires within { range.end ≤ length text.now }
    ensures { IsTrue result → IsUtf8 (slice_range text.now range.start range.end) }
{
    is_boundary(text, range.start) && is_boundary(text, range.end)
}
