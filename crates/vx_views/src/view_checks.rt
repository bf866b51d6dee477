//! The check of views that come from outside.

ghost use Rattle.std.specs.Prelude.{◌≡◌, ◌<◌, ◌≤◌, ◌↔◌, ◌&&◌, ℕ, length, OnOk, IfOk, IsTrue, IsUtf8, false, true, nat_le, slice_index, slice_range};
ghost use Rattle.std.specs.List.{list_any};
ghost use Rattle.std.specs.Str.{IsAscii};
ghost use Rattle.vx_base.specs.Refusals.{Refuses, Tests, Gives};
ghost use Rattle.vx_views.specs.Alone.{whole_texts, is_alone, alone_of, views_left, AreWholeTexts};
ghost use Rattle.vx_views.specs.Faulty.{views_fault, view_fault, place_fault, text_fault};
ghost use Rattle.vx_views.specs.Sound.{AreSoundViews};
ghost use Rattle.vx_views.specs.TextsAround.{AreTextTables};
ghost use Rattle.vx_views.specs.Utf8.{IsBoundary};
ghost use Rattle.vx_views.specs.Views.{view_size, view_value, held_value};
ghost use Rattle.vx_views.specs.declared.view.TheConstants.{MAX_INLINED_SIZE};

use crate::ascii_checks::{are_ascii, are_ascii_views};
use crate::texts_around::{TextTable, is_text_at, text_tables};
use crate::view::{BinaryView, bytes_at};
use simdutf8::Checker;
use std::alloc::Global;
use std::ops::Range;
use std::simd::prelude::*;
use vx_base::{ByteBuffer, Mask, VortexError};

/// Whether each view of a valid row may stand there: the first faulty row refuses, with its number.
///
/// A view that refers to its value refuses with `BadBuffer` where there is no buffer of its number,
/// `BadStart` where its offset is not below that buffer's length, `BadEnd` where the value ends
/// past the buffer, `BadPrefix` where the value begins otherwise than the view says, and, where
/// text is checked, `NotUtf8`. A view that holds its value refuses with `NotUtf8` alone. Each value
/// is judged alone: bytes that no valid view refers to never refuse, and neither does a null row.
///
/// The `budget` is the number of bytes of whole buffers that may be read ahead, as
/// `check_views_counted` reads them; it changes no answer.
pub fn check_views(
    alloc: Global,
    views: &[BinaryView],
    mask: &Mask,
    buffers: &[ByteBuffer],
    check_utf8: bool,
    budget: usize,
) -> Result<(), VortexError>
    requires { length mask.now ≡ length views.now }
    ensures refuses { Refuses result (views_fault check_utf8 mask.now buffers.now views.now) }

    // Each valid view then resolves, begins as it says, and is text where text is asked.
    ensures sound { OnOk result (AreSoundViews views.now mask.now buffers.now check_utf8) }
{
    check_views_counted(alloc, views, mask, buffers, check_utf8, budget)?;
    Ok(())
}

/// The same, and how many valid views were left to be checked alone: none where no text is checked.
///
/// The budget reaches, in order, each buffer no longer than what is left of it, whose length is
/// taken off. A buffer that is reached is read whole, and where it is UTF-8, a view into it is
/// decided by where it starts and ends. Checked alone are the other views that refer to their
/// value, and those that hold a value with a byte of 128 or more.
///
/// Where the valid views name more bytes of the other buffers than these have, as overlapping views
/// do, these are gone through once, and their texts noted in a quarter of their memory: then at most
/// 64 bytes of a value are read for its view, however long it is.
///
/// Twelve times `a`, an `é` and thirteen times `b` are a buffer of 27 bytes. The view of its first
/// 14 is checked alone by a budget of 26, and not by one of 27.
pub fn check_views_counted(
    alloc: Global,
    views: &[BinaryView],
    mask: &Mask,
    buffers: &[ByteBuffer],
    check_utf8: bool,
    budget: usize,
) -> Result<usize, VortexError>
    requires { length mask.now ≡ length views.now }
    ensures refuses { Refuses result (views_fault check_utf8 mask.now buffers.now views.now) }
    ensures sound { OnOk result (AreSoundViews views.now mask.now buffers.now check_utf8) }
    ensures left { IfOk result (λ left. left
        ≡ views_left check_utf8 budget mask.now buffers.now views.now) }
{
    if !check_utf8 {
        return check_rows::<false>(views, mask, buffers, &[], &[]);
    }
    if are_ascii(buffers, budget) && are_ascii_views(views, buffers) {
        return Ok(0);
    }
    let texts = read_ahead(alloc, buffers, budget)?;
    let tables = text_tables(alloc, views, mask, buffers, &texts)?;
    check_rows::<true>(views, mask, buffers, &texts, &tables)
}

// Whether each valid view may stand there, as a text where text is asked and it is known which
// buffers are UTF-8; how many values were checked alone.
fn check_rows<const TEXT: bool>(
    views: &[BinaryView],
    mask: &Mask,
    buffers: &[ByteBuffer],
    texts: &[bool],
    tables: &[TextTable],
) -> Result<usize, VortexError>
    requires same_len { length mask.now ≡ length views.now }
    requires texts { IsTrue TEXT → AreWholeTexts buffers.now texts.now }
    requires tables { AreTextTables buffers.now tables.now }
    ensures tests { Tests result (views_fault TEXT mask.now buffers.now views.now) }
    ensures alone { IfOk result (λ alone. alone ≡ alone_of TEXT texts.now mask.now views.now) }
{
    let mut valid = mask.rows();
    let mut alone = 0;
    for (row, view) in views.iter().enumerate() {
        if valid.value(row) {
            alone += usize::from(check_view::<TEXT>(view, row, buffers, texts, tables)?);
        }
    }
    Ok(alone)
}

// Whether the view of a valid row may stand there: whether its value was checked alone.
#[inline(always)]
pub(crate) fn check_view<const TEXT: bool>(
    view: &BinaryView,
    row: usize,
    buffers: &[ByteBuffer],
    texts: &[bool],
    tables: &[TextTable],
) -> Result<bool, VortexError>
    requires texts { IsTrue TEXT → AreWholeTexts buffers.now texts.now }
    requires tables { AreTextTables buffers.now tables.now }
    ensures tests { Tests result (view_fault TEXT buffers.now view.now row) }
    ensures alone { IfOk result (λ alone. alone ≡ (TEXT && is_alone texts.now view.now)) }
{
    if TEXT {
        return check_text_view(view, row, buffers, texts, tables);
    }
    check_place(view, row, buffers)?;
    Ok(false)
}

// Whether a view can be read and begins as it says.
fn check_place(view: &BinaryView, row: usize, buffers: &[ByteBuffer]) -> Result<(), VortexError>
    ensures { Tests result (view_fault false buffers.now view.now row) }
{
    if !view.is_inlined() {
        value_at(view, row, buffers)?;
    }
    Ok(())
}

// For each buffer whether the budget reaches it and it is UTF-8.
pub(crate) fn read_ahead(
    alloc: Global,
    buffers: &[ByteBuffer],
    budget: usize,
) -> Result<Vec<bool>, VortexError>
    ensures { Gives result (λ texts. texts.items ≡ whole_texts budget buffers.now) }
{
    let mut texts = Vec::with_capacity(alloc, buffers.len())?;
    let mut left = budget;
    for buffer in buffers {
        let bytes = buffer.as_slice();
        let is_text = if bytes.len() <= left {
            left -= bytes.len();
            simdutf8::is_utf8(bytes)
        } else {
            false
        };
        texts.push(is_text)?;
    }
    Ok(texts)
}

// Whether a view may stand there as a text: whether its value was checked alone.
#[inline(always)]
fn check_text_view(
    view: &BinaryView,
    row: usize,
    buffers: &[ByteBuffer],
    texts: &[bool],
    tables: &[TextTable],
) -> Result<bool, VortexError>
    requires texts { AreWholeTexts buffers.now texts.now }
    requires tables { AreTextTables buffers.now tables.now }
    ensures tests { Tests result (view_fault true buffers.now view.now row) }
    ensures alone { IfOk result (λ alone. alone ≡ is_alone texts.now view.now) }
{
    if view.is_inlined() {
        return check_inlined_text(view, row);
    }
    value_at(view, row, buffers)?;
    let parts = view.as_view();
    let (block, range) = (parts.buffer_index as usize, parts.as_range());
    let bytes = buffers[block].as_slice();
    let is_text = if texts[block] {
        is_text_range(bytes, range)
    } else {
        is_text_at(bytes, range, tables, block)
    };
    if !is_text {
        return Err(VortexError::NotUtf8 { row });
    }
    Ok(!texts[block])
}

// Whether the value that stands in a view is text: whether it was checked alone, as is one with a
// byte of 128 or more.
fn check_inlined_text(view: &BinaryView, row: usize) -> Result<bool, VortexError>
    requires { view_size view.now ≤ MAX_INLINED_SIZE }
    ensures tests { Tests result (text_fault true (held_value view.now) row) }
    ensures alone { IfOk result (λ alone. alone ≡ list_any (nat_le 128) (held_value view.now)) }
{
    if is_inlined_ascii(view) {
        return Ok(false);
    }
    if !is_held_text(view) {
        return Err(VortexError::NotUtf8 { row });
    }
    Ok(true)
}

// Whether the value that stands in a view is text. The 16 bytes of the view are tested at once:
// where they are UTF-8, as a length, a text and zeroes after it are, the value's ends decide.
fn is_held_text(view: &BinaryView) -> bool
    requires inlined { view_size view.now ≤ MAX_INLINED_SIZE }
    requires some { 0 < view_size view.now }
    ensures { IsTrue result ↔ IsUtf8 (held_value view.now) }
{
    let bytes = view.to_bytes();
    if is_text_block(bytes) {
        return is_text_range(&bytes, 4..4 + view.len() as usize);
    }
    is_text(view.bytes(&[]))
}

// Whether 16 bytes are text: a block's test, whose other 48 bytes are known to be zeroes, and so
// take little time.
#[inline(always)]
fn is_text_block(bytes: [u8; 16]) -> bool
    ensures { IsTrue result ↔ IsUtf8 bytes }
{
    let mut block = [0; 64];
    block[..16].copy_from_slice(&bytes);
    Checker::new().step(u8x64::from_array(block)).finish()
}

// Whether the value that stands in a view has bytes below 128 alone.
#[inline]
pub(crate) fn is_inlined_ascii(view: &BinaryView) -> bool
    requires { view_size view.now ≤ MAX_INLINED_SIZE }
    ensures { IsTrue result ↔ IsAscii (held_value view.now) }
{
    4 + view.len() as usize <= ascii_len(view.to_bytes())
}

// How many of 16 bytes stand before the first of 128 or more.
#[inline(always)]
fn ascii_len(bytes: [u8; 16]) -> usize
    ensures within { result ≤ 16 }
    ensures before { (i : ℕ) → i < result → slice_index bytes i < 128 }
    ensures stop { result < 16 → 128 ≤ slice_index bytes result }
{
    let high = u8x16::from_array(bytes)
        .simd_ge(u8x16::splat(0x80))
        .to_bitmask();
    if high == 0 {
        return 16;
    }
    high.trailing_zeros() as usize
}

// Whether a value is text: bytes below 128 are told first, eight at a time. It is long, and
// so no part of the loops over views.
#[inline(never)]
pub(crate) fn is_text(value: &[u8]) -> bool
    ensures { IsTrue result ↔ IsUtf8 value.now }
{
    value.is_ascii() || simdutf8::is_utf8(value)
}

// Whether a range of a text is a text too, as the boundaries at its ends tell.
pub(crate) fn is_text_range(text: &[u8], range: Range<usize>) -> bool
    requires text { IsUtf8 text.now }
    requires some { range.start < range.end }
    requires within { range.end ≤ length text.now }
    ensures { IsTrue result ↔ IsUtf8 (slice_range text.now range.start range.end) }
{
    is_boundary(text, range.start) && is_boundary(text, range.end)
}

// Whether a place of some bytes is their end, or the byte there continues no sequence.
fn is_boundary(bytes: &[u8], place: usize) -> bool
    requires { place ≤ length bytes.now }
    ensures { IsTrue result ↔ IsBoundary bytes.now place }
{
    place == bytes.len() || bytes[place] < 0x80 || bytes[place] >= 0xC0
}

// The value that a view refers to, where the view says rightly where it stands and how it begins.
#[inline]
pub(crate) fn value_at<'a>(
    view: &BinaryView,
    row: usize,
    buffers: &'a [ByteBuffer],
) -> Result<&'a [u8], VortexError>
    requires { MAX_INLINED_SIZE < view_size view.now }
    ensures tests { Tests result (place_fault buffers.now view.now row) }
    ensures value { IfOk result (λ v. v.now ≡ view_value buffers.now view.now) }
{
    let parts = view.as_view();
    let Some(buffer) = buffers.get(parts.buffer_index as usize) else {
        return Err(VortexError::BadBuffer { row });
    };
    let (buffer, range) = (buffer.as_slice(), parts.as_range());
    if buffer.len() <= range.start {
        return Err(VortexError::BadStart { row });
    }
    if buffer.len() < range.end {
        return Err(VortexError::BadEnd { row });
    }
    let value = &buffer[range];
    if u32::from_le_bytes(bytes_at(value, 0)) != u32::from_le_bytes(parts.prefix) {
        return Err(VortexError::BadPrefix { row });
    }
    Ok(value)
}
