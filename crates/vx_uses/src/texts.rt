//! Texts by views into buffers of a file.

ghost use Rattle.std.specs.Prelude.{◌≡◌, ◌↔◌, ◌<◌, ℕ, [], length, true, is_some, IfOk, IfSome, IsTrue, IsUtf8, OnOk, slice_index_or};
ghost use Rattle.vx_base.specs.Bits.{bool_at};
ghost use Rattle.vx_base.specs.Refusals.{Refuses};
ghost use Rattle.vx_views.specs.Alone.{views_left};
ghost use Rattle.vx_views.specs.Faulty.{views_fault};
ghost use Rattle.vx_views.specs.Views.{view_value};

use std::alloc::Global;
use vx_base::{ByteBuffer, Mask, VortexError};
use vx_views::{BinaryView, check_views, check_views_counted};

/// The text of a row that is not null, once all views of the file are checked.
pub fn text_of_row<'a>(
    alloc: Global,
    views: &'a [BinaryView],
    mask: &Mask,
    buffers: &'a [ByteBuffer],
    row: usize,
) -> Result<Option<&'a [u8]>, VortexError>
    requires one_each { length mask.now ≡ length views.now }
    requires in_bounds { row < length views.now }
    ensures present { IfOk result (λ found. is_some found ≡ bool_at mask.now row) }
    ensures value { let view = slice_index_or views.now row [] in IfOk result (λ found.
        IfSome found (λ text. text.now ≡ view_value buffers.now view)) }
    ensures utf8 { IfOk result (λ found. IfSome found (λ text. IsUtf8 text.now)) }
    ensures refuses { Refuses result (views_fault true mask.now buffers.now views.now) }
{
    check_views(alloc, views, mask, buffers, true, 0)?;
    if !mask.value(row) {
        return Ok(None);
    }
    Ok(Some(views[row].value_in(buffers)))
}

/// Checks all views of the texts of a file, and tells whether none was left to be checked alone:
/// each valid one holds an ASCII text, or lies in a buffer of texts that was read whole, as many as
/// a budget of bytes reaches. Where one was left, a greater budget may reach more buffers. Of the
/// buffer of twelve times `a`, an `é` and thirteen times `b`, 27 bytes, and a view of its first 14,
/// a budget of 27 leaves none, and one of 26 that view. Refuses as `check_views` does, whatever the
/// budget.
pub fn are_checked_whole(
    alloc: Global,
    views: &[BinaryView],
    mask: &Mask,
    buffers: &[ByteBuffer],
    budget: usize,
) -> Result<bool, VortexError>
    requires { length mask.now ≡ length views.now }
    ensures whole { IfOk result (λ whole.
        IsTrue whole ↔ (views_left true budget mask.now buffers.now views.now ≡ 0)) }
    ensures texts { OnOk result ((row : ℕ) → row < length views.now → bool_at mask.now row ≡ true →
        IsUtf8 (view_value buffers.now (slice_index_or views.now row []))) }
    ensures refuses { Refuses result (views_fault true mask.now buffers.now views.now) }
{
    let left = check_views_counted(alloc, views, mask, buffers, true, budget)?;
    Ok(left == 0)
}
