// The check of texts that are ASCII throughout, which is quicker than the exact one.

ghost use Rattle.std.specs.Prelude.{◌≡◌, true, length, replicate, IsTrue};
ghost use Rattle.vx_views.specs.Alone.{whole_texts};
ghost use Rattle.vx_views.specs.Ascii.{AreAscii, IsAsciiView, AreAsciiViews};

use crate::view::BinaryView;
use crate::view_checks::{is_inlined_ascii, value_at};
use vx_base::ByteBuffer;

// Whether the budget reaches every buffer, and all of them are ASCII.
pub(crate) fn are_ascii(buffers: &[ByteBuffer], budget: usize) -> bool
    ensures reached { IsTrue result
        → whole_texts budget buffers.now ≡ replicate (length buffers.now) true }
    ensures ascii { IsTrue result → AreAscii buffers.now }
{
    let mut left = budget;
    for buffer in buffers {
        let bytes = buffer.as_slice();
        if left < bytes.len() || !bytes.is_ascii() {
            return false;
        }
        left -= bytes.len();
    }
    true
}

// Whether each view, also of a null row, can be read and begins as it says, and holds ASCII where it
// holds its value.
pub(crate) fn are_ascii_views(views: &[BinaryView], buffers: &[ByteBuffer]) -> bool
    ensures { IsTrue result → AreAsciiViews buffers.now views.now }
{
    for view in views {
        if !is_ascii_view(view, buffers) {
            return false;
        }
    }
    true
}

// Whether a view can be read and begins as it says, and holds ASCII where it holds its value.
fn is_ascii_view(view: &BinaryView, buffers: &[ByteBuffer]) -> bool
    ensures { IsTrue result → IsAsciiView buffers.now view.now }
{
    if view.is_inlined() {
        return is_inlined_ascii(view);
    }
    value_at(view, 0, buffers).is_ok()
}
