// Texts and byte lists by their views.

use super::value;
use std::process::Abort;
use vx_base::{Buffer, ByteBuffer, DType, Mask, Nullability, Scalar, ScalarValue};
use vx_tree::{ArrayRef, Validity};
use vx_views::{BinaryView, check_views};

// A text of 29 bytes.
pub(crate) const LONG: &[u8] = b"this value is definitely long";

// The view of a value of less than a hundred bytes.
pub(crate) fn view(rt: &impl Abort, value: &[u8], block: u32, offset: u32) -> BinaryView {
    assert!(rt; value.len() < 100);
    BinaryView::make_view(value, block, offset)
}

// Texts by their views over these buffers.
pub(crate) fn texts(
    rt: &(impl Abort + AllocGlobal),
    views: &[BinaryView],
    buffers: &[&[u8]],
) -> ArrayRef {
    let buffers = copied(rt, buffers);
    let mask = Mask::new_true(views.len());
    check_views(rt.alloc(), views, &mask, &buffers, true, 0).expect(rt, "texts");
    let views = Buffer::copy_from(rt.alloc(), views).expect(rt, "views");
    let dtype = DType::Utf8(Nullability::NonNullable);
    ArrayRef::var_bin_view(rt.alloc(), views, buffers, dtype, Validity::NonNullable).expect(
        rt, "an array",
    )
}

// Byte lists by their views over these buffers.
pub(crate) fn byte_lists(
    rt: &(impl Abort + AllocGlobal),
    views: &[BinaryView],
    buffers: &[&[u8]],
) -> ArrayRef {
    let buffers = copied(rt, buffers);
    let mask = Mask::new_true(views.len());
    check_views(rt.alloc(), views, &mask, &buffers, false, 0).expect(rt, "byte lists");
    let views = Buffer::copy_from(rt.alloc(), views).expect(rt, "views");
    let dtype = DType::Binary(Nullability::NonNullable);
    ArrayRef::var_bin_view(rt.alloc(), views, buffers, dtype, Validity::NonNullable).expect(
        rt, "an array",
    )
}

// Buffers of these bytes.
fn copied(rt: &(impl Abort + AllocGlobal), buffers: &[&[u8]]) -> Vec<ByteBuffer> {
    let mut copies = Vec::new(rt.alloc());
    for bytes in buffers {
        copies
            .push(ByteBuffer::copy_from(rt.alloc(), bytes).expect(rt, "bytes"))
            .expect(rt, "a buffer");
    }
    copies
}

// One text.
pub(crate) fn text(
    rt: &(impl Abort + AllocGlobal),
    bytes: &[u8],
    nullability: Nullability,
) -> Scalar {
    let text = ByteBuffer::copy_from(rt.alloc(), bytes).expect(rt, "bytes");
    value(rt, DType::Utf8(nullability), ScalarValue::Text(text))
}
