// Texts and byte lists by their views.

mod iterated;
mod parts;
mod rebuffered;
mod tested;
mod views;

use std::alloc::Global;
use vx_base::{Buffer, ByteBuffer, DType, Nullability, VortexError};
use vx_text::VarBinViewArray;
use vx_tree::{TypedArray, Validity};
use vx_views::BinaryView;

// Texts of which none may be null.
const TEXTS: DType = DType::Utf8(Nullability::NonNullable);

// Texts of which some may be null.
const SOME_TEXTS: DType = DType::Utf8(Nullability::Nullable);

// Byte lists of which none may be null.
const BYTE_LISTS: DType = DType::Binary(Nullability::NonNullable);

// The array of one view over one buffer.
fn one_view(
    alloc: Global,
    view: BinaryView,
    buffer: &[u8],
    dtype: DType,
    validity: Validity,
) -> Result<VarBinViewArray, VortexError> {
    let views = Buffer::copy_from(alloc, &[view])?;
    let mut buffers = Vec::new(alloc);
    buffers.push(ByteBuffer::copy_from(alloc, buffer)?)?;
    VarBinViewArray::try_new(alloc, views, buffers, dtype, validity)
}

// How one view over one buffer is refused.
fn fault_of(
    alloc: Global,
    view: BinaryView,
    buffer: &[u8],
    dtype: DType,
    validity: Validity,
) -> Option<VortexError> {
    match one_view(alloc, view, buffer, dtype, validity) {
        Ok(_) => None,
        Err(fault) => Some(fault),
    }
}

// Whether the row of an array has these bytes.
fn is_value(array: &VarBinViewArray, row: usize, wanted: &[u8]) -> bool {
    if row >= array.len() {
        return false;
    }
    match array.as_array().bytes_at(row) {
        Some(bytes) => bytes == wanted,
        None => false,
    }
}
