// The parts of layouts that are no arrays, as text.

use super::add;
use super::values::write_value;
use std::process::Abort;
use vx_base::{BitBuffer, ByteBuffer, FieldNames};
use vx_tree::Layout;
use vx_views::BinaryView;

// How many bytes of a view are written without a point.
const GROUP: usize = 4;

// Adds what a layout has beside its data type, its validity and arrays.
pub(crate) fn write_own(
    rt: &(impl Abort + AllocGlobal),
    text: &mut String,
    layout: &Layout,
    levels: usize,
) {
    match layout {
        Layout::Bool { bits, .. } => write_bits(rt, text, bits),
        Layout::Primitive { ptype, bytes, .. } => {
            write_numbers(rt, text, bytes.as_slice(), ptype.byte_width());
        }
        Layout::Constant { scalar, .. } => {
            add(rt, text, " ");
            write_value(rt, text, scalar.value(), levels);
        }
        Layout::Dict { flag, .. } | Layout::ListView { flag, .. } => {
            let flag = *flag;
            write!(text, " {flag}").expect(rt, "written");
        }
        Layout::VarBinView { views, buffers, .. } => {
            write_views(rt, text, views.as_slice());
            write_buffers(rt, text, buffers);
        }
        Layout::Struct { names, .. } => write_names(rt, text, names),
        Layout::FixedSizeList { .. } => {}
    }
}

// Adds where the bits begin, and the bytes in which they lie.
fn write_bits(rt: &(impl Abort + AllocGlobal), text: &mut String, bits: &BitBuffer) {
    let (offset, _, bytes) = bits.try_clone(rt.alloc()).expect(rt, "shared").into_inner();
    write!(text, " {offset}:").expect(rt, "written");
    write_bytes(rt, text, bytes.as_slice());
}

// Adds numbers of so many bytes each.
fn write_numbers(rt: &impl Abort, text: &mut String, bytes: &[u8], width: usize) {
    for (place, byte) in bytes.iter().enumerate() {
        if place.checked_rem(width) == Some(0) {
            add(rt, text, " ");
        }
        write_byte(rt, text, *byte);
    }
}

// Adds views.
fn write_views(rt: &impl Abort, text: &mut String, views: &[BinaryView]) {
    for view in views {
        add(rt, text, " ");
        write_view(rt, text, view.as_u128().to_le_bytes());
    }
}

// Adds the bytes of a view.
fn write_view(rt: &impl Abort, text: &mut String, bytes: [u8; 16]) {
    for (place, byte) in bytes.iter().enumerate() {
        if place > 0 && place % GROUP == 0 {
            add(rt, text, ".");
        }
        write_byte(rt, text, *byte);
    }
}

// Adds buffers.
fn write_buffers(rt: &impl Abort, text: &mut String, buffers: &[ByteBuffer]) {
    for buffer in buffers {
        add(rt, text, " <");
        write_bytes(rt, text, buffer.as_slice());
        add(rt, text, ">");
    }
}

// Adds names.
fn write_names(rt: &impl Abort, text: &mut String, names: &FieldNames) {
    for place in 0..names.len() {
        add(rt, text, " .");
        add(rt, text, names.get(place).as_str());
    }
}

// Adds bytes.
pub(crate) fn write_bytes(rt: &impl Abort, text: &mut String, bytes: &[u8]) {
    for byte in bytes {
        write_byte(rt, text, *byte);
    }
}

// Adds a byte.
fn write_byte(rt: &impl Abort, text: &mut String, byte: u8) {
    write!(text, "{byte:02x}").expect(rt, "written");
}
