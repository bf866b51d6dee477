// Arrays whose values are moved to new buffers.

use super::{BYTE_LISTS, SOME_TEXTS, is_value};
use std::alloc::Global;
use vx_base::{Buffer, ByteBuffer, VortexError};
use vx_text::{VarBinViewArray, VarBinViewArrayExt};
use vx_tree::{TypedArray, Validity};
use vx_views::BinaryView;

// Thirteen letters each.
const LETTERS: [&[u8]; 4] = [
    b"aaaaaaaaaaaaa",
    b"bbbbbbbbbbbbb",
    b"ccccccccccccc",
    b"ddddddddddddd",
];

// The array of these four values.
fn letters(alloc: Global) -> Result<VarBinViewArray, VortexError> {
    VarBinViewArray::from_iter_bin(alloc, LETTERS.iter().copied())
}

// How rebuffering is refused.
fn fault_of(alloc: Global, array: &VarBinViewArray, limit: usize) -> Option<VortexError> {
    match array.rebuffer(alloc, limit) {
        Ok(_) => None,
        Err(fault) => Some(fault),
    }
}

#[test]
fn four_values_in_one_buffer(rt: HostRuntime) {
    let array = letters(rt.alloc())
        .expect(&rt, "made")
        .rebuffer(rt.alloc(), 52)
        .expect(&rt, "made");
    let data = array.to_data(rt.alloc()).expect(&rt, "made");
    assert!(rt; data.len() == 4 && data.data_buffers().len() == 1);
    assert_eq!(rt; data.buffer(0).len(), 52);
    assert!(rt; data.views()[0] == BinaryView::make_view(LETTERS[0], 0, 0));
    assert!(rt; data.views()[1] == BinaryView::make_view(LETTERS[1], 0, 13));
    assert!(rt; data.views()[2] == BinaryView::make_view(LETTERS[2], 0, 26));
    assert!(rt; data.views()[3] == BinaryView::make_view(LETTERS[3], 0, 39));
}

#[test]
fn limits_that_are_refused(rt: HostRuntime) {
    let array = letters(rt.alloc()).expect(&rt, "made");
    let long = fault_of(rt.alloc(), &array, 12);
    assert_eq!(rt; long, Some(VortexError::ValueTooLong { row: 0 }));
    let large = fault_of(rt.alloc(), &array, 4294967296);
    assert_eq!(rt; large, Some(VortexError::LimitTooLarge));
    assert_eq!(rt; fault_of(rt.alloc(), &array, 4294967295), None);
}

#[test]
fn two_views_of_the_same_bytes(rt: HostRuntime) {
    let view = BinaryView::make_view(LETTERS[0], 0, 0);
    let views = Buffer::copy_from(rt.alloc(), &[view, view]).expect(&rt, "made");
    let mut buffers = Vec::new(rt.alloc());
    buffers
        .push(ByteBuffer::copy_from(rt.alloc(), LETTERS[0]).expect(&rt, "made"))
        .expect(&rt, "made");
    let validity = Validity::NonNullable;
    let array = VarBinViewArray::try_new(rt.alloc(), views, buffers, BYTE_LISTS, validity).expect(
        &rt, "made",
    );
    let moved = array.rebuffer(rt.alloc(), 13).expect(&rt, "made");
    let data = moved.to_data(rt.alloc()).expect(&rt, "made");
    assert!(rt; data.data_buffers().len() == 2 && data.len() == 2);
    assert!(rt; data.buffer(0).len() == 13 && data.buffer(1).len() == 13);
    assert!(rt; data.views()[1] == BinaryView::make_view(LETTERS[0], 1, 0));
    assert!(rt; is_value(&moved, 0, LETTERS[0]) && is_value(&moved, 1, LETTERS[0]));
}

#[test]
fn no_buffer_where_all_rows_are_null(rt: HostRuntime) {
    let view = BinaryView::make_view(LETTERS[0], 0, 0);
    let views = Buffer::copy_from(rt.alloc(), &[view, view]).expect(&rt, "made");
    let mut buffers = Vec::new(rt.alloc());
    buffers
        .push(ByteBuffer::copy_from(rt.alloc(), LETTERS[0]).expect(&rt, "made"))
        .expect(&rt, "made");
    let validity = Validity::AllInvalid;
    let array = VarBinViewArray::try_new(rt.alloc(), views, buffers, SOME_TEXTS, validity).expect(
        &rt, "made",
    );
    let moved = array.rebuffer(rt.alloc(), 1).expect(&rt, "made");
    let data = moved.to_data(rt.alloc()).expect(&rt, "made");
    assert!(rt; data.data_buffers().is_empty() && data.len() == 2);
    assert!(rt; data.views()[1] == BinaryView::empty_view());
    let validity = moved.varbinview_validity(rt.alloc()).expect(&rt, "made");
    assert!(rt; matches!(validity, Validity::AllInvalid));
}

#[test]
fn short_values_stand_in_buffers_too(rt: HostRuntime) {
    let items = [Some("tiny"), None, Some("thirteen text")];
    let array = VarBinViewArray::from_iter_nullable_str(rt.alloc(), items.iter().copied()).expect(
        &rt, "made",
    );
    let moved = array.rebuffer(rt.alloc(), 17).expect(&rt, "made");
    let data = moved.to_data(rt.alloc()).expect(&rt, "made");
    assert!(rt; data.data_buffers().len() == 1 && data.len() == 3);
    assert_eq!(rt; data.buffer(0).as_slice(), b"tinythirteen text".as_slice());
    assert!(rt; data.views()[2] == BinaryView::make_view(b"thirteen text", 0, 4));
    assert!(rt; is_value(&moved, 0, b"tiny") && is_value(&moved, 2, b"thirteen text"));
    assert!(rt; !moved.as_array().is_valid(rt.alloc(), 1).expect(&rt, "made"));
}
