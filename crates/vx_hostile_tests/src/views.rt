// Views that lead nowhere, that lie about their values, and whose padding is no zeros.

use std::alloc::Global;
use std::test::Fail;
use vx_base::{Buffer, ByteBuffer, DType, Nullability, VortexError};
use vx_text::{VarBinViewArray, VarBinViewData};
use vx_tree::{TypedArray, Validity};
use vx_views::BinaryView;

// Texts of which none may be null.
const TEXTS: DType = DType::Utf8(Nullability::NonNullable);

// The thirteen bytes of the one buffer.
const LETTERS: &[u8] = b"abcdefghijklm";

// How `validate` and `try_new` both refuse the text of this view over the letters; none where they
// differ.
fn fault_of(alloc: Global, view: BinaryView) -> Result<Option<VortexError>, VortexError> {
    let views = Buffer::copy_from(alloc, &[view])?;
    let buffers = vec![in alloc; ByteBuffer::copy_from(alloc, LETTERS)?]?;
    let valid = Validity::NonNullable;
    let told = VarBinViewData::validate(alloc, views.as_slice(), &buffers, &TEXTS, &valid).err();
    let fault = VarBinViewArray::try_new(alloc, views, buffers, TEXTS, valid).err();
    Ok(if told == fault { fault } else { None })
}

#[test]
fn a_prefix_of_another_text(rt: HostRuntime) {
    let view = BinaryView::new_ref(13, *b"abcX", 0, 0);
    let fault = fault_of(rt.alloc(), view).expect(&rt, "made");
    assert_eq!(rt; fault, Some(VortexError::BadPrefix { row: 0 }));
}

#[test]
fn places_outside_the_buffer(rt: HostRuntime) {
    for (buffer, offset, fault) in [
        (0, 1, VortexError::BadEnd { row: 0 }),
        (0, 13, VortexError::BadStart { row: 0 }),
        (1, 0, VortexError::BadBuffer { row: 0 }),
    ] {
        let view = BinaryView::new_ref(13, *b"abcd", buffer, offset);
        assert_eq!(rt; fault_of(rt.alloc(), view).expect(&rt, "made"), Some(fault));
    }
}

// The text of a view into the tenth buffer, where there is none.
fn lost(alloc: Global, dtype: DType, validity: Validity) -> Result<VarBinViewArray, VortexError> {
    let view = BinaryView::new_ref(13, *b"abcd", 9, 0);
    let views = Buffer::copy_from(alloc, &[view])?;
    VarBinViewArray::try_new(alloc, views, Vec::new(alloc), dtype, validity)
}

#[test]
fn a_null_view_into_no_buffer(rt: HostRuntime) {
    let texts = DType::Utf8(Nullability::Nullable);
    let data = lost(rt.alloc(), texts, Validity::AllInvalid)
        .expect(&rt, "made")
        .to_data(rt.alloc())
        .expect(&rt, "made");
    assert!(rt; data.len() == 1 && data.data_buffers().is_empty());
    assert_eq!(rt; data.views()[0].as_u128(), 0);
}

#[test]
fn a_valid_view_into_no_buffer(rt: HostRuntime) {
    let fault = lost(rt.alloc(), TEXTS, Validity::NonNullable).err();
    assert_eq!(rt; fault, Some(VortexError::BadBuffer { row: 0 }));
    let texts = DType::Utf8(Nullability::Nullable);
    let fault = lost(rt.alloc(), texts, Validity::AllValid).err();
    assert_eq!(rt; fault, Some(VortexError::BadBuffer { row: 0 }));
}

#[test]
fn padding_that_is_no_zeros(rt: HostRuntime) {
    let view = BinaryView::from(0x00ff626100000002);
    let views = Buffer::copy_from(rt.alloc(), &[view]).expect(&rt, "made");
    let valid = Validity::NonNullable;
    let array = VarBinViewArray::try_new(
        rt.alloc(),
        views,
        Vec::new(rt.alloc()),
        TEXTS,
        valid,
    ).expect(&rt, "made");
    assert_eq!(rt; array.as_array().bytes_at(0), Some(b"ab".as_slice()));
    let data = array.to_data(rt.alloc()).expect(&rt, "made");
    assert!(rt; data.len() == 1 && data.views()[0] != BinaryView::make_view(b"ab", 0, 0));
}
