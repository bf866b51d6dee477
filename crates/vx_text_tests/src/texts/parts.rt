// What arrays of texts tell of their parts.

use super::{SOME_TEXTS, TEXTS, one_view};
use vx_base::{Buffer, DType, Nullability, VortexError};
use vx_text::{VarBinViewArray, VarBinViewArrayExt, VarBinViewData};
use vx_tree::{TypedArray, Validity};
use vx_views::BinaryView;

// Twenty-nine bytes.
const LONG: &[u8] = b"this value is definitely long";

#[test]
fn data_of_texts(rt: HostRuntime) {
    let view = BinaryView::make_view(LONG, 0, 0);
    let array = one_view(rt.alloc(), view, LONG, SOME_TEXTS, Validity::AllValid).expect(
        &rt, "made",
    );
    let data = array
        .to_data(rt.alloc())
        .expect(&rt, "made")
        .try_clone(rt.alloc())
        .expect(&rt, "made");
    assert!(rt; data.len() == 1 && !data.is_empty());
    assert_eq!(rt;
        data.bytes_at(rt.alloc(), 0).expect(&rt, "made").as_slice(),
        LONG
    );
    assert!(rt; data.data_buffers().len() == 1);
    assert_eq!(rt; data.buffer(0).as_slice(), LONG);
    let shown = format!(in rt.alloc(); "{data}").expect(&rt, "made");
    assert_eq!(rt; shown.as_str(), "");
}

#[test]
fn short_values_are_copied(rt: HostRuntime) {
    let views = Buffer::copy_from(rt.alloc(), &[BinaryView::new_inlined(b"ab")]).expect(
        &rt, "made",
    );
    let none = Vec::new(rt.alloc());
    let data = VarBinViewData::try_new(
        rt.alloc(),
        views,
        none,
        TEXTS,
        Validity::NonNullable,
    ).expect(&rt, "made");
    assert_eq!(rt;
        data.bytes_at(rt.alloc(), 0).expect(&rt, "made").as_slice(),
        b"ab".as_slice()
    );
    let shown = format!(in rt.alloc(); "{data:?}").expect(&rt, "made");
    assert!(rt; shown.as_str().starts_with("VarBinViewData"));
}

#[test]
fn data_types_and_validities(rt: HostRuntime) {
    let view = BinaryView::make_view(LONG, 0, 0);
    let array = one_view(rt.alloc(), view, LONG, SOME_TEXTS, Validity::AllInvalid).expect(
        &rt, "made",
    );
    assert!(rt; array.dtype_parts() == (true, Nullability::Nullable));
    let validity = array.varbinview_validity(rt.alloc()).expect(&rt, "made");
    assert!(rt; matches!(validity, Validity::AllInvalid));
    let slots = array.slots(rt.alloc()).expect(&rt, "made");
    assert!(rt; slots.validity.is_some());
    let parts = array.into_data_parts(rt.alloc()).expect(&rt, "made");
    assert!(rt; matches!(parts.dtype, DType::Utf8(Nullability::Nullable)));
    assert!(rt; parts.views.len() == 1);
    assert_eq!(rt; parts.views.value(0).as_u128(), 0);
}

#[test]
fn arrays_go_both_ways(rt: HostRuntime) {
    let view = BinaryView::make_view(b"hi", 0, 0);
    let array = one_view(rt.alloc(), view, b"", TEXTS, Validity::NonNullable).expect(&rt, "made");
    assert!(rt; array.len() == 1 && !array.is_empty());
    let Ok(array) = VarBinViewArray::try_from_array(array.into_array()) else {
        panic!(rt; "another layout");
    };
    assert_eq!(rt; array.as_array().bytes_at(0), Some(b"hi".as_slice()));
}
