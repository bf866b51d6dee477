// Arrays of the texts and byte lists that iterators give.

use super::{BYTE_LISTS, SOME_TEXTS, TEXTS, is_value};
use vx_base::{DType, Nullability, PType, VortexError};
use vx_text::{VarBinViewArray, VarBinViewArrayExt, VarBinViewData};
use vx_tree::{TypedArray, Validity};
use vx_views::BinaryView;

// Twenty-nine bytes, and twenty-three.
const LONG: &str = "this value is definitely long";

const ALSO: &str = "and so is this one here";

#[test]
fn three_texts(rt: HostRuntime) {
    let texts = [LONG, "tiny", ALSO];
    let items = texts.iter().copied();
    let array = VarBinViewArray::from_iter_str(rt.alloc(), items).expect(&rt, "made");
    assert!(rt; is_value(&array, 1, b"tiny") && is_value(&array, 2, ALSO.as_bytes()));
    let data = array.to_data(rt.alloc()).expect(&rt, "made");
    assert!(rt; data.data_buffers().len() == 1);
    assert!(rt; data.views().len() == 3);
    assert_eq!(rt; data.buffer(0).len(), 52);
    assert!(rt; data.views()[2] == BinaryView::make_view(ALSO.as_bytes(), 0, 29));
}

#[test]
fn values_that_are_missing(rt: HostRuntime) {
    let items = [Some(LONG), None, Some("hi")];
    let array = VarBinViewArray::from_iter_nullable_str(rt.alloc(), items.iter().copied()).expect(
        &rt, "made",
    );
    assert!(rt; is_value(&array, 0, LONG.as_bytes()) && is_value(&array, 2, b"hi"));
    assert!(rt; !array.as_array().is_valid(rt.alloc(), 1).expect(&rt, "made"));
    assert!(rt; array.dtype_parts() == (true, Nullability::Nullable));
}

#[test]
fn byte_lists_of_iterators(rt: HostRuntime) {
    let items = [b"\xFF".as_slice(), LONG.as_bytes()];
    let data = VarBinViewData::from_iter_bin(rt.alloc(), items.iter().copied()).expect(&rt, "made");
    assert!(rt; data.len() == 2);
    assert_eq!(rt;
        data.bytes_at(rt.alloc(), 0).expect(&rt, "made").as_slice(),
        b"\xFF".as_slice()
    );
    assert_eq!(rt;
        data.bytes_at(rt.alloc(), 1).expect(&rt, "made").as_slice(),
        LONG.as_bytes()
    );
    let none = [None, None];
    let array = VarBinViewArray::from_iter_nullable_bin(rt.alloc(), none.iter().copied()).expect(
        &rt, "made",
    );
    let validity = array.varbinview_validity(rt.alloc()).expect(&rt, "made");
    assert!(rt; matches!(validity, Validity::AllInvalid));
}

#[test]
fn nulls_are_refused(rt: HostRuntime) {
    let items = [Some(b"hi".as_slice()), None];
    let made = VarBinViewArray::from_iter(rt.alloc(), items.iter().copied(), TEXTS);
    assert!(rt; matches!(made, Err(VortexError::HasNulls)));
}

#[test]
fn items_that_are_no_text(rt: HostRuntime) {
    let items = [Some(b"\xFF".as_slice())];
    let made = VarBinViewArray::from_iter(rt.alloc(), items.iter().copied(), SOME_TEXTS);
    assert!(rt; matches!(made, Err(VortexError::NotUtf8 { row: 0 })));
    let array = VarBinViewArray::from_iter(rt.alloc(), items.iter().copied(), BYTE_LISTS).expect(
        &rt, "made",
    );
    assert!(rt; is_value(&array, 0, b"\xFF"));
}

#[test]
fn items_of_another_data_type(rt: HostRuntime) {
    let numbers = DType::Primitive(PType::U8, Nullability::NonNullable);
    let items = [Some(b"\xFF".as_slice())];
    let made = VarBinViewArray::from_iter(rt.alloc(), items.iter().copied(), numbers);
    assert!(rt; matches!(made, Err(VortexError::MismatchedTypes)));
}

#[test]
fn no_items(rt: HostRuntime) {
    let none: [Option<&str>; 0] = [];
    let data = VarBinViewData::from_iter_nullable_str(rt.alloc(), none.iter().copied()).expect(
        &rt, "made",
    );
    assert!(rt; data.is_empty() && data.data_buffers().is_empty());
}
