// Texts and byte lists, as arrays and as their data.

use std::test::Fail;
use vx_base::{DType, Nullability};
use vx_test_help::Boasting;
use vx_text::{VarBinViewArray, VarBinViewData};
use vx_tree::TypedArray;

// Byte lists of which some may be null.
const SOME_BYTES: DType = DType::Binary(Nullability::Nullable);

// Fifteen bytes.
const LONG: &str = "fifteen letters";

// Whether there are three rows, of which the second has fifteen bytes and the last is `end`.
fn are_three(array: &VarBinViewArray) -> bool {
    if array.len() != 3 {
        return false;
    }
    let long = array.as_array().bytes_at(1);
    let end = array.as_array().bytes_at(2);
    long == Some(LONG.as_bytes()) && end == Some(b"end".as_slice())
}

// The same of data.
fn has_three(data: &VarBinViewData) -> bool {
    data.len() == 3 && data.views()[1].len() == 15 && data.views()[2].len() == 3
}

#[test]
fn texts(rt: HostRuntime) {
    let texts = ["a", LONG, "end"];
    let items = Boasting {
        items: texts.iter().copied(),
    };
    assert!(rt; are_three(&VarBinViewArray::from_iter_str(rt.alloc(), items).expect(&rt, "made")));
    let items = Boasting {
        items: texts.iter().copied(),
    };
    assert!(rt; has_three(&VarBinViewData::from_iter_str(rt.alloc(), items).expect(&rt, "made")));
}

#[test]
fn texts_that_may_be_none(rt: HostRuntime) {
    let texts = [None, Some(LONG), Some("end")];
    let items = Boasting {
        items: texts.iter().copied(),
    };
    assert!(rt;
        are_three(&VarBinViewArray::from_iter_nullable_str(rt.alloc(), items).expect(&rt, "made"))
    );
    let items = Boasting {
        items: texts.iter().copied(),
    };
    assert!(rt;
        has_three(&VarBinViewData::from_iter_nullable_str(rt.alloc(), items).expect(&rt, "made"))
    );
}

#[test]
fn byte_lists(rt: HostRuntime) {
    let bytes = [b"\xFF".as_slice(), LONG.as_bytes(), b"end".as_slice()];
    let items = Boasting {
        items: bytes.iter().copied(),
    };
    assert!(rt; are_three(&VarBinViewArray::from_iter_bin(rt.alloc(), items).expect(&rt, "made")));
    let items = Boasting {
        items: bytes.iter().copied(),
    };
    assert!(rt; has_three(&VarBinViewData::from_iter_bin(rt.alloc(), items).expect(&rt, "made")));
}

#[test]
fn byte_lists_that_may_be_none(rt: HostRuntime) {
    let bytes = [None, Some(LONG.as_bytes()), Some(b"end".as_slice())];
    let items = Boasting {
        items: bytes.iter().copied(),
    };
    assert!(rt;
        are_three(&VarBinViewArray::from_iter_nullable_bin(rt.alloc(), items).expect(&rt, "made"))
    );
    let items = Boasting {
        items: bytes.iter().copied(),
    };
    assert!(rt;
        has_three(&VarBinViewData::from_iter_nullable_bin(rt.alloc(), items).expect(&rt, "made"))
    );
}

#[test]
fn items_of_a_data_type(rt: HostRuntime) {
    let bytes = [None, Some(LONG.as_bytes()), Some(b"end".as_slice())];
    let items = Boasting {
        items: bytes.iter().copied(),
    };
    assert!(rt;
        are_three(&VarBinViewArray::from_iter(rt.alloc(), items, SOME_BYTES).expect(&rt, "made"))
    );
    let items = Boasting {
        items: bytes.iter().copied(),
    };
    assert!(rt;
        has_three(&VarBinViewData::from_iter(rt.alloc(), items, SOME_BYTES).expect(&rt, "made"))
    );
}
