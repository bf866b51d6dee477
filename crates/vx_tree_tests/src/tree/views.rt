// Texts by their views.

use vx_test_help::rows::{is_null, is_text};
use vx_test_help::samples::{LONG, indices, texts};
use vx_tree::Layout;

#[test]
fn text_bytes(rt: HostRuntime) {
    let array = texts(rt.alloc()).expect(&rt, "made");
    assert!(rt; array.bytes_at(0) == Some(b"hi".as_slice()) && array.bytes_at(1).is_none());
    assert!(rt; array.bytes_at(2) == Some(b"\xC3\xA9".as_slice()));
    assert!(rt; array.bytes_at(3) == Some(LONG));
}

#[test]
fn slice_of_texts(rt: HostRuntime) {
    let array = texts(rt.alloc())
        .expect(&rt, "made")
        .slice(rt.alloc(), 1..4)
        .expect(&rt, "made");
    assert!(rt; array.len() == 3 && is_null(rt.alloc(), &array, 0).expect(&rt, "made"));
    assert!(rt; is_text(rt.alloc(), &array, 1, b"\xC3\xA9").expect(&rt, "made"));
    assert!(rt; is_text(rt.alloc(), &array, 2, LONG).expect(&rt, "made"));
}

#[test]
fn texts_taken_by_indices_with_null(rt: HostRuntime) {
    let array = texts(rt.alloc())
        .expect(&rt, "made")
        .slice(rt.alloc(), 1..4)
        .expect(&rt, "made");
    let array = array
        .take(rt.alloc(), &indices(rt.alloc()).expect(&rt, "made"))
        .expect(&rt, "made");
    assert!(rt; is_text(rt.alloc(), &array, 0, LONG).expect(&rt, "made"));
    assert!(rt;
        is_null(rt.alloc(), &array, 1).expect(&rt, "made")
            && is_null(rt.alloc(), &array, 2).expect(&rt, "made")
    );
    let views = match array.layout() {
        Layout::VarBinView { views, buffers, .. } if buffers.len() == 1 => views.as_slice(),
        _ => &[],
    };
    assert!(rt; views.len() == 3);
    assert!(rt; views[1].as_u128() == 0 && views[2].as_u128() == 0);
}
