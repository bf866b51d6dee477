// Texts of foreign views, accepted and read, or refused.

use std::alloc::Global;
use vx_base::{Buffer, ByteBuffer, DType, VortexError};
use vx_test_help::bools;
use vx_text::VarBinViewArray;
use vx_tree::{TypedArray, Validity};
use vx_uses::foreign_texts::{foreign_texts, text_at};
use vx_views::BinaryView;

// Whether a text is there, and is this one.
fn is_text(found: &Option<String>, wanted: &str) -> bool {
    match found {
        Some(text) => text.as_str() == wanted,
        None => false,
    }
}

// The texts of these views over the 16 bytes `..a longer text.`, none of them null.
fn read(alloc: Global, views: &[BinaryView]) -> Result<Vec<Option<String>>, VortexError> {
    let views = Buffer::copy_from(alloc, views)?;
    let buffers = [ByteBuffer::copy_from(alloc, b"..a longer text.")?];
    foreign_texts(alloc, &views, &buffers, &Validity::NonNullable)
}

#[test]
fn foreign_views_are_read(rt: HostRuntime) {
    let alloc = rt.alloc();
    let short = BinaryView::new_inlined(b"abc");
    let long = BinaryView::new_ref(13, *b"a lo", 0, 2);
    let anything = BinaryView::new_ref(99, *b"????", 7, 5);
    let views = Buffer::copy_from(alloc, &[short, long, anything]).expect(&rt, "made");
    let buffers = [ByteBuffer::copy_from(alloc, b"..a longer text.").expect(&rt, "made")];
    let validity = Validity::Array(bools(alloc, &[true, true, false]).expect(&rt, "made"));
    let texts = foreign_texts(alloc, &views, &buffers, &validity).expect(&rt, "made");
    assert!(rt; texts.len() == 3 && texts[2].is_none());
    assert!(rt; is_text(&texts[0], "abc") && is_text(&texts[1], "a longer text"));
    assert!(rt; views.value(2) == anything);
    assert!(rt; buffers[0].as_slice() == b"..a longer text.".as_slice());
    let short_by_one = Validity::Array(bools(alloc, &[true, true]).expect(&rt, "made"));
    let refused = foreign_texts(alloc, &views, &buffers, &short_by_one);
    assert!(rt; matches!(refused, Err(VortexError::LengthMismatch { .. })));
}

#[test]
fn foreign_views_are_refused(rt: HostRuntime) {
    let alloc = rt.alloc();
    let short = BinaryView::new_inlined(b"abc");
    let refused = read(alloc, &[short, BinaryView::new_ref(13, *b"a lo", 1, 2)]);
    assert!(rt; matches!(refused, Err(VortexError::BadBuffer { row: 1 })));
    let refused = read(alloc, &[short, BinaryView::new_ref(13, *b"a lo", 0, 16)]);
    assert!(rt; matches!(refused, Err(VortexError::BadStart { row: 1 })));
    let refused = read(alloc, &[short, BinaryView::new_ref(13, *b"long", 0, 4)]);
    assert!(rt; matches!(refused, Err(VortexError::BadEnd { row: 1 })));
    let refused = read(alloc, &[short, BinaryView::new_ref(13, *b"a lo", 0, 3)]);
    assert!(rt; matches!(refused, Err(VortexError::BadPrefix { row: 1 })));
    let refused = read(alloc, &[BinaryView::new_inlined(b"\xFF"), short]);
    assert!(rt; matches!(refused, Err(VortexError::NotUtf8 { row: 0 })));
}

// The text of a row, where the column has texts and so many rows.
fn text_of(column: &VarBinViewArray, row: usize) -> Option<&str> {
    match column.dtype() {
        DType::Utf8(_) => {
            if row < column.len() {
                text_at(column, row)
            } else {
                None
            }
        }
        _ => None,
    }
}

#[test]
fn texts_are_lent(rt: HostRuntime) {
    let items = [Some("abc"), None, Some("a longer text")];
    let column = VarBinViewArray::from_iter_nullable_str(rt.alloc(), items.iter().copied()).expect(
        &rt, "made",
    );
    for (row, text) in items.iter().enumerate() {
        assert!(rt; text_of(&column, row) == *text);
    }
}
