// Each caller on values worked by hand.

mod appended;
mod appended_lists;
mod collected;
mod columns;
mod faulty_rows;
mod foreign_texts;
mod layouts;
mod packing;
mod picked_rows;
mod refusals;
mod repacked;
mod tables;

use std::test::Fail;
use vx_base::{BitBuffer, Buffer, ByteBuffer, Mask, Nullability, PType, Scalar, VortexError};
use vx_lists::{FixedSizeListArray, FixedSizeListArrayExt, ListViewArray};
use vx_test_help::{bools, has_numbers_or_nulls};
use vx_tree::{TypedArray, Validity};
use vx_uses::converter::lists_end_to_end;
use vx_uses::first::{column, third_list};
use vx_uses::kernel::{
    inner_page, list_of_row, ordered_page, repeated_row, rows_above, valid_count, vector_at,
};
use vx_uses::pairs::pairs;
use vx_uses::reader::{Lists, column_of_bytes, nullable_column, read_lists};
use vx_uses::texts::{are_checked_whole, text_of_row};
use vx_views::BinaryView;

#[test]
fn the_third_list_is_read(rt: HostRuntime) {
    assert_eq!(rt; third_list(rt.alloc()).expect(&rt, "made"), (3, Some(2)));
}

#[test]
fn bytes_are_numbers(rt: HostRuntime) {
    let bytes = ByteBuffer::copy_from(rt.alloc(), b"\x01\x02\xFE\xFF\x09").expect(&rt, "made");
    let column = column_of_bytes::<i16>(rt.alloc(), &bytes).expect(&rt, "made");
    assert!(rt; has_numbers_or_nulls(&column, &[Some(513), Some(-2)]));
}

#[test]
fn unset_bits_are_nulls(rt: HostRuntime) {
    let alloc = rt.alloc();
    let bits = ByteBuffer::copy_from(alloc, b"\x05").expect(&rt, "made");
    let valid = BitBuffer::new_with_offset(alloc, bits, 3, 0).expect(&rt, "made");
    let column = nullable_column(
        alloc,
        Buffer::copy_from(alloc, &[7u8, 8, 9]).expect(&rt, "made"),
        valid,
    )
    .expect(&rt, "made");
    assert!(rt;
        has_numbers_or_nulls(&column, &[Some(7), None, Some(9)]) && valid_count(&column) == 2
    );
    let short = BitBuffer::from_bools(alloc, &[true]).expect(&rt, "made");
    let refused = nullable_column(
        alloc,
        Buffer::copy_from(alloc, &[7u8, 8]).expect(&rt, "made"),
        short,
    );
    assert!(rt; matches!(refused, Err(VortexError::LengthMismatch { .. })));
}

#[test]
fn rows_above_a_bound(rt: HostRuntime) {
    let alloc = rt.alloc();
    let column = nullable_column(
        alloc,
        Buffer::copy_from(alloc, &[7i8, 8, 9, -3]).expect(&rt, "made"),
        BitBuffer::from_bools(alloc, &[true, false, true, true]).expect(&rt, "made"),
    )
    .expect(&rt, "made");
    for (bound, wanted) in [
        (7, [Some(9)].as_slice()),
        (-4, [Some(7), Some(9), Some(-3)].as_slice()),
        (9, [].as_slice()),
    ] {
        let above = rows_above(alloc, &column, bound).expect(&rt, "made");
        assert!(rt; has_numbers_or_nulls(&above, wanted));
    }
}

#[test]
fn faulty_rows_are_named(rt: HostRuntime) {
    let alloc = rt.alloc();
    let elements = column::<i32>(alloc, &[1, 2, 3]).expect(&rt, "made");
    let lists = read_lists(
        alloc,
        elements.try_clone(alloc).expect(&rt, "made"),
        column::<i8>(alloc, &[0, -1]).expect(&rt, "made"),
        column::<u8>(alloc, &[3, 0]).expect(&rt, "made"),
    );
    assert!(rt; matches!(lists, Lists::NegativeRow(1)));
    let lists = read_lists(
        alloc,
        elements,
        column::<u8>(alloc, &[0, 2]).expect(&rt, "made"),
        column::<u8>(alloc, &[3, 2]).expect(&rt, "made"),
    );
    assert!(rt; matches!(lists, Lists::EndsPast(4)));
}

#[test]
fn parts_without_a_faulty_row_are_read_or_refused(rt: HostRuntime) {
    let alloc = rt.alloc();
    let elements = column::<i32>(alloc, &[1, 2, 3]).expect(&rt, "made");
    let lists = read_lists(
        alloc,
        elements.try_clone(alloc).expect(&rt, "made"),
        column::<i8>(alloc, &[0, 1]).expect(&rt, "made"),
        column::<u8>(alloc, &[3]).expect(&rt, "made"),
    );
    assert!(rt; matches!(lists, Lists::Refused(VortexError::LengthMismatch { .. })));
    let lists = read_lists(
        alloc,
        elements,
        column::<i8>(alloc, &[0, 1]).expect(&rt, "made"),
        column::<u8>(alloc, &[3, 2]).expect(&rt, "made"),
    );
    assert!(rt; matches!(lists, Lists::Read(_)));
}

#[test]
fn pages_are_ordered(rt: HostRuntime) {
    let alloc = rt.alloc();
    let column_of_five = column::<i64>(alloc, &[10, 11, 12, 13, 14]).expect(&rt, "made");
    let order = column::<u8>(alloc, &[2, 0, 0]).expect(&rt, "made");
    let page = ordered_page(alloc, &column_of_five, 1..4, &order).expect(&rt, "made");
    assert!(rt; has_numbers_or_nulls(&page, &[Some(13), Some(11), Some(11)]));
    let past = column::<u8>(alloc, &[2, 3]).expect(&rt, "made");
    let refused = ordered_page(alloc, &column_of_five, 1..4, &past);
    assert!(rt; matches!(refused, Err(VortexError::OutOfBounds { index: 3, len: 3 })));
    let page = inner_page(alloc, &column_of_five, 1..4, 1..3).expect(&rt, "made");
    assert!(rt; has_numbers_or_nulls(&page, &[Some(12), Some(13)]));
    let refused = inner_page(alloc, &column_of_five, 1..4, 1..4);
    assert!(rt; matches!(refused, Err(VortexError::OutOfBounds { index: 4, len: 3 })));
}

#[test]
fn rows_repeat(rt: HostRuntime) {
    let seven = Scalar::int(7, PType::U8, Nullability::NonNullable);
    let column = repeated_row(rt.alloc(), seven, 3).expect(&rt, "made");
    assert!(rt; has_numbers_or_nulls(&column, &[Some(7), Some(7), Some(7)]));
}

#[test]
fn vectors_are_parts_of_their_column(rt: HostRuntime) {
    let alloc = rt.alloc();
    let numbers = column::<i32>(alloc, &[1, 2, 3, 4, 5, 6]).expect(&rt, "made");
    assert!(rt;
        has_numbers_or_nulls(
            &vector_at(alloc, numbers.try_clone(alloc).expect(&rt, "made"), 3, 2, 1).expect(
                &rt, "made"
            ),
            &[Some(4), Some(5), Some(6)]
        )
    );
    let refused = vector_at(alloc, numbers, 4, 2, 0);
    assert!(rt; matches!(refused, Err(VortexError::LengthMismatch { .. })));
}

#[test]
fn rows_two_by_two_are_pairs(rt: HostRuntime) -> Result<(), Fail> {
    let alloc = rt.alloc();
    let points = pairs(alloc, column::<i32>(alloc, &[1, 2, 3, 4])?)?;
    let Ok(points) = FixedSizeListArray::try_from_array(points) else {
        panic!(rt; "no lists of one size");
    };
    assert!(rt; points.len() == 2);
    let last = points.fixed_size_list_elements_at(alloc, 1)?;
    assert!(rt; has_numbers_or_nulls(&last, &[Some(3), Some(4)]));
    Ok(())
}

#[test]
fn rows_of_lists_are_their_elements(rt: HostRuntime) {
    let alloc = rt.alloc();
    let elements = column::<i32>(alloc, &[1, 2, 3]).expect(&rt, "made");
    let offsets = column::<u8>(alloc, &[1, 0]).expect(&rt, "made");
    let sizes = column::<u8>(alloc, &[2, 3]).expect(&rt, "made");
    let valid = bools(alloc, &[true, false]).expect(&rt, "made");
    let lists = ListViewArray::try_new(
        alloc,
        elements,
        offsets,
        sizes,
        Validity::Array(valid),
    ).expect(&rt, "made");
    assert!(rt; lists.len() == 2);
    let Some(first) = list_of_row(alloc, &lists, 0).expect(&rt, "made") else {
        panic!(rt; "null");
    };
    assert!(rt; has_numbers_or_nulls(&first, &[Some(2), Some(3)]));
    assert!(rt; list_of_row(alloc, &lists, 1).expect(&rt, "made").is_none());
}

#[test]
fn lists_lie_end_to_end(rt: HostRuntime) {
    let alloc = rt.alloc();
    let elements = column::<i32>(alloc, &[1, 2, 3, 4]).expect(&rt, "made");
    let offsets = column::<u32>(alloc, &[2, 0, 1]).expect(&rt, "made");
    let sizes = column::<u32>(alloc, &[2, 1, 2]).expect(&rt, "made");
    let lists = ListViewArray::try_new(
        alloc,
        elements,
        offsets,
        sizes,
        Validity::NonNullable,
    ).expect(&rt, "made");
    let stored = lists_end_to_end(alloc, &lists).expect(&rt, "made");
    assert!(rt; stored.offsets.as_slice() == [0, 2, 3, 5].as_slice());
    let elements = [Some(3), Some(4), Some(1), Some(2), Some(3)];
    assert!(rt; has_numbers_or_nulls(&stored.elements, &elements));
}

#[test]
fn texts_are_read_once_checked(rt: HostRuntime) -> Result<(), Fail> {
    let alloc = rt.alloc();
    let buffers = [ByteBuffer::copy_from(alloc, b"..a longer text.")?];
    let views = [
        BinaryView::make_view(b"abc", 0, 0),
        BinaryView::make_view(b"a longer text", 0, 2),
    ];
    let mask = Mask::new_true(2);
    let text = text_of_row(alloc, &views, &mask, &buffers, 1)?;
    assert!(rt; text == Some(b"a longer text".as_slice()));
    let refused = text_of_row(alloc, &views, &mask, &[], 0);
    assert!(rt; refused == Err(VortexError::BadBuffer { row: 1 }));
    Ok(())
}

#[test]
fn a_budget_for_the_buffer_leaves_no_view(rt: HostRuntime) -> Result<(), Fail> {
    let alloc = rt.alloc();
    let bytes = b"aaaaaaaaaaaa\xC3\xA9bbbbbbbbbbbbb";
    let buffers = [ByteBuffer::copy_from(alloc, bytes)?];
    let views = [BinaryView::make_view(&bytes[..14], 0, 0)];
    let mask = Mask::new_true(1);
    assert_eq!(rt;
        are_checked_whole(alloc, &views, &mask, &buffers, 27),
        Ok(true)
    );
    assert_eq!(rt;
        are_checked_whole(alloc, &views, &mask, &buffers, 26),
        Ok(false)
    );
    let refused = are_checked_whole(alloc, &views, &mask, &[], 27);
    assert!(rt; refused == Err(VortexError::BadBuffer { row: 0 }));
    Ok(())
}
