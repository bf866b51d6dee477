// Columns that are packed once rows are picked, and columns that are stored once.

use std::alloc::Global;
use std::test::Fail;
use vx_base::{BitBuffer, Mask, VortexError};
use vx_leaves::DictArray;
use vx_structs::StructArray;
use vx_test_help::ints;
use vx_test_help::samples::lists;
use vx_text::VarBinViewArray;
use vx_tree::{ArrayRef, Layout, TypedArray};
use vx_uses::collected::numbers_or_nulls;
use vx_uses::packing::{kept_table, packed_page, place_of_rows, stored_once};

// The table of `{a:5,b:"aaaaaaaaaaaaa"}`, `{a:6,b:"bbbbbbbbbbbbb"}`, `{a:7,b:"ccccccccccccc"}`.
fn three_rows(alloc: Global) -> Result<ArrayRef, VortexError> {
    let values = ["aaaaaaaaaaaaa", "bbbbbbbbbbbbb", "ccccccccccccc"];
    let texts = VarBinViewArray::from_iter_str(alloc, values.iter().copied())?;
    let first = ("a", ints::<u8>(alloc, &[5, 6, 7])?);
    let second = ("b", texts.into_array());
    Ok(StructArray::from_fields(alloc, &[first, second])?.into_array())
}

// These rows of a table.
fn kept(alloc: Global, table: &ArrayRef, rows: &[bool]) -> Result<ArrayRef, VortexError> {
    let mask = Mask::from_buffer(alloc, BitBuffer::from_bools(alloc, rows)?)?;
    kept_table(alloc, table, &mask)
}

// The bytes of plain numbers, or of the only buffer of texts.
fn has_bytes(column: &ArrayRef, wanted: &[u8]) -> bool {
    match column.layout() {
        Layout::Primitive { bytes, .. } => bytes.as_slice() == wanted,
        Layout::VarBinView { buffers, .. } => {
            matches!(buffers.as_slice(), [only] if only.as_slice() == wanted)
        }
        _ => false,
    }
}

// Whether these are records of two columns with these bytes.
fn has_columns(table: &ArrayRef, first: &[u8], second: &[u8]) -> bool {
    match table.layout() {
        Layout::Struct { columns, .. } => {
            matches!(columns.as_slice(), [a, b] if has_bytes(a, first) && has_bytes(b, second))
        }
        _ => false,
    }
}

#[test]
fn kept_rows_leave_nothing_of_the_others(rt: HostRuntime) -> Result<(), Fail> {
    let alloc = rt.alloc();
    let table = kept(alloc, &three_rows(alloc)?, &[true, false, true])?;
    assert!(rt; has_columns(&table, &[5, 7], b"aaaaaaaaaaaaaccccccccccccc"));
    let refused = kept(alloc, &three_rows(alloc)?, &[true, false]);
    assert!(rt; matches!(refused, Err(VortexError::LengthMismatch { .. })));
    Ok(())
}

// Whether these are flagged lists with these parts, as bytes.
fn has_lists(array: &ArrayRef, items: &[u8], starts: &[u8], counts: &[u8]) -> bool {
    match array.layout() {
        Layout::ListView {
            elements,
            offsets,
            sizes,
            flag,
            ..
        } => {
            *flag
                && has_bytes(elements, items)
                && has_bytes(offsets, starts)
                && has_bytes(sizes, counts)
        }
        _ => false,
    }
}

#[test]
fn a_page_has_its_own_elements_alone(rt: HostRuntime) -> Result<(), Fail> {
    let alloc = rt.alloc();
    let page = packed_page(alloc, &lists(alloc)?, 1..3)?;
    assert!(rt;
        has_lists(
            &page,
            &[1, 2, 3],
            &[0, 0, 0, 0, 1, 0, 0, 0],
            &[1, 0, 0, 0, 2, 0, 0, 0]
        )
    );
    let refused = packed_page(alloc, &lists(alloc)?, 2..4);
    assert!(rt; matches!(refused, Err(VortexError::OutOfBounds { index: 4, .. })));
    let (start, end) = (2, 1);
    let refused = packed_page(alloc, &lists(alloc)?, start..end);
    assert!(rt; matches!(refused, Err(VortexError::OutOfBounds { index: 2, .. })));
    Ok(())
}

// The numbers 6, 5, 6 by their codes.
fn coded(alloc: Global) -> Result<ArrayRef, VortexError> {
    let codes = ints::<u8>(alloc, &[1, 0, 1])?;
    Ok(DictArray::try_new(alloc, codes, ints::<u16>(alloc, &[5, 6])?)?.into_array())
}

// The numbers 6, 5, 6 by codes, plain, of another type and nullable; and 5, 6, 6.
fn columns(alloc: Global) -> Result<Vec<ArrayRef>, VortexError> {
    let columns = vec![in alloc;
        coded(alloc)?,
        ints::<u16>(alloc, &[6, 5, 6])?,
        ints::<u32>(alloc, &[6, 5, 6])?,
        numbers_or_nulls::<u16>(alloc, &[Some(6), Some(5), Some(6)])?,
        ints::<u16>(alloc, &[5, 6, 6])?,
    ]?;
    Ok(columns)
}

#[test]
fn equal_columns_are_stored_once(rt: HostRuntime) -> Result<(), Fail> {
    let alloc = rt.alloc();
    let mut stored = Vec::new(alloc);
    for (column, wanted) in columns(alloc)?.iter().zip([0, 0, 1, 2, 3].iter()) {
        assert_eq!(rt; stored_once(alloc, &mut stored, column)?, *wanted);
    }
    assert!(rt; stored.len() == 4);
    assert!(rt; has_bytes(&stored[0], &[6, 0, 5, 0, 6, 0]));
    assert_eq!(rt; place_of_rows(&stored, &coded(alloc)?), Some(0));
    assert_eq!(rt; place_of_rows(&stored, &ints::<u16>(alloc, &[5, 6])?), None);
    Ok(())
}
