// Rows that made foreign parts be refused.

use std::test::Fail;
use vx_base::VortexError;
use vx_leaves::DictArray;
use vx_test_help::ints;
use vx_tree::ArrayRef;
use vx_uses::collected::numbers_or_nulls;
use vx_uses::faulty_rows::{row_of_refused_code, row_of_refused_list};
use vx_uses::first::column;
use vx_uses::reader::{Lists, read_lists};

// The row of a code, none of a column of no integers.
fn row_of(codes: &ArrayRef, code: usize) -> Option<usize> {
    if !codes.dtype().is_int() {
        return None;
    }
    row_of_refused_code(codes, code)
}

#[test]
fn a_refused_code_has_its_row(rt: HostRuntime) -> Result<(), Fail> {
    let alloc = rt.alloc();
    let codes = numbers_or_nulls::<u8>(alloc, &[Some(0), None, Some(5), Some(9), Some(5)])?;
    let values = ints::<u8>(alloc, &[1, 2, 3])?;
    let refused = DictArray::try_new(alloc, codes.try_clone(alloc)?, values);
    assert!(rt; matches!(refused, Err(VortexError::OutOfBounds { index: 5, .. })));
    assert!(rt; row_of(&codes, 5) == Some(2));
    assert!(rt; row_of(&codes, 7) == None);
    Ok(())
}

// The row of a list that ends there, none of columns of other data types or lengths.
fn row_ending_at(offsets: &ArrayRef, sizes: &ArrayRef, end: usize) -> Option<usize> {
    if !offsets.dtype().is_plain_int() || !sizes.dtype().is_plain_int() {
        return None;
    }
    if sizes.len() != offsets.len() {
        return None;
    }
    row_of_refused_list(offsets, sizes, end)
}

#[test]
fn a_refused_list_has_its_row(rt: HostRuntime) -> Result<(), Fail> {
    let alloc = rt.alloc();
    let offsets = column::<i8>(alloc, &[0, 2, 1, 2])?;
    let sizes = column::<u8>(alloc, &[3, 1, 3, 2])?;
    let lists = read_lists(
        alloc,
        column::<i32>(alloc, &[1, 2, 3])?,
        offsets.try_clone(alloc)?,
        sizes.try_clone(alloc)?,
    );
    assert!(rt; matches!(lists, Lists::EndsPast(4)));
    assert!(rt; row_ending_at(&offsets, &sizes, 4) == Some(2));
    assert!(rt; row_ending_at(&offsets, &sizes, 7) == None);
    Ok(())
}
