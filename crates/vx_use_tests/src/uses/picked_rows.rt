// Rows that are picked by positions, runs and masks.

use std::alloc::Global;
use std::test::Fail;
use vx_base::VortexError;
use vx_test_help::samples::dictionary;
use vx_test_help::{has_numbers_or_nulls, ints};
use vx_tree::ArrayRef;
use vx_uses::collected::numbers_or_nulls;
use vx_uses::picked_rows::{reversed, row_everywhere, rows_of_pages, without_rows};

#[test]
fn rows_are_reversed(rt: HostRuntime) -> Result<(), Fail> {
    let alloc = rt.alloc();
    let column = numbers_or_nulls::<u8>(alloc, &[Some(5), None, Some(7)])?;
    let last_first = reversed(alloc, &column)?;
    assert!(rt; has_numbers_or_nulls(&last_first, &[Some(7), None, Some(5)]));
    let none = reversed(alloc, &ints::<u8>(alloc, &[])?)?;
    assert!(rt; none.is_empty());
    let last_first = reversed(alloc, &dictionary(alloc)?)?;
    assert!(rt; has_numbers_or_nulls(&last_first, &[Some(6), None, Some(9), None, None]));
    Ok(())
}

// The numbers 5, 6, 7, 8 without the rows from a place up to another, which are there.
fn without(alloc: Global, start: usize, end: usize) -> Result<ArrayRef, VortexError> {
    let column = ints::<u8>(alloc, &[5, 6, 7, 8])?;
    if start > end || end > column.len() {
        return Err(VortexError::EmptyInput);
    }
    without_rows(alloc, &column, start..end)
}

#[test]
fn rows_around_a_gap_are_left(rt: HostRuntime) -> Result<(), Fail> {
    let alloc = rt.alloc();
    for (start, end, wanted) in [
        (1, 3, [Some(5), Some(8)].as_slice()),
        (0, 4, [].as_slice()),
        (2, 2, [Some(5), Some(6), Some(7), Some(8)].as_slice()),
    ] {
        assert!(rt; has_numbers_or_nulls(&without(alloc, start, end)?, wanted));
    }
    Ok(())
}

// Two pages of a column of four rows.
fn two_pages(alloc: Global, column: &ArrayRef) -> Result<ArrayRef, VortexError> {
    if column.len() != 4 {
        return Err(VortexError::EmptyInput);
    }
    rows_of_pages(alloc, column, vec![in alloc; (0, 1), (2, 4)]?)
}

#[test]
fn pages_are_read(rt: HostRuntime) -> Result<(), Fail> {
    let alloc = rt.alloc();
    let pages = two_pages(alloc, &ints::<u8>(alloc, &[5, 6, 7, 8])?)?;
    assert!(rt; has_numbers_or_nulls(&pages, &[Some(5), Some(7), Some(8)]));
    Ok(())
}

#[test]
fn a_row_is_everywhere(rt: HostRuntime) -> Result<(), Fail> {
    let alloc = rt.alloc();
    let repeated = row_everywhere(alloc, &dictionary(alloc)?, 2, 3)?;
    assert!(rt; has_numbers_or_nulls(&repeated, &[Some(9), Some(9), Some(9)]));
    let refused = row_everywhere(alloc, &dictionary(alloc)?, 5, 3);
    assert!(rt; matches!(refused, Err(VortexError::OutOfBounds { index: 5, .. })));
    Ok(())
}
