// Pages of lists that are appended.

use std::alloc::Global;
use std::test::Fail;
use vx_base::{PType, VortexError};
use vx_lists::ListViewArray;
use vx_test_help::{has_numbers, has_type, ints};
use vx_tree::{TypedArray, Validity};
use vx_uses::appended_lists::appended_page;

// The lists [1, 2], [3] of three numbers.
fn first(alloc: Global) -> Result<ListViewArray, VortexError> {
    let elements = ints::<i32>(alloc, &[1, 2, 3])?;
    let (offsets, sizes) = (ints::<u8>(alloc, &[0, 2])?, ints::<u8>(alloc, &[2, 1])?);
    ListViewArray::try_new(alloc, elements, offsets, sizes, Validity::NonNullable)
}

// The lists [4], [5, 6] of the numbers 5, 6, 4.
fn later(alloc: Global) -> Result<ListViewArray, VortexError> {
    let elements = ints::<i32>(alloc, &[5, 6, 4])?;
    let (offsets, sizes) = (ints::<i16>(alloc, &[2, 0])?, ints::<u32>(alloc, &[1, 2])?);
    ListViewArray::try_new(alloc, elements, offsets, sizes, Validity::NonNullable)
}

#[test]
fn a_page_of_appended_lists_lies_end_to_end(rt: HostRuntime) -> Result<(), Fail> {
    let alloc = rt.alloc();
    let page = appended_page(alloc, &first(alloc)?, &later(alloc)?, 1..4)?;
    assert!(rt; page.len() == 3 && page.is_zero_copy_to_list());
    assert!(rt; has_type(page.offsets(), PType::U64) && has_type(page.sizes(), PType::U64));
    assert!(rt; has_numbers(page.offsets(), &[0, 1, 2]));
    assert!(rt; has_numbers(page.sizes(), &[1, 1, 2]));
    assert!(rt; has_numbers(page.elements(), &[3, 4, 5, 6]));
    Ok(())
}

#[test]
fn a_page_of_no_lists_keeps_all_elements(rt: HostRuntime) -> Result<(), Fail> {
    let alloc = rt.alloc();
    let page = appended_page(alloc, &first(alloc)?, &later(alloc)?, 4..4)?;
    assert!(rt; page.is_empty() && page.is_zero_copy_to_list());
    assert!(rt; has_numbers(page.elements(), &[1, 2, 3, 5, 6, 4]));
    Ok(())
}

#[test]
fn joining_refuses_before_the_page_does(rt: HostRuntime) -> Result<(), Fail> {
    let alloc = rt.alloc();
    let refused = appended_page(alloc, &first(alloc)?, &later(alloc)?, 1..5);
    assert!(rt; matches!(refused, Err(VortexError::OutOfBounds { index: 5, len: 4 })));
    let others = ListViewArray::try_new(
        alloc,
        ints::<i64>(alloc, &[4])?,
        ints::<u8>(alloc, &[0])?,
        ints::<u8>(alloc, &[1])?,
        Validity::NonNullable,
    )?;
    let refused = appended_page(alloc, &first(alloc)?, &others, 1..5);
    assert!(rt; matches!(refused, Err(VortexError::DifferingDtypes)));
    Ok(())
}
