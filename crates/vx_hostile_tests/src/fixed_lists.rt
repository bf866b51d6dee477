// Lists of one size whose elements are not as many as their lengths say.

use super::columns::zeros;
use std::alloc::Global;
use std::test::Fail;
use vx_base::VortexError;
use vx_lists::{FixedSizeListArray, FixedSizeListData};
use vx_tree::Validity;

// How `validate` and `try_new` both refuse so many lists of a size over so many elements; none
// where they differ.
fn fault_of(
    alloc: Global,
    elements: usize,
    size: u32,
    len: usize,
) -> Result<Option<VortexError>, VortexError> {
    let elements = zeros(alloc, elements)?;
    let validity = Validity::NonNullable;
    let told = FixedSizeListData::validate(&elements, len, size, &validity).err();
    let fault = FixedSizeListArray::try_new(alloc, elements, size, validity, len).err();
    Ok(if told == fault { fault } else { None })
}

#[test]
fn an_element_of_lists_of_size_zero(rt: HostRuntime) {
    let fault = fault_of(rt.alloc(), 1, 0, 0).expect(&rt, "made");
    assert_eq!(rt; fault, Some(VortexError::DegenerateElements));
    let fault = fault_of(rt.alloc(), 1, 0, 1).expect(&rt, "made");
    assert_eq!(rt; fault, Some(VortexError::DegenerateElements));
}

#[test]
fn five_elements_of_three_pairs(rt: HostRuntime) {
    let fault = fault_of(rt.alloc(), 5, 2, 3).expect(&rt, "made");
    assert!(rt; matches!(fault, Some(VortexError::LengthMismatch { .. })));
}
