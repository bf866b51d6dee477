// List views whose offsets and sizes lead past their elements, or below them.

use super::columns::zeros;
use std::alloc::Global;
use std::test::Fail;
use vx_base::{NativePType, Nullability, PType, Scalar, VortexError};
use vx_lists::{ListViewArray, ListViewArrayExt, ListViewData};
use vx_test_help::{ints, valid_where};
use vx_tree::{ArrayRef, Validity};

// The greatest offset that there is.
const GREATEST: u64 = 18446744073709551615;

// How `validate` and `try_new` both refuse lists of these offsets and sizes; none where they
// differ.
fn fault_of<T: NativePType>(
    alloc: Global,
    elements: ArrayRef,
    offsets: &[T],
    sizes: &[T],
    validity: Validity,
) -> Result<Option<VortexError>, VortexError> {
    let offsets = ints(alloc, offsets)?;
    let sizes = ints(alloc, sizes)?;
    let told = ListViewData::validate(&elements, &offsets, &sizes, &validity).err();
    let fault = ListViewArray::try_new(alloc, elements, offsets, sizes, validity).err();
    Ok(if told == fault { fault } else { None })
}

#[test]
fn an_end_past_every_usize(rt: HostRuntime) {
    let one = zeros(rt.alloc(), 1).expect(&rt, "made");
    let fault = fault_of(rt.alloc(), one, &[GREATEST], &[1], Validity::NonNullable).expect(
        &rt, "made",
    );
    assert_eq!(rt; fault, Some(VortexError::Overflow));
}

#[test]
fn an_empty_list_at_the_greatest_offset(rt: HostRuntime) {
    let one = zeros(rt.alloc(), 1).expect(&rt, "made");
    let fault = fault_of(rt.alloc(), one, &[GREATEST], &[0], Validity::NonNullable).expect(
        &rt, "made",
    );
    assert!(rt;
        matches!(
            fault,
            Some(VortexError::OutOfBounds {
                index: 18446744073709551615,
                ..
            })
        )
    );
}

#[test]
fn a_negative_size(rt: HostRuntime) {
    let two = zeros(rt.alloc(), 2).expect(&rt, "made");
    let fault = fault_of::<i16>(rt.alloc(), two, &[0, 0], &[1, -1], Validity::NonNullable).expect(
        &rt, "made",
    );
    assert_eq!(rt; fault, Some(VortexError::Negative { row: 1 }));
}

#[test]
fn a_null_list_past_the_elements(rt: HostRuntime) {
    let three = zeros(rt.alloc(), 3).expect(&rt, "made");
    let null = valid_where(rt.alloc(), &[false]).expect(&rt, "made");
    let fault = fault_of::<u8>(rt.alloc(), three, &[2], &[2], null).expect(&rt, "made");
    assert!(rt; matches!(fault, Some(VortexError::OutOfBounds { index: 4, .. })));
}

#[test]
fn all_lists_null_and_past_the_elements(rt: HostRuntime) {
    let three = zeros(rt.alloc(), 3).expect(&rt, "made");
    let fault = fault_of::<u8>(rt.alloc(), three, &[2], &[2], Validity::AllInvalid).expect(
        &rt, "made",
    );
    assert!(rt; matches!(fault, Some(VortexError::OutOfBounds { index: 4, .. })));
}

// Read as unsigned, the offset would be 255, and so fit.
#[test]
fn a_negative_offset(rt: HostRuntime) {
    let many = zeros(rt.alloc(), 255).expect(&rt, "made");
    let fault = fault_of::<i8>(rt.alloc(), many, &[-1], &[0], Validity::NonNullable).expect(
        &rt, "made",
    );
    assert_eq!(rt; fault, Some(VortexError::Negative { row: 0 }));
}

#[test]
fn as_many_lists_that_all_are_the_first(rt: HostRuntime) {
    let many = 1099511627776;
    let offset = Scalar::int(1, PType::U32, Nullability::NonNullable);
    let offsets = ArrayRef::constant(rt.alloc(), offset, many).expect(&rt, "made");
    let size = Scalar::int(2, PType::I16, Nullability::NonNullable);
    let sizes = ArrayRef::constant(rt.alloc(), size, many).expect(&rt, "made");
    let three = zeros(rt.alloc(), 3).expect(&rt, "made");
    let lists = ListViewArray::try_new(
        rt.alloc(),
        three,
        offsets,
        sizes,
        Validity::NonNullable,
    ).expect(&rt, "made");
    assert!(rt; !lists.is_consecutive());
    assert_eq!(rt;
        lists
            .compute_referenced_elements_mask(rt.alloc())
            .expect(&rt, "made")
            .true_count(),
        2
    );
    assert!(rt; matches!(lists.referenced_element_bounds(), Ok((1, 3))));
}
