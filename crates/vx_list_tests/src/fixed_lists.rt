// Lists of one size: their parts, their faults, their elements and their data.

use std::alloc::Global;
use std::rc::Rc;
use vx_base::{DType, Nullability, PType, VortexError};
use vx_leaves::ConstantArray;
use vx_lists::{FixedSizeListArray, FixedSizeListArrayExt, FixedSizeListData, FixedSizeListSlots};
use vx_test_help::{has_numbers, ints, valid_where};
use vx_tree::{TypedArray, Validity};

// What making so many lists of a size of these elements comes to.
fn lists(
    alloc: Global,
    elements: &[i32],
    list_size: u32,
    len: usize,
) -> Result<FixedSizeListArray, VortexError> {
    let elements = ints(alloc, elements)?;
    FixedSizeListArray::try_new(alloc, elements, list_size, Validity::NonNullable, len)
}

#[test]
fn lists_of_no_elements(rt: HostRuntime) {
    let empty = lists(rt.alloc(), &[], 0, 3).expect(&rt, "made");
    assert!(rt; empty.len() == 3 && empty.list_size() == 0);
    assert!(rt;
        empty
            .fixed_size_list_elements_at(rt.alloc(), 2)
            .expect(&rt, "made")
            .is_empty()
    );
    assert!(rt; empty.as_array().is_valid(rt.alloc(), 2).expect(&rt, "made"));
}

#[test]
fn more_elements_than_can_be_counted_are_refused(rt: HostRuntime) {
    let refused = lists(rt.alloc(), &[], 4_294_967_295, 8_589_934_592);
    assert!(rt; matches!(refused, Err(VortexError::Overflow)));
}

#[test]
fn lists_of_size_zero_have_no_elements(rt: HostRuntime) {
    let refused = lists(rt.alloc(), &[7], 0, 1);
    assert!(rt; matches!(refused, Err(VortexError::DegenerateElements)));
}

#[test]
fn a_missing_element_is_refused(rt: HostRuntime) {
    let refused = lists(rt.alloc(), &[1, 2, 3, 4, 5], 2, 3);
    assert!(rt;
        matches!(
            refused,
            Err(VortexError::LengthMismatch {
                expected: 6,
                found: 5,
            })
        )
    );
}

#[test]
fn validities_are_tested_first(rt: HostRuntime) {
    let elements = ints::<u8>(rt.alloc(), &[7]).expect(&rt, "made");
    let validity = valid_where(rt.alloc(), &[true, true]).expect(&rt, "made");
    assert!(rt;
        matches!(
            FixedSizeListData::validate(&elements, 1, 0, &validity),
            Err(VortexError::LengthMismatch {
                expected: 1,
                found: 2,
            })
        )
    );
    let numbers = Validity::Array(ints::<u8>(rt.alloc(), &[7]).expect(&rt, "made"));
    assert_eq!(rt;
        FixedSizeListData::validate(&elements, 1, 0, &numbers),
        Err(VortexError::MismatchedTypes)
    );
    assert_eq!(rt;
        FixedSizeListData::validate(&elements, 2, 0, &validity),
        Err(VortexError::DegenerateElements)
    );
    assert_eq!(rt;
        FixedSizeListData::validate(&elements, 1, 1, &Validity::AllInvalid),
        Ok(())
    );
}

// The lists `[1, 2]`, null and `[5, 6]`.
fn three_lists(alloc: Global) -> Result<FixedSizeListArray, VortexError> {
    let elements = ints::<i16>(alloc, &[1, 2, 3, 4, 5, 6])?;
    let validity = valid_where(alloc, &[true, false, true])?;
    FixedSizeListData::validate(&elements, 3, 2, &validity)?;
    FixedSizeListArray::new(alloc, elements, 2, validity, 3)
}

#[test]
fn elements_of_lists_of_two(rt: HostRuntime) {
    let pairs = three_lists(rt.alloc()).expect(&rt, "made");
    assert!(rt; pairs.len() == 3 && !pairs.is_empty());
    assert!(rt; has_numbers(pairs.elements(), &[1, 2, 3, 4, 5, 6]));
    assert!(rt;
        has_numbers(
            &pairs
                .fixed_size_list_elements_at(rt.alloc(), 2)
                .expect(&rt, "made"),
            &[5, 6]
        )
    );
    assert!(rt;
        has_numbers(
            &pairs
                .fixed_size_list_elements_at(rt.alloc(), 1)
                .expect(&rt, "made"),
            &[3, 4]
        )
    );
}

#[test]
fn data_types_of_lists_of_two(rt: HostRuntime) {
    let pairs = three_lists(rt.alloc())
        .expect(&rt, "made")
        .try_clone(rt.alloc())
        .expect(&rt, "made");
    let (items, size, nullability) = pairs.dtype_parts();
    assert!(rt; *items == DType::Primitive(PType::I16, Nullability::NonNullable));
    assert_eq!(rt; (size, nullability), (2, Nullability::Nullable));
    assert!(rt; pairs.list_size() == 2);
    assert!(rt;
        matches!(
            pairs.dtype(),
            DType::FixedSizeList(_, 2, Nullability::Nullable)
        )
    );
}

#[test]
fn validities_of_lists_of_one_size(rt: HostRuntime) {
    let validity = three_lists(rt.alloc())
        .expect(&rt, "made")
        .fixed_size_list_validity(rt.alloc())
        .expect(&rt, "made");
    assert!(rt;
        validity.is_valid(rt.alloc(), 0).expect(&rt, "made")
            && !validity.is_valid(rt.alloc(), 1).expect(&rt, "made")
    );
    let own = lists(rt.alloc(), &[1], 1, 1)
        .expect(&rt, "made")
        .fixed_size_list_validity(rt.alloc())
        .expect(&rt, "made");
    assert!(rt; matches!(own, Validity::NonNullable));
}

#[test]
fn slots_of_lists_of_two(rt: HostRuntime) {
    let FixedSizeListSlots { elements, validity } = three_lists(rt.alloc())
        .expect(&rt, "made")
        .slots(rt.alloc())
        .expect(&rt, "made");
    assert!(rt; has_numbers(&elements, &[1, 2, 3, 4, 5, 6]));
    let Some(slot) = validity else {
        panic!(rt; "another layout");
    };
    assert!(rt;
        slot.len() == 3
            && !slot
                .execute_scalar(rt.alloc(), 1)
                .expect(&rt, "made")
                .as_bool()
    );
}

#[test]
fn lists_without_nulls_have_no_slot_of_validity(rt: HostRuntime) {
    let own = lists(rt.alloc(), &[1], 1, 1)
        .expect(&rt, "made")
        .slots(rt.alloc())
        .expect(&rt, "made");
    assert!(rt; own.validity.is_none());
}

#[test]
fn the_slot_of_null_lists_of_no_elements(rt: HostRuntime) {
    let elements = ints::<u8>(rt.alloc(), &[]).expect(&rt, "made");
    let alloc = rt.alloc();
    let nulls = FixedSizeListArray::try_new(alloc, elements, 0, Validity::AllInvalid, 2).expect(
        &rt, "made",
    );
    let FixedSizeListSlots { validity, .. } = nulls.slots(rt.alloc()).expect(&rt, "made");
    let Some(slot) = validity else {
        panic!(rt; "another layout");
    };
    assert!(rt;
        slot.len() == 2
            && !slot
                .execute_scalar(rt.alloc(), 1)
                .expect(&rt, "made")
                .as_bool()
    );
    assert!(rt; ConstantArray::try_from_array(slot).is_ok());
}

#[test]
fn parts_of_lists_of_two(rt: HostRuntime) {
    let parts = three_lists(rt.alloc())
        .expect(&rt, "made")
        .into_data_parts(rt.alloc())
        .expect(&rt, "made");
    assert!(rt; has_numbers(&parts.elements, &[1, 2, 3, 4, 5, 6]));
    assert!(rt; !parts.validity.is_valid(rt.alloc(), 1).expect(&rt, "made"));
    let items = Rc::new(
        rt.alloc(),
        DType::Primitive(PType::I16, Nullability::NonNullable),
    )
    .expect(&rt, "made");
    assert!(rt; parts.dtype == DType::FixedSizeList(items, 2, Nullability::Nullable));
}

#[test]
fn data_of_lists_of_no_elements(rt: HostRuntime) {
    let data = lists(rt.alloc(), &[], 0, 3)
        .expect(&rt, "made")
        .to_data(rt.alloc())
        .expect(&rt, "made")
        .clone()
        .expect(&rt, "made");
    assert!(rt;
        format!(in rt.alloc(); "{data}")
            .expect(&rt, "made")
            .as_str()
            == "degenerate_len: 3"
    );
    let elements = ints::<u8>(rt.alloc(), &[]).expect(&rt, "made");
    FixedSizeListData::validate(&elements, usize::MAX, 0, &Validity::AllValid).expect(&rt, "made");
    let built = FixedSizeListData::build(elements, 0, Validity::AllValid, usize::MAX);
    assert!(rt;
        format!(in rt.alloc(); "{built}")
            .expect(&rt, "made")
            .as_str()
            == "degenerate_len: 18446744073709551615"
    );
}

#[test]
fn data_of_lists_of_two(rt: HostRuntime) {
    let data = three_lists(rt.alloc())
        .expect(&rt, "made")
        .to_data(rt.alloc())
        .expect(&rt, "made");
    assert!(rt;
        format!(in rt.alloc(); "{data}")
            .expect(&rt, "made")
            .as_str()
            == "degenerate_len: 0"
    );
    assert!(rt;
        format!(in rt.alloc(); "{data:?}")
            .expect(&rt, "made")
            .as_str()
            == "FixedSizeListData { degenerate_len: 0 }"
    );
}

#[test]
fn lists_of_one_size_come_back(rt: HostRuntime) {
    let array = three_lists(rt.alloc()).expect(&rt, "made").into_array();
    assert!(rt; FixedSizeListArray::try_from_array(array).is_ok());
    assert!(rt;
        FixedSizeListArray::try_from_array(ints::<u8>(rt.alloc(), &[1]).expect(
            &rt, "made"
        )).is_err()
    );
}
