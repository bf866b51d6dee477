// Parts, slots, data and flag of list views.

use super::{has_ranges, view};
use std::alloc::Global;
use vx_base::{DType, Nullability, PType, VortexError};
use vx_leaves::ConstantArray;
use vx_lists::{ListViewArray, ListViewArrayExt, ListViewData, ListViewSlots};
use vx_test_help::{bools, has_numbers, ints};
use vx_tree::{TypedArray, Validity};

// The lists `[3, 4]`, `[1]`, `[2, 3]` over four elements.
fn three_lists(alloc: Global, validity: Validity) -> Result<ListViewArray, VortexError> {
    let elements = ints::<i32>(alloc, &[1, 2, 3, 4])?;
    let offsets = ints::<u16>(alloc, &[2, 0, 1])?;
    let sizes = ints::<u8>(alloc, &[2, 1, 2])?;
    ListViewData::validate(&elements, &offsets, &sizes, &validity)?;
    ListViewArray::new(alloc, elements, offsets, sizes, validity)
}

#[test]
fn lists_of_tested_parts(rt: HostRuntime) {
    let lists = three_lists(rt.alloc(), Validity::NonNullable).expect(&rt, "made");
    assert!(rt; lists.len() == 3 && has_ranges(&lists, &[(2, 2), (0, 1), (1, 2)]));
    assert!(rt; has_numbers(lists.elements(), &[1, 2, 3, 4]) && !lists.is_zero_copy_to_list());
    assert!(rt;
        has_numbers(
            &lists.list_elements_at(rt.alloc(), 0).expect(&rt, "made"),
            &[3, 4]
        )
    );
}

// What `validate` says of lists of these offsets and sizes over two elements.
fn tested(alloc: Global, offsets: &[i16], sizes: &[i16]) -> Result<(), VortexError> {
    let elements = ints::<u8>(alloc, &[7, 8])?;
    let offsets = ints(alloc, offsets)?;
    let sizes = ints(alloc, sizes)?;
    ListViewData::validate(&elements, &offsets, &sizes, &Validity::AllInvalid)
}

#[test]
fn faults_of_parts_are_told(rt: HostRuntime) {
    let alloc = rt.alloc();
    assert_eq!(rt; tested(alloc, &[1, 0], &[1, 2]), Ok(()));
    assert_eq!(rt;
        tested(alloc, &[0, 0], &[1, -1]),
        Err(VortexError::Negative { row: 1 })
    );
    assert!(rt;
        matches!(
            tested(alloc, &[2, 9], &[1, 0]),
            Err(VortexError::OutOfBounds { index: 3, .. })
        )
    );
    assert!(rt;
        matches!(
            tested(alloc, &[0], &[1, 1]),
            Err(VortexError::LengthMismatch { .. })
        )
    );
}

#[test]
fn validity_of_lists(rt: HostRuntime) {
    let lists = three_lists(rt.alloc(), Validity::NonNullable).expect(&rt, "made");
    assert_eq!(rt; lists.nullability(), Nullability::NonNullable);
    assert!(rt;
        matches!(
            lists.listview_validity(rt.alloc()).expect(&rt, "made"),
            Validity::NonNullable
        )
    );
}

#[test]
fn validity_of_lists_that_may_be_null(rt: HostRuntime) {
    let lists = three_lists(rt.alloc(), Validity::AllInvalid).expect(&rt, "made");
    assert_eq!(rt; lists.nullability(), Nullability::Nullable);
    assert!(rt;
        matches!(
            lists.listview_validity(rt.alloc()).expect(&rt, "made"),
            Validity::AllInvalid
        )
    );
}

#[test]
fn slots_of_lists(rt: HostRuntime) {
    let slots = three_lists(rt.alloc(), Validity::AllValid)
        .expect(&rt, "made")
        .slots(rt.alloc())
        .expect(&rt, "made");
    assert!(rt; has_numbers(&slots.elements, &[1, 2, 3, 4]));
    assert!(rt; has_numbers(&slots.offsets, &[2, 0, 1]) && has_numbers(&slots.sizes, &[2, 1, 2]));
    assert!(rt; slots.validity.is_none());
}

#[test]
fn slot_of_null_lists(rt: HostRuntime) {
    let lists = three_lists(rt.alloc(), Validity::AllInvalid).expect(&rt, "made");
    let ListViewSlots { validity, .. } = lists.slots(rt.alloc()).expect(&rt, "made");
    let Some(slot) = validity else {
        panic!(rt; "another layout");
    };
    assert!(rt;
        slot.len() == 3
            && !slot
                .execute_scalar(rt.alloc(), 2)
                .expect(&rt, "made")
                .as_bool()
    );
    assert!(rt; ConstantArray::try_from_array(slot).is_ok());
}

#[test]
fn slot_of_a_validity_of_lists(rt: HostRuntime) {
    let validity = Validity::Array(bools(rt.alloc(), &[true, false, true]).expect(&rt, "made"));
    let lists = three_lists(rt.alloc(), validity).expect(&rt, "made");
    let ListViewSlots { validity, .. } = lists.slots(rt.alloc()).expect(&rt, "made");
    let Some(slot) = validity else {
        panic!(rt; "another layout");
    };
    assert!(rt;
        slot.len() == 3
            && slot
                .execute_scalar(rt.alloc(), 0)
                .expect(&rt, "made")
                .as_bool()
    );
    assert!(rt;
        !slot
            .execute_scalar(rt.alloc(), 1)
            .expect(&rt, "made")
            .as_bool()
    );
}

#[test]
fn parts_of_lists(rt: HostRuntime) {
    let parts = three_lists(rt.alloc(), Validity::AllValid)
        .expect(&rt, "made")
        .into_data_parts(rt.alloc())
        .expect(&rt, "made");
    let dtype = DType::Primitive(PType::I32, Nullability::NonNullable);
    assert!(rt; *parts.elements_dtype == dtype);
    assert!(rt; has_numbers(&parts.elements, &[1, 2, 3, 4]));
    assert!(rt; has_numbers(&parts.offsets, &[2, 0, 1]) && has_numbers(&parts.sizes, &[2, 1, 2]));
    assert!(rt; matches!(parts.validity, Validity::AllValid));
}

#[test]
fn the_flag_is_set_where_lists_follow(rt: HostRuntime) {
    let alloc = rt.alloc();
    let lists = view::<u8>(alloc, &[9, 1, 2], &[1, 2], &[1, 1], Validity::NonNullable).expect(
        &rt, "made",
    );
    let follow = lists.is_consecutive();
    assert!(rt; follow);
    let lists = lists
        .with_zero_copy_to_list(alloc, follow)
        .expect(&rt, "made");
    assert!(rt; lists.is_zero_copy_to_list() && has_ranges(&lists, &[(1, 1), (2, 1)]));
    assert!(rt;
        !lists
            .with_zero_copy_to_list(alloc, false)
            .expect(&rt, "made")
            .is_zero_copy_to_list()
    );
}

#[test]
fn data_of_lists(rt: HostRuntime) {
    let data = three_lists(rt.alloc(), Validity::AllValid)
        .expect(&rt, "made")
        .to_data(rt.alloc())
        .expect(&rt, "made");
    assert!(rt; !data.is_zero_copy_to_list());
    assert!(rt;
        format!(in rt.alloc(); "{data}")
            .expect(&rt, "made")
            .as_str()
            == "is_zero_copy_to_list: false"
    );
}

#[test]
fn data_of_lists_that_follow(rt: HostRuntime) {
    let lists = view::<u8>(rt.alloc(), &[9, 1], &[0, 1], &[1, 1], Validity::AllValid).expect(
        &rt, "made",
    );
    let data = lists
        .rebuild_by_take(rt.alloc())
        .expect(&rt, "made")
        .to_data(rt.alloc())
        .expect(&rt, "made");
    assert!(rt; data.is_zero_copy_to_list());
    assert!(rt;
        format!(in rt.alloc(); "{data}")
            .expect(&rt, "made")
            .as_str()
            == "is_zero_copy_to_list: true"
    );
}

#[test]
fn new_data_has_no_flag(rt: HostRuntime) {
    assert!(rt;
        !ListViewData::try_new()
            .expect(&rt, "made")
            .clone()
            .expect(&rt, "made")
            .is_zero_copy_to_list()
    );
    assert!(rt; !ListViewData::default().is_zero_copy_to_list());
    let data = ListViewData::new();
    assert!(rt;
        format!(in rt.alloc(); "{data:?}")
            .expect(&rt, "made")
            .as_str()
            == "ListViewData { is_zero_copy_to_list: false }"
    );
}
