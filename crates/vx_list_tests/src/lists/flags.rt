// What each operation does with the flags of list views and of dictionaries.

use super::view;
use std::alloc::Global;
use vx_base::{Mask, VortexError};
use vx_canonical::ToCanonical;
use vx_leaves::{DictArray, DictArrayExt, DictOwnedExt};
use vx_lists::ListViewArrayExt;
use vx_test_help::{bools, ints};
use vx_tree::{ArrayRef, Layout, TypedArray, Validity};

// The lists `[1]`, `[2]`, one after another in three elements, with the flag that says so.
fn flagged_lists(alloc: Global) -> Result<ArrayRef, VortexError> {
    let lists = view::<u8>(alloc, &[9, 1, 2], &[1, 2], &[1, 1], Validity::NonNullable)?;
    let follow = lists.is_consecutive();
    Ok(lists.with_zero_copy_to_list(alloc, follow)?.into_array())
}

// The rows 6, 5 by codes, with the flag that says that both values are named.
fn flagged_dictionary(alloc: Global) -> Result<ArrayRef, VortexError> {
    let codes = ints::<u8>(alloc, &[1, 0])?;
    let array = DictArray::try_new(alloc, codes, ints::<u8>(alloc, &[5, 6])?)?;
    let named = array.are_all_values_referenced(alloc)?;
    Ok(array.set_all_values_referenced(alloc, named)?.into_array())
}

// Whether an array is a list view or a dictionary whose flag is set.
fn is_flagged(array: &ArrayRef) -> bool {
    match array.layout() {
        Layout::ListView { flag, .. } => *flag,
        Layout::Dict { flag, .. } => *flag,
        _ => false,
    }
}

#[test]
fn slice_and_mask_keep_the_flag_of_lists(rt: HostRuntime) {
    let alloc = rt.alloc();
    let lists = flagged_lists(alloc).expect(&rt, "made");
    assert!(rt; is_flagged(&lists) && is_flagged(&lists.slice(alloc, 0..1).expect(&rt, "made")));
    assert!(rt;
        is_flagged(
            &lists
                .mask(alloc, &bools(alloc, &[true, false]).expect(&rt, "made"))
                .expect(&rt, "made")
        )
    );
    assert!(rt; is_flagged(&lists.to_canonical(alloc).expect(&rt, "made")));
}

#[test]
fn take_and_filter_clear_the_flag_of_lists(rt: HostRuntime) {
    let alloc = rt.alloc();
    let lists = flagged_lists(alloc).expect(&rt, "made");
    assert!(rt;
        !is_flagged(
            &lists
                .take(alloc, &ints::<u8>(alloc, &[0, 1]).expect(&rt, "made"))
                .expect(&rt, "made")
        )
    );
    assert!(rt; !is_flagged(&lists.filter(alloc, &Mask::new_true(2)).expect(&rt, "made")));
}

#[test]
fn each_operation_clears_the_flag_of_a_dictionary(rt: HostRuntime) {
    let alloc = rt.alloc();
    let rows = flagged_dictionary(alloc).expect(&rt, "made");
    let both = bools(alloc, &[true, true]).expect(&rt, "made");
    assert!(rt; is_flagged(&rows) && !is_flagged(&rows.slice(alloc, 0..2).expect(&rt, "made")));
    assert!(rt; !is_flagged(&rows.mask(alloc, &both).expect(&rt, "made")));
    assert!(rt; !is_flagged(&rows.filter(alloc, &Mask::new_true(2)).expect(&rt, "made")));
    assert!(rt;
        !is_flagged(
            &rows
                .take(alloc, &ints::<u8>(alloc, &[0, 1]).expect(&rt, "made"))
                .expect(&rt, "made")
        )
    );
}
