// Columns of lists that are compared, and told by offsets alone.

use std::alloc::Global;
use vx_base::VortexError;
use vx_lists::{ListViewArray, ListViewRebuildMode};
use vx_test_help::{bools, has_numbers, has_numbers_or_nulls};
use vx_tree::{TypedArray, Validity};
use vx_uses::comparison::have_same_lists;
use vx_uses::converter::{ListColumn, flagged_lists, lists_by_offsets, zero_copy_lists};
use vx_uses::first::column;
use vx_uses::modes::{moves_again, rebuilt_twice};
use vx_uses::trimming::trimmed_lists;

// The lists `[3, 4]`, `[1]`, `[2, 3]` over the elements 1 to 4.
fn scattered_lists(alloc: Global) -> Result<ListViewArray, VortexError> {
    let elements = column::<i32>(alloc, &[1, 2, 3, 4])?;
    let offsets = column::<u32>(alloc, &[2, 0, 1])?;
    let sizes = column::<u32>(alloc, &[2, 1, 2])?;
    ListViewArray::try_new(alloc, elements, offsets, sizes, Validity::NonNullable)
}

// Two lists, the first `[7]` and the second without elements, or null.
fn two_lists(alloc: Global, valid: &[bool]) -> Result<ListViewArray, VortexError> {
    let elements = column::<u8>(alloc, &[7])?;
    let offsets = column::<u8>(alloc, &[0, 0])?;
    let sizes = column::<u8>(alloc, &[1, 0])?;
    let validity = Validity::Array(bools(alloc, valid)?);
    ListViewArray::try_new(alloc, elements, offsets, sizes, validity)
}

// Whether two columns of lists of numbers have the same rows.
fn are_same(
    alloc: Global,
    left: &ListViewArray,
    right: &ListViewArray,
) -> Result<bool, VortexError> {
    if !left.elements().dtype().is_int() || !right.elements().dtype().is_int() {
        return Err(VortexError::MismatchedTypes);
    }
    have_same_lists(alloc, left, right)
}

#[test]
fn lists_are_the_same_wherever_they_lie(rt: HostRuntime) {
    let alloc = rt.alloc();
    let scattered = scattered_lists(alloc).expect(&rt, "made");
    let elements = column::<i64>(alloc, &[0, 3, 4, 1, 2, 3]).expect(&rt, "made");
    let offsets = column::<u8>(alloc, &[1, 3, 4]).expect(&rt, "made");
    let sizes = column::<i64>(alloc, &[2, 1, 2]).expect(&rt, "made");
    let joined = ListViewArray::try_new(
        alloc,
        elements,
        offsets,
        sizes,
        Validity::NonNullable,
    ).expect(&rt, "made");
    assert!(rt; are_same(alloc, &scattered, &joined).expect(&rt, "made"));
}

#[test]
fn other_elements_make_other_lists(rt: HostRuntime) {
    let alloc = rt.alloc();
    let scattered = scattered_lists(alloc).expect(&rt, "made");
    let elements = column::<i32>(alloc, &[3, 4, 1, 2, 9]).expect(&rt, "made");
    let offsets = column::<u32>(alloc, &[0, 2, 3]).expect(&rt, "made");
    let sizes = column::<u32>(alloc, &[2, 1, 2]).expect(&rt, "made");
    let other = ListViewArray::try_new(
        alloc,
        elements,
        offsets,
        sizes,
        Validity::NonNullable,
    ).expect(&rt, "made");
    assert!(rt; !are_same(alloc, &scattered, &other).expect(&rt, "made"));
}

#[test]
fn a_null_list_is_no_empty_one(rt: HostRuntime) {
    let alloc = rt.alloc();
    let empty = two_lists(alloc, &[true, true]).expect(&rt, "made");
    let null = two_lists(alloc, &[true, false]).expect(&rt, "made");
    assert!(rt; !are_same(alloc, &empty, &null).expect(&rt, "made"));
    assert!(rt; are_same(alloc, &null, &null).expect(&rt, "made"));
}

#[test]
fn flagged_lists_keep_their_elements(rt: HostRuntime) {
    let alloc = rt.alloc();
    let rebuilt = scattered_lists(alloc)
        .expect(&rt, "made")
        .rebuild(alloc, ListViewRebuildMode::MakeExact)
        .expect(&rt, "made");
    let last_two = rebuilt.as_array().slice(alloc, 1..3).expect(&rt, "made");
    let Ok(lists) = ListViewArray::try_from_array(last_two) else {
        panic!(rt; "another layout");
    };
    let stored = lists_by_offsets(alloc, &lists).expect(&rt, "made");
    assert!(rt; lists.is_zero_copy_to_list());
    assert!(rt; stored.offsets.as_slice() == [2, 3, 5].as_slice());
    let elements = [Some(3), Some(4), Some(1), Some(2), Some(3)];
    assert!(rt; has_numbers_or_nulls(&stored.elements, &elements));
}

#[test]
fn other_lists_are_laid_out_first(rt: HostRuntime) {
    let alloc = rt.alloc();
    let stored = lists_by_offsets(alloc, &scattered_lists(alloc).expect(&rt, "made")).expect(
        &rt, "made",
    );
    assert!(rt; stored.offsets.as_slice() == [0, 2, 3, 5].as_slice());
    let elements = [Some(3), Some(4), Some(1), Some(2), Some(3)];
    assert!(rt; has_numbers_or_nulls(&stored.elements, &elements));
}

#[test]
fn no_lists_have_one_offset(rt: HostRuntime) {
    let alloc = rt.alloc();
    let elements = column::<i32>(alloc, &[1]).expect(&rt, "made");
    let offsets = column::<u32>(alloc, &[]).expect(&rt, "made");
    let sizes = column::<u32>(alloc, &[]).expect(&rt, "made");
    let none = ListViewArray::try_new(
        alloc,
        elements,
        offsets,
        sizes,
        Validity::NonNullable,
    ).expect(&rt, "made");
    let stored = lists_by_offsets(alloc, &none).expect(&rt, "made");
    assert!(rt; stored.offsets.as_slice() == [0].as_slice() && stored.elements.len() == 1);
}

// The lists of a flagged list view by their offsets, none of another one.
fn flagged_only(alloc: Global, lists: &ListViewArray) -> Result<Option<ListColumn>, VortexError> {
    if !lists.is_zero_copy_to_list() {
        return Ok(None);
    }
    Ok(Some(zero_copy_lists(alloc, lists)?))
}

#[test]
fn flagged_lists_are_read_where_they_lie(rt: HostRuntime) {
    let alloc = rt.alloc();
    let scattered = scattered_lists(alloc).expect(&rt, "made");
    assert!(rt;
        flagged_only(alloc, &scattered)
            .expect(&rt, "made")
            .is_none()
    );
    let rebuilt = scattered.rebuild_by_runs(alloc).expect(&rt, "made");
    let Some(stored) = flagged_only(alloc, &rebuilt).expect(&rt, "made") else {
        panic!(rt; "no flag");
    };
    assert!(rt; stored.offsets.as_slice() == [0, 2, 3, 5].as_slice());
    assert!(rt; has_numbers(&stored.elements, &[3, 4, 1, 2, 3]));
}

// Whether a list moves when a mode rebuilds the lists again.
fn any_moves(
    alloc: Global,
    lists: &ListViewArray,
    mode: ListViewRebuildMode,
) -> Result<bool, VortexError> {
    for i in 0..lists.len() {
        if moves_again(alloc, lists, mode, i)? {
            return Ok(true);
        }
    }
    Ok(false)
}

#[test]
fn lists_rebuilt_again_do_not_move(rt: HostRuntime) {
    let alloc = rt.alloc();
    let lists = scattered_lists(alloc).expect(&rt, "made");
    for mode in [
        ListViewRebuildMode::MakeZeroCopyToList,
        ListViewRebuildMode::TrimElements,
        ListViewRebuildMode::MakeExact,
    ] {
        assert!(rt; !any_moves(alloc, &lists, mode).expect(&rt, "made"));
    }
}

#[test]
fn lists_are_trimmed_once(rt: HostRuntime) {
    let alloc = rt.alloc();
    let elements = column::<i32>(alloc, &[9, 1, 2, 9]).expect(&rt, "made");
    let offsets = column::<u32>(alloc, &[2, 1]).expect(&rt, "made");
    let sizes = column::<u32>(alloc, &[1, 1]).expect(&rt, "made");
    let lists = ListViewArray::try_new(
        alloc,
        elements,
        offsets,
        sizes,
        Validity::NonNullable,
    ).expect(&rt, "made");
    let (once, twice) = rebuilt_twice(alloc, &lists, ListViewRebuildMode::TrimElements).expect(
        &rt, "made",
    );
    assert!(rt; has_numbers(once.elements(), &[1, 2]) && has_numbers(once.offsets(), &[1, 0]));
    assert!(rt; has_numbers(twice.elements(), &[1, 2]) && has_numbers(twice.offsets(), &[1, 0]));
}

#[test]
fn lists_one_after_another_are_flagged(rt: HostRuntime) {
    let alloc = rt.alloc();
    let elements = column::<i32>(alloc, &[9, 9, 9, 9, 1, 2, 3, 4, 5]).expect(&rt, "made");
    let offsets = column::<u32>(alloc, &[4, 6, 6]).expect(&rt, "made");
    let sizes = column::<u32>(alloc, &[2, 0, 3]).expect(&rt, "made");
    let lists = ListViewArray::try_new(
        alloc,
        elements,
        offsets,
        sizes,
        Validity::NonNullable,
    ).expect(&rt, "made");
    let flagged = flagged_lists(alloc, lists).expect(&rt, "made");
    assert!(rt; flagged.is_zero_copy_to_list());
    let stored = lists_by_offsets(alloc, &flagged).expect(&rt, "made");
    assert!(rt; stored.offsets.as_slice() == [4, 6, 6, 9].as_slice());
    assert!(rt; has_numbers(&stored.elements, &[9, 9, 9, 9, 1, 2, 3, 4, 5]));
    let scattered = scattered_lists(alloc).expect(&rt, "made");
    let unflagged = flagged_lists(alloc, scattered).expect(&rt, "made");
    assert!(rt; !unflagged.is_zero_copy_to_list());
}

#[test]
fn lists_are_trimmed_to_their_elements(rt: HostRuntime) {
    let alloc = rt.alloc();
    let elements = column::<i32>(alloc, &[0, 1, 2, 3, 4, 5, 6, 7, 8]).expect(&rt, "made");
    let offsets = column::<u32>(alloc, &[2, 5]).expect(&rt, "made");
    let sizes = column::<u32>(alloc, &[2, 2]).expect(&rt, "made");
    let lists = ListViewArray::try_new(
        alloc,
        elements,
        offsets,
        sizes,
        Validity::NonNullable,
    ).expect(&rt, "made");
    let trimmed = trimmed_lists(alloc, &lists).expect(&rt, "made");
    assert!(rt; has_numbers(trimmed.elements(), &[2, 3, 4, 5, 6]));
    assert!(rt; has_numbers(trimmed.offsets(), &[0, 3]));
    let none = column::<u32>(alloc, &[]).expect(&rt, "made");
    let also_none = none.try_clone(alloc).expect(&rt, "made");
    let lists = ListViewArray::try_new(
        alloc,
        column::<i32>(alloc, &[1]).expect(&rt, "made"),
        none,
        also_none,
        Validity::NonNullable,
    )
    .expect(&rt, "made");
    assert!(rt; matches!(trimmed_lists(alloc, &lists), Err(VortexError::EmptyInput)));
}
