// Lists that are read, trimmed and rebuilt.

mod copied;
mod flags;
mod parts;
mod positions;

use std::alloc::Global;
use vx_base::{DType, NativePType, Nullability, PType, Scalar, VortexError};
use vx_lists::{ListViewArray, ListViewArrayExt, ListViewRebuildMode};
use vx_test_help::{bools, has_numbers, has_type, ints, valid_where};
use vx_tree::{ArrayRef, TypedArray, Validity};

fn view<T: NativePType>(
    alloc: Global,
    elements: &[i32],
    offsets: &[T],
    sizes: &[T],
    validity: Validity,
) -> Result<ListViewArray, VortexError> {
    let elements = ints(alloc, elements)?;
    let offsets = ints(alloc, offsets)?;
    let sizes = ints(alloc, sizes)?;
    ListViewArray::try_new(alloc, elements, offsets, sizes, validity)
}

// Whether the lists start and have as many elements as is wanted.
fn has_ranges(view: &ListViewArray, wanted: &[(usize, usize)]) -> bool {
    if view.len() != wanted.len() {
        return false;
    }
    for (i, (offset, size)) in wanted.iter().enumerate() {
        if view.offset_at(i) != *offset || view.size_at(i) != *size {
            return false;
        }
    }
    true
}

// Whether rebuilding gives a flagged view of these ranges over these elements.
fn rebuilds_to(
    alloc: Global,
    lists: &ListViewArray,
    ranges: &[(usize, usize)],
    elements: &[i128],
) -> Result<bool, VortexError> {
    let rebuilt = lists.rebuild(alloc, ListViewRebuildMode::MakeZeroCopyToList)?;
    let flagged = rebuilt.is_zero_copy_to_list();
    Ok(flagged && has_ranges(&rebuilt, ranges) && has_numbers(rebuilt.elements(), elements))
}

#[test]
fn lists_in_another_order_are_laid_out(rt: HostRuntime) {
    let alloc = rt.alloc();
    let lists = view::<u32>(
        alloc,
        &[5, 6, 7, 8],
        &[2, 0],
        &[2, 2],
        Validity::NonNullable,
    )
    .expect(&rt, "made");
    assert!(rt; rebuilds_to(alloc, &lists, &[(0, 2), (2, 2)], &[7, 8, 5, 6]).expect(&rt, "made"));
}

// Two lists of two zeroes each, out of nine that are one constant.
fn lists_of_a_constant(alloc: Global) -> Result<ListViewArray, VortexError> {
    let zero = Scalar::int(0, PType::I64, Nullability::NonNullable);
    let elements = ArrayRef::constant(alloc, zero, 9)?;
    let sizes = Scalar::int(2, PType::U8, Nullability::NonNullable);
    let sizes = ArrayRef::constant(alloc, sizes, 2)?;
    let offsets = ints::<u8>(alloc, &[7, 0])?;
    ListViewArray::try_new(alloc, elements, offsets, sizes, Validity::NonNullable)
}

#[test]
fn elements_of_another_layout_are_taken(rt: HostRuntime) {
    let lists = lists_of_a_constant(rt.alloc()).expect(&rt, "made");
    assert!(rt;
        rebuilds_to(rt.alloc(), &lists, &[(0, 2), (2, 2)], &[0, 0, 0, 0]).expect(&rt, "made")
    );
}

// Lists of 2^31 elements in all, with these offsets and sizes of 32 bits.
fn lists_past_32_bits(alloc: Global, offsets: ArrayRef) -> Result<ListViewArray, VortexError> {
    let zero = Scalar::int(0, PType::I32, Nullability::NonNullable);
    let elements = ArrayRef::constant(alloc, zero, 4_294_967_296)?;
    let sizes = ints::<i32>(alloc, &[2_147_483_647, 1])?;
    ListViewArray::try_new(alloc, elements, offsets, sizes, Validity::NonNullable)
}

#[test]
fn a_total_past_the_offset_type_is_refused(rt: HostRuntime) {
    let offsets = ints::<i32>(rt.alloc(), &[0, 0]).expect(&rt, "made");
    let rebuilt = lists_past_32_bits(rt.alloc(), offsets)
        .expect(&rt, "made")
        .rebuild_by_take(rt.alloc());
    assert!(rt; matches!(rebuilt, Err(VortexError::Overflow)));
}

#[test]
fn a_total_past_the_size_type_is_refused(rt: HostRuntime) {
    let offsets = ints::<i64>(rt.alloc(), &[0, 0]).expect(&rt, "made");
    let rebuilt = lists_past_32_bits(rt.alloc(), offsets)
        .expect(&rt, "made")
        .rebuild_by_runs(rt.alloc());
    assert!(rt; matches!(rebuilt, Err(VortexError::Overflow)));
}

#[test]
fn no_rows_keep_the_elements(rt: HostRuntime) {
    let alloc = rt.alloc();
    let lists = view::<u32>(alloc, &[1, 2, 3], &[], &[], Validity::NonNullable).expect(&rt, "made");
    assert!(rt;
        lists.is_empty() && rebuilds_to(alloc, &lists, &[], &[1, 2, 3]).expect(&rt, "made")
    );
}

#[test]
fn small_offsets_grow(rt: HostRuntime) {
    let alloc = rt.alloc();
    let lists = view::<u8>(
        alloc,
        &[0; 150],
        &[0, 0],
        &[150, 150],
        Validity::NonNullable,
    )
    .expect(&rt, "made");
    let rebuilt = lists.rebuild_by_take(alloc).expect(&rt, "made");
    assert!(rt; has_ranges(&rebuilt, &[(0, 150), (150, 150)]) && rebuilt.is_consecutive());
    assert!(rt; has_type(rebuilt.offsets(), PType::U32) && has_type(rebuilt.sizes(), PType::U32));
}

#[test]
fn negative_offsets_are_refused(rt: HostRuntime) {
    let refused = view::<i8>(rt.alloc(), &[7; 255], &[-1], &[0], Validity::NonNullable);
    assert!(rt; matches!(refused, Err(VortexError::Negative { row: 0 })));
}

#[test]
fn a_flagged_view_stays(rt: HostRuntime) {
    let alloc = rt.alloc();
    let lists = view::<i64>(alloc, &[5, 6], &[1, 0], &[1, 1], Validity::AllValid).expect(
        &rt, "made",
    );
    let once = lists
        .rebuild_by_take(alloc)
        .expect(&rt, "made")
        .try_clone(alloc)
        .expect(&rt, "made");
    assert!(rt; rebuilds_to(alloc, &once, &[(0, 1), (1, 1)], &[6, 5]).expect(&rt, "made"));
}

#[test]
fn list_elements_are_a_slice(rt: HostRuntime) {
    let alloc = rt.alloc();
    let lists = view::<u16>(alloc, &[1, 2, 3], &[0, 1], &[3, 2], Validity::NonNullable).expect(
        &rt, "made",
    );
    assert!(rt; lists.len() == 2);
    assert!(rt;
        has_numbers(
            &lists.list_elements_at(alloc, 1).expect(&rt, "made"),
            &[2, 3]
        )
    );
}

#[test]
fn lists_come_back(rt: HostRuntime) {
    let lists = view::<u32>(rt.alloc(), &[1], &[0], &[1], Validity::NonNullable).expect(
        &rt, "made",
    );
    assert!(rt; matches!(lists.dtype(), DType::List(_, _)) && lists.as_array().len() == 1);
    assert!(rt; ListViewArray::try_from_array(lists.into_array()).is_ok());
}

#[test]
fn another_layout_comes_back(rt: HostRuntime) {
    assert!(rt;
        ListViewArray::try_from_array(bools(rt.alloc(), &[true]).expect(&rt, "made")).is_err()
    );
}

// The lists `[9]`, `[1]`, `[2]`, `[9]`, of which the middle two are left: flagged, over four
// elements.
fn flagged_middle(alloc: Global) -> Result<ListViewArray, VortexError> {
    let lists = view::<u8>(
        alloc,
        &[9, 1, 2, 9],
        &[0, 1, 2, 3],
        &[1, 1, 1, 1],
        Validity::NonNullable,
    )?;
    let rebuilt = lists.rebuild_by_take(alloc)?;
    match ListViewArray::try_from_array(rebuilt.as_array().slice(alloc, 1..3)?) {
        Ok(middle) => Ok(middle),
        Err(_) => Err(VortexError::MismatchedTypes),
    }
}

// The lists of two from the fifth element on, of none after the seventh, and null.
fn scattered(alloc: Global) -> Result<ListViewArray, VortexError> {
    let validity = valid_where(alloc, &[true, true, false])?;
    view::<i32>(alloc, &[0; 9], &[4, 7, 1], &[2, 0, 1], validity)
}

#[test]
fn bounds_count_null_and_empty_lists(rt: HostRuntime) {
    let lists = scattered(rt.alloc()).expect(&rt, "made");
    let (start, end) = lists.referenced_element_bounds().expect(&rt, "made");
    assert_eq!(rt; (start, end), (1, 7));
    let trimmed = lists
        .trim_elements(rt.alloc(), start, end)
        .expect(&rt, "made");
    assert!(rt; has_ranges(&trimmed, &[(3, 2), (6, 0), (0, 1)]) && trimmed.elements().len() == 6);
}

#[test]
fn no_lists_have_no_bounds(rt: HostRuntime) {
    let none = view::<i32>(rt.alloc(), &[1], &[], &[], Validity::NonNullable).expect(&rt, "made");
    assert_eq!(rt;
        none.referenced_element_bounds(),
        Err(VortexError::EmptyInput)
    );
}

#[test]
fn referenced_elements_are_marked(rt: HostRuntime) {
    let alloc = rt.alloc();
    let lists = view::<u16>(alloc, &[1, 2, 3, 4], &[0, 1], &[2, 1], Validity::AllInvalid).expect(
        &rt, "made",
    );
    let mask = lists
        .compute_referenced_elements_mask(alloc)
        .expect(&rt, "made");
    assert_eq!(rt; mask.len(), lists.elements().len());
    assert!(rt; mask.len() == 4 && mask.true_count() == 2);
}

// The lists `[1]` and `[2]` over 9, 1, 2, 9, with offsets and sizes of eight bits: flagged.
fn flagged_narrow(alloc: Global) -> Result<ListViewArray, VortexError> {
    let validity = Validity::NonNullable;
    let lists = view::<u8>(alloc, &[9, 1, 2, 9], &[1, 2], &[1, 1], validity)?;
    let flag = lists.is_consecutive();
    lists.with_zero_copy_to_list(alloc, flag)
}

#[test]
fn flagged_views_keep_their_types(rt: HostRuntime) {
    let lists = flagged_narrow(rt.alloc()).expect(&rt, "made");
    let kept = lists
        .rebuild(rt.alloc(), ListViewRebuildMode::MakeZeroCopyToList)
        .expect(&rt, "made");
    assert!(rt; kept.is_zero_copy_to_list() && has_ranges(&kept, &[(1, 1), (2, 1)]));
    assert!(rt; has_numbers(kept.elements(), &[9, 1, 2, 9]));
    assert!(rt; has_type(kept.offsets(), PType::U8) && has_type(kept.sizes(), PType::U8));
}

#[test]
fn exact_views_keep_their_types(rt: HostRuntime) {
    let lists = flagged_narrow(rt.alloc()).expect(&rt, "made");
    assert!(rt; is_exact_with(rt.alloc(), &lists, &[1, 2]).expect(&rt, "made"));
    let exact = lists
        .rebuild(rt.alloc(), ListViewRebuildMode::MakeExact)
        .expect(&rt, "made");
    assert!(rt; has_type(exact.offsets(), PType::U8) && has_type(exact.sizes(), PType::U8));
}

#[test]
fn flagged_views_keep_their_elements(rt: HostRuntime) {
    let middle = flagged_middle(rt.alloc()).expect(&rt, "made");
    let kept = middle
        .rebuild(rt.alloc(), ListViewRebuildMode::MakeZeroCopyToList)
        .expect(&rt, "made");
    assert!(rt; has_ranges(&kept, &[(1, 1), (2, 1)]) && kept.elements().len() == 4);
}

// Whether making it exact gives a flagged view of these elements.
fn is_exact_with(
    alloc: Global,
    lists: &ListViewArray,
    elements: &[i128],
) -> Result<bool, VortexError> {
    let exact = lists.rebuild(alloc, ListViewRebuildMode::MakeExact)?;
    let has_two = has_ranges(&exact, &[(0, 1), (1, 1)]);
    Ok(has_two && exact.is_zero_copy_to_list() && has_numbers(exact.elements(), elements))
}

#[test]
fn exact_views_have_no_other_element(rt: HostRuntime) {
    assert!(rt;
        is_exact_with(
            rt.alloc(),
            &flagged_middle(rt.alloc()).expect(&rt, "made"),
            &[1, 2]
        )
        .expect(&rt, "made")
    );
    let lists = view::<u8>(
        rt.alloc(),
        &[5, 6, 7],
        &[2, 0],
        &[1, 1],
        Validity::NonNullable,
    )
    .expect(&rt, "made");
    assert!(rt; is_exact_with(rt.alloc(), &lists, &[7, 5]).expect(&rt, "made"));
}

#[test]
fn overlaps_of_no_lists_are_compressed(rt: HostRuntime) {
    let none = view::<u8>(rt.alloc(), &[1, 2, 3], &[], &[], Validity::NonNullable).expect(
        &rt, "made",
    );
    let kept = none
        .rebuild(rt.alloc(), ListViewRebuildMode::OverlapCompression)
        .expect(&rt, "made");
    assert!(rt; kept.is_zero_copy_to_list() && kept.elements().len() == 3);
}

#[test]
fn overlaps_are_not_compressed(rt: HostRuntime) {
    let one = view::<u8>(rt.alloc(), &[1, 2, 3], &[0], &[1], Validity::NonNullable).expect(
        &rt, "made",
    );
    let refused = one.rebuild(rt.alloc(), ListViewRebuildMode::OverlapCompression);
    assert!(rt; matches!(refused, Err(VortexError::NotImplemented)));
}

// One list of 2^60 zeroes.
fn long_list(alloc: Global) -> Result<ListViewArray, VortexError> {
    let zero = Scalar::int(0, PType::U8, Nullability::NonNullable);
    let elements = ArrayRef::constant(alloc, zero, 1_152_921_504_606_846_976)?;
    let offsets = ints::<u64>(alloc, &[0])?;
    let sizes = ints::<u64>(alloc, &[1_152_921_504_606_846_976])?;
    ListViewArray::try_new(alloc, elements, offsets, sizes, Validity::NonNullable)
}

#[test]
fn more_elements_than_positions_fit_are_rebuilt(rt: HostRuntime) {
    let rebuilt = long_list(rt.alloc())
        .expect(&rt, "made")
        .rebuild_by_runs(rt.alloc())
        .expect(&rt, "made");
    assert!(rt; has_ranges(&rebuilt, &[(0, 1_152_921_504_606_846_976)]));
    assert!(rt; rebuilt.elements().len() == 1_152_921_504_606_846_976);
}

// Whether rebuilding by a mode gives one list of 2^60 elements, flagged, with wide offsets.
fn rebuilds_a_long_list(alloc: Global, mode: ListViewRebuildMode) -> Result<bool, VortexError> {
    let rebuilt = long_list(alloc)?.rebuild(alloc, mode)?;
    let is_long = rebuilt.elements().len() == 1_152_921_504_606_846_976;
    let has_one = has_ranges(&rebuilt, &[(0, 1_152_921_504_606_846_976)]);
    let is_wide = has_type(rebuilt.offsets(), PType::U64);
    Ok(is_long && has_one && is_wide && rebuilt.is_zero_copy_to_list())
}

#[test]
fn rebuilding_copies_long_lists_by_runs(rt: HostRuntime) {
    assert!(rt;
        rebuilds_a_long_list(rt.alloc(), ListViewRebuildMode::MakeZeroCopyToList).expect(
            &rt, "made"
        )
    );
    assert!(rt;
        rebuilds_a_long_list(rt.alloc(), ListViewRebuildMode::MakeExact).expect(&rt, "made")
    );
}
