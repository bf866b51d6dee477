// The tests of `arrays/listview/rebuild.rs`.

use std::alloc::Global;
use vx_base::{NativePType, Nullability, PType, VortexError};
use vx_lists::{ListViewArray, ListViewArrayExt, ListViewRebuildMode};
use vx_test_help::{has_numbers, has_type, ints, valid_where};
use vx_tree::{TypedArray, Validity};

fn view<O: NativePType, S: NativePType>(
    alloc: Global,
    elements: &[i32],
    offsets: &[O],
    sizes: &[S],
    validity: Validity,
) -> Result<ListViewArray, VortexError> {
    let elements = ints(alloc, elements)?;
    let offsets = ints(alloc, offsets)?;
    let sizes = ints(alloc, sizes)?;
    ListViewArray::try_new(alloc, elements, offsets, sizes, validity)
}

// Whether a list starts there and has these numbers.
fn is_list(
    alloc: Global,
    lists: &ListViewArray,
    row: usize,
    start: usize,
    wanted: &[i128],
) -> Result<bool, VortexError> {
    if row >= lists.len() || lists.offset_at(row) != start || lists.size_at(row) != wanted.len() {
        return Ok(false);
    }
    Ok(has_numbers(&lists.list_elements_at(alloc, row)?, wanted))
}

// Whether a row is there and valid.
fn is_valid(alloc: Global, lists: &ListViewArray, row: usize) -> Result<bool, VortexError> {
    if row >= lists.len() {
        return Err(VortexError::EmptyInput);
    }
    lists.as_array().is_valid(alloc, row)
}

#[test]
fn test_rebuild_flatten_removes_overlaps(rt: HostRuntime) {
    let alloc = rt.alloc();
    let lists = view::<u32, u32>(alloc, &[1, 2, 3], &[0, 1], &[3, 2], Validity::NonNullable).expect(
        &rt, "made",
    );
    let flat = lists
        .rebuild(alloc, ListViewRebuildMode::MakeZeroCopyToList)
        .expect(&rt, "made");
    assert_eq!(rt; flat.elements().len(), 5);
    assert!(rt; is_list(alloc, &flat, 0, 0, &[1, 2, 3]).expect(&rt, "made"));
    assert!(rt; is_list(alloc, &flat, 1, 3, &[2, 3]).expect(&rt, "made"));
}

#[test]
fn test_rebuild_flatten_with_nullable(rt: HostRuntime) {
    let alloc = rt.alloc();
    let validity = valid_where(alloc, &[true, false, true]).expect(&rt, "made");
    let lists = view::<u32, u32>(alloc, &[1, 2, 3], &[0, 1, 2], &[2, 1, 1], validity).expect(
        &rt, "made",
    );
    let flat = lists
        .rebuild(alloc, ListViewRebuildMode::MakeZeroCopyToList)
        .expect(&rt, "made");
    assert_eq!(rt; flat.nullability(), Nullability::Nullable);
    assert!(rt;
        is_valid(alloc, &flat, 0).expect(&rt, "made")
            && !is_valid(alloc, &flat, 1).expect(&rt, "made")
    );
    assert!(rt; is_valid(alloc, &flat, 2).expect(&rt, "made"));
    assert!(rt;
        is_list(alloc, &flat, 0, 0, &[1, 2]).expect(&rt, "made")
            && is_list(alloc, &flat, 2, 2, &[3]).expect(&rt, "made")
    );
}

// Lists laid end to end by `rebuild`, as upstream does it, and by each of its two ways.
fn laid_out(alloc: Global, lists: &ListViewArray) -> Result<[ListViewArray; 3], VortexError> {
    Ok([
        lists.rebuild(alloc, ListViewRebuildMode::MakeZeroCopyToList)?,
        lists.rebuild_by_take(alloc)?,
        lists.rebuild_by_runs(alloc)?,
    ])
}

#[test]
fn test_rebuild_flatten_null_row_uses_valid_empty_range(rt: HostRuntime) {
    let alloc = rt.alloc();
    let validity = valid_where(alloc, &[true, false, true]).expect(&rt, "made");
    let lists = view::<u32, u32>(alloc, &[1, 2, 3, 4], &[0, 1, 2], &[1, 2, 2], validity).expect(
        &rt, "made",
    );
    for flat in laid_out(alloc, &lists).expect(&rt, "made") {
        assert!(rt; flat.len() == 3 && has_numbers(flat.elements(), &[1, 3, 4]));
        assert!(rt;
            is_list(alloc, &flat, 0, 0, &[1]).expect(&rt, "made")
                && is_list(alloc, &flat, 1, 1, &[]).expect(&rt, "made")
        );
        assert!(rt; is_list(alloc, &flat, 2, 1, &[3, 4]).expect(&rt, "made"));
        assert!(rt;
            is_valid(alloc, &flat, 0).expect(&rt, "made")
                && !is_valid(alloc, &flat, 1).expect(&rt, "made")
        );
        assert!(rt; is_valid(alloc, &flat, 2).expect(&rt, "made"));
    }
}

#[test]
fn test_rebuild_trim_elements_basic(rt: HostRuntime) {
    let alloc = rt.alloc();
    let elements = [99, 98, 1, 2, 97, 3, 4, 96, 95];
    let lists = view::<u32, u32>(alloc, &elements, &[2, 5], &[2, 2], Validity::NonNullable).expect(
        &rt, "made",
    );
    let trimmed = lists
        .rebuild(alloc, ListViewRebuildMode::TrimElements)
        .expect(&rt, "made");
    assert!(rt; is_list(alloc, &trimmed, 0, 0, &[1, 2]).expect(&rt, "made"));
    assert!(rt; is_list(alloc, &trimmed, 1, 3, &[3, 4]).expect(&rt, "made"));
    assert!(rt; has_numbers(trimmed.elements(), &[1, 2, 97, 3, 4]));
}

// The numbers from one up to another.
fn counted(alloc: Global, start: i32, end: i32) -> Result<Vec<i128>, VortexError> {
    let mut numbers = Vec::new(alloc);
    for number in start..end {
        numbers.push(number as i128)?;
    }
    Ok(numbers)
}

// The elements 10 to 160, and 0 to 130, of the numbers from 0 up to 300.
fn two_large_lists(alloc: Global) -> Result<ListViewArray, VortexError> {
    let mut elements = Vec::new(alloc);
    for number in 0i32..300 {
        elements.push(number)?;
    }
    let validity = Validity::NonNullable;
    view::<u32, u32>(alloc, &elements, &[10, 0], &[150, 130], validity)
}

#[test]
fn test_rebuild_flatten_large_lists_with_piecewise_indices(rt: HostRuntime) {
    let alloc = rt.alloc();
    let lists = two_large_lists(alloc).expect(&rt, "made");
    let first = counted(alloc, 10, 160).expect(&rt, "made");
    let second = counted(alloc, 0, 130).expect(&rt, "made");
    for flat in laid_out(alloc, &lists).expect(&rt, "made") {
        assert!(rt; flat.len() == 2 && flat.is_zero_copy_to_list());
        assert_eq!(rt; flat.elements().len(), 280);
        assert!(rt; is_list(alloc, &flat, 0, 0, &first).expect(&rt, "made"));
        assert!(rt; is_list(alloc, &flat, 1, 150, &second).expect(&rt, "made"));
    }
}

#[test]
fn test_rebuild_with_trailing_nulls_regression(rt: HostRuntime) {
    let alloc = rt.alloc();
    let validity = valid_where(alloc, &[true, true, false, false]).expect(&rt, "made");
    let lists = view::<u32, u32>(
        alloc,
        &[1, 2, 3, 4],
        &[0, 2, 0, 0],
        &[2, 2, 0, 0],
        validity,
    ).expect(&rt, "made");
    let rebuilt = lists
        .rebuild(alloc, ListViewRebuildMode::MakeZeroCopyToList)
        .expect(&rt, "made");
    let exact = rebuilt
        .rebuild(alloc, ListViewRebuildMode::MakeExact)
        .expect(&rt, "made");
    for made in [rebuilt, exact] {
        assert!(rt; made.is_zero_copy_to_list());
        assert!(rt;
            is_list(alloc, &made, 0, 0, &[1, 2]).expect(&rt, "made")
                && is_list(alloc, &made, 1, 2, &[3, 4]).expect(&rt, "made")
        );
        assert!(rt;
            is_list(alloc, &made, 2, 4, &[]).expect(&rt, "made")
                && is_list(alloc, &made, 3, 4, &[]).expect(&rt, "made")
        );
        assert!(rt;
            is_valid(alloc, &made, 0).expect(&rt, "made")
                && is_valid(alloc, &made, 1).expect(&rt, "made")
        );
        assert!(rt;
            !is_valid(alloc, &made, 2).expect(&rt, "made")
                && !is_valid(alloc, &made, 3).expect(&rt, "made")
        );
    }
}

#[test]
fn test_rebuild_trim_elements_offsets_wider_than_sizes(rt: HostRuntime) {
    let alloc = rt.alloc();
    let mut elements = vec![in alloc; 0i32; 70_005].expect(&rt, "made");
    elements[70_000] = 10;
    elements[70_001] = 20;
    elements[70_002] = 30;
    elements[70_003] = 40;
    let validity = Validity::NonNullable;
    let lists = view::<u32, u16>(alloc, &elements, &[70_000, 70_002], &[2, 2], validity).expect(
        &rt, "made",
    );
    let trimmed = lists
        .rebuild(alloc, ListViewRebuildMode::TrimElements)
        .expect(&rt, "made");
    assert!(rt; is_list(alloc, &trimmed, 1, 2, &[30, 40]).expect(&rt, "made"));
}

#[test]
fn test_rebuild_trim_elements_sizes_wider_than_offsets(rt: HostRuntime) {
    let alloc = rt.alloc();
    let mut elements = vec![in alloc; 0i32; 70_001].expect(&rt, "made");
    elements[3] = 30;
    elements[4] = 40;
    let validity = Validity::NonNullable;
    let lists = view::<u16, u32>(alloc, &elements, &[1, 3], &[70_000, 2], validity).expect(
        &rt, "made",
    );
    let trimmed = lists
        .rebuild(alloc, ListViewRebuildMode::TrimElements)
        .expect(&rt, "made");
    assert!(rt; is_list(alloc, &trimmed, 1, 2, &[30, 40]).expect(&rt, "made"));
}

// Upstream's sizes stay of 16 bits; here they grow as offsets do.
#[test]
fn test_rebuild_preserves_signed_offset_and_size_types(rt: HostRuntime) {
    let alloc = rt.alloc();
    let lists = view::<i32, i16>(alloc, &[1, 2, 3], &[0, 1], &[3, 2], Validity::NonNullable).expect(
        &rt, "made",
    );
    let rebuilt = lists
        .rebuild(alloc, ListViewRebuildMode::MakeZeroCopyToList)
        .expect(&rt, "made");
    assert!(rt; is_list(alloc, &rebuilt, 0, 0, &[1, 2, 3]).expect(&rt, "made"));
    assert!(rt; is_list(alloc, &rebuilt, 1, 3, &[2, 3]).expect(&rt, "made"));
    assert!(rt; has_type(rebuilt.offsets(), PType::I32) && has_type(rebuilt.sizes(), PType::I32));
}

#[test]
fn heuristic_small_lists_use_take(rt: HostRuntime) {
    assert!(rt; ListViewArray::should_use_take(127_000, 1_000));
    assert!(rt; !ListViewArray::should_use_take(128_000, 1_000));
}

#[test]
fn test_rebuild_trim_elements_sum_overflows_type(rt: HostRuntime) {
    let alloc = rt.alloc();
    let elements = [0; 261];
    let lists = view::<u8, u8>(
        alloc,
        &elements,
        &[215, 0],
        &[46, 10],
        Validity::NonNullable,
    )
    .expect(&rt, "made");
    let trimmed = lists
        .rebuild(alloc, ListViewRebuildMode::TrimElements)
        .expect(&rt, "made");
    assert_eq!(rt; trimmed.elements().len(), 261);
    assert!(rt; is_list(alloc, &trimmed, 0, 215, &[0; 46]).expect(&rt, "made"));
    assert!(rt; is_list(alloc, &trimmed, 1, 0, &[0; 10]).expect(&rt, "made"));
}
