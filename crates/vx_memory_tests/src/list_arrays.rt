// List views and lists of one size.

use crate::rows::has_rows;
use crate::samples::{first_and_last, lists_of, lists_of_texts, mostly_empty_lists, pairs};
use crate::typed::{is_same, typed};
use std::alloc::Global;
use vx_base::VortexError;
use vx_lists::{
    FixedSizeListArray, FixedSizeListArrayExt, FixedSizeListData, ListViewArray, ListViewArrayExt,
    ListViewData, ListViewRebuildMode,
};
use vx_memory_help::{Compare, End, deep, judged};
use vx_test_help::ints;
use vx_tree::{TypedArray, Validity};

// The lists [3, 4], [1] and [2, 3].
fn lists(alloc: Global) -> Result<ListViewArray, VortexError> {
    typed(lists_of(alloc, ints(alloc, &[1u16, 2, 3, 4])?)?)
}

// The lists [1] and [2].
fn two_lists(alloc: Global) -> Result<ListViewArray, VortexError> {
    let elements = ints(alloc, &[1u8, 2])?;
    let (offsets, sizes) = (ints(alloc, &[0u8, 1])?, ints(alloc, &[1u8, 1])?);
    let validity = Validity::NonNullable;
    ListViewData::validate(&elements, &offsets, &sizes, &validity)?;
    ListViewArray::new(alloc, elements, offsets, sizes, validity)
}

// `ListViewArray::new` and `ListViewArray::with_zero_copy_to_list`.
fn made(alloc: Global) -> Result<bool, VortexError> {
    let lists = two_lists(alloc)?;
    let follow = lists.is_consecutive();
    let flagged = lists.with_zero_copy_to_list(alloc, follow)?;
    Ok(follow && flagged.is_zero_copy_to_list() && flagged.len() == 2)
}

#[test]
fn list_views_that_are_made(rt: HostRuntime) -> Result<(), End> {
    judged(made(rt.alloc()), true)
}

// The lists [3, 4], [1] and [2, 3], tested.
fn tested(alloc: Global) -> Result<ListViewArray, VortexError> {
    let elements = ints(alloc, &[1u16, 2, 3, 4])?;
    let (offsets, sizes) = (ints(alloc, &[2u8, 0, 1])?, ints(alloc, &[2u8, 1, 2])?);
    ListViewArray::try_new(alloc, elements, offsets, sizes, Validity::NonNullable)
}

// `ListViewArray::try_new`.
fn tested_alike(alloc: Global, lists: &ListViewArray) -> Result<bool, VortexError> {
    let again = tested(alloc)?;
    Ok(is_same(&again, lists))
}

// `ListViewArray::to_data` and `ListViewArrayExt::listview_validity`.
fn read(alloc: Global, lists: &ListViewArray) -> Result<bool, VortexError> {
    let data = lists.to_data(alloc)?;
    let validity = lists.listview_validity(alloc)?;
    Ok(!data.is_zero_copy_to_list() && matches!(validity, Validity::NonNullable))
}

// `ListViewArrayExt::list_elements_at`.
fn has_last(alloc: Global, lists: &ListViewArray) -> Result<bool, VortexError> {
    if lists.len() != 3 {
        return Ok(false);
    }
    let last = lists.list_elements_at(alloc, 2)?;
    has_rows(alloc, &last, lists.elements(), &[Some(1), Some(2)])
}

// `ListViewArray::slots` and `ListViewArray::into_data_parts`.
fn parts(alloc: Global, lists: &ListViewArray) -> Result<bool, VortexError> {
    let slots = lists.slots(alloc)?;
    let parts = lists.try_clone(alloc)?.into_data_parts(alloc)?;
    Ok(
        slots.validity.is_none()
            && deep().is_alike(&slots.elements, lists.elements())
            && deep().is_alike(&parts.elements, lists.elements()),
    )
}

// The calls that read a list view.
fn read_calls(alloc: Global, lists: &ListViewArray) -> Result<bool, VortexError> {
    Ok(
        tested_alike(alloc, lists)?
            && read(alloc, lists)?
            && has_last(alloc, lists)?
            && parts(alloc, lists)?,
    )
}

#[test]
fn list_views_that_are_read(rt: HostRuntime) -> Result<(), End> {
    let (given, copy) = (lists(rt.alloc())?, lists(rt.alloc())?);
    judged(read_calls(rt.alloc(), &given), is_same(&given, &copy))
}

// Whether lists have the rows of the given ones.
fn has_all(
    alloc: Global,
    some: &ListViewArray,
    lists: &ListViewArray,
) -> Result<bool, VortexError> {
    let places = [Some(0), Some(1), Some(2)];
    has_rows(alloc, some.as_array(), lists.as_array(), &places)
}

// `ListViewArray::rebuild_by_take` and `ListViewArray::rebuild_by_runs`.
fn rebuilt(alloc: Global, lists: &ListViewArray) -> Result<bool, VortexError> {
    let taken = lists.rebuild_by_take(alloc)?;
    let runs = lists.rebuild_by_runs(alloc)?;
    Ok(has_all(alloc, &taken, lists)? && has_all(alloc, &runs, lists)?)
}

// `ListViewArray::rebuild`.
fn rebuilt_by(
    alloc: Global,
    lists: &ListViewArray,
    mode: ListViewRebuildMode,
) -> Result<bool, VortexError> {
    let made = lists.rebuild(alloc, mode)?;
    has_all(alloc, &made, lists)
}

// `ListViewArrayExt::compute_referenced_elements_mask` and `ListViewArray::trim_elements`.
fn trimmed(alloc: Global, lists: &ListViewArray) -> Result<bool, VortexError> {
    let mask = lists.compute_referenced_elements_mask(alloc)?;
    let (start, end) = lists.referenced_element_bounds()?;
    let trimmed = lists.trim_elements(alloc, start, end)?;
    Ok(mask.true_count() == 4 && has_all(alloc, &trimmed, lists)?)
}

// The calls that rebuild a list view.
fn rebuild_calls(alloc: Global, lists: &ListViewArray) -> Result<bool, VortexError> {
    Ok(
        rebuilt(alloc, lists)?
            && rebuilt_by(alloc, lists, ListViewRebuildMode::MakeZeroCopyToList)?
            && rebuilt_by(alloc, lists, ListViewRebuildMode::MakeExact)?
            && rebuilt_by(alloc, lists, ListViewRebuildMode::TrimElements)?
            && trimmed(alloc, lists)?,
    )
}

#[test]
fn list_views_that_are_rebuilt(rt: HostRuntime) -> Result<(), End> {
    let (given, copy) = (lists(rt.alloc())?, lists(rt.alloc())?);
    judged(rebuild_calls(rt.alloc(), &given), is_same(&given, &copy))
}

#[test]
fn list_views_of_texts_that_are_rebuilt(rt: HostRuntime) -> Result<(), End> {
    let given: ListViewArray = typed(lists_of_texts(rt.alloc())?)?;
    let copy: ListViewArray = typed(lists_of_texts(rt.alloc())?)?;
    judged(rebuild_calls(rt.alloc(), &given), is_same(&given, &copy))
}

// Whether lists have the rows of eight given ones.
fn has_eight(
    alloc: Global,
    some: &ListViewArray,
    lists: &ListViewArray,
) -> Result<bool, VortexError> {
    let places = [
        Some(0),
        Some(1),
        Some(2),
        Some(3),
        Some(4),
        Some(5),
        Some(6),
        Some(7),
    ];
    has_rows(alloc, some.as_array(), lists.as_array(), &places)
}

// `ListViewArray::rebuild_by_take`, `ListViewArray::rebuild_by_runs` and `ListViewArray::rebuild`.
fn eight_rebuilt(alloc: Global, lists: &ListViewArray) -> Result<bool, VortexError> {
    let taken = lists.rebuild_by_take(alloc)?;
    let runs = lists.rebuild_by_runs(alloc)?;
    let made = lists.rebuild(alloc, ListViewRebuildMode::MakeExact)?;
    Ok(
        has_eight(alloc, &taken, lists)?
            && has_eight(alloc, &runs, lists)?
            && has_eight(alloc, &made, lists)?,
    )
}

#[test]
fn list_views_with_few_elements_that_are_rebuilt(rt: HostRuntime) -> Result<(), End> {
    let given: ListViewArray = typed(mostly_empty_lists(rt.alloc())?)?;
    let copy: ListViewArray = typed(mostly_empty_lists(rt.alloc())?)?;
    judged(eight_rebuilt(rt.alloc(), &given), is_same(&given, &copy))
}

// The lists [1, 2], null, [5, 6].
fn fixed(alloc: Global) -> Result<FixedSizeListArray, VortexError> {
    typed(pairs(alloc)?)
}

// The lists [1, 2], null, [5, 6], asked to be well formed.
fn fixed_asked(alloc: Global) -> Result<FixedSizeListArray, VortexError> {
    let elements = ints(alloc, &[1u8, 2, 3, 4, 5, 6])?;
    let validity = first_and_last(alloc)?;
    FixedSizeListData::validate(&elements, 3, 2, &validity)?;
    FixedSizeListArray::new(alloc, elements, 2, validity, 3)
}

// The lists [1, 2], null, [5, 6], tested.
fn fixed_tested(alloc: Global) -> Result<FixedSizeListArray, VortexError> {
    let elements = ints(alloc, &[1u8, 2, 3, 4, 5, 6])?;
    FixedSizeListArray::try_new(alloc, elements, 2, first_and_last(alloc)?, 3)
}

// `FixedSizeListArray::new` and `FixedSizeListArray::try_new`.
fn fixed_made(alloc: Global, lists: &FixedSizeListArray) -> Result<bool, VortexError> {
    let asked = fixed_asked(alloc)?;
    let tested = fixed_tested(alloc)?;
    Ok(is_same(&asked, lists) && is_same(&tested, lists))
}

// `FixedSizeListArray::to_data` and `FixedSizeListArrayExt::fixed_size_list_elements_at`.
fn fixed_read(alloc: Global, lists: &FixedSizeListArray) -> Result<bool, VortexError> {
    lists.to_data(alloc)?;
    if lists.len() != 3 {
        return Ok(false);
    }
    let last = lists.fixed_size_list_elements_at(alloc, 2)?;
    has_rows(alloc, &last, lists.elements(), &[Some(4), Some(5)])
}

// `FixedSizeListArrayExt::fixed_size_list_validity`.
fn has_fixed_validity(
    alloc: Global,
    lists: &FixedSizeListArray,
    wanted: &Validity,
) -> Result<bool, VortexError> {
    let validity = lists.fixed_size_list_validity(alloc)?;
    Ok(deep().is_same_validity(&validity, wanted))
}

// `FixedSizeListArray::slots` and `FixedSizeListArray::into_data_parts`.
fn fixed_parts(alloc: Global, lists: &FixedSizeListArray) -> Result<bool, VortexError> {
    let slots = lists.slots(alloc)?;
    let parts = lists.try_clone(alloc)?.into_data_parts(alloc)?;
    Ok(
        slots.validity.is_some()
            && deep().is_alike(&slots.elements, &parts.elements)
            && has_fixed_validity(alloc, lists, &parts.validity)?,
    )
}

// All calls on lists of one size.
fn fixed_calls(alloc: Global, lists: &FixedSizeListArray) -> Result<bool, VortexError> {
    Ok(fixed_made(alloc, lists)? && fixed_read(alloc, lists)? && fixed_parts(alloc, lists)?)
}

#[test]
fn lists_of_one_size(rt: HostRuntime) -> Result<(), End> {
    let (given, copy) = (fixed(rt.alloc())?, fixed(rt.alloc())?);
    judged(fixed_calls(rt.alloc(), &given), is_same(&given, &copy))
}
