// Operations on lists.

use crate::data::{AT_RANDOM, ListShape, Scale, list_view, lists_over, numbers_below, text_array};
use crate::fault::Fault;
use crate::made::Made;
use crate::operation::Operation;
use std::alloc::Global;
use vx_base::VortexError;
use vx_lists::{FixedSizeListArray, ListViewArray, ListViewRebuildMode};
use vx_tree::{ArrayRef, TypedArray, Validity};

// Lists of four elements, one after another.
const IN_ORDER: ListShape = ListShape {
    size: 4,
    in_order: true,
    some_null: false,
};

// Lists, and what is done with them.
#[derive(Drop)]
pub(crate) enum ListOperation {
    // Rebuilding into the canonical layout of lists.
    Rebuild(ListViewArray),
    // So many slices of 400 rows, each let go at once.
    Slice(ArrayRef, usize),
    // The checks of the parts of a list view.
    TryNew(ListViewArray),
    // Whether each list ends where the next one starts.
    IsConsecutive(ListViewArray),
    // The checks of the elements of lists of a fixed size, so many of them.
    FixedTryNew(ArrayRef, usize),
}

impl Operation for ListOperation {
    fn run(&mut self, alloc: Global) -> Result<Made, Fault> {
        match &*self {
            ListOperation::Rebuild(lists) => {
                let mode = ListViewRebuildMode::MakeZeroCopyToList;
                Ok(Made::Lists(lists.rebuild(alloc, mode)?))
            }
            ListOperation::Slice(array, count) => slice(alloc, array, *count),
            ListOperation::TryNew(lists) => Ok(Made::Lists(try_new(alloc, lists)?)),
            ListOperation::IsConsecutive(lists) => {
                Ok(Made::Number(lists.is_consecutive() as u64))
            }
            ListOperation::FixedTryNew(elements, rows) => {
                let made = fixed_try_new(alloc, elements, *rows)?;
                Ok(Made::Array(made.into_array()))
            }
        }
    }
}

fn slice(alloc: Global, array: &ArrayRef, count: usize) -> Result<Made, Fault> {
    let mut rows = 0u64;
    for i in 0..count {
        let start = i % 500;
        let slice = array.slice(alloc, start..start + 400)?;
        rows = rows.wrapping_add(slice.len() as u64);
    }
    Ok(Made::Number(rows))
}

fn try_new(alloc: Global, lists: &ListViewArray) -> Result<ListViewArray, VortexError> {
    let elements = lists.elements().try_clone(alloc)?;
    let offsets = lists.offsets().try_clone(alloc)?;
    let sizes = lists.sizes().try_clone(alloc)?;
    ListViewArray::try_new(alloc, elements, offsets, sizes, Validity::NonNullable)
}

fn fixed_try_new(
    alloc: Global,
    elements: &ArrayRef,
    rows: usize,
) -> Result<FixedSizeListArray, VortexError> {
    let elements = elements.try_clone(alloc)?;
    FixedSizeListArray::try_new(alloc, elements, 4, Validity::NonNullable, rows)
}

// The lists that an operation of rebuilding has.
fn shape_of(name: &str) -> ListShape {
    match name {
        "rebuild_in_order" => IN_ORDER,
        "rebuild_at_random" => AT_RANDOM,
        "rebuild_in_order_null" => ListShape {
            some_null: true,
            ..IN_ORDER
        },
        "rebuild_at_random_null" => ListShape {
            some_null: true,
            ..AT_RANDOM
        },
        _ => ListShape {
            size: 40,
            ..IN_ORDER
        },
    }
}

// The lists that are rebuilt: of numbers, of as many texts as there are rows, or of as many lists.
fn lists_of(alloc: Global, scale: Scale, name: &str) -> Result<ListViewArray, Fault> {
    match name {
        "rebuild_lists_of_texts" => lists_over(alloc, text_array(alloc, scale.rows())?, AT_RANDOM),
        "rebuild_lists_of_lists" => {
            let lists = list_view(alloc, scale, IN_ORDER)?;
            lists_over(alloc, lists.into_array(), AT_RANDOM)
        }
        _ => list_view(alloc, scale, shape_of(name)),
    }
}

// An operation on lists.
pub(crate) fn ready(alloc: Global, scale: Scale, name: &str) -> Result<ListOperation, Fault> {
    let rows = scale.rows();
    match name {
        "slice_list_view" => {
            let array = list_view(alloc, scale, AT_RANDOM)?.into_array();
            Ok(ListOperation::Slice(array, rows / 10))
        }
        "list_view_try_new" => Ok(ListOperation::TryNew(list_view(alloc, scale, AT_RANDOM)?)),
        "is_consecutive" => Ok(ListOperation::IsConsecutive(list_view(alloc, scale, IN_ORDER)?)),
        "fixed_lists_try_new" => {
            let elements = numbers_below(alloc, 4 * rows, u32::MAX, 1)?;
            Ok(ListOperation::FixedTryNew(elements, rows))
        }
        _ => Ok(ListOperation::Rebuild(lists_of(alloc, scale, name)?)),
    }
}
