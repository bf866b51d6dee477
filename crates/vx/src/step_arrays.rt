// Arrays that lists of steps are taken on, and what is asked of the results.

use std::alloc::Global;
use vx_base::{FieldName, FieldNames, VortexError};
use vx_lists::{ListViewArray, ListViewArrayExt};
use vx_run::{Step, run};
use vx_structs::{StructArray, StructArrayExt};
use vx_test_help::{bools, has_numbers_or_nulls, ints, one_column};
use vx_tree::{ArrayRef, TypedArray, Validity};

// The lists [1, 2, 3] and [2, 3], over elements that they share.
pub(crate) fn shared_lists(alloc: Global) -> Result<ArrayRef, VortexError> {
    let elements = ints(alloc, &[1i32, 2, 3])?;
    let offsets = ints(alloc, &[0u32, 1])?;
    let sizes = ints(alloc, &[3u32, 2])?;
    let lists = ListViewArray::try_new(alloc, elements, offsets, sizes, Validity::NonNullable)?;
    Ok(lists.into_array())
}

// The record {a:1}, and a null one that has 2 in the column.
pub(crate) fn one_of_two_records(alloc: Global) -> Result<ArrayRef, VortexError> {
    let column = one_column(alloc, ints(alloc, &[1u8, 2])?)?;
    let validity = Validity::Array(bools(alloc, &[true, false])?);
    let names = FieldNames::try_new(alloc, &["a"])?;
    let records = StructArray::try_new(alloc, names, column.into_iter(), 2, validity)?;
    Ok(records.into_array())
}

// One array of each kind: the numbers 5, 6, 7 as array 0, the truth values true, false, true as
// array 1, two lists as array 2, two records as array 3 and the indices 1, 0 as array 4.
pub(crate) fn of_each_kind(alloc: Global) -> Result<Vec<ArrayRef>, VortexError> {
    let mut arrays = one_column(alloc, ints(alloc, &[5i32, 6, 7])?)?;
    arrays.push(bools(alloc, &[true, false, true])?)?;
    arrays.push(shared_lists(alloc)?)?;
    arrays.push(one_of_two_records(alloc)?)?;
    arrays.push(ints(alloc, &[1u8, 0])?)?;
    Ok(arrays)
}

// Positions of arrays.
pub(crate) fn positions(alloc: Global, items: &[usize]) -> Result<Vec<usize>, VortexError> {
    Ok(items.to_vec(alloc)?)
}

// Names of fields.
pub(crate) fn names(alloc: Global, texts: &[&str]) -> Result<Vec<FieldName>, VortexError> {
    let mut names = Vec::new(alloc);
    for text in texts {
        names.push(FieldName::try_new(alloc, text)?)?;
    }
    Ok(names)
}

// Whether an array is one list of these numbers.
pub(crate) fn is_one_list(
    alloc: Global,
    array: ArrayRef,
    wanted: &[Option<i128>],
) -> Result<bool, VortexError> {
    let Ok(lists) = ListViewArray::try_from_array(array) else {
        return Ok(false);
    };
    if lists.len() != 1 {
        return Ok(false);
    }
    let elements = lists.list_elements_at(alloc, 0)?;
    Ok(has_numbers_or_nulls(&elements, wanted))
}

// Whether a row of records is null, for `None`, or has these fields of numbers in this order.
pub(crate) fn has_record(
    alloc: Global,
    array: &ArrayRef,
    row: usize,
    wanted: Option<&[(&str, Option<i128>)]>,
) -> Result<bool, VortexError> {
    let Ok(records) = StructArray::try_from_array(array.try_clone(alloc)?) else {
        return Ok(false);
    };
    let Some(wanted) = wanted else {
        return Ok(!array.is_valid(alloc, row)?);
    };
    let names = records.names();
    let columns = records.fields();
    if names.len() != wanted.len() || columns.len() != wanted.len() {
        return Ok(false);
    }
    for (i, (name, number)) in wanted.iter().enumerate() {
        if names.get(i).as_str() != *name || !has_number(&columns[i], row, *number) {
            return Ok(false);
        }
    }
    array.is_valid(alloc, row)
}

// Whether a row of a column is this number, or null for `None`.
fn has_number(column: &ArrayRef, row: usize, wanted: Option<i128>) -> bool {
    column.dtype().is_int() && row < column.len() && column.int_at(row) == wanted
}

// What one step makes of arrays of each kind, or why it is refused.
pub(crate) fn taken(alloc: Global, step: Step) -> Result<ArrayRef, VortexError> {
    match run(alloc, of_each_kind(alloc)?, &[step]) {
        Ok(mut results) => results.pop().ok_or(VortexError::EmptyInput),
        Err(fault) => Err(fault.error),
    }
}
