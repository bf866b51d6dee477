//! Whether a row of an array is what it should be.

use std::alloc::Global;
use vx_base::{ScalarValue, VortexError};
use vx_tree::{ArrayRef, Layout};

/// Whether row `i` is null.
pub fn is_null(alloc: Global, array: &ArrayRef, i: usize) -> Result<bool, VortexError> {
    Ok(array.execute_scalar(alloc, i)?.is_null())
}

/// Whether row `i` is this number, or null where there is none.
pub fn is_number(array: &ArrayRef, i: usize, want: Option<i128>) -> bool {
    if !array.dtype().is_int() || array.len() <= i {
        return false;
    }
    array.int_at(i) == want
}

/// Whether row `i` is this truth value, or null where there is none.
pub fn is_truth(
    alloc: Global,
    array: &ArrayRef,
    i: usize,
    want: Option<bool>,
) -> Result<bool, VortexError> {
    let is_valid = array.is_valid(alloc, i)?;
    let Some(want) = want else {
        return Ok(!is_valid);
    };
    let Layout::Bool { bits, .. } = array.layout() else {
        return Ok(false);
    };
    if !is_valid || bits.len() <= i {
        return Ok(false);
    }
    Ok(bits.value(i) == want)
}

/// Whether row `i` is this text.
pub fn is_text(
    alloc: Global,
    array: &ArrayRef,
    i: usize,
    text: &[u8],
) -> Result<bool, VortexError> {
    let row = array.execute_scalar(alloc, i)?;
    Ok(match row.value() {
        Some(ScalarValue::Text(value)) => value.as_slice() == text,
        _ => false,
    })
}

// Row `i` of an array that has to have numbers.
fn number(array: &ArrayRef, i: usize) -> Result<Option<i128>, VortexError> {
    if !array.dtype().is_int() || array.len() <= i {
        return Err(VortexError::MismatchedTypes);
    }
    Ok(array.int_at(i))
}

// A row of lists of numbers: none where it is null.
fn list(alloc: Global, array: &ArrayRef, i: usize) -> Result<Option<Vec<i128>>, VortexError> {
    if !array.is_valid(alloc, i)? {
        return Ok(None);
    }
    let mut row = Vec::new(alloc);
    if let Layout::ListView {
        elements,
        offsets,
        sizes,
        ..
    } = array.layout()
    {
        let start = number(offsets, i)?.unwrap_or(0);
        let end = start.saturating_add(number(sizes, i)?.unwrap_or(0));
        for place in 0..elements.len() {
            if start <= place as i128 && (place as i128) < end {
                row.push(number(elements, place)?.unwrap_or(0))?;
            }
        }
    }
    Ok(Some(row))
}

/// Whether row `i` of list views of numbers is this list, or null where there is none.
pub fn is_list(
    alloc: Global,
    array: &ArrayRef,
    i: usize,
    want: Option<&[i128]>,
) -> Result<bool, VortexError> {
    let row = list(alloc, array, i)?;
    Ok(match (&row, want) {
        (Some(row), Some(want)) => row.as_slice() == want,
        (row, want) => row.is_some() == want.is_some(),
    })
}

/// Whether these numbers stand among the elements of lists of one size, from a place on.
pub fn has_elements(array: &ArrayRef, start: usize, want: &[i128]) -> bool {
    let Layout::FixedSizeList { elements, .. } = array.layout() else {
        return false;
    };
    for (place, wanted) in want.iter().enumerate() {
        if !is_number(elements, start.saturating_add(place), Some(*wanted)) {
            return false;
        }
    }
    true
}

/// Whether row `i` of records of two columns has this number and this truth value, or is null where
/// there are none.
pub fn is_record(
    alloc: Global,
    array: &ArrayRef,
    i: usize,
    want: Option<(i128, bool)>,
) -> Result<bool, VortexError> {
    let is_valid = array.is_valid(alloc, i)?;
    let Some((first, second)) = want else {
        return Ok(!is_valid);
    };
    let Layout::Struct { columns, .. } = array.layout() else {
        return Ok(false);
    };
    if !is_valid || columns.len() != 2 {
        return Ok(false);
    }
    if !is_number(&columns[0], i, Some(first)) {
        return Ok(false);
    }
    is_truth(alloc, &columns[1], i, Some(second))
}
