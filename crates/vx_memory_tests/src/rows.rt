// Whether rows are those of a sample.

use std::alloc::Global;
use vx_base::VortexError;
use vx_memory_help::{Compare, deep};
use vx_tree::ArrayRef;

// Whether an array has these rows of another, in this order, null for `None`.
pub(crate) fn has_rows(
    alloc: Global,
    array: &ArrayRef,
    from: &ArrayRef,
    places: &[Option<usize>],
) -> Result<bool, VortexError> {
    if array.len() != places.len() {
        return Ok(false);
    }
    for (i, place) in places.iter().enumerate() {
        if !has_row(alloc, array, i, from, *place)? {
            return Ok(false);
        }
    }
    Ok(true)
}

// Whether row `i` of an array is that row of another, null for `None`.
fn has_row(
    alloc: Global,
    array: &ArrayRef,
    i: usize,
    from: &ArrayRef,
    place: Option<usize>,
) -> Result<bool, VortexError> {
    let row = array.execute_scalar(alloc, i)?;
    let Some(place) = place else {
        return Ok(row.value().is_none());
    };
    let wanted = from.execute_scalar(alloc, place)?;
    Ok(deep().is_same_row(row.value(), wanted.value()))
}
