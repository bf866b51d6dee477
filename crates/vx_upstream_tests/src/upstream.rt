// A file for each of upstream's files of tests.

mod bool_array;
mod build_views;
mod dict_array;
mod list_view_rebuild;
mod validity;

use std::alloc::Global;
use vx_base::{Buffer, NativePType, VortexError};
use vx_leaves::PrimitiveArray;
use vx_tree::{ArrayRef, TypedArray, Validity};

// Numbers, null where the validity is false.
fn numbers<T: NativePType + Drop>(
    alloc: Global,
    items: &[T],
    validity: Validity,
) -> Result<ArrayRef, VortexError> {
    let items = Buffer::copy_from(alloc, items)?;
    Ok(PrimitiveArray::try_new(alloc, items, validity)?.into_array())
}
