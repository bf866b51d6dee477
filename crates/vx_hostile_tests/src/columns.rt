// What the tests hand in.

use std::alloc::Global;
use vx_base::{Nullability, PType, Scalar, VortexError};
use vx_tree::ArrayRef;

// So many zeros of one byte, that take no room.
pub(crate) fn zeros(alloc: Global, len: usize) -> Result<ArrayRef, VortexError> {
    let zero = Scalar::int(0, PType::U8, Nullability::NonNullable);
    ArrayRef::constant(alloc, zero, len)
}
