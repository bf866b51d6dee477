// Arrays by their types.

use vx_base::VortexError;
use vx_memory_help::{Compare, deep};
use vx_tree::{ArrayRef, TypedArray};

// An array as one of a type.
pub(crate) fn typed<T: TypedArray>(array: ArrayRef) -> Result<T, VortexError> {
    match T::try_from_array(array) {
        Ok(array) => Ok(array),
        Err(_) => Err(VortexError::MismatchedTypes),
    }
}

// Whether both are alike.
pub(crate) fn is_same<T: TypedArray>(one: &T, other: &T) -> bool {
    deep().is_alike(one.as_array(), other.as_array())
}
