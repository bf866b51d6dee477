// Arrays that a line spells out. Each is the refusal `HasNulls` where it has a null that may not
// be.

use crate::byte_items::ByteItems;
use crate::faults::LineFault;
use crate::hexadecimal::read_bytes;
use crate::operands::{integer_of, integer_within, truth_value};
use num_traits::Zero;
use std::alloc::Global;
use vx_base::{
    BitBufferMut, BufferMut, DType, NativePType, Nullability, PType, Scalar, ScalarValue,
    VortexError, call_native,
};
use vx_leaves::{BoolArray, PrimitiveArray};
use vx_text::VarBinViewArray;
use vx_tree::{ArrayRef, TypedArray, Validity};

// The array that a line spells out, or why it is refused once the whole line was read.
pub(crate) type Literal = Result<ArrayRef, VortexError>;

// The integers of a list. Refuses `Syntax` where an item is none of the type.
pub(crate) fn integer_array(
    alloc: Global,
    ptype: PType,
    nullability: Nullability,
    list: &[u8],
) -> Result<Literal, LineFault> {
    let items = list_items(alloc, list)?;
    call_native!(ptype, primitive_array(alloc, nullability, &items))
}

// The same of the items, with 0 where one is null.
fn primitive_array<T: NativePType + Drop>(
    alloc: Global,
    nullability: Nullability,
    items: &[Option<&[u8]>],
) -> Result<Literal, LineFault> {
    let mut values = BufferMut::<T>::with_capacity(alloc, items.len())?;
    for item in items {
        let value = match *item {
            None => T::zero(),
            Some(word) => integer_within(word).ok_or(LineFault::Syntax)?,
        };
        values.push(value)?;
    }
    let Some(validity) = validity_of(alloc, nullability, items)? else {
        return Ok(Err(VortexError::HasNulls));
    };
    let array = PrimitiveArray::try_new(alloc, values.freeze()?, validity)?;
    Ok(Ok(array.into_array()))
}

// The truth values of a list, with false where an item is null. Refuses `Syntax` where an item is
// none.
pub(crate) fn boolean_array(
    alloc: Global,
    nullability: Nullability,
    list: &[u8],
) -> Result<Literal, LineFault> {
    let items = list_items(alloc, list)?;
    let mut bits = BitBufferMut::with_capacity(alloc, items.len())?;
    for item in &items {
        let bit = match *item {
            None => false,
            Some(word) => truth_value(word).ok_or(LineFault::Syntax)?,
        };
        bits.append(bit)?;
    }
    let Some(validity) = validity_of(alloc, nullability, &items)? else {
        return Ok(Err(VortexError::HasNulls));
    };
    let array = BoolArray::try_new(alloc, bits.freeze()?, validity)?;
    Ok(Ok(array.into_array()))
}

// The texts or byte lists of a list; refused as `VarBinViewArray::from_iter` refuses them: at the
// first faulty item `HasNulls` or, of texts, `NotUtf8`. Refuses `Syntax` where an item is none.
pub(crate) fn text_array(alloc: Global, dtype: DType, list: &[u8]) -> Result<Literal, LineFault> {
    let values = ByteItems::read(alloc, &list_items(alloc, list)?)?;
    let items = values.lend(alloc)?;
    match VarBinViewArray::from_iter(alloc, items.into_iter(), dtype) {
        Ok(array) => Ok(Ok(array.into_array())),
        Err(refusal) => Ok(Err(refusal)),
    }
}

// One item, `len` times; `MismatchedTypes` where it is a text that is not UTF-8. Refuses `Syntax`
// where the item is none of the data type.
pub(crate) fn constant_array(
    alloc: Global,
    dtype: DType,
    item: &[u8],
    len: usize,
) -> Result<Literal, LineFault> {
    let value = match item {
        b"null" => None,
        item => Some(scalar_value(alloc, &dtype, item)?),
    };
    if value.is_none() && !dtype.is_nullable() {
        return Ok(Err(VortexError::HasNulls));
    }
    match Scalar::try_new(dtype, value) {
        Ok(scalar) => Ok(Ok(ArrayRef::constant(alloc, scalar, len)?)),
        Err(refusal) => Ok(Err(refusal)),
    }
}

// The value that an item writes. Refuses `Syntax` where it writes none of the data type.
fn scalar_value(alloc: Global, dtype: &DType, item: &[u8]) -> Result<ScalarValue, LineFault> {
    match dtype {
        DType::Primitive(ptype, _) => integer_of(*ptype, item).map(ScalarValue::Int),
        DType::Bool(_) => truth_value(item).map(ScalarValue::Bool),
        DType::Utf8(_) => Some(ScalarValue::Text(read_bytes(alloc, item)?)),
        DType::Binary(_) => Some(ScalarValue::Bytes(read_bytes(alloc, item)?)),
        _ => None,
    }
    .ok_or(LineFault::Syntax)
}

// The items of a list, `None` for a null: none for `-`, else those that commas join.
fn list_items(alloc: Global, list: &[u8]) -> Result<Vec<Option<&[u8]>>, VortexError> {
    let mut items = Vec::new(alloc);
    if list == b"-".as_slice() {
        return Ok(items);
    }
    for word in list.split(|byte| *byte == b',') {
        items.push(match word {
            b"null" => None,
            word => Some(word),
        })?;
    }
    Ok(items)
}

// The validity of items, of which those that are `None` are null; `None` where one is and none may
// be.
fn validity_of(
    alloc: Global,
    nullability: Nullability,
    items: &[Option<&[u8]>],
) -> Result<Option<Validity>, VortexError> {
    let has_nulls = items.iter().any(|item| item.is_none());
    match nullability {
        Nullability::NonNullable if has_nulls => Ok(None),
        Nullability::NonNullable => Ok(Some(Validity::NonNullable)),
        Nullability::Nullable if has_nulls => {
            let mut present = BitBufferMut::with_capacity(alloc, items.len())?;
            for item in items {
                present.append(item.is_some())?;
            }
            let present = BoolArray::try_new(alloc, present.freeze()?, Validity::NonNullable)?;
            Ok(Some(Validity::Array(present.into_array())))
        }
        Nullability::Nullable => Ok(Some(Validity::AllValid)),
    }
}
