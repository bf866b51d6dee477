// Arrays of numbers.

use crate::samples::{first_and_last, numbers};
use crate::typed::{is_same, typed};
use std::alloc::Global;
use vx_base::{Buffer, ByteBuffer, Nullability, PType, VortexError};
use vx_leaves::{PrimitiveArray, PrimitiveArrayExt, PrimitiveData};
use vx_memory_help::{End, deep, judged};
use vx_tree::{TypedArray, Validity};

// The numbers 7, null and -9 of type i16.
fn given(alloc: Global) -> Result<PrimitiveArray, VortexError> {
    typed(numbers(alloc)?)
}

// The numbers 3 and 4.
fn two(alloc: Global) -> Result<Buffer<u16>, VortexError> {
    Buffer::copy_from(alloc, &[3u16, 4])
}

// The numbers 3 and 4 as an array.
fn two_as_array(alloc: Global) -> Result<PrimitiveArray, VortexError> {
    PrimitiveArray::new(alloc, two(alloc)?, Validity::NonNullable)
}

// The numbers 3 and 4 as data.
fn two_as_data(alloc: Global) -> Result<PrimitiveData, VortexError> {
    PrimitiveData::new(alloc, two(alloc)?, Validity::NonNullable)
}

// The bytes of the numbers 3 and 4.
const TWO: &[u8] = &[3, 0, 4, 0];

// The bytes of the numbers 7 and 9.
fn seven_and_nine(alloc: Global) -> Result<ByteBuffer, VortexError> {
    ByteBuffer::copy_from(alloc, &[7, 0, 9, 0])
}

// Whether these are the bytes of an array.
fn has_bytes(array: &PrimitiveArray, bytes: &[u8]) -> bool {
    array.buffer_handle().as_slice() == bytes
}

// Whether these are the bytes of numbers.
fn are_bytes(data: &PrimitiveData, bytes: &[u8]) -> bool {
    data.buffer_handle().as_slice() == bytes
}

// `PrimitiveArray::empty`.
fn none(alloc: Global) -> Result<bool, VortexError> {
    let empty = PrimitiveArray::empty::<u16>(alloc, Nullability::Nullable)?;
    Ok(empty.is_empty())
}

// `PrimitiveArray::new` and `PrimitiveArray::try_new`.
fn of_buffers(alloc: Global) -> Result<bool, VortexError> {
    let made = two_as_array(alloc)?;
    let tested = PrimitiveArray::try_new(alloc, two(alloc)?, Validity::AllValid)?;
    Ok(has_bytes(&made, TWO) && has_bytes(&tested, TWO))
}

// `PrimitiveArray::from_byte_buffer`.
fn of_all_bytes(alloc: Global, bytes: &ByteBuffer) -> Result<bool, VortexError> {
    let bytes = bytes.try_clone(alloc)?;
    let all = PrimitiveArray::from_byte_buffer(alloc, bytes, PType::U16, Validity::AllValid)?;
    Ok(has_bytes(&all, &[7, 0, 9, 0]))
}

// `PrimitiveArray::from_values_byte_buffer`.
fn of_valid_bytes(alloc: Global, bytes: &ByteBuffer) -> Result<bool, VortexError> {
    let bytes = bytes.try_clone(alloc)?;
    let valid = first_and_last(alloc)?;
    let some = PrimitiveArray::from_values_byte_buffer(alloc, bytes, PType::U16, valid, 3)?;
    Ok(has_bytes(&some, &[7, 0, 0, 0, 9, 0]))
}

// `PrimitiveArray::from_iter` and `PrimitiveArray::from_option_iter`.
fn of_items(alloc: Global) -> Result<bool, VortexError> {
    let items = [Some(7u16), None];
    let optional = PrimitiveArray::from_option_iter(alloc, items.iter().copied())?;
    let items = [7u16, 9];
    let listed = PrimitiveArray::from_iter(alloc, items.iter().copied())?;
    Ok(has_bytes(&optional, &[7, 0, 0, 0]) && has_bytes(&listed, &[7, 0, 9, 0]))
}

// The calls that make arrays of no bytes.
fn made_calls(alloc: Global) -> Result<bool, VortexError> {
    Ok(none(alloc)? && of_buffers(alloc)? && of_items(alloc)?)
}

#[test]
fn numbers_that_are_made(rt: HostRuntime) -> Result<(), End> {
    judged(made_calls(rt.alloc()), true)
}

// `PrimitiveArray::to_buffer` and `PrimitiveArray::into_buffer`.
fn to_buffers(alloc: Global, array: &PrimitiveArray) -> Result<bool, VortexError> {
    let PType::U16 = array.ptype() else {
        return Ok(false);
    };
    let read = array.to_buffer::<u16>(alloc)?;
    let taken = array.try_clone(alloc)?.into_buffer::<u16>(alloc)?;
    Ok(read.as_slice() == [3, 4].as_slice() && taken.as_slice() == [3, 4].as_slice())
}

// `PrimitiveArray::into_buffer_mut` and `PrimitiveArray::try_into_buffer_mut`.
fn to_written_buffers(alloc: Global, array: PrimitiveArray) -> Result<bool, VortexError> {
    let PType::U16 = array.ptype() else {
        return Ok(false);
    };
    let tried = array.try_clone(alloc)?.try_into_buffer_mut::<u16>(alloc)?;
    let written = array.into_buffer_mut::<u16>(alloc)?;
    Ok(tried.is_ok() && written.as_slice() == [3, 4].as_slice())
}

#[test]
fn buffers_of_numbers(rt: HostRuntime) -> Result<(), End> {
    let (array, copy) = (two_as_array(rt.alloc())?, two_as_array(rt.alloc())?);
    judged(to_buffers(rt.alloc(), &array), is_same(&array, &copy))?;
    judged(to_written_buffers(rt.alloc(), array), true)
}

// `PrimitiveData::empty`.
fn no_data(alloc: Global) -> Result<bool, VortexError> {
    let empty = PrimitiveData::empty::<u16>(alloc, Nullability::Nullable)?;
    Ok(empty.is_empty())
}

// `PrimitiveData::new` and `PrimitiveData::try_new`.
fn data_of_buffers(alloc: Global) -> Result<bool, VortexError> {
    let made = two_as_data(alloc)?;
    let tested = PrimitiveData::try_new(alloc, two(alloc)?, Validity::AllValid)?;
    Ok(are_bytes(&made, TWO) && are_bytes(&tested, TWO))
}

// The calls that make data.
fn data_calls(alloc: Global) -> Result<bool, VortexError> {
    Ok(no_data(alloc)? && data_of_buffers(alloc)?)
}

#[test]
fn data_of_numbers(rt: HostRuntime) -> Result<(), End> {
    judged(data_calls(rt.alloc()), true)
}

// `PrimitiveData::from_byte_buffer`.
fn data_of_all_bytes(alloc: Global, bytes: &ByteBuffer) -> Result<bool, VortexError> {
    let bytes = bytes.try_clone(alloc)?;
    let all = PrimitiveData::from_byte_buffer(alloc, bytes, PType::U16, Validity::NonNullable)?;
    Ok(are_bytes(&all, &[7, 0, 9, 0]))
}

// `PrimitiveData::from_values_byte_buffer`.
fn data_of_valid_bytes(alloc: Global, bytes: &ByteBuffer) -> Result<bool, VortexError> {
    let bytes = bytes.try_clone(alloc)?;
    let valid = first_and_last(alloc)?;
    let some = PrimitiveData::from_values_byte_buffer(alloc, bytes, PType::U16, valid, 3)?;
    Ok(are_bytes(&some, &[7, 0, 0, 0, 9, 0]))
}

// The calls that make numbers of bytes.
fn byte_calls(alloc: Global, bytes: &ByteBuffer) -> Result<bool, VortexError> {
    Ok(
        of_all_bytes(alloc, bytes)?
            && of_valid_bytes(alloc, bytes)?
            && data_of_all_bytes(alloc, bytes)?
            && data_of_valid_bytes(alloc, bytes)?,
    )
}

#[test]
fn numbers_of_bytes(rt: HostRuntime) -> Result<(), End> {
    let (bytes, copy) = (seven_and_nine(rt.alloc())?, seven_and_nine(rt.alloc())?);
    let answer = byte_calls(rt.alloc(), &bytes);
    judged(answer, bytes.as_slice() == copy.as_slice())
}

// `PrimitiveData::to_buffer`, `PrimitiveData::into_buffer` and `PrimitiveData::try_clone`.
fn data_to_buffers(alloc: Global, data: &PrimitiveData) -> Result<bool, VortexError> {
    let PType::U16 = data.ptype() else {
        return Ok(false);
    };
    let read = data.to_buffer::<u16>(alloc)?;
    let taken = data.try_clone(alloc)?.into_buffer::<u16>(alloc)?;
    Ok(read.as_slice() == [3, 4].as_slice() && taken.as_slice() == [3, 4].as_slice())
}

// `PrimitiveData::into_buffer_mut` and `PrimitiveData::try_into_buffer_mut`.
fn data_to_written_buffers(alloc: Global, data: PrimitiveData) -> Result<bool, VortexError> {
    let PType::U16 = data.ptype() else {
        return Ok(false);
    };
    let tried = data.try_clone(alloc)?.try_into_buffer_mut::<u16>(alloc)?;
    let written = data.into_buffer_mut::<u16>(alloc)?;
    Ok(tried.is_ok() && written.as_slice() == [3, 4].as_slice())
}

#[test]
fn buffers_of_data(rt: HostRuntime) -> Result<(), End> {
    let data = two_as_data(rt.alloc())?;
    judged(data_to_buffers(rt.alloc(), &data), are_bytes(&data, TWO))?;
    judged(data_to_written_buffers(rt.alloc(), data), true)
}

// `PrimitiveArray::to_data`, `PrimitiveArrayExt::validity_child` and `PrimitiveArray::slots`.
fn children(alloc: Global, array: &PrimitiveArray) -> Result<bool, VortexError> {
    let data = array.to_data(alloc)?;
    let child = array.validity_child(alloc)?;
    let slots = array.slots(alloc)?;
    Ok(data.len() == 3 && child.is_some() && slots.validity.is_some())
}

// `PrimitiveArrayExt::validity` and `PrimitiveArray::into_data_parts`.
fn parts(alloc: Global, array: &PrimitiveArray) -> Result<bool, VortexError> {
    let validity = array.validity(alloc)?;
    let parts = array.try_clone(alloc)?.into_data_parts(alloc)?;
    Ok(
        deep().is_same_validity(&validity, &parts.validity)
            && parts.buffer.as_slice() == [7, 0, 0, 0, 0xf7, 0xff].as_slice(),
    )
}

// `PrimitiveArrayExt::reinterpret_cast` and `PrimitiveArrayExt::narrow`.
fn cast(alloc: Global, array: &PrimitiveArray) -> Result<bool, VortexError> {
    if array.ptype() != PType::I16 {
        return Ok(false);
    }
    let unsigned = array.reinterpret_cast(alloc, PType::U16)?;
    let narrow = array.narrow(alloc)?;
    Ok(has_bytes(&unsigned, &[7, 0, 0, 0, 0xf7, 0xff]) && has_bytes(&narrow, &[7, 0, 0xf7]))
}

// The calls that read an array.
fn read_calls(alloc: Global, array: &PrimitiveArray) -> Result<bool, VortexError> {
    Ok(children(alloc, array)? && parts(alloc, array)? && cast(alloc, array)?)
}

#[test]
fn numbers_that_are_read(rt: HostRuntime) -> Result<(), End> {
    let (array, copy) = (given(rt.alloc())?, given(rt.alloc())?);
    judged(read_calls(rt.alloc(), &array), is_same(&array, &copy))
}
