// Arrays of truth values.

use crate::samples::{first_and_last, some_bools};
use crate::typed::{is_same, typed};
use std::alloc::Global;
use vx_base::{BitBuffer, VortexError};
use vx_leaves::{BoolArray, BoolArrayExt};
use vx_memory_help::{End, deep, judged};
use vx_tree::{TypedArray, Validity, collect_items};

// The truth values true, null, false.
fn given(alloc: Global) -> Result<BoolArray, VortexError> {
    typed(some_bools(alloc)?)
}

// Whether the truth values of an array, null or not, are these.
fn has_truths(array: &BoolArray, wanted: &[bool]) -> bool {
    let bits = array.bit_buffer_view();
    if bits.len() != wanted.len() {
        return false;
    }
    for (i, truth) in wanted.iter().enumerate() {
        if bits.value(i) != *truth {
            return false;
        }
    }
    true
}

// The bits of true and false.
fn two_bits(alloc: Global) -> Result<BitBuffer, VortexError> {
    BitBuffer::from_bools(alloc, &[true, false])
}

// `BoolArray::new` and `BoolArray::try_new`.
fn of_bits(alloc: Global, bits: &BitBuffer) -> Result<bool, VortexError> {
    let array = BoolArray::new(alloc, bits.try_clone(alloc)?, Validity::AllValid)?;
    let tested = BoolArray::try_new(alloc, bits.try_clone(alloc)?, Validity::NonNullable)?;
    Ok(has_truths(&array, &[true, false]) && has_truths(&tested, &[true, false]))
}

// `BoolArray::from_bit_buffer` and `BoolArray::into_bit_buffer`.
fn to_bits(alloc: Global, bits: &BitBuffer) -> Result<bool, VortexError> {
    let array = BoolArray::from_bit_buffer(alloc, bits.try_clone(alloc)?)?;
    let same = array.into_bit_buffer(alloc)?;
    Ok(same == *bits)
}

// The calls on bits.
fn bit_calls(alloc: Global, bits: &BitBuffer) -> Result<bool, VortexError> {
    Ok(of_bits(alloc, bits)? && to_bits(alloc, bits)?)
}

#[test]
fn truths_of_bits(rt: HostRuntime) -> Result<(), End> {
    let (bits, copy) = (two_bits(rt.alloc())?, two_bits(rt.alloc())?);
    judged(bit_calls(rt.alloc(), &bits), bits == copy)
}

// `BoolArray::from_indices`.
fn of_indices(alloc: Global) -> Result<bool, VortexError> {
    let places = [2usize, 0];
    let valid = Validity::NonNullable;
    let array = BoolArray::from_indices(alloc, 3, places.iter().copied(), valid)?;
    Ok(has_truths(&array, &[true, false, true]))
}

// `BoolArray::from_iter`.
fn of_items(alloc: Global) -> Result<bool, VortexError> {
    let items = [false, true];
    let array = BoolArray::from_iter(alloc, items.iter().copied())?;
    Ok(has_truths(&array, &[false, true]))
}

// `BoolArray::from_option_iter`.
fn of_optional_items(alloc: Global) -> Result<bool, VortexError> {
    let items = [Some(true), None];
    let array = BoolArray::from_option_iter(alloc, items.iter().copied())?;
    Ok(has_truths(&array, &[true, false]) && !array.as_array().is_valid(alloc, 1)?)
}

// `collect_items`.
fn collected(alloc: Global) -> Result<bool, VortexError> {
    let places = [2usize, 0];
    let list = collect_items(alloc, places.iter().copied())?;
    Ok(list.as_slice() == places.as_slice())
}

// The calls that make truth values of items.
fn item_calls(alloc: Global) -> Result<bool, VortexError> {
    Ok(of_indices(alloc)? && of_items(alloc)? && of_optional_items(alloc)? && collected(alloc)?)
}

#[test]
fn truths_of_items(rt: HostRuntime) -> Result<(), End> {
    judged(item_calls(rt.alloc()), true)
}

// `BoolArrayExt::validity` and `BoolArray::slots`.
fn validities(alloc: Global, array: &BoolArray) -> Result<bool, VortexError> {
    let validity = array.validity(alloc)?;
    let slots = array.slots(alloc)?;
    let same = array.as_array().validity(alloc)?;
    Ok(deep().is_same_validity(&validity, &same) && slots.validity.is_some())
}

// `BoolArray::to_data`, `BoolData::try_clone` and `TypedArray::try_clone`.
fn copies(alloc: Global, array: &BoolArray) -> Result<bool, VortexError> {
    let data = array.to_data(alloc)?;
    data.try_clone(alloc)?;
    let same = array.try_clone(alloc)?;
    Ok(is_same(&same, array))
}

// `BoolArrayExt::to_bit_buffer`.
fn bits_of(alloc: Global, array: &BoolArray) -> Result<bool, VortexError> {
    let bits = array.to_bit_buffer(alloc)?;
    Ok(bits.len() == 3 && bits.value(0) && !bits.value(2))
}

// The truth values true, false and true, none of them null.
fn without_null(alloc: Global) -> Result<BoolArray, VortexError> {
    match first_and_last(alloc)? {
        Validity::Array(array) => typed(array),
        _ => Err(VortexError::MismatchedTypes),
    }
}

// `BoolArrayExt::maybe_execute_mask` and `BoolArrayExt::execute_mask`.
fn masks(alloc: Global, array: &BoolArray) -> Result<bool, VortexError> {
    let Some(mask) = array.maybe_execute_mask(alloc)? else {
        return Ok(false);
    };
    let same = array.execute_mask(alloc)?;
    Ok(mask == same && mask.runs() == [(0, 1), (2, 3)].as_slice())
}

#[test]
fn masks_of_truths(rt: HostRuntime) -> Result<(), End> {
    let (array, copy) = (without_null(rt.alloc())?, without_null(rt.alloc())?);
    judged(masks(rt.alloc(), &array), is_same(&array, &copy))
}

// `BoolArrayExt::to_mask_fill_null_false`.
fn filled(alloc: Global, array: &BoolArray) -> Result<bool, VortexError> {
    let filled = array.to_mask_fill_null_false(alloc)?;
    Ok(
        filled.len() == 3
            && filled.runs() == [(0, 1)].as_slice()
            && array.maybe_execute_mask(alloc)?.is_none(),
    )
}

// The calls that read an array with a null.
fn read_calls(alloc: Global, array: &BoolArray) -> Result<bool, VortexError> {
    Ok(
        validities(alloc, array)?
            && copies(alloc, array)?
            && bits_of(alloc, array)?
            && filled(alloc, array)?,
    )
}

#[test]
fn truths_that_are_read(rt: HostRuntime) -> Result<(), End> {
    let (array, copy) = (given(rt.alloc())?, given(rt.alloc())?);
    judged(read_calls(rt.alloc(), &array), is_same(&array, &copy))
}
