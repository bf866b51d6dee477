// Arrays made anew of the parts of an array, by layout.

use crate::every_layout::{Calls, on_every_layout};
use crate::samples::fives;
use std::alloc::Global;
use vx_base::{
    BitBuffer, BitBufferMut, Buffer, BufferMut, FieldNames, Mask, VortexError, share_buffers,
};
use vx_memory_help::{Compare, End, deep, judged};
use vx_test_help::{bools, ints};
use vx_tree::{ArrayRef, IntoArray, Layout, Validity};

// `ArrayRef::bools`.
fn bools_anew(alloc: Global, array: &ArrayRef) -> Result<bool, VortexError> {
    let Layout::Bool { bits, validity } = array.layout() else {
        return Ok(true);
    };
    let (bits, validity) = (bits.try_clone(alloc)?, validity.try_clone(alloc)?);
    let again = ArrayRef::bools(alloc, bits, validity)?;
    Ok(deep().is_alike(&again, array))
}

// `ArrayRef::from_parts`.
fn from_parts_anew(alloc: Global, array: &ArrayRef) -> Result<bool, VortexError> {
    let Layout::Bool { bits, validity } = array.layout() else {
        return Ok(true);
    };
    let (bits, validity) = (bits.try_clone(alloc)?, validity.try_clone(alloc)?);
    let again = ArrayRef::from_parts(alloc, Layout::Bool { bits, validity })?;
    Ok(deep().is_alike(&again, array))
}

// `ArrayRef::primitive`.
fn numbers_anew(alloc: Global, array: &ArrayRef) -> Result<bool, VortexError> {
    let Layout::Primitive {
        ptype,
        bytes,
        validity,
    } = array.layout()
    else {
        return Ok(true);
    };
    let (bytes, validity) = (bytes.try_clone(alloc)?, validity.try_clone(alloc)?);
    let again = ArrayRef::primitive(alloc, *ptype, bytes, validity)?;
    Ok(deep().is_alike(&again, array))
}

// `ArrayRef::constant`.
fn constant_anew(alloc: Global, array: &ArrayRef) -> Result<bool, VortexError> {
    let Layout::Constant { scalar, len } = array.layout() else {
        return Ok(true);
    };
    let again = ArrayRef::constant(alloc, scalar.try_clone(alloc)?, *len)?;
    Ok(deep().is_alike(&again, array))
}

// `ArrayRef::dictionary`.
fn dictionary_anew(alloc: Global, array: &ArrayRef) -> Result<bool, VortexError> {
    let Layout::Dict {
        codes,
        values,
        flag,
    } = array.layout()
    else {
        return Ok(true);
    };
    let (codes, values) = (codes.try_clone(alloc)?, values.try_clone(alloc)?);
    let again = ArrayRef::dictionary(alloc, codes, values, *flag)?;
    Ok(deep().is_alike(&again, array))
}

// `ArrayRef::fixed_size_list`.
fn fixed_lists_anew(alloc: Global, array: &ArrayRef) -> Result<bool, VortexError> {
    let Layout::FixedSizeList {
        elements,
        size,
        validity,
        len,
    } = array.layout()
    else {
        return Ok(true);
    };
    let (elements, validity) = (elements.try_clone(alloc)?, validity.try_clone(alloc)?);
    let again = ArrayRef::fixed_size_list(alloc, elements, *size, validity, *len)?;
    Ok(deep().is_alike(&again, array))
}

// `ArrayRef::list_view`.
fn lists_anew(alloc: Global, array: &ArrayRef) -> Result<bool, VortexError> {
    let Layout::ListView {
        elements,
        offsets,
        sizes,
        validity,
        flag,
    } = array.layout()
    else {
        return Ok(true);
    };
    let (elements, validity) = (elements.try_clone(alloc)?, validity.try_clone(alloc)?);
    let (offsets, sizes) = (offsets.try_clone(alloc)?, sizes.try_clone(alloc)?);
    let again = ArrayRef::list_view(alloc, elements, offsets, sizes, validity, *flag)?;
    Ok(deep().is_alike(&again, array))
}

// `ArrayRef::var_bin_view`.
fn texts_anew(alloc: Global, array: &ArrayRef) -> Result<bool, VortexError> {
    let Layout::VarBinView {
        views,
        buffers,
        dtype,
        validity,
    } = array.layout()
    else {
        return Ok(true);
    };
    let (views, buffers) = (views.try_clone(alloc)?, share_buffers(alloc, buffers)?);
    let (dtype, validity) = (dtype.try_clone(alloc)?, validity.try_clone(alloc)?);
    let again = ArrayRef::var_bin_view(alloc, views, buffers, dtype, validity)?;
    Ok(deep().is_alike(&again, array))
}

struct Anew;

impl Calls for Anew {
    fn make(&self, alloc: Global, array: &ArrayRef) -> Result<bool, VortexError> {
        Ok(
            bools_anew(alloc, array)?
                && from_parts_anew(alloc, array)?
                && numbers_anew(alloc, array)?
                && constant_anew(alloc, array)?
                && dictionary_anew(alloc, array)?
                && fixed_lists_anew(alloc, array)?
                && lists_anew(alloc, array)?
                && texts_anew(alloc, array)?,
        )
    }
}

#[test]
fn arrays_of_their_parts(rt: HostRuntime) -> Result<(), End> {
    on_every_layout(rt.alloc(), &Anew)
}

// `ArrayRef::positions`.
fn read(alloc: Global, array: &ArrayRef) -> Result<bool, VortexError> {
    if !array.dtype().is_int() {
        return Ok(false);
    }
    Ok(array.positions(alloc, 6)?.as_slice() == [5, 5, 5].as_slice())
}

#[test]
fn positions(rt: HostRuntime) -> Result<(), End> {
    let (array, copy) = (fives(rt.alloc())?, fives(rt.alloc())?);
    judged(read(rt.alloc(), &array), deep().is_alike(&array, &copy))
}

// True and false.
const TWO: &[bool] = &[true, false];

// The bits of true and false.
fn two_bits(alloc: Global) -> Result<BitBuffer, VortexError> {
    BitBuffer::from_bools(alloc, TWO)
}

// `IntoArray::into_array` of bits.
fn of_bits(alloc: Global, wanted: &ArrayRef) -> Result<bool, VortexError> {
    let array = two_bits(alloc)?.into_array(alloc)?;
    Ok(deep().is_alike(&array, wanted))
}

// `IntoArray::into_array` of a mask and of its values.
fn of_mask(alloc: Global, wanted: &ArrayRef) -> Result<bool, VortexError> {
    let mask = Mask::from_buffer(alloc, two_bits(alloc)?)?;
    let Some(values) = mask.values() else {
        return Ok(false);
    };
    let of_values = values.into_array(alloc)?;
    let of_mask = mask.into_array(alloc)?;
    Ok(deep().is_alike(&of_values, wanted) && deep().is_alike(&of_mask, wanted))
}

// The calls that make an array of bits.
fn bit_calls(alloc: Global, wanted: &ArrayRef) -> Result<bool, VortexError> {
    Ok(of_bits(alloc, wanted)? && of_mask(alloc, wanted)?)
}

#[test]
fn bits_as_arrays(rt: HostRuntime) -> Result<(), End> {
    let (wanted, copy) = (bools(rt.alloc(), TWO)?, bools(rt.alloc(), TWO)?);
    let answer = bit_calls(rt.alloc(), &wanted);
    judged(answer, deep().is_alike(&wanted, &copy))
}

// `IntoArray::into_array` of bits that are written, and of numbers that are.
fn of_written(alloc: Global) -> Result<bool, VortexError> {
    let written = BitBufferMut::new_unset(alloc, 2)?.into_array(alloc)?;
    let grown = BufferMut::<u16>::with_capacity(alloc, 2)?.into_array(alloc)?;
    Ok(written.len() == 2 && grown.is_empty())
}

// `IntoArray::into_array` of numbers.
fn of_numbers(alloc: Global) -> Result<bool, VortexError> {
    let numbers = Buffer::copy_from(alloc, &[3u16, 4])?.into_array(alloc)?;
    let wanted = ints(alloc, &[3u16, 4])?;
    Ok(deep().is_alike(&numbers, &wanted))
}

// `ArrayRef::structure`.
fn records_of_no_field(alloc: Global) -> Result<bool, VortexError> {
    let names = FieldNames::try_new(alloc, &[])?;
    let records = ArrayRef::structure(alloc, names, Vec::new(alloc), Validity::AllValid, 3)?;
    Ok(records.len() == 3)
}

// The calls that make arrays of nothing that is lent.
fn made_calls(alloc: Global) -> Result<bool, VortexError> {
    Ok(of_written(alloc)? && of_numbers(alloc)? && records_of_no_field(alloc)?)
}

#[test]
fn arrays_that_are_made(rt: HostRuntime) -> Result<(), End> {
    judged(made_calls(rt.alloc()), true)
}
