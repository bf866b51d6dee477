// Arrays of numbers and of truth values: how they are made, and read as a typed buffer or a mask.

use crate::data::{
    Scale, number_bytes, random_bits, random_bools, random_numbers, random_positions,
    some_left_out, some_null, truths,
};
use crate::fault::Fault;
use crate::made::Made;
use crate::operation::Operation;
use std::alloc::Global;
use vx_base::{BitBuffer, ByteBuffer, PType, VortexError};
use vx_leaves::{BoolArray, BoolArrayExt, PrimitiveArray, PrimitiveArrayExt};
use vx_tree::{ArrayRef, TypedArray, Validity};

// What arrays of numbers are made of.
#[derive(Drop)]
pub(crate) enum NumberArrayOperation {
    // Numbers, one after another.
    FromIter(Vec<u32>),
    // Numbers, one after another, of which some are left out.
    FromOptionIter(Vec<Option<u32>>),
    // The bytes of the numbers of the valid rows alone, and which of so many rows those are.
    FromValues(ByteBuffer, ArrayRef, usize),
    // The numbers of an array as a typed buffer.
    ToBuffer(PrimitiveArray),
}

impl Operation for NumberArrayOperation {
    fn run(&mut self, alloc: Global) -> Result<Made, Fault> {
        match &*self {
            NumberArrayOperation::FromIter(numbers) => {
                let made = PrimitiveArray::from_iter(alloc, numbers.iter().copied())?;
                Ok(Made::Array(made.into_array()))
            }
            NumberArrayOperation::FromOptionIter(items) => {
                let made = PrimitiveArray::from_option_iter(alloc, items.iter().copied())?;
                Ok(Made::Array(made.into_array()))
            }
            NumberArrayOperation::FromValues(bytes, valid, rows) => {
                let made = from_values(alloc, bytes, valid, *rows)?;
                Ok(Made::Array(made.into_array()))
            }
            NumberArrayOperation::ToBuffer(array) => to_buffer(alloc, array),
        }
    }
}

fn from_values(
    alloc: Global,
    bytes: &ByteBuffer,
    valid: &ArrayRef,
    rows: usize,
) -> Result<PrimitiveArray, VortexError> {
    let bytes = bytes.try_clone(alloc)?;
    let validity = Validity::Array(valid.try_clone(alloc)?);
    PrimitiveArray::from_values_byte_buffer(alloc, bytes, PType::U32, validity, rows)
}

fn to_buffer(alloc: Global, array: &PrimitiveArray) -> Result<Made, Fault> {
    if array.ptype() != PType::U32 {
        return Err(Fault::Usage);
    }
    Ok(Made::Numbers(array.to_buffer(alloc)?))
}

// What arrays of truth values are made of, and such arrays.
#[derive(Drop)]
pub(crate) enum BoolArrayOperation {
    // Truth values, one after another.
    FromIter(Vec<bool>),
    // Truth values, one after another, of which some are left out.
    FromOptionIter(Vec<Option<bool>>),
    // So many rows, and those that are true.
    FromIndices(usize, Vec<usize>),
    // The mask of truth values none of which is null.
    ExecuteMask(BoolArray),
    // The mask of the rows that are valid and true.
    ToMask(BoolArray),
}

impl Operation for BoolArrayOperation {
    fn run(&mut self, alloc: Global) -> Result<Made, Fault> {
        match &*self {
            BoolArrayOperation::FromIter(bools) => {
                let made = BoolArray::from_iter(alloc, bools.iter().copied())?;
                Ok(Made::Array(made.into_array()))
            }
            BoolArrayOperation::FromOptionIter(items) => {
                let made = BoolArray::from_option_iter(alloc, items.iter().copied())?;
                Ok(Made::Array(made.into_array()))
            }
            BoolArrayOperation::FromIndices(rows, indices) => {
                let indices = indices.iter().copied();
                let none = Validity::NonNullable;
                let made = BoolArray::from_indices(alloc, *rows, indices, none)?;
                Ok(Made::Array(made.into_array()))
            }
            BoolArrayOperation::ExecuteMask(array) => Ok(Made::Mask(array.execute_mask(alloc)?)),
            BoolArrayOperation::ToMask(array) => {
                Ok(Made::Mask(array.to_mask_fill_null_false(alloc)?))
            }
        }
    }
}

// Truth values that are null where a bit is false.
fn nullable_bools(alloc: Global, rows: usize, valid: Validity) -> Result<BoolArray, Fault> {
    let bits = random_bits(alloc, rows, 2, 7)?;
    Ok(BoolArray::try_new(alloc, bits, valid)?)
}

// A validity of which each row is valid, as an array.
fn all_valid(alloc: Global, rows: usize) -> Result<Validity, Fault> {
    let bits = BitBuffer::new_set(alloc, rows)?;
    let valid = BoolArray::try_new(alloc, bits, Validity::NonNullable)?;
    Ok(Validity::Array(valid.into_array()))
}

// An operation of arrays of numbers.
pub(crate) fn ready_numbers(
    alloc: Global,
    scale: Scale,
    name: &str,
) -> Result<NumberArrayOperation, Fault> {
    let rows = scale.rows();
    match name {
        "from_iter" => {
            let numbers = random_numbers(alloc, rows, u32::MAX, 6)?;
            Ok(NumberArrayOperation::FromIter(numbers))
        }
        "from_option_iter" => {
            let numbers = random_numbers(alloc, rows, u32::MAX, 6)?;
            let items = some_left_out(alloc, &numbers)?;
            Ok(NumberArrayOperation::FromOptionIter(items))
        }
        "from_values" => {
            let bytes = number_bytes(alloc, rows)?;
            let valid = truths(alloc, rows, 10, 3)?;
            Ok(NumberArrayOperation::FromValues(bytes, valid, rows))
        }
        "to_buffer" => {
            let bytes = number_bytes(alloc, rows)?;
            let none = Validity::NonNullable;
            let array = PrimitiveArray::from_byte_buffer(alloc, bytes, PType::U32, none)?;
            Ok(NumberArrayOperation::ToBuffer(array))
        }
        _ => Err(Fault::Usage),
    }
}

// An operation of arrays of truth values.
pub(crate) fn ready_bools(
    alloc: Global,
    scale: Scale,
    name: &str,
) -> Result<BoolArrayOperation, Fault> {
    let rows = scale.rows();
    match name {
        "from_iter" => Ok(BoolArrayOperation::FromIter(random_bools(alloc, rows, 2, 7)?)),
        "from_option_iter" => {
            let bools = random_bools(alloc, rows, 2, 7)?;
            let items = some_left_out(alloc, &bools)?;
            Ok(BoolArrayOperation::FromOptionIter(items))
        }
        "from_indices" => {
            let indices = random_positions(alloc, rows, rows as u32)?;
            Ok(BoolArrayOperation::FromIndices(rows, indices))
        }
        "execute_mask" => {
            let array = nullable_bools(alloc, rows, all_valid(alloc, rows)?)?;
            Ok(BoolArrayOperation::ExecuteMask(array))
        }
        "to_mask" => {
            let array = nullable_bools(alloc, rows, some_null(alloc, rows, 3)?)?;
            Ok(BoolArrayOperation::ToMask(array))
        }
        _ => Err(Fault::Usage),
    }
}
