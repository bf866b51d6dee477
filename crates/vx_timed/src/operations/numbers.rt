// Operations on numbers.

use crate::data::{Scale, number_buffer, number_bytes, numbers};
use crate::fault::Fault;
use crate::made::Made;
use crate::operation::Operation;
use std::alloc::Global;
use vx_base::{Buffer, ByteBuffer, PType, read_counts, write_counts};
use vx_leaves::PrimitiveArray;
use vx_tree::{ArrayRef, TypedArray, Validity};

// Numbers, and what is done with them.
#[derive(Drop)]
pub(crate) enum NumberOperation {
    // An array of numbers that lie in a buffer.
    TryNew(Buffer<u32>),
    // Each number of an array, row by row.
    IntAt(ArrayRef),
    // The bytes of numbers.
    IntoByteBuffer(Buffer<u32>),
    // The numbers of bytes.
    FromByteBuffer(ByteBuffer),
    // Positions that lie as bytes of 32-bit numbers.
    ReadCounts(ByteBuffer),
    // The bytes of positions as 64-bit numbers.
    WriteCounts(Vec<usize>),
}

impl Operation for NumberOperation {
    fn run(&mut self, alloc: Global) -> Result<Made, Fault> {
        match &*self {
            NumberOperation::TryNew(numbers) => try_new(alloc, numbers),
            NumberOperation::IntAt(array) => sum_of(array),
            NumberOperation::IntoByteBuffer(numbers) => {
                Ok(Made::Bytes(numbers.into_byte_buffer(alloc)?))
            }
            NumberOperation::FromByteBuffer(bytes) => {
                Ok(Made::Numbers(Buffer::from_byte_buffer(alloc, bytes)?))
            }
            NumberOperation::ReadCounts(bytes) => {
                Ok(Made::Positions(read(alloc, bytes.as_slice())?))
            }
            NumberOperation::WriteCounts(counts) => Ok(Made::Bytes(write(alloc, counts)?)),
        }
    }
}

fn try_new(alloc: Global, numbers: &Buffer<u32>) -> Result<Made, Fault> {
    let numbers = numbers.try_clone(alloc)?;
    let made = PrimitiveArray::try_new(alloc, numbers, Validity::NonNullable)?;
    Ok(Made::Array(made.into_array()))
}

fn sum_of(array: &ArrayRef) -> Result<Made, Fault> {
    let mut sum = 0u64;
    if !array.dtype().is_int() {
        return Err(Fault::Usage);
    }
    for i in 0..array.len() {
        if let Some(number) = array.int_at(i) {
            sum = sum.wrapping_add(u64::try_from(number).unwrap_or(0));
        }
    }
    Ok(Made::Number(sum))
}

fn read(alloc: Global, bytes: &[u8]) -> Result<Vec<usize>, Fault> {
    Ok(read_counts(alloc, PType::U32, bytes)?)
}

fn write(alloc: Global, counts: &[usize]) -> Result<ByteBuffer, Fault> {
    Ok(write_counts(alloc, PType::U64, counts)?)
}

// An operation on numbers.
pub(crate) fn ready(alloc: Global, scale: Scale, name: &str) -> Result<NumberOperation, Fault> {
    let rows = scale.rows();
    match name {
        "primitive_try_new" => Ok(NumberOperation::TryNew(number_buffer(alloc, rows)?)),
        "int_at" => Ok(NumberOperation::IntAt(numbers(alloc, rows)?)),
        "into_byte_buffer" => Ok(NumberOperation::IntoByteBuffer(number_buffer(alloc, rows)?)),
        "from_byte_buffer" => Ok(NumberOperation::FromByteBuffer(number_bytes(alloc, rows)?)),
        "read_counts" => Ok(NumberOperation::ReadCounts(number_bytes(alloc, rows)?)),
        "write_counts" => {
            let bytes = number_bytes(alloc, rows)?;
            Ok(NumberOperation::WriteCounts(read(alloc, bytes.as_slice())?))
        }
        _ => Err(Fault::Usage),
    }
}
