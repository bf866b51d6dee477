// Operations on bits.

use crate::data::{random_bits, random_bools, truths};
use crate::fault::Fault;
use crate::made::Made;
use crate::operation::{Bench, Operation};
use std::alloc::Global;
use vx_base::{BitBuffer, BitBufferMut};
use vx_tree::{ArrayRef, Validity};

// Bits, and what is done with them.
#[derive(Drop)]
pub(crate) enum BitOperation {
    // The packing of truth values.
    FromBools(Vec<bool>),
    // The count of those that are true.
    TrueCount(BitBuffer),
    // Those that are true in both of two.
    And(BitBuffer, BitBuffer),
    // Whether two are equal.
    Equal(BitBuffer, BitBuffer),
    // The filling of all but the first three and the last five, of bits that are ready for each run.
    Fill(Vec<BitBufferMut>),
    // The mask of a validity that is an array of so many rows.
    ExecuteMask(ArrayRef, usize),
}

impl Operation for BitOperation {
    fn run(&mut self, alloc: Global) -> Result<Made, Fault> {
        match self {
            BitOperation::FromBools(bools) => Ok(Made::Bits(BitBuffer::from_bools(alloc, bools)?)),
            BitOperation::TrueCount(bits) => Ok(Made::Number(bits.true_count() as u64)),
            BitOperation::And(left, right) => and(alloc, left, right),
            BitOperation::Equal(left, right) => Ok(Made::Number((*left == *right) as u64)),
            BitOperation::Fill(ready) => fill(ready),
            BitOperation::ExecuteMask(array, rows) => execute_mask(alloc, array, *rows),
        }
    }
}

fn and(alloc: Global, left: &BitBuffer, right: &BitBuffer) -> Result<Made, Fault> {
    if left.len() != right.len() {
        return Err(Fault::Usage);
    }
    Ok(Made::Bits(left.and(alloc, right)?))
}

fn fill(ready: &mut Vec<BitBufferMut>) -> Result<Made, Fault> {
    let Some(mut bits) = ready.pop() else {
        return Err(Fault::Usage);
    };
    if bits.len() >= 8 {
        bits.fill_range(3, bits.len() - 5, true);
    }
    Ok(Made::Filled(bits))
}

fn execute_mask(alloc: Global, array: &ArrayRef, rows: usize) -> Result<Made, Fault> {
    if array.len() != rows {
        return Err(Fault::Usage);
    }
    let validity = Validity::Array(array.try_clone(alloc)?);
    Ok(Made::Mask(validity.execute_mask(alloc, rows)?))
}

// Bits that are false, for so many runs.
fn unset_bits(alloc: Global, rows: usize, runs: usize) -> Result<Vec<BitBufferMut>, Fault> {
    let mut ready = Vec::new(alloc);
    for _ in 0..runs {
        ready.push(BitBufferMut::new_unset(alloc, rows)?)?;
    }
    Ok(ready)
}

// An operation on bits.
pub(crate) fn ready(alloc: Global, bench: &Bench, name: &str) -> Result<BitOperation, Fault> {
    let rows = bench.scale.rows();
    match name {
        "bits_from_bools" => Ok(BitOperation::FromBools(random_bools(alloc, rows, 2, 7)?)),
        "true_count" => Ok(BitOperation::TrueCount(random_bits(alloc, rows, 2, 7)?)),
        "and_bits" => {
            let left = random_bits(alloc, rows, 2, 7)?;
            Ok(BitOperation::And(left, random_bits(alloc, rows, 3, 8)?))
        }
        "equal_bits" => {
            let left = random_bits(alloc, rows, 2, 7)?;
            Ok(BitOperation::Equal(left, random_bits(alloc, rows, 2, 7)?))
        }
        "fill_bits" => Ok(BitOperation::Fill(unset_bits(alloc, rows, bench.runs())?)),
        "execute_mask" => Ok(BitOperation::ExecuteMask(truths(alloc, rows, 10, 3)?, rows)),
        _ => Err(Fault::Usage),
    }
}
