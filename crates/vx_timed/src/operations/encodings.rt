// Operations of encoders: numbers of the least width, and which values of a dictionary are named.

use crate::data::{Scale, dictionary, small_numbers};
use crate::fault::Fault;
use crate::made::Made;
use crate::operation::Operation;
use std::alloc::Global;
use vx_leaves::{DictArray, DictArrayExt, PrimitiveArray, PrimitiveArrayExt};
use vx_tree::TypedArray;

// What is encoded.
#[derive(Drop)]
pub(crate) enum EncodingOperation {
    // Numbers in the least width.
    Narrow(PrimitiveArray),
    // A bit for each value of a dictionary: whether some code names it.
    Scan(DictArray),
}

impl Operation for EncodingOperation {
    fn run(&mut self, alloc: Global) -> Result<Made, Fault> {
        match &*self {
            EncodingOperation::Narrow(numbers) => {
                Ok(Made::Array(numbers.narrow(alloc)?.into_array()))
            }
            EncodingOperation::Scan(dictionary) => {
                let mask = dictionary.compute_referenced_values_mask(alloc, true)?;
                Ok(Made::Bits(mask))
            }
        }
    }
}

// Narrowing, or the scan of codes, which name all of a thousand values, or all but one.
pub(crate) fn ready(alloc: Global, scale: Scale, name: &str) -> Result<EncodingOperation, Fault> {
    let named = match name {
        "narrow" => return Ok(EncodingOperation::Narrow(small_numbers(alloc, scale.rows())?)),
        "referenced_values_but_one" => 999,
        _ => 1000,
    };
    Ok(EncodingOperation::Scan(dictionary(alloc, scale.rows(), named)?))
}
