// Operations on columns by their rows alone: what a filter kept is packed, and rows are compared.

use crate::data::{
    AT_RANDOM, Scale, list_view, number_buffer, numbers, random_bits, records_under, some_null,
    text_array, truths,
};
use crate::fault::Fault;
use crate::made::Made;
use crate::operation::Operation;
use std::alloc::Global;
use vx_base::Mask;
use vx_leaves::PrimitiveArray;
use vx_pack::{Pack, RowsEqual};
use vx_tree::{ArrayRef, TypedArray, Validity};

// The names of five columns.
const NAMES: [&str; 5] = ["number", "count", "truth", "text", "list"];

// Columns, and what is done with them.
#[derive(Drop)]
pub(crate) enum PackedOperation {
    // Making the packed form.
    Pack(ArrayRef),
    // Whether two columns have equal rows.
    Equal(ArrayRef, ArrayRef),
}

impl Operation for PackedOperation {
    fn run(&mut self, alloc: Global) -> Result<Made, Fault> {
        match &*self {
            PackedOperation::Pack(array) => Ok(Made::Column(array.pack(alloc)?)),
            PackedOperation::Equal(first, second) => {
                Ok(Made::Number(first.rows_equal(second) as u64))
            }
        }
    }
}

// The rows that a mask keeps, half of them at random.
fn half_of(alloc: Global, array: &ArrayRef) -> Result<ArrayRef, Fault> {
    let mask = Mask::from_buffer(alloc, random_bits(alloc, array.len(), 2, 8)?)?;
    let half = array.filter(alloc, &mask);
    drop(mask);
    Ok(half?)
}

// Numbers of which some are null.
fn some_numbers(alloc: Global, rows: usize) -> Result<ArrayRef, Fault> {
    let validity = some_null(alloc, rows, 3)?;
    let numbers = number_buffer(alloc, rows)?;
    Ok(PrimitiveArray::try_new(alloc, numbers, validity)?.into_array())
}

// Records of numbers, of numbers of which some are null, of truth values, texts and lists.
fn records_of_five(alloc: Global, scale: Scale) -> Result<ArrayRef, Fault> {
    let rows = scale.rows();
    let mut columns = Vec::with_capacity(alloc, 5)?;
    columns.push(numbers(alloc, rows)?)?;
    columns.push(some_numbers(alloc, rows)?)?;
    columns.push(truths(alloc, rows, 2, 7)?)?;
    columns.push(text_array(alloc, rows)?)?;
    columns.push(list_view(alloc, scale, AT_RANDOM)?.into_array())?;
    let none = Validity::NonNullable;
    Ok(records_under(alloc, &NAMES, columns, rows, none)?.into_array())
}

// A column, made anew each time.
fn column(alloc: Global, scale: Scale, name: &str) -> Result<ArrayRef, Fault> {
    match name {
        "lists" => Ok(list_view(alloc, scale, AT_RANDOM)?.into_array()),
        "texts" => text_array(alloc, scale.rows()),
        "records" => records_of_five(alloc, scale),
        _ => numbers(alloc, scale.rows()),
    }
}

// An operation on columns by their rows.
pub(crate) fn ready(
    alloc: Global,
    scale: Scale,
    verb: &str,
    name: &str,
) -> Result<PackedOperation, Fault> {
    let first = column(alloc, scale, name)?;
    if verb == "pack" {
        return Ok(PackedOperation::Pack(half_of(alloc, &first)?));
    }
    let second = column(alloc, scale, name)?;
    Ok(PackedOperation::Equal(first, second))
}
