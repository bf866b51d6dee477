// Operations on arrays of each layout: rows that are picked, kept, made null, joined.

use crate::data::{
    AT_RANDOM, Scale, bits_in_one_run, bits_in_runs, constant_list, constant_number, constant_text,
    copies, dictionary, fixed_size_lists, list_view, lists_of_one_size, nested_dictionary, numbers,
    numbers_below, random_bits, random_mask, records, text_array, truths,
};
use crate::fault::Fault;
use crate::made::Made;
use crate::operation::Operation;
use std::alloc::Global;
use vx_base::{BitBuffer, Mask, VortexError};
use vx_canonical::{Concatenate, ToCanonical};
use vx_tree::{ArrayRef, TypedArray};

// Arrays, and what picks their rows.
#[derive(Drop)]
pub(crate) enum TreeOperation {
    // Rows at indices of which each is any.
    Take { array: ArrayRef, indices: ArrayRef },
    // The rows of a mask.
    Filter { array: ArrayRef, mask: Mask },
    // The same, the making of the mask counted.
    Keep { array: ArrayRef, bits: BitBuffer },
    // Rows that become null where a mask is false.
    Mask { array: ArrayRef, mask: ArrayRef },
    // Arrays, one after another.
    Concat { arrays: Vec<ArrayRef> },
    // The plain layout of an array.
    Canonical { array: ArrayRef },
}

impl TreeOperation {
    // The array that an operation makes.
    fn made(&self, alloc: Global) -> Result<ArrayRef, VortexError> {
        match self {
            TreeOperation::Take { array, indices } => array.take(alloc, indices),
            TreeOperation::Filter { array, mask } => array.filter(alloc, mask),
            TreeOperation::Keep { array, bits } => kept(alloc, array, bits),
            TreeOperation::Mask { array, mask } => array.mask(alloc, mask),
            TreeOperation::Concat { arrays } => ArrayRef::concat(alloc, arrays),
            TreeOperation::Canonical { array } => array.to_canonical(alloc),
        }
    }
}

impl Operation for TreeOperation {
    fn run(&mut self, alloc: Global) -> Result<Made, Fault> {
        Ok(Made::Array(self.made(alloc)?))
    }
}

// The rows at which bits are true.
fn kept(alloc: Global, array: &ArrayRef, bits: &BitBuffer) -> Result<ArrayRef, VortexError> {
    let mask = Mask::from_buffer(alloc, bits.try_clone(alloc)?)?;
    array.filter(alloc, &mask)
}

// Rows of a layout, none of them null.
fn array_of(alloc: Global, scale: Scale, layout: &str) -> Result<ArrayRef, Fault> {
    let rows = scale.rows();
    match layout {
        "numbers" => numbers(alloc, rows),
        "bools" => truths(alloc, rows, 2, 7),
        "list_view" => Ok(list_view(alloc, scale, AT_RANDOM)?.into_array()),
        "views" => text_array(alloc, rows),
        "fixed_lists" => fixed_size_lists(alloc, scale),
        "records" => records(alloc, rows),
        "dictionary" | "dictionaries" => Ok(dictionary(alloc, rows, 1000)?.into_array()),
        "constant" | "constants" => constant_number(alloc, 1_000_003, rows),
        _ => Err(Fault::Usage),
    }
}

// Rows that are to become null: but for texts and a constant one in ten is already.
fn array_to_mask(alloc: Global, scale: Scale, layout: &str) -> Result<ArrayRef, Fault> {
    let array = array_of(alloc, scale, layout)?;
    if layout == "views" || layout == "constant" {
        return Ok(array);
    }
    Ok(array.mask(alloc, &truths(alloc, scale.rows(), 10, 3)?)?)
}

// Rows that are to be in plain layout.
fn array_to_write(alloc: Global, scale: Scale, layout: &str) -> Result<ArrayRef, Fault> {
    let rows = scale.rows();
    match layout {
        "constant_text" => constant_text(alloc, rows),
        "constant_list" => constant_list(alloc, rows),
        "list_view" => lists_of_one_size(alloc, scale),
        "nested_dictionary" => nested_dictionary(alloc, rows),
        _ => array_of(alloc, scale, layout),
    }
}

// The bits of which a mask is made.
fn bits_to_keep(alloc: Global, rows: usize, which: &str) -> Result<BitBuffer, Fault> {
    match which {
        "at_random" => random_bits(alloc, rows, 4, 8),
        "in_runs" => bits_in_runs(alloc, rows),
        "in_one_run" => bits_in_one_run(alloc, rows),
        _ => Err(Fault::Usage),
    }
}

// An operation on arrays of a layout: a filter and what makes rows null take one row of four away.
pub(crate) fn ready(
    alloc: Global,
    scale: Scale,
    verb: &str,
    layout: &str,
) -> Result<TreeOperation, Fault> {
    let rows = scale.rows();
    match verb {
        "take" => {
            let array = array_of(alloc, scale, layout)?;
            let indices = numbers_below(alloc, rows, rows as u32, 5)?;
            Ok(TreeOperation::Take { array, indices })
        }
        "filter" => {
            let array = array_of(alloc, scale, layout)?;
            let mask = random_mask(alloc, rows)?;
            Ok(TreeOperation::Filter { array, mask })
        }
        "kept" => {
            let array = numbers(alloc, rows)?;
            let bits = bits_to_keep(alloc, rows, layout)?;
            Ok(TreeOperation::Keep { array, bits })
        }
        "mask" => {
            let array = array_to_mask(alloc, scale, layout)?;
            let mask = truths(alloc, rows, 4, 8)?;
            Ok(TreeOperation::Mask { array, mask })
        }
        "concat" => {
            let quarter = array_of(alloc, scale.quarter(), layout)?;
            let arrays = copies(alloc, &quarter, 4)?;
            Ok(TreeOperation::Concat { arrays })
        }
        _ => {
            let array = array_to_write(alloc, scale, layout)?;
            Ok(TreeOperation::Canonical { array })
        }
    }
}

// Whether a plain layout is only shared, which takes no time by the row.
pub(crate) fn is_plain(layout: &str) -> bool {
    matches!(
        layout,
        "numbers" | "bools" | "views" | "fixed_lists" | "records"
    )
}
