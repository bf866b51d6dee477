// Calls on an array of each layout.

use crate::rows::has_rows;
use crate::samples::{samples, some_ints};
use std::alloc::Global;
use vx_base::{BitBuffer, Mask, Selection, VortexError};
use vx_canonical::{Concatenate, ToCanonical};
use vx_memory_help::{Compare, End, are_alike, deep, judged};
use vx_test_help::{bools, ints};
use vx_tree::ArrayRef;

// Calls on an array.
pub(crate) trait Calls {
    // Makes the calls; whether all gave what they should.
    fn make(&self, alloc: Global, array: &ArrayRef) -> Result<bool, VortexError>;
}

// Makes the calls on an array of each layout.
pub(crate) fn on_every_layout(alloc: Global, calls: &impl Calls) -> Result<(), End> {
    let arrays = samples(alloc)?;
    let copies = samples(alloc)?;
    for array in arrays.iter() {
        judged(calls.make(alloc, array), are_alike(&arrays, &copies))?;
    }
    Ok(())
}

// `ArrayRef::slice` and `ArrayRef::execute_scalar`.
fn cut(alloc: Global, array: &ArrayRef) -> Result<bool, VortexError> {
    let cut = array.slice(alloc, 1..3)?;
    has_rows(alloc, &cut, array, &[Some(1), Some(2)])
}

// `ArrayRef::try_clone`.
fn shared(alloc: Global, array: &ArrayRef) -> Result<bool, VortexError> {
    let shared = array.try_clone(alloc)?;
    Ok(deep().is_alike(&shared, array))
}

// `ArrayRef::take`, by indices without null.
fn turned(alloc: Global, array: &ArrayRef) -> Result<bool, VortexError> {
    let places = ints(alloc, &[2u8, 0])?;
    let turned = array.take(alloc, &places)?;
    has_rows(alloc, &turned, array, &[Some(2), Some(0)])
}

// `ArrayRef::take`, by indices with null.
fn nulled(alloc: Global, array: &ArrayRef) -> Result<bool, VortexError> {
    let places = some_ints(alloc, &[Some(2u8), None])?;
    let nulled = array.take(alloc, &places)?;
    has_rows(alloc, &nulled, array, &[Some(2), None])
}

// `ArrayRef::select`.
fn selected(alloc: Global, array: &ArrayRef) -> Result<bool, VortexError> {
    if array.len() != 3 {
        return Ok(false);
    }
    let turned = array.select(alloc, &Selection::at_positions(&[2, 0]))?;
    has_rows(alloc, &turned, array, &[Some(2), Some(0)])
}

struct Takes;

impl Calls for Takes {
    fn make(&self, alloc: Global, array: &ArrayRef) -> Result<bool, VortexError> {
        Ok(
            cut(alloc, array)?
                && shared(alloc, array)?
                && turned(alloc, array)?
                && nulled(alloc, array)?
                && selected(alloc, array)?,
        )
    }
}

#[test]
fn rows_that_are_taken(rt: HostRuntime) -> Result<(), End> {
    on_every_layout(rt.alloc(), &Takes)
}

// The rows of a run.
fn rows_of_run(
    alloc: Global,
    array: &ArrayRef,
    run: (usize, usize),
) -> Result<ArrayRef, VortexError> {
    if run.0 > run.1 || run.1 > array.len() {
        return Err(VortexError::EmptyInput);
    }
    array.take_runs(alloc, &[run])
}

// `ArrayRef::take_runs`.
fn taken_by_run(alloc: Global, array: &ArrayRef) -> Result<bool, VortexError> {
    let last = rows_of_run(alloc, array, (1, 3))?;
    has_rows(alloc, &last, array, &[Some(1), Some(2)])
}

// `ArrayRef::filter`.
fn filtered(alloc: Global, array: &ArrayRef) -> Result<bool, VortexError> {
    let bits = BitBuffer::from_bools(alloc, &[true, false, true])?;
    let mask = Mask::from_buffer(alloc, bits)?;
    let left = array.filter(alloc, &mask)?;
    has_rows(alloc, &left, array, &[Some(0), Some(2)])
}

// `ArrayRef::mask`.
fn masked(alloc: Global, array: &ArrayRef) -> Result<bool, VortexError> {
    let mask = bools(alloc, &[false, true, true])?;
    let nulled = array.mask(alloc, &mask)?;
    has_rows(alloc, &nulled, array, &[None, Some(1), Some(2)])
}

struct Filters;

impl Calls for Filters {
    fn make(&self, alloc: Global, array: &ArrayRef) -> Result<bool, VortexError> {
        Ok(taken_by_run(alloc, array)? && filtered(alloc, array)? && masked(alloc, array)?)
    }
}

#[test]
fn rows_that_are_filtered(rt: HostRuntime) -> Result<(), End> {
    on_every_layout(rt.alloc(), &Filters)
}

// `ArrayRef::to_canonical`.
fn made_plain(alloc: Global, array: &ArrayRef) -> Result<bool, VortexError> {
    let plain = array.to_canonical(alloc)?;
    has_rows(alloc, &plain, array, &[Some(0), Some(1), Some(2)])
}

// `ArrayRef::to_canonical` of an array whose second row is made null.
fn masked_made_plain(alloc: Global, array: &ArrayRef) -> Result<bool, VortexError> {
    let valid = bools(alloc, &[true, false, true])?;
    let nulled = array.mask(alloc, &valid)?;
    made_plain(alloc, &nulled)
}

// An array, and its last row.
fn chunks(alloc: Global, array: &ArrayRef) -> Result<Vec<ArrayRef>, VortexError> {
    let mut chunks = Vec::with_capacity(alloc, 2)?;
    chunks.push(array.try_clone(alloc)?)?;
    chunks.push(array.slice(alloc, 2..3)?)?;
    Ok(chunks)
}

// `ArrayRef::concat`.
fn joined(alloc: Global, array: &ArrayRef) -> Result<bool, VortexError> {
    let chunks = chunks(alloc, array)?;
    let joined = ArrayRef::concat(alloc, &chunks)?;
    has_rows(alloc, &joined, array, &[Some(0), Some(1), Some(2), Some(2)])
}

struct Joins;

impl Calls for Joins {
    fn make(&self, alloc: Global, array: &ArrayRef) -> Result<bool, VortexError> {
        Ok(made_plain(alloc, array)? && masked_made_plain(alloc, array)? && joined(alloc, array)?)
    }
}

#[test]
fn rows_that_are_made_plain(rt: HostRuntime) -> Result<(), End> {
    on_every_layout(rt.alloc(), &Joins)
}

// `ArrayRef::validity`, `ArrayRef::is_valid` and `Validity::is_valid`.
struct Validities;

impl Calls for Validities {
    fn make(&self, alloc: Global, array: &ArrayRef) -> Result<bool, VortexError> {
        let validity = array.validity(alloc)?;
        for i in 0..3 {
            let is_null = array.execute_scalar(alloc, i)?.is_null();
            if array.is_valid(alloc, i)? == is_null || validity.is_valid(alloc, i)? == is_null {
                return Ok(false);
            }
        }
        Ok(true)
    }
}

#[test]
fn validity(rt: HostRuntime) -> Result<(), End> {
    on_every_layout(rt.alloc(), &Validities)
}
