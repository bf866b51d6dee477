// Dictionaries and constants.

use crate::rows::has_rows;
use crate::samples::dictionary;
use crate::typed::{is_same, typed};
use std::alloc::Global;
use vx_base::{Nullability, PType, Scalar, VortexError};
use vx_leaves::{ConstantArray, DictArray, DictArrayExt, DictOwnedExt};
use vx_memory_help::{End, judged};
use vx_test_help::ints;
use vx_tree::{Layout, TypedArray};

// The values 9, null and 6, by codes.
fn given(alloc: Global) -> Result<DictArray, VortexError> {
    typed(dictionary(alloc)?)
}

// `DictArray::try_new` and `DictArray::slots`.
fn of_slots(alloc: Global, array: &DictArray) -> Result<bool, VortexError> {
    let slots = array.slots(alloc)?;
    let again = DictArray::try_new(alloc, slots.codes, slots.values)?;
    Ok(is_same(&again, array))
}

// `DictArray::new`.
fn of_parts(alloc: Global, array: &DictArray) -> Result<bool, VortexError> {
    let Layout::Dict {
        codes,
        values,
        flag: false,
    } = array.as_array().layout()
    else {
        return Ok(false);
    };
    let (codes, values) = (codes.try_clone(alloc)?, values.try_clone(alloc)?);
    let again = DictArray::new(alloc, codes, values)?;
    Ok(is_same(&again, array))
}

// `DictArray::to_data` and `DictOwnedExt::into_parts`.
fn parts(alloc: Global, array: &DictArray) -> Result<bool, VortexError> {
    array.to_data(alloc)?;
    let parts = array.try_clone(alloc)?.into_parts(alloc)?;
    Ok(parts.codes.len() == 3 && parts.values.len() == 2)
}

// The same dictionary, flagged where every value is referenced.
fn with_flag(alloc: Global, array: DictArray) -> Result<DictArray, VortexError> {
    let holds = array.are_all_values_referenced(alloc)?;
    array.set_all_values_referenced(alloc, holds)
}

// `DictArray::are_all_values_referenced`, `DictArray::set_all_values_referenced` and
// `DictArrayExt::validate_all_values_referenced`.
fn flagged(alloc: Global, array: &DictArray) -> Result<bool, VortexError> {
    let flagged = with_flag(alloc, array.try_clone(alloc)?)?;
    flagged.validate_all_values_referenced(alloc)?;
    Ok(flagged.has_all_values_referenced())
}

// `DictArrayExt::compute_referenced_values_mask` and `DictArrayExt::referenced_values_scan`.
fn scanned(alloc: Global, array: &DictArray) -> Result<bool, VortexError> {
    let named = array.compute_referenced_values_mask(alloc, true)?;
    let (others, _) = array.referenced_values_scan(alloc, false)?;
    Ok(named.len() == 2 && named.true_count() == 2 && others.len() == 2)
}

// All calls on a dictionary.
fn calls(alloc: Global, array: &DictArray) -> Result<bool, VortexError> {
    Ok(
        of_slots(alloc, array)?
            && of_parts(alloc, array)?
            && parts(alloc, array)?
            && flagged(alloc, array)?
            && scanned(alloc, array)?,
    )
}

#[test]
fn dictionaries(rt: HostRuntime) -> Result<(), End> {
    let (array, copy) = (given(rt.alloc())?, given(rt.alloc())?);
    judged(calls(rt.alloc(), &array), is_same(&array, &copy))
}

// Five, twice.
fn two_fives(alloc: Global) -> Result<ConstantArray, VortexError> {
    let five = Scalar::int(5, PType::U8, Nullability::NonNullable);
    ConstantArray::new(alloc, five, 2)
}

// `ConstantArray::new`.
fn has_fives(alloc: Global, array: &ConstantArray) -> Result<bool, VortexError> {
    let fives = ints(alloc, &[5u8, 5])?;
    has_rows(alloc, array.as_array(), &fives, &[Some(0), Some(1)])
}

// `ConstantArray::to_data` and `ConstantData::try_clone`.
fn constant_data(alloc: Global, array: &ConstantArray) -> Result<bool, VortexError> {
    let data = array.to_data(alloc)?;
    let same = data.try_clone(alloc)?;
    Ok(data.scalar().as_int() == Some(5) && same.scalar().as_int() == Some(5))
}

// All calls on a constant.
fn constant_calls(alloc: Global, array: &ConstantArray) -> Result<bool, VortexError> {
    Ok(has_fives(alloc, array)? && constant_data(alloc, array)?)
}

#[test]
fn constants(rt: HostRuntime) -> Result<(), End> {
    let (array, copy) = (two_fives(rt.alloc())?, two_fives(rt.alloc())?);
    judged(constant_calls(rt.alloc(), &array), is_same(&array, &copy))
}
