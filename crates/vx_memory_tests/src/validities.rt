// Validities.

ghost use Rattle.std.specs.Prelude.{IsTrue};
ghost use Rattle.vx_tree.specs.Formed.{IsLenOf};
ghost use Rattle.vx_tree.specs.Parts.{valid_of};

use crate::samples::first_and_last;
use std::alloc::Global;
use vx_base::{BitBuffer, Mask, Nullability, VortexError};
use vx_memory_help::{End, deep, judged};
use vx_test_help::{bools, ints};
use vx_tree::Validity;

// Whether rows are valid where these are true.
fn are_valid(alloc: Global, validity: &Validity, wanted: &[bool]) -> Result<bool, VortexError> {
    for (i, is_valid) in wanted.iter().enumerate() {
        if validity.is_valid(alloc, i)? != *is_valid {
            return Ok(false);
        }
    }
    Ok(true)
}

// Whether there is an array of three rows.
fn has_three(validity: &Validity) -> bool
    ensures { IsTrue result → IsLenOf (valid_of validity.now) 3 }
{
    match validity {
        Validity::Array(array) => array.len() == 3,
        _ => false,
    }
}

// `Validity::slice`.
fn cut(alloc: Global, given: &Validity) -> Result<bool, VortexError> {
    let cut = given.slice(alloc, 1..3)?;
    are_valid(alloc, &cut, &[false, true])
}

// `Validity::filter`.
fn filtered(alloc: Global, given: &Validity) -> Result<bool, VortexError> {
    let bits = BitBuffer::from_bools(alloc, &[true, true, false])?;
    let mask = Mask::from_buffer(alloc, bits)?;
    let left = given.filter(alloc, &mask)?;
    are_valid(alloc, &left, &[true, false])
}

// `Validity::take`.
fn taken(alloc: Global, given: &Validity) -> Result<bool, VortexError> {
    let places = ints(alloc, &[1u8, 0])?;
    let turned = given.take(alloc, &places)?;
    are_valid(alloc, &turned, &[false, true])
}

// `Validity::not`, `Validity::try_clone` and `Validity::to_slot`.
fn turned(alloc: Global, given: &Validity) -> Result<bool, VortexError> {
    let not = given.not(alloc)?;
    let same = given.try_clone(alloc)?;
    let slot = given.to_slot(alloc, 3)?;
    Ok(
        are_valid(alloc, &not, &[false, true, false])?
            && deep().is_same_validity(&same, given)
            && slot.is_some(),
    )
}

// The calls that choose rows.
fn row_calls(alloc: Global, given: &Validity) -> Result<bool, VortexError> {
    Ok(
        cut(alloc, given)?
            && filtered(alloc, given)?
            && taken(alloc, given)?
            && turned(alloc, given)?,
    )
}

#[test]
fn validities_of_chosen_rows(rt: HostRuntime) -> Result<(), End> {
    let (given, copy) = (first_and_last(rt.alloc())?, first_and_last(rt.alloc())?);
    let answer = row_calls(rt.alloc(), &given);
    judged(answer, deep().is_same_validity(&given, &copy))
}

// `Validity::execute_mask` and `Validity::to_mask`.
fn masks(alloc: Global, given: &Validity) -> Result<bool, VortexError> {
    if !has_three(given) {
        return Ok(false);
    }
    let mask = given.execute_mask(alloc, 3)?;
    let same = given.to_mask(alloc, 3)?;
    Ok(mask.runs() == [(0, 1), (2, 3)].as_slice() && mask == same)
}

// `Validity::to_array`.
fn arrays(alloc: Global, given: &Validity) -> Result<bool, VortexError> {
    if !has_three(given) {
        return Ok(false);
    }
    let array = given.to_array(alloc, 3)?;
    let nulls = Validity::AllInvalid.to_array(alloc, 3)?;
    Ok(array.len() == 3 && nulls.len() == 3)
}

// `Validity::execute_no_nulls` and `Validity::mask_eq`.
fn compared(alloc: Global, given: &Validity) -> Result<bool, VortexError> {
    if !has_three(given) {
        return Ok(false);
    }
    Ok(!given.execute_no_nulls(alloc, 3)? && given.mask_eq(alloc, given, 3)?)
}

// `Validity::simplest`.
fn simplest(alloc: Global, given: &Validity) -> Result<bool, VortexError> {
    if !has_three(given) {
        return Ok(false);
    }
    let (made, null_count) = given.simplest(alloc, 3)?;
    Ok(null_count == 1 && are_valid(alloc, &made, &[true, false, true])?)
}

// `Validity::is_valid`, `Validity::is_null`, `Validity::execute_is_valid` and
// `Validity::execute_is_null`.
fn asked(alloc: Global, given: &Validity) -> Result<bool, VortexError> {
    Ok(
        given.is_valid(alloc, 0)?
            && given.is_null(alloc, 1)?
            && given.execute_is_valid(alloc, 2)?
            && !given.execute_is_null(alloc, 2)?,
    )
}

// The calls that read rows.
fn read_calls(alloc: Global, given: &Validity) -> Result<bool, VortexError> {
    Ok(
        masks(alloc, given)?
            && arrays(alloc, given)?
            && compared(alloc, given)?
            && simplest(alloc, given)?
            && asked(alloc, given)?,
    )
}

#[test]
fn validities_that_are_read(rt: HostRuntime) -> Result<(), End> {
    let (given, copy) = (first_and_last(rt.alloc())?, first_and_last(rt.alloc())?);
    let answer = read_calls(rt.alloc(), &given);
    judged(answer, deep().is_same_validity(&given, &copy))
}

// The bits of the first and the last of three rows.
fn three_bits(alloc: Global) -> Result<BitBuffer, VortexError> {
    BitBuffer::from_bools(alloc, &[true, false, true])
}

// `Validity::from_mask`.
fn of_mask(alloc: Global, bits: &BitBuffer) -> Result<bool, VortexError> {
    let mask = Mask::from_buffer(alloc, bits.try_clone(alloc)?)?;
    let made = Validity::from_mask(alloc, mask, Nullability::Nullable)?;
    are_valid(alloc, &made, &[true, false, true])
}

// `Validity::from_bit_buffer`.
fn of_bits(alloc: Global, bits: &BitBuffer) -> Result<bool, VortexError> {
    let bits = bits.try_clone(alloc)?;
    let made = Validity::from_bit_buffer(alloc, bits, Nullability::Nullable)?;
    are_valid(alloc, &made, &[true, false, true])
}

// `Validity::from_buffer`.
fn of_buffer(alloc: Global, bits: &BitBuffer) -> Result<bool, VortexError> {
    let made = Validity::from_buffer(alloc, bits.try_clone(alloc)?)?;
    are_valid(alloc, &made, &[true, false, true])
}

// The calls on bits.
fn bit_calls(alloc: Global, bits: &BitBuffer) -> Result<bool, VortexError> {
    Ok(of_mask(alloc, bits)? && of_bits(alloc, bits)? && of_buffer(alloc, bits)?)
}

#[test]
fn validities_of_bits(rt: HostRuntime) -> Result<(), End> {
    let (bits, copy) = (three_bits(rt.alloc())?, three_bits(rt.alloc())?);
    judged(bit_calls(rt.alloc(), &bits), bits == copy)
}

// `Validity::from_iter`.
fn of_items(alloc: Global) -> Result<bool, VortexError> {
    let wanted = [true, false, true];
    let made = Validity::from_iter(alloc, wanted.iter().copied())?;
    are_valid(alloc, &made, &wanted)
}

// `Validity::from_mask_iter`.
fn of_masks(alloc: Global) -> Result<bool, VortexError> {
    let masks = [Mask::new_true(1), Mask::new_false(1)];
    let masks = Vec::from_array(alloc, masks)?.into_iter();
    let validity = Validity::from_mask_iter(alloc, masks)?;
    are_valid(alloc, &validity, &[true, false])
}

// The calls on items.
fn item_calls(alloc: Global) -> Result<bool, VortexError> {
    Ok(of_items(alloc)? && of_masks(alloc)?)
}

#[test]
fn validities_of_items(rt: HostRuntime) -> Result<(), End> {
    judged(item_calls(rt.alloc()), true)
}

// `Validity::and`.
fn both(alloc: Global, given: &Validity) -> Result<bool, VortexError> {
    let other = first_and_last(alloc)?;
    let both = given.try_clone(alloc)?.and(alloc, other)?;
    are_valid(alloc, &both, &[true, false, true])
}

// `Validity::execute`.
fn plain(alloc: Global, given: &Validity) -> Result<bool, VortexError> {
    let plain = given.try_clone(alloc)?.execute(alloc)?;
    are_valid(alloc, &plain, &[true, false, true])
}

// `Validity::patch`.
fn patched(alloc: Global, given: &Validity) -> Result<bool, VortexError> {
    let places = ints(alloc, &[0u8, 1])?;
    let same = given.try_clone(alloc)?;
    let patched = same.patch(alloc, 3, 0, &places, &Validity::AllValid)?;
    are_valid(alloc, &patched, &[true, true, true])
}

// `Validity::concat`.
fn one_after_another(alloc: Global, given: &Validity) -> Result<bool, VortexError> {
    if !has_three(given) {
        return Ok(false);
    }
    let parts = vec![in alloc; (given.try_clone(alloc)?, 3), (Validity::AllValid, 1)]?;
    let Some(joined) = Validity::concat(alloc, parts)? else {
        return Ok(false);
    };
    are_valid(alloc, &joined, &[true, false, true, true])
}

// The calls that join validities.
fn joined_calls(alloc: Global, given: &Validity) -> Result<bool, VortexError> {
    Ok(
        both(alloc, given)?
            && plain(alloc, given)?
            && patched(alloc, given)?
            && one_after_another(alloc, given)?,
    )
}

#[test]
fn validities_that_are_joined(rt: HostRuntime) -> Result<(), End> {
    let (given, copy) = (first_and_last(rt.alloc())?, first_and_last(rt.alloc())?);
    let answer = joined_calls(rt.alloc(), &given);
    judged(answer, deep().is_same_validity(&given, &copy))
}

// Three valid rows, by an array.
fn three_valid(alloc: Global) -> Result<Validity, VortexError> {
    Ok(Validity::Array(bools(alloc, &[true, true, true])?))
}

// `Validity::into_non_nullable` and `Validity::cast_nullability`.
fn cast(alloc: Global, given: &Validity) -> Result<bool, VortexError> {
    if !has_three(given) {
        return Ok(false);
    }
    let plain = Nullability::NonNullable;
    let without = given.try_clone(alloc)?.into_non_nullable(alloc, 3)?;
    let same = given.try_clone(alloc)?.cast_nullability(alloc, plain, 3)?;
    Ok(matches!(without, Some(Validity::NonNullable)) && matches!(same, Validity::NonNullable))
}

#[test]
fn validities_that_are_cast(rt: HostRuntime) -> Result<(), End> {
    let (given, copy) = (three_valid(rt.alloc())?, three_valid(rt.alloc())?);
    let answer = cast(rt.alloc(), &given);
    judged(answer, deep().is_same_validity(&given, &copy))
}
