// Calls that take no memory: the sweep refuses every request once the arrays are made.

use crate::samples::{
    LONG, dictionary, first_and_last, lists, numbers, pairs, records, samples, texts,
};
use crate::typed::typed;
use std::alloc::Global;
use vx_base::{BitBuffer, Buffer, Mask, Nullability, VortexError};
use vx_leaves::{BoolArray, DictArray, PrimitiveArray, PrimitiveArrayExt};
use vx_lists::{
    FixedSizeListArray, FixedSizeListArrayExt, FixedSizeListData, ListViewArray, ListViewArrayExt,
    ListViewData,
};
use vx_memory_help::{End, judged};
use vx_pack::RowsEqual;
use vx_structs::{StructArray, StructArrayExt};
use vx_test_help::ints;
use vx_text::{VarBinViewArray, VarBinViewArrayExt, VarBinViewData};
use vx_tree::{ArrayRef, TypedArray, Validity};

// What is read of bits, masks and validities.
fn bits_are_read(bits: &BitBuffer, mask: &Mask, validity: &Validity) -> bool {
    bits.len() == 3
        && bits.true_count() == 2
        && bits.value(1) == bits.view().value(1)
        && mask.len() == 3
        && mask.true_count() == 2
        && mask.rows().value(2)
        && mask.runs().len() == 2
        && validity.maybe_len() == Some(3)
        && validity.check(3).is_ok()
        && validity.check(4).is_err()
        && BoolArray::validate(bits, validity).is_ok()
        && !validity.definitely_no_nulls()
}

#[test]
fn bits_and_masks(rt: HostRuntime) -> Result<(), End> {
    let bits = BitBuffer::from_bools(rt.alloc(), &[true, false, true])?;
    let mask = Mask::from_buffer(rt.alloc(), bits.try_clone(rt.alloc())?)?;
    let validity = first_and_last(rt.alloc())?;
    judged(Ok(bits_are_read(&bits, &mask, &validity)), true)
}

// What is read of numbers, a dictionary and texts.
fn leaves_are_read(numbers: &ArrayRef, dictionary: &ArrayRef, texts: &ArrayRef) -> bool {
    numbers.len() == 3
        && dictionary.len() == 3
        && texts.len() == 3
        && numbers.dtype().is_int()
        && dictionary.dtype().is_int()
        && numbers.int_at(0) == Some(7)
        && numbers.int_at(1).is_none()
        && dictionary.int_at(0) == Some(9)
        && texts.dtype().is_nullable()
}

#[test]
fn rows_of_leaves(rt: HostRuntime) -> Result<(), End> {
    let (numbers, dictionary) = (numbers(rt.alloc())?, dictionary(rt.alloc())?);
    let texts = texts(rt.alloc())?;
    judged(Ok(leaves_are_read(&numbers, &dictionary, &texts)), true)
}

// What is read of typed leaves.
fn typed_leaves_are_read(numbers: ArrayRef, dictionary: ArrayRef, texts: ArrayRef) -> bool {
    let Ok(numbers) = PrimitiveArray::try_from_array(numbers) else {
        return false;
    };
    let Ok(dictionary) = DictArray::try_from_array(dictionary) else {
        return false;
    };
    let Ok(texts) = VarBinViewArray::try_from_array(texts) else {
        return false;
    };
    let (are_texts, _) = texts.dtype_parts();
    numbers.buffer_handle().len() == 6
        && dictionary.codes().len() == 3
        && dictionary.values().len() == 2
        && are_texts
        && texts.len() == 3
        && texts.as_array().bytes_at(0) == Some(b"hi".as_slice())
        && texts.as_array().bytes_at(1).is_none()
}

#[test]
fn parts_of_leaves(rt: HostRuntime) -> Result<(), End> {
    let (numbers, dictionary) = (numbers(rt.alloc())?, dictionary(rt.alloc())?);
    let texts = texts(rt.alloc())?;
    judged(Ok(typed_leaves_are_read(numbers, dictionary, texts)), true)
}

// What is read of list views.
fn lists_are_read(lists: ArrayRef) -> bool {
    let Ok(lists) = ListViewArray::try_from_array(lists) else {
        return false;
    };
    if lists.len() != 3 {
        return false;
    }
    let valid = Validity::NonNullable;
    lists.offset_at(0) == 2
        && lists.size_at(0) == 2
        && !lists.is_consecutive()
        && !lists.is_zero_copy_to_list()
        && lists.referenced_element_bounds() == Ok((0, 4))
        && ListViewArray::should_use_take(5, 3)
        && ListViewData::validate(lists.elements(), lists.offsets(), lists.sizes(), &valid).is_ok()
}

#[test]
fn numbers_of_list_views(rt: HostRuntime) -> Result<(), End> {
    judged(Ok(lists_are_read(lists(rt.alloc())?)), true)
}

// What is read of lists of one size, and of records.
fn others_are_read(lists: ArrayRef, records: ArrayRef) -> bool {
    let Ok(lists) = FixedSizeListArray::try_from_array(lists) else {
        return false;
    };
    let Ok(records) = StructArray::try_from_array(records) else {
        return false;
    };
    let valid = Validity::AllValid;
    lists.list_size() == 2
        && FixedSizeListData::validate(lists.elements(), 3, 2, &valid).is_ok()
        && records.fields().len() == 2
        && records.names().find("b") == Some(1)
        && records.unmasked_field_by_name("b").is_ok()
        && records.unmasked_field_by_name("c").is_err()
}

#[test]
fn parts_of_lists_and_records(rt: HostRuntime) -> Result<(), End> {
    let (lists, records) = (pairs(rt.alloc())?, records(rt.alloc())?);
    judged(Ok(others_are_read(lists, records)), true)
}

// What is read of numbers that are to be made.
fn numbers_are_tested(buffer: &Buffer<i16>, validity: &Validity) -> bool {
    PrimitiveArray::validate(buffer, validity).is_ok()
        && PrimitiveArray::validate(buffer, &Validity::NonNullable).is_ok()
        && buffer.len() == 3
}

#[test]
fn numbers_that_are_tested(rt: HostRuntime) -> Result<(), End> {
    let buffer = Buffer::copy_from(rt.alloc(), &[7i16, 0, -9])?;
    let (fits, short) = (first_and_last(rt.alloc())?, ints(rt.alloc(), &[1u8, 1])?);
    let is_refused = PrimitiveArray::validate(&buffer, &Validity::Array(short)).is_err();
    judged(Ok(is_refused && numbers_are_tested(&buffer, &fits)), true)
}

// What is read of the buffer of texts, the only one.
fn buffers_are_read(texts: &VarBinViewData) -> bool {
    texts.data_buffers().len() == 1 && texts.buffer(0).as_slice() == LONG.as_bytes()
}

#[test]
fn buffers_of_texts(rt: HostRuntime) -> Result<(), End> {
    let texts: VarBinViewArray = typed(texts(rt.alloc())?)?;
    let data = texts.to_data(rt.alloc())?;
    judged(Ok(buffers_are_read(&data)), true)
}

// What is read of the columns of records, by their places and by their names.
fn columns_are_read(records: &StructArray) -> bool {
    records.fields().len() == 2
        && records.unmasked_field(1).len() == 3
        && records.unmasked_field_opt(1).is_some()
        && records.unmasked_field_opt(2).is_none()
        && records.unmasked_field_by_name_opt("b").is_some()
        && records.unmasked_field_by_name_opt("c").is_none()
}

#[test]
fn columns_of_records(rt: HostRuntime) -> Result<(), End> {
    let records: StructArray = typed(records(rt.alloc())?)?;
    judged(Ok(columns_are_read(&records)), true)
}

// Whether a validity is an array, which none of these calls looks into.
fn is_array(validity: &Validity) -> bool {
    matches!(validity, Validity::Array(_))
}

// Whether two validities by arrays stay what they are, made nullable.
fn are_made_nullable(one: Validity, other: Validity) -> bool {
    let is_told = one.nullability() == Nullability::Nullable && !one.definitely_all_null();
    let joined = one.union_nullability(Nullability::Nullable);
    is_told && is_array(&joined) && is_array(&other.into_nullable())
}

#[test]
fn validities_that_are_made_nullable(rt: HostRuntime) -> Result<(), End> {
    let (one, other) = (first_and_last(rt.alloc())?, first_and_last(rt.alloc())?);
    judged(Ok(are_made_nullable(one, other)), true)
}

// Whether casts that look at no row leave two validities by arrays as they are, or give nothing.
fn are_cast_by_state(one: Validity, other: Validity) -> bool {
    let nothing = one.trivial_into_non_nullable(3);
    let same = other.trivially_cast_nullability(Nullability::Nullable, 3);
    let refused = Validity::AllInvalid.trivially_cast_nullability(Nullability::NonNullable, 3);
    matches!(nothing, Ok(None))
        && matches!(same, Ok(Some(Validity::Array(_))))
        && matches!(refused, Err(VortexError::HasNulls))
}

#[test]
fn validities_that_are_cast_by_state(rt: HostRuntime) -> Result<(), End> {
    let (one, other) = (first_and_last(rt.alloc())?, first_and_last(rt.alloc())?);
    judged(Ok(are_cast_by_state(one, other)), true)
}

// What states without an array tell.
fn states_are_read() -> bool {
    Validity::NonNullable.nullability() == Nullability::NonNullable
        && Validity::AllInvalid.definitely_all_null()
        && !Validity::AllValid.definitely_all_null()
        && matches!(Validity::NonNullable.into_nullable(), Validity::AllValid)
}

#[test]
fn states_of_validities(_rt: HostRuntime) -> Result<(), End> {
    judged(Ok(states_are_read()), true)
}

// Whether an array has the rows of the one at that place, and of no other.
fn is_equal_at(one: &ArrayRef, others: &[ArrayRef], place: usize) -> bool {
    for (i, other) in others.iter().enumerate() {
        if one.rows_equal(other) != (i == place) {
            return false;
        }
    }
    true
}

// Whether each array has the rows of the one at its place among others, and of no other.
fn rows_are_compared(some: &[ArrayRef], others: &[ArrayRef]) -> bool {
    for (place, one) in some.iter().enumerate() {
        if !is_equal_at(one, others, place) {
            return false;
        }
    }
    true
}

#[test]
fn rows_that_are_compared(rt: HostRuntime) -> Result<(), End> {
    let (some, others) = (samples(rt.alloc())?, samples(rt.alloc())?);
    judged(Ok(rows_are_compared(&some, &others)), true)
}
