// An array of each layout, and records of a list view of texts: three rows each.

use std::alloc::Global;
use vx_base::{NativePType, Nullability, PType, Scalar, VortexError};
use vx_leaves::{BoolArray, DictArray, PrimitiveArray};
use vx_lists::{FixedSizeListArray, ListViewArray};
use vx_structs::StructArray;
use vx_test_help::{ints, valid_where};
use vx_text::VarBinViewArray;
use vx_tree::{ArrayRef, TypedArray, Validity};

// A text that a view has no room for.
pub(crate) const LONG: &str = "a text that no view has room for";

// Numbers, null for `None`.
pub(crate) fn some_ints<T: NativePType>(
    alloc: Global,
    items: &[Option<T>],
) -> Result<ArrayRef, VortexError> {
    let items = items.iter().copied();
    Ok(PrimitiveArray::from_option_iter(alloc, items)?.into_array())
}

// The truth values true, null, false.
pub(crate) fn some_bools(alloc: Global) -> Result<ArrayRef, VortexError> {
    let items = [Some(true), None, Some(false)];
    let items = items.iter().copied();
    Ok(BoolArray::from_option_iter(alloc, items)?.into_array())
}

// The first and the last of three rows.
pub(crate) fn first_and_last(alloc: Global) -> Result<Validity, VortexError> {
    valid_where(alloc, &[true, false, true])
}

// The numbers 7, null and -9 of type i16.
pub(crate) fn numbers(alloc: Global) -> Result<ArrayRef, VortexError> {
    some_ints(alloc, &[Some(7i16), None, Some(-9)])
}

// Three times 5.
pub(crate) fn fives(alloc: Global) -> Result<ArrayRef, VortexError> {
    let five = Scalar::int(5, PType::U8, Nullability::NonNullable);
    ArrayRef::constant(alloc, five, 3)
}

// The values 9, null and 6, by codes.
pub(crate) fn dictionary(alloc: Global) -> Result<ArrayRef, VortexError> {
    let codes = some_ints(alloc, &[Some(1u8), None, Some(0)])?;
    let values = ints(alloc, &[6u32, 9])?;
    Ok(DictArray::try_new(alloc, codes, values)?.into_array())
}

// The lists [1, 2], null, [5, 6].
pub(crate) fn pairs(alloc: Global) -> Result<ArrayRef, VortexError> {
    let elements = ints(alloc, &[1u8, 2, 3, 4, 5, 6])?;
    let validity = first_and_last(alloc)?;
    Ok(FixedSizeListArray::try_new(alloc, elements, 2, validity, 3)?.into_array())
}

// The lists of the last two of four elements, of the first alone, and of the second and the third.
pub(crate) fn lists_of(alloc: Global, elements: ArrayRef) -> Result<ArrayRef, VortexError> {
    let offsets = ints(alloc, &[2u8, 0, 1])?;
    let sizes = ints(alloc, &[2u8, 1, 2])?;
    let validity = Validity::NonNullable;
    Ok(ListViewArray::try_new(alloc, elements, offsets, sizes, validity)?.into_array())
}

// The lists [3, 4], [1] and [2, 3].
pub(crate) fn lists(alloc: Global) -> Result<ArrayRef, VortexError> {
    lists_of(alloc, ints(alloc, &[1u16, 2, 3, 4])?)
}

// The texts hi, null and a long one.
pub(crate) fn texts(alloc: Global) -> Result<ArrayRef, VortexError> {
    let items = [Some("hi"), None, Some(LONG)];
    let items = items.iter().copied();
    Ok(VarBinViewArray::from_iter_nullable_str(alloc, items)?.into_array())
}

// Records of numbers and of truth values, the second null.
pub(crate) fn records(alloc: Global) -> Result<ArrayRef, VortexError> {
    let fields = vec![in alloc; ("a", numbers(alloc)?), ("b", some_bools(alloc)?)]?;
    let validity = first_and_last(alloc)?;
    let records = StructArray::try_from_iter_with_validity(alloc, fields.into_iter(), validity)?;
    Ok(records.into_array())
}

// Four texts.
fn four_texts(alloc: Global) -> Result<ArrayRef, VortexError> {
    let items = ["a", LONG, "", "b"];
    let items = items.iter().copied();
    Ok(VarBinViewArray::from_iter_str(alloc, items)?.into_array())
}

// Such lists of four texts.
pub(crate) fn lists_of_texts(alloc: Global) -> Result<ArrayRef, VortexError> {
    lists_of(alloc, four_texts(alloc)?)
}

// Eight lists of texts, of which the last alone has elements: the last two of four.
pub(crate) fn mostly_empty_lists(alloc: Global) -> Result<ArrayRef, VortexError> {
    let elements = four_texts(alloc)?;
    let offsets = ints(alloc, &[0u8, 0, 0, 0, 0, 0, 0, 2])?;
    let sizes = ints(alloc, &[0u8, 0, 0, 0, 0, 0, 0, 2])?;
    let validity = Validity::NonNullable;
    Ok(ListViewArray::try_new(alloc, elements, offsets, sizes, validity)?.into_array())
}

// Records of a list view of texts.
pub(crate) fn records_of_lists(alloc: Global) -> Result<ArrayRef, VortexError> {
    let fields = vec![in alloc; ("lists", lists_of_texts(alloc)?)]?;
    Ok(StructArray::from_fields(alloc, &fields)?.into_array())
}

// All of them.
pub(crate) fn samples(alloc: Global) -> Result<Vec<ArrayRef>, VortexError> {
    let mut arrays = Vec::new(alloc);
    arrays.push(some_bools(alloc)?)?;
    arrays.push(numbers(alloc)?)?;
    arrays.push(fives(alloc)?)?;
    arrays.push(dictionary(alloc)?)?;
    arrays.push(pairs(alloc)?)?;
    arrays.push(lists(alloc)?)?;
    arrays.push(records(alloc)?)?;
    arrays.push(texts(alloc)?)?;
    arrays.push(records_of_lists(alloc)?)?;
    Ok(arrays)
}
