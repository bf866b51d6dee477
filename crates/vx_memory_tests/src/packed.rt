// The packed form of an array of each layout. What is wanted was worked by hand.

use crate::samples::{
    LONG, dictionary, first_and_last, fives, lists, lists_of_texts, pairs, some_bools, some_ints,
    texts,
};
use std::alloc::Global;
use vx_base::{BitBuffer, Buffer, VortexError};
use vx_leaves::{BoolArray, PrimitiveArray};
use vx_lists::{FixedSizeListArray, ListViewArray, ListViewArrayExt};
use vx_memory_help::{Compare, End, deep, judged};
use vx_pack::Pack;
use vx_structs::StructArray;
use vx_test_help::ints;
use vx_text::VarBinViewArray;
use vx_tree::{ArrayRef, TypedArray, Validity};

// `ArrayRef::pack`.
fn packs_to(alloc: Global, array: &ArrayRef, wanted: &ArrayRef) -> Result<bool, VortexError> {
    let packed = array.pack(alloc)?;
    Ok(deep().is_alike(&packed, wanted))
}

// Packs an array, of which this is a copy.
fn packed(alloc: Global, array: &ArrayRef, copy: &ArrayRef, wanted: &ArrayRef) -> Result<(), End> {
    let answer = packs_to(alloc, array, wanted);
    judged(answer, deep().is_alike(array, copy))
}

// Truth values, the second of three null.
fn bits(alloc: Global, items: &[bool]) -> Result<ArrayRef, VortexError> {
    let bits = BitBuffer::from_bools(alloc, items)?;
    Ok(BoolArray::try_new(alloc, bits, first_and_last(alloc)?)?.into_array())
}

#[test]
fn packed_truths(rt: HostRuntime) -> Result<(), End> {
    let alloc = rt.alloc();
    let (array, copy) = (
        bits(alloc, &[true, true, false])?,
        bits(alloc, &[true, true, false])?,
    );
    packed(alloc, &array, &copy, &bits(alloc, &[true, false, false])?)
}

// Numbers, the second of three null.
fn of_numbers(alloc: Global, items: &[i16]) -> Result<ArrayRef, VortexError> {
    let items = Buffer::copy_from(alloc, items)?;
    Ok(PrimitiveArray::try_new(alloc, items, first_and_last(alloc)?)?.into_array())
}

#[test]
fn packed_numbers(rt: HostRuntime) -> Result<(), End> {
    let alloc = rt.alloc();
    let (array, copy) = (
        of_numbers(alloc, &[7, 5, -9])?,
        of_numbers(alloc, &[7, 5, -9])?,
    );
    packed(alloc, &array, &copy, &of_numbers(alloc, &[7, 0, -9])?)
}

#[test]
fn packed_constants(rt: HostRuntime) -> Result<(), End> {
    let alloc = rt.alloc();
    let (array, copy) = (fives(alloc)?, fives(alloc)?);
    packed(alloc, &array, &copy, &ints(alloc, &[5u8, 5, 5])?)
}

#[test]
fn packed_dictionaries(rt: HostRuntime) -> Result<(), End> {
    let alloc = rt.alloc();
    let (array, copy) = (dictionary(alloc)?, dictionary(alloc)?);
    packed(
        alloc,
        &array,
        &copy,
        &some_ints(alloc, &[Some(9u32), None, Some(6)])?,
    )
}

// The texts hi, null and a long one, cut from texts of which the first is long too.
fn cut_texts(alloc: Global) -> Result<ArrayRef, VortexError> {
    let items = [
        Some("a text that is cut away with its bytes"),
        Some("hi"),
        None,
        Some(LONG),
    ];
    let items = items.iter().copied();
    let texts = VarBinViewArray::from_iter_nullable_str(alloc, items)?;
    texts.as_array().slice(alloc, 1..4)
}

#[test]
fn packed_texts(rt: HostRuntime) -> Result<(), End> {
    let alloc = rt.alloc();
    let (array, copy) = (cut_texts(alloc)?, cut_texts(alloc)?);
    packed(alloc, &array, &copy, &texts(alloc)?)
}

// Two lists of one size, 2, and a null one between them.
fn pairs_of(alloc: Global, items: &[u8]) -> Result<ArrayRef, VortexError> {
    let elements = ints(alloc, items)?;
    let validity = first_and_last(alloc)?;
    Ok(FixedSizeListArray::try_new(alloc, elements, 2, validity, 3)?.into_array())
}

#[test]
fn packed_lists_of_one_size(rt: HostRuntime) -> Result<(), End> {
    let alloc = rt.alloc();
    let (array, copy) = (pairs(alloc)?, pairs(alloc)?);
    packed(alloc, &array, &copy, &pairs_of(alloc, &[1, 2, 0, 0, 5, 6])?)
}

// Lists of two, one and two of these elements, end to end, their flag set.
fn end_to_end(alloc: Global, elements: ArrayRef) -> Result<ArrayRef, VortexError> {
    let offsets = ints(alloc, &[0i32, 2, 3])?;
    let sizes = ints(alloc, &[2i32, 1, 2])?;
    let validity = Validity::NonNullable;
    let lists = ListViewArray::try_new(alloc, elements, offsets, sizes, validity)?;
    let follow = lists.is_consecutive();
    Ok(lists.with_zero_copy_to_list(alloc, follow)?.into_array())
}

#[test]
fn packed_lists(rt: HostRuntime) -> Result<(), End> {
    let alloc = rt.alloc();
    let (array, copy) = (lists(alloc)?, lists(alloc)?);
    let elements = ints(alloc, &[3u16, 4, 1, 2, 3])?;
    packed(alloc, &array, &copy, &end_to_end(alloc, elements)?)
}

#[test]
fn packed_lists_of_texts(rt: HostRuntime) -> Result<(), End> {
    let alloc = rt.alloc();
    let (array, copy) = (lists_of_texts(alloc)?, lists_of_texts(alloc)?);
    let items = ["", "b", "a", LONG, ""];
    let items = VarBinViewArray::from_iter_str(alloc, items.iter().copied())?;
    packed(
        alloc,
        &array,
        &copy,
        &end_to_end(alloc, items.into_array())?,
    )
}

// Records of numbers and of truth values, the second null.
fn records_of(alloc: Global, items: &[u8]) -> Result<ArrayRef, VortexError> {
    let fields = vec![in alloc; ("a", ints(alloc, items)?), ("b", some_bools(alloc)?)]?;
    let validity = first_and_last(alloc)?;
    let records = StructArray::try_from_iter_with_validity(alloc, fields.into_iter(), validity)?;
    Ok(records.into_array())
}

#[test]
fn packed_records(rt: HostRuntime) -> Result<(), End> {
    let alloc = rt.alloc();
    let (array, copy) = (
        records_of(alloc, &[7, 5, 9])?,
        records_of(alloc, &[7, 5, 9])?,
    );
    packed(alloc, &array, &copy, &records_of(alloc, &[7, 0, 9])?)
}
