// Two lists of 280 elements in all, laid end to end in each way, over texts and over records.

use super::has_ranges;
use std::alloc::Global;
use vx_base::{FieldNames, VortexError};
use vx_lists::{ListViewArray, ListViewRebuildMode};
use vx_structs::{StructArray, StructArrayExt};
use vx_test_help::ints;
use vx_text::VarBinViewArray;
use vx_tree::{ArrayRef, TypedArray, Validity};

// Texts of up to twelve bytes, and of more.
const TEXTS: [&str; 7] = [
    "",
    "tiny",
    "twelve bytes",
    "thirteen more",
    "this value is definitely long",
    "and so is this one here",
    "x",
];

// The numbers from 0 up to 300.
fn numbers(alloc: Global) -> Result<ArrayRef, VortexError> {
    let mut items = Vec::new(alloc);
    for number in 0i32..300 {
        items.push(number)?;
    }
    ints(alloc, &items)
}

// As many texts, which go round.
fn texts(alloc: Global) -> Result<ArrayRef, VortexError> {
    let few = VarBinViewArray::from_iter_str(alloc, TEXTS.iter().copied())?.into_array();
    let mut places = Vec::new(alloc);
    for row in 0u32..300 {
        places.push(row % 7)?;
    }
    few.take(alloc, &ints(alloc, &places)?)
}

// As many records, of a number and a text each.
fn records(alloc: Global) -> Result<ArrayRef, VortexError> {
    let names = FieldNames::try_new(alloc, &["number", "text"])?;
    let mut columns = Vec::new(alloc);
    columns.push(numbers(alloc)?)?;
    columns.push(texts(alloc)?)?;
    let validity = Validity::NonNullable;
    Ok(StructArray::try_new(alloc, names, columns.into_iter(), 300, validity)?.into_array())
}

// The elements 10 to 160, and 0 to 130, laid end to end by take, by runs and by `rebuild`.
fn laid_out(alloc: Global, elements: ArrayRef) -> Result<[ListViewArray; 3], VortexError> {
    let offsets = ints::<u32>(alloc, &[10, 0])?;
    let sizes = ints::<u32>(alloc, &[150, 130])?;
    let lists = ListViewArray::try_new(alloc, elements, offsets, sizes, Validity::NonNullable)?;
    Ok([
        lists.rebuild_by_take(alloc)?,
        lists.rebuild_by_runs(alloc)?,
        lists.rebuild(alloc, ListViewRebuildMode::MakeZeroCopyToList)?,
    ])
}

// Which element stands at a place of the new elements.
fn element_at(place: usize) -> usize {
    if place < 150 { place + 10 } else { place - 150 }
}

// Whether the new elements are the numbers wanted.
fn are_numbers(array: &ArrayRef) -> bool {
    if !array.dtype().is_int() || array.len() != 280 {
        return false;
    }
    for place in 0..array.len() {
        if array.int_at(place) != Some(element_at(place) as i128) {
            return false;
        }
    }
    true
}

// Whether the new elements are the texts wanted.
fn are_texts(alloc: Global, array: &ArrayRef) -> Result<bool, VortexError> {
    let Ok(found) = VarBinViewArray::try_from_array(array.try_clone(alloc)?) else {
        return Ok(false);
    };
    if found.len() != 280 {
        return Ok(false);
    }
    for place in 0..280 {
        let wanted = TEXTS[element_at(place) % 7].as_bytes();
        if found.as_array().bytes_at(place) != Some(wanted) {
            return Ok(false);
        }
    }
    Ok(true)
}

#[test]
fn texts_are_copied(rt: HostRuntime) {
    for made in laid_out(rt.alloc(), texts(rt.alloc()).expect(&rt, "made")).expect(&rt, "made") {
        assert!(rt; made.is_zero_copy_to_list() && has_ranges(&made, &[(0, 150), (150, 130)]));
        assert!(rt; are_texts(rt.alloc(), made.elements()).expect(&rt, "made"));
    }
}

#[test]
fn records_are_copied(rt: HostRuntime) {
    for made in laid_out(rt.alloc(), records(rt.alloc()).expect(&rt, "made")).expect(&rt, "made") {
        assert!(rt; made.is_zero_copy_to_list() && has_ranges(&made, &[(0, 150), (150, 130)]));
        let Ok(rows) = StructArray::try_from_array(
            made.elements().try_clone(rt.alloc()).expect(&rt, "made"),
        ) else {
            panic!(rt; "another layout");
        };
        assert!(rt;
            rows.len() == 280
                && are_numbers(rows.unmasked_field_by_name("number").expect(&rt, "made"))
        );
        assert!(rt;
            are_texts(
                rt.alloc(),
                rows.unmasked_field_by_name("text").expect(&rt, "made")
            )
            .expect(&rt, "made")
        );
    }
}
