// The tests of `arrays/dict/array.rs`. Upstream draws codes and values at random; here they go round.

use super::numbers;
use std::alloc::Global;
use std::test::Fail;
use vx_base::{BitBuffer, Mask, VortexError};
use vx_canonical::{Concatenate, ToCanonical};
use vx_leaves::{DictArray, DictArrayExt, PrimitiveArray};
use vx_test_help::{has_numbers, ints, valid_where};
use vx_text::VarBinViewArray;
use vx_tree::{ArrayRef, TypedArray, Validity};

// Whether just these rows of the codes 0, 1, 2, 2, 1 into the values 3, 6, 9 are valid.
fn are_valid(
    alloc: Global,
    codes: Validity,
    values: Validity,
    wanted: &[usize],
) -> Result<bool, VortexError> {
    let codes = numbers(alloc, &[0u32, 1, 2, 2, 1], codes)?;
    let values = numbers(alloc, &[3i32, 6, 9], values)?;
    let rows = DictArray::try_new(alloc, codes, values)?;
    let validity = rows.as_array().validity(alloc)?;
    validity.check(5)?;
    let mask = validity.execute_mask(alloc, 5)?;
    has_indices(alloc, &mask, wanted)
}

// Whether a mask is true at just these places.
fn has_indices(alloc: Global, mask: &Mask, wanted: &[usize]) -> Result<bool, VortexError> {
    let mut found = Vec::new(alloc);
    for row in 0..mask.len() {
        if mask.value(row) {
            found.push(row)?;
        }
    }
    Ok(found.as_slice() == wanted)
}

#[test]
fn nullable_codes_validity(rt: HostRuntime) {
    let codes = valid_where(rt.alloc(), &[true, false, true, false, true]).expect(&rt, "made");
    assert!(rt; are_valid(rt.alloc(), codes, Validity::AllValid, &[0, 2, 4]).expect(&rt, "made"));
}

#[test]
fn nullable_values_validity(rt: HostRuntime) {
    let values = valid_where(rt.alloc(), &[true, false, false]).expect(&rt, "made");
    assert!(rt; are_valid(rt.alloc(), Validity::NonNullable, values, &[0]).expect(&rt, "made"));
}

#[test]
fn nullable_codes_and_values(rt: HostRuntime) {
    let codes = valid_where(rt.alloc(), &[true, false, true, false, true]).expect(&rt, "made");
    let values = valid_where(rt.alloc(), &[false, true, true]).expect(&rt, "made");
    assert!(rt; are_valid(rt.alloc(), codes, values, &[2, 4]).expect(&rt, "made"));
}

#[test]
fn nullable_codes_and_non_null_values(rt: HostRuntime) {
    let codes = valid_where(rt.alloc(), &[true, false, true, false, true]).expect(&rt, "made");
    assert!(rt;
        are_valid(rt.alloc(), codes, Validity::NonNullable, &[0, 2, 4]).expect(&rt, "made")
    );
}

// Upstream appends the rows to a builder; here they are laid out.
#[test]
fn test_dict_utf8_append_to_varbin_builder(rt: HostRuntime) -> Result<(), Fail> {
    let alloc = rt.alloc();
    let texts = ["zero", "one", "two"];
    let values = VarBinViewArray::from_iter_str(alloc, texts.iter().copied())?.into_array();
    let codes = ints::<u8>(alloc, &[2, 0, 2, 1])?;
    let rows = DictArray::try_new(alloc, codes, values)?.into_array();
    let Ok(plain) = VarBinViewArray::try_from_array(rows.to_canonical(alloc)?) else {
        return Err(VortexError::MismatchedTypes.into());
    };
    assert!(rt; plain.len() == 4);
    for (row, want) in ["two", "zero", "two", "one"].iter().enumerate() {
        assert_eq!(rt; plain.as_array().bytes_at(row), Some(want.as_bytes()));
    }
    Ok(())
}

// Two rows of a dictionary of the values 7 and 2^63.
fn chunk(alloc: Global, codes: &[u64]) -> Result<ArrayRef, VortexError> {
    let codes = ints::<u64>(alloc, codes)?;
    let values = ints::<u64>(alloc, &[7, 9_223_372_036_854_775_808])?;
    Ok(DictArray::try_new(alloc, codes, values)?.into_array())
}

// Upstream appends the chunks to a builder; here they are joined.
#[test]
fn test_dict_array_from_primitive_chunks(rt: HostRuntime) {
    let alloc = rt.alloc();
    let first = chunk(alloc, &[1, 0]).expect(&rt, "made");
    let second = chunk(alloc, &[1, 1]).expect(&rt, "made");
    let joined = ArrayRef::concat(alloc, &[first, second]).expect(&rt, "made");
    let high = 9_223_372_036_854_775_808;
    assert!(rt; has_numbers(&joined, &[high, 7, high, high]));
}

// So many codes that go round those below `range`, each third of them null where some are.
fn round_codes(
    alloc: Global,
    count: usize,
    range: u32,
    some_null: bool,
) -> Result<Vec<Option<u32>>, VortexError> {
    let mut codes = Vec::new(alloc);
    let mut code = 0u32;
    for row in 0..count {
        let is_null = some_null && row % 3 == 0;
        codes.push(if is_null { None } else { Some(code) })?;
        let next = code.saturating_add(1);
        code = if next < range { next } else { 0 };
    }
    Ok(codes)
}

// What a scan of these codes tells of so many values.
fn wanted_marks(
    alloc: Global,
    codes: &[Option<u32>],
    values: u32,
    referenced: bool,
) -> Result<BitBuffer, VortexError> {
    let mut marks = vec![in alloc; !referenced; values as usize]?;
    for code in codes.iter().flatten() {
        if (*code as usize) < marks.len() {
            marks[*code as usize] = referenced;
        }
    }
    BitBuffer::from_bools(alloc, &marks)
}

// Whether a dictionary's scan marks just the values of its valid codes: so many codes, which go
// round the first `range` values, each third of them null where some are.
fn marks_of_codes(
    alloc: Global,
    values: u32,
    count: usize,
    range: u32,
    some_null: bool,
    referenced: bool,
) -> Result<bool, VortexError> {
    let items = round_codes(alloc, count, range, some_null)?;
    let wanted = wanted_marks(alloc, &items, values, referenced)?;
    let codes = PrimitiveArray::from_option_iter(alloc, items.iter().copied())?.into_array();
    let values = PrimitiveArray::from_iter(alloc, 0..values)?.into_array();
    let rows = DictArray::try_new(alloc, codes, values)?;
    let marks = rows.compute_referenced_values_mask(alloc, referenced)?;
    Ok(marks == wanted)
}

// Both scans of such a dictionary.
fn both_mark(
    alloc: Global,
    values: u32,
    codes: usize,
    range: u32,
    some_null: bool,
) -> Result<bool, VortexError> {
    let marked = marks_of_codes(alloc, values, codes, range, some_null, true)?;
    Ok(marked && marks_of_codes(alloc, values, codes, range, some_null, false)?)
}

#[test]
fn referenced_values_mask_matches_reference(rt: HostRuntime) {
    assert!(rt; both_mark(rt.alloc(), 16, 5000, 16, false).expect(&rt, "made"));
    assert!(rt; both_mark(rt.alloc(), 4096, 60_000, 4096, false).expect(&rt, "made"));
    assert!(rt; both_mark(rt.alloc(), 4001, 60_000, 4001, false).expect(&rt, "made"));
    assert!(rt; both_mark(rt.alloc(), 1024, 10_000, 1000, false).expect(&rt, "made"));
    assert!(rt; both_mark(rt.alloc(), 1024, 1000, 1024, false).expect(&rt, "made"));
}

#[test]
fn referenced_values_mask_matches_reference_with_nulls(rt: HostRuntime) {
    assert!(rt; both_mark(rt.alloc(), 1024, 1500, 1024, true).expect(&rt, "made"));
    assert!(rt; both_mark(rt.alloc(), 64, 10_000, 64, true).expect(&rt, "made"));
    assert!(rt; both_mark(rt.alloc(), 64, 10_000, 63, true).expect(&rt, "made"));
}
