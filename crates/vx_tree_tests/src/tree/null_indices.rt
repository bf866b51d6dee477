// Indices and codes of which some are null: what stands in a null row is not looked at.

use crate::tree::validities::expect_valid;
use std::alloc::Global;
use std::process::Abort;
use vx_base::{BitBuffer, Mask, PType, VortexError};
use vx_test_help::rows::is_number;
use vx_test_help::samples::{dictionary, indices};
use vx_test_help::{bools, numbers};
use vx_tree::{ArrayRef, Layout, Validity};

// The numbers 5, 6, 9.
fn three_numbers(alloc: Global) -> Result<ArrayRef, VortexError> {
    numbers(alloc, PType::U8, &[5, 6, 9], Validity::NonNullable)
}

// Three indices, each in a byte, of which the first is null.
fn null_first(alloc: Global, first: u8, second: u8, third: u8) -> Result<ArrayRef, VortexError> {
    let validity = Validity::Array(bools(alloc, &[false, true, true])?);
    numbers(alloc, PType::I8, &[first, second, third], validity)
}

// Stops unless the three numbers taken by these are null, 9, 5.
fn expect_null_nine_five(
    rt: &impl Abort,
    alloc: Global,
    indices: &ArrayRef,
) -> Result<(), VortexError> {
    let taken = three_numbers(alloc)?.take(alloc, indices)?;
    assert!(rt; taken.len() == 3 && is_number(&taken, 0, None));
    assert!(rt; is_number(&taken, 1, Some(9)) && is_number(&taken, 2, Some(5)));
    Ok(())
}

#[test]
fn a_null_index_over_any_number(rt: HostRuntime) {
    let alloc = rt.alloc();
    expect_null_nine_five(&rt, alloc, &null_first(alloc, 1, 2, 0).expect(&rt, "made")).expect(
        &rt, "made",
    );
    expect_null_nine_five(
        &rt,
        alloc,
        &null_first(alloc, 100, 2, 0).expect(&rt, "made"),
    )
    .expect(&rt, "made");
    expect_null_nine_five(
        &rt,
        alloc,
        &null_first(alloc, 255, 2, 0).expect(&rt, "made"),
    )
    .expect(&rt, "made");
}

#[test]
fn a_faulty_index_after_a_null_one(rt: HostRuntime) {
    let alloc = rt.alloc();
    let past = three_numbers(alloc)
        .expect(&rt, "made")
        .take(alloc, &null_first(alloc, 100, 3, 255).expect(&rt, "made"));
    let found = match past {
        Err(VortexError::OutOfBounds { index: 3, len: 3 }) => true,
        _ => false,
    };
    assert!(rt; found);
    let negative = three_numbers(alloc)
        .expect(&rt, "made")
        .take(alloc, &null_first(alloc, 100, 2, 255).expect(&rt, "made"));
    let found = match negative {
        Err(VortexError::Negative { row: 2 }) => true,
        _ => false,
    };
    assert!(rt; found);
}

#[test]
fn indices_that_are_all_null(rt: HostRuntime) {
    let alloc = rt.alloc();
    let nulls = numbers(alloc, PType::U8, &[100, 200], Validity::AllInvalid).expect(&rt, "made");
    let taken = three_numbers(alloc)
        .expect(&rt, "made")
        .take(alloc, &nulls)
        .expect(&rt, "made");
    assert!(rt; taken.len() == 2 && is_number(&taken, 0, None));
    assert!(rt; is_number(&taken, 1, None));
}

#[test]
fn a_validity_by_a_null_index_over_any_number(rt: HostRuntime) {
    let alloc = rt.alloc();
    let rows = Validity::Array(bools(alloc, &[true, false, true]).expect(&rt, "made"));
    let taken = rows
        .take(alloc, &null_first(alloc, 100, 2, 1).expect(&rt, "made"))
        .expect(&rt, "made");
    expect_valid(&rt, alloc, &taken, &[false, true, false]).expect(&rt, "made");
}

// Stops unless the array is a dictionary of three values.
fn expect_three_values(rt: &impl Abort, array: &ArrayRef) {
    let found = match array.layout() {
        Layout::Dict { values, .. } => values.len() == 3,
        _ => false,
    };
    assert!(rt; found);
}

#[test]
fn a_dictionary_keeps_its_values(rt: HostRuntime) {
    let alloc = rt.alloc();
    let array = dictionary(alloc).expect(&rt, "made");
    expect_three_values(&rt, &array.slice(alloc, 1..2).expect(&rt, "made"));
    expect_three_values(
        &rt,
        &array
            .take(alloc, &indices(alloc).expect(&rt, "made"))
            .expect(&rt, "made"),
    );
    expect_three_values(
        &rt,
        &array.filter(alloc, &Mask::new_false(5)).expect(&rt, "made"),
    );
    let mask = bools(alloc, &[true, false, true, false, false]).expect(&rt, "made");
    expect_three_values(&rt, &array.mask(alloc, &mask).expect(&rt, "made"));
}

#[test]
fn bits_that_begin_within_a_byte_are_turned(rt: HostRuntime) {
    let alloc = rt.alloc();
    let bits = [
        true, true, true, false, true, true, false, false, true, false, true, true,
    ];
    let bits = BitBuffer::from_bools(alloc, &bits)
        .expect(&rt, "made")
        .slice(alloc, 3..11)
        .expect(&rt, "made");
    let rows = Validity::Array(ArrayRef::bools(alloc, bits, Validity::NonNullable).expect(
        &rt, "made",
    ));
    let want = [true, false, false, true, true, false, true, false];
    expect_valid(&rt, alloc, &rows.not(alloc).expect(&rt, "made"), &want).expect(&rt, "made");
}
