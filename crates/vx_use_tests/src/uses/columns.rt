// Columns that are encoded and written.

use std::alloc::Global;
use vx_base::{Buffer, ByteBuffer, DType, PType, VortexError};
use vx_leaves::{DictArrayExt, PrimitiveArray, PrimitiveDataParts};
use vx_test_help::samples::dictionary;
use vx_test_help::{bools, has_numbers_or_nulls};
use vx_tree::{ArrayRef, TypedArray, Validity};
use vx_uses::encoder::{flagged_dictionary, narrowed_column, values_in_use};
use vx_uses::first::column;
use vx_uses::part_by_steps::part_of_part;
use vx_uses::writer::{stored_numbers, write_values};

#[test]
fn numbers_get_the_narrowest_type(rt: HostRuntime) {
    let alloc = rt.alloc();
    let narrowed = narrowed_column(
        alloc,
        column::<i64>(alloc, &[-1, 128]).expect(&rt, "made"),
    ).expect(&rt, "made");
    assert!(rt; matches!(narrowed.dtype(), DType::Primitive(PType::I16, _)));
    assert!(rt; has_numbers_or_nulls(&narrowed, &[Some(-1), Some(128)]));
    let bits = narrowed_column(alloc, bools(alloc, &[true, false]).expect(&rt, "made")).expect(
        &rt, "made",
    );
    assert!(rt; matches!(bits.dtype(), DType::Bool(_)) && bits.len() == 2);
}

#[test]
fn a_null_row_widens_no_type(rt: HostRuntime) {
    let alloc = rt.alloc();
    let valid = bools(alloc, &[true, false]).expect(&rt, "made");
    let numbers = Buffer::copy_from(alloc, &[7u32, 70000]).expect(&rt, "made");
    let column = PrimitiveArray::try_new(alloc, numbers, Validity::Array(valid)).expect(
        &rt, "made",
    );
    let narrowed = narrowed_column(alloc, column.into_array()).expect(&rt, "made");
    assert!(rt; matches!(narrowed.dtype(), DType::Primitive(PType::U8, _)));
    assert!(rt; has_numbers_or_nulls(&narrowed, &[Some(7), None]));
}

#[test]
fn the_flag_tells_that_all_values_are_in_use(rt: HostRuntime) {
    let alloc = rt.alloc();
    let values = column::<i32>(alloc, &[5, 6]).expect(&rt, "made");
    let codes = column::<u8>(alloc, &[1, 0, 1]).expect(&rt, "made");
    let all = flagged_dictionary(alloc, codes, values.try_clone(alloc).expect(&rt, "made")).expect(
        &rt, "made",
    );
    assert!(rt; all.has_all_values_referenced());
    assert!(rt; has_numbers_or_nulls(all.as_array(), &[Some(6), Some(5), Some(6)]));
    let codes = column::<u8>(alloc, &[1, 1]).expect(&rt, "made");
    let some = flagged_dictionary(alloc, codes, values.try_clone(alloc).expect(&rt, "made")).expect(
        &rt, "made",
    );
    assert!(rt; !some.has_all_values_referenced());
    let refused = flagged_dictionary(
        alloc,
        column::<u8>(alloc, &[0, 2]).expect(&rt, "made"),
        values,
    );
    assert!(rt; matches!(refused, Err(VortexError::OutOfBounds { index: 2, .. })));
}

#[test]
fn values_come_back_from_fewest_buffers(rt: HostRuntime) {
    let alloc = rt.alloc();
    let heap = ByteBuffer::copy_from(alloc, b"a longer value!abcanother long one").expect(
        &rt, "made",
    );
    let written = write_values::<u8>(alloc, 20, heap, &[15, 3, 16]).expect(&rt, "made");
    assert!(rt; written.buffers.len() == 2 && written.views.len() == 3);
    assert!(rt; written.value(0) == b"a longer value!".as_slice());
    assert!(rt; written.value(1) == b"abc".as_slice());
    assert!(rt; written.value(2) == b"another long one".as_slice());
}

#[test]
fn two_steps_cut_a_part_of_a_part(rt: HostRuntime) {
    let alloc = rt.alloc();
    let part = part_of_part(
        alloc,
        column::<u8>(alloc, &[10, 11, 12, 13, 14]).expect(&rt, "made"),
        1..4,
        1..3,
    )
    .expect(&rt, "made");
    assert!(rt; has_numbers_or_nulls(&part, &[Some(12), Some(13)]));
    let refused = part_of_part(
        alloc,
        column::<u8>(alloc, &[10, 11, 12, 13, 14]).expect(&rt, "made"),
        1..4,
        1..4,
    );
    assert!(rt; matches!(refused, Err(VortexError::OutOfBounds { index: 4, len: 3 })));
}

// What is stored of a column of numbers, none of another one.
fn stored(alloc: Global, column: &ArrayRef) -> Result<Option<PrimitiveDataParts>, VortexError> {
    if !column.dtype().is_int() {
        return Ok(None);
    }
    Ok(Some(stored_numbers(alloc, column)?))
}

#[test]
fn a_dictionary_is_stored_as_its_numbers(rt: HostRuntime) {
    let alloc = rt.alloc();
    let column = dictionary(alloc).expect(&rt, "made");
    let Some(parts) = stored(alloc, &column).expect(&rt, "made") else {
        panic!(rt; "no numbers");
    };
    assert!(rt; parts.ptype == PType::U8 && parts.buffer.len() == 5);
    let read = PrimitiveArray::from_byte_buffer(
        alloc,
        parts.buffer,
        parts.ptype,
        parts.validity,
    ).expect(&rt, "made");
    let rows = [None, None, Some(9), None, Some(6)];
    assert!(rt; has_numbers_or_nulls(read.as_array(), &rows));
}

#[test]
fn values_that_no_code_names_are_left_out(rt: HostRuntime) {
    let alloc = rt.alloc();
    let codes = column::<u8>(alloc, &[0, 2, 0]).expect(&rt, "made");
    let values = column::<i32>(alloc, &[5, 6, 9]).expect(&rt, "made");
    let dictionary = flagged_dictionary(alloc, codes, values).expect(&rt, "made");
    let (used, read) = values_in_use(alloc, &dictionary).expect(&rt, "made");
    assert!(rt; has_numbers_or_nulls(&used, &[Some(5), Some(9)]) && read == 3);
}
