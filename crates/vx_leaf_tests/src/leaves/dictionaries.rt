// Values that codes name.

use std::alloc::Global;
use vx_base::{BitBuffer, Buffer, DType, Nullability, PType, Scalar, VortexError};
use vx_leaves::{ConstantArray, DictArray, DictArrayExt, DictData, DictOwnedExt, PrimitiveArray};
use vx_test_help::{bools, has_numbers, ints, valid_where};
use vx_tree::{ArrayRef, TypedArray};

// Numbers of type i8, null where the mask is false.
fn masked(alloc: Global, numbers: &[i8], valid: &[bool]) -> Result<ArrayRef, VortexError> {
    let buffer = Buffer::copy_from(alloc, numbers)?;
    let validity = valid_where(alloc, valid)?;
    Ok(PrimitiveArray::try_new(alloc, buffer, validity)?.into_array())
}

// Values of type u8 by these codes.
fn by_codes(alloc: Global, codes: ArrayRef, values: &[u8]) -> Result<DictArray, VortexError> {
    DictArray::try_new(alloc, codes, ints(alloc, values)?)
}

// The codes 0, 2, 0 into three values.
fn two_of_three(alloc: Global) -> Result<DictArray, VortexError> {
    by_codes(alloc, ints::<u8>(alloc, &[0, 2, 0])?, &[5, 6, 9])
}

// The rows null, null, 9, null, 6 by codes, of which two are null, into values, of which one is.
fn nulls_of_both(alloc: Global) -> Result<DictArray, VortexError> {
    let valid = [true, false, true, false, true];
    let codes = masked(alloc, &[0, -3, 2, 99, 1], &valid)?;
    let values = masked(alloc, &[0, 6, 9], &[false, true, true])?;
    DictArray::try_new(alloc, codes, values)
}

// Whether the scan of a dictionary tells these booleans.
fn scan_tells(
    alloc: Global,
    array: &DictArray,
    referenced: bool,
    want: &[bool],
) -> Result<bool, VortexError> {
    let marks = array.compute_referenced_values_mask(alloc, referenced)?;
    Ok(marks == BitBuffer::from_bools(alloc, want)?)
}

// Three values under codes that are one row, however often.
fn by_one_code(alloc: Global, code: Scalar) -> Result<DictArray, VortexError> {
    by_codes(
        alloc,
        ConstantArray::new(alloc, code, 4)?.into_array(),
        &[5, 6, 9],
    )
}

#[test]
fn null_codes_and_null_values(rt: HostRuntime) {
    let array = nulls_of_both(rt.alloc()).expect(&rt, "made").into_array();
    assert!(rt; array.len() == 5 && !array.is_valid(rt.alloc(), 0).expect(&rt, "made"));
    assert!(rt;
        !array.is_valid(rt.alloc(), 1).expect(&rt, "made")
            && !array.is_valid(rt.alloc(), 3).expect(&rt, "made")
    );
    assert!(rt;
        array
            .execute_scalar(rt.alloc(), 2)
            .expect(&rt, "made")
            .as_int()
            == Some(9)
    );
    assert!(rt;
        array
            .execute_scalar(rt.alloc(), 4)
            .expect(&rt, "made")
            .as_int()
            == Some(6)
    );
}

#[test]
fn code_below_zero(rt: HostRuntime) {
    let codes = masked(rt.alloc(), &[0, 0, -1], &[true, false, true]).expect(&rt, "made");
    let made = by_codes(rt.alloc(), codes, &[1, 2, 3]);
    assert!(rt; matches!(made, Err(VortexError::Negative { row: 2 })));
}

#[test]
fn code_past_the_values(rt: HostRuntime) {
    let codes = ints::<u8>(rt.alloc(), &[0, 3]).expect(&rt, "made");
    let made = by_codes(rt.alloc(), codes, &[1, 2, 3]);
    assert!(rt; matches!(made, Err(VortexError::OutOfBounds { index: 3, .. })));
}

#[test]
fn codes_that_are_no_integers(rt: HostRuntime) {
    let made = by_codes(
        rt.alloc(),
        bools(rt.alloc(), &[true]).expect(&rt, "made"),
        &[1, 2, 3],
    );
    assert!(rt; matches!(made, Err(VortexError::MismatchedTypes)));
}

#[test]
fn not_all_values_are_referenced(rt: HostRuntime) {
    let array = two_of_three(rt.alloc()).expect(&rt, "made");
    assert!(rt;
        !array
            .are_all_values_referenced(rt.alloc())
            .expect(&rt, "made")
    );
}

#[test]
fn two_values_of_three_are_used(rt: HostRuntime) {
    let array = two_of_three(rt.alloc()).expect(&rt, "made");
    assert!(rt; scan_tells(rt.alloc(), &array, true, &[true, false, true]).expect(&rt, "made"));
    assert!(rt; scan_tells(rt.alloc(), &array, false, &[false, true, false]).expect(&rt, "made"));
}

#[test]
fn all_values_are_referenced(rt: HostRuntime) {
    let codes = ints::<u8>(rt.alloc(), &[1, 0, 1]).expect(&rt, "made");
    let array = by_codes(rt.alloc(), codes, &[5, 6]).expect(&rt, "made");
    assert!(rt;
        array
            .are_all_values_referenced(rt.alloc())
            .expect(&rt, "made")
    );
    assert!(rt; !array.has_all_values_referenced());
}

#[test]
fn null_codes_reference_nothing(rt: HostRuntime) {
    let codes = masked(rt.alloc(), &[0, 1], &[true, false]).expect(&rt, "made");
    let array = by_codes(rt.alloc(), codes, &[5, 6]).expect(&rt, "made");
    assert!(rt; scan_tells(rt.alloc(), &array, true, &[true, false]).expect(&rt, "made"));
    assert!(rt; scan_tells(rt.alloc(), &array, false, &[false, true]).expect(&rt, "made"));
}

#[test]
fn one_code_however_often(rt: HostRuntime) {
    let code = Scalar::int(1, PType::U8, Nullability::NonNullable);
    let array = by_one_code(rt.alloc(), code).expect(&rt, "made");
    assert!(rt; scan_tells(rt.alloc(), &array, true, &[false, true, false]).expect(&rt, "made"));
    assert!(rt; scan_tells(rt.alloc(), &array, false, &[true, false, true]).expect(&rt, "made"));
}

#[test]
fn one_null_code_however_often(rt: HostRuntime) {
    let code = Scalar::null(DType::Primitive(PType::U8, Nullability::Nullable));
    let array = by_one_code(rt.alloc(), code).expect(&rt, "made");
    assert!(rt; scan_tells(rt.alloc(), &array, true, &[false, false, false]).expect(&rt, "made"));
    assert!(rt; scan_tells(rt.alloc(), &array, false, &[true, true, true]).expect(&rt, "made"));
}

#[test]
fn codes_of_a_dictionary(rt: HostRuntime) {
    let codes = by_codes(
        rt.alloc(),
        ints::<u8>(rt.alloc(), &[1, 1]).expect(&rt, "made"),
        &[0, 2],
    )
    .expect(&rt, "made");
    let array = by_codes(rt.alloc(), codes.into_array(), &[5, 6, 9]).expect(&rt, "made");
    assert!(rt; scan_tells(rt.alloc(), &array, true, &[false, false, true]).expect(&rt, "made"));
}

#[test]
fn null_codes_of_a_dictionary(rt: HostRuntime) {
    let places = masked(rt.alloc(), &[0, 1], &[true, false]).expect(&rt, "made");
    let codes = by_codes(rt.alloc(), places, &[2, 0]).expect(&rt, "made");
    let array = by_codes(rt.alloc(), codes.into_array(), &[5, 6, 9]).expect(&rt, "made");
    assert!(rt; scan_tells(rt.alloc(), &array, true, &[false, false, true]).expect(&rt, "made"));
    assert!(rt; scan_tells(rt.alloc(), &array, false, &[true, true, false]).expect(&rt, "made"));
}

#[test]
fn flag_where_all_values_are_referenced(rt: HostRuntime) {
    let codes = ints::<u8>(rt.alloc(), &[1, 0]).expect(&rt, "made");
    let array = by_codes(rt.alloc(), codes, &[5, 6]).expect(&rt, "made");
    let holds = array
        .are_all_values_referenced(rt.alloc())
        .expect(&rt, "made");
    assert!(rt; holds);
    let array = array
        .set_all_values_referenced(rt.alloc(), holds)
        .expect(&rt, "made");
    assert!(rt; array.has_all_values_referenced());
    let data = array.to_data(rt.alloc()).expect(&rt, "made");
    assert!(rt;
        format!(in rt.alloc(); "{data}")
            .expect(&rt, "made")
            .as_str()
            == "all_values_referenced: true"
    );
}

#[test]
fn slots_of_a_dictionary(rt: HostRuntime) {
    let slots = two_of_three(rt.alloc())
        .expect(&rt, "made")
        .slots(rt.alloc())
        .expect(&rt, "made");
    assert!(rt; has_numbers(&slots.codes, &[0, 2, 0]) && has_numbers(&slots.values, &[5, 6, 9]));
}

#[test]
fn parts_of_a_dictionary(rt: HostRuntime) {
    let array = two_of_three(rt.alloc()).expect(&rt, "made");
    assert!(rt; has_numbers(array.codes(), &[0, 2, 0]) && has_numbers(array.values(), &[5, 6, 9]));
    let parts = array.into_parts(rt.alloc()).expect(&rt, "made");
    assert!(rt; parts.codes.len() == 3 && parts.values.len() == 3 && parts.dtype.is_int());
}

#[test]
fn data_of_a_dictionary(rt: HostRuntime) {
    let array = two_of_three(rt.alloc())
        .expect(&rt, "made")
        .set_all_values_referenced(rt.alloc(), false)
        .expect(&rt, "made");
    let data = array.to_data(rt.alloc()).expect(&rt, "made");
    let text = format!(in rt.alloc(); "{data}").expect(&rt, "made");
    assert!(rt; text.as_str() == "all_values_referenced: false");
    array
        .validate_all_values_referenced(rt.alloc())
        .expect(&rt, "made");
}

#[test]
fn data_of_new_codes(rt: HostRuntime) {
    let data = DictData::new(&DType::Primitive(PType::U16, Nullability::Nullable));
    let text = format!(in rt.alloc(); "{data}").expect(&rt, "made");
    assert!(rt; text.as_str() == "all_values_referenced: false");
}

// So many codes that go round those below `range`, each third of them null where some are.
fn round_codes(alloc: Global, rows: u16, range: u16, nulls: bool) -> Result<ArrayRef, VortexError> {
    let mut codes = Vec::new(alloc);
    for row in 0..rows {
        let is_null = nulls && row % 3 == 1;
        codes.push(if is_null {
            None
        } else {
            Some(row % range.max(1))
        })?;
    }
    Ok(PrimitiveArray::from_option_iter(alloc, codes.iter().copied())?.into_array())
}

// Where the scan of so many values under such codes ends, and whether all of them are named.
fn scan_of(
    alloc: Global,
    (values, rows, range): (u16, u16, u16),
    nulls: bool,
    referenced: bool,
) -> Result<(usize, bool), VortexError> {
    let codes = round_codes(alloc, rows, range, nulls)?;
    let numbers = vec![in alloc; 7u8; usize::from(values)]?;
    let array = by_codes(alloc, codes, &numbers)?;
    let (_, end) = array.referenced_values_scan(alloc, referenced)?;
    Ok((end, array.are_all_values_referenced(alloc)?))
}

#[test]
fn the_scan_ends_once_all_values_are_referenced(rt: HostRuntime) {
    for (parts, end) in [
        ((16, 5000, 16), (2048, true)),
        ((4096, 60000, 4096), (4096, true)),
        ((4001, 60000, 4001), (4096, true)),
        ((1024, 10000, 1000), (10000, false)),
        ((1024, 1000, 1024), (1000, false)),
    ] {
        assert!(rt; scan_of(rt.alloc(), parts, false, true).expect(&rt, "made") == end);
        assert!(rt; scan_of(rt.alloc(), parts, false, false).expect(&rt, "made") == end);
    }
}

#[test]
fn the_scan_passes_null_codes(rt: HostRuntime) {
    for (parts, end) in [
        ((1024, 1500, 1024), (1500, false)),
        ((64, 10000, 64), (2048, true)),
        ((64, 10000, 63), (10000, false)),
    ] {
        assert!(rt; scan_of(rt.alloc(), parts, true, true).expect(&rt, "made") == end);
        assert!(rt; scan_of(rt.alloc(), parts, true, false).expect(&rt, "made") == end);
    }
}

// The end of the scan of so many values under 2^60 codes that are one row.
fn end_of_one_code(alloc: Global, code: Scalar, values: &[u8]) -> Result<usize, VortexError> {
    let codes = ConstantArray::new(alloc, code, 1 << 60)?.into_array();
    let (_, end) = by_codes(alloc, codes, values)?.referenced_values_scan(alloc, true)?;
    Ok(end)
}

#[test]
fn one_code_is_read_once(rt: HostRuntime) {
    let code = Scalar::int(0, PType::U8, Nullability::NonNullable);
    assert!(rt; end_of_one_code(rt.alloc(), code, &[7]).expect(&rt, "made") == 2048);
    let code = Scalar::int(0, PType::U8, Nullability::NonNullable);
    assert!(rt; end_of_one_code(rt.alloc(), code, &[7, 8]).expect(&rt, "made") == 1 << 60);
    let code = Scalar::null(DType::Primitive(PType::U8, Nullability::Nullable));
    assert!(rt; end_of_one_code(rt.alloc(), code, &[7]).expect(&rt, "made") == 1 << 60);
}
