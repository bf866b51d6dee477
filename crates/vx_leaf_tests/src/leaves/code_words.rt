// Codes that are read a word of rows at a time, on both sides of each bound.

use std::alloc::Global;
use vx_base::{BitBuffer, Buffer, DType, Nullability, PType, Scalar, VortexError};
use vx_leaves::{ConstantArray, DictArray, DictArrayExt, PrimitiveArray};
use vx_test_help::{bools, ints, valid_where};
use vx_tree::{ArrayRef, TypedArray, Validity};

// Codes of type u8 under a validity.
fn codes_under(alloc: Global, codes: &[u8], validity: Validity) -> Result<ArrayRef, VortexError> {
    let buffer = Buffer::copy_from(alloc, codes)?;
    Ok(PrimitiveArray::try_new(alloc, buffer, validity)?.into_array())
}

// `len` times 0, and 1 at one row.
fn one_at(alloc: Global, len: usize, row: usize) -> Result<ArrayRef, VortexError> {
    let mut codes = vec![in alloc; 0u8; len]?;
    if row < len {
        codes[row] = 1;
    }
    codes_under(alloc, &codes, Validity::NonNullable)
}

// The codes 0, 2, 0, 2 and so on at the even rows, and 200 at the odd ones, which are null.
fn every_other(alloc: Global, len: usize) -> Result<ArrayRef, VortexError> {
    let mut codes = vec![in alloc; 200u8; len]?;
    let mut valid = vec![in alloc; false; len]?;
    for row in 0..len {
        if row % 2 == 0 {
            codes[row] = if row % 4 == 0 { 0 } else { 2 };
            valid[row] = true;
        }
    }
    codes_under(alloc, &codes, valid_where(alloc, &valid)?)
}

// `len` codes 1, but 200 at the first row and at the last, which are null.
fn null_ends(alloc: Global, len: usize) -> Result<ArrayRef, VortexError> {
    let mut codes = vec![in alloc; 1u8; len]?;
    let mut valid = vec![in alloc; true; len]?;
    for row in 0..len {
        if row == 0 || row == len - 1 {
            codes[row] = 200;
            valid[row] = false;
        }
    }
    codes_under(alloc, &codes, valid_where(alloc, &valid)?)
}

// The codes 0, 1, 2 and so on below `count`, again and again.
fn in_turn(alloc: Global, len: usize, count: u8) -> Result<ArrayRef, VortexError> {
    let mut codes = vec![in alloc; 0u64; len]?;
    for row in 0..len {
        codes[row] = row as u64 % u64::from(count.max(1));
    }
    ints(alloc, &codes)
}

// Values 7, as many as these booleans, by codes.
fn by_codes(alloc: Global, codes: ArrayRef, count: usize) -> Result<DictArray, VortexError> {
    let values = vec![in alloc; 7u8; count]?;
    DictArray::try_new(alloc, codes, ints(alloc, &values)?)
}

// Whether the scan of codes tells these booleans, one a value, and this end.
fn is_scanned(
    alloc: Global,
    codes: ArrayRef,
    want: &[bool],
    end: usize,
) -> Result<bool, VortexError> {
    let dictionary = by_codes(alloc, codes, want.len())?;
    let (bits, found) = dictionary.referenced_values_scan(alloc, true)?;
    Ok(found == end && bits == BitBuffer::from_bools(alloc, want)?)
}

#[test]
fn every_other_code_is_null(rt: HostRuntime) {
    for len in [3usize, 8, 9, 63, 64, 65, 127, 128, 129] {
        let codes = every_other(rt.alloc(), len).expect(&rt, "made");
        let same = is_scanned(rt.alloc(), codes, &[true, false, true], len);
        assert!(rt; same.expect(&rt, "made"));
    }
}

#[test]
fn blocks_of_every_other_code(rt: HostRuntime) {
    for (len, end) in [(2048usize, 2048usize), (2049, 2049), (5000, 5000)] {
        let codes = every_other(rt.alloc(), len).expect(&rt, "made");
        let same = is_scanned(rt.alloc(), codes, &[true, false, true], end);
        assert!(rt; same.expect(&rt, "made"));
    }
}

#[test]
fn words_that_begin_inside_a_byte(rt: HostRuntime) {
    for (first, last) in [(1usize, 66usize), (3, 130), (7, 72), (2, 9), (9, 5000)] {
        let codes = every_other(rt.alloc(), 5000)
            .expect(&rt, "made")
            .slice(rt.alloc(), first..last)
            .expect(&rt, "made");
        let same = is_scanned(rt.alloc(), codes, &[true, false, true], last - first);
        assert!(rt; same.expect(&rt, "made"));
    }
}

#[test]
fn nulls_at_the_start_and_the_end(rt: HostRuntime) {
    for len in [3usize, 64, 65, 66, 128, 130, 2048] {
        let codes = null_ends(rt.alloc(), len).expect(&rt, "made");
        assert!(rt; is_scanned(rt.alloc(), codes, &[false, true], len).expect(&rt, "made"));
    }
}

#[test]
fn nulls_alone(rt: HostRuntime) {
    for (len, end) in [(0usize, 0usize), (2048, 2048), (2049, 2048), (4097, 2048)] {
        let codes = vec![in rt.alloc(); 200u8; len].expect(&rt, "made");
        let codes = codes_under(rt.alloc(), &codes, Validity::AllInvalid).expect(&rt, "made");
        assert!(rt; is_scanned(rt.alloc(), codes, &[], end).expect(&rt, "made"));
    }
}

#[test]
fn values_that_no_code_names(rt: HostRuntime) {
    for len in [0usize, 64, 2048, 2049, 4097] {
        let codes = vec![in rt.alloc(); 200u8; len].expect(&rt, "made");
        let codes = codes_under(rt.alloc(), &codes, Validity::AllInvalid).expect(&rt, "made");
        assert!(rt; is_scanned(rt.alloc(), codes, &[false], len).expect(&rt, "made"));
    }
}

#[test]
fn last_value_in_the_first_block(rt: HostRuntime) {
    for (len, end) in [
        (2048usize, 2048usize),
        (2049, 2048),
        (4096, 2048),
        (4097, 2048),
    ] {
        let codes = one_at(rt.alloc(), len, 2047).expect(&rt, "made");
        assert!(rt; is_scanned(rt.alloc(), codes, &[true, true], end).expect(&rt, "made"));
    }
}

#[test]
fn last_value_in_the_second_block(rt: HostRuntime) {
    for (len, end) in [
        (2049usize, 2049usize),
        (4095, 4095),
        (4096, 4096),
        (4097, 4096),
    ] {
        let codes = one_at(rt.alloc(), len, 2048).expect(&rt, "made");
        assert!(rt; is_scanned(rt.alloc(), codes, &[true, true], end).expect(&rt, "made"));
    }
}

#[test]
fn values_by_thirty_two(rt: HostRuntime) {
    for (count, end) in [
        (31u8, 2048usize),
        (32, 2048),
        (33, 2048),
        (64, 2048),
        (65, 2048),
    ] {
        let codes = in_turn(rt.alloc(), 2049, count).expect(&rt, "made");
        let want = vec![in rt.alloc(); true; usize::from(count)].expect(&rt, "made");
        assert!(rt; is_scanned(rt.alloc(), codes, &want, end).expect(&rt, "made"));
    }
}

#[test]
fn one_value_too_many(rt: HostRuntime) {
    for count in [31u8, 32, 33, 64, 65] {
        let codes = in_turn(rt.alloc(), 2049, count).expect(&rt, "made");
        let mut want = vec![in rt.alloc(); true; usize::from(count)].expect(&rt, "made");
        want.push(false).expect(&rt, "made");
        assert!(rt; is_scanned(rt.alloc(), codes, &want, 2049).expect(&rt, "made"));
    }
}

#[test]
fn one_code_in_every_row(rt: HostRuntime) {
    for (len, end) in [(1usize, 1usize), (2048, 2048), (2049, 2048)] {
        let code = Scalar::int(0, PType::U8, Nullability::NonNullable);
        let codes = ConstantArray::new(rt.alloc(), code, len)
            .expect(&rt, "made")
            .into_array();
        assert!(rt; is_scanned(rt.alloc(), codes, &[true], end).expect(&rt, "made"));
    }
}

#[test]
fn one_code_of_two_in_every_row(rt: HostRuntime) {
    for len in [1usize, 2048, 2049] {
        let code = Scalar::int(1, PType::U8, Nullability::NonNullable);
        let codes = ConstantArray::new(rt.alloc(), code, len)
            .expect(&rt, "made")
            .into_array();
        assert!(rt; is_scanned(rt.alloc(), codes, &[false, true], len).expect(&rt, "made"));
    }
}

#[test]
fn no_code_and_one_null_code_in_every_row(rt: HostRuntime) {
    for (len, end) in [(0usize, 0usize), (2048, 2048), (2049, 2048)] {
        let code = Scalar::null(DType::Primitive(PType::U8, Nullability::Nullable));
        let codes = ConstantArray::new(rt.alloc(), code, len)
            .expect(&rt, "made")
            .into_array();
        assert!(rt; is_scanned(rt.alloc(), codes, &[], end).expect(&rt, "made"));
    }
}

#[test]
fn blocks_of_codes_of_a_dictionary(rt: HostRuntime) {
    for (row, end) in [(2047usize, 2048usize), (2048, 2049)] {
        let places = one_at(rt.alloc(), 2049, row).expect(&rt, "made");
        let swapped = ints::<u8>(rt.alloc(), &[1, 0]).expect(&rt, "made");
        let codes = DictArray::try_new(rt.alloc(), places, swapped).expect(&rt, "made");
        let same = is_scanned(rt.alloc(), codes.into_array(), &[true, true], end);
        assert!(rt; same.expect(&rt, "made"));
    }
}

// The codes 0, 1, 200 where the rows of an array of truth values are true.
fn told_by(alloc: Global, valid: ArrayRef) -> Result<ArrayRef, VortexError> {
    codes_under(alloc, &[0, 1, 200], Validity::Array(valid))
}

#[test]
fn validity_of_another_layout(rt: HostRuntime) {
    let places = ints::<u8>(rt.alloc(), &[1, 1, 0]).expect(&rt, "made");
    let truths = bools(rt.alloc(), &[false, true]).expect(&rt, "made");
    let valid = DictArray::try_new(rt.alloc(), places, truths).expect(&rt, "made");
    let codes = told_by(rt.alloc(), valid.into_array()).expect(&rt, "made");
    assert!(rt; is_scanned(rt.alloc(), codes, &[true, true], 3).expect(&rt, "made"));
}

#[test]
fn validity_of_one_truth_value(rt: HostRuntime) {
    let never = Scalar::bool(false, Nullability::NonNullable);
    let valid = ConstantArray::new(rt.alloc(), never, 3).expect(&rt, "made");
    let codes = told_by(rt.alloc(), valid.into_array()).expect(&rt, "made");
    assert!(rt; is_scanned(rt.alloc(), codes, &[false, false], 3).expect(&rt, "made"));
    let always = Scalar::bool(true, Nullability::NonNullable);
    let valid = ConstantArray::new(rt.alloc(), always, 3).expect(&rt, "made");
    let codes = told_by(rt.alloc(), valid.into_array()).expect(&rt, "made");
    let made = by_codes(rt.alloc(), codes, 2);
    assert!(rt; matches!(made, Err(VortexError::OutOfBounds { index: 200, len: 2 })));
}

// 130 codes 0, but 9 at one row and 8 at another, where one row is null.
fn two_faults(
    alloc: Global,
    nine: usize,
    eight: usize,
    null: usize,
) -> Result<ArrayRef, VortexError> {
    let mut codes = vec![in alloc; 0u8; 130]?;
    let mut valid = vec![in alloc; true; 130]?;
    for row in 0..130 {
        if row == nine {
            codes[row] = 9;
        }
        if row == eight {
            codes[row] = 8;
        }
        valid[row] = row != null;
    }
    codes_under(alloc, &codes, valid_where(alloc, &valid)?)
}

#[test]
fn first_code_past_the_values(rt: HostRuntime) {
    for (nine, eight) in [
        (0usize, 1usize),
        (63, 64),
        (64, 129),
        (127, 128),
        (128, 129),
    ] {
        let codes = two_faults(rt.alloc(), nine, eight, 65).expect(&rt, "made");
        let made = by_codes(rt.alloc(), codes, 8);
        assert!(rt; matches!(made, Err(VortexError::OutOfBounds { index: 9, len: 8 })));
    }
}

#[test]
fn first_code_past_the_values_is_null(rt: HostRuntime) {
    for (nine, eight) in [
        (0usize, 1usize),
        (63, 64),
        (64, 129),
        (127, 128),
        (128, 129),
    ] {
        let codes = two_faults(rt.alloc(), nine, eight, nine).expect(&rt, "made");
        let made = by_codes(rt.alloc(), codes, 8);
        assert!(rt; matches!(made, Err(VortexError::OutOfBounds { index: 8, len: 8 })));
        let codes = two_faults(rt.alloc(), nine, eight, nine).expect(&rt, "made");
        assert!(rt; by_codes(rt.alloc(), codes, 9).is_ok());
    }
}

#[test]
fn first_code_below_zero(rt: HostRuntime) {
    for row in [0usize, 63, 64, 128, 129] {
        let mut codes = vec![in rt.alloc(); 0i8; 130].expect(&rt, "made");
        for at in 0..130 {
            codes[at] = if at < row { 0 } else { -1 };
        }
        let made = by_codes(rt.alloc(), ints(rt.alloc(), &codes).expect(&rt, "made"), 1);
        assert!(rt; matches!(made, Err(VortexError::Negative { row: found }) if found == row));
    }
}

#[test]
fn codes_into_no_values(rt: HostRuntime) {
    let codes = one_at(rt.alloc(), 65, 64).expect(&rt, "made");
    let made = by_codes(rt.alloc(), codes, 0);
    assert!(rt; matches!(made, Err(VortexError::OutOfBounds { index: 0, len: 0 })));
    let none = one_at(rt.alloc(), 0, 0).expect(&rt, "made");
    assert!(rt; is_scanned(rt.alloc(), none, &[], 0).expect(&rt, "made"));
}
