// The first rows of an array, written as text.

use crate::step_arrays::{one_of_two_records, shared_lists};
use std::alloc::Global;
use std::test::Fail;
use vx_base::{ByteBuffer, DType, Nullability, PType, Scalar, ScalarValue, VortexError};
use vx_leaves::DictArray;
use vx_lists::FixedSizeListArray;
use vx_run::{Step, WriteFault, write_rows};
use vx_test_help::{bools, ints, one_column};
use vx_tree::{ArrayRef, TypedArray, Validity};

// Whether the rows of an array are written so, after what was written before.
fn are_written(
    alloc: Global,
    array: &ArrayRef,
    limit: usize,
    wanted: &str,
) -> Result<bool, WriteFault> {
    let mut output = Vec::new(alloc);
    output.push(b'>').map_err(|_| WriteFault::Memory)?;
    write_rows(alloc, array, limit, &mut output)?;
    Ok(output.as_slice().strip_prefix(b">".as_slice()) == Some(wanted.as_bytes()))
}

// The numbers 5, null, 7.
fn numbers(alloc: Global) -> Result<ArrayRef, VortexError> {
    let mut arrays = one_column(alloc, ints(alloc, &[5i32, 6, 7])?)?;
    arrays.push(bools(alloc, &[true, false, true])?)?;
    Step::Mask { array: 0, mask: 1 }.apply(alloc, &arrays)
}

#[test]
fn numbers_are_written(rt: HostRuntime) -> Result<(), Fail> {
    let alloc = rt.alloc();
    let array = numbers(alloc)?;
    assert!(rt; are_written(alloc, &array, usize::MAX, "[5,null,7]").expect(&rt, "written"));
    assert!(rt; are_written(alloc, &array, 3, "[5,null,7]").expect(&rt, "written"));
    assert!(rt; are_written(alloc, &array, 2, "[5,null,..] of 3").expect(&rt, "written"));
    assert!(rt; are_written(alloc, &array, 1, "[5,..] of 3").expect(&rt, "written"));
    assert!(rt; are_written(alloc, &array, 0, "[..] of 3").expect(&rt, "written"));
    let signed = ints(alloc, &[-128i8, 0, 127])?;
    assert!(rt; are_written(alloc, &signed, 4, "[-128,0,127]").expect(&rt, "written"));
    Ok(())
}

#[test]
fn no_rows_are_written(rt: HostRuntime) -> Result<(), Fail> {
    let alloc = rt.alloc();
    let array = ints::<u8>(alloc, &[])?;
    assert!(rt; are_written(alloc, &array, 0, "[]").expect(&rt, "written"));
    assert!(rt; are_written(alloc, &array, 5, "[]").expect(&rt, "written"));
    Ok(())
}

#[test]
fn truth_values_are_written(rt: HostRuntime) -> Result<(), Fail> {
    let alloc = rt.alloc();
    let array = bools(alloc, &[true, false, true, true, true])?;
    assert!(rt; are_written(alloc, &array, 2, "[true,false,..] of 5").expect(&rt, "written"));
    assert!(rt; are_written(alloc, &array, 0, "[..] of 5").expect(&rt, "written"));
    Ok(())
}

#[test]
fn a_dictionary_is_written(rt: HostRuntime) -> Result<(), Fail> {
    let alloc = rt.alloc();
    let (codes, values) = (ints(alloc, &[1u8, 0, 1])?, ints(alloc, &[300u16, 400])?);
    let array = DictArray::try_new(alloc, codes, values)?.into_array();
    assert!(rt; are_written(alloc, &array, 3, "[400,300,400]").expect(&rt, "written"));
    assert!(rt; are_written(alloc, &array, 2, "[400,300,..] of 3").expect(&rt, "written"));
    Ok(())
}

#[test]
fn lists_are_written(rt: HostRuntime) -> Result<(), Fail> {
    let alloc = rt.alloc();
    let array = shared_lists(alloc)?;
    assert!(rt; are_written(alloc, &array, 2, "[[1,2,3],[2,3]]").expect(&rt, "written"));
    assert!(rt; are_written(alloc, &array, 1, "[[1,2,3],..] of 2").expect(&rt, "written"));
    Ok(())
}

#[test]
fn lists_of_one_size_are_written(rt: HostRuntime) -> Result<(), Fail> {
    let alloc = rt.alloc();
    let elements = ints(alloc, &[1u8, 2, 3, 4, 5, 6])?;
    let validity = Validity::Array(bools(alloc, &[true, true, false])?);
    let array = FixedSizeListArray::try_new(alloc, elements, 2, validity, 3)?.into_array();
    assert!(rt; are_written(alloc, &array, 3, "[[1,2],[3,4],null]").expect(&rt, "written"));
    assert!(rt; are_written(alloc, &array, 1, "[[1,2],..] of 3").expect(&rt, "written"));
    Ok(())
}

#[test]
fn records_are_written(rt: HostRuntime) -> Result<(), Fail> {
    let alloc = rt.alloc();
    let array = one_of_two_records(alloc)?;
    assert!(rt; are_written(alloc, &array, 2, "[{a:1},null]").expect(&rt, "written"));
    assert!(rt; are_written(alloc, &array, 1, "[{a:1},..] of 2").expect(&rt, "written"));
    Ok(())
}

// The text `hi`, so many times.
fn texts(alloc: Global, len: usize) -> Result<ArrayRef, VortexError> {
    let value = ScalarValue::Text(ByteBuffer::copy_from(alloc, b"hi")?);
    let scalar = Scalar::try_new(DType::Utf8(Nullability::NonNullable), Some(value))?;
    ArrayRef::constant(alloc, scalar, len)
}

#[test]
fn texts_are_written(rt: HostRuntime) -> Result<(), Fail> {
    let alloc = rt.alloc();
    let arrays = one_column(alloc, texts(alloc, 2)?)?;
    let array = Step::Canonical { array: 0 }.apply(alloc, &arrays)?;
    assert!(rt; are_written(alloc, &array, 2, "[x6869,x6869]").expect(&rt, "written"));
    assert!(rt; are_written(alloc, &array, 1, "[x6869,..] of 2").expect(&rt, "written"));
    Ok(())
}

#[test]
fn a_constant_is_written_as_far_as_it_is_asked_for(rt: HostRuntime) -> Result<(), Fail> {
    let alloc = rt.alloc();
    let seven = Scalar::int(7, PType::U8, Nullability::NonNullable);
    let array = ArrayRef::constant(alloc, seven, 1_099_511_627_776)?;
    let wanted = "[7,7,7,..] of 1099511627776";
    assert!(rt; are_written(alloc, &array, 3, wanted).expect(&rt, "written"));
    let null = Scalar::null(DType::Bool(Nullability::Nullable));
    let array = ArrayRef::constant(alloc, null, 2)?;
    assert!(rt; are_written(alloc, &array, 2, "[null,null]").expect(&rt, "written"));
    let array = texts(alloc, 2)?;
    assert!(rt; are_written(alloc, &array, 2, "[x6869,x6869]").expect(&rt, "written"));
    Ok(())
}
