// Arrays of numbers from items that may be none, and numbers apart from their validity.

use vx_base::{Buffer, ByteBuffer, Nullability, PType, Scalar, VortexError};
use vx_leaves::{ConstantData, PrimitiveArray, PrimitiveArrayExt, PrimitiveData};
use vx_test_help::valid_where;
use vx_tree::{TypedArray, Validity};

#[test]
fn numbers_that_may_be_none(rt: HostRuntime) {
    let items = [Some(5u8), None];
    let array = PrimitiveArray::from_option_iter(rt.alloc(), items.iter().copied()).expect(
        &rt, "made",
    );
    assert!(rt; array.buffer_handle().as_slice() == [5u8, 0].as_slice());
    let valid = array
        .validity(rt.alloc())
        .expect(&rt, "made")
        .execute_mask(rt.alloc(), 2)
        .expect(&rt, "made");
    assert!(rt; valid.value(0) && !valid.value(1));
}

#[test]
fn numbers_that_are_all_there(rt: HostRuntime) {
    let items = [Some(2u8), Some(1)];
    let array = PrimitiveArray::from_option_iter(rt.alloc(), items.iter().copied()).expect(
        &rt, "made",
    );
    assert!(rt; array.buffer_handle().as_slice() == [2u8, 1].as_slice());
    assert!(rt;
        matches!(
            array.validity(rt.alloc()).expect(&rt, "made"),
            Validity::AllValid
        )
    );
}

#[test]
fn data_of_numbers(rt: HostRuntime) {
    let buffer = Buffer::copy_from(rt.alloc(), &[-1i32, 7]).expect(&rt, "made");
    let data = PrimitiveData::try_new(rt.alloc(), buffer, Validity::AllValid).expect(&rt, "made");
    assert!(rt;
        format!(in rt.alloc(); "{data}")
            .expect(&rt, "made")
            .as_str()
            == "ptype: i32"
    );
    assert!(rt; data.len() == 2 && !data.is_empty() && data.ptype() == PType::I32);
    let copy = data.try_clone(rt.alloc()).expect(&rt, "made");
    assert!(rt; copy.buffer_handle().as_slice() == [255u8, 255, 255, 255, 7, 0, 0, 0].as_slice());
}

#[test]
fn data_of_an_array(rt: HostRuntime) {
    let buffer = Buffer::copy_from(rt.alloc(), &[300u16]).expect(&rt, "made");
    let array = PrimitiveArray::new(rt.alloc(), buffer, Validity::AllValid).expect(&rt, "made");
    let data = array.to_data(rt.alloc()).expect(&rt, "made");
    assert!(rt; data.buffer_handle().as_slice() == [44u8, 1].as_slice());
}

#[test]
fn numbers_of_data(rt: HostRuntime) {
    let buffer = Buffer::copy_from(rt.alloc(), &[300u16, 2]).expect(&rt, "made");
    PrimitiveData::validate(&buffer, &Validity::AllInvalid).expect(&rt, "made");
    let data = PrimitiveData::new(rt.alloc(), buffer, Validity::AllInvalid).expect(&rt, "made");
    assert!(rt;
        data.to_buffer::<u16>(rt.alloc())
            .expect(&rt, "made")
            .as_slice()
            == [300u16, 2].as_slice()
    );
    assert!(rt;
        data.into_buffer_mut::<u16>(rt.alloc())
            .expect(&rt, "made")
            .as_slice()
            == [300u16, 2].as_slice()
    );
}

#[test]
fn buffers_of_data(rt: HostRuntime) {
    let buffer = Buffer::copy_from(rt.alloc(), &[300u16, 2]).expect(&rt, "made");
    let data = PrimitiveData::new(rt.alloc(), buffer, Validity::AllValid).expect(&rt, "made");
    let copy = data.try_clone(rt.alloc()).expect(&rt, "made");
    assert!(rt;
        copy.into_buffer::<u16>(rt.alloc())
            .expect(&rt, "made")
            .as_slice()
            == [300u16, 2].as_slice()
    );
    let Ok(numbers) = data
        .try_into_buffer_mut::<u16>(rt.alloc())
        .expect(&rt, "made")
    else {
        panic!(rt; "another layout");
    };
    assert!(rt; numbers.as_slice() == [300u16, 2].as_slice());
}

#[test]
fn data_of_bytes(rt: HostRuntime) {
    let bytes = ByteBuffer::copy_from(rt.alloc(), &[7, 0, 44, 1]).expect(&rt, "made");
    let data = PrimitiveData::from_byte_buffer(
        rt.alloc(),
        bytes,
        PType::U16,
        Validity::NonNullable,
    ).expect(&rt, "made");
    assert!(rt; data.len() == 2 && data.ptype() == PType::U16);
    assert!(rt; data.buffer_handle().as_slice() == [7u8, 0, 44, 1].as_slice());
}

#[test]
fn data_of_values(rt: HostRuntime) {
    let bytes = ByteBuffer::copy_from(rt.alloc(), &[7, 0]).expect(&rt, "made");
    let data = PrimitiveData::from_values_byte_buffer(
        rt.alloc(),
        bytes,
        PType::U16,
        valid_where(rt.alloc(), &[false, true]).expect(&rt, "made"),
        2,
    )
    .expect(&rt, "made");
    assert!(rt; data.buffer_handle().as_slice() == [0u8, 0, 7, 0].as_slice());
}

#[test]
fn data_of_no_whole_number(rt: HostRuntime) {
    let bytes = ByteBuffer::copy_from(rt.alloc(), &[7, 0, 9]).expect(&rt, "made");
    let made = PrimitiveData::from_byte_buffer(
        rt.alloc(),
        bytes,
        PType::U16,
        Validity::NonNullable,
    );
    assert!(rt; matches!(made, Err(VortexError::LengthMismatch { .. })));
}

#[test]
fn data_of_too_few_values(rt: HostRuntime) {
    let bytes = ByteBuffer::copy_from(rt.alloc(), &[7, 0]).expect(&rt, "made");
    let made = PrimitiveData::from_values_byte_buffer(
        rt.alloc(),
        bytes,
        PType::U16,
        Validity::AllValid,
        2,
    );
    assert!(rt; matches!(made, Err(VortexError::LengthMismatch { .. })));
}

#[test]
fn data_of_no_numbers(rt: HostRuntime) {
    let data = PrimitiveData::empty::<u8>(rt.alloc(), Nullability::Nullable).expect(&rt, "made");
    assert!(rt; data.is_empty());
    assert!(rt;
        format!(in rt.alloc(); "{data:?}")
            .expect(&rt, "made")
            .as_str()
            == "PrimitiveData { ptype: U8, bytes: [] }"
    );
}

#[test]
fn data_of_a_constant(rt: HostRuntime) {
    let data = ConstantData::new(Scalar::int(7, PType::U8, Nullability::NonNullable));
    assert!(rt;
        format!(in rt.alloc(); "{data:?}")
            .expect(&rt, "made")
            .as_str()
            == "ConstantData { scalar: 7 }"
    );
}
