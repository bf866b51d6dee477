// Arrays of numbers from bytes, values and iterators, and their parts.

use vx_base::{Buffer, ByteBuffer, Nullability, PType, Scalar, VortexError};
use vx_leaves::{ConstantArray, ConstantData, PrimitiveArray, PrimitiveArrayExt};
use vx_test_help::valid_where;
use vx_tree::{TypedArray, Validity};

#[test]
fn values_of_valid_rows(rt: HostRuntime) {
    let bytes = ByteBuffer::copy_from(rt.alloc(), &[7, 0, 9, 0]).expect(&rt, "made");
    let validity = valid_where(rt.alloc(), &[true, false, true]).expect(&rt, "made");
    let array = PrimitiveArray::from_values_byte_buffer(
        rt.alloc(),
        bytes,
        PType::U16,
        validity,
        3,
    ).expect(&rt, "made");
    assert!(rt;
        array.len() == 3 && array.buffer_handle().as_slice() == [7u8, 0, 0, 0, 9, 0].as_slice()
    );
    let array = array.into_array();
    assert!(rt;
        array.is_valid(rt.alloc(), 0).expect(&rt, "made")
            && !array.is_valid(rt.alloc(), 1).expect(&rt, "made")
    );
    assert!(rt; array.is_valid(rt.alloc(), 2).expect(&rt, "made"));
}

#[test]
fn values_of_too_few_rows(rt: HostRuntime) {
    let bytes = ByteBuffer::copy_from(rt.alloc(), &[7, 0, 9, 0]).expect(&rt, "made");
    let made = PrimitiveArray::from_values_byte_buffer(
        rt.alloc(),
        bytes,
        PType::U16,
        Validity::NonNullable,
        3,
    );
    assert!(rt; matches!(made, Err(VortexError::LengthMismatch { .. })));
}

#[test]
fn values_where_null_cannot_stand(rt: HostRuntime) {
    let bytes = ByteBuffer::copy_from(rt.alloc(), &[7, 0, 44, 1]).expect(&rt, "made");
    let array = PrimitiveArray::from_values_byte_buffer(
        rt.alloc(),
        bytes,
        PType::U16,
        Validity::NonNullable,
        2,
    ).expect(&rt, "made");
    assert!(rt; array.len() == 2 && !array.dtype().is_nullable());
    assert!(rt;
        array
            .as_array()
            .execute_scalar(rt.alloc(), 1)
            .expect(&rt, "made")
            .as_int()
            == Some(300)
    );
}

#[test]
fn values_where_none_is_null(rt: HostRuntime) {
    let bytes = ByteBuffer::copy_from(rt.alloc(), &[255, 5]).expect(&rt, "made");
    let array = PrimitiveArray::from_values_byte_buffer(
        rt.alloc(),
        bytes,
        PType::I8,
        Validity::AllValid,
        2,
    ).expect(&rt, "made");
    assert!(rt; array.len() == 2 && array.dtype().is_nullable());
    assert!(rt;
        array
            .as_array()
            .execute_scalar(rt.alloc(), 0)
            .expect(&rt, "made")
            .as_int()
            == Some(-1)
    );
}

#[test]
fn values_of_null_rows_are_not_read(rt: HostRuntime) {
    let bytes = ByteBuffer::copy_from(rt.alloc(), &[7, 0, 9, 0]).expect(&rt, "made");
    let array = PrimitiveArray::from_values_byte_buffer(
        rt.alloc(),
        bytes,
        PType::U16,
        Validity::AllInvalid,
        3,
    ).expect(&rt, "made");
    assert!(rt; array.len() == 3 && array.nullability() == Nullability::Nullable);
    let array = array.into_array();
    assert!(rt;
        !array.is_valid(rt.alloc(), 0).expect(&rt, "made")
            && !array.is_valid(rt.alloc(), 1).expect(&rt, "made")
    );
    assert!(rt; !array.is_valid(rt.alloc(), 2).expect(&rt, "made"));
}

#[test]
fn values_of_more_rows_than_bytes_can_be(rt: HostRuntime) {
    let made = PrimitiveArray::from_values_byte_buffer(
        rt.alloc(),
        ByteBuffer::empty(rt.alloc()).expect(&rt, "made"),
        PType::U16,
        Validity::AllInvalid,
        usize::MAX,
    );
    assert!(rt; matches!(made, Err(VortexError::Overflow)));
}

#[test]
fn bytes_of_whole_numbers(rt: HostRuntime) {
    let bytes = ByteBuffer::copy_from(rt.alloc(), &[7, 0, 44, 1]).expect(&rt, "made");
    let array = PrimitiveArray::from_byte_buffer(
        rt.alloc(),
        bytes,
        PType::U16,
        valid_where(rt.alloc(), &[false, true]).expect(&rt, "made"),
    )
    .expect(&rt, "made");
    assert!(rt; array.ptype() == PType::U16 && array.len() == 2);
    assert!(rt;
        array
            .as_array()
            .execute_scalar(rt.alloc(), 1)
            .expect(&rt, "made")
            .as_int()
            == Some(300)
    );
    assert!(rt; !array.as_array().is_valid(rt.alloc(), 0).expect(&rt, "made"));
}

#[test]
fn bytes_of_no_whole_number(rt: HostRuntime) {
    let bytes = ByteBuffer::copy_from(rt.alloc(), &[7, 0, 9]).expect(&rt, "made");
    let made = PrimitiveArray::from_byte_buffer(
        rt.alloc(),
        bytes,
        PType::U16,
        Validity::NonNullable,
    );
    assert!(rt; matches!(made, Err(VortexError::LengthMismatch { .. })));
}

#[test]
fn signed_bytes_without_their_sign(rt: HostRuntime) {
    let buffer = Buffer::copy_from(rt.alloc(), &[-1i8, 1]).expect(&rt, "made");
    let array = PrimitiveArray::new(rt.alloc(), buffer, Validity::NonNullable).expect(&rt, "made");
    let array = array
        .reinterpret_cast(rt.alloc(), PType::U8)
        .expect(&rt, "made");
    assert!(rt;
        array.ptype() == PType::U8 && array.buffer_handle().as_slice() == [255u8, 1].as_slice()
    );
}

#[test]
fn numbers_of_an_iterator(rt: HostRuntime) {
    let array = PrimitiveArray::from_iter(rt.alloc(), [2u8, 1, 0].iter().copied()).expect(
        &rt, "made",
    );
    assert!(rt; array.buffer_handle().as_slice() == [2u8, 1, 0].as_slice());
}

#[test]
fn no_numbers(rt: HostRuntime) {
    let array = PrimitiveArray::empty::<i64>(rt.alloc(), Nullability::Nullable).expect(&rt, "made");
    assert!(rt; array.is_empty() && array.ptype() == PType::I64);
    assert!(rt;
        matches!(
            array.validity(rt.alloc()).expect(&rt, "made"),
            Validity::AllValid
        )
    );
}

#[test]
fn parts_of_numbers(rt: HostRuntime) {
    let buffer = Buffer::copy_from(rt.alloc(), &[3u8, 4]).expect(&rt, "made");
    PrimitiveArray::validate(&buffer, &Validity::AllInvalid).expect(&rt, "made");
    let array = PrimitiveArray::new(rt.alloc(), buffer, Validity::AllInvalid).expect(&rt, "made");
    assert!(rt;
        array
            .slots(rt.alloc())
            .expect(&rt, "made")
            .validity
            .is_some()
    );
    let parts = array.into_data_parts(rt.alloc()).expect(&rt, "made");
    assert!(rt; parts.ptype == PType::U8 && parts.buffer.as_slice() == [3u8, 4].as_slice());
}

#[test]
fn children_of_numbers(rt: HostRuntime) {
    let buffer = Buffer::copy_from(rt.alloc(), &[3u8, 4]).expect(&rt, "made");
    let array = PrimitiveArray::try_new(
        rt.alloc(),
        buffer,
        valid_where(rt.alloc(), &[true, false]).expect(&rt, "made"),
    )
    .expect(&rt, "made");
    let Some(child) = array.validity_child(rt.alloc()).expect(&rt, "made") else {
        panic!(rt; "another layout");
    };
    assert!(rt;
        child.len() == 2
            && child
                .execute_scalar(rt.alloc(), 0)
                .expect(&rt, "made")
                .as_bool()
    );
    assert!(rt;
        !child
            .execute_scalar(rt.alloc(), 1)
            .expect(&rt, "made")
            .as_bool()
    );
    assert!(rt;
        array
            .slots(rt.alloc())
            .expect(&rt, "made")
            .validity
            .is_some()
    );
}

#[test]
fn child_of_numbers_that_are_all_there(rt: HostRuntime) {
    let buffer = Buffer::copy_from(rt.alloc(), &[3u8, 4]).expect(&rt, "made");
    let array = PrimitiveArray::new(rt.alloc(), buffer, Validity::AllValid).expect(&rt, "made");
    assert!(rt;
        array
            .validity_child(rt.alloc())
            .expect(&rt, "made")
            .is_none()
    );
}

#[test]
fn buffers_of_numbers(rt: HostRuntime) {
    let buffer = Buffer::copy_from(rt.alloc(), &[3u16, 4]).expect(&rt, "made");
    let array = PrimitiveArray::new(rt.alloc(), buffer, Validity::NonNullable).expect(&rt, "made");
    assert!(rt;
        array
            .to_buffer::<u16>(rt.alloc())
            .expect(&rt, "made")
            .as_slice()
            == [3u16, 4].as_slice()
    );
    let shared = array.try_clone(rt.alloc()).expect(&rt, "made");
    assert!(rt;
        shared
            .into_buffer::<u16>(rt.alloc())
            .expect(&rt, "made")
            .len()
            == 2
    );
}

#[test]
fn buffers_of_numbers_that_change(rt: HostRuntime) {
    let buffer = Buffer::copy_from(rt.alloc(), &[3u16, 4]).expect(&rt, "made");
    let array = PrimitiveArray::new(rt.alloc(), buffer, Validity::NonNullable).expect(&rt, "made");
    let shared = array.try_clone(rt.alloc()).expect(&rt, "made");
    assert!(rt;
        shared
            .try_into_buffer_mut::<u16>(rt.alloc())
            .expect(&rt, "made")
            .is_ok()
    );
    assert!(rt;
        array
            .into_buffer_mut::<u16>(rt.alloc())
            .expect(&rt, "made")
            .as_slice()
            == [3u16, 4].as_slice()
    );
}

#[test]
fn one_row_however_often(rt: HostRuntime) {
    let row = Scalar::int(7, PType::U8, Nullability::Nullable);
    let array = ConstantArray::new(rt.alloc(), row, 4).expect(&rt, "made");
    assert!(rt; array.len() == 4 && array.as_array().int_at(3) == Some(7));
    assert!(rt; ConstantArray::try_from_array(array.into_array()).is_ok());
}

#[test]
fn data_of_one_row(rt: HostRuntime) {
    let row = Scalar::int(7, PType::U8, Nullability::Nullable);
    let array = ConstantArray::new(rt.alloc(), row, 4).expect(&rt, "made");
    let data = array
        .to_data(rt.alloc())
        .expect(&rt, "made")
        .try_clone(rt.alloc())
        .expect(&rt, "made");
    assert!(rt; data.scalar().as_int() == Some(7));
    let data = ConstantData::new(data.into_parts());
    assert!(rt; data.scalar().is_valid());
}
