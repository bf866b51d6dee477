// Numbers in the narrowest type that has them.

use vx_base::{Buffer, PType};
use vx_leaves::{PrimitiveArray, PrimitiveArrayExt};
use vx_tree::{TypedArray, Validity};

#[test]
fn narrow_without_a_sign(rt: HostRuntime) {
    let buffer = Buffer::copy_from(rt.alloc(), &[1i32, 300]).expect(&rt, "made");
    let numbers = PrimitiveArray::try_new(rt.alloc(), buffer, Validity::NonNullable).expect(
        &rt, "made",
    );
    let narrowed = numbers.narrow(rt.alloc()).expect(&rt, "made");
    assert!(rt; narrowed.ptype() == PType::U16 && !narrowed.dtype().is_nullable());
    assert!(rt; narrowed.buffer_handle().as_slice() == [1u8, 0, 44, 1].as_slice());
}

#[test]
fn narrow_with_a_sign(rt: HostRuntime) {
    let buffer = Buffer::copy_from(rt.alloc(), &[-1i64, 128]).expect(&rt, "made");
    let numbers = PrimitiveArray::try_new(rt.alloc(), buffer, Validity::AllValid).expect(
        &rt, "made",
    );
    let narrowed = numbers.narrow(rt.alloc()).expect(&rt, "made");
    assert!(rt; narrowed.ptype() == PType::I16 && narrowed.dtype().is_nullable());
    assert!(rt; narrowed.buffer_handle().as_slice() == [255u8, 255, 128, 0].as_slice());
}

#[test]
fn narrow_past_the_greatest_with_a_sign(rt: HostRuntime) {
    let buffer = Buffer::copy_from(rt.alloc(), &[9223372036854775808u64]).expect(&rt, "made");
    let numbers = PrimitiveArray::try_new(rt.alloc(), buffer, Validity::NonNullable).expect(
        &rt, "made",
    );
    let narrowed = numbers.narrow(rt.alloc()).expect(&rt, "made");
    assert!(rt; narrowed.ptype() == PType::U64 && narrowed.len() == 1);
}

#[test]
fn narrow_of_nulls(rt: HostRuntime) {
    let buffer = Buffer::copy_from(rt.alloc(), &[-5i64, 7]).expect(&rt, "made");
    let numbers = PrimitiveArray::try_new(rt.alloc(), buffer, Validity::AllInvalid).expect(
        &rt, "made",
    );
    let narrowed = numbers.narrow(rt.alloc()).expect(&rt, "made");
    assert!(rt; narrowed.ptype() == PType::U8 && narrowed.dtype().is_nullable());
    assert!(rt; narrowed.buffer_handle().as_slice() == [0u8, 0].as_slice());
    assert!(rt;
        matches!(
            narrowed.validity(rt.alloc()).expect(&rt, "made"),
            Validity::AllInvalid
        )
    );
}
