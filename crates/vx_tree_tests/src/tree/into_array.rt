// Masks, bits and numbers as arrays.

use std::test::Fail;
use vx_base::{
    BitBuffer, BitBufferMut, Buffer, BufferMut, DType, Mask, Nullability, PType, VortexError,
};
use vx_tree::{IntoArray, Layout};

#[test]
fn mask_of_trues(rt: HostRuntime) -> Result<(), Fail> {
    let array = Mask::new_true(5).into_array(rt.alloc())?;
    let Layout::Constant { scalar, len } = array.layout() else {
        return Err(VortexError::MismatchedTypes.into());
    };
    assert!(rt; *len == 5 && scalar.as_bool());
    Ok(())
}

#[test]
fn mask_of_falses(rt: HostRuntime) -> Result<(), Fail> {
    let array = Mask::new_false(5).into_array(rt.alloc())?;
    let Layout::Constant { scalar, len } = array.layout() else {
        return Err(VortexError::MismatchedTypes.into());
    };
    assert!(rt; *len == 5 && !scalar.as_bool());
    Ok(())
}

#[test]
fn mask_of_both(rt: HostRuntime) -> Result<(), Fail> {
    let bits = BitBuffer::from_bools(rt.alloc(), &[true, false])?;
    let mask = Mask::from_buffer(rt.alloc(), bits)?;
    let Some(values) = mask.values() else {
        return Err(VortexError::MismatchedTypes.into());
    };
    assert!(rt; matches!(values.into_array(rt.alloc())?.layout(), Layout::Bool { .. }));
    let array = mask.into_array(rt.alloc())?;
    assert!(rt; array.len() == 2 && matches!(array.layout(), Layout::Bool { .. }));
    Ok(())
}

#[test]
fn bits_that_are_done(rt: HostRuntime) {
    let bits = BitBuffer::from_bools(rt.alloc(), &[false, true]).expect(&rt, "made");
    let array = bits.into_array(rt.alloc()).expect(&rt, "made");
    assert!(rt; array.len() == 2 && array.dtype().is_plain_bool());
    assert!(rt;
        !array
            .execute_scalar(rt.alloc(), 0)
            .expect(&rt, "made")
            .as_bool()
    );
    assert!(rt;
        array
            .execute_scalar(rt.alloc(), 1)
            .expect(&rt, "made")
            .as_bool()
    );
}

#[test]
fn bits(rt: HostRuntime) {
    let mut bits = BitBufferMut::with_capacity(rt.alloc(), 2).expect(&rt, "made");
    bits.append(true).expect(&rt, "made");
    let array = bits.into_array(rt.alloc()).expect(&rt, "made");
    assert!(rt; array.len() == 1 && matches!(array.dtype(), DType::Bool(Nullability::NonNullable)));
}

#[test]
fn numbers(rt: HostRuntime) {
    let array = Buffer::copy_from(rt.alloc(), &[-5i16, 7])
        .expect(&rt, "made")
        .into_array(rt.alloc())
        .expect(&rt, "made");
    assert!(rt;
        matches!(
            array.dtype(),
            DType::Primitive(PType::I16, Nullability::NonNullable)
        )
    );
    assert_eq!(rt; array.len(), 2);
}

#[test]
fn growing_numbers(rt: HostRuntime) -> Result<(), Fail> {
    let mut numbers = BufferMut::with_capacity(rt.alloc(), 1)?;
    numbers.push(7u8)?;
    let array = numbers.into_array(rt.alloc())?;
    let Layout::Primitive { bytes, .. } = array.layout() else {
        return Err(VortexError::MismatchedTypes.into());
    };
    assert!(rt; bytes.as_slice() == [7u8].as_slice());
    Ok(())
}
