// Data types, scalars and masks, asked and shared.

use crate::base::scalars::{parcel, parcel_value};
use vx_base::{
    BitBuffer, Buffer, DType, Mask, Nullability, PType, Scalar, ScalarValue, VortexError,
};

#[test]
fn data_types_of_offsets(rt: HostRuntime) {
    let plain = Nullability::NonNullable;
    assert!(rt; DType::Primitive(PType::I32, plain).is_plain_int());
    assert!(rt; !DType::Primitive(PType::I32, Nullability::Nullable).is_plain_int());
    assert!(rt; !DType::Bool(plain).is_plain_int());
}

#[test]
fn fields_of_a_data_type(rt: HostRuntime) -> Result<(), VortexError> {
    let DType::Struct(fields, _) = parcel(rt.alloc())? else {
        return Err(VortexError::MismatchedTypes);
    };
    let same = fields.try_clone(rt.alloc())?;
    assert!(rt; same.find("size") == Some(1) && same.fields().len() == 2);
    let dtype = DType::new_struct(same, Nullability::Nullable);
    let lent = dtype.as_struct_fields();
    assert!(rt; lent.find("name") == Some(0) && lent.names().len() == 2);
    Ok(())
}

#[test]
fn items_of_a_buffer(rt: HostRuntime) {
    let alone = Buffer::from_vec(
        rt.alloc(),
        vec![in rt.alloc(); 5u16, 6, 7].expect(&rt, "made"),
    )
    .expect(&rt, "made");
    let part = alone.slice(rt.alloc(), 1..3).expect(&rt, "made");
    assert!(rt; alone.into_vec(rt.alloc()).expect(&rt, "made").as_slice() == [5, 6, 7].as_slice());
    assert!(rt; part.into_vec(rt.alloc()).expect(&rt, "made").as_slice() == [6, 7].as_slice());
}

#[test]
fn runs_of_a_mask_of_runs(rt: HostRuntime) {
    let all = Mask::new_true(4).true_runs(rt.alloc()).expect(&rt, "made");
    assert!(rt; all.as_slice() == [(0, 4)].as_slice());
    assert!(rt;
        Mask::new_false(4)
            .true_runs(rt.alloc())
            .expect(&rt, "made")
            .is_empty()
    );
}

// Whether these are so many positions, one after another, from one on.
fn follow(positions: &[usize], start: usize, count: usize) -> bool {
    if positions.len() != count {
        return false;
    }
    let mut expected = start;
    for position in positions {
        if *position != expected {
            return false;
        }
        expected = expected.wrapping_add(1);
    }
    true
}

#[test]
fn positions_of_masks_that_are_alike(rt: HostRuntime) {
    for len in [0usize, 1, 7, 8, 9, 16, 17, 524_288, 524_289] {
        let all = Mask::new_true(len)
            .true_positions(rt.alloc())
            .expect(&rt, "made");
        assert!(rt; follow(&all, 0, len));
        let none = Mask::new_false(len.max(1))
            .true_positions(rt.alloc())
            .expect(&rt, "made");
        assert!(rt; none.is_empty());
    }
}

#[test]
fn positions_of_runs_of_all_lengths(rt: HostRuntime) {
    let bits = [
        true, false, true, true, false, false, true, true, true, true, true, true, true, true,
        true, false, true,
    ];
    let bits = BitBuffer::from_bools(rt.alloc(), &bits).expect(&rt, "made");
    let mask = Mask::from_buffer(rt.alloc(), bits).expect(&rt, "made");
    let positions = mask.true_positions(rt.alloc()).expect(&rt, "made");
    assert!(rt; positions.as_slice() == [0, 2, 3, 6, 7, 8, 9, 10, 11, 12, 13, 14, 16].as_slice());
}

#[test]
fn null_and_default_rows(rt: HostRuntime) {
    let null = Scalar::null(DType::Utf8(Nullability::Nullable));
    assert!(rt; null.is_null() && !null.is_valid());
    let number = DType::Primitive(PType::U8, Nullability::NonNullable);
    let zero = Scalar::default_value(rt.alloc(), number).expect(&rt, "made");
    assert!(rt; zero.as_int() == Some(0) && zero.is_valid());
}

#[test]
fn scalars_are_shared(rt: HostRuntime) -> Result<(), VortexError> {
    let value = parcel_value(rt.alloc(), "crate", 7)?;
    let same = value.try_clone(rt.alloc())?;
    let parcel = Scalar::try_new(parcel(rt.alloc())?, Some(same))?;
    let parcel = parcel.try_clone(rt.alloc())?;
    let Some(ScalarValue::Record(values)) = parcel.value() else {
        return Err(VortexError::MismatchedTypes);
    };
    let values = values.try_clone(rt.alloc())?;
    assert!(rt; matches!(values.as_slice().last(), Some(Some(ScalarValue::Int(7)))));
    Ok(())
}
