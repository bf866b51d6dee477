// Arrays of truth values from places, items and bits, their masks and their parts.

use vx_base::{BitBuffer, Mask, Nullability, Scalar, VortexError};
use vx_leaves::{BoolArray, BoolArrayExt, ConstantArray, DictArray};
use vx_test_help::{bools, ints, valid_where};
use vx_tree::{TypedArray, Validity};

// The array of these truth values.
fn truths(rt: &HostRuntime, bits: &[bool], validity: Validity) -> Result<BoolArray, VortexError> {
    let bits = BitBuffer::from_bools(rt.alloc(), bits)?;
    BoolArray::try_new(rt.alloc(), bits, validity)
}

// Whether the bits of the array, valid or not, are these.
fn holds(rt: &HostRuntime, array: &BoolArray, want: &[bool]) -> Result<bool, VortexError> {
    let bits = array.to_bit_buffer(rt.alloc())?;
    Ok(bits == BitBuffer::from_bools(rt.alloc(), want)?)
}

// The bits 0, 0, 1, 0, 1, 1, the first of which is the second one of its byte.
fn bits_of_a_part(rt: &HostRuntime) -> Result<BitBuffer, VortexError> {
    let bits = [true, false, false, true, false, true, true];
    BitBuffer::from_bools(rt.alloc(), &bits)?.slice(rt.alloc(), 1..7)
}

#[test]
fn true_at_these_places(rt: HostRuntime) {
    let places = [3usize, 1, 3];
    let array = BoolArray::from_indices(
        rt.alloc(),
        4,
        places.iter().copied(),
        Validity::NonNullable,
    ).expect(&rt, "made");
    assert!(rt; holds(&rt, &array, &[false, true, false, true]).expect(&rt, "made"));
}

#[test]
fn place_past_the_rows(rt: HostRuntime) {
    let places = [1usize, 9];
    let made = BoolArray::from_indices(
        rt.alloc(),
        4,
        places.iter().copied(),
        Validity::NonNullable,
    );
    assert!(rt; matches!(made, Err(VortexError::OutOfBounds { index: 9, .. })));
}

#[test]
fn place_past_the_rows_before_the_validity(rt: HostRuntime) {
    let short = valid_where(rt.alloc(), &[true]).expect(&rt, "made");
    let places = [5usize];
    let made = BoolArray::from_indices(rt.alloc(), 2, places.iter().copied(), short);
    assert!(rt; matches!(made, Err(VortexError::OutOfBounds { index: 5, .. })));
}

#[test]
fn short_validity_of_places(rt: HostRuntime) {
    let short = valid_where(rt.alloc(), &[true]).expect(&rt, "made");
    let places = [1usize];
    let made = BoolArray::from_indices(rt.alloc(), 2, places.iter().copied(), short);
    assert!(rt; matches!(made, Err(VortexError::LengthMismatch { .. })));
}

#[test]
fn truths_that_are_all_none(rt: HostRuntime) {
    let items = [None, None];
    let array = BoolArray::from_option_iter(rt.alloc(), items.iter().copied()).expect(&rt, "made");
    assert!(rt;
        matches!(
            array.validity(rt.alloc()).expect(&rt, "made"),
            Validity::AllInvalid
        )
    );
}

#[test]
fn data_of_a_slice(rt: HostRuntime) {
    let array = BoolArray::from_bit_buffer(
        rt.alloc(),
        bits_of_a_part(&rt).expect(&rt, "made"),
    ).expect(&rt, "made");
    let data = array
        .to_data(rt.alloc())
        .expect(&rt, "made")
        .try_clone(rt.alloc())
        .expect(&rt, "made");
    assert!(rt;
        format!(in rt.alloc(); "{data}")
            .expect(&rt, "made")
            .as_str()
            == "offset: 1"
    );
    let parts = data.into_parts(array.len());
    assert!(rt; parts.meta.offset() == 1 && parts.meta.len() == 6);
    let view = array.bit_buffer_view();
    assert!(rt; view.len() == 6 && !view.value(1) && view.value(2));
}

#[test]
fn mask_of_no_rows(rt: HostRuntime) {
    let array = truths(&rt, &[], Validity::AllInvalid).expect(&rt, "made");
    let mask = array.maybe_execute_mask(rt.alloc()).expect(&rt, "made");
    assert!(rt; mask == Some(Mask::new_true(0)));
}

#[test]
fn mask_of_a_null_row(rt: HostRuntime) {
    let valid = valid_where(rt.alloc(), &[true, false]).expect(&rt, "made");
    let array = truths(&rt, &[true, true], valid).expect(&rt, "made");
    assert!(rt;
        array
            .maybe_execute_mask(rt.alloc())
            .expect(&rt, "made")
            .is_none()
    );
    assert!(rt; matches!(array.execute_mask(rt.alloc()), Err(VortexError::HasNulls)));
}

#[test]
fn mask_of_truths(rt: HostRuntime) {
    let array = truths(&rt, &[true, false], Validity::AllValid).expect(&rt, "made");
    let mask = array.execute_mask(rt.alloc()).expect(&rt, "made");
    assert!(rt; mask.len() == 2 && mask.value(0) && !mask.value(1));
}

#[test]
fn null_rows_become_false(rt: HostRuntime) {
    let valid = valid_where(rt.alloc(), &[true, false, true]).expect(&rt, "made");
    let array = truths(&rt, &[true, true, false], valid).expect(&rt, "made");
    let mask = array
        .to_mask_fill_null_false(rt.alloc())
        .expect(&rt, "made");
    assert!(rt; mask.len() == 3 && mask.value(0) && !mask.value(1) && !mask.value(2));
}

#[test]
fn null_rows_become_false_under_a_part(rt: HostRuntime) {
    let valid = BoolArray::from_bit_buffer(
        rt.alloc(),
        bits_of_a_part(&rt).expect(&rt, "made"),
    ).expect(&rt, "made");
    let validity = Validity::Array(valid.into_array());
    let array = truths(&rt, &[true, true, true, true, false, true], validity).expect(&rt, "made");
    let mask = array
        .to_mask_fill_null_false(rt.alloc())
        .expect(&rt, "made");
    assert!(rt; mask.len() == 6 && mask.true_count() == 2 && mask.value(2) && mask.value(5));
}

#[test]
fn null_rows_become_false_under_a_constant(rt: HostRuntime) {
    let row = Scalar::bool(true, Nullability::NonNullable);
    let valid = ConstantArray::new(rt.alloc(), row, 3).expect(&rt, "made");
    let array = truths(
        &rt,
        &[true, false, true],
        Validity::Array(valid.into_array()),
    )
    .expect(&rt, "made");
    let mask = array
        .to_mask_fill_null_false(rt.alloc())
        .expect(&rt, "made");
    assert!(rt; mask.len() == 3 && mask.value(0) && !mask.value(1) && mask.value(2));
}

#[test]
fn null_rows_become_false_under_a_dictionary(rt: HostRuntime) {
    let codes = ints::<u8>(rt.alloc(), &[1, 0, 1]).expect(&rt, "made");
    let valid = DictArray::try_new(
        rt.alloc(),
        codes,
        bools(rt.alloc(), &[false, true]).expect(&rt, "made"),
    )
    .expect(&rt, "made");
    let array = truths(
        &rt,
        &[true, true, false],
        Validity::Array(valid.into_array()),
    )
    .expect(&rt, "made");
    let mask = array
        .to_mask_fill_null_false(rt.alloc())
        .expect(&rt, "made");
    assert!(rt; mask.len() == 3 && mask.value(0) && !mask.value(1) && !mask.value(2));
}

#[test]
fn all_null_rows_become_false(rt: HostRuntime) {
    let array = truths(&rt, &[true, true], Validity::AllInvalid).expect(&rt, "made");
    let mask = array
        .to_mask_fill_null_false(rt.alloc())
        .expect(&rt, "made");
    assert!(rt; mask == Mask::new_false(2));
    assert!(rt;
        array
            .slots(rt.alloc())
            .expect(&rt, "made")
            .validity
            .is_some()
    );
}

#[test]
fn slot_of_a_validity_array(rt: HostRuntime) {
    let array = truths(
        &rt,
        &[true, true],
        valid_where(rt.alloc(), &[true, false]).expect(&rt, "made"),
    )
    .expect(&rt, "made");
    let Some(slot) = array.slots(rt.alloc()).expect(&rt, "made").validity else {
        panic!(rt; "another layout");
    };
    assert!(rt;
        slot.len() == 2
            && slot
                .execute_scalar(rt.alloc(), 0)
                .expect(&rt, "made")
                .as_bool()
    );
    assert!(rt;
        !slot
            .execute_scalar(rt.alloc(), 1)
            .expect(&rt, "made")
            .as_bool()
    );
}

#[test]
fn slot_of_nulls(rt: HostRuntime) {
    let array = truths(&rt, &[true, true], Validity::AllInvalid).expect(&rt, "made");
    let Some(slot) = array.slots(rt.alloc()).expect(&rt, "made").validity else {
        panic!(rt; "another layout");
    };
    assert!(rt;
        slot.len() == 2
            && !slot
                .execute_scalar(rt.alloc(), 1)
                .expect(&rt, "made")
                .as_bool()
    );
    assert!(rt; ConstantArray::try_from_array(slot).is_ok());
}

#[test]
fn parts_of_truths(rt: HostRuntime) {
    let bits = BitBuffer::from_bools(rt.alloc(), &[true]).expect(&rt, "made");
    BoolArray::validate(&bits, &Validity::AllValid).expect(&rt, "made");
    let array = BoolArray::new(rt.alloc(), bits, Validity::AllValid).expect(&rt, "made");
    assert!(rt;
        array
            .slots(rt.alloc())
            .expect(&rt, "made")
            .validity
            .is_none()
    );
    assert!(rt;
        array
            .into_bit_buffer(rt.alloc())
            .expect(&rt, "made")
            .value(0)
    );
}
