// The tests of `arrays/bool/array.rs`.

use std::alloc::Global;
use vx_base::{BitBuffer, BitBufferMut, ByteBuffer, VortexError};
use vx_leaves::{BoolArray, BoolArrayExt};
use vx_tree::{ArrayRef, TypedArray, Validity};

// The row of an array of truth values: nothing where it is null.
fn truth(alloc: Global, array: &ArrayRef, row: usize) -> Result<Option<bool>, VortexError> {
    if row >= array.len() {
        return Err(VortexError::EmptyInput);
    }
    let scalar = array.execute_scalar(alloc, row)?;
    if !scalar.is_valid() {
        return Ok(None);
    }
    Ok(Some(scalar.as_bool()))
}

// Whether an array has these truth values.
fn has_truths(
    alloc: Global,
    array: &ArrayRef,
    wanted: &[Option<bool>],
) -> Result<bool, VortexError> {
    if array.len() != wanted.len() {
        return Ok(false);
    }
    for (row, want) in wanted.iter().enumerate() {
        if truth(alloc, array, row)? != *want {
            return Ok(false);
        }
    }
    Ok(true)
}

// So many truth values, all of them true.
fn all_set(alloc: Global, len: usize) -> Result<ArrayRef, VortexError> {
    let bits = BitBuffer::new_set(alloc, len)?;
    Ok(BoolArray::from_bit_buffer(alloc, bits)?.into_array())
}

#[test]
fn bool_array(rt: HostRuntime) {
    let items = [true, false, true];
    let array = BoolArray::from_iter(rt.alloc(), items.iter().copied()).expect(&rt, "made");
    assert_eq!(rt;
        truth(rt.alloc(), array.as_array(), 0).expect(&rt, "made"),
        Some(true)
    );
}

#[test]
fn test_all_some_iter(rt: HostRuntime) {
    let items = [Some(true), Some(false)];
    let array = BoolArray::from_option_iter(rt.alloc(), items.iter().copied()).expect(&rt, "made");
    assert!(rt;
        matches!(
            array.validity(rt.alloc()).expect(&rt, "made"),
            Validity::AllValid
        )
    );
    assert!(rt; has_truths(rt.alloc(), array.as_array(), &items).expect(&rt, "made"));
}

#[test]
fn test_bool_from_iter(rt: HostRuntime) {
    let items = [Some(true), Some(true), None, Some(false), None];
    let array = BoolArray::from_option_iter(rt.alloc(), items.iter().copied()).expect(&rt, "made");
    assert!(rt; has_truths(rt.alloc(), array.as_array(), &items).expect(&rt, "made"));
}

// Upstream patches the array after it was sliced; arrays are not patched here.
#[test]
fn patch_sliced_bools(rt: HostRuntime) {
    let set = all_set(rt.alloc(), 12)
        .expect(&rt, "made")
        .slice(rt.alloc(), 4..12)
        .expect(&rt, "made");
    assert!(rt; has_truths(rt.alloc(), &set, &[Some(true); 8]).expect(&rt, "made"));
    let mut bits = BitBufferMut::new_unset(rt.alloc(), 12).expect(&rt, "made");
    bits.fill_range(1, 12, true);
    let array = BoolArray::from_bit_buffer(rt.alloc(), bits.freeze().expect(&rt, "made")).expect(
        &rt, "made",
    );
    let sliced = array
        .as_array()
        .slice(rt.alloc(), 4..12)
        .expect(&rt, "made");
    assert!(rt; has_truths(rt.alloc(), &sliced, &[Some(true); 8]).expect(&rt, "made"));
}

#[test]
fn slice_array_in_middle(rt: HostRuntime) {
    let sliced = all_set(rt.alloc(), 16)
        .expect(&rt, "made")
        .slice(rt.alloc(), 4..12)
        .expect(&rt, "made");
    assert!(rt; has_truths(rt.alloc(), &sliced, &[Some(true); 8]).expect(&rt, "made"));
}

#[test]
fn slice_aligned_host_handle_at_unaligned_byte(rt: HostRuntime) {
    let bytes = ByteBuffer::copy_from(rt.alloc(), b"\xAC\x69\x00").expect(&rt, "made");
    let bits = BitBuffer::new_with_offset(rt.alloc(), bytes, 16, 0).expect(&rt, "made");
    let array = BoolArray::new(rt.alloc(), bits, Validity::NonNullable)
        .expect(&rt, "made")
        .into_array();
    assert!(rt; array.len() == 16);
    let sliced = array.slice(rt.alloc(), 9..15).expect(&rt, "made");
    let wanted = [
        Some(false),
        Some(false),
        Some(true),
        Some(false),
        Some(true),
        Some(true),
    ];
    assert!(rt; has_truths(rt.alloc(), &sliced, &wanted).expect(&rt, "made"));
}

#[test]
fn patch_sliced_bools_offset(rt: HostRuntime) {
    let sliced = all_set(rt.alloc(), 15)
        .expect(&rt, "made")
        .slice(rt.alloc(), 4..15)
        .expect(&rt, "made");
    assert!(rt; has_truths(rt.alloc(), &sliced, &[Some(true); 11]).expect(&rt, "made"));
}
