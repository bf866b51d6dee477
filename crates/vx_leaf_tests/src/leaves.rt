// The typed arrays on plain parts.

mod bool_arrays;
mod code_words;
mod dictionaries;
mod narrow;
mod numbers;
mod primitive_arrays;
mod scans;

use vx_base::{BitBuffer, Buffer, DType, Nullability, VortexError};
use vx_leaves::{BoolArray, PrimitiveArray};
use vx_test_help::{ints, valid_where};
use vx_tree::{Layout, TypedArray, Validity};

// The first bit, through the layout, with no case that cannot be.
fn first_bit(array: &BoolArray) -> Option<bool> {
    let Layout::Bool { bits, .. } = array.as_array().layout() else {
        unreachable!();
    };
    if bits.is_empty() {
        None
    } else {
        Some(bits.value(0))
    }
}

// How many rows there are, in an array of any one layout.
fn rows_of<A: TypedArray>(array: &A) -> usize {
    if array.is_empty() { 0 } else { array.len() }
}

#[test]
fn bools_of_bits(rt: HostRuntime) {
    let bits = BitBuffer::from_bools(rt.alloc(), &[true, false]).expect(&rt, "made");
    let array = BoolArray::try_new(rt.alloc(), bits, Validity::AllValid).expect(&rt, "made");
    assert!(rt; first_bit(&array) == Some(true) && rows_of(&array) == 2);
    assert!(rt; array.try_clone(rt.alloc()).expect(&rt, "made").len() == 2);
    assert!(rt; matches!(array.dtype(), DType::Bool(Nullability::Nullable)));
}

#[test]
fn numbers_of_a_buffer(rt: HostRuntime) {
    let buffer = Buffer::copy_from(rt.alloc(), &[-5i16, 7]).expect(&rt, "made");
    let array = PrimitiveArray::try_new(rt.alloc(), buffer, Validity::NonNullable).expect(
        &rt, "made",
    );
    assert!(rt; array.len() == 2 && !array.is_empty());
    assert_eq!(rt; array.into_array().int_at(0), Some(-5));
}

#[test]
fn short_validity(rt: HostRuntime) {
    let one = valid_where(rt.alloc(), &[true]).expect(&rt, "made");
    let bits = BitBuffer::from_bools(rt.alloc(), &[true, false]).expect(&rt, "made");
    let made = BoolArray::try_new(rt.alloc(), bits, one);
    assert!(rt;
        matches!(
            made,
            Err(VortexError::LengthMismatch {
                expected: 2,
                found: 1
            })
        )
    );
}

#[test]
fn validity_of_numbers(rt: HostRuntime) {
    let ones = Validity::Array(ints::<u8>(rt.alloc(), &[1, 1]).expect(&rt, "made"));
    let buffer = Buffer::copy_from(rt.alloc(), &[3u8, 4]).expect(&rt, "made");
    let made = PrimitiveArray::try_new(rt.alloc(), buffer, ones);
    assert!(rt; matches!(made, Err(VortexError::MismatchedTypes)));
}

#[test]
fn arrays_of_another_layout_come_back(rt: HostRuntime) {
    let buffer = Buffer::copy_from(rt.alloc(), &[3u8]).expect(&rt, "made");
    let array = PrimitiveArray::try_new(rt.alloc(), buffer, Validity::NonNullable).expect(
        &rt, "made",
    );
    assert_eq!(rt; array.as_array().len(), 1);
    let Err(array) = BoolArray::try_from_array(array.into_array()) else {
        panic!(rt; "another layout");
    };
    assert!(rt; PrimitiveArray::try_from_array(array).is_ok());
}
