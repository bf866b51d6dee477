// Constants of more rows than memory could hold.

use super::columns::zeros;
use std::alloc::Global;
use std::test::Fail;
use vx_base::{DType, Nullability, PType, Scalar, VortexError};
use vx_canonical::Concatenate;
use vx_leaves::DictArray;
use vx_test_help::{bools, has_numbers, ints};
use vx_tree::{ArrayRef, TypedArray, Validity};

// Half of the rows that can be counted, and one more than half of the greatest count.
const HALF: usize = 9223372036854775808;

// More rows than memory holds a byte for.
const MANY: usize = 1099511627776;

// The truth value so many times.
fn truths(alloc: Global, value: bool) -> Result<ArrayRef, VortexError> {
    ArrayRef::constant(alloc, Scalar::bool(value, Nullability::NonNullable), MANY)
}

// A code into null and 6, so many times.
fn dictionary(alloc: Global) -> Result<ArrayRef, VortexError> {
    let values = ints::<i8>(alloc, &[5, 6])?;
    let values = values.mask(alloc, &bools(alloc, &[false, true])?)?;
    Ok(DictArray::try_new(alloc, zeros(alloc, MANY)?, values)?.into_array())
}

#[test]
fn two_halves_of_all_rows_are_too_many(rt: HostRuntime) {
    let halves = vec![in rt.alloc();
        zeros(rt.alloc(), HALF).expect(&rt, "made"),
        zeros(rt.alloc(), HALF).expect(&rt, "made"),
    ]
    .expect(&rt, "made");
    let fault = ArrayRef::concat(rt.alloc(), &halves).err();
    assert_eq!(rt; fault, Some(VortexError::Overflow));
}

#[test]
fn as_many_equal_indices_as_rows(rt: HostRuntime) {
    let rows = zeros(rt.alloc(), MANY).expect(&rt, "made");
    let taken = rows.take(rt.alloc(), &rows).expect(&rt, "made");
    let part = taken.slice(rt.alloc(), MANY - 2..MANY).expect(&rt, "made");
    assert!(rt; has_numbers(&part, &[0, 0]));
}

#[test]
fn as_many_null_indices_as_rows(rt: HostRuntime) {
    let null = Scalar::null(DType::Primitive(PType::U8, Nullability::Nullable));
    let nulls = ArrayRef::constant(rt.alloc(), null, MANY).expect(&rt, "made");
    let taken = zeros(rt.alloc(), MANY)
        .expect(&rt, "made")
        .take(rt.alloc(), &nulls)
        .expect(&rt, "made");
    assert_eq!(rt; taken.len(), MANY);
    assert!(rt; !taken.is_valid(rt.alloc(), MANY - 1).expect(&rt, "made"));
}

#[test]
fn a_mask_of_one_value_for_as_many_rows(rt: HostRuntime) {
    let rows = zeros(rt.alloc(), MANY).expect(&rt, "made");
    let kept = rows
        .mask(rt.alloc(), &truths(rt.alloc(), true).expect(&rt, "made"))
        .expect(&rt, "made");
    let gone = kept
        .mask(rt.alloc(), &truths(rt.alloc(), false).expect(&rt, "made"))
        .expect(&rt, "made");
    assert!(rt; kept.is_valid(rt.alloc(), MANY - 1).expect(&rt, "made"));
    assert!(rt; !gone.is_valid(rt.alloc(), MANY - 1).expect(&rt, "made"));
}

#[test]
fn the_validity_of_as_many_equal_codes(rt: HostRuntime) {
    let validity = dictionary(rt.alloc())
        .expect(&rt, "made")
        .validity(rt.alloc())
        .expect(&rt, "made");
    assert!(rt; !validity.is_valid(rt.alloc(), MANY - 1).expect(&rt, "made"));
    let opposite = validity.not(rt.alloc()).expect(&rt, "made");
    assert!(rt; opposite.is_valid(rt.alloc(), MANY - 1).expect(&rt, "made"));
    let both = opposite
        .and(
            rt.alloc(),
            Validity::Array(truths(rt.alloc(), false).expect(&rt, "made")),
        )
        .expect(&rt, "made");
    assert!(rt; !both.is_valid(rt.alloc(), MANY - 1).expect(&rt, "made"));
}
