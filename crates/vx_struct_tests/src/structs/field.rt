// A column by its name, null where its records are.

use std::alloc::Global;
use vx_base::{Nullability, PType, Scalar, VortexError};
use vx_structs::{StructArray, StructArrayExt};
use vx_test_help::rows::is_list;
use vx_test_help::samples::{dictionary, indices, lists};
use vx_test_help::{has_numbers_or_nulls, ints, valid_where};
use vx_tree::{ArrayRef, Validity};

// Records of the column a, null where the validity is false.
fn records(
    alloc: Global,
    column: ArrayRef,
    validity: Validity,
) -> Result<StructArray, VortexError> {
    let mut fields = Vec::with_capacity(alloc, 1)?;
    fields.push(("a", column))?;
    StructArray::try_from_iter_with_validity(alloc, fields.into_iter(), validity)
}

// The column a of records, null where these are false.
fn field_where(alloc: Global, column: ArrayRef, valid: &[bool]) -> Result<ArrayRef, VortexError> {
    records(alloc, column, valid_where(alloc, valid)?)?.field(alloc, "a")
}

// The column a of the numbers 1 and 9, of records under a validity.
fn numbers_under(alloc: Global, validity: Validity) -> Result<ArrayRef, VortexError> {
    records(alloc, ints::<u8>(alloc, &[1, 9])?, validity)?.field(alloc, "a")
}

#[test]
fn a_field_is_null_with_its_record(rt: HostRuntime) {
    let column = ints::<u8>(rt.alloc(), &[1, 9]).expect(&rt, "made");
    let validity = valid_where(rt.alloc(), &[true, false]).expect(&rt, "made");
    let own = records(rt.alloc(), column, validity).expect(&rt, "made");
    let field = own.field(rt.alloc(), "a").expect(&rt, "made");
    assert!(rt; has_numbers_or_nulls(&field, &[Some(1), None]));
    assert!(rt; field.dtype().is_nullable());
    let lent = own.unmasked_field_by_name("a").expect(&rt, "made");
    assert!(rt; has_numbers_or_nulls(lent, &[Some(1), Some(9)]));
}

#[test]
fn a_field_stays_where_no_record_can_be_null(rt: HostRuntime) {
    let field = numbers_under(rt.alloc(), Validity::NonNullable).expect(&rt, "made");
    assert!(rt; has_numbers_or_nulls(&field, &[Some(1), Some(9)]));
    assert!(rt; !field.dtype().is_nullable());
}

#[test]
fn a_field_stays_where_all_records_are_valid(rt: HostRuntime) {
    let field = numbers_under(rt.alloc(), Validity::AllValid).expect(&rt, "made");
    assert!(rt; has_numbers_or_nulls(&field, &[Some(1), Some(9)]));
    assert!(rt; !field.dtype().is_nullable());
}

#[test]
fn a_field_of_null_records_is_null(rt: HostRuntime) {
    let field = numbers_under(rt.alloc(), Validity::AllInvalid).expect(&rt, "made");
    assert!(rt; has_numbers_or_nulls(&field, &[None, None]));
}

#[test]
fn a_field_may_be_nullable_without_a_null(rt: HostRuntime) {
    let validity = valid_where(rt.alloc(), &[true, true]).expect(&rt, "made");
    let field = numbers_under(rt.alloc(), validity).expect(&rt, "made");
    assert!(rt; has_numbers_or_nulls(&field, &[Some(1), Some(9)]));
    assert!(rt; field.dtype().is_nullable());
}

#[test]
fn a_field_keeps_its_own_nulls(rt: HostRuntime) {
    let column = indices(rt.alloc()).expect(&rt, "made");
    let field = field_where(rt.alloc(), column, &[true, true, false]).expect(&rt, "made");
    assert!(rt; has_numbers_or_nulls(&field, &[Some(2), None, None]));
}

#[test]
fn a_field_of_lists(rt: HostRuntime) {
    let column = lists(rt.alloc()).expect(&rt, "made");
    let field = field_where(rt.alloc(), column, &[true, false, true]).expect(&rt, "made");
    assert_eq!(rt; field.len(), 3);
    assert!(rt; is_list(rt.alloc(), &field, 0, Some(&[3, 4])).expect(&rt, "made"));
    assert!(rt; is_list(rt.alloc(), &field, 1, None).expect(&rt, "made"));
    assert!(rt; is_list(rt.alloc(), &field, 2, Some(&[2, 3])).expect(&rt, "made"));
}

#[test]
fn a_field_of_one_value(rt: HostRuntime) {
    let seven = Scalar::int(7, PType::U8, Nullability::NonNullable);
    let column = ArrayRef::constant(rt.alloc(), seven, 3).expect(&rt, "made");
    let field = field_where(rt.alloc(), column, &[false, true, true]).expect(&rt, "made");
    assert!(rt; has_numbers_or_nulls(&field, &[None, Some(7), Some(7)]));
}

#[test]
fn a_field_of_a_dictionary(rt: HostRuntime) {
    let column = dictionary(rt.alloc()).expect(&rt, "made");
    let valid = [true, true, true, true, false];
    let field = field_where(rt.alloc(), column, &valid).expect(&rt, "made");
    assert!(rt; has_numbers_or_nulls(&field, &[None, None, Some(9), None, None]));
}

#[test]
fn a_field_of_an_unknown_name(rt: HostRuntime) {
    let column = ints::<u8>(rt.alloc(), &[1, 9]).expect(&rt, "made");
    let own = records(rt.alloc(), column, Validity::AllInvalid).expect(&rt, "made");
    assert!(rt; matches!(own.field(rt.alloc(), "z"), Err(VortexError::UnknownField)));
}

// Two records of the column a of the numbers 1 and 9, and a second column a of the numbers 3 and 4.
fn two_of_a_name(alloc: Global) -> Result<StructArray, VortexError> {
    let mut fields = Vec::with_capacity(alloc, 2)?;
    fields.push(("a", ints::<u8>(alloc, &[1, 9])?))?;
    fields.push(("a", ints::<u8>(alloc, &[3, 4])?))?;
    let validity = valid_where(alloc, &[false, true])?;
    StructArray::try_from_iter_with_validity(alloc, fields.into_iter(), validity)
}

#[test]
fn the_first_field_of_a_name(rt: HostRuntime) {
    let own = two_of_a_name(rt.alloc()).expect(&rt, "made");
    let field = own.field(rt.alloc(), "a").expect(&rt, "made");
    assert!(rt; has_numbers_or_nulls(&field, &[None, Some(9)]));
}
