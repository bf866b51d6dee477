// Nulls of records, pushed into their columns.

use std::alloc::Global;
use vx_base::{Nullability, VortexError};
use vx_structs::{StructArray, StructArrayExt};
use vx_test_help::{has_numbers_or_nulls, ints, valid_where};
use vx_tree::{ArrayRef, TypedArray, Validity};

// The column a of the numbers 1 and 2.
fn column(alloc: Global) -> Result<Vec<(&'static str, ArrayRef)>, VortexError> {
    let mut fields = Vec::with_capacity(alloc, 1)?;
    fields.push(("a", ints::<u8>(alloc, &[1, 2])?))?;
    Ok(fields)
}

// The records `{a:1}` and `{a:2}`, null where the validity is false.
fn records(alloc: Global, validity: Validity) -> Result<StructArray, VortexError> {
    StructArray::try_from_iter_with_validity(alloc, column(alloc)?.into_iter(), validity)
}

// Whether records have one column, of these numbers.
fn has_column(records: &StructArray, wanted: &[Option<i128>]) -> bool {
    match records.unmasked_field_opt(0) {
        Some(column) => records.fields().len() == 1 && has_numbers_or_nulls(column, wanted),
        None => false,
    }
}

#[test]
fn a_null_record_becomes_a_record_of_nulls(rt: HostRuntime) {
    let validity = valid_where(rt.alloc(), &[true, false]).expect(&rt, "made");
    let pushed = records(rt.alloc(), validity)
        .expect(&rt, "made")
        .push_validity_into_children(rt.alloc(), true)
        .expect(&rt, "made");
    assert!(rt; pushed.len() == 2 && has_column(&pushed, &[Some(1), None]));
    assert_eq!(rt; pushed.nullability(), Nullability::NonNullable);
    assert!(rt;
        pushed
            .as_array()
            .is_valid(rt.alloc(), 1)
            .expect(&rt, "made")
    );
    let dtypes = pushed.struct_fields().fields();
    assert!(rt; dtypes.len() == 1 && dtypes[0].is_nullable());
}

#[test]
fn null_records_stay(rt: HostRuntime) {
    let validity = valid_where(rt.alloc(), &[true, false]).expect(&rt, "made");
    let pushed = records(rt.alloc(), validity)
        .expect(&rt, "made")
        .push_validity_into_children(rt.alloc(), false)
        .expect(&rt, "made");
    assert!(rt; pushed.len() == 2 && has_column(&pushed, &[Some(1), None]));
    assert_eq!(rt; pushed.nullability(), Nullability::Nullable);
    let array = pushed.as_array();
    assert!(rt;
        array.is_valid(rt.alloc(), 0).expect(&rt, "made")
            && !array.is_valid(rt.alloc(), 1).expect(&rt, "made")
    );
}

#[test]
fn records_that_are_all_null(rt: HostRuntime) {
    let nulls = records(rt.alloc(), Validity::AllInvalid).expect(&rt, "made");
    let pushed = nulls
        .push_validity_into_children(rt.alloc(), true)
        .expect(&rt, "made");
    assert!(rt; has_column(&pushed, &[None, None]));
    assert_eq!(rt; pushed.nullability(), Nullability::NonNullable);
    let kept = nulls
        .push_validity_into_children(rt.alloc(), false)
        .expect(&rt, "made");
    assert!(rt;
        matches!(
            kept.struct_validity(rt.alloc()).expect(&rt, "made"),
            Validity::AllInvalid
        )
    );
}

// Whether the state alone of an array says that every row is null.
fn is_null_by_state(alloc: Global, array: &ArrayRef) -> Result<bool, VortexError> {
    Ok(array.validity(alloc)?.definitely_all_null())
}

#[test]
fn a_state_without_an_array_reaches_the_columns(rt: HostRuntime) {
    let nulls = records(rt.alloc(), Validity::AllInvalid).expect(&rt, "made");
    let pushed = nulls
        .push_validity_into_children(rt.alloc(), true)
        .expect(&rt, "made");
    let column = pushed.unmasked_field_by_name("a").expect(&rt, "made");
    assert!(rt; is_null_by_state(rt.alloc(), column).expect(&rt, "read"));
    let field = nulls.field(rt.alloc(), "a").expect(&rt, "made");
    assert!(rt; is_null_by_state(rt.alloc(), &field).expect(&rt, "read"));
    let validity = valid_where(rt.alloc(), &[false, false]).expect(&rt, "made");
    let told = records(rt.alloc(), validity).expect(&rt, "made");
    let field = told.field(rt.alloc(), "a").expect(&rt, "made");
    assert!(rt; !is_null_by_state(rt.alloc(), &field).expect(&rt, "read"));
}

#[test]
fn columns_stay_where_no_record_is_null(rt: HostRuntime) {
    let own = records(rt.alloc(), Validity::AllValid).expect(&rt, "made");
    let pushed = own
        .push_validity_into_children(rt.alloc(), true)
        .expect(&rt, "made");
    assert!(rt; has_column(&pushed, &[Some(1), Some(2)]));
    let dtypes = pushed.struct_fields().fields();
    assert!(rt; dtypes.len() == 1 && !dtypes[0].is_nullable());
    let kept = own
        .push_validity_into_children(rt.alloc(), false)
        .expect(&rt, "made");
    assert_eq!(rt; kept.nullability(), Nullability::Nullable);
}
