// Columns that come with their names, and columns that are chosen, added and removed.

use super::{is_true_false, two_records};
use std::alloc::Global;
use vx_base::{FieldName, VortexError};
use vx_structs::{StructArray, StructArrayExt};
use vx_test_help::{bools, has_numbers_or_nulls, ints, valid_where};
use vx_tree::{ArrayRef, TypedArray, Validity};

// The column a of the numbers 1 and 2, and the column b of true and false.
fn named_columns(alloc: Global) -> Result<Vec<(&'static str, ArrayRef)>, VortexError> {
    let mut fields = Vec::with_capacity(alloc, 2)?;
    fields.push(("a", ints::<u8>(alloc, &[1, 2])?))?;
    fields.push(("b", bools(alloc, &[true, false])?))?;
    Ok(fields)
}

// Whether records have the column a of the numbers 1 and 2, and the column b of true and false.
fn has_both(alloc: Global, records: &StructArray) -> Result<bool, VortexError> {
    let first = has_numbers_or_nulls(records.unmasked_field_by_name("a")?, &[Some(1), Some(2)]);
    let second = is_true_false(alloc, records.unmasked_field_by_name("b")?)?;
    Ok(records.len() == 2 && records.fields().len() == 2 && first && second)
}

#[test]
fn columns_with_names(rt: HostRuntime) {
    let fields = named_columns(rt.alloc()).expect(&rt, "made");
    let records = StructArray::from_fields(rt.alloc(), &fields).expect(&rt, "made");
    assert!(rt; has_both(rt.alloc(), &records).expect(&rt, "made"));
}

#[test]
fn columns_of_an_iterator(rt: HostRuntime) {
    let fields = named_columns(rt.alloc()).expect(&rt, "made");
    let records = StructArray::try_from_iter(rt.alloc(), fields.into_iter()).expect(&rt, "made");
    assert!(rt; has_both(rt.alloc(), &records).expect(&rt, "made"));
}

#[test]
fn columns_of_an_iterator_with_nulls(rt: HostRuntime) {
    let fields = named_columns(rt.alloc()).expect(&rt, "made").into_iter();
    let validity = valid_where(rt.alloc(), &[false, true]).expect(&rt, "made");
    let records = StructArray::try_from_iter_with_validity(rt.alloc(), fields, validity).expect(
        &rt, "made",
    );
    assert!(rt; has_both(rt.alloc(), &records).expect(&rt, "made"));
    assert!(rt;
        !records
            .as_array()
            .is_valid(rt.alloc(), 0)
            .expect(&rt, "made")
    );
}

// Names, in order.
fn names(alloc: Global, texts: &[&str]) -> Result<Vec<FieldName>, VortexError> {
    let mut names = Vec::with_capacity(alloc, texts.len())?;
    for text in texts {
        names.push(FieldName::try_new(alloc, text)?)?;
    }
    Ok(names)
}

#[test]
fn columns_are_chosen(rt: HostRuntime) {
    let records = two_records(
        rt.alloc(),
        valid_where(rt.alloc(), &[true, false]).expect(&rt, "made"),
    )
    .expect(&rt, "made");
    let chosen = records
        .project(
            rt.alloc(),
            &names(rt.alloc(), &["b", "a", "b"]).expect(&rt, "made"),
        )
        .expect(&rt, "made");
    assert!(rt; chosen.len() == 2 && chosen.fields().len() == 3);
    assert!(rt; has_numbers_or_nulls(chosen.unmasked_field(1), &[Some(1), Some(2)]));
    assert!(rt; is_true_false(rt.alloc(), chosen.unmasked_field(2)).expect(&rt, "made"));
    assert!(rt;
        !chosen
            .as_array()
            .is_valid(rt.alloc(), 1)
            .expect(&rt, "made")
    );
}

#[test]
fn no_column_is_chosen(rt: HostRuntime) {
    let records = two_records(rt.alloc(), Validity::NonNullable).expect(&rt, "made");
    let chosen = records
        .project(rt.alloc(), &names(rt.alloc(), &[]).expect(&rt, "made"))
        .expect(&rt, "made");
    assert!(rt; chosen.len() == 2 && chosen.fields().is_empty());
}

#[test]
fn an_unknown_column_is_not_chosen(rt: HostRuntime) {
    let records = two_records(rt.alloc(), Validity::NonNullable).expect(&rt, "made");
    let refused = records.project(rt.alloc(), &names(rt.alloc(), &["z"]).expect(&rt, "made"));
    assert!(rt; matches!(refused, Err(VortexError::UnknownField)));
}

#[test]
fn a_column_is_added(rt: HostRuntime) {
    let records = two_records(rt.alloc(), Validity::NonNullable).expect(&rt, "made");
    let column = ints::<i32>(rt.alloc(), &[5, -6]).expect(&rt, "made");
    let more = records
        .with_column(rt.alloc(), "a", column)
        .expect(&rt, "made");
    assert!(rt; more.len() == 2 && more.fields().len() == 3);
    assert!(rt; has_numbers_or_nulls(more.unmasked_field(2), &[Some(5), Some(-6)]));
    let first = more.unmasked_field_by_name("a").expect(&rt, "made");
    assert!(rt; has_numbers_or_nulls(first, &[Some(1), Some(2)]));
}

#[test]
fn a_longer_column_is_not_added(rt: HostRuntime) {
    let records = two_records(rt.alloc(), Validity::NonNullable).expect(&rt, "made");
    let column = ints::<u8>(rt.alloc(), &[1, 2, 3]).expect(&rt, "made");
    let refused = records.with_column(rt.alloc(), "c", column);
    assert!(rt;
        matches!(
            refused,
            Err(VortexError::LengthMismatch {
                expected: 2,
                found: 3,
            })
        )
    );
}

#[test]
fn a_column_is_removed(rt: HostRuntime) {
    let records = two_records(rt.alloc(), Validity::NonNullable).expect(&rt, "made");
    let Some((rest, column)) = records.remove_column(rt.alloc(), "a").expect(&rt, "made") else {
        panic!(rt; "no column");
    };
    assert!(rt; rest.len() == 2 && rest.fields().len() == 1);
    assert!(rt; is_true_false(rt.alloc(), rest.unmasked_field(0)).expect(&rt, "made"));
    assert!(rt; has_numbers_or_nulls(&column, &[Some(1), Some(2)]));
}

#[test]
fn the_other_column_is_removed(rt: HostRuntime) {
    let records = two_records(rt.alloc(), Validity::NonNullable).expect(&rt, "made");
    let Some((rest, column)) = records
        .remove_column_owned(rt.alloc(), "b")
        .expect(&rt, "made")
    else {
        panic!(rt; "no column");
    };
    assert!(rt; rest.fields().len() == 1 && is_true_false(rt.alloc(), &column).expect(&rt, "made"));
    assert!(rt; has_numbers_or_nulls(rest.unmasked_field(0), &[Some(1), Some(2)]));
}

#[test]
fn no_column_is_removed(rt: HostRuntime) {
    let records = two_records(rt.alloc(), Validity::NonNullable).expect(&rt, "made");
    assert!(rt;
        records
            .remove_column(rt.alloc(), "z")
            .expect(&rt, "made")
            .is_none()
    );
    assert!(rt;
        records
            .remove_column_owned(rt.alloc(), "z")
            .expect(&rt, "made")
            .is_none()
    );
}
