// Parts of records that are refused.

use super::{both, two_records};
use std::alloc::Global;
use vx_base::{FieldNames, VortexError};
use vx_structs::{StructArray, StructArrayExt};
use vx_test_help::{bools, ints, one_column, valid_where};
use vx_tree::{ArrayRef, Validity};

// How two records of these names and of one column of these numbers are refused.
fn fault_of(
    alloc: Global,
    names: &[&str],
    numbers: &[u8],
    validity: Validity,
) -> Result<Option<VortexError>, VortexError> {
    let names = FieldNames::try_new(alloc, names)?;
    let columns = one_column(alloc, ints(alloc, numbers)?)?;
    match StructArray::try_new(alloc, names, columns.into_iter(), 2, validity) {
        Ok(_) => Ok(None),
        Err(fault) => Ok(Some(fault)),
    }
}

#[test]
fn names_are_counted_first(rt: HostRuntime) {
    let numbers = Validity::Array(ints::<u8>(rt.alloc(), &[1]).expect(&rt, "made"));
    let fault = fault_of(rt.alloc(), &["a", "b"], &[1], numbers).expect(&rt, "made");
    assert!(rt;
        matches!(
            fault,
            Some(VortexError::LengthMismatch {
                expected: 2,
                found: 1,
            })
        )
    );
}

#[test]
fn validities_are_tested_next(rt: HostRuntime) {
    let numbers = Validity::Array(ints::<u8>(rt.alloc(), &[1]).expect(&rt, "made"));
    let fault = fault_of(rt.alloc(), &["a"], &[1], numbers).expect(&rt, "made");
    assert!(rt; matches!(fault, Some(VortexError::MismatchedTypes)));
    let long = valid_where(rt.alloc(), &[true, true, true]).expect(&rt, "made");
    let fault = fault_of(rt.alloc(), &["a"], &[1], long).expect(&rt, "made");
    assert!(rt;
        matches!(
            fault,
            Some(VortexError::LengthMismatch {
                expected: 2,
                found: 3,
            })
        )
    );
}

#[test]
fn columns_are_measured_last(rt: HostRuntime) {
    let fault = fault_of(rt.alloc(), &["a"], &[1], Validity::AllValid).expect(&rt, "made");
    assert!(rt;
        matches!(
            fault,
            Some(VortexError::LengthMismatch {
                expected: 2,
                found: 1,
            })
        )
    );
    assert!(rt;
        fault_of(rt.alloc(), &["a"], &[1, 2], Validity::AllValid)
            .expect(&rt, "made")
            .is_none()
    );
}

// How two records of the data types of `{a:1,b:true}` and of these columns are refused.
fn typed_fault_of(
    alloc: Global,
    columns: Vec<ArrayRef>,
    validity: Validity,
) -> Result<Option<VortexError>, VortexError> {
    let like = two_records(alloc, Validity::NonNullable)?;
    let fields = like.struct_fields().try_clone(alloc)?;
    match StructArray::try_new_with_dtype(alloc, columns.into_iter(), fields, 2, validity) {
        Ok(_) => Ok(None),
        Err(fault) => Ok(Some(fault)),
    }
}

// The columns of these numbers and of these truth values.
fn pair(alloc: Global, numbers: &[u8], truths: &[bool]) -> Result<Vec<ArrayRef>, VortexError> {
    both(alloc, ints(alloc, numbers)?, bools(alloc, truths)?)
}

#[test]
fn columns_of_data_types(rt: HostRuntime) {
    let columns = pair(rt.alloc(), &[1, 2], &[true, false]).expect(&rt, "made");
    assert!(rt;
        typed_fault_of(rt.alloc(), columns, Validity::AllValid)
            .expect(&rt, "made")
            .is_none()
    );
}

#[test]
fn columns_of_data_types_are_counted(rt: HostRuntime) {
    let numbers = Validity::Array(ints::<u8>(rt.alloc(), &[1]).expect(&rt, "made"));
    let columns = one_column(rt.alloc(), ints::<i8>(rt.alloc(), &[1]).expect(&rt, "made")).expect(
        &rt, "made",
    );
    let fault = typed_fault_of(rt.alloc(), columns, numbers).expect(&rt, "made");
    assert!(rt;
        matches!(
            fault,
            Some(VortexError::LengthMismatch {
                expected: 2,
                found: 1,
            })
        )
    );
}

#[test]
fn validities_come_before_data_types(rt: HostRuntime) {
    let columns = pair(rt.alloc(), &[1], &[true, false]).expect(&rt, "made");
    let long = valid_where(rt.alloc(), &[true, true, true]).expect(&rt, "made");
    let fault = typed_fault_of(rt.alloc(), columns, long).expect(&rt, "made");
    assert!(rt; matches!(fault, Some(VortexError::LengthMismatch { found: 3, .. })));
}

#[test]
fn columns_of_another_data_type(rt: HostRuntime) {
    let first = ints::<i16>(rt.alloc(), &[1]).expect(&rt, "made");
    let columns = both(
        rt.alloc(),
        first,
        bools(rt.alloc(), &[true]).expect(&rt, "made"),
    )
    .expect(&rt, "made");
    let fault = typed_fault_of(rt.alloc(), columns, Validity::AllValid).expect(&rt, "made");
    assert!(rt; matches!(fault, Some(VortexError::MismatchedTypes)));
}

#[test]
fn shorter_columns_of_data_types(rt: HostRuntime) {
    let first = ints::<u8>(rt.alloc(), &[1]).expect(&rt, "made");
    let columns = both(
        rt.alloc(),
        first,
        ints::<u8>(rt.alloc(), &[1, 2]).expect(&rt, "made"),
    )
    .expect(&rt, "made");
    let fault = typed_fault_of(rt.alloc(), columns, Validity::AllValid).expect(&rt, "made");
    assert!(rt;
        matches!(
            fault,
            Some(VortexError::LengthMismatch {
                expected: 2,
                found: 1,
            })
        )
    );
}

// No column, and so no name.
fn no_columns(alloc: Global) -> Vec<(&'static str, ArrayRef)> {
    Vec::new(alloc)
}

#[test]
fn no_column_tells_no_length(rt: HostRuntime) {
    let refused = StructArray::try_from_iter(rt.alloc(), no_columns(rt.alloc()).into_iter());
    assert!(rt; matches!(refused, Err(VortexError::EmptyInput)));
    let refused = StructArray::from_fields(rt.alloc(), &no_columns(rt.alloc()));
    assert!(rt; matches!(refused, Err(VortexError::EmptyInput)));
    let numbers = Validity::Array(ints::<u8>(rt.alloc(), &[1]).expect(&rt, "made"));
    let none = no_columns(rt.alloc()).into_iter();
    let refused = StructArray::try_from_iter_with_validity(rt.alloc(), none, numbers);
    assert!(rt; matches!(refused, Err(VortexError::EmptyInput)));
}

// The columns a and b of so many numbers.
fn uneven(
    alloc: Global,
    first: &[u8],
    second: &[u8],
) -> Result<Vec<(&'static str, ArrayRef)>, VortexError> {
    let mut fields = Vec::with_capacity(alloc, 2)?;
    fields.push(("a", ints(alloc, first)?))?;
    fields.push(("b", ints(alloc, second)?))?;
    Ok(fields)
}

#[test]
fn columns_are_as_long_as_the_first(rt: HostRuntime) {
    let fields = uneven(rt.alloc(), &[1], &[1, 2]).expect(&rt, "made");
    let refused = StructArray::from_fields(rt.alloc(), &fields);
    assert!(rt;
        matches!(
            refused,
            Err(VortexError::LengthMismatch {
                expected: 1,
                found: 2,
            })
        )
    );
    let fields = uneven(rt.alloc(), &[1, 2], &[])
        .expect(&rt, "made")
        .into_iter();
    let refused = StructArray::try_from_iter(rt.alloc(), fields);
    assert!(rt;
        matches!(
            refused,
            Err(VortexError::LengthMismatch { expected: 2, .. })
        )
    );
}
