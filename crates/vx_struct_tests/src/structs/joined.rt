// Arrays of records, one after another.

use super::{both, two_records};
use std::alloc::Global;
use vx_base::{FieldNames, Nullability, PType, Scalar, VortexError};
use vx_structs::{StructArray, StructArrayExt};
use vx_test_help::samples::huge_list;
use vx_test_help::{has_numbers_or_nulls, ints, valid_where};
use vx_tree::{ArrayRef, TypedArray, Validity};

// One record of two numbers, both under the name data.
fn chunk(alloc: Global, first: i32, second: i32) -> Result<StructArray, VortexError> {
    let names = FieldNames::try_new(alloc, &["data", "data"])?;
    let columns = both(alloc, ints(alloc, &[first])?, ints(alloc, &[second])?)?;
    StructArray::try_new(alloc, names, columns.into_iter(), 1, Validity::NonNullable)
}

// One record of two lists of lists of zeroes, a of 2^51, which no memory has room for in plain
// layout, b of 2^62.
fn huge_record(alloc: Global) -> Result<StructArray, VortexError> {
    let scalar = Scalar::int(0, PType::U8, Nullability::NonNullable);
    let zeroes = ArrayRef::constant(alloc, scalar, 4611686018427387904)?;
    let validity = Validity::NonNullable;
    let lists = ArrayRef::fixed_size_list(alloc, zeroes, 2147483648, validity, 2147483648)?;
    let validity = Validity::NonNullable;
    let second = ArrayRef::fixed_size_list(alloc, lists, 2147483648, validity, 1)?;
    let names = FieldNames::try_new(alloc, &["a", "b"])?;
    let columns = both(alloc, huge_list(alloc)?, second)?;
    StructArray::try_new(alloc, names, columns.into_iter(), 1, Validity::NonNullable)
}

#[test]
fn columns_of_one_name_go_by_place(rt: HostRuntime) {
    let (first, second) = (
        chunk(rt.alloc(), 1, 3).expect(&rt, "made"),
        chunk(rt.alloc(), 2, 4).expect(&rt, "made"),
    );
    let chunks = [&first, &second];
    let all = StructArray::try_concat(rt.alloc(), chunks.iter().copied()).expect(&rt, "made");
    assert!(rt; all.len() == 2 && all.fields().len() == 2);
    assert!(rt; has_numbers_or_nulls(all.unmasked_field(0), &[Some(1), Some(2)]));
    assert!(rt; has_numbers_or_nulls(all.unmasked_field(1), &[Some(3), Some(4)]));
    let named = all.unmasked_field_by_name("data").expect(&rt, "made");
    assert!(rt; has_numbers_or_nulls(named, &[Some(1), Some(2)]));
}

#[test]
fn validities_are_joined(rt: HostRuntime) {
    let first = two_records(rt.alloc(), Validity::AllInvalid).expect(&rt, "made");
    let second = two_records(rt.alloc(), Validity::AllValid).expect(&rt, "made");
    let chunks = [&first, &second];
    let all = StructArray::try_concat(rt.alloc(), chunks.iter().copied()).expect(&rt, "made");
    assert!(rt; all.len() == 4 && !all.as_array().is_valid(rt.alloc(), 1).expect(&rt, "made"));
    assert!(rt; all.as_array().is_valid(rt.alloc(), 2).expect(&rt, "made"));
}

#[test]
fn columns_keep_their_values_under_null_records(rt: HostRuntime) {
    let one_null = valid_where(rt.alloc(), &[false, true]).expect(&rt, "made");
    let first = two_records(rt.alloc(), one_null).expect(&rt, "made");
    let second = two_records(rt.alloc(), Validity::AllInvalid).expect(&rt, "made");
    let chunks = [&first, &second];
    let all = StructArray::try_concat(rt.alloc(), chunks.iter().copied()).expect(&rt, "made");
    assert!(rt; all.len() == 4 && all.fields().len() == 2);
    for i in 0..4 {
        let valid = all.as_array().is_valid(rt.alloc(), i).expect(&rt, "made");
        assert!(rt; valid == (i == 1));
    }
    let values = [Some(1), Some(2), Some(1), Some(2)];
    assert!(rt; has_numbers_or_nulls(all.unmasked_field(0), &values));
}

// The lists of the second column have together 2^64 zeroes. None of the first is made plain.
#[test]
fn elements_are_counted_before_any_column_is_made_plain(rt: HostRuntime) {
    let record = huge_record(rt.alloc()).expect(&rt, "made");
    let chunks = [&record, &record, &record, &record];
    let refused = StructArray::try_concat(rt.alloc(), chunks.iter().copied());
    assert!(rt; matches!(refused, Err(VortexError::Overflow)));
}

#[test]
fn no_records_are_joined(rt: HostRuntime) {
    let chunks: [&StructArray; 0] = [];
    let refused = StructArray::try_concat(rt.alloc(), chunks.iter().copied());
    assert!(rt; matches!(refused, Err(VortexError::EmptyInput)));
}

#[test]
fn other_data_types_are_not_joined(rt: HostRuntime) {
    let first = chunk(rt.alloc(), 1, 3).expect(&rt, "made");
    let second = two_records(rt.alloc(), Validity::NonNullable).expect(&rt, "made");
    let chunks = [&first, &second];
    let refused = StructArray::try_concat(rt.alloc(), chunks.iter().copied());
    assert!(rt; matches!(refused, Err(VortexError::DifferingDtypes)));
}
