// Columns of tables, looked up by their names and joined.

use std::alloc::Global;
use vx_base::{FieldName, VortexError};
use vx_structs::{StructArray, StructArrayExt};
use vx_test_help::{bools, has_numbers, ints};
use vx_tree::TypedArray;
use vx_uses::tables::{joined_column, joined_columns, table_of};

// The table of `{a:1,b:true}` and `{a:2,b:false}`.
fn two_rows(alloc: Global) -> Result<StructArray, VortexError> {
    let first = ("a", ints::<u8>(alloc, &[1, 2])?);
    let second = ("b", bools(alloc, &[true, false])?);
    StructArray::from_fields(alloc, &[first, second])
}

// The table of `{b:8,c:7,a:3}`.
fn one_row(alloc: Global) -> Result<StructArray, VortexError> {
    let first = ("b", ints::<u8>(alloc, &[8])?);
    let second = ("c", ints::<u8>(alloc, &[7])?);
    let third = ("a", ints::<u8>(alloc, &[3])?);
    StructArray::from_fields(alloc, &[first, second, third])
}

#[test]
fn columns_of_a_name_are_joined(rt: HostRuntime) {
    let (first, second) = (
        two_rows(rt.alloc()).expect(&rt, "made"),
        one_row(rt.alloc()).expect(&rt, "made"),
    );
    let joined = joined_column(rt.alloc(), &first, &second, "a").expect(&rt, "made");
    assert!(rt; has_numbers(&joined, &[1, 2, 3]));
    let joined = joined_column(rt.alloc(), &second, &first, "a").expect(&rt, "made");
    assert!(rt; has_numbers(&joined, &[3, 1, 2]));
}

#[test]
fn columns_that_one_table_has_not_are_not_joined(rt: HostRuntime) {
    let (first, second) = (
        two_rows(rt.alloc()).expect(&rt, "made"),
        one_row(rt.alloc()).expect(&rt, "made"),
    );
    let refused = joined_column(rt.alloc(), &first, &second, "c");
    assert!(rt; matches!(refused, Err(VortexError::UnknownField)));
    let refused = joined_column(rt.alloc(), &second, &first, "c");
    assert!(rt; matches!(refused, Err(VortexError::UnknownField)));
}

#[test]
fn columns_of_two_data_types_are_not_joined(rt: HostRuntime) {
    let (first, second) = (
        two_rows(rt.alloc()).expect(&rt, "made"),
        one_row(rt.alloc()).expect(&rt, "made"),
    );
    let refused = joined_column(rt.alloc(), &first, &second, "b");
    assert!(rt; matches!(refused, Err(VortexError::DifferingDtypes)));
}

#[test]
fn columns_of_names_are_joined(rt: HostRuntime) {
    let (first, second) = (
        one_row(rt.alloc()).expect(&rt, "made"),
        one_row(rt.alloc()).expect(&rt, "made"),
    );
    let names = [
        FieldName::try_new(rt.alloc(), "a").expect(&rt, "made"),
        FieldName::try_new(rt.alloc(), "c").expect(&rt, "made"),
    ];
    let joined = joined_columns(rt.alloc(), &first, &second, &names).expect(&rt, "made");
    assert!(rt; joined.len() == 2 && joined.fields().len() == 2);
    assert!(rt; joined.names().len() == 2 && joined.names().get(1).as_str() == "c");
    assert!(rt; has_numbers(joined.unmasked_field(0), &[3, 3]));
    assert!(rt; has_numbers(joined.unmasked_field(1), &[7, 7]));
}

#[test]
fn columns_of_other_places_are_joined(rt: HostRuntime) {
    let (first, second) = (
        two_rows(rt.alloc()).expect(&rt, "made"),
        one_row(rt.alloc()).expect(&rt, "made"),
    );
    let names = [FieldName::try_new(rt.alloc(), "a").expect(&rt, "made")];
    let joined = joined_columns(rt.alloc(), &first, &second, &names).expect(&rt, "made");
    assert!(rt; joined.len() == 3 && joined.fields().len() == 1);
    assert!(rt; has_numbers(joined.unmasked_field(0), &[1, 2, 3]));
}

// How the columns of one name of these two tables are refused.
fn fault_of(alloc: Global, name: &str) -> Result<Option<VortexError>, VortexError> {
    let (first, second) = (two_rows(alloc)?, one_row(alloc)?);
    match joined_columns(alloc, &first, &second, &[FieldName::try_new(alloc, name)?]) {
        Ok(_) => Ok(None),
        Err(fault) => Ok(Some(fault)),
    }
}

#[test]
fn names_come_before_data_types(rt: HostRuntime) {
    assert!(rt;
        matches!(
            fault_of(rt.alloc(), "c").expect(&rt, "made"),
            Some(VortexError::UnknownField)
        )
    );
    assert!(rt;
        matches!(
            fault_of(rt.alloc(), "b").expect(&rt, "made"),
            Some(VortexError::DifferingDtypes)
        )
    );
    assert!(rt; fault_of(rt.alloc(), "a").expect(&rt, "made").is_none());
}

#[test]
fn columns_make_a_table(rt: HostRuntime) {
    let alloc = rt.alloc();
    let columns = vec![in alloc;
        ints::<u8>(alloc, &[1, 2]).expect(&rt, "made"),
        bools(alloc, &[true, false]).expect(&rt, "made"),
    ]
    .expect(&rt, "made");
    let table = table_of(alloc, &["a", "b"], columns, 2).expect(&rt, "made");
    let Some(first) = table.unmasked_field_by_name_opt("a") else {
        panic!(rt; "no column");
    };
    assert!(rt; table.len() == 2 && has_numbers(first, &[1, 2]));
    let columns = vec![in alloc; ints::<u8>(alloc, &[1, 2]).expect(&rt, "made")].expect(
        &rt, "made",
    );
    let refused = table_of(alloc, &["a"], columns, 3);
    assert!(rt; matches!(refused, Err(VortexError::LengthMismatch { .. })));
}
