// Columns of records, and records to be joined.

ghost use Rattle.std.specs.Prelude.{◌≡◌};
ghost use Rattle.vx_tree.specs.Meaning.{tree_len};

use std::alloc::Global;
use std::test::Fail;
use vx_base::{FieldNames, VortexError};
use vx_structs::{StructArray, StructArrayExt};
use vx_test_help::{Boasting, has_numbers, ints, one_column};
use vx_tree::{ArrayRef, TypedArray, Validity};

// Three columns of three rows each.
fn columns(alloc: Global) -> Result<Vec<ArrayRef>, VortexError> {
    let (first, second) = (ints(alloc, &[1u8, 2, 3])?, ints(alloc, &[4u8, 5, 6])?);
    let third = ints(alloc, &[7u8, 8, 9])?;
    Ok(vec![in alloc; first, second, third]?)
}

// The same columns, each with its name.
fn named_columns(alloc: Global) -> Result<Vec<(&'static str, ArrayRef)>, VortexError> {
    let (first, second) = (ints(alloc, &[1u8, 2, 3])?, ints(alloc, &[4u8, 5, 6])?);
    let third = ints(alloc, &[7u8, 8, 9])?;
    Ok(vec![in alloc; ("a", first), ("b", second), ("c", third)]?)
}

// Three records of one column, which is asked to have three rows.
fn asked(alloc: Global, column: ArrayRef) -> Result<StructArray, VortexError>
    requires { tree_len column ≡ 3 }
{
    let names = FieldNames::try_new(alloc, &["a"])?;
    let columns = one_column(alloc, column)?;
    let items = Boasting {
        items: columns.into_iter(),
    };
    StructArray::new(alloc, names, items, 3, Validity::AllValid)
}

// Whether records are the three rows of these columns.
fn are_three(records: &StructArray) -> bool {
    let Some(last) = records.unmasked_field_opt(2) else {
        return false;
    };
    records.len() == 3 && records.fields().len() == 3 && has_numbers(last, &[7, 8, 9])
}

#[test]
fn a_column_that_is_asked_to_fit(rt: HostRuntime) {
    let column = ints(rt.alloc(), &[7u8, 8, 9]).expect(&rt, "made");
    assert!(rt; column.len() == 3);
    let records = asked(rt.alloc(), column).expect(&rt, "made");
    assert!(rt; records.len() == 3 && records.fields().len() == 1);
    assert!(rt; has_numbers(records.unmasked_field(0), &[7, 8, 9]));
}

#[test]
fn columns_under_names(rt: HostRuntime) {
    let names = FieldNames::try_new(rt.alloc(), &["a", "b", "c"]).expect(&rt, "made");
    let items = Boasting {
        items: columns(rt.alloc()).expect(&rt, "made").into_iter(),
    };
    let records = StructArray::try_new(rt.alloc(), names, items, 3, Validity::NonNullable).expect(
        &rt, "made",
    );
    assert!(rt; are_three(&records));
}

#[test]
fn columns_of_data_types(rt: HostRuntime) {
    let like = StructArray::from_fields(
        rt.alloc(),
        &named_columns(rt.alloc()).expect(&rt, "made"),
    ).expect(&rt, "made");
    let fields = like
        .struct_fields()
        .try_clone(rt.alloc())
        .expect(&rt, "made");
    let items = Boasting {
        items: columns(rt.alloc()).expect(&rt, "made").into_iter(),
    };
    let valid = Validity::AllValid;
    let records = StructArray::try_new_with_dtype(rt.alloc(), items, fields, 3, valid).expect(
        &rt, "made",
    );
    assert!(rt; are_three(&records));
}

#[test]
fn columns_with_their_names(rt: HostRuntime) {
    let items = Boasting {
        items: named_columns(rt.alloc()).expect(&rt, "made").into_iter(),
    };
    assert!(rt; are_three(&StructArray::try_from_iter(rt.alloc(), items).expect(&rt, "made")));
}

#[test]
fn columns_and_a_validity(rt: HostRuntime) {
    let items = Boasting {
        items: named_columns(rt.alloc()).expect(&rt, "made").into_iter(),
    };
    let null = Validity::AllInvalid;
    let records = StructArray::try_from_iter_with_validity(rt.alloc(), items, null).expect(
        &rt, "made",
    );
    assert!(rt;
        are_three(&records)
            && !records
                .as_array()
                .is_valid(rt.alloc(), 0)
                .expect(&rt, "made")
    );
}

#[test]
fn records_one_after_another(rt: HostRuntime) {
    let fields = vec![in rt.alloc(); ("a", ints(rt.alloc(), &[5u8]).expect(&rt, "made"))].expect(
        &rt, "made",
    );
    let one = StructArray::from_fields(rt.alloc(), &fields).expect(&rt, "made");
    let chunks = [&one, &one, &one];
    let items = Boasting {
        items: chunks.iter().copied(),
    };
    let all = StructArray::try_concat(rt.alloc(), items).expect(&rt, "made");
    assert!(rt;
        all.len() == 3
            && has_numbers(
                all.unmasked_field_by_name("a").expect(&rt, "made"),
                &[5, 5, 5]
            )
    );
}
