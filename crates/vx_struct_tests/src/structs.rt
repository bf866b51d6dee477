// Records by columns: their columns, their parts and their faults.

ghost use Rattle.std.specs.Prelude.{◌≡◌};
ghost use Rattle.vx_tree.specs.Meaning.{tree_len};

mod columns;
mod faults;
mod field;
mod joined;
mod pushed;

use std::alloc::Global;
use vx_base::{DType, FieldNames, Nullability, PType, VortexError};
use vx_structs::{StructArray, StructArrayExt, StructDataParts, StructSlots};
use vx_test_help::{bools, has_numbers_or_nulls, ints, one_column, valid_where};
use vx_tree::{ArrayRef, TypedArray, Validity};

// Two columns, in order.
fn both(alloc: Global, first: ArrayRef, second: ArrayRef) -> Result<Vec<ArrayRef>, VortexError> {
    let mut columns = Vec::with_capacity(alloc, 2)?;
    columns.push(first)?;
    columns.push(second)?;
    Ok(columns)
}

// The records `{a:1,b:true}` and `{a:2,b:false}`, null where the validity is false.
fn two_records(alloc: Global, validity: Validity) -> Result<StructArray, VortexError> {
    let names = FieldNames::try_new(alloc, &["a", "b"])?;
    let first = ints::<u8>(alloc, &[1, 2])?;
    let second = bools(alloc, &[true, false])?;
    let columns = both(alloc, first, second)?;
    StructArray::try_new(alloc, names, columns.into_iter(), 2, validity)
}

// Two records of one column, which is asked to have two rows.
fn asked(alloc: Global, column: ArrayRef) -> Result<StructArray, VortexError>
    requires { tree_len column ≡ 2 }
{
    let names = FieldNames::try_new(alloc, &["a"])?;
    let columns = one_column(alloc, column)?;
    StructArray::new(alloc, names, columns.into_iter(), 2, Validity::AllValid)
}

// Whether a column of truth values is true, then false.
fn is_true_false(alloc: Global, column: &ArrayRef) -> Result<bool, VortexError> {
    if column.len() != 2 {
        return Ok(false);
    }
    let first = column.execute_scalar(alloc, 0)?;
    let second = column.execute_scalar(alloc, 1)?;
    Ok(first.is_valid() && first.as_bool() && second.is_valid() && !second.as_bool())
}

#[test]
fn records_of_two_columns(rt: HostRuntime) {
    let records = two_records(rt.alloc(), Validity::NonNullable).expect(&rt, "made");
    assert!(rt; records.len() == 2 && records.fields().len() == 2);
    assert!(rt; has_numbers_or_nulls(records.unmasked_field(0), &[Some(1), Some(2)]));
    assert!(rt; is_true_false(rt.alloc(), records.unmasked_field(1)).expect(&rt, "made"));
    assert!(rt;
        records
            .as_array()
            .is_valid(rt.alloc(), 1)
            .expect(&rt, "made")
    );
    assert_eq!(rt; records.nullability(), Nullability::NonNullable);
}

#[test]
fn records_of_a_column_that_fits(rt: HostRuntime) {
    let column = ints::<i16>(rt.alloc(), &[-1, 9]).expect(&rt, "made");
    assert!(rt; column.len() == 2);
    let records = asked(rt.alloc(), column).expect(&rt, "made");
    assert!(rt; records.len() == 2 && records.fields().len() == 1);
    assert!(rt; has_numbers_or_nulls(records.unmasked_field(0), &[Some(-1), Some(9)]));
    assert_eq!(rt; records.nullability(), Nullability::Nullable);
}

#[test]
fn columns_come_in_order(rt: HostRuntime) {
    let records = two_records(rt.alloc(), Validity::NonNullable).expect(&rt, "made");
    let mut columns = records.iter_unmasked_fields();
    assert_eq!(rt; columns.len(), 2);
    let Some(first) = columns.next() else {
        panic!(rt; "no column");
    };
    assert!(rt; has_numbers_or_nulls(first, &[Some(1), Some(2)]));
    assert_eq!(rt; columns.len(), 1);
    assert!(rt; columns.next().is_some() && columns.next().is_none());
}

#[test]
fn names_of_records(rt: HostRuntime) {
    let records = two_records(rt.alloc(), Validity::NonNullable).expect(&rt, "made");
    let names = records.names();
    assert!(rt; names.len() == 2 && names.get(1).as_str() == "b");
    assert_eq!(rt; names.find("a"), Some(0));
    let fields = records.struct_fields();
    assert_eq!(rt; fields.find("b"), Some(1));
    let own = fields.fields();
    assert!(rt; own.len() == 2);
    assert!(rt; own[0] == DType::Primitive(PType::U8, Nullability::NonNullable));
    assert!(rt; own[1] == DType::Bool(Nullability::NonNullable));
}

#[test]
fn columns_by_place(rt: HostRuntime) {
    let records = two_records(rt.alloc(), Validity::AllInvalid).expect(&rt, "made");
    let Some(first) = records.unmasked_field_opt(0) else {
        panic!(rt; "no column");
    };
    assert!(rt; has_numbers_or_nulls(first, &[Some(1), Some(2)]));
    assert!(rt; records.unmasked_field_opt(2).is_none());
}

#[test]
fn columns_by_name(rt: HostRuntime) {
    let records = two_records(rt.alloc(), Validity::NonNullable).expect(&rt, "made");
    let named = records.unmasked_field_by_name("a").expect(&rt, "made");
    assert!(rt; has_numbers_or_nulls(named, &[Some(1), Some(2)]));
    let refused = records.unmasked_field_by_name("z");
    assert!(rt; matches!(refused, Err(VortexError::UnknownField)));
    assert!(rt; records.unmasked_field_by_name_opt("b").is_some());
    assert!(rt; records.unmasked_field_by_name_opt("z").is_none());
}

#[test]
fn records_that_may_be_null(rt: HostRuntime) {
    let validity = valid_where(rt.alloc(), &[true, false]).expect(&rt, "made");
    let records = two_records(rt.alloc(), validity)
        .expect(&rt, "made")
        .try_clone(rt.alloc())
        .expect(&rt, "made");
    assert_eq!(rt; records.nullability(), Nullability::Nullable);
    assert!(rt;
        !records
            .as_array()
            .is_valid(rt.alloc(), 1)
            .expect(&rt, "made")
    );
    let own = records.struct_validity(rt.alloc()).expect(&rt, "made");
    assert!(rt;
        own.is_valid(rt.alloc(), 0).expect(&rt, "made")
            && !own.is_valid(rt.alloc(), 1).expect(&rt, "made")
    );
}

#[test]
fn records_of_no_columns(rt: HostRuntime) {
    let records = StructArray::new_fieldless_with_len(rt.alloc(), 3).expect(&rt, "made");
    assert!(rt; records.len() == 3 && records.fields().is_empty());
    assert!(rt;
        records
            .as_array()
            .is_valid(rt.alloc(), 2)
            .expect(&rt, "made")
    );
    assert!(rt; matches!(records.dtype(), DType::Struct(_, Nullability::NonNullable)));
}

#[test]
fn slots_of_records(rt: HostRuntime) {
    let slots = two_records(rt.alloc(), Validity::AllValid)
        .expect(&rt, "made")
        .slots(rt.alloc())
        .expect(&rt, "made");
    assert!(rt; slots.fields.len() == 2 && slots.validity.is_none());
    assert!(rt; has_numbers_or_nulls(&slots.fields[0], &[Some(1), Some(2)]));
}

#[test]
fn the_slot_of_null_records(rt: HostRuntime) {
    let records = two_records(rt.alloc(), Validity::AllInvalid).expect(&rt, "made");
    let StructSlots { validity, .. } = records.slots(rt.alloc()).expect(&rt, "made");
    let Some(slot) = validity else {
        panic!(rt; "another layout");
    };
    assert!(rt;
        slot.len() == 2
            && !slot
                .execute_scalar(rt.alloc(), 1)
                .expect(&rt, "made")
                .as_bool()
    );
}

#[test]
fn parts_of_records(rt: HostRuntime) {
    let records = two_records(rt.alloc(), Validity::AllValid).expect(&rt, "made");
    let StructDataParts {
        struct_fields,
        fields,
        validity,
    } = records.into_data_parts(rt.alloc()).expect(&rt, "made");
    assert_eq!(rt; struct_fields.find("b"), Some(1));
    assert!(rt; fields.len() == 2 && has_numbers_or_nulls(&fields[0], &[Some(1), Some(2)]));
    assert!(rt; matches!(validity, Validity::AllValid));
}

#[test]
fn records_come_back(rt: HostRuntime) {
    let array = two_records(rt.alloc(), Validity::NonNullable)
        .expect(&rt, "made")
        .into_array();
    assert!(rt; StructArray::try_from_array(array).is_ok());
    assert!(rt;
        StructArray::try_from_array(ints::<u8>(rt.alloc(), &[1]).expect(&rt, "made")).is_err()
    );
}
