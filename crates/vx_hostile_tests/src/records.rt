// Records of no rows, of which rows are taken.

use std::alloc::Global;
use std::test::Fail;
use vx_base::{Buffer, DType, Nullability, PType, VortexError};
use vx_structs::{StructArray, StructArrayExt};
use vx_test_help::ints;
use vx_tree::{ArrayRef, TypedArray, Validity};

// The one index null, at which a number is stored that no array has.
fn null_index(alloc: Global) -> Result<ArrayRef, VortexError> {
    let bytes = Buffer::copy_from(alloc, &[200u8])?.into_byte_buffer(alloc)?;
    ArrayRef::primitive(alloc, PType::U8, bytes, Validity::AllInvalid)
}

// No records, of one column of numbers.
fn no_records(alloc: Global) -> Result<StructArray, VortexError> {
    let fields = vec![in alloc; ("a", ints::<u8>(alloc, &[])?)]?;
    StructArray::from_fields(alloc, &fields)
}

#[test]
fn a_null_record_of_no_records(rt: HostRuntime) {
    let taken = no_records(rt.alloc())
        .expect(&rt, "made")
        .into_array()
        .take(rt.alloc(), &null_index(rt.alloc()).expect(&rt, "made"))
        .expect(&rt, "made");
    assert!(rt; taken.len() == 1 && taken.dtype().is_nullable());
    assert!(rt; !taken.is_valid(rt.alloc(), 0).expect(&rt, "made"));
}

#[test]
fn the_column_stays_without_nulls(rt: HostRuntime) -> Result<(), Fail> {
    let taken = no_records(rt.alloc())?
        .as_array()
        .take(rt.alloc(), &null_index(rt.alloc())?)?;
    let Ok(records) = StructArray::try_from_array(taken) else {
        return Err(VortexError::MismatchedTypes.into());
    };
    let column = records.unmasked_field_by_name("a")?;
    assert!(rt; column.len() == 1);
    assert!(rt; *column.dtype() == DType::Primitive(PType::U8, Nullability::NonNullable));
    let DType::Struct(fields, Nullability::Nullable) = records.dtype() else {
        return Err(VortexError::MismatchedTypes.into());
    };
    let own = fields.fields();
    assert!(rt; own.len() == 1 && !own[0].is_nullable());
    Ok(())
}
