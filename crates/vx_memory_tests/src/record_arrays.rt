// Records.

ghost use Rattle.std.specs.Prelude.{◌≡◌};
ghost use Rattle.vx_tree.specs.Meaning.{tree_len};

use crate::rows::has_rows;
use crate::samples::{first_and_last, numbers, records};
use crate::typed::{is_same, typed};
use std::alloc::Global;
use vx_base::{FieldNames, VortexError};
use vx_memory_help::{Compare, End, are_alike, deep, judged, one_name};
use vx_structs::{StructArray, StructArrayExt};
use vx_test_help::one_column;
use vx_tree::{ArrayRef, TypedArray, Validity};

// Records of numbers `a` and truth values `b`, the second null.
fn given(alloc: Global) -> Result<StructArray, VortexError> {
    typed(records(alloc)?)
}

// Three records of one column, which is asked to have three rows.
fn asked(alloc: Global, column: ArrayRef) -> Result<StructArray, VortexError>
    requires { tree_len column ≡ 3 }
{
    let names = FieldNames::try_new(alloc, &["a"])?;
    let columns = one_column(alloc, column)?;
    StructArray::new(alloc, names, columns.into_iter(), 3, Validity::AllValid)
}

// Records of numbers `a`, tested.
fn tested(alloc: Global) -> Result<StructArray, VortexError> {
    let names = FieldNames::try_new(alloc, &["a"])?;
    let columns = one_column(alloc, numbers(alloc)?)?.into_iter();
    StructArray::try_new(alloc, names, columns, 3, Validity::AllValid)
}

// `StructArray::new`.
fn made(alloc: Global, records: &StructArray) -> Result<bool, VortexError> {
    let column = numbers(alloc)?;
    if column.len() != 3 {
        return Ok(false);
    }
    let made = asked(alloc, column)?;
    Ok(is_same(&made, records))
}

// `StructArray::try_new`.
fn made_tested(alloc: Global, records: &StructArray) -> Result<bool, VortexError> {
    let made = tested(alloc)?;
    Ok(is_same(&made, records))
}

// `StructArray::try_new_with_dtype`.
fn typed_alike(alloc: Global, records: &StructArray) -> Result<bool, VortexError> {
    let fields = records.struct_fields().try_clone(alloc)?;
    let columns = one_column(alloc, numbers(alloc)?)?.into_iter();
    let valid = Validity::AllValid;
    let made = StructArray::try_new_with_dtype(alloc, columns, fields, 3, valid)?;
    Ok(is_same(&made, records))
}

// The calls that make records.
fn made_calls(alloc: Global, records: &StructArray) -> Result<bool, VortexError> {
    Ok(made(alloc, records)? && made_tested(alloc, records)? && typed_alike(alloc, records)?)
}

#[test]
fn records_that_are_made(rt: HostRuntime) -> Result<(), End> {
    let (array, copy) = (tested(rt.alloc())?, tested(rt.alloc())?);
    judged(made_calls(rt.alloc(), &array), is_same(&array, &copy))
}

// `StructArray::new_fieldless_with_len`.
fn fieldless(alloc: Global) -> Result<bool, VortexError> {
    let empty = StructArray::new_fieldless_with_len(alloc, 3)?;
    Ok(empty.len() == 3)
}

// One column under a name.
fn named(alloc: Global) -> Result<Vec<(&'static str, ArrayRef)>, VortexError> {
    let mut fields = Vec::with_capacity(alloc, 1)?;
    fields.push(("a", numbers(alloc)?))?;
    Ok(fields)
}

// `StructArray::from_fields` and `StructArray::try_from_iter`.
fn of_fields(alloc: Global) -> Result<bool, VortexError> {
    let fields = named(alloc)?;
    let listed = StructArray::from_fields(alloc, &fields)?;
    let items = StructArray::try_from_iter(alloc, fields.into_iter())?;
    Ok(is_same(&listed, &items))
}

// `StructArray::try_from_iter_with_validity`.
fn of_fields_and_validity(alloc: Global) -> Result<bool, VortexError> {
    let fields = named(alloc)?.into_iter();
    let valid = first_and_last(alloc)?;
    let made = StructArray::try_from_iter_with_validity(alloc, fields, valid)?;
    Ok(made.len() == 3 && !made.as_array().is_valid(alloc, 1)?)
}

// The calls that make records of fields.
fn field_calls(alloc: Global) -> Result<bool, VortexError> {
    Ok(fieldless(alloc)? && of_fields(alloc)? && of_fields_and_validity(alloc)?)
}

#[test]
fn records_of_fields(rt: HostRuntime) -> Result<(), End> {
    judged(field_calls(rt.alloc()), true)
}

// `StructArray::project`.
fn projected(alloc: Global, records: &StructArray) -> Result<bool, VortexError> {
    let names = one_name(alloc, "b")?;
    let chosen = records.project(alloc, &names)?;
    Ok(chosen.fields().len() == 1)
}

// `StructArray::with_column`.
fn widened(alloc: Global, records: &StructArray) -> Result<bool, VortexError> {
    let column = numbers(alloc)?;
    let wider = records.with_column(alloc, "c", column)?;
    Ok(wider.fields().len() == 3)
}

// `StructArray::remove_column`.
fn removed(alloc: Global, records: &StructArray) -> Result<bool, VortexError> {
    let Some((rest, column)) = records.remove_column(alloc, "b")? else {
        return Ok(false);
    };
    Ok(rest.fields().len() == 1 && deep().is_alike(&column, records.unmasked_field_by_name("b")?))
}

// `StructArray::remove_column_owned`.
fn removed_owned(alloc: Global, records: &StructArray) -> Result<bool, VortexError> {
    let Some((rest, column)) = records.remove_column_owned(alloc, "b")? else {
        return Ok(false);
    };
    Ok(rest.fields().len() == 1 && deep().is_alike(&column, records.unmasked_field_by_name("b")?))
}

// `StructArray::try_concat`.
fn joined(alloc: Global, records: &StructArray) -> Result<bool, VortexError> {
    let chunks = [records, records];
    let both = StructArray::try_concat(alloc, chunks.iter().copied())?;
    let places = [Some(0), Some(1), Some(2), Some(0), Some(1), Some(2)];
    has_rows(alloc, both.as_array(), records.as_array(), &places)
}

// `StructArray::push_validity_into_children`.
fn pushed(alloc: Global, records: &StructArray) -> Result<bool, VortexError> {
    let pushed = records.push_validity_into_children(alloc, false)?;
    let places = [Some(0), Some(1), Some(2)];
    Ok(
        has_rows(alloc, pushed.as_array(), records.as_array(), &places)?
            && !pushed.unmasked_field_by_name("b")?.is_valid(alloc, 1)?,
    )
}

// `StructArray::field`.
fn field_of_records(alloc: Global, records: &StructArray) -> Result<bool, VortexError> {
    let field = records.field(alloc, "b")?;
    Ok(field.is_valid(alloc, 0)? && !field.is_valid(alloc, 1)?)
}

// The calls that change columns.
fn column_calls(alloc: Global, records: &StructArray) -> Result<bool, VortexError> {
    Ok(
        projected(alloc, records)?
            && widened(alloc, records)?
            && removed(alloc, records)?
            && removed_owned(alloc, records)?
            && joined(alloc, records)?
            && pushed(alloc, records)?
            && field_of_records(alloc, records)?,
    )
}

#[test]
fn columns_that_change(rt: HostRuntime) -> Result<(), End> {
    let (array, copy) = (given(rt.alloc())?, given(rt.alloc())?);
    judged(column_calls(rt.alloc(), &array), is_same(&array, &copy))
}

// `StructArrayExt::struct_validity` and `StructArray::slots`.
fn slots(alloc: Global, records: &StructArray) -> Result<bool, VortexError> {
    let validity = records.struct_validity(alloc)?;
    let slots = records.slots(alloc)?;
    Ok(
        matches!(validity, Validity::Array(_))
            && slots.validity.is_some()
            && slots.fields.len() == 2,
    )
}

// `StructArray::into_data_parts`.
fn parts(alloc: Global, records: &StructArray) -> Result<bool, VortexError> {
    let same = records.try_clone(alloc)?;
    let parts = same.into_data_parts(alloc)?;
    Ok(are_alike(&parts.fields, records.fields()))
}

// The calls that take records apart.
fn part_calls(alloc: Global, records: &StructArray) -> Result<bool, VortexError> {
    Ok(slots(alloc, records)? && parts(alloc, records)?)
}

#[test]
fn parts_of_records(rt: HostRuntime) -> Result<(), End> {
    let (array, copy) = (given(rt.alloc())?, given(rt.alloc())?);
    judged(part_calls(rt.alloc(), &array), is_same(&array, &copy))
}
