// Data types, names and single rows.

use std::alloc::Global;
use std::rc::Rc;
use vx_base::{
    ByteBuffer, DType, FieldName, FieldNames, Nullability, PType, Scalar, ScalarValue,
    ScalarValues, StructFields, VortexError,
};
use vx_memory_help::{Compare, End, deep, judged};

// Records of the fields `a` of numbers, `b` of texts and `a` of bytes.
fn records(alloc: Global) -> Result<DType, VortexError> {
    let plain = Nullability::NonNullable;
    let names = FieldNames::try_new(alloc, &["a", "b", "a"])?;
    let dtypes = vec![in alloc;
        DType::Primitive(PType::I16, Nullability::Nullable),
        DType::Utf8(plain),
        DType::Binary(plain),
    ]?;
    let fields = StructFields::new(names, Rc::new(alloc, dtypes)?);
    Ok(DType::new_struct(fields, plain))
}

// Lists of these records.
fn lists_of_records(alloc: Global) -> Result<DType, VortexError> {
    Ok(DType::List(Rc::new(alloc, records(alloc)?)?, Nullability::Nullable))
}

// `DType::try_clone`.
fn cloned(alloc: Global, dtype: &DType) -> Result<bool, VortexError> {
    Ok(dtype.try_clone(alloc)? == *dtype)
}

#[test]
fn data_types(rt: HostRuntime) -> Result<(), End> {
    let (dtype, copy) = (lists_of_records(rt.alloc())?, lists_of_records(rt.alloc())?);
    judged(cloned(rt.alloc(), &dtype), dtype == copy)
}

// `StructFields::try_clone` and `StructFields::without_field`.
fn of_fields(alloc: Global, dtype: &DType) -> Result<bool, VortexError> {
    let DType::Struct(fields, _) = dtype else {
        return Ok(false);
    };
    if fields.names().len() != 3 {
        return Ok(false);
    }
    let rest = fields.without_field(alloc, 0)?;
    let all = fields.try_clone(alloc)?;
    Ok(
        rest.find("b") == Some(0)
            && rest.find("a") == Some(1)
            && DType::new_struct(all, Nullability::NonNullable) == *dtype,
    )
}

#[test]
fn fields(rt: HostRuntime) -> Result<(), End> {
    let (dtype, copy) = (records(rt.alloc())?, records(rt.alloc())?);
    judged(of_fields(rt.alloc(), &dtype), dtype == copy)
}

// Two names.
fn two_names(alloc: Global) -> Result<FieldNames, VortexError> {
    FieldNames::try_new(alloc, &["name", "größe"])
}

// Whether they are those.
fn are_two(names: &FieldNames) -> bool {
    names.len() == 2 && names.find("name") == Some(0) && names.find("größe") == Some(1)
}

// `FieldNames::try_new` and `FieldNames::try_clone`.
fn named(alloc: Global, names: &FieldNames) -> Result<bool, VortexError> {
    let made = FieldNames::try_new(alloc, &["name", "größe"])?;
    let all = names.try_clone(alloc)?;
    Ok(are_two(&made) && are_two(&all))
}

#[test]
fn names(rt: HostRuntime) -> Result<(), End> {
    let names = two_names(rt.alloc())?;
    judged(named(rt.alloc(), &names), are_two(&names))
}

// `FieldNames::from_names`.
fn of_names(alloc: Global, names: &FieldNames) -> Result<bool, VortexError> {
    let mut more = Vec::with_capacity(alloc, 3)?;
    for i in 0..names.len() {
        more.push(names.get(i).try_clone(alloc)?)?;
    }
    more.push(FieldName::try_new(alloc, "id")?)?;
    let more = FieldNames::from_names(alloc, more)?;
    Ok(more.len() == 3 && more.find("größe") == Some(1) && more.find("id") == Some(2))
}

// `FieldNames::without`.
fn of_fewer_names(alloc: Global, names: &FieldNames) -> Result<bool, VortexError> {
    if names.len() == 0 {
        return Ok(false);
    }
    let rest = names.without(alloc, 0)?;
    Ok(rest.len() == 1 && rest.find("größe") == Some(0))
}

#[test]
fn shared_names(rt: HostRuntime) -> Result<(), End> {
    let names = two_names(rt.alloc())?;
    judged(of_names(rt.alloc(), &names), are_two(&names))
}

#[test]
fn fewer_names(rt: HostRuntime) -> Result<(), End> {
    let names = two_names(rt.alloc())?;
    judged(of_fewer_names(rt.alloc(), &names), are_two(&names))
}

// `FieldName::try_new` and `FieldName::try_clone`.
fn of_one_name(alloc: Global, name: &FieldName) -> Result<bool, VortexError> {
    let made = FieldName::try_new(alloc, "größe")?;
    Ok(name.try_clone(alloc)? == made)
}

#[test]
fn a_name(rt: HostRuntime) -> Result<(), End> {
    let name = FieldName::try_new(rt.alloc(), "größe")?;
    judged(of_one_name(rt.alloc(), &name), name.as_str() == "größe")
}

// The record of a text and a number.
fn record(alloc: Global) -> Result<ScalarValue, VortexError> {
    let text = ScalarValue::Text(ByteBuffer::copy_from(alloc, b"text")?);
    let values = vec![in alloc; Some(text), Some(ScalarValue::Int(-3))]?;
    Ok(ScalarValue::Record(ScalarValues::from_vec(alloc, values)?))
}

// A list of that record.
fn list_of_record(alloc: Global) -> Result<Option<ScalarValue>, VortexError> {
    let values = vec![in alloc; Some(record(alloc)?), None]?;
    Ok(Some(ScalarValue::List(ScalarValues::from_vec(alloc, values)?)))
}

// `ScalarValues::from_vec`, `ScalarValues::try_clone` and `ScalarValue::try_clone`.
fn rows(alloc: Global, given: &Option<ScalarValue>) -> Result<bool, VortexError> {
    let Some(value) = given else {
        return Ok(false);
    };
    let ScalarValue::List(values) = value else {
        return Ok(false);
    };
    let list = Some(ScalarValue::List(values.try_clone(alloc)?));
    let all = Some(value.try_clone(alloc)?);
    let made = list_of_record(alloc)?;
    Ok(
        deep().is_same_row(&list, given)
            && deep().is_same_row(&all, given)
            && deep().is_same_row(&made, given),
    )
}

#[test]
fn single_rows(rt: HostRuntime) -> Result<(), End> {
    let (given, copy) = (list_of_record(rt.alloc())?, list_of_record(rt.alloc())?);
    judged(rows(rt.alloc(), &given), deep().is_same_row(&given, &copy))
}

// The row of a text.
fn text(alloc: Global) -> Result<Scalar, VortexError> {
    let value = ScalarValue::Text(ByteBuffer::copy_from(alloc, b"text")?);
    Scalar::try_new(DType::Utf8(Nullability::Nullable), Some(value))
}

// `Scalar::try_clone`.
fn row_cloned(alloc: Global, row: &Scalar) -> Result<bool, VortexError> {
    let same = row.try_clone(alloc)?;
    Ok(same.dtype() == row.dtype() && deep().is_same_row(same.value(), row.value()))
}

#[test]
fn rows_with_data_types(rt: HostRuntime) -> Result<(), End> {
    let (row, copy) = (text(rt.alloc())?, text(rt.alloc())?);
    let answer = row_cloned(rt.alloc(), &row);
    judged(answer, deep().is_same_row(row.value(), copy.value()))
}

// `Scalar::default_value`.
fn defaults(alloc: Global) -> Result<bool, VortexError> {
    let plain = Nullability::NonNullable;
    let items = Rc::new(alloc, DType::Primitive(PType::U8, plain))?;
    let pair = Scalar::default_value(alloc, DType::FixedSizeList(items, 2, plain))?;
    let zero = Scalar::default_value(alloc, DType::Primitive(PType::U8, plain))?;
    let Some(ScalarValue::List(rows)) = pair.value() else {
        return Ok(false);
    };
    Ok(rows.as_slice().len() == 2 && zero.as_int() == Some(0))
}

#[test]
fn default_rows(rt: HostRuntime) -> Result<(), End> {
    judged(defaults(rt.alloc()), true)
}
