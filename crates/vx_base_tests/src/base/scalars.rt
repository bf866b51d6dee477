// Data types of records, and scalars of each data type.

use std::alloc::Global;
use std::rc::Rc;
use vx_base::{
    ByteBuffer, DType, FieldName, FieldNames, Nullability, PType, Scalar, ScalarValue,
    ScalarValues, StructFields, VortexError,
};

// A record of a text `name` and a nullable 16-bit `size`.
pub(crate) fn parcel(alloc: Global) -> Result<DType, VortexError> {
    let names = FieldNames::try_new(alloc, &["name", "size"])?;
    let mut dtypes = Vec::new(alloc);
    dtypes.push(DType::Utf8(Nullability::NonNullable))?;
    dtypes.push(DType::Primitive(PType::I16, Nullability::Nullable))?;
    let dtypes = Rc::new(alloc, dtypes)?;
    if names.len() != dtypes.len() {
        return Err(VortexError::MismatchedTypes);
    }
    Ok(DType::new_struct(StructFields::new(names, dtypes), Nullability::NonNullable))
}

// The value of a parcel.
pub(crate) fn parcel_value(
    alloc: Global,
    name: &str,
    size: i128,
) -> Result<ScalarValue, VortexError> {
    let mut values = Vec::new(alloc);
    values.push(Some(ScalarValue::Text(ByteBuffer::copy_from(alloc, name.as_bytes())?)))?;
    values.push(Some(ScalarValue::Int(size)))?;
    Ok(ScalarValue::Record(ScalarValues::from_vec(alloc, values)?))
}

#[test]
fn names_of_fields(rt: HostRuntime) -> Result<(), VortexError> {
    let names = FieldNames::try_new(rt.alloc(), &["name", "größe"])?;
    let same = names.try_clone(rt.alloc())?;
    if same.len() != 2 {
        return Err(VortexError::OutOfBounds {
            index: 2,
            len: same.len(),
        });
    }
    assert!(rt; same.get(1).as_str() == "größe" && same.get(0).as_str() == "name");
    Ok(())
}

// Whether the names are these texts, in order.
fn are_texts(names: &FieldNames, texts: &[&str]) -> bool {
    if names.len() != texts.len() {
        return false;
    }
    for i in 0..names.len() {
        if names.get(i).as_str() != texts[i] {
            return false;
        }
    }
    true
}

#[test]
fn names_of_a_record_and_one_more(rt: HostRuntime) -> Result<(), VortexError> {
    let names = FieldNames::try_new(rt.alloc(), &["name", "größe"])?;
    let mut more = Vec::new(rt.alloc());
    for i in 0..names.len() {
        more.push(names.get(i).try_clone(rt.alloc())?)?;
    }
    more.push(FieldName::try_new(rt.alloc(), "name")?)?;
    let more = FieldNames::from_names(rt.alloc(), more)?;
    assert!(rt; are_texts(&more, &["name", "größe", "name"]));
    assert!(rt; are_texts(&names, &["name", "größe"]));
    Ok(())
}

#[test]
fn names_of_no_field(rt: HostRuntime) -> Result<(), VortexError> {
    let none = FieldNames::from_names(rt.alloc(), Vec::new(rt.alloc()))?;
    assert!(rt; none.len() == 0 && none.find("").is_none());
    Ok(())
}

// Whether the names `a`, `b` and `a` without the one at a place are these texts.
fn is_without(alloc: Global, place: usize, texts: &[&str]) -> Result<bool, VortexError> {
    let names = FieldNames::try_new(alloc, &["a", "b", "a"])?;
    if place >= names.len() {
        return Ok(false);
    }
    let rest = names.without(alloc, place)?;
    Ok(are_texts(&rest, texts))
}

#[test]
fn names_without_one(rt: HostRuntime) -> Result<(), VortexError> {
    assert!(rt; is_without(rt.alloc(), 0, &["b", "a"])?);
    assert!(rt; is_without(rt.alloc(), 1, &["a", "a"])?);
    assert!(rt; is_without(rt.alloc(), 2, &["a", "b"])?);
    Ok(())
}

#[test]
fn names_without_the_only_one(rt: HostRuntime) -> Result<(), VortexError> {
    let names = FieldNames::try_new(rt.alloc(), &["größe"])?;
    if names.len() == 0 {
        return Err(VortexError::EmptyInput);
    }
    let rest = names.without(rt.alloc(), 0)?;
    assert!(rt; rest.len() == 0 && rest.find("größe").is_none());
    assert!(rt; are_texts(&names, &["größe"]));
    Ok(())
}

#[test]
fn data_types_are_equal(rt: HostRuntime) {
    let first = parcel(rt.alloc()).expect(&rt, "made");
    let second = parcel(rt.alloc()).expect(&rt, "made");
    assert!(rt; first == second);
    assert!(rt; first != second.with_nullability(Nullability::Nullable));
    assert!(rt; DType::Utf8(Nullability::Nullable) != DType::Binary(Nullability::Nullable));
}

// A parcel named `crate` of that size.
fn parcel_of(alloc: Global, size: i128) -> Result<Scalar, VortexError> {
    let value = parcel_value(alloc, "crate", size)?;
    Scalar::try_new(parcel(alloc)?, Some(value))
}

#[test]
fn records_fit(rt: HostRuntime) {
    let scalar = parcel_of(rt.alloc(), -3).expect(&rt, "made");
    assert!(rt; !scalar.is_null() && scalar.try_clone(rt.alloc()).expect(&rt, "made").is_valid());
}

#[test]
fn records_of_a_number_past_its_type_do_not_fit(rt: HostRuntime) {
    let refused = parcel_of(rt.alloc(), 32768).err();
    assert!(rt; refused == Some(VortexError::MismatchedTypes));
}

#[test]
fn texts_fit(rt: HostRuntime) {
    let dtype = DType::Utf8(Nullability::NonNullable);
    let broken = ByteBuffer::copy_from(rt.alloc(), &[0x6f, 0xff]).expect(&rt, "made");
    let refused = Scalar::try_new(dtype, Some(ScalarValue::Text(broken))).err();
    assert!(rt; refused == Some(VortexError::MismatchedTypes));
    let null = Scalar::try_new(DType::Utf8(Nullability::NonNullable), None).err();
    assert!(rt; null == Some(VortexError::MismatchedTypes));
}

#[test]
fn numbers_and_truths(rt: HostRuntime) {
    let number = Scalar::int(-7, PType::I16, Nullability::Nullable);
    assert!(rt; number.as_int() == Some(-7) && !number.as_bool());
    let truth = Scalar::bool(true, Nullability::NonNullable);
    assert!(rt; truth.as_bool() && truth.as_int().is_none() && truth.dtype().is_plain_bool());
}

#[test]
fn values_that_are_known_to_fit(rt: HostRuntime) {
    let number = ScalarValue::Int(-32768);
    let dtype = DType::Primitive(PType::I16, Nullability::NonNullable);
    assert_eq!(rt; Scalar::new(dtype, Some(number)).as_int(), Some(-32768));
    let null = Scalar::new(DType::Utf8(Nullability::Nullable), None);
    assert!(rt; null.is_null() && null.dtype().is_nullable());
}

// The default of pairs of numbers.
fn default_pair(alloc: Global) -> Result<Scalar, VortexError> {
    let items = Rc::new(alloc, DType::Primitive(PType::U8, Nullability::NonNullable))?;
    Scalar::default_value(
        alloc,
        DType::FixedSizeList(items, 2, Nullability::NonNullable),
    )
}

#[test]
fn defaults(rt: HostRuntime) -> Result<(), VortexError> {
    let scalar = default_pair(rt.alloc())?;
    let Some(ScalarValue::List(rows)) = scalar.value() else {
        return Err(VortexError::MismatchedTypes);
    };
    assert!(rt; rows.as_slice().len() == 2);
    assert!(rt; matches!(rows.as_slice().last(), Some(Some(ScalarValue::Int(0)))));
    Ok(())
}

#[test]
fn default_of_what_may_be_null(rt: HostRuntime) {
    let null = Scalar::default_value(rt.alloc(), DType::Binary(Nullability::Nullable)).expect(
        &rt, "made",
    );
    assert!(rt; null.is_null());
}

#[test]
fn default_of_records(rt: HostRuntime) -> Result<(), VortexError> {
    let scalar = Scalar::default_value(rt.alloc(), parcel(rt.alloc())?)?;
    let Some(ScalarValue::Record(fields)) = scalar.value() else {
        return Err(VortexError::MismatchedTypes);
    };
    let Some(Some(ScalarValue::Text(name))) = fields.as_slice().first() else {
        return Err(VortexError::MismatchedTypes);
    };
    assert!(rt; name.as_slice().is_empty());
    assert!(rt; fields.as_slice().len() == 2);
    assert!(rt; matches!(fields.as_slice().last(), Some(None)));
    Ok(())
}
