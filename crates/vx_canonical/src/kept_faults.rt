// Whether what values keep in plain layout can be counted and numbered: this is told before any of it
// is made.

ghost use Rattle.std.specs.Prelude.{◌≡◌, map, count_by};
ghost use Rattle.std.specs.List.{All, flat_map};
ghost use Rattle.vx_base.specs.DTypes.{dtype_meaning, field_kinds, field_names, is_nullable, kinds_of};
ghost use Rattle.vx_base.specs.Kinds.{fixed_lists, lists, records};
ghost use Rattle.vx_base.specs.Refusals.{Refuses, Tests};
ghost use Rattle.vx_base.specs.ValueRows.{option_row};
ghost use Rattle.vx_canonical.specs.PlainValues.{FieldsFitNamed, FitsIfThere};
ghost use Rattle.vx_tree.specs.CanonicalFaults.{buffers_overflow, kept_fault, kept_fields_fault, rows_fault};
ghost use Rattle.vx_tree.specs.RowParts.{is_long_row, items_in};

use crate::canonical_nested::{fields_at, items_of};
use crate::canonical_zeroes::is_countable;
use crate::extents::MAX_BUFFERS;
use std::alloc::Global;
use vx_base::{DType, Nullability, ScalarValue, StructFields, VortexError};
use vx_views::BinaryView;

// Whether values of a data type keep what can be made.
#[cycle(check_kept)]
pub(crate) fn check_kept(
    alloc: Global,
    dtype: &DType,
    values: &[Option<ScalarValue>],
) -> Result<(), VortexError>
    requires { All (FitsIfThere (dtype_meaning dtype.now)) values.now }
    ensures { Refuses result (kept_fault (dtype_meaning dtype.now) (map option_row values.now)) }
{
    match dtype {
        DType::Bool(_) | DType::Primitive(_, _) => Ok(()),
        DType::Utf8(_) | DType::Binary(_) => Ok(check_buffers(values)?),
        DType::List(items, nullability) => check_lists(alloc, items, *nullability, values),
        DType::FixedSizeList(items, size, nullability) => {
            check_fixed_lists(alloc, items, *size, *nullability, values)
        }
        DType::Struct(fields, nullability) => check_records(alloc, fields, *nullability, values),
    }
}

// Whether the items of lists can be counted, and keep what can be made.
#[cycle(check_kept)]
fn check_lists(
    alloc: Global,
    items: &DType,
    nullability: Nullability,
    values: &[Option<ScalarValue>],
) -> Result<(), VortexError>
    requires { All (FitsIfThere (lists (dtype_meaning items.now) (is_nullable nullability))) values.now }
    ensures { Refuses result (rows_fault (dtype_meaning items.now) (flat_map items_in (map option_row values.now))) }
{
    let rows = items_of(alloc, values)?;
    if !is_countable(items, rows.len()) {
        return Err(VortexError::Overflow);
    }
    check_kept(alloc, items, &rows)
}

// Whether the items of lists of one size keep what can be made.
#[cycle(check_kept)]
fn check_fixed_lists(
    alloc: Global,
    items: &DType,
    size: u32,
    nullability: Nullability,
    values: &[Option<ScalarValue>],
) -> Result<(), VortexError>
    requires { All (FitsIfThere (fixed_lists (dtype_meaning items.now) size (is_nullable nullability))) values.now }
    ensures { Refuses result (kept_fault (dtype_meaning items.now) (flat_map items_in (map option_row values.now))) }
{
    let rows = items_of(alloc, values)?;
    check_kept(alloc, items, &rows)
}

// Whether the fields of records keep what can be made.
#[cycle(check_kept)]
fn check_records(
    alloc: Global,
    fields: &StructFields,
    nullability: Nullability,
    values: &[Option<ScalarValue>],
) -> Result<(), VortexError>
    requires { All (FitsIfThere (records (field_names fields.now) (field_kinds fields.now) (is_nullable nullability))) values.now }
    ensures { Refuses result (kept_fields_fault (field_kinds fields.now) 0 (map option_row values.now)) }
{
    check_fields(alloc, fields.fields(), values)
}

// Whether the fields of records, which are of these data types, keep what can be made.
#[cycle(check_kept)]
fn check_fields(
    alloc: Global,
    dtypes: &[DType],
    values: &[Option<ScalarValue>],
) -> Result<(), VortexError>
    requires { FieldsFitNamed dtypes.now (map option_row values.now) }
    ensures { Refuses result (kept_fields_fault (kinds_of dtypes.now) 0 (map option_row values.now)) }
{
    for (place, dtype) in dtypes.iter().enumerate() {
        let rows = fields_at(alloc, values, place)?;
        check_kept(alloc, dtype, &rows)?;
    }
    Ok(())
}

// Whether the buffers of long texts can be numbered.
fn check_buffers(values: &[Option<ScalarValue>]) -> Result<(), VortexError>
    ensures { Tests result (buffers_overflow (count_by is_long_row (map option_row values.now))) }
{
    if count_long(values) > MAX_BUFFERS {
        return Err(VortexError::Overflow);
    }
    Ok(())
}

// How many values take a buffer.
fn count_long(values: &[Option<ScalarValue>]) -> usize
    ensures { result ≡ count_by is_long_row (map option_row values.now) }
{
    let mut count = 0;
    for value in values {
        count += usize::from(is_long(value));
    }
    count
}

// Whether a value is a text or a list of bytes that takes a buffer.
fn is_long(value: &Option<ScalarValue>) -> bool
    ensures { result ≡ is_long_row (option_row value.now) }
{
    match value {
        Some(ScalarValue::Text(bytes)) => bytes.len() > BinaryView::MAX_INLINED_SIZE,
        Some(ScalarValue::Bytes(bytes)) => bytes.len() > BinaryView::MAX_INLINED_SIZE,
        _ => false,
    }
}
