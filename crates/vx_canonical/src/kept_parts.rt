// What values keep in plain layout however often they stand: no row, but the elements of their
// lists and the buffers of their texts.

ghost use Rattle.std.specs.Prelude.{◌≡◌, map, IfOk};
ghost use Rattle.std.specs.List.{All, flat_map};
ghost use Rattle.vx_base.specs.DTypes.{dtype_meaning, field_kinds, field_names, is_nullable, kinds_of};
ghost use Rattle.vx_base.specs.Kinds.{fixed_lists, records};
ghost use Rattle.vx_base.specs.Refusals.{Gives, Refuses};
ghost use Rattle.vx_base.specs.ValueRows.{option_row};
ghost use Rattle.vx_canonical.specs.Canonical.{AreKeptFields, IsBlankPart};
ghost use Rattle.vx_tree.specs.Extents.{rows_extent};
ghost use Rattle.vx_canonical.specs.PlainValues.{FieldsFitNamed, FitsIfThere};
ghost use Rattle.vx_tree.specs.CanonicalFaults.{kept_fault, kept_fields_fault, rows_fault};

use crate::canonical_nested::{fields_at, items_of, plain_values};
use crate::canonical_zeroes::{blank_part, missing_validity};
use std::alloc::Global;
use vx_base::{DType, Nullability, ScalarValue, StructFields, VortexError};
use vx_tree::ArrayRef;

// What values of a data type keep.
#[cycle(kept_parts)]
pub(crate) fn kept_parts(
    alloc: Global,
    dtype: &DType,
    values: &[Option<ScalarValue>],
) -> Result<ArrayRef, VortexError>
    requires { All (FitsIfThere (dtype_meaning dtype.now)) values.now }
    ensures made { IfOk result (IsBlankPart (dtype_meaning dtype.now) (rows_extent (dtype_meaning dtype.now) (map option_row values.now)) 0) }
    ensures refuses { Refuses result (kept_fault (dtype_meaning dtype.now) (map option_row values.now)) }
{
    match dtype {
        DType::Bool(_) | DType::Primitive(_, _) | DType::Utf8(_) | DType::Binary(_) => {
            kept_by_rows(alloc, dtype, values)
        }
        DType::List(_, _) => kept_by_rows(alloc, dtype, values),
        DType::FixedSizeList(items, size, nullability) => {
            kept_by_fixed_lists(alloc, items, *size, *nullability, values)
        }
        DType::Struct(fields, nullability) => kept_by_records(alloc, fields, *nullability, values),
    }
}

// What values keep whose rows need no other elements and buffers.
#[tactic(auto, using(crate::proofs::KeptParts::kept_rows))]
fn kept_by_rows(
    alloc: Global,
    dtype: &DType,
    values: &[Option<ScalarValue>],
) -> Result<ArrayRef, VortexError>
    requires { All (FitsIfThere (dtype_meaning dtype.now)) values.now }
    ensures made { IfOk result (IsBlankPart (dtype_meaning dtype.now) (rows_extent (dtype_meaning dtype.now) (map option_row values.now)) 0) }
    ensures refuses { Refuses result (rows_fault (dtype_meaning dtype.now) (map option_row values.now)) }
{
    let rows = plain_values(alloc, dtype, values)?;
    Ok(blank_part(alloc, &rows, 0)?)
}

// What lists of one size keep: what their items keep.
#[cycle(kept_parts)]
fn kept_by_fixed_lists(
    alloc: Global,
    items: &DType,
    size: u32,
    nullability: Nullability,
    values: &[Option<ScalarValue>],
) -> Result<ArrayRef, VortexError>
    requires { All (FitsIfThere (fixed_lists (dtype_meaning items.now) size (is_nullable nullability))) values.now }
    ensures made { IfOk result (IsBlankPart (fixed_lists (dtype_meaning items.now) size (is_nullable nullability))
        (rows_extent (fixed_lists (dtype_meaning items.now) size (is_nullable nullability)) (map option_row values.now)) 0) }
    ensures refuses { Refuses result (kept_fault
        (fixed_lists (dtype_meaning items.now) size (is_nullable nullability)) (map option_row values.now)) }
{
    let rows = items_of(alloc, values)?;
    let elements = kept_parts(alloc, items, &rows)?;
    let validity = missing_validity(nullability);
    Ok(ArrayRef::fixed_size_list(alloc, elements, size, validity, 0)?)
}

// What records keep: what their fields keep.
#[cycle(kept_parts)]
fn kept_by_records(
    alloc: Global,
    fields: &StructFields,
    nullability: Nullability,
    values: &[Option<ScalarValue>],
) -> Result<ArrayRef, VortexError>
    requires { All (FitsIfThere (records (field_names fields.now) (field_kinds fields.now) (is_nullable nullability))) values.now }
    ensures made { IfOk result (IsBlankPart (records (field_names fields.now) (field_kinds fields.now) (is_nullable nullability))
        (rows_extent (records (field_names fields.now) (field_kinds fields.now) (is_nullable nullability)) (map option_row values.now)) 0) }
    ensures refuses { Refuses result (kept_fields_fault (field_kinds fields.now) 0 (map option_row values.now)) }
{
    let columns = kept_by_fields(alloc, fields.fields(), values)?;
    let names = fields.names().try_clone(alloc)?;
    let validity = missing_validity(nullability);
    Ok(ArrayRef::structure(alloc, names, columns, validity, 0)?)
}

// What the fields of records keep, each of its data type.
#[cycle(kept_parts)]
fn kept_by_fields(
    alloc: Global,
    dtypes: &[DType],
    values: &[Option<ScalarValue>],
) -> Result<Vec<ArrayRef>, VortexError>
    requires { FieldsFitNamed dtypes.now (map option_row values.now) }
    ensures made { IfOk result (λ cs. AreKeptFields 0 dtypes.now (map option_row values.now) cs.items) }
    ensures refuses { Refuses result (kept_fields_fault (kinds_of dtypes.now) 0 (map option_row values.now)) }
{
    let mut columns = Vec::with_capacity(alloc, dtypes.len())?;
    for (place, dtype) in dtypes.iter().enumerate() {
        let rows = fields_at(alloc, values, place)?;
        columns.push(kept_parts(alloc, dtype, &rows)?)?;
    }
    Ok(columns)
}
