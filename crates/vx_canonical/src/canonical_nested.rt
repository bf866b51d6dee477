// Values that are lists or records, one a row, in plain layout: one recursion through data types.

ghost use Rattle.std.specs.Prelude.{◌≡◌, ◌<◌, ◌*◌, ◌++◌, [], ◌∷◌, None, length, map, is_some, replicate, slice_index_or, IfOk};
ghost use Rattle.std.specs.List.{All, filter, flat_map};
ghost use Rattle.vx_base.specs.DTypes.{dtype_meaning, field_kinds, field_names, is_nullable, kinds_of};
ghost use Rattle.vx_base.specs.Kinds.{fixed_lists, lists, records};
ghost use Rattle.vx_base.specs.Refusals.{Gives, Refuses};
ghost use Rattle.vx_base.specs.Rows.{null};
ghost use Rattle.vx_base.specs.ValueRows.{option_row};
ghost use Rattle.vx_tree.specs.RowParts.{field_in, items_in, items_or_nulls};
ghost use Rattle.vx_tree.specs.CanonicalFaults.{plain_overflow};
ghost use Rattle.vx_canonical.specs.PlainValues.{AreGathered, ArePlainFields, ArePlainValues, AreSpread, FieldsFitNamed, FitsIfThere};
ghost use Rattle.vx_tree.specs.CanonicalFaults.{fields_fault, rows_fault};

use crate::canonical_values::{plain_numbers, plain_texts, plain_truths, validity_of_values};
use crate::canonical_zeroes::{is_countable, missing_rows};
use crate::layouts::list_view::counts_array;
use std::alloc::Global;
use vx_base::{DType, Nullability, ScalarValue, Selection, StructFields, VortexError};
use vx_tree::ArrayRef;

// Values of a data type.
#[cycle(plain_values)]
pub(crate) fn plain_values(
    alloc: Global,
    dtype: &DType,
    values: &[Option<ScalarValue>],
) -> Result<ArrayRef, VortexError>
    requires { All (FitsIfThere (dtype_meaning dtype.now)) values.now }
    ensures made { IfOk result (ArePlainValues (dtype_meaning dtype.now) values.now) }
    ensures refuses { Refuses result (rows_fault (dtype_meaning dtype.now) (map option_row values.now)) }
{
    match dtype {
        DType::Bool(_) => Ok(plain_truths(alloc, dtype, values)?),
        DType::Primitive(_, _) => Ok(plain_numbers(alloc, dtype, values)?),
        DType::Utf8(_) | DType::Binary(_) => plain_texts(alloc, dtype, values),
        DType::List(items, nullability) => plain_lists(alloc, items, *nullability, values),
        DType::FixedSizeList(items, size, nullability) => {
            if !is_countable(dtype, values.len()) {
                return Err(VortexError::Overflow);
            }
            plain_fixed_lists(alloc, items, *size, *nullability, values)
        }
        DType::Struct(fields, nullability) => plain_records(alloc, fields, *nullability, values),
    }
}

// Lists: their rows stand once, one list after another.
#[cycle(plain_values)]
fn plain_lists(
    alloc: Global,
    items: &DType,
    nullability: Nullability,
    values: &[Option<ScalarValue>],
) -> Result<ArrayRef, VortexError>
    requires { All (FitsIfThere (lists (dtype_meaning items.now) (is_nullable nullability))) values.now }
    ensures made { IfOk result (ArePlainValues (lists (dtype_meaning items.now) (is_nullable nullability)) values.now) }
    ensures refuses { Refuses result (rows_fault (dtype_meaning items.now) (flat_map items_in (map option_row values.now))) }
{
    let mut places = Vec::with_capacity(alloc, values.len())?;
    let mut sizes = Vec::with_capacity(alloc, values.len())?;
    let rows = spread_lists(alloc, values, &mut places, &mut sizes)?;
    let elements = plain_values(alloc, items, &rows)?;
    let offsets = counts_array(alloc, &places)?;
    let sizes = counts_array(alloc, &sizes)?;
    let validity = validity_of_values(alloc, nullability, values)?;
    Ok(ArrayRef::list_view(alloc, elements, offsets, sizes, validity, false)?)
}

// Lists of one size: a null has so many rows of null. These are made of zeroes where no list is
// there. Where some are, they are made once, and the lists are taken as often as they stand. Asks
// that all elements can be counted.
#[cycle(plain_values)]
fn plain_fixed_lists(
    alloc: Global,
    items: &DType,
    size: u32,
    nullability: Nullability,
    values: &[Option<ScalarValue>],
) -> Result<ArrayRef, VortexError>
    requires fit { All (FitsIfThere (fixed_lists (dtype_meaning items.now) size (is_nullable nullability))) values.now }
    requires countable { plain_overflow (fixed_lists (dtype_meaning items.now) size (is_nullable nullability)) (length values.now) ≡ None }
    ensures made { IfOk result (ArePlainValues (fixed_lists (dtype_meaning items.now) size (is_nullable nullability)) values.now) }
    ensures refuses { Refuses result (rows_fault
        (fixed_lists (dtype_meaning items.now) size (is_nullable nullability)) (map option_row values.now)) }
{
    let present = count_present(values);
    if present == values.len() {
        return fixed_lists_by_item(alloc, items, size, nullability, values);
    }
    if present == 0 {
        let none = fixed_lists_by_item(alloc, items, size, nullability, &[])?;
        return Ok(missing_rows(alloc, &none, values.len())?);
    }
    let mut places = Vec::with_capacity(alloc, values.len())?;
    let gathered = gather_values(alloc, values, &mut places)?;
    let lists = fixed_lists_by_item(alloc, items, size, nullability, &gathered)?;
    lists.known();
    Ok(lists.select_within(alloc, &Selection::at_positions(&places))?)
}

// Lists of one size, the rows of each written out.
#[cycle(plain_values)]
fn fixed_lists_by_item(
    alloc: Global,
    items: &DType,
    size: u32,
    nullability: Nullability,
    values: &[Option<ScalarValue>],
) -> Result<ArrayRef, VortexError>
    requires { All (FitsIfThere (fixed_lists (dtype_meaning items.now) size (is_nullable nullability))) values.now }
    ensures made { IfOk result (ArePlainValues (fixed_lists (dtype_meaning items.now) size (is_nullable nullability)) values.now) }
    ensures refuses { Refuses result (rows_fault
        (fixed_lists (dtype_meaning items.now) size (is_nullable nullability)) (map option_row values.now)) }
{
    let Some(count) = values.len().checked_mul(size as usize) else {
        return Err(VortexError::Overflow);
    };
    let rows = spread_fixed_lists(alloc, values, size as usize, count)?;
    let elements = plain_values(alloc, items, &rows)?;
    let validity = validity_of_values(alloc, nullability, values)?;
    let len = values.len();
    Ok(ArrayRef::fixed_size_list(alloc, elements, size, validity, len)?)
}

// Records: a null has a null in each field.
#[cycle(plain_values)]
fn plain_records(
    alloc: Global,
    fields: &StructFields,
    nullability: Nullability,
    values: &[Option<ScalarValue>],
) -> Result<ArrayRef, VortexError>
    requires { All (FitsIfThere (records (field_names fields.now) (field_kinds fields.now) (is_nullable nullability))) values.now }
    ensures made { IfOk result (ArePlainValues
        (records (field_names fields.now) (field_kinds fields.now) (is_nullable nullability)) values.now) }
    ensures refuses { Refuses result (fields_fault (field_kinds fields.now) 0 (map option_row values.now)) }
{
    let columns = plain_fields(alloc, fields.fields(), values)?;
    let names = fields.names().try_clone(alloc)?;
    let validity = validity_of_values(alloc, nullability, values)?;
    let len = values.len();
    Ok(ArrayRef::structure(alloc, names, columns, validity, len)?)
}

// The fields of records, each of its data type.
#[cycle(plain_values)]
fn plain_fields(
    alloc: Global,
    dtypes: &[DType],
    values: &[Option<ScalarValue>],
) -> Result<Vec<ArrayRef>, VortexError>
    requires { FieldsFitNamed dtypes.now (map option_row values.now) }
    ensures made { IfOk result (λ cs. ArePlainFields 0 dtypes.now (map option_row values.now) cs.items) }
    ensures refuses { Refuses result (fields_fault (kinds_of dtypes.now) 0 (map option_row values.now)) }
{
    let mut columns = Vec::with_capacity(alloc, dtypes.len())?;
    for (place, dtype) in dtypes.iter().enumerate() {
        let rows = fields_at(alloc, values, place)?;
        columns.push(plain_values(alloc, dtype, &rows)?)?;
    }
    Ok(columns)
}

// How many values are there.
fn count_present(values: &[Option<ScalarValue>]) -> usize
    ensures { result ≡ length (filter is_some values.now) }
{
    let mut count = 0;
    for i in 0..values.len() {
        if values[i].is_some() {
            count += 1;
        }
    }
    count
}

// The values that are there, each once, behind one that is none. The place of each value among
// these is added.
fn gather_values(
    alloc: Global,
    values: &[Option<ScalarValue>],
    places: &mut Vec<usize>,
) -> Result<Vec<Option<ScalarValue>>, VortexError>
    requires no_places { places.old.items ≡ [] }
    ensures { Gives result (λ gathered. AreGathered values.now gathered.items places.new.items) }
{
    let mut gathered = vec![in alloc; None]?;
    for value in values {
        let place = gather_value(alloc, value, &mut gathered)?;
        places.push(place)?;
    }
    Ok(gathered)
}

// The place of a value among these, to which it is added where it is there. The first is none.
fn gather_value(
    alloc: Global,
    value: &Option<ScalarValue>,
    gathered: &mut Vec<Option<ScalarValue>>,
) -> Result<usize, VortexError>
    requires some { 0 < length gathered.old.items }
    requires none { slice_index_or gathered.old.items 0 None ≡ None }
    ensures added { IfOk result (λ _. gathered.new.items ≡ gathered.old.items ++ filter is_some (value.now ∷ [])) }
    ensures within { IfOk result (λ place. place < length gathered.new.items) }
    ensures place { Gives result (λ place. slice_index_or gathered.new.items place None ≡ value.now) }
{
    if value.is_none() {
        return Ok(0);
    }
    let place = gathered.len();
    gathered.push(share(alloc, value)?)?;
    Ok(place)
}

// The rows of lists, one list after another; a null has none. The place and the length of each are
// added to these.
fn spread_lists(
    alloc: Global,
    values: &[Option<ScalarValue>],
    places: &mut Vec<usize>,
    sizes: &mut Vec<usize>,
) -> Result<Vec<Option<ScalarValue>>, VortexError>
    requires no_places { places.old.items ≡ [] }
    requires no_sizes { sizes.old.items ≡ [] }
    ensures { Gives result (λ rows. AreSpread (map option_row values.now) (map option_row rows.items) places.new.items sizes.new.items) }
{
    let mut rows = Vec::new(alloc);
    for value in values {
        let start = rows.len();
        places.push(start)?;
        add_items(alloc, value, &mut rows)?;
        sizes.push(rows.len() - start)?;
    }
    Ok(rows)
}

// The rows of lists, one list after another; a null has none.
pub(crate) fn items_of(
    alloc: Global,
    values: &[Option<ScalarValue>],
) -> Result<Vec<Option<ScalarValue>>, VortexError>
    ensures { Gives result (λ rows. map option_row rows.items ≡ flat_map items_in (map option_row values.now)) }
{
    let mut rows = Vec::new(alloc);
    for value in values {
        add_items(alloc, value, &mut rows)?;
    }
    Ok(rows)
}

// The rows of lists of this size, one list after another, of which there are `count`; a null has so
// many nulls.
fn spread_fixed_lists(
    alloc: Global,
    values: &[Option<ScalarValue>],
    size: usize,
    count: usize,
) -> Result<Vec<Option<ScalarValue>>, VortexError>
    ensures { Gives result (λ rows. map option_row rows.items ≡ flat_map (items_or_nulls size) (map option_row values.now)) }
{
    let mut rows = Vec::with_capacity(alloc, count)?;
    for value in values {
        add_items_or_nulls(alloc, value, size, &mut rows)?;
    }
    Ok(rows)
}

// The rows of a list are added to these; a null has none.
fn add_items(
    alloc: Global,
    value: &Option<ScalarValue>,
    out: &mut Vec<Option<ScalarValue>>,
) -> Result<(), VortexError>
    ensures { Gives result (λ _. map option_row out.new.items ≡ map option_row out.old.items ++ items_in (option_row value.now)) }
{
    match value {
        Some(ScalarValue::List(rows)) => add_rows(alloc, rows.as_slice(), out),
        _ => Ok(()),
    }
}

// The rows of a list are added to these; a null has so many nulls.
fn add_items_or_nulls(
    alloc: Global,
    value: &Option<ScalarValue>,
    size: usize,
    out: &mut Vec<Option<ScalarValue>>,
) -> Result<(), VortexError>
    ensures { Gives result (λ _. map option_row out.new.items
        ≡ map option_row out.old.items ++ items_or_nulls size (option_row value.now)) }
{
    match value {
        Some(ScalarValue::List(rows)) => add_rows(alloc, rows.as_slice(), out),
        _ => add_nulls(size, out),
    }
}

// These rows are added, shared.
fn add_rows(
    alloc: Global,
    rows: &[Option<ScalarValue>],
    out: &mut Vec<Option<ScalarValue>>,
) -> Result<(), VortexError>
    ensures { Gives result (λ _. out.new.items ≡ out.old.items ++ rows.now) }
{
    for row in rows {
        out.push(share(alloc, row)?)?;
    }
    Ok(())
}

// So many nulls are added.
fn add_nulls(count: usize, out: &mut Vec<Option<ScalarValue>>) -> Result<(), VortexError>
    ensures { Gives result (λ _. map option_row out.new.items ≡ map option_row out.old.items ++ replicate count null) }
{
    for _i in 0..count {
        out.push(None)?;
    }
    Ok(())
}

// The field at a place of each record, shared; a null has a null there.
pub(crate) fn fields_at(
    alloc: Global,
    values: &[Option<ScalarValue>],
    place: usize,
) -> Result<Vec<Option<ScalarValue>>, VortexError>
    ensures { Gives result (λ rows. map option_row rows.items ≡ map (field_in place) (map option_row values.now)) }
{
    let mut rows = Vec::with_capacity(alloc, values.len())?;
    for value in values {
        rows.push(field_at(alloc, value, place)?)?;
    }
    Ok(rows)
}

// The field at a place of a record, shared, `None` where there is none.
fn field_at(
    alloc: Global,
    value: &Option<ScalarValue>,
    place: usize,
) -> Result<Option<ScalarValue>, VortexError>
    ensures { Gives result (λ v. option_row v ≡ field_in place (option_row value.now)) }
{
    match value {
        Some(ScalarValue::Record(fields)) => match fields.as_slice().get(place) {
            Some(field) => share(alloc, field),
            None => Ok(None),
        },
        _ => Ok(None),
    }
}

// The same value, or none, its parts shared.
pub(crate) fn share(
    alloc: Global,
    value: &Option<ScalarValue>,
) -> Result<Option<ScalarValue>, VortexError>
    ensures { Gives result (λ v. v ≡ value.now) }
{
    match value {
        Some(value) => Ok(Some(value.try_clone(alloc)?)),
        None => Ok(None),
    }
}
