// Rows of a data type where none is given, by layout: items and fields are made once, however many
// rows there are.

ghost use Rattle.std.specs.Prelude.{◌≡◌, false};
ghost use Rattle.vx_base.specs.DTypes.{dtype_meaning, field_kinds, field_names};
ghost use Rattle.vx_base.specs.Kinds.{fixed_lists, records};
ghost use Rattle.vx_base.specs.Refusals.{Gives};
ghost use Rattle.vx_tree.specs.Tree.{non_nullable, structure};
ghost use Rattle.vx_tree.specs.Meaning.{kind_of, trees_from};
ghost use Rattle.vx_tree.specs.Formed.{IsStruct};
ghost use Rattle.vx_tree.specs.DefaultRows.{AreDefaults, AreDefaultColumns};

use crate::array::{ArrayRef, Validity};
use std::alloc::Global;
use vx_base::{DType, Scalar, StructFields, VortexError};

impl ArrayRef {
    // `len` default rows of its data type.
    pub(crate) fn default_rows(&self, alloc: Global, len: usize) -> Result<ArrayRef, VortexError>
        ensures { Gives result (AreDefaults (kind_of self.now) len) }
    {
        defaults_of(alloc, self.dtype(), len)
    }
}

// `len` default rows of a data type: a constant, but that lists of one size and records where null
// may not stand are made of the default rows of their items and fields.
#[cycle(defaults)]
fn defaults_of(alloc: Global, dtype: &DType, len: usize) -> Result<ArrayRef, VortexError>
    ensures { Gives result (AreDefaults (dtype_meaning dtype.now) len) }
{
    if dtype.is_nullable() {
        return default_constant(alloc, dtype, len);
    }
    match dtype {
        DType::FixedSizeList(items, size, _) => default_lists(alloc, items, *size, len),
        DType::Struct(fields, _) => default_records(alloc, fields, len),
        _ => default_constant(alloc, dtype, len),
    }
}

// `len` default lists of one size, over the default rows of their items. Where so many items cannot
// be counted it is one list, again and again.
#[cycle(defaults)]
fn default_lists(
    alloc: Global,
    items: &DType,
    size: u32,
    len: usize,
) -> Result<ArrayRef, VortexError>
    ensures { Gives result (AreDefaults (fixed_lists (dtype_meaning items.now) size false) len) }
{
    let width = size as usize;
    match len.checked_mul(width) {
        Some(count) => {
            let elements = defaults_of(alloc, items, count)?;
            ArrayRef::fixed_size_list(alloc, elements, size, Validity::NonNullable, len)
        }
        None => {
            let elements = defaults_of(alloc, items, width)?;
            repeated_list(alloc, elements, size, len)
        }
    }
}

// `len` default records, over the default rows of their fields.
#[cycle(defaults)]
fn default_records(
    alloc: Global,
    fields: &StructFields,
    len: usize,
) -> Result<ArrayRef, VortexError>
    ensures { Gives result (AreDefaults (records (field_names fields.now) (field_kinds fields.now) false) len) }
{
    let columns = default_columns(alloc, fields.fields(), len)?;
    records_of(alloc, fields, columns, len)
}

// A column of `len` default rows for each of these data types.
#[cycle(defaults)]
fn default_columns(
    alloc: Global,
    dtypes: &[DType],
    len: usize,
) -> Result<Vec<ArrayRef>, VortexError>
    ensures { Gives result (λ cs. AreDefaultColumns dtypes.now len cs.items) }
{
    let mut columns = Vec::with_capacity(alloc, dtypes.len())?;
    for dtype in dtypes {
        columns.push(defaults_of(alloc, dtype, len)?)?;
    }
    Ok(columns)
}

// One list, of all these elements, `len` times.
fn repeated_list(
    alloc: Global,
    elements: ArrayRef,
    size: u32,
    len: usize,
) -> Result<ArrayRef, VortexError>
    requires { AreDefaults (kind_of elements) size elements }
    ensures { Gives result (AreDefaults (fixed_lists (kind_of elements) size false) len) }
{
    let list = ArrayRef::fixed_size_list(alloc, elements, size, Validity::NonNullable, 1)?;
    match ArrayRef::zero_codes(alloc, len, &Validity::NonNullable) {
        Ok(codes) => ArrayRef::dictionary(alloc, codes, list, false),
        Err(error) => {
            drop(list);
            Err(error)
        }
    }
}

// `len` records of these columns, under the names of the fields.
fn records_of(
    alloc: Global,
    fields: &StructFields,
    columns: Vec<ArrayRef>,
    len: usize,
) -> Result<ArrayRef, VortexError>
    requires { IsStruct (field_names fields.now) (trees_from columns.items) len }
    ensures { Gives result (λ a. a ≡ structure (field_names fields.now) (trees_from columns.items) non_nullable len) }
{
    match fields.names().try_clone(alloc) {
        Ok(names) => ArrayRef::structure(alloc, names, columns, Validity::NonNullable, len),
        Err(error) => {
            drop(columns);
            Err(error)
        }
    }
}

// `len` default rows of a data type, as a constant.
#[tactic(auto, using(crate::proofs::DefaultRows::constant_defaults))]
fn default_constant(alloc: Global, dtype: &DType, len: usize) -> Result<ArrayRef, VortexError>
    ensures { Gives result (AreDefaults (dtype_meaning dtype.now) len) }
{
    let scalar = Scalar::default_value(alloc, dtype.try_clone(alloc)?)?;
    ArrayRef::constant(alloc, scalar, len)
}
