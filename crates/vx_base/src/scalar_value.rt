// The value of one row, and whether it fits a data type.

ghost use Rattle.std.specs.Prelude.{◌≡◌, ◌↔◌, length, map, IsTrue};
ghost use Rattle.vx_base.specs.Refusals.{Gives};
ghost use Rattle.vx_base.specs.Bytes.{AreBytes};
ghost use Rattle.vx_base.specs.Rows.{rows_from};
ghost use Rattle.vx_base.specs.Kinds.{Fits, IsShort};
ghost use Rattle.vx_base.specs.DTypes.{dtype_meaning, field_names, field_kinds};
ghost use Rattle.vx_base.specs.ValueRows.{option_row, row_under, ValuesFit, RecordFits};

use crate::byte_buffer::ByteBuffer;
use crate::dtypes::DType;
use crate::errors::VortexError;
use crate::struct_fields::StructFields;
use std::alloc::Global;
use std::marker::Model;
use std::rc::Rc;

/// How many bytes a text or a byte list has at most: as many as the length in a view can tell.
pub const MAX_VALUE_LEN: usize = 4294967295;

/// The value of one row that is not null.
#[cycle(value)]
#[derive(Drop)]
pub enum ScalarValue {
    /// A truth value.
    Bool(bool),
    /// A whole number.
    Int(i128),
    /// Bytes.
    Bytes(ByteBuffer),
    /// The bytes of a text.
    Text(ByteBuffer),
    /// A list of rows.
    List(ScalarValues),
    /// The fields of a record, in order.
    Record(ScalarValues),
}

/// Values in order, `None` where a row is null.
#[cycle(value)]
#[derive(Drop)]
pub struct ScalarValues {
    values: Rc<Vec<Option<ScalarValue>>>,
}

impl Model for ScalarValues {
    ghost use Rattle.std.specs.Prelude.{map};
    ghost use Rattle.vx_base.specs.Rows.{Rows, rows_from};
    ghost use Rattle.vx_base.specs.Codes.{coded_rows, rows_depth};

    ghost Value = { Rows };

    ghost coded = { coded_rows };

    ghost use Rattle.vx_base.specs.ValueRows.{option_row};

    ghost view = { λ v. rows_from (map option_row v.values.value.items) };

    ghost size = { rows_depth };

    ghost use Rattle.vx_base.specs.ValueFalls.{values_fall};

    ghost size_decreases = { λ v h. values_fall v.values.value.items };
}

impl ScalarValues {
    /// These values, with no copy of them. Fails only for want of memory.
    pub fn from_vec(
        alloc: Global,
        values: Vec<Option<ScalarValue>>,
    ) -> Result<ScalarValues, VortexError>
        ensures { Gives result (λ v. v ≡ rows_from (map option_row values.items)) }
    {
        let values = Rc::new(alloc, values)?;
        Ok(ScalarValues { values })
    }

    /// The values, to be read.
    pub fn as_slice(&self) -> &[Option<ScalarValue>]
        ensures { rows_from (map option_row result.now) ≡ self.now }
    {
        self.values.as_slice()
    }

    /// The same values, shared. Fails only for want of memory.
    pub fn try_clone(&self, _alloc: Global) -> Result<ScalarValues, VortexError>
        ensures { Gives result (λ v. v ≡ self.now) }
    {
        let values = self.values.clone()?;
        Ok(ScalarValues { values })
    }
}

impl ScalarValue {
    /// The same value, its parts shared. Fails only for want of memory.
    pub fn try_clone(&self, alloc: Global) -> Result<ScalarValue, VortexError>
        ensures { Gives result (λ v. v ≡ self.now) }
    {
        match self {
            ScalarValue::Bool(truth) => Ok(ScalarValue::Bool(*truth)),
            ScalarValue::Int(number) => Ok(ScalarValue::Int(*number)),
            ScalarValue::Bytes(bytes) => Ok(ScalarValue::Bytes(bytes.try_clone(alloc)?)),
            ScalarValue::Text(text) => Ok(ScalarValue::Text(text.try_clone(alloc)?)),
            ScalarValue::List(rows) => Ok(ScalarValue::List(rows.try_clone(alloc)?)),
            ScalarValue::Record(fields) => Ok(ScalarValue::Record(fields.try_clone(alloc)?)),
        }
    }
}

// The same value, its parts shared, or none where there is none.
pub(crate) fn share_value(
    alloc: Global,
    value: &Option<ScalarValue>,
) -> Result<Option<ScalarValue>, VortexError>
    ensures { Gives result (λ v. v ≡ value.now) }
{
    match value {
        Some(value) => Ok(Some(value.try_clone(alloc)?)),
        None => Ok(None),
    }
}

// Whether the row that a value is, or null for none, fits a data type.
#[tactic(auto, using(crate::proofs::ValueFits::struct_depth))]
#[cycle(fits)]
pub(crate) fn fits(dtype: &DType, value: &Option<ScalarValue>) -> bool
    ensures { IsTrue result ↔ Fits (dtype_meaning dtype.now) (row_under (dtype_meaning dtype.now) value.now) }
{
    let Some(value) = value else {
        return dtype.is_nullable();
    };
    match dtype {
        DType::Bool(_) => matches!(value, ScalarValue::Bool(_)),
        DType::Primitive(ptype, _) => match value {
            ScalarValue::Int(number) => ptype.holds(*number),
            _ => false,
        },
        DType::Utf8(_) => match value {
            ScalarValue::Text(text) => is_short(text) && simdutf8::is_utf8(text.as_slice()),
            _ => false,
        },
        DType::Binary(_) => match value {
            ScalarValue::Bytes(bytes) => is_short(bytes),
            _ => false,
        },
        DType::List(items, _) => match value {
            ScalarValue::List(rows) => all_fit(items, rows.as_slice()),
            _ => false,
        },
        DType::FixedSizeList(items, size, _) => match value {
            ScalarValue::List(rows) => all_fit_size(items, *size, rows.as_slice()),
            _ => false,
        },
        DType::Struct(fields, _) => match value {
            ScalarValue::Record(values) => fields_fit(fields, values.as_slice()),
            _ => false,
        },
    }
}

// Whether there are no more bytes than a view can count.
fn is_short(bytes: &ByteBuffer) -> bool
    ensures value { IsTrue result ↔ IsShort bytes.now }
    ensures bytes { AreBytes bytes.now }
{
    bytes.as_slice().len() <= MAX_VALUE_LEN
}

// Whether each of the rows fits the data type.
#[cycle(fits)]
fn all_fit(dtype: &DType, values: &[Option<ScalarValue>]) -> bool
    ensures { IsTrue result ↔ ValuesFit (dtype_meaning dtype.now) values.now }
{
    for value in values {
        if !fits(dtype, value) {
            return false;
        }
    }
    true
}

// Whether each of the rows fits the data type, and there are so many.
#[cycle(fits)]
fn all_fit_size(dtype: &DType, size: u32, values: &[Option<ScalarValue>]) -> bool
    ensures { IsTrue result ↔ ((length values.now ≡ size) × ValuesFit (dtype_meaning dtype.now) values.now) }
{
    values.len() as u64 == u64::from(size) && all_fit(dtype, values)
}

// Whether each of the values fits the field at its place, and every field has one.
#[tactic(auto, using(crate::proofs::ValueFits::field_depth))]
#[cycle(fits)]
fn fields_fit(fields: &StructFields, values: &[Option<ScalarValue>]) -> bool
    ensures { IsTrue result ↔ RecordFits (field_names fields.now) (field_kinds fields.now) values.now }
{
    let dtypes = fields.fields();
    if dtypes.len() != values.len() {
        return false;
    }
    for i in 0..values.len() {
        if !fits(&dtypes[i], &values[i]) {
            return false;
        }
    }
    true
}
